//! Entries as they are stored: numbers of 32 bits, and indices of names, deadlines and readings.

ghost use Rattle.std.specs.Prelude.{◌≡◌, ◌+◌, ◌-◌, IfSome, if◌then◌else◌};
ghost use Rattle.pt_model.specs.Histories.{is_forced};
ghost use Rattle.pt_history.specs.Compact.{call_of_word, base_of, outcome_of_answer, with_limit};
ghost use Rattle.pt_history.specs.Compact.{wait_until};
ghost use Rattle.pt_history.specs.Compact.{ShowsSingle, forced_entry};
ghost use Rattle.pt_types.specs.declared.call.Call.TheVariants.{BarrierInit};

use pt_model::Entry;
use pt_types::operations::LockKind;
use pt_types::{Call, Clock, Deadline, MutexKind, Name, NamedVerb, ObjectId, Outcome, Priority};
use std::mem::size_of;

/// A call word that one name follows, with the call's other words.
#[derive(Clone, Copy)]
pub(crate) enum Word {
    MutexInit(MutexKind, bool),
    Named(NamedVerb),
}

/// The answer that a call got at once, or the fact that it waits.
#[derive(Clone, Copy)]
pub(crate) enum Answer {
    Waits,
    Done,
    Serial,
    Eperm,
    Einval,
    Ebusy,
    Eagain,
    Edeadlk,
    Etimedout,
    Eownerdead,
    Enotrecoverable,
}

/// The deadline of a call, and its clock if the call names one.
#[derive(Clone, Copy)]
pub(crate) struct TimeLimit {
    pub(crate) deadline: Deadline,
    pub(crate) clock: Option<Clock>,
}

/// An entry in 16 bytes. Its numbers are counted from the base of its history. Small fields come
/// first, so that they share a word with the tag.
#[derive(Clone, Copy)]
pub(crate) enum Compact {
    /// The priority and the client.
    Join(Priority, u32),
    /// The word, the answer, the length of the name, the client, and the index at which the name
    /// begins.
    Named(Word, Answer, u8, u32, u32),
    /// A `barrier-init`: the fields of `Named` without the word, and then the count.
    Barrier(Answer, u8, u32, u32, u32),
    /// A timed call for a lock: the fields of `Named`, with the lock in place of the word, and then
    /// the index of its limit.
    Timed(LockKind, Answer, u8, u32, u32, u32),
    /// A wait: the answer, the lengths of both names, the client, and the index at which the names
    /// begin.
    Wait(Answer, u8, u8, u32, u32),
    /// A wait with a deadline: the fields of `Wait`, and then the index of its limit.
    TimedWait(Answer, u8, u8, u32, u32, u32),
    /// The client.
    Death(u32),
    /// The clock, and the index of the reading.
    Moment(Clock, u32),
    /// The outcome, and the place of the call.
    Grant(Outcome, u32),
    /// The barrier.
    Trip(u32),
    /// The mutex.
    Yield(u32),
    /// The place of the call.
    Expire(u32),
    /// The index of an entry that is stored whole.
    Whole(u32),
}

const _: () = prove!(size_of::<Compact>() == 16);

/// A forced entry, which must follow the entries before it.  [XSH, the call's page]
#[derive(Clone, Copy)]
pub enum ForcedEntry {
    /// The place of the call, and its outcome.
    Grant(u64, Outcome),
    /// The barrier.
    Trip(ObjectId),
    /// The mutex.
    Yield(ObjectId),
    /// The place of the call.
    Expire(u64),
}

/// Returns the stored form of an answer. None is a call that waits.
#[inline(always)]
pub(crate) fn answer_of(outcome: Option<Outcome>) -> Answer
    ensures { outcome_of_answer result ≡ outcome }
{
    match outcome {
        None => Answer::Waits,
        Some(Outcome::Done) => Answer::Done,
        Some(Outcome::Serial) => Answer::Serial,
        Some(Outcome::Eperm) => Answer::Eperm,
        Some(Outcome::Einval) => Answer::Einval,
        Some(Outcome::Ebusy) => Answer::Ebusy,
        Some(Outcome::Eagain) => Answer::Eagain,
        Some(Outcome::Edeadlk) => Answer::Edeadlk,
        Some(Outcome::Etimedout) => Answer::Etimedout,
        Some(Outcome::Eownerdead) => Answer::Eownerdead,
        Some(Outcome::Enotrecoverable) => Answer::Enotrecoverable,
    }
}

/// Returns the outcome of an answer, or None if the call waits.
pub(crate) fn outcome_of(answer: Answer) -> Option<Outcome>
    ensures { result ≡ outcome_of_answer answer }
{
    match answer {
        Answer::Waits => None,
        Answer::Done => Some(Outcome::Done),
        Answer::Serial => Some(Outcome::Serial),
        Answer::Eperm => Some(Outcome::Eperm),
        Answer::Einval => Some(Outcome::Einval),
        Answer::Ebusy => Some(Outcome::Ebusy),
        Answer::Eagain => Some(Outcome::Eagain),
        Answer::Edeadlk => Some(Outcome::Edeadlk),
        Answer::Etimedout => Some(Outcome::Etimedout),
        Answer::Eownerdead => Some(Outcome::Eownerdead),
        Answer::Enotrecoverable => Some(Outcome::Enotrecoverable),
    }
}

/// Returns the base of a history that begins at a place: 2^31 less than the place, but at least 0.
pub(crate) fn base(at: u64) -> u64
    ensures { result ≡ base_of at }
{
    at.saturating_sub(2_147_483_648)
}

/// Returns a place counted from the base, or None if it is below the base or takes more than 32
/// bits.
pub fn near(base: u64, place: u64) -> Option<u32>
    ensures { IfSome result (λ n. base + n ≡ place) }
{
    if place < base || place - base > 4_294_967_295 {
        return None;
    }
    Some((place - base) as u32)
}

/// Returns the word and the name of a call that consists of these, or None for another call.
pub(crate) fn named(call: &Call) -> Option<(Word, &Name)>
    ensures { IfSome result (λ p. call_of_word p.0 p.1.now ≡ call.now) }
{
    match call {
        Call::MutexInit(name, kind, robust) => Some((Word::MutexInit(*kind, *robust), name)),
        _ => {
            let (verb, name) = NamedVerb::of(call)?;
            Some((Word::Named(verb), name))
        }
    }
}

/// Returns the call of a word and a name.
pub(crate) fn call_of(word: Word, name: Name) -> Call
    ensures { result ≡ call_of_word word name }
{
    match word {
        Word::MutexInit(kind, robust) => Call::MutexInit(name, kind, robust),
        Word::Named(verb) => verb.call(name),
    }
}

fn limit(deadline: Deadline, clock: Option<Clock>) -> TimeLimit
    ensures { result ≡ record { deadline = deadline; clock = clock } }
{
    TimeLimit { deadline, clock }
}

/// Returns the lock, the name and the limit of a timed call for a lock, or None for another call.
#[inline(always)]
pub(crate) fn timed(call: &Call) -> Option<(LockKind, &Name, TimeLimit)>
    ensures { IfSome result (λ p. with_limit p.0 p.1.now p.2.deadline p.2.clock ≡ call.now) }
{
    match call {
        Call::Timedlock(name, deadline) => {
            Some((LockKind::MutexLock, name, limit(*deadline, None)))
        }
        Call::Clocklock(name, clock, deadline) => {
            Some((LockKind::MutexLock, name, limit(*deadline, Some(*clock))))
        }
        Call::Timedrdlock(name, deadline) => {
            Some((LockKind::ReadLock, name, limit(*deadline, None)))
        }
        Call::Clockrdlock(name, clock, deadline) => {
            Some((LockKind::ReadLock, name, limit(*deadline, Some(*clock))))
        }
        Call::Timedwrlock(name, deadline) => {
            Some((LockKind::WriteLock, name, limit(*deadline, None)))
        }
        Call::Clockwrlock(name, clock, deadline) => {
            Some((LockKind::WriteLock, name, limit(*deadline, Some(*clock))))
        }
        _ => None,
    }
}

/// Returns the timed call for a lock with this name and this limit.
pub(crate) fn timed_call(kind: LockKind, name: Name, limit: TimeLimit) -> Call
    ensures { result ≡ with_limit kind name limit.deadline limit.clock }
{
    let deadline = limit.deadline;
    match (kind, limit.clock) {
        (LockKind::MutexLock, None) => Call::Timedlock(name, deadline),
        (LockKind::MutexLock, Some(clock)) => Call::Clocklock(name, clock, deadline),
        (LockKind::ReadLock, None) => Call::Timedrdlock(name, deadline),
        (LockKind::ReadLock, Some(clock)) => Call::Clockrdlock(name, clock, deadline),
        (LockKind::WriteLock, None) => Call::Timedwrlock(name, deadline),
        (LockKind::WriteLock, Some(clock)) => Call::Clockwrlock(name, clock, deadline),
    }
}

/// Returns the name and the count of a call that makes a barrier. Returns None if the count takes
/// more than 32 bits, and for another call.
pub(crate) fn barrier(call: &Call) -> Option<(&Name, u32)>
    ensures { IfSome result (λ p. BarrierInit p.0.now p.1 ≡ call.now) }
{
    match call {
        Call::BarrierInit(name, count) => Some((name, near(0, *count)?)),
        _ => None,
    }
}

/// Returns both names and the limit of a timed wait, or None for another call.
pub(crate) fn timed_wait(call: &Call) -> Option<(&Name, &Name, TimeLimit)>
    ensures { IfSome result (λ p. wait_until p.0.now p.1.now p.2.deadline p.2.clock ≡ call.now) }
{
    match call {
        Call::Timedwait(cond, mutex, deadline) => Some((cond, mutex, limit(*deadline, None))),
        Call::Clockwait(cond, mutex, clock, deadline) => {
            Some((cond, mutex, limit(*deadline, Some(*clock))))
        }
        _ => None,
    }
}

/// Returns the timed wait with these names and this limit.
pub(crate) fn wait_call(cond: Name, mutex: Name, limit: TimeLimit) -> Call
    ensures { result ≡ wait_until cond mutex limit.deadline limit.clock }
{
    match limit.clock {
        None => Call::Timedwait(cond, mutex, limit.deadline),
        Some(clock) => Call::Clockwait(cond, mutex, clock, limit.deadline),
    }
}

/// Returns what an entry adds to the number of outer entries: 0 if it is forced, else 1.
pub(crate) fn outer_in(entry: &Entry) -> u64
    ensures { result ≡ if is_forced entry.now then 0 else 1 }
{
    match entry {
        Entry::Join(..) | Entry::Call(..) | Entry::Death(_) | Entry::Moment(..) => 1,
        Entry::Grant(..) | Entry::Trip(_) | Entry::Yield(_) | Entry::Expire(_) => 0,
    }
}

/// Returns a forced entry as an entry of any kind.
pub(crate) fn entry_of(forced: &ForcedEntry) -> Entry
    ensures { result ≡ forced_entry forced.now }
{
    match forced {
        ForcedEntry::Grant(place, outcome) => Entry::Grant(*place, *outcome),
        ForcedEntry::Trip(barrier) => Entry::Trip(*barrier),
        ForcedEntry::Yield(mutex) => Entry::Yield(*mutex),
        ForcedEntry::Expire(place) => Entry::Expire(*place),
    }
}

/// Returns the stored form of a forced entry, or None if its number does not fit.
pub(crate) fn stored_forced(base: u64, forced: &ForcedEntry) -> Option<Compact>
    ensures { IfSome result (λ c. ShowsSingle base c (forced_entry forced.now)) }
{
    match forced {
        ForcedEntry::Grant(place, outcome) => Some(Compact::Grant(*outcome, near(base, *place)?)),
        ForcedEntry::Trip(barrier) => Some(Compact::Trip(near(base, barrier.0)?)),
        ForcedEntry::Yield(mutex) => Some(Compact::Yield(near(base, mutex.0)?)),
        ForcedEntry::Expire(place) => Some(Compact::Expire(near(base, *place)?)),
    }
}

/// Returns the stored form of an entry that refers to nothing stored elsewhere. Returns None for
/// other entries, or if a number does not fit.
pub(crate) fn single_entry(base: u64, entry: &Entry) -> Option<Compact>
    ensures { IfSome result (λ c. ShowsSingle base c entry.now) }
{
    match entry {
        Entry::Join(client, priority) => Some(Compact::Join(*priority, near(base, client.0)?)),
        Entry::Death(client) => Some(Compact::Death(near(base, client.0)?)),
        Entry::Grant(place, outcome) => stored_forced(base, &ForcedEntry::Grant(*place, *outcome)),
        Entry::Trip(barrier) => stored_forced(base, &ForcedEntry::Trip(*barrier)),
        Entry::Yield(mutex) => stored_forced(base, &ForcedEntry::Yield(*mutex)),
        Entry::Expire(place) => stored_forced(base, &ForcedEntry::Expire(*place)),
        Entry::Call(..) | Entry::Moment(..) => None,
    }
}
