//! Tests that entries of every kind are read as they were pushed, whatever their numbers.

ghost use Rattle.std.specs.Prelude.{false, ◌<◌, ◌≡◌, ◌≤◌};

use super::priority;
use linked_list_allocator::LocalHeap;
use pt_history::{ForcedEntry, History};
use pt_model::{Entry, Start};
use pt_types::{Call, ClientId, Clock, Deadline, Moment, MutexKind, Name, ObjectId, Outcome};
use std::alloc::{Allocator, Global};
use std::test::Fail;

// The number of entries: the calls, and one or two of each other kind.
const ENTRIES: u64 = 44;

// The names and times of the entries.
#[derive(Drop)]
struct Words {
    one: Name,
    other: Name,
    due: Deadline,
    moment: Moment,
}

fn make_words() -> Option<Words> {
    Some(Words {
        one: Name::new(b"abcdefgh")?,
        other: Name::new(&[b'z'; 32])?,
        due: Deadline::new(9_999_999_999, 1_000_000_000)?,
        moment: Moment::new(9_999_999_999, 999_999_999)?,
    })
}

// Returns one of the calls whose one name is their only object, without a number, deadline or
// clock.
fn named(number: u64, name: Name) -> Call {
    match number {
        0 => Call::MutexInit(name, MutexKind::Normal, false),
        1 => Call::MutexInit(name, MutexKind::Errorcheck, true),
        2 => Call::MutexInit(name, MutexKind::Recursive, true),
        3 => Call::Lock(name),
        4 => Call::Trylock(name),
        5 => Call::Unlock(name),
        6 => Call::Consistent(name),
        7 => Call::MutexDestroy(name),
        8 => Call::RwlockInit(name),
        9 => Call::Rdlock(name),
        10 => Call::Tryrdlock(name),
        11 => Call::Wrlock(name),
        12 => Call::Trywrlock(name),
        13 => Call::Rwunlock(name),
        14 => Call::RwlockDestroy(name),
        15 => Call::CondInit(name),
        16 => Call::CondDestroy(name),
        17 => Call::Signal(name),
        18 => Call::Broadcast(name),
        19 => Call::Bwait(name),
        _ => Call::BarrierDestroy(name),
    }
}

// Returns one of the calls of one name and a number, a deadline or a clock.
fn limited(number: u64, name: Name, due: Deadline) -> Call {
    match number {
        21 => Call::BarrierInit(name, 1024),
        22 => Call::BarrierInit(name, 9_999_999_999),
        23 => Call::Timedlock(name, due),
        24 => Call::Clocklock(name, Clock::Real, due),
        25 => Call::Clocklock(name, Clock::Mono, due),
        26 => Call::Timedrdlock(name, due),
        27 => Call::Clockrdlock(name, Clock::Real, due),
        28 => Call::Clockrdlock(name, Clock::Mono, due),
        29 => Call::Timedwrlock(name, due),
        30 => Call::Clockwrlock(name, Clock::Real, due),
        _ => Call::Clockwrlock(name, Clock::Mono, due),
    }
}

// Returns one of the waits.
fn wait(number: u64, cond: Name, mutex: Name, due: Deadline) -> Call {
    match number {
        32 => Call::Wait(cond, mutex),
        33 => Call::Timedwait(cond, mutex, due),
        34 => Call::Clockwait(cond, mutex, Clock::Real, due),
        _ => Call::Clockwait(cond, mutex, Clock::Mono, due),
    }
}

fn call(words: &Words, number: u64) -> Call {
    match number {
        0..=20 => named(number, words.one.copied()),
        21..=31 => limited(number, words.one.copied(), words.due),
        _ => wait(number, words.one.copied(), words.other.copied(), words.due),
    }
}

// No answer, and each answer to a call.
const ANSWERS: [Option<Outcome>; 11] = [
    None,
    Some(Outcome::Done),
    Some(Outcome::Serial),
    Some(Outcome::Eperm),
    Some(Outcome::Einval),
    Some(Outcome::Ebusy),
    Some(Outcome::Eagain),
    Some(Outcome::Edeadlk),
    Some(Outcome::Etimedout),
    Some(Outcome::Eownerdead),
    Some(Outcome::Enotrecoverable),
];

// Returns the entry of a number: the calls first, and then the other kinds. Clients, places and
// objects count from `from`.
fn entry(words: &Words, from: u64, number: u64) -> Entry {
    let named = from.wrapping_add(number);
    match number {
        36 => Entry::Join(ClientId(named), priority(99)),
        37 => Entry::Death(ClientId(named)),
        38 => Entry::Moment(Clock::Real, words.moment),
        39 => Entry::Moment(Clock::Mono, words.moment),
        40 => Entry::Grant(named, Outcome::Eownerdead),
        41 => Entry::Trip(ObjectId(named)),
        42 => Entry::Yield(ObjectId(named)),
        43 => Entry::Expire(named),
        _ => {
            let answer = ANSWERS[(number % 11) as usize];
            Entry::Call(ClientId(named), call(words, number), answer)
        }
    }
}

// Returns each entry in turn, counted from each of four numbers in turn.
fn sample(words: &Words, numbers: &[u64; 4], index: u64) -> Entry {
    entry(words, numbers[(index % 4) as usize], index / 4)
}

// Returns a history that begins at a place.
fn begin<A: Allocator + Copy>(alloc: A, at: u64) -> History<A>
    requires { at ≤ 4611686018427387904 }
{
    let mut history = History::with_limit(alloc, 100_000);
    history.seal(Start {
        at,
        outer: 0,
        real: None,
        mono: None,
        clients: Vec::new(alloc),
        objects: Vec::new(alloc),
        readers: Vec::new(alloc),
        calls: Vec::new(alloc),
    });
    history
}

// Pushes a call or a forced entry by the method that is made for it. Returns whether the entry is
// one of these.
fn push_short(history: &mut History, entry: &Entry) -> bool
    requires { 0 < history.old.room }
    ensures { result ≡ false → history.new ≡ history.old }
{
    match entry {
        Entry::Call(client, call, answer) => history.push_call(*client, call, *answer),
        Entry::Grant(place, outcome) => history.push_forced(ForcedEntry::Grant(*place, *outcome)),
        Entry::Trip(barrier) => history.push_forced(ForcedEntry::Trip(*barrier)),
        Entry::Yield(mutex) => history.push_forced(ForcedEntry::Yield(*mutex)),
        Entry::Expire(place) => history.push_forced(ForcedEntry::Expire(*place)),
        _ => return false,
    }
    true
}

// Pushes all entries, as far as room is left.
fn push_all(history: &mut History, words: &Words, numbers: &[u64; 4]) {
    for index in 0..4 * ENTRIES {
        if history.room() > 0 {
            let entry = sample(words, numbers, index);
            if !push_short(history, &entry) {
                history.push(entry);
            }
        }
    }
}

// Returns true if all entries are read, from a place on.
fn are_read(history: &History, at: u64, words: &Words, numbers: &[u64; 4]) -> bool {
    for index in 0..4 * ENTRIES {
        let stored = history.entry(at.wrapping_add(index));
        if stored != Some(sample(words, numbers, index)) {
            return false;
        }
    }
    true
}

// Returns true if a history that begins at a place has each entry that was pushed.
fn are_stored(alloc: Global, words: &Words, at: u64, numbers: &[u64; 4]) -> bool
    requires { at ≤ 4611686018427387904 }
{
    let mut history = begin(alloc, at);
    let is_reserved = history.reserve_for(4 * ENTRIES).is_ok();
    push_all(&mut history, words, numbers);
    is_reserved && are_read(&history, at, words, numbers)
}

// The second history begins 2^31 past a number of more than 33 bits, from which numbers of 32 bits
// count. Its entries count from 0, from near the least and the greatest of these numbers, and from
// its place.
fn are_all_stored(alloc: Global) -> bool {
    let Some(words) = make_words() else {
        return false;
    };
    are_stored(
        alloc,
        &words,
        0,
        &[0, 4_294_967_276, 4_294_967_296, 1 << 40],
    ) && are_stored(
        alloc,
        &words,
        10_737_418_251,
        &[0, 8_589_934_583, 12_884_901_879, 10_737_418_251],
    )
}

#[test]
fn entries_are_read_as_they_were_pushed(rt: HostRuntime) {
    assert!(rt; are_all_stored(rt.alloc()));
}

// Pushes a lock, its grant and an unlock again and again, of clients whose numbers rise.
fn push_ordinary(history: &mut History<&LocalHeap>, words: &Words, from: u64, count: u64) {
    for index in 0..count {
        if history.reserve_for(1).is_ok() {
            let number = [3, 40, 5][(index % 3) as usize];
            history.push(entry(words, from.wrapping_add(index), number));
        }
    }
}

// Returns true if ordinary entries from a place on take at most 40 bytes each.
fn are_small(alloc: Global, words: &Words, at: u64) -> Result<bool, Fail>
    requires { at ≤ 4611686018427387904 }
{
    let heap = LocalHeap::new(alloc, 1 << 22)?;
    Ok(take_little(&heap, words, at))
}

fn take_little(heap: &LocalHeap, words: &Words, at: u64) -> bool
    requires { at ≤ 4611686018427387904 }
{
    let mut history = begin(heap, at);
    push_ordinary(&mut history, words, at, 30_000);
    history.entry_count() == 30_000 && heap.used() <= 40 * 30_000
}

#[test]
fn ordinary_entries_take_little_memory(rt: HostRuntime) -> Result<(), Fail> {
    let words = make_words().ok_or("words")?;
    assert!(rt; are_small(rt.alloc(), &words, 0)? && are_small(rt.alloc(), &words, 1 << 40)?);
    Ok(())
}
