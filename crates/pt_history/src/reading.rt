//! Entries as they are read back from their stored form.

ghost use Rattle.std.specs.Prelude.{◌≡◌, ◌+◌, ◌<◌, ◌≤◌, length};
ghost use Rattle.pt_types.specs.Limits.{max_place};
ghost use Rattle.pt_history.specs.Compact.{read_compact, outcome_of_answer, limit_at, HasLimit};
ghost use Rattle.pt_history.specs.Compact.{HaveLimit};
ghost use Rattle.pt_history.specs.Compact.{IsStored, IsText, AreTexts, text_at, with_limit};
ghost use Rattle.pt_history.specs.Compact.{wait_until};
ghost use Rattle.pt_history.specs.Records.{parts_of};
ghost use Rattle.pt_history.specs.Stored.{caller_of};
ghost use Rattle.pt_types.specs.declared.call.Call.TheVariants.{Wait};
ghost use Rattle.pt_model.specs.declared.entry.Entry.TheVariants.{Call as CallEntry};

use crate::compact::{Answer, Compact, call_of, outcome_of, timed_call, wait_call};
use crate::records::Records;
use pt_model::Entry;
use pt_types::operations::LockKind;
use pt_types::{Call, ClientId, Name, ObjectId};
use std::alloc::Allocator;

// Returns the entry of a call.
fn call_entry(base: u64, client: u32, call: Call, answer: Answer) -> Entry
    requires { base ≤ max_place }
    ensures { result ≡ CallEntry (base + client) call (outcome_of_answer answer) }
{
    Entry::Call(ClientId(base + client as u64), call, outcome_of(answer))
}

/// Returns a copy of an entry. This allocates nothing.
pub(crate) fn copied(entry: &Entry) -> Entry
    ensures { result ≡ entry.now }
{
    match entry {
        Entry::Join(client, priority) => Entry::Join(*client, *priority),
        Entry::Call(client, call, answer) => Entry::Call(*client, call.copied(), *answer),
        Entry::Death(client) => Entry::Death(*client),
        Entry::Moment(clock, moment) => Entry::Moment(*clock, *moment),
        Entry::Grant(place, outcome) => Entry::Grant(*place, *outcome),
        Entry::Trip(barrier) => Entry::Trip(*barrier),
        Entry::Yield(mutex) => Entry::Yield(*mutex),
        Entry::Expire(place) => Entry::Expire(*place),
    }
}

// Returns the client of an entry, if the entry is a call.
fn caller(entry: &Entry) -> Option<ClientId>
    ensures { result ≡ caller_of entry.now }
{
    match entry {
        Entry::Call(client, _, _) => Some(*client),
        _ => None,
    }
}

impl<A: Allocator + Copy> Records<A> {
    // Returns the name of this length that begins at an index.
    fn name(&self, from: usize, length: u8) -> Name
        requires { IsText self.now.texts.items from length }
        ensures { result ≡ text_at self.now.texts.items from length }
    {
        Name::new(&self.texts[from..from + length as usize]).unwrap()
    }

    // Returns a call for a lock with a deadline.
    fn timed(&self, kind: LockKind, length: u8, from: u32, limit: u32) -> Call
        requires { HasLimit (parts_of self.now) from length limit }
        ensures { result ≡ with_limit kind (text_at self.now.texts.items from length)
            (limit_at (parts_of self.now) limit).deadline
            (limit_at (parts_of self.now) limit).clock }
    {
        timed_call(
            kind,
            self.name(from as usize, length),
            self.limits[limit as usize],
        )
    }

    // Returns a wait with a deadline.
    fn timed_wait(&self, first: u8, second: u8, from: u32, limit: u32) -> Call
        requires { HaveLimit (parts_of self.now) from first second limit }
        ensures { result ≡ wait_until (text_at self.now.texts.items from first)
            (text_at self.now.texts.items (from + first) second)
            (limit_at (parts_of self.now) limit).deadline
            (limit_at (parts_of self.now) limit).clock }
    {
        let cond = self.name(from as usize, first);
        let mutex = self.name(from as usize + first as usize, second);
        wait_call(cond, mutex, self.limits[limit as usize])
    }

    // Returns a wait without a deadline.
    fn wait(&self, first: u8, second: u8, from: u32) -> Call
        requires { AreTexts self.now.texts.items from first second }
        ensures { result ≡ Wait (text_at self.now.texts.items from first)
            (text_at self.now.texts.items (from + first) second) }
    {
        let cond = self.name(from as usize, first);
        Call::Wait(cond, self.name(from as usize + first as usize, second))
    }

    /// Returns the client of a stored entry, if the entry is a call. It copies no name.
    pub(crate) fn caller(&self, base: u64, compact: Compact) -> Option<ClientId>
        requires base { base ≤ max_place }
        requires stored { IsStored (parts_of self.now) compact }
        ensures { result ≡ caller_of (read_compact base (parts_of self.now) compact) }
    {
        match compact {
            Compact::Named(_, _, _, client, _)
            | Compact::Barrier(_, _, client, _, _)
            | Compact::Timed(_, _, _, client, _, _)
            | Compact::Wait(_, _, _, client, _)
            | Compact::TimedWait(_, _, _, client, _, _) => Some(ClientId(base + client as u64)),
            Compact::Whole(index) => caller(&self.wholes[index as usize]),
            _ => None,
        }
    }

    /// Returns a stored entry as it was pushed.
    pub(crate) fn entry(&self, base: u64, compact: Compact) -> Entry
        requires base { base ≤ max_place }
        requires stored { IsStored (parts_of self.now) compact }
        ensures { result ≡ read_compact base (parts_of self.now) compact }
    {
        match compact {
            Compact::Join(priority, client) => {
                Entry::Join(ClientId(base + client as u64), priority)
            }
            Compact::Named(word, answer, length, client, from) => {
                call_entry(
                    base,
                    client,
                    call_of(word, self.name(from as usize, length)),
                    answer,
                )
            }
            Compact::Barrier(answer, length, client, from, count) => {
                let call = Call::BarrierInit(self.name(from as usize, length), count as u64);
                call_entry(base, client, call, answer)
            }
            Compact::Timed(kind, answer, length, client, from, limit) => {
                call_entry(base, client, self.timed(kind, length, from, limit), answer)
            }
            Compact::Wait(answer, first, second, client, from) => {
                call_entry(base, client, self.wait(first, second, from), answer)
            }
            Compact::TimedWait(answer, first, second, client, from, limit) => {
                call_entry(
                    base,
                    client,
                    self.timed_wait(first, second, from, limit),
                    answer,
                )
            }
            Compact::Death(client) => Entry::Death(ClientId(base + client as u64)),
            Compact::Moment(clock, index) => Entry::Moment(clock, self.moments[index as usize]),
            Compact::Grant(outcome, place) => Entry::Grant(base + place as u64, outcome),
            Compact::Trip(barrier) => Entry::Trip(ObjectId(base + barrier as u64)),
            Compact::Yield(mutex) => Entry::Yield(ObjectId(base + mutex as u64)),
            Compact::Expire(place) => Entry::Expire(base + place as u64),
            Compact::Whole(index) => copied(&self.wholes[index as usize]),
        }
    }
}
