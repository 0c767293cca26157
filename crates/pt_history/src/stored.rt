ghost use Rattle.std.specs.Prelude.{◌≡◌, ◌+◌, ◌≤◌, vec_len, vec_capacity, OnOk};
ghost use Rattle.pt_history.specs.Records.{HasPartsRoom, KeepsParts};
ghost use Rattle.pt_history.specs.Stored.{Appends, CanAppend};

use crate::compact::{Compact, base, outer_in};
use crate::memory::take_memory;
use crate::records::Records;
use pt_model::{Entry, Start};
use pt_types::{ClientId, Refusal};
use std::alloc::{AllocError, Allocator, Global};
use std::marker::Model;

/// What a history begins with, and the entries since in the order in which they came. Places go on
/// from that of the Start.
pub struct History<A: Allocator + Copy = Global> {
    start: Start<A>,
    /// The number from which the numbers of the entries are counted.
    pub(crate) base: u64,
    pub(crate) entries: Vec<Compact, A>,
    /// The number of further entries for which there is memory, whatever they are.
    pub(crate) memory: u64,
    pub(crate) records: Records<A>,
    pub(crate) outer: u64,
    limit: u32,
    pub(crate) room: u64,
}

/// The number of additional entries for which a growth allocates memory, so that growths are rare.
const BATCH: u64 = 64;

/// The greatest number of entries for which memory is allocated at once.
const MAX_AT_ONCE: u64 = 4_294_967_295;

// Allocates memory for `many` more entries, whatever they are.
fn grow<A: Allocator + Copy>(
    entries: &mut Vec<Compact, A>,
    records: &mut Records<A>,
    many: u64,
) -> Result<(), AllocError>
    requires { many ≤ 4294967295 }
    ensures entries { entries.new.items ≡ entries.old.items }
    ensures len { vec_len entries.new ≡ vec_len entries.old }
    ensures capacity { vec_capacity entries.old ≤ vec_capacity entries.new }
    ensures parts { KeepsParts records.old records.new }
    ensures has_room { OnOk result (vec_len entries.old + many ≤ vec_capacity entries.new) }
    ensures room { OnOk result (HasPartsRoom records.new many) }
{
    entries.reserve(many as usize)?;
    records.reserve(many)
}

// Appends a stored entry, in room and memory that there are.
#[inline(always)]
pub(crate) fn append<A: Allocator + Copy>(
    entries: &mut Vec<Compact, A>,
    room: &mut u64,
    memory: &mut u64,
    compact: Compact,
)
    requires { CanAppend entries.old room.old memory.old }
    ensures { Appends compact entries.old entries.new room.old room.new memory.old memory.new }
{
    entries.push_reserved(compact);
    *room -= 1;
    *memory -= 1;
}

impl<A: Allocator + Copy> Model for History<A> {
    ghost use Rattle.pt_history.specs.Stored.{Stored, IsWithin, IsCounted, IsRecorded, entries_of};
    ghost use Rattle.std.specs.Prelude.{◌≡◌, ◌+◌, ◌≤◌, vec_len, vec_capacity};
    ghost use Rattle.pt_model.specs.StartRows.{rows_of_start};
    ghost use Rattle.pt_history.specs.Compact.{base_of};

    ghost Value = { Stored };

    ghost view = { λ h. record {
      start = rows_of_start h.start;
      entries = entries_of h.start.at h.records h.entries.items;
      limit = h.limit;
      room = h.room;
    } };

    ghost invariant = { λ h.
        IsWithin h.start.at (vec_len h.entries) h.room h.memory h.limit (vec_capacity h.entries)
        × IsCounted (rows_of_start h.start)
        (entries_of h.start.at h.records h.entries.items) h.outer
        × IsRecorded h.records h.entries.items h.memory
        × (h.base ≡ base_of h.start.at) };
}

// Not derived, so that code that drops a history need not prove anything about its parts.
impl<A: Allocator + Copy> Drop for History<A> {
    fn drop(self) {
        let History {
            start: _,
            base: _,
            entries: _,
            memory: _,
            records: _,
            outer: _,
            limit: _,
            room: _,
        } = self;
    }
}

impl<A: Allocator + Copy> History<A> {
    ghost use Rattle.std.specs.Prelude.{◌≡◌, ◌↔◌, ◌+◌, ◌-◌, ◌<◌, ◌≤◌, [], ◌∷◌, ◌++◌, length};
    ghost use Rattle.std.specs.Prelude.{slice_get, vec_len, None, IsOk, IfOk, OnOk, OnErr, IfErr};
    ghost use Rattle.std.specs.Prelude.{◌≢◌};
    ghost use Rattle.pt_types.specs.Limits.{max_place};
    ghost use Rattle.pt_model.specs.StartRows.{rows_of_start};
    ghost use Rattle.pt_history.specs.Records.{HasPartsRoom};
    ghost use Rattle.pt_history.specs.Stored.{Stored, empty_store, caller_in, stored_history};
    ghost use Rattle.pt_history.specs.Stored.{stored_with};
    ghost use Rattle.pt_model.specs.Histories.{outer};

    // Creates an empty history of at most `limit` entries, with these records.
    fn begin(alloc: A, limit: u32, records: Records<A>) -> History<A>
        requires room { HasPartsRoom records 0 }
        requires within { vec_len records.wholes ≡ 0 }
        ensures { result ≡ empty_store limit }
    {
        History {
            start: Start::new(alloc),
            base: 0,
            entries: Vec::new(alloc),
            memory: 0,
            records,
            outer: 0,
            limit,
            room: 0,
        }
    }

    /// Creates an empty history of at most `limit` entries, which allocates nothing.
    pub fn with_limit(alloc: A, limit: u32) -> History<A>
        ensures { result ≡ empty_store limit }
    {
        History::begin(alloc, limit, Records::new(alloc))
    }

    /// Creates an empty history with the same limit, for the entries after a seal. It copies the
    /// texts of names, if they are not too many. Returns ENOMEM if that growth is refused.
    pub fn successor(&self, alloc: A) -> Result<History<A>, Refusal>
        ensures ok { IfOk result (λ h. h ≡ empty_store self.now.limit) }
        ensures err { IfErr result (λ r. r ≡ Refusal.Enomem) }
    {
        let Ok(records) = Records::with_texts_of(&self.records, alloc) else {
            return Err(Refusal::Enomem);
        };
        Ok(History::begin(alloc, self.limit, records))
    }

    // Makes room for `room` more entries, and memory for `memory` more, which are no fewer. Returns
    // ENOMEM if the growth is refused; then nothing changes.
    #[cold]
    #[inline(never)]
    fn grow_for(&mut self, room: u64, memory: u64) -> Result<(), Refusal>
        requires within { length self.old.entries + room ≤ self.old.limit }
        requires enough { room ≤ memory }
        requires bounded { memory ≤ 4294967295 }
        ensures ok { OnOk result (self.new ≡ record self.old { room = room }) }
        ensures unchanged { OnErr result (self.new ≡ self.old) }
        ensures err { IfErr result (λ r. r ≡ Refusal.Enomem) }
    {
        if grow(&mut self.entries, &mut self.records, memory).is_err() {
            return Err(Refusal::Enomem);
        }
        self.memory = memory;
        self.room = room;
        Ok(())
    }

    /// Makes room for `room` more entries. Returns FULL exactly if the history would exceed its
    /// limit with them, else ENOMEM if the growth is refused. A refusal changes nothing. Room that
    /// the history has already is never refused.
    pub fn reserve_for(&mut self, room: u64) -> Result<(), Refusal>
        ensures ok { OnOk result (self.new ≡ record self.old { room = room }) }
        ensures full { (result ≡ Err Refusal.Full)
            ↔ (self.old.limit < length self.old.entries + room) }
        ensures unchanged { OnErr result (self.new ≡ self.old) }
        ensures err { IfErr result (λ r. r ≢ Refusal.Full → r ≡ Refusal.Enomem) }
        ensures succeeds_if { room ≤ self.old.room → IsOk result }
    {
        if room > self.limit as u64 - self.entries.len() as u64 {
            return Err(Refusal::Full);
        }
        if room > self.memory {
            return self.grow_for(room, (room + BATCH).min(MAX_AT_ONCE));
        }
        self.room = room;
        Ok(())
    }

    /// Appends an entry, in room that was made for it. This allocates nothing.
    #[inline(always)]
    pub fn push(&mut self, entry: Entry)
        requires { 0 < self.old.room }
        ensures { self.new
            ≡ record self.old {
              entries = self.old.entries ++ entry ∷ [];
              room = self.old.room - 1;
            } }
    {
        self.push_borrowed(&entry);
    }

    // Appends a borrowed entry, in room that was made for it. This allocates nothing.
    fn push_borrowed(&mut self, entry: &Entry)
        requires { 0 < self.old.room }
        ensures { self.new ≡ stored_with entry.now self.old }
    {
        self.outer += outer_in(entry);
        let compact = self.records.store(self.base, entry);
        append(&mut self.entries, &mut self.room, &mut self.memory, compact);
    }

    /// Drops the entries and begins anew with this Start. The room stays, and so does the memory.
    /// This allocates nothing.
    pub fn seal(&mut self, start: Start<A>)
        requires places { start.at ≤ max_place }
        requires counted { start.outer ≤ start.at }
        ensures { self.new ≡ record self.old { start = rows_of_start start; entries = [] } }
    {
        self.outer = start.outer;
        self.base = base(start.at);
        self.start = start;
        self.entries.clear();
        self.records.clear();
    }

    /// Moves the entries into the memory of a history that is no longer needed, if that history has
    /// as much.
    pub fn take_memory(&mut self, other: History<A>)
        ensures { self.new ≡ self.old }
    {
        let History {
            start: _,
            base: _,
            entries,
            memory: _,
            records,
            outer: _,
            limit: _,
            room: _,
        } = other;
        take_memory(&mut self.entries, entries);
        self.records.take_memory(records);
    }

    /// Returns the Start of the history.
    pub fn start(&self) -> &Start<A>
        ensures { rows_of_start result.now ≡ self.now.start }
    {
        &self.start
    }

    /// Returns the number of entries since the Start.
    pub fn entry_count(&self) -> u64
        ensures value { result ≡ length self.now.entries }
        ensures within { result ≤ self.now.limit }
    {
        self.entries.len() as u64
    }

    /// Returns the place of the next entry.
    pub fn len(&self) -> u64
        ensures { result ≡ self.now.start.at + length self.now.entries }
    {
        self.start.at + self.entries.len() as u64
    }

    /// Returns the number of outer entries: those since the Start, and those that the Start counts.
    pub fn outer(&self) -> u64
        ensures { result ≡ outer (stored_history self.now) }
    {
        self.outer
    }

    /// Returns the entry at a place, if there is one. Places before the Start have none.
    pub fn entry(&self, place: u64) -> Option<Entry>
        ensures before { place < self.now.start.at → result ≡ None }
        ensures since { self.now.start.at ≤ place
            → result ≡ slice_get self.now.entries (place - self.now.start.at) }
    {
        if place < self.start.at {
            return None;
        }
        let compact = *self.entries.get((place - self.start.at) as usize)?;
        Some(self.records.entry(self.base, compact))
    }

    /// Returns the client of the call at a place since the Start, if there is a call.
    pub fn caller(&self, place: u64) -> Option<ClientId>
        requires { self.now.start.at ≤ place }
        ensures { result
            ≡ caller_in (slice_get self.now.entries (place - self.now.start.at)) }
    {
        let compact = *self.entries.get((place - self.start.at) as usize)?;
        self.records.caller(self.base, compact)
    }

    /// Returns the greatest number of entries that there may be since the Start.
    pub fn limit(&self) -> u32
        ensures { result ≡ self.now.limit }
    {
        self.limit
    }

    /// Returns the number of further entries for which there is room.
    pub fn room(&self) -> u64
        ensures room { result ≡ self.now.room }
        ensures within { length self.now.entries + self.now.room ≤ self.now.limit }
    {
        self.room
    }
}
