//! A history whose entries are in cells that are set once.

ghost use Rattle.std.specs.Prelude.{◌≡◌, ◌+◌, ◌-◌, ◌<◌, ◌≤◌, ℕ, None, Some, [], length, slice_get};
ghost use Rattle.std.specs.Prelude.{true};
ghost use Rattle.std.specs.Prelude.{IfErr, IfOk, IfSome, IsOk, OnErr, OnOk, if◌then◌else◌};
ghost use Rattle.pt_model.specs.declared.entry.Event.TheVariants as event_is;
ghost use Rattle.pt_model.specs.Clients.{is_alive};
ghost use Rattle.pt_model.specs.Room.{need};
ghost use Rattle.pt_legal.specs.Cores.{IsEmpty, history_of, core_state};
ghost use Rattle.pt_legal.specs.Applying.{IsApplied, IsRefusal, is_death};
ghost use Rattle.pt_legal.specs.Sealing.{IsSealed, seal_refusal};
ghost use Rattle.pt_cells.specs.Cells.{AreFirst, AreCells, Extends, IsCelled, cells_after};
ghost use Rattle.pt_cells.specs.Cells.{seen_at};

use crate::seen::Seen;
use crate::slots::Slots;
use pt_legal::{Applied, LegalHistory};
use pt_model::Event;
use pt_types::Refusal;
use std::alloc::{Allocator, Global};
use std::marker::Model;

// The number of entries for which an event may need cells beyond those that are reserved: its own
// entry, and three that are reserved while its call waits.
const MAX_MORE: u64 = 4;

// Returns whether an event is the Death of a client.
fn is_death(event: &Event) -> bool
    ensures { result ≡ is_death event.now }
{
    matches!(event, Event::Death(_))
}

// Sets a cell for each entry that has none yet. This allocates nothing.
fn fill<C: LegalHistory, A: Allocator + Copy>(core: &C, slots: &mut Slots<A>)
    requires first { AreFirst (C.seen core.now).entries slots.old.cells }
    requires within { length slots.old.cells ≤ length (C.seen core.now).entries }
    requires room { length (C.seen core.now).entries ≤ length slots.old.cells + slots.old.room }
    ensures cells { AreCells (C.seen core.now).entries slots.new.cells }
    ensures extends { Extends slots.old.cells slots.new.cells }
    ensures room { slots.new.room + length slots.new.cells
        ≡ slots.old.room + length slots.old.cells }
{
    let first = core.first();
    let entry_count = core.len() - first;
    for index in slots.len()..entry_count {
        slots.push(core.entry(first + index).unwrap());
    }
}

// Makes cells for an event's entry and all that must follow it. A Death has them already.
fn make_room<C: LegalHistory, A: Allocator + Copy>(
    core: &C,
    slots: &mut Slots<A>,
    event: &Event,
) -> Result<(), Refusal>
    requires { need (history_of (core_state (C.seen core.now))) ≤ slots.old.room }
    ensures cells { slots.new.cells ≡ slots.old.cells }
    ensures room { slots.old.room ≤ slots.new.room }
    ensures ok { OnOk result (need (history_of (core_state (C.seen core.now)))
        + (if is_death event.now then 0 else 4) ≤ slots.new.room) }
    ensures err { IfErr result (λ refusal.
        IsRefusal (core_state (C.seen core.now)) event.now refusal) }
    ensures death { is_death event.now ≡ true → IsOk result }
{
    if is_death(event) {
        return Ok(());
    }
    if slots.reserve_for(core.need() + MAX_MORE).is_err() {
        return Err(core.would_refuse(event).unwrap_or(Refusal::Enomem));
    }
    Ok(())
}

// Applies one event to a core whose entries have cells. Each new entry gets one.
fn apply_celled<C: LegalHistory, A: Allocator + Copy>(
    core: &mut C,
    slots: &mut Slots<A>,
    event: &Event,
) -> Result<Applied, Refusal>
    requires { IsCelled (core_state (C.seen core.old)) slots.old.cells slots.old.room }
    ensures celled { IsCelled (core_state (C.seen core.new)) slots.new.cells slots.new.room }
    ensures ok { IfOk result (λ applied. IsApplied (core_state (C.seen core.old)) event.now
        (core_state (C.seen core.new)) applied) }
    ensures cells { IfOk result (λ applied.
        Extends (cells_after applied.sealed slots.old.cells) slots.new.cells) }
    ensures err { IfErr result (λ refusal.
        IsRefusal (core_state (C.seen core.old)) event.now refusal) }
    ensures unchanged { OnErr result ((C.seen core.new ≡ C.seen core.old)
        × (slots.new.cells ≡ slots.old.cells)) }
    ensures death { (c : ℕ) → event.now ≡ event_is.Death c
        → is_alive (history_of (core_state (C.seen core.old))) c ≡ true → IsOk result }
    ensures unsealed { (c : ℕ) → event.now ≡ event_is.Death c
        → IfOk result (λ applied. applied.sealed ≡ None) }
{
    let _ = core.len();
    if let Err(refusal) = make_room(core, slots, event) {
        return Err(refusal);
    }
    match core.apply(event) {
        Ok(applied) => {
            slots.clear_if(applied.sealed);
            fill(core, slots);
            Ok(applied)
        }
        Err(refusal) => Err(refusal),
    }
}

// Seals a core whose entries have cells, and lets go of these.
fn seal_celled<C: LegalHistory, A: Allocator + Copy>(
    core: &mut C,
    slots: &mut Slots<A>,
) -> Result<u64, Refusal>
    requires { IsCelled (core_state (C.seen core.old)) slots.old.cells slots.old.room }
    ensures celled { IsCelled (core_state (C.seen core.new)) slots.new.cells slots.new.room }
    ensures ok { IfOk result (λ at.
        IsSealed (core_state (C.seen core.old)) (core_state (C.seen core.new)) at) }
    ensures cells { OnOk result (slots.new.cells ≡ []) }
    ensures err { IfErr result (λ refusal. refusal ≡ seal_refusal (core_state (C.seen core.old))) }
    ensures unchanged { OnErr result ((C.seen core.new ≡ C.seen core.old)
        × (slots.new.cells ≡ slots.old.cells)) }
{
    let _ = core.len();
    match core.seal() {
        Ok(at) => {
            slots.clear();
            Ok(at)
        }
        Err(refusal) => Err(refusal),
    }
}

/// A history whose entries are in cells that are set once. Whoever saw an entry shares its cell.
///
/// Contracts see the history and the cells of its entries.
pub struct Celled<C: LegalHistory, A: Allocator + Copy = Global> {
    core: C,
    /// The cells, if any are made.
    slots: Option<Slots<A>>,
}

impl<C: LegalHistory, A: Allocator + Copy> Model for Celled<C, A> {
    ghost use Rattle.pt_legal.specs.Cores.{IsEmpty, core_state};
    ghost use Rattle.pt_cells.specs.Cells.{AreSlots, Celled as View, cells_in};

    ghost Value = { View };

    ghost view = { λ w. record {
      core = C.seen w.core;
      cells = cells_in (C.seen w.core).entries w.slots;
    } };

    ghost invariant = { λ w. AreSlots (core_state (C.seen w.core)) w.slots };
}

// Not derived, so that code that drops this proves nothing of its parts.
impl<C: LegalHistory, A: Allocator + Copy> Drop for Celled<C, A> {
    fn drop(self) {
        let Celled { core: _, slots: _ } = self;
    }
}

impl<C: LegalHistory, A: Allocator + Copy> Celled<C, A> {
    ghost use Rattle.std.specs.Prelude.{◌≡◌, ◌+◌, ◌-◌, ◌<◌, ◌≤◌, ℕ, None, Some, [], length};
    ghost use Rattle.std.specs.Prelude.{slice_get};
    ghost use Rattle.std.specs.Prelude.{IfErr, IfOk, IfSome, IsOk, OnErr, OnOk, if◌then◌else◌};
    ghost use Rattle.std.specs.Prelude.{true};
    ghost use Rattle.pt_model.specs.declared.entry.Event.TheVariants as event_is;
    ghost use Rattle.pt_model.specs.Clients.{is_alive};
    ghost use Rattle.pt_model.specs.Room.{need};
    ghost use Rattle.pt_legal.specs.Cores.{IsEmpty, history_of, core_state};
    ghost use Rattle.pt_legal.specs.Applying.{IsApplied, IsRefusal, is_death};
    ghost use Rattle.pt_legal.specs.Sealing.{IsSealed, seal_refusal};
    ghost use Rattle.pt_cells.specs.Cells.{AreCells, Extends, cells_after, seen_at};

    /// Puts the entries of an empty core into cells, which are made in `heap`. Without one, no
    /// cells are made, and nothing is seen.
    pub fn new(core: C, alloc: A, heap: Option<Global>) -> Celled<C, A>
        requires { IsEmpty (core_state (C.seen core)) }
        ensures { (result.core ≡ C.seen core) × (result.cells ≡ []) }
    {
        Celled {
            core,
            slots: match heap {
                Some(heap) => Some(Slots::new(alloc, heap)),
                None => None,
            },
        }
    }

    /// Applies one event, and all that must follow it, as the core does. Each new entry gets a
    /// cell. The entries that stay keep theirs.  [profile]
    pub fn apply(&mut self, event: &Event) -> Result<Applied, Refusal>
        ensures ok { IfOk result (λ applied. IsApplied (core_state self.old.core) event.now
            (core_state self.new.core) applied) }
        ensures cells { IfOk result (λ applied.
            Extends (cells_after applied.sealed self.old.cells) self.new.cells) }
        ensures err { IfErr result (λ refusal.
            IsRefusal (core_state self.old.core) event.now refusal) }
        ensures unchanged { OnErr result (self.new ≡ self.old) }

        // The Death of a living client is never refused, and no Death seals.
        ensures death { (c : ℕ) → event.now ≡ event_is.Death c
            → is_alive (history_of (core_state self.old.core)) c ≡ true → IsOk result }
        ensures unsealed { (c : ℕ) → event.now ≡ event_is.Death c
            → IfOk result (λ applied. applied.sealed ≡ None) }
    {
        let _ = self.core.len();
        match &mut self.slots {
            Some(slots) => apply_celled(&mut self.core, slots, event),
            None => self.core.apply(event),
        }
    }

    /// Seals the history, as the core does, and lets go of the cells of its entries. Whoever saw an
    /// entry still has it.  [profile]
    pub fn seal(&mut self) -> Result<u64, Refusal>
        ensures ok { IfOk result (λ at. IsSealed (core_state self.old.core)
            (core_state self.new.core) at) }
        ensures cells { OnOk result (self.new.cells ≡ []) }
        ensures err { IfErr result (λ refusal. refusal ≡ seal_refusal (core_state self.old.core)) }
        ensures unchanged { OnErr result (self.new ≡ self.old) }
    {
        let _ = self.core.len();
        match &mut self.slots {
            Some(slots) => seal_celled(&mut self.core, slots),
            None => self.core.seal(),
        }
    }

    /// Returns the core.
    pub fn core(&self) -> &C
        ensures { C.seen result.now ≡ self.now.core }
    {
        &self.core
    }

    /// Returns the entry at a place with its cell. Returns `None` if the history has no entry
    /// there, if the entry's cell refused it, and if one more owner of the cell is refused.
    pub fn seen(&self, place: u64) -> Option<Seen>
        ensures exists { IfSome result (λ s. seen_at self.now place ≡ Some s) }
        ensures entry { IfSome result (λ s. slice_get self.now.core.entries
            (place - (core_state self.now.core).start.at) ≡ Some s.cell.entry) }
    {
        let first = self.core.first();
        if place < first {
            return None;
        }
        match &self.slots {
            Some(slots) => slots.seen((place - first) as usize, place),
            None => None,
        }
    }

    /// Proves that each entry has a cell of its own, unless the cell refused it.
    pub fn law_cells(&self)
        ensures { AreCells self.now.core.entries self.now.cells }
    {
        let _ = self.core.len();
    }

    /// Proves that an entry that was seen is that of the history, if its cell is the one that the
    /// history has at the entry's place.
    pub fn meet(&self, seen: &Seen)
        ensures { IfSome (seen_at self.now seen.now.place) (λ s.
            s.cell.name ≡ seen.now.cell.name → s.cell.entry ≡ seen.now.cell.entry) }
    {
        let first = self.core.first();
        match &self.slots {
            Some(slots) => {
                if first <= seen.place {
                    slots.meet((seen.place - first) as usize, seen);
                }
            }
            None => {}
        }
    }
}
