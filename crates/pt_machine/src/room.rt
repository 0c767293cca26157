//! Room: what an event needs, and which events are refused.

ghost use Rattle.std.specs.Prelude.{Err, IfErr, IsOk, None, OnErr, OnOk, ◌+◌, ◌<◌, ◌↔◌, ◌≡◌, ◌≢◌};
ghost use Rattle.std.specs.Prelude.{◌≤◌, length, true};
ghost use Rattle.pt_model.specs.Room.{entry_for, exceeds_limit, need};
ghost use Rattle.pt_model.specs.Room.{refusal as refusal_in, refusal_within};
ghost use Rattle.pt_state.specs.Adds.{history_of};
ghost use Rattle.pt_state.specs.Reads.{AreTables};
ghost use Rattle.pt_model.specs.Histories.{◌▷◌};
ghost use Rattle.pt_model.specs.Forced.{forced};
ghost use Rattle.pt_model.specs.declared.entry.Entry.TheVariants as entry_is;
ghost use Rattle.pt_model.specs.Searches.{In};
ghost use Rattle.pt_model.specs.Steps.{Step};
ghost use Rattle.pt_records.specs.Callers.{opens_of};

use crate::machine::Machine;
use pt_model::Event;
use pt_model::waiting_call::is_cond_wait;
use pt_records::Open;
use pt_types::Refusal;
use pt_waitq::WaitList;
use std::alloc::Allocator;

impl<Q: WaitList, A: Allocator + Copy> Machine<Q, A> {
    /// Returns the number of entries that are reserved for what must follow.
    pub fn need(&self) -> u64
        ensures { result ≡ need (history_of self.now) }
    {
        self.need
    }

    /// Returns for how many more entries there is room.
    pub fn room(&self) -> u64
        ensures room { result ≡ self.now.stored.room }
        ensures within { length self.now.stored.entries + self.now.stored.room
            ≤ self.now.stored.limit }
    {
        self.state.stored.room()
    }

    /// Returns how many more entries the limit allows.
    pub fn left(&self) -> u64
        ensures { length self.now.stored.entries + result ≡ self.now.stored.limit }
    {
        self.state.stored.limit() as u64 - self.state.stored.entry_count()
    }

    /// Returns whether there is room for `many` more entries, and memory for as many answers.
    #[inline(always)]
    pub fn has_room(&self, many: u64) -> bool
        ensures { (result ≡ true) ↔ ((many ≤ self.now.stored.room)
            × (length self.now.answers.items + many ≤ self.now.answers.capacity)) }
    {
        many <= self.state.stored.room() && many <= self.state.answers.spare() as u64
    }

    /// Makes room for `room` more entries. FULL exactly if the history would pass its limit with
    /// them, else ENOMEM if the growth is refused. A refusal changes nothing. Room that is there
    /// already is never refused.
    pub fn reserve_for(&mut self, room: u64) -> Result<(), Refusal>
        ensures ok { OnOk result (self.new
            ≡ record self.old { stored = record self.old.stored { room = room } }) }
        ensures full { (result ≡ Err Refusal.Full)
            ↔ (self.old.stored.limit < length self.old.stored.entries + room) }
        ensures unchanged { OnErr result (self.new ≡ self.old) }
        ensures err { IfErr result (λ r. r ≢ Refusal.Full → r ≡ Refusal.Enomem) }
        ensures succeeds_if { room ≤ self.old.stored.room → IsOk result }
    {
        self.state.stored.reserve_for(room)
    }

    /// Makes room for `many` more answers. ENOMEM if the growth is refused. Room that is there
    /// already is never refused.
    pub fn reserve_answers(&mut self, many: u64) -> Result<(), Refusal>
        ensures unchanged { self.new ≡ record self.old { answers = self.new.answers } }
        ensures replies { self.new.answers.items ≡ self.old.answers.items }
        ensures capacity { self.old.answers.capacity ≤ self.new.answers.capacity }
        ensures ok { OnOk result
            (length self.old.answers.items + many ≤ self.new.answers.capacity) }
        ensures err { IfErr result (λ refusal. refusal ≡ Refusal.Enomem) }
        ensures succeeds_if { length self.old.answers.items + many ≤ self.old.answers.capacity
            → IsOk result }
    {
        match self.state.answers.reserve(many as usize) {
            Ok(()) => Ok(()),
            Err(_) => Err(Refusal::Enomem),
        }
    }

    /// Returns the allocator of the tables.
    pub fn alloc(&self) -> A {
        self.state.alloc
    }

    /// Returns why an event is refused: because of its sender, or because 1,024 clients live
    /// already. Returns None if neither applies.
    #[inline(always)]
    pub fn refusal(&self, event: &Event) -> Option<Refusal>
        requires { AreTables self.now }
        ensures { result ≡ refusal_in (history_of self.now) event.now }
    {
        self.state.refusal(event)
    }

    /// Returns how many entries are no longer reserved after a deadline moves a wait, or ends
    /// another call.
    pub(crate) fn used_by_expiry(&self, late: &Open) -> u64
        requires tables { AreTables self.now }
        requires step { Step (history_of self.now) (entry_is.Expire late.now.call.place) }
        requires is_open { In late.now (opens_of self.now.clients) }
        ensures { let h = history_of self.now in
            need (h ▷ entry_is.Expire late.now.call.place) + result ≡ need h }
    {
        if is_cond_wait(late.call.role) { 1 } else { 3 }
    }

    /// Returns whether the history, with an event's entry and the need after it, would pass its
    /// limit.
    fn is_over(&self, event: &Event) -> bool
        requires tables { AreTables self.now }
        requires step { Step (history_of self.now) (entry_for (history_of self.now) event.now) }
        ensures { let h = history_of self.now in
            result ≡ exceeds_limit self.now.stored.limit (h ▷ entry_for h event.now) }
    {
        let entry_count = self.state.stored.entry_count();
        (self.state.stored.limit() as u64) < entry_count + 1 + self.plan(event).need
    }

    /// Returns the first refusal that applies without a seal, if there is one. Lack of memory is
    /// not considered. Must be called only when nothing must follow.
    pub fn refusal_within(&self, event: &Event) -> Option<Refusal>
        requires tables { AreTables self.now }
        requires quiet { forced (history_of self.now) ≡ None }
        ensures { result
            ≡ refusal_within self.now.stored.limit (history_of self.now) event.now }
    {
        let refused = self.state.refusal(event);
        if refused.is_some() {
            return refused;
        }
        if self.is_over(event) {
            Some(Refusal::Full)
        } else {
            None
        }
    }
}
