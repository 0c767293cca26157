//! Sealing a body to make room for an entry.

ghost use Rattle.std.specs.Prelude.{IfErr, IfOk, None, OnErr, OnOk, false, length, map, nat_le};
ghost use Rattle.std.specs.Prelude.{nat_lt, ◌&&◌, ◌+◌, ◌<◌, ◌≡◌, ◌≤◌};
ghost use Rattle.pt_types.specs.Limits.{max_place};
ghost use Rattle.pt_model.specs.Answers.{entry_replies};
ghost use Rattle.pt_model.specs.Forced.{forced};
ghost use Rattle.pt_model.specs.Histories.{Begin, history_length, place};
ghost use Rattle.pt_model.specs.Room.{entry_for};
ghost use Rattle.pt_model.specs.Seals.{seal};
ghost use Rattle.pt_model.specs.Steps.{Follows, Step};
ghost use Rattle.pt_history.specs.Stored.{stored_history};
ghost use Rattle.pt_records.specs.Logs.{log, log_entry};
ghost use Rattle.pt_state.specs.Adds.{AddsNothing, history_of};
ghost use Rattle.pt_state.specs.Reads.{AreTables};
ghost use Rattle.pt_state.specs.Sealed.{SealsWithRoom, StaysOrGrows};
ghost use Rattle.pt_machine.specs.LastTouched.{IsTouched};
ghost use Rattle.pt_machine.specs.AfterSeal.{AddsSealed};

use crate::machine::Machine;
use pt_model::Event;
use pt_state::{Unsealed, seal_with_room, take_memory, unseal};
use pt_types::{ClientId, ObjectId, Refusal};
use pt_waitq::WaitList;
use std::alloc::{Allocator, Global};

// What a seal puts aside, and what was touched before it.
#[derive(Drop)]
struct Before<A: Allocator + Copy = Global> {
    unsealed: Unsealed<A>,
    touched: Option<ObjectId>,
    entering: Option<ClientId>,
}

impl<Q: WaitList, A: Allocator + Copy> Machine<Q, A> {
    /// Returns whether an entry, with the `need` entries that are reserved after it, would pass the
    /// limit as the history is, but not after a seal.
    #[inline(always)]
    pub fn needs_seal(&self, need: u64) -> bool
        requires { need ≤ 8195 }
        ensures { let room = 1 + need in
            result ≡ (nat_lt self.now.stored.limit (history_length (history_of self.now) + room)
            && nat_le room self.now.stored.limit) }
    {
        let room = 1 + need;
        if room <= self.state.stored.room() {
            return false;
        }
        let limit = self.state.stored.limit() as u64;
        let entry_count = self.state.stored.entry_count();
        limit < entry_count + room && room <= limit
    }

    // Seals a history after which nothing must follow. Puts its entries and answers aside, and
    // makes room for `room` entries and as many answers. ENOMEM if a growth is refused; then
    // nothing changes.
    fn seal_with_room(&mut self, room: u64) -> Result<Before<A>, Refusal>
        requires tables { AreTables self.old }
        requires settled { forced (history_of self.old) ≡ None }
        requires places { place (history_of self.old) ≤ max_place }
        requires room { room ≤ self.old.stored.limit }
        ensures ok { IfOk result (λ before. SealsWithRoom self.old self.new room) }
        ensures stored { IfOk result (λ before. before.unsealed.stored ≡ self.old.stored) }
        ensures answers { IfOk result (λ before. before.unsealed.answers ≡ self.old.answers) }
        ensures touches { IfOk result (λ before.
            IsTouched (history_of self.old) before.touched before.entering) }
        ensures unchanged { OnErr result (self.new ≡ self.old) }
        ensures err { IfErr result (λ refusal. refusal ≡ Refusal.Enomem) }
    {
        let touched = self.touched;
        let entering = self.entering;
        let unsealed = seal_with_room(&mut self.state, room)?;
        self.touched = None;
        self.entering = None;
        Ok(Before {
            unsealed,
            touched,
            entering,
        })
    }

    // Undoes a seal after which no entry came: goes back to what was put aside.
    fn unseal(&mut self, before: Before<A>)
        requires tables { AreTables self.old }
        requires begins { history_of self.old
            ≡ Begin (seal (stored_history before.unsealed.stored)) }
        requires follows { Follows (stored_history before.unsealed.stored) }
        requires settled { forced (stored_history before.unsealed.stored) ≡ None }
        requires replies { map log_entry before.unsealed.answers.items
            ≡ log (stored_history before.unsealed.stored) }
        requires touches { IsTouched (stored_history before.unsealed.stored) before.touched
            before.entering }
        ensures stored { self.new.stored ≡ before.unsealed.stored }
        ensures answers { self.new.answers ≡ before.unsealed.answers }
        ensures read { AreTables self.new }
    {
        unseal(&mut self.state, before.unsealed);
        self.touched = before.touched;
        self.entering = before.entering;
    }

    /// Seals the history with room for `room` entries, and pushes the entry of an event. Returns
    /// what was put aside, for its memory. ENOMEM if a growth is refused; then nothing is sealed or
    /// pushed.
    pub fn push_outer_sealed(&mut self, event: &Event, room: u64) -> Result<Unsealed<A>, Refusal>
        requires tables { AreTables self.old }
        requires settled { forced (history_of self.old) ≡ None }
        requires places { place (history_of self.old) ≤ max_place }
        requires room { room ≤ self.old.stored.limit }
        requires some { 0 < room }
        requires step { let g = Begin (seal (history_of self.old)) in Step g
            (entry_for g event.now) }
        requires spare { let g = Begin (seal (history_of self.old)) in
            length (entry_replies g (entry_for g event.now)) ≤ room }
        ensures ok { OnOk result (AddsSealed self.old room
            (entry_for (Begin (seal (history_of self.old))) event.now) self.new) }
        ensures unchanged { OnErr result (AddsNothing self.old self.new) }
        ensures err { IfErr result (λ refusal. refusal ≡ Refusal.Enomem) }
    {
        let before = self.seal_with_room(room)?;
        let plan = self.plan(event);
        match self.push_outer(event, &plan) {
            Ok(()) => Ok(before.unsealed),
            Err(refusal) => {
                self.unseal(before);
                Err(refusal)
            }
        }
    }

    /// Moves the entries and the answers into the memory of those that a seal put aside.
    pub fn take_memory(&mut self, unsealed: Unsealed<A>)
        requires { AreTables self.old }
        ensures { StaysOrGrows self.old self.new }
    {
        take_memory(&mut self.state, unsealed);
    }
}
