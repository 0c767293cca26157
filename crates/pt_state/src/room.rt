//! Room: how many entries are reserved for a call, and which events are refused.

ghost use Rattle.std.specs.Prelude.{None, Some, is_some, if◌then◌else◌, ◌≡◌, ◌≤◌};
ghost use Rattle.pt_model.specs.Answers.{open_place};
ghost use Rattle.pt_model.specs.Room.{refusal as refusal_in, unless_alive};
ghost use Rattle.pt_model.specs.Room.{refusal_of_unknown};
ghost use Rattle.pt_state.specs.Reads.{AreTables};
ghost use Rattle.pt_table.specs.ClientRows.{client_value};
ghost use Rattle.pt_records.specs.Callers.{open_in};
ghost use Rattle.pt_records.specs.Counts.{count_or_zero, reserved_open};
ghost use Rattle.pt_state.specs.Adds.{history_of};

use crate::state::State;
use pt_model::Event;
use pt_records::calls::reserved_by;
use pt_types::{ClientId, MAX_CLIENTS, Refusal};
use std::alloc::Allocator;

impl<A: Allocator + Copy> State<A> {
    /// Returns the number of entries reserved for a client's open call, or 0 if it has none.
    pub fn reserved_of(&self, c: ClientId) -> u64
        ensures value { result ≡ count_or_zero reserved_open (open_in
            (client_value self.now.clients c)) }
        ensures within { result ≤ 3 }
    {
        match self.clients.at(c.0) {
            Some(caller) => reserved_by(caller.open),
            None => 0,
        }
    }

    // Returns the refusal for a client that does not live: DEAD if its number is a place that the
    // history has reached, else NOHELLO.
    #[cold]
    #[inline(never)]
    #[tactic(auto, using(pt_history::proofs::Places::place_of_next))]
    fn refusal_of_unknown(&self, c: ClientId) -> Refusal
        ensures { result ≡ refusal_of_unknown (history_of self.now) c }
    {
        if c.0 < self.stored.len() {
            Refusal::Dead
        } else {
            Refusal::Nohello
        }
    }

    // Returns why a client's call is refused: the client does not live, or it has an open call.
    // Returns None if neither applies.
    #[inline(always)]
    fn refusal_of_call(&self, c: ClientId) -> Option<Refusal>
        requires { AreTables self.now }
        ensures { let h = history_of self.now in result
            ≡ unless_alive h c (if is_some (open_place h c) then Some Refusal.Blocked else None) }
    {
        match self.clients.at(c.0) {
            Some(caller) if caller.open.is_some() => Some(Refusal::Blocked),
            Some(_) => None,
            None => Some(self.refusal_of_unknown(c)),
        }
    }

    // Returns why any event is refused, if it is. It is called for events that are not calls.
    #[inline(never)]
    fn refusal_of_any(&self, event: &Event) -> Option<Refusal>
        requires { AreTables self.now }
        ensures { result ≡ refusal_in (history_of self.now) event.now }
    {
        match event {
            Event::Join(_) if self.living() >= MAX_CLIENTS => Some(Refusal::Limit),
            Event::Call(c, _) => self.refusal_of_call(*c),
            Event::Death(c) if !self.is_alive(*c) => Some(self.refusal_of_unknown(*c)),
            _ => None,
        }
    }

    /// Returns why an event is refused: because of its sender, or because 1,024 clients live
    /// already. Returns None if neither applies.
    #[inline(always)]
    pub fn refusal(&self, event: &Event) -> Option<Refusal>
        requires { AreTables self.now }
        ensures { result ≡ refusal_in (history_of self.now) event.now }
    {
        match event {
            Event::Call(c, _) => self.refusal_of_call(*c),
            _ => self.refusal_of_any(event),
        }
    }
}
