//! Condition variables: waits, signals and broadcasts.

ghost use Rattle.pt_types.specs.declared.operations.ObjectClass.TheVariants.{Cond as CondClass};
ghost use Rattle.pt_model.specs.Clients.{client_priority};
ghost use Rattle.pt_model.specs.Objects.{find_object};
ghost use Rattle.std.specs.Prelude.{None, Some, ◌≡◌, option_map};
ghost use Rattle.pt_types.specs.declared.outcome.Outcome.TheVariants as outcomes;
ghost use Rattle.pt_types.specs.Operations.{Broadcasts, Signals, operation};
ghost use Rattle.pt_model.specs.declared.entry.Entry.TheVariants as entry;
ghost use Rattle.pt_model.specs.Searches.{least};
ghost use Rattle.pt_model.specs.Moves.{cond_waits, wait_move, precedes_by};
ghost use Rattle.pt_state.specs.Adds.{Adds, HasRoomFor, history_of};
ghost use Rattle.pt_state.specs.Serving.{call_of_open};

use crate::state::State;
use pt_model::Cause;
use pt_records::Open;
use pt_records::cond::{wake, wake_waits};
use pt_types::{Call, ClientId, Name, ObjectId, Outcome};
use std::alloc::Allocator;

impl<A: Allocator + Copy> State<A> {
    /// Pushes a signal. The first wait at the condition, if there is one, is moved to its mutex.
    /// [XSH pthread_cond_signal]
    pub fn push_woken(&mut self, c: ClientId, call: &Call, n: &Name, first: Option<Open>)
        requires has_room { HasRoomFor self.old (entry.Call c call.now (Some outcomes.Done)) }
        requires operation { operation call.now ≡ Signals n.now }
        requires first { option_map call_of_open first
            ≡ least (precedes_by (wait_move (history_of self.old)))
            (cond_waits (history_of self.old) (wait_move (history_of self.old)) n.now) }
        ensures { Adds self.old (entry.Call c call.now (Some outcomes.Done)) self.new }
    {
        match first {
            Some(open) => {
                let place = self.stored.len();
                wake(&mut self.clients, open.call.client, place, Cause::Signalled);
                self.finish(c, call, Outcome::Done);
            }
            None => self.finish(c, call, Outcome::Done),
        }
    }

    /// Pushes a broadcast. All waits at the condition are moved to their mutex.
    /// [XSH pthread_cond_broadcast]
    pub fn push_broadcast(&mut self, c: ClientId, call: &Call, n: &Name, object: Option<ObjectId>)
        requires has_room { HasRoomFor self.old (entry.Call c call.now (Some outcomes.Done)) }
        requires operation { operation call.now ≡ Broadcasts n.now }
        requires found { object ≡ find_object (history_of self.old) n.now CondClass }
        ensures { Adds self.old (entry.Call c call.now (Some outcomes.Done)) self.new }
    {
        let q = object.unwrap();
        let place = self.stored.len();
        wake_waits(&mut self.clients, q, place, Cause::Broadcasted);
        self.finish(c, call, Outcome::Done);
    }
}
