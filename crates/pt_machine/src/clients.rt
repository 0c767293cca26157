//! Clients: what a join and a death do to the queues, and which client made the call at a place.

ghost use Rattle.std.specs.Prelude.{◌≡◌, ◌≤◌, true};
ghost use Rattle.pt_model.specs.Histories.{place};
ghost use Rattle.pt_model.specs.Queries.{caller};
ghost use Rattle.pt_model.specs.declared.entry.Entry.TheVariants as entry;
ghost use Rattle.pt_state.specs.Adds.{history_of};
ghost use Rattle.pt_machine.specs.Pushes.{CanPush, Pushes, PushesOnOk};

use crate::machine::Machine;
use pt_state::State;
use pt_types::{ClientId, Priority, Refusal};
use pt_waitq::WaitList;
use std::alloc::Allocator;

/// Pushes the Join of a client, which gets its row and room for one waiting call. ENOMEM if the
/// growth of either is refused.
pub(crate) fn push_join<Q: WaitList, A: Allocator + Copy>(
    state: &mut State<A>,
    queues: &mut Q,
    priority: Priority,
) -> Result<(), Refusal>
    requires { CanPush state.old (Q.seen queues.old)
        (entry.Join (place (history_of state.old)) priority) }
    ensures { PushesOnOk state.old (entry.Join (place (history_of state.old)) priority) true result
        state.new (Q.seen queues.new) }
{
    let c = ClientId(state.stored.len());
    if let Err(refusal) = queues.admit(c) {
        return Err(refusal);
    }
    match state.push_join(priority) {
        Ok(()) => Ok(()),
        Err(refusal) => {
            queues.dismiss(c);
            Err(refusal)
        }
    }
}

/// Pushes the Death of a client, and removes its row, its open call, and the room for one.
pub(crate) fn push_death<Q: WaitList, A: Allocator + Copy>(
    state: &mut State<A>,
    queues: &mut Q,
    c: ClientId,
)
    requires { CanPush state.old (Q.seen queues.old) (entry.Death c) }
    ensures { Pushes state.old (entry.Death c) state.new (Q.seen queues.new) }
{
    queues.remove(c);
    queues.dismiss(c);
    state.push_death(c);
}

impl<Q: WaitList, A: Allocator + Copy> Machine<Q, A> {
    // Returns the client of the call at a place, if a call's entry is stored there.
    fn caller_since(&self, place: u64) -> Option<ClientId>
        requires { self.now.stored.start.at ≤ place }
        ensures { result ≡ caller (history_of self.now) place }
    {
        self.state.stored.caller(place)
    }

    /// Returns the client of the call at a place, if there is one. The client of an open call of
    /// the Start is found in the Start's rows.
    pub(crate) fn caller_at(&self, place: u64) -> Option<ClientId>
        ensures { result ≡ caller (history_of self.now) place }
    {
        let start = self.state.stored.start();
        if start.at <= place {
            return self.caller_since(place);
        }
        start.caller_at(place)
    }
}
