//! Barriers: arrivals and trips.

ghost use Rattle.pt_types.specs.declared.operations.ObjectClass.TheVariants as class;
ghost use Rattle.pt_model.specs.Objects.{find_object};
ghost use Rattle.std.specs.Prelude.{None, ◌≡◌};
ghost use Rattle.pt_model.specs.declared.entry.Entry.TheVariants as entry;
ghost use Rattle.pt_state.specs.Adds.{Adds, HasRoomFor, history_of};
ghost use Rattle.pt_records.specs.Arrivals.{AreArrivals, Empties};
ghost use Rattle.pt_types.specs.Operations.{BarrierWaits, clock_of as clock_meant, operation};

use crate::request::or_zero;
use crate::state::State;
use pt_history::ForcedEntry;
use pt_records::barrier::trip;
use pt_records::calls::arrive;
use pt_types::operations::clock_of;
use pt_types::{Call, ClientId, Clock, Name, ObjectId};
use pt_waitq::WaitList;
use std::alloc::Allocator;

// Returns the clock of a call. If the call is known to be an arrival, nothing more is looked up.
// [XSH pthread_mutex_clocklock]
fn clock_of_arrival(call: &Call) -> Clock
    ensures { result ≡ clock_meant call.now }
{
    match call {
        Call::Bwait(_) => Clock::Real,
        _ => clock_of(call),
    }
}

impl<A: Allocator + Copy> State<A> {
    /// Pushes the Trip of a full barrier: the calls that wait there are answered, and they leave
    /// its queue.  [XSH pthread_barrier_wait]
    pub fn push_trip<Q: WaitList>(&mut self, b: ObjectId, queues: &mut Q)
        requires has_room { HasRoomFor self.old (entry.Trip b) }
        requires arrived { AreArrivals (history_of self.old) b ((Q.seen queues.old).queue b) }
        ensures adds { Adds self.old (entry.Trip b) self.new }
        ensures emptied { Empties b (Q.seen queues.old) (Q.seen queues.new) }
    {
        trip(
            &self.stored,
            &mut self.clients,
            queues,
            &mut self.answers,
            b,
        );
        self.stored.push_forced(ForcedEntry::Trip(b));
    }

    /// Pushes an arrival at a barrier.  [XSH pthread_barrier_wait]
    pub fn push_waiting_arrival(
        &mut self,
        c: ClientId,
        call: &Call,
        n: &Name,
        object: Option<ObjectId>,
    )
        requires has_room { HasRoomFor self.old (entry.Call c call.now None) }
        requires operation { operation call.now ≡ BarrierWaits n.now }
        requires found { object ≡ find_object (history_of self.old) n.now class.Barrier }
        ensures { Adds self.old (entry.Call c call.now None) self.new }
    {
        // The call is read first, while the compiler still knows which word it is.
        let place = self.stored.len();
        let clock = clock_of_arrival(call);
        self.stored.push_named(c, call, None);
        arrive(&mut self.clients, c, place, or_zero(object), clock);
    }
}
