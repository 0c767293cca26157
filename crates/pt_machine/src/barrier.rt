//! Barriers: arrivals and trips.

ghost use Rattle.std.specs.Prelude.{None, Some, ◌≡◌, false, length, option_map, true};
ghost use Rattle.pt_model.specs.Searches.{In};
ghost use Rattle.pt_model.specs.WaitingCall.{is_barrier_wait};
ghost use Rattle.pt_model.specs.Forced.{forced};
ghost use Rattle.pt_state.specs.Adds.{Adds, HasRoomFor, history_of};
ghost use Rattle.pt_types.specs.Operations.{class_of};
ghost use Rattle.pt_types.specs.declared.operations.ObjectClass.TheVariants as class;
ghost use Rattle.pt_model.specs.Objects.{kind_of};
ghost use Rattle.pt_model.specs.Answers.{at_barrier, open_calls};
ghost use Rattle.pt_state.specs.Reads.{AreTables};
ghost use Rattle.pt_model.specs.declared.entry.Entry.TheVariants as entry;
ghost use Rattle.pt_model.specs.declared.waiting_call.WaitingCall.{WaitingCall};
ghost use Rattle.pt_machine.specs.GrantedAtOnce.{AddsBoth, IsReadyAfter};
ghost use Rattle.pt_model.specs.declared.entry.Event.TheVariants as event;
ghost use Rattle.pt_types.specs.Operations.{BarrierWaits, operation};
ghost use Rattle.pt_machine.specs.Plans.{IsPlanned};
ghost use Rattle.pt_machine.specs.Pushes.{CanCall, Pushes};

use crate::calls::object_named;
use crate::machine::Machine;
use crate::plans::Plan;
use crate::queues::barrier_waiter;
use pt_state::{Request, State};
use pt_types::{Call, ClientId, Name, ObjectId};
use pt_waitq::WaitList;
use std::alloc::Allocator;

// Pushes an arrival that waits, and puts it into its barrier's queue. The client's priority does
// not matter there, so the client's row is not looked at again, which saves 6 percent of the
// instructions of barriers.  [XSH pthread_barrier_wait]
fn arrive<Q: WaitList, A: Allocator + Copy>(
    state: &mut State<A>,
    queues: &mut Q,
    c: ClientId,
    call: &Call,
    n: &Name,
    request: &Request,
)
    requires can { CanCall state.old (Q.seen queues.old) c call.now None request.now }
    requires operation { operation call.now ≡ BarrierWaits n.now }
    ensures { Pushes state.old (entry.Call c call.now None) state.new (Q.seen queues.new) }
{
    let place = state.stored.len();
    let b = object_named(request);
    state.push_waiting_arrival(c, call, n, request.object);
    queues.insert(b, barrier_waiter(c, place));
}

impl<Q: WaitList, A: Allocator + Copy> Machine<Q, A> {
    // Pushes an arrival that waits at its barrier.  [XSH pthread_barrier_wait]
    fn push_waiting_arrival(&mut self, c: ClientId, call: &Call, n: &Name, plan: &Plan)
        requires has_room { HasRoomFor self.old (entry.Call c call.now None) }
        requires operation { operation call.now ≡ BarrierWaits n.now }
        requires planned { IsPlanned (history_of self.old) (event.Call c call.now) plan.now }
        requires waits { plan.now.answer ≡ None }
        ensures { Adds self.old (entry.Call c call.now None) self.new }
    {
        arrive(&mut self.state, &mut self.queues, c, call, n, &plan.request);
        self.touched = plan.touched;
        self.entering = Some(c);
        self.need = plan.need;
    }

    /// Pushes an arrival that waits at its barrier, and the Trip of the barrier if it is full after
    /// that. Returns true if it is not full; then nothing must follow.  [XSH pthread_barrier_wait]
    pub fn push_barrier_wait(&mut self, c: ClientId, call: &Call, n: &Name, plan: &Plan) -> bool
        requires has_room { HasRoomFor self.old (entry.Call c call.now None) }
        requires next { IsReadyAfter self.old (entry.Call c call.now None) }
        requires operation { operation call.now ≡ BarrierWaits n.now }
        requires planned { IsPlanned (history_of self.old) (event.Call c call.now) plan.now }
        requires waits { plan.now.answer ≡ None }
        ensures adds { result ≡ true → Adds self.old (entry.Call c call.now None) self.new }
        ensures settled { result ≡ true → forced (history_of self.new) ≡ None }
        ensures both { result ≡ false → AddsBoth self.old (entry.Call c call.now None) self.new }
    {
        self.push_waiting_arrival(c, call, n, plan);
        match self.arrival_service(object_named(&plan.request)) {
            Some(service) => {
                self.push_first(service);
                false
            }
            None => true,
        }
    }

    /// Pushes the Trip of a full barrier. Its calls go on, and leave its queue.
    /// [XSH pthread_barrier_wait]
    #[inline(never)]
    pub(crate) fn push_full(&mut self, b: ObjectId)
        requires tables { AreTables self.old }
        requires waits { (w : WaitingCall) × (In w (open_calls (history_of self.old))
            × ((is_barrier_wait w.role ≡ true) × (w.object ≡ b))) }
        requires has_room { HasRoomFor self.old (entry.Trip b) }
        ensures { Adds self.old (entry.Trip b) self.new }
    {
        let before = self.state.answers.len();
        self.state.push_trip(b, &mut self.queues);
        let gone = self.state.answers.len() - before;
        self.touched = None;
        self.need -= 3 * gone as u64;
    }

    /// Returns how many calls wait at the barrier.  [XSH pthread_barrier_wait]
    #[inline(always)]
    pub(crate) fn arrivals(&self, b: ObjectId) -> usize
        requires tables { AreTables self.now }
        requires barrier { option_map class_of (kind_of (history_of self.now) b)
            ≡ Some class.Barrier }
        ensures { result ≡ length (at_barrier b (open_calls (history_of self.now))) }
    {
        self.queues.len(b)
    }
}
