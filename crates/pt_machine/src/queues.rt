//! The queues of waiting calls: what decides a call's turn, and how it takes its place.

ghost use Rattle.std.specs.Prelude.{ℕ, ◌==◌, ◌≡◌, if◌then◌else◌};
ghost use Rattle.pt_machine.specs.CallQueues.{CanEnqueue, barrier_waiter};
ghost use Rattle.pt_machine.specs.CallQueues.{queue_priority, waiter, waiter_by};
ghost use Rattle.pt_model.specs.Searches.{In};
ghost use Rattle.pt_model.specs.declared.waiting_call.WaitingCall.{WaitingCall};
ghost use Rattle.pt_model.specs.Answers.{open_calls};
ghost use Rattle.pt_model.specs.Moves.{wait_object};
ghost use Rattle.pt_waitq.specs.Queues.{insert_in_order};
ghost use Rattle.pt_state.specs.Adds.{history_of};
ghost use Rattle.pt_state.specs.Reads.{AreTables};
ghost use Rattle.pt_model.specs.Verdicts.{has_waiters};

use crate::machine::Machine;
use pt_model::waiting_call::{Role, is_barrier_wait, is_write_lock};
use pt_records::Open;
use pt_records::calls::wait_object;
use pt_state::State;
use pt_types::{ClientId, MAX_PRIORITY, ObjectId, Priority};
use pt_waitq::{WaitList, Waiter};
use std::alloc::Allocator;

// Returns the priority with which a call waits. At a barrier every call has the highest, so that
// calls wait in order of their arrival.  [XSH pthread_barrier_wait]
fn queue_priority(role: Role, prio: Priority) -> Priority
    ensures { result ≡ queue_priority role prio }
{
    if is_barrier_wait(role) {
        Priority::new(MAX_PRIORITY as u64).unwrap()
    } else {
        prio
    }
}

/// Returns a client's arrival as it waits, given its place.  [XSH pthread_barrier_wait]
pub(crate) fn barrier_waiter(client: ClientId, place: u64) -> Waiter
    ensures { result ≡ barrier_waiter client place }
{
    Waiter {
        client,
        place,
        prio: Priority::new(MAX_PRIORITY as u64).unwrap(),
        writer: false,
        moved: place,
    }
}

/// Returns an open call as it waits, with its client's priority.  [XSH 2.8.4]
pub(crate) fn waiter_of(open: &Open, prio: Priority) -> Waiter
    ensures { result
        ≡ record (waiter_by «open».now.moved «open».now.call) {
          prio = queue_priority «open».now.call.role prio;
        } }
{
    Waiter {
        client: open.call.client,
        place: open.call.place,
        prio: queue_priority(open.call.role, prio),
        writer: is_write_lock(open.call.role),
        moved: match open.moved {
            Some(moved) => moved.at,
            None => open.call.place,
        },
    }
}

/// Puts the client's open call into the queue of the object at which it waits.
/// [XSH 2.8.4, pthread_rwlock_unlock]
#[inline(always)]
pub(crate) fn enqueue_open_call<Q: WaitList, A: Allocator + Copy>(
    queues: &mut Q,
    state: &State<A>,
    c: ClientId,
)
    requires tables { AreTables state.now }
    requires has_room { CanEnqueue (history_of state.now) c (Q.seen queues.old) }
    ensures queues { (w : WaitingCall) → In w (open_calls (history_of state.now)) → w.client ≡ c
        → (q : ℕ)
        → (Q.seen queues.new).queue q
        ≡ (if wait_object (history_of state.now) w == q
        then insert_in_order (waiter (history_of state.now) w) ((Q.seen queues.old).queue q)
        else (Q.seen queues.old).queue q) }
    ensures admitted { (d : ℕ) → (Q.seen queues.new).admitted d ≡ (Q.seen queues.old).admitted d }
    ensures is_queue { (o : ℕ) → (Q.seen queues.new).is_queue o ≡ (Q.seen queues.old).is_queue o }
{
    if let Some(caller) = state.clients.at(c.0) {
        if let Some(open) = &caller.open {
            queues.insert(wait_object(open), waiter_of(open, caller.priority));
        }
    }
}

impl<Q: WaitList, A: Allocator + Copy> Machine<Q, A> {
    /// Returns whether a call waits at the object.  [XSH pthread_mutex_destroy]
    pub(crate) fn has_waiters(&self, o: ObjectId) -> bool
        requires { AreTables self.now }
        ensures { result ≡ has_waiters (history_of self.now) o }
    {
        self.queues.first(o).is_some()
    }
}
