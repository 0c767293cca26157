//! Plans: an event's request, answer, reserved entries and touched object, before its entry is
//! pushed.

ghost use Rattle.pt_state.specs.Requests.{IsRequest};
ghost use Rattle.pt_types.specs.OperationViews.{operation_view};
ghost use Rattle.std.specs.Prelude.{None, Some, nat_lt, ◌≡◌, ◌≤◌};
ghost use Rattle.pt_types.specs.Operations.{CondWaits, operation as operation_meant};
ghost use Rattle.pt_types.specs.declared.operations.ObjectClass.TheVariants.{Cond as CondClass};
ghost use Rattle.pt_types.specs.declared.operations.ObjectClass.TheVariants.{Mutex as MutexClass};
ghost use Rattle.pt_model.specs.declared.entry.Entry.TheVariants as entry_is;
ghost use Rattle.pt_model.specs.Objects.{find_object};
ghost use Rattle.pt_model.specs.Room.{entry_for};
ghost use Rattle.pt_model.specs.Steps.{Step};
ghost use Rattle.pt_model.specs.WaitingCall.{object_or_zero};
ghost use Rattle.pt_state.specs.Adds.{history_of};
ghost use Rattle.pt_state.specs.Needed.{added_by, added_by_operation, last_lock, last_lock_if};
ghost use Rattle.pt_state.specs.Needed.{unreserved_by, used_by_operation, used_to_wait};
ghost use Rattle.pt_state.specs.Needed.{waiting_call_if};
ghost use Rattle.pt_state.specs.Reads.{AreTables};
ghost use Rattle.pt_records.specs.Counts.{count_if_passed};
ghost use Rattle.pt_next_grant.specs.Touched.{bound_if, goal_of_operation, service_object_by};
ghost use Rattle.pt_next_grant.specs.Touched.{touched_by_operation};
ghost use Rattle.pt_machine.specs.Plans.{HasOperation, HasRequest, IsPlanned, entry_with};

use crate::machine::Machine;
use pt_model::Event;
use pt_records::mutex::is_last;
use pt_state::Request;
use pt_types::operations::{Operation, operation_of};
use pt_types::tables::reply;
use pt_types::{Call, ClientId, Deadline, Name, ObjectId, Outcome};
use pt_waitq::WaitList;
use std::alloc::Allocator;

/// What is known of an event's entry before it is pushed.  [profile]
#[derive(Clone, Copy)]
pub struct Plan {
    /// The objects that the names of the event's call mean, or none if the event is no call.
    pub request: Request,
    /// The answer that the call gets at once. None if the call waits, or the event is no call.
    pub answer: Option<Outcome>,
    /// The number of entries that are reserved after the event's entry.
    pub need: u64,
    /// The one object at which the entry may let a call go on, if there is one.
    pub touched: Option<ObjectId>,
    /// Whether the event is a call for a lock that is granted as it comes.
    pub at_once: bool,
}

// What an entry changes: how many entries it adds to those reserved, how many of them it releases,
// and what it touches.
#[derive(Clone, Copy)]
struct Change {
    added: u64,
    used: u64,
    touched: Option<ObjectId>,
}

// Returns what an event's call does, if the event is a call.  [XSH, the call's page]
#[inline(always)]
fn operation_in(event: &Event) -> Option<Operation<'_>>
    ensures { HasOperation event.now result }
{
    match event {
        Event::Call(_, call) => Some(operation_of(call)),
        _ => None,
    }
}

// The request of an event that is no call.
const NO_REQUEST: Request = Request {
    object: None,
    mutex: None,
};

const NO_CHANGE: Change = Change {
    added: 0,
    used: 0,
    touched: None,
};

impl<Q: WaitList, A: Allocator + Copy> Machine<Q, A> {
    // Returns how many Yields are no longer reserved: 1 if this is the last lock on a robust mutex,
    // else 0.
    #[inline(always)]
    fn last_lock(&self, c: ClientId, m: ObjectId) -> u64
        requires { AreTables self.now }
        ensures { result ≡ last_lock (history_of self.now) c m }
    {
        match self.state.objects.at(m.0) {
            Some(object) => { if is_last(object, c) { 1 } else { 0 } }
            None => 0,
        }
    }

    // Returns what a wait changes. Its client gives back one lock on the mutex.
    // [XSH pthread_cond_wait]
    fn change_by_wait(
        &self,
        c: ClientId,
        call: &Call,
        n: &Name,
        m: &Name,
        deadline: Option<Deadline>,
        object: Option<ObjectId>,
    ) -> Change
        requires tables { AreTables self.now }
        requires step { Step (history_of self.now) (entry_is.Call c call.now None) }
        requires operation { operation_meant call.now ≡ CondWaits n.now m.now deadline }
        requires found { object ≡ find_object (history_of self.now) m.now MutexClass }
        ensures adds { result.added ≡ 3 }
        ensures uses { let h = history_of self.now in
            result.used ≡ last_lock h c (object_or_zero h m.now MutexClass) }
        ensures touches { let h = history_of self.now in
            result.touched ≡ Some (object_or_zero h m.now MutexClass) }
    {
        let mutex = object.unwrap();
        Change {
            added: 3,
            used: self.last_lock(c, mutex),
            touched: Some(mutex),
        }
    }

    // Returns what a call changes if it has to wait.
    // [XSH pthread_mutex_lock, pthread_cond_wait, pthread_barrier_wait]
    fn change_if_waiting(
        &self,
        c: ClientId,
        call: &Call,
        operation: &Operation<'_>,
        request: &Request,
    ) -> Change
        requires tables { AreTables self.now }
        requires operation { operation_view operation.now ≡ operation_meant call.now }
        requires request { IsRequest (history_of self.now) (operation_meant call.now) request.now }
        requires step { Step (history_of self.now) (entry_is.Call c call.now None) }
        ensures adds { result.added ≡ added_by_operation (operation_meant call.now) }
        ensures uses { result.used ≡ used_to_wait (history_of self.now) c
            (operation_meant call.now) }
        ensures touches { result.touched
            ≡ goal_of_operation (history_of self.now) (operation_meant call.now) }
        ensures within { result.added ≤ 3 }
    {
        match operation {
            Operation::Acquires(..) => Change {
                added: 3,
                used: 0,
                touched: request.object,
            },
            Operation::CondWaits(n, m, deadline) => {
                self.change_by_wait(c, call, n, m, *deadline, request.mutex)
            }
            Operation::BarrierWaits(_) => Change {
                added: 3,
                used: 0,
                touched: request.object,
            },
            _ => NO_CHANGE,
        }
    }

    // Returns what an `unlock` changes if it is answered 0.  [XSH pthread_mutex_unlock]
    #[inline(always)]
    fn change_by_unlock(&self, c: ClientId, object: Option<ObjectId>) -> Change
        requires { AreTables self.now }
        ensures adds { result.added ≡ 0 }
        ensures uses { result.used ≡ last_lock_if (history_of self.now) c object }
        ensures touches { result.touched ≡ object }
    {
        match object {
            Some(m) => Change {
                added: 0,
                used: self.last_lock(c, m),
                touched: Some(m),
            },
            None => NO_CHANGE,
        }
    }

    // Returns what a `signal` changes. The wait that it wakes, if any, needs one entry fewer.
    // [XSH pthread_cond_signal]
    fn change_by_signal(&self, n: &Name, object: Option<ObjectId>) -> Change
        requires tables { AreTables self.now }
        requires found { object ≡ find_object (history_of self.now) n.now CondClass }
        ensures adds { result.added ≡ 0 }
        ensures uses { let h = history_of self.now in
            result.used ≡ count_if_passed (nat_lt 0 (waiting_call_if h
            (find_object h n.now CondClass))) }
        ensures touches { let h = history_of self.now in
            result.touched ≡ bound_if h (find_object h n.now CondClass) }
    {
        match object {
            Some(q) => Change {
                added: 0,
                used: if 0 < self.waiting(q) { 1 } else { 0 },
                touched: self.bound(q),
            },
            None => NO_CHANGE,
        }
    }

    // Returns what a `broadcast` changes. Each wait that it wakes needs one entry fewer.
    // [XSH pthread_cond_broadcast]
    fn change_by_broadcast(&self, n: &Name, object: Option<ObjectId>) -> Change
        requires tables { AreTables self.now }
        requires found { object ≡ find_object (history_of self.now) n.now CondClass }
        ensures adds { result.added ≡ 0 }
        ensures uses { let h = history_of self.now in
            result.used ≡ waiting_call_if h (find_object h n.now CondClass) }
        ensures touches { let h = history_of self.now in
            result.touched ≡ bound_if h (find_object h n.now CondClass) }
    {
        match object {
            Some(q) => Change {
                added: 0,
                used: self.waiting(q),
                touched: self.bound(q),
            },
            None => NO_CHANGE,
        }
    }

    // Returns what a call changes if it is answered 0.
    // [XSH pthread_mutex_unlock, pthread_rwlock_unlock, pthread_cond_signal]
    #[inline(always)]
    fn change_if_done(&self, c: ClientId, operation: &Operation<'_>, request: &Request) -> Change
        requires tables { AreTables self.now }
        requires request { IsRequest (history_of self.now)
            (operation_view operation.now) request.now }
        ensures adds { result.added ≡ 0 }
        ensures uses { result.used
            ≡ used_by_operation (history_of self.now) c (operation_view operation.now) }
        ensures touches { result.touched
            ≡ touched_by_operation (history_of self.now) (operation_view operation.now) }
    {
        let object = request.object;
        match operation {
            Operation::Unlocks(_) => self.change_by_unlock(c, object),
            Operation::Rwunlocks(_) => Change {
                added: 0,
                used: 0,
                touched: object,
            },
            Operation::Signals(n) => self.change_by_signal(n, object),
            Operation::Broadcasts(n) => self.change_by_broadcast(n, object),
            _ => NO_CHANGE,
        }
    }

    // Returns what a call changes, given the answer that it has at once.
    #[inline(always)]
    fn change_by_call(
        &self,
        c: ClientId,
        call: &Call,
        operation: &Operation<'_>,
        answer: Option<Outcome>,
        request: &Request,
    ) -> Change
        requires tables { AreTables self.now }
        requires operation { operation_view operation.now ≡ operation_meant call.now }
        requires step { Step (history_of self.now) (entry_is.Call c call.now answer) }
        requires request { IsRequest (history_of self.now) (operation_meant call.now) request.now }
        ensures adds { result.added ≡ added_by (entry_is.Call c call.now answer) }
        ensures uses { result.used ≡ unreserved_by (history_of self.now)
            (entry_is.Call c call.now answer) }
        ensures touches { result.touched
            ≡ service_object_by (history_of self.now) (entry_is.Call c call.now answer) }
        ensures within { result.added ≤ 3 }
    {
        match answer {
            None => self.change_if_waiting(c, call, operation, request),
            Some(Outcome::Done) => self.change_if_done(c, operation, request),
            Some(_) => NO_CHANGE,
        }
    }

    // Returns what a client's Death changes. The entries that its open call and its own Death
    // needed are released.
    fn change_by_death(&self, c: ClientId) -> Change
        requires { AreTables self.now }
        ensures adds { result.added ≡ 0 }
        ensures uses { result.used ≡ unreserved_by (history_of self.now) (entry_is.Death c) }
        ensures touches { result.touched
            ≡ service_object_by (history_of self.now) (entry_is.Death c) }
    {
        Change {
            added: 0,
            used: self.state.reserved_of(c) + 1,
            touched: self.object_of(c),
        }
    }

    // Returns what an event's entry changes, given the answer that its call has at once.
    #[inline(always)]
    fn change_by(
        &self,
        event: &Event,
        operation: &Option<Operation<'_>>,
        answer: Option<Outcome>,
        request: &Request,
    ) -> Change
        requires tables { AreTables self.now }
        requires operation { HasOperation event.now operation.now }
        requires step { Step (history_of self.now) (entry_with
            (history_of self.now) event.now answer) }
        requires request { HasRequest (history_of self.now) event.now request.now }
        ensures adds { result.added ≡ added_by (entry_with (history_of self.now) event.now answer) }
        ensures uses { let h = history_of self.now in
            result.used ≡ unreserved_by h (entry_with h event.now answer) }
        ensures touches { let h = history_of self.now in
            result.touched ≡ service_object_by h (entry_with h event.now answer) }
        ensures within { result.added ≤ 3 }
    {
        match event {
            Event::Join(_) => Change {
                added: 1,
                used: 0,
                touched: None,
            },
            Event::Call(c, call) => {
                let operation = operation.as_ref().unwrap();
                self.change_by_call(*c, call, operation, answer, request)
            }
            Event::Death(c) => self.change_by_death(*c),
            Event::Moment(..) => NO_CHANGE,
        }
    }

    // Returns the answer that an event's call gets at once, if the event is a call and gets one.
    // [XSH, the call's page]
    #[inline(always)]
    fn answer_at_once(
        &self,
        event: &Event,
        operation: &Option<Operation<'_>>,
        request: &Request,
    ) -> Option<Outcome>
        requires tables { AreTables self.now }
        requires operation { HasOperation event.now operation.now }
        requires request { HasRequest (history_of self.now) event.now request.now }
        ensures { let h = history_of self.now in entry_with h event.now result
            ≡ entry_for h event.now }
    {
        match event {
            Event::Call(c, _) => {
                let operation = operation.as_ref().unwrap();
                reply(self.verdict(*c, operation, request))
            }
            _ => None,
        }
    }

    // Returns the objects that the names of an event's call mean, if the event is a call.
    #[inline(always)]
    fn request(&self, event: &Event, operation: &Option<Operation<'_>>) -> Request
        requires tables { AreTables self.now }
        requires operation { HasOperation event.now operation.now }
        ensures { HasRequest (history_of self.now) event.now result }
    {
        match event {
            Event::Call(..) => self.state.request(operation.as_ref().unwrap()),
            _ => NO_REQUEST,
        }
    }

    /// Returns what is known of an event's entry before it is pushed.  [profile]
    #[inline(always)]
    pub fn plan(&self, event: &Event) -> Plan
        requires tables { AreTables self.now }
        requires step { Step (history_of self.now) (entry_for (history_of self.now) event.now) }
        ensures planned { IsPlanned (history_of self.now) event.now result }
        ensures within { result.need ≤ 8195 }
    {
        let operation = operation_in(event);
        let request = self.request(event, &operation);
        let answer = self.answer_at_once(event, &operation, &request);
        let change = self.change_by(event, &operation, answer, &request);
        Plan {
            request,
            answer,
            need: self.need + change.added - change.used,
            touched: change.touched,
            at_once: self.is_at_once(event, &operation, answer, &request),
        }
    }
}
