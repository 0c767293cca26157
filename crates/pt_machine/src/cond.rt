//! Condition variables: verdicts of waits, signals and broadcasts, and the waits that they move.

ghost use Rattle.std.specs.Option.{option_copied};
ghost use Rattle.std.specs.Prelude.{IfSome, None, Some, ◌≡◌, ◌≤◌, filter, length, option_map, true};
ghost use Rattle.std.specs.Prelude.{unwrap_or};
ghost use Rattle.pt_types.specs.declared.outcome.Outcome.TheVariants as outcomes;
ghost use Rattle.pt_types.specs.Operations.{CondWaits, Broadcasts, Signals, operation};
ghost use Rattle.pt_types.specs.declared.operations.ObjectClass.TheVariants.{Cond as CondClass};
ghost use Rattle.pt_types.specs.declared.operations.ObjectClass.TheVariants.{Mutex as MutexClass};
ghost use Rattle.pt_model.specs.declared.entry.Entry.TheVariants as entry;
ghost use Rattle.pt_model.specs.Searches.{In, least};
ghost use Rattle.pt_model.specs.Moves.{cond_waits, wait_move, precedes, precedes_by, waiting_at};
ghost use Rattle.pt_state.specs.Adds.{history_of};
ghost use Rattle.pt_state.specs.Serving.{call_of_open, waits_at_cond};
ghost use Rattle.pt_machine.specs.CallQueues.{IsQueued};
ghost use Rattle.pt_model.specs.WaitingCall.{is_cond_wait};
ghost use Rattle.pt_records.specs.Callers.{opens_of};
ghost use Rattle.pt_types.specs.declared.call.ObjectKind.TheVariants as kind;
ghost use Rattle.pt_model.specs.Objects.{find_object, kind_of};
ghost use Rattle.pt_model.specs.Answers.{open_calls};
ghost use Rattle.pt_state.specs.Reads.{AreTables};
ghost use Rattle.pt_model.specs.Verdicts.{bound_mutex, cond_view};
ghost use Rattle.pt_model.specs.Verdicts.{operation_verdict};
ghost use Rattle.pt_types.specs.Limits.{max_clients};
ghost use Rattle.pt_machine.specs.Pushes.{CanPush, Pushes};

use crate::machine::Machine;
use crate::queues::enqueue_open_call;
use pt_cond::CondObj;
use pt_model::waiting_call::mutex_of_wait;
use pt_records::Open;
use pt_state::{Request, State};
use pt_types::{Call, ClientId, Deadline, Name, ObjectId, Outcome, Verdict};
use pt_waitq::{WaitList, Waiter};
use std::alloc::Allocator;

// Pushes a `signal` that wakes this wait, which then waits at its mutex.
// [XSH pthread_cond_signal]
fn push_wake<Q: WaitList, A: Allocator + Copy>(
    state: &mut State<A>,
    queues: &mut Q,
    c: ClientId,
    call: &Call,
    n: &Name,
    first: &Open,
)
    requires can { CanPush state.old (Q.seen queues.old)
        (entry.Call c call.now (Some outcomes.Done)) }
    requires operation { operation call.now ≡ Signals n.now }
    requires first { Some (call_of_open first.now)
        ≡ least (precedes_by (wait_move (history_of state.old)))
        (cond_waits (history_of state.old) (wait_move (history_of state.old)) n.now) }
    ensures { Pushes state.old (entry.Call c call.now (Some outcomes.Done)) state.new
        (Q.seen queues.new) }
{
    let woken = first.call.client;
    state.push_woken(c, call, n, Some(*first));
    queues.remove(woken);
    enqueue_open_call(queues, state, woken);
}

/// Pushes a `signal`, which wakes the first wait, if there is one.  [XSH pthread_cond_signal]
pub(crate) fn push_signal<Q: WaitList, A: Allocator + Copy>(
    state: &mut State<A>,
    queues: &mut Q,
    c: ClientId,
    call: &Call,
    n: &Name,
    object: Option<ObjectId>,
)
    requires can { CanPush state.old (Q.seen queues.old)
        (entry.Call c call.now (Some outcomes.Done)) }
    requires operation { operation call.now ≡ Signals n.now }
    requires found { object ≡ find_object (history_of state.old) n.now CondClass }
    ensures { Pushes state.old (entry.Call c call.now (Some outcomes.Done)) state.new
        (Q.seen queues.new) }
{
    let q = object.unwrap();
    match least_cond_wait(queues, state, q).copied() {
        Some(first) => push_wake(state, queues, c, call, n, &first),
        None => state.push_woken(c, call, n, None),
    }
}

// Returns a waiter as it waits after the entry at this place has moved it.
// [XSH pthread_cond_broadcast]
fn moved_at(place: u64, waiter: &Waiter) -> Waiter
    ensures { result ≡ record waiter.now { moved = place } }
{
    Waiter {
        client: waiter.client,
        place: waiter.place,
        prio: waiter.prio,
        writer: waiter.writer,
        moved: place,
    }
}

/// Pushes a `broadcast`, which wakes all waits at its condition. They then wait at their mutex.
/// [XSH pthread_cond_broadcast]
pub(crate) fn push_broadcast<Q: WaitList, A: Allocator + Copy>(
    state: &mut State<A>,
    queues: &mut Q,
    c: ClientId,
    call: &Call,
    n: &Name,
    object: Option<ObjectId>,
)
    requires can { CanPush state.old (Q.seen queues.old)
        (entry.Call c call.now (Some outcomes.Done)) }
    requires operation { operation call.now ≡ Broadcasts n.now }
    requires found { object ≡ find_object (history_of state.old) n.now CondClass }
    ensures { Pushes state.old (entry.Call c call.now (Some outcomes.Done)) state.new
        (Q.seen queues.new) }
{
    let q = object.unwrap();
    let place = state.stored.len();
    let m = mutex_of_waits(queues, state, q);
    state.push_broadcast(c, call, n, Some(q));
    while let Some(first) = queues.take_first(q) {
        queues.insert(m, moved_at(place, &first));
    }
}

/// Pushes the Expire of a wait, which then waits at its mutex.  [XSH pthread_cond_timedwait]
pub(crate) fn push_wait_expiry<Q: WaitList, A: Allocator + Copy>(
    state: &mut State<A>,
    queues: &mut Q,
    found: &Open,
)
    requires can { CanPush state.old (Q.seen queues.old) (entry.Expire found.now.call.place) }
    requires is_open { In found.now (opens_of state.old.clients) }
    requires wait { is_cond_wait (call_of_open found.now).role ≡ true }
    ensures { Pushes state.old (entry.Expire found.now.call.place) state.new
        (Q.seen queues.new) }
{
    let late = found.call.client;
    state.push_expire(found);
    queues.remove(late);
    enqueue_open_call(queues, state, late);
}

// Returns the wait that a signal at this condition wakes, if there is one.
// [XSH pthread_cond_signal]
#[inline(always)]
fn least_cond_wait<'s, Q: WaitList, A: Allocator + Copy>(
    queues: &Q,
    state: &'s State<A>,
    q: ObjectId,
) -> Option<&'s Open>
    requires tables { AreTables state.now }
    requires queued { IsQueued (history_of state.now) (Q.seen queues.now) }
    requires cond { kind_of (history_of state.now) q ≡ Some kind.Cond }
    ensures value { option_map call_of_open (option_copied result)
        ≡ least (precedes (history_of state.now))
        (filter (waits_at_cond (history_of state.now) q) (open_calls (history_of state.now))) }
    ensures has_call { IfSome (option_copied result)
        (λ found. In found (opens_of state.now.clients)) }
{
    match queues.first(q) {
        Some(first) => state.open_of(first.client),
        None => None,
    }
}

// Returns the mutex with which calls wait at the condition, if some do.  [XSH pthread_cond_wait]
#[inline(always)]
fn bound_at<Q: WaitList, A: Allocator + Copy>(
    queues: &Q,
    state: &State<A>,
    q: ObjectId,
) -> Option<ObjectId>
    requires tables { AreTables state.now }
    requires queued { IsQueued (history_of state.now) (Q.seen queues.now) }
    requires cond { kind_of (history_of state.now) q ≡ Some kind.Cond }
    ensures { result ≡ bound_mutex (waiting_at (history_of state.now) q) }
{
    match least_cond_wait(queues, state, q) {
        Some(first) => mutex_of_wait(first.call.role),
        None => None,
    }
}

// Returns the mutex with which calls wait at the condition, or 0 if none do.
// [XSH pthread_cond_wait]
fn mutex_of_waits<Q: WaitList, A: Allocator + Copy>(
    queues: &Q,
    state: &State<A>,
    q: ObjectId,
) -> ObjectId
    requires tables { AreTables state.now }
    requires queued { IsQueued (history_of state.now) (Q.seen queues.now) }
    requires cond { kind_of (history_of state.now) q ≡ Some kind.Cond }
    ensures { result ≡ unwrap_or (bound_mutex (waiting_at (history_of state.now) q)) 0 }
{
    match bound_at(queues, state, q) {
        Some(m) => m,
        None => ObjectId(0),
    }
}

impl<Q: WaitList, A: Allocator + Copy> Machine<Q, A> {
    /// Returns the mutex with which calls wait at the condition, if some do.
    /// [XSH pthread_cond_wait]
    #[inline(never)]
    pub fn bound(&self, q: ObjectId) -> Option<ObjectId>
        requires tables { AreTables self.now }
        requires cond { kind_of (history_of self.now) q ≡ Some kind.Cond }
        ensures { result ≡ bound_mutex (waiting_at (history_of self.now) q) }
    {
        bound_at(&self.queues, &self.state, q)
    }

    // Returns the condition, bound to the mutex with which calls wait there, if some do.
    // [XSH pthread_cond_wait]
    fn condition(&self, q: ObjectId) -> CondObj
        requires tables { AreTables self.now }
        requires cond { kind_of (history_of self.now) q ≡ Some kind.Cond }
        ensures { result ≡ cond_view (history_of self.now) q }
    {
        let mut found = CondObj::new();
        if let Some(mutex) = self.bound(q) {
            found.bind(mutex);
        }
        found
    }

    /// Returns how many waits at the condition have not been moved.  [XSH pthread_cond_wait]
    pub(crate) fn waiting(&self, q: ObjectId) -> u64
        requires tables { AreTables self.now }
        requires cond { kind_of (history_of self.now) q ≡ Some kind.Cond }
        ensures value { result
            ≡ length (filter (waits_at_cond (history_of self.now) q) (open_calls
            (history_of self.now))) }
        ensures within { result ≤ max_clients }
    {
        self.queues.len(q) as u64
    }

    /// Returns the verdict of a client's wait at a condition with a mutex.
    /// [XSH pthread_cond_timedwait]
    pub(crate) fn awaits_verdict(
        &self,
        c: ClientId,
        n: &Name,
        m: &Name,
        deadline: Option<Deadline>,
        request: &Request,
    ) -> Verdict
        requires tables { AreTables self.now }
        requires object { request.now.object ≡ find_object (history_of self.now) n.now CondClass }
        requires mutex { request.now.mutex ≡ find_object (history_of self.now) m.now MutexClass }
        ensures { result ≡ operation_verdict (history_of self.now) c
            (CondWaits n.now m.now deadline) }
    {
        let Some(q) = request.object else {
            return Verdict::Reply(Outcome::Einval);
        };
        let Some((number, mutex)) = self.state.mutex_found(m, request.mutex) else {
            return Verdict::Reply(Outcome::Einval);
        };
        let owns = mutex.is_owned_by(c);
        self.condition(q).verdict_wait(number, owns, deadline)
    }
}
