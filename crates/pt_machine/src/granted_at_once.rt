//! Calls for a free lock. Each is pushed together with its Grant, and enters no queue.

ghost use Rattle.std.specs.Prelude.{IfErr, IfOk, IsOk, None, OnErr, OnOk, Some, ◌&&◌, false, ◌≡◌};
ghost use Rattle.std.specs.Prelude.{◌<◌, ◌≤◌, if◌then◌else◌, option_map, true, unwrap_or};
ghost use Rattle.pt_types.specs.Limits.{max_priority};
ghost use Rattle.pt_types.specs.MutexTable.{is_acquired as is_acquired_it};
ghost use Rattle.pt_types.specs.declared.outcome.Outcome.TheVariants as outcomes;
ghost use Rattle.pt_model.specs.Answers.{outcome};
ghost use Rattle.pt_model.specs.Clients.{client_priority};
ghost use Rattle.pt_model.specs.Forced.{forced};
ghost use Rattle.pt_model.specs.Histories.{place};
ghost use Rattle.std.specs.Bool.{OnTrue};
ghost use Rattle.pt_model.specs.declared.entry.Event.TheVariants as event_is;
ghost use Rattle.pt_model.specs.declared.entry.Entry.TheVariants as entry_is;
ghost use Rattle.pt_state.specs.Adds.{HasRoomFor, AddsNothing, history_of};
ghost use Rattle.pt_state.specs.Reads.{AreTables};
ghost use Rattle.pt_model.specs.Objects.{kind_of};
ghost use Rattle.pt_types.specs.Operations.{class_needed, class_of, deadline_of, operation};
ghost use Rattle.pt_types.specs.Operations.{operation as operation_meant};
ghost use Rattle.pt_types.specs.OperationViews.{operation_view};
ghost use Rattle.pt_state.specs.Outer.{is_read_call};
ghost use Rattle.pt_state.specs.Requests.{IsRequest, object_meant};
ghost use Rattle.pt_machine.specs.GrantedAtOnce.{AddsBoth, AddsGranted, AnswersOne};
ghost use Rattle.pt_machine.specs.GrantedAtOnce.{IsAhead, IsFree, IsFreeLock, IsGrantedAtOnce};
ghost use Rattle.pt_machine.specs.GrantedAtOnce.{IsReadyAfter};
ghost use Rattle.pt_machine.specs.GrantedAtOnce.{is_mutex_call};
ghost use Rattle.pt_machine.specs.SettledCalls.{IsUnopposed, NoneWaits};
ghost use Rattle.pt_machine.specs.Memory.{needs_memory};
ghost use Rattle.pt_machine.specs.Plans.{HasOperation, HasRequest, IsAtOnce, IsPlanned};
ghost use Rattle.pt_machine.specs.Plans.{KnowsUnopposed, entry_with};
ghost use Rattle.pt_machine.specs.CallDeadlines.{valid_deadline};
ghost use Rattle.pt_model.specs.Room.{entry_for};

use crate::machine::Machine;
use crate::plans::Plan;
use pt_model::Event;
use pt_records::Object;
use pt_records::mutex::can_grant_mutex;
use pt_rwlock::Holders;
use pt_state::{Acquisition, Request, State};
use pt_types::operations::{LockKind, Operation};
use pt_types::views::is_acquired;
use pt_types::{Call, ClientId, How, ObjectId, Outcome, Priority, Refusal};
use pt_waitq::WaitList;
use std::alloc::Allocator;

// Returns whether nobody holds a lock that keeps a call of this kind from a read-write lock.
// [XSH pthread_rwlock_rdlock, pthread_rwlock_wrlock]
fn is_free_lock<A: Allocator + Copy>(kind: LockKind, lock: &Holders<A>) -> bool
    ensures free { OnTrue result (IsFreeLock kind lock.now) }
    ensures all { IsFreeLock kind lock.now → result ≡ true }
{
    match kind {
        LockKind::MutexLock => false,
        LockKind::ReadLock => lock.writer().is_none(),
        LockKind::WriteLock => lock.is_free(),
    }
}

// Returns whether a call for a lock has no deadline that is a time.  [XSH pthread_mutex_timedlock]
fn is_untimed(how: &How) -> bool
    ensures untimed { OnTrue result (valid_deadline (deadline_of how.now) ≡ None) }
    ensures plain { how.now ≡ How.Plain → result ≡ true }
{
    match how {
        How::Timed(deadline) => deadline.is_bad(),
        _ => true,
    }
}

// Returns whether nobody holds a lock that keeps a call of this kind from an object.
// [XSH pthread_mutex_lock, pthread_rwlock_rdlock, pthread_rwlock_wrlock]
#[inline(always)]
fn is_free<A: Allocator + Copy>(state: &State<A>, kind: LockKind, o: ObjectId) -> bool
    requires { AreTables state.now }
    ensures free { OnTrue result (IsFree (history_of state.now) kind o) }
    ensures all { let h = history_of state.now in
        option_map class_of (kind_of h o) ≡ Some (class_needed kind)
        → IsFree h kind o → result ≡ true }
{
    match state.objects.at(o.0) {
        Some(Object::Mutex(mutex)) => matches!(kind, LockKind::MutexLock) && can_grant_mutex(mutex),
        Some(Object::Rwlock(lock)) => is_free_lock(kind, lock),
        _ => false,
    }
}

// The result of a call that was granted as it came.
#[derive(Clone, Copy)]
struct Granted {
    // The number of entries that are no longer reserved.
    used: u64,
    outcome: Outcome,
}

// Returns how many entries are no longer reserved after the Grant of a call for a mutex. One stays
// reserved for a Yield if the mutex is robust and was acquired.
// [XSH pthread_mutex_lock, EOWNERDEAD]
fn unreserved_by_lock(acquisition: Acquisition) -> u64
    ensures { result ≡ if acquisition.robust && is_acquired_it acquisition.outcome then 2 else 3 }
{
    if acquisition.robust && is_acquired(acquisition.outcome) {
        2
    } else {
        3
    }
}

// Pushes a call for a mutex that is granted as it comes, together with its Grant.
// [XSH pthread_mutex_lock]
#[inline(always)]
fn push_lock_and_grant<A: Allocator + Copy>(
    state: &mut State<A>,
    c: ClientId,
    call: &Call,
    m: ObjectId,
) -> Granted
    requires has_room { HasRoomFor state.old (entry_is.Call c call.now None) }
    requires next { IsReadyAfter state.old (entry_is.Call c call.now None) }
    requires granted { IsGrantedAtOnce (history_of state.old) c call.now }
    requires mutex { is_mutex_call (operation call.now) ≡ true }
    requires object { object_meant (history_of state.old) (operation call.now) ≡ Some m }
    ensures { AddsGranted state.old c call.now result.used result.outcome state.new }
{
    let acquisition = state.push_lock_and_grant(c, call, m);
    Granted {
        used: unreserved_by_lock(acquisition),
        outcome: acquisition.outcome,
    }
}

// Returns whether a call is for a read lock.  [XSH pthread_rwlock_rdlock]
fn is_read_call(call: &Call) -> bool
    ensures { result ≡ is_read_call (operation call.now) }
{
    matches!(
        call,
        Call::Rdlock(_) | Call::Tryrdlock(_) | Call::Timedrdlock(..) | Call::Clockrdlock(..)
    )
}

// Pushes a call for a read-write lock that is granted as it comes, together with its Grant. ENOMEM
// if there is no memory for the client's row in the lock; then nothing is pushed.
// [XSH pthread_rwlock_rdlock, pthread_rwlock_wrlock]
#[inline(never)]
fn push_rwlock_and_grant<A: Allocator + Copy>(
    state: &mut State<A>,
    c: ClientId,
    call: &Call,
    r: ObjectId,
) -> Result<(), Refusal>
    requires has_room { HasRoomFor state.old (entry_is.Call c call.now None) }
    requires next { IsReadyAfter state.old (entry_is.Call c call.now None) }
    requires granted { IsGrantedAtOnce (history_of state.old) c call.now }
    requires lock { is_mutex_call (operation call.now) ≡ false }
    requires object { object_meant (history_of state.old) (operation call.now) ≡ Some r }
    ensures ok { OnOk result (AddsGranted state.old c call.now 3 outcomes.Done state.new) }
    ensures unchanged { OnErr result (AddsNothing state.old state.new) }
    ensures err { IfErr result (λ refusal. refusal ≡ Refusal.Enomem) }
    ensures succeeds_if { is_read_call (operation call.now) ≡ false → IsOk result }
{
    if is_read_call(call) {
        state.push_read_and_grant(c, call, r)?;
        return Ok(());
    }
    state.push_write_and_grant(c, call, r);
    Ok(())
}

// Returns whether a call is for a mutex.  [XSH pthread_mutex_lock]
fn is_mutex_call(call: &Call) -> bool
    ensures { result ≡ is_mutex_call (operation call.now) }
{
    matches!(
        call,
        Call::Lock(_) | Call::Trylock(_) | Call::Timedlock(..) | Call::Clocklock(..)
    )
}

// Pushes a call that is granted as it comes, together with its Grant. A mutex needs no row for the
// client, so a call for it is never refused.
#[inline(always)]
fn push_both<A: Allocator + Copy>(
    state: &mut State<A>,
    c: ClientId,
    call: &Call,
    request: &Request,
) -> Result<Granted, Refusal>
    requires has_room { HasRoomFor state.old (entry_is.Call c call.now None) }
    requires next { IsReadyAfter state.old (entry_is.Call c call.now None) }
    requires granted { IsGrantedAtOnce (history_of state.old) c call.now }
    requires request { IsRequest (history_of state.old) (operation call.now) request.now }
    ensures ok { IfOk result (λ granted.
        AddsGranted state.old c call.now granted.used granted.outcome state.new) }
    ensures unchanged { OnErr result (AddsNothing state.old state.new) }
    ensures err { IfErr result (λ refusal. refusal ≡ Refusal.Enomem) }
    ensures succeeds_if { is_read_call (operation call.now) ≡ false → IsOk result }
{
    let o = request.object.unwrap();
    if is_mutex_call(call) {
        return Ok(push_lock_and_grant(state, c, call, o));
    }
    push_rwlock_and_grant(state, c, call, o)?;
    Ok(Granted {
        used: 3,
        outcome: Outcome::Done,
    })
}

impl<Q: WaitList, A: Allocator + Copy> Machine<Q, A> {
    // Returns whether a client lives and has a higher priority than this. It is not inlined, since
    // it is seldom called.
    #[cold]
    #[inline(never)]
    fn is_above(&self, c: ClientId, prio: Priority) -> bool
        requires { AreTables self.now }
        ensures { let own = unwrap_or (client_priority (history_of self.now) c) 0 in
            OnTrue result ((prio < own) × (own ≤ max_priority)) }
    {
        match self.state.priority(c) {
            Some(own) => prio.level() < own.level(),
            None => false,
        }
    }

    // Returns whether a call of the client would go before all calls that wait at the object, by
    // its priority.  [XSH 2.8.4]
    #[inline(always)]
    fn is_ahead(&self, c: ClientId, o: ObjectId) -> bool
        requires { AreTables self.now }
        ensures ahead { let h = history_of self.now in
            OnTrue result (IsAhead h (unwrap_or (client_priority h c) 0) o) }
        ensures answers_only_caller { NoneWaits (history_of self.now) o → result ≡ true }
    {
        match self.queues.first(o) {
            Some(first) => self.is_above(c, first.prio),
            None => true,
        }
    }

    // Returns whether a call is one for a lock that is granted as it comes: the lock is free, the
    // calls that wait for it have a lower priority, and the call has no deadline that could pass.
    // [XSH pthread_mutex_lock, pthread_rwlock_rdlock, pthread_rwlock_wrlock]
    #[inline(always)]
    fn is_granted_at_once(
        &self,
        c: ClientId,
        call: &Call,
        operation: &Operation<'_>,
        answer: Option<Outcome>,
        request: &Request,
    ) -> bool
        requires tables { AreTables self.now }
        requires operation { operation_view operation.now ≡ operation_meant call.now }
        requires enters { let h = history_of self.now in
            entry_is.Call c call.now answer ≡ entry_for h (event_is.Call c call.now) }
        requires request { IsRequest (history_of self.now) (operation_meant call.now) request.now }
        ensures granted { OnTrue result (IsGrantedAtOnce (history_of self.now) c call.now) }
        ensures unopposed { IsUnopposed (history_of self.now) c call.now → result ≡ true }
    {
        match (operation, request.object) {
            (Operation::Acquires(_, kind, how), Some(o)) => {
                if answer.is_some() || !is_untimed(how) {
                    return false;
                }
                if !is_free(&self.state, *kind, o) {
                    return false;
                }
                self.is_ahead(c, o)
            }
            _ => false,
        }
    }

    /// Returns whether an event is a call for a lock that is granted as it comes.
    #[inline(always)]
    pub(crate) fn is_at_once(
        &self,
        event: &Event,
        operation: &Option<Operation<'_>>,
        answer: Option<Outcome>,
        request: &Request,
    ) -> bool
        requires tables { AreTables self.now }
        requires operation { HasOperation event.now operation.now }
        requires enters { let h = history_of self.now in
            entry_with h event.now answer ≡ entry_for h event.now }
        requires request { HasRequest (history_of self.now) event.now request.now }
        ensures granted { IsAtOnce (history_of self.now) event.now result }
        ensures unopposed { KnowsUnopposed (history_of self.now) event.now result }
    {
        match event {
            Event::Call(c, call) => {
                let operation = operation.as_ref().unwrap();
                self.is_granted_at_once(*c, call, operation, answer, request)
            }
            _ => false,
        }
    }

    /// Pushes the entry of a call that is granted as it comes, and its Grant. Returns the outcome.
    /// Nothing must follow then, since the call has passed those that may still wait for the lock.
    /// ENOMEM if there is no memory for the client's row in a read-write lock; then nothing is
    /// pushed.  [XSH pthread_mutex_lock, pthread_rwlock_rdlock, pthread_rwlock_wrlock]
    #[inline(always)]
    pub fn push_granted_at_once(
        &mut self,
        c: ClientId,
        call: &Call,
        plan: &Plan,
    ) -> Result<Outcome, Refusal>
        requires has_room { HasRoomFor self.old (entry_is.Call c call.now None) }
        requires next { IsReadyAfter self.old (entry_is.Call c call.now None) }
        requires granted { IsGrantedAtOnce (history_of self.old) c call.now }
        requires planned { IsPlanned (history_of self.old) (event_is.Call c call.now) plan.now }
        ensures ok { OnOk result
            (AddsBoth self.old (entry_is.Call c call.now None) self.new) }
        ensures replies { IfOk result (λ x.
            outcome (history_of self.new) (place (history_of self.old)) ≡ Some x) }
        ensures answers_only_caller { IfOk result
            (AnswersOne self.new.stored c (place (history_of self.old))) }
        ensures settled { OnOk result (forced (history_of self.new) ≡ None) }
        ensures unchanged { OnErr result (AddsNothing self.old self.new) }
        ensures err { IfErr result (λ refusal. refusal ≡ Refusal.Enomem) }
        ensures succeeds_if { needs_memory (entry_is.Call c call.now None) ≡ false → IsOk result }
    {
        let granted = push_both(&mut self.state, c, call, &plan.request)?;
        self.touched = plan.touched;
        self.entering = Some(c);
        self.need = plan.need - granted.used;
        Ok(granted.outcome)
    }
}
