//! Pushing any entry with its deadline, which is set when a call waits and dropped when it ends.

ghost use Rattle.pt_model.specs.declared.entry.Entry.TheVariants as entry_is;
ghost use Rattle.pt_state.specs.Adds.{history_of};
ghost use Rattle.std.specs.Prelude.{None, Some, ℕ, ◌&&◌, ◌==◌};
ghost use Rattle.std.specs.Prelude.{◌≡◌, false, if◌then◌else◌, true};
ghost use Rattle.pt_types.specs.Operations.{operation};
ghost use Rattle.pt_machine.specs.CallDeadlines.{AreDeadlinesSet, operation_deadline};
ghost use Rattle.pt_machine.specs.CallDeadlines.{can_move_waits};
ghost use Rattle.pt_machine.specs.CallDeadlines.{HasOwnDeadline, valid_deadline, was_moved_at};
ghost use Rattle.pt_records.specs.declared.clients.Open.{Open};
ghost use Rattle.std.specs.List.{list_any};
ghost use Rattle.pt_timers.specs.Deadlines.{deadline_at};
ghost use Rattle.pt_records.specs.Callers.{opens_of};
ghost use Rattle.pt_types.specs.Times.{is_invalid_deadline};
ghost use Rattle.pt_machine.specs.Memory.{needs_memory, needs_memory_to_wait};
ghost use Rattle.pt_state.specs.Outer.{makes_object};
ghost use Rattle.pt_machine.specs.Plans.{HasRequest, entry_with};
ghost use Rattle.pt_state.specs.Serving.{call_of_open};
ghost use Rattle.pt_model.specs.Searches.{In};
ghost use Rattle.pt_model.specs.Forced.{service};
ghost use Rattle.pt_model.specs.WaitingCall.{is_barrier_wait, final_mutex};
ghost use Rattle.pt_machine.specs.Pushes.{CanCall, CanPush, Pushes, PushesOnOk};

use crate::waiting::push_waiting;
use crate::{calls, clients, forced};
use pt_model::Event;
use pt_model::waiting_call::WaitingCall;
use pt_records::Open;
use pt_state::{Request, State};
use pt_timers::Timers;
use pt_types::operations::clock_of;
use pt_types::{Call, ClientId, Clock, Deadline, Moment, Outcome, Refusal};
use pt_waitq::WaitList;
use std::alloc::Allocator;

// Pushes a reading of a clock.
fn push_moment<Q: WaitList, A: Allocator + Copy>(
    state: &mut State<A>,
    queues: &mut Q,
    clock: Clock,
    moment: Moment,
)
    requires { CanPush state.old (Q.seen queues.old) (entry_is.Moment clock moment) }
    ensures { Pushes state.old (entry_is.Moment clock moment) state.new (Q.seen queues.new) }
{
    state.push_moment(clock, moment);
}

// Returns the deadline of a call, if it has one, as the call gave it.
// [XSH pthread_mutex_timedlock]
#[inline(always)]
fn deadline_in(call: &Call) -> Option<Deadline>
    ensures { result ≡ operation_deadline (operation call.now) }
{
    match call {
        Call::Timedlock(_, d)
        | Call::Clocklock(_, _, d)
        | Call::Timedrdlock(_, d)
        | Call::Clockrdlock(_, _, d)
        | Call::Timedwrlock(_, d)
        | Call::Clockwrlock(_, _, d)
        | Call::Timedwait(_, _, d)
        | Call::Clockwait(_, _, _, d) => Some(*d),
        _ => None,
    }
}

// Returns the deadline of a call, if it has one that is a time.
// [XSH pthread_mutex_timedlock, EINVAL]
#[inline(always)]
fn checked_deadline(call: &Call) -> Option<Deadline>
    ensures { result ≡ valid_deadline (operation_deadline (operation call.now)) }
{
    match deadline_in(call) {
        Some(deadline) if !deadline.is_bad() => Some(deadline),
        _ => None,
    }
}

// Returns whether an open call was moved by the entry at this place.  [XSH pthread_cond_broadcast]
fn was_moved(open: &Open, place: u64) -> bool
    ensures { result ≡ was_moved_at place «open».now }
{
    match open.moved {
        Some(moved) => moved.at == place,
        None => false,
    }
}

// Returns whether no deadline is set, by either clock.
fn has_none<A: Allocator + Copy>(timers: &Timers<A>) -> bool
    ensures { result ≡ true → (p : ℕ) → deadline_at timers.now p ≡ None }
{
    match timers.least(Clock::Real) {
        Some(_) => false,
        None => timers.least(Clock::Mono).is_none(),
    }
}

/// Drops the deadline of a call, if one is set at its place.
pub(crate) fn drop_deadline<A: Allocator + Copy>(timers: &mut Timers<A>, call: &WaitingCall)
    requires { HasOwnDeadline timers.old call.now }
    ensures { (p : ℕ)
        → deadline_at timers.new p
        ≡ (if «call».now.place == p then None else deadline_at timers.old p) }
{
    if let Some(nanos) = call.deadline {
        timers.cancel(call.place, call.clock, nanos);
    }
}

// Drops the deadlines of the calls that the entry at this place moved.
// [XSH pthread_cond_broadcast]
fn drop_moved<A: Allocator + Copy>(timers: &mut Timers<A>, state: &State<A>, place: u64)
    requires { (o : Open) → In o (opens_of state.now.clients)
        → HasOwnDeadline timers.old (call_of_open o) }
    ensures { (p : ℕ)
        → deadline_at timers.new p
        ≡ (if list_any (λ o. was_moved_at place o && (o.call.place == p))
        (opens_of state.now.clients)
        then None
        else deadline_at timers.old p) }
{
    if has_none(timers) {
        return;
    }
    for i in 0..state.clients.len() {
        if let Some(open) = state.open_nth(i) {
            if was_moved(&open, place) {
                drop_deadline(timers, &open.call);
            }
        }
    }
}

// Sets the deadline of a call that waits, and pushes the call. ENOMEM if a growth is refused; then
// no deadline is set.  [XSH pthread_mutex_timedlock]
#[inline(never)]
fn push_timed<Q: WaitList, A: Allocator + Copy>(
    state: &mut State<A>,
    queues: &mut Q,
    timers: &mut Timers<A>,
    c: ClientId,
    call: &Call,
    deadline: Deadline,
    request: &Request,
) -> Result<(), Refusal>
    requires can { CanCall state.old (Q.seen queues.old) c call.now None request.now }
    requires timed { AreDeadlinesSet (history_of state.old) timers.old }
    requires deadline { operation_deadline (operation call.now) ≡ Some deadline }
    requires good { is_invalid_deadline deadline ≡ false }
    ensures pushes { PushesOnOk state.old (entry_is.Call c call.now None)
        (needs_memory_to_wait (operation call.now)) result state.new (Q.seen queues.new) }
    ensures timed { AreDeadlinesSet (history_of state.new) timers.new }
{
    let place = state.stored.len();
    let clock = clock_of(call);
    if let Err(refusal) = timers.set(place, c, clock, deadline) {
        return Err(refusal);
    }
    match push_waiting(state, queues, c, call, request) {
        Ok(()) => Ok(()),
        Err(refusal) => {
            timers.cancel(place, clock, deadline.nanos());
            Err(refusal)
        }
    }
}

// Pushes a call that waits, with its deadline if that is a time. ENOMEM if a growth is refused.
// [XSH, the call's page]
#[inline(always)]
fn push_waiting_call<Q: WaitList, A: Allocator + Copy>(
    state: &mut State<A>,
    queues: &mut Q,
    timers: &mut Timers<A>,
    c: ClientId,
    call: &Call,
    request: &Request,
) -> Result<(), Refusal>
    requires can { CanCall state.old (Q.seen queues.old) c call.now None request.now }
    requires timed { AreDeadlinesSet (history_of state.old) timers.old }
    ensures pushes { PushesOnOk state.old (entry_is.Call c call.now None)
        (needs_memory_to_wait (operation call.now)) result state.new (Q.seen queues.new) }
    ensures timed { AreDeadlinesSet (history_of state.new) timers.new }
{
    match checked_deadline(call) {
        Some(deadline) => push_timed(state, queues, timers, c, call, deadline, request),
        None => push_waiting(state, queues, c, call, request),
    }
}

// Returns whether a call can move waits.  [XSH pthread_cond_broadcast]
fn can_move_waits(call: &Call) -> bool
    ensures { result ≡ can_move_waits (operation call.now) }
{
    matches!(call, Call::Signal(_) | Call::Broadcast(_))
}

// Pushes a call with its answer, and drops the deadlines of the waits that it moves. ENOMEM if
// there is no memory for the object that it makes.  [XSH, the call's page]
#[inline(always)]
fn push_answered<Q: WaitList, A: Allocator + Copy>(
    state: &mut State<A>,
    queues: &mut Q,
    timers: &mut Timers<A>,
    c: ClientId,
    call: &Call,
    answer: Outcome,
    request: &Request,
) -> Result<(), Refusal>
    requires can { CanCall state.old (Q.seen queues.old) c call.now (Some answer) request.now }
    requires timed { AreDeadlinesSet (history_of state.old) timers.old }
    ensures pushes { PushesOnOk state.old (entry_is.Call c call.now (Some answer))
        (makes_object (operation call.now)) result state.new (Q.seen queues.new) }
    ensures timed { AreDeadlinesSet (history_of state.new) timers.new }
{
    let place = state.stored.len();
    // This is tested before the push, while the compiler still knows which word the call is.
    let moves = can_move_waits(call);
    calls::push_answered(state, queues, c, call, answer, request)?;
    if moves {
        drop_moved(timers, state, place);
    }
    Ok(())
}

// Pushes a Death, and drops the deadline of the client's open call.
fn push_death<Q: WaitList, A: Allocator + Copy>(
    state: &mut State<A>,
    queues: &mut Q,
    timers: &mut Timers<A>,
    c: ClientId,
)
    requires can { CanPush state.old (Q.seen queues.old) (entry_is.Death c) }
    requires timed { AreDeadlinesSet (history_of state.old) timers.old }
    ensures pushes { Pushes state.old (entry_is.Death c) state.new (Q.seen queues.new) }
    ensures timed { AreDeadlinesSet (history_of state.new) timers.new }
{
    if let Some(open) = state.open_of(c) {
        drop_deadline(timers, &open.call);
    }
    clients::push_death(state, queues, c);
}

// Pushes a call, with the answer that it gets at once. ENOMEM if a growth is refused.
// [XSH, the call's page]
#[inline(always)]
fn push_call<Q: WaitList, A: Allocator + Copy>(
    state: &mut State<A>,
    queues: &mut Q,
    timers: &mut Timers<A>,
    c: ClientId,
    call: &Call,
    answer: Option<Outcome>,
    request: &Request,
) -> Result<(), Refusal>
    requires can { CanCall state.old (Q.seen queues.old) c call.now answer request.now }
    requires timed { AreDeadlinesSet (history_of state.old) timers.old }
    ensures pushes { PushesOnOk state.old (entry_is.Call c call.now answer)
        (needs_memory (entry_is.Call c call.now answer)) result state.new (Q.seen queues.new) }
    ensures timed { AreDeadlinesSet (history_of state.new) timers.new }
{
    match answer {
        None => push_waiting_call(state, queues, timers, c, call, request),
        Some(outcome) => push_answered(state, queues, timers, c, call, outcome, request),
    }
}

/// Pushes the entry of an event, given the request of its call and the answer that it gets at once.
/// ENOMEM if a growth is refused; then nothing is pushed. An entry that needs no memory is never
/// refused.  [profile]
#[inline(always)]
pub(crate) fn push_outer<Q: WaitList, A: Allocator + Copy>(
    state: &mut State<A>,
    queues: &mut Q,
    timers: &mut Timers<A>,
    event: &Event,
    answer: Option<Outcome>,
    request: &Request,
) -> Result<(), Refusal>
    requires can { CanPush state.old (Q.seen queues.old)
        (entry_with (history_of state.old) event.now answer) }
    requires request { HasRequest (history_of state.old) event.now request.now }
    requires timed { AreDeadlinesSet (history_of state.old) timers.old }
    ensures pushes { let e = entry_with (history_of state.old) event.now answer in
        PushesOnOk state.old e (needs_memory e) result state.new (Q.seen queues.new) }
    ensures timed { AreDeadlinesSet (history_of state.new) timers.new }
{
    match event {
        Event::Join(priority) => clients::push_join(state, queues, *priority),
        Event::Call(c, call) => {
            // A copy is borrowed, so that the plan itself can stay in registers.
            let request = *request;
            push_call(state, queues, timers, *c, call, answer, &request)
        }
        Event::Death(c) => {
            push_death(state, queues, timers, *c);
            Ok(())
        }
        Event::Moment(clock, moment) => {
            push_moment(state, queues, *clock, *moment);
            Ok(())
        }
    }
}

/// Pushes the Grant of a call for a read-write lock, and drops its deadline.
/// [XSH pthread_rwlock_unlock]
pub(crate) fn push_granted<Q: WaitList, A: Allocator + Copy>(
    state: &mut State<A>,
    queues: &mut Q,
    timers: &mut Timers<A>,
    found: &Open,
)
    requires can { CanPush state.old (Q.seen queues.old)
        (service (history_of state.old) (call_of_open found.now)) }
    requires timed { AreDeadlinesSet (history_of state.old) timers.old }
    requires is_open { In found.now (opens_of state.old.clients) }
    requires other { is_barrier_wait (call_of_open found.now).role ≡ false }
    requires plain { final_mutex (call_of_open found.now).role found.now.call.object ≡ None }
    ensures pushes { Pushes state.old (service (history_of state.old)
        (call_of_open found.now)) state.new
        (Q.seen queues.new) }
    ensures timed { AreDeadlinesSet (history_of state.new) timers.new }
{
    forced::push_granted(state, queues, found);
    drop_deadline(timers, &found.call);
}
