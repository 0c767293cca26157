//! Frequent events. Each kind is applied by its own copy of the steps, from which the compiler
//! leaves out what such an event never does.

ghost use Rattle.std.specs.Prelude.{◌≡◌, ◌+◌, ◌<◌, None, true, length};
ghost use Rattle.pt_model.specs.Room.{refusal};
ghost use Rattle.pt_state.specs.Adds.{history_of};
ghost use Rattle.pt_core.specs.Trying.{IsTryResult, result_of_try};
ghost use Rattle.pt_core.specs.ValidStates.{IsValidState};
ghost use Rattle.pt_core.specs.Entering.{AppliesOnOk};

use crate::applying::{apply, plan};
use crate::barrier_path::try_barrier_wait;
use crate::settling::{Enqueue, GrantNow};
use crate::writing::write;
use pt_legal::Applied;
use pt_machine::Machine;
use pt_model::Event;
use pt_types::{Call, Outcome, Refusal};
use pt_waitq::WaitList;
use std::alloc::Allocator;

// Returns the number of an event's word if it has a copy of the steps of its own, else 0.
#[inline(always)]
fn word_of(event: &Event) -> u8 {
    match event {
        Event::Call(_, Call::Lock(_)) => 1,
        Event::Call(_, Call::Timedlock(..)) => 2,
        Event::Call(_, Call::Unlock(_)) => 3,
        Event::Call(_, Call::Consistent(_)) => 4,
        Event::Call(_, Call::Rdlock(_)) => 5,
        Event::Call(_, Call::Wrlock(_)) => 6,
        Event::Call(_, Call::Rwunlock(_)) => 7,
        Event::Call(_, Call::Wait(..)) => 8,
        Event::Call(_, Call::Signal(_)) => 9,
        Event::Call(_, Call::MutexInit(..)) => 10,
        Event::Call(_, Call::RwlockInit(_)) => 11,
        Event::Call(_, Call::CondInit(_)) => 12,
        Event::Call(_, Call::BarrierInit(..)) => 13,
        Event::Call(_, Call::MutexDestroy(_)) => 14,
        Event::Call(_, Call::RwlockDestroy(_)) => 15,
        Event::Call(_, Call::CondDestroy(_)) => 16,
        Event::Call(_, Call::BarrierDestroy(_)) => 17,
        Event::Moment(..) => 18,
        _ => 0,
    }
}

// Applies any accepted event, and all that must follow it, after a seal if the event needs one. A
// refused event changes nothing.  [profile]
#[inline(never)]
fn apply_any<Q: WaitList, A: Allocator + Copy>(
    body: &mut Machine<Q, A>,
    event: &Event,
) -> Result<Applied, Refusal>
    requires valid { IsValidState body.old }
    requires accepted { refusal (history_of body.old) event.now ≡ None }
    ensures { AppliesOnOk body.old event.now result body.new }
{
    let plan = plan(body, event);
    apply(body, event, &plan)
}

/// The result of trying a copy of the steps on an event.
#[derive(Clone, Copy)]
pub enum TryResult {
    /// The event is written, its call has this answer, and no other call was answered.
    OnlyCaller(Outcome),
    /// The event is written, and its call has this answer.
    Answered(Outcome),
    /// The event is written, and has no answer.
    Unanswered,
    /// The event is refused.
    Refused(Refusal),
    /// The event is of another kind, or has no room yet. Nothing was done.
    NotApplicable,
}

// Returns the result of an event without its places.
#[inline(always)]
fn without_places(written: Result<Applied, Refusal>) -> TryResult
    ensures { result ≡ result_of_try written }
{
    match written {
        Ok(applied) => match applied.outcome {
            Some(outcome) if applied.only_caller => TryResult::OnlyCaller(outcome),
            Some(outcome) => TryResult::Answered(outcome),
            None => TryResult::Unanswered,
        },
        Err(refusal) => TryResult::Refused(refusal),
    }
}

// Writes an event of this kind, and all that must follow it, if there is room for that already. The
// code that makes room is left out of this copy. The kind is tested again after the plan, which may
// call other functions, so that the compiler still knows it when the entry is pushed.  [profile]
#[inline(never)]
fn try_frequent<const WORD: u8, Q: WaitList, A: Allocator + Copy>(
    body: &mut Machine<Q, A>,
    event: &Event,
) -> TryResult
    requires valid { IsValidState body.old }
    requires accepted { refusal (history_of body.old) event.now ≡ None }
    ensures { IsTryResult body.old event.now body.new result }
{
    if word_of(event) == WORD {
        let plan = plan(body, event);
        if body.has_room(1 + plan.need) && !body.needs_seal(plan.need) && word_of(event) == WORD {
            if plan.at_once {
                return without_places(write::<GrantNow, Q, A>(body, event, &plan));
            }
            return without_places(write::<Enqueue, Q, A>(body, event, &plan));
        }
    }
    TryResult::NotApplicable
}

// Tries the copy of the steps for an event's kind, and returns the result.  [profile]
#[inline(always)]
fn try_by_kind<Q: WaitList, A: Allocator + Copy>(
    body: &mut Machine<Q, A>,
    event: &Event,
) -> TryResult
    requires valid { IsValidState body.old }
    requires accepted { refusal (history_of body.old) event.now ≡ None }
    ensures { IsTryResult body.old event.now body.new result }
{
    if let Event::Call(_, Call::Bwait(_)) = event {
        return try_barrier_wait(body, event);
    }
    match word_of(event) {
        1 => try_frequent::<1, Q, A>(body, event),
        2 => try_frequent::<2, Q, A>(body, event),
        3 => try_frequent::<3, Q, A>(body, event),
        4 => try_frequent::<4, Q, A>(body, event),
        5 => try_frequent::<5, Q, A>(body, event),
        6 => try_frequent::<6, Q, A>(body, event),
        7 => try_frequent::<7, Q, A>(body, event),
        8 => try_frequent::<8, Q, A>(body, event),
        9 => try_frequent::<9, Q, A>(body, event),
        10 => try_frequent::<10, Q, A>(body, event),
        11 => try_frequent::<11, Q, A>(body, event),
        12 => try_frequent::<12, Q, A>(body, event),
        13 => try_frequent::<13, Q, A>(body, event),
        14 => try_frequent::<14, Q, A>(body, event),
        15 => try_frequent::<15, Q, A>(body, event),
        16 => try_frequent::<16, Q, A>(body, event),
        17 => try_frequent::<17, Q, A>(body, event),
        18 => try_frequent::<18, Q, A>(body, event),
        _ => TryResult::NotApplicable,
    }
}

// Returns what an event wrote from a place on without a seal, with the answer, and whether it is
// known that no other call was answered.
#[inline(always)]
fn applied<Q: WaitList, A: Allocator + Copy>(
    body: &Machine<Q, A>,
    first: u64,
    outcome: Option<Outcome>,
    only_caller: bool,
) -> Applied
    requires { 0 < body.now.stored.start.at + length body.now.stored.entries }
    ensures first { result.first ≡ first }
    ensures last { result.last + 1
        ≡ body.now.stored.start.at + length body.now.stored.entries }
    ensures outcome { result.outcome ≡ outcome }
    ensures unsealed { result.sealed ≡ None }
    ensures answers_only_caller { result.only_caller ≡ only_caller }
{
    Applied {
        first,
        last: body.len() - 1,
        outcome,
        sealed: None,
        only_caller,
    }
}

/// Does what `apply_any` does, with a copy of the steps for each frequent kind of event.  [profile]
#[inline(always)]
pub fn apply_accepted<Q: WaitList, A: Allocator + Copy>(
    body: &mut Machine<Q, A>,
    event: &Event,
) -> Result<Applied, Refusal>
    requires valid { IsValidState body.old }
    requires accepted { refusal (history_of body.old) event.now ≡ None }
    ensures { AppliesOnOk body.old event.now result body.new }
{
    let first = body.len();
    match try_by_kind(body, event) {
        TryResult::OnlyCaller(outcome) => Ok(applied(body, first, Some(outcome), true)),
        TryResult::Answered(outcome) => Ok(applied(body, first, Some(outcome), false)),
        TryResult::Unanswered => Ok(applied(body, first, None, false)),
        TryResult::Refused(refusal) => Err(refusal),
        TryResult::NotApplicable => apply_any(body, event),
    }
}
