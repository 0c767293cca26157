//! Arrivals at barriers. Those that wait are pushed by functions for arrivals alone.

ghost use Rattle.std.specs.Prelude.{◌≡◌, None, false};
ghost use Rattle.pt_types.specs.Operations.{BarrierWaits, operation};
ghost use Rattle.pt_model.specs.Histories.{place};
ghost use Rattle.pt_model.specs.Room.{needs_seal, refusal};
ghost use Rattle.pt_state.specs.Adds.{history_of};
ghost use Rattle.pt_legal.specs.Applying.{outcome_at_once};
ghost use Rattle.pt_core.specs.Settling.{Enters};
ghost use Rattle.pt_core.specs.Trying.{IsTryResult};
ghost use Rattle.pt_core.specs.ValidStates.{HasForcedRoom, IsValidState};
ghost use Rattle.pt_core.specs.Entering.{CanEnter};

use crate::applying::plan;
use crate::fast_paths::TryResult;
use crate::settling::settle_after;
use pt_machine::{Machine, Plan};
use pt_model::Event;
use pt_types::{Call, ClientId, Name, Outcome};
use pt_waitq::WaitList;
use std::alloc::Allocator;

// Pushes an arrival that waits, and all that must follow it. Returns the answer that the arrival
// has after that, if it has one.  [XSH pthread_barrier_wait]
#[inline(always)]
fn enter_barrier_wait<Q: WaitList, A: Allocator + Copy>(
    body: &mut Machine<Q, A>,
    c: ClientId,
    call: &Call,
    n: &Name,
    plan: &Plan,
) -> Option<Outcome>
    requires can { CanEnter body.old (Event.Call c call.now) plan.now }
    requires operation { operation call.now ≡ BarrierWaits n.now }
    requires waits { plan.now.answer ≡ None }
    ensures enters { Enters body.old.stored (Event.Call c call.now) body.new.stored }
    ensures room { HasForcedRoom body.new }
    ensures replies { result
        ≡ outcome_at_once (Event.Call c call.now) (history_of body.new) (place
        (history_of body.old)) }
{
    let first = body.len();
    let rests = body.push_barrier_wait(c, call, n, plan);
    settle_after(body, rests);
    if rests {
        None
    } else {
        body.outcome_of(c, first)
    }
}

// Writes an arrival that waits, for which there is room, and returns the result.
// [XSH pthread_barrier_wait]
#[inline(always)]
fn write_barrier_wait<Q: WaitList, A: Allocator + Copy>(
    body: &mut Machine<Q, A>,
    c: ClientId,
    call: &Call,
    n: &Name,
    plan: &Plan,
) -> TryResult
    requires can { CanEnter body.old (Event.Call c call.now) plan.now }
    requires operation { operation call.now ≡ BarrierWaits n.now }
    requires waits { plan.now.answer ≡ None }
    requires unsealed { needs_seal body.old.stored.limit (history_of body.old)
        (Event.Call c call.now)
        ≡ false }
    ensures { IsTryResult body.old (Event.Call c call.now) body.new result }
{
    match enter_barrier_wait(body, c, call, n, plan) {
        Some(outcome) => TryResult::Answered(outcome),
        None => TryResult::Unanswered,
    }
}

/// Writes an arrival at a barrier, and all that must follow it, if the arrival waits there and
/// there is room for that already. Does nothing otherwise.  [XSH pthread_barrier_wait]
#[inline(never)]
pub fn try_barrier_wait<Q: WaitList, A: Allocator + Copy>(
    body: &mut Machine<Q, A>,
    event: &Event,
) -> TryResult
    requires valid { IsValidState body.old }
    requires accepted { refusal (history_of body.old) event.now ≡ None }
    ensures { IsTryResult body.old event.now body.new result }
{
    if let Event::Call(c, call) = event {
        if let Call::Bwait(n) = call {
            let plan = plan(body, event);
            let waits = plan.answer.is_none();
            if waits && body.has_room(1 + plan.need) && !body.needs_seal(plan.need) {
                return write_barrier_wait(body, *c, call, n, &plan);
            }
        }
    }
    TryResult::NotApplicable
}
