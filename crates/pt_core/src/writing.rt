//! Writing one accepted event without a seal.

ghost use Rattle.std.specs.Prelude.{◌≡◌, ◌<◌, ◌+◌, length, None};
ghost use Rattle.pt_state.specs.Adds.{history_of};
ghost use Rattle.pt_state.specs.Reads.{AreTables};
ghost use Rattle.pt_legal.specs.Applying.{outcome_at_once, KeepsOutcome};
ghost use Rattle.pt_core.specs.Entering.{CanWrite, WritesOnOk};

use crate::settling::{PushMode, enter, make_room};
use pt_legal::Applied;
use pt_machine::{Machine, Plan};
use pt_model::Event;
use pt_types::{Outcome, Refusal};
use pt_waitq::WaitList;
use std::alloc::Allocator;

/// Returns the answer that an event's own call has so far, if it has one.
pub fn outcome_of_event<Q: WaitList, A: Allocator + Copy>(
    body: &Machine<Q, A>,
    event: &Event,
    first: u64,
) -> Option<Outcome>
    requires { AreTables body.now }
    ensures { result ≡ outcome_at_once event.now (history_of body.now) first }
{
    match event {
        Event::Join(_) => Some(Outcome::Done),
        Event::Call(c, _) => body.outcome_of(*c, first),
        Event::Death(_) | Event::Moment(..) => None,
    }
}

// Returns the answer that an event's own call has so far. It is the answer that the call had when
// its entry was pushed, if it had one. If it had none, it has none while its entry is the last.
#[inline(always)]
fn outcome_by_answer<Q: WaitList, A: Allocator + Copy>(
    body: &Machine<Q, A>,
    event: &Event,
    answer: Option<Outcome>,
    first: u64,
) -> Option<Outcome>
    requires tables { AreTables body.now }
    requires still { KeepsOutcome event.now answer (history_of body.now) first }
    requires some { 0 < body.now.stored.start.at + length body.now.stored.entries }
    ensures { result ≡ outcome_at_once event.now (history_of body.now) first }
{
    match (event, answer) {
        (Event::Call(..), Some(answer)) => Some(answer),
        (Event::Call(..), None) if body.len() - 1 == first => None,
        (Event::Call(c, _), None) => body.outcome_of(*c, first),
        _ => outcome_of_event(body, event, first),
    }
}

/// Writes an accepted event by its plan, and all that must follow it, without a seal. A refusal
/// changes nothing.  [profile]
#[inline(always)]
pub fn write<W: PushMode, Q: WaitList, A: Allocator + Copy>(
    body: &mut Machine<Q, A>,
    event: &Event,
    plan: &Plan,
) -> Result<Applied, Refusal>
    requires { CanWrite body.old event.now plan.now }
    ensures { WritesOnOk body.old event.now result body.new }
{
    if let Err(refusal) = make_room(body, event, plan.need) {
        return Err(refusal);
    }
    let first = body.len();
    let pushed = match enter::<W, Q, A>(body, event, plan) {
        Ok(pushed) => pushed,
        Err(refusal) => return Err(refusal),
    };
    let outcome = outcome_by_answer(body, event, pushed.answer, first);
    Ok(Applied {
        first,
        last: body.len() - 1,
        outcome,
        sealed: None,
        only_caller: pushed.rests,
    })
}
