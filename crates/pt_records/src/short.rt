//! Answers in short: their numbers are counted from a base, in 32 bits.

ghost use Rattle.std.specs.Prelude.{◌≡◌, ◌+◌, ◌<◌, ◌≤◌, IfSome, List};
ghost use Rattle.std.specs.Prelude.{vec_capacity, vec_len};
ghost use Rattle.pt_records.specs.declared.answers.Answered.{Answered as AnyAnswer};
ghost use Rattle.pt_types.specs.Limits.{max_place};
ghost use Rattle.pt_records.specs.AnswerLogs.{IsThere, Shortens, ShortensSingle};
ghost use Rattle.pt_records.specs.AnswerLogs.{answer_of_short, answers_of_shorts};

use crate::answers::Answered;
use pt_types::{ClientId, Outcome};
use std::alloc::Allocator;
use std::mem::size_of;

/// An answer in 16 bytes.
#[derive(Clone, Copy)]
pub(crate) enum Short {
    /// The outcome, the place of the entry that gave it, the client, and the place of the call.
    Near(Outcome, u32, u32, u32),
    /// The index of an answer that is stored whole, because one of its numbers does not fit.
    Whole(usize),
}

const _: () = prove!(size_of::<Short>() == 16);

// Returns the base for answers that begin with one given at a place: 2^31 less than the place, but
// at least 0, and at most 2^62 so that 32 bits can be added. This is rare, so it is not inlined.
#[cold]
#[inline(never)]
fn base_before(at: u64) -> u64
    ensures { result ≤ max_place }
{
    at.saturating_sub(2_147_483_648)
        .min(4_611_686_018_427_387_904)
}

/// Returns the base of a log after an answer that is given at a place is added. It is the old base,
/// unless the log is empty.
pub(crate) fn base_with(base: u64, shorts: &[Short], at: u64) -> u64
    requires { base ≤ max_place }
    ensures base { result ≤ max_place }
    ensures unchanged { (ws : List AnyAnswer) → answers_of_shorts result ws shorts.now
        ≡ answers_of_shorts base ws shorts.now }
{
    if shorts.is_empty() {
        base_before(at)
    } else {
        base
    }
}

// The greatest number that fits in 32 bits.
const MAX_SHORT: u64 = 4_294_967_295;

// Returns a number counted from the base. A number below the base wraps around to a large one, so
// that a single test of the result is enough.
#[inline(always)]
fn count_from(base: u64, number: u64) -> u64
    requires { base ≤ max_place }
    ensures { result ≤ 4294967295 → base + result ≡ number }
{
    number.wrapping_sub(base)
}

/// Returns an answer in short, if its numbers fit.
#[inline(always)]
pub(crate) fn near_answer(base: u64, answer: &Answered) -> Option<Short>
    requires { base ≤ max_place }
    ensures { IfSome result (λ s. ShortensSingle base answer.now s) }
{
    let at = count_from(base, answer.at);
    let client = count_from(base, answer.client.0);
    let place = count_from(base, answer.place);
    // One test for all three, without a jump for each: nearly all answers fit.
    if (at > MAX_SHORT) | (client > MAX_SHORT) | (place > MAX_SHORT) {
        return None;
    }
    Some(Short::Near(answer.outcome, at as u32, client as u32, place as u32))
}

/// Returns an answer in short. If its numbers do not fit, it is stored whole, in room that was made
/// for it.
pub(crate) fn shortened<A: Allocator + Copy>(
    base: u64,
    wholes: &mut Vec<Answered, A>,
    answer: &Answered,
) -> Short
    requires base { base ≤ max_place }
    requires room { vec_len wholes.old < vec_capacity wholes.old }
    ensures { Shortens base answer.now wholes.old wholes.new result }
{
    match near_answer(base, answer) {
        Some(short) => short,
        None => {
            let index = wholes.len();
            wholes.push_reserved(*answer);
            Short::Whole(index)
        }
    }
}

/// Returns the answer that is stored in short.
pub(crate) fn answer_of(base: u64, wholes: &[Answered], short: Short) -> Answered
    requires base { base ≤ max_place }
    requires exists { IsThere wholes.now short }
    ensures { result ≡ answer_of_short base wholes.now short }
{
    match short {
        Short::Near(outcome, at, client, place) => Answered {
            at: base + at as u64,
            client: ClientId(base + client as u64),
            place: base + place as u64,
            outcome,
        },
        Short::Whole(index) => wholes[index],
    }
}
