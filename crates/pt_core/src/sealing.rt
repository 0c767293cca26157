//! Seals, which drop the entries of a core.

ghost use Rattle.std.specs.Prelude.{IfErr, IfOk, None, OnErr, Some, nat_lt, if◌then◌else◌, ◌≡◌};
ghost use Rattle.pt_types.specs.Limits.{max_place};
ghost use Rattle.pt_core.specs.Stores.{store_core, store_view};
ghost use Rattle.pt_legal.specs.Sealing.{IsSealed, seal_refusal};
ghost use Rattle.pt_core.specs.ValidStates.{IsValidState};

use pt_machine::Machine;
use pt_types::Refusal;
use pt_waitq::WaitList;
use std::alloc::Allocator;

/// The greatest place at which a history can begin.  [profile]
const MAX_PLACES: u64 = 1 << 62;

/// Returns the reason why a history cannot go on from this place, if there is one.  [profile]
pub fn refusal_of_seal(place: u64) -> Option<Refusal>
    ensures { result ≡ if nat_lt max_place place then Some Refusal.Full else None }
{
    if place > MAX_PLACES {
        Some(Refusal::Full)
    } else {
        None
    }
}

/// Seals the history: drops its entries, and goes on from a Start with all that counts of them.
/// Returns the place of the next entry.  [profile]
pub fn seal<Q: WaitList, A: Allocator + Copy>(body: &mut Machine<Q, A>) -> Result<u64, Refusal>
    requires { IsValidState body.old }
    ensures valid { IsValidState body.new }
    ensures ok { IfOk result (λ at.
        IsSealed (store_core body.old.stored) (store_core body.new.stored) at) }
    ensures err { IfErr result (λ refusal. refusal ≡ seal_refusal (store_core body.old.stored)) }
    ensures unchanged { OnErr result (store_view body.new.stored ≡ store_view body.old.stored) }
{
    let at = body.len();
    if let Some(refusal) = refusal_of_seal(at) {
        return Err(refusal);
    }
    match body.seal() {
        Ok(()) => Ok(at),
        Err(refusal) => Err(refusal),
    }
}
