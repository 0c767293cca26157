ghost use Rattle.std.specs.Prelude.{◌≡◌};
ghost use Rattle.std.proofs.Common.{rules};
ghost use Rattle.std.specs.Cmp.{partial_order_from_own_ties};
ghost use Rattle.std.specs.Cmp.Rules.{comparing};
ghost use Rattle.pt_timers.specs.Deadlines.{sooner_of};
ghost use Rattle.std.specs.Ordering.{nat_cmp, on, flip_args, then_cmp, as_partial_cmp};

use pt_types::ClientId;
use std::cmp::Ordering;

/// The key that decides which deadline is due first: by its nanoseconds, then by the place of its
/// call. The call's client is stored with it, and is not compared.
#[derive(Clone, Copy)]
#[derive_where(PartialEq, Eq)]
pub(crate) struct TimerKey {
    pub(crate) nanos: u64,
    pub(crate) place: u64,
    #[derive_where(skip)]
    pub(crate) client: ClientId,
}

// The later key is the lesser one, so that the one due first is the greatest. Both parts are always
// compared, since no processor predicts a branch on which of two keys is sooner.
impl Ord for TimerKey {
    ghost cmp = { then_cmp (flip_args (on (λ k. k.nanos) nat_cmp))
        (flip_args (on (λ k. k.place) nat_cmp)) };

    ghost total = { Prim.search (comparing, rules) };

    ghost matches_partial_cmp = { Prim.search (comparing, rules) };

    ghost matches_eq = { Prim.search (comparing, rules) };

    fn cmp(&self, other: &TimerKey) -> Ordering {
        let by_place = other.place.cmp(&self.place);
        other.nanos.cmp(&self.nanos).then(by_place)
    }
}

impl PartialOrd for TimerKey {
    ghost partial_cmp = { as_partial_cmp (then_cmp (flip_args (on (λ k. k.nanos) nat_cmp))
        (flip_args (on (λ k. k.place) nat_cmp))) };

    ghost laws = { partial_order_from_own_ties (Prim.search (comparing, rules))
        (Prim.search (comparing, rules)) };

    fn partial_cmp(&self, other: &TimerKey) -> Option<Ordering> {
        Some(self.cmp(other))
    }
}

/// Returns the sooner of the two keys, or `key` if there is no other.
pub(crate) fn sooner(best: Option<TimerKey>, key: TimerKey) -> TimerKey
    ensures { result ≡ sooner_of best key }
{
    match best {
        Some(other) => key.max(other),
        None => key,
    }
}
