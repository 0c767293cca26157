//! Equality of events.
//!
//! The contract of the derived `==` of calls has a case for each call word. These are more cases
//! than the prover's search can go through, so the contract of `same_call` states the result alone.
#![tactic(auto)]

ghost use Rattle.std.specs.Prelude.{◌≡◌, ◌≢◌, false, true};

use pt_model::Event;
use pt_types::Call;

/// Returns whether two calls have the same word and the same arguments.
pub fn same_call(a: &Call, b: &Call) -> bool
    ensures yes { result ≡ true → a.now ≡ b.now }
    ensures no { result ≡ false → a.now ≢ b.now }
{
    a == b
}

/// Returns whether two events are the same.
pub fn same_event(a: &Event, b: &Event) -> bool
    ensures yes { result ≡ true → a.now ≡ b.now }
    ensures no { result ≡ false → a.now ≢ b.now }
{
    match (a, b) {
        (Event::Join(p), Event::Join(q)) => p == q,
        (Event::Call(c, call), Event::Call(d, other)) => c == d && same_call(call, other),
        (Event::Death(c), Event::Death(d)) => c == d,
        (Event::Moment(k, t), Event::Moment(l, u)) => k == l && t == u,
        _ => false,
    }
}
