ghost use Rattle.std.specs.Prelude.{◌≡◌, ◌<◌, ◌&&◌, ◌==◌, nat_lt};
ghost use Rattle.std.specs.List.{list_any};
ghost use Rattle.pt_model.specs.Histories.{history};
ghost use Rattle.pt_model.specs.WaitingCall.{call_at_place, waiting_calls, is_barrier_wait};
ghost use Rattle.pt_model.specs.Answers.{outcome, open_calls};
ghost use Rattle.pt_model.specs.Answers.{open_place, is_open_by};
ghost use Rattle.pt_model.specs.Answers.{at_barrier, trip_replies, entry_replies};
ghost use Rattle.pt_model.specs.Answers.{outcome_in};
ghost use Rattle.pt_model.specs.Found.{is_some_and};
ghost use Rattle.pt_readings.specs.Found.{place_or, is_alive_at};

use crate::clients::is_alive;
use crate::waiting::{is_wait_at, waiting_call_at};
use pt_model::Entry;
use pt_model::waiting_call::{WaitingCall, is_barrier_wait};
use pt_types::{ClientId, ObjectId, Outcome};

/// Returns true if a waiting call is open: it has no answer, and its client lives.
#[cycle(answers)]
pub fn is_open(entries: &[Entry], w: &WaitingCall) -> bool
    ensures { result ≡ is_open_by (history entries.now) (outcome (history entries.now)) w.now }
{
    is_alive(entries, w.client) && outcome(entries, w.place).is_none()
}

/// Returns true if the call at a place is open and waits at this barrier.
/// [XSH pthread_barrier_wait]
#[cycle(answers)]
#[tactic(auto, using(crate::proofs::Opens::passes_open))]
pub fn is_open_at_barrier(entries: &[Entry], b: ObjectId, i: u64) -> bool
    ensures { result
        ≡ is_some_and (λ w. is_barrier_wait w.role && (w.object == b))
        (call_at_place i (open_calls (history entries.now))) }
{
    match waiting_call_at(entries, i) {
        Some(w) => is_barrier_wait(w.role) && w.object == b && is_open(entries, &w),
        None => false,
    }
}

/// Returns true if the call at a place is open, waits at this barrier, and came after place `j`.
#[cycle(answers)]
#[tactic(auto, using(pt_model::proofs::Ascending::passes_place))]
pub fn is_later_at_barrier(entries: &[Entry], b: ObjectId, j: u64, i: u64) -> bool
    ensures { result
        ≡ is_some_and (λ w. (is_barrier_wait w.role && (w.object == b)) && nat_lt j w.place)
        (call_at_place i (open_calls (history entries.now))) }
{
    j < i && is_open_at_barrier(entries, b, i)
}

/// Returns true if an open call that came after place `j` waits at the barrier.
#[cycle(answers)]
pub fn has_later(entries: &[Entry], b: ObjectId, j: u64) -> bool
    ensures { result ≡ list_any (λ w. nat_lt j w.place) (at_barrier b (open_calls
        (history entries.now))) }
{
    for i in 0..entries.len() {
        if is_later_at_barrier(entries, b, j, i as u64) {
            return true;
        }
    }
    false
}

/// Returns true if the call at a place waits at the barrier, provided that it has no answer yet.
pub fn is_living_at_barrier(entries: &[Entry], b: ObjectId, j: u64) -> bool
    ensures { result
        ≡ is_some_and (is_alive_at (history entries.now) b)
        (call_at_place j (waiting_calls (history entries.now))) }
{
    match waiting_call_at(entries, j) {
        Some(w) => { is_barrier_wait(w.role) && w.object == b && is_alive(entries, w.client) }
        None => false,
    }
}

/// Returns the answer that a Trip after these entries gives to the call at a place.
/// [XSH pthread_barrier_wait]
#[cycle(answers)]
#[tactic(auto, using(crate::proofs::Opens::trip_call_outcome))]
pub fn answer_in_trip(
    entries: &[Entry],
    b: ObjectId,
    before: Option<Outcome>,
    j: u64,
) -> Option<Outcome>
    requires { before ≡ outcome (history entries.now) j }
    ensures { result ≡ outcome_in (trip_replies (at_barrier b (open_calls
        (history entries.now)))) j }
{
    if before.is_some() || !is_living_at_barrier(entries, b, j) {
        return None;
    }
    if has_later(entries, b, j) {
        Some(Outcome::Done)
    } else {
        Some(Outcome::Serial)
    }
}

/// Returns the answer that an entry after these gives to the call at a place.
/// [XSH, the call's page]
#[cycle(answers)]
#[tactic(auto, using(crate::proofs::Prefix::place_all))]
pub fn answer_by(
    entries: &[Entry],
    entry: &Entry,
    before: Option<Outcome>,
    j: u64,
) -> Option<Outcome>
    requires { before ≡ outcome (history entries.now) j }
    ensures { result ≡ outcome_in (entry_replies (history entries.now) entry.now) j }
{
    match entry {
        Entry::Call(_, _, Some(x)) if j == entries.len() as u64 => Some(*x),
        Entry::Grant(i, x) if *i == j => Some(*x),
        Entry::Trip(b) => answer_in_trip(entries, *b, before, j),
        Entry::Expire(i) if *i == j && !is_wait_at(entries, j) => Some(Outcome::Etimedout),
        _ => None,
    }
}

/// Returns the answer to the call at a place.  [XSH, the call's page]
#[cycle(answers)]
#[tactic(auto, using(crate::proofs::Prefix::history_more))]
pub fn outcome(entries: &[Entry], j: u64) -> Option<Outcome>
    ensures { result ≡ outcome (history entries.now) j }
{
    let mut found = None;
    for (i, entry) in entries.iter().enumerate() {
        found = answer_by(&entries[..i], entry, found, j).or(found);
    }
    found
}

/// Returns the call at a place, if it is open.
#[tactic(auto, using(crate::proofs::Opens::at_place_open))]
pub fn open_at(entries: &[Entry], i: u64) -> Option<WaitingCall>
    ensures { result ≡ call_at_place i (open_calls (history entries.now)) }
{
    match waiting_call_at(entries, i) {
        Some(w) if is_open(entries, &w) => Some(w),
        _ => None,
    }
}

/// Returns the place of a client's open call.
pub fn open_place(entries: &[Entry], c: ClientId) -> Option<u64>
    ensures { result ≡ open_place (history entries.now) c }
{
    let mut found = None;
    let mut i = entries.len();
    while i > 0 {
        i -= 1;
        found = place_if(open_at(entries, i as u64), c, found);
    }
    found
}

/// Returns the call's place if the call is the client's, or else the place already found.
pub fn place_if(w: Option<WaitingCall>, c: ClientId, found: Option<u64>) -> Option<u64>
    ensures { result ≡ place_or w c found }
{
    match w {
        Some(w) if w.client == c => Some(w.place),
        _ => found,
    }
}
