ghost use Rattle.std.specs.Prelude.{◌≡◌, filter, option_map};
ghost use Rattle.pt_model.specs.Histories.{history};
ghost use Rattle.pt_model.specs.Searches.{least};
ghost use Rattle.pt_model.specs.WaitingCall.{call_at_place, waiting_calls};
ghost use Rattle.pt_model.specs.Answers.{client_or_zero, open_calls, entry_replies};
ghost use Rattle.pt_model.specs.Forced.{expires_before};
ghost use Rattle.pt_model.specs.Queries.{caller, caller_by};
ghost use Rattle.pt_model.specs.Queries.{latest_call, latest_call_by};
ghost use Rattle.pt_model.specs.Queries.{reply_if, answer_of};
ghost use Rattle.pt_model.specs.Queries.{has_deadline};
ghost use Rattle.pt_model.specs.Queries.{least_deadline};
ghost use Rattle.pt_model.specs.Found.{option_filter};
ghost use Rattle.pt_reference.specs.PlainReplies.{client_of_reply, plain_reply_view};
ghost use Rattle.pt_reference.specs.PlainReplies.{reply_at_place};

use crate::forced::sooner;
use pt_model::Entry;
use pt_model::waiting_call::WaitingCall;
use pt_readings::answers::{answer_by, open_at, outcome};
use pt_readings::clients::{is_alive, is_same_clock};
use pt_readings::moves::is_moved;
use pt_readings::waiting::waiting_call_at;
use pt_types::{ClientId, Clock, Outcome};

/// An answer: the client that gets it, the place of the call, and the outcome.
#[derive(Clone, Copy, PartialEq, Eq)]
pub struct PlainReply {
    pub client: ClientId,
    /// The place of the call.
    pub place: u64,
    pub outcome: Outcome,
}

/// Returns the client of the call at a place, after an entry.
#[tactic(auto, using(crate::proofs::Ends::place_of_all))]
pub fn caller_by(
    entries: &[Entry],
    entry: &Entry,
    before: Option<ClientId>,
    j: u64,
) -> Option<ClientId>
    ensures { result ≡ caller_by (history entries.now) entry.now before j }
{
    match entry {
        Entry::Call(c, _, _) if j == entries.len() as u64 => Some(*c),
        _ => before,
    }
}

/// Returns the client of the call at a place.
#[tactic(auto, using(crate::proofs::Ends::one_more))]
pub fn caller(entries: &[Entry], j: u64) -> Option<ClientId>
    ensures { result ≡ caller (history entries.now) j }
{
    let mut found = None;
    for (i, entry) in entries.iter().enumerate() {
        found = caller_by(&entries[..i], entry, found, j);
    }
    found
}

/// Returns the place of a client's latest call, after an entry.
#[tactic(auto, using(crate::proofs::Ends::place_of_all))]
pub fn latest_call_by(
    entries: &[Entry],
    entry: &Entry,
    before: Option<u64>,
    c: ClientId,
) -> Option<u64>
    ensures { result ≡ latest_call_by (history entries.now) entry.now before c }
{
    match entry {
        Entry::Call(d, _, _) if *d == c => Some(entries.len() as u64),
        _ => before,
    }
}

/// Returns the place of a client's latest call.
#[tactic(auto, using(crate::proofs::Ends::one_more))]
pub fn latest(entries: &[Entry], c: ClientId) -> Option<u64>
    ensures { result ≡ latest_call (history entries.now) c }
{
    let mut found = None;
    for (i, entry) in entries.iter().enumerate() {
        found = latest_call_by(&entries[..i], entry, found, c);
    }
    found
}

/// Returns the answer to a client's call at this place, if it has one.
pub fn reply_if(client: ClientId, place: u64, outcome: Option<Outcome>) -> Option<PlainReply>
    ensures { option_map plain_reply_view result ≡ reply_if client place outcome }
{
    match outcome {
        Some(outcome) => Some(PlainReply {
            client,
            place,
            outcome,
        }),
        None => None,
    }
}

/// Returns the answer to a living client's latest call.
pub fn answer_of(entries: &[Entry], c: ClientId) -> Option<PlainReply>
    ensures { option_map plain_reply_view result ≡ answer_of (history entries.now) c }
{
    if !is_alive(entries, c) {
        return None;
    }
    match latest(entries, c) {
        Some(place) => reply_if(c, place, outcome(entries, place)),
        None => None,
    }
}

/// Returns the client of the call that came without a reply at a place, or 0 if no such call
/// exists.
pub fn client_at(entries: &[Entry], j: u64) -> ClientId
    ensures { result ≡ client_or_zero (call_at_place j (waiting_calls (history entries.now))) }
{
    match waiting_call_at(entries, j) {
        Some(w) => w.client,
        None => ClientId(0),
    }
}

/// Returns the client that gets the answer which an entry after these gives to the call at a place.
pub fn reply_client(entries: &[Entry], entry: &Entry, j: u64) -> ClientId
    ensures { result ≡ client_of_reply (history entries.now) entry.now j }
{
    match entry {
        Entry::Call(c, _, _) => *c,
        _ => client_at(entries, j),
    }
}

/// Returns the answer that an entry after these gives to the call at a place, if it gives one.
/// [XSH, the call's page]
#[tactic(auto, using(crate::proofs::Tellings::replies_at_place))]
pub fn reply_of_entry(entries: &[Entry], entry: &Entry, j: u64) -> Option<PlainReply>
    ensures { option_map plain_reply_view result
        ≡ reply_at_place j (entry_replies (history entries.now) entry.now) }
{
    let before = outcome(entries, j);
    reply_if(
        reply_client(entries, entry, j),
        j,
        answer_by(entries, entry, before, j),
    )
}

/// Returns true if a call has a deadline by this clock. A moved wait has none.
/// [XSH pthread_cond_timedwait]
pub fn has_deadline(entries: &[Entry], which: Clock, w: &WaitingCall) -> bool
    ensures { result ≡ has_deadline (history entries.now) which w.now }
{
    w.deadline.is_some() && is_same_clock(w.clock, which) && !is_moved(entries, w)
}

/// Returns the open call at a place, if it has a deadline by this clock.
pub fn timed_at(entries: &[Entry], which: Clock, i: u64) -> Option<WaitingCall>
    ensures { result
        ≡ option_filter (has_deadline (history entries.now) which)
        (call_at_place i (open_calls (history entries.now))) }
{
    match open_at(entries, i) {
        Some(w) if has_deadline(entries, which, &w) => Some(w),
        _ => None,
    }
}

/// Returns the call with the least deadline by this clock.
pub fn first_timed(entries: &[Entry], which: Clock) -> Option<WaitingCall>
    ensures { result
        ≡ least expires_before
        (filter (has_deadline (history entries.now) which) (open_calls (history entries.now))) }
{
    let mut best = None;
    let mut i = entries.len();
    while i > 0 {
        i -= 1;
        best = sooner(timed_at(entries, which, i as u64), best);
    }
    best
}

/// Returns the least deadline by this clock of the open calls that were not moved, in nanoseconds.
pub fn least_deadline(entries: &[Entry], which: Clock) -> Option<u64>
    ensures { result ≡ least_deadline (history entries.now) which }
{
    match first_timed(entries, which) {
        Some(w) => w.deadline,
        None => None,
    }
}
