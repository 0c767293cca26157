ghost use Rattle.std.specs.Prelude.{◌≡◌, ◌≤◌, ◌<◌, ◌-◌, ◌^◌, length};
ghost use Rattle.pt_model.specs.Histories.{history};
ghost use Rattle.pt_types.specs.Operations.{same_clock};
ghost use Rattle.pt_model.specs.Clients.{client_priority, client_priority_by};
ghost use Rattle.pt_model.specs.Clients.{is_alive, living_count};
ghost use Rattle.pt_model.specs.Clients.{living_count_by, clock as clock_in};
ghost use Rattle.pt_model.specs.Clients.{is_due};

use pt_model::Entry;
use pt_types::{ClientId, Clock, Priority};

/// Returns a client's priority after an entry; `None` once the client has died.
pub fn client_priority_by(entry: &Entry, before: Option<Priority>, c: ClientId) -> Option<Priority>
    ensures { result ≡ client_priority_by entry.now before c }
{
    match entry {
        Entry::Join(d, priority) if *d == c => Some(*priority),
        Entry::Death(d) if *d == c => None,
        _ => before,
    }
}

/// Returns the priority with which a client joined, while it lives.  [XSH 2.8.4]
#[tactic(auto, using(crate::proofs::Prefix::history_more))]
pub fn client(entries: &[Entry], c: ClientId) -> Option<Priority>
    ensures { result ≡ client_priority (history entries.now) c }
{
    let mut found = None;
    for entry in entries {
        found = client_priority_by(entry, found, c);
    }
    found
}

/// Returns true if a client lives.
pub fn is_alive(entries: &[Entry], c: ClientId) -> bool
    ensures { result ≡ is_alive (history entries.now) c }
{
    client(entries, c).is_some()
}

/// Returns the number of living clients after an entry.
pub fn living_count_by(entry: &Entry, before: u64) -> u64
    requires { before < 2 ^ 64 - 1 }
    ensures { result ≡ living_count_by entry.now before }
{
    match entry {
        Entry::Join(..) => before + 1,
        Entry::Death(_) => before.saturating_sub(1),
        _ => before,
    }
}

/// Returns the number of living clients.
#[tactic(auto, using(crate::proofs::Prefix::history_more))]
pub fn living(entries: &[Entry]) -> u64
    ensures value { result ≡ living_count (history entries.now) }
    ensures within { result ≤ length entries.now }
{
    let mut count = 0;
    for entry in entries {
        count = living_count_by(entry, count);
    }
    count
}

/// Returns true if both clocks are the same.
pub fn is_same_clock(one: Clock, other: Clock) -> bool
    ensures { result ≡ same_clock one other }
{
    match (one, other) {
        (Clock::Real, Clock::Real) | (Clock::Mono, Clock::Mono) => true,
        _ => false,
    }
}

/// Returns the greatest moment of a clock so far, in nanoseconds, or `None` before its first
/// moment.
#[tactic(auto, using(crate::proofs::Prefix::history_more))]
pub fn clock(entries: &[Entry], which: Clock) -> Option<u64>
    ensures { result ≡ clock_in (history entries.now) which }
{
    let mut latest: Option<u64> = None;
    for entry in entries {
        if let Entry::Moment(of, moment) = entry {
            if is_same_clock(*of, which) {
                let nanos = moment.nanos();
                latest = match latest {
                    Some(now) => Some(now.max(nanos)),
                    None => Some(nanos),
                };
            }
        }
    }
    latest
}

/// Returns true if a deadline is due: the clock equals or exceeds it.
/// [XSH pthread_mutex_timedlock]
pub fn is_due(clock: Option<u64>, deadline: Option<u64>) -> bool
    ensures { result ≡ is_due clock deadline }
{
    match (clock, deadline) {
        (Some(now), Some(deadline)) => deadline <= now,
        _ => false,
    }
}
