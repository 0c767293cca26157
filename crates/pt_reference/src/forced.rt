ghost use Rattle.std.specs.Prelude.{◌≡◌, filter};
ghost use Rattle.pt_model.specs.Histories.{history};
ghost use Rattle.pt_model.specs.Searches.{least};
ghost use Rattle.pt_model.specs.WaitingCall.{call_at_place};
ghost use Rattle.pt_model.specs.Answers.{open_calls};
ghost use Rattle.pt_model.specs.Forced.{is_served_before};
ghost use Rattle.pt_model.specs.Forced.{can_be_served, service};
ghost use Rattle.pt_model.specs.Forced.{forced_service};
ghost use Rattle.pt_model.specs.Forced.{is_orphan, forced_yield};
ghost use Rattle.pt_model.specs.Forced.{is_overdue};
ghost use Rattle.pt_model.specs.Forced.{expires_before};
ghost use Rattle.pt_model.specs.Forced.{forced_expire, forced};
ghost use Rattle.pt_model.specs.Found.{option_filter};
ghost use Rattle.pt_reference.specs.Best.{best_of};

use crate::grants::{grant_outcome, is_at_full_barrier, is_grantable};
use pt_model::Entry;
use pt_model::waiting_call::{WaitingCall, is_barrier_wait};
use pt_readings::answers::open_at;
use pt_readings::clients::{clock, is_alive, is_due};
use pt_readings::moves::{is_moved, precedes, wait_object};
use pt_readings::mutexes::owner;
use pt_readings::objects::{is_robust, kind_of};
use pt_types::ObjectId;

/// Returns true if `v` is served before `w`: at a lower object, or at the same object and before
/// `w` in its order.
pub fn is_served_before(entries: &[Entry], v: &WaitingCall, w: &WaitingCall) -> bool
    ensures { result ≡ is_served_before (history entries.now) v.now w.now }
{
    let one = wait_object(entries, v).0;
    let other = wait_object(entries, w).0;
    one < other || one == other && precedes(entries, v, w)
}

/// Returns true if a call may be granted, or waits at a full barrier.  [XSH pthread_barrier_wait]
pub fn can_be_served(entries: &[Entry], w: &WaitingCall) -> bool
    ensures { result ≡ can_be_served (history entries.now) w.now }
{
    is_grantable(entries, w) || is_at_full_barrier(entries, w)
}

/// Returns the open call at a place, if it may be served.
pub fn served_call(entries: &[Entry], i: u64) -> Option<WaitingCall>
    ensures { result
        ≡ option_filter (can_be_served (history entries.now))
        (call_at_place i (open_calls (history entries.now))) }
{
    match open_at(entries, i) {
        Some(w) if can_be_served(entries, &w) => Some(w),
        _ => None,
    }
}

/// Returns the one to serve first, of a call and the first of those after it.
pub fn better_served(
    entries: &[Entry],
    w: Option<WaitingCall>,
    best: Option<WaitingCall>,
) -> Option<WaitingCall>
    ensures { result
        ≡ best_of (is_served_before (history entries.now)) w
        best }
{
    let Some(w) = w else {
        return best;
    };
    let Some(v) = best else {
        return Some(w);
    };
    if is_served_before(entries, &v, &w) {
        Some(v)
    } else {
        Some(w)
    }
}

/// Returns the call to serve first.
pub fn first_served(entries: &[Entry]) -> Option<WaitingCall>
    ensures { result
        ≡ least (is_served_before (history entries.now))
        (filter (can_be_served (history entries.now)) (open_calls (history entries.now))) }
{
    let mut best = None;
    let mut i = entries.len();
    while i > 0 {
        i -= 1;
        best = better_served(entries, served_call(entries, i as u64), best);
    }
    best
}

/// Returns the entry that serves a call: a Trip at a barrier, or else a Grant.
/// [XSH pthread_barrier_wait]
pub fn service(entries: &[Entry], w: &WaitingCall) -> Entry
    ensures { result ≡ service (history entries.now) w.now }
{
    if is_barrier_wait(w.role) {
        Entry::Trip(w.object)
    } else {
        Entry::Grant(w.place, grant_outcome(entries, w))
    }
}

/// Returns the Trip or the Grant that must follow.
/// [XSH pthread_mutex_unlock, the lowest first is profile]
pub fn forced_service(entries: &[Entry]) -> Option<Entry>
    ensures { result ≡ forced_service (history entries.now) }
{
    match first_served(entries) {
        Some(w) => Some(service(entries, &w)),
        None => None,
    }
}

/// Returns true if an object is a robust mutex with a dead owner.
/// [XSH pthread_mutex_lock, EOWNERDEAD]
pub fn is_orphan(entries: &[Entry], m: ObjectId) -> bool
    ensures { result ≡ is_orphan (history entries.now) m }
{
    is_robust(kind_of(entries, m))
        && match owner(entries, m) {
            Some(c) => !is_alive(entries, c),
            None => false,
        }
}

/// Returns the Yield that must follow.
/// [XSH pthread_mutex_lock, EOWNERDEAD; the lowest first is profile]
pub fn forced_yield(entries: &[Entry]) -> Option<Entry>
    ensures { result ≡ forced_yield (history entries.now) }
{
    for i in 0..entries.len() {
        let m = ObjectId(i as u64);
        if is_orphan(entries, m) {
            return Some(Entry::Yield(m));
        }
    }
    None
}

/// Returns true if a call's deadline is due by its clock. A moved wait has no deadline.
/// [XSH pthread_mutex_timedlock]
pub fn is_overdue(entries: &[Entry], w: &WaitingCall) -> bool
    ensures { result ≡ is_overdue (history entries.now) w.now }
{
    is_due(clock(entries, w.clock), w.deadline) && !is_moved(entries, w)
}

/// Returns the open call at a place, if it is overdue.
pub fn overdue_at(entries: &[Entry], i: u64) -> Option<WaitingCall>
    ensures { result
        ≡ option_filter (is_overdue (history entries.now))
        (call_at_place i (open_calls (history entries.now))) }
{
    match open_at(entries, i) {
        Some(w) if is_overdue(entries, &w) => Some(w),
        _ => None,
    }
}

/// Returns true if `v` expires before `w`: the lesser deadline first, then the lesser place.
pub fn expires_before(v: &WaitingCall, w: &WaitingCall) -> bool
    ensures { result ≡ expires_before v.now w.now }
{
    let one = v.deadline.unwrap_or(0);
    let other = w.deadline.unwrap_or(0);
    one < other || one == other && v.place < w.place
}

/// Returns the one to expire first, of a call and the first of those after it.
pub fn sooner(w: Option<WaitingCall>, best: Option<WaitingCall>) -> Option<WaitingCall>
    ensures { result
        ≡ best_of expires_before w best }
{
    let Some(w) = w else {
        return best;
    };
    let Some(v) = best else {
        return Some(w);
    };
    if expires_before(&v, &w) {
        Some(v)
    } else {
        Some(w)
    }
}

/// Returns the call to expire first.
pub fn first_overdue(entries: &[Entry]) -> Option<WaitingCall>
    ensures { result
        ≡ least expires_before
        (filter (is_overdue (history entries.now)) (open_calls (history entries.now))) }
{
    let mut best = None;
    let mut i = entries.len();
    while i > 0 {
        i -= 1;
        best = sooner(overdue_at(entries, i as u64), best);
    }
    best
}

/// Returns the Expire that must follow.  [XSH pthread_mutex_timedlock, the order is profile]
pub fn forced_expire(entries: &[Entry]) -> Option<Entry>
    ensures { result ≡ forced_expire (history entries.now) }
{
    match first_overdue(entries) {
        Some(w) => Some(Entry::Expire(w.place)),
        None => None,
    }
}

/// Returns the one entry that must follow: a Trip or a Grant first, then a Yield, then an Expire.
pub fn forced(entries: &[Entry]) -> Option<Entry>
    ensures { result ≡ forced (history entries.now) }
{
    match forced_service(entries) {
        Some(entry) => Some(entry),
        None => match forced_yield(entries) {
            Some(entry) => Some(entry),
            None => forced_expire(entries),
        },
    }
}
