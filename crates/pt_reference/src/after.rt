ghost use Rattle.std.specs.Prelude.{◌≡◌, ◌≤◌, ◌+◌, ◌*◌, ◌<◌, length, map, sum, is_some};
ghost use Rattle.pt_model.specs.Histories.{history, place, ◌▷◌};
ghost use Rattle.pt_model.specs.Searches.{count_below};
ghost use Rattle.pt_model.specs.Clients.{is_alive};
ghost use Rattle.pt_model.specs.Objects.{kind_of as kind_in};
ghost use Rattle.pt_model.specs.WaitingCall.{call_at_place, waiting_calls};
ghost use Rattle.pt_model.specs.Answers.{is_open_by, open_calls, outcome as outcome_in};
ghost use Rattle.pt_model.specs.Moves.{wait_move};
ghost use Rattle.pt_model.specs.Mutexes.{mutex_count, owner};
ghost use Rattle.pt_model.specs.Room.{reserved_for, is_robust_owned};
ghost use Rattle.pt_model.specs.Room.{need};
ghost use Rattle.pt_reference.specs.Best.{reserved_of};

use pt_model::Entry;
use pt_model::waiting_call::{Move, WaitingCall};
use pt_readings::answers::{answer_by, outcome};
use pt_readings::clients::{client, client_priority_by, living, living_count_by};
use pt_readings::moves::{cause_by, move_or, moved};
use pt_readings::mutexes::{lock_count, lock_count_by, unlock_count, unlock_count_by};
use pt_readings::objects::{is_robust, kind_by, kind_of};
use pt_readings::waiting::{waiting_call_at, waiting_calls_by};
use pt_types::{ClientId, ObjectId, ObjectKind, Outcome};

/// Returns true if a client lives after one more entry.
pub fn is_alive(entries: &[Entry], entry: &Entry, c: ClientId) -> bool
    ensures { result ≡ is_alive (history entries.now ▷ entry.now) c }
{
    client_priority_by(entry, client(entries, c), c).is_some()
}

/// Returns the call that came without a reply at a place, after one more entry.
pub fn new_waiting_call_at(entries: &[Entry], entry: &Entry, i: u64) -> Option<WaitingCall>
    ensures { result ≡ call_at_place i (waiting_calls (history entries.now ▷ entry.now)) }
{
    if i == entries.len() as u64 {
        waiting_calls_by(entries, entry)
    } else {
        waiting_call_at(entries, i)
    }
}

/// Returns the answer to the call at a place, after one more entry.  [XSH, the call's page]
pub fn answer(entries: &[Entry], entry: &Entry, j: u64) -> Option<Outcome>
    ensures { result ≡ outcome_in (history entries.now ▷ entry.now) j }
{
    let before = outcome(entries, j);
    answer_by(entries, entry, before, j).or(before)
}

/// Returns true if a waiting call is open after one more entry.
pub fn is_open(entries: &[Entry], entry: &Entry, w: &WaitingCall) -> bool
    ensures { result
        ≡ is_open_by (history entries.now ▷ entry.now)
        (outcome_in (history entries.now ▷ entry.now)) w.now }
{
    is_alive(entries, entry, w.client) && answer(entries, entry, w.place).is_none()
}

/// Returns the call at a place, if it is open after one more entry.
pub fn open_at(entries: &[Entry], entry: &Entry, i: u64) -> Option<WaitingCall>
    ensures { result ≡ call_at_place i (open_calls (history entries.now ▷ entry.now)) }
{
    match new_waiting_call_at(entries, entry, i) {
        Some(w) => {
            if is_open(entries, entry, &w) {
                Some(w)
            } else {
                None
            }
        }
        None => None,
    }
}

/// Returns the move of the wait at a place, after one more entry.  [XSH pthread_cond_broadcast]
#[tactic(auto, using(crate::proofs::Ends::place_of_all))]
pub fn move_of(entries: &[Entry], entry: &Entry, j: u64) -> Option<Move>
    ensures { result ≡ wait_move (history entries.now ▷ entry.now) j }
{
    let before = moved(entries, j);
    move_or(
        entries.len() as u64,
        cause_by(entries, entry, before, j),
        before,
    )
}

/// Returns how many entries are reserved for the open call at a place, after one more entry.
pub fn reserved_at(entries: &[Entry], entry: &Entry, i: u64) -> u64
    ensures value { result
        ≡ reserved_of (history entries.now ▷ entry.now)
        (call_at_place i (open_calls (history entries.now ▷ entry.now))) }
    ensures within { result ≤ 3 }
{
    match open_at(entries, entry, i) {
        Some(w) if move_of(entries, entry, w.place).is_some() => 2,
        Some(_) => 3,
        None => 0,
    }
}

/// Returns how many entries are reserved for all open calls, after one more entry.
pub fn reserved(entries: &[Entry], entry: &Entry) -> u64
    ensures value { result
        ≡ sum
        (map (reserved_for (history entries.now ▷ entry.now))
        (open_calls (history entries.now ▷ entry.now))) }
    ensures within { result ≤ 3 * length entries.now + 3 }
{
    let mut total = 0;
    for i in 0..entries.len() + 1 {
        total += reserved_at(entries, entry, i as u64);
    }
    total
}

/// Returns the kind of an object, after one more entry.
pub fn kind(entries: &[Entry], entry: &Entry, o: ObjectId) -> Option<ObjectKind>
    ensures { result ≡ kind_in (history entries.now ▷ entry.now) o }
{
    kind_by(entries, entry, kind_of(entries, o), o)
}

/// Returns how often a client holds a mutex, after one more entry.  [XSH pthread_mutex_lock]
pub fn count(entries: &[Entry], entry: &Entry, m: ObjectId, c: ClientId) -> u64
    ensures { result ≡ mutex_count (history entries.now ▷ entry.now) m c }
{
    let lock_count = lock_count_by(entries, entry, m, c, lock_count(entries, m, c));
    let unlocked = unlock_count_by(entries, entry, m, c, unlock_count(entries, m, c));
    lock_count.saturating_sub(unlocked)
}

/// Returns true if a client, dead or alive, holds a mutex, after one more entry.
/// [XSH pthread_mutex_lock]
pub fn is_owned(entries: &[Entry], entry: &Entry, m: ObjectId) -> bool
    ensures { result ≡ is_some (owner (history entries.now ▷ entry.now) m) }
{
    for i in 0..entries.len() + 1 {
        if 0 < count(entries, entry, m, ClientId(i as u64)) {
            return true;
        }
    }
    false
}

/// Returns true if an object is a robust mutex with an owner, after one more entry.
pub fn is_robust_owned(entries: &[Entry], entry: &Entry, m: ObjectId) -> bool
    ensures { result ≡ is_robust_owned (history entries.now ▷ entry.now) m }
{
    is_robust(kind(entries, entry, m)) && is_owned(entries, entry, m)
}

/// Returns the number of robust mutexes that have an owner, after one more entry.
#[tactic(auto, using(crate::proofs::Rooms::count_yes, crate::proofs::Rooms::count_no))]
pub fn robust_owned(entries: &[Entry], entry: &Entry) -> u64
    ensures value { result
        ≡ count_below (place (history entries.now ▷ entry.now))
        (is_robust_owned (history entries.now ▷ entry.now)) }
    ensures within { result ≤ length entries.now + 1 }
{
    let mut total = 0;
    for i in 0..entries.len() + 1 {
        if is_robust_owned(entries, entry, ObjectId(i as u64)) {
            total += 1;
        }
    }
    total
}

/// Returns the need after one more entry: the entries reserved for the Death of each living client,
/// for open calls and for Yields.
pub fn need(entries: &[Entry], entry: &Entry) -> u64
    ensures value { result ≡ need (history entries.now ▷ entry.now) }
    ensures within { result ≤ 5 * length entries.now + 5 }
{
    living_count_by(entry, living(entries))
        + reserved(entries, entry)
        + robust_owned(entries, entry)
}
