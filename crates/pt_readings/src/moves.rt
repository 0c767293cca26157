ghost use Rattle.std.specs.Prelude.{◌≡◌, ◌<◌, ◌&&◌, ◌==◌};
ghost use Rattle.std.specs.List.{list_any};
ghost use Rattle.pt_types.specs.declared.operations.ObjectClass.TheVariants.{Cond as CondClass};
ghost use Rattle.pt_model.specs.Histories.{history};
ghost use Rattle.pt_model.specs.Objects.{names_object};
ghost use Rattle.pt_model.specs.WaitingCall.{call_at_place, is_cond_wait};
ghost use Rattle.pt_model.specs.Answers.{open_calls};
ghost use Rattle.pt_model.specs.Moves.{wait_move, precedes_by, is_at_cond, cond_waits};
ghost use Rattle.pt_model.specs.Moves.{least_cond_wait, has_place, cause_by};
ghost use Rattle.pt_model.specs.Moves.{move_or, is_moved};
ghost use Rattle.pt_model.specs.Moves.{wait_object, precedes};
ghost use Rattle.pt_model.specs.Moves.{is_least};
ghost use Rattle.pt_model.specs.Found.{is_some_and};
ghost use Rattle.pt_readings.specs.Found.{unmoved};

use crate::answers::{is_open, open_at};
use crate::objects::means;
use crate::waiting::{is_wait_at, waiting_call_at};
use pt_model::waiting_call::{Move, Role, WaitingCall, is_cond_wait, key_with};
use pt_model::{Cause, Entry};
use pt_types::key_order::goes_before;
use pt_types::operations::{ObjectClass, Operation, operation_of};
use pt_types::{Name, ObjectId, Outcome};

/// Returns true if the open call at a place is a wait that came to the condition of this name.
/// [XSH pthread_cond_wait]
#[tactic(auto, using(crate::proofs::Opens::passes_open))]
pub fn came_to(entries: &[Entry], n: &Name, i: u64) -> bool
    ensures { result
        ≡ is_some_and
        (λ w. is_cond_wait w.role && names_object (history entries.now) n.now CondClass w.object)
        (call_at_place i (open_calls (history entries.now))) }
{
    match waiting_call_at(entries, i) {
        Some(w) => {
            is_cond_wait(w.role)
                && means(entries, n, ObjectClass::Cond, w.object)
                && is_open(entries, &w)
        }
        None => false,
    }
}

/// Returns true if the open call at a place still waits at the condition of this name and goes
/// before `w`, a wait that was not moved.  [XSH 2.8.4]
#[cycle(moves)]
#[tactic(auto, using(crate::proofs::Opens::passes_open))]
pub fn waits_before(entries: &[Entry], n: &Name, w: &WaitingCall, i: u64) -> bool
    ensures { result
        ≡ is_some_and
        (λ v. is_at_cond (history entries.now) (wait_move (history entries.now)) n.now v &&
        precedes_by unmoved v w.now)
        (call_at_place i (open_calls (history entries.now))) }
{
    let Some(v) = waiting_call_at(entries, i) else {
        return false;
    };
    if !is_cond_wait(v.role) || !goes_before(key_with(&v, None), key_with(w, None)) {
        return false;
    }
    if !means(entries, n, ObjectClass::Cond, v.object) {
        return false;
    }
    is_open(entries, &v) && moved(entries, v.place).is_none()
}

/// Returns true if a wait at the condition of this name goes before this call.  [XSH 2.8.4]
#[cycle(moves)]
pub fn is_preceded(entries: &[Entry], n: &Name, w: &WaitingCall) -> bool
    ensures { result
        ≡ list_any (λ v. precedes_by unmoved v w.now)
        (cond_waits (history entries.now) (wait_move (history entries.now)) n.now) }
{
    for i in 0..entries.len() {
        if waits_before(entries, n, w, i as u64) {
            return true;
        }
    }
    false
}

/// Returns true if the call at a place was not moved and is the least wait at the condition of this
/// name. A signal wakes only that wait.  [XSH pthread_cond_signal]
#[cycle(moves)]
#[tactic(auto, using(crate::proofs::Waits::first_is))]
pub fn is_first_waiting(entries: &[Entry], n: &Name, before: Option<Move>, j: u64) -> bool
    requires { before ≡ wait_move (history entries.now) j }
    ensures { result
        ≡ has_place (least_cond_wait (history entries.now) (wait_move (history entries.now)) n.now)
        j }
{
    if before.is_some() || !came_to(entries, n, j) {
        return false;
    }
    match open_at(entries, j) {
        Some(w) => !is_preceded(entries, n, &w),
        None => false,
    }
}

/// Returns the cause for which an entry after these moves the wait at a place, if it does.
/// [XSH pthread_cond_broadcast]
#[cycle(moves)]
#[tactic(auto, using(crate::proofs::Waits::waiting_is))]
pub fn cause_by(entries: &[Entry], entry: &Entry, before: Option<Move>, j: u64) -> Option<Cause>
    requires { before ≡ wait_move (history entries.now) j }
    ensures { result ≡ cause_by (history entries.now) (wait_move
        (history entries.now)) entry.now j }
{
    match entry {
        Entry::Expire(i) if *i == j && is_wait_at(entries, j) => Some(Cause::Expired),
        Entry::Call(_, call, Some(Outcome::Done)) => match operation_of(call) {
            Operation::Signals(n) if is_first_waiting(entries, n, before, j) => Some(
                Cause::Signalled,
            ),
            Operation::Broadcasts(n) if before.is_none() && came_to(entries, n, j) => {
                Some(Cause::Broadcasted)
            }
            _ => None,
        },
        _ => None,
    }
}

/// Returns a move at this place if there is a cause, or else the move before.
pub fn move_or(at: u64, cause: Option<Cause>, before: Option<Move>) -> Option<Move>
    ensures { result ≡ move_or at cause before }
{
    match cause {
        Some(cause) => Some(Move { at, cause }),
        None => before,
    }
}

/// Returns the move of the wait at a place.  [XSH pthread_cond_broadcast]
#[cycle(moves)]
#[tactic(auto, using(crate::proofs::Prefix::history_more, crate::proofs::Prefix::place_below))]
pub fn moved(entries: &[Entry], j: u64) -> Option<Move>
    ensures { result ≡ wait_move (history entries.now) j }
{
    let mut found = None;
    for (i, entry) in entries.iter().enumerate() {
        found = move_or(i as u64, cause_by(&entries[..i], entry, found, j), found);
    }
    found
}

/// Returns true if a call is a wait that was moved.
pub fn is_moved(entries: &[Entry], w: &WaitingCall) -> bool
    ensures { result ≡ is_moved (history entries.now) w.now }
{
    moved(entries, w.place).is_some()
}

/// Returns the object at which a call waits.  [XSH pthread_cond_broadcast]
pub fn wait_object(entries: &[Entry], w: &WaitingCall) -> ObjectId
    ensures { result ≡ wait_object (history entries.now) w.now }
{
    match w.role {
        Role::ForCond(m) if moved(entries, w.place).is_some() => m,
        _ => w.object,
    }
}

/// Returns true if a call goes before another.  [XSH 2.8.4, pthread_rwlock_unlock]
pub fn precedes(entries: &[Entry], v: &WaitingCall, w: &WaitingCall) -> bool
    ensures { result ≡ precedes (history entries.now) v.now w.now }
{
    let one = key_with(v, moved(entries, v.place));
    let other = key_with(w, moved(entries, w.place));
    goes_before(one, other)
}

/// Returns true if the open call at a place waits at this object and goes before this call.
/// [XSH 2.8.4]
pub fn is_ahead(entries: &[Entry], o: ObjectId, w: &WaitingCall, i: u64) -> bool
    ensures { result
        ≡ is_some_and
        (λ v. (wait_object (history entries.now) v == o) && precedes
        (history entries.now) v w.now)
        (call_at_place i (open_calls (history entries.now))) }
{
    match open_at(entries, i) {
        Some(v) => wait_object(entries, &v) == o && precedes(entries, &v, w),
        None => false,
    }
}

/// Returns true if no call that waits at the same object goes before this one.  [XSH 2.8.4]
pub fn is_least(entries: &[Entry], w: &WaitingCall) -> bool
    ensures { result ≡ is_least (history entries.now) w.now }
{
    let o = wait_object(entries, w);
    for i in 0..entries.len() {
        if is_ahead(entries, o, w, i as u64) {
            return false;
        }
    }
    true
}
