ghost use Rattle.std.specs.Prelude.{◌≡◌, ◌≤◌, ◌&&◌, ◌==◌, length};
ghost use Rattle.pt_types.specs.MutexTable.{can_grant_mutex};
ghost use Rattle.pt_model.specs.Histories.{history};
ghost use Rattle.pt_model.specs.WaitingCall.{call_at_place};
ghost use Rattle.pt_model.specs.Answers.{open_calls, at_barrier};
ghost use Rattle.pt_model.specs.Moves.{wait_object, is_least as is_least_in};
ghost use Rattle.pt_model.specs.Mutexes.{mutex_view as mutex_view_in};
ghost use Rattle.pt_model.specs.Grants.{blocks_readers, is_blocked};
ghost use Rattle.pt_model.specs.Grants.{is_grantable};
ghost use Rattle.pt_model.specs.Grants.{is_at_full_barrier};
ghost use Rattle.pt_model.specs.Grants.{mutex_outcome};
ghost use Rattle.pt_model.specs.Grants.{grant_outcome};
ghost use Rattle.pt_model.specs.Found.{is_some_and};

use crate::tables::{can_grant_read, can_grant_relock, can_grant_write, is_not_recoverable};
use pt_model::Entry;
use pt_model::waiting_call::{Role, WaitingCall, is_barrier_wait, is_expired, is_write_lock};
use pt_readings::answers::{is_open_at_barrier, open_at};
use pt_readings::moves::{is_least, is_moved, moved, wait_object};
use pt_readings::mutexes::{consistency, mutex_view};
use pt_readings::objects::{barrier_count, kind_of};
use pt_readings::rwlocks::rwlock_view;
use pt_types::tables::lock_outcome;
use pt_types::{ObjectId, Outcome};

/// Returns true if the open call at a place waits at the lock as a writer of this priority or a
/// higher one.  [XSH pthread_rwlock_rdlock]
pub fn holds_back(entries: &[Entry], r: ObjectId, priority: u64, i: u64) -> bool
    ensures { result
        ≡ is_some_and (λ v. (wait_object (history entries.now) v == r) && blocks_readers v priority)
        (call_at_place i (open_calls (history entries.now))) }
{
    match open_at(entries, i) {
        Some(v) => {
            is_write_lock(v.role) && priority <= v.priority && wait_object(entries, &v) == r
        }
        None => false,
    }
}

/// Returns true if a writer of this priority or a higher one waits at the lock.
/// [XSH pthread_rwlock_rdlock]
pub fn is_blocked(entries: &[Entry], r: ObjectId, priority: u64) -> bool
    ensures { result ≡ is_blocked (history entries.now) r priority }
{
    for i in 0..entries.len() {
        if holds_back(entries, r, priority, i as u64) {
            return true;
        }
    }
    false
}

/// Returns true if a call can be granted a mutex: the mutex is not recoverable, or it is free and
/// the call is least.  [XSH pthread_mutex_unlock]
pub fn can_grant_mutex(entries: &[Entry], m: ObjectId, w: &WaitingCall) -> bool
    ensures { result
        ≡ can_grant_mutex (mutex_view_in (history entries.now) m)
        (is_least_in (history entries.now) w.now) }
{
    let view = mutex_view(entries, m);
    is_not_recoverable(view.consistency) || view.owner.is_none() && is_least(entries, w)
}

/// Returns true if an open call may be granted now.
/// [XSH pthread_mutex_unlock, pthread_rwlock_unlock]
pub fn is_grantable(entries: &[Entry], w: &WaitingCall) -> bool
    ensures { result ≡ is_grantable (history entries.now) w.now }
{
    let o = w.object;
    let c = w.client;
    match w.role {
        Role::ForMutex => can_grant_mutex(entries, o, w),
        Role::ForCond(m) => {
            is_moved(entries, w)
                && (can_grant_mutex(entries, m, w) || can_grant_relock(&mutex_view(entries, m), c))
        }
        Role::ForRead => {
            can_grant_read(
                rwlock_view(entries, o, c),
                is_blocked(entries, o, w.priority),
            )
        }
        Role::ForWrite => can_grant_write(rwlock_view(entries, o, c), is_least(entries, w)),
        Role::ForBarrier => false,
    }
}

/// Returns the number of open calls that wait at a barrier.  [XSH pthread_barrier_wait]
#[tactic(auto, using(crate::proofs::Ends::counting))]
pub fn arrivals(entries: &[Entry], b: ObjectId) -> u64
    ensures value { result ≡ length (at_barrier b (open_calls (history entries.now))) }
    ensures within { result ≤ length entries.now }
{
    let mut count = 0;
    for i in 0..entries.len() {
        if is_open_at_barrier(entries, b, i as u64) {
            count += 1;
        }
    }
    count
}

/// Returns true if a call waits at a full barrier: as many calls wait there as its count.
/// [XSH pthread_barrier_wait]
pub fn is_at_full_barrier(entries: &[Entry], w: &WaitingCall) -> bool
    ensures { result ≡ is_at_full_barrier (history entries.now) w.now }
{
    let b = w.object;
    is_barrier_wait(w.role) && arrivals(entries, b) == barrier_count(kind_of(entries, b))
}

/// Returns the outcome with which a mutex answers a call.
/// [XSH pthread_mutex_lock, pthread_cond_timedwait]
pub fn mutex_outcome(entries: &[Entry], w: &WaitingCall, m: ObjectId) -> Outcome
    ensures { result ≡ mutex_outcome (history entries.now) w.now m }
{
    lock_outcome(consistency(entries, m), is_expired(moved(entries, w.place)))
}

/// Returns the outcome of an open call when it is granted.  [XSH, the call's page]
pub fn grant_outcome(entries: &[Entry], w: &WaitingCall) -> Outcome
    ensures { result ≡ grant_outcome (history entries.now) w.now }
{
    match w.role {
        Role::ForMutex => mutex_outcome(entries, w, w.object),
        Role::ForCond(m) => mutex_outcome(entries, w, m),
        _ => Outcome::Done,
    }
}
