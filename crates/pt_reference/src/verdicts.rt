ghost use Rattle.std.specs.Prelude.{◌≡◌, ◌==◌, unwrap_or};
ghost use Rattle.std.specs.List.{list_any};
ghost use Rattle.pt_model.specs.Histories.{history};
ghost use Rattle.pt_model.specs.WaitingCall.{call_at_place};
ghost use Rattle.pt_model.specs.Answers.{open_calls};
ghost use Rattle.pt_model.specs.Moves.{waiting_at, wait_object};
ghost use Rattle.pt_types.specs.Operations.{Ends, Acquires, Unlocks, Restores, Rwunlocks};
ghost use Rattle.pt_types.specs.Operations.{CondWaits};
ghost use Rattle.pt_model.specs.Clients.{client_priority};
ghost use Rattle.pt_model.specs.Objects.{find_object};
ghost use Rattle.pt_reference.specs.Best.{awaited_or};
ghost use Rattle.pt_model.specs.Verdicts.{verdict_on, bound_mutex, has_waiters};
ghost use Rattle.pt_model.specs.Verdicts.{returns_to_mutex, is_busy};
ghost use Rattle.pt_model.specs.Verdicts.{lock_kind_verdict};
ghost use Rattle.pt_model.specs.Verdicts.{operation_verdict, verdict};
ghost use Rattle.pt_model.specs.Verdicts.{is_alive_if};
ghost use Rattle.pt_model.specs.Found.{option_filter, is_some_and};

use crate::grants::is_blocked;
use crate::tables::{
    consistent_verdict, init_verdict, lock_verdict, owns, read_verdict, rwunlock_verdict,
    unlock_verdict, wait_verdict, write_verdict,
};
use pt_model::Entry;
use pt_model::waiting_call::mutex_of_wait;
use pt_readings::answers::open_at;
use pt_readings::clients::{client, is_alive};
use pt_readings::moves::{is_moved, wait_object};
use pt_readings::mutexes::{mutex_view, owner};
use pt_readings::objects::{find, object_named, objects};
use pt_readings::rwlocks::{has_living_holder, rwlock_view};
use pt_types::operations::{LockKind, ObjectClass, Operation, class_needed, operation_of};
use pt_types::tables::destroy_verdict;
use pt_types::{Call, ClientId, Deadline, How, Name, ObjectId, Outcome, Verdict};

/// Returns the mutex of the call at a place, if the call is open and waits at the condition, or
/// else the mutex already found.  [XSH pthread_cond_wait]
pub fn awaited_at(
    entries: &[Entry],
    q: ObjectId,
    i: u64,
    found: Option<ObjectId>,
) -> Option<ObjectId>
    ensures { result
        ≡ awaited_or
        (option_filter (λ w. wait_object (history entries.now) w == q)
        (call_at_place i (open_calls (history entries.now))))
        found }
{
    match open_at(entries, i) {
        Some(w) if wait_object(entries, &w) == q => mutex_of_wait(w.role),
        _ => found,
    }
}

/// Returns the mutex with which calls wait at a condition, if any call waits there.
/// [XSH pthread_cond_wait]
pub fn bound(entries: &[Entry], q: ObjectId) -> Option<ObjectId>
    ensures { result ≡ bound_mutex (waiting_at (history entries.now) q) }
{
    let mut found = None;
    let mut i = entries.len();
    while i > 0 {
        i -= 1;
        found = awaited_at(entries, q, i as u64, found);
    }
    found
}

/// Returns true if the open call at a place waits at the object.  [XSH pthread_mutex_destroy]
pub fn is_waiting_at(entries: &[Entry], o: ObjectId, i: u64) -> bool
    ensures { result
        ≡ is_some_and (λ w. wait_object (history entries.now) w == o)
        (call_at_place i (open_calls (history entries.now))) }
{
    match open_at(entries, i) {
        Some(w) => wait_object(entries, &w) == o,
        None => false,
    }
}

/// Returns true if a call waits at the object.  [XSH pthread_mutex_destroy]
pub fn has_waiters(entries: &[Entry], o: ObjectId) -> bool
    ensures { result ≡ has_waiters (history entries.now) o }
{
    for i in 0..entries.len() {
        if is_waiting_at(entries, o, i as u64) {
            return true;
        }
    }
    false
}

/// Returns true if the open call at a place is a wait that was not moved and will come back to the
/// mutex.  [XSH pthread_mutex_destroy]
pub fn returns_from(entries: &[Entry], m: ObjectId, i: u64) -> bool
    ensures { result
        ≡ is_some_and (returns_to_mutex (history entries.now) m)
        (call_at_place i (open_calls (history entries.now))) }
{
    match open_at(entries, i) {
        Some(w) => mutex_of_wait(w.role) == Some(m) && !is_moved(entries, &w),
        None => false,
    }
}

/// Returns true if a wait that was not moved will come back to the mutex.
/// [XSH pthread_mutex_destroy]
pub fn returns_to_mutex(entries: &[Entry], m: ObjectId) -> bool
    ensures { result
        ≡ list_any (returns_to_mutex (history entries.now) m) (open_calls (history entries.now)) }
{
    for i in 0..entries.len() {
        if returns_from(entries, m, i as u64) {
            return true;
        }
    }
    false
}

/// Returns true if an owner is a living client.  [XSH pthread_mutex_destroy]
pub fn is_alive_if(entries: &[Entry], owner: Option<ClientId>) -> bool
    ensures { result ≡ is_alive_if (history entries.now) owner }
{
    match owner {
        Some(c) => is_alive(entries, c),
        None => false,
    }
}

/// Returns true if an object can't be destroyed now.
/// [XSH pthread_mutex_destroy, the answer is profile]
pub fn is_busy(entries: &[Entry], class: ObjectClass, o: ObjectId) -> bool
    ensures { result ≡ is_busy (history entries.now) class o }
{
    match class {
        ObjectClass::Mutex => {
            is_alive_if(entries, owner(entries, o))
                || has_waiters(entries, o)
                || returns_to_mutex(entries, o)
        }
        ObjectClass::Rwlock => has_living_holder(entries, o) || has_waiters(entries, o),
        ObjectClass::Cond | ObjectClass::Barrier => has_waiters(entries, o),
    }
}

/// Returns the priority of a living client, or 0 for any other.  [XSH 2.8.4]
pub fn priority_of(entries: &[Entry], c: ClientId) -> u64
    ensures { result ≡ unwrap_or (client_priority (history entries.now) c) 0 }
{
    match client(entries, c) {
        Some(priority) => priority.level() as u64,
        None => 0,
    }
}

/// Returns the verdict of a client's call for a lock of this object.
/// [XSH pthread_mutex_lock, pthread_rwlock_rdlock]
pub fn lock_kind_verdict(
    entries: &[Entry],
    c: ClientId,
    o: ObjectId,
    lock_kind: LockKind,
    how: &How,
) -> Verdict
    ensures { result ≡ lock_kind_verdict (history entries.now) c o
        lock_kind how.now }
{
    match lock_kind {
        LockKind::MutexLock => lock_verdict(&mutex_view(entries, o), c, how),
        LockKind::ReadLock => {
            let blocked = is_blocked(entries, o, priority_of(entries, c));
            read_verdict(rwlock_view(entries, o, c), blocked, how)
        }
        LockKind::WriteLock => write_verdict(rwlock_view(entries, o, c), how),
    }
}

/// Returns the verdict of a client's call for a lock.
/// [XSH pthread_mutex_lock, pthread_rwlock_rdlock]
pub fn acquires_verdict(
    entries: &[Entry],
    c: ClientId,
    n: &Name,
    lock_kind: LockKind,
    how: &How,
) -> Verdict
    ensures { result ≡ operation_verdict (history entries.now) c
        (Acquires n.now lock_kind how.now) }
{
    match find(entries, n, class_needed(lock_kind)) {
        Some(o) => lock_kind_verdict(entries, c, o, lock_kind, how),
        None => Verdict::Reply(Outcome::Einval),
    }
}

/// Returns the verdict of a client's wait at a condition with a mutex.
/// [XSH pthread_cond_timedwait]
pub fn awaits_verdict(
    entries: &[Entry],
    c: ClientId,
    n: &Name,
    k: &Name,
    deadline: Option<Deadline>,
) -> Verdict
    ensures { result ≡ operation_verdict (history entries.now) c (CondWaits n.now k.now deadline) }
{
    let Some(q) = find(entries, n, ObjectClass::Cond) else {
        return Verdict::Reply(Outcome::Einval);
    };
    let Some(m) = find(entries, k, ObjectClass::Mutex) else {
        return Verdict::Reply(Outcome::Einval);
    };
    let owns = owns(&mutex_view(entries, m), c);
    wait_verdict(bound(entries, q), m, owns, deadline)
}

/// Returns the verdict of a client's call that destroys an object.  [XSH pthread_mutex_destroy]
pub fn destroys_verdict(entries: &[Entry], c: ClientId, n: &Name, class: ObjectClass) -> Verdict
    ensures { result ≡ operation_verdict (history entries.now) c (Ends n.now class) }
{
    match find(entries, n, class) {
        Some(o) => destroy_verdict(is_busy(entries, class, o)),
        None => Verdict::Reply(Outcome::Einval),
    }
}

/// Returns the verdict of a client's call on a mutex that it may own.  [XSH pthread_mutex_unlock]
pub fn unlocks_verdict(entries: &[Entry], c: ClientId, n: &Name) -> Verdict
    ensures { result ≡ operation_verdict (history entries.now) c (Unlocks n.now) }
{
    match find(entries, n, ObjectClass::Mutex) {
        Some(m) => unlock_verdict(&mutex_view(entries, m), c),
        None => Verdict::Reply(Outcome::Einval),
    }
}

/// Returns the verdict of a client's call to make a mutex consistent.
/// [XSH pthread_mutex_consistent]
pub fn restores_verdict(entries: &[Entry], c: ClientId, n: &Name) -> Verdict
    ensures { result ≡ operation_verdict (history entries.now) c (Restores n.now) }
{
    match find(entries, n, ObjectClass::Mutex) {
        Some(m) => consistent_verdict(&mutex_view(entries, m), c),
        None => Verdict::Reply(Outcome::Einval),
    }
}

/// Returns the verdict of a client's call to give a read-write lock back.
/// [XSH pthread_rwlock_unlock]
pub fn rwunlocks_verdict(entries: &[Entry], c: ClientId, n: &Name) -> Verdict
    ensures { result ≡ operation_verdict (history entries.now) c (Rwunlocks n.now) }
{
    match find(entries, n, ObjectClass::Rwlock) {
        Some(r) => rwunlock_verdict(rwlock_view(entries, r, c)),
        None => Verdict::Reply(Outcome::Einval),
    }
}

/// Returns `given` if the name means an object of this class, or else EINVAL: the verdict of a call
/// that depends on nothing else.  [XSH pthread_cond_signal, pthread_barrier_wait]
pub fn verdict_if_object(entries: &[Entry], n: &Name, class: ObjectClass, given: Verdict) -> Verdict
    ensures { result ≡ verdict_on (find_object (history entries.now) n.now class) (λ o. given) }
{
    match find(entries, n, class) {
        Some(_) => given,
        None => Verdict::Reply(Outcome::Einval),
    }
}

/// Returns what becomes of a client's call at once.  [XSH, the call's page]
pub fn verdict(entries: &[Entry], c: ClientId, call: &Call) -> Verdict
    ensures { result ≡ verdict (history entries.now) c call.now }
{
    match operation_of(call) {
        Operation::Inits(n, kind) => {
            let in_use = object_named(entries, n).is_some();
            init_verdict(kind, in_use, objects(entries))
        }
        Operation::Ends(n, class) => destroys_verdict(entries, c, n, class),
        Operation::Acquires(n, lock_kind, how) => acquires_verdict(entries, c, n, lock_kind, &how),
        Operation::Unlocks(n) => unlocks_verdict(entries, c, n),
        Operation::Restores(n) => restores_verdict(entries, c, n),
        Operation::Rwunlocks(n) => rwunlocks_verdict(entries, c, n),
        Operation::CondWaits(n, k, deadline) => awaits_verdict(entries, c, n, k, deadline),
        Operation::Signals(n) => verdict_if_object(
            entries,
            n,
            ObjectClass::Cond,
            Verdict::Reply(Outcome::Done),
        ),
        Operation::Broadcasts(n) => {
            verdict_if_object(entries, n, ObjectClass::Cond, Verdict::Reply(Outcome::Done))
        }
        Operation::BarrierWaits(n) => {
            verdict_if_object(entries, n, ObjectClass::Barrier, Verdict::Stands)
        }
    }
}
