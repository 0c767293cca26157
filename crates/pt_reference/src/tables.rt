//! The verdict tables: what becomes of a call, from the view of one object.

ghost use Rattle.std.specs.Prelude.{◌≡◌};
ghost use Rattle.pt_types.specs.ObjectTable.{init_verdict};
ghost use Rattle.pt_types.specs.ObjectTable.{is_invalid_kind};
ghost use Rattle.pt_types.specs.Operations.{is_try, deadline_of};
ghost use Rattle.pt_types.specs.Times.{has_invalid_deadline};
ghost use Rattle.pt_types.specs.MutexTable.{owns as owns_it, lock_verdict};
ghost use Rattle.pt_types.specs.MutexTable.{unlock_verdict};
ghost use Rattle.pt_types.specs.MutexTable.{consistent_verdict};
ghost use Rattle.pt_types.specs.MutexTable.{is_not_recoverable};
ghost use Rattle.pt_types.specs.MutexTable.{can_grant_relock};
ghost use Rattle.pt_types.specs.RwlockTable.{has_lock, is_free};
ghost use Rattle.pt_types.specs.RwlockTable.{relock_outcome};
ghost use Rattle.pt_types.specs.RwlockTable.{read_verdict};
ghost use Rattle.pt_types.specs.RwlockTable.{write_verdict};
ghost use Rattle.pt_types.specs.RwlockTable.{rwunlock_verdict};
ghost use Rattle.pt_types.specs.RwlockTable.{can_grant_read, can_grant_write};
ghost use Rattle.pt_types.specs.CondTable.{wait_verdict};

use pt_types::views::{MutexView, RwlockView};
use pt_types::{
    ClientId, Consistency, Deadline, How, MAX_BARRIER_COUNT, MAX_LOCKS, MAX_OBJECTS,
    MAX_READ_LOCKS, MutexKind, ObjectId, ObjectKind, Outcome, Verdict,
};

// Returns true if a barrier's count is outside 1 to 1,024.
// [XSH pthread_barrier_init, the upper end is profile]
fn is_invalid_kind(kind: ObjectKind) -> bool
    ensures { result ≡ is_invalid_kind kind }
{
    match kind {
        ObjectKind::Barrier(count) => count == 0 || count > MAX_BARRIER_COUNT as u64,
        _ => false,
    }
}

/// Returns the verdict of a call that makes an object while `objects` exist; EBUSY is profile.
/// [XSH pthread_mutex_init, EAGAIN]
pub fn init_verdict(kind: ObjectKind, in_use: bool, objects: u64) -> Verdict
    ensures { result ≡ init_verdict kind in_use objects }
{
    if is_invalid_kind(kind) {
        Verdict::Reply(Outcome::Einval)
    } else if in_use {
        Verdict::Reply(Outcome::Ebusy)
    } else if objects >= MAX_OBJECTS as u64 {
        Verdict::Reply(Outcome::Eagain)
    } else {
        Verdict::Reply(Outcome::Done)
    }
}

// Returns true if a call for a lock never waits.  [XSH pthread_mutex_trylock]
fn is_try(how: &How) -> bool
    ensures { result ≡ is_try how.now }
{
    matches!(how, How::Try)
}

// Returns true if a call has a deadline that is not a valid time.
// [XSH pthread_mutex_timedlock, EINVAL]
fn has_invalid_deadline(deadline: Option<Deadline>) -> bool
    ensures { result ≡ has_invalid_deadline deadline }
{
    match deadline {
        Some(deadline) => deadline.is_bad(),
        None => false,
    }
}

// Returns true if a call for a lock has a deadline that is not a valid time.
// [XSH pthread_mutex_timedlock, EINVAL]
fn is_bad_how(how: &How) -> bool
    ensures { result ≡ has_invalid_deadline (deadline_of how.now) }
{
    match how {
        How::Timed(deadline) => deadline.is_bad(),
        _ => false,
    }
}

/// Returns true if the client is the owner.  [XSH pthread_mutex_lock]
pub fn owns(m: &MutexView, c: ClientId) -> bool
    ensures { result ≡ owns_it m.now c }
{
    match m.owner {
        Some(owner) => owner == c,
        None => false,
    }
}

/// Returns the verdict of `lock`, `trylock` or `timedlock`.
/// [XSH pthread_mutex_lock, pthread_mutex_timedlock]
pub fn lock_verdict(m: &MutexView, c: ClientId, how: &How) -> Verdict
    ensures { result ≡ lock_verdict m.now c how.now }
{
    if is_not_recoverable(m.consistency) || m.owner.is_none() {
        return Verdict::Stands;
    }
    if owns(m, c) && m.kind == MutexKind::Recursive {
        if m.count < MAX_LOCKS as u64 {
            return Verdict::Reply(Outcome::Done);
        }
        return Verdict::Reply(Outcome::Eagain);
    }
    if is_try(how) {
        Verdict::Reply(Outcome::Ebusy)
    } else if owns(m, c) && m.kind == MutexKind::Errorcheck {
        Verdict::Reply(Outcome::Edeadlk)
    } else if is_bad_how(how) {
        Verdict::Reply(Outcome::Einval)
    } else {
        Verdict::Stands
    }
}

/// Returns the verdict of `unlock`; EPERM is profile if the standard leaves it open.
/// [XSH pthread_mutex_unlock]
pub fn unlock_verdict(m: &MutexView, c: ClientId) -> Verdict
    ensures { result ≡ unlock_verdict m.now c }
{
    if owns(m, c) {
        Verdict::Reply(Outcome::Done)
    } else {
        Verdict::Reply(Outcome::Eperm)
    }
}

/// Returns the verdict of `consistent`; EPERM is profile.  [XSH pthread_mutex_consistent]
pub fn consistent_verdict(m: &MutexView, c: ClientId) -> Verdict
    ensures { result ≡ consistent_verdict m.now c }
{
    if !m.robust || m.consistency != Consistency::Inconsistent {
        Verdict::Reply(Outcome::Einval)
    } else if !owns(m, c) {
        Verdict::Reply(Outcome::Eperm)
    } else {
        Verdict::Reply(Outcome::Done)
    }
}

/// Returns true if the mutex is permanently unusable.  [XSH pthread_mutex_lock, ENOTRECOVERABLE]
pub fn is_not_recoverable(consistency: Consistency) -> bool
    ensures { result ≡ is_not_recoverable consistency }
{
    matches!(consistency, Consistency::NotRecoverable)
}

/// Returns true if a moved wait can relock the mutex that its own client holds.
pub fn can_grant_relock(m: &MutexView, c: ClientId) -> bool
    ensures { result ≡ can_grant_relock m.now c }
{
    m.kind == MutexKind::Recursive && owns(m, c)
}

// Returns true if the caller holds the lock, for reading or for writing.
// [XSH pthread_rwlock_unlock]
fn holds(r: RwlockView) -> bool
    ensures { result ≡ has_lock r }
{
    r.writes || 0 < r.reads
}

// Returns true if nobody holds the lock.  [XSH pthread_rwlock_wrlock]
fn is_free(r: RwlockView) -> bool
    ensures { result ≡ is_free r }
{
    !r.is_written && !r.is_read
}

// Returns the answer to a holder that asks for the lock again; it is profile.
// [XSH pthread_rwlock_wrlock]
fn relock_outcome(tries: bool) -> Outcome
    ensures { result ≡ relock_outcome tries }
{
    if tries {
        Outcome::Ebusy
    } else {
        Outcome::Edeadlk
    }
}

/// Returns the verdict of `rdlock`, `tryrdlock` or `timedrdlock`. A client that holds a read lock
/// is not held back, which is a deviation.  [XSH pthread_rwlock_rdlock]
pub fn read_verdict(r: RwlockView, blocked: bool, how: &How) -> Verdict
    ensures { result ≡ read_verdict r blocked how.now }
{
    if r.writes {
        return Verdict::Reply(relock_outcome(is_try(how)));
    }
    if r.reads >= MAX_READ_LOCKS as u64 {
        return Verdict::Reply(Outcome::Eagain);
    }
    if 0 < r.reads || !r.is_written && !blocked {
        return Verdict::Stands;
    }
    if is_try(how) {
        Verdict::Reply(Outcome::Ebusy)
    } else if is_bad_how(how) {
        Verdict::Reply(Outcome::Einval)
    } else {
        Verdict::Stands
    }
}

/// Returns the verdict of `wrlock`, `trywrlock` or `timedwrlock`.
/// [XSH pthread_rwlock_wrlock, pthread_rwlock_timedwrlock]
pub fn write_verdict(r: RwlockView, how: &How) -> Verdict
    ensures { result ≡ write_verdict r how.now }
{
    if holds(r) {
        return Verdict::Reply(relock_outcome(is_try(how)));
    }
    if is_free(r) {
        return Verdict::Stands;
    }
    if is_try(how) {
        Verdict::Reply(Outcome::Ebusy)
    } else if is_bad_how(how) {
        Verdict::Reply(Outcome::Einval)
    } else {
        Verdict::Stands
    }
}

/// Returns the verdict of `rwunlock`; EPERM is profile.  [XSH pthread_rwlock_unlock]
pub fn rwunlock_verdict(r: RwlockView) -> Verdict
    ensures { result ≡ rwunlock_verdict r }
{
    if holds(r) {
        Verdict::Reply(Outcome::Done)
    } else {
        Verdict::Reply(Outcome::Eperm)
    }
}

/// Returns true if a reader can have the lock. A holder of a read lock passes waiting writers,
/// which is a deviation.  [XSH pthread_rwlock_rdlock]
pub fn can_grant_read(r: RwlockView, blocked: bool) -> bool
    ensures { result ≡ can_grant_read r blocked }
{
    !r.is_written && (!blocked || 0 < r.reads)
}

/// Returns true if a writer can have the lock: nobody holds it, and the writer is least.
/// [XSH pthread_rwlock_unlock]
pub fn can_grant_write(r: RwlockView, is_least: bool) -> bool
    ensures { result ≡ can_grant_write r is_least }
{
    is_free(r) && is_least
}

/// Returns the verdict of `wait` or `timedwait` at a condition that is bound to a mutex or to none.
/// EINVAL for another mutex and EPERM are profile.  [XSH pthread_cond_timedwait]
pub fn wait_verdict(
    bound: Option<ObjectId>,
    mutex: ObjectId,
    owns: bool,
    deadline: Option<Deadline>,
) -> Verdict
    ensures { result ≡ wait_verdict (record { bound = bound }) mutex owns deadline }
{
    let is_bound_elsewhere = match bound {
        Some(other) => other != mutex,
        None => false,
    };
    if has_invalid_deadline(deadline) || is_bound_elsewhere {
        Verdict::Reply(Outcome::Einval)
    } else if !owns {
        Verdict::Reply(Outcome::Eperm)
    } else {
        Verdict::Stands
    }
}
