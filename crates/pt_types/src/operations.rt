//! What each call word does, and to which class of objects.

ghost use Rattle.std.specs.Prelude.{◌≡◌};
ghost use Rattle.pt_types.specs.Operations.{operation as operation_meant, clock_of as clock_meant};
ghost use Rattle.pt_types.specs.Operations.{same_class, class_of as class_meant};
ghost use Rattle.pt_types.specs.Operations.{class_needed as class_meant_by};
ghost use Rattle.pt_types.specs.Operations.{deadline_of as deadline_meant};
ghost use Rattle.pt_types.specs.OperationViews.{operation_view};

use crate::{Call, Clock, Deadline, How, Name, ObjectKind};

/// The four classes of objects.  [XSH 2.9]
#[derive(Clone, Copy)]
pub enum ObjectClass {
    Mutex,
    Rwlock,
    Cond,
    Barrier,
}

/// The three kinds of locks that a call can ask for.
/// [XSH pthread_mutex_lock, pthread_rwlock_rdlock, pthread_rwlock_wrlock]
#[derive(Clone, Copy)]
pub enum LockKind {
    MutexLock,
    ReadLock,
    WriteLock,
}

/// What a call does, with the names of its objects.  [XSH, the call's page]
#[derive(Drop)]
pub enum Operation<'a> {
    Inits(&'a Name, ObjectKind),
    Ends(&'a Name, ObjectClass),
    Acquires(&'a Name, LockKind, How),
    Unlocks(&'a Name),
    Restores(&'a Name),
    Rwunlocks(&'a Name),
    CondWaits(&'a Name, &'a Name, Option<Deadline>),
    Signals(&'a Name),
    Broadcasts(&'a Name),
    BarrierWaits(&'a Name),
}

/// Returns what a call does, with the names of its objects.  [XSH, the call's page]
#[inline(always)]
pub fn operation_of(call: &Call) -> Operation<'_>
    ensures { operation_view result ≡ operation_meant call.now }
{
    match call {
        Call::MutexInit(n, kind, robust) => Operation::Inits(n, ObjectKind::Mutex(*kind, *robust)),
        Call::Lock(n) => Operation::Acquires(n, LockKind::MutexLock, How::Plain),
        Call::Trylock(n) => Operation::Acquires(n, LockKind::MutexLock, How::Try),
        Call::Timedlock(n, d) => Operation::Acquires(n, LockKind::MutexLock, How::Timed(*d)),
        Call::Clocklock(n, _, d) => Operation::Acquires(n, LockKind::MutexLock, How::Timed(*d)),
        Call::Unlock(n) => Operation::Unlocks(n),
        Call::Consistent(n) => Operation::Restores(n),
        Call::MutexDestroy(n) => Operation::Ends(n, ObjectClass::Mutex),
        Call::RwlockInit(n) => Operation::Inits(n, ObjectKind::Rwlock),
        Call::Rdlock(n) => Operation::Acquires(n, LockKind::ReadLock, How::Plain),
        Call::Tryrdlock(n) => Operation::Acquires(n, LockKind::ReadLock, How::Try),
        Call::Timedrdlock(n, d) => Operation::Acquires(n, LockKind::ReadLock, How::Timed(*d)),
        Call::Clockrdlock(n, _, d) => Operation::Acquires(n, LockKind::ReadLock, How::Timed(*d)),
        Call::Wrlock(n) => Operation::Acquires(n, LockKind::WriteLock, How::Plain),
        Call::Trywrlock(n) => Operation::Acquires(n, LockKind::WriteLock, How::Try),
        Call::Timedwrlock(n, d) => Operation::Acquires(n, LockKind::WriteLock, How::Timed(*d)),
        Call::Clockwrlock(n, _, d) => Operation::Acquires(n, LockKind::WriteLock, How::Timed(*d)),
        Call::Rwunlock(n) => Operation::Rwunlocks(n),
        Call::RwlockDestroy(n) => Operation::Ends(n, ObjectClass::Rwlock),
        Call::CondInit(n) => Operation::Inits(n, ObjectKind::Cond),
        Call::CondDestroy(n) => Operation::Ends(n, ObjectClass::Cond),
        Call::Wait(n, m) => Operation::CondWaits(n, m, None),
        Call::Timedwait(n, m, d) => Operation::CondWaits(n, m, Some(*d)),
        Call::Clockwait(n, m, _, d) => Operation::CondWaits(n, m, Some(*d)),
        Call::Signal(n) => Operation::Signals(n),
        Call::Broadcast(n) => Operation::Broadcasts(n),
        Call::BarrierInit(n, count) => Operation::Inits(n, ObjectKind::Barrier(*count)),
        Call::Bwait(n) => Operation::BarrierWaits(n),
        Call::BarrierDestroy(n) => Operation::Ends(n, ObjectClass::Barrier),
    }
}

/// Returns the clock of a call's deadline: the real one if the call names none.
/// [XSH pthread_mutex_clocklock]
pub fn clock_of(call: &Call) -> Clock
    ensures { result ≡ clock_meant call.now }
{
    match call {
        Call::Clocklock(_, clock, _)
        | Call::Clockrdlock(_, clock, _)
        | Call::Clockwrlock(_, clock, _)
        | Call::Clockwait(_, _, clock, _) => *clock,
        _ => Clock::Real,
    }
}

/// Returns the class of an object of this kind.  [XSH 2.9]
pub fn class_of(kind: ObjectKind) -> ObjectClass
    ensures { result ≡ class_meant kind }
{
    match kind {
        ObjectKind::Mutex(..) => ObjectClass::Mutex,
        ObjectKind::Rwlock => ObjectClass::Rwlock,
        ObjectKind::Cond => ObjectClass::Cond,
        ObjectKind::Barrier(_) => ObjectClass::Barrier,
    }
}

/// Returns the class of the objects that have such a lock.  [XSH 2.9]
pub fn class_needed(lock_kind: LockKind) -> ObjectClass
    ensures { result ≡ class_meant_by lock_kind }
{
    match lock_kind {
        LockKind::MutexLock => ObjectClass::Mutex,
        LockKind::ReadLock | LockKind::WriteLock => ObjectClass::Rwlock,
    }
}

/// Returns whether two classes are the same.
pub fn is_same(one: ObjectClass, other: ObjectClass) -> bool
    ensures { result ≡ same_class one other }
{
    matches!(
        (one, other),
        (ObjectClass::Mutex, ObjectClass::Mutex)
            | (ObjectClass::Rwlock, ObjectClass::Rwlock)
            | (ObjectClass::Cond, ObjectClass::Cond)
            | (ObjectClass::Barrier, ObjectClass::Barrier)
    )
}

/// Returns the deadline of a call for a lock, if it has one.  [XSH pthread_mutex_timedlock]
pub fn deadline_of(how: How) -> Option<Deadline>
    ensures { result ≡ deadline_meant how }
{
    match how {
        How::Timed(deadline) => Some(deadline),
        _ => None,
    }
}
