//! Waiting calls: what each waits for, when it was moved, and which goes before another.

ghost use Rattle.std.specs.Prelude.{◌≡◌};
ghost use Rattle.pt_model.specs.WaitingCall.{role_of_lock};
ghost use Rattle.pt_model.specs.WaitingCall.{is_barrier_wait};
ghost use Rattle.pt_model.specs.WaitingCall.{is_cond_wait, is_write_lock};
ghost use Rattle.pt_model.specs.WaitingCall.{final_mutex};
ghost use Rattle.pt_model.specs.Moves.{call_key_by};
ghost use Rattle.pt_model.specs.Grants.{is_expired as is_expired_by};
ghost use Rattle.pt_model.specs.Verdicts.{mutex_of_wait};

use crate::entry::Cause;
use pt_types::key_order::Key;
use pt_types::operations::LockKind;
use pt_types::{ClientId, Clock, ObjectId};

/// The role of a waiting call: what it waits for. A wait also has its mutex.
/// [XSH, the call's page]
#[derive(Clone, Copy)]
pub enum Role {
    ForMutex,
    ForRead,
    ForWrite,
    ForBarrier,
    ForCond(ObjectId),
}

/// A call that was accepted without an answer, with what held when it came.
#[derive(Clone, Copy)]
pub struct WaitingCall {
    /// The place of its entry.
    pub place: u64,
    pub client: ClientId,
    /// The priority with which the client joined.
    pub priority: u64,
    /// The object that the call names. For a wait, this is its condition variable.
    pub object: ObjectId,
    pub role: Role,
    /// The clock of its deadline.
    pub clock: Clock,
    /// Its deadline in nanoseconds, seconds included.
    pub deadline: Option<u64>,
}

/// The move of a wait to its mutex: when it came, and why.  [XSH pthread_cond_broadcast]
#[derive(Clone, Copy)]
pub struct Move {
    /// The place of the entry that moved the wait.
    pub at: u64,
    pub cause: Cause,
}

/// Returns the role of a call for a lock of this kind.
pub fn role_of_lock(lock_kind: LockKind) -> Role
    ensures { result ≡ role_of_lock lock_kind }
{
    match lock_kind {
        LockKind::MutexLock => Role::ForMutex,
        LockKind::ReadLock => Role::ForRead,
        LockKind::WriteLock => Role::ForWrite,
    }
}

/// Returns whether the role is that of a call for a barrier.  [XSH pthread_barrier_wait]
pub fn is_barrier_wait(role: Role) -> bool
    ensures { result ≡ is_barrier_wait role }
{
    matches!(role, Role::ForBarrier)
}

/// Returns whether the role is that of a wait.  [XSH pthread_cond_wait]
pub fn is_cond_wait(role: Role) -> bool
    ensures { result ≡ is_cond_wait role }
{
    matches!(role, Role::ForCond(_))
}

/// Returns whether the role is that of a call for a write lock.  [XSH pthread_rwlock_wrlock]
pub fn is_write_lock(role: Role) -> bool
    ensures { result ≡ is_write_lock role }
{
    matches!(role, Role::ForWrite)
}

/// Returns the mutex for which a call waits in the end: the object of a call for a mutex, or the
/// mutex of a wait.  [XSH pthread_mutex_lock, pthread_cond_wait]
pub fn mutex_of(w: &WaitingCall) -> Option<ObjectId>
    ensures { result ≡ final_mutex w.now.role w.now.object }
{
    match w.role {
        Role::ForMutex => Some(w.object),
        Role::ForCond(m) => Some(m),
        _ => None,
    }
}

/// Returns the mutex of a wait.  [XSH pthread_cond_wait]
pub fn mutex_of_wait(role: Role) -> Option<ObjectId>
    ensures { result ≡ mutex_of_wait role }
{
    match role {
        Role::ForCond(m) => Some(m),
        _ => None,
    }
}

/// Returns whether a wait was moved by its deadline.  [XSH pthread_cond_timedwait]
pub fn is_expired(moved: Option<Move>) -> bool
    ensures { result ≡ is_expired_by moved }
{
    match moved {
        Some(moved) => matches!(moved.cause, Cause::Expired),
        None => false,
    }
}

/// Returns the key by which a call goes before another, if this is its move.  [XSH 2.8.4]
pub fn key_with(w: &WaitingCall, moved: Option<Move>) -> Key
    ensures { result ≡ call_key_by (λ j. moved) w.now }
{
    Key {
        priority: w.priority,
        writes: is_write_lock(w.role),
        arrival: match moved {
            Some(moved) => (moved.at, w.place),
            None => (w.place, w.place),
        },
    }
}
