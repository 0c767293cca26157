//! A mutex and a read-write lock as their verdict tables see them.

ghost use Rattle.std.specs.Prelude.{◌≡◌};
ghost use Rattle.pt_types.specs.MutexTable.{is_acquired as is_acquired_by};

use crate::{ClientId, Consistency, MutexKind, Outcome};

/// A mutex: its kind, whether it is robust, its consistency, its owner, and how many locks the
/// owner has.  [XSH 2.9.3]
#[derive(Drop)]
pub struct MutexView {
    pub kind: MutexKind,
    pub robust: bool,
    pub consistency: Consistency,
    pub owner: Option<ClientId>,
    pub count: u64,
}

/// A read-write lock as one caller sees it: the caller's own write lock and read locks, and whether
/// anybody, dead or alive, holds a write lock or a read lock.  [XSH 2.9]
#[derive(Clone, Copy)]
pub struct RwlockView {
    pub writes: bool,
    pub reads: u64,
    pub is_written: bool,
    pub is_read: bool,
}

/// Returns whether an outcome says that the mutex was acquired.  [XSH pthread_mutex_lock]
pub fn is_acquired(x: Outcome) -> bool
    ensures { result ≡ is_acquired_by x }
{
    !matches!(x, Outcome::Enotrecoverable)
}
