ghost use Rattle.std.specs.Prelude.{◌≡◌};
ghost use Rattle.pt_rules.specs.MutexRules.{consistent_rule, is_open};
ghost use Rattle.pt_rules.specs.MutexRules.{lock_rule, unlock_rule};

use pt_types::views::MutexView;
use pt_types::{ClientId, Consistency, How, MAX_LOCKS, MutexKind};

/// The line of the table of lock calls that applies.  [XSH pthread_mutex_lock]
#[derive(Clone, Copy, PartialEq, Eq)]
pub enum LockRule {
    /// The mutex is not recoverable.
    Unrecoverable,
    /// The mutex has no owner.
    Free,
    /// The caller owns it, it is RECURSIVE, and the count rises.
    Relocked,
    /// The same, but the count is the greatest.
    TooOften,
    /// A `trylock` does not wait.
    Tried,
    /// The caller owns it, and it is ERRORCHECK.
    Deadlocks,
    /// The nanoseconds are a second or more.
    BadTime,
    /// The caller owns the mutex, and waits for itself.
    Relocks,
    Waits,
}

/// Returns the line that applies to a caller's lock call.
pub fn lock_rule(m: &MutexView, c: ClientId, how: &How) -> LockRule
    ensures { result ≡ lock_rule m.now c how.now }
{
    let owns = m.owner == Some(c);
    if matches!(m.consistency, Consistency::NotRecoverable) {
        LockRule::Unrecoverable
    } else if m.owner.is_none() {
        LockRule::Free
    } else if owns && matches!(m.kind, MutexKind::Recursive) && m.count < MAX_LOCKS as u64 {
        LockRule::Relocked
    } else if owns && matches!(m.kind, MutexKind::Recursive) {
        LockRule::TooOften
    } else if matches!(how, How::Try) {
        LockRule::Tried
    } else if owns && matches!(m.kind, MutexKind::Errorcheck) {
        LockRule::Deadlocks
    } else {
        match how {
            How::Timed(due) if due.is_bad() => LockRule::BadTime,
            _ if owns => LockRule::Relocks,
            _ => LockRule::Waits,
        }
    }
}

/// The line of the table of `unlock` that applies.  [XSH pthread_mutex_unlock]
#[derive(Clone, Copy, PartialEq, Eq)]
pub enum UnlockRule {
    /// The caller does not own the mutex, which is NORMAL and stalled: the page leaves it open.
    Undefined,
    /// The caller does not own the mutex.
    NotOwner,
    /// The count falls, and the caller owns the mutex still.
    Counts,
    /// The mutex was inconsistent, and is not recoverable now.
    Loses,
    GivesBack,
}

/// Returns the line that applies to a caller's `unlock`.
pub fn unlock_rule(m: &MutexView, c: ClientId) -> UnlockRule
    ensures { result ≡ unlock_rule m.now c }
{
    let owns = m.owner == Some(c);
    if !owns && is_open_case(m) {
        UnlockRule::Undefined
    } else if !owns {
        UnlockRule::NotOwner
    } else if m.count > 1 {
        UnlockRule::Counts
    } else if matches!(m.consistency, Consistency::Inconsistent) {
        UnlockRule::Loses
    } else {
        UnlockRule::GivesBack
    }
}

// Returns whether the page leaves open what an unlock by another client than the owner does.
fn is_open_case(m: &MutexView) -> bool
    ensures { result ≡ is_open m.now }
{
    matches!(m.kind, MutexKind::Normal) && !m.robust
}

/// The line of the table of `consistent` that applies.  [XSH pthread_mutex_consistent]
#[derive(Clone, Copy, PartialEq, Eq)]
pub enum ConsistentRule {
    NotRobust,
    NotInconsistent,
    /// The caller does not own the mutex.
    NotOwner,
    Restores,
}

/// Returns the line that applies to a caller's `consistent`.
pub fn consistent_rule(m: &MutexView, c: ClientId) -> ConsistentRule
    ensures { result ≡ consistent_rule m.now c }
{
    if !m.robust {
        ConsistentRule::NotRobust
    } else if !matches!(m.consistency, Consistency::Inconsistent) {
        ConsistentRule::NotInconsistent
    } else if m.owner != Some(c) {
        ConsistentRule::NotOwner
    } else {
        ConsistentRule::Restores
    }
}
