ghost use Rattle.std.specs.Prelude.{◌≡◌};
ghost use Rattle.pt_rules.specs.RwlockRules.{read_rule, write_rule};
ghost use Rattle.pt_rules.specs.RwlockRules.{rwunlock_rule};

use pt_types::views::RwlockView;
use pt_types::{How, MAX_READ_LOCKS};

/// The line of the table of the rdlock calls that applies.  [XSH pthread_rwlock_rdlock]
#[derive(Clone, Copy, PartialEq, Eq)]
pub enum ReadRule {
    /// The caller holds the write lock.
    Writes,
    /// The caller has the greatest number of read locks.
    TooOften,
    /// The caller holds a read lock, and passes the writers that wait: the deviation.
    Passes,
    /// The caller holds a read lock.
    Rereads,
    /// No writer holds the lock, and none of equal or higher priority waits.
    Admitted,
    /// A `tryrdlock` does not wait.
    Tried,
    /// The nanoseconds are a second or more.
    BadTime,
    Waits,
}

/// Returns the line that applies to a caller's call for a read lock.
pub fn read_rule(r: &RwlockView, blocked: bool, how: &How) -> ReadRule
    ensures { result ≡ read_rule r.now blocked how.now }
{
    if r.writes {
        ReadRule::Writes
    } else if r.reads >= MAX_READ_LOCKS as u64 {
        ReadRule::TooOften
    } else if r.reads > 0 && blocked {
        ReadRule::Passes
    } else if r.reads > 0 {
        ReadRule::Rereads
    } else if !r.is_written && !blocked {
        ReadRule::Admitted
    } else if matches!(how, How::Try) {
        ReadRule::Tried
    } else {
        match how {
            How::Timed(due) if due.is_bad() => ReadRule::BadTime,
            _ => ReadRule::Waits,
        }
    }
}

/// The line of the table of the wrlock calls that applies.  [XSH pthread_rwlock_wrlock]
#[derive(Clone, Copy, PartialEq, Eq)]
pub enum WriteRule {
    /// The caller holds the lock in either way.
    Holds,
    /// Nobody holds the lock.
    Free,
    /// A `trywrlock` does not wait.
    Tried,
    /// The nanoseconds are a second or more.
    BadTime,
    Waits,
}

/// Returns the line that applies to a caller's call for a write lock.
pub fn write_rule(r: &RwlockView, how: &How) -> WriteRule
    ensures { result ≡ write_rule r.now how.now }
{
    if r.writes || r.reads > 0 {
        WriteRule::Holds
    } else if !r.is_written && !r.is_read {
        WriteRule::Free
    } else if matches!(how, How::Try) {
        WriteRule::Tried
    } else {
        match how {
            How::Timed(due) if due.is_bad() => WriteRule::BadTime,
            _ => WriteRule::Waits,
        }
    }
}

/// The line of the table of `rwunlock` that applies.  [XSH pthread_rwlock_unlock]
#[derive(Clone, Copy, PartialEq, Eq)]
pub enum RwunlockRule {
    /// The caller holds nothing of the lock.
    NotHolder,
    GivesBack,
}

/// Returns the line that applies to a caller's `rwunlock`.
pub fn rwunlock_rule(r: &RwlockView) -> RwunlockRule
    ensures { result ≡ rwunlock_rule r.now }
{
    if r.writes || r.reads > 0 {
        RwunlockRule::GivesBack
    } else {
        RwunlockRule::NotHolder
    }
}
