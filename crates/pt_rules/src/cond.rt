ghost use Rattle.std.specs.Prelude.{◌≡◌};
ghost use Rattle.pt_rules.specs.CondRules.{stays_open, wait_rule};
ghost use Rattle.pt_rules.specs.CondRules.{wake_rule};

use pt_types::views::MutexView;
use pt_types::{ClientId, Consistency, Deadline, MutexKind, ObjectId};

/// The line of the table of `wait`, `timedwait` and `clockwait` that applies.
/// [XSH pthread_cond_timedwait]
#[derive(Clone, Copy, PartialEq, Eq)]
pub enum WaitRule {
    /// The nanoseconds are a second or more.
    BadTime,
    /// Calls wait at the condition with another mutex.
    OtherMutex,
    /// The caller does not own the mutex, of a kind for which the page leaves it open.
    Undefined,
    /// The caller does not own the mutex.
    NotOwner,
    /// The count falls, and the caller owns the mutex still.
    Counts,
    /// The mutex was inconsistent, and is not recoverable now.
    Loses,
    Waits,
}

// Returns whether the page leaves open what a wait by another client than the owner does.
fn is_open_case(m: &MutexView) -> bool
    ensures { result ≡ stays_open m.now }
{
    !matches!(m.kind, MutexKind::Errorcheck) && !m.robust
}

/// Returns the line that applies to a wait with the mutex of this number, at a condition that is
/// bound to a mutex if calls wait there.
pub fn wait_rule(
    bound: Option<ObjectId>,
    number: ObjectId,
    m: &MutexView,
    c: ClientId,
    due: Option<Deadline>,
) -> WaitRule
    ensures { result ≡ wait_rule (record { bound = bound }) number m.now c due }
{
    let owns = m.owner == Some(c);
    if due.is_some_and(Deadline::is_bad) {
        WaitRule::BadTime
    } else if bound.is_some_and(|other| other != number) {
        WaitRule::OtherMutex
    } else if !owns && is_open_case(m) {
        WaitRule::Undefined
    } else if !owns {
        WaitRule::NotOwner
    } else if m.count > 1 {
        WaitRule::Counts
    } else if matches!(m.consistency, Consistency::Inconsistent) {
        WaitRule::Loses
    } else {
        WaitRule::Waits
    }
}

/// The line of the table of `signal` and `broadcast` that applies.  [XSH pthread_cond_broadcast]
#[derive(Clone, Copy, PartialEq, Eq)]
pub enum WakeRule {
    Nobody,
    /// The first of the waits moves to its mutex.
    MovesFirst,
    /// All waits move to their mutex.
    MovesAll,
}

/// Returns the line that applies to a `broadcast`, or to a `signal` if `all` is false, at a
/// condition that is bound to a mutex if calls wait there.
pub fn wake_rule(bound: Option<ObjectId>, all: bool) -> WakeRule
    ensures { result ≡ wake_rule (record { bound = bound }) all }
{
    if bound.is_none() {
        WakeRule::Nobody
    } else if all {
        WakeRule::MovesAll
    } else {
        WakeRule::MovesFirst
    }
}
