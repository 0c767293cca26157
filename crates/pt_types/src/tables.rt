//! The verdict of a call, and the outcome of a call that is granted a mutex.

ghost use Rattle.std.specs.Prelude.{◌≡◌};
ghost use Rattle.pt_types.specs.Tables.{reply as reply_of_verdict};
ghost use Rattle.pt_types.specs.ObjectTable.{destroy_verdict as destroy_table};
ghost use Rattle.pt_types.specs.MutexTable.{lock_outcome as outcome_of_lock};

use crate::{Consistency, Outcome, Verdict};

/// Returns the answer that a call gets at once, or None if it waits.
pub fn reply(verdict: Verdict) -> Option<Outcome>
    ensures { result ≡ reply_of_verdict verdict }
{
    match verdict {
        Verdict::Reply(x) => Some(x),
        Verdict::Stands => None,
    }
}

/// Returns the verdict of destroying an object, which is busy or not. EBUSY is profile.
/// [XSH pthread_mutex_destroy]
pub fn destroy_verdict(busy: bool) -> Verdict
    ensures { result ≡ destroy_table busy }
{
    if busy {
        Verdict::Reply(Outcome::Ebusy)
    } else {
        Verdict::Reply(Outcome::Done)
    }
}

/// Returns the outcome of a call that is granted a mutex.
/// [XSH pthread_mutex_lock, pthread_cond_timedwait]
pub fn lock_outcome(consistency: Consistency, expired: bool) -> Outcome
    ensures { result ≡ outcome_of_lock consistency expired }
{
    match consistency {
        Consistency::NotRecoverable => Outcome::Enotrecoverable,
        Consistency::Inconsistent => Outcome::Eownerdead,
        Consistency::Consistent if expired => Outcome::Etimedout,
        Consistency::Consistent => Outcome::Done,
    }
}
