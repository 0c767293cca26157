//! One POSIX condition variable as a value: the mutex with which calls wait at it, the verdict of a
//! wait, and which call is next.  [XSH pthread_cond_timedwait, pthread_cond_signal]
//!
//! Contracts see a condition as that mutex, if calls wait. The verdict of a wait is that of the
//! table of `pt_types`. The queue of the waiting calls belongs to the caller, in a `WaitList`. Only
//! tests show that the table says what the standard says.
#![tactic(auto)]

mod object;

pub use object::CondObj;
