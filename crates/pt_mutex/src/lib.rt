//! One POSIX mutex as a value: its answers to calls, and what a call, a grant or a death changes.
//! [XSH pthread_mutex_lock, pthread_mutex_consistent]
//!
//! Contracts see a mutex as a record: its kind, whether it is robust, its consistency, its owner,
//! how many locks the owner has, and the number of waits that released it and still wait at a
//! condition. Its answers are those of the tables of `pt_types`; each change is one equation on the
//! whole record. A mutex knows no queue and no clock: its caller says who is next, and when. Only
//! tests show that the tables say what the standard says.
#![tactic(auto)]

mod object;

pub use object::MutexObj;
