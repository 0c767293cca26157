//! One POSIX barrier as a value: the count with which it was made, and when it is full.
//! [XSH pthread_barrier_init, pthread_barrier_wait]
//!
//! Contracts see a barrier as its count, from 1 to 1,024. Its caller knows which calls wait at it.
//! The verdict of making one is that of the table of `pt_types` for any object, as far as the count
//! decides it. Only tests show that the limits are those of the profile.
#![tactic(auto)]

mod object;

pub use object::{BarrierObj, verdict_init};
