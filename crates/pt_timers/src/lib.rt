//! The deadlines of open calls.
//!
//! Contracts see a finite map from places to clocks and nanoseconds: the deadline that is set at
//! each place. Only tests show that room is found when it is asked for.
#![tactic(auto)]

mod key;
mod keys;
mod order;
mod orders;
mod stale;
mod timers;

pub use timers::Timers;
