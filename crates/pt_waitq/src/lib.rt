//! Queues of waiting calls, each named by the number of its object, however they are stored.
//!
//! Contracts see a `WaitList` as a function from numbers to lists of waiters in key order, with the
//! clients that are admitted and the queues that exist. No clause mentions how these are stored. A
//! core uses `pt_chains`, and tests also use `pt_plain_list`.
#![tactic(auto)]

mod wait_list;
mod waiter;

pub use wait_list::WaitList;
pub use waiter::Waiter;
