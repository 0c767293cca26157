//! A `WaitList` for tests, as plain as possible: all waiters are in one list.
//!
//! Contracts see only the queues, as those of the trait do. Only tests show that room is found when
//! it is asked for.
#![tactic(auto)]

mod changes;
mod entries;
mod plain_list;

pub use plain_list::PlainList;
