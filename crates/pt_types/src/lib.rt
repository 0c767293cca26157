//! Names, numbers, calls and outcomes of a server of shared pthread objects.
//!
//! Contracts see a number type as its number, a name as its bytes and a moment as its number of
//! nanoseconds. The verdict tables of all calls are in `specs/`; each is over the view of one
//! object. The texts that `Display` writes are shown by tests alone.
#![tactic(auto)]

mod call;
pub mod key_order;
mod keys;
mod limits;
mod name;
mod named_verb;
mod number;
pub mod operations;
mod outcome;
pub mod tables;
mod time;
pub mod views;

pub use call::{Call, How, MutexKind, ObjectKind};
pub use keys::key_of;
pub use limits::{
    MAX_BARRIER_COUNT, MAX_CLIENTS, MAX_ENTRIES, MAX_LINE_LENGTH, MAX_LOCKS, MAX_OBJECTS,
    MAX_PRIORITY, MAX_READ_LOCKS,
};
pub use name::Name;
pub use named_verb::NamedVerb;
pub use number::{ClientId, ObjectId, Priority};
pub use outcome::{Consistency, Outcome, Refusal, Verdict};
pub use time::{Clock, Deadline, Moment};
