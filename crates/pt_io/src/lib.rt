//! Devices: readers and writers whose bytes and failures contracts can describe.
//!
//! Contracts see the bytes that a `Source` gave and a `Sink` took so far, which of them came before
//! the latest read or flush, the number of reads, the number of writes that took none of the bytes
//! they were given, and a count of failures, 0 or 1. `Counted` makes either from any reader or
//! writer of std. If the bytes of that device are known, as those of one in memory are, exactly
//! these went through. `Faulty` is a device in memory for tests, and its contract gives each answer
//! in full.
//!
//! Only tests show that an error of a `Counted`, or a write that takes nothing, comes from its
//! device, that a flush reaches the device, and how often an interrupted call is retried. No
//! contract says what a device of the system did with its bytes.
#![tactic(auto)]

mod counted;
mod faulty;
mod sink;
mod source;

pub use counted::{Counted, MAX_TRIES};
pub use faulty::Faulty;
pub use sink::Sink;
pub use source::Source;
