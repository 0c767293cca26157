//! Lines are cut from bytes, and answers are written as bytes. `pt_grammar`, which is exported here
//! too, reads what lines say.
//!
//! Contracts see a cutter as the bytes that it has not given yet, and a line as the bytes between
//! two newlines. Once it has no line to give, a cutter holds at most 128 bytes, and none of a line
//! that was too long. Two things are shown only by tests: that its buffer stays small too, and that
//! a call succeeds if memory is left.
#![tactic(auto)]

mod appending;
mod cutter;
mod reply;

pub use cutter::{Cutter, cut_all, lines_of_texts};
pub use pt_grammar::{
    CallLine, ClientName, Cut, ScriptBody, ScriptLine, Who, barrier_init_at_start, moment_at_start,
    mutex_init_at_start, named_at_start, read_call, read_client, read_script_body,
    read_script_line, timed_at_start, timedwait_at_start, wait_at_start,
};
pub use reply::{Word, write_reply};
