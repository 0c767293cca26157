//! The grammar of lines: which text is which line of a connection, and of a script.
//!
//! Contracts see a call as the text that spells it (two texts for a normal mutex, as `default`
//! means `normal`). A text that spells no line is SYNTAX, or LONG if it has more than 128 bytes.
#![tactic(auto)]

mod arguments;
mod call_line;
mod client;
mod cut;
mod named_start;
mod script_line;
mod verb;
mod verbs;

pub use call_line::{CallLine, read_call};
pub use client::{ClientName, Who};
pub use cut::Cut;
pub use named_start::{
    barrier_init_at_start, moment_at_start, mutex_init_at_start, named_at_start, timed_at_start,
    timedwait_at_start, wait_at_start,
};
pub use script_line::{
    ScriptBody, ScriptLine, read_client, read_script_body, read_script_line, read_short,
};
pub use verb::TimedVerb;
