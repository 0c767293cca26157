//! The command line of `ptserver`: its words, their texts, and the exit statuses that they give.
//!
//! The program itself does what the words `script`, `explain`, `check` and `serve` ask for. Only
//! tests and runs show what is said here: contracts describe no text that is shown, and no word of
//! a command line.
#![tactic(auto)]

mod reading;
mod words;

pub use reading::{ClockWord, Service, Task, Traces, read_task};
pub use words::command;
