//! What a server did, as a trace: each event as a line of a script, in the order of the history,
//! and the answers that it brought.
//!
//! Such a trace can be explained and checked as any other. Only tests show what is recorded.
#![tactic(auto)]

mod recorder;
mod rows;

pub use recorder::Recorder;
