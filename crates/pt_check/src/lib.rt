//! Checks a trace: whether the answers that were seen are those that the rules give.
//!
//! `check` finds whether all answers agree, and if not, the first line of the script at which they
//! differ. Its contract says exactly when each is found.
#![tactic(auto)]

mod answered;
mod appending;
mod checking;
mod course;
mod due;
mod fault;
mod finding;
mod found;
mod laws;
mod reasons;
mod reporting;
mod tally;
mod weight;

pub use checking::check;
pub use fault::CheckFault;
pub use found::Found;
pub use laws::law_one_finding;
pub use reporting::report;
