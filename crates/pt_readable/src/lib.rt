//! What an explanation reads of a core, besides its entries and answers: a trait, and the
//! definitions of what is read.
#![tactic(auto)]

mod readable_history;
mod waiting;

pub use readable_history::ReadableHistory;
pub use waiting::Waiting;
