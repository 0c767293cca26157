//! The rows of one core: those of its living clients, its objects and its answers. Functions read
//! or change one row, or loop over all of them.
#![tactic(auto)]

mod answer_log;
pub mod answers;
pub mod barrier;
pub mod calls;
pub mod clients;
pub mod cond;
pub mod mutex;
pub mod objects;
mod owned;
pub mod rwlock;
mod short;

pub use answer_log::{AnswerLog, LoggedAnswers};
pub use answers::Answered;
pub use clients::{Caller, Open};
pub use objects::Object;
