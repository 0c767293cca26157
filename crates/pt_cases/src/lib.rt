//! Scripts in files, with the text that each must give, and how another text differs from it.
//!
//! A group is a folder of folders of cases. The case NAME consists of the files NAME.script and
//! NAME.expected. Only runs of the programs that use this crate show what is read from the files
//! and what is printed.
#![tactic(auto)]

mod case;
mod difference;
mod files;
mod showing;

pub use case::Case;
pub use difference::{Difference, first_difference};
pub use files::cases_of;
pub use showing::agrees;
