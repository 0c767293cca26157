//! Traces: scripts with the answers that were seen, row by row.
//!
//! A row that begins with `> ` is an answer that was seen, an empty row or one that begins with a
//! space or `#` is a remark, and any other is a line of the script. Contracts see a trace as its
//! rows, and as its blocks: each line of the script, with the answers that were seen after it and
//! before the next line. Nothing is copied but the lines, and nothing is allocated.
#![tactic(auto)]

mod answer;
mod blocks;
mod row;
mod rows;
mod wrong;

pub use answer::Answer;
pub use blocks::{Block, Blocks, Seen};
pub use row::{answer_in, line_in};
pub use rows::Rows;
pub use wrong::wrong_row;
