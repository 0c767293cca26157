//! Explains a script: each line, the entries that it added to the legal history and why each was
//! added, or why the line was refused, its answers, and what the objects that it names are doing
//! after it.
//!
//! `explain` is the program `ptserver explain`. It reads, writes and reports faults as the program
//! of `pt_script` does. Contracts say that the answers to a line are exactly those that a script
//! writes for it, and that the entries are exactly those that the line added to the history, each
//! at its place, even if the history is sealed for them. The reason of a call's entry is the first
//! line of its verdict table that applies. What an object is doing is read off the history after
//! the line. What is written is a trace: a line of the script that looks like another row of one
//! begins with `< `, each entry and each object is a remark, and each answer begins with `> `.
//!
//! Only tests show that the fault `Memory` comes only after a refused growth.
#![tactic(auto)]

mod appending;
mod effects;
mod entries;
mod lines;
mod objects;
mod program;
mod reading;
mod reasons;
mod rows;
mod whole;

pub use effects::put_effects;
pub use program::explain;
pub use reasons::own_reason;
