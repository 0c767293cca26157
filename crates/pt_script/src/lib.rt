//! Scripts: the lines of many clients are read, and their answers are written.
//!
//! Contracts see the bytes that the reader gave and the writer took. If a script is read to its
//! end, what was written is the text of its lines. It consists of each refusal or answer, under its
//! client and number, in the order of the lines and of the entries that give the answers. All of it
//! is flushed. After a fault, what was written is the beginning of that text. It has the answers to
//! all lines that had come in whole, or, if the writer failed or memory was refused, to all that
//! had come before the latest read. If the core lacked memory for a line, the text may have ENOMEM
//! for it.
//!
//! `pt_engine` answers the lines, over any `LegalHistory` that is empty and has the limit
//! `ENTRIES_BETWEEN_SEALS`. It seals that history if an event needs the room, so there are never
//! more than 65,536 entries, however long the script is. The memory for clients grows only with
//! their names.
//!
//! `answer` is the program `ptserver script` over any such core, reader, writer and writer of
//! errors. Its contract also covers the exit status and the report of a fault. A program that has
//! no memory for a core reports the fault `Memory` itself.
//!
//! The definitions are for any telling of lines, of which the answers alone are one. `pt_explain`
//! has another.
//!
//! Two things are shown only by tests: that the fault `Memory` comes only after a refused growth,
//! and how the input is split into reads.
#![tactic(auto)]

mod laws;
mod program;
mod telling;
mod whole;
mod writing;

pub use laws::{law_answers_have_lines, law_beginnings, law_one_text};
pub use program::{answer, report, status_of};
pub use pt_engine::{ENTRIES_BETWEEN_SEALS, ScriptFault};
pub use whole::{MAX_DEVICE_READS, ScriptEnd, script, script_within};
pub use writing::deliver;
