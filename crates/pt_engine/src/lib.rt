//! The script engine, which answers the lines of many clients into a buffer.
//!
//! Contracts see an engine as what is known after the lines that it has read: what the history of
//! its core begins with, the entries since, which client each line belongs to, which clients have
//! joined, and which line made the call at each place. Each line appends its refusal, or the
//! answers that its entries give, in the order of these. Each is written under its client and
//! number. If the core lacked memory for the line, the refusal may be ENOMEM.
//!
//! The core is any `LegalHistory` that is empty and has the limit `ENTRIES_BETWEEN_SEALS`, so the
//! engine is proved independently of the core that it runs with. If an event needs more room than
//! the limit leaves, the history is sealed first: its entries are dropped, and it goes on from its
//! seal. So there are never more than 65,536 entries, however many lines come. The memory for
//! clients grows only with their names.
//!
//! The bytes of the lines come in a cutter, and the answers go into the caller's buffer. The caller
//! reads the former and writes out the latter, so a fault of the engine is always lack of memory:
//! `Read` and `Write` are for callers. Two things are shown only by tests: that ENOMEM and `Memory`
//! come only after a refused growth, and the texts of `ScriptFault`.
#![tactic(auto)]

mod answers;
mod commit;
mod engine;
mod fault;
mod input;
mod line_body;
mod line_id;
mod mark;
mod names;
mod output;
mod pending_lines;

pub use engine::{ENTRIES_BETWEEN_SEALS, Engine};
pub use fault::ScriptFault;
