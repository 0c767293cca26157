//! The texts of calls and entries, for people and for traces.
//!
//! The text of a call is the line that makes it, without its client, and `law_call_texts_are_read`
//! says that it is read back as that call. The text of an entry is its name with what it says in
//! parentheses, as in `Call(0, lock m, none)`, and `law_entry_texts_differ` says that it determines
//! the entry. Contracts say which bytes are appended to a buffer,
//! and that a refused growth is the only fault.
//!
//! Only tests show that ENOMEM follows a refused growth.
#![tactic(auto)]

mod appending;
mod calls;
mod entries;
mod laws;

pub use appending::{put, put_number, put_number_word};
pub use calls::write_call;
pub use entries::{write_entry, write_placed_entry};
pub use laws::{law_call_texts_are_read, law_entry_texts_differ};
