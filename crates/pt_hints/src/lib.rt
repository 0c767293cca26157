//! Hints at where rows lie, by a few bits of their keys.
//!
//! A hint may be wrong: its user compares the key of what lies there, and `are_same` does that for
//! names. So contracts say about a hint only that it fits 32 bits.
#![tactic(auto)]

mod hints;
mod texts;

pub use hints::Hints;
pub use texts::are_same;
