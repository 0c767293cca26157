//! The fields of a text, which are separated by spaces, and the numbers that fields spell.
//!
//! Contracts see what is left of a text as the list of its fields, each with its bytes.
#![tactic(auto)]

mod fields;
mod number;

pub use fields::{Fields, first_space};
pub use number::read_number;
