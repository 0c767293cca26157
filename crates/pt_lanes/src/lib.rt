//! Tests over slices of counts, several lanes at a time.
//!
//! Contracts see a slice as its list of counts, and fix each result by its definition, for every
//! slice and every index. Only tests show how fast the calls are.
#![tactic(auto)]

mod kernel;
mod plain;

pub use kernel::{all_zero, any_from, highest};
