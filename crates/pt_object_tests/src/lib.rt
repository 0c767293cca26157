//! Tests of each object alone: mutexes, read-write locks, conditions and barriers.
//!
//! This crate has only tests, in one file for each crate that is tested. They use public items
//! alone.
#![tactic(auto)]

#[cfg(test)]
mod tests;
