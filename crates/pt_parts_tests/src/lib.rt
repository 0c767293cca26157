//! Tests of the words, of the parts, of the tables and of the stored history.
//!
//! This crate has only tests, in one file for each crate that is tested. They use public items
//! alone.
#![tactic(auto)]

#[cfg(test)]
mod tests;
