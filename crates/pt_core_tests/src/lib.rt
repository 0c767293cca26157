//! Tests of the core: worked rows, and what a whole run answers.
//!
//! This crate has only tests. They use public items of the core alone.
#![tactic(auto)]

#[cfg(test)]
mod tests;
