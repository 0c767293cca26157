//! Tests of devices, of lines, of the script engine and of the command line.
//!
//! This crate has only tests, in one file for each call or crate that is tested. They use public
//! items alone.
#![tactic(auto)]

#[cfg(test)]
mod tests;
