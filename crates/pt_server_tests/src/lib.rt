//! Tests of the hub, of sessions, and of a server over real sockets.
//!
//! This crate has only tests, in one module for each crate that is tested. They use public items
//! alone.
#![tactic(auto)]

mod client;
#[cfg(test)]
mod cores;
#[cfg(test)]
mod hub;
#[cfg(test)]
mod serve;
#[cfg(test)]
mod session;

pub use client::Client;
