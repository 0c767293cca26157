//! The answers that each client got since a Start: how many there are, and whether one is still to
//! come. Also what a client says that it did, compared with its own entries.
//!
//! `specs/` counts a client's answers and its open call. `proofs/` says how one event changes these
//! counts; the accounts of `pt_hub` are proved by these lemmas.
#![tactic(auto)]
