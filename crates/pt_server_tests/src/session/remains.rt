//! What the sessions of a hub leave.

use crate::cores::Hub;
use pt_hub::{ClockPass, Left};
use std::alloc::Global;
use std::sync::ledger::Ledger;

/// The clients and the clocks that sessions leave, which their hub wants for its close.
#[derive(Drop)]
pub struct Remains<L: Ledger> {
    lefts: Vec<Left<L>>,
    clocks: Vec<ClockPass<L>>,
}

impl<L: Ledger> Remains<L> {
    /// Creates a list of nothing.
    pub fn new(alloc: Global) -> Remains<L> {
        Remains {
            lefts: Vec::new(alloc),
            clocks: Vec::new(alloc),
        }
    }

    /// Adds what a session left. Returns whether there was memory for it.
    pub fn add(&mut self, left: Option<Left<L>>, clock: ClockPass<L>) -> bool {
        let is_clock_added = self.clocks.push(clock).is_ok();
        match left {
            Some(left) => self.lefts.push(left).is_ok() && is_clock_added,
            None => is_clock_added,
        }
    }

    /// Closes the hub, and returns how many events it finds, or `None` if it does not close.
    pub fn close(self, hub: Hub<L, Global>) -> Option<u64> {
        match hub.close(self.lefts, self.clocks) {
            Ok(closed) => Some(closed.outer),
            Err(_) => None,
        }
    }
}
