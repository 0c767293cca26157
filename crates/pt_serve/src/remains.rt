//! What sessions leave. The hub needs it to close.

ghost use Rattle.std.specs.Prelude.{◌≡◌, ◌≢◌, [], ◌∷◌, ◌++◌, option_to_list, false, IfOk, IfErr};
ghost use Rattle.pt_hub.specs.Passes.{events_found};

use crate::fault::ServeFault;
use pt_hub::{ClockPass, Closed, Hub, Left};
use pt_legal::LegalHistory;
use std::alloc::Global;
use std::sync::ledger::Ledger;

/// What one session leaves.
#[derive(Drop)]
pub struct Remain<L: Ledger> {
    /// What its client left, if a hello was accepted.
    pub left: Option<Left<L>>,
    pub clock: ClockPass<L>,
}

/// What all sessions and the server's clock leave.
#[derive(Drop)]
pub struct Remains<L: Ledger> {
    lefts: Vec<Left<L>>,
    clocks: Vec<ClockPass<L>>,
    /// Whether a growth was refused, so that something is missing here.
    is_short: bool,
}

impl<L: Ledger> Remains<L> {
    /// Creates an empty set of what sessions leave.
    pub fn new(alloc: Global) -> Remains<L>
        ensures { (result.lefts.items ≡ []) × (result.clocks.items ≡ []) }
    {
        Remains {
            lefts: Vec::new(alloc),
            clocks: Vec::new(alloc),
            is_short: false,
        }
    }

    /// Returns whether memory was refused for something that was left.
    pub fn is_short(&self) -> bool
        ensures { result ≡ self.now.is_short }
    {
        self.is_short
    }

    /// Adds a clock.
    pub fn add_clock(&mut self, clock: ClockPass<L>)
        ensures clocks { self.new.is_short ≡ false
            → self.new.clocks.items ≡ self.old.clocks.items ++ clock ∷ [] }
        ensures lefts { self.new.lefts ≡ self.old.lefts }
        ensures short { self.new.is_short ≡ false → self.old.is_short ≡ false }
    {
        if self.clocks.push(clock).is_err() {
            self.is_short = true;
        }
    }

    /// Adds what one session leaves.
    pub fn add(&mut self, remain: Remain<L>)
        ensures clocks { self.new.is_short ≡ false
            → self.new.clocks.items ≡ self.old.clocks.items ++ remain.clock ∷ [] }
        ensures lefts { self.new.is_short ≡ false
            → self.new.lefts.items ≡ self.old.lefts.items ++ option_to_list remain.left }
        ensures short { self.new.is_short ≡ false → self.old.is_short ≡ false }
    {
        let Remain { left, clock } = remain;
        if let Some(left) = left {
            if self.lefts.push(left).is_err() {
                self.is_short = true;
            }
        }
        self.add_clock(clock);
    }

    /// Closes the hub, if all of its events are accounted for here.
    pub fn close<C: LegalHistory>(self, hub: Hub<C, L>) -> Result<Closed, ServeFault>
        ensures ok { IfOk result (λ closed. (self.is_short ≡ false)
            × (closed.outer ≡ events_found self.lefts.items self.clocks.items)) }
        ensures err { IfErr result (λ fault. fault ≢ ServeFault.Write) }
    {
        if self.is_short {
            return Err(ServeFault::Memory);
        }
        match hub.close(self.lefts, self.clocks) {
            Ok(closed) => Ok(closed),
            Err(refused) => Err(ServeFault::Close(refused.fault)),
        }
    }
}
