//! The shares of the ledger that a client, a dead client and a clock hold, and what they did.

use crate::discarded::Discarded;
use pt_cells::Seen;
use pt_types::{Call, ClientId, Clock, Moment, Outcome, Priority};
use std::alloc::{Allocator, Global};
use std::marker::Model;
use std::sync::ledger::{Ledger, Share};

/// A call that a client made: its place, its answer once it was taken, and its entry with its cell,
/// unless the cell or one more owner of it was refused.
#[derive(Drop)]
pub struct Receipt {
    pub place: u64,
    pub call: Call,
    pub answer: Option<Outcome>,
    pub seen: Option<Seen>,
}

/// A call that was sent: its place, and whether it is answered already.
#[derive(Clone, Copy, PartialEq, Eq)]
pub struct Sent {
    pub place: u64,
    pub ready: bool,
}

/// The answer to the call at a place.
#[derive(Clone, Copy, PartialEq, Eq)]
pub struct Answer {
    pub place: u64,
    pub outcome: Outcome,
}

/// A reading of a clock.
#[derive(Clone, Copy, PartialEq, Eq)]
pub struct Tick {
    pub clock: Clock,
    pub moment: Moment,
}

/// A living client. Contracts see its number, its priority, its receipts, and those before them
/// that were discarded.
#[derive(Drop)]
pub struct Pass<L: Ledger, A: Allocator + Copy = Global> {
    pub(crate) client: ClientId,
    pub(crate) priority: Priority,
    pub(crate) seen: Option<Seen>,
    pub(crate) discarded: Discarded<Receipt>,
    pub(crate) receipts: Vec<Receipt, A>,
    pub(crate) share: Share<L>,
}

impl<L: Ledger, A: Allocator + Copy> Model for Pass<L, A> {
    ghost use Rattle.std.specs.Prelude.{◌≡◌, ◌+◌, length, vec_len};
    ghost use Rattle.pt_hub.specs.Passes.{PassView, AreReceipts, IsJoinOf};

    ghost Value = { PassView };

    ghost view = { λ p. record {
      client = p.client;
      priority = p.priority;
      seen = p.seen;
      discarded = p.discarded;
      receipts = p.receipts.items;
    } };

    ghost invariant = { λ p. (p.share.parts ≡ 1)
        × (p.share.amount ≡ 1 + length p.discarded + vec_len p.receipts)
        × AreReceipts p.client p.receipts.items × IsJoinOf p.client p.priority p.seen };
}

/// What a client leaves. Contracts also see the place of its Death.
pub struct Left<L: Ledger, A: Allocator + Copy = Global> {
    pub(crate) client: ClientId,
    pub(crate) priority: Priority,
    pub(crate) joined: Option<Seen>,
    pub(crate) discarded: Discarded<Receipt>,
    pub(crate) receipts: Vec<Receipt, A>,
    pub(crate) died_at: u64,
    pub(crate) seen: Option<Seen>,
    pub(crate) deaths: u64,
    pub(crate) share: Share<L>,
}

impl<L: Ledger, A: Allocator + Copy> Model for Left<L, A> {
    ghost use Rattle.std.specs.Prelude.{◌≡◌, ◌+◌, ◌≤◌, length, vec_len};
    ghost use Rattle.pt_hub.specs.Passes.{LeftView, AreReceipts, IsJoinOf, IsDeathOf};

    ghost Value = { LeftView };

    ghost view = { λ p. record {
      client = p.client;
      priority = p.priority;
      joined = p.joined;
      discarded = p.discarded;
      receipts = p.receipts.items;
      died_at = p.died_at;
      seen = p.seen;
      deaths = p.deaths;
    } };

    ghost invariant = { λ p. (p.share.parts ≡ 1) × (p.deaths ≤ 1)
        × (p.share.amount ≡ 1 + p.deaths + length p.discarded + vec_len p.receipts)
        × AreReceipts p.client p.receipts.items × IsJoinOf p.client p.priority p.joined
        × IsDeathOf p.client p.receipts.items p.died_at p.seen };
}

// Not derived, so that code that drops what clients leave proves nothing of its parts.
impl<L: Ledger, A: Allocator + Copy> Drop for Left<L, A> {
    fn drop(self) {
        let Left {
            client: _,
            priority: _,
            joined: _,
            discarded: _,
            receipts: _,
            died_at: _,
            seen: _,
            deaths: _,
            share: _,
        } = self;
    }
}

/// The right to submit moments. Contracts see the moments that were submitted, in order, of which
/// the first may be discarded.
pub struct ClockPass<L: Ledger, A: Allocator + Copy = Global> {
    pub(crate) discarded: Discarded<Tick>,
    pub(crate) moments: Vec<Tick, A>,
    pub(crate) share: Share<L>,
}

impl<L: Ledger, A: Allocator + Copy> Model for ClockPass<L, A> {
    ghost use Rattle.std.specs.Prelude.{◌≡◌, ◌+◌, length, vec_len};
    ghost use Rattle.pt_hub.specs.Passes.{ClockView};

    ghost Value = { ClockView };

    ghost view = { λ p. record { discarded = p.discarded; moments = p.moments.items } };

    ghost invariant = { λ p. (p.share.parts ≡ 1)
        × (p.share.amount ≡ length p.discarded + vec_len p.moments) };
}

// Not derived, so that code that drops this right proves nothing of its parts.
impl<L: Ledger, A: Allocator + Copy> Drop for ClockPass<L, A> {
    fn drop(self) {
        let ClockPass {
            discarded: _,
            moments: _,
            share: _,
        } = self;
    }
}

impl<L: Ledger, A: Allocator + Copy> Pass<L, A> {
    ghost use Rattle.std.specs.Prelude.{◌≡◌, ◌++◌, []};

    /// Discards the receipts, so that they take no memory. The answer to a call that waits can't be
    /// taken any more. A hub doesn't close on what the client leaves.
    pub fn discard_receipts(&mut self)
        ensures { self.new ≡ record self.old {
          discarded = self.old.discarded ++ self.old.receipts;
          receipts = [];
        } }
    {
        self.discarded.add(self.receipts.as_slice());
        self.receipts.clear();
    }

    /// Returns the client's number.
    pub fn client(&self) -> ClientId
        ensures { result ≡ self.now.client }
    {
        self.client
    }

    /// Returns the client's priority.
    pub fn priority(&self) -> Priority
        ensures { result ≡ self.now.priority }
    {
        self.priority
    }

    /// Returns the client's receipts that weren't discarded, in order.
    pub fn receipts(&self) -> &[Receipt]
        ensures { result.now ≡ self.now.receipts }
    {
        self.receipts.as_slice()
    }

    /// Returns the entry of the client's Join with its cell, unless the cell or one more owner of
    /// it was refused.
    pub fn seen(&self) -> &Option<Seen>
        ensures { result.now ≡ self.now.seen }
    {
        &self.seen
    }
}

impl<L: Ledger, A: Allocator + Copy> Left<L, A> {
    ghost use Rattle.std.specs.Prelude.{◌≡◌};
    ghost use Rattle.pt_hub.specs.Passes.{AreReceipts, IsJoinOf, IsDeathOf};

    /// Proves that the client has seen the entries of its Join, its calls and its Death, if
    /// anything, and that their places rise.
    pub(crate) fn law_own(&self)
        ensures receipts { AreReceipts self.now.client self.now.receipts }
        ensures join { IsJoinOf self.now.client self.now.priority self.now.joined }
        ensures death { IsDeathOf self.now.client self.now.receipts self.now.died_at
            self.now.seen }
    {
        let _ = &self.client;
    }

    /// Returns the client's number.
    pub fn client(&self) -> ClientId
        ensures { result ≡ self.now.client }
    {
        self.client
    }

    /// Returns the client's priority.
    pub fn priority(&self) -> Priority
        ensures { result ≡ self.now.priority }
    {
        self.priority
    }

    /// Returns the client's receipts that weren't discarded, in order.
    pub fn receipts(&self) -> &[Receipt]
        ensures { result.now ≡ self.now.receipts }
    {
        self.receipts.as_slice()
    }

    /// Returns the entry of the client's Join with its cell, unless the cell or one more owner of
    /// it was refused.
    pub fn joined(&self) -> &Option<Seen>
        ensures { result.now ≡ self.now.joined }
    {
        &self.joined
    }

    /// Returns the entry of the client's Death with its cell, unless the cell or one more owner of
    /// it was refused.
    pub fn seen(&self) -> &Option<Seen>
        ensures { result.now ≡ self.now.seen }
    {
        &self.seen
    }

    /// Returns the place of the client's Death.
    pub fn died_at(&self) -> u64
        ensures { result ≡ self.now.died_at }
    {
        self.died_at
    }
}

impl<L: Ledger, A: Allocator + Copy> ClockPass<L, A> {
    ghost use Rattle.std.specs.Prelude.{◌≡◌, ◌++◌, []};
    ghost use Rattle.pt_hub.specs.Passes.{new_clock};

    // Creates the right of the holder of this share, which has counted nothing.
    pub(crate) fn new(share: Share<L>, alloc: A) -> ClockPass<L, A>
        requires part { share.parts ≡ 1 }
        requires amount { share.amount ≡ 0 }
        ensures { result ≡ new_clock }
    {
        ClockPass {
            discarded: Discarded::new(),
            moments: Vec::new(alloc),
            share,
        }
    }

    /// Discards the moments, so that they take no memory. A hub doesn't close on this clock.
    pub fn discard_moments(&mut self)
        ensures { self.new ≡ record {
          discarded = self.old.discarded ++ self.old.moments;
          moments = [];
        } }
    {
        self.discarded.add(self.moments.as_slice());
        self.moments.clear();
    }

    /// Returns the moments that were submitted and not discarded, in order.
    pub fn moments(&self) -> &[Tick]
        ensures { result.now ≡ self.now.moments }
    {
        self.moments.as_slice()
    }
}
