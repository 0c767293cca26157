ghost use Rattle.std.specs.Prelude.{◌≡◌, ◌&&◌, ◌||◌, not, false, OnOk, OnErr, IfErr};
ghost use Rattle.pt_types.specs.Operations.{same_clock};
ghost use Rattle.pt_timers.specs.declared.key.TimerKey.{TimerKey};
ghost use Rattle.pt_timers.specs.Deadlines.{same_key};

use crate::key::TimerKey;
use crate::order::Order;
use pt_types::{Clock, Refusal};
use std::alloc::Allocator;

/// The deadlines of each clock, in the order in which they are due.
#[derive(Drop)]
pub(crate) struct Orders<A: Allocator + Copy> {
    real: Order<A>,
    mono: Order<A>,
}

impl<A: Allocator + Copy> Orders<A> {
    ghost use Rattle.pt_types.specs.declared.time.Clock.{Clock};
    ghost use Rattle.pt_timers.specs.Orders.{order_of, is_due_at};

    /// Creates orders with no deadline, which allocate nothing.
    pub(crate) fn new(alloc: A) -> Orders<A>
        ensures { (k : Clock) (q : TimerKey) → is_due_at result k q ≡ false }
    {
        Orders {
            real: Order::new(alloc),
            mono: Order::new(alloc),
        }
    }

    /// Returns the deadlines of a clock.
    pub(crate) fn of(&self, clock: Clock) -> &Order<A>
        ensures { result.now ≡ order_of self.now clock }
    {
        match clock {
            Clock::Real => &self.real,
            Clock::Mono => &self.mono,
        }
    }

    /// Adds a deadline. Returns ENOMEM if a growth is refused, and then changes nothing.
    pub(crate) fn insert(&mut self, clock: Clock, key: TimerKey) -> Result<(), Refusal>
        ensures ok { OnOk result ((k : Clock) (q : TimerKey)
            → is_due_at self.new k q
            ≡ ((same_clock clock k && same_key key q) || is_due_at self.old k q)) }
        ensures unchanged { OnErr result ((k : Clock)
            → order_of self.new k ≡ order_of self.old k) }
        ensures err { IfErr result (λ refusal. refusal ≡ Refusal.Enomem) }
    {
        match clock {
            Clock::Real => self.real.insert(key),
            Clock::Mono => self.mono.insert(key),
        }
    }

    /// Removes a deadline, if it is there. It allocates nothing.
    pub(crate) fn remove(&mut self, clock: Clock, key: TimerKey)
        ensures { (k : Clock) (q : TimerKey)
            → is_due_at self.new k q
            ≡ (not (same_clock clock k && same_key key q) && is_due_at self.old k q) }
    {
        match clock {
            Clock::Real => self.real.remove(key),
            Clock::Mono => self.mono.remove(key),
        }
    }
}
