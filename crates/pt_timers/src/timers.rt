ghost use Rattle.std.specs.Prelude.{◌≡◌, ◌==◌, ◌<◌, false};
ghost use Rattle.pt_types.specs.Times.{deadline_nanos, is_invalid_deadline};
ghost use Rattle.pt_timers.specs.Deadlines.{max_nanos};

use crate::key::{TimerKey, sooner};
use crate::orders::Orders;
use pt_types::{ClientId, Clock, Deadline, Moment, Refusal};
use std::alloc::{Allocator, Global};
use std::marker::Model;

// The number of nanoseconds in a second. A time has fewer beside its seconds.
const NANOSECONDS_IN_SECOND: u64 = 1_000_000_000;

// Returns all nanoseconds of a deadline that is a time.
fn nanos_of(deadline: Deadline) -> u64
    requires { is_invalid_deadline deadline ≡ false }
    ensures nanos { result ≡ deadline_nanos deadline }
    ensures limit { result < max_nanos }
{
    deadline.sec() * NANOSECONDS_IN_SECOND + deadline.nsec()
}

// Returns the deadline of these nanoseconds, as a time.
fn deadline_of(nanos: u64) -> Deadline
    requires { nanos < max_nanos }
    ensures nanos { deadline_nanos result ≡ nanos }
    ensures time { is_invalid_deadline result ≡ false }
{
    let sec = nanos / NANOSECONDS_IN_SECOND;
    Deadline::new(sec, nanos % NANOSECONDS_IN_SECOND).unwrap()
}

/// Deadlines by the places of their calls. Only `set` allocates. Over many operations, each takes
/// time that grows with the logarithm of the number of deadlines that are set.
pub struct Timers<A: Allocator + Copy = Global> {
    orders: Orders<A>,
}

impl<A: Allocator + Copy> Model for Timers<A> {
    ghost use Rattle.std.specs.Prelude.{List, ℕ};
    ghost use Rattle.pt_types.specs.declared.time.Clock.{Clock};
    ghost use Rattle.pt_timers.specs.Deadlines.{AreTimers};
    ghost use Rattle.pt_timers.specs.Orders.{is_due_at, timer_list};

    ghost Value = { List (ℕ × (Clock × ℕ)) };

    ghost view = { λ t. timer_list t.orders };

    ghost invariant = { λ t. AreTimers (timer_list t.orders) (is_due_at t.orders) };
}

// Not derived, so that code that drops timers need not prove anything about their parts.
impl<A: Allocator + Copy> Drop for Timers<A> {
    fn drop(self) {
        let Timers { orders: _ } = self;
    }
}

impl<A: Allocator + Copy> Timers<A> {
    ghost use Rattle.std.specs.Prelude.{ℕ, false, OnOk, OnErr, IfErr, if◌then◌else◌, Some, None};
    ghost use Rattle.std.specs.Prelude.{◌&&◌, option_map, IsTrue, ◌↔◌};
    ghost use Rattle.pt_timers.specs.Deadlines.{deadline_at, is_set_to, moments, IsFirstDue};
    ghost use Rattle.pt_timers.specs.Deadlines.{IsLeast, IsLeastDue};

    /// Creates a map with no deadline, which allocates nothing.
    pub fn new(alloc: A) -> Self
        ensures { (p : ℕ) → deadline_at result p ≡ None }
    {
        Timers {
            orders: Orders::new(alloc),
        }
    }

    /// Sets the deadline of a place that has none. Returns `Enomem` if a growth is refused.
    /// `least_due` returns the client together with the place.
    pub fn set(
        &mut self,
        place: u64,
        client: ClientId,
        clock: Clock,
        deadline: Deadline,
    ) -> Result<(), Refusal>
        requires good { is_invalid_deadline deadline ≡ false }
        requires unset { deadline_at self.old place ≡ None }
        ensures ok { OnOk result ((p : ℕ)
            → deadline_at self.new p
            ≡ (if place == p then Some (clock, deadline_nanos deadline)
            else deadline_at self.old p)) }

        // A refusal changes nothing.
        ensures unchanged { OnErr result (self.new ≡ self.old) }
        ensures err { IfErr result (λ refusal. refusal ≡ Refusal.Enomem) }
    {
        let key = TimerKey {
            nanos: nanos_of(deadline),
            place,
            client,
        };
        self.orders.insert(clock, key)
    }

    /// Removes the deadline of a place, if it is this one. It allocates nothing.
    pub fn cancel(&mut self, place: u64, clock: Clock, nanos: u64)
        ensures { (p : ℕ)
            → deadline_at self.new p
            ≡ (if (place == p) && is_set_to clock nanos (deadline_at self.old p)
            then None
            else deadline_at self.old p) }
    {
        let key = TimerKey {
            nanos,
            place,
            client: ClientId(0),
        };
        self.orders.remove(clock, key);
    }

    // Returns the first of a clock's deadlines, if the clock has reached it.
    fn first_due(&self, clock: Clock, now: Option<Moment>) -> Option<TimerKey>
        ensures { IsFirstDue self.now clock now result }
    {
        let key = self.orders.of(clock).first()?;
        if key.nanos <= now?.nanos() {
            Some(key)
        } else {
            None
        }
    }

    // Returns whether no deadline of a clock is set.
    #[inline(always)]
    fn has_none(&self, clock: Clock) -> bool
        ensures { IsTrue result
            ↔ ((q m : ℕ) → deadline_at self.now q ≡ Some (clock, m) → ⊥) }
    {
        match self.orders.of(clock).first() {
            Some(_) => false,
            None => true,
        }
    }

    /// Returns the place that is due, with the client that was set with it. Among the deadlines at
    /// or before the moment of their own clock, it has the least, whichever the clock. Among equal
    /// ones, it is the least place.  [XSH pthread_mutex_clocklock; the order is profile]
    pub fn least_due(&self, real: Option<Moment>, mono: Option<Moment>) -> Option<(u64, ClientId)>
        ensures { IsLeastDue self.now (moments real mono) (option_map (λ due. due.0) result) }
    {
        // Tested first, since most often no deadline is set.
        if self.has_none(Clock::Real) && self.has_none(Clock::Mono) {
            return None;
        }
        let by_real = self.first_due(Clock::Real, real);
        let due = match self.first_due(Clock::Mono, mono) {
            Some(key) => sooner(by_real, key),
            None => by_real?,
        };
        Some((due.place, due.client))
    }

    /// Returns the least deadline of a clock.
    pub fn least(&self, clock: Clock) -> Option<Deadline>
        ensures { IsLeast self.now clock result }
    {
        let key = self.orders.of(clock).first()?;
        Some(deadline_of(key.nanos))
    }
}
