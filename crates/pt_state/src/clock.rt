//! The two clocks, and the moments that advance them.

ghost use Rattle.std.specs.Prelude.{None, ◌≡◌};
ghost use Rattle.pt_model.specs.Clients.{clock_by, later_reading};
ghost use Rattle.pt_state.specs.Clocks.{clock_reading};
ghost use Rattle.pt_types.specs.declared.time.Clock.{Clock as OneClock};
ghost use Rattle.pt_model.specs.declared.entry.Entry.TheVariants as entry;
ghost use Rattle.pt_state.specs.Adds.{Adds, HasRoomFor};

use crate::state::State;
use pt_model::Entry;
use pt_types::{Clock, Moment};
use std::alloc::Allocator;

/// The greatest moment of each clock so far, or None before its first.
#[derive(Clone, Copy)]
pub struct Clocks {
    pub real: Option<Moment>,
    pub mono: Option<Moment>,
}

/// Returns the later of a clock's reading and a moment. Returns the moment if the clock has no
/// reading.
fn later(clock: Option<Moment>, moment: Moment) -> Moment
    ensures { result ≡ later_reading clock moment }
{
    match clock {
        Some(now) if moment.nanos() < now.nanos() => now,
        _ => moment,
    }
}

impl Clocks {
    /// Creates both clocks, without a moment.
    pub fn new() -> Clocks
        ensures { result ≡ record { real = None; mono = None } }
    {
        Clocks {
            real: None,
            mono: None,
        }
    }

    /// Returns the reading of a clock, or None before its first moment.
    pub fn reading(&self, clock: Clock) -> Option<Moment>
        ensures { result ≡ clock_reading self.now clock }
    {
        match clock {
            Clock::Real => self.real,
            Clock::Mono => self.mono,
        }
    }

    /// Advances a clock to a moment, unless the clock shows a later one already. The other clock
    /// stays as it is.
    pub fn advance(&mut self, clock: Clock, moment: Moment)
        ensures { (which : OneClock) → clock_reading self.new which
            ≡ clock_by (entry.Moment clock moment) (clock_reading self.old which) which }
    {
        match clock {
            Clock::Real => self.real = Some(later(self.real, moment)),
            Clock::Mono => self.mono = Some(later(self.mono, moment)),
        }
    }
}

impl<A: Allocator + Copy> State<A> {
    /// Pushes a moment, and advances its clock by it.
    pub fn push_moment(&mut self, clock: Clock, moment: Moment)
        requires { HasRoomFor self.old (entry.Moment clock moment) }
        ensures { Adds self.old (entry.Moment clock moment) self.new }
    {
        self.clocks.advance(clock, moment);
        self.stored.push(Entry::Moment(clock, moment));
    }
}
