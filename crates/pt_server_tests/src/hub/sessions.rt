//! The sessions of a hub: their numbers, their marks and their clocks.

ghost use Rattle.std.specs.Prelude.{◌≡◌, ◌^◌};

use crate::cores::{Hub, open};
use pt_hub::{ClockPass, SessionId, Tick};
use pt_types::{Clock, Moment};
use std::alloc::Global;
use std::marker::Brand;
use std::sync::ledger::{Blank, Ledger};

// Returns true if a session opens with this number, and with a clock that has submitted nothing.
fn opens<L: Ledger>(hub: &mut Hub<L, Global>, number: u64) -> bool {
    match hub.open_session() {
        Ok((session, clock)) => {
            session == SessionId(number) && clock.moments().is_empty() && !hub.input_ended(session)
        }
        Err(_) => false,
    }
}

// Returns true if marks are those of open sessions alone, and no number is given twice.
fn are_marked<L: Ledger>(hub: &mut Hub<L, Global>) -> bool {
    if !opens(hub, 0) || !opens(hub, 1) {
        return false;
    }
    hub.end_input(SessionId(0));
    hub.end_input(SessionId(2));
    if !hub.input_ended(SessionId(0)) || hub.input_ended(SessionId(1)) {
        return false;
    }
    hub.close_session(SessionId(1));
    hub.close_session(SessionId(u64::MAX));
    hub.input_ended(SessionId(1)) && hub.input_ended(SessionId(u64::MAX)) && opens(hub, 2)
}

// Returns true if a clock has the moments that were submitted by it, in order.
fn are_submitted<L: Ledger>(
    hub: &mut Hub<L, Global>,
    clock: &mut ClockPass<L>,
    ticks: &[Tick],
) -> bool {
    for tick in ticks {
        if hub.moment(clock, tick.clock, tick.moment).is_err() {
            return false;
        }
    }
    clock.moments() == ticks
}

fn are_moments<L: Ledger>(hub: &mut Hub<L, Global>, clock: &mut ClockPass<L>) -> bool {
    let Some(moment) = Moment::new(7, 999_999_999) else {
        return false;
    };
    let mono = Tick {
        clock: Clock::Mono,
        moment,
    };
    let real = Tick {
        clock: Clock::Real,
        moment,
    };
    are_submitted(hub, clock, &[mono, real])
}

fn are_sessions_in<L: Ledger>(alloc: Global, blank: Blank) -> bool
    requires { (blank.name ≡ L.name) × (blank.parts ≡ L.parts) × (blank.parts ≡ 2 ^ 63) }
{
    match open::<L, Global>(alloc, alloc, blank) {
        Some((mut hub, mut clock)) => are_marked(&mut hub) && are_moments(&mut hub, &mut clock),
        None => false,
    }
}

fn are_sessions(alloc: Global) -> bool {
    are_sessions_in::<Brand>(alloc, Blank::new(1 << 63))
}

#[test]
fn sessions(rt: HostRuntime) {
    assert!(rt; are_sessions(rt.alloc()));
}
