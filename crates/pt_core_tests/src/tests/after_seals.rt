ghost use Rattle.std.specs.Prelude.{◌≤◌, ◌<◌};

use super::sealed::seals;
use super::*;
use pt_types::Outcome::{Done, Ebusy, Etimedout};

// Read locks and write locks that a dead client held are still held after a seal.
#[test]
fn row_39_of_rwlocks(rt: HostRuntime) -> Result<(), Fail> {
    lend(
        Core::new(rt.alloc())?,
        |core| play_row_39_of_rwlocks(&rt, core),
    )
}

fn play_row_39_of_rwlocks(rt: &impl Abort, core: &mut Core) -> Result<(), Fail> {
    let r = name(b"r")?;
    let q = name(b"q")?;
    join_all(core, &[10, 10])?;
    let before = [
        when(ask(0, Call::RwlockInit(r.copied())), &[(0, Done)]),
        when(ask(0, Call::RwlockInit(q.copied())), &[(0, Done)]),
        when(ask(0, Call::Wrlock(r.copied())), &[(0, Done)]),
        when(ask(0, Call::Rdlock(q.copied())), &[(0, Done)]),
        when(die(0), &[]),
    ];
    plays(rt, core, &before)?;
    seals(rt, core)?;
    let after = [
        when(ask(1, Call::Tryrdlock(r)), &[(1, Ebusy)]),
        when(ask(1, Call::Trywrlock(q)), &[(1, Ebusy)]),
    ];
    plays(rt, core, &after)
}

// Returns a reading of a clock.
fn reading(clock: Clock, sec: u64, nsec: u64) -> Event
    requires sec { sec ≤ 9999999999 }
    requires nsec { nsec < 1000000000 }
{
    Event::Moment(clock, Moment::new(sec, nsec).unwrap())
}

// Returns a call for a mutex with a deadline by a clock.
fn until(m: &Name, clock: Clock, sec: u64, nsec: u64) -> Call
    requires sec { sec ≤ 9999999999 }
    requires nsec { nsec ≤ 9999999999 }
{
    let due = Deadline::new(sec, nsec).unwrap();
    match clock {
        Clock::Real => Call::Timedlock(m.copied(), due),
        Clock::Mono => Call::Clocklock(m.copied(), clock, due),
    }
}

// After a seal, both clocks go on from what they showed before it.
#[test]
fn row_41(rt: HostRuntime) -> Result<(), Fail> {
    lend(Core::new(rt.alloc())?, |core| play_row_41(&rt, core))
}

fn play_row_41(rt: &impl Abort, core: &mut Core) -> Result<(), Fail> {
    let m = name(b"m")?;
    join_all(core, &[10, 10, 10])?;
    let init = Call::MutexInit(m.copied(), MutexKind::Normal, false);
    let before = [
        when(ask(0, init), &[(0, Done)]),
        when(ask(0, Call::Lock(m.copied())), &[(0, Done)]),
        when(reading(Clock::Real, 9, 0), &[]),
        when(reading(Clock::Mono, 5, 0), &[]),
        when(ask(2, until(&m, Clock::Mono, 6, 0)), &[]),
    ];
    plays(rt, core, &before)?;
    seals(rt, core)?;
    let late = [(1, Etimedout)];
    let after = [
        when(ask(1, until(&m, Clock::Real, 9, 0)), &late),
        when(ask(1, until(&m, Clock::Mono, 5, 0)), &late),
        when(reading(Clock::Real, 3, 0), &[]),
        when(ask(1, until(&m, Clock::Real, 8, 999_999_999)), &late),
        when(ask(1, until(&m, Clock::Mono, 5, 1)), &[]),
        when(reading(Clock::Real, 20, 0), &[]),
        when(
            reading(Clock::Mono, 6, 0),
            &[(1, Etimedout), (2, Etimedout)],
        ),
    ];
    plays(rt, core, &after)
}
