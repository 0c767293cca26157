ghost use Rattle.std.specs.Prelude.{ℕ, ◌≡◌, ◌+◌, ◌≤◌, false, None, OnOk};
ghost use Rattle.pt_types.specs.Times.{is_invalid_deadline};
ghost use Rattle.pt_timers.specs.Deadlines.{deadline_at};

use pt_failing_alloc::{Refusing, refuse_each};
use pt_timers::Timers;
use pt_types::{ClientId, Clock, Deadline, Moment, Refusal};
use std::alloc::Global;
use std::test::Fail;

// A place that is due, with its client.
type Due = (u64, ClientId);

// Returns what can be seen at the end of second 20 of both clocks.
fn seen(timers: &Timers<&Refusing<Global>>) -> Result<([Option<Deadline>; 2], Option<Due>), Fail> {
    let now = Moment::new(20, 999_999_999).ok_or("moment")?;
    let least = [timers.least(Clock::Real), timers.least(Clock::Mono)];
    Ok((least, timers.least_due(Some(now), Some(now))))
}

// Returns one clock for even numbers, and the other for odd ones.
fn clock_of(number: u64) -> Clock {
    if number % 2 == 0 {
        Clock::Real
    } else {
        Clock::Mono
    }
}

// Returns the client of the call at a place.
fn client_at(place: u64) -> ClientId {
    ClientId(u64::MAX - place)
}

// Sets the deadline of the next place, once more if memory was refused. Returns whether memory was
// refused.
fn set_next(
    timers: &mut Timers<&Refusing<Global>>,
    place: u64,
    deadline: Deadline,
) -> Result<bool, Fail>
    requires good { is_invalid_deadline deadline ≡ false }
    requires unset { (p : ℕ) → place ≤ p → deadline_at timers.old p ≡ None }
    ensures { OnOk result ((p : ℕ) → place + 1 ≤ p → deadline_at timers.new p ≡ None) }
{
    let before = seen(timers)?;
    let clock = clock_of(place);
    let Err(refusal) = timers.set(place, client_at(place), clock, deadline) else {
        return Ok(false);
    };
    if refusal != Refusal::Enomem || seen(timers)? != before {
        return Err("a refused deadline changes nothing".into());
    }
    timers
        .set(place, client_at(place), clock, deadline)
        .ok()
        .ok_or("the second time")?;
    Ok(true)
}

// Cancels 20 timers one by one, the soonest first.
fn take_all(timers: &mut Timers<&Refusing<Global>>) -> Result<(), Fail> {
    for left in 0..20 {
        let place = 19 - left;
        let deadline = Deadline::new(left + 1, 0);
        let due = Some((place, client_at(place)));
        if timers.least(clock_of(place)) != deadline || seen(timers)?.1 != due {
            return Err("each is there in its turn".into());
        }
        timers.cancel(place, clock_of(place), (left + 1) * 1_000_000_000);
    }
    if seen(timers)? != ([None, None], None) {
        return Err("there is no other".into());
    }
    Ok(())
}

// Sets 20 timers, each sooner than those before it, and cancels them. Returns whether memory was
// refused.
fn set_20_timers(timers: &mut Timers<&Refusing<Global>>) -> Result<bool, Fail>
    requires { (p : ℕ) → deadline_at timers.old p ≡ None }
{
    let mut met = false;
    for place in 0..20 {
        let deadline = Deadline::new(20 - place, 0).ok_or("deadline")?;
        met = set_next(timers, place, deadline)? || met;
    }
    take_all(timers)?;
    Ok(met)
}

fn set_timers(heap: &Refusing<Global>) -> Result<bool, Fail> {
    let mut timers = Timers::new(heap);
    set_20_timers(&mut timers)
}

// Returns the place that is due at the last nanosecond of these seconds of both clocks.
fn due_in(timers: &Timers, real: u64, mono: u64) -> Option<u64> {
    due_at(
        timers,
        Moment::new(real, 999_999_999),
        Moment::new(mono, 999_999_999),
    )
}

// Returns the place that is due at these moments of both clocks.
fn due_at(timers: &Timers, real: Option<Moment>, mono: Option<Moment>) -> Option<u64> {
    let (place, _) = timers.least_due(real, mono)?;
    Some(place)
}

// Returns true if three timers of one clock are due in the order of their deadlines, then of their
// places.
fn are_due_in_order(alloc: Global, soon: Deadline, late: Deadline) -> bool
    requires soon { is_invalid_deadline soon ≡ false }
    requires late { is_invalid_deadline late ≡ false }
{
    let mut timers = Timers::new(alloc);
    let none = timers.least(Clock::Real);
    let is_set = timers.set(4, client_at(4), Clock::Real, late).is_ok()
        && timers.set(7, client_at(7), Clock::Real, soon).is_ok()
        && timers.set(3, client_at(3), Clock::Real, soon).is_ok();
    let least = timers.least(Clock::Real);
    let early = due_in(&timers, 4, 0);
    let first = due_at(&timers, Moment::new(5, 0), None);
    timers.cancel(3, Clock::Real, soon.nanos());
    timers.cancel(3, Clock::Real, soon.nanos());
    timers.cancel(7, Clock::Real, late.nanos());
    timers.cancel(7, Clock::Mono, soon.nanos());
    let second = due_in(&timers, 5, 0);
    timers.cancel(7, Clock::Real, soon.nanos());
    is_set
        && (none, least) == (None, Some(soon))
        && [early, first, second] == [None, Some(3), Some(7)]
        && (due_in(&timers, 8, 0), timers.least(Clock::Real)) == (None, Some(late))
}

#[test]
fn due_at_their_nanosecond_by_deadline_then_place(rt: HostRuntime) -> Result<(), Fail> {
    let late = Deadline::new(9, 1).ok_or("deadline")?;
    let soon = Deadline::new(5, 0).ok_or("deadline")?;
    assert!(rt; !late.is_bad() && !soon.is_bad());
    assert!(rt; are_due_in_order(rt.alloc(), soon, late));
    Ok(())
}

// Returns true if three timers are due by their own clocks.
fn are_due_by_their_clocks(alloc: Global, soon: Deadline, late: Deadline) -> bool
    requires soon { is_invalid_deadline soon ≡ false }
    requires late { is_invalid_deadline late ≡ false }
{
    let Some(nine) = Moment::new(9, 0) else {
        return false;
    };
    let mut timers = Timers::new(alloc);
    let is_set = timers.set(2, client_at(2), Clock::Real, late).is_ok()
        && timers.set(3, client_at(3), Clock::Mono, soon).is_ok()
        && timers.set(4, client_at(4), Clock::Real, soon).is_ok();
    let none = due_at(&timers, None, None);
    let real = due_at(&timers, Some(nine), None);
    let mono = due_at(&timers, None, Some(nine));
    let early = due_at(&timers, Some(nine), Moment::new(4, 999_999_999));
    let both = due_in(&timers, 5, 5);
    timers.cancel(4, Clock::Real, soon.nanos());
    let (by_real, by_mono) = (timers.least(Clock::Real), timers.least(Clock::Mono));
    let due = due_at(&timers, Some(nine), Moment::new(5, 0));
    timers.cancel(3, Clock::Mono, soon.nanos());
    is_set
        && (none, real, mono) == (None, Some(4), Some(3))
        && (early, both, due) == (Some(4), Some(3), Some(3))
        && (by_real, by_mono) == (Some(late), Some(soon))
        && timers.least(Clock::Mono).is_none()
}

#[test]
fn each_deadline_is_due_by_its_own_clock(rt: HostRuntime) -> Result<(), Fail> {
    let soon = Deadline::new(5, 0).ok_or("deadline")?;
    let late = Deadline::new(9, 0).ok_or("deadline")?;
    assert!(rt; !late.is_bad() && !soon.is_bad());
    assert!(rt; are_due_by_their_clocks(rt.alloc(), soon, late));
    Ok(())
}

#[test]
fn each_growth_is_refused_in_turn(rt: HostRuntime) -> Result<(), Fail> {
    assert!(rt; refuse_each(rt.alloc(), 100, set_timers)?.is_some_and(|growths| growths > 1));
    Ok(())
}
