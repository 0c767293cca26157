//! Tests of a hub with each growth of memory refused in turn.

ghost use Rattle.std.specs.Prelude.{◌≡◌, ◌^◌};

use super::{Word, call};
use crate::cores::{Hub, open};
use pt_core::Core;
use pt_failing_alloc::{Refusing, refuse_each};
use pt_hub::{Answer, ClockPass, CloseFault, CloseRefused, Closed, Left, Pass, Sent};
use pt_types::{Clock, Moment, Outcome, Priority, Refusal};
use std::alloc::Global;
use std::marker::Brand;
use std::sync::ledger::{Blank, Ledger};

// Lets a client join, at the first or the second attempt. Returns whether a growth was refused.
fn joins<'a, L: Ledger>(
    hub: &mut Hub<L, &'a Refusing<Global>>,
) -> Result<(Pass<L, &'a Refusing<Global>>, bool), &'static str> {
    let priority = Priority::new(10).ok_or("a priority")?;
    match hub.join(priority) {
        Ok(pass) => return Ok((pass, false)),
        Err(Refusal::Enomem) => {}
        Err(_) => return Err("a join is refused"),
    }
    match hub.join(priority) {
        Ok(pass) => Ok((pass, true)),
        Err(_) => Err("a join is refused twice"),
    }
}

// Makes a call that comes out in this way, at the first or the second attempt. Returns whether a
// growth was refused.
fn sends<'a, L: Ledger>(
    hub: &mut Hub<L, &'a Refusing<Global>>,
    pass: &mut Pass<L, &'a Refusing<Global>>,
    word: Word,
    expected: Result<Sent, Refusal>,
) -> Result<bool, &'static str> {
    let first = hub.call(pass, call(word).ok_or("a call")?);
    let is_refused = first == Err(Refusal::Enomem);
    if !is_refused && first != expected {
        return Err("a call comes out otherwise");
    }
    if is_refused && hub.call(pass, call(word).ok_or("a call")?) != expected {
        return Err("a call is refused twice");
    }
    Ok(is_refused)
}

// Makes a call that is answered at once at this place.
fn calls<'a, L: Ledger>(
    hub: &mut Hub<L, &'a Refusing<Global>>,
    pass: &mut Pass<L, &'a Refusing<Global>>,
    word: Word,
    place: u64,
) -> Result<bool, &'static str> {
    sends(hub, pass, word, Ok(Sent { place, ready: true }))
}

// Takes the answer 0 to the call at this place.
fn takes<'a, L: Ledger>(
    hub: &mut Hub<L, &'a Refusing<Global>>,
    pass: &mut Pass<L, &'a Refusing<Global>>,
    place: u64,
) -> Result<(), &'static str> {
    let outcome = Outcome::Done;
    if hub.take(pass) == Some(Answer { place, outcome }) {
        Ok(())
    } else {
        Err("another answer is taken")
    }
}

// Seals the history at this place, at the first or the second attempt. Returns whether a growth was
// refused.
fn seals<'a, L: Ledger>(
    hub: &mut Hub<L, &'a Refusing<Global>>,
    at: u64,
) -> Result<bool, &'static str> {
    let first = hub.seal();
    let is_refused = first == Err(Refusal::Enomem);
    if !is_refused && first != Ok(at) {
        return Err("a seal is elsewhere");
    }
    if is_refused && hub.seal() != Ok(at) {
        return Err("a seal is refused twice");
    }
    Ok(is_refused)
}

// Opens a session, at the first or the second attempt. Returns its clock, and whether a growth was
// refused.
fn opens<'a, L: Ledger>(
    hub: &mut Hub<L, &'a Refusing<Global>>,
) -> Result<(ClockPass<L, &'a Refusing<Global>>, bool), &'static str> {
    match hub.open_session() {
        Ok((_, clock)) => return Ok((clock, false)),
        Err(Refusal::Enomem) => {}
        Err(_) => return Err("a session is refused"),
    }
    match hub.open_session() {
        Ok((_, clock)) => Ok((clock, true)),
        Err(_) => Err("a session is refused twice"),
    }
}

// Submits a moment, at the first or the second attempt, after which the next place is this one.
// Returns whether a growth was refused.
fn ticks<'a, L: Ledger>(
    hub: &mut Hub<L, &'a Refusing<Global>>,
    clock: &mut ClockPass<L, &'a Refusing<Global>>,
    next: u64,
) -> Result<bool, &'static str> {
    let moment = Moment::new(5, 0).ok_or("a moment")?;
    let first = hub.moment(clock, Clock::Real, moment);
    let is_refused = first == Err(Refusal::Enomem);
    let last = if is_refused {
        hub.moment(clock, Clock::Real, moment)
    } else {
        first
    };
    if last == Ok(()) && hub.len() == next && clock.moments().len() == 1 {
        Ok(is_refused)
    } else {
        Err("a moment is refused twice, or written elsewhere")
    }
}

// Lets a client make a mutex and lock it, and the clock go on. The history is sealed before the
// lock, and again before its answer is taken. Returns whether a growth was refused.
fn plays<'a, L: Ledger>(hub: &mut Hub<L, &'a Refusing<Global>>) -> Result<bool, &'static str> {
    let (mut clock, began) = opens(hub)?;
    let (mut pass, joined) = joins(hub)?;
    let created = calls(hub, &mut pass, Word::MutexInit, 1)?;
    takes(hub, &mut pass, 1)?;
    let sealed = seals(hub, 2)?;
    let locked = calls(hub, &mut pass, Word::Lock, 2)?;
    let resealed = seals(hub, 4)?;
    takes(hub, &mut pass, 2)?;
    let ticked = ticks(hub, &mut clock, 5)?;
    Ok(began || joined || created || sealed || locked || resealed || ticked)
}

// Row 24, from the first call to the last answer. Returns whether a growth was refused.
fn plays_row_24<'a, L: Ledger>(
    hub: &mut Hub<L, &'a Refusing<Global>>,
    a: &mut Pass<L, &'a Refusing<Global>>,
    b: &mut Pass<L, &'a Refusing<Global>>,
) -> Result<bool, &'static str> {
    let created = calls(hub, a, Word::MutexInit, 2)?;
    takes(hub, a, 2)?;
    let locked = calls(hub, a, Word::Lock, 3)?;
    let blocked = sends(hub, a, Word::Unlock, Err(Refusal::Blocked))?;
    takes(hub, a, 3)?;
    let waits = Ok(Sent {
        place: 5,
        ready: false,
    });
    let waited = sends(hub, b, Word::Lock, waits)?;
    let none = hub.take(a).is_none() && hub.take(b).is_none();
    let unlocked = calls(hub, a, Word::Unlock, 6)?;
    takes(hub, b, 5)?;
    takes(hub, a, 6)?;
    if blocked || !none {
        return Err("a call that is BLOCKED meets want of memory, or an answer is taken early");
    }
    Ok(created || locked || waited || unlocked)
}

type Refused<'a, L> = CloseRefused<Core<&'a Refusing<Global>>, L, &'a Refusing<Global>>;

// Closes once more with what the last client left. Returns true if the first close missed its
// events, and the second succeeds.
fn recloses<'a, L: Ledger>(refused: Refused<'a, L>, last: Left<L, &'a Refusing<Global>>) -> bool {
    let CloseRefused {
        fault,
        hub,
        left: mut lefts,
        clock: clocks,
    } = refused;
    let missing = CloseFault::Missing {
        expected: 8,
        found: 5,
    };
    let closed = Closed {
        outer: 8,
        entries: 10,
    };
    let is_added = lefts.push(last).is_ok();
    match hub.close(lefts, clocks) {
        Ok(found) => found == closed && fault == missing && is_added,
        Err(_) => false,
    }
}

// Lets both clients die and closes the hub, first without what the second left. The lists have room
// for all of it.
fn ends<'a, L: Ledger>(
    mut hub: Hub<L, &'a Refusing<Global>>,
    clock: ClockPass<L, &'a Refusing<Global>>,
    passes: (Pass<L, &'a Refusing<Global>>, Pass<L, &'a Refusing<Global>>),
    mut lefts: Vec<Left<L, &'a Refusing<Global>>, &'a Refusing<Global>>,
    mut clocks: Vec<ClockPass<L, &'a Refusing<Global>>, &'a Refusing<Global>>,
) -> bool {
    let (a, b) = passes;
    let left = hub.die(a);
    let last = hub.die(b);
    let are_dead = left.died_at() == 8 && last.died_at() == 9;
    let are_added = lefts.push(left).is_ok() && clocks.push(clock).is_ok();
    match hub.close(lefts, clocks) {
        Ok(_) => false,
        Err(refused) => recloses(refused, last) && are_dead && are_added,
    }
}

// Returns a list with room for two, at the first or the second attempt.
fn listed<'a, T: Drop>(heap: &'a Refusing<Global>) -> Option<(Vec<T, &'a Refusing<Global>>, bool)> {
    if let Ok(list) = Vec::with_capacity(heap, 2) {
        return Some((list, false));
    }
    match Vec::with_capacity(heap, 2) {
        Ok(list) => Some((list, true)),
        Err(_) => None,
    }
}

// Plays row 24 on a hub of its own, to the close. Returns whether a growth was refused.
fn row_24_over<'a, L: Ledger>(
    heap: &'a Refusing<Global>,
    mut hub: Hub<L, &'a Refusing<Global>>,
    clock: ClockPass<L, &'a Refusing<Global>>,
) -> Result<bool, &'static str> {
    let (mut a, first) = joins(&mut hub)?;
    let (mut b, second) = joins(&mut hub)?;
    let met = plays_row_24(&mut hub, &mut a, &mut b)?;
    let Some((lefts, third)) = listed(heap) else {
        return Err("no list");
    };
    let Some((clocks, fourth)) = listed(heap) else {
        return Err("no list");
    };
    if ends(hub, clock, (a, b), lefts, clocks) {
        Ok(met || first || second || third || fourth)
    } else {
        Err("the hub does not close")
    }
}

fn row_24_in<L: Ledger>(heap: &Refusing<Global>, blank: Blank) -> Result<bool, &'static str>
    requires { (blank.name ≡ L.name) × (blank.parts ≡ L.parts) × (blank.parts ≡ 2 ^ 63) }
{
    match open::<L, &Refusing<Global>>(heap, *heap.inner(), blank) {
        Some((hub, clock)) => row_24_over(heap, hub, clock),
        None => Ok(true),
    }
}

fn row_24_by(heap: &Refusing<Global>) -> Result<bool, &'static str> {
    row_24_in::<Brand>(heap, Blank::new(1 << 63))
}

fn plays_in<L: Ledger>(heap: &Refusing<Global>, blank: Blank) -> Result<bool, &'static str>
    requires { (blank.name ≡ L.name) × (blank.parts ≡ L.parts) × (blank.parts ≡ 2 ^ 63) }
{
    match open::<L, &Refusing<Global>>(heap, *heap.inner(), blank) {
        Some((mut hub, _)) => plays(&mut hub),
        None => Ok(true),
    }
}

fn plays_over(heap: &Refusing<Global>) -> Result<bool, &'static str> {
    plays_in::<Brand>(heap, Blank::new(1 << 63))
}

#[test]
fn row_24_with_each_growth_refused(rt: HostRuntime) {
    match refuse_each(rt.alloc(), 100, row_24_by) {
        Ok(refused) => assert!(rt; refused > Some(20)),
        Err(_) => assert!(rt; false),
    }
}

#[test]
fn each_growth_is_refused_in_turn(rt: HostRuntime) {
    match refuse_each(rt.alloc(), 100, plays_over) {
        Ok(refused) => assert!(rt; refused.is_some()),
        Err(_) => assert!(rt; false),
    }
}
