//! Plays a row on a hub of its own until all have left.

ghost use Rattle.std.specs.Prelude.{◌≡◌, ◌^◌};

use super::{Word, call};
use crate::cores::{CloseRefused, Hub, open};
use pt_hub::{Answer, ClockPass, CloseFault, Closed, Left, Pass, Receipt, Sent};
use pt_types::{ClientId, Clock, Deadline, Moment, Outcome, Priority, Refusal};
use std::alloc::Global;
use std::marker::Brand;
use std::sync::ledger::{Blank, Ledger};

// A step of a row: what is done with a hub, and what must come of it. Clients are numbered in the
// order in which they join.
#[derive(Clone, Copy)]
pub(super) enum Step {
    // A client's call that is answered at once. Its entry has this place.
    Calls(usize, Word, u64),
    // A client's call that has to wait. Its entry has this place.
    Waits(usize, Word, u64),
    Refused(usize, Word, Refusal),
    // A client takes an answer: the place of its call, and the outcome.
    Takes(usize, u64, Outcome),
    TakesNothing(usize),
    // A reading of the clock, in seconds and nanoseconds.
    Moment(u64, u64),
    // The moment of one second, handed in this many times.
    Moments(u64),
    // The least deadline, in seconds.
    LeastDeadline(u64),
    // The client whose call is the first that the entries from a place on answer, or none if a seal
    // dropped them.
    Answers(u64, Option<u64>),
    // A seal of the history, which goes on at this place.
    Seals(u64),
}

// What a client must leave: its calls with the answers that it took, and the place of its Death.
pub(super) struct Leaving<'a> {
    pub receipts: &'a [(u64, Word, Outcome)],
    pub died_at: u64,
}

// A row: each client joins with priority 10, the steps follow, and each client dies, in order. A
// close without what the last client left finds `found_without_last` events. With all that was left
// the hub closes.
pub(super) struct Row<'a> {
    pub steps: &'a [Step],
    pub leaving: &'a [Leaving<'a>],
    pub found_without_last: u128,
    pub closed: Closed,
}

fn joins<L: Ledger>(hub: &mut Hub<L, Global>, passes: &mut Vec<Pass<L>>) -> bool {
    let Some(priority) = Priority::new(10) else {
        return false;
    };
    match hub.join(priority) {
        Ok(pass) => {
            pass.client() == ClientId(passes.len() as u64)
                && pass.priority() == priority
                && pass.receipts().is_empty()
                && passes.push(pass).is_ok()
        }
        Err(_) => false,
    }
}

fn all_join<L: Ledger>(
    hub: &mut Hub<L, Global>,
    passes: &mut Vec<Pass<L>>,
    clients: usize,
) -> bool {
    for _ in 0..clients {
        if !joins(hub, passes) {
            return false;
        }
    }
    true
}

fn sends<L: Ledger>(
    hub: &mut Hub<L, Global>,
    pass: &mut Pass<L>,
    word: Word,
) -> Result<Sent, Refusal> {
    match call(word) {
        Some(call) => hub.call(pass, call),
        None => Err(Refusal::Syntax),
    }
}

fn advances<L: Ledger>(
    hub: &mut Hub<L, Global>,
    clock: &mut ClockPass<L>,
    sec: u64,
    nsec: u64,
) -> bool {
    match Moment::new(sec, nsec) {
        Some(moment) => hub.moment(clock, Clock::Real, moment).is_ok(),
        None => false,
    }
}

fn advances_often<L: Ledger>(
    hub: &mut Hub<L, Global>,
    clock: &mut ClockPass<L>,
    count: u64,
) -> bool {
    for _ in 0..count {
        if !advances(hub, clock, 1, 0) {
            return false;
        }
    }
    true
}

// Returns the number of the client whose call the entries from a place on answer first.
fn first_answered<L: Ledger>(hub: &Hub<L, Global>, place: u64) -> Option<u64> {
    let reply = hub.answer_since(place, 0)?;
    Some(reply.client.0)
}

// Returns true if what a client does comes out as it must.
fn comes_out<L: Ledger>(hub: &mut Hub<L, Global>, pass: &mut Pass<L>, step: Step) -> bool {
    match step {
        Step::Calls(_, word, place) => sends(hub, pass, word) == Ok(Sent { place, ready: true }),
        Step::Waits(_, word, place) => sends(hub, pass, word)
            == Ok(Sent {
                place,
                ready: false,
            }),
        Step::Refused(_, word, refusal) => sends(hub, pass, word) == Err(refusal),
        Step::Takes(_, place, outcome) => hub.take(pass) == Some(Answer { place, outcome }),
        _ => hub.take(pass).is_none(),
    }
}

// Returns true if a step comes out as it must.
fn plays<L: Ledger>(
    hub: &mut Hub<L, Global>,
    clock: &mut ClockPass<L>,
    passes: &mut [Pass<L>],
    step: Step,
) -> bool {
    match step {
        Step::Calls(client, _, _)
        | Step::Waits(client, _, _)
        | Step::Refused(client, _, _)
        | Step::Takes(client, _, _)
        | Step::TakesNothing(client) => match passes.get_mut(client) {
            Some(pass) => comes_out(hub, pass, step),
            None => false,
        },
        Step::Moment(sec, nsec) => advances(hub, clock, sec, nsec),
        Step::Moments(count) => advances_often(hub, clock, count),
        Step::LeastDeadline(sec) => hub.least_deadline(Clock::Real) == Deadline::new(sec, 0),
        Step::Answers(place, client) => first_answered(hub, place) == client,
        Step::Seals(at) => hub.seal() == Ok(at),
    }
}

fn plays_all<L: Ledger>(
    hub: &mut Hub<L, Global>,
    clock: &mut ClockPass<L>,
    passes: &mut [Pass<L>],
    steps: &[Step],
) -> bool {
    for step in steps {
        if !plays(hub, clock, passes, *step) {
            return false;
        }
    }
    true
}

fn is_receipt(receipt: &Receipt, expected: (u64, Word, Outcome)) -> bool {
    let (place, word, outcome) = expected;
    receipt.place == place
        && receipt.answer == Some(outcome)
        && call(word).is_some_and(|call| receipt.call == call)
}

fn are_receipts(receipts: &[Receipt], expected: &[(u64, Word, Outcome)]) -> bool {
    for (receipt, line) in receipts.iter().zip(expected) {
        if !is_receipt(receipt, *line) {
            return false;
        }
    }
    receipts.len() == expected.len()
}

fn is_left<L: Ledger>(left: &Left<L>, client: u64, leaving: &Leaving) -> bool {
    left.client() == ClientId(client)
        && left.priority().level() == 10
        && left.died_at() == leaving.died_at
        && are_receipts(left.receipts(), leaving.receipts)
}

fn are_left<L: Ledger>(lefts: &[Left<L>], leaving: &[Leaving]) -> bool {
    for (client, (left, expected)) in lefts.iter().zip(leaving).enumerate() {
        if !is_left(left, client as u64, expected) {
            return false;
        }
    }
    lefts.len() == leaving.len()
}

// Adds what a client left, if it left. If memory is lacking, the close finds too few events.
pub(super) fn add<L: Ledger>(lefts: &mut Vec<Left<L>>, left: Option<Left<L>>) {
    if let Some(left) = left {
        let _ = lefts.push(left);
    }
}

fn all_die<L: Ledger>(hub: &mut Hub<L, Global>, passes: Vec<Pass<L>>, lefts: &mut Vec<Left<L>>) {
    for pass in passes {
        add(lefts, Some(hub.die(pass)));
    }
}

fn is_closed<L: Ledger>(ended: Result<Closed, CloseRefused<L>>, expected: Closed) -> bool {
    match ended {
        Ok(closed) => closed == expected,
        Err(_) => false,
    }
}

// Returns true if a close was refused because the last client is missing, and a close with all
// clients succeeds.
fn recloses<L: Ledger>(refused: CloseRefused<L>, last: Option<Left<L>>, row: &Row) -> bool {
    let CloseRefused {
        fault,
        hub,
        left: mut lefts,
        clock: clocks,
    } = refused;
    let missing = CloseFault::Missing {
        expected: row.closed.outer,
        found: row.found_without_last,
    };
    add(&mut lefts, last);
    is_closed(hub.close(lefts, clocks), row.closed) && fault == missing
}

fn closes<L: Ledger>(
    hub: Hub<L, Global>,
    clocks: Vec<ClockPass<L>>,
    mut lefts: Vec<Left<L>>,
    row: &Row,
) -> bool {
    let last = lefts.pop();
    match hub.close(lefts, clocks) {
        Ok(_) => false,
        Err(refused) => recloses(refused, last, row),
    }
}

// Ends a hub on which all steps were played. No path returns before the close, since it would have
// to drop the hub.
fn ends<L: Ledger>(
    alloc: Global,
    mut hub: Hub<L, Global>,
    clock: ClockPass<L>,
    passes: Vec<Pass<L>>,
    row: &Row,
) -> bool {
    let mut lefts = Vec::new(alloc);
    all_die(&mut hub, passes, &mut lefts);
    let left = are_left(lefts.as_slice(), row.leaving);
    let mut clocks = Vec::new(alloc);
    let _ = clocks.push(clock);
    closes(hub, clocks, lefts, row) && left
}

fn plays_row<L: Ledger>(
    hub: &mut Hub<L, Global>,
    clock: &mut ClockPass<L>,
    passes: &mut Vec<Pass<L>>,
    row: &Row,
) -> bool {
    all_join(hub, passes, row.leaving.len())
        && plays_all(hub, clock, passes.as_mut_slice(), row.steps)
}

fn is_played_in<L: Ledger>(alloc: Global, blank: Blank, row: &Row) -> bool
    requires { (blank.name ≡ L.name) × (blank.parts ≡ L.parts) × (blank.parts ≡ 2 ^ 63) }
{
    match open::<L, Global>(alloc, alloc, blank) {
        Some((mut hub, mut clock)) => {
            let mut passes = Vec::new(alloc);
            let played = plays_row(&mut hub, &mut clock, &mut passes, row);
            ends(alloc, hub, clock, passes, row) && played
        }
        None => false,
    }
}

// Returns true if a row comes out as it must, on a hub of its own.
pub(super) fn is_played(alloc: Global, row: &Row) -> bool {
    is_played_in::<Brand>(alloc, Blank::new(1 << 63), row)
}
