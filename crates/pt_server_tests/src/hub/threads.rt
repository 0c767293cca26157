//! Two clients in two threads, over one hub.

ghost use Rattle.std.specs.Prelude.{◌≡◌, ◌^◌};

use super::play::add;
use super::{Word, call};
use crate::cores::{Shared, open};
use pt_hub::{ClockPass, Closed, Left, Pass, SessionId};
use pt_types::{Outcome, Priority};
use std::alloc::Global;
use std::marker::Brand;
use std::sync::Wait;
use std::sync::ledger::{Blank, Ledger};
use std::thread;
use std::thread::Threads;

// The number of times that each client locks and unlocks the mutex.
const TURNS: u8 = 50;

// Returns true if a call is accepted and answered 0.
fn calls<L: Ledger, R: Wait>(
    rt: &R,
    shared: &Shared<L>,
    session: SessionId,
    pass: &mut Pass<L>,
    word: Word,
) -> bool {
    let Some(call) = call(word) else {
        return false;
    };
    if shared.call(rt, session, pass, call).is_err() {
        return false;
    }
    match shared.wait_for_answer(rt, session, pass) {
        Some(answer) => answer.outcome == Outcome::Done,
        None => false,
    }
}

fn calls_all<L: Ledger, R: Wait>(
    rt: &R,
    shared: &Shared<L>,
    session: SessionId,
    pass: &mut Pass<L>,
) -> bool {
    for _ in 0..TURNS {
        if !calls(rt, shared, session, pass, Word::Lock)
            || !calls(rt, shared, session, pass, Word::Unlock)
        {
            return false;
        }
    }
    true
}

// Lets a client join, make its calls and die. Returns `None` if it can't join, or if a call is not
// answered 0.
fn client<L: Ledger, R: Wait>(rt: &R, shared: &Shared<L>, session: SessionId) -> Option<Left<L>> {
    let mut pass = shared.join(rt, session, Priority::new(10)?).ok()?;
    let answered = calls_all(rt, shared, session, &mut pass);
    let left = shared.die(rt, pass);
    if answered { Some(left) } else { None }
}

// Runs the client that makes the mutex. It dies before the others join.
fn first_client<L: Ledger, R: Wait>(
    rt: &R,
    shared: &Shared<L>,
    session: SessionId,
) -> Option<Left<L>> {
    let mut pass = shared.join(rt, session, Priority::new(10)?).ok()?;
    let answered = calls(rt, shared, session, &mut pass, Word::MutexInit);
    let left = shared.die(rt, pass);
    if answered { Some(left) } else { None }
}

// Returns what all clients left.
fn lefts<L: Ledger + Send + Sync, R: Threads + Wait + Sync>(
    rt: &R,
    alloc: Global,
    shared: &Shared<L>,
    session: SessionId,
) -> Vec<Left<L>> {
    let mut lefts = Vec::new(alloc);
    add(&mut lefts, first_client(rt, shared, session));
    let (one, other) = thread::join(
        rt,
        || client(rt, shared, session),
        || client(rt, shared, session),
    );
    add(&mut lefts, one);
    add(&mut lefts, other);
    lefts
}

fn both<L: Ledger>(alloc: Global, one: ClockPass<L>, other: ClockPass<L>) -> Vec<ClockPass<L>> {
    let mut clocks = Vec::new(alloc);
    let _ = clocks.push(one);
    let _ = clocks.push(other);
    clocks
}

fn runs<L: Ledger + Send + Sync, R: Threads + Wait + Sync>(
    rt: &R,
    alloc: Global,
    shared: Shared<L>,
    clock: ClockPass<L>,
) -> Option<Closed> {
    match shared.open_session(rt) {
        Ok((session, session_clock)) => {
            let lefts = lefts(rt, alloc, &shared, session);
            let clocks = both(alloc, clock, session_clock);
            shared.into_hub().close(lefts, clocks).ok()
        }
        Err(_) => None,
    }
}

fn two_clients_in<L: Ledger + Send + Sync, R: Threads + Wait + Sync>(
    rt: &R,
    alloc: Global,
    blank: Blank,
) -> Option<Closed>
    requires { (blank.name ≡ L.name) × (blank.parts ≡ L.parts) × (blank.parts ≡ 2 ^ 63) }
{
    match open::<L, Global>(alloc, alloc, blank) {
        Some((hub, clock)) => runs(rt, alloc, pt_session::Shared::new(hub), clock),
        None => None,
    }
}

fn two_clients<R: Threads + Wait + Sync>(rt: &R, alloc: Global) -> Option<Closed> {
    two_clients_in::<Brand, R>(rt, alloc, Blank::new(1 << 63))
}

// The first client makes 3 events, and each of the others 102: a join, its calls and a death.
#[test]
fn two_clients_in_two_threads(rt: HostRuntime) {
    match two_clients(&rt, rt.alloc()) {
        Some(closed) => assert_eq!(rt; closed.outer, 207),
        None => assert!(rt; false),
    }
}
