//! What was seen of a hub's history: two threads agree on it, and it outlives a seal.

ghost use Rattle.std.specs.Prelude.{◌≡◌, ◌^◌};

use super::{Word, call};
use crate::cores::{Hub, open};
use pt_cells::{Seen, agree};
use pt_hub::Pass;
use pt_model::Entry;
use pt_types::{ClientId, Outcome, Priority};
use std::alloc::Global;
use std::marker::Brand;
use std::sync::ledger::{Blank, Ledger};
use std::sync::{Mutex, Wait};
use std::thread;
use std::thread::Threads;

fn sends<L: Ledger>(hub: &mut Hub<L, Global>, pass: &mut Pass<L>, word: Word) -> bool {
    match call(word) {
        Some(call) => hub.call(pass, call).is_ok(),
        None => false,
    }
}

fn takes<L: Ledger>(hub: &mut Hub<L, Global>, pass: &mut Pass<L>) -> bool {
    hub.take(pass).is_some()
}

fn joins<L: Ledger>(hub: &mut Hub<L, Global>) -> Option<Pass<L>> {
    hub.join(Priority::new(10)?).ok()
}

// Plays the worked row of two clients at a hub: A makes and locks the mutex, B waits for it, A
// unlocks it, and B takes its answer.
fn plays<L: Ledger>(hub: &mut Hub<L, Global>) -> Option<(Pass<L>, Pass<L>)> {
    let mut a = joins(hub)?;
    let mut b = joins(hub)?;
    let locked = sends(hub, &mut a, Word::MutexInit)
        && takes(hub, &mut a)
        && sends(hub, &mut a, Word::Lock)
        && takes(hub, &mut a);
    let waits = sends(hub, &mut b, Word::Lock) && !takes(hub, &mut b);
    let granted = sends(hub, &mut a, Word::Unlock) && takes(hub, &mut b);
    if locked && waits && granted {
        Some((a, b))
    } else {
        None
    }
}

fn look<L: Ledger, R: Wait>(rt: &R, hub: &Mutex<Hub<L, Global>>, place: u64) -> Option<Seen> {
    hub.lock(rt).seen(place)
}

fn is_seen(seen: &Seen, place: u64, entry: &Entry) -> bool {
    seen.place() == place && seen.entry() == entry
}

fn lock_of_b() -> Option<Entry> {
    Some(Entry::Call(ClientId(1), call(Word::Lock)?, None))
}

// Sees the Grant at place 4 and B's call at place 5 in each of two threads. Returns the call as one
// of them saw it if the threads agree, and if what they saw is what the history has.
fn agrees<L: Ledger + Send + Sync, R: Threads + Wait + Sync>(
    rt: &R,
    hub: &Mutex<Hub<L, Global>>,
) -> Option<Seen> {
    let (here, there) = thread::join(
        rt,
        || (look(rt, hub, 4), look(rt, hub, 5)),
        || (look(rt, hub, 4), look(rt, hub, 5)),
    );
    let (grant, call, other_grant, other_call) = (here.0?, here.1?, there.0?, there.1?);
    let agreed = agree(&grant, &other_grant) && agree(&call, &other_call) && !agree(&grant, &call);
    let exact = is_seen(&grant, 4, &Entry::Grant(3, Outcome::Done))
        && is_seen(&other_call, 5, &lock_of_b()?);
    if agreed && exact && look(rt, hub, 8).is_none() {
        Some(other_call)
    } else {
        None
    }
}

// Returns true if B's receipt is of the call that was seen, and A's pass is of its Join.
fn have_seen<L: Ledger>(a: &Pass<L>, b: &Pass<L>, seen: &Seen) -> bool {
    let call = match b.receipts().first() {
        Some(receipt) => receipt.seen.as_ref().is_some_and(|mine| agree(mine, seen)),
        None => false,
    };
    call && a.seen().as_ref().is_some_and(|joined| joined.place() == 0)
}

// Returns true if what was seen still shows its entry after the history was sealed, although the
// hub shows it no more.
fn outlives<L: Ledger, R: Wait>(rt: &R, hub: &Mutex<Hub<L, Global>>, seen: &Seen) -> Option<bool> {
    let sealed = hub.lock(rt).seal().is_ok();
    Some(sealed && look(rt, hub, 5).is_none() && is_seen(seen, 5, &lock_of_b()?))
}

fn are_shared_in<L: Ledger + Send + Sync, R: Threads + Wait + Sync>(
    rt: &R,
    alloc: Global,
    blank: Blank,
) -> Option<bool>
    requires { (blank.name ≡ L.name) × (blank.parts ≡ L.parts) × (blank.parts ≡ 2 ^ 63) }
{
    let (mut hub, _) = open::<L, Global>(alloc, alloc, blank)?;
    let (a, b) = plays(&mut hub)?;
    let hub = Mutex::new(hub);
    let seen = agrees(rt, &hub)?;
    let received = have_seen(&a, &b, &seen);
    Some(outlives(rt, &hub, &seen)? && received)
}

fn are_shared<R: Threads + Wait + Sync>(rt: &R, alloc: Global) -> Option<bool> {
    are_shared_in::<Brand, R>(rt, alloc, Blank::new(1 << 63))
}

#[test]
fn entries_are_shared(rt: HostRuntime) {
    assert!(rt; are_shared(&rt, rt.alloc()) == Some(true));
}
