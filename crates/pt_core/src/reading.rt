//! What is read of the tables besides entries and answers.

ghost use Rattle.std.specs.Prelude.{◌≡◌, Some, is_some};
ghost use Rattle.pt_model.specs.Clients.{clock as clock_in, is_alive};
ghost use Rattle.pt_model.specs.Moves.{call_key_by};
ghost use Rattle.pt_model.specs.Objects.{barrier_count, find_object, kind_of};
ghost use Rattle.pt_model.specs.Objects.{object_named, object_count};
ghost use Rattle.pt_records.specs.Objects.{kind_in_row};
ghost use Rattle.pt_records.specs.OpenRows.{object_of};
ghost use Rattle.pt_rwlock.specs.RwlockState.{view_for};
ghost use Rattle.pt_readable.specs.Reading.{blocked_at, bound_at, busy_at, count_at};
ghost use Rattle.pt_readable.specs.Reading.{mutex_named, reported, rwlock_named, waiting_of};
ghost use Rattle.pt_state.specs.Adds.{history_of};
ghost use Rattle.pt_state.specs.Reads.{AreTables};

use pt_machine::Machine;
use pt_model::waiting_call::key_with;
use pt_mutex::MutexObj;
use pt_readable::Waiting;
use pt_records::calls::wait_object;
use pt_records::{Object, Open};
use pt_rwlock::{Held, Holders};
use pt_state::State;
use pt_types::operations::{ObjectClass, Operation};
use pt_types::views::{MutexView, RwlockView};
use pt_types::{ClientId, Clock, Moment, Name, ObjectId, Outcome, Verdict};
use pt_waitq::WaitList;
use std::alloc::Allocator;

// Returns a mutex as its verdict tables see it.  [XSH 2.9.3]
fn view_of(m: &MutexObj) -> MutexView
    ensures { result ≡ m.now.view }
{
    MutexView {
        kind: m.kind(),
        robust: m.is_robust(),
        consistency: m.consistency(),
        owner: m.owner(),
        count: m.count() as u64,
    }
}

// Returns a read-write lock as it is reported to a client.  [XSH 2.9]
fn report<A: Allocator + Copy>(lock: &Holders<A>, c: ClientId) -> RwlockView
    ensures { result ≡ reported (view_for lock.now c) }
{
    let (writes, reads) = match lock.held_by(c) {
        Held::Nothing => (false, 0),
        Held::Read(reads) => (false, reads as u64),
        Held::Write => (true, 0),
    };
    let is_written = lock.writer().is_some();
    RwlockView {
        writes,
        reads,
        is_written,
        is_read: !is_written && !lock.is_free(),
    }
}

// Returns the count of a barrier, and 0 for any other object.  [XSH pthread_barrier_init]
fn count_in_row<A: Allocator + Copy>(object: &Object<A>) -> u64
    ensures { result ≡ barrier_count (Some (kind_in_row object.now)) }
{
    match object {
        Object::Barrier(barrier) => barrier.count() as u64,
        _ => 0,
    }
}

// Returns the count of the barrier with this number, and 0 for any other object.
// [XSH pthread_barrier_init]
fn count_at<A: Allocator + Copy>(state: &State<A>, b: ObjectId) -> u64
    requires { AreTables state.now }
    ensures { result ≡ barrier_count (kind_of (history_of state.now) b) }
{
    match state.objects.at(b.0) {
        Some(object) => count_in_row(object),
        None => 0,
    }
}

// Returns where an open call waits, and the key that decides its turn there.  [XSH 2.8.4]
fn turn_of(open: &Open) -> Waiting
    ensures { result ≡ record {
      object = object_of «open».now;
      key = call_key_by (λ j. «open».now.moved) «open».now.call;
    } }
{
    Waiting {
        object: wait_object(open),
        key: key_with(&open.call, open.moved),
    }
}

/// Returns the object of this class that has the name, if one does.
pub fn find<A: Allocator + Copy>(state: &State<A>, n: &Name, class: ObjectClass) -> Option<ObjectId>
    requires { AreTables state.now }
    ensures { result ≡ find_object (history_of state.now) n.now class }
{
    state.find(n, class)
}

/// Returns whether an object has the name.
pub fn is_named<A: Allocator + Copy>(state: &State<A>, n: &Name) -> bool
    requires { AreTables state.now }
    ensures { result ≡ is_some (object_named (history_of state.now) n.now) }
{
    state.objects.find(n).is_some()
}

/// Returns the number of objects that exist.
pub fn objects<A: Allocator + Copy>(state: &State<A>) -> usize
    requires { AreTables state.now }
    ensures { result ≡ object_count (history_of state.now) }
{
    state.objects.len()
}

/// Returns the mutex that has the name, if one does.  [XSH 2.9.3]
pub fn mutex<A: Allocator + Copy>(state: &State<A>, n: &Name) -> Option<MutexView>
    requires { AreTables state.now }
    ensures { result ≡ mutex_named (history_of state.now) n.now }
{
    match state.mutex_found(n, state.find(n, ObjectClass::Mutex)) {
        Some((_, m)) => Some(view_of(m)),
        None => None,
    }
}

/// Returns the read-write lock that has the name, if one does, as it is reported to a client.
/// [XSH 2.9]
pub fn rwlock<A: Allocator + Copy>(state: &State<A>, n: &Name, c: ClientId) -> Option<RwlockView>
    requires { AreTables state.now }
    ensures { result ≡ rwlock_named (history_of state.now) n.now c }
{
    match state.rwlock_found(n, state.find(n, ObjectClass::Rwlock)) {
        Some((_, lock)) => Some(report(lock, c)),
        None => None,
    }
}

/// Returns whether a writer of a client's priority or a higher one waits at the read-write lock
/// that has the name, if one does.  [XSH pthread_rwlock_rdlock]
pub fn is_blocked<Q: WaitList, A: Allocator + Copy>(
    body: &Machine<Q, A>,
    n: &Name,
    c: ClientId,
) -> Option<bool>
    requires { AreTables body.now }
    ensures { result ≡ blocked_at (history_of body.now) n.now c }
{
    match body.state().find(n, ObjectClass::Rwlock) {
        Some(r) => Some(body.is_blocked(r, c)),
        None => None,
    }
}

/// Returns the mutex with which calls wait at the condition that has the name, if some wait there.
/// [XSH pthread_cond_wait]
pub fn bound<Q: WaitList, A: Allocator + Copy>(
    body: &Machine<Q, A>,
    n: &Name,
) -> Option<Option<ObjectId>>
    requires { AreTables body.now }
    ensures { result ≡ bound_at (history_of body.now) n.now }
{
    match body.state().find(n, ObjectClass::Cond) {
        Some(q) => Some(body.bound(q)),
        None => None,
    }
}

/// Returns whether the object of this class that has the name is in use, if one has the name.
/// [XSH pthread_mutex_destroy]
pub fn is_busy<Q: WaitList, A: Allocator + Copy>(
    body: &Machine<Q, A>,
    n: &Name,
    class: ObjectClass,
) -> Option<bool>
    requires { AreTables body.now }
    ensures { result ≡ busy_at (history_of body.now) n.now class }
{
    let ends = Operation::Ends(n, class);
    let request = body.state().request(&ends);
    // Who makes the call doesn't matter.
    match body.verdict(ClientId(0), &ends, &request) {
        Verdict::Reply(Outcome::Done) => Some(false),
        Verdict::Reply(Outcome::Ebusy) => Some(true),
        _ => None,
    }
}

/// Returns the count of the barrier that has the name, if one does.  [XSH pthread_barrier_init]
pub fn barrier_count<A: Allocator + Copy>(state: &State<A>, n: &Name) -> Option<u64>
    requires { AreTables state.now }
    ensures { result ≡ count_at (history_of state.now) n.now }
{
    match state.find(n, ObjectClass::Barrier) {
        Some(b) => Some(count_at(state, b)),
        None => None,
    }
}

/// Returns whether a client lives.  [profile]
pub fn is_alive<A: Allocator + Copy>(state: &State<A>, c: ClientId) -> bool
    requires { AreTables state.now }
    ensures { result ≡ is_alive (history_of state.now) c }
{
    state.is_alive(c)
}

/// Returns where a client's open call waits, and the key that decides its turn there, if the client
/// has an open call.  [XSH 2.8.4]
pub fn waiting<A: Allocator + Copy>(state: &State<A>, c: ClientId) -> Option<Waiting>
    requires { AreTables state.now }
    ensures { result ≡ waiting_of (history_of state.now) c }
{
    match state.open_of(c) {
        Some(open) => Some(turn_of(open)),
        None => None,
    }
}

/// Returns the greatest moment of a clock so far, if it has one.  [profile]
pub fn reading<A: Allocator + Copy>(state: &State<A>, clock: Clock) -> Option<Moment>
    requires { AreTables state.now }
    ensures { result ≡ clock_in (history_of state.now) clock }
{
    state.clocks.reading(clock)
}
