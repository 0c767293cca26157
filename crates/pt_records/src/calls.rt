//! Open calls in the rows of clients.

ghost use Rattle.std.specs.Prelude.{None, Some, ◌<◌, ◌≡◌, ◌≤◌, is_some, true};
ghost use Rattle.pt_table.specs.ClientRows.{client_value, has_client, nth_value};
ghost use Rattle.pt_records.specs.Writes.{WritesCaller};
ghost use Rattle.pt_records.specs.Arrivals.{caller_after_arrival};
ghost use Rattle.pt_records.specs.Callers.{caller_after_answer, open_in};
ghost use Rattle.pt_records.specs.Counts.{count_or_zero, reserved_open};
ghost use Rattle.pt_records.specs.OpenRows.{object_of};

use crate::clients::{Caller, Open};
use pt_model::waiting_call::{Role, WaitingCall};
use pt_table::Clients;
use pt_types::{ClientId, Clock, ObjectId, Outcome};
use std::alloc::Allocator;

/// Stores the call at this place as its client's latest call, which is open.
pub fn open_waiting_call<A: Allocator + Copy>(
    clients: &mut Clients<Caller, A>,
    c: ClientId,
    open: Open,
    place: u64,
)
    requires { has_client clients.old c ≡ true }
    ensures { (v : Caller) → client_value clients.old c ≡ Some v
        → WritesCaller clients.old clients.new c
        (record v { «open» = Some «open»; latest = Some place; answer = None }) }
{
    if let Some(row) = clients.at_mut(c.0) {
        row.open = Some(open);
        row.latest = Some(place);
        row.answer = None;
    }
}

/// Stores the call at this place as its client's latest call, which waits at this barrier.
/// [XSH pthread_barrier_wait]
pub fn arrive<A: Allocator + Copy>(
    clients: &mut Clients<Caller, A>,
    c: ClientId,
    place: u64,
    b: ObjectId,
    clock: Clock,
)
    requires { has_client clients.old c ≡ true }
    ensures { (v : Caller) → client_value clients.old c ≡ Some v
        → WritesCaller clients.old clients.new c (caller_after_arrival place c b clock v) }
{
    if let Some(row) = clients.at_mut(c.0) {
        row.open = Some(Open {
            call: WaitingCall {
                place,
                client: c,
                priority: row.priority.level() as u64,
                object: b,
                role: Role::ForBarrier,
                clock,
                deadline: None,
            },
            moved: None,
        });
        row.latest = Some(place);
        row.answer = None;
    }
}

/// Closes the client's open call, and stores its answer.
pub fn close<A: Allocator + Copy>(clients: &mut Clients<Caller, A>, c: ClientId, answer: Outcome)
    requires { has_client clients.old c ≡ true }
    ensures { (v : Caller) → client_value clients.old c ≡ Some v
        → WritesCaller clients.old clients.new c (caller_after_answer (Some answer) v) }
{
    if let Some(row) = clients.at_mut(c.0) {
        row.open = None;
        row.answer = Some(answer);
    }
}

/// Returns the number of entries reserved for an open call, or 0 if there is none.
pub fn reserved_by(open: Option<Open>) -> u64
    ensures value { result ≡ count_or_zero reserved_open «open» }
    ensures within { result ≤ 3 }
{
    match open {
        Some(o) => match o.moved {
            Some(_) => 2,
            None => 3,
        },
        None => 0,
    }
}

/// Returns the open call in the row at an index, if there is one.
pub fn open_at<A: Allocator + Copy>(clients: &Clients<Caller, A>, i: usize) -> Option<Open>
    ensures { result ≡ open_in (nth_value clients.now i) }
{
    match clients.nth(i) {
        Some((_, caller)) => caller.open,
        None => None,
    }
}

/// Returns whether an open call is a wait that was moved.  [XSH pthread_cond_broadcast]
pub fn is_moved(open: &Open) -> bool
    ensures { result ≡ is_some «open».now.moved }
{
    open.moved.is_some()
}

/// Returns the object at which an open call waits.  [XSH pthread_cond_broadcast]
pub fn wait_object(open: &Open) -> ObjectId
    ensures { result ≡ object_of «open».now }
{
    match open.call.role {
        Role::ForCond(m) if is_moved(open) => m,
        _ => open.call.object,
    }
}
