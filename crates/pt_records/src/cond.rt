//! Rows of clients that wait at a condition variable.

ghost use Rattle.std.specs.Prelude.{Some, ◌<◌, ◌≡◌, false, true};
ghost use Rattle.pt_records.specs.Callers.{HasDistinctNumbers, has_open, caller_after_move};
ghost use Rattle.pt_records.specs.Callers.{open_in, opens_of};
ghost use Rattle.pt_table.specs.ClientRows.{client_value, has_client, nth_value};
ghost use Rattle.pt_records.specs.Writes.{RewritesCallers, WritesCaller, rewritten_nth};
ghost use Rattle.pt_records.specs.Writes.{is_unmoved_at, caller_after_broadcast};
ghost use Rattle.pt_model.specs.Found.{is_some_and};
ghost use Rattle.pt_records.specs.OpenRows.{returns_to as returns_to_it};
ghost use Rattle.std.specs.List.{list_any};

use crate::calls::{is_moved, open_at};
use crate::clients::{Caller, Open};
use pt_model::Cause;
use pt_model::waiting_call::{Move, Role, is_cond_wait};
use pt_table::Clients;
use pt_types::{ClientId, ObjectId};
use std::alloc::Allocator;

// Marks the client's open call, if it has one, as moved by the entry at this place.
fn move_open(caller: &mut Caller, at: u64, cause: Cause)
    ensures { caller.new ≡ caller_after_move at cause caller.old }
{
    if let Some(open) = &mut caller.open {
        open.moved = Some(Move { at, cause });
    }
}

/// Marks the client's open call as moved by the entry at this place.
pub fn wake<A: Allocator + Copy>(
    clients: &mut Clients<Caller, A>,
    c: ClientId,
    at: u64,
    cause: Cause,
)
    requires { has_client clients.old c ≡ true }
    ensures { (v : Caller) → client_value clients.old c ≡ Some v
        → WritesCaller clients.old clients.new c (caller_after_move at cause v) }
{
    if let Some(row) = clients.at_mut(c.0) {
        move_open(row, at, cause);
    }
}

// Returns whether the client's open call is a wait at the condition that has not been moved.
fn is_waiting(caller: &Caller, q: ObjectId) -> bool
    ensures { result ≡ has_open (is_unmoved_at q) caller.now }
{
    match &caller.open {
        Some(open) => {
            is_cond_wait(open.call.role) && open.moved.is_none() && q == open.call.object
        }
        None => false,
    }
}

// Marks the open call in the row at this index as moved, if it waits at the condition.
fn wake_nth<A: Allocator + Copy>(
    clients: &mut Clients<Caller, A>,
    index: usize,
    q: ObjectId,
    at: u64,
    cause: Cause,
)
    requires { HasDistinctNumbers clients.old }
    ensures { clients.new ≡ rewritten_nth (caller_after_broadcast q at cause) clients.old index }
{
    let Some((slot, c, caller)) = clients.nth_in_slot(index) else {
        return;
    };
    if !is_waiting(caller, q) {
        return;
    }
    if let Some(row) = clients.at_mut_near(slot, c) {
        move_open(row, at, cause);
    }
}

/// Marks the waits at the condition as moved by the entry at this place.
pub fn wake_waits<A: Allocator + Copy>(
    clients: &mut Clients<Caller, A>,
    q: ObjectId,
    at: u64,
    cause: Cause,
)
    requires { HasDistinctNumbers clients.old }
    ensures { RewritesCallers clients.old clients.new (caller_after_broadcast q at cause) }
{
    for i in 0..clients.len() {
        wake_nth(clients, i, q, at, cause);
    }
}

// Returns whether an open call is a wait that has not been moved and will return to the mutex.
// [XSH pthread_mutex_destroy]
fn returns_to(open: &Open, m: ObjectId) -> bool
    ensures { result ≡ returns_to_it m «open».now }
{
    match open.call.role {
        Role::ForCond(mutex) => mutex == m && !is_moved(open),
        _ => false,
    }
}

/// Returns whether the open call in the row at an index is a wait that has not been moved and will
/// return to the mutex.  [XSH pthread_mutex_destroy]
fn returns_from<A: Allocator + Copy>(clients: &Clients<Caller, A>, m: ObjectId, i: usize) -> bool
    ensures { result ≡ is_some_and (returns_to_it m) (open_in (nth_value clients.now i)) }
{
    match open_at(clients, i) {
        Some(open) => returns_to(&open, m),
        None => false,
    }
}

/// Returns whether a wait that has not been moved will return to the mutex.
/// [XSH pthread_mutex_destroy]
pub fn any_returns<A: Allocator + Copy>(clients: &Clients<Caller, A>, m: ObjectId) -> bool
    ensures { result ≡ list_any (returns_to_it m) (opens_of clients.now) }
{
    for i in 0..clients.len() {
        if returns_from(clients, m, i) {
            return true;
        }
    }
    false
}
