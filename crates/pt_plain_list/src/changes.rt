//! Additions to the lists of waiters and removals from them. Nothing here allocates.

ghost use Rattle.std.specs.Prelude.{◌≡◌, ◌≤◌, ◌+◌, ◌==◌, ◌++◌, ◌∷◌, [], ℕ, ◌&&◌, ◌||◌, true, not};
ghost use Rattle.std.specs.Prelude.{filter, false, vec_len, vec_capacity};
ghost use Rattle.pt_waitq.specs.Waits.{is_listed, has_waiter};

use crate::entries;
use pt_types::{ClientId, ObjectId};
use pt_waitq::Waiter;
use std::alloc::Allocator;

/// Removes a client.
fn forget_client<A: Allocator>(clients: &mut Vec<ClientId, A>, client: ClientId)
    ensures others { clients.new.items ≡ filter (λ d. not (d == client)) clients.old.items }
    ensures bound { vec_len clients.new ≤ vec_len clients.old }
    ensures room { vec_capacity clients.new ≡ vec_capacity clients.old }
{
    let mut i = clients.len();
    while i > 0 {
        i -= 1;
        if clients[i] == client {
            clients.remove(i);
        }
    }
}

/// Removes a client's entries.
fn forget_waiter<A: Allocator>(entries: &mut Vec<(ObjectId, Waiter), A>, client: ClientId)
    ensures others { entries.new.items
        ≡ filter (λ e. not (e.1.client == client)) entries.old.items }
    ensures bound { vec_len entries.new ≤ vec_len entries.old }
    ensures room { vec_capacity entries.new ≡ vec_capacity entries.old }
{
    let mut i = entries.len();
    while i > 0 {
        i -= 1;
        if entries[i].1.client == client {
            entries.remove(i);
        }
    }
}

/// Removes a queue's number.
fn forget_object<A: Allocator>(objects: &mut Vec<ObjectId, A>, object: ObjectId)
    ensures { objects.new.items ≡ filter (λ o. not (o == object)) objects.old.items }
{
    let mut i = objects.len();
    while i > 0 {
        i -= 1;
        if objects[i] == object {
            objects.remove(i);
        }
    }
}

/// Removes a queue's number, and no other.
pub(crate) fn unmake<A: Allocator>(objects: &mut Vec<ObjectId, A>, object: ObjectId)
    ensures { (q : ℕ)
        → is_listed q objects.new.items
        ≡ (not (object == q) && is_listed q objects.old.items) }
{
    forget_object(objects, object);
}

/// Removes a client that waits nowhere.
pub(crate) fn remove_client<A: Allocator>(
    idle: &mut Vec<ClientId, A>,
    waiting: &[(ObjectId, Waiter)],
    client: ClientId,
)
    requires { has_waiter client waiting.now ≡ false }
    ensures admitted { (c : ℕ)
        → (is_listed c idle.new.items || has_waiter c waiting.now)
        ≡ (not (client == c) && (is_listed c idle.old.items || has_waiter c waiting.now)) }
    ensures bound { vec_len idle.new ≤ vec_len idle.old }
    ensures room { vec_capacity idle.new ≡ vec_capacity idle.old }
{
    forget_client(idle, client);
}

/// Adds a waiter, and removes its client from those that wait nowhere.
pub(crate) fn put_in<A: Allocator>(
    idle: &mut Vec<ClientId, A>,
    waiting: &mut Vec<(ObjectId, Waiter), A>,
    object: ObjectId,
    waiter: Waiter,
)
    requires admitted { is_listed waiter.client idle.old.items ≡ true }
    requires fits { vec_len idle.old + vec_len waiting.old ≤ vec_capacity waiting.old }
    ensures entries { waiting.new.items ≡ waiting.old.items ++ (object, waiter) ∷ [] }
    ensures admitted { (c : ℕ)
        → (is_listed c idle.new.items || has_waiter c waiting.new.items)
        ≡ (is_listed c idle.old.items || has_waiter c waiting.old.items) }
    ensures bound { vec_len idle.new + vec_len waiting.new
        ≤ vec_len idle.old + vec_len waiting.old }
    ensures idle { vec_capacity idle.new ≡ vec_capacity idle.old }
    ensures waiting { vec_capacity waiting.new ≡ vec_capacity waiting.old }
{
    forget_client(idle, waiter.client);
    waiting.push_reserved((object, waiter));
}

/// Removes a client's waiter, if it has one, and adds the client to those that wait nowhere.
pub(crate) fn take_out<A: Allocator>(
    idle: &mut Vec<ClientId, A>,
    waiting: &mut Vec<(ObjectId, Waiter), A>,
    client: ClientId,
)
    requires { vec_len idle.old + vec_len waiting.old ≤ vec_capacity idle.old }
    ensures entries { waiting.new.items
        ≡ filter (λ e. not (e.1.client == client)) waiting.old.items }
    ensures admitted { (c : ℕ)
        → (is_listed c idle.new.items || has_waiter c waiting.new.items)
        ≡ (is_listed c idle.old.items || has_waiter c waiting.old.items) }
    ensures bound { vec_len idle.new + vec_len waiting.new
        ≤ vec_len idle.old + vec_len waiting.old }
    ensures idle { vec_capacity idle.new ≡ vec_capacity idle.old }
    ensures waiting { vec_capacity waiting.new ≡ vec_capacity waiting.old }
{
    if entries::has_entry(waiting, client) {
        forget_waiter(waiting, client);
        idle.push_reserved(client);
    }
}
