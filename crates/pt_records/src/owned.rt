//! The chain of the robust mutexes that a client owns.

ghost use Rattle.std.specs.Prelude.{IsSome, IsTrue, None, Option, Some, ◌<◌, ◌≡◌, false, true, ℕ};
ghost use Rattle.pt_table.specs.ClientRows.{client_value, has_client};
ghost use Rattle.pt_table.specs.Linked.{HasChain, IsInChain, is_linked, rows_without_links};
ghost use Rattle.pt_table.specs.ObjectRows.{has_object, object_value};
ghost use Rattle.pt_model.specs.Found.{is_some_and};
ghost use Rattle.pt_records.specs.Chained.{AreChained, EntersChain, UnlinksFromChain};
ghost use Rattle.pt_records.specs.Chained.{is_locked_once as is_locked_once_it};
ghost use Rattle.pt_records.specs.Chained.{is_robust_free as is_robust_free_it, rows_without_owned};
ghost use Rattle.pt_records.specs.Callers.{HasDistinctNumbers};
ghost use Rattle.pt_records.specs.LocksInRows.{mutex_in};
ghost use Rattle.pt_records.specs.Moved.{IsMoved};
ghost use Rattle.pt_records.specs.Writes.{WritesCaller};
ghost use Rattle.pt_records.specs.declared.objects.Object.TheVariants.{Mutex};
ghost use Rattle.pt_mutex.specs.MutexState.{MutexState};
ghost use Rattle.pt_types.specs.MutexTable.{owns};

use crate::clients::Caller;
use crate::objects::Object;
use pt_table::{Clients, Objects};
use pt_types::{ClientId, ObjectId};
use std::alloc::Allocator;

// Returns whether an object is a robust mutex without an owner.
#[inline(always)]
fn is_robust_free<A: Allocator + Copy>(objects: &Objects<Object<A>, A>, m: ObjectId) -> bool
    ensures { result ≡ is_some_and is_robust_free_it (object_value objects.now m) }
{
    match objects.at(m.0) {
        Some(Object::Mutex(mutex)) => mutex.is_robust() && mutex.owner().is_none(),
        _ => false,
    }
}

// Returns whether an object is a robust mutex that is locked at most once.
#[inline(always)]
fn is_locked_once<A: Allocator + Copy>(objects: &Objects<Object<A>, A>, m: ObjectId) -> bool
    ensures { result ≡ is_some_and is_locked_once_it (object_value objects.now m) }
{
    match objects.at(m.0) {
        Some(Object::Mutex(mutex)) => mutex.is_robust() && !(1 < mutex.count()),
        _ => false,
    }
}

// Adds the mutex to the chain of those that the client owns.
#[inline(never)]
fn own<A: Allocator + Copy>(
    clients: &mut Clients<Caller, A>,
    objects: &mut Objects<Object<A>, A>,
    m: ObjectId,
    c: ClientId,
)
    requires exists { has_object objects.old m ≡ true }
    requires free { is_linked objects.old m ≡ false }
    requires client { has_client clients.old c ≡ true }
    requires chain { (v : Caller) → client_value clients.old c ≡ Some v
        → HasChain objects.old v.owned }
    ensures owned { (v : Caller) → client_value clients.old c ≡ Some v
        → (head : Option ℕ) × (WritesCaller clients.old clients.new c (record v { owned = head })
        × EntersChain objects.old objects.new v.owned head m) }
    ensures rows { rows_without_links objects.new ≡ rows_without_links objects.old }
    ensures clients { HasDistinctNumbers clients.old → rows_without_owned clients.new
        ≡ rows_without_owned clients.old }
{
    if let Some(row) = clients.at_mut(c.0) {
        row.owned = Some(objects.link(row.owned, m.0));
    }
}

// Removes the mutex from the chain of those that the client owns.
#[inline(never)]
fn disown<A: Allocator + Copy>(
    clients: &mut Clients<Caller, A>,
    objects: &mut Objects<Object<A>, A>,
    m: ObjectId,
    c: ClientId,
)
    requires client { has_client clients.old c ≡ true }
    requires chain { (v : Caller) → client_value clients.old c ≡ Some v
        → (head : ℕ) × ((v.owned ≡ Some head) × IsInChain objects.old head m) }
    ensures owned { (v : Caller) → client_value clients.old c ≡ Some v
        → (head : Option ℕ) × (WritesCaller clients.old clients.new c (record v { owned = head })
        × UnlinksFromChain objects.old objects.new v.owned head m) }
    ensures rows { rows_without_links objects.new ≡ rows_without_links objects.old }
    ensures clients { HasDistinctNumbers clients.old → rows_without_owned clients.new
        ≡ rows_without_owned clients.old }
{
    if let Some(row) = clients.at_mut(c.0) {
        if let Some(head) = row.owned {
            row.owned = objects.unlink(head, m.0);
        }
    }
}

/// Adds a mutex that is about to be locked to the chain of those that the client owns, if the mutex
/// is robust and has no owner yet.
#[inline(always)]
pub(crate) fn hold<A: Allocator + Copy>(
    clients: &mut Clients<Caller, A>,
    objects: &mut Objects<Object<A>, A>,
    m: ObjectId,
    c: ClientId,
)
    requires client { has_client clients.old c ≡ true }
    requires chained { (orphans : Option ℕ) × AreChained clients.old objects.old orphans }
    ensures { IsMoved EntersChain (is_some_and is_robust_free_it (object_value objects.old m))
        clients.old clients.new objects.old objects.new c m }
{
    if is_robust_free(objects, m) {
        own(clients, objects, m, c);
    }
}

/// Removes a mutex from the chain of those that the client owns, if it is robust and the client is
/// about to give back its last lock on it.
#[inline(always)]
pub(crate) fn unlink_owned<A: Allocator + Copy>(
    clients: &mut Clients<Caller, A>,
    objects: &mut Objects<Object<A>, A>,
    m: ObjectId,
    c: ClientId,
)
    requires exists { IsSome (mutex_in (object_value objects.old m)) }
    requires owned { (x : MutexState) → object_value objects.old m ≡ Some (Mutex x)
        → IsTrue (owns x.view c) }
    requires client { has_client clients.old c ≡ true }
    requires chained { (orphans : Option ℕ) × AreChained clients.old objects.old orphans }
    ensures { IsMoved UnlinksFromChain (is_some_and is_locked_once_it (object_value objects.old m))
        clients.old clients.new objects.old objects.new c m }
{
    if is_locked_once(objects, m) {
        disown(clients, objects, m, c);
    }
}
