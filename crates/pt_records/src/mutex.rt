//! Rows of mutexes: what a mutex answers to a call, and how it changes.

ghost use Rattle.std.specs.Prelude.{IsSome, IsTrue, List, None, Option, Some, ◌+◌, ◌<◌, ◌≡◌, true};
ghost use Rattle.std.specs.Prelude.{false};
ghost use Rattle.pt_model.specs.Found.{is_some_and};
ghost use Rattle.pt_records.specs.Chained.{is_robust_free};
ghost use Rattle.std.specs.Prelude.{ℕ};
ghost use Rattle.pt_records.specs.Counts.{is_last_lock};
ghost use Rattle.pt_types.specs.MutexTable.{lock_verdict as lock_table, can_grant_mutex};
ghost use Rattle.pt_types.specs.MutexTable.{owns};
ghost use Rattle.pt_mutex.specs.MutexState.{MutexState, mutex_after_acquire, can_acquire};
ghost use Rattle.pt_mutex.specs.MutexState.{mutex_after_release, mutex_after_consistent};
ghost use Rattle.pt_mutex.specs.MutexState.{mutex_after_yield};
ghost use Rattle.pt_table.specs.ObjectRows.{object_value};
ghost use Rattle.pt_records.specs.LocksInRows.{mutex_in};
ghost use Rattle.pt_records.specs.declared.objects.Object.TheVariants.{Mutex};
ghost use Rattle.pt_table.specs.declared.clients.ClientRow.{ClientRow};
ghost use Rattle.pt_table.specs.ClientRows.{has_client};
ghost use Rattle.pt_records.specs.declared.clients.Caller.{Caller};
ghost use Rattle.pt_records.specs.Callers.{HasDistinctNumbers};
ghost use Rattle.pt_records.specs.Chained.{AreChained, KeepsChains, rows_without_owned};
ghost use Rattle.pt_records.specs.Writes.{WritesObject};

use crate::clients::Caller;
use crate::objects::Object;
use crate::owned::{hold, unlink_owned};
use pt_mutex::MutexObj;
use pt_table::{Clients, Objects};
use pt_types::{ClientId, Consistency, How, ObjectId, Verdict};
use std::alloc::Allocator;

/// Returns whether an object is a robust mutex on which the client has exactly one lock.
/// [XSH pthread_mutex_unlock]
pub fn is_last<A: Allocator + Copy>(object: &Object<A>, c: ClientId) -> bool
    ensures { result ≡ is_last_lock c object.now }
{
    match object {
        Object::Mutex(m) => m.is_robust() && m.is_owned_by(c) && m.count() == 1,
        _ => false,
    }
}

/// Returns whether nothing but the order of calls keeps a call from a mutex: the mutex is not
/// recoverable, or it has no owner.  [XSH pthread_mutex_unlock]
#[inline(always)]
pub fn can_grant_mutex(mutex: &MutexObj) -> bool
    ensures { result ≡ can_grant_mutex mutex.now.view true }
{
    mutex.consistency() == Consistency::NotRecoverable || mutex.owner().is_none()
}

/// Returns the verdict of a client's call for this mutex. If no lock keeps the call from the mutex,
/// it waits until its Grant.  [XSH pthread_mutex_lock]
#[inline(always)]
pub fn lock_verdict(m: &MutexObj, c: ClientId, how: &How) -> Verdict
    ensures { result ≡ lock_table m.now.view c how.now }
{
    if can_grant_mutex(m) {
        return Verdict::Stands;
    }
    match how {
        How::Plain => m.verdict_lock(c),
        How::Try => m.verdict_try(c),
        How::Timed(deadline) => m.verdict_timed(c, *deadline),
    }
}

// Counts one more lock of the client on the mutex.  [XSH pthread_mutex_lock]
#[inline(always)]
fn lock<A: Allocator + Copy>(objects: &mut Objects<Object<A>, A>, m: ObjectId, c: ClientId)
    requires exists { IsSome (mutex_in (object_value objects.old m)) }
    requires allowed { (x : MutexState) → object_value objects.old m ≡ Some (Mutex x)
        → IsTrue (can_acquire x.view c) }
    ensures mutex { (x : MutexState) → object_value objects.old m ≡ Some (Mutex x)
        → WritesObject objects.old objects.new m (Mutex
        (record x { view = mutex_after_acquire x.view c })) }
    ensures chains { (x : MutexState) → object_value objects.old m ≡ Some (Mutex x)
        → KeepsChains objects.old objects.new }
{
    if let Some(object) = objects.at_mut(m.0) {
        if let Object::Mutex(mutex) = object {
            mutex.acquire(c);
        }
    }
}

// Counts one fewer lock of the client on the mutex.  [XSH pthread_mutex_unlock]
#[inline(always)]
fn unlock<A: Allocator + Copy>(objects: &mut Objects<Object<A>, A>, m: ObjectId, c: ClientId)
    requires exists { IsSome (mutex_in (object_value objects.old m)) }
    requires owned { (x : MutexState) → object_value objects.old m ≡ Some (Mutex x)
        → IsTrue (owns x.view c) }
    ensures mutex { (x : MutexState) → object_value objects.old m ≡ Some (Mutex x)
        → WritesObject objects.old objects.new m (Mutex
        (record x { view = mutex_after_release x.view })) }
    ensures chains { (x : MutexState) → object_value objects.old m ≡ Some (Mutex x)
        → KeepsChains objects.old objects.new }
{
    if let Some(object) = objects.at_mut(m.0) {
        if let Object::Mutex(mutex) = object {
            mutex.release(c);
        }
    }
}

// Takes the mutex from its owner, which is dead.  [XSH pthread_mutex_lock, EOWNERDEAD]
fn free<A: Allocator + Copy>(objects: &mut Objects<Object<A>, A>, m: ObjectId)
    requires { IsSome (mutex_in (object_value objects.old m)) }
    ensures mutex { (x : MutexState) → object_value objects.old m ≡ Some (Mutex x)
        → WritesObject objects.old objects.new m (Mutex
        (record x { view = mutex_after_yield x.view })) }
    ensures chains { (x : MutexState) → object_value objects.old m ≡ Some (Mutex x)
        → KeepsChains objects.old objects.new }
{
    if let Some(object) = objects.at_mut(m.0) {
        if let Object::Mutex(mutex) = object {
            mutex.yield_dead();
        }
    }
}

/// Gives the client one more lock on the mutex, which it then owns.  [XSH pthread_mutex_lock]
#[inline(always)]
pub fn acquire<A: Allocator + Copy>(
    clients: &mut Clients<Caller, A>,
    objects: &mut Objects<Object<A>, A>,
    m: ObjectId,
    c: ClientId,
)
    requires exists { IsSome (mutex_in (object_value objects.old m)) }
    requires allowed { (x : MutexState) → object_value objects.old m ≡ Some (Mutex x)
        → IsTrue (can_acquire x.view c) }
    requires client { has_client clients.old c ≡ true }
    requires chained { (orphans : Option ℕ) × AreChained clients.old objects.old orphans }
    ensures mutex { (x : MutexState) → object_value objects.old m ≡ Some (Mutex x)
        → WritesObject objects.old objects.new m (Mutex
        (record x { view = mutex_after_acquire x.view c })) }
    ensures rows { HasDistinctNumbers clients.old → rows_without_owned clients.new
        ≡ rows_without_owned clients.old }
    ensures chained { (orphans : Option ℕ) → AreChained clients.old objects.old orphans
        → AreChained clients.new objects.new orphans }
{
    hold(clients, objects, m, c);
    lock(objects, m, c);
}

/// Does what `acquire` does, for a mutex that is not robust or has an owner already. The mutex
/// enters no chain.  [XSH pthread_mutex_lock]
#[inline(always)]
pub fn acquire_plain<A: Allocator + Copy>(
    objects: &mut Objects<Object<A>, A>,
    m: ObjectId,
    c: ClientId,
)
    requires exists { IsSome (mutex_in (object_value objects.old m)) }
    requires allowed { (x : MutexState) → object_value objects.old m ≡ Some (Mutex x)
        → IsTrue (can_acquire x.view c) }
    requires plain { is_some_and is_robust_free (object_value objects.old m) ≡ false }
    ensures mutex { (x : MutexState) → object_value objects.old m ≡ Some (Mutex x)
        → WritesObject objects.old objects.new m (Mutex
        (record x { view = mutex_after_acquire x.view c })) }
    ensures chained { (clients : List (ClientRow Caller)) → has_client clients c ≡ true
        → (orphans : Option ℕ) → AreChained clients objects.old orphans
        → AreChained clients objects.new orphans }
{
    lock(objects, m, c);
}

/// Gives back one lock of the client on the mutex, and with the last one the mutex.
/// [XSH pthread_mutex_unlock]
#[inline(always)]
pub fn release<A: Allocator + Copy>(
    clients: &mut Clients<Caller, A>,
    objects: &mut Objects<Object<A>, A>,
    m: ObjectId,
    c: ClientId,
)
    requires exists { IsSome (mutex_in (object_value objects.old m)) }
    requires owned { (x : MutexState) → object_value objects.old m ≡ Some (Mutex x)
        → IsTrue (owns x.view c) }
    requires client { has_client clients.old c ≡ true }
    requires chained { (orphans : Option ℕ) × AreChained clients.old objects.old orphans }
    ensures mutex { (x : MutexState) → object_value objects.old m ≡ Some (Mutex x)
        → WritesObject objects.old objects.new m (Mutex
        (record x { view = mutex_after_release x.view })) }
    ensures rows { HasDistinctNumbers clients.old → rows_without_owned clients.new
        ≡ rows_without_owned clients.old }
    ensures chained { (orphans : Option ℕ) → AreChained clients.old objects.old orphans
        → AreChained clients.new objects.new orphans }
{
    unlink_owned(clients, objects, m, c);
    unlock(objects, m, c);
}

/// Marks the mutex as consistent: what it guards is in order again.  [XSH pthread_mutex_consistent]
pub fn restore<A: Allocator + Copy>(objects: &mut Objects<Object<A>, A>, m: ObjectId)
    requires { IsSome (mutex_in (object_value objects.old m)) }
    ensures mutex { (x : MutexState) → object_value objects.old m ≡ Some (Mutex x)
        → WritesObject objects.old objects.new m (Mutex
        (record x { view = mutex_after_consistent x.view })) }
    ensures chains { (x : MutexState) → object_value objects.old m ≡ Some (Mutex x)
        → KeepsChains objects.old objects.new }
{
    if let Some(object) = objects.at_mut(m.0) {
        if let Object::Mutex(mutex) = object {
            mutex.mark_consistent();
        }
    }
}

/// Takes the mutex from its dead owner, and returns the new head of the chain of the robust mutexes
/// whose owner is dead. The mutex must be the head of that chain before.
/// [XSH pthread_mutex_lock, EOWNERDEAD]
pub fn yield_dead<A: Allocator + Copy>(
    objects: &mut Objects<Object<A>, A>,
    m: ObjectId,
) -> Option<u64>
    requires exists { IsSome (mutex_in (object_value objects.old m)) }
    requires chained { (clients : List (ClientRow Caller))
        × AreChained clients objects.old (Some m) }
    ensures mutex { (x : MutexState) → object_value objects.old m ≡ Some (Mutex x)
        → WritesObject objects.old objects.new m (Mutex
        (record x { view = mutex_after_yield x.view })) }
    ensures chained { (clients : List (ClientRow Caller)) → AreChained clients objects.old (Some m)
        → AreChained clients objects.new result }
{
    let head = objects.unlink(m.0, m.0);
    free(objects, m);
    head
}
