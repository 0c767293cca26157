//! Rows of read-write locks: what a lock answers to a call, and how it changes.

ghost use Rattle.std.specs.Prelude.{IfErr, IsOk, IsSome, IsTrue, OnErr, OnOk, Some, ◌+◌, ◌-◌, ◌<◌};
ghost use Rattle.std.specs.Prelude.{◌≡◌, false};
ghost use Rattle.pt_types.specs.RwlockTable.{has_lock, can_grant_read};
ghost use Rattle.pt_rwlock.specs.RwlockState.{ChangesRow, RwlockState, can_acquire_read};
ghost use Rattle.pt_rwlock.specs.RwlockState.{nobody_holds, reads_of, rwlock_after_release};
ghost use Rattle.pt_rwlock.specs.RwlockState.{reads_in_row, view_for, with_reads, with_row};
ghost use Rattle.pt_table.specs.ObjectRows.{object_value};
ghost use Rattle.pt_records.specs.LocksInRows.{rwlock_in};
ghost use Rattle.pt_records.specs.declared.objects.Object.TheVariants.{Rwlock};
ghost use Rattle.pt_records.specs.Chained.{KeepsChains};
ghost use Rattle.pt_records.specs.Writes.{WritesObject};
ghost use Rattle.pt_types.specs.MutexTable.{is_some_number};
ghost use Rattle.pt_table.specs.ClientRows.{nth_number};
ghost use Rattle.pt_model.specs.Found.{is_some_and};
ghost use Rattle.std.specs.List.{list_any};

use crate::clients::Caller;
use crate::objects::Object;
use pt_rwlock::Holders;
use pt_table::{Clients, Objects};
use pt_types::{ClientId, ObjectId, Refusal};
use std::alloc::Allocator;

/// Returns whether a client may get a read lock. `blocked` says whether a waiting writer goes
/// before it.  [XSH pthread_rwlock_rdlock]
pub fn can_grant_read<A: Allocator + Copy>(lock: &Holders<A>, c: ClientId, blocked: bool) -> bool
    ensures { result ≡ can_grant_read (view_for lock.now c) blocked }
{
    lock.writer().is_none() && (!blocked || lock.holds(c))
}

/// Makes sure that the client has a row in the lock. Returns ENOMEM if there is no memory for a new
/// one.
#[inline(always)]
pub fn make_row<A: Allocator + Copy>(
    objects: &mut Objects<Object<A>, A>,
    r: ObjectId,
    c: ClientId,
) -> Result<(), Refusal>
    requires { IsSome (rwlock_in (object_value objects.old r)) }
    ensures ok { (x : RwlockState) → object_value objects.old r ≡ Some (Rwlock x)
        → OnOk result (WritesObject objects.old objects.new r (Rwlock (with_row x c))) }
    ensures row { (x : RwlockState) → object_value objects.old r ≡ Some (Rwlock x)
        → OnOk result (ChangesRow x (with_row x c) c (Some (reads_of x c))) }
    ensures relock { (x : RwlockState) → object_value objects.old r ≡ Some (Rwlock x)
        → IsSome (reads_in_row x c) → IsOk result }
    ensures unchanged { (x : RwlockState) → object_value objects.old r ≡ Some (Rwlock x)
        → OnErr result (WritesObject objects.old objects.new r (Rwlock x)) }
    ensures chains { (x : RwlockState) → object_value objects.old r ≡ Some (Rwlock x)
        → KeepsChains objects.old objects.new }
    ensures err { IfErr result (λ refusal. refusal ≡ Refusal.Enomem) }
{
    if let Some(object) = objects.at_mut(r.0) {
        if let Object::Rwlock(lock) = object {
            lock.make_row(c)?;
        }
    }
    Ok(())
}

/// Gives the client one more read lock.  [XSH pthread_rwlock_rdlock]
#[inline(always)]
pub fn acquire_read<A: Allocator + Copy>(
    objects: &mut Objects<Object<A>, A>,
    r: ObjectId,
    c: ClientId,
)
    requires exists { IsSome (rwlock_in (object_value objects.old r)) }
    requires allowed { (x : RwlockState) → object_value objects.old r ≡ Some (Rwlock x)
        → IsTrue (can_acquire_read x c) }
    ensures lock { (x : RwlockState) → object_value objects.old r ≡ Some (Rwlock x)
        → WritesObject objects.old objects.new r (Rwlock (with_reads x c (reads_of x c + 1))) }
    ensures chains { (x : RwlockState) → object_value objects.old r ≡ Some (Rwlock x)
        → KeepsChains objects.old objects.new }
    ensures row { (x : RwlockState) → object_value objects.old r ≡ Some (Rwlock x)
        → ChangesRow x (with_reads x c (reads_of x c + 1)) c (Some (reads_of x c + 1)) }
{
    if let Some(object) = objects.at_mut(r.0) {
        if let Object::Rwlock(lock) = object {
            lock.acquire_read(c);
        }
    }
}

/// Gives the client the write lock.  [XSH pthread_rwlock_wrlock]
pub fn acquire_write<A: Allocator + Copy>(
    objects: &mut Objects<Object<A>, A>,
    r: ObjectId,
    c: ClientId,
)
    requires exists { IsSome (rwlock_in (object_value objects.old r)) }
    requires free { (x : RwlockState) → object_value objects.old r ≡ Some (Rwlock x)
        → IsTrue (nobody_holds x) }
    ensures lock { (x : RwlockState) → object_value objects.old r ≡ Some (Rwlock x)
        → WritesObject objects.old objects.new r (Rwlock (record x { writer = Some c })) }
    ensures chains { (x : RwlockState) → object_value objects.old r ≡ Some (Rwlock x)
        → KeepsChains objects.old objects.new }
{
    if let Some(object) = objects.at_mut(r.0) {
        if let Object::Rwlock(lock) = object {
            lock.acquire_write(c);
        }
    }
}

/// Gives back the client's write lock, or one of its read locks.  [XSH pthread_rwlock_unlock]
pub fn release_lock<A: Allocator + Copy>(
    objects: &mut Objects<Object<A>, A>,
    r: ObjectId,
    c: ClientId,
)
    requires exists { IsSome (rwlock_in (object_value objects.old r)) }
    requires holder { (x : RwlockState) → object_value objects.old r ≡ Some (Rwlock x)
        → IsTrue (has_lock (view_for x c)) }
    ensures lock { (x : RwlockState) → object_value objects.old r ≡ Some (Rwlock x)
        → WritesObject objects.old objects.new r (Rwlock (rwlock_after_release x c)) }
    ensures chains { (x : RwlockState) → object_value objects.old r ≡ Some (Rwlock x)
        → KeepsChains objects.old objects.new }
    ensures row { (x : RwlockState) → object_value objects.old r ≡ Some (Rwlock x)
        → is_some_number x.writer c ≡ false
        → ChangesRow x (rwlock_after_release x c) c (Some (reads_of x c - 1)) }
{
    if let Some(object) = objects.at_mut(r.0) {
        if let Object::Rwlock(lock) = object {
            lock.release(c);
        }
    }
}

/// Returns whether the client in the row at an index holds the lock.  [XSH pthread_rwlock_unlock]
fn holds_lock<A: Allocator + Copy>(
    clients: &Clients<Caller, A>,
    lock: &Holders<A>,
    i: usize,
) -> bool
    ensures { result ≡ is_some_and (λ c. has_lock (view_for lock.now c))
        (nth_number clients.now i) }
{
    match clients.nth(i) {
        Some((number, _)) => lock.holds(ClientId(number)),
        None => false,
    }
}

/// Returns whether a client with a row holds the lock.  [XSH pthread_rwlock_destroy]
pub fn any_holds<A: Allocator + Copy>(clients: &Clients<Caller, A>, lock: &Holders<A>) -> bool
    ensures { result ≡ list_any (λ row. has_lock (view_for lock.now row.number)) clients.now }
{
    for i in 0..clients.len() {
        if holds_lock(clients, lock, i) {
            return true;
        }
    }
    false
}
