//! The row of an object of any class.

ghost use Rattle.std.specs.Prelude.{IfErr, OnErr, OnOk, ◌+◌, ◌-◌, ◌<◌, ◌≡◌, false, length, true};
ghost use Rattle.pt_types.specs.Operations.{class_of as class_meant};
ghost use Rattle.pt_records.specs.Objects.{Rising, kind_in_row};
ghost use Rattle.pt_types.specs.ObjectTable.{is_invalid_kind};
ghost use Rattle.pt_records.specs.declared.objects.Object.TheVariants.{Mutex, Rwlock};
ghost use Rattle.pt_records.specs.Writes.{AddsObject, RemovesObject, new_object};
ghost use Rattle.pt_types.specs.Limits.{max_objects};
ghost use Rattle.pt_table.specs.ObjectRows.{has_object, is_in_use};

use pt_barrier::BarrierObj;
use pt_cond::CondObj;
use pt_mutex::MutexObj;
use pt_rwlock::Holders;
use pt_table::Objects;
use pt_types::operations::ObjectClass;
use pt_types::{Name, ObjectId, ObjectKind, Refusal};
use std::alloc::{Allocator, Global};

/// Returns the class of an object.  [XSH 2.9]
pub fn class_in_row<A: Allocator + Copy>(object: &Object<A>) -> ObjectClass
    ensures { result ≡ class_meant (kind_in_row object.now) }
{
    match object {
        Object::Mutex(_) => ObjectClass::Mutex,
        Object::Rwlock(_) => ObjectClass::Rwlock,
        Object::Cond(_) => ObjectClass::Cond,
        Object::Barrier(_) => ObjectClass::Barrier,
    }
}

/// The row of an object, by its class.  [XSH 2.9]
#[derive(Drop)]
pub enum Object<A: Allocator + Copy = Global> {
    Mutex(MutexObj),
    Rwlock(Holders<A>),
    Cond(CondObj),
    Barrier(BarrierObj),
}

/// Creates an object of this kind.  [XSH 2.9]
pub fn make<A: Allocator + Copy>(kind: ObjectKind, alloc: A) -> Object<A>
    requires { is_invalid_kind kind ≡ false }
    ensures { result ≡ new_object kind }
{
    match kind {
        ObjectKind::Mutex(kind, robust) => Object::Mutex(MutexObj::new(kind, robust)),
        ObjectKind::Rwlock => Object::Rwlock(Holders::new(alloc)),
        ObjectKind::Cond => Object::Cond(CondObj::new()),
        ObjectKind::Barrier(count) => Object::Barrier(BarrierObj::new(count as u32)),
    }
}

/// Adds the row of a new object. Returns ENOMEM if there is no memory for it.
#[inline(always)]
pub fn add<A: Allocator + Copy>(
    objects: &mut Objects<Object<A>, A>,
    o: ObjectId,
    name: &Name,
    object: Object<A>,
) -> Result<(), Refusal>
    requires new { is_in_use objects.old o name.now ≡ false }
    requires room { length objects.old < max_objects }
    requires rising { Rising objects.old o }
    ensures ok { OnOk result (AddsObject objects.old objects.new o name.now object) }
    ensures unchanged { OnErr result (objects.new ≡ objects.old) }
    ensures err { IfErr result (λ refusal. refusal ≡ Refusal.Enomem) }
{
    match objects.add_new(o.0, name, object) {
        Ok(()) => Ok(()),
        Err(_) => Err(Refusal::Enomem),
    }
}

/// Removes the object's row, and frees its name.
#[inline(always)]
pub fn remove<A: Allocator + Copy>(objects: &mut Objects<Object<A>, A>, o: ObjectId)
    requires { has_object objects.old o ≡ true }
    ensures { RemovesObject objects.old objects.new o }
{
    let _ = objects.remove(o.0);
}
