//! The rows of a Start that copy the objects.

ghost use Rattle.std.specs.Prelude.{◌≡◌, ◌++◌, ◌∷◌, [], IfOk, OnOk, map};
ghost use Rattle.pt_state.specs.Copies.{holders_start, object_start};
ghost use Rattle.pt_records.specs.Objects.{kind_in_row};

use pt_model::{StartHolders, StartObject};
use pt_records::Object;
use pt_table::{ObjectRow, Objects};
use pt_types::{ObjectId, ObjectKind};
use std::alloc::{AllocError, Allocator};

// Returns who holds an object, except for the readers of a lock.  [XSH 2.9]
fn copy_holders<A: Allocator + Copy>(object: &Object<A>) -> StartHolders
    ensures { result ≡ holders_start object.now }
{
    match object {
        Object::Mutex(m) => StartHolders::Mutex(m.consistency(), m.owner(), m.count() as u64),
        Object::Rwlock(lock) => StartHolders::Rwlock(lock.writer()),
        Object::Cond(_) | Object::Barrier(_) => StartHolders::Others,
    }
}

// Returns the kind that an object was made with.  [XSH 2.9]
fn copy_kind<A: Allocator + Copy>(object: &Object<A>) -> ObjectKind
    ensures { result ≡ kind_in_row object.now }
{
    match object {
        Object::Mutex(m) => ObjectKind::Mutex(m.kind(), m.is_robust()),
        Object::Rwlock(_) => ObjectKind::Rwlock,
        Object::Cond(_) => ObjectKind::Cond,
        Object::Barrier(barrier) => ObjectKind::Barrier(barrier.count() as u64),
    }
}

// Copies an object with its number, its name, its kind and its holders.
fn copy_object<A: Allocator + Copy>(row: &ObjectRow<Object<A>>) -> StartObject
    ensures { result ≡ object_start row.now }
{
    StartObject {
        number: ObjectId(row.number),
        name: row.name.copied(),
        kind: copy_kind(&row.value),
        holders: copy_holders(&row.value),
    }
}

// Appends a copy of an object.
fn add_object<A: Allocator + Copy>(
    rows: &mut Vec<StartObject, A>,
    row: &ObjectRow<Object<A>>,
) -> Result<(), AllocError>
    ensures { OnOk result (rows.new.items ≡ rows.old.items ++ object_start row.now ∷ []) }
{
    rows.push(copy_object(row))?;
    Ok(())
}

/// Copies the objects, in the order in which they were made.
pub(crate) fn copy_objects<A: Allocator + Copy>(
    objects: &Objects<Object<A>, A>,
    alloc: A,
) -> Result<Vec<StartObject, A>, AllocError>
    ensures { IfOk result (λ rows. rows.items ≡ map object_start objects.now) }
{
    let mut rows = Vec::with_capacity(alloc, objects.len())?;
    for i in 0..objects.len() {
        if let Some(row) = objects.row(i) {
            add_object(&mut rows, row)?;
        }
    }
    Ok(rows)
}
