//! The rows of a Start that copy the readers of locks.

ghost use Rattle.std.specs.Prelude.{◌≡◌, ◌++◌, OnOk, IfOk};
ghost use Rattle.pt_state.specs.Copies.{readers_at, readers_in, readers_of};

use pt_model::StartReader;
use pt_records::Object;
use pt_rwlock::Holders;
use pt_table::{ObjectRow, Objects};
use pt_types::{ClientId, ObjectId};
use std::alloc::{AllocError, Allocator};

// Appends the rows of a lock's readers.
fn add_readers_of<A: Allocator + Copy>(
    rows: &mut Vec<StartReader, A>,
    number: u64,
    lock: &Holders<A>,
) -> Result<(), AllocError>
    ensures { OnOk result (rows.new.items ≡ rows.old.items ++ readers_of number lock.now.rows) }
{
    let readers = lock.readers();
    for (client, count) in readers {
        rows.push(StartReader {
            lock: ObjectId(number),
            client: ClientId(*client),
            count: *count as u64,
        })?;
    }
    Ok(())
}

// Appends the rows of an object's readers, if it is a read-write lock.
fn add_readers<A: Allocator + Copy>(
    rows: &mut Vec<StartReader, A>,
    row: &ObjectRow<Object<A>>,
) -> Result<(), AllocError>
    ensures { OnOk result (rows.new.items
        ≡ rows.old.items ++ readers_at row.now.number row.now.value) }
{
    if let Object::Rwlock(lock) = &row.value {
        add_readers_of(rows, row.number, lock)?;
    }
    Ok(())
}

/// Copies the readers of all locks, lock by lock, in the order in which the locks were made.
/// [XSH pthread_rwlock_rdlock]
pub(crate) fn copy_readers<A: Allocator + Copy>(
    objects: &Objects<Object<A>, A>,
    alloc: A,
) -> Result<Vec<StartReader, A>, AllocError>
    ensures { IfOk result (λ rows. rows.items ≡ readers_in objects.now) }
{
    let mut rows = Vec::new(alloc);
    for i in 0..objects.len() {
        if let Some(row) = objects.row(i) {
            add_readers(&mut rows, row)?;
        }
    }
    Ok(rows)
}
