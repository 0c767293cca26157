//! The rows of the objects that a call names.

ghost use Rattle.std.specs.Prelude.{◌≡◌, ◌++◌, OnOk, IfErr};
ghost use Rattle.pt_types.specs.Operations.{operation};
ghost use Rattle.pt_legal.specs.Cores.{history_of, core_state};
ghost use Rattle.pt_states.specs.States.{object_words, state};
ghost use Rattle.pt_states.specs.States.{states};
ghost use Rattle.pt_states.specs.Turns.{turns_at as turns_meant};

use crate::mutexes::put_mutex;
use crate::rwlocks::put_rwlock;
use crate::turns::turns_at;
use crate::waiting::{put_barrier, put_cond, put_turns};
use pt_entries::put;
use pt_grammar::ClientName;
use pt_readable::ReadableHistory;
use pt_types::operations::{ObjectClass, Operation, class_needed, operation_of};
use pt_types::{Call, ClientId, Name, ObjectId, Refusal};
use std::alloc::Allocator;

// Appends what the object of this class with this name and this number does.
fn put_object<C: ReadableHistory, A: Allocator + Copy>(
    out: &mut Vec<u8, A>,
    core: &C,
    clients: &[(ClientName, ClientId)],
    n: &Name,
    class: ObjectClass,
    o: ObjectId,
) -> Result<(), Refusal>
    ensures ok { OnOk result (out.new.items ≡ out.old.items
        ++ object_words (history_of (core_state (C.seen core.now))) clients.now n.now class
        (turns_meant (history_of (core_state (C.seen core.now))) class o clients.now)) }
    ensures err { IfErr result (λ refusal. refusal ≡ Refusal.Enomem) }
{
    let turns = turns_at(*out.allocator(), core, clients, class, o)?;
    match class {
        ObjectClass::Mutex => {
            put_mutex(out, core, clients, n)?;
            put_turns(out, b"; next: ", ObjectClass::Mutex, &turns)
        }
        ObjectClass::Rwlock => {
            put_rwlock(out, core, clients, n)?;
            put_turns(out, b"; next: ", ObjectClass::Rwlock, &turns)
        }
        ObjectClass::Cond => put_cond(out, &turns),
        ObjectClass::Barrier => put_barrier(out, core.barrier_count(n).unwrap_or(0), &turns),
    }
}

// Appends the row of the object of this class that has the name, if one does.
fn put_state<C: ReadableHistory, A: Allocator + Copy>(
    out: &mut Vec<u8, A>,
    core: &C,
    clients: &[(ClientName, ClientId)],
    n: &Name,
    class: ObjectClass,
) -> Result<(), Refusal>
    ensures ok { OnOk result (out.new.items ≡ out.old.items
        ++ state (history_of (core_state (C.seen core.now))) clients.now n.now class) }
    ensures err { IfErr result (λ refusal. refusal ≡ Refusal.Enomem) }
{
    match core.find(n, class) {
        Some(o) => {
            put(out, b"       ")?;
            put(out, n.as_bytes())?;
            put(out, b": ")?;
            put_object(out, core, clients, n, class, o)?;
            put(out, b"\n")
        }
        None => Ok(()),
    }
}

/// Appends the rows of the objects that a call names, except one that it makes, in the order of its
/// arguments. ENOMEM is for a refused growth.  [profile]
pub fn put_states<C: ReadableHistory, A: Allocator + Copy>(
    out: &mut Vec<u8, A>,
    core: &C,
    clients: &[(ClientName, ClientId)],
    call: &Call,
) -> Result<(), Refusal>
    ensures ok { OnOk result (out.new.items ≡ out.old.items
        ++ states (history_of (core_state (C.seen core.now))) clients.now
        (operation call.now)) }
    ensures err { IfErr result (λ refusal. refusal ≡ Refusal.Enomem) }
{
    match operation_of(call) {
        Operation::Inits(_, _) => Ok(()),
        Operation::Ends(n, class) => put_state(out, core, clients, n, class),
        Operation::Acquires(n, lock_kind, _) => {
            put_state(out, core, clients, n, class_needed(lock_kind))
        }
        Operation::Unlocks(n) => put_state(out, core, clients, n, ObjectClass::Mutex),
        Operation::Restores(n) => put_state(out, core, clients, n, ObjectClass::Mutex),
        Operation::Rwunlocks(n) => put_state(out, core, clients, n, ObjectClass::Rwlock),
        Operation::CondWaits(n, m, _) => {
            put_state(out, core, clients, n, ObjectClass::Cond)?;
            put_state(out, core, clients, m, ObjectClass::Mutex)
        }
        Operation::Signals(n) => put_state(out, core, clients, n, ObjectClass::Cond),
        Operation::Broadcasts(n) => put_state(out, core, clients, n, ObjectClass::Cond),
        Operation::BarrierWaits(n) => put_state(out, core, clients, n, ObjectClass::Barrier),
    }
}
