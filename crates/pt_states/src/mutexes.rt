//! Who owns a mutex, and its consistency.

ghost use Rattle.std.specs.Prelude.{◌≡◌, ◌++◌, Some, OnOk, IfErr};
ghost use Rattle.pt_legal.specs.Cores.{history_of, core_state};
ghost use Rattle.pt_readable.specs.Reading.{mutex_named};
ghost use Rattle.pt_states.specs.States.{mutex_words, owner_words};

use crate::clients::{name_of, put_if_dead, put_if_many};
use pt_entries::put;
use pt_grammar::ClientName;
use pt_readable::ReadableHistory;
use pt_types::views::MutexView;
use pt_types::{ClientId, Consistency, Name, Refusal};
use std::alloc::Allocator;

// Appends the owner of a mutex, and how often it has locked it.  [XSH pthread_mutex_lock]
fn put_owner<C: ReadableHistory, A: Allocator + Copy>(
    out: &mut Vec<u8, A>,
    core: &C,
    clients: &[(ClientName, ClientId)],
    m: &MutexView,
) -> Result<(), Refusal>
    ensures ok { OnOk result (out.new.items ≡ out.old.items
        ++ owner_words (history_of (core_state
        (C.seen core.now))) clients.now m.now.owner m.now.count) }
    ensures err { IfErr result (λ refusal. refusal ≡ Refusal.Enomem) }
{
    match m.owner {
        Some(c) => {
            put(out, b"owned by ")?;
            put(out, name_of(clients, c))?;
            put_if_dead(out, core, c, b", which is dead")?;
            put_if_many(out, m.count, b" locks)")
        }
        None => put(out, b"free"),
    }
}

// Appends who owns a mutex, and its consistency.  [XSH 2.9.3]
fn put_view<C: ReadableHistory, A: Allocator + Copy>(
    out: &mut Vec<u8, A>,
    core: &C,
    clients: &[(ClientName, ClientId)],
    m: &MutexView,
) -> Result<(), Refusal>
    ensures ok { OnOk result (out.new.items ≡ out.old.items
        ++ mutex_words (history_of (core_state (C.seen core.now))) clients.now (Some m.now)) }
    ensures err { IfErr result (λ refusal. refusal ≡ Refusal.Enomem) }
{
    match m.consistency {
        Consistency::Consistent => put_owner(out, core, clients, m),
        Consistency::Inconsistent => {
            put_owner(out, core, clients, m)?;
            put(out, b"; inconsistent")
        }
        Consistency::NotRecoverable => put(out, b"not recoverable"),
    }
}

/// Appends who owns the mutex that has the name, and its consistency.  [XSH 2.9.3]
pub fn put_mutex<C: ReadableHistory, A: Allocator + Copy>(
    out: &mut Vec<u8, A>,
    core: &C,
    clients: &[(ClientName, ClientId)],
    n: &Name,
) -> Result<(), Refusal>
    ensures ok { OnOk result (out.new.items ≡ out.old.items
        ++ mutex_words (history_of (core_state (C.seen core.now))) clients.now
        (mutex_named (history_of (core_state (C.seen core.now))) n.now)) }
    ensures err { IfErr result (λ refusal. refusal ≡ Refusal.Enomem) }
{
    match core.mutex(n) {
        Some(m) => put_view(out, core, clients, &m),
        None => Ok(()),
    }
}
