//! Who holds a read-write lock.

ghost use Rattle.std.specs.Prelude.{◌≡◌, ◌++◌, [], OnOk, IfErr};
ghost use Rattle.pt_types.specs.RwlockTable.{has_lock};
ghost use Rattle.pt_legal.specs.Cores.{history_of, core_state};
ghost use Rattle.pt_states.specs.States.{dead_words, hold_words};
ghost use Rattle.pt_states.specs.States.{holder, holders, lock_seen, rwlock_words};

use crate::clients::{put_if_dead, put_if_many};
use pt_entries::put;
use pt_grammar::ClientName;
use pt_readable::ReadableHistory;
use pt_types::views::RwlockView;
use pt_types::{ClientId, Name, Refusal};
use std::alloc::Allocator;

// Returns the lock that has the name as a client sees it, or one that nobody holds.  [XSH 2.9]
fn lock_seen<C: ReadableHistory>(core: &C, n: &Name, c: ClientId) -> RwlockView
    ensures { result ≡ lock_seen (history_of (core_state (C.seen core.now))) n.now c }
{
    core.rwlock(n, c).unwrap_or(RwlockView {
        writes: false,
        reads: 0,
        is_written: false,
        is_read: false,
    })
}

// Returns whether the caller holds the lock in either way.  [XSH pthread_rwlock_unlock]
fn holds(lock: &RwlockView) -> bool
    ensures { result ≡ has_lock lock.now }
{
    lock.writes || lock.reads > 0
}

// Returns what is said of a dead client that holds a lock.
fn dead_words(writes: bool) -> &'static [u8]
    ensures { result.now ≡ dead_words writes }
{
    if writes {
        b", which is dead"
    } else {
        b" (dead)"
    }
}

// Returns what is said of a lock before its holders.
fn hold_words(lock: &RwlockView) -> &'static [u8]
    ensures { result.now ≡ hold_words lock.now.is_written lock.now.is_read }
{
    match (lock.is_written, lock.is_read) {
        (true, _) => b"written by ",
        (false, true) => b"read by ",
        (false, false) => b"free",
    }
}

// Appends a client that holds a lock, and how many read locks it has.
// [XSH pthread_rwlock_rdlock]
fn put_holder<C: ReadableHistory, A: Allocator + Copy>(
    out: &mut Vec<u8, A>,
    core: &C,
    client: &(ClientName, ClientId),
    lock: &RwlockView,
) -> Result<(), Refusal>
    ensures ok { OnOk result (out.new.items ≡ out.old.items
        ++ holder (history_of (core_state (C.seen core.now))) client.now lock.now) }
    ensures err { IfErr result (λ refusal. refusal ≡ Refusal.Enomem) }
{
    let (name, c) = client;
    put(out, name.as_bytes())?;
    put_if_many(out, lock.reads, b")")?;
    put_if_dead(out, core, *c, dead_words(lock.writes))
}

// Appends the clients that hold a lock, with commas between them.  [XSH 2.9]
fn put_holders<C: ReadableHistory, A: Allocator + Copy>(
    out: &mut Vec<u8, A>,
    core: &C,
    clients: &[(ClientName, ClientId)],
    n: &Name,
) -> Result<(), Refusal>
    ensures ok { OnOk result (out.new.items ≡ out.old.items
        ++ holders (history_of (core_state (C.seen core.now))) n.now [] clients.now) }
    ensures err { IfErr result (λ refusal. refusal ≡ Refusal.Enomem) }
{
    let mut lead: &[u8] = b"";
    for client in clients {
        let lock = lock_seen(core, n, client.1);
        if holds(&lock) {
            put(out, lead)?;
            put_holder(out, core, client, &lock)?;
            lead = b", ";
        }
    }
    Ok(())
}

/// Appends who holds the read-write lock that has the name.  [XSH 2.9]
pub fn put_rwlock<C: ReadableHistory, A: Allocator + Copy>(
    out: &mut Vec<u8, A>,
    core: &C,
    clients: &[(ClientName, ClientId)],
    n: &Name,
) -> Result<(), Refusal>
    ensures ok { OnOk result (out.new.items ≡ out.old.items
        ++ rwlock_words (history_of (core_state (C.seen core.now))) clients.now n.now) }
    ensures err { IfErr result (λ refusal. refusal ≡ Refusal.Enomem) }
{
    put(out, hold_words(&lock_seen(core, n, ClientId(0))))?;
    put_holders(out, core, clients, n)
}
