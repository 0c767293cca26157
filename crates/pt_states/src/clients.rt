//! The names of clients, and what is said of dead ones.

ghost use Rattle.std.specs.Prelude.{◌≡◌, ◌++◌, OnOk, IfErr};
ghost use Rattle.pt_legal.specs.Cores.{history_of, core_state};
ghost use Rattle.pt_states.specs.States.{if_dead, if_many, name_of};

use pt_entries::{put, put_number};
use pt_grammar::ClientName;
use pt_readable::ReadableHistory;
use pt_types::{ClientId, Refusal};
use std::alloc::Allocator;

/// Returns the name under which the client with this number joined.
pub fn name_of(clients: &[(ClientName, ClientId)], c: ClientId) -> &[u8]
    ensures { result.now ≡ name_of clients.now c }
{
    for (name, number) in clients {
        if *number == c {
            return name.as_bytes();
        }
    }
    b""
}

/// Appends a text if a client is dead.
pub fn put_if_dead<C: ReadableHistory, A: Allocator + Copy>(
    out: &mut Vec<u8, A>,
    core: &C,
    c: ClientId,
    text: &[u8],
) -> Result<(), Refusal>
    ensures ok { OnOk result
        (out.new.items ≡ out.old.items ++ if_dead (history_of (core_state
        (C.seen core.now))) c text.now) }
    ensures err { IfErr result (λ refusal. refusal ≡ Refusal.Enomem) }
{
    if core.is_alive(c) {
        Ok(())
    } else {
        put(out, text)
    }
}

/// Appends a number of locks with what follows it, if it is more than one.
pub fn put_if_many<A: Allocator + Copy>(
    out: &mut Vec<u8, A>,
    n: u64,
    end: &[u8],
) -> Result<(), Refusal>
    ensures ok { OnOk result (out.new.items ≡ out.old.items ++ if_many n end.now) }
    ensures err { IfErr result (λ refusal. refusal ≡ Refusal.Enomem) }
{
    if n <= 1 {
        return Ok(());
    }
    put(out, b" (")?;
    put_number(out, n)?;
    put(out, end)
}
