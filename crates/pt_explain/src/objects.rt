//! The rows of the objects that a line's call names: who holds each, and who is next.

ghost use Rattle.std.specs.Prelude.{◌≡◌, ◌++◌, OnOk, IfErr};
ghost use Rattle.pt_legal.specs.Cores.{core_state};
ghost use Rattle.pt_explain.specs.ObjectRows.{object_rows};

use crate::entries::call_at;
use pt_engine::ScriptFault;
use pt_lines::ClientName;
use pt_readable::ReadableHistory;
use pt_states::put_states;
use pt_types::ClientId;
use std::alloc::Allocator;

/// The greatest number of clients with which objects have rows. To list those that wait, each
/// client is looked at: with 1,000 that wait for one mutex, an explanation took 500 times as long.
/// [profile]
const MAX_LISTED: usize = 32;

/// Appends the rows of the objects that the call at a place names, if the entry there is a call.
/// Appends none once more clients have joined than are listed.  [profile]
pub fn put_objects<C: ReadableHistory, A: Allocator + Copy>(
    out: &mut Vec<u8, A>,
    core: &C,
    clients: &[(ClientName, ClientId)],
    place: u64,
) -> Result<(), ScriptFault>
    ensures ok { OnOk result (out.new.items ≡ out.old.items
        ++ object_rows (core_state (C.seen core.now)) clients.now place) }
    ensures err { IfErr result (λ fault. fault ≡ ScriptFault.Memory) }
{
    if clients.len() > MAX_LISTED {
        return Ok(());
    }
    let Some(call) = call_at(core, place) else {
        return Ok(());
    };
    match put_states(out, core, clients, &call) {
        Ok(()) => Ok(()),
        Err(_) => Err(ScriptFault::Memory),
    }
}
