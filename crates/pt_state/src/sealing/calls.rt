//! The rows of a Start that copy the open calls.

ghost use Rattle.std.specs.Prelude.{◌≡◌, ◌++◌, IfOk, OnOk, map, option_to_list};
ghost use Rattle.pt_records.specs.Callers.{opens_of};
ghost use Rattle.pt_state.specs.Copies.{call_start};

use pt_model::StartCall;
use pt_records::{Caller, Open};
use pt_table::Clients;
use std::alloc::{AllocError, Allocator};

// Appends an open call with its move, if there is one.
fn add_call<A: Allocator + Copy>(
    rows: &mut Vec<StartCall, A>,
    open: Option<Open>,
) -> Result<(), AllocError>
    ensures { OnOk result (rows.new.items
        ≡ rows.old.items ++ map call_start (option_to_list «open»)) }
{
    if let Some(Open { call, moved }) = open {
        rows.push(StartCall { call, moved })?;
    }
    Ok(())
}

/// Copies the open calls with their moves, in the order in which their clients joined.
pub(crate) fn copy_calls<A: Allocator + Copy>(
    clients: &Clients<Caller, A>,
    alloc: A,
) -> Result<Vec<StartCall, A>, AllocError>
    ensures { IfOk result (λ rows. rows.items ≡ map call_start (opens_of clients.now)) }
{
    let mut rows = Vec::new(alloc);
    for i in 0..clients.len() {
        if let Some(row) = clients.row(i) {
            add_call(&mut rows, row.value.open)?;
        }
    }
    Ok(rows)
}
