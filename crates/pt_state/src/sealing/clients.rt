//! The rows of a Start that copy the living clients.

ghost use Rattle.std.specs.Prelude.{◌≡◌, ◌++◌, ◌∷◌, [], IfOk, OnOk, map};
ghost use Rattle.pt_state.specs.Copies.{client_start};

use pt_model::StartClient;
use pt_records::Caller;
use pt_table::{ClientRow, Clients};
use pt_types::ClientId;
use std::alloc::{AllocError, Allocator};

// Copies a client with its priority, its latest call and the answer to that call.
fn copy_client(row: &ClientRow<Caller>) -> StartClient
    ensures { result ≡ client_start row.now }
{
    StartClient {
        client: ClientId(row.number),
        priority: row.value.priority,
        latest: row.value.latest,
        answer: row.value.answer,
    }
}

// Appends a copy of a client.
fn add_client<A: Allocator + Copy>(
    rows: &mut Vec<StartClient, A>,
    row: &ClientRow<Caller>,
) -> Result<(), AllocError>
    ensures { OnOk result (rows.new.items ≡ rows.old.items ++ client_start row.now ∷ []) }
{
    rows.push(copy_client(row))?;
    Ok(())
}

/// Copies the living clients, in the order in which they joined.
pub(crate) fn copy_clients<A: Allocator + Copy>(
    clients: &Clients<Caller, A>,
    alloc: A,
) -> Result<Vec<StartClient, A>, AllocError>
    ensures { IfOk result (λ rows. rows.items ≡ map client_start clients.now) }
{
    let mut rows = Vec::with_capacity(alloc, clients.len())?;
    for i in 0..clients.len() {
        if let Some(row) = clients.row(i) {
            add_client(&mut rows, row)?;
        }
    }
    Ok(rows)
}
