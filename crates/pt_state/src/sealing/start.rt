//! The Start that is copied from a whole state.

ghost use Rattle.std.specs.Prelude.{◌≡◌, ◌≤◌, IfOk};
ghost use Rattle.pt_model.specs.StartRows.{start_of_rows, rows_of_start};
ghost use Rattle.pt_model.specs.Seals.{seal};
ghost use Rattle.pt_state.specs.Adds.{history_of};
ghost use Rattle.pt_state.specs.Reads.{AreTables};

use crate::sealing::calls::copy_calls;
use crate::sealing::clients::copy_clients;
use crate::sealing::objects::copy_objects;
use crate::sealing::readers::copy_readers;
use crate::state::State;
use pt_model::Start;
use std::alloc::{AllocError, Allocator};

/// Returns the seal of a state's history: all that is known of it after its entries are dropped.
/// The state stays as it is. Returns an error if a growth is refused.
pub fn start_of<A: Allocator + Copy>(state: &State<A>) -> Result<Start<A>, AllocError>
    requires { AreTables state.now }
    ensures reads { IfOk result (λ start. start_of_rows (rows_of_start start)
        ≡ seal (history_of state.now)) }
    ensures counted { IfOk result (λ start. start.outer ≤ start.at) }
{
    Ok(Start {
        at: state.stored.len(),
        outer: state.stored.outer(),
        real: state.clocks.real,
        mono: state.clocks.mono,
        clients: copy_clients(&state.clients, state.alloc)?,
        objects: copy_objects(&state.objects, state.alloc)?,
        readers: copy_readers(&state.objects, state.alloc)?,
        calls: copy_calls(&state.clients, state.alloc)?,
    })
}
