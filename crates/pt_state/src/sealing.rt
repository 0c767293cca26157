//! Seals: a state drops its entries, and its history goes on from a Start.

ghost use Rattle.std.specs.Prelude.{◌≡◌, ◌≤◌, OnErr, OnOk};
ghost use Rattle.pt_types.specs.Limits.{max_place};
ghost use Rattle.pt_model.specs.Histories.{place};
ghost use Rattle.pt_state.specs.Adds.{history_of};
ghost use Rattle.pt_state.specs.Reads.{AreTables};
ghost use Rattle.pt_state.specs.Sealed.{Seals};

use crate::state::State;
use std::alloc::{AllocError, Allocator};

mod calls;
mod clients;
mod objects;
mod readers;
mod renewing;
mod start;

pub use renewing::{Unsealed, seal_with_room, take_memory, unseal};
pub use start::start_of;

/// Drops the entries and the answers. The history goes on from its seal, at the place that comes
/// next. Clients, objects, clocks and the room stay as they are. Returns an error if a growth is
/// refused; then nothing changes.
pub fn seal<A: Allocator + Copy>(state: &mut State<A>) -> Result<(), AllocError>
    requires tables { AreTables state.old }
    requires places { place (history_of state.old) ≤ max_place }
    ensures ok { OnOk result (Seals state.old state.new) }
    ensures unchanged { OnErr result (state.new ≡ state.old) }
{
    // The rows of the Start are copied from the objects by index, which is fast once they are
    // packed.
    state.objects.pack();
    let start = start_of(state)?;
    state.stored.seal(start);
    state.answers.clear();
    Ok(())
}
