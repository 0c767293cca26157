//! Seals that put the entries aside, so that a state can go back to them.

ghost use Rattle.std.specs.Prelude.{◌≡◌, ◌≤◌, [], IfErr, IfOk, OnErr, map};
ghost use Rattle.pt_types.specs.Limits.{max_place};
ghost use Rattle.pt_model.specs.Histories.{Begin, place};
ghost use Rattle.pt_model.specs.Seals.{seal};
ghost use Rattle.pt_model.specs.StartRows.{start_of_rows};
ghost use Rattle.pt_model.specs.Steps.{Follows};
ghost use Rattle.pt_history.specs.Stored.{stored_history};
ghost use Rattle.pt_records.specs.Logs.{log, log_entry};
ghost use Rattle.pt_state.specs.Adds.{history_of};
ghost use Rattle.pt_state.specs.Reads.{AreTables};
ghost use Rattle.pt_state.specs.Sealed.{SealsWithRoom, StaysOrGrows};

use crate::sealing::start::start_of;
use crate::state::State;
use pt_history::History;
use pt_records::AnswerLog;
use pt_types::Refusal;
use std::alloc::{AllocError, Allocator, Global};
use std::mem::replace;

/// The history and the answers that a seal puts aside.
#[derive(Drop)]
pub struct Unsealed<A: Allocator + Copy = Global> {
    pub stored: History<A>,
    pub answers: AnswerLog<A>,
}

// Returns a history that begins with the seal of a state's history and has room for `room` entries.
// Returns ENOMEM if a growth is refused.
fn sealed_history<A: Allocator + Copy>(state: &State<A>, room: u64) -> Result<History<A>, Refusal>
    requires tables { AreTables state.now }
    requires places { place (history_of state.now) ≤ max_place }
    requires room { room ≤ state.now.stored.limit }
    ensures starts { IfOk result (λ h. start_of_rows h.start ≡ seal (history_of state.now)) }
    ensures entries { IfOk result (λ h. h.entries ≡ []) }
    ensures limit { IfOk result (λ h. h.limit ≡ state.now.stored.limit) }
    ensures room { IfOk result (λ h. h.room ≡ room) }
    ensures err { IfErr result (λ refusal. refusal ≡ Refusal.Enomem) }
{
    let mut stored = state.stored.successor(state.alloc)?;
    let Ok(()) = stored.reserve_for(room) else {
        return Err(Refusal::Enomem);
    };
    match start_of(state) {
        Ok(start) => {
            stored.seal(start);
            Ok(stored)
        }
        Err(AllocError) => Err(Refusal::Enomem),
    }
}

/// Puts the entries and the answers aside, and returns them. The history goes on from its seal,
/// with room for `room` entries and answers. Clients, objects and clocks stay as they are. Returns
/// ENOMEM if a growth is refused; then nothing changes.
pub fn seal_with_room<A: Allocator + Copy>(
    state: &mut State<A>,
    room: u64,
) -> Result<Unsealed<A>, Refusal>
    requires tables { AreTables state.old }
    requires places { place (history_of state.old) ≤ max_place }
    requires room { room ≤ state.old.stored.limit }
    ensures ok { IfOk result (λ unsealed. SealsWithRoom state.old state.new room) }
    ensures stored { IfOk result (λ unsealed. unsealed.stored ≡ state.old.stored) }
    ensures answers { IfOk result (λ unsealed. unsealed.answers ≡ state.old.answers) }
    ensures unchanged { OnErr result (state.new ≡ state.old) }
    ensures err { IfErr result (λ refusal. refusal ≡ Refusal.Enomem) }
{
    let Ok(answers) = AnswerLog::with_room(state.alloc, room as usize) else {
        return Err(Refusal::Enomem);
    };
    // The rows of the Start are copied from the objects by index, which is fast once they are
    // packed.
    state.objects.pack();
    let stored = sealed_history(state, room)?;
    Ok(Unsealed {
        stored: replace(&mut state.stored, stored),
        answers: replace(&mut state.answers, answers),
    })
}

/// Goes back to the entries and the answers that were put aside. No entry may have been pushed
/// since.
pub fn unseal<A: Allocator + Copy>(state: &mut State<A>, unsealed: Unsealed<A>)
    requires tables { AreTables state.old }
    requires begins { history_of state.old ≡ Begin (seal (stored_history unsealed.stored)) }
    requires follows { Follows (stored_history unsealed.stored) }
    requires replies { map log_entry unsealed.answers.items ≡ log (stored_history unsealed.stored) }
    ensures stored { state.new.stored ≡ unsealed.stored }
    ensures answers { state.new.answers ≡ unsealed.answers }
    ensures read { AreTables state.new }
{
    state.stored = unsealed.stored;
    state.answers = unsealed.answers;
}

/// Moves entries and answers into the memory of those that were put aside and are no longer needed.
/// So a seal does not free memory that the history would soon ask for again.
pub fn take_memory<A: Allocator + Copy>(state: &mut State<A>, unsealed: Unsealed<A>)
    requires { AreTables state.old }
    ensures { StaysOrGrows state.old state.new }
{
    state.stored.take_memory(unsealed.stored);
    state.answers.take_memory(unsealed.answers);
}
