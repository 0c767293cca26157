//! Sealing the history, then pushing an accepted event's entry and the forced ones after it.

ghost use Rattle.std.specs.Prelude.{◌≡◌, ◌≤◌, None, OnOk, OnErr, IfErr};
ghost use Rattle.pt_types.specs.Limits.{max_place};
ghost use Rattle.pt_model.specs.Histories.{place, ◌▷◌};
ghost use Rattle.pt_model.specs.Room.{refusal as refusal_in, entry_for, need as need_in, room_for};
ghost use Rattle.pt_state.specs.Adds.{AddsNothing, history_of};
ghost use Rattle.pt_core.specs.Renewing.{EntersSealed};
ghost use Rattle.pt_core.specs.ValidStates.{HasForcedRoom, IsValidState};

use crate::settling::settle;
use pt_machine::Machine;
use pt_model::Event;
use pt_types::Refusal;
use pt_waitq::WaitList;
use std::alloc::Allocator;

/// Seals the history, and pushes the entry of an accepted event and what must follow it. ENOMEM if
/// a growth is refused; then nothing is sealed or pushed.  [profile]
pub fn enter_sealed<Q: WaitList, A: Allocator + Copy>(
    body: &mut Machine<Q, A>,
    event: &Event,
    need: u64,
) -> Result<(), Refusal>
    requires valid { IsValidState body.old }
    requires accepted { refusal_in (history_of body.old) event.now ≡ None }
    requires need { let h = history_of body.old in need ≡ need_in (h ▷ entry_for h event.now) }
    requires within { need ≤ 8195 }
    requires places { place (history_of body.old) ≤ max_place }
    requires fits { room_for (history_of body.old) event.now ≤ body.old.stored.limit }
    ensures ok { OnOk result (EntersSealed body.old.stored event.now body.new.stored) }
    ensures room { OnOk result (HasForcedRoom body.new) }
    ensures unchanged { OnErr result (AddsNothing body.old body.new) }
    ensures err { IfErr result (λ refusal. refusal ≡ Refusal.Enomem) }
{
    let room = body.room().max(1 + need);
    let unsealed = body.push_outer_sealed(event, room)?;
    settle(body);
    body.take_memory(unsealed);
    Ok(())
}
