//! The law of turns. The function has an empty body: its contract is the law.

ghost use Rattle.pt_states.specs.Laws.{Turns};

/// The turns at an object are those of all clients whose calls wait there, in the order of their
/// keys.  [XSH 2.8.4]
#[tactic(auto, using(crate::proofs::InTurn::turns_law))]
pub fn law_turns()
    ensures { Turns }
{}
