//! Seals, which drop the entries of a body.

ghost use Rattle.std.specs.Prelude.{IfErr, None, OnErr, OnOk, ◌≡◌, ◌≤◌};
ghost use Rattle.pt_types.specs.Limits.{max_place};
ghost use Rattle.pt_model.specs.Forced.{forced};
ghost use Rattle.pt_model.specs.Histories.{place};
ghost use Rattle.pt_state.specs.Adds.{history_of};
ghost use Rattle.pt_state.specs.Reads.{AreTables};
ghost use Rattle.pt_state.specs.Sealed.{Seals};

use crate::machine::Machine;
use pt_state::seal;
use pt_types::Refusal;
use pt_waitq::WaitList;
use std::alloc::Allocator;

impl<Q: WaitList, A: Allocator + Copy> Machine<Q, A> {
    /// Seals a history after which nothing must follow: drops its entries and answers, and goes on
    /// from a Start with all that counts of them, with the place that comes next. ENOMEM if a
    /// growth is refused; then nothing changes.
    pub fn seal(&mut self) -> Result<(), Refusal>
        requires tables { AreTables self.old }
        requires settled { forced (history_of self.old) ≡ None }
        requires places { place (history_of self.old) ≤ max_place }
        ensures ok { OnOk result (Seals self.old self.new) }
        ensures unchanged { OnErr result (self.new ≡ self.old) }
        ensures err { IfErr result (λ refusal. refusal ≡ Refusal.Enomem) }
    {
        if let Err(_) = seal(&mut self.state) {
            return Err(Refusal::Enomem);
        }
        self.touched = None;
        self.entering = None;
        Ok(())
    }
}
