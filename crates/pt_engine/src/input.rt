//! The lines of a cutter, answered one after another.

ghost use Rattle.std.specs.Prelude.{◌≡◌, ◌<◌, ◌+◌, ◌^◌, [], length, OnOk, IfOk, IfErr};

use crate::engine::Engine;
use crate::fault::ScriptFault;
use pt_legal::LegalHistory;
use pt_lines::{Cutter, ScriptLine};
use std::alloc::Allocator;

impl<C: LegalHistory, A: Allocator + Copy> Engine<C, A> {
    ghost use Rattle.std.specs.Bool.{OnTrue, OnFalse};
    ghost use Rattle.pt_grammar.specs.Lines.{lines_to_come, HasNoWholeLine};
    ghost use Rattle.pt_engine.specs.Engines.{AnswersBetween, AnswersCuts, as_script};

    // Answers the next line as the cutter reads it and returns true, if the cutter has the whole
    // line. It isn't inlined, so that other lines need not clear space for it.
    #[inline(never)]
    #[tactic(auto, using(crate::proofs::Runs::answers_none, crate::proofs::Runs::answers_same))]
    fn answer_cut(
        &mut self,
        cutter: &mut Cutter<A>,
        out: &mut Vec<u8, A>,
    ) -> Result<bool, ScriptFault>
        requires { length self.old.seen < 2 ^ 53 }
        ensures ok { OnOk result
            (AnswersBetween cutter.old (as_script self.old) out.old.items
            cutter.new (as_script self.new) out.new.items) }
        ensures fewer { IfOk result (λ more.
            OnTrue more (length cutter.new.rest < length cutter.old.rest)) }
        ensures begun { IfOk result (λ more. OnFalse more (HasNoWholeLine cutter.new)) }
        ensures err { IfErr result (λ fault. fault ≡ ScriptFault.Memory) }
    {
        match cutter.next_script_line() {
            Some(line) => {
                self.answer(line, out)?;
                Ok(true)
            }
            None => Ok(false),
        }
    }

    // Answers the next line and returns true, if the cutter has the whole line.
    #[inline(always)]
    #[tactic(auto, using(crate::proofs::Runs::answers_none, crate::proofs::Runs::answers_same))]
    fn answer_next(
        &mut self,
        cutter: &mut Cutter<A>,
        out: &mut Vec<u8, A>,
    ) -> Result<bool, ScriptFault>
        requires { length self.old.seen < 2 ^ 53 }
        ensures ok { OnOk result
            (AnswersBetween cutter.old (as_script self.old) out.old.items
            cutter.new (as_script self.new) out.new.items) }
        ensures fewer { IfOk result (λ more.
            OnTrue more (length cutter.new.rest < length cutter.old.rest)) }
        ensures begun { IfOk result (λ more. OnFalse more (HasNoWholeLine cutter.new)) }
        ensures err { IfErr result (λ fault. fault ≡ ScriptFault.Memory) }
    {
        if let Some(text) = cutter.front_text() {
            let len = text.len();
            self.answer_text(text, out)?;
            cutter.drop_front(len);
            return Ok(true);
        }
        self.answer_cut(cutter, out)
    }

    /// Answers all lines that the cutter has in whole, and appends their answers. A refused growth
    /// for which no line is answered ENOMEM is a fault. The engine is of no use after it.
    #[tactic(auto, using(crate::proofs::Runs::answers_none, crate::proofs::Runs::answers_join))]
    pub fn answer_all(
        &mut self,
        cutter: &mut Cutter<A>,
        out: &mut Vec<u8, A>,
    ) -> Result<(), ScriptFault>
        requires { length self.old.seen + length (lines_to_come cutter.old []) < 2 ^ 53 }
        ensures ok { OnOk result
            (AnswersBetween cutter.old (as_script self.old) out.old.items
            cutter.new (as_script self.new) out.new.items) }
        ensures begun { OnOk result (HasNoWholeLine cutter.new) }
        ensures err { IfErr result (λ fault. fault ≡ ScriptFault.Memory) }
    {
        while self.answer_next(cutter, out)? {}
        Ok(())
    }

    /// Answers the last line, if there is one that no newline ended. Faults are as in `answer_all`.
    #[tactic(auto, using(crate::proofs::Runs::last_none))]
    pub fn answer_last(
        &mut self,
        cutter: Cutter<A>,
        out: &mut Vec<u8, A>,
    ) -> Result<(), ScriptFault>
        requires begun { HasNoWholeLine cutter }
        requires within { length self.old.seen < 2 ^ 53 }
        ensures ok { OnOk result
            (AnswersCuts (as_script self.old) (lines_to_come cutter []) out.old.items
            (as_script self.new) out.new.items) }
        ensures err { IfErr result (λ fault. fault ≡ ScriptFault.Memory) }
    {
        match cutter.finish() {
            Some(cut) => {
                self.answer(ScriptLine::of(&cut), out)?;
                Ok(())
            }
            None => Ok(()),
        }
    }
}
