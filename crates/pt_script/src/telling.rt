//! The lines of a cutter, answered as a telling of them.

ghost use Rattle.std.specs.Prelude.{◌≡◌, ◌<◌, ◌+◌, ◌^◌, [], length, OnOk, IfErr};
ghost use Rattle.pt_grammar.specs.Lines.{lines_to_come, HasNoWholeLine};
ghost use Rattle.pt_engine.specs.Engines.{as_script};
ghost use Rattle.pt_script.specs.Tellings.{TellsBetween, TellsCuts, answers};

use pt_engine::{Engine, ScriptFault};
use pt_legal::LegalHistory;
use pt_lines::Cutter;
use std::alloc::Allocator;

/// Answers all lines that the cutter has in whole, and appends their answers.
#[tactic(auto, using(crate::proofs::Tellings::all_tells_answers))]
pub fn tell_all<C: LegalHistory, A: Allocator + Copy>(
    engine: &mut Engine<C, A>,
    cutter: &mut Cutter<A>,
    out: &mut Vec<u8, A>,
) -> Result<(), ScriptFault>
    requires { length engine.old.seen + length (lines_to_come cutter.old []) < 2 ^ 53 }
    ensures ok { OnOk result (TellsBetween answers cutter.old (as_script engine.old) out.old.items
        cutter.new (as_script engine.new) out.new.items) }
    ensures begun { OnOk result (HasNoWholeLine cutter.new) }
    ensures err { IfErr result (λ fault. fault ≡ ScriptFault.Memory) }
{
    engine.answer_all(cutter, out)?;
    Ok(())
}

/// Answers the last line, if there is one that no newline ended.
#[tactic(auto, using(crate::proofs::Tellings::tells_answers))]
pub fn tell_last<C: LegalHistory, A: Allocator + Copy>(
    engine: &mut Engine<C, A>,
    cutter: Cutter<A>,
    out: &mut Vec<u8, A>,
) -> Result<(), ScriptFault>
    requires begun { HasNoWholeLine cutter }
    requires within { length engine.old.seen < 2 ^ 53 }
    ensures ok { OnOk result (TellsCuts answers (as_script engine.old) (lines_to_come cutter [])
        out.old.items (as_script engine.new) out.new.items) }
    ensures err { IfErr result (λ fault. fault ≡ ScriptFault.Memory) }
{
    engine.answer_last(cutter, out)?;
    Ok(())
}
