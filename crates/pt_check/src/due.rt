//! The answers that are due to a line.

ghost use Rattle.std.specs.Prelude.{◌≡◌, ◌<◌, ◌^◌, ◌++◌, ℕ, List, IsTrue, codes, length, IfOk};
ghost use Rattle.std.specs.Prelude.{IfErr};
ghost use Rattle.pt_grammar.specs.Script.{script_of};
ghost use Rattle.pt_engine.specs.Engines.{as_script};
ghost use Rattle.pt_check.specs.Agreements.{Met};

use crate::fault::CheckFault;
use pt_engine::Engine;
use pt_legal::LegalHistory;
use pt_lines::{Cut, ScriptLine};
use std::alloc::Allocator;

// Returns whether a text ends with the answer of a line for which memory was lacking.
fn is_unmet(text: &[u8]) -> bool
    ensures { (front : List ℕ) → text.now ≡ front ++ codes " ENOMEM\n" → IsTrue result }
{
    text.ends_with(b" ENOMEM\n")
}

/// Returns what the rules answer to a line: the text of its answers. A refused growth is a fault,
/// even if the line could be answered ENOMEM.
pub fn answer_line<C: LegalHistory, A: Allocator + Copy>(
    engine: &mut Engine<C, A>,
    alloc: A,
    line: &Cut,
) -> Result<Vec<u8, A>, CheckFault>
    requires { length engine.old.seen < 2 ^ 53 }
    ensures ok { IfOk result (λ text. Met (as_script engine.old) (script_of line.now)
        (as_script engine.new) text.items) }
    ensures err { IfErr result (λ fault. fault ≡ CheckFault.Memory) }
{
    let mut text = Vec::new(alloc);
    let Ok(()) = engine.answer(ScriptLine::of(line), &mut text) else {
        return Err(CheckFault::Memory);
    };
    if is_unmet(&text) {
        return Err(CheckFault::Memory);
    }
    Ok(text)
}
