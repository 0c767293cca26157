//! The lines of a cutter, explained one after another.

ghost use Rattle.std.specs.Prelude.{◌≡◌, ◌<◌, ◌+◌, ◌^◌, [], length, OnOk, IfOk, IfErr};
ghost use Rattle.std.specs.Bool.{OnTrue, OnFalse};
ghost use Rattle.pt_grammar.specs.Lines.{lines_to_come, HasNoWholeLine};
ghost use Rattle.pt_engine.specs.Engines.{Appends, as_script};
ghost use Rattle.pt_script.specs.Tellings.{TellsBetween, TellsCuts};
ghost use Rattle.pt_explain.specs.Explanations.{Explains, explains};

use crate::appending::{put_byte, put_line, put_quoted};
use crate::effects::put_effects;
use crate::objects::put_objects;
use crate::reading::{copy_line, read_line};
use crate::reasons::own_reason;
use pt_engine::{Engine, ScriptFault};
use pt_lines::{Cut, Cutter};
use pt_readable::ReadableHistory;
use std::alloc::Allocator;

// Answers a line, and appends what explains it: the line, the entries that it added and why, or why
// it was refused, its answers, and what the objects that it names are doing after it. The answers
// are put together in `answers`, a buffer for one line after another. A refused growth for which
// the line is not answered ENOMEM is a fault.
fn explain_line<C: ReadableHistory, A: Allocator + Copy>(
    engine: &mut Engine<C, A>,
    cut: &Cut,
    answers: &mut Vec<u8, A>,
    out: &mut Vec<u8, A>,
) -> Result<(), ScriptFault>
    requires { length engine.old.seen < 2 ^ 53 }
    ensures ok { OnOk result (Appends (Explains (as_script engine.old) cut.now
        (as_script engine.new))
        out.old.items out.new.items) }
    ensures err { IfErr result (λ fault. fault ≡ ScriptFault.Memory) }
{
    let place = engine.entries();
    let line = read_line(cut);
    let request = engine.event_of(copy_line(&line));
    let own = own_reason(engine, &request);
    answers.clear();
    engine.answer(line, answers)?;
    put_line(out, cut)?;
    put_effects(out, engine, &request, place, &own)?;
    put_quoted(out, answers)?;
    put_objects(out, engine.core(), engine.clients(), place)?;
    put_byte(out, b'\n')
}

// Explains the next line and returns true, if the cutter has the whole line.
fn explain_next<C: ReadableHistory, A: Allocator + Copy>(
    engine: &mut Engine<C, A>,
    cutter: &mut Cutter<A>,
    answers: &mut Vec<u8, A>,
    out: &mut Vec<u8, A>,
) -> Result<bool, ScriptFault>
    requires { length engine.old.seen < 2 ^ 53 }
    ensures ok { OnOk result (TellsBetween explains cutter.old (as_script engine.old) out.old.items
        cutter.new (as_script engine.new) out.new.items) }
    ensures fewer { IfOk result (λ more.
        OnTrue more (length cutter.new.rest < length cutter.old.rest)) }
    ensures begun { IfOk result (λ more. OnFalse more (HasNoWholeLine cutter.new)) }
    ensures err { IfErr result (λ fault. fault ≡ ScriptFault.Memory) }
{
    match cutter.next_line() {
        Some(cut) => {
            explain_line(engine, &cut, answers, out)?;
            Ok(true)
        }
        None => Ok(false),
    }
}

/// Explains all lines that the cutter has in whole.
pub fn explain_all<C: ReadableHistory, A: Allocator + Copy>(
    engine: &mut Engine<C, A>,
    cutter: &mut Cutter<A>,
    out: &mut Vec<u8, A>,
) -> Result<(), ScriptFault>
    requires { length engine.old.seen + length (lines_to_come cutter.old []) < 2 ^ 53 }
    ensures ok { OnOk result (TellsBetween explains cutter.old (as_script engine.old) out.old.items
        cutter.new (as_script engine.new) out.new.items) }
    ensures begun { OnOk result (HasNoWholeLine cutter.new) }
    ensures err { IfErr result (λ fault. fault ≡ ScriptFault.Memory) }
{
    let mut answers = Vec::new(*out.allocator());
    while explain_next(engine, cutter, &mut answers, out)? {}
    Ok(())
}

/// Explains the last line, if there is one that no newline ended.
pub fn explain_last<C: ReadableHistory, A: Allocator + Copy>(
    engine: &mut Engine<C, A>,
    cutter: Cutter<A>,
    out: &mut Vec<u8, A>,
) -> Result<(), ScriptFault>
    requires begun { HasNoWholeLine cutter }
    requires within { length engine.old.seen < 2 ^ 53 }
    ensures ok { OnOk result (TellsCuts explains (as_script engine.old) (lines_to_come cutter [])
        out.old.items (as_script engine.new) out.new.items) }
    ensures err { IfErr result (λ fault. fault ≡ ScriptFault.Memory) }
{
    match cutter.finish() {
        Some(cut) => explain_line(engine, &cut, &mut Vec::new(*out.allocator()), out),
        None => Ok(()),
    }
}
