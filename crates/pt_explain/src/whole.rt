//! A whole script, explained piece by piece, as `pt_script` answers it.

ghost use Rattle.std.specs.Prelude.{◌≡◌, ◌≤◌, ◌<◌, ◌+◌, ◌^◌, ◌++◌, [], length, true, false, OnOk};
ghost use Rattle.std.specs.Prelude.{OnErr, IfOk, IfErr};
ghost use Rattle.pt_grammar.specs.Lines.{lines_to_come, HasNoWholeLine};
ghost use Rattle.pt_engine.specs.Scripts.{empty_script};
ghost use Rattle.pt_engine.specs.Engines.{as_script};
ghost use Rattle.pt_script.specs.Tellings.{TellsBetween};
ghost use Rattle.pt_script.specs.Texts.{writer_view};
ghost use Rattle.pt_script.specs.Stops.{StopsAtFault, IsEnd};
ghost use Rattle.pt_script.specs.Ends.{IsScriptText, BeginsScriptText, IsFaultOf, reader_view};
ghost use Rattle.pt_explain.specs.Explanations.{explains};

use crate::lines::{explain_all, explain_last};
use pt_engine::{Engine, ScriptFault};
use pt_io::{Sink, Source};
use pt_lines::Cutter;
use pt_readable::ReadableHistory;
use pt_script::{ScriptEnd, deliver};
use std::alloc::Allocator;

/// The most bytes that are read at once.
const PIECE: usize = 4096;

// Takes in a piece of the input, and writes what explains the lines that end in it. That is put
// together in `out`, a buffer for one piece after another.
fn take_in<C: ReadableHistory, W: Sink, A: Allocator + Copy>(
    engine: &mut Engine<C, A>,
    cutter: &mut Cutter<A>,
    piece: &[u8],
    out: &mut Vec<u8, A>,
    writer: &mut W,
) -> Result<(), ScriptFault>
    requires working { W.failures writer.old ≡ 0 }
    requires out { W.flushed writer.old ≡ W.taken writer.old }
    requires within { length engine.old.seen
        + length (lines_to_come (record cutter.old {
          rest = cutter.old.rest
              ++ piece.now;
        }) []) < 2 ^ 53 }
    ensures ok { OnOk result (TellsBetween explains
        (record cutter.old { rest = cutter.old.rest ++ piece.now }) (as_script engine.old)
        (W.taken writer.old) cutter.new (as_script engine.new)
        (W.taken writer.new)) }
    ensures begun { OnOk result (HasNoWholeLine cutter.new) }
    ensures wrote { OnOk result
        ((W.failures writer.new ≡ 0) × (W.rejections writer.new ≡ W.rejections writer.old)) }
    ensures out { OnOk result (W.flushed writer.new ≡ W.taken writer.new) }
    ensures err { IfErr result (λ fault. StopsAtFault explains fault
        (record cutter.old { rest = cutter.old.rest ++ piece.now })
        (as_script engine.old) (W.taken writer.old)
        (writer_view W.taken W.flushed W.failures W.rejections writer.old writer.new)) }
{
    let Ok(()) = cutter.feed(piece) else {
        return Err(ScriptFault::Memory);
    };
    out.clear();
    explain_all(engine, cutter, out)?;
    deliver(writer, out)?;
    Ok(())
}

// Explains the last line, if there is one that no newline ended.
fn finish<C: ReadableHistory, W: Sink, A: Allocator + Copy>(
    alloc: A,
    engine: &mut Engine<C, A>,
    cutter: Cutter<A>,
    writer: &mut W,
) -> Result<ScriptEnd, ScriptFault>
    requires working { W.failures writer.old ≡ 0 }
    requires out { W.flushed writer.old ≡ W.taken writer.old }
    requires begun { HasNoWholeLine cutter }
    requires within { length engine.old.seen + length (lines_to_come cutter []) < 2 ^ 53 }
    ensures ok { IfOk result (λ end. IsEnd explains
        cutter (as_script engine.old) (W.taken writer.old) (W.taken writer.new)
        end.lines end.entries) }
    ensures wrote { OnOk result
        ((W.failures writer.new ≡ 0) × (W.rejections writer.new ≡ W.rejections writer.old)) }
    ensures out { OnOk result (W.flushed writer.new ≡ W.taken writer.new) }
    ensures err { IfErr result (λ fault. StopsAtFault explains fault cutter (as_script engine.old)
        (W.taken writer.old)
        (writer_view W.taken W.flushed W.failures W.rejections writer.old writer.new)) }
{
    let mut out = Vec::new(alloc);
    explain_last(engine, cutter, &mut out)?;
    deliver(writer, &out)?;
    Ok(ScriptEnd {
        lines: engine.lines(),
        entries: engine.entries(),
    })
}

/// Explains a script, with at most `reads` reads of up to 4,096 bytes and an engine that has
/// answered nothing yet.  [profile]
///
/// What explains the lines of one read is written together, and flushed before the next read.
/// Faults are those of `pt_script`.
pub fn explain_within<C: ReadableHistory, R: Source, W: Sink, A: Allocator + Copy>(
    alloc: A,
    reads: u64,
    engine: &mut Engine<C, A>,
    reader: &mut R,
    writer: &mut W,
) -> Result<ScriptEnd, ScriptFault>
    requires new { as_script engine.old ≡ empty_script }
    requires fresh { (R.given reader.old ≡ []) × (W.taken writer.old ≡ [])
        × (R.ended reader.old ≡ false) }
    requires working { (R.failures reader.old ≡ 0) × (W.failures writer.old ≡ 0) }
    requires within { reads ≤ 2 ^ 40 }
    ensures ok { IfOk result (λ end. IsScriptText explains
        (R.given reader.new) (W.taken writer.new) end.lines end.entries) }
    ensures ended { OnOk result (R.ended reader.new ≡ true) }
    ensures out { OnOk result (W.flushed writer.new ≡ W.taken writer.new) }
    ensures working { OnOk result ((R.failures reader.new ≡ 0) × (W.failures writer.new ≡ 0)) }
    ensures calls { R.reads reader.new ≤ R.reads reader.old + reads }
    ensures prefix { OnErr result
        (BeginsScriptText explains (R.given reader.new) (W.taken writer.new)) }
    ensures err { IfErr result (λ fault. IsFaultOf explains (record {
      reader = reader_view R.given R.earlier R.failures R.reads R.ended reader.old reader.new;
      writer = writer_view W.taken W.flushed W.failures W.rejections writer.old writer.new;
      limit = reads;
    }) fault) }
{
    let mut cutter = Cutter::new(alloc);
    let mut piece = [0u8; PIECE];
    let mut out = Vec::new(alloc);
    for _ in 0..reads {
        let Ok(n) = reader.read(&mut piece) else {
            return Err(ScriptFault::Read);
        };
        if n == 0 {
            return finish(alloc, engine, cutter, writer);
        }
        take_in(engine, &mut cutter, &piece[..n], &mut out, writer)?;
    }
    Err(ScriptFault::Read)
}
