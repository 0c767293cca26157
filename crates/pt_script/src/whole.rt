ghost use Rattle.std.specs.Prelude.{◌≡◌, ◌≤◌, ◌<◌, ◌+◌, ◌^◌, ◌++◌, [], length, true, false, OnOk};
ghost use Rattle.std.specs.Prelude.{OnErr, IfOk, IfErr};
ghost use Rattle.pt_model.specs.Starts.{empty_start};
ghost use Rattle.pt_grammar.specs.Lines.{lines_to_come, HasNoWholeLine};
ghost use Rattle.pt_legal.specs.Cores.{core_state};
ghost use Rattle.pt_engine.specs.Scripts.{empty_script, entries_between_seals};
ghost use Rattle.pt_engine.specs.Engines.{as_script};
ghost use Rattle.pt_script.specs.Tellings.{TellsBetween, answers};
ghost use Rattle.pt_script.specs.Texts.{writer_view};
ghost use Rattle.pt_script.specs.Stops.{StopsAtFault, IsEnd};
ghost use Rattle.pt_script.specs.Ends.{IsScriptText, BeginsScriptText, IsFaultOf, reader_view};

use crate::telling::{tell_all, tell_last};
use crate::writing::deliver;
use pt_engine::{Engine, ScriptFault};
use pt_io::{Sink, Source};
use pt_legal::LegalHistory;
use pt_lines::Cutter;
use std::alloc::Allocator;

/// The most reads of one input, including the one that reports its end.  [profile]
pub const MAX_DEVICE_READS: u64 = 1 << 40;

/// The most bytes that are read at once.
const PIECE: usize = 4096;

/// The result of a script that was read to its end.
#[derive(Clone, Copy)]
pub struct ScriptEnd {
    /// The number of lines in the script, including refused ones.
    pub lines: u64,
    /// The number of entries that came of them, which is the place of the next entry. Entries that
    /// were dropped at a seal count too.
    pub entries: u64,
}

// Returns an empty buffer with room for the answers to most pieces. If that room is refused, the
// buffer grows as needed.
fn no_text<A: Allocator + Copy>(alloc: A) -> Vec<u8, A>
    ensures { result.items ≡ [] }
{
    let mut out = Vec::new(alloc);
    let _ = out.reserve(2 * PIECE);
    out
}

// Takes in a piece of the input, and writes what is told of the lines that end in it.
fn take_in<C: LegalHistory, W: Sink, A: Allocator + Copy>(
    alloc: A,
    engine: &mut Engine<C, A>,
    cutter: &mut Cutter<A>,
    piece: &[u8],
    writer: &mut W,
) -> Result<(), ScriptFault>
    requires working { W.failures writer.old ≡ 0 }
    requires out { W.flushed writer.old ≡ W.taken writer.old }
    requires within { length engine.old.seen
        + length (lines_to_come (record cutter.old {
          rest = cutter.old.rest
              ++ piece.now;
        }) []) < 2 ^ 53 }
    ensures ok { OnOk result (TellsBetween answers
        (record cutter.old { rest = cutter.old.rest ++ piece.now }) (as_script engine.old)
        (W.taken writer.old) cutter.new (as_script engine.new)
        (W.taken writer.new)) }
    ensures begun { OnOk result (HasNoWholeLine cutter.new) }
    ensures wrote { OnOk result
        ((W.failures writer.new ≡ 0) × (W.rejections writer.new ≡ W.rejections writer.old)) }
    ensures out { OnOk result (W.flushed writer.new ≡ W.taken writer.new) }
    ensures err { IfErr result (λ fault. StopsAtFault answers fault
        (record cutter.old { rest = cutter.old.rest ++ piece.now })
        (as_script engine.old) (W.taken writer.old)
        (writer_view W.taken W.flushed W.failures W.rejections writer.old writer.new)) }
{
    let Ok(()) = cutter.feed(piece) else {
        return Err(ScriptFault::Memory);
    };
    let mut out = no_text(alloc);
    tell_all(engine, cutter, &mut out)?;
    deliver(writer, &out)?;
    Ok(())
}

// Tells of the last line, if there is one that no newline ended.
fn finish<C: LegalHistory, W: Sink, A: Allocator + Copy>(
    alloc: A,
    engine: &mut Engine<C, A>,
    cutter: Cutter<A>,
    writer: &mut W,
) -> Result<ScriptEnd, ScriptFault>
    requires working { W.failures writer.old ≡ 0 }
    requires out { W.flushed writer.old ≡ W.taken writer.old }
    requires begun { HasNoWholeLine cutter }
    requires within { length engine.old.seen + length (lines_to_come cutter []) < 2 ^ 53 }
    ensures ok { IfOk result (λ end. IsEnd answers
        cutter (as_script engine.old) (W.taken writer.old) (W.taken writer.new)
        end.lines end.entries) }
    ensures wrote { OnOk result
        ((W.failures writer.new ≡ 0) × (W.rejections writer.new ≡ W.rejections writer.old)) }
    ensures out { OnOk result (W.flushed writer.new ≡ W.taken writer.new) }
    ensures err { IfErr result (λ fault. StopsAtFault answers fault cutter (as_script engine.old)
        (W.taken writer.old)
        (writer_view W.taken W.flushed W.failures W.rejections writer.old writer.new)) }
{
    let mut out = Vec::new(alloc);
    tell_last(engine, cutter, &mut out)?;
    deliver(writer, &out)?;
    Ok(ScriptEnd {
        lines: engine.lines(),
        entries: engine.entries(),
    })
}

// Does what `script_within` does, with an engine that has answered nothing yet.
fn run_within<C: LegalHistory, R: Source, W: Sink, A: Allocator + Copy>(
    alloc: A,
    reads: u64,
    engine: &mut Engine<C, A>,
    reader: &mut R,
    writer: &mut W,
) -> Result<ScriptEnd, ScriptFault>
    requires new { as_script engine.old ≡ empty_script }
    requires fresh { (R.given reader.old ≡ []) × (W.taken writer.old ≡ [])
        × (R.ended reader.old ≡ false) }
    requires working { (R.failures reader.old ≡ 0) × (W.failures writer.old ≡ 0) }
    requires within { reads ≤ 2 ^ 40 }
    ensures ok { IfOk result (λ end. IsScriptText answers
        (R.given reader.new) (W.taken writer.new) end.lines end.entries) }
    ensures ended { OnOk result (R.ended reader.new ≡ true) }
    ensures out { OnOk result (W.flushed writer.new ≡ W.taken writer.new) }
    ensures working { OnOk result ((R.failures reader.new ≡ 0) × (W.failures writer.new ≡ 0)) }
    ensures calls { R.reads reader.new ≤ R.reads reader.old + reads }
    ensures prefix { OnErr result
        (BeginsScriptText answers (R.given reader.new) (W.taken writer.new)) }
    ensures err { IfErr result (λ fault. IsFaultOf answers (record {
      reader = reader_view R.given R.earlier R.failures R.reads R.ended reader.old reader.new;
      writer = writer_view W.taken W.flushed W.failures W.rejections writer.old writer.new;
      limit = reads;
    }) fault) }
{
    let mut cutter = Cutter::new(alloc);
    let mut piece = [0u8; PIECE];
    for _ in 0..reads {
        let Ok(n) = reader.read(&mut piece) else {
            return Err(ScriptFault::Read);
        };
        if n == 0 {
            return finish(alloc, engine, cutter, writer);
        }
        take_in(alloc, engine, &mut cutter, &piece[..n], writer)?;
    }
    Err(ScriptFault::Read)
}

/// Runs a script over an empty core, with at most `reads` reads of up to 4,096 bytes.  [profile]
///
/// Each line is answered once it has come. The answers to the lines of one read are written
/// together, and flushed before the next read. Returns `Read` if a read failed or the last of these
/// reads did not report the end: all lines that had come in whole are then answered. Returns
/// `Write` if a write or a flush failed or a write took no byte, and `Memory` if a growth was
/// refused for which no line is answered ENOMEM: at most the answers to the lines of the latest
/// read are then lost.
pub fn script_within<C: LegalHistory, R: Source, W: Sink, A: Allocator + Copy>(
    core: C,
    alloc: A,
    reads: u64,
    reader: &mut R,
    writer: &mut W,
) -> Result<ScriptEnd, ScriptFault>
    requires empty { core_state (C.seen core)
        ≡ record { start = empty_start; entries = []; limit = entries_between_seals } }
    requires fresh { (R.given reader.old ≡ []) × (W.taken writer.old ≡ [])
        × (R.ended reader.old ≡ false) }
    requires working { (R.failures reader.old ≡ 0) × (W.failures writer.old ≡ 0) }
    requires within { reads ≤ 2 ^ 40 }

    // All is read, and exactly the text of it is written.
    ensures ok { IfOk result (λ end. IsScriptText answers
        (R.given reader.new) (W.taken writer.new) end.lines end.entries) }
    ensures ended { OnOk result (R.ended reader.new ≡ true) }
    ensures out { OnOk result (W.flushed writer.new ≡ W.taken writer.new) }
    ensures working { OnOk result ((R.failures reader.new ≡ 0) × (W.failures writer.new ≡ 0)) }
    ensures calls { R.reads reader.new ≤ R.reads reader.old + reads }

    // After a fault, what is written begins such a text, and the fault says what stopped it.
    ensures prefix { OnErr result
        (BeginsScriptText answers (R.given reader.new) (W.taken writer.new)) }
    ensures err { IfErr result (λ fault. IsFaultOf answers (record {
      reader = reader_view R.given R.earlier R.failures R.reads R.ended reader.old reader.new;
      writer = writer_view W.taken W.flushed W.failures W.rejections writer.old writer.new;
      limit = reads;
    }) fault) }
{
    let mut engine = Engine::new(core, alloc);
    run_within(alloc, reads, &mut engine, reader, writer)
}

/// Runs a script as `script_within` does, with at most 2^40 reads.  [profile]
pub fn script<C: LegalHistory, R: Source, W: Sink, A: Allocator + Copy>(
    core: C,
    alloc: A,
    reader: &mut R,
    writer: &mut W,
) -> Result<ScriptEnd, ScriptFault>
    requires empty { core_state (C.seen core)
        ≡ record { start = empty_start; entries = []; limit = entries_between_seals } }
    requires fresh { (R.given reader.old ≡ []) × (W.taken writer.old ≡ [])
        × (R.ended reader.old ≡ false) }
    requires working { (R.failures reader.old ≡ 0) × (W.failures writer.old ≡ 0) }

    // All is read, and exactly the text of it is written.
    ensures ok { IfOk result (λ end. IsScriptText answers
        (R.given reader.new) (W.taken writer.new) end.lines end.entries) }
    ensures ended { OnOk result (R.ended reader.new ≡ true) }
    ensures out { OnOk result (W.flushed writer.new ≡ W.taken writer.new) }
    ensures working { OnOk result ((R.failures reader.new ≡ 0) × (W.failures writer.new ≡ 0)) }
    ensures calls { R.reads reader.new ≤ R.reads reader.old + 2 ^ 40 }

    // After a fault, what is written begins such a text, and the fault says what stopped it.
    ensures prefix { OnErr result
        (BeginsScriptText answers (R.given reader.new) (W.taken writer.new)) }
    ensures err { IfErr result (λ fault. IsFaultOf answers (record {
      reader = reader_view R.given R.earlier R.failures R.reads R.ended reader.old reader.new;
      writer = writer_view W.taken W.flushed W.failures W.rejections writer.old writer.new;
      limit = 2 ^ 40;
    }) fault) }
{
    script_within(core, alloc, MAX_DEVICE_READS, reader, writer)
}
