ghost use Rattle.std.specs.Prelude.{◌≡◌, ◌<◌, ◌^◌, [], length, false, None, OnOk, IfOk, IfErr};
ghost use Rattle.pt_model.specs.Starts.{empty_start};
ghost use Rattle.pt_legal.specs.Cores.{core_state};
ghost use Rattle.pt_engine.specs.Scripts.{empty_script, entries_between_seals};
ghost use Rattle.pt_engine.specs.Engines.{as_script};
ghost use Rattle.pt_traces.specs.Rows.{rows};
ghost use Rattle.pt_traces.specs.Blocks.{blocks, first_wrong};
ghost use Rattle.pt_check.specs.Agreements.{Compares, Finds, IsFaultOf};

use crate::answered::is_answered;
use crate::due::answer_line;
use crate::fault::CheckFault;
use crate::found::Found;
use pt_engine::Engine;
use pt_readable::ReadableHistory;
use pt_traces::{Block, Blocks, wrong_row};
use std::alloc::Allocator;

// Returns whether the answers in a block are those that are due to its line.
fn agrees<C: ReadableHistory, A: Allocator + Copy>(
    engine: &mut Engine<C, A>,
    alloc: A,
    block: &Block<'_>,
) -> Result<bool, CheckFault>
    requires { length engine.old.seen < 2 ^ 53 }
    ensures ok { IfOk result (λ same. Compares (as_script engine.old) block.now
        (as_script engine.new) same) }
    ensures err { IfErr result (λ fault. fault ≡ CheckFault.Memory) }
{
    let due = answer_line(engine, alloc, block.line())?;
    Ok(is_answered(&due, block))
}

// Finds the first block whose answers are not those that are due, if there is one.
fn find<C: ReadableHistory, A: Allocator + Copy>(
    engine: &mut Engine<C, A>,
    alloc: A,
    mut blocks: Blocks<'_>,
) -> Result<Found, CheckFault>
    requires new { as_script engine.old ≡ empty_script }
    requires within { length blocks < 2 ^ 53 }
    ensures ok { IfOk result (λ found. Finds found empty_script blocks.entry) }
    ensures err { IfErr result (λ fault. fault ≡ CheckFault.Memory) }
{
    let mut at = 0;
    while let Some(block) = blocks.next() {
        let same = agrees(engine, alloc, &block)?;
        if !same {
            return Ok(Found::Differs(at));
        }
        at += 1;
    }
    Ok(Found::Agrees)
}

/// Checks a trace against the rules, with an empty core.  [profile]
///
/// It agrees if the answers that were seen after each line, and before the next, are exactly those
/// that the rules give to that line, in any order; the word `?` agrees with any. Otherwise the
/// first line is found at which it differs. Returns the first row that should be an answer and is
/// none, if there is one, before anything is compared; or `Memory` if a growth was refused.
pub fn check<C: ReadableHistory, A: Allocator + Copy>(
    core: C,
    alloc: A,
    trace: &[u8],
) -> Result<Found, CheckFault>
    requires empty { core_state (C.seen core)
        ≡ record { start = empty_start; entries = []; limit = entries_between_seals } }
    requires within { length trace.now < 2 ^ 53 }
    ensures ok { IfOk result (λ found. Finds found empty_script (blocks (rows trace.now))) }
    ensures valid { OnOk result (first_wrong false 1 (rows trace.now) ≡ None) }
    ensures err { IfErr result (IsFaultOf trace.now) }
{
    match wrong_row(trace) {
        Some(row) => Err(CheckFault::NotAnswer(row)),
        None => {
            let mut engine = Engine::new(core, alloc);
            let blocks = Blocks::new(trace);
            find(&mut engine, alloc, blocks)
        }
    }
}
