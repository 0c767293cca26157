ghost use Rattle.std.specs.Prelude.{◌≡◌, []};
ghost use Rattle.pt_model.specs.Starts.{empty_start};
ghost use Rattle.pt_legal.specs.Cores.{core_state};
ghost use Rattle.pt_engine.specs.Scripts.{entries_between_seals};

use crate::appending::put;
use crate::course::Course;
use crate::fault::CheckFault;
use crate::tally::count;
use crate::weight::Weight;
use pt_readable::ReadableHistory;
use pt_traces::Blocks;
use std::alloc::Allocator;

fn count_blocks(mut blocks: Blocks<'_>) -> u64 {
    let mut n = 0;
    while blocks.next().is_some() {
        count(&mut n);
    }
    n
}

/// Appends what is written of a trace: each difference, with the line, its entries, and the answers
/// that are due and that were seen; then whether the trace agrees. Returns whether it does.
///
/// After a difference of words that change nothing it goes on, and after any other it stops. If
/// `takes_late`, an answer may also come after a later line, but before its client's next line.
pub fn report<C: ReadableHistory, A: Allocator + Copy>(
    core: C,
    alloc: A,
    name: &[u8],
    trace: &[u8],
    takes_late: bool,
    out: &mut Vec<u8, A>,
) -> Result<bool, CheckFault>
    requires { core_state (C.seen core)
        ≡ record { start = empty_start; entries = []; limit = entries_between_seals } }
{
    let mut course = Course::new(core, alloc, name, takes_late);
    let mut blocks = Blocks::new(trace);
    while let Some(block) = blocks.next() {
        if let Weight::Changes = course.compare(&block, &blocks, out)? {
            put(out, name)?;
            course
                .tally
                .put_stop(block.row(), count_blocks(blocks), out)?;
            return Ok(false);
        }
    }
    put(out, name)?;
    if course.tally.differing == 0 {
        course.tally.put_agreement(out)?;
        return Ok(true);
    }
    course.tally.put_differences(out)?;
    Ok(false)
}
