ghost use Rattle.std.specs.Prelude.{◌≡◌, ◌≤◌, ◌+◌, ◌^◌, [], false};
ghost use Rattle.pt_model.specs.Starts.{empty_start};
ghost use Rattle.pt_legal.specs.Cores.{core_state};
ghost use Rattle.pt_engine.specs.Scripts.{entries_between_seals};
ghost use Rattle.pt_script.specs.Ends.{reader_view};
ghost use Rattle.pt_script.specs.Texts.{writer_view};
ghost use Rattle.pt_script.specs.Programs.{EndsWith};
ghost use Rattle.pt_explain.specs.Explanations.{explains};

use crate::whole::explain_within;
use pt_engine::Engine;
use pt_io::{Sink, Source};
use pt_readable::ReadableHistory;
use pt_script::{MAX_DEVICE_READS, report, status_of};
use std::alloc::Allocator;

/// The exit status of a script that was read to its end.  [profile]
const DONE: u8 = 0;

/// Explains a script over an empty core, and returns the exit status for a program that does
/// nothing else.
///
/// What explains the lines of one read is written together, and flushed before the next read. The
/// status is 0 if all lines were read and explained. A fault is reported on `errors`. The status is
/// then 3 if the reader or the writer failed, and 5 if memory was lacking.  [profile]
pub fn explain<C: ReadableHistory, R: Source, W: Sink, E: Sink, A: Allocator + Copy>(
    core: C,
    alloc: A,
    reader: &mut R,
    writer: &mut W,
    errors: &mut E,
) -> u8
    requires empty { core_state (C.seen core)
        ≡ record { start = empty_start; entries = []; limit = entries_between_seals } }
    requires fresh { (R.given reader.old ≡ []) × (W.taken writer.old ≡ [])
        × (R.ended reader.old ≡ false) }
    requires working { (R.failures reader.old ≡ 0) × (W.failures writer.old ≡ 0)
        × (E.failures errors.old ≡ 0) }
    ensures ends { EndsWith explains (record {
      reader = reader_view R.given R.earlier R.failures R.reads R.ended reader.old reader.new;
      writer = writer_view W.taken W.flushed W.failures W.rejections writer.old writer.new;
      limit = 2 ^ 40;
    }) (E.taken errors.old)
        (writer_view E.taken E.flushed E.failures E.rejections errors.old errors.new) result }
    ensures calls { R.reads reader.new ≤ R.reads reader.old + 2 ^ 40 }
{
    let mut engine = Engine::new(core, alloc);
    match explain_within(alloc, MAX_DEVICE_READS, &mut engine, reader, writer) {
        Ok(_) => DONE,
        Err(fault) => {
            report(errors, fault);
            status_of(fault)
        }
    }
}
