ghost use Rattle.std.specs.Prelude.{◌≡◌, ◌≤◌, ◌+◌, ◌^◌, [], false};
ghost use Rattle.pt_model.specs.Starts.{empty_start};
ghost use Rattle.pt_legal.specs.Cores.{core_state};
ghost use Rattle.pt_engine.specs.Scripts.{entries_between_seals};
ghost use Rattle.pt_script.specs.Ends.{reader_view};
ghost use Rattle.pt_script.specs.Tellings.{answers};
ghost use Rattle.pt_script.specs.Texts.{writer_view};
ghost use Rattle.pt_script.specs.Programs.{EndsWith, Reports, report_of, status_of};

use crate::whole::script;
use crate::writing::put;
use pt_engine::ScriptFault;
use pt_io::{Sink, Source};
use pt_legal::LegalHistory;
use std::alloc::Allocator;

/// The exit status of a script that was read to its end.  [profile]
const DONE: u8 = 0;

/// The exit status after a fault of a device.  [profile]
const DEVICE: u8 = 3;

/// The exit status after a lack of memory.  [profile]
const MEMORY: u8 = 5;

/// Returns the exit status of a program that runs a script and ends with this fault.
pub fn status_of(fault: ScriptFault) -> u8
    ensures { result ≡ status_of fault }
{
    match fault {
        ScriptFault::Read | ScriptFault::Write => DEVICE,
        ScriptFault::Memory => MEMORY,
    }
}

fn report_of(fault: ScriptFault) -> &'static [u8]
    ensures { result.now ≡ report_of fault }
{
    match fault {
        ScriptFault::Read => b"ptserver: read failed\n",
        ScriptFault::Write => b"ptserver: write failed\n",
        ScriptFault::Memory => b"ptserver: out of memory\n",
    }
}

/// Reports a fault in one line. A fault of this writer itself is not reported anywhere.
pub fn report<E: Sink>(errors: &mut E, fault: ScriptFault)
    requires { E.failures errors.old ≡ 0 }
    ensures { Reports (E.taken errors.old) (report_of fault)
        (writer_view E.taken E.flushed E.failures E.rejections errors.old errors.new) }
{
    if put(errors, report_of(fault)).is_ok() {
        let _ = errors.flush();
    }
}

/// Runs a script as `script` does, and returns the exit status for a program that does nothing
/// else.
///
/// The status is 0 if all lines were read and answered. A fault is reported on `errors`. The status
/// is then 3 if the reader or the writer failed, and 5 if memory was lacking.  [profile]
pub fn answer<C: LegalHistory, R: Source, W: Sink, E: Sink, A: Allocator + Copy>(
    core: C,
    alloc: A,
    reader: &mut R,
    writer: &mut W,
    errors: &mut E,
) -> u8
    requires empty { core_state (C.seen core)
        ≡ record { start = empty_start; entries = []; limit = entries_between_seals } }
    requires fresh { (R.given reader.old ≡ []) × (W.taken writer.old ≡ [])
        × (R.ended reader.old ≡ false) }
    requires working { (R.failures reader.old ≡ 0) × (W.failures writer.old ≡ 0)
        × (E.failures errors.old ≡ 0) }
    ensures ends { EndsWith answers (record {
      reader = reader_view R.given R.earlier R.failures R.reads R.ended reader.old reader.new;
      writer = writer_view W.taken W.flushed W.failures W.rejections writer.old writer.new;
      limit = 2 ^ 40;
    }) (E.taken errors.old)
        (writer_view E.taken E.flushed E.failures E.rejections errors.old errors.new) result }
    ensures calls { R.reads reader.new ≤ R.reads reader.old + 2 ^ 40 }
{
    match script(core, alloc, reader, writer) {
        Ok(_) => DONE,
        Err(fault) => {
            report(errors, fault);
            status_of(fault)
        }
    }
}
