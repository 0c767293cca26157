//! The program `pt_failing_device`: plays a script whose reader fails, and then one whose writer
//! fails.
//!
//! Both faults are reported on standard output, so that the run of this program compares them. The
//! program ends with the status that `ptserver` gives for either fault, if that is one status.
#![tactic(auto)]

use pt_core::Core;
use pt_io::{Counted, Faulty};
use pt_script::{ENTRIES_BETWEEN_SEALS, answer};
use std::alloc::AllocError;
use std::io;
use std::process::ExitCode;

// Returns the exit status of a script whose reader or writer fails at this call; with 0 it never
// fails.
fn status(rt: &HostRuntime, read_fails_at: u64, write_fails_at: u64) -> Result<u8, AllocError> {
    let script = Vec::from_slice(rt.alloc(), b"A hello 10\n")?;
    let mut reader = Faulty::new(script, 4096, read_fails_at);
    let mut writer = Faulty::new(Vec::new(rt.alloc()), 4096, write_fails_at);
    let mut errors = Counted::new(io::writer(rt));
    let Ok(core) = Core::with_limit(rt.alloc(), ENTRIES_BETWEEN_SEALS) else {
        return Err(AllocError);
    };
    Ok(answer(core, rt.alloc(), &mut reader, &mut writer, &mut errors))
}

fn main(rt: HostRuntime) -> io::Result<ExitCode> {
    let read = status(&rt, 1, 0)?;
    let write = status(&rt, 0, 1)?;
    if read != write {
        return Ok(ExitCode::FAILURE);
    }
    Ok(ExitCode::from(read))
}
