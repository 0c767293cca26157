//! The word `check`: traces are read, and what is found of each is written.
//!
//! The contract of `pt_check` says when a trace agrees. Only runs show how traces are read, what is
//! written, and which status follows.

ghost use Rattle.std.specs.Prelude.{◌<◌, ◌^◌, length};

use pt_check::{CheckFault, Found, check, report};
use pt_command::Traces;
use pt_core::Core;
use pt_io::Counted;
use pt_script::{ENTRIES_BETWEEN_SEALS, ScriptFault, deliver};
use std::io::{ErrorKind, Read};
use std::process::ExitCode;
use std::{fs, io};

/// The exit status if a trace differs.  [profile]
const DIFFERS: u8 = 6;

/// The exit status if a row of a trace should be an answer and is none.  [profile]
const NO_TRACE: u8 = 7;

// A trace has fewer bytes than this.
const MAX_BYTES: usize = 1 << 53;

// The number of traces that agree, that differ, and that have a row that should be an answer.
#[derive(Clone, Copy)]
struct Totals {
    agree: u64,
    differ: u64,
    wrong: u64,
}

impl Totals {
    fn status(&self) -> u8 {
        if self.wrong > 0 {
            NO_TRACE
        } else if self.differ > 0 {
            DIFFERS
        } else {
            0
        }
    }
}

// Reads a file, or standard input.
fn read_trace(rt: &HostRuntime, file: Option<&str>) -> io::Result<Vec<u8>> {
    match file {
        Some(path) => fs::read(rt, path),
        None => {
            let mut bytes = Vec::new(rt.alloc());
            rt.stdin().read_to_end(&mut bytes)?;
            Ok(bytes)
        }
    }
}

// Checks a trace, and appends what is found. Returns whether the trace agrees.
fn is_agreed(
    rt: &HostRuntime,
    name: &str,
    trace: &[u8],
    takes_late: bool,
    out: &mut Vec<u8>,
) -> Result<bool, CheckFault>
    requires { length trace.now < 2 ^ 53 }
{
    let Ok(core) = Core::with_limit(rt.alloc(), ENTRIES_BETWEEN_SEALS) else {
        return Err(CheckFault::Memory);
    };
    let found = check(core, rt.alloc(), trace)?;
    let Ok(core) = Core::with_limit(rt.alloc(), ENTRIES_BETWEEN_SEALS) else {
        return Err(CheckFault::Memory);
    };
    let agrees = report(core, rt.alloc(), name.as_bytes(), trace, takes_late, out)?;
    Ok(match found {
        Found::Agrees => true,
        Found::Differs(_) => takes_late && agrees,
    })
}

// Reports a fault that ends the program, and returns the exit status.
fn end_with(rt: &HostRuntime, fault: ScriptFault) -> u8 {
    pt_script::report(&mut Counted::new(rt.stderr()), fault);
    pt_script::status_of(fault)
}

// Reports that a file can't be read, and returns the exit status.
fn refuse_file(rt: &HostRuntime, name: &str, error: &io::Error) -> u8 {
    if error.kind() == ErrorKind::OutOfMemory {
        return end_with(rt, ScriptFault::Memory);
    }
    let _ = eprintln!(rt; "ptserver: {name}: read failed");
    pt_script::status_of(ScriptFault::Read)
}

// Checks a trace of few enough bytes, and writes what is found. Returns an exit status if the
// program ends with it.
fn check_trace(
    rt: &HostRuntime,
    name: &str,
    trace: &[u8],
    takes_late: bool,
    totals: &mut Totals,
) -> Result<(), u8>
    requires { length trace.now < 2 ^ 53 }
{
    let mut out = Vec::new(rt.alloc());
    match is_agreed(rt, name, trace, takes_late, &mut out) {
        Ok(true) => totals.agree = totals.agree.saturating_add(1),
        Ok(false) => totals.differ = totals.differ.saturating_add(1),
        Err(CheckFault::NotAnswer(row)) => {
            let _ = eprintln!(rt; "ptserver: {name}:{row}: not an answer");
            totals.wrong = totals.wrong.saturating_add(1);
        }
        Err(CheckFault::Memory) => return Err(end_with(rt, ScriptFault::Memory)),
    }
    match deliver(&mut Counted::new(io::writer(rt)), &out) {
        Ok(()) => Ok(()),
        Err(fault) => Err(end_with(rt, fault)),
    }
}

// Checks the trace in a file, or in standard input. Returns an exit status if the program ends with
// it.
fn check_file(
    rt: &HostRuntime,
    file: Option<&str>,
    takes_late: bool,
    totals: &mut Totals,
) -> Result<(), u8> {
    let name = file.unwrap_or("-");
    match read_trace(rt, file) {
        Ok(trace) if trace.len() < MAX_BYTES => {
            check_trace(rt, name, &trace, takes_late, totals)
        }
        Ok(_) => Err(end_with(rt, ScriptFault::Read)),
        Err(error) => Err(refuse_file(rt, name, &error)),
    }
}

// Checks all traces. Returns an exit status if the program ends with it.
fn check_files(rt: &HostRuntime, traces: &Traces, totals: &mut Totals) -> Result<(), u8> {
    if traces.files.is_empty() {
        return check_file(rt, None, traces.takes_late, totals);
    }
    for file in &traces.files {
        check_file(rt, Some(file.as_str()), traces.takes_late, totals)?;
    }
    Ok(())
}

// Writes how many traces agree and differ, if there are several.
fn write_totals(rt: &HostRuntime, totals: &Totals, count: usize) -> io::Result<()> {
    if count < 2 {
        return Ok(());
    }
    let Totals { agree, differ, .. } = *totals;
    println!(rt; "{count} traces: {agree} agree, {differ} differ")
}

/// Checks traces, and returns the exit status.
pub fn run_check(rt: &HostRuntime, traces: &Traces) -> ExitCode {
    let mut totals = Totals {
        agree: 0,
        differ: 0,
        wrong: 0,
    };
    if let Err(status) = check_files(rt, traces, &mut totals) {
        return ExitCode::from(status);
    }
    if write_totals(rt, &totals, traces.files.len()).is_err() {
        return ExitCode::from(end_with(rt, ScriptFault::Write));
    }
    ExitCode::from(totals.status())
}
