//! The program `pt_check_tests`: checks traces, and compares what is found and written with what
//! should be.
//!
//! The folder `data` has five groups of traces: `explained`, worked rows and odd lines as they are
//! explained; `drawn`, drawn scripts with the answers that are due; `changed`, the same with one
//! change each, by its kind; `recorded`, recorded on a C library; and `odd`, traces about rows. A
//! case's script is the trace. A second implementation of the rules gave the expected texts: what
//! is found, and what is written without late answers and with them.
//!
//! A trace for which the history is sealed is made here. For each group a line of output says how
//! many texts agree. If one differs from the expected one, the program shows the first line that
//! does, and ends with status 1.
#![tactic(auto)]

ghost use Rattle.std.specs.Prelude.{◌<◌, ◌^◌, length};

mod sealed;

use anyhow::{Context, Result, bail};
use pt_cases::{Case, agrees, cases_of};
use pt_check::{CheckFault, Found, check, report};
use pt_core::Core;
use pt_script::ENTRIES_BETWEEN_SEALS;
use sealed::is_sealed_trace_checked;
use std::env;
use std::process::ExitCode;

// The folders of `data`.
const GROUPS: [&str; 5] = ["explained", "drawn", "changed", "recorded", "odd"];

// A trace has fewer bytes than this.
const MAX_BYTES: usize = 1 << 53;

// Returns what is found of a trace.
fn find(rt: &impl AllocGlobal, trace: &[u8]) -> Result<Result<Found, CheckFault>>
    requires { length trace.now < 2 ^ 53 }
{
    let core = Core::with_limit(rt.alloc(), ENTRIES_BETWEEN_SEALS)?;
    Ok(check(core, rt.alloc(), trace))
}

// Appends what is written of a trace.
fn write_report(
    rt: &impl AllocGlobal,
    trace: &[u8],
    takes_late: bool,
    out: &mut Vec<u8>,
) -> Result<()> {
    let core = Core::with_limit(rt.alloc(), ENTRIES_BETWEEN_SEALS)?;
    match report(core, rt.alloc(), b"trace", trace, takes_late, out) {
        Ok(_) => Ok(()),
        Err(_) => bail!("the trace can't be reported"),
    }
}

// Returns what is found and written of a trace.
fn checked(rt: &impl AllocGlobal, trace: &[u8]) -> Result<Vec<u8>>
    requires { length trace.now < 2 ^ 53 }
{
    let first = match find(rt, trace)? {
        Ok(Found::Agrees) => format!(in rt.alloc(); "agrees\n")?,
        Ok(Found::Differs(at)) => format!(in rt.alloc(); "line {at} differs, from 0\n")?,
        Err(CheckFault::NotAnswer(row)) => {
            format!(in rt.alloc(); "row {row} is not an answer\n")?
        }
        Err(CheckFault::Memory) => format!(in rt.alloc(); "out of memory\n")?,
    };
    let mut out = Vec::from_slice(rt.alloc(), first.as_bytes())?;
    if !first.as_str().starts_with("row") {
        write_report(rt, trace, false, &mut out)?;
        write_report(rt, trace, true, &mut out)?;
    }
    Ok(out)
}

// Checks the trace of a case. Returns whether what is found and written agrees.
fn is_checked(rt: &(impl Print + AllocGlobal), case: &Case) -> Result<bool> {
    if case.script.len() >= MAX_BYTES {
        return Ok(false);
    }
    let out = checked(rt, &case.script)?;
    Ok(agrees(rt, case, &out)?)
}

// Checks the traces of a group, up to the first that differs, and returns whether all agree. If
// they do, prints how many.
fn all_checked(rt: &HostRuntime, folder: &str, group: &str) -> Result<bool> {
    let cases = cases_of(rt, folder, group)?;
    for case in &cases {
        if !is_checked(rt, case).context(format_args!("{}", case.path))? {
            return Ok(false);
        }
    }
    let count = cases.len();
    println!(rt; "{group}: {count} traces are checked")?;
    Ok(true)
}

// Checks the groups in this folder, up to the first that differs, and a sealed trace.
fn run(rt: &HostRuntime, folder: &str) -> Result<ExitCode> {
    for group in GROUPS {
        if !all_checked(rt, folder, group)? {
            return Ok(ExitCode::FAILURE);
        }
    }
    if !is_sealed_trace_checked(rt)? {
        return Ok(ExitCode::FAILURE);
    }
    println!(rt; "sealed: 2 traces are checked")?;
    Ok(ExitCode::SUCCESS)
}

// The first word of the command line is the folder of the groups, or `.` if there is none.
fn main(rt: HostRuntime) -> Result<ExitCode> {
    match env::args(&rt)?.nth(1) {
        Some(folder) => run(&rt, folder.as_str()),
        None => run(&rt, "."),
    }
}
