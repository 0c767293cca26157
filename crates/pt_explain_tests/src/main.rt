//! The program `pt_explain_tests`: explains scripts, and compares what is written with what should
//! be.
//!
//! The folder `data` has three groups: `rows`, the worked rows (`tools/list rows`); `lines`,
//! scripts about where lines end and how they are marked; and `drawn`, scripts drawn at random. A
//! second implementation of the rules gave the expected texts. The script of seed S has 40 + S % 81
//! lines.
//!
//! For each group a line of output says how many texts agree. If one differs from the expected one,
//! the program shows the first line that does, and ends with status 1. Only its run shows what is
//! printed.
#![tactic(auto)]

ghost use Rattle.std.specs.Prelude.{◌<◌};

use anyhow::{Context, Result};
use pt_cases::{Case, agrees, cases_of};
use pt_core::Core;
use pt_explain::explain;
use pt_io::Faulty;
use pt_script::ENTRIES_BETWEEN_SEALS;
use std::env;
use std::process::ExitCode;

// The folders of `data`.
const GROUPS: [&str; 3] = ["rows", "lines", "drawn"];

// The most bytes of a read and of a write.
const PIECE: usize = 100;

// Explains a script. Returns whether what is written agrees.
fn is_explained(rt: &(impl Print + AllocGlobal), step: usize, case: &Case) -> Result<bool>
    requires { 0 < step }
{
    let bytes = Vec::from_slice(rt.alloc(), &case.script)?;
    let mut reader = Faulty::new(bytes, step, 0);
    let mut writer = Faulty::new(Vec::new(rt.alloc()), step, 0);
    let mut errors = Faulty::new(Vec::new(rt.alloc()), step, 0);
    let core = Core::with_limit(rt.alloc(), ENTRIES_BETWEEN_SEALS)?;
    let status = explain(core, rt.alloc(), &mut reader, &mut writer, &mut errors);
    Ok(status == 0 && agrees(rt, case, writer.written())?)
}

// Explains the scripts of a group, up to the first that differs, and returns whether all agree. If
// they do, prints how many.
fn all_explained(rt: &HostRuntime, folder: &str, group: &str) -> Result<bool> {
    let cases = cases_of(rt, folder, group)?;
    for case in &cases {
        if !is_explained(rt, PIECE, case).context(format_args!("{}", case.path))? {
            return Ok(false);
        }
    }
    let count = cases.len();
    println!(rt; "{group}: {count} scripts are explained")?;
    Ok(true)
}

// Explains the groups in this folder, up to the first that differs.
fn run(rt: &HostRuntime, folder: &str) -> Result<ExitCode> {
    for group in GROUPS {
        if !all_explained(rt, folder, group)? {
            return Ok(ExitCode::FAILURE);
        }
    }
    Ok(ExitCode::SUCCESS)
}

// The first word of the command line is the folder of the groups, or `.` if there is none.
fn main(rt: HostRuntime) -> Result<ExitCode> {
    match env::args(&rt)?.nth(1) {
        Some(folder) => run(&rt, folder.as_str()),
        None => run(&rt, "."),
    }
}
