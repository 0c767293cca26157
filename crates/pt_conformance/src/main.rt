//! The program `pt_conformance`: plays scripts, and compares their answers with those that each
//! must get.
//!
//! The folder `data` has groups: `rows`, the worked rows (`tools/list rows`); `lines`, scripts
//! about where lines end; `drawn`, scripts drawn at random, with the answers that a second
//! implementation of the rules gave; and `refused` and `broken`, scripts that want memory of every
//! kind. The script of seed S has 20 + S % 101 lines. A group has folders, and a folder has cases:
//! the files NAME.script and NAME.expected.
//!
//! The cases of the first three groups are played in each of four ways. Those of the others are put
//! to trials: growths of memory are refused, and for `broken` devices fail too. For each way and
//! trial a line of output says how many cases agree. If a text differs from the expected one, the
//! program shows the first line that does, and ends with status 1. Only its run shows what is
//! printed.
#![tactic(auto)]

mod breaking;
mod playing;
mod refusing;
mod sealing;
mod seeing;
mod trial;
mod way;

use anyhow::Result;
use playing::all_agree;
use pt_cases::cases_of;
use std::env;
use std::process::ExitCode;
use trial::{Trial, all_pass};
use way::Way;

// The folders of `data` whose scripts are played as they are.
const GROUPS: [&str; 3] = ["rows", "lines", "drawn"];

// Plays the cases of a group in each way, up to the first that differs, and returns whether all
// agree.
fn group_agrees(rt: &HostRuntime, folder: &str, group: &str) -> Result<bool> {
    let cases = cases_of(rt, folder, group)?;
    Ok(
        all_agree(rt, group, Way::Large, &cases)?
            && all_agree(rt, group, Way::Odd, &cases)?
            && all_agree(rt, group, Way::Bytes, &cases)?
            && all_agree(rt, group, Way::File, &cases)?,
    )
}

// Refuses the cases of a group each growth, up to the first that fails. Returns whether all pass.
fn group_is_steady(rt: &HostRuntime, folder: &str, group: &str) -> Result<bool> {
    let cases = cases_of(rt, folder, group)?;
    Ok(all_pass(rt, group, Trial::Growths, &cases)? && all_pass(rt, group, Trial::Seals, &cases)?)
}

// Breaks the devices of the cases of a group, up to the first that fails. Returns whether all pass.
fn group_is_unbroken(rt: &HostRuntime, folder: &str, group: &str) -> Result<bool> {
    let cases = cases_of(rt, folder, group)?;
    all_pass(rt, group, Trial::Devices, &cases)
}

// Puts the cases of a group on a core whose entries are in cells. Returns whether all are seen.
fn group_is_seen(rt: &HostRuntime, folder: &str, group: &str) -> Result<bool> {
    let cases = cases_of(rt, folder, group)?;
    all_pass(rt, group, Trial::Cells, &cases)
}

// Returns whether the scripts for trials pass.
fn all_steady(rt: &HostRuntime, folder: &str) -> Result<bool> {
    Ok(
        group_is_seen(rt, folder, "rows")?
            && group_is_steady(rt, folder, "refused")?
            && group_is_steady(rt, folder, "broken")?
            && group_is_unbroken(rt, folder, "broken")?,
    )
}

// Plays the groups in this folder.
fn run(rt: &HostRuntime, folder: &str) -> Result<ExitCode> {
    for group in GROUPS {
        if !group_agrees(rt, folder, group)? {
            return Ok(ExitCode::FAILURE);
        }
    }
    if !all_steady(rt, folder)? {
        return Ok(ExitCode::FAILURE);
    }
    Ok(ExitCode::SUCCESS)
}

// The first word of the command line is the folder of the groups, or `.` if there is none.
fn main(rt: HostRuntime) -> Result<ExitCode> {
    match env::args(&rt)?.nth(1) {
        Some(folder) => run(&rt, folder.as_str()),
        None => run(&rt, "."),
    }
}
