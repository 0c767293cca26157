//! The program `pt_reference_tests`: plays scripts by the plain slow program, entry by entry.
//!
//! The folder `data` has four groups: `rows`, worked rows (`tools/list rows`); `limits`, histories
//! that become full; `questions`, scripts that ask what is read off a history; and `drawn`, scripts
//! drawn at random. A second implementation of the rules made the text that each script must give.
//! A group has folders, and a folder has cases: the files NAME.script and NAME.expected.
//!
//! A script has the lines of `ptserver script`, and the name of a client is its number. A line may
//! also be `limit N`, the number of entries that the history may have from there on, or a question,
//! `? WORD ..`. An expected text has the word of each refusal, each entry of the history with the
//! answers that it gives (client, place of the call, outcome), and the answer to each question.
//!
//! For each group, a line of output says how many scripts agree. If a text differs from the
//! expected one, the program shows the first line that does, and ends with status 1. Only its run
//! shows what is printed.
#![tactic(auto)]

mod player;
mod question;
mod reading;
mod showing;

use anyhow::{Context, Result};
use player::Player;
use pt_cases::{Case, agrees, cases_of};
use std::env;
use std::process::ExitCode;

// The folders of `data`.
const GROUPS: [&str; 4] = ["rows", "limits", "questions", "drawn"];

// Plays a case, and returns whether it agrees.
fn case_agrees(rt: &HostRuntime, case: &Case) -> Result<bool> {
    let mut player = Player::new(rt.alloc());
    player.play(str::from_utf8(&case.script)?)?;
    Ok(agrees(rt, case, player.text().as_bytes())?)
}

// Plays the cases of a group, up to the first that differs, and returns whether all agree.
fn group_agrees(rt: &HostRuntime, folder: &str, group: &str) -> Result<bool> {
    let cases = cases_of(rt, folder, group)?;
    for case in &cases {
        if !case_agrees(rt, case).context(format_args!("{}", case.path))? {
            return Ok(false);
        }
    }
    let count = cases.len();
    println!(rt; "{group}: {count} scripts agree")?;
    Ok(true)
}

// Plays the groups in this folder.
fn run(rt: &HostRuntime, folder: &str) -> Result<ExitCode> {
    for group in GROUPS {
        if !group_agrees(rt, folder, group)? {
            return Ok(ExitCode::FAILURE);
        }
    }
    Ok(ExitCode::SUCCESS)
}

// The first word of the command line is the folder of the groups, or `.` if there is none.
fn main(rt: HostRuntime) -> Result<ExitCode> {
    match env::args(&rt)?.nth(1) {
        Some(folder) => run(&rt, folder.as_str()),
        None => run(&rt, "."),
    }
}
