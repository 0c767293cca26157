//! The program `pt_bad_usage`: the command line of `ptserver` alone, run with a word that it does
//! not know. It prints the usage on standard error, and ends with status 2.
#![tactic(auto)]

use pt_command::{Task, read_task};
use std::process::ExitCode;

fn main(rt: HostRuntime) -> ExitCode {
    match read_task(&rt) {
        Task::Script | Task::Explain | Task::Check(_) | Task::Serve(_) => ExitCode::SUCCESS,
        Task::End(status) => status,
    }
}
