//! The program `ptserver`: it reads POSIX synchronisation calls and writes their answers, as a
//! script, with or without what explains them, or over a Unix socket.
//!
//! The contract of `pt_script` says what a script is answered, what is reported of a fault, and
//! which exit status follows. Its `answer` is given a core and the three standard streams. The
//! contract of `pt_explain` says the same for a script that is explained, and that of `pt_serve`
//! for a server. The words of the command line are those of `pt_command`.
#![tactic(auto)]

mod checking;
mod serving;

use checking::run_check;
use pt_command::{Task, read_task};
use pt_core::Core;
use pt_explain::explain;
use pt_io::Counted;
use pt_script::{ENTRIES_BETWEEN_SEALS, ScriptFault, answer};
use serving::run_serve;
use std::io;
use std::process::ExitCode;

// Reports that there is no memory for a core, and returns the exit status.
fn want_memory(rt: &HostRuntime) -> ExitCode {
    pt_script::report(&mut Counted::new(rt.stderr()), ScriptFault::Memory);
    ExitCode::from(pt_script::status_of(ScriptFault::Memory))
}

// Answers standard input on standard output, and reports a fault on standard error.
fn run_script(rt: &HostRuntime) -> ExitCode {
    let Ok(core) = Core::with_limit(rt.alloc(), ENTRIES_BETWEEN_SEALS) else {
        return want_memory(rt);
    };
    let mut reader = Counted::new(rt.stdin());
    let mut writer = Counted::new(io::writer(rt));
    let mut errors = Counted::new(rt.stderr());
    ExitCode::from(answer(core, rt.alloc(), &mut reader, &mut writer, &mut errors))
}

// Explains standard input on standard output, and reports a fault on standard error.
fn run_explain(rt: &HostRuntime) -> ExitCode {
    let Ok(core) = Core::with_limit(rt.alloc(), ENTRIES_BETWEEN_SEALS) else {
        return want_memory(rt);
    };
    let mut reader = Counted::new(rt.stdin());
    let mut writer = Counted::new(io::writer(rt));
    let mut errors = Counted::new(rt.stderr());
    ExitCode::from(explain(core, rt.alloc(), &mut reader, &mut writer, &mut errors))
}

fn main(rt: HostRuntime) -> ExitCode {
    match read_task(&rt) {
        Task::Script => run_script(&rt),
        Task::Explain => run_explain(&rt),
        Task::Check(traces) => run_check(&rt, &traces),
        Task::Serve(service) => run_serve(&rt, &rt, &service),
        Task::End(status) => status,
    }
}
