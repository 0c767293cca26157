use crate::words::command;
use clap::error::ErrorKind;
use clap::{ArgMatches, Error};
use std::alloc::Global;
use std::process::ExitCode;
use std::{env, io};

/// The exit status after a fault of the command line.  [profile]
const USAGE: u8 = 2;

/// The exit status after a failed write.  [profile]
const OUTPUT: u8 = 3;

/// The exit status after a lack of memory.  [profile]
const MEMORY: u8 = 5;

/// The clock that deadlines are compared with.
#[derive(Clone, Copy)]
pub enum ClockWord {
    /// The clock of the connections, which send moment lines.
    Lines,
    System,
}

/// The socket to serve, and for how long.
#[derive(Drop)]
pub struct Service {
    /// The path of the socket.
    pub path: String,
    pub clock: ClockWord,
    /// The number of connections, or 0 for no limit.
    pub sessions: u64,
    /// The path of the file that gets the trace, if one is asked for.
    pub trace: Option<String>,
}

/// The traces to check, and how.
#[derive(Drop)]
pub struct Traces {
    /// The paths of the files, or none for standard input.
    pub files: Vec<String>,
    /// Whether an answer may come after a later line.
    pub takes_late: bool,
}

/// The task that a command line asks of the program.
pub enum Task {
    /// Answer a script.
    Script,
    /// Explain a script.
    Explain,
    /// Check traces.
    Check(Traces),
    /// Serve a socket.
    Serve(Service),
    /// Do nothing more. What was asked for, or what is wrong, has been shown.
    End(ExitCode),
}

// Shows what was asked for, or what is wrong with the words. Reports a text that was asked for and
// can't be written.
fn show(rt: &HostRuntime, error: &Error) -> ExitCode {
    let printed = error.print(rt);
    if error.use_stderr() {
        return ExitCode::from(USAGE);
    }
    if printed.is_err() {
        let _ = eprintln!(rt; "ptserver: write failed");
        return ExitCode::from(OUTPUT);
    }
    ExitCode::SUCCESS
}

// Returns what the options of `serve` ask for, or an error if memory is lacking.
fn read_service(alloc: Global, options: &ArgMatches) -> Result<Service, Error> {
    let clock = match options.get_str("clock") {
        Some("system") => ClockWord::System,
        _ => ClockWord::Lines,
    };
    let trace = match options.get_str("trace") {
        Some(file) => Some(String::from_str(alloc, file)?),
        None => None,
    };
    Ok(Service {
        path: String::from_str(alloc, options.get_str("socket").unwrap_or(""))?,
        clock,
        sessions: options.get_one::<u64>("sessions").unwrap_or(0),
        trace,
    })
}

// Returns the traces that the words of `check` name, or an error if memory is lacking.
fn read_traces(alloc: Global, options: &ArgMatches) -> Result<Traces, Error> {
    let mut files = Vec::new(alloc);
    for file in options.get_strs("FILE").unwrap_or(&[]) {
        files.push(String::from_str(alloc, file)?)?;
    }
    Ok(Traces {
        files,
        takes_late: options.get_flag("late"),
    })
}

// Returns the task that these words ask for, or an error if memory is lacking.
fn task_of(rt: &HostRuntime, words: &[String]) -> Result<Task, Error> {
    let matches = match command(rt.alloc())?.try_get_matches_from(words) {
        Ok(matches) => matches,
        Err(error) if error.kind() == ErrorKind::OutOfMemory => return Err(error),
        Err(error) => return Ok(Task::End(show(rt, &error))),
    };
    match matches.subcommand() {
        Some(("script", _)) => Ok(Task::Script),
        Some(("explain", _)) => Ok(Task::Explain),
        Some(("check", options)) => Ok(Task::Check(read_traces(rt.alloc(), options)?)),
        Some(("serve", options)) => Ok(Task::Serve(read_service(rt.alloc(), options)?)),
        _ => Ok(Task::End(ExitCode::from(USAGE))),
    }
}

fn out_of_memory(rt: &HostRuntime) -> ExitCode {
    let _ = eprintln!(rt; "ptserver: out of memory");
    ExitCode::from(MEMORY)
}

// Reports that the words of the command line can't be read: memory was refused, or one is not
// UTF-8.
fn refuse_words(rt: &HostRuntime, error: &io::Error) -> ExitCode {
    if error.kind() == io::ErrorKind::OutOfMemory {
        return out_of_memory(rt);
    }
    let _ = eprintln!(rt; "error: invalid UTF-8 was detected in one or more arguments");
    ExitCode::from(USAGE)
}

/// Reads the command line. Shows what it asks to be shown, or what is wrong with it.
pub fn read_task(rt: &HostRuntime) -> Task {
    let args = match env::args(rt) {
        Ok(args) => args,
        Err(error) => return Task::End(refuse_words(rt, &error)),
    };
    let words: Result<Vec<String>, _> = args.collect(rt.alloc());
    let Ok(words) = words else {
        return Task::End(out_of_memory(rt));
    };
    task_of(rt, words.as_slice()).unwrap_or_else(|_| Task::End(out_of_memory(rt)))
}
