//! The word `serve`: a Unix socket is served, and what is done may be written to a file.
//!
//! The contract of `pt_serve` says what is written to standard output and what is reported. Only
//! runs show what gets into the file, and which status follows.

use crate::want_memory;
use pt_command::{ClockWord, Service};
use pt_core::Core;
use pt_hub::Closed;
use pt_io::Counted;
use pt_script::ENTRIES_BETWEEN_SEALS;
use pt_serve::{ServeFault, ServerEnd, TraceFile, serve};
use pt_session::ClockMode;
use std::fs::File;
use std::io;
use std::net::Net;
use std::process::ExitCode;
use std::rt::Files;
use std::sync::Wait;
use std::sync::atomic::{AtomicBool, Ordering};
use std::thread::Threads;
use std::time::Clock;

/// The exit status if the file of the trace can't be made or written.  [profile]
const TRACE: u8 = 3;

fn mode_of(clock: ClockWord) -> ClockMode {
    match clock {
        ClockWord::Lines => ClockMode::Lines,
        ClockWord::System => ClockMode::System,
    }
}

// Returns the exit status of a server that ended so.
fn end_of(served: Result<Closed, ServeFault>, is_traced: bool) -> ExitCode {
    match served {
        Ok(_) if is_traced => ExitCode::SUCCESS,
        Ok(_) => ExitCode::from(TRACE),
        Err(fault) => ExitCode::from(pt_serve::status_of(fault)),
    }
}

// Serves, and writes what is done to this file, if one is given.
fn serve_to<R: Files + Net + Threads + Wait + Clock + Sync>(
    host: &HostRuntime,
    rt: &R,
    service: &Service,
    file: Option<File>,
) -> ExitCode {
    let Ok(core) = Core::with_limit(host.alloc(), ENTRIES_BETWEEN_SEALS) else {
        return want_memory(host);
    };
    let has_failed = AtomicBool::new(false);
    let trace = match file {
        Some(file) => {
            let errors = Counted::new(host.stderr());
            Some(TraceFile::new(Counted::new(file), errors, &has_failed))
        }
        None => None,
    };
    let mut out = Counted::new(io::writer(host));
    let ServerEnd { end, errors: _ } = serve(
        rt,
        host.alloc(),
        core,
        service.path.as_str(),
        mode_of(service.clock),
        service.sessions,
        &mut out,
        Counted::new(host.stderr()),
        trace,
    );
    end_of(end, !has_failed.load(Ordering::SeqCst))
}

/// Serves as the command line asks, and returns the exit status. Only `main` has threads, which it
/// gives as `rt`.
pub fn run_serve<R: Files + Net + Threads + Wait + Clock + Sync>(
    host: &HostRuntime,
    rt: &R,
    service: &Service,
) -> ExitCode {
    let Some(path) = &service.trace else {
        return serve_to(host, rt, service, None);
    };
    match File::create(host, path.as_str()) {
        Ok(file) => serve_to(host, rt, service, Some(file)),
        Err(_) => {
            let _ = eprintln!(host; "ptserver: trace failed");
            ExitCode::from(TRACE)
        }
    }
}
