//! How what a server did is written to a file, as a trace.

ghost use Rattle.std.specs.Prelude.{◌≡◌, true, IsTrue};

use crate::output::say;
use pt_io::Sink;
use pt_legal::LegalHistory;
use pt_session::Shared;
use std::sync::Wait;
use std::sync::atomic::{AtomicBool, Ordering};
use std::sync::ledger::Ledger;
use std::thread;
use std::time::{Clock, Duration};

/// The number of milliseconds from one write of what was recorded to the next.  [profile]
const PAUSE_MILLIS: u64 = 10;

// Writes what was recorded, and returns whether all of it was recorded and written.
fn put<F: Sink>(file: &mut F, text: Option<Vec<u8>>) -> bool
    requires { F.failures file.old ≡ 0 }
    ensures { IsTrue result → F.failures file.new ≡ 0 }
{
    match text {
        Some(text) if text.is_empty() => true,
        Some(text) => say(file, text.as_slice()).is_ok(),
        None => false,
    }
}

/// The file that gets the trace. After a failure, which is reported in one line on `errors`,
/// nothing more is written.
#[derive(Drop)]
pub struct TraceFile<'a, F: Sink, E: Sink> {
    file: F,
    errors: E,
    has_failed: &'a AtomicBool,
    works: bool,
    ghost file_works: { works ≡ true → F.failures file ≡ 0 },
    ghost errors_work: { works ≡ true → E.failures errors ≡ 0 },
}

impl<'a, F: Sink + Drop, E: Sink + Drop> TraceFile<'a, F, E> {
    ghost use Rattle.std.specs.Prelude.{◌≡◌};

    /// Creates a trace file. The flag becomes true if a write to the file fails, or if something
    /// could not be recorded.
    pub fn new(file: F, errors: E, has_failed: &'a AtomicBool) -> TraceFile<'a, F, E>
        requires file { F.failures file ≡ 0 }
        requires errors { E.failures errors ≡ 0 }
    {
        TraceFile {
            file,
            errors,
            has_failed,
            works: true,
        }
    }

    /// Writes what was recorded since the last time.
    pub fn write<C: LegalHistory, L: Ledger, R: Wait>(&mut self, rt: &R, shared: &Shared<C, L>) {
        if !self.works {
            return;
        }
        self.works = put(&mut self.file, shared.take_recorded(rt));
        if !self.works {
            let _ = say(&mut self.errors, b"ptserver: trace failed\n");
            self.has_failed.store(true, Ordering::SeqCst);
        }
    }
}

/// Writes what is recorded, until the server ends.
pub fn write_trace<'a, C: LegalHistory, L: Ledger, R: Wait + Clock, F: Sink + Drop, E: Sink + Drop>(
    rt: &R,
    shared: &Shared<C, L>,
    trace: TraceFile<'a, F, E>,
) -> TraceFile<'a, F, E> {
    let mut trace = trace;
    for _ in rt.forever() {
        if shared.is_done(rt) {
            break;
        }
        trace.write(rt, shared);
        thread::sleep(rt, Duration::from_millis(PAUSE_MILLIS));
    }
    trace
}
