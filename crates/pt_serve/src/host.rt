//! The threads of a server.

ghost use Rattle.std.specs.Prelude.{◌≡◌, ◌≢◌, Some};
ghost use Rattle.pt_session.specs.Outputs.{output_view};
ghost use Rattle.pt_serve.specs.Served.{ReportsFault, fault_in};

use crate::clock::tick;
use crate::fault::{HostFault, ServeFault, fault_of};
use crate::polling::{Connections, PolledReader, PolledWriter};
use crate::recording::{TraceFile, write_trace};
use crate::remains::{Remain, Remains};
use crate::server_end::{ServerEnd, ended_with, report_end};
use pt_hub::ClockPass;
use pt_io::{Counted, Sink};
use pt_legal::LegalHistory;
use pt_session::{ClockMode, OpenGate, Retention, Shared, session};
use std::alloc::Global;
use std::net::TcpStream;
use std::os::fd::{AsRawFd, OwnedFd};
use std::os::unix::net::{UnixListener, UnixStream};
use std::sync::ledger::Ledger;
use std::sync::{Mutex, Wait};
use std::thread::{Scope, Threads};
use std::time::{Clock, Duration};
use std::{io, thread};

/// The number of milliseconds after which the next connection is accepted, if the system refused
/// one for lack of something that others give back.  [profile]
const PAUSE_MILLIS: u64 = 10;

/// The codes of such refusals: ENOMEM, ENFILE, EMFILE, ECONNABORTED, ENOBUFS.  [XSH accept]
const PASSING: [i32; 5] = [12, 23, 24, 103, 105];

// Returns whether a connection can be accepted later.
fn passes(error: &io::Error) -> bool {
    match error.raw_os_error() {
        Some(code) => PASSING.contains(&code),
        None => false,
    }
}

/// What the threads of a server share.
#[derive(Drop)]
struct Server<'a, C: LegalHistory, L: Ledger, R> {
    rt: &'a R,
    alloc: Global,
    shared: &'a Shared<C, L>,
    mode: ClockMode,
    /// The number of connections to accept, or 0 for no limit.
    sessions: u64,
    retention: Retention,
    connections: Connections,
    remains: Mutex<Remains<L>>,
}

impl<'a, C: LegalHistory + Send, L: Ledger + Send + Sync, R: Threads + Wait + Clock + Sync> Server<
    'a,
    C,
    L,
    R,
> {
    ghost use Rattle.std.specs.Prelude.{◌≡◌, ◌≢◌, Some};
    ghost use Rattle.pt_session.specs.Outputs.{output_view};
    ghost use Rattle.pt_serve.specs.Served.{ReportsFault, fault_in};

    // Serves one connection, and stores what its session leaves. The connection is closed as the
    // session ends or is refused.
    fn converse(&self, stream: UnixStream) {
        let stream = TcpStream::from(OwnedFd::from(stream));
        self.connections.begin();
        let reader = Counted::new(PolledReader::new(&stream, &self.connections));
        let writer = Counted::new(PolledWriter::new(&stream));
        let ended = session(
            self.rt,
            self.alloc,
            reader,
            writer,
            self.shared,
            &OpenGate,
            self.mode,
            Some(stream.as_raw_fd()),
            self.retention,
        );
        self.connections.end();
        let Ok(end) = ended else {
            return;
        };
        end.reader.into_inner().finish();
        // What the session leaves is needed only to close the history.
        if self.sessions > 0 {
            self.remains.lock(self.rt).add(Remain {
                left: end.left,
                clock: end.clock,
            });
        }
    }

    // Accepts connections, and serves each in a thread of its own. A connection that is refused its
    // thread is closed. The listener is closed at the end, so that nobody waits in its queue.
    fn accept_in<'s, Z>(
        &'s self,
        scope: &Scope<'s, Z>,
        listener: UnixListener,
    ) -> Result<(), HostFault> {
        let mut accepted: u64 = 0;
        for stream in listener.incoming() {
            match stream {
                Ok(stream) => {
                    let _ = scope.spawn(move || self.converse(stream));
                    accepted = accepted.saturating_add(1);
                }
                Err(error) if passes(&error) => {
                    thread::sleep(self.rt, Duration::from_millis(PAUSE_MILLIS));
                }
                Err(_) => return Err(HostFault::Accept),
            }
            if self.remains.lock(self.rt).is_short() {
                return Err(HostFault::Memory);
            }
            if accepted == self.sessions && accepted > 0 {
                break;
            }
        }
        Ok(())
    }

    // Does what `accept_in` does, and reports its fault at once: its sessions may still run.
    fn accept_and_report<'s, Z, E: Sink + Drop>(
        &'s self,
        scope: &Scope<'s, Z>,
        listener: UnixListener,
        errors: E,
    ) -> ServerEnd<(), E>
        requires { E.failures errors ≡ 0 }
        ensures err { fault_in result.end ≢ Some ServeFault.Write }
        ensures fault { ReportsFault (output_view E.taken E.flushed E.failures E.rejections) errors
            (fault_in result.end) result.errors }
    {
        match self.accept_in(scope, listener) {
            Ok(()) => report_end(Ok(()), errors),
            Err(fault) => report_end(Err(fault_of(fault)), errors),
        }
    }

    // Does what `accept_and_report` does, and waits for the sessions.
    fn accept<E: Sink + Drop>(&self, listener: UnixListener, errors: E) -> ServerEnd<(), E>
        requires { E.failures errors ≡ 0 }
        ensures err { fault_in result.end ≢ Some ServeFault.Write }
        ensures fault { ReportsFault (output_view E.taken E.flushed E.failures E.rejections) errors
            (fault_in result.end) result.errors }
    {
        thread::scope(
            thread::scope_env(),
            self.rt,
            move |scope| -> ServerEnd<(), E>
                requires { E.failures errors ≡ 0 }
                ensures err { fault_in result.end ≢ Some ServeFault.Write }
                ensures fault { ReportsFault (output_view E.taken E.flushed E.failures E.rejections)
                    errors
                    (fault_in result.end) result.errors }
            { self.accept_and_report(scope, listener, errors) },
        )
    }

    // Does what `accept` does, while another thread hands in the clocks of the system. Returns
    // their pass.
    fn accept_by_clock<E: Sink + Drop>(
        &self,
        listener: UnixListener,
        clock: ClockPass<L>,
        errors: E,
    ) -> ServerEnd<ClockPass<L>, E>
        requires { E.failures errors ≡ 0 }
        ensures err { fault_in result.end ≢ Some ServeFault.Write }
        ensures fault { ReportsFault (output_view E.taken E.flushed E.failures E.rejections) errors
            (fault_in result.end) result.errors }
    {
        thread::scope(
            thread::scope_env(),
            self.rt,
            move |scope| -> ServerEnd<ClockPass<L>, E>
                requires { E.failures errors ≡ 0 }
                ensures err { fault_in result.end ≢ Some ServeFault.Write }
                ensures fault { ReportsFault (output_view E.taken E.flushed E.failures E.rejections)
                    errors
                    (fault_in result.end) result.errors }
            {
                let ticks = move || tick(self.rt, self.shared, clock, self.retention);
                let Ok(ticking) = scope.spawn(ticks) else {
                    return report_end(Err(ServeFault::Thread), errors);
                };
                let served = self.accept(listener, errors);
                self.shared.finish(self.rt);
                ended_with(served, ticking.join(self.rt))
            },
        )
    }

    // Accepts connections in the clock mode of the server, and returns the pass of its clocks.
    fn accept_all<E: Sink + Drop>(
        &self,
        listener: UnixListener,
        clock: ClockPass<L>,
        errors: E,
    ) -> ServerEnd<ClockPass<L>, E>
        requires { E.failures errors ≡ 0 }
        ensures err { fault_in result.end ≢ Some ServeFault.Write }
        ensures fault { ReportsFault (output_view E.taken E.flushed E.failures E.rejections) errors
            (fault_in result.end) result.errors }
    {
        match self.mode {
            ClockMode::System => self.accept_by_clock(listener, clock, errors),
            ClockMode::Lines => ended_with(self.accept(listener, errors), clock),
        }
    }

    // Does what `accept_all` does, while another thread writes what is recorded, if there is a file
    // for that.
    fn accept_recorded<'t, E: Sink + Send + Drop, F: Sink + Send + Drop>(
        &self,
        listener: UnixListener,
        clock: ClockPass<L>,
        errors: E,
        trace: Option<TraceFile<'t, F, E>>,
    ) -> ServerEnd<ClockPass<L>, E>
        requires { E.failures errors ≡ 0 }
        ensures err { fault_in result.end ≢ Some ServeFault.Write }
        ensures fault { ReportsFault (output_view E.taken E.flushed E.failures E.rejections) errors
            (fault_in result.end) result.errors }
    {
        let Some(trace) = trace else {
            return self.accept_all(listener, clock, errors);
        };
        thread::scope(
            thread::scope_env(),
            self.rt,
            move |scope| -> ServerEnd<ClockPass<L>, E>
                requires { E.failures errors ≡ 0 }
                ensures err { fault_in result.end ≢ Some ServeFault.Write }
                ensures fault { ReportsFault (output_view E.taken E.flushed E.failures E.rejections)
                    errors
                    (fault_in result.end) result.errors }
            {
                match scope.spawn(move || write_trace(self.rt, self.shared, trace)) {
                    Ok(writing) => {
                        let served = self.accept_all(listener, clock, errors);
                        self.shared.finish(self.rt);
                        writing.join(self.rt).write(self.rt, self.shared);
                        served
                    }
                    Err(_) => report_end(Err(ServeFault::Thread), errors),
                }
            },
        )
    }
}

/// Serves `sessions` connections, or goes on without end if that is 0, and returns what they leave.
/// A fault is reported as it comes.
pub fn host<
    't,
    C: LegalHistory + Send,
    L: Ledger + Send + Sync,
    R: Threads + Wait + Clock + Sync,
    E: Sink + Send + Drop,
    F: Sink + Send + Drop,
>(
    rt: &R,
    alloc: Global,
    listener: UnixListener,
    shared: &Shared<C, L>,
    clock: ClockPass<L>,
    mode: ClockMode,
    sessions: u64,
    errors: E,
    trace: Option<TraceFile<'t, F, E>>,
) -> ServerEnd<Remains<L>, E>
    requires { E.failures errors ≡ 0 }
    ensures err { fault_in result.end ≢ Some ServeFault.Write }
    ensures fault { ReportsFault (output_view E.taken E.flushed E.failures E.rejections) errors
        (fault_in result.end) result.errors }
{
    // What is retained is needed only to close the history.
    let retention = if sessions == 0 {
        Retention::Pending
    } else {
        Retention::Complete
    };
    let server = Server {
        rt,
        alloc,
        shared,
        mode,
        sessions,
        retention,
        connections: Connections::new(),
        remains: Mutex::new(Remains::new(alloc)),
    };
    let ServerEnd { end, errors } = server.accept_recorded(listener, clock, errors, trace);
    match end {
        Ok(clock) => {
            let Server { remains, .. } = server;
            let mut remains = remains.into_inner();
            remains.add_clock(clock);
            ServerEnd {
                end: Ok(remains),
                errors,
            }
        }
        Err(fault) => ServerEnd {
            end: Err(fault),
            errors,
        },
    }
}
