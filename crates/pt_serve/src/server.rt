ghost use Rattle.std.specs.Prelude.{◌≡◌, ◌≢◌, ◌^◌, ◌-◌, ◌++◌, [], Some, OnOk, OnErr, IfOk, IfErr};
ghost use Rattle.pt_legal.specs.Cores.{IsEmpty, core_state};
ghost use Rattle.pt_session.specs.Outputs.{IsBroken, output_view};
ghost use Rattle.pt_serve.specs.Served.{IsServiceBegun, ReportsFault, closed_line, fault_in};
ghost use Rattle.pt_serve.specs.Served.{ready_line};

use crate::fault::ServeFault;
use crate::host::host;
use crate::output::{say_closed, say_ready};
use crate::recording::TraceFile;
use crate::server_end::{ServerEnd, report_end};
use pt_eventcount::Peers;
use pt_hub::{ClockPass, Closed, Hub};
use pt_io::Sink;
use pt_legal::LegalHistory;
use pt_recorder::Recorder;
use pt_session::{ClockMode, Shared};
use std::alloc::Global;
use std::marker::Brand;
use std::net::Net;
use std::os::unix::net::UnixListener;
use std::rt::Files;
use std::sync::Wait;
use std::sync::ledger::{Blank, Ledger};
use std::thread::Threads;
use std::time::Clock;

/// The most shares of the ledger: one for each client, session and clock.
const SHARES: u64 = 1 << 63;

// Serves with this ledger on a socket that listens. `ready` is written before this.
fn serve_ready<
    't,
    C: LegalHistory + Send,
    L: Ledger + Send + Sync,
    R: Threads + Wait + Clock + Sync,
    E: Sink + Send + Drop,
    F: Sink + Send + Drop,
>(
    rt: &R,
    alloc: Global,
    core: C,
    blank: Blank,
    listener: UnixListener,
    peers: Peers,
    mode: ClockMode,
    sessions: u64,
    errors: E,
    trace: Option<TraceFile<'t, F, E>>,
) -> ServerEnd<Closed, E>
    requires empty { IsEmpty (core_state (C.seen core)) }
    requires name { (blank.name ≡ L.name) × (blank.parts ≡ L.parts) }
    requires parts { blank.parts ≡ 2 ^ 63 }
    requires errors { E.failures errors ≡ 0 }
    ensures err { fault_in result.end ≢ Some ServeFault.Write }
    ensures fault { ReportsFault (output_view E.taken E.flushed E.failures E.rejections) errors
        (fault_in result.end) result.errors }
{
    // A server without end never closes its hub, so nobody reads what receipts have seen.
    let heap = if sessions == 0 { None } else { Some(alloc) };
    let (hub, clock): (Hub<C, L>, ClockPass<L>) = Hub::new(core, alloc, heap, blank);
    let recorder = trace.as_ref().map(|_| Recorder::new(alloc));
    let shared = Shared::with_peers(hub, peers, recorder);
    let ServerEnd { end, errors } = host(
        rt, alloc, listener, &shared, clock, mode, sessions, errors, trace,
    );
    match end {
        Ok(remains) => report_end(remains.close(shared.into_hub()), errors),
        Err(fault) => ServerEnd {
            end: Err(fault),
            errors,
        },
    }
}

// Listens on a socket at a path that is not there yet, and makes the set of watched connections.
fn listen<R: Files + Net>(
    rt: &R,
    alloc: Global,
    path: &str,
) -> Result<(UnixListener, Peers), ServeFault>
    ensures { IfErr result (λ fault. fault ≢ ServeFault.Write) }
{
    // The system would make a socket without a name for an empty path.  [XSH bind: ENOENT]
    if path.is_empty() {
        return Err(ServeFault::Bind);
    }
    let Ok(peers) = Peers::new(rt, alloc) else {
        return Err(ServeFault::Bind);
    };
    match UnixListener::bind(rt, path) {
        Ok(listener) => Ok((listener, peers)),
        Err(_) => Err(ServeFault::Bind),
    }
}

/// Serves `sessions` connections to a Unix socket at this path, or goes on without end if
/// `sessions` is 0. Then closes the history of their clients, which begins as an empty core.
/// [profile]
///
/// It writes `ready` once it listens, and `closed` with the number of events after the close. A
/// connection whose thread or session is refused is closed, and counts as one. A connection that
/// the system refuses for lack of descriptors or memory is accepted later. A fault is reported in
/// one line on `errors` as it comes. The listener is then closed, the server waits for the running
/// sessions, and the history is not closed. The file at the path stays.
///
/// With a trace file, each event is written there as a line of a script, with the answers that it
/// brought, in the order of the history.
pub fn serve<
    't,
    C: LegalHistory + Send,
    W: Sink,
    R: Files + Net + Threads + Wait + Clock + Sync,
    E: Sink + Send + Drop,
    F: Sink + Send + Drop,
>(
    rt: &R,
    alloc: Global,
    core: C,
    path: &str,
    mode: ClockMode,
    sessions: u64,
    out: &mut W,
    errors: E,
    trace: Option<TraceFile<'t, F, E>>,
) -> ServerEnd<Closed, E>
    requires empty { IsEmpty (core_state (C.seen core)) }
    requires output { W.failures out.old ≡ 0 }
    requires errors { E.failures errors ≡ 0 }

    // Exactly these two lines are written, and all of it is flushed.
    ensures ok { IfOk result.end (λ closed.
        W.taken out.new ≡ (W.taken out.old ++ ready_line) ++ closed_line closed.outer) }
    ensures out { OnOk result.end
        ((W.flushed out.new ≡ W.taken out.new) × (W.failures out.new ≡ 0)) }

    // After a fault, what is written begins such a text. `Write` is returned only if the writer
    // broke.
    ensures unchanged { OnErr result.end (IsServiceBegun (W.taken out.old) (W.taken out.new)) }
    ensures err { IfErr result.end (λ fault. fault ≡ ServeFault.Write
        → IsBroken (W.failures out.new) (W.rejections out.new - W.rejections out.old)) }

    // The fault is reported, in one line. Without one nothing is.
    ensures fault { ReportsFault (output_view E.taken E.flushed E.failures E.rejections) errors
        (fault_in result.end) result.errors }
{
    let (listener, peers) = match listen(rt, alloc, path) {
        Ok(listening) => listening,
        Err(fault) => return report_end(Err(fault), errors),
    };
    if let Err(fault) = say_ready(out) {
        return report_end(Err(fault), errors);
    }
    let blank = Blank::new(SHARES);
    let ServerEnd { end, errors } = serve_ready::<C, Brand, R, E, F>(
        rt, alloc, core, blank, listener, peers, mode, sessions, errors, trace,
    );
    let closed = match end {
        Ok(closed) => closed,
        Err(fault) => {
            return ServerEnd {
                end: Err(fault),
                errors,
            };
        }
    };
    match say_closed(out, closed.outer) {
        Ok(()) => ServerEnd {
            end: Ok(closed),
            errors,
        },
        Err(fault) => report_end(Err(fault), errors),
    }
}
