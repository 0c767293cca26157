//! Tests of sessions over memory, one after another on a hub of their own.

ghost use Rattle.std.specs.Prelude.{◌≡◌, ◌^◌};

use super::remains::Remains;
use crate::cores::{Shared, open};
use pt_hub::SessionId;
use pt_io::Faulty;
use pt_session::{ClockMode, EndCause, Gate, Retention, SessionEnd, session};
use std::alloc::Global;
use std::marker::Brand;
use std::sync::Wait;
use std::sync::ledger::{Blank, Ledger};
use std::thread::Threads;

// A gate that lets no line through from this one on.
#[derive(Clone, Copy)]
struct ShutAt(u64);

impl Gate for ShutAt {
    const MAY_HOLD: bool = false;

    fn ask(&self, _session: SessionId, n: u64) -> bool {
        n < self.0
    }
}

// What a session is given, and what must come of it.
#[derive(Clone, Copy)]
struct Case {
    mode: ClockMode,
    input: &'static str,
    shut_at: u64,
    // The number of the reader's call that fails, or 0. Each read gives seven bytes.
    read_fails_at: u64,
    // The number of the writer's call that fails, or 0. Each write takes one byte.
    write_fails_at: u64,
    text: &'static str,
    // The numbers of lines that are pushed, submitted and answered.
    counts: (u64, u64, u64),
    cause: EndCause,
    joins: bool,
    moments: usize,
    // The number of events, including the client's death.
    events: u64,
}

const OPEN: u64 = u64::MAX;

// Returns the case of a session whose gate stays open and whose devices work. Its client joins.
fn plain(
    input: &'static str,
    text: &'static str,
    counts: (u64, u64, u64),
    cause: EndCause,
    events: u64,
) -> Case {
    Case {
        mode: ClockMode::Lines,
        input,
        shut_at: OPEN,
        read_fails_at: 0,
        write_fails_at: 0,
        text,
        counts,
        cause,
        joins: true,
        moments: 0,
        events,
    }
}

fn is_as<L: Ledger>(end: &SessionEnd<Faulty, Faulty, L>, case: &Case) -> bool {
    let moments = end.clock.moments().len();
    let text = end.writer.written();
    (end.read, end.submitted, end.answered) == case.counts
        && end.cause == case.cause
        && end.left.is_some() == case.joins
        && moments == case.moments
        && text == case.text.as_bytes()
}

// Plays a session on a hub that others share, and adds what it leaves. Returns whether it comes out
// as it must.
fn is_played<L: Ledger + Send + Sync, R: Threads + Wait + Sync>(
    rt: &R,
    alloc: Global,
    shared: &Shared<L>,
    case: &Case,
    remains: &mut Remains<L>,
) -> bool {
    let Ok(input) = Vec::from_slice(alloc, case.input.as_bytes()) else {
        return false;
    };
    let reader = Faulty::new(input, 7, case.read_fails_at);
    let writer = Faulty::new(Vec::new(alloc), 1, case.write_fails_at);
    let gate = ShutAt(case.shut_at);
    match session(
        rt,
        alloc,
        reader,
        writer,
        shared,
        &gate,
        case.mode,
        None,
        Retention::Complete,
    ) {
        Ok(end) => is_as(&end, case) && remains.add(end.left, end.clock),
        Err(_) => false,
    }
}

// Plays sessions on a new hub, one after another. Returns whether each comes out as it must, and
// the hub closes with what they left.
fn are_played_in<L: Ledger + Send + Sync, R: Threads + Wait + Sync>(
    rt: &R,
    alloc: Global,
    blank: Blank,
    cases: &[Case],
) -> bool
    requires { (blank.name ≡ L.name) × (blank.parts ≡ L.parts) × (blank.parts ≡ 2 ^ 63) }
{
    let Some((hub, clock)) = open::<L, Global>(alloc, alloc, blank) else {
        return false;
    };
    let shared = pt_session::Shared::new(hub);
    let mut remains = Remains::new(alloc);
    let mut events: u64 = 0;
    let mut all = remains.add(None, clock);
    for case in cases {
        all = all && is_played(rt, alloc, &shared, case, &mut remains);
        events = events.saturating_add(case.events);
    }
    let hub = shared.into_hub();
    // No session seals the history.
    let has_first = hub.seen(0).is_some() == (events > 0);
    all && has_first && remains.close(hub) == Some(events)
}

// Plays these sessions one after another.
fn are_played<R: Threads + Wait + Sync>(rt: &R, alloc: Global, cases: &[Case]) -> bool {
    are_played_in::<Brand, R>(rt, alloc, Blank::new(1 << 63), cases)
}

// Plays each of these sessions on a hub of its own.
fn is_each_played<R: Threads + Wait + Sync>(rt: &R, alloc: Global, cases: &[Case]) -> bool {
    for case in cases {
        if !are_played(rt, alloc, &[*case]) {
            return false;
        }
    }
    true
}

// In the first case, the last lock is open when the input ends.
#[test]
fn row_26(rt: HostRuntime) {
    let cases = [
        plain(
            "hello 5\nmutex-init m normal stalled\nlock m\nlock m\nunlock m\n",
            "1 0\n2 0\n3 0\n",
            (5, 4, 3),
            EndCause::InputEnded,
            5,
        ),
        Case {
            mode: ClockMode::Lines,
            input: "moment 5 0\nhello 5\nmutex-init m normal stalled\nlock m\ntimedlock m 5 0\n",
            shut_at: OPEN,
            read_fails_at: 0,
            write_fails_at: 0,
            text: "1 0\n2 0\n3 0\n4 0\n5 ETIMEDOUT\n",
            counts: (5, 5, 5),
            cause: EndCause::InputEnded,
            joins: true,
            moments: 1,
            events: 6,
        },
        Case {
            mode: ClockMode::Lines,
            input: "",
            shut_at: OPEN,
            read_fails_at: 0,
            write_fails_at: 0,
            text: "",
            counts: (0, 0, 0),
            cause: EndCause::InputEnded,
            joins: false,
            moments: 0,
            events: 0,
        },
    ];
    assert!(rt; is_each_played(&rt, rt.alloc(), &cases));
}

// A line that is not accepted is answered with the reason. A session ends when its gate is shut.
#[test]
fn refusals_and_ends(rt: HostRuntime) {
    let cases = [
        Case {
            mode: ClockMode::System,
            input: "lock m\nmoment 5 0\nhello 5\nhello 5\nlok m\nlock m",
            shut_at: OPEN,
            read_fails_at: 0,
            write_fails_at: 0,
            text: "1 NOHELLO\n2 SYNTAX\n3 0\n4 NOHELLO\n5 SYNTAX\n6 EINVAL\n",
            counts: (6, 6, 6),
            cause: EndCause::InputEnded,
            joins: true,
            moments: 0,
            events: 3,
        },
        Case {
            mode: ClockMode::Lines,
            input: "hello 5\nmoment 5 0\n",
            shut_at: 2,
            read_fails_at: 0,
            write_fails_at: 0,
            text: "1 0\n",
            counts: (2, 1, 1),
            cause: EndCause::GateShut,
            joins: true,
            moments: 0,
            events: 2,
        },
    ];
    assert!(rt; is_each_played(&rt, rt.alloc(), &cases));
}

// The lines that came in whole before a failed read are answered. If the input ends there instead,
// the begun line is answered too.
#[test]
fn a_failed_read_drops_the_begun_line(rt: HostRuntime) {
    let cases = [
        Case {
            mode: ClockMode::Lines,
            input: "hello 5\nlock m",
            shut_at: OPEN,
            read_fails_at: 3,
            write_fails_at: 0,
            text: "1 0\n",
            counts: (1, 1, 1),
            cause: EndCause::InputFailed,
            joins: true,
            moments: 0,
            events: 2,
        },
        plain(
            "hello 5\nlock m",
            "1 0\n2 EINVAL\n",
            (2, 2, 2),
            EndCause::InputEnded,
            3,
        ),
    ];
    assert!(rt; is_each_played(&rt, rt.alloc(), &cases));
}

// The first client dies by a failed write, and the second learns of it.
#[test]
fn a_failed_write_is_a_death(rt: HostRuntime) {
    let cases = [
        Case {
            mode: ClockMode::Lines,
            input: "hello 5\nmutex-init m normal robust\nlock m\n",
            shut_at: OPEN,
            read_fails_at: 0,
            write_fails_at: 12,
            text: "1 0\n2 0\n3",
            counts: (3, 3, 2),
            cause: EndCause::WriteFailed,
            joins: true,
            moments: 0,
            events: 4,
        },
        plain(
            "hello 5\nlock m\n",
            "1 0\n2 EOWNERDEAD\n",
            (2, 2, 2),
            EndCause::InputEnded,
            3,
        ),
    ];
    assert!(rt; are_played(&rt, rt.alloc(), &cases));
}

// A lock that is never granted, and the greatest number of lines that may wait behind it.
const SIXTEEN_WAIT: &str = "hello 5\nmutex-init m normal stalled\nlock m\nlock m\n\
    signal x\nsignal x\nsignal x\nsignal x\nsignal x\nsignal x\nsignal x\nsignal x\n\
    signal x\nsignal x\nsignal x\nsignal x\nsignal x\nsignal x\nsignal x\nsignal x\n";

// The same with one line more.
const SEVENTEEN_WAIT: &str = "hello 5\nmutex-init m normal stalled\nlock m\nlock m\n\
    signal x\nsignal x\nsignal x\nsignal x\nsignal x\nsignal x\nsignal x\nsignal x\n\
    signal x\nsignal x\nsignal x\nsignal x\nsignal x\nsignal x\nsignal x\nsignal x\n\
    signal x\n";

#[test]
fn a_line_too_many_behind_a_call_that_waits_ends_the_session(rt: HostRuntime) {
    let cases = [
        plain(
            SEVENTEEN_WAIT,
            "1 0\n2 0\n3 0\n",
            (20, 4, 3),
            EndCause::RingFull,
            5,
        ),
        plain(
            SIXTEEN_WAIT,
            "1 0\n2 0\n3 0\n",
            (20, 4, 3),
            EndCause::InputEnded,
            5,
        ),
    ];
    assert!(rt; is_each_played(&rt, rt.alloc(), &cases));
}
