//! Two sessions in two threads, over one hub: each waits for the other.

ghost use Rattle.std.specs.Prelude.{◌≡◌, ◌^◌};

use crate::cores::{Shared, open};
use pt_hub::SessionId;
use pt_io::Counted;
use pt_session::{ClockMode, EndCause, Gate, Retention, session};
use pt_types::{Clock, Deadline};
use std::alloc::Global;
use std::io::{Read, Write};
use std::marker::Brand;
use std::sync::Wait;
use std::sync::atomic::{AtomicU64, Ordering};
use std::sync::ledger::{Blank, Ledger};
use std::thread::Threads;
use std::time::{Clock as HostClock, Duration};
use std::{io, thread};

// The most times that a waiting reader or gate looks again. It sleeps a millisecond in between.
const TURNS: u32 = 10_000;

// Counts of a session's lines: how many its gate was asked for, and how many were answered.
#[derive(Drop)]
struct Marks {
    gate_calls: AtomicU64,
    answered: AtomicU64,
}

// What a gate waits for: a number of lines, or a least deadline of 9 0.
#[derive(Clone, Copy)]
enum Until<'a> {
    Reaches(&'a AtomicU64, u64),
    Deadline,
}

// A reader of these bytes. After them it reports its end, once a count of lines reaches `ends_at`.
#[derive(Drop)]
struct Reader<'a, 'b, T> {
    rt: &'a T,
    input: &'static [u8],
    ends_by: &'b AtomicU64,
    ends_at: u64,
}

impl<'a, 'b, T: HostClock> Read for Reader<'a, 'b, T> {
    fn read(&mut self, buf: &mut [u8]) -> io::Result<usize> {
        let n = self.input.len().min(buf.len());
        buf[..n].copy_from_slice(&self.input[..n]);
        self.input = &self.input[n..];
        for _ in 0..TURNS {
            if n > 0 || self.ends_by.load(Ordering::SeqCst) >= self.ends_at {
                break;
            }
            thread::sleep(self.rt, Duration::from_millis(1));
        }
        Ok(n)
    }
}

// The writer of a session. Each flush counts as an answer.
#[derive(Drop)]
struct Writer<'a> {
    answered: &'a AtomicU64,
    text: Vec<u8>,
}

impl<'a> Write for Writer<'a> {
    fn write(&mut self, buf: &[u8]) -> io::Result<usize> {
        self.text.extend_from_slice(buf)?;
        Ok(buf.len())
    }

    fn flush(&mut self) -> io::Result<()> {
        self.answered.fetch_add(1, Ordering::SeqCst);
        Ok(())
    }
}

// A gate that holds one line until a number of lines or a deadline is reached.
#[derive(Drop)]
struct Holding<'a, 'b, 'c, L: Ledger, T> {
    rt: &'a T,
    shared: &'b Shared<L>,
    gate_calls: &'c AtomicU64,
    line: u64,
    until: Until<'c>,
}

impl<'a, 'b, 'c, L: Ledger, T: Wait + HostClock> Holding<'a, 'b, 'c, L, T> {
    fn is_reached(&self) -> bool {
        match self.until {
            Until::Reaches(mark, n) => mark.load(Ordering::SeqCst) >= n,
            Until::Deadline => {
                self.shared.least_deadline(self.rt, Clock::Real) == Deadline::new(9, 0)
            }
        }
    }
}

impl<'a, 'b, 'c, L: Ledger, T: Wait + HostClock> Gate for Holding<'a, 'b, 'c, L, T> {
    fn ask(&self, _session: SessionId, n: u64) -> bool {
        self.gate_calls.fetch_add(1, Ordering::SeqCst);
        if n != self.line {
            return true;
        }
        for _ in 0..TURNS {
            if self.is_reached() {
                return true;
            }
            thread::sleep(self.rt, Duration::from_millis(1));
        }
        false
    }
}

// What a session is given: its lines, the line that is held and until when, and when its input
// ends. `text` is what it must write.
#[derive(Clone, Copy)]
struct Play<'a> {
    input: &'static str,
    marks: &'a Marks,
    line: u64,
    until: Until<'a>,
    ends_by: &'a AtomicU64,
    ends_at: u64,
    text: &'static str,
}

fn is_played<L: Ledger + Send + Sync, R: Threads + Wait + HostClock + Sync>(
    rt: &R,
    alloc: Global,
    shared: &Shared<L>,
    play: &Play,
) -> bool {
    let reader = Reader {
        rt,
        input: play.input.as_bytes(),
        ends_by: play.ends_by,
        ends_at: play.ends_at,
    };
    let writer = Writer {
        answered: &play.marks.answered,
        text: Vec::new(alloc),
    };
    let gate = Holding {
        rt,
        shared,
        gate_calls: &play.marks.gate_calls,
        line: play.line,
        until: play.until,
    };
    let (reader, writer) = (Counted::new(reader), Counted::new(writer));
    match session(
        rt,
        alloc,
        reader,
        writer,
        shared,
        &gate,
        ClockMode::Lines,
        None,
        Retention::Complete,
    ) {
        Ok(end) => {
            end.cause == EndCause::InputEnded
                && end.writer.device().text.as_slice() == play.text.as_bytes()
        }
        Err(_) => false,
    }
}

fn are_played_in<L: Ledger + Send + Sync, R: Threads + Wait + HostClock + Sync>(
    rt: &R,
    alloc: Global,
    blank: Blank,
    one: &Play,
    other: &Play,
) -> bool
    requires { (blank.name ≡ L.name) × (blank.parts ≡ L.parts) × (blank.parts ≡ 2 ^ 63) }
{
    match open::<L, Global>(alloc, alloc, blank) {
        Some((hub, _)) => {
            let shared = pt_session::Shared::new(hub);
            let (first, second) = thread::join(
                rt,
                || is_played(rt, alloc, &shared, one),
                || is_played(rt, alloc, &shared, other),
            );
            first && second
        }
        None => false,
    }
}

// Plays both sessions at once, each in a thread.
fn are_played<R: Threads + Wait + HostClock + Sync>(
    rt: &R,
    alloc: Global,
    one: &Play,
    other: &Play,
) -> bool {
    are_played_in::<Brand, R>(rt, alloc, Blank::new(1 << 63), one, other)
}

fn no_marks() -> Marks {
    Marks {
        gate_calls: AtomicU64::new(0),
        answered: AtomicU64::new(0),
    }
}

// The first session's stream ends while its client owns the robust mutex, and the second session is
// let through to its lock.
#[test]
fn row_27(rt: HostRuntime) {
    let (one, two) = (no_marks(), no_marks());
    let first = Play {
        input: "hello 10\nmutex-init m normal robust\nlock m\n",
        marks: &one,
        line: 0,
        until: Until::Deadline,
        ends_by: &two.gate_calls,
        ends_at: 2,
        text: "1 0\n2 0\n3 0\n",
    };
    let second = Play {
        input: "hello 10\nlock m\n",
        marks: &two,
        line: 1,
        until: Until::Reaches(&one.answered, 3),
        ends_by: &two.answered,
        ends_at: 2,
        text: "1 0\n2 EOWNERDEAD\n",
    };
    assert!(rt; are_played(&rt, rt.alloc(), &first, &second));
}

// The second session's first line passes once the first session asks for its unlock. The unlock is
// held until the second client waits for the mutex.
#[test]
fn gate_crossing(rt: HostRuntime) {
    let (one, two) = (no_marks(), no_marks());
    let first = Play {
        input: "hello 10\nmutex-init m normal stalled\nlock m\nunlock m\n",
        marks: &one,
        line: 4,
        until: Until::Deadline,
        ends_by: &one.answered,
        ends_at: 4,
        text: "1 0\n2 0\n3 0\n4 0\n",
    };
    let second = Play {
        input: "hello 10\ntimedlock m 9 0\nunlock m\n",
        marks: &two,
        line: 1,
        until: Until::Reaches(&one.gate_calls, 4),
        ends_by: &two.answered,
        ends_at: 3,
        text: "1 0\n2 0\n3 0\n",
    };
    assert!(rt; are_played(&rt, rt.alloc(), &first, &second));
}
