//! Two sessions in two threads, the first of which is closed after each byte that it sends.

ghost use Rattle.std.specs.Prelude.{◌≡◌, ◌^◌};

use super::remains::Remains;
use crate::cores::{Shared, open};
use pt_hub::{ClockPass, Left, SessionId};
use pt_io::Counted;
use pt_session::{ClockMode, Gate, Retention, session};
use pt_types::{Clock, Deadline};
use std::alloc::Global;
use std::io::{Read, Write};
use std::marker::Brand;
use std::sync::Wait;
use std::sync::atomic::{AtomicU64, Ordering};
use std::sync::ledger::{Blank, Ledger};
use std::thread::Threads;
use std::time::{Clock as HostClock, Duration};
use std::{io, thread};

// The most times that a gate looks again. It sleeps a millisecond in between.
const GATE_TURNS: u32 = 100;

// The most times that the second session's reader looks again.
const READER_TURNS: u32 = 200;

const FIRST: &[u8] = b"hello 10\nmutex-init m normal stalled\nlock m\nunlock m\n";

const SECOND: &[u8] = b"hello 10\ntimedlock m 9 0\nunlock m\n";

// Counts of a session's lines: how many its gate was asked for, and how many were answered.
#[derive(Drop)]
struct Marks {
    gate_calls: AtomicU64,
    answered: AtomicU64,
}

// What a gate waits for: a number of lines, or a least deadline of 9 0.
#[derive(Clone, Copy)]
enum Until<'a> {
    Reaches(&'a AtomicU64, u64),
    Deadline,
}

// A reader of these bytes. After them it reports its end, at the latest once 3 lines are answered.
#[derive(Drop)]
struct Reader<'a, 'b, T> {
    rt: &'a T,
    input: &'b [u8],
    answered: &'b AtomicU64,
    turns: u32,
}

impl<'a, 'b, T: HostClock> Read for Reader<'a, 'b, T> {
    fn read(&mut self, buf: &mut [u8]) -> io::Result<usize> {
        let n = self.input.len().min(buf.len());
        buf[..n].copy_from_slice(&self.input[..n]);
        self.input = &self.input[n..];
        for _ in 0..self.turns {
            if n > 0 || self.answered.load(Ordering::SeqCst) >= 3 {
                break;
            }
            thread::sleep(self.rt, Duration::from_millis(1));
        }
        Ok(n)
    }
}

// The writer of a session. Each flush counts as an answer.
#[derive(Drop)]
struct Writer<'a> {
    answered: &'a AtomicU64,
    text: Vec<u8>,
}

impl<'a> Write for Writer<'a> {
    fn write(&mut self, buf: &[u8]) -> io::Result<usize> {
        self.text.extend_from_slice(buf)?;
        Ok(buf.len())
    }

    fn flush(&mut self) -> io::Result<()> {
        self.answered.fetch_add(1, Ordering::SeqCst);
        Ok(())
    }
}

// A gate that holds one line until a number of lines or a deadline is reached.
#[derive(Drop)]
struct Holding<'a, 'b, 'c, L: Ledger, T> {
    rt: &'a T,
    shared: &'b Shared<L>,
    gate_calls: &'c AtomicU64,
    line: u64,
    until: Until<'c>,
}

impl<'a, 'b, 'c, L: Ledger, T: Wait + HostClock> Holding<'a, 'b, 'c, L, T> {
    fn is_reached(&self) -> bool {
        match self.until {
            Until::Reaches(mark, n) => mark.load(Ordering::SeqCst) >= n,
            Until::Deadline => {
                self.shared.least_deadline(self.rt, Clock::Real) == Deadline::new(9, 0)
            }
        }
    }
}

impl<'a, 'b, 'c, L: Ledger, T: Wait + HostClock> Gate for Holding<'a, 'b, 'c, L, T> {
    fn ask(&self, _session: SessionId, n: u64) -> bool {
        self.gate_calls.fetch_add(1, Ordering::SeqCst);
        if n != self.line {
            return true;
        }
        for _ in 0..GATE_TURNS {
            if self.is_reached() {
                return true;
            }
            thread::sleep(self.rt, Duration::from_millis(1));
        }
        false
    }
}

// What a session leaves.
#[derive(Drop)]
struct Ended<L: Ledger> {
    left: Option<Left<L>>,
    clock: ClockPass<L>,
}

fn play<L: Ledger + Send + Sync, R: Threads + Wait + HostClock + Sync>(
    rt: &R,
    alloc: Global,
    shared: &Shared<L>,
    input: &[u8],
    turns: u32,
    marks: &Marks,
    line: u64,
    until: Until,
) -> Option<Ended<L>> {
    let reader = Counted::new(Reader {
        rt,
        input,
        answered: &marks.answered,
        turns,
    });
    let writer = Counted::new(Writer {
        answered: &marks.answered,
        text: Vec::new(alloc),
    });
    let gate = Holding {
        rt,
        shared,
        gate_calls: &marks.gate_calls,
        line,
        until,
    };
    match session(
        rt,
        alloc,
        reader,
        writer,
        shared,
        &gate,
        ClockMode::Lines,
        None,
        Retention::Complete,
    ) {
        Ok(end) => Some(Ended {
            left: end.left,
            clock: end.clock,
        }),
        Err(_) => None,
    }
}

fn no_marks() -> Marks {
    Marks {
        gate_calls: AtomicU64::new(0),
        answered: AtomicU64::new(0),
    }
}

// Plays both sessions, the first of which sends these bytes. Its unlock is held until the second
// client waits for the mutex, and the second session's first line until the unlock is asked for.
fn play_both<L: Ledger + Send + Sync, R: Threads + Wait + HostClock + Sync>(
    rt: &R,
    alloc: Global,
    shared: &Shared<L>,
    input: &[u8],
    one: &Marks,
    two: &Marks,
) -> (Option<Ended<L>>, Option<Ended<L>>) {
    thread::join(
        rt,
        || play(rt, alloc, shared, input, 0, one, 4, Until::Deadline),
        || play(
            rt,
            alloc,
            shared,
            SECOND,
            READER_TURNS,
            two,
            1,
            Until::Reaches(&one.gate_calls, 4),
        ),
    )
}

// Adds what a session left, if it ended.
fn add<L: Ledger>(remains: &mut Remains<L>, ended: Option<Ended<L>>) -> bool {
    match ended {
        Some(Ended { left, clock }) => remains.add(left, clock),
        None => false,
    }
}

// Plays two sessions, the first of which sends this many bytes. Returns whether both end, and the
// hub closes.
fn is_closed_in<L: Ledger + Send + Sync, R: Threads + Wait + HostClock + Sync>(
    rt: &R,
    alloc: Global,
    blank: Blank,
    cut: usize,
) -> bool
    requires { (blank.name ≡ L.name) × (blank.parts ≡ L.parts) × (blank.parts ≡ 2 ^ 63) }
{
    let Some((hub, clock)) = open::<L, Global>(alloc, alloc, blank) else {
        return false;
    };
    let shared = pt_session::Shared::new(hub);
    let one = no_marks();
    let two = no_marks();
    let front = &FIRST[..cut.min(FIRST.len())];
    let (first, second) = play_both(rt, alloc, &shared, front, &one, &two);
    let mut remains = Remains::new(alloc);
    let is_clock_added = remains.add(None, clock);
    let is_first_added = add(&mut remains, first);
    let is_second_added = add(&mut remains, second);
    let are_added = is_clock_added && is_first_added && is_second_added;
    are_added && remains.close(shared.into_hub()).is_some()
}

fn is_closed<R: Threads + Wait + HostClock + Sync>(rt: &R, alloc: Global, cut: usize) -> bool {
    is_closed_in::<Brand, R>(rt, alloc, Blank::new(1 << 63), cut)
}

#[test]
fn gate_crossing_cut_at_each_byte(rt: HostRuntime) {
    for cut in 0..=FIRST.len() {
        assert!(rt; is_closed(&rt, rt.alloc(), cut), "at {cut}");
    }
}
