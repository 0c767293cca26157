//! Sessions with a gate that holds the first line, and their two sides in two threads.

ghost use Rattle.std.specs.Prelude.{◌≡◌, ◌^◌, []};
ghost use Rattle.rtrb.specs.Ring.{sent, received};

use crate::cores::{Shared, open};
use pt_hub::SessionId;
use pt_io::{Counted, Faulty};
use pt_session::{
    ClockMode, EndCause, Gate, ReadEnd, Retention, WorkEnd, read_side, session, work_side,
};
use rtrb::RingBuffer;
use std::alloc::Global;
use std::io::Read;
use std::marker::Brand;
use std::sync::Wait;
use std::sync::atomic::{AtomicU64, Ordering};
use std::sync::ledger::{Blank, Ledger};
use std::thread::Threads;
use std::time::{Clock as HostClock, Duration};
use std::{io, thread};

// The most times that a waiting reader or gate looks again. It sleeps a millisecond in between.
const TURNS: u32 = 20_000;

// A reader of one line, and of the others once the gate has been asked.
#[derive(Drop)]
struct Reader<'a, 'b, T> {
    rt: &'a T,
    // The bytes that the next read gives at most.
    limit: usize,
    input: &'b [u8],
    turns: u32,
    gate_calls: &'b AtomicU64,
}

impl<'a, 'b, T: HostClock> Read for Reader<'a, 'b, T> {
    fn read(&mut self, buf: &mut [u8]) -> io::Result<usize> {
        for _ in 0..self.turns {
            if self.gate_calls.load(Ordering::SeqCst) > 0 {
                break;
            }
            thread::sleep(self.rt, Duration::from_millis(1));
        }
        self.turns = TURNS;
        let n = self.input.len().min(buf.len()).min(self.limit);
        buf[..n].copy_from_slice(&self.input[..n]);
        self.input = &self.input[n..];
        self.limit = usize::MAX;
        Ok(n)
    }
}

// A gate that holds the first line until the session's input has ended.
#[derive(Drop)]
struct UntilEnded<'a, 'b, 'c, L: Ledger, T> {
    rt: &'a T,
    shared: &'b Shared<L>,
    gate_calls: &'c AtomicU64,
}

impl<'a, 'b, 'c, L: Ledger, T: Wait + HostClock> Gate for UntilEnded<'a, 'b, 'c, L, T> {
    fn ask(&self, session: SessionId, n: u64) -> bool {
        if n > 1 {
            return true;
        }
        self.gate_calls.store(1, Ordering::SeqCst);
        for _ in 0..TURNS {
            if self.shared.input_ended(self.rt, session) {
                return true;
            }
            thread::sleep(self.rt, Duration::from_millis(1));
        }
        false
    }
}

// What a session, or its two sides, did with its lines.
#[derive(Clone, Copy)]
struct Counts {
    read: u64,
    submitted: u64,
    answered: u64,
    cause: EndCause,
}

impl Counts {
    // Returns whether 17 lines passed and the reading ended for this cause.
    fn are_seventeen(self, cause: EndCause) -> bool {
        (self.read, self.submitted, self.answered) == (17, 17, 17) && self.cause == cause
    }
}

// How the lines are dealt with.
#[derive(Clone, Copy)]
enum Form {
    Session,
    Sides,
}

// Plays the two sides of a session, each in a thread. Returns what they did, and what they wrote.
fn play_sides<L: Ledger + Send + Sync, R: Threads + Wait + HostClock + Sync>(
    rt: &R,
    alloc: Global,
    shared: &Shared<L>,
    reader: Reader<'_, '_, R>,
    gate: &UntilEnded<'_, '_, '_, L, R>,
) -> Option<(Counts, Faulty)> {
    let (session, clock) = shared.open_session(rt).ok()?;
    let (producer, consumer) = RingBuffer::new(alloc, pt_session::MAX_WAITING).ok()?;
    let (read, work): (ReadEnd<_>, WorkEnd<Faulty, L>) = thread::join(
        rt,
        move || -> ReadEnd<Counted<Reader<'_, '_, R>>>
            requires { sent producer ≡ [] }
        {
            let reader = Counted::new(reader);
            read_side(
                rt,
                alloc,
                reader,
                producer,
                shared,
                session,
                ClockMode::Lines,
            )
        },
        move || -> WorkEnd<Faulty, L>
            requires ring { received consumer ≡ [] }
            requires clock { clock.moments ≡ [] }
        {
            let writer = Faulty::new(Vec::new(alloc), 4096, 0);
            work_side(
                rt,
                alloc,
                writer,
                consumer,
                shared,
                session,
                clock,
                gate,
                Retention::Complete,
            )
        },
    );
    let counts = Counts {
        read: read.read,
        submitted: work.submitted,
        answered: work.answered,
        cause: work.cause.unwrap_or(read.cause),
    };
    Some((counts, work.writer))
}

// Plays a session. Returns what it did, and what it wrote.
fn play_session<L: Ledger + Send + Sync, R: Threads + Wait + HostClock + Sync>(
    rt: &R,
    alloc: Global,
    shared: &Shared<L>,
    reader: Reader<'_, '_, R>,
    gate: &UntilEnded<'_, '_, '_, L, R>,
) -> Option<(Counts, Faulty)> {
    let reader = Counted::new(reader);
    let writer = Faulty::new(Vec::new(alloc), 4096, 0);
    let end = session(
        rt,
        alloc,
        reader,
        writer,
        shared,
        gate,
        ClockMode::Lines,
        None,
        Retention::Complete,
    )
    .ok()?;
    let counts = Counts {
        read: end.read,
        submitted: end.submitted,
        answered: end.answered,
        cause: end.cause,
    };
    Some((counts, end.writer))
}

fn play_in<L: Ledger + Send + Sync, R: Threads + Wait + HostClock + Sync>(
    rt: &R,
    alloc: Global,
    blank: Blank,
    form: Form,
    input: &[u8],
) -> Option<(Counts, Faulty)>
    requires { (blank.name ≡ L.name) × (blank.parts ≡ L.parts) × (blank.parts ≡ 2 ^ 63) }
{
    let (hub, _) = open::<L, Global>(alloc, alloc, blank)?;
    let shared = pt_session::Shared::new(hub);
    let gate_calls = AtomicU64::new(0);
    let reader = Reader {
        rt,
        limit: HELLO.len(),
        input,
        turns: 0,
        gate_calls: &gate_calls,
    };
    let gate = UntilEnded {
        rt,
        shared: &shared,
        gate_calls: &gate_calls,
    };
    match form {
        Form::Session => play_session(rt, alloc, &shared, reader, &gate),
        Form::Sides => play_sides(rt, alloc, &shared, reader, &gate),
    }
}

// Plays this input, and returns whether 17 lines pass and the reading ends for this cause.
fn are_played<R: Threads + Wait + HostClock + Sync>(
    rt: &R,
    alloc: Global,
    form: Form,
    input: &[u8],
    cause: EndCause,
) -> bool {
    match play_in::<Brand, R>(rt, alloc, Blank::new(1 << 63), form, input) {
        Some((counts, writer)) => {
            counts.are_seventeen(cause) && writer.written() == ANSWERS.as_bytes()
        }
        None => false,
    }
}

const HELLO: &[u8] = b"hello 5\n";

// The first line, and the 16 for which the ring has room while it is held.
const SEVENTEEN: &[u8] = b"hello 5\n\
    signal x\nsignal x\nsignal x\nsignal x\nsignal x\nsignal x\nsignal x\nsignal x\n\
    signal x\nsignal x\nsignal x\nsignal x\nsignal x\nsignal x\nsignal x\nsignal x\n";

// The same with one line more.
const EIGHTEEN: &[u8] = b"hello 5\n\
    signal x\nsignal x\nsignal x\nsignal x\nsignal x\nsignal x\nsignal x\nsignal x\n\
    signal x\nsignal x\nsignal x\nsignal x\nsignal x\nsignal x\nsignal x\nsignal x\n\
    signal x\n";

const ANSWERS: &str = "1 0\n2 EINVAL\n3 EINVAL\n4 EINVAL\n5 EINVAL\n6 EINVAL\n7 EINVAL\n\
    8 EINVAL\n9 EINVAL\n10 EINVAL\n11 EINVAL\n12 EINVAL\n13 EINVAL\n14 EINVAL\n15 EINVAL\n\
    16 EINVAL\n17 EINVAL\n";

#[test]
fn a_line_too_many_at_a_gate_that_holds_the_first(rt: HostRuntime) {
    for form in [Form::Sides, Form::Session] {
        assert!(rt; are_played(&rt, rt.alloc(), form, EIGHTEEN, EndCause::RingFull));
        assert!(rt; are_played(&rt, rt.alloc(), form, SEVENTEEN, EndCause::InputEnded));
    }
}
