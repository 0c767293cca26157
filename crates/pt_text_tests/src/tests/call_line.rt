use super::first_cut;
use pt_lines::{CallLine, Cut, read_call};
use pt_types::{Call, Clock, Deadline, Moment, MutexKind, Name, Priority, Refusal};
use std::test::Fail;

fn is_call(text: &[u8], call: Call) -> bool {
    read_call(text) == Ok(CallLine::Ask(call))
}

// Returns true if each call on a mutex is read.
fn are_mutex_calls_read() -> bool {
    let (Some(m), Some(late)) = (Name::new(b"m"), Deadline::new(5, 9_999_999_999)) else {
        return false;
    };
    is_call(b"lock m", Call::Lock(m.copied()))
        && is_call(b"trylock m", Call::Trylock(m.copied()))
        && is_call(
            b"timedlock m 5 9999999999",
            Call::Timedlock(m.copied(), late),
        )
        && is_call(
            b"clocklock m real 5 9999999999",
            Call::Clocklock(m.copied(), Clock::Real, late),
        )
        && is_call(
            b"clocklock m mono 5 9999999999",
            Call::Clocklock(m.copied(), Clock::Mono, late),
        )
        && is_call(b"unlock m", Call::Unlock(m.copied()))
        && is_call(b"consistent m", Call::Consistent(m.copied()))
        && is_call(b"mutex-destroy m", Call::MutexDestroy(m.copied()))
}

// Returns true if the inits of a mutex are read.
fn are_inits_read() -> bool {
    let Some(m) = Name::new(b"m") else {
        return false;
    };
    let table: [(&[u8], MutexKind, bool); 5] = [
        (b"mutex-init m normal stalled", MutexKind::Normal, false),
        (b"mutex-init m default stalled", MutexKind::Normal, false),
        (b"mutex-init m default robust", MutexKind::Normal, true),
        (
            b"mutex-init m errorcheck robust",
            MutexKind::Errorcheck,
            true,
        ),
        (
            b"mutex-init m recursive stalled",
            MutexKind::Recursive,
            false,
        ),
    ];
    for (text, kind, robust) in table {
        if !is_call(text, Call::MutexInit(m.copied(), kind, robust)) {
            return false;
        }
    }
    true
}

// Returns true if each call on a read-write lock is read.
fn are_rwlock_calls_read() -> bool {
    let (Some(r), Some(due)) = (Name::new(b"r"), Deadline::new(0, 1_000_000_000)) else {
        return false;
    };
    is_call(b"rwlock-init r", Call::RwlockInit(r.copied()))
        && is_call(b"rdlock r", Call::Rdlock(r.copied()))
        && is_call(b"tryrdlock r", Call::Tryrdlock(r.copied()))
        && is_call(
            b"timedrdlock r 0 1000000000",
            Call::Timedrdlock(r.copied(), due),
        )
        && is_call(
            b"clockrdlock r mono 0 1000000000",
            Call::Clockrdlock(r.copied(), Clock::Mono, due),
        )
        && is_call(b"wrlock r", Call::Wrlock(r.copied()))
        && is_call(b"trywrlock r", Call::Trywrlock(r.copied()))
        && is_call(
            b"timedwrlock r 0 1000000000",
            Call::Timedwrlock(r.copied(), due),
        )
        && is_call(
            b"clockwrlock r real 0 1000000000",
            Call::Clockwrlock(r.copied(), Clock::Real, due),
        )
        && is_call(b"rwunlock r", Call::Rwunlock(r.copied()))
        && is_call(b"rwlock-destroy r", Call::RwlockDestroy(r.copied()))
}

// Returns true if each wait at a condition is read.
fn are_waits_read(c: &Name, m: &Name) -> bool {
    let Some(due) = Deadline::new(9_999_999_999, 7) else {
        return false;
    };
    is_call(b"wait c m", Call::Wait(c.copied(), m.copied()))
        && is_call(
            b"timedwait c m 9999999999 7",
            Call::Timedwait(c.copied(), m.copied(), due),
        )
        && is_call(
            b"clockwait c m real 9999999999 7",
            Call::Clockwait(c.copied(), m.copied(), Clock::Real, due),
        )
        && is_call(
            b"clockwait c m mono 9999999999 7",
            Call::Clockwait(c.copied(), m.copied(), Clock::Mono, due),
        )
}

// Returns true if each call on a condition or a barrier is read.
fn are_other_calls_read() -> bool {
    let (Some(c), Some(m)) = (Name::new(b"c"), Name::new(b"m")) else {
        return false;
    };
    are_waits_read(&c, &m)
        && is_call(b"cond-init c", Call::CondInit(c.copied()))
        && is_call(b"cond-destroy c", Call::CondDestroy(c.copied()))
        && is_call(b"signal c", Call::Signal(c.copied()))
        && is_call(b"broadcast c", Call::Broadcast(c.copied()))
        && is_call(
            b"barrier-init c 9999999999",
            Call::BarrierInit(c.copied(), 9_999_999_999),
        )
        && is_call(b"barrier-init c 0", Call::BarrierInit(c.copied(), 0))
        && is_call(b"bwait c", Call::Bwait(c.copied()))
        && is_call(b"barrier-destroy c", Call::BarrierDestroy(c.copied()))
}

#[test]
fn calls_on_each_kind_of_object(rt: HostRuntime) {
    assert!(rt;
        are_mutex_calls_read()
            && are_inits_read()
            && are_rwlock_calls_read()
            && are_other_calls_read()
    );
}

// Returns true if a hello of the lowest, a middle and the highest priority is read.
fn are_hellos_read() -> bool {
    let table: [(&[u8], u64); 3] = [(b"hello 1", 1), (b"hello 33", 33), (b"hello 99", 99)];
    for (text, level) in table {
        let hello = Priority::new(level).map(CallLine::Hello);
        if hello.is_none() || read_call(text).ok() != hello {
            return false;
        }
    }
    true
}

// Returns true if the last moment of each clock is read.
fn are_moments_read() -> bool {
    let Some(last) = Moment::new(9_999_999_999, 999_999_999) else {
        return false;
    };
    read_call(b"moment 9999999999 999999999") == Ok(CallLine::Tick(Clock::Real, last))
        && read_call(b"mono-moment 9999999999 999999999") == Ok(CallLine::Tick(Clock::Mono, last))
}

#[test]
fn hellos_and_moments(rt: HostRuntime) {
    assert!(rt; are_hellos_read() && are_moments_read());
}

// The longest line, of 102 bytes.
const LONGEST: &[u8] = b"clockwait xxxxxxxxxxxxxxxxxxxxxxxxxxxxxxxx \
    xxxxxxxxxxxxxxxxxxxxxxxxxxxxxxxx mono 9999999999 9999999999";

// Returns true if the longest line is read.
fn is_longest_read() -> bool {
    let due = Deadline::new(9_999_999_999, 9_999_999_999);
    let (Some(name), Some(due)) = (Name::new(&[b'x'; 32]), due) else {
        return false;
    };
    let call = Call::Clockwait(name.copied(), name, Clock::Mono, due);
    LONGEST.len() == 102 && is_call(LONGEST, call)
}

// Returns true if names of 1 to 32 bytes are read, and no others.
fn are_names_limited() -> bool {
    let mut text = [b'x'; 38];
    text[..5].copy_from_slice(b"lock ");
    for (count, valid) in [(0, false), (1, true), (32, true), (33, false)] {
        if read_call(&text[..5 + count]).is_ok() != valid {
            return false;
        }
    }
    true
}

// Returns true if lines from 129 bytes on are too long.
fn are_lines_limited() -> bool {
    let bytes = [b'x'; 200];
    for (count, refusal) in [
        (128, Refusal::Syntax),
        (129, Refusal::Long),
        (200, Refusal::Long),
    ] {
        if read_call(&bytes[..count]).err() != Some(refusal) {
            return false;
        }
    }
    true
}

#[test]
fn names_and_lines_within_their_limits(rt: HostRuntime) {
    assert!(rt; is_longest_read() && are_names_limited() && are_lines_limited());
}

const NO_LINES: [&[u8]; 69] = [
    b"",
    b" ",
    b"lock",
    b"lock ",
    b"lock  m",
    b"lock m ",
    b" lock m",
    b"lock m n",
    b"lokc m",
    b"Lock m",
    b"lock M",
    b"lock m\r",
    b"lock\tm",
    b"lo\x00ck m",
    b"lock m\x00",
    b"lock \xff",
    b"lock m/",
    b"locks m",
    b"loc m",
    b"die",
    b"die ",
    b"moment",
    b"moment 1",
    b"moment 01 0",
    b"moment 1 1000000000",
    b"moment 1 10000000000",
    b"moment 10000000000 0",
    b"moment 1 2 3",
    b"moment -1 0",
    b"moment +1 0",
    b"moment 1 0x1",
    b"hello",
    b"hello 0",
    b"hello 100",
    b"hello 01",
    b"hello 1 ",
    b"hello 4294967297",
    b"mutex-init m",
    b"mutex-init m normal",
    b"mutex-init m normal robust x",
    b"mutex-init m Normal robust",
    b"mutex-init m robust normal",
    b"barrier-init b",
    b"barrier-init b 10000000000",
    b"wait c",
    b"wait c m 1 0",
    b"timedwait c m 1",
    b"timedlock m 1 00",
    b"timedlock m real 1 0",
    b"clocklock m 1 0",
    b"clocklock m boot 9 0",
    b"clocklock m Real 9 0",
    b"clocklock m realtime 9 0",
    b"clocklock m mon 9 0",
    b"clocklock m real 9",
    b"clocklock m real 9 0 1",
    b"clocklock mono m 9 0",
    b"clockrdlock r boot 1 0",
    b"clockrdlock r  mono 1 0",
    b"clockwrlock r boot 1 0",
    b"clockwait c mono 1 0",
    b"clockwait c m 1 0",
    b"clockwait c m boot 1 0",
    b"clockwait c m mono 1 00",
    b"mono-moment",
    b"mono-moment 1 1000000000",
    b"mono-moment 10000000000 0",
    b"real-moment 1 0",
    b"moment mono 1 0",
];

// Returns true if none of these lines is read.
fn are_refused() -> bool {
    for text in NO_LINES {
        if read_call(text).err() != Some(Refusal::Syntax) {
            return false;
        }
    }
    true
}

#[test]
fn lines_that_no_connection_may_send(rt: HostRuntime) {
    assert!(rt; are_refused());
}

// Returns true if a line that was cut is read, and one that is too long is refused.
fn is_cut_read(cut: &Cut) -> bool {
    let hello = Priority::new(5).map(CallLine::Hello);
    hello.is_some()
        && CallLine::of(cut).ok() == hello
        && CallLine::of(&Cut::Long).err() == Some(Refusal::Long)
}

#[test]
fn a_cut_line_is_read(rt: HostRuntime) -> Result<(), Fail> {
    let cut = first_cut(rt.alloc(), b"hello 5\n")?;
    assert!(rt; is_cut_read(&cut));
    Ok(())
}
