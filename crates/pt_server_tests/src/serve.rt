use crate::client::Client;
use pt_core::Core;
use pt_hub::Closed;
use pt_io::Counted;
use pt_serve::{ServeFault, TraceFile, serve};
use pt_session::ClockMode;
use std::alloc::Global;
use std::net::Net;
use std::rt::Files;
use std::sync::Wait;
use std::test::Fail;
use std::thread::Threads;
use std::time::{Clock, Duration};
use std::{fs, io, thread};

// The number of deaths of each kind, and that of the clients: each death takes two.
const ROUNDS: u32 = 20;

const SESSIONS: u64 = 80;

// A server that records nothing.
const NO_TRACE: Option<TraceFile<'static, Counted<Vec<u8>>, Counted<Vec<u8>>>> = None;

// Runs a server of this number of sessions, and returns its result and what it wrote.
fn serve_in_memory<R: Files + Net + Threads + Wait + Clock + Sync>(
    rt: &R,
    alloc: Global,
    path: &str,
    mode: ClockMode,
    sessions: u64,
) -> (Result<Closed, ServeFault>, Vec<u8>) {
    let mut out = Counted::new(Vec::new(alloc));
    let served = match Core::new(alloc) {
        Ok(core) => {
            let errors = Counted::new(Vec::new(alloc));
            serve(
                rt, alloc, core, path, mode, sessions, &mut out, errors, NO_TRACE,
            )
            .end
        }
        Err(_) => Err(ServeFault::Memory),
    };
    (served, out.into_inner())
}

// Runs two clients, one of which waits for the other's mutex. Returns true if all answers are
// right.
fn converse<R: Files + Net + Clock>(rt: &R, alloc: Global, path: &str) -> io::Result<bool> {
    let mut first = Client::connect(rt, path)?;
    let mut second = Client::connect(rt, path)?;
    first.send(b"hello 10\nmutex-init m normal stalled\nlock m\n")?;
    let mut is_right = first.hears(alloc, b"1 0\n2 0\n3 0\n")?;
    second.send(b"hello 10\nlock m\n")?;
    first.send(b"unlock m\n")?;
    is_right &= first.hears(alloc, b"4 0\n")?;
    is_right &= second.hears(alloc, b"1 0\n2 0\n")?;
    Ok(is_right)
}

#[test]
fn serve_two(rt: HostRuntime) -> Result<(), Fail> {
    let alloc = rt.alloc();
    let ((served, out), is_right) = thread::join(
        &rt,
        || serve_in_memory(&rt, alloc, "serve_two", ClockMode::Lines, 2),
        || converse(&rt, alloc, "serve_two"),
    );
    assert!(rt; is_right?);
    assert!(rt;
        served
            == Ok(Closed {
                outer: 8,
                entries: 10
            })
    );
    assert!(rt; out.as_slice() == b"ready\nclosed 8\n".as_slice());
    Ok(())
}

// Runs a client that sends more lines at once than may wait. Returns true if each is answered.
fn sends_ahead<R: Files + Net + Clock>(rt: &R, alloc: Global, path: &str) -> io::Result<bool> {
    let mut client = Client::connect(rt, path)?;
    let lines = "signal c\n".repeat(alloc, 80)?;
    client.send(lines.as_bytes())?;
    let mut is_right = true;
    for n in 1u32..81 {
        let answer = format!(in alloc; "{n} NOHELLO\n")?;
        is_right &= client.hears(alloc, answer.as_bytes())?;
    }
    Ok(is_right)
}

#[test]
fn lines_at_once(rt: HostRuntime) -> Result<(), Fail> {
    let alloc = rt.alloc();
    let ((served, _), is_right) = thread::join(
        &rt,
        || serve_in_memory(&rt, alloc, "lines_at_once", ClockMode::Lines, 1),
        || sends_ahead(&rt, alloc, "lines_at_once"),
    );
    assert!(rt; is_right?);
    assert!(rt; served.is_ok());
    Ok(())
}

#[test]
fn path_that_exists(rt: HostRuntime) -> Result<(), Fail> {
    let alloc = rt.alloc();
    fs::write(&rt, "taken", b"")?;
    let (served, out) = serve_in_memory(&rt, alloc, "taken", ClockMode::Lines, 1);
    assert!(rt; served == Err(ServeFault::Bind));
    assert!(rt; out.is_empty());
    Ok(())
}

// Sends lines, and returns whether they are answered so.
fn hears(client: &mut Client, alloc: Global, lines: &[u8], answers: &[u8]) -> io::Result<bool> {
    client.send(lines)?;
    client.hears(alloc, answers)
}

// Lets a client die that owns a mutex. Returns true if another learns of it at once.
fn sees_owner_die<R: Files + Net + Clock>(rt: &R, alloc: Global, path: &str) -> io::Result<bool> {
    let mut owner = Client::connect(rt, path)?;
    let mut other = Client::connect(rt, path)?;
    let mut is_right = hears(
        &mut owner,
        alloc,
        b"hello 10\nmutex-init m normal robust\nlock m\n",
        b"1 0\n2 0\n3 0\n",
    )?;
    is_right &= hears(&mut other, alloc, b"hello 10\n", b"1 0\n")?;
    drop(owner);
    is_right &= hears(&mut other, alloc, b"trylock m\n", b"2 EOWNERDEAD\n")?;
    is_right &= hears(
        &mut other,
        alloc,
        b"unlock m\nmutex-destroy m\n",
        b"3 0\n4 0\n",
    )?;
    Ok(is_right)
}

// Lets a client die that waits for a mutex. Returns true if it does not get the mutex after that.
fn sees_waiter_die<R: Files + Net + Clock>(rt: &R, alloc: Global, path: &str) -> io::Result<bool> {
    let mut owner = Client::connect(rt, path)?;
    let mut waiter = Client::connect(rt, path)?;
    let mut is_right = hears(
        &mut owner,
        alloc,
        b"hello 10\nmutex-init m normal stalled\nlock m\n",
        b"1 0\n2 0\n3 0\n",
    )?;
    is_right &= hears(&mut waiter, alloc, b"hello 10\nlock m\n", b"1 0\n")?;
    thread::sleep(rt, Duration::from_millis(2));
    drop(waiter);
    is_right &= hears(&mut owner, alloc, b"unlock m\ntrylock m\n", b"4 0\n5 0\n")?;
    is_right &= hears(
        &mut owner,
        alloc,
        b"unlock m\nmutex-destroy m\n",
        b"6 0\n7 0\n",
    )?;
    Ok(is_right)
}

fn sees_deaths<R: Files + Net + Clock>(rt: &R, alloc: Global, path: &str) -> io::Result<bool> {
    let mut is_right = true;
    for _ in 0..ROUNDS {
        is_right &= sees_owner_die(rt, alloc, path)?;
        is_right &= sees_waiter_die(rt, alloc, path)?;
    }
    Ok(is_right)
}

#[test]
fn deaths_come_first(rt: HostRuntime) -> Result<(), Fail> {
    let alloc = rt.alloc();
    let ((served, _), is_right) = thread::join(
        &rt,
        || serve_in_memory(&rt, alloc, "deaths_come_first", ClockMode::Lines, SESSIONS),
        || sees_deaths(&rt, alloc, "deaths_come_first"),
    );
    assert!(rt; is_right?);
    assert!(rt; served.is_ok());
    Ok(())
}

// Runs three clients, the last of which waits for 60 milliseconds. Returns true if all answers are
// right.
fn waits_long<R: Files + Net + Clock>(rt: &R, alloc: Global, path: &str) -> io::Result<bool> {
    let mut first = Client::connect(rt, path)?;
    let mut second = Client::connect(rt, path)?;
    let mut third = Client::connect(rt, path)?;
    let mut is_right = hears(
        &mut first,
        alloc,
        b"hello 10\nmutex-init m normal stalled\nlock m\n",
        b"1 0\n2 0\n3 0\n",
    )?;
    is_right &= hears(&mut second, alloc, b"hello 10\n", b"1 0\n")?;
    is_right &= hears(&mut third, alloc, b"hello 10\nlock m\n", b"1 0\n")?;
    thread::sleep(rt, Duration::from_millis(60));
    is_right &= hears(&mut first, alloc, b"unlock m\n", b"4 0\n")?;
    is_right &= third.hears(alloc, b"2 0\n")?;
    is_right &= hears(&mut second, alloc, b"trylock m\n", b"2 EBUSY\n")?;
    Ok(is_right)
}

#[test]
fn a_third_session_waits(rt: HostRuntime) -> Result<(), Fail> {
    let alloc = rt.alloc();
    let ((served, _), is_right) = thread::join(
        &rt,
        || serve_in_memory(&rt, alloc, "a_third_session_waits", ClockMode::Lines, 3),
        || waits_long(&rt, alloc, "a_third_session_waits"),
    );
    assert!(rt; is_right?);
    assert!(rt; served.is_ok());
    Ok(())
}

// Runs clients whose deadlines pass, of both clocks, while others have deadlines that are far away.
// Returns true if all answers are right.
fn times_out<R: Files + Net + Clock>(rt: &R, alloc: Global, path: &str) -> io::Result<bool> {
    let mut owner = Client::connect(rt, path)?;
    let mut real = Client::connect(rt, path)?;
    let mut mono = Client::connect(rt, path)?;
    let mut brief = Client::connect(rt, path)?;
    let mut is_right = hears(
        &mut owner,
        alloc,
        b"hello 10\nmutex-init m normal stalled\nlock m\n",
        b"1 0\n2 0\n3 0\n",
    )?;
    is_right &= hears(&mut real, alloc, b"hello 10\n", b"1 0\n")?;
    is_right &= hears(&mut mono, alloc, b"hello 9\n", b"1 0\n")?;
    real.send(b"timedlock m 9999999998 0\n")?;
    mono.send(b"clocklock m mono 1000000 0\n")?;
    is_right &= hears(
        &mut brief,
        alloc,
        b"hello 10\nclocklock m mono 0 100000000\ntimedlock m 1 0\nmoment 1 0\n",
        b"1 0\n2 ETIMEDOUT\n3 ETIMEDOUT\n4 SYNTAX\n",
    )?;
    is_right &= hears(&mut owner, alloc, b"unlock m\n", b"4 0\n")?;
    is_right &= real.hears(alloc, b"2 0\n")?;
    is_right &= hears(&mut real, alloc, b"unlock m\n", b"3 0\n")?;
    is_right &= mono.hears(alloc, b"2 0\n")?;
    Ok(is_right)
}

#[test]
fn clocks_of_the_system(rt: HostRuntime) -> Result<(), Fail> {
    let alloc = rt.alloc();
    let ((served, _), is_right) = thread::join(
        &rt,
        || serve_in_memory(&rt, alloc, "clocks_of_the_system", ClockMode::System, 4),
        || times_out(&rt, alloc, "clocks_of_the_system"),
    );
    assert!(rt; is_right?);
    assert!(rt; served.is_ok());
    Ok(())
}
