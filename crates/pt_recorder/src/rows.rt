//! The rows of a trace, each appended to a buffer.

use itoa::Buffer;
use pt_entries::write_call;
use pt_types::{Call, Clock, Moment, Outcome, Priority};
use std::alloc::AllocError;

/// The number of nanoseconds in a second.
const SECOND: u64 = 1_000_000_000;

fn put_number(out: &mut Vec<u8>, n: u64) -> Result<(), AllocError> {
    let mut digits = Buffer::new();
    out.extend_from_slice(digits.format(n).as_bytes())
}

// Appends a client's name, which is a letter and its number.
fn put_name(out: &mut Vec<u8>, client: u64) -> Result<(), AllocError> {
    out.push(b'c')?;
    put_number(out, client)
}

/// Appends the line by which a client joins.
pub fn put_hello(out: &mut Vec<u8>, client: u64, priority: Priority) -> Result<(), AllocError> {
    put_name(out, client)?;
    out.extend_from_slice(b" hello ")?;
    put_number(out, priority.level() as u64)?;
    out.push(b'\n')?;
    Ok(())
}

/// Appends the line that makes a call.
pub fn put_call(out: &mut Vec<u8>, client: u64, call: &Call) -> Result<(), AllocError> {
    put_name(out, client)?;
    out.push(b' ')?;
    if write_call(out, call).is_err() {
        return Err(AllocError);
    }
    out.push(b'\n')?;
    Ok(())
}

/// Appends the line that ends a client's process.
pub fn put_die(out: &mut Vec<u8>, client: u64) -> Result<(), AllocError> {
    put_name(out, client)?;
    out.extend_from_slice(b" die\n")
}

/// Appends the line by which a clock shows a moment.
pub fn put_moment(out: &mut Vec<u8>, clock: Clock, moment: Moment) -> Result<(), AllocError> {
    out.extend_from_slice(match clock {
        Clock::Real => b"* moment ",
        Clock::Mono => b"* mono-moment ",
    })?;
    put_number(out, moment.nanos() / SECOND)?;
    out.push(b' ')?;
    put_number(out, moment.nanos() % SECOND)?;
    out.push(b'\n')?;
    Ok(())
}

/// Appends an answer to the line of a client that has this number.
pub fn put_answer(
    out: &mut Vec<u8>,
    client: u64,
    line: u64,
    outcome: Outcome,
) -> Result<(), AllocError> {
    out.extend_from_slice(b"> ")?;
    put_name(out, client)?;
    out.push(b' ')?;
    put_number(out, line)?;
    out.push(b' ')?;
    out.extend_from_slice(outcome.word().as_bytes())?;
    out.push(b'\n')?;
    Ok(())
}
