//! What a server writes.

ghost use Rattle.std.specs.Prelude.{◌≡◌, ◌<◌, ◌≤◌, ◌+◌, ◌-◌, ◌++◌, length, take, true, false};
ghost use Rattle.std.specs.Prelude.{IsTrue, OnOk, OnErr, IfErr};
ghost use Rattle.pt_session.specs.Outputs.{IsBroken, IsPartlyTaken, output_view};
ghost use Rattle.pt_serve.specs.Served.{IsReported, closed_line, ready_line};
ghost use Rattle.pt_serve.specs.Faults.{close_words, serve_report, serve_status, serve_words};

use crate::fault::ServeFault;
use arrayvec::ArrayVec;
use itoa::Buffer;
use pt_hub::CloseFault;
use pt_io::Sink;

/// The exit status after a fault of a device.  [profile]
const DEVICE: u8 = 3;

/// The exit status if the history does not close.  [profile]
const CLOSE: u8 = 4;

/// The exit status after a lack of memory.  [profile]
const MEMORY: u8 = 5;

/// Returns the exit status of a program that serves and ends with this fault.
pub fn status_of(fault: ServeFault) -> u8
    ensures { result ≡ serve_status fault }
{
    match fault {
        ServeFault::Bind | ServeFault::Accept | ServeFault::Thread | ServeFault::Write => DEVICE,
        ServeFault::Close(_) => CLOSE,
        ServeFault::Memory => MEMORY,
    }
}

// Writes some of the bytes, and returns how many the writer took, or 0 if it broke.
fn put_some<W: Sink>(writer: &mut W, bytes: &[u8]) -> usize
    requires working { W.failures writer.old ≡ 0 }
    requires some { 0 < length bytes.now }
    ensures taken { (result ≤ length bytes.now)
        × (W.taken writer.new ≡ W.taken writer.old ++ take result bytes.now) }
    ensures accepted { 0 < result → (W.failures writer.new ≡ 0)
        × (W.rejections writer.new ≡ W.rejections writer.old) }
    ensures broken { result ≡ 0
        → IsBroken (W.failures writer.new) (W.rejections writer.new - W.rejections writer.old) }
{
    match writer.write(bytes) {
        Ok(n) => n,
        Err(_) => 0,
    }
}

// Writes all the bytes, and returns `false` if the writer broke.
fn put<W: Sink>(writer: &mut W, bytes: &[u8]) -> bool
    requires { W.failures writer.old ≡ 0 }
    ensures ok { IsTrue result → (W.taken writer.new ≡ W.taken writer.old ++ bytes.now)
        × (W.failures writer.new ≡ 0) × (W.rejections writer.new ≡ W.rejections writer.old) }
    ensures begun { IsPartlyTaken (W.taken writer.old) bytes.now (W.taken writer.new) }
    ensures cause { result ≡ false
        → IsBroken (W.failures writer.new) (W.rejections writer.new - W.rejections writer.old) }
{
    let mut rest = bytes;
    while !rest.is_empty() {
        let n = put_some(writer, rest);
        if n == 0 {
            return false;
        }
        rest = &rest[n..];
    }
    true
}

/// Writes a text and flushes it.
pub fn say<W: Sink>(out: &mut W, line: &[u8]) -> Result<(), ServeFault>
    requires { W.failures out.old ≡ 0 }
    ensures ok { OnOk result ((W.taken out.new ≡ W.taken out.old ++ line.now)
        × (W.flushed out.new ≡ W.taken out.new) × (W.failures out.new ≡ 0)
        × (W.rejections out.new ≡ W.rejections out.old)) }
    ensures begun { IsPartlyTaken (W.taken out.old) line.now (W.taken out.new) }
    ensures cause { OnErr result
        (IsBroken (W.failures out.new) (W.rejections out.new - W.rejections out.old)) }
    ensures err { IfErr result (λ fault. fault ≡ ServeFault.Write) }
{
    if !put(out, line) {
        return Err(ServeFault::Write);
    }
    match out.flush() {
        Ok(()) => Ok(()),
        Err(_) => Err(ServeFault::Write),
    }
}

/// Writes that connections are accepted.
pub fn say_ready<W: Sink>(out: &mut W) -> Result<(), ServeFault>
    requires { W.failures out.old ≡ 0 }
    ensures ok { OnOk result ((W.taken out.new ≡ W.taken out.old ++ ready_line)
        × (W.flushed out.new ≡ W.taken out.new) × (W.failures out.new ≡ 0)
        × (W.rejections out.new ≡ W.rejections out.old)) }
    ensures begun { IsPartlyTaken (W.taken out.old) ready_line (W.taken out.new) }
    ensures cause { OnErr result
        (IsBroken (W.failures out.new) (W.rejections out.new - W.rejections out.old)) }
    ensures err { IfErr result (λ fault. fault ≡ ServeFault.Write) }
{
    say(out, b"ready\n")
}

/// Writes that the history is closed, and the number of its events.
pub fn say_closed<W: Sink>(out: &mut W, outer: u64) -> Result<(), ServeFault>
    requires { W.failures out.old ≡ 0 }
    ensures ok { OnOk result ((W.taken out.new ≡ W.taken out.old ++ closed_line outer)
        × (W.flushed out.new ≡ W.taken out.new) × (W.failures out.new ≡ 0)
        × (W.rejections out.new ≡ W.rejections out.old)) }
    ensures begun { IsPartlyTaken (W.taken out.old) (closed_line outer) (W.taken out.new) }
    ensures cause { OnErr result
        (IsBroken (W.failures out.new) (W.rejections out.new - W.rejections out.old)) }
    ensures err { IfErr result (λ fault. fault ≡ ServeFault.Write) }
{
    let mut line: ArrayVec<u8, 32> = ArrayVec::new();
    line.try_extend_from_slice(b"closed ").unwrap();
    let mut digits = Buffer::new();
    line.try_extend_from_slice(digits.format(outer).as_bytes())
        .unwrap();
    line.push(b'\n');
    say(out, line.as_slice())
}

// The most bytes in the words that report a fault.
const WORDS: usize = 80;

// Returns the words that say why the history does not close.
fn close_words(fault: CloseFault) -> ArrayVec<u8, WORDS>
    ensures words { result.items ≡ close_words fault }
    ensures within { length result.items ≤ 70 }
{
    let mut words = ArrayVec::new();
    let mut digits = Buffer::new();
    match fault {
        CloseFault::Missing { expected, found } => {
            words.try_extend_from_slice(b"Missing ").unwrap();
            words
                .try_extend_from_slice(digits.format(expected).as_bytes())
                .unwrap();
            words.push(b' ');
            words
                .try_extend_from_slice(digits.format(found).as_bytes())
                .unwrap();
        }
        CloseFault::Forked { place } => {
            words.try_extend_from_slice(b"Forked ").unwrap();
            words
                .try_extend_from_slice(digits.format(place).as_bytes())
                .unwrap();
        }
        CloseFault::Memory => words.try_extend_from_slice(b"Memory").unwrap(),
    }
    words
}

// Returns the words that report a fault.
fn words_of(fault: ServeFault) -> ArrayVec<u8, WORDS>
    ensures words { result.items ≡ serve_words fault }
    ensures within { length result.items ≤ 76 }
{
    let mut words = ArrayVec::new();
    let text: &[u8] = match fault {
        ServeFault::Bind => b"bind failed",
        ServeFault::Accept => b"accept failed",
        ServeFault::Thread => b"thread failed",
        ServeFault::Write => b"write failed",
        ServeFault::Close(_) => b"close ",
        ServeFault::Memory => b"out of memory",
    };
    words.try_extend_from_slice(text).unwrap();
    if let ServeFault::Close(close) = fault {
        words
            .try_extend_from_slice(close_words(close).as_slice())
            .unwrap();
    }
    words
}

// Returns the line that reports a fault.
fn report_of(fault: ServeFault) -> ArrayVec<u8, 96>
    ensures { result.items ≡ serve_report fault }
{
    let mut line = ArrayVec::new();
    line.try_extend_from_slice(b"ptserver: ").unwrap();
    line.try_extend_from_slice(words_of(fault).as_slice())
        .unwrap();
    line.push(b'\n');
    line
}

/// Reports a fault in one line, and flushes it. A fault of this writer itself is not reported
/// anywhere.
pub fn report<W: Sink>(errors: &mut W, fault: ServeFault)
    requires { W.failures errors.old ≡ 0 }
    ensures { IsReported (W.taken errors.old) (serve_report fault)
        (output_view W.taken W.flushed W.failures W.rejections errors.old errors.new) }
{
    let _ = say(errors, report_of(fault).as_slice());
}
