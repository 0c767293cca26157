ghost use Rattle.std.specs.Prelude.{◌≡◌, ◌+◌, ◌++◌, [], take, false, ◌||◌, length, MatchResult};
ghost use Rattle.std.specs.Io.{ReadsAtMost, WritesAtMost};
ghost use Rattle.std.specs.Io.KnownBytes.{Keeps, ReadConsumes, WriteAppends};
ghost use Rattle.pt_io.specs.Devices.{all_but, all_but_begins, bytes_of, count_of, count_of_once};
ghost use Rattle.pt_io.specs.Devices.{moves_none, rejections_in, tells_end};

use crate::sink::Sink;
use crate::source::{Source, moves_none};
use http_server::Log;
use std::io;
use std::io::{ErrorKind, Read, Write};
use std::marker::Model;

/// The number of times that a read, a write or a flush is retried if a signal interrupts it, before
/// it counts as a failure. The first try does not count.  [XSH read, EINTR; the number is profile]
pub const MAX_TRIES: u32 = 16;

/// A reader of std as a `Source`, or a writer of std as a `Sink`.
///
/// Contracts see its device, the bytes that went through, how many of them its latest read gave or
/// it took since its latest flush, the number of reads and of rejections, and whether it failed or
/// reported its end. The bytes and the numbers are noted for proofs alone and take no memory.
#[derive(Drop)]
pub struct Counted<D> {
    device: D,
    has_failed: bool,
    has_ended: bool,
    log: Log<u8, ()>,
    recent: Log<u8, ()>,
    reads: Log<(), ()>,
    rejections: Log<(), ()>,
}

impl<D> Model for Counted<D> {
    ghost use Rattle.std.specs.Prelude.{length};
    ghost use Rattle.pt_io.specs.Devices.{Tally, bytes_of};

    ghost Value = { Tally D };

    ghost view = { λ c. record {
      device = c.device;
      bytes = bytes_of c.log.items;
      recent = length (bytes_of c.recent.items);
      reads = length c.reads.items;
      rejections = length c.rejections.items;
      has_failed = c.has_failed;
      has_ended = c.has_ended;
    } };
}

impl<D> Counted<D> {
    /// Creates a source or sink over a device. It has moved no byte yet, and has neither failed nor
    /// reported its end.
    pub fn new(device: D) -> Counted<D>
        ensures { result ≡ record {
          device = device;
          bytes = [];
          recent = 0;
          reads = 0;
          rejections = 0;
          has_failed = false;
          has_ended = false;
        } }
    {
        Counted {
            device,
            has_failed: false,
            has_ended: false,
            log: Log::new(),
            recent: Log::new(),
            reads: Log::new(),
            rejections: Log::new(),
        }
    }

    /// Returns the device whose bytes are counted.
    pub fn device(&self) -> &D
        ensures { result.now ≡ self.now.device }
    {
        &self.device
    }

    /// Returns the device, and forgets what went through.
    pub fn into_inner(self) -> D
        ensures { result ≡ self.device }
    {
        self.device
    }

    /// Returns whether a read, a write or a flush has failed.
    pub fn has_failed(&self) -> bool
        ensures { result ≡ self.now.has_failed }
    {
        self.has_failed
    }

    /// Returns whether a read has reported the end.
    pub fn has_ended(&self) -> bool
        ensures { result ≡ self.now.has_ended }
    {
        self.has_ended
    }
}

/// Notes a piece that went through.
fn note(log: &mut Log<u8, ()>, piece: &[u8])
    ensures { bytes_of log.new.items ≡ bytes_of log.old.items ++ piece.now }
{
    for byte in piece {
        *log = log.and(byte, &());
    }
}

/// Counts a write that took none of these bytes.
fn note_rejection(rejections: &mut Log<(), ()>, n: usize, buf: &[u8])
    ensures { length rejections.new.items
        ≡ length rejections.old.items + count_of (moves_none n buf.now) }
{
    if moves_none(n, buf) {
        *rejections = rejections.and(&(), &());
    }
}

/// Reads, and retries if the read is interrupted. Nothing has moved in that case.
fn retry_read<R: Read>(device: &mut R, buf: &mut [u8]) -> io::Result<usize>
    ensures bound { ReadsAtMost result buf.new }
    ensures device { ReadConsumes (R.remaining device.old) (R.remaining device.new) result buf.new }
{
    for _ in 0..MAX_TRIES {
        match device.read(buf) {
            Err(error) if error.kind() == ErrorKind::Interrupted => {}
            answer => return answer,
        }
    }
    device.read(buf)
}

/// Writes, and retries if the write is interrupted. Nothing has moved in that case.
fn retry_write<W: Write>(device: &mut W, buf: &[u8]) -> io::Result<usize>
    ensures bound { WritesAtMost result buf.now }
    ensures device { WriteAppends (W.contents device.old) (W.contents device.new) result buf.now }
{
    for _ in 0..MAX_TRIES {
        match device.write(buf) {
            Err(error) if error.kind() == ErrorKind::Interrupted => {}
            answer => return answer,
        }
    }
    device.write(buf)
}

/// Flushes, and retries if the flush is interrupted.
fn retry_flush<W: Write>(device: &mut W) -> io::Result<()>
    ensures { Keeps (W.contents device.old) (W.contents device.new) }
{
    for _ in 0..MAX_TRIES {
        match device.flush() {
            Err(error) if error.kind() == ErrorKind::Interrupted => {}
            answer => return answer,
        }
    }
    device.flush()
}

impl<R: Read> Source for Counted<R> {
    ghost given = { λ s. s.bytes };

    ghost earlier = { λ s. all_but s.recent s.bytes };

    ghost reads = { λ s. s.reads };

    ghost failures = { λ s. count_of s.has_failed };

    ghost ended = { λ s. s.has_ended };

    /// Reads. An interrupted read is retried up to `MAX_TRIES` times.
    fn read(&mut self, buf: &mut [u8]) -> io::Result<usize>
        requires { count_of self.old.has_failed ≡ 0 }
        ensures bound { ReadsAtMost result buf.new }
        ensures bytes { MatchResult result
            (λ n. self.new.bytes ≡ self.old.bytes ++ take n buf.new)
            (λ _. self.new.bytes ≡ self.old.bytes) }
        ensures before { all_but self.new.recent self.new.bytes ≡ self.old.bytes }
        ensures count { MatchResult result
            (λ _. count_of self.new.has_failed ≡ 0)
            (λ _. count_of self.new.has_failed ≡ 1) }
        ensures calls { self.new.reads ≡ self.old.reads + 1 }
        ensures end { self.new.has_ended ≡ (self.old.has_ended || tells_end result buf.new) }
        ensures device { ReadConsumes
            (R.remaining self.old.device) (R.remaining self.new.device) result buf.new }
    {
        let read = retry_read(&mut self.device, buf);
        self.has_failed = read.is_err();
        self.reads = self.reads.and(&(), &());
        self.recent = Log::new();
        if let Ok(n) = read {
            self.has_ended |= moves_none(n, buf);
            note(&mut self.log, &buf[..n]);
            note(&mut self.recent, &buf[..n]);
        }
        read
    }

    ghost fails_once = { λ s. count_of_once s.has_failed };

    ghost earlier_given = { λ s. all_but_begins s.recent s.bytes };
}

impl<W: Write> Sink for Counted<W> {
    ghost taken = { λ s. s.bytes };

    ghost flushed = { λ s. all_but s.recent s.bytes };

    ghost rejections = { λ s. s.rejections };

    ghost failures = { λ s. count_of s.has_failed };

    /// Writes. An interrupted write is retried up to `MAX_TRIES` times.
    fn write(&mut self, buf: &[u8]) -> io::Result<usize>
        requires { count_of self.old.has_failed ≡ 0 }
        ensures bound { WritesAtMost result buf.now }
        ensures bytes { MatchResult result
            (λ n. self.new.bytes ≡ self.old.bytes ++ take n buf.now)
            (λ _. self.new.bytes ≡ self.old.bytes) }
        ensures out { all_but self.new.recent self.new.bytes
            ≡ all_but self.old.recent self.old.bytes }
        ensures count { MatchResult result
            (λ _. count_of self.new.has_failed ≡ 0)
            (λ _. count_of self.new.has_failed ≡ 1) }
        ensures none { self.new.rejections
            ≡ self.old.rejections + rejections_in result buf.now }
        ensures device { WriteAppends
            (W.contents self.old.device) (W.contents self.new.device) result buf.now }
        ensures end { self.new.has_ended ≡ self.old.has_ended }
    {
        let wrote = retry_write(&mut self.device, buf);
        self.has_failed = wrote.is_err();
        if let Ok(n) = wrote {
            note_rejection(&mut self.rejections, n, buf);
            note(&mut self.log, &buf[..n]);
            note(&mut self.recent, &buf[..n]);
        }
        wrote
    }

    /// Flushes. An interrupted flush is retried up to `MAX_TRIES` times.
    fn flush(&mut self) -> io::Result<()>
        requires { count_of self.old.has_failed ≡ 0 }
        ensures bytes { self.new.bytes ≡ self.old.bytes }
        ensures out { MatchResult result
            (λ _. all_but self.new.recent self.new.bytes ≡ self.old.bytes)
            (λ _. all_but self.new.recent self.new.bytes
            ≡ all_but self.old.recent self.old.bytes) }
        ensures count { MatchResult result
            (λ _. count_of self.new.has_failed ≡ 0)
            (λ _. count_of self.new.has_failed ≡ 1) }
        ensures none { self.new.rejections ≡ self.old.rejections }
        ensures device { Keeps (W.contents self.old.device) (W.contents self.new.device) }
        ensures end { self.new.has_ended ≡ self.old.has_ended }
    {
        let flushed = retry_flush(&mut self.device);
        self.has_failed = flushed.is_err();
        if flushed.is_ok() {
            self.recent = Log::new();
        }
        flushed
    }

    ghost fails_once = { λ s. count_of_once s.has_failed };

    ghost flushed_taken = { λ s. all_but_begins s.recent s.bytes };
}
