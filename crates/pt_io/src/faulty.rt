ghost use Rattle.std.specs.Prelude.{◌≡◌, ◌↔◌, ◌+◌, ◌-◌, ◌<◌, ◌≤◌, ◌==◌, [], ◌++◌, false, ◌||◌};
ghost use Rattle.std.specs.Prelude.{length, min, take, drop, IsErr, IfOk, IfErr, MatchResult};
ghost use Rattle.std.specs.Prelude.{if◌then◌else◌};
ghost use Rattle.std.specs.IoError.{error_kind};
ghost use Rattle.std.specs.declared.io.ErrorKind.TheVariants.{Other, OutOfMemory};
ghost use Rattle.std.specs.Io.{ReadsAtMost, WritesAtMost};
ghost use Rattle.pt_io.specs.Devices.{all_but, all_but_begins, count_of, count_of_once};
ghost use Rattle.pt_io.specs.Devices.{rejections_in, tells_end};

use crate::sink::Sink;
use crate::source::{Source, moves_none};
use http_server::Log;
use std::alloc::{Allocator, Global};
use std::io;
use std::io::ErrorKind;
use std::marker::Model;

/// A device in memory for tests, which moves few bytes at a time and fails at a chosen call.
///
/// Reads give the bytes that it was made with, and then those that were written. Contracts see the
/// bytes given, left and taken, how many its latest read gave, how many it took since its latest
/// flush, the number of reads, how many bytes a call moves at most, which later call fails, and
/// whether it failed or reported its end.
#[derive(Drop)]
pub struct Faulty<A: Allocator + Copy = Global> {
    bytes: Vec<u8, A>,
    first: usize,
    given: usize,
    latest: usize,
    flushed: usize,
    reads: Log<(), ()>,
    step: usize,
    until_fault: u64,
    has_failed: bool,
    has_ended: bool,
}

impl<A: Allocator + Copy> Model for Faulty<A> {
    ghost use Rattle.std.specs.Prelude.{◌-◌, ◌<◌, ◌≤◌, length, take, drop};
    ghost use Rattle.pt_io.specs.Devices.{Memory};

    ghost Value = { Memory };

    ghost view = { λ m. record {
      given = take m.given m.bytes.items;
      left = drop m.given m.bytes.items;
      taken = drop m.first m.bytes.items;
      latest = m.latest;
      unflushed = length m.bytes.items - m.flushed;
      reads = length m.reads.items;
      step = m.step;
      until_fault = m.until_fault;
      has_failed = m.has_failed;
      has_ended = m.has_ended;
    } };

    ghost invariant = { λ m. (m.first ≤ length m.bytes.items) × (m.given ≤ length m.bytes.items)
        × (m.flushed ≤ length m.bytes.items) × (0 < m.step) };
}

impl<A: Allocator + Copy> Faulty<A> {
    /// Creates a device that gives these bytes and moves up to `step` bytes per call. Call number
    /// `fails_at` fails, counting reads, writes and flushes together from 1. None fails in this way
    /// if `fails_at` is 0.
    pub fn new(bytes: Vec<u8, A>, step: usize, fails_at: u64) -> Faulty<A>
        requires { 0 < step }
        ensures { result ≡ record {
          given = [];
          left = bytes.items;
          taken = [];
          latest = 0;
          unflushed = 0;
          reads = 0;
          step = step;
          until_fault = fails_at;
          has_failed = false;
          has_ended = false;
        } }
    {
        let first = bytes.len();
        Faulty {
            bytes,
            first,
            given: 0,
            latest: 0,
            flushed: first,
            reads: Log::new(),
            step,
            until_fault: fails_at,
            has_failed: false,
            has_ended: false,
        }
    }

    /// Returns all the bytes that were written.
    pub fn written(&self) -> &[u8]
        ensures { result.now ≡ self.now.taken }
    {
        &self.bytes[self.first..]
    }

    /// Returns the bytes that reads have not given yet.
    pub fn left(&self) -> &[u8]
        ensures { result.now ≡ self.now.left }
    {
        &self.bytes[self.given..]
    }

    /// Returns whether a call has failed.
    pub fn has_failed(&self) -> bool
        ensures { result ≡ self.now.has_failed }
    {
        self.has_failed
    }
}

/// Counts a call down, and returns whether it is the one that fails.
fn is_due(until_fault: &mut u64) -> bool
    ensures now { result ≡ (until_fault.old == 1) }
    ensures fewer { until_fault.new ≡ until_fault.old - 1 }
{
    let is_due = *until_fault == 1;
    *until_fault = until_fault.saturating_sub(1);
    is_due
}

/// Copies bytes from the front of what is left, and returns how many.
fn copy_front(left: &[u8], step: usize, buf: &mut [u8]) -> usize
    ensures value { result ≡ min (min (length buf.new) step) (length left.now) }
    ensures within { result ≤ length left.now }
    ensures room { (result ≤ length buf.new) × (result ≡ length (take result buf.new)) }
    ensures piece { take result buf.new ≡ take result left.now }
{
    let n = buf.len().min(step).min(left.len());
    buf[..n].copy_from_slice(&left[..n]);
    n
}

/// Copies bytes from place `at` on, and returns how many.
#[tactic(auto, using(crate::proofs::Pieces::given_more, crate::proofs::Pieces::left_more))]
fn give(bytes: &[u8], at: usize, step: usize, buf: &mut [u8]) -> usize
    requires { at ≤ length bytes.now }
    ensures value { result ≡ min (min (length buf.new) step) (length bytes.now - at) }
    ensures within { at + result ≤ length bytes.now }
    ensures room { (result ≤ length buf.new) × (result ≡ length (take result buf.new)) }
    ensures given { take (at + result) bytes.now ≡ take at bytes.now ++ take result buf.new }
    ensures left { drop at bytes.now ≡ take result buf.new ++ drop (at + result) bytes.now }
{
    copy_front(&bytes[at..], step, buf)
}

impl<A: Allocator + Copy> Source for Faulty<A> {
    ghost given = { λ s. s.given };

    ghost earlier = { λ s. all_but s.latest s.given };

    ghost reads = { λ s. s.reads };

    ghost failures = { λ s. count_of s.has_failed };

    ghost ended = { λ s. s.has_ended };

    fn read(&mut self, buf: &mut [u8]) -> io::Result<usize>
        requires { count_of self.old.has_failed ≡ 0 }
        ensures bound { ReadsAtMost result buf.new }
        ensures bytes { MatchResult result
            (λ n. self.new.given ≡ self.old.given ++ take n buf.new)
            (λ _. self.new.given ≡ self.old.given) }
        ensures before { all_but self.new.latest self.new.given ≡ self.old.given }
        ensures count { MatchResult result
            (λ _. count_of self.new.has_failed ≡ 0)
            (λ _. count_of self.new.has_failed ≡ 1) }
        ensures calls { self.new.reads ≡ self.old.reads + 1 }
        ensures end { self.new.has_ended ≡ (self.old.has_ended || tells_end result buf.new) }

        // The answer, and what is left.
        ensures fault { IsErr result ↔ (self.old.until_fault ≡ 1) }
        ensures kind { IfErr result (λ e. error_kind e ≡ Other) }
        ensures moves { IfOk result
            (λ n. n ≡ min (min (length buf.new) self.old.step) (length self.old.left)) }
        ensures left { MatchResult result
            (λ n. self.old.left ≡ take n buf.new ++ self.new.left)
            (λ _. self.new.left ≡ self.old.left) }

        // All else is unchanged, and the fault is one call closer.
        ensures unchanged { (self.new.taken ≡ self.old.taken) × (self.new.step ≡ self.old.step) }
        ensures fewer { self.new.until_fault ≡ self.old.until_fault - 1 }
    {
        self.latest = 0;
        self.reads = self.reads.and(&(), &());
        if is_due(&mut self.until_fault) {
            self.has_failed = true;
            return Err(io::Error::from(ErrorKind::Other));
        }
        let n = give(&self.bytes, self.given, self.step, buf);
        self.given += n;
        self.latest = n;
        self.has_ended |= moves_none(n, buf);
        Ok(n)
    }

    ghost fails_once = { λ s. count_of_once s.has_failed };

    ghost earlier_given = { λ s. all_but_begins s.latest s.given };
}

impl<A: Allocator + Copy> Sink for Faulty<A> {
    ghost taken = { λ s. s.taken };

    ghost flushed = { λ s. all_but s.unflushed s.taken };

    ghost rejections = { λ _. 0 };

    ghost failures = { λ s. count_of s.has_failed };

    /// Takes bytes from the front of `buf`. A refused growth counts as a failure too.
    fn write(&mut self, buf: &[u8]) -> io::Result<usize>
        requires { count_of self.old.has_failed ≡ 0 }
        ensures bound { WritesAtMost result buf.now }
        ensures bytes { MatchResult result
            (λ n. self.new.taken ≡ self.old.taken ++ take n buf.now)
            (λ _. self.new.taken ≡ self.old.taken) }
        ensures out { all_but self.new.unflushed self.new.taken
            ≡ all_but self.old.unflushed self.old.taken }
        ensures count { MatchResult result
            (λ _. count_of self.new.has_failed ≡ 0)
            (λ _. count_of self.new.has_failed ≡ 1) }
        ensures none { rejections_in result buf.now ≡ 0 }

        // The answer, and what is left for reads.
        ensures fault { self.old.until_fault ≡ 1 → IsErr result }
        ensures kind { IfErr result
            (λ e. error_kind e ≡ (if self.old.until_fault == 1 then Other else OutOfMemory)) }
        ensures moves { IfOk result (λ n. n ≡ min (length buf.now) self.old.step) }
        ensures left { MatchResult result
            (λ n. self.new.left ≡ self.old.left ++ take n buf.now)
            (λ _. self.new.left ≡ self.old.left) }

        // All else is unchanged, and the fault is one call closer.
        ensures unchanged { (self.new.given ≡ self.old.given) × (self.new.step ≡ self.old.step) }
        ensures end { self.new.has_ended ≡ self.old.has_ended }
        ensures fewer { self.new.until_fault ≡ self.old.until_fault - 1 }
    {
        if is_due(&mut self.until_fault) {
            self.has_failed = true;
            return Err(io::Error::from(ErrorKind::Other));
        }
        let n = buf.len().min(self.step);
        if let Err(refused) = self.bytes.extend_from_slice(&buf[..n]) {
            self.has_failed = true;
            return Err(io::Error::from(refused));
        }
        Ok(n)
    }

    fn flush(&mut self) -> io::Result<()>
        requires { count_of self.old.has_failed ≡ 0 }
        ensures bytes { self.new.taken ≡ self.old.taken }
        ensures out { MatchResult result
            (λ _. self.new.unflushed ≡ 0)
            (λ _. self.new.unflushed ≡ self.old.unflushed) }
        ensures count { MatchResult result
            (λ _. count_of self.new.has_failed ≡ 0)
            (λ _. count_of self.new.has_failed ≡ 1) }

        // The answer.
        ensures fault { IsErr result ↔ (self.old.until_fault ≡ 1) }
        ensures kind { IfErr result (λ e. error_kind e ≡ Other) }

        // All else is unchanged, and the fault is one call closer.
        ensures unchanged { (self.new.given ≡ self.old.given) × (self.new.left ≡ self.old.left)
            × (self.new.step ≡ self.old.step) }
        ensures end { self.new.has_ended ≡ self.old.has_ended }
        ensures fewer { self.new.until_fault ≡ self.old.until_fault - 1 }
    {
        if is_due(&mut self.until_fault) {
            self.has_failed = true;
            return Err(io::Error::from(ErrorKind::Other));
        }
        self.flushed = self.bytes.len();
        Ok(())
    }

    ghost fails_once = { λ s. count_of_once s.has_failed };

    ghost flushed_taken = { λ s. all_but_begins s.unflushed s.taken };
}
