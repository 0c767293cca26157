ghost use Rattle.std.specs.Prelude.{◌≡◌, ℕ, ◌+◌, ◌≤◌, List, ◌++◌, Bool, ◌||◌, take, MatchResult};
ghost use Rattle.std.specs.Io.{ReadsAtMost};
ghost use Rattle.pt_io.specs.Devices.{moves_none, tells_end};
ghost use mathlib.Core.List.{IsPrefix};

use std::io;

/// A source of bytes.  [XSH read]
///
/// It fails at most once, since it may not be called again after a failure.
pub trait Source {
    // The bytes that it gave so far.
    ghost given: { Self → List ℕ };

    // The bytes that it gave before its latest read.
    ghost earlier: { Self → List ℕ };

    // The number of reads, including a failed one.
    ghost reads: { Self → ℕ };

    // The number of reads that failed: 0 or 1.
    ghost failures: { Self → ℕ };

    // Whether it has reported its end.
    ghost ended: { Self → Bool };

    /// Reads up to `buf.len()` bytes to the front of `buf`, and returns how many. If `buf` has
    /// room, 0 reports the end.  [XSH read]
    ///
    /// If it returns an error, no byte was given, and it may not be called again.
    fn read(&mut self, buf: &mut [u8]) -> io::Result<usize>
        requires { failures self.old ≡ 0 }
        ensures bound { ReadsAtMost result buf.new }
        ensures bytes { MatchResult result
            (λ n. given self.new ≡ given self.old ++ take n buf.new)
            (λ _. given self.new ≡ given self.old) }
        ensures before { earlier self.new ≡ given self.old }
        ensures count { MatchResult result
            (λ _. failures self.new ≡ 0)
            (λ _. failures self.new ≡ 1) }
        ensures calls { reads self.new ≡ reads self.old + 1 }
        ensures end { ended self.new ≡ (ended self.old || tells_end result buf.new) };

    ghost fails_once: { (s : Self) → failures s ≤ 1 };

    ghost earlier_given: { (s : Self) → IsPrefix (earlier s) (given s) };
}

/// Returns whether none of a buffer's bytes moved, although it has some. This is how a read reports
/// the end, and how a write reports that it accepts nothing.  [XSH read, write]
pub(crate) fn moves_none(n: usize, buf: &[u8]) -> bool
    ensures { result ≡ moves_none n buf.now }
{
    n == 0 && !buf.is_empty()
}
