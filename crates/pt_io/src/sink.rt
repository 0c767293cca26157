ghost use Rattle.std.specs.Prelude.{◌≡◌, ℕ, ◌+◌, ◌≤◌, List, ◌++◌, take, MatchResult};
ghost use Rattle.std.specs.Io.{WritesAtMost};
ghost use Rattle.pt_io.specs.Devices.{rejections_in};
ghost use mathlib.Core.List.{IsPrefix};

use std::io;

/// A destination of bytes.  [XSH write]
///
/// It fails at most once, since it may not be called again after a failure.
pub trait Sink {
    // The bytes that it took so far.
    ghost taken: { Self → List ℕ };

    // The bytes that it took before its latest flush.
    ghost flushed: { Self → List ℕ };

    // The number of writes that took no byte, although the buffer had some.
    ghost rejections: { Self → ℕ };

    // The number of writes and flushes that failed: 0 or 1.
    ghost failures: { Self → ℕ };

    /// Takes bytes from the front of `buf`, and returns how many.  [XSH write]
    ///
    /// If it returns an error, no byte was taken, and it may not be called again. If `buf` has
    /// bytes, 0 is a rejection.
    fn write(&mut self, buf: &[u8]) -> io::Result<usize>
        requires { failures self.old ≡ 0 }
        ensures bound { WritesAtMost result buf.now }
        ensures bytes { MatchResult result
            (λ n. taken self.new ≡ taken self.old ++ take n buf.now)
            (λ _. taken self.new ≡ taken self.old) }
        ensures out { flushed self.new ≡ flushed self.old }
        ensures count { MatchResult result
            (λ _. failures self.new ≡ 0)
            (λ _. failures self.new ≡ 1) }
        ensures none { rejections self.new ≡ rejections self.old + rejections_in result buf.now };

    /// Passes on all bytes that were taken and are still in a buffer.
    ///
    /// If it returns an error, it may not be called again.
    fn flush(&mut self) -> io::Result<()>
        requires { failures self.old ≡ 0 }
        ensures bytes { taken self.new ≡ taken self.old }
        ensures out { MatchResult result
            (λ _. flushed self.new ≡ taken self.old)
            (λ _. flushed self.new ≡ flushed self.old) }
        ensures count { MatchResult result
            (λ _. failures self.new ≡ 0)
            (λ _. failures self.new ≡ 1) }
        ensures none { rejections self.new ≡ rejections self.old };

    ghost fails_once: { (s : Self) → failures s ≤ 1 };

    ghost flushed_taken: { (s : Self) → IsPrefix (flushed s) (taken s) };
}
