ghost use Rattle.std.specs.Prelude.{◌≡◌, ◌==◌, ◌≤◌, false};
ghost use Rattle.pt_types.specs.ObjectTable.{init_verdict};

use pt_types::{MAX_BARRIER_COUNT, ObjectKind, Outcome, Verdict};
use std::marker::Model;

/// Returns the verdict of a `barrier-init` with this count, if its name is free and no object
/// exists: EINVAL for 0, and above 1,024. The upper limit is profile.  [XSH pthread_barrier_init]
///
/// A bad count is answered before a name in use or too many objects.
pub fn verdict_init(count: u64) -> Verdict
    ensures { result ≡ init_verdict (ObjectKind.Barrier count) false 0 }
{
    if count == 0 || count > MAX_BARRIER_COUNT as u64 {
        return Verdict::Reply(Outcome::Einval);
    }
    Verdict::Reply(Outcome::Done)
}

// calls that wait     one more comes
// count - 1           all of them are answered, and none waits
// fewer               it waits with them

/// A barrier, which lets the calls that wait at it go on together.  [XSH pthread_barrier_wait]
#[derive(Drop)]
pub struct BarrierObj {
    count: u32,
}

impl Model for BarrierObj {
    ghost use Rattle.std.specs.Prelude.{ℕ, ◌≤◌};

    ghost Value = { ℕ };

    ghost view = { λ b. b.count };

    ghost invariant = { λ b. (1 ≤ b.count) × (b.count ≤ 1024) };
}

impl BarrierObj {
    /// Creates a barrier for this many calls. `verdict_init` tests the count.
    /// [XSH pthread_barrier_init]
    pub fn new(count: u32) -> BarrierObj
        requires least { 1 ≤ count }
        requires greatest { count ≤ 1024 }
        ensures { result ≡ count }
    {
        BarrierObj { count }
    }

    /// Returns the number of calls that the barrier waits for.  [XSH pthread_barrier_init]
    pub fn count(&self) -> u32
        ensures value { result ≡ self.now }
        ensures least { 1 ≤ result }
        ensures greatest { result ≤ 1024 }
    {
        self.count
    }

    /// Returns whether the barrier is full with this many waiting calls.
    /// [XSH pthread_barrier_wait]
    pub fn full(&self, waiting: usize) -> bool
        ensures { result ≡ (waiting == self.now) }
    {
        waiting == self.count as usize
    }
}
