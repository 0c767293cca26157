//! The order of calls that wait at one object.

ghost use Rattle.std.specs.Prelude.{◌≡◌};
ghost use Rattle.pt_types.specs.KeyOrder.{goes_before as goes_before_key};

/// What orders the calls at one object: priority, whether the call is for a write lock, and
/// arrival.  [XSH 2.8.4]
#[derive(Clone, Copy)]
pub struct Key {
    pub priority: u64,
    pub writes: bool,
    pub arrival: (u64, u64),
}

/// Returns whether `a` goes before `b`: higher priority first, then writers, then lesser arrival.
/// [XSH pthread_rwlock_unlock, 2.8.4]
pub fn goes_before(a: Key, b: Key) -> bool
    ensures { result ≡ goes_before_key a b }
{
    if a.priority != b.priority {
        return b.priority < a.priority;
    }
    if a.writes != b.writes {
        return a.writes;
    }
    a.arrival.0 < b.arrival.0 || a.arrival.0 == b.arrival.0 && a.arrival.1 < b.arrival.1
}
