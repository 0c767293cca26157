use crate::limits::MAX_PRIORITY;
use std::marker::Model;

/// The number of a client: the place of its Join.  [profile]
#[derive(Clone, Copy, PartialEq, Eq)]
pub struct ClientId(pub u64);

impl Model for ClientId {
    ghost use Rattle.std.specs.Prelude.{ℕ};

    ghost Value = { ℕ };

    ghost view = { λ c. c.0 };

    ghost inverse = { λ n. record { 0 = n } };
}

/// The number of an object: the place of the call that made it.  [profile]
#[derive(Clone, Copy, PartialEq, Eq)]
pub struct ObjectId(pub u64);

impl Model for ObjectId {
    ghost use Rattle.std.specs.Prelude.{ℕ};

    ghost Value = { ℕ };

    ghost view = { λ o. o.0 };

    ghost inverse = { λ n. record { 0 = n } };
}

/// A SCHED_FIFO priority, from 1 to the highest.  [XSH 2.8.4]
#[derive(Clone, Copy, PartialEq, Eq)]
pub struct Priority {
    level: u8,
}

impl Model for Priority {
    ghost use Rattle.std.specs.Prelude.{ℕ, ◌≤◌};
    ghost use Rattle.pt_types.specs.Limits.{max_priority};

    ghost Value = { ℕ };

    ghost view = { λ p. p.level };

    ghost invariant = { λ p. (1 ≤ p.level) × (p.level ≤ max_priority) };

    ghost inverse = { λ n. record { level = n } };
}

impl Priority {
    ghost use Rattle.std.specs.Prelude.{◌≡◌, ◌≤◌, ◌↔◌, IsSome, IfSome};
    ghost use Rattle.pt_types.specs.Limits.{max_priority};

    /// Returns the priority of this level, or None if it is below 1 or above the highest.
    /// [profile]
    pub fn new(level: u64) -> Option<Priority>
        ensures valid { IsSome result ↔ ((1 ≤ level) × (level ≤ max_priority)) }
        ensures value { IfSome result (λ p. p ≡ level) }
    {
        if level < 1 || level > MAX_PRIORITY as u64 {
            return None;
        }
        Some(Priority { level: level as u8 })
    }

    /// Returns the level, from 1 to the highest.
    pub fn level(self) -> u8
        ensures value { result ≡ self }
        ensures least { 1 ≤ result }
        ensures greatest { result ≤ max_priority }
    {
        self.level
    }
}
