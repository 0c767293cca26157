ghost use Rattle.std.specs.Prelude.{◌≡◌};
ghost use Rattle.pt_types.specs.ObjectTable.{is_invalid_kind};
ghost use Rattle.pt_rules.specs.ObjectRules.{destroy_rule, init_rule};
ghost use Rattle.pt_rules.specs.ObjectRules.{is_empty_barrier};

use pt_types::{MAX_BARRIER_COUNT, MAX_OBJECTS, ObjectKind};

/// The line of the table of the init calls that applies.  [XSH pthread_mutex_init]
#[derive(Clone, Copy, PartialEq, Eq)]
pub enum InitRule {
    /// The count of a barrier is 0.
    NoCount,
    /// The count of a barrier is above 1,024.
    BadCount,
    /// An object has the name.
    NameInUse,
    /// No more objects can be made.
    TooMany,
    Inits,
}

// Returns whether a kind is that of a barrier whose count is 0.
fn has_no_count(kind: &ObjectKind) -> bool
    ensures { result ≡ is_empty_barrier kind.now }
{
    match kind {
        ObjectKind::Barrier(count) => *count == 0,
        _ => false,
    }
}

// Returns whether a kind is that of a barrier whose count is not from 1 to 1,024.
fn is_bad_count(kind: &ObjectKind) -> bool
    ensures { result ≡ is_invalid_kind kind.now }
{
    match kind {
        ObjectKind::Barrier(count) => *count == 0 || *count > MAX_BARRIER_COUNT as u64,
        _ => false,
    }
}

/// Returns the line that applies to making an object while this many exist.
pub fn init_rule(kind: &ObjectKind, in_use: bool, objects: usize) -> InitRule
    ensures { result ≡ init_rule kind.now in_use objects }
{
    if has_no_count(kind) {
        InitRule::NoCount
    } else if is_bad_count(kind) {
        InitRule::BadCount
    } else if in_use {
        InitRule::NameInUse
    } else if objects >= MAX_OBJECTS {
        InitRule::TooMany
    } else {
        InitRule::Inits
    }
}

/// The line of the table of the destroy calls that applies.  [XSH pthread_mutex_destroy]
#[derive(Clone, Copy, PartialEq, Eq)]
pub enum DestroyRule {
    /// The object is in use.
    Busy,
    Ends,
}

/// Returns the line that applies to destroying an object.
pub fn destroy_rule(busy: bool) -> DestroyRule
    ensures { result ≡ destroy_rule busy }
{
    if busy {
        DestroyRule::Busy
    } else {
        DestroyRule::Ends
    }
}
