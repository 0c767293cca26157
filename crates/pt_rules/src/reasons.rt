//! The words of each rule, and its source.

ghost use Rattle.std.specs.Prelude.{◌≡◌};
ghost use Rattle.pt_rules.specs.Reasons.{consistent_reason};
ghost use Rattle.pt_rules.specs.Reasons.{destroy_reason, init_reason};
ghost use Rattle.pt_rules.specs.Reasons.{lock_reason, read_reason};
ghost use Rattle.pt_rules.specs.Reasons.{rule_reason};
ghost use Rattle.pt_rules.specs.Reasons.{rwunlock_reason};
ghost use Rattle.pt_rules.specs.Reasons.{unlock_reason, wait_reason};
ghost use Rattle.pt_rules.specs.Reasons.{wake_reason, write_reason};

use crate::call::CallRule;
use crate::cond::{WaitRule, WakeRule};
use crate::mutex::{ConsistentRule, LockRule, UnlockRule};
use crate::object::{DestroyRule, InitRule};
use crate::rwlock::{ReadRule, RwunlockRule, WriteRule};

/// Why an entry was added or a line refused, in words, and the source: a page of XSH without
/// `pthread_`, `profile` or `deviation`.
#[derive(Clone, Copy)]
pub struct Reason {
    pub words: &'static [u8],
    pub source: &'static [u8],
}

impl Reason {
    /// Creates a reason of these words, with its source.
    pub fn new(words: &'static [u8], source: &'static [u8]) -> Reason
        ensures words { result.words.now ≡ words.now }
        ensures source { result.source.now ≡ source.now }
    {
        Reason { words, source }
    }
}

fn lock_reason(rule: LockRule, page: &'static [u8]) -> Reason
    ensures words { result.words.now ≡ (lock_reason page.now rule).0 }
    ensures source { result.source.now ≡ (lock_reason page.now rule).1 }
{
    match rule {
        LockRule::Unrecoverable => {
            Reason::new(b"the mutex is not recoverable", b"XSH mutex_consistent")
        }
        LockRule::Free => Reason::new(b"the mutex has no owner", page),
        LockRule::Relocked => Reason::new(b"a RECURSIVE mutex: one lock more", page),
        LockRule::TooOften => Reason::new(b"255 locks already, the most", page),
        LockRule::Tried => Reason::new(b"the mutex has an owner", page),
        LockRule::Deadlocks => Reason::new(b"the caller owns this ERRORCHECK mutex", page),
        LockRule::BadTime => Reason::new(b"nanoseconds of 1,000,000,000 or more", page),
        LockRule::Relocks => Reason::new(b"waits for itself: it owns the mutex", page),
        LockRule::Waits => Reason::new(b"waits: the mutex has an owner", page),
    }
}

fn unlock_reason(rule: UnlockRule, page: &'static [u8]) -> Reason
    ensures words { result.words.now ≡ (unlock_reason page.now rule).0 }
    ensures source { result.source.now ≡ (unlock_reason page.now rule).1 }
{
    match rule {
        UnlockRule::Undefined => Reason::new(b"the caller does not own the mutex", b"profile"),
        UnlockRule::NotOwner => Reason::new(b"the caller does not own the mutex", page),
        UnlockRule::Counts => Reason::new(b"one lock less: it owns the mutex still", page),
        UnlockRule::Loses => {
            Reason::new(
                b"inconsistent: not recoverable now",
                b"XSH mutex_consistent",
            )
        }
        UnlockRule::GivesBack => Reason::new(b"gives the mutex back", page),
    }
}

fn consistent_reason(rule: ConsistentRule, page: &'static [u8]) -> Reason
    ensures words { result.words.now ≡ (consistent_reason page.now rule).0 }
    ensures source { result.source.now ≡ (consistent_reason page.now rule).1 }
{
    match rule {
        ConsistentRule::NotRobust => Reason::new(b"the mutex is not robust", page),
        ConsistentRule::NotInconsistent => Reason::new(b"the mutex is not inconsistent", page),
        ConsistentRule::NotOwner => Reason::new(b"the caller does not own the mutex", b"profile"),
        ConsistentRule::Restores => Reason::new(b"the mutex is consistent again", page),
    }
}

fn init_reason(rule: InitRule, page: &'static [u8]) -> Reason
    ensures words { result.words.now ≡ (init_reason page.now rule).0 }
    ensures source { result.source.now ≡ (init_reason page.now rule).1 }
{
    match rule {
        InitRule::NoCount => Reason::new(b"a barrier's count is 1 to 1,024", page),
        InitRule::BadCount => Reason::new(b"a barrier's count is 1 to 1,024", b"profile"),
        InitRule::NameInUse => Reason::new(b"the name is in use", b"profile"),
        InitRule::TooMany => Reason::new(b"4,096 objects exist", page),
        InitRule::Inits => Reason::new(b"it is made", page),
    }
}

fn destroy_reason(rule: DestroyRule, page: &'static [u8]) -> Reason
    ensures words { result.words.now ≡ (destroy_reason page.now rule).0 }
    ensures source { result.source.now ≡ (destroy_reason page.now rule).1 }
{
    match rule {
        DestroyRule::Busy => Reason::new(b"it is in use", b"profile"),
        DestroyRule::Ends => Reason::new(b"nobody alive uses it: it is gone", page),
    }
}

fn read_reason(rule: ReadRule, page: &'static [u8]) -> Reason
    ensures words { result.words.now ≡ (read_reason page.now rule).0 }
    ensures source { result.source.now ≡ (read_reason page.now rule).1 }
{
    match rule {
        ReadRule::Writes => Reason::new(b"the caller holds the write lock", b"profile"),
        ReadRule::TooOften => Reason::new(b"255 read locks already, the most", page),
        ReadRule::Passes => Reason::new(b"a reader already: passes the writers", b"deviation"),
        ReadRule::Rereads => Reason::new(b"a reader already", page),
        ReadRule::Admitted => Reason::new(b"no writer holds it or comes first", page),
        ReadRule::Tried => Reason::new(b"a writer holds it or comes first", page),
        ReadRule::BadTime => Reason::new(b"nanoseconds of 1,000,000,000 or more", page),
        ReadRule::Waits => Reason::new(b"waits: a writer holds it or comes first", page),
    }
}

fn write_reason(rule: WriteRule, page: &'static [u8]) -> Reason
    ensures words { result.words.now ≡ (write_reason page.now rule).0 }
    ensures source { result.source.now ≡ (write_reason page.now rule).1 }
{
    match rule {
        WriteRule::Holds => Reason::new(b"the caller holds the lock itself", b"profile"),
        WriteRule::Free => Reason::new(b"nobody holds the lock", page),
        WriteRule::Tried => Reason::new(b"the lock is held", page),
        WriteRule::BadTime => Reason::new(b"nanoseconds of 1,000,000,000 or more", page),
        WriteRule::Waits => Reason::new(b"waits: the lock is held", page),
    }
}

fn rwunlock_reason(rule: RwunlockRule, page: &'static [u8]) -> Reason
    ensures words { result.words.now ≡ (rwunlock_reason page.now rule).0 }
    ensures source { result.source.now ≡ (rwunlock_reason page.now rule).1 }
{
    match rule {
        RwunlockRule::NotHolder => Reason::new(b"the caller holds nothing there", b"profile"),
        RwunlockRule::GivesBack => Reason::new(b"gives the lock back", page),
    }
}

fn wait_reason(rule: WaitRule, page: &'static [u8]) -> Reason
    ensures words { result.words.now ≡ (wait_reason page.now rule).0 }
    ensures source { result.source.now ≡ (wait_reason page.now rule).1 }
{
    match rule {
        WaitRule::BadTime => Reason::new(b"nanoseconds of 1,000,000,000 or more", page),
        WaitRule::OtherMutex => Reason::new(b"calls wait there with another mutex", b"profile"),
        WaitRule::Undefined => Reason::new(b"the caller does not own the mutex", b"profile"),
        WaitRule::NotOwner => Reason::new(b"the caller does not own the mutex", page),
        WaitRule::Counts => Reason::new(b"waits: one lock less on the mutex", page),
        WaitRule::Loses => Reason::new(b"waits; the mutex is not recoverable now", b"profile"),
        WaitRule::Waits => Reason::new(b"waits: gives the mutex back", page),
    }
}

fn wake_reason(rule: WakeRule, page: &'static [u8]) -> Reason
    ensures words { result.words.now ≡ (wake_reason page.now rule).0 }
    ensures source { result.source.now ≡ (wake_reason page.now rule).1 }
{
    match rule {
        WakeRule::Nobody => Reason::new(b"nobody waits there", page),
        WakeRule::MovesFirst => Reason::new(b"the first wait moves to its mutex", page),
        WakeRule::MovesAll => Reason::new(b"all waits move to their mutex", page),
    }
}

/// Returns the words and the source of a rule, for a call on this page.
pub fn rule_reason(rule: CallRule, page: &'static [u8]) -> Reason
    ensures words { result.words.now ≡ (rule_reason page.now rule).0 }
    ensures source { result.source.now ≡ (rule_reason page.now rule).1 }
{
    match rule {
        CallRule::NoObject => Reason::new(b"no object has the name", b"profile"),
        CallRule::OtherClass => Reason::new(b"the object is of another class", b"profile"),
        CallRule::Init(rule) => init_reason(rule, page),
        CallRule::Destroy(rule) => destroy_reason(rule, page),
        CallRule::Lock(rule) => lock_reason(rule, page),
        CallRule::Unlock(rule) => unlock_reason(rule, page),
        CallRule::Consistent(rule) => consistent_reason(rule, page),
        CallRule::Read(rule) => read_reason(rule, page),
        CallRule::Write(rule) => write_reason(rule, page),
        CallRule::Rwunlock(rule) => rwunlock_reason(rule, page),
        CallRule::Wait(rule) => wait_reason(rule, page),
        CallRule::Wake(rule) => wake_reason(rule, page),
        CallRule::BarrierWaits => Reason::new(b"waits at the barrier", page),
    }
}
