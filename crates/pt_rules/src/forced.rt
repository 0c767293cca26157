//! Why an entry must follow the entries before it.

ghost use Rattle.std.specs.Prelude.{◌≡◌};
ghost use Rattle.pt_rules.specs.EventRules.{expire_reason};
ghost use Rattle.pt_rules.specs.EventRules.{expire_rule, page_if};
ghost use Rattle.pt_rules.specs.EventRules.{forced_reason};
ghost use Rattle.pt_rules.specs.EventRules.{grant_reason, granted_on};
ghost use Rattle.pt_rules.specs.EventRules.{grant_rule, grant_rule_of_call};

use crate::pages::page_of;
use crate::reasons::Reason;
use pt_model::Entry;
use pt_types::operations::{LockKind, Operation, operation_of};
use pt_types::{Call, Outcome};

/// What a Grant gives to its call.  [XSH, the call's page]
#[derive(Clone, Copy, PartialEq, Eq)]
pub enum GrantRule {
    /// The mutex is not recoverable.
    Unrecoverable,
    /// The mutex is inconsistent.
    Inconsistent,
    /// The deadline of the wait passed.
    Late,
    Mutex,
    /// A wait has its mutex again.
    Relock,
    Read,
    Write,
    /// A lock, of a call that a seal dropped the words of.
    Served,
}

/// What becomes of a call whose deadline is due.  [XSH pthread_mutex_timedlock]
#[derive(Clone, Copy, PartialEq, Eq)]
pub enum ExpireRule {
    /// A wait moves to its mutex.
    Moves,
    Ends,
    /// A seal dropped the words of the call.
    Passes,
}

// Returns what a call that is answered 0 by a Grant has now.
fn grant_rule_of(call: &Option<Call>) -> GrantRule
    ensures { result ≡ grant_rule_of_call call.now }
{
    let Some(call) = call else {
        return GrantRule::Served;
    };
    match operation_of(call) {
        Operation::Acquires(_, LockKind::MutexLock, _) => GrantRule::Mutex,
        Operation::Acquires(_, LockKind::ReadLock, _) => GrantRule::Read,
        Operation::Acquires(_, LockKind::WriteLock, _) => GrantRule::Write,
        Operation::CondWaits(..) => GrantRule::Relock,
        _ => GrantRule::Served,
    }
}

/// Returns what a Grant with this outcome gives to this call. A seal drops the words of a call.
pub fn grant_rule(outcome: Outcome, call: &Option<Call>) -> GrantRule
    ensures { result ≡ grant_rule outcome call.now }
{
    match outcome {
        Outcome::Enotrecoverable => GrantRule::Unrecoverable,
        Outcome::Eownerdead => GrantRule::Inconsistent,
        Outcome::Etimedout => GrantRule::Late,
        _ => grant_rule_of(call),
    }
}

/// Returns what becomes of this call, whose deadline is due. A seal drops the words of a call.
pub fn expire_rule(call: &Option<Call>) -> ExpireRule
    ensures { result ≡ expire_rule call.now }
{
    let Some(call) = call else {
        return ExpireRule::Passes;
    };
    match operation_of(call) {
        Operation::CondWaits(..) => ExpireRule::Moves,
        _ => ExpireRule::Ends,
    }
}

fn page_if(call: &Option<Call>) -> &'static [u8]
    ensures { result.now ≡ page_if call.now }
{
    match call {
        Some(call) => page_of(call),
        None => b"profile",
    }
}

// Returns the source of a Grant: the page of its call if that comes with it, else the page given.
fn granted_on(page: &'static [u8], at_once: bool, later: &'static [u8]) -> &'static [u8]
    ensures { result.now ≡ granted_on page.now at_once later.now }
{
    if at_once { page } else { later }
}

fn grant_reason(rule: GrantRule, page: &'static [u8], at_once: bool) -> Reason
    ensures words { result.words.now ≡ (grant_reason page.now at_once rule).0 }
    ensures source { result.source.now ≡ (grant_reason page.now at_once rule).1 }
{
    let (words, source): (&'static [u8], &'static [u8]) = match rule {
        GrantRule::Unrecoverable => (
            b"the mutex is not recoverable",
            granted_on(b"XSH mutex_consistent", at_once, b"profile"),
        ),
        GrantRule::Inconsistent => (b"has the mutex, which is inconsistent", b"XSH mutex_lock"),
        GrantRule::Late => (
            b"has the mutex again, after its deadline",
            b"XSH cond_timedwait",
        ),
        GrantRule::Mutex => (
            b"has the mutex",
            granted_on(page, at_once, b"XSH mutex_unlock"),
        ),
        GrantRule::Relock => (b"has the mutex again", b"XSH mutex_unlock"),
        GrantRule::Read => (
            b"has a read lock",
            granted_on(page, at_once, b"XSH rwlock_unlock"),
        ),
        GrantRule::Write => (
            b"has the write lock",
            granted_on(page, at_once, b"XSH rwlock_unlock"),
        ),
        GrantRule::Served => (b"has its lock", b"XSH 2.8.4"),
    };
    Reason::new(words, source)
}

fn expire_reason(rule: ExpireRule, page: &'static [u8]) -> Reason
    ensures words { result.words.now ≡ (expire_reason page.now rule).0 }
    ensures source { result.source.now ≡ (expire_reason page.now rule).1 }
{
    match rule {
        ExpireRule::Moves => {
            Reason::new(
                b"its deadline is due: the wait moves",
                b"XSH cond_timedwait",
            )
        }
        ExpireRule::Ends => Reason::new(b"its deadline is due: the call ends", page),
        ExpireRule::Passes => Reason::new(b"its deadline is due", b"XSH mutex_timedlock"),
    }
}

/// Returns why a forced entry must follow. A Grant or an Expire is of this call, which comes with
/// it or waited, or of `None` if a seal dropped its words.
pub fn forced_reason(entry: &Entry, call: &Option<Call>, at_once: bool) -> Reason
    ensures words { result.words.now ≡ (forced_reason entry.now call.now at_once).0 }
    ensures source { result.source.now ≡ (forced_reason entry.now call.now at_once).1 }
{
    match entry {
        Entry::Grant(_, x) => grant_reason(grant_rule(*x, call), page_if(call), at_once),
        Entry::Expire(_) => expire_reason(expire_rule(call), page_if(call)),
        Entry::Trip(_) => {
            Reason::new(
                b"the barrier is full: the last is SERIAL",
                b"XSH barrier_wait",
            )
        }
        Entry::Yield(_) => {
            Reason::new(b"the owner is dead: it is inconsistent", b"XSH mutex_lock")
        }
        _ => Reason::new(b"it follows", b"profile"),
    }
}
