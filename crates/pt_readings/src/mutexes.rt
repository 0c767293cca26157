ghost use Rattle.std.specs.Prelude.{◌≡◌, ◌≤◌, ◌<◌, ◌-◌, ◌^◌, length};
ghost use Rattle.pt_types.specs.MutexTable.{after_yield, after_consistent};
ghost use Rattle.pt_types.specs.MutexTable.{after_release};
ghost use Rattle.pt_types.specs.Operations.{operation};
ghost use Rattle.pt_model.specs.Histories.{history};
ghost use Rattle.pt_model.specs.WaitingCall.{call_at_place, waiting_calls};
ghost use Rattle.pt_model.specs.Mutexes.{relocks, unlocks};
ghost use Rattle.pt_model.specs.Mutexes.{unlocks_to_wait};
ghost use Rattle.pt_model.specs.Mutexes.{makes_consistent, is_for_mutex};
ghost use Rattle.pt_model.specs.Mutexes.{lock_count, lock_count_by};
ghost use Rattle.pt_model.specs.Mutexes.{unlock_count, unlock_count_by, mutex_count};
ghost use Rattle.pt_model.specs.Mutexes.{owner, consistency as consistency_in};
ghost use Rattle.pt_model.specs.Mutexes.{consistency_by};
ghost use Rattle.pt_model.specs.Mutexes.{mutex_view};

use crate::objects::{is_robust, kind_of, means, mutex_kind};
use crate::waiting::waiting_call_at;
use pt_model::Entry;
use pt_model::waiting_call::mutex_of;
use pt_types::operations::{LockKind, ObjectClass, Operation, operation_of};
use pt_types::views::{MutexView, is_acquired};
use pt_types::{Call, ClientId, Consistency, ObjectId, Outcome};

/// Returns true if a call that was answered 0 counts as a lock.
/// [XSH pthread_mutex_lock, RECURSIVE]
pub fn relocks(entries: &[Entry], call: &Call, m: ObjectId) -> bool
    ensures { result ≡ relocks (history entries.now) (operation call.now) m }
{
    match operation_of(call) {
        Operation::Acquires(n, LockKind::MutexLock, _) => means(entries, n, ObjectClass::Mutex, m),
        _ => false,
    }
}

/// Returns true if a call that was answered 0 gives back a lock on the mutex.
/// [XSH pthread_mutex_unlock]
pub fn unlocks(entries: &[Entry], call: &Call, m: ObjectId) -> bool
    ensures { result ≡ unlocks (history entries.now) (operation call.now) m }
{
    match operation_of(call) {
        Operation::Unlocks(n) => means(entries, n, ObjectClass::Mutex, m),
        _ => false,
    }
}

/// Returns true if a call that was left waiting gives back a lock on the mutex.
/// [XSH pthread_cond_wait]
pub fn unlocks_to_wait(entries: &[Entry], call: &Call, m: ObjectId) -> bool
    ensures { result ≡ unlocks_to_wait (history entries.now) (operation call.now) m }
{
    match operation_of(call) {
        Operation::CondWaits(_, n, _) => means(entries, n, ObjectClass::Mutex, m),
        _ => false,
    }
}

/// Returns true if a call that was answered 0 makes the mutex consistent.
/// [XSH pthread_mutex_consistent]
pub fn restores(entries: &[Entry], call: &Call, m: ObjectId) -> bool
    ensures { result ≡ makes_consistent (history entries.now) (operation call.now) m }
{
    match operation_of(call) {
        Operation::Restores(n) => means(entries, n, ObjectClass::Mutex, m),
        _ => false,
    }
}

/// Returns true if the call at a place is the client's, and is a lock of this mutex or a wait with
/// it.  [XSH pthread_mutex_lock]
pub fn is_for(entries: &[Entry], j: u64, m: ObjectId, c: ClientId) -> bool
    ensures { result ≡ is_for_mutex (call_at_place j (waiting_calls (history entries.now))) m c }
{
    match waiting_call_at(entries, j) {
        Some(w) => w.client == c && mutex_of(&w) == Some(m),
        None => false,
    }
}

/// Returns the number of a client's locks after an entry. A Yield resets it to 0.
/// [XSH pthread_mutex_lock]
pub fn lock_count_by(entries: &[Entry], entry: &Entry, m: ObjectId, c: ClientId, before: u64) -> u64
    requires { before < 2 ^ 64 - 1 }
    ensures { result ≡ lock_count_by (history entries.now) entry.now m c before }
{
    match entry {
        Entry::Call(d, call, Some(Outcome::Done)) if *d == c && relocks(entries, call, m) => {
            before + 1
        }
        Entry::Grant(j, x) if is_acquired(*x) && is_for(entries, *j, m, c) => before + 1,
        Entry::Yield(k) if *k == m => 0,
        _ => before,
    }
}

/// Returns how often a client has locked a mutex since its last Yield.  [XSH pthread_mutex_lock]
#[tactic(auto, using(crate::proofs::Prefix::history_more))]
pub fn lock_count(entries: &[Entry], m: ObjectId, c: ClientId) -> u64
    ensures value { result ≡ lock_count (history entries.now) m c }
    ensures within { result ≤ length entries.now }
{
    let mut count = 0;
    for (i, entry) in entries.iter().enumerate() {
        count = lock_count_by(&entries[..i], entry, m, c, count);
    }
    count
}

/// Returns the number of a client's unlocks after an entry. A Yield resets it to 0.
/// [XSH pthread_mutex_unlock, pthread_cond_wait]
pub fn unlock_count_by(
    entries: &[Entry],
    entry: &Entry,
    m: ObjectId,
    c: ClientId,
    before: u64,
) -> u64
    requires { before < 2 ^ 64 - 1 }
    ensures { result ≡ unlock_count_by (history entries.now) entry.now m c before }
{
    match entry {
        Entry::Call(d, call, None) if *d == c && unlocks_to_wait(entries, call, m) => before + 1,
        Entry::Call(d, call, Some(Outcome::Done)) if *d == c && unlocks(entries, call, m) => {
            before + 1
        }
        Entry::Yield(k) if *k == m => 0,
        _ => before,
    }
}

/// Returns how often a client has unlocked a mutex since its last Yield.
/// [XSH pthread_mutex_unlock, pthread_cond_wait]
#[tactic(auto, using(crate::proofs::Prefix::history_more))]
pub fn unlock_count(entries: &[Entry], m: ObjectId, c: ClientId) -> u64
    ensures value { result ≡ unlock_count (history entries.now) m c }
    ensures within { result ≤ length entries.now }
{
    let mut count = 0;
    for (i, entry) in entries.iter().enumerate() {
        count = unlock_count_by(&entries[..i], entry, m, c, count);
    }
    count
}

/// Returns how often a client holds a mutex.  [XSH pthread_mutex_lock, pthread_cond_timedwait]
pub fn count(entries: &[Entry], m: ObjectId, c: ClientId) -> u64
    ensures { result ≡ mutex_count (history entries.now) m c }
{
    lock_count(entries, m, c).saturating_sub(unlock_count(entries, m, c))
}

/// Returns the client, dead or alive, that holds the mutex.  [XSH pthread_mutex_lock]
pub fn owner(entries: &[Entry], m: ObjectId) -> Option<ClientId>
    ensures { result ≡ owner (history entries.now) m }
{
    for i in 0..entries.len() {
        let c = ClientId(i as u64);
        if 0 < count(entries, m, c) {
            return Some(c);
        }
    }
    None
}

// Returns a mutex's consistency after the mutex is taken from its dead owner.
// [XSH pthread_mutex_lock, EOWNERDEAD]
fn after_yield(consistency: Consistency) -> Consistency
    ensures { result ≡ after_yield consistency }
{
    match consistency {
        Consistency::NotRecoverable => Consistency::NotRecoverable,
        _ => Consistency::Inconsistent,
    }
}

// Returns a mutex's consistency after `consistent`.  [XSH pthread_mutex_consistent]
fn after_consistent(consistency: Consistency) -> Consistency
    ensures { result ≡ after_consistent consistency }
{
    match consistency {
        Consistency::NotRecoverable => Consistency::NotRecoverable,
        _ => Consistency::Consistent,
    }
}

// Returns a mutex's consistency once its owner's count is 0.  [XSH pthread_mutex_unlock]
fn after_release(consistency: Consistency) -> Consistency
    ensures { result ≡ after_release consistency }
{
    match consistency {
        Consistency::Inconsistent => Consistency::NotRecoverable,
        _ => consistency,
    }
}

/// Returns a mutex's consistency after an entry.  [XSH pthread_mutex_unlock]
pub fn consistency_by(
    entries: &[Entry],
    entry: &Entry,
    m: ObjectId,
    before: Consistency,
) -> Consistency
    ensures { result ≡ consistency_by (history entries.now) entry.now m before }
{
    match entry {
        Entry::Call(d, call, None)
            if unlocks_to_wait(entries, call, m) && count(entries, m, *d) == 1 => {
            after_release(before)
        }
        Entry::Call(_, call, Some(Outcome::Done)) if restores(entries, call, m) => {
            after_consistent(before)
        }
        Entry::Call(d, call, Some(Outcome::Done))
            if unlocks(entries, call, m) && count(entries, m, *d) == 1 => { after_release(before) }
        Entry::Yield(k) if *k == m => after_yield(before),
        _ => before,
    }
}

/// Returns the consistency of a mutex.  [XSH pthread_mutex_lock, pthread_mutex_consistent]
#[tactic(auto, using(crate::proofs::Prefix::history_more))]
pub fn consistency(entries: &[Entry], m: ObjectId) -> Consistency
    ensures { result ≡ consistency_in (history entries.now) m }
{
    let mut found = Consistency::Consistent;
    for (i, entry) in entries.iter().enumerate() {
        found = consistency_by(&entries[..i], entry, m, found);
    }
    found
}

/// Returns the view of a mutex that its verdict table takes.  [XSH 2.9.3]
pub fn mutex_view(entries: &[Entry], m: ObjectId) -> MutexView
    ensures { result ≡ mutex_view (history entries.now) m }
{
    let kind = kind_of(entries, m);
    let owner = owner(entries, m);
    MutexView {
        kind: mutex_kind(kind),
        robust: is_robust(kind),
        consistency: consistency(entries, m),
        owner,
        count: match owner {
            Some(c) => count(entries, m, c),
            None => 0,
        },
    }
}
