ghost use Rattle.std.specs.Prelude.{◌≡◌, ◌≤◌, ◌<◌, ◌-◌, ◌^◌, ◌&&◌, length};
ghost use Rattle.pt_types.specs.RwlockTable.{has_lock};
ghost use Rattle.pt_model.specs.Clients.{is_alive as lives};
ghost use Rattle.pt_types.specs.Operations.{operation};
ghost use Rattle.pt_model.specs.Histories.{history};
ghost use Rattle.pt_model.specs.WaitingCall.{call_at_place, waiting_calls};
ghost use Rattle.pt_model.specs.Rwlocks.{rwunlocks, is_for_read};
ghost use Rattle.pt_model.specs.Rwlocks.{is_for_write, is_writer as writes_in};
ghost use Rattle.pt_model.specs.Rwlocks.{is_writer_by, read_count};
ghost use Rattle.pt_model.specs.Rwlocks.{read_count_by, write_holder};
ghost use Rattle.pt_model.specs.Rwlocks.{first_reader, rwlock_view};
ghost use Rattle.pt_model.specs.Rwlocks.{has_living_holder};

use crate::clients::is_alive;
use crate::objects::means;
use crate::waiting::waiting_call_at;
use pt_model::Entry;
use pt_model::waiting_call::Role;
use pt_types::operations::{ObjectClass, Operation, operation_of};
use pt_types::views::RwlockView;
use pt_types::{Call, ClientId, ObjectId, Outcome};

/// Returns true if a call that was answered 0 gives the lock back.  [XSH pthread_rwlock_unlock]
pub fn rwunlocks(entries: &[Entry], call: &Call, r: ObjectId) -> bool
    ensures { result ≡ rwunlocks (history entries.now) (operation call.now) r }
{
    match operation_of(call) {
        Operation::Rwunlocks(n) => means(entries, n, ObjectClass::Rwlock, r),
        _ => false,
    }
}

/// Returns true if the call at a place is the client's call for a read lock.
/// [XSH pthread_rwlock_rdlock]
pub fn is_for_read(entries: &[Entry], j: u64, r: ObjectId, c: ClientId) -> bool
    ensures { result ≡ is_for_read (call_at_place j (waiting_calls (history entries.now))) r c }
{
    match waiting_call_at(entries, j) {
        Some(w) => matches!(w.role, Role::ForRead) && w.object == r && w.client == c,
        None => false,
    }
}

/// Returns true if the call at a place is the client's call for the write lock.
/// [XSH pthread_rwlock_wrlock]
pub fn is_for_write(entries: &[Entry], j: u64, r: ObjectId, c: ClientId) -> bool
    ensures { result ≡ is_for_write (call_at_place j (waiting_calls (history entries.now))) r c }
{
    match waiting_call_at(entries, j) {
        Some(w) => matches!(w.role, Role::ForWrite) && w.object == r && w.client == c,
        None => false,
    }
}

/// Returns whether a client holds the write lock after an entry.  [XSH pthread_rwlock_unlock]
pub fn is_writer_by(
    entries: &[Entry],
    entry: &Entry,
    r: ObjectId,
    c: ClientId,
    before: bool,
) -> bool
    ensures { result ≡ is_writer_by (history entries.now) entry.now r c before }
{
    match entry {
        Entry::Call(d, call, Some(Outcome::Done)) if *d == c && rwunlocks(entries, call, r) => {
            false
        }
        Entry::Grant(j, _) if is_for_write(entries, *j, r, c) => true,
        _ => before,
    }
}

/// Returns true if a client holds the write lock.  [XSH pthread_rwlock_wrlock]
#[tactic(auto, using(crate::proofs::Prefix::history_more))]
pub fn writes(entries: &[Entry], r: ObjectId, c: ClientId) -> bool
    ensures { result ≡ writes_in (history entries.now) r c }
{
    let mut found = false;
    for (i, entry) in entries.iter().enumerate() {
        found = is_writer_by(&entries[..i], entry, r, c, found);
    }
    found
}

/// Returns the number of a client's read locks after an entry. An unlock takes one away, unless it
/// gives back the write lock.  [XSH pthread_rwlock_unlock]
pub fn read_count_by(entries: &[Entry], entry: &Entry, r: ObjectId, c: ClientId, before: u64) -> u64
    requires { before < 2 ^ 64 - 1 }
    ensures { result ≡ read_count_by (history entries.now) entry.now r c before }
{
    match entry {
        Entry::Call(d, call, Some(Outcome::Done))
            if *d == c && rwunlocks(entries, call, r) && !writes(entries, r, c) => {
            before.saturating_sub(1)
        }
        Entry::Grant(j, _) if is_for_read(entries, *j, r, c) => before + 1,
        _ => before,
    }
}

/// Returns the number of read locks that a client holds.  [XSH pthread_rwlock_rdlock]
#[tactic(auto, using(crate::proofs::Prefix::history_more))]
pub fn reads(entries: &[Entry], r: ObjectId, c: ClientId) -> u64
    ensures value { result ≡ read_count (history entries.now) r c }
    ensures within { result ≤ length entries.now }
{
    let mut count = 0;
    for (i, entry) in entries.iter().enumerate() {
        count = read_count_by(&entries[..i], entry, r, c, count);
    }
    count
}

/// Returns the client, dead or alive, that holds the write lock.  [XSH pthread_rwlock_wrlock]
pub fn writer(entries: &[Entry], r: ObjectId) -> Option<ClientId>
    ensures { result ≡ write_holder (history entries.now) r }
{
    for i in 0..entries.len() {
        let c = ClientId(i as u64);
        if writes(entries, r, c) {
            return Some(c);
        }
    }
    None
}

/// Returns the first client, dead or alive, that holds read locks.  [XSH pthread_rwlock_rdlock]
pub fn reader(entries: &[Entry], r: ObjectId) -> Option<ClientId>
    ensures { result ≡ first_reader (history entries.now) r }
{
    for i in 0..entries.len() {
        let c = ClientId(i as u64);
        if 0 < reads(entries, r, c) {
            return Some(c);
        }
    }
    None
}

/// Returns the view of a read-write lock that its verdict tables take, for one caller.  [XSH 2.9]
pub fn rwlock_view(entries: &[Entry], r: ObjectId, c: ClientId) -> RwlockView
    ensures { result ≡ rwlock_view (history entries.now) r c }
{
    RwlockView {
        writes: writes(entries, r, c),
        reads: reads(entries, r, c),
        is_written: writer(entries, r).is_some(),
        is_read: reader(entries, r).is_some(),
    }
}

/// Returns true if a client lives and holds the lock.  [XSH pthread_rwlock_destroy]
pub fn holds_alive(entries: &[Entry], r: ObjectId, c: ClientId) -> bool
    ensures { result ≡ (lives (history entries.now) c
        && has_lock (rwlock_view (history entries.now) r c)) }
{
    is_alive(entries, c) && (writes(entries, r, c) || 0 < reads(entries, r, c))
}

/// Returns true if a living client holds the lock.  [XSH pthread_rwlock_destroy]
pub fn has_living_holder(entries: &[Entry], r: ObjectId) -> bool
    ensures { result ≡ has_living_holder (history entries.now) r }
{
    for i in 0..entries.len() {
        if holds_alive(entries, r, ClientId(i as u64)) {
            return true;
        }
    }
    false
}
