ghost use Rattle.std.specs.Prelude.{◌≡◌, ◌<◌, length, ◌+◌, ◌-◌, Bool, IsTrue, IsSome, IsOk};
ghost use Rattle.std.specs.Prelude.{IfErr, IfSome, IfNone, OnOk, OnErr, Some, false};
ghost use Rattle.pt_types.specs.Limits.{max_priority};
ghost use Rattle.pt_types.specs.MutexTable.{is_some_number};
ghost use Rattle.pt_types.specs.RwlockTable.{read_verdict, write_verdict, rwunlock_verdict};
ghost use Rattle.pt_types.specs.RwlockTable.{has_lock};

use crate::holders::{Held, Holders};
use pt_lanes::any_from;
use pt_types::{ClientId, How, MAX_PRIORITY, Priority, Refusal, Verdict};
use pt_waitq::Waiter;
use std::alloc::{Allocator, Global};
use std::marker::Model;

// held by           a reader may have it             a writer may have it
// nobody            no writer before it waits        yes
// readers           the same, or it is one of them   no
// a writer          no                               no

/// A read-write lock: its holders, and the number of writers that wait.  [XSH 2.9]
#[derive(Drop)]
pub struct RwObj<A: Allocator + Copy = Global> {
    holders: Holders<A>,
    /// The number of waiting writers of each priority. That of priority p is at index p - 1.
    waiting_writers: [u32; MAX_PRIORITY],
}

impl<A: Allocator + Copy> Model for RwObj<A> {
    ghost use Rattle.pt_rwlock.specs.AwaitedLock.{AwaitedLock};

    ghost Value = { AwaitedLock };

    ghost view = { λ r. record { lock = r.holders; waiting = r.waiting_writers } };
}

impl<A: Allocator + Copy> RwObj<A> {
    ghost use Rattle.pt_rwlock.specs.RwlockState.{reads_in_row, reads_of, nobody_holds, view_for};
    ghost use Rattle.pt_rwlock.specs.RwlockState.{with_row, with_reads, can_acquire_read};
    ghost use Rattle.pt_rwlock.specs.RwlockState.{ChangesRow, rwlock_after_release};
    ghost use Rattle.pt_rwlock.specs.RwlockState.{is_grantable_to, held_by};
    ghost use Rattle.pt_rwlock.specs.AwaitedLock.{awaited_by_none, with_lock, SaysBlocked};
    ghost use Rattle.pt_rwlock.specs.AwaitedLock.{writers_at, with_writers, ChangesCount};

    /// Creates a lock that nobody holds.  [XSH pthread_rwlock_init]
    pub fn new(alloc: A) -> RwObj<A>
        ensures { result ≡ awaited_by_none }
    {
        RwObj {
            holders: Holders::new(alloc),
            waiting_writers: [0; MAX_PRIORITY],
        }
    }

    /// Makes a row for the client's read locks, unless the client has one already. Returns ENOMEM
    /// if memory cannot be grown for a new row.
    pub fn make_row(&mut self, client: ClientId) -> Result<(), Refusal>
        ensures ok { OnOk result (self.new ≡ with_lock self.old (with_row self.old.lock client)) }
        ensures row { let reads = reads_of self.old.lock client in
            OnOk result (ChangesRow self.old.lock self.new.lock client (Some reads)) }
        ensures relock { IsSome (reads_in_row self.old.lock client) → IsOk result }
        ensures err { IfErr result (λ refusal. refusal ≡ Refusal.Enomem) }
        ensures unchanged { OnErr result (self.new ≡ self.old) }
    {
        self.holders.make_row(client)
    }

    /// Returns how the client holds the lock.  [XSH pthread_rwlock_unlock]
    pub fn held_by(&self, client: ClientId) -> Held
        ensures { result ≡ held_by (view_for self.now.lock client) }
    {
        self.holders.held_by(client)
    }

    /// Returns the client that holds the write lock, dead or alive.  [XSH pthread_rwlock_wrlock]
    pub fn writer(&self) -> Option<ClientId>
        ensures { result ≡ self.now.lock.writer }
    {
        self.holders.writer()
    }

    /// Returns the rows of the readers: the number of each client, with its read locks. A row may
    /// have none.  [XSH pthread_rwlock_rdlock]
    pub fn readers(&self) -> &[(u64, u8)]
        ensures { result.now ≡ self.now.lock.rows }
    {
        self.holders.readers()
    }

    /// Returns whether nobody, dead or alive, holds the lock.  [XSH pthread_rwlock_wrlock]
    pub fn is_free(&self) -> bool
        ensures { result ≡ nobody_holds self.now.lock }
    {
        self.holders.is_free()
    }

    // Returns whether a writer of this priority or a higher one waits.
    fn is_blocked(&self, priority: Priority) -> bool
        ensures { SaysBlocked self.now priority result }
    {
        any_from(&self.waiting_writers, priority.level() as usize - 1)
    }

    /// Returns the verdict of the client's `rdlock`, `tryrdlock` or `timedrdlock`. Doesn't check
    /// whether a deadline is due.  [XSH pthread_rwlock_rdlock, pthread_rwlock_timedrdlock]
    pub fn verdict_read(&self, caller: ClientId, priority: Priority, how: How) -> Verdict
        ensures { (blocked : Bool) → SaysBlocked self.now priority blocked
            → result ≡ read_verdict (view_for self.now.lock caller) blocked how }
    {
        self.verdict_read_blocked(caller, self.is_blocked(priority), how)
    }

    /// Returns the verdict of a call for a read lock, given whether a writer of the caller's
    /// priority or a higher one waits.  [XSH pthread_rwlock_rdlock]
    pub fn verdict_read_blocked(&self, caller: ClientId, blocked: bool, how: How) -> Verdict
        ensures { result ≡ read_verdict (view_for self.now.lock caller) blocked how }
    {
        self.holders.verdict_read_blocked(caller, blocked, how)
    }

    /// Returns the verdict of the client's `wrlock`, `trywrlock` or `timedwrlock`. Doesn't check
    /// whether a deadline is due.  [XSH pthread_rwlock_wrlock, pthread_rwlock_timedwrlock]
    pub fn verdict_write(&self, caller: ClientId, how: How) -> Verdict
        ensures { result ≡ write_verdict (view_for self.now.lock caller) how }
    {
        self.holders.verdict_write(caller, how)
    }

    /// Returns the verdict of the client's `rwunlock`. EPERM is profile.
    /// [XSH pthread_rwlock_unlock]
    pub fn verdict_unlock(&self, caller: ClientId) -> Verdict
        ensures { result ≡ rwunlock_verdict (view_for self.now.lock caller) }
    {
        self.holders.verdict_unlock(caller)
    }

    /// Returns whether the client holds the lock in either way.  [XSH pthread_rwlock_unlock]
    pub fn holds(&self, client: ClientId) -> bool
        ensures { result ≡ has_lock (view_for self.now.lock client) }
    {
        self.holders.holds(client)
    }

    /// Returns whether the first waiter of the lock's queue can have the lock now: a writer if
    /// nobody holds it; a reader if no writer holds it, and either no writer of its priority or a
    /// higher one waits or its client has a read lock already. The last case is a deviation.
    /// [XSH pthread_rwlock_unlock]
    pub fn grantable(&self, first: Option<Waiter>) -> bool
        ensures none { IfNone first (result ≡ false) }
        ensures some { (blocked : Bool)
            → IfSome first (λ waiter. SaysBlocked self.now waiter.prio blocked
            → result ≡ is_grantable_to self.now.lock waiter blocked) }
    {
        match first {
            None => false,
            Some(waiter) if waiter.writer => self.is_free(),
            Some(waiter) => {
                let reads = self.holders.reads_of(waiter.client);
                let passes = reads > 0 || !self.is_blocked(waiter.prio);
                self.writer().is_none() && passes
            }
        }
    }

    /// Counts a writer of this priority that begins to wait.  [XSH pthread_rwlock_rdlock]
    pub fn note_writer(&mut self, priority: Priority)
        requires { writers_at self.old priority < u32.MAX }
        ensures change { let before = writers_at self.old priority in
            self.new ≡ with_writers self.old priority (before + 1) }
        ensures count { let before = writers_at self.old priority in
            ChangesCount self.old self.new priority (before + 1) }
        ensures priorities { length self.new.waiting ≡ max_priority }
    {
        self.waiting_writers[priority.level() as usize - 1] += 1;
    }

    /// Counts off a writer of this priority that no longer waits.  [XSH pthread_rwlock_rdlock]
    pub fn drop_writer(&mut self, priority: Priority)
        requires { 0 < writers_at self.old priority }
        ensures change { let before = writers_at self.old priority in
            self.new ≡ with_writers self.old priority (before - 1) }
        ensures count { let before = writers_at self.old priority in
            ChangesCount self.old self.new priority (before - 1) }
        ensures priorities { length self.new.waiting ≡ max_priority }
    {
        self.waiting_writers[priority.level() as usize - 1] -= 1;
    }

    /// Gives the client one more read lock. No writer may hold the lock, and the client must have a
    /// row with fewer than 255 read locks.  [XSH pthread_rwlock_rdlock]
    pub fn acquire_read(&mut self, client: ClientId)
        requires { IsTrue (can_acquire_read self.old.lock client) }
        ensures change { let reads = reads_of self.old.lock client in
            self.new ≡ with_lock self.old (with_reads self.old.lock client (reads + 1)) }
        ensures row { let reads = reads_of self.old.lock client in
            ChangesRow self.old.lock self.new.lock client (Some (reads + 1)) }
    {
        self.holders.acquire_read(client);
    }

    /// Gives the client the write lock. Nobody may hold the lock.  [XSH pthread_rwlock_wrlock]
    pub fn acquire_write(&mut self, client: ClientId)
        requires { IsTrue (nobody_holds self.old.lock) }
        ensures { self.new
            ≡ with_lock self.old (record self.old.lock { writer = Some client }) }
    {
        self.holders.acquire_write(client);
    }

    /// Takes back the client's write lock, or one of its read locks.  [XSH pthread_rwlock_unlock]
    pub fn release(&mut self, client: ClientId)
        requires { IsTrue (has_lock (view_for self.old.lock client)) }
        ensures change { self.new ≡ with_lock self.old (rwlock_after_release self.old.lock client) }
        ensures row { let reads = reads_of self.old.lock client in
            is_some_number self.old.lock.writer client ≡ false
            → ChangesRow self.old.lock self.new.lock client (Some (reads - 1)) }
    {
        self.holders.release(client);
    }
}
