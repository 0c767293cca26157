ghost use Rattle.std.specs.Prelude.{◌≡◌, ◌+◌, ◌-◌, Bool, IsTrue, IsSome, IsOk, IfErr, OnOk, OnErr};
ghost use Rattle.std.specs.Prelude.{Some, is_some, false};
ghost use Rattle.pt_types.specs.MutexTable.{is_some_number};
ghost use Rattle.pt_types.specs.RwlockTable.{read_verdict, write_verdict, rwunlock_verdict};
ghost use Rattle.pt_types.specs.RwlockTable.{has_lock};

use crate::boxed::BoxedRows;
use pt_types::{ClientId, How, MAX_READ_LOCKS, Outcome, Refusal, Verdict};
use std::alloc::{Allocator, Global};
use std::marker::Model;

/// The way in which a client holds a lock.  [XSH pthread_rwlock_unlock]
#[derive(Clone, Copy, PartialEq, Eq)]
pub enum Held {
    Nothing,
    /// This many read locks, at least one.
    Read(u8),
    Write,
}

/// The holders of a read-write lock: its writer, or the clients with read locks.  [XSH 2.9]
///
/// A client gets its row by `make_row`, the only method that takes memory. Acquiring and releasing
/// a lock takes none.
pub struct Holders<A: Allocator + Copy = Global> {
    writer: Option<ClientId>,
    /// The read locks, by the number of the client.
    reads: BoxedRows<A>,
    /// The number of clients that have read locks.
    readers: usize,
}

impl<A: Allocator + Copy> Model for Holders<A> {
    ghost use Rattle.std.specs.Prelude.{◌≡◌};
    ghost use Rattle.pt_rwlock.specs.RwlockState.{RwlockState, reader_count};

    ghost Value = { RwlockState };

    ghost view = { λ h. record { writer = h.writer; rows = h.reads } };

    ghost invariant = { λ h. reader_count h.reads ≡ h.readers };
}

// Not derived, so that code that drops a lock has nothing to prove about its parts.
impl<A: Allocator + Copy> Drop for Holders<A> {
    fn drop(self) {
        let Holders {
            writer: _,
            reads: _,
            readers: _,
        } = self;
    }
}

impl<A: Allocator + Copy> Holders<A> {
    ghost use Rattle.pt_rwlock.specs.RwlockState.{new_rwlock, reads_in_row, reads_of, has_readers};
    ghost use Rattle.pt_rwlock.specs.RwlockState.{nobody_holds};
    ghost use Rattle.pt_rwlock.specs.RwlockState.{view_for, with_row, with_reads, can_acquire_read};
    ghost use Rattle.pt_rwlock.specs.RwlockState.{ChangesRow, rwlock_after_release, held_by};

    /// Creates a lock that nobody holds.  [XSH pthread_rwlock_init]
    pub fn new(alloc: A) -> Holders<A>
        ensures { result ≡ new_rwlock }
    {
        Holders {
            writer: None,
            reads: BoxedRows::new(alloc),
            readers: 0,
        }
    }

    /// Makes a row for the client's read locks, unless the client has one already. Returns ENOMEM
    /// if memory cannot be grown for a new row.
    pub fn make_row(&mut self, client: ClientId) -> Result<(), Refusal>
        ensures ok { OnOk result (self.new ≡ with_row self.old client) }
        ensures row { let reads = reads_of self.old client in
            OnOk result (ChangesRow self.old self.new client (Some reads)) }
        ensures relock { IsSome (reads_in_row self.old client) → IsOk result }
        ensures err { IfErr result (λ refusal. refusal ≡ Refusal.Enomem) }
        ensures unchanged { OnErr result (self.new ≡ self.old) }
    {
        if self.has_row(client) {
            return Ok(());
        }
        match self.reads.insert(client.0) {
            Ok(()) => Ok(()),
            Err(_) => Err(Refusal::Enomem),
        }
    }

    // Returns whether the client has a row.
    fn has_row(&mut self, client: ClientId) -> bool
        ensures found { result ≡ is_some (reads_in_row self.old client) }
        ensures unchanged { self.new ≡ self.old }
    {
        self.reads.has(client.0)
    }

    /// Returns how the client holds the lock.  [XSH pthread_rwlock_unlock]
    pub fn held_by(&self, client: ClientId) -> Held
        ensures { result ≡ held_by (view_for self.now client) }
    {
        if self.is_writer(client) {
            return Held::Write;
        }
        match self.reads_of(client) {
            0 => Held::Nothing,
            reads => Held::Read(reads),
        }
    }

    /// Returns the client that holds the write lock, dead or alive.  [XSH pthread_rwlock_wrlock]
    pub fn writer(&self) -> Option<ClientId>
        ensures { result ≡ self.now.writer }
    {
        self.writer
    }

    /// Returns the rows of the readers: the number of each client, with its read locks. A row may
    /// have none.  [XSH pthread_rwlock_rdlock]
    pub fn readers(&self) -> &[(u64, u8)]
        ensures { result.now ≡ self.now.rows }
    {
        self.reads.as_slice()
    }

    fn is_writer(&self, client: ClientId) -> bool
        ensures { result ≡ (view_for self.now client).writes }
    {
        self.writer == Some(client)
    }

    pub(crate) fn reads_of(&self, client: ClientId) -> u8
        ensures { result ≡ reads_of self.now client }
    {
        self.reads.get(client.0).unwrap_or(0)
    }

    fn is_read(&self) -> bool
        ensures { result ≡ has_readers self.now }
    {
        // The contract of `len` says that the rows are in order.
        let _rows = self.reads.len();
        self.readers > 0
    }

    /// Returns whether nobody, dead or alive, holds the lock.  [XSH pthread_rwlock_wrlock]
    pub fn is_free(&self) -> bool
        ensures { result ≡ nobody_holds self.now }
    {
        self.writer.is_none() && !self.is_read()
    }

    /// Returns the verdict of a call for a read lock, given whether a writer of the caller's
    /// priority or a higher one waits.  [XSH pthread_rwlock_rdlock]
    pub fn verdict_read_blocked(&self, caller: ClientId, blocked: bool, how: How) -> Verdict
        ensures { result ≡ read_verdict (view_for self.now caller) blocked how }
    {
        let reads = self.reads_of(caller);
        let writes = self.is_writer(caller);
        match how {
            How::Try if writes => Verdict::Reply(Outcome::Ebusy),
            _ if writes => Verdict::Reply(Outcome::Edeadlk),
            _ if reads >= MAX_READ_LOCKS => Verdict::Reply(Outcome::Eagain),
            _ if reads > 0 => Verdict::Stands,
            _ if self.writer.is_none() && !blocked => Verdict::Stands,
            How::Try => Verdict::Reply(Outcome::Ebusy),
            How::Timed(deadline) if deadline.is_bad() => Verdict::Reply(Outcome::Einval),
            _ => Verdict::Stands,
        }
    }

    /// Returns the verdict of the client's `wrlock`, `trywrlock` or `timedwrlock`. Doesn't check
    /// whether a deadline is due.  [XSH pthread_rwlock_wrlock, pthread_rwlock_timedwrlock]
    pub fn verdict_write(&self, caller: ClientId, how: How) -> Verdict
        ensures { result ≡ write_verdict (view_for self.now caller) how }
    {
        let holds = self.holds(caller);
        match how {
            How::Try if holds => Verdict::Reply(Outcome::Ebusy),
            _ if holds => Verdict::Reply(Outcome::Edeadlk),
            _ if self.is_free() => Verdict::Stands,
            How::Try => Verdict::Reply(Outcome::Ebusy),
            How::Timed(deadline) if deadline.is_bad() => Verdict::Reply(Outcome::Einval),
            _ => Verdict::Stands,
        }
    }

    /// Returns the verdict of the client's `rwunlock`. EPERM is profile.
    /// [XSH pthread_rwlock_unlock]
    pub fn verdict_unlock(&self, caller: ClientId) -> Verdict
        ensures { result ≡ rwunlock_verdict (view_for self.now caller) }
    {
        if self.holds(caller) {
            Verdict::Reply(Outcome::Done)
        } else {
            Verdict::Reply(Outcome::Eperm)
        }
    }

    /// Returns whether the client holds the lock in either way.  [XSH pthread_rwlock_unlock]
    pub fn holds(&self, client: ClientId) -> bool
        ensures { result ≡ has_lock (view_for self.now client) }
    {
        self.held_by(client) != Held::Nothing
    }

    /// Gives the client one more read lock. No writer may hold the lock, and the client must have a
    /// row with fewer than 255 read locks.  [XSH pthread_rwlock_rdlock]
    pub fn acquire_read(&mut self, client: ClientId)
        requires { IsTrue (can_acquire_read self.old client) }
        ensures change { self.new ≡ with_reads self.old client (reads_of self.old client + 1) }
        ensures row { ChangesRow self.old self.new client (Some (reads_of self.old client + 1)) }
    {
        // The contract of `len` says that one more reader can be counted.
        let _rows = self.reads.len();
        if self.reads.add_read(client.0) == 0 {
            self.readers += 1;
        }
    }

    /// Gives the client the write lock. Nobody may hold the lock.  [XSH pthread_rwlock_wrlock]
    pub fn acquire_write(&mut self, client: ClientId)
        requires { IsTrue (nobody_holds self.old) }
        ensures { self.new ≡ record self.old { writer = Some client } }
    {
        self.writer = Some(client);
    }

    /// Takes back the client's write lock, or one of its read locks.  [XSH pthread_rwlock_unlock]
    pub fn release(&mut self, client: ClientId)
        requires { IsTrue (has_lock (view_for self.old client)) }
        ensures change { self.new ≡ rwlock_after_release self.old client }
        ensures row { is_some_number self.old.writer client ≡ false
            → ChangesRow self.old self.new client (Some (reads_of self.old client - 1)) }
    {
        if self.is_writer(client) {
            self.writer = None;
        } else if self.reads.take_read(client.0) == 1 {
            self.readers -= 1;
        }
    }
}
