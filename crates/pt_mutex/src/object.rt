ghost use Rattle.std.specs.Prelude.{◌≡◌, ◌<◌, ◌+◌, ◌-◌, ◌↔◌, IsTrue, IsSome, IsNone};
ghost use Rattle.pt_types.specs.ObjectTable.{destroy_verdict};
ghost use Rattle.pt_types.specs.MutexTable.{owns, lock_verdict, unlock_verdict, consistent_verdict};

use pt_types::{ClientId, Consistency, Deadline, How, MAX_LOCKS, MutexKind, Outcome, Verdict};
use std::marker::Model;

// consistency      count falls to 0    owner dies        consistent
// Consistent       Consistent          Inconsistent      -
// Inconsistent     NotRecoverable      Inconsistent      Consistent
// NotRecoverable   -                   -                 -

/// A mutex: its kind, whether it is robust, its consistency, its owner with the number of locks
/// that it has, and the number of waits that are bound to the mutex.  [XSH 2.9.3]
///
/// A wait is bound to its mutex while it waits at its condition.
#[derive(Drop)]
pub struct MutexObj {
    owner: Option<ClientId>,
    bound_waits: u32,
    count: u8,
    kind: MutexKind,
    robust: bool,
    consistency: Consistency,
}

impl Model for MutexObj {
    ghost use Rattle.std.specs.Prelude.{◌≡◌, ◌<◌, ◌≤◌, IsSome, IsNone};
    ghost use Rattle.pt_mutex.specs.MutexState.{MutexState};

    ghost Value = { MutexState };

    ghost view = { λ m. record {
      view = record {
        kind = m.kind;
        robust = m.robust;
        consistency = m.consistency;
        owner = m.owner;
        count = m.count;
      };
      bound_waits = m.bound_waits;
    } };

    ghost invariant = { λ m.
        (IsNone m.owner → m.count ≡ 0)
        × (IsSome m.owner → 0 < m.count)
        × (m.count ≤ 255) };
}

impl MutexObj {
    ghost use Rattle.pt_mutex.specs.MutexState.{new_mutex, can_acquire, mutex_after_acquire};
    ghost use Rattle.pt_mutex.specs.MutexState.{mutex_after_release, mutex_after_yield};
    ghost use Rattle.pt_mutex.specs.MutexState.{mutex_after_consistent, mutex_without_owner};
    ghost use Rattle.pt_mutex.specs.MutexState.{is_mutex_busy};

    /// Creates a consistent mutex that nobody holds.  [XSH pthread_mutex_init]
    pub fn new(kind: MutexKind, robust: bool) -> MutexObj
        ensures { result ≡ new_mutex kind robust }
    {
        MutexObj {
            kind,
            robust,
            consistency: Consistency::Consistent,
            owner: None,
            count: 0,
            bound_waits: 0,
        }
    }

    /// Returns the verdict of the client's `lock`.  [XSH pthread_mutex_lock]
    pub fn verdict_lock(&self, caller: ClientId) -> Verdict
        ensures { result ≡ lock_verdict self.now.view caller How.Plain }
    {
        self.verdict(caller, &How::Plain)
    }

    /// Returns the verdict of the client's `trylock`.  [XSH pthread_mutex_trylock]
    pub fn verdict_try(&self, caller: ClientId) -> Verdict
        ensures { result ≡ lock_verdict self.now.view caller How.Try }
    {
        self.verdict(caller, &How::Try)
    }

    /// Returns the verdict of the client's `timedlock`. Doesn't check whether the deadline is due.
    /// [XSH pthread_mutex_timedlock]
    pub fn verdict_timed(&self, caller: ClientId, deadline: Deadline) -> Verdict
        ensures { result ≡ lock_verdict self.now.view caller (How.Timed deadline) }
    {
        self.verdict(caller, &How::Timed(deadline))
    }

    fn verdict(&self, caller: ClientId, how: &How) -> Verdict
        ensures { result ≡ lock_verdict self.now.view caller how.now }
    {
        if self.consistency == Consistency::NotRecoverable || self.owner.is_none() {
            return Verdict::Stands;
        }
        let owns = self.is_owned_by(caller);
        let relocks = owns && self.kind == MutexKind::Recursive;
        match how {
            _ if relocks && self.count < MAX_LOCKS => Verdict::Reply(Outcome::Done),
            _ if relocks => Verdict::Reply(Outcome::Eagain),
            How::Try => Verdict::Reply(Outcome::Ebusy),
            _ if owns && self.kind == MutexKind::Errorcheck => Verdict::Reply(Outcome::Edeadlk),
            How::Timed(deadline) if deadline.is_bad() => Verdict::Reply(Outcome::Einval),
            _ => Verdict::Stands,
        }
    }

    /// Returns the verdict of the client's `unlock`. A client that isn't the owner gets EPERM for
    /// every kind of mutex; that is profile if the standard leaves it open.
    /// [XSH pthread_mutex_unlock]
    pub fn verdict_unlock(&self, caller: ClientId) -> Verdict
        ensures { result ≡ unlock_verdict self.now.view caller }
    {
        if self.is_owned_by(caller) {
            Verdict::Reply(Outcome::Done)
        } else {
            Verdict::Reply(Outcome::Eperm)
        }
    }

    /// Returns the verdict of the client's `consistent`. EPERM is profile.
    /// [XSH pthread_mutex_consistent]
    pub fn verdict_consistent(&self, caller: ClientId) -> Verdict
        ensures { result ≡ consistent_verdict self.now.view caller }
    {
        if !self.robust || self.consistency != Consistency::Inconsistent {
            return Verdict::Reply(Outcome::Einval);
        }
        if !self.is_owned_by(caller) {
            return Verdict::Reply(Outcome::Eperm);
        }
        Verdict::Reply(Outcome::Done)
    }

    /// Returns the verdict of a `mutex-destroy`: EBUSY while a living client owns the mutex, a call
    /// waits at it, or a wait is bound to it. A mutex that a dead client owns may be destroyed. The
    /// answer EBUSY is profile.  [XSH pthread_mutex_destroy]
    ///
    /// `owner_lives` is whether the owner lives, if the mutex has one, and `awaited` is whether a
    /// call waits at the mutex.
    pub fn verdict_destroy(&self, owner_lives: bool, awaited: bool) -> Verdict
        ensures { result ≡ destroy_verdict (is_mutex_busy self.now owner_lives awaited) }
    {
        if self.owner.is_some() && owner_lives || awaited || 0 < self.bound_waits {
            return Verdict::Reply(Outcome::Ebusy);
        }
        Verdict::Reply(Outcome::Done)
    }

    /// Gives the client one more lock: by a grant, by a relock, or when its wait comes back. The
    /// mutex must have no owner, or be a RECURSIVE one that the client owns with fewer than 255
    /// locks.  [XSH pthread_mutex_lock, pthread_cond_wait]
    pub fn acquire(&mut self, client: ClientId)
        requires { IsTrue (can_acquire self.old.view client) }
        ensures { self.new ≡ record self.old { view = mutex_after_acquire self.old.view client } }
    {
        self.owner = Some(client);
        self.count += 1;
    }

    /// Takes back one lock of the owner. With the last one nobody owns the mutex, and an
    /// inconsistent mutex becomes not recoverable.
    /// [XSH pthread_mutex_unlock, pthread_mutex_consistent]
    pub fn release(&mut self, client: ClientId)
        requires { IsTrue (owns self.old.view client) }
        ensures { self.new ≡ record self.old { view = mutex_after_release self.old.view } }
    {
        prove!(self.owner == Some(client));
        if self.count > 1 {
            self.count -= 1;
            return;
        }
        self.free();
        if self.consistency == Consistency::Inconsistent {
            self.consistency = Consistency::NotRecoverable;
        }
    }

    fn free(&mut self)
        ensures { let view = self.old.view in
            self.new ≡ record self.old { view = mutex_without_owner view view.consistency } }
    {
        self.owner = None;
        self.count = 0;
    }

    /// Makes an inconsistent mutex consistent. A mutex that is not recoverable stays so.
    /// [XSH pthread_mutex_consistent]
    pub fn mark_consistent(&mut self)
        ensures { self.new ≡ record self.old { view = mutex_after_consistent self.old.view } }
    {
        if self.consistency == Consistency::Inconsistent {
            self.consistency = Consistency::Consistent;
        }
    }

    /// Takes the mutex from its dead owner and makes it inconsistent. A mutex that is not
    /// recoverable stays so.  [XSH pthread_mutex_lock, EOWNERDEAD]
    pub fn yield_dead(&mut self)
        ensures { self.new ≡ record self.old { view = mutex_after_yield self.old.view } }
    {
        self.free();
        if self.consistency == Consistency::Consistent {
            self.consistency = Consistency::Inconsistent;
        }
    }

    /// Binds a wait of the owner, which begins to wait at its condition.  [XSH pthread_cond_wait]
    pub fn bind(&mut self)
        requires owned { IsSome self.old.view.owner }
        requires room { self.old.bound_waits < u32.MAX }
        ensures { self.new ≡ record self.old { bound_waits = self.old.bound_waits + 1 } }
    {
        self.bound_waits += 1;
    }

    /// Unbinds a wait, which is moved to the mutex or is gone.  [XSH pthread_cond_wait]
    pub fn unbind(&mut self)
        requires { 0 < self.old.bound_waits }
        ensures { self.new ≡ record self.old { bound_waits = self.old.bound_waits - 1 } }
    {
        self.bound_waits -= 1;
    }

    /// Returns the kind of the mutex: what a relock by the owner does.
    /// [XSH pthread_mutexattr_settype]
    pub fn kind(&self) -> MutexKind
        ensures { result ≡ self.now.view.kind }
    {
        self.kind
    }

    /// Returns whether the next owner learns that the last one died.
    /// [XSH pthread_mutexattr_setrobust]
    pub fn is_robust(&self) -> bool
        ensures { result ≡ self.now.view.robust }
    {
        self.robust
    }

    /// Returns the consistency of the mutex: whether what it guards is in order.
    /// [XSH pthread_mutex_consistent]
    pub fn consistency(&self) -> Consistency
        ensures { result ≡ self.now.view.consistency }
    {
        self.consistency
    }

    /// Returns the client that owns the mutex, dead or alive.  [XSH pthread_mutex_lock]
    pub fn owner(&self) -> Option<ClientId>
        ensures { result ≡ self.now.view.owner }
    {
        self.owner
    }

    /// Returns whether the client is the owner.  [XSH pthread_mutex_lock]
    pub fn is_owned_by(&self, client: ClientId) -> bool
        ensures { result ≡ owns self.now.view client }
    {
        self.owner == Some(client)
    }

    /// Returns how many locks the owner has, which is 0 exactly if nobody owns the mutex.
    /// [XSH pthread_mutex_lock]
    pub fn count(&self) -> u8
        ensures value { result ≡ self.now.view.count }
        ensures none { IsNone self.now.view.owner ↔ (result ≡ 0) }
    {
        self.count
    }

    /// Returns the number of waits that released the mutex and still wait at a condition.
    /// [XSH pthread_cond_wait]
    pub fn bound_waits(&self) -> u32
        ensures { result ≡ self.now.bound_waits }
    {
        self.bound_waits
    }
}
