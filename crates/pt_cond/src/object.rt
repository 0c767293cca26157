ghost use Rattle.std.specs.Prelude.{◌≡◌, Some, None, false};
ghost use Rattle.pt_types.specs.CondTable.{wait_verdict, is_bound_elsewhere};
ghost use Rattle.pt_waitq.specs.Queues.{head_of};

use pt_types::{Deadline, ObjectId, Outcome, Verdict};
use pt_waitq::{WaitList, Waiter};
use std::marker::Model;

// bound to     a wait with that mutex    with another    the last call leaves
// nothing      binds it                  binds it        -
// a mutex      waits there too           EINVAL          binds nothing

/// A condition variable: the mutex with which calls wait at it.  [XSH pthread_cond_wait]
#[derive(Drop)]
pub struct CondObj {
    bound: Option<ObjectId>,
}

impl Model for CondObj {
    ghost use Rattle.pt_types.specs.CondTable.{CondView};

    ghost Value = { CondView };

    ghost view = { λ q. record { bound = q.bound } };
}

impl CondObj {
    /// Creates a condition at which nobody waits.  [XSH pthread_cond_init]
    pub fn new() -> CondObj
        ensures { result ≡ record { bound = None } }
    {
        CondObj { bound: None }
    }

    /// Returns the verdict of a wait with this mutex. `owns` is whether its caller owns the mutex,
    /// and a `timedwait` has a deadline. EINVAL for another mutex is profile, and so is EPERM if
    /// the standard leaves it open.  [XSH pthread_cond_timedwait]
    ///
    /// Both kinds of EINVAL come before EPERM. Doesn't check whether the deadline is due.
    pub fn verdict_wait(&self, mutex: ObjectId, owns: bool, deadline: Option<Deadline>) -> Verdict
        ensures { result ≡ wait_verdict self.now mutex owns deadline }
    {
        if deadline.is_some_and(|deadline| deadline.is_bad()) {
            return Verdict::Reply(Outcome::Einval);
        }
        if self.is_bound_elsewhere(mutex) {
            return Verdict::Reply(Outcome::Einval);
        }
        if !owns {
            return Verdict::Reply(Outcome::Eperm);
        }
        Verdict::Stands
    }

    // Returns whether calls wait at the condition with another mutex.  [XSH pthread_cond_wait]
    fn is_bound_elsewhere(&self, mutex: ObjectId) -> bool
        ensures { result ≡ is_bound_elsewhere self.now.bound mutex }
    {
        self.bound.is_some_and(|bound| bound != mutex)
    }

    /// Binds the condition to the mutex with which a call begins to wait there.
    /// [XSH pthread_cond_wait]
    pub fn bind(&mut self, mutex: ObjectId)
        requires { is_bound_elsewhere self.old.bound mutex ≡ false }
        ensures { self.new ≡ record { bound = Some mutex } }
    {
        self.bound = Some(mutex);
    }

    /// Unbinds the condition, after the last call that waited there has left.
    /// [XSH pthread_cond_wait]
    pub fn unbind(&mut self)
        ensures { self.new ≡ record { bound = None } }
    {
        self.bound = None;
    }

    /// Returns the mutex with which calls wait at the condition, if any do.
    /// [XSH pthread_cond_wait]
    pub fn bound(&self) -> Option<ObjectId>
        ensures { result ≡ self.now.bound }
    {
        self.bound
    }

    /// Returns the call that a signal wakes: the first of the condition's queue, if calls wait
    /// there.  [XSH pthread_cond_signal, 2.8.4]
    pub fn least<W: WaitList>(&self, list: &W, queue: ObjectId) -> Option<Waiter>
        ensures { result ≡ head_of ((W.seen list.now).queue queue) }
    {
        list.first(queue)
    }
}
