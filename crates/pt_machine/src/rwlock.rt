//! Read-write locks: the verdict of a call for a read lock.

ghost use Rattle.pt_model.specs.Objects.{find_object};
ghost use Rattle.pt_types.specs.declared.operations.ObjectClass.TheVariants.{Rwlock as RwlockClass};
ghost use Rattle.std.specs.Prelude.{Some, ◌≡◌, unwrap_or};
ghost use Rattle.pt_model.specs.Clients.{client_priority};
ghost use Rattle.pt_model.specs.Grants.{is_blocked};
ghost use Rattle.pt_state.specs.Adds.{history_of};
ghost use Rattle.pt_state.specs.Reads.{AreTables};
ghost use Rattle.pt_types.specs.Operations.{Acquires};
ghost use Rattle.pt_types.specs.declared.call.How.TheVariants.{Plain};
ghost use Rattle.pt_types.specs.RwlockTable.{read_verdict};
ghost use Rattle.pt_types.specs.declared.views.RwlockView.{RwlockView};
ghost use Rattle.pt_types.specs.declared.operations.LockKind.TheVariants.{ReadLock};
ghost use Rattle.pt_model.specs.Verdicts.{operation_verdict};

use crate::machine::Machine;
use pt_types::{ClientId, How, Name, ObjectId, Outcome, Verdict};
use pt_waitq::WaitList;
use std::alloc::Allocator;

impl<Q: WaitList, A: Allocator + Copy> Machine<Q, A> {
    /// Returns whether a writer of the client's priority or a higher one waits at the lock. A
    /// client that does not live has priority 0.  [XSH pthread_rwlock_rdlock]
    pub fn is_blocked(&self, r: ObjectId, c: ClientId) -> bool
        requires { AreTables self.now }
        ensures { result
            ≡ is_blocked (history_of self.now) r (unwrap_or (client_priority
            (history_of self.now) c) 0) }
    {
        match self.state.priority(c) {
            Some(priority) => self.queues.blocks_reader(r, priority),
            None => self.queues.first_writer(r).is_some(),
        }
    }

    // Returns whether such a writer keeps a call from its read lock. A plain call is never answered
    // at once because of that, so for it no writer is looked for, and the result is false.
    #[inline(always)]
    fn is_read_blocked(&self, r: ObjectId, c: ClientId, how: &How) -> bool
        requires { AreTables self.now }
        ensures { let blocked = is_blocked (history_of self.now) r
            (unwrap_or (client_priority (history_of self.now) c) 0) in
            (v : RwlockView) → read_verdict v result how.now ≡ read_verdict v blocked how.now }
    {
        match how {
            How::Plain => false,
            _ => self.is_blocked(r, c),
        }
    }

    // Returns the verdict of a client's call for a read lock.  [XSH pthread_rwlock_rdlock]
    #[inline(always)]
    fn verdict_to_read(&self, c: ClientId, n: &Name, how: &How, object: Option<ObjectId>) -> Verdict
        requires tables { AreTables self.now }
        requires found { object ≡ find_object (history_of self.now) n.now RwlockClass }
        ensures { result ≡ operation_verdict (history_of self.now) c
            (Acquires n.now ReadLock how.now) }
    {
        match object {
            Some(r) => {
                let blocked = self.is_read_blocked(r, c, how);
                self.state.read_verdict(c, r, blocked, how)
            }
            None => Verdict::Reply(Outcome::Einval),
        }
    }

    /// Returns the verdict of a client's call for a read lock. It is not inlined.
    /// [XSH pthread_rwlock_rdlock]
    #[inline(never)]
    pub(crate) fn read_verdict(
        &self,
        c: ClientId,
        n: &Name,
        how: &How,
        object: Option<ObjectId>,
    ) -> Verdict
        requires tables { AreTables self.now }
        requires found { object ≡ find_object (history_of self.now) n.now RwlockClass }
        ensures { result ≡ operation_verdict (history_of self.now) c
            (Acquires n.now ReadLock how.now) }
    {
        self.verdict_to_read(c, n, how, object)
    }

    /// Does what `read_verdict` does, for a plain call, which waits as long as it must.
    /// [XSH pthread_rwlock_rdlock]
    #[inline(never)]
    pub(crate) fn plain_read_verdict(
        &self,
        c: ClientId,
        n: &Name,
        object: Option<ObjectId>,
    ) -> Verdict
        requires tables { AreTables self.now }
        requires found { object ≡ find_object (history_of self.now) n.now RwlockClass }
        ensures { result ≡ operation_verdict (history_of self.now) c
            (Acquires n.now ReadLock Plain) }
    {
        self.verdict_to_read(c, n, &How::Plain, object)
    }
}
