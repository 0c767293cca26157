//! Read-write locks: verdicts, reading, writing, and whether a living client holds a lock.

ghost use Rattle.std.specs.Prelude.{IfErr, IfSome, None, OnErr, OnOk, Some, ◌<◌, ◌≡◌, option_map};
ghost use Rattle.pt_model.specs.Objects.{find_object, kind_of, object_count};
ghost use Rattle.pt_model.specs.Rwlocks.{has_living_holder};
ghost use Rattle.pt_model.specs.Rwlocks.{rwlock_view as spec_rwlock_view};
ghost use Rattle.pt_state.specs.Reads.{AreTables};
ghost use Rattle.pt_types.specs.declared.outcome.Outcome.TheVariants as outcomes;
ghost use Rattle.pt_types.specs.Operations.{Acquires, Rwunlocks, operation};
ghost use Rattle.pt_types.specs.declared.operations.ObjectClass.TheVariants.{Rwlock as RwlockClass};
ghost use Rattle.pt_types.specs.declared.operations.LockKind.TheVariants.{WriteLock};
ghost use Rattle.pt_model.specs.declared.entry.Entry.TheVariants as entry;
ghost use Rattle.pt_state.specs.Adds.{Adds, HasRoomFor, AddsNothing, history_of};
ghost use Rattle.pt_model.specs.Searches.{In};
ghost use Rattle.pt_model.specs.declared.waiting_call.Role.TheVariants.{ForRead, ForWrite};
ghost use Rattle.pt_model.specs.Grants.{grant_outcome as grant_outcome_in};
ghost use Rattle.pt_records.specs.Callers.{opens_of};
ghost use Rattle.pt_state.specs.Serving.{call_of_open};
ghost use Rattle.pt_table.specs.ObjectRows.{object_value};
ghost use Rattle.std.specs.Option.{option_copied};
ghost use Rattle.pt_records.specs.LocksInRows.{rwlock_in};
ghost use Rattle.pt_records.specs.Objects.{IsRwlock};
ghost use Rattle.pt_types.specs.RwlockTable.{read_verdict as read_table};
ghost use Rattle.pt_model.specs.Verdicts.{operation_verdict as spec_verdict};
ghost use Rattle.pt_state.specs.NewWaitingCalls.{IsNewWaitingCall, IsNearlyWaiting};

use crate::state::State;
use pt_records::rwlock::{acquire_read, acquire_write, any_holds, make_row, release_lock};
use pt_records::{Object, Open};
use pt_rwlock::Holders;
use pt_types::{Call, ClientId, How, Name, ObjectId, ObjectKind, Outcome, Refusal, Verdict};
use std::alloc::Allocator;

impl<A: Allocator + Copy> State<A> {
    /// Returns whether a living client holds the lock.  [XSH pthread_rwlock_destroy]
    pub fn has_living_holder(&self, r: ObjectId) -> bool
        requires tables { AreTables self.now }
        requires lock { kind_of (history_of self.now) r ≡ Some ObjectKind.Rwlock }
        ensures { result ≡ has_living_holder (history_of self.now) r }
    {
        match self.objects.at(r.0) {
            Some(Object::Rwlock(lock)) => any_holds(&self.clients, lock),
            _ => false,
        }
    }

    /// Pushes a call by which a holder of a read-write lock gives back the write lock, or one read
    /// lock.  [XSH pthread_rwlock_unlock]
    pub fn push_rwunlock(&mut self, c: ClientId, call: &Call, n: &Name, object: Option<ObjectId>)
        requires has_room { HasRoomFor self.old (entry.Call c call.now (Some outcomes.Done)) }
        requires operation { operation call.now ≡ Rwunlocks n.now }
        requires found { object ≡ find_object (history_of self.old) n.now RwlockClass }
        ensures { Adds self.old (entry.Call c call.now (Some outcomes.Done)) self.new }
    {
        let r = object.unwrap();
        release_lock(&mut self.objects, r, c);
        self.finish(c, call, Outcome::Done);
    }

    /// Pushes the Grant of a call for a read lock.  [XSH pthread_rwlock_rdlock]
    pub(crate) fn push_grant_read(&mut self, found: &Open)
        requires has_room { HasRoomFor self.old (entry.Grant found.now.call.place
            (grant_outcome_in (history_of self.old) (call_of_open found.now))) }
        requires is_open { In found.now (opens_of self.old.clients) }
        requires role { (call_of_open found.now).role ≡ ForRead }
        ensures { Adds self.old (entry.Grant found.now.call.place
            (grant_outcome_in (history_of self.old) (call_of_open found.now))) self.new }
    {
        let call = found.call;
        acquire_read(&mut self.objects, call.object, call.client);
        self.grant(found, Outcome::Done);
    }

    /// Pushes the Grant of a call for a write lock.  [XSH pthread_rwlock_wrlock]
    pub(crate) fn push_grant_write(&mut self, found: &Open)
        requires has_room { HasRoomFor self.old (entry.Grant found.now.call.place
            (grant_outcome_in (history_of self.old) (call_of_open found.now))) }
        requires is_open { In found.now (opens_of self.old.clients) }
        requires role { (call_of_open found.now).role ≡ ForWrite }
        ensures { Adds self.old (entry.Grant found.now.call.place
            (grant_outcome_in (history_of self.old) (call_of_open found.now))) self.new }
    {
        let call = found.call;
        acquire_write(&mut self.objects, call.object, call.client);
        self.grant(found, Outcome::Done);
    }

    /// Returns the read-write lock with this number, if the object is a read-write lock.
    pub fn rwlock_at(&self, r: ObjectId) -> Option<&Holders<A>>
        ensures { option_copied result ≡ rwlock_in (object_value self.now.objects r) }
    {
        match self.objects.at(r.0) {
            Some(Object::Rwlock(lock)) => Some(lock),
            _ => None,
        }
    }

    /// Returns the read-write lock that a name refers to, with its number, if there is one.
    pub fn rwlock_found(
        &self,
        n: &Name,
        object: Option<ObjectId>,
    ) -> Option<(ObjectId, &Holders<A>)>
        requires tables { AreTables self.now }
        requires found { object ≡ find_object (history_of self.now) n.now RwlockClass }
        ensures number { option_map (λ found. found.0) result
            ≡ find_object (history_of self.now) n.now RwlockClass }
        ensures lock { IfSome result (λ found.
            IsRwlock (history_of self.now) found.0 found.1.now) }
    {
        let r = object?;
        match self.rwlock_at(r) {
            Some(lock) => Some((r, lock)),
            None => None,
        }
    }

    /// Returns the verdict of a client's call for a read lock. `blocked` says whether a waiting
    /// writer goes before it.  [XSH pthread_rwlock_rdlock]
    #[inline(always)]
    pub fn read_verdict(&self, c: ClientId, r: ObjectId, blocked: bool, how: &How) -> Verdict
        requires tables { AreTables self.now }
        requires lock { kind_of (history_of self.now) r ≡ Some ObjectKind.Rwlock }
        ensures { result ≡ read_table (spec_rwlock_view (history_of self.now) r c) blocked how.now }
    {
        let lock = self.rwlock_at(r).unwrap();
        lock.verdict_read_blocked(c, blocked, *how)
    }

    /// Returns the verdict of a client's call for a write lock.  [XSH pthread_rwlock_wrlock]
    pub fn write_verdict(
        &self,
        c: ClientId,
        n: &Name,
        how: &How,
        object: Option<ObjectId>,
    ) -> Verdict
        requires tables { AreTables self.now }
        requires found { object ≡ find_object (history_of self.now) n.now RwlockClass }
        ensures { result ≡ spec_verdict (history_of self.now) c (Acquires n.now WriteLock how.now) }
    {
        match self.rwlock_found(n, object) {
            Some((_, r)) => r.verdict_write(c, *how),
            None => Verdict::Reply(Outcome::Einval),
        }
    }

    /// Returns the verdict of a client's call to give back a read-write lock.
    /// [XSH pthread_rwlock_unlock]
    pub fn rwunlocks_verdict(&self, c: ClientId, n: &Name, object: Option<ObjectId>) -> Verdict
        requires tables { AreTables self.now }
        requires found { object ≡ find_object (history_of self.now) n.now RwlockClass }
        ensures { result ≡ spec_verdict (history_of self.now) c (Rwunlocks n.now) }
    {
        match self.rwlock_found(n, object) {
            Some((_, r)) => r.verdict_unlock(c),
            None => Verdict::Reply(Outcome::Einval),
        }
    }

    // Makes sure that the client has a row in the lock, as its call for a read lock begins to wait.
    // Returns ENOMEM if there is no memory for a new one.  [XSH pthread_rwlock_rdlock]
    #[inline(always)]
    pub(crate) fn begin_reading(
        &mut self,
        c: ClientId,
        call: &Call,
        open: &Open,
    ) -> Result<(), Refusal>
        requires has_room { HasRoomFor self.old (entry.Call c call.now None) }
        requires new_waiting { IsNewWaitingCall (history_of self.old) c call.now «open».now }
        requires role { «open».now.call.role ≡ ForRead }
        ensures ok { OnOk result (IsNearlyWaiting self.new c call.now «open».now) }
        ensures unchanged { OnErr result (AddsNothing self.old self.new) }
        ensures rest { self.new ≡ record self.old { objects = self.new.objects } }
        ensures err { IfErr result (λ r. r ≡ Refusal.Enomem) }
    {
        make_row(&mut self.objects, open.call.object, c)
    }
}
