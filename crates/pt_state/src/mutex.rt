//! Mutexes: verdicts, locking, unlocking, and the robust mutexes of dead owners.

ghost use Rattle.std.specs.Prelude.{IfSome, Some, ◌&&◌, ◌||◌, ◌≡◌, is_none, option_map};
ghost use Rattle.std.specs.List.{list_any};
ghost use Rattle.pt_model.specs.Histories.{place};
ghost use Rattle.pt_model.specs.Answers.{open_calls};
ghost use Rattle.pt_model.specs.Verdicts.{is_alive_if as is_alive_if_in, verdict_on};
ghost use Rattle.pt_model.specs.Verdicts.{operation_verdict as spec_verdict};
ghost use Rattle.pt_model.specs.Verdicts.{returns_to_mutex};
ghost use Rattle.pt_state.specs.Reads.{AreTables};
ghost use Rattle.pt_types.specs.declared.outcome.Outcome.TheVariants as outcomes;
ghost use Rattle.pt_types.specs.Operations.{Acquires, Restores, Unlocks, class_of, operation};
ghost use Rattle.pt_types.specs.declared.operations.ObjectClass.TheVariants.{Mutex as MutexClass};
ghost use Rattle.pt_types.specs.declared.operations.LockKind.TheVariants.{MutexLock};
ghost use Rattle.pt_model.specs.declared.entry.Entry.TheVariants as entry;
ghost use Rattle.pt_state.specs.Adds.{Adds, HasRoomFor, history_of};
ghost use Rattle.pt_table.specs.ObjectRows.{object_value};
ghost use Rattle.pt_model.specs.Searches.{In, first_below};
ghost use Rattle.pt_model.specs.WaitingCall.{final_mutex};
ghost use Rattle.pt_model.specs.Grants.{grant_outcome as grant_outcome_in};
ghost use Rattle.pt_records.specs.Callers.{opens_of};
ghost use Rattle.pt_state.specs.Serving.{call_of_open};
ghost use Rattle.pt_model.specs.Objects.{find_object, is_robust, kind_of};
ghost use Rattle.std.specs.Option.{option_copied};
ghost use Rattle.pt_records.specs.LocksInRows.{mutex_in};
ghost use Rattle.pt_model.specs.Mutexes.{mutex_view, owner as owner_in};
ghost use Rattle.pt_types.specs.MutexTable.{lock_verdict as lock_table};
ghost use Rattle.pt_types.specs.ObjectTable.{destroy_verdict as destroy_table};
ghost use Rattle.pt_model.specs.Forced.{is_orphan as is_orphan_in};

use crate::acquisition::Acquisition;
use crate::state::State;
use pt_history::ForcedEntry;
use pt_mutex::MutexObj;
use pt_records::cond::any_returns;
use pt_records::mutex::{acquire, lock_verdict, release, restore, yield_dead};
use pt_records::{Object, Open};
use pt_types::{Call, ClientId, How, Name, ObjectId, Outcome, Verdict};
use std::alloc::Allocator;

impl<A: Allocator + Copy> State<A> {
    /// Returns whether a wait that has not been moved will return to the mutex.
    /// [XSH pthread_mutex_destroy]
    pub fn returns_to_mutex(&self, m: ObjectId) -> bool
        requires { AreTables self.now }
        ensures { result
            ≡ list_any (returns_to_mutex (history_of self.now) m)
            (open_calls (history_of self.now)) }
    {
        any_returns(&self.clients, m)
    }

    /// Pushes a call by which the owner of a mutex locks it once more.  [XSH pthread_mutex_lock]
    pub fn push_relock(
        &mut self,
        c: ClientId,
        call: &Call,
        n: &Name,
        how: &How,
        object: Option<ObjectId>,
    )
        requires has_room { HasRoomFor self.old (entry.Call c call.now (Some outcomes.Done)) }
        requires operation { operation call.now ≡ Acquires n.now MutexLock how.now }
        requires found { object ≡ find_object (history_of self.old) n.now MutexClass }
        ensures { Adds self.old (entry.Call c call.now (Some outcomes.Done)) self.new }
    {
        let m = object.unwrap();
        acquire(&mut self.clients, &mut self.objects, m, c);
        self.finish(c, call, Outcome::Done);
    }

    /// Pushes a call by which the owner of a mutex gives back one lock.  [XSH pthread_mutex_unlock]
    #[inline(always)]
    pub fn push_unlock(&mut self, c: ClientId, call: &Call, n: &Name, object: Option<ObjectId>)
        requires has_room { HasRoomFor self.old (entry.Call c call.now (Some outcomes.Done)) }
        requires operation { operation call.now ≡ Unlocks n.now }
        requires found { object ≡ find_object (history_of self.old) n.now MutexClass }
        ensures { Adds self.old (entry.Call c call.now (Some outcomes.Done)) self.new }
    {
        let m = object.unwrap();
        release(&mut self.clients, &mut self.objects, m, c);
        self.finish(c, call, Outcome::Done);
    }

    /// Pushes a call by which the owner of a mutex makes it consistent.
    /// [XSH pthread_mutex_consistent]
    pub fn push_restored(&mut self, c: ClientId, call: &Call, n: &Name, object: Option<ObjectId>)
        requires has_room { HasRoomFor self.old (entry.Call c call.now (Some outcomes.Done)) }
        requires operation { operation call.now ≡ Restores n.now }
        requires found { object ≡ find_object (history_of self.old) n.now MutexClass }
        ensures { Adds self.old (entry.Call c call.now (Some outcomes.Done)) self.new }
    {
        let m = object.unwrap();
        restore(&mut self.objects, m);
        self.finish(c, call, Outcome::Done);
    }

    /// Pushes the Yield of a robust mutex, which is taken from its dead owner.
    /// [XSH pthread_mutex_lock, EOWNERDEAD]
    pub fn push_yield(&mut self, m: ObjectId)
        requires { HasRoomFor self.old (entry.Yield m) }
        ensures { Adds self.old (entry.Yield m) self.new }
    {
        self.orphans = yield_dead(&mut self.objects, m);
        self.stored.push_forced(ForcedEntry::Yield(m));
    }

    /// Pushes the Grant of a call for a mutex: it gets the mutex, or learns that the mutex is not
    /// recoverable. Returns what the call gets.  [XSH pthread_mutex_lock]
    pub fn push_grant_mutex(&mut self, found: &Open, m: ObjectId) -> Acquisition
        requires has_room { HasRoomFor self.old (entry.Grant found.now.call.place
            (grant_outcome_in (history_of self.old) (call_of_open found.now))) }
        requires is_open { In found.now (opens_of self.old.clients) }
        requires mutex { final_mutex (call_of_open found.now).role found.now.call.object ≡ Some m }
        ensures adds { Adds self.old (entry.Grant found.now.call.place
            (grant_outcome_in (history_of self.old) (call_of_open found.now))) self.new }
        ensures robust { let h = history_of self.old in
            result.robust ≡ is_robust (kind_of h m) && is_none (owner_in h m) }
        ensures outcome { result.outcome
            ≡ grant_outcome_in (history_of self.old) (call_of_open found.now) }
    {
        let acquisition = self.acquisition_at(m, found.moved);
        self.take(m, found.call.client, acquisition);
        self.grant(found, acquisition.outcome);
        acquisition
    }

    /// Returns the mutex with this number, if the object is a mutex.
    #[inline(always)]
    pub fn mutex_at(&self, m: ObjectId) -> Option<&MutexObj>
        ensures { option_copied result ≡ mutex_in (object_value self.now.objects m) }
    {
        match self.objects.at(m.0) {
            Some(Object::Mutex(mutex)) => Some(mutex),
            _ => None,
        }
    }

    /// Returns the mutex that a name refers to, with its number, if there is one.
    #[inline(always)]
    pub fn mutex_found(&self, n: &Name, object: Option<ObjectId>) -> Option<(ObjectId, &MutexObj)>
        requires tables { AreTables self.now }
        requires found { object ≡ find_object (history_of self.now) n.now MutexClass }
        ensures number { option_map (λ found. found.0) result
            ≡ find_object (history_of self.now) n.now MutexClass }
        ensures view { IfSome result (λ found. found.1.now.view
            ≡ mutex_view (history_of self.now) found.0) }
    {
        let m = object?;
        match self.mutex_at(m) {
            Some(mutex) => Some((m, mutex)),
            None => None,
        }
    }

    /// Returns the verdict of a client's call for a mutex.  [XSH pthread_mutex_lock]
    #[inline(always)]
    pub fn mutex_verdict(
        &self,
        c: ClientId,
        n: &Name,
        how: &How,
        object: Option<ObjectId>,
    ) -> Verdict
        requires tables { AreTables self.now }
        requires found { object ≡ find_object (history_of self.now) n.now MutexClass }
        ensures { result
            ≡ verdict_on (find_object (history_of self.now) n.now MutexClass)
            (λ m. lock_table (mutex_view (history_of self.now) m) c how.now) }
    {
        match self.mutex_found(n, object) {
            Some((_, m)) => lock_verdict(m, c, how),
            None => Verdict::Reply(Outcome::Einval),
        }
    }

    /// Returns the verdict of a call that destroys a mutex. `awaited` says whether a call waits for
    /// the mutex or will return to it.  [XSH pthread_mutex_destroy]
    pub fn mutex_end_verdict(&self, m: ObjectId, awaited: bool) -> Verdict
        requires tables { AreTables self.now }
        requires class { option_map class_of (kind_of (history_of self.now) m) ≡ Some MutexClass }
        ensures { let owner_lives = is_alive_if_in (history_of self.now) (owner_in
            (history_of self.now) m) in
            result ≡ destroy_table (owner_lives || awaited) }
    {
        let mutex = self.mutex_at(m).unwrap();
        let owner_lives = self.is_alive_if(mutex.owner());
        mutex.verdict_destroy(owner_lives, awaited)
    }

    /// Returns the verdict of a client's call to unlock a mutex.  [XSH pthread_mutex_unlock]
    #[inline(always)]
    pub fn unlocks_verdict(&self, c: ClientId, n: &Name, object: Option<ObjectId>) -> Verdict
        requires tables { AreTables self.now }
        requires found { object ≡ find_object (history_of self.now) n.now MutexClass }
        ensures { result ≡ spec_verdict (history_of self.now) c (Unlocks n.now) }
    {
        match self.mutex_found(n, object) {
            Some((_, m)) => m.verdict_unlock(c),
            None => Verdict::Reply(Outcome::Einval),
        }
    }

    /// Returns the verdict of a client's call to make a mutex consistent.
    /// [XSH pthread_mutex_consistent]
    pub fn restores_verdict(&self, c: ClientId, n: &Name, object: Option<ObjectId>) -> Verdict
        requires tables { AreTables self.now }
        requires found { object ≡ find_object (history_of self.now) n.now MutexClass }
        ensures { result ≡ spec_verdict (history_of self.now) c (Restores n.now) }
    {
        match self.mutex_found(n, object) {
            Some((_, m)) => m.verdict_consistent(c),
            None => Verdict::Reply(Outcome::Einval),
        }
    }

    /// Returns the robust mutex that must be taken from its dead owner first, if there is one.
    /// [XSH pthread_mutex_lock, EOWNERDEAD; the lowest first is profile]
    pub fn first_orphan(&self) -> Option<ObjectId>
        requires { AreTables self.now }
        ensures { result
            ≡ first_below (place (history_of self.now))
            (is_orphan_in (history_of self.now)) }
    {
        match self.orphans {
            Some(m) => Some(ObjectId(m)),
            None => None,
        }
    }
}
