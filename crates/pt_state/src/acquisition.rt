//! What a granted call for a lock gets, whether it is granted as it comes, along with its own
//! entry, or after it has waited.

ghost use Rattle.std.specs.Prelude.{IfErr, IsSome, IsTrue, None, OnErr, OnOk, Option, Some, ℕ};
ghost use Rattle.std.specs.Prelude.{◌&&◌, ◌-◌, ◌<◌, ◌≡◌, false, is_none, length, true};
ghost use Rattle.pt_model.specs.Found.{is_some_and};
ghost use Rattle.pt_model.specs.Mutexes.{owner};
ghost use Rattle.pt_model.specs.Objects.{is_robust, kind_of};
ghost use Rattle.pt_types.specs.MutexTable.{is_acquired as is_acquired_it};
ghost use Rattle.pt_types.specs.declared.outcome.Outcome.TheVariants as outcomes;
ghost use Rattle.pt_mutex.specs.MutexState.{MutexState, mutex_after_acquire, can_acquire};
ghost use Rattle.pt_table.specs.ClientRows.{has_client};
ghost use Rattle.pt_table.specs.ObjectRows.{object_value};
ghost use Rattle.pt_model.specs.declared.entry.Entry.TheVariants as entry;
ghost use Rattle.pt_model.specs.declared.waiting_call.Role.TheVariants.{
  ForMutex,
  ForRead,
  ForWrite,
};
ghost use Rattle.pt_records.specs.Callers.{HasDistinctNumbers};
ghost use Rattle.pt_records.specs.Chained.{AreChained, is_robust_free, rows_without_owned};
ghost use Rattle.pt_records.specs.LocksInRows.{mutex_in};
ghost use Rattle.pt_records.specs.Writes.{WritesObject};
ghost use Rattle.pt_records.specs.declared.clients.Open.{Open};
ghost use Rattle.pt_records.specs.declared.objects.Object.TheVariants.{Mutex};
ghost use Rattle.pt_state.specs.Adds.{HasRoomFor, AddsNothing, history_of};
ghost use Rattle.pt_state.specs.Granting.{mutex_grant_outcome};
ghost use Rattle.pt_state.specs.Acquisitions.{AddsCallAndGrant, IsGrantedCall, NotesCallAndGrant};
ghost use Rattle.pt_state.specs.Reads.{AreTables};

use crate::state::State;
use pt_model::waiting_call::{Move, is_expired};
use pt_records::Answered;
use pt_records::answers::tell;
use pt_records::clients::note_call;
use pt_records::mutex::{acquire, acquire_plain};
use pt_records::rwlock::{acquire_read, acquire_write, make_row};
use pt_types::tables::lock_outcome;
use pt_types::views::is_acquired;
use pt_types::{Call, ClientId, Consistency, ObjectId, Outcome, Refusal};
use std::alloc::Allocator;

/// What a granted call for a mutex gets.
#[derive(Clone, Copy)]
pub struct Acquisition {
    /// Whether the mutex was robust and had no owner.
    pub robust: bool,
    /// The answer to the call.
    pub outcome: Outcome,
}

impl<A: Allocator + Copy> State<A> {
    // Returns what a call for a mutex, with this move, gets if it is granted now.
    // [XSH pthread_mutex_lock]
    #[inline(always)]
    pub(crate) fn acquisition_at(&self, m: ObjectId, moved: Option<Move>) -> Acquisition
        requires tables { AreTables self.now }
        ensures row { result.robust ≡ is_some_and is_robust_free (object_value self.now.objects m) }
        ensures robust { let h = history_of self.now in
            result.robust ≡ is_robust (kind_of h m) && is_none (owner h m) }
        ensures outcome { result.outcome ≡ mutex_grant_outcome self.now.objects m moved }
    {
        match self.mutex_at(m) {
            Some(mutex) => Acquisition {
                robust: mutex.is_robust() && mutex.owner().is_none(),
                outcome: lock_outcome(mutex.consistency(), is_expired(moved)),
            },
            None => Acquisition {
                robust: false,
                outcome: lock_outcome(Consistency::Consistent, is_expired(moved)),
            },
        }
    }

    // Gives the client the mutex, if its call is answered with an outcome that acquires it.
    // [XSH pthread_mutex_lock]
    #[inline(always)]
    pub(crate) fn take(&mut self, m: ObjectId, c: ClientId, acquisition: Acquisition)
        requires exists { IsSome (mutex_in (object_value self.old.objects m)) }
        requires allowed { is_acquired_it acquisition.outcome ≡ true → (x : MutexState)
            → object_value self.old.objects m ≡ Some (Mutex x) → IsTrue (can_acquire x.view c) }
        requires robust { acquisition.robust ≡ is_some_and is_robust_free
            (object_value self.old.objects m) }
        requires client { has_client self.old.clients c ≡ true }
        requires chained { (orphans : Option ℕ)
            × AreChained self.old.clients self.old.objects orphans }
        ensures rest { self.new ≡ record self.old {
          clients = self.new.clients;
          objects = self.new.objects;
        } }
        ensures taken { is_acquired_it acquisition.outcome ≡ true → (x : MutexState)
            → object_value self.old.objects m ≡ Some (Mutex x)
            → WritesObject self.old.objects self.new.objects m
            (Mutex (record x { view = mutex_after_acquire x.view c })) }
        ensures not_acquired { is_acquired_it acquisition.outcome ≡ false
            → self.new.objects ≡ self.old.objects }
        ensures rows { HasDistinctNumbers self.old.clients
            → rows_without_owned self.new.clients ≡ rows_without_owned self.old.clients }
        ensures chained { (orphans : Option ℕ)
            → AreChained self.old.clients self.old.objects orphans
            → AreChained self.new.clients self.new.objects orphans }
    {
        if !is_acquired(acquisition.outcome) {
            return;
        }
        if acquisition.robust {
            acquire(&mut self.clients, &mut self.objects, m, c);
        } else {
            acquire_plain(&mut self.objects, m, c);
        }
    }

    // Pushes the entry of a call that is granted as it comes, and its Grant. The call is never
    // open, so its client's row is written only once.
    #[inline(always)]
    fn note_call_and_grant(&mut self, c: ClientId, call: &Call, outcome: Outcome)
        requires exists { has_client self.old.clients c ≡ true }
        requires spare { length self.old.answers.items < self.old.answers.capacity }
        requires room { 0 < self.old.stored.room - 1 }
        ensures { NotesCallAndGrant self.old c call.now outcome self.new }
    {
        let place = self.stored.len();
        note_call(&mut self.clients, c, place, outcome);
        self.stored.push_named(c, call, None);
        let answered = Answered {
            at: self.stored.len(),
            client: c,
            place,
            outcome,
        };
        tell(&mut self.answers, answered);
        self.stored.push_grant(place, outcome);
    }

    /// Pushes the entry of a call for a mutex that is granted as it comes, and its Grant. Returns
    /// what the call gets.  [XSH pthread_mutex_lock]
    #[inline(always)]
    pub fn push_lock_and_grant(&mut self, c: ClientId, call: &Call, m: ObjectId) -> Acquisition
        requires has_room { HasRoomFor self.old (entry.Call c call.now None) }
        requires granted { (o : Open) × IsGrantedCall self.old c call.now ForMutex m o }
        ensures adds { (o : Open) → IsGrantedCall self.old c call.now ForMutex m o
            → AddsCallAndGrant self.old c call.now o result.outcome self.new }
        ensures robust { let h = history_of self.old in
            result.robust ≡ is_robust (kind_of h m) && is_none (owner h m) }
    {
        let acquisition = self.acquisition_at(m, None);
        self.take(m, c, acquisition);
        self.note_call_and_grant(c, call, acquisition.outcome);
        acquisition
    }

    /// Pushes the entry of a call for a read lock that is granted as it comes, and its Grant.
    /// Returns ENOMEM if there is no memory for its client's row in the lock; then nothing is
    /// pushed.
    /// [XSH pthread_rwlock_rdlock]
    pub fn push_read_and_grant(
        &mut self,
        c: ClientId,
        call: &Call,
        r: ObjectId,
    ) -> Result<(), Refusal>
        requires has_room { HasRoomFor self.old (entry.Call c call.now None) }
        requires granted { (o : Open) × IsGrantedCall self.old c call.now ForRead r o }
        ensures ok { OnOk result ((o : Open) → IsGrantedCall self.old c call.now ForRead r o
            → AddsCallAndGrant self.old c call.now o outcomes.Done self.new) }
        ensures unchanged { OnErr result (AddsNothing self.old self.new) }
        ensures err { IfErr result (λ refusal. refusal ≡ Refusal.Enomem) }
    {
        make_row(&mut self.objects, r, c)?;
        acquire_read(&mut self.objects, r, c);
        self.note_call_and_grant(c, call, Outcome::Done);
        Ok(())
    }

    /// Pushes the entry of a call for a write lock that is granted as it comes, and its Grant.
    /// [XSH pthread_rwlock_wrlock]
    pub fn push_write_and_grant(&mut self, c: ClientId, call: &Call, r: ObjectId)
        requires has_room { HasRoomFor self.old (entry.Call c call.now None) }
        requires granted { (o : Open) × IsGrantedCall self.old c call.now ForWrite r o }
        ensures { (o : Open) → IsGrantedCall self.old c call.now ForWrite r o
            → AddsCallAndGrant self.old c call.now o outcomes.Done self.new }
    {
        acquire_write(&mut self.objects, r, c);
        self.note_call_and_grant(c, call, Outcome::Done);
    }
}
