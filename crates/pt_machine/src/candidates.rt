//! Which call is served at an object, found by looking at that object alone.

ghost use Rattle.std.specs.Prelude.{None, Some, ◌&&◌, ◌==◌, ◌≡◌, ◌≤◌, false, is_some, length};
ghost use Rattle.std.specs.Prelude.{option_map, true};
ghost use Rattle.pt_types.specs.MutexTable.{is_recursive};
ghost use Rattle.pt_types.specs.RwlockTable.{can_grant_read};
ghost use Rattle.pt_rwlock.specs.RwlockState.{view_for};
ghost use Rattle.pt_model.specs.Answers.{at_barrier, open_calls};
ghost use Rattle.pt_model.specs.Queries.{client_of_found};
ghost use Rattle.pt_model.specs.WaitingCall.{is_cond_wait};
ghost use Rattle.pt_next_grant.specs.Candidates.{candidate, latest_caller};
ghost use Rattle.pt_next_grant.specs.Candidates.{first_at, if_passes, is_read_lock};
ghost use Rattle.pt_next_grant.specs.Candidates.{mutex_candidate, open_call_if};
ghost use Rattle.pt_next_grant.specs.Candidates.{is_read_relock_at};
ghost use Rattle.pt_next_grant.specs.Candidates.{rwlock_candidate};
ghost use Rattle.pt_types.specs.declared.operations.ObjectClass.TheVariants.{
  Barrier as BarrierClass,
};
ghost use Rattle.pt_model.specs.Objects.{is_class, kind_of};
ghost use Rattle.pt_table.specs.ObjectRows.{object_value};
ghost use Rattle.pt_records.specs.declared.objects.Object.TheVariants as row;
ghost use Rattle.pt_records.specs.OpenRows.{object_of};
ghost use Rattle.pt_machine.specs.Services.{IsService};
ghost use Rattle.pt_machine.specs.declared.candidates.Service.TheVariants as service;
ghost use Rattle.pt_state.specs.Adds.{history_of};
ghost use Rattle.pt_state.specs.Reads.{AreTables};
ghost use Rattle.pt_state.specs.Serving.{call_of_open, move_of};

use crate::machine::Machine;
use pt_barrier::BarrierObj;
use pt_model::waiting_call::{Role, is_cond_wait};
use pt_mutex::MutexObj;
use pt_records::calls::{is_moved, wait_object};
use pt_records::mutex::can_grant_mutex;
use pt_records::rwlock::can_grant_read;
use pt_records::{Object, Open};
use pt_rwlock::Holders;
use pt_types::{ClientId, MutexKind, ObjectId};
use pt_waitq::WaitList;
use std::alloc::Allocator;

// Returns whether a mutex is RECURSIVE.
fn is_recursive(mutex: &MutexObj) -> bool
    ensures { result ≡ is_recursive mutex.now.view.kind }
{
    mutex.kind() == MutexKind::Recursive
}

// Returns whether a call is a moved wait that waits at this mutex.
// [XSH pthread_cond_wait, pthread_mutex_lock RECURSIVE]
fn is_back_at_mutex(m: ObjectId, open: &Open) -> bool
    ensures { result
        ≡ (object_of «open».now == m)
        && (is_cond_wait (call_of_open «open».now).role && is_some (move_of «open».now)) }
{
    wait_object(open) == m && is_cond_wait(open.call.role) && is_moved(open)
}

// Returns whether a call waits at the lock for a read lock, and its client already holds one there.
// [XSH pthread_rwlock_rdlock]
fn reads_more<A: Allocator + Copy>(r: ObjectId, lock: &Holders<A>, open: &Open) -> bool
    ensures { result
        ≡ (object_of «open».now == r)
        && (is_read_lock (call_of_open «open».now).role
        && can_grant_read (view_for lock.now «open».now.call.client) true) }
{
    let reads = matches!(open.call.role, Role::ForRead);
    wait_object(open) == r && reads && can_grant_read(lock, open.call.client, true)
}

/// What is served first: the calls of a full barrier, or a client's open call.
#[derive(Clone, Copy)]
pub(crate) enum Service {
    Trip(ObjectId),
    Call(ClientId),
}

// Returns the service of a client's open call, if a client was found.
#[inline(always)]
fn call_served(found: Option<ClientId>) -> Option<Service>
    ensures { result ≡ option_map service.Call found }
{
    Some(Service::Call(found?))
}

impl<Q: WaitList, A: Allocator + Copy> Machine<Q, A> {
    // Returns the client of the first call that waits at an object that is no barrier, if one
    // waits.  [XSH 2.8.4]
    #[inline(always)]
    fn first_at(&self, o: ObjectId) -> Option<ClientId>
        requires tables { AreTables self.now }
        requires other { is_class (kind_of (history_of self.now) o) BarrierClass ≡ false }
        ensures { result ≡ client_of_found (first_at (history_of self.now) o) }
    {
        match self.queues.first(o) {
            Some(first) => Some(first.client),
            None => None,
        }
    }

    // Returns the client of the call that is served at a mutex, if there is one. If nobody owns the
    // mutex, or it is lost, that is the first call. Otherwise it is a moved wait of the owner, if
    // the mutex is RECURSIVE.  [XSH pthread_mutex_unlock, pthread_cond_wait]
    #[inline(always)]
    fn mutex_candidate(&self, m: ObjectId, mutex: &MutexObj) -> Option<ClientId>
        requires tables { AreTables self.now }
        requires stored { object_value self.now.objects m ≡ Some (row.Mutex mutex.now) }
        ensures { result ≡ client_of_found (mutex_candidate (history_of self.now) m) }
    {
        if can_grant_mutex(mutex) {
            return self.first_at(m);
        }
        if !is_recursive(mutex) {
            return None;
        }
        let wait = self.state.open_of(mutex.owner()?)?;
        if is_back_at_mutex(m, wait) {
            Some(wait.call.client)
        } else {
            None
        }
    }

    // Returns the client whose call came last, if that call waits at the lock to read and the
    // client already reads there.  [XSH pthread_rwlock_rdlock]
    fn relocking_reader(&self, r: ObjectId, lock: &Holders<A>) -> Option<ClientId>
        requires tables { AreTables self.now }
        requires stored { object_value self.now.objects r ≡ Some (row.Rwlock lock.now) }
        requires unwritten { lock.now.writer ≡ None }
        ensures { let h = history_of self.now in
            result ≡ client_of_found (if_passes (is_read_relock_at h r) (open_call_if h
            (latest_caller h))) }
    {
        let open = self.state.open_of(self.entering?)?;
        if reads_more(r, lock, open) {
            Some(open.call.client)
        } else {
            None
        }
    }

    // Returns the client of the call that is served at a read-write lock, if there is one. While a
    // writer holds the lock, none is served. Otherwise it is the first call, unless that is a
    // writer and others read. Then it is the call that came last, if its client already reads
    // there.  [XSH pthread_rwlock_unlock, pthread_rwlock_rdlock]
    fn rwlock_candidate(&self, r: ObjectId, lock: &Holders<A>) -> Option<ClientId>
        requires tables { AreTables self.now }
        requires stored { object_value self.now.objects r ≡ Some (row.Rwlock lock.now) }
        ensures { result ≡ client_of_found (rwlock_candidate (history_of self.now) r) }
    {
        if lock.writer().is_some() {
            return None;
        }
        let first = self.queues.first(r)?;
        if first.writer && !lock.is_free() {
            self.relocking_reader(r, lock)
        } else {
            Some(first.client)
        }
    }

    // Returns whether as many calls wait at a barrier as it needs.  [XSH pthread_barrier_wait]
    #[inline(always)]
    fn is_full(&self, b: ObjectId, barrier: &BarrierObj) -> bool
        requires tables { AreTables self.now }
        requires stored { object_value self.now.objects b ≡ Some (row.Barrier barrier.now) }
        ensures full { result
            ≡ (length (at_barrier b (open_calls (history_of self.now))) == barrier.now) }
        ensures needs { 1 ≤ barrier.now }
    {
        self.arrivals(b) == barrier.count() as usize
    }

    // Returns the Trip of a barrier, if it is full.  [XSH pthread_barrier_wait]
    #[inline(always)]
    fn barrier_service(&self, b: ObjectId, barrier: &BarrierObj) -> Option<Service>
        requires tables { AreTables self.now }
        requires stored { object_value self.now.objects b ≡ Some (row.Barrier barrier.now) }
        ensures { IsService (history_of self.now) (candidate (history_of self.now) b) result }
    {
        let full = self.is_full(b, barrier);
        if full { Some(Service::Trip(b)) } else { None }
    }

    /// Returns what is served at an object, if anything is.  [XSH, the object's pages]
    #[inline(always)]
    pub(crate) fn service_at(&self, o: ObjectId) -> Option<Service>
        requires { AreTables self.now }
        ensures { IsService (history_of self.now) (candidate (history_of self.now) o) result }
    {
        match self.state.objects.at(o.0)? {
            Object::Mutex(mutex) => call_served(self.mutex_candidate(o, mutex)),
            Object::Rwlock(lock) => call_served(self.rwlock_candidate(o, lock)),
            Object::Barrier(barrier) => self.barrier_service(o, barrier),
            Object::Cond(_) => None,
        }
    }

    /// Does what `service_at` does, for an object that is a barrier.  [XSH pthread_barrier_wait]
    pub(crate) fn arrival_service(&self, b: ObjectId) -> Option<Service>
        requires { AreTables self.now }
        ensures { IsService (history_of self.now) (candidate (history_of self.now) b) result }
    {
        match self.state.objects.at(b.0)? {
            Object::Barrier(barrier) => self.barrier_service(b, barrier),
            _ => self.service_at(b),
        }
    }
}
