//! Forced entries: which one comes next, and how it is pushed.

ghost use Rattle.std.specs.Prelude.{IsSome, None, Some, ◌-◌, ◌&&◌, ◌≡◌, false, filter};
ghost use Rattle.std.specs.Prelude.{if◌then◌else◌};
ghost use Rattle.std.specs.Prelude.{true};
ghost use Rattle.pt_model.specs.declared.entry.Entry.{Entry};
ghost use Rattle.pt_model.specs.declared.waiting_call.WaitingCall.{WaitingCall};
ghost use Rattle.pt_records.specs.Callers.{call_of};
ghost use Rattle.pt_model.specs.Searches.{In, least};
ghost use Rattle.pt_model.specs.Histories.{place};
ghost use Rattle.pt_model.specs.WaitingCall.{call_at_place, is_barrier_wait};
ghost use Rattle.pt_model.specs.WaitingCall.{is_cond_wait, final_mutex};
ghost use Rattle.pt_records.specs.Counts.{count_or_zero, reserved_open};
ghost use Rattle.pt_types.specs.MutexTable.{is_acquired as is_acquired_it};
ghost use Rattle.pt_model.specs.Forced.{forced, can_be_served};
ghost use Rattle.pt_model.specs.Forced.{is_served_before, service};
ghost use Rattle.pt_state.specs.Adds.{Adds, HasRoomFor, history_of};
ghost use Rattle.pt_records.specs.Callers.{opens_of};
ghost use Rattle.pt_state.specs.Serving.{call_of_open};
ghost use Rattle.pt_machine.specs.Services.{IsService, Serves};
ghost use Rattle.pt_model.specs.Forced.{service as service_of};
ghost use Rattle.pt_model.specs.declared.entry.Entry.TheVariants as entry;
ghost use Rattle.pt_state.specs.Reads.{AreTables};
ghost use Rattle.pt_model.specs.Answers.{open_calls};
ghost use Rattle.pt_machine.specs.Pushes.{CanPush, Pushes};

use crate::candidates::Service;
use crate::cond::push_wait_expiry;
use crate::machine::Machine;
use crate::push;
use crate::touched::goal_of;
use pt_model::waiting_call::{is_cond_wait, mutex_of};
use pt_records::Open;
use pt_records::calls::reserved_by;
use pt_state::{Acquisition, State};
use pt_types::views::is_acquired;
use pt_types::{ClientId, ObjectId};
use pt_waitq::WaitList;
use std::alloc::Allocator;

// Returns how many entries are no longer reserved after a call got its mutex. If a robust mutex got
// an owner, that is one fewer, since an entry is reserved for its Yield.
fn unreserved_by_grant(open: &Open, acquisition: Acquisition) -> u64
    ensures { let reserved = count_or_zero reserved_open (Some «open».now) in
        result ≡ if acquisition.robust && is_acquired_it acquisition.outcome
        then reserved - 1
        else reserved }
{
    if acquisition.robust && is_acquired(acquisition.outcome) {
        reserved_by(Some(*open)) - 1
    } else {
        reserved_by(Some(*open))
    }
}

// Pushes the Grant of a call for a read-write lock, which leaves its queue.
// [XSH pthread_rwlock_unlock]
pub(crate) fn push_granted<Q: WaitList, A: Allocator + Copy>(
    state: &mut State<A>,
    queues: &mut Q,
    found: &Open,
)
    requires can { CanPush state.old (Q.seen queues.old)
        (service (history_of state.old) (call_of_open found.now)) }
    requires is_open { In found.now (opens_of state.old.clients) }
    requires other { is_barrier_wait (call_of_open found.now).role ≡ false }
    requires plain { final_mutex (call_of_open found.now).role found.now.call.object ≡ None }
    ensures { Pushes state.old (service (history_of state.old) (call_of_open found.now)) state.new
        (Q.seen queues.new) }
{
    state.push_granted(found);
    queues.remove(found.call.client);
}

// Pushes the Expire of a call for a lock. The call ends, and leaves its queue.
// [XSH pthread_mutex_timedlock]
fn push_lock_expiry<Q: WaitList, A: Allocator + Copy>(
    state: &mut State<A>,
    queues: &mut Q,
    found: &Open,
)
    requires can { CanPush state.old (Q.seen queues.old) (entry.Expire found.now.call.place) }
    requires is_open { In found.now (opens_of state.old.clients) }
    requires other { is_cond_wait (call_of_open found.now).role ≡ false }
    ensures { Pushes state.old (entry.Expire found.now.call.place) state.new
        (Q.seen queues.new) }
{
    state.push_expire(found);
    queues.remove(found.call.client);
}

// Pushes the Expire of a call.  [XSH pthread_cond_timedwait, pthread_mutex_timedlock]
pub(crate) fn push_expire<Q: WaitList, A: Allocator + Copy>(
    state: &mut State<A>,
    queues: &mut Q,
    found: &Open,
)
    requires can { CanPush state.old (Q.seen queues.old) (entry.Expire found.now.call.place) }
    requires is_open { In found.now (opens_of state.old.clients) }
    ensures { Pushes state.old (entry.Expire found.now.call.place) state.new
        (Q.seen queues.new) }
{
    if is_cond_wait(found.call.role) {
        push_wait_expiry(state, queues, found);
    } else {
        push_lock_expiry(state, queues, found);
    }
}

impl<Q: WaitList, A: Allocator + Copy> Machine<Q, A> {
    // Returns what is served first, if anything is.
    // [XSH pthread_mutex_unlock, the lowest first is profile]
    #[inline(always)]
    fn first_service(&self) -> Option<Service>
        requires { AreTables self.now }
        ensures { let h = history_of self.now in IsService h
            (least (is_served_before h) (filter (can_be_served h) (open_calls h))) result }
    {
        self.service_at(self.touched?)
    }

    // Pushes the Grant of a call, which gets its mutex or learns that it is lost. The touched
    // object stays the same.  [XSH pthread_mutex_unlock]
    fn push_mutex_grant(&mut self, found: &Open, m: ObjectId)
        requires tables { AreTables self.old }
        requires has_room { HasRoomFor self.old (service (history_of self.old)
            (call_of_open found.now)) }
        requires is_open { In found.now (opens_of self.old.clients) }
        requires mutex { final_mutex (call_of_open found.now).role found.now.call.object ≡ Some m }
        ensures { Adds self.old (service (history_of self.old) (call_of_open found.now)) self.new }
    {
        let acquisition = self.state.push_grant_mutex(found, m);
        self.queues.remove(found.call.client);
        push::drop_deadline(&mut self.timers, &found.call);
        self.need -= unreserved_by_grant(found, acquisition);
    }

    // Pushes the Grant of a call for a read-write lock. The touched object stays the same.
    // [XSH pthread_rwlock_unlock]
    fn push_other_grant(&mut self, found: &Open)
        requires tables { AreTables self.old }
        requires has_room { HasRoomFor self.old (service (history_of self.old)
            (call_of_open found.now)) }
        requires is_open { In found.now (opens_of self.old.clients) }
        requires other { is_barrier_wait (call_of_open found.now).role ≡ false }
        requires plain { final_mutex (call_of_open found.now).role found.now.call.object ≡ None }
        ensures { Adds self.old (service (history_of self.old) (call_of_open found.now)) self.new }
    {
        let used = reserved_by(Some(*found));
        push::push_granted(&mut self.state, &mut self.queues, &mut self.timers, found);
        self.need -= used;
    }

    // Pushes the Grant of a client's open call, which must be served and is no arrival.
    // [XSH pthread_mutex_unlock, pthread_rwlock_unlock]
    #[inline(never)]
    fn push_service(&mut self, c: ClientId)
        requires tables { AreTables self.old }
        requires waits { IsSome (call_of (open_calls (history_of self.old)) c) }
        requires other { (w : WaitingCall) → call_of (open_calls (history_of self.old)) c ≡ Some w
            → is_barrier_wait w.role ≡ false }
        requires has_room { (w : WaitingCall) → call_of (open_calls (history_of self.old)) c
            ≡ Some w
            → HasRoomFor self.old (service (history_of self.old) w) }
        ensures { (w : WaitingCall) → call_of (open_calls (history_of self.old)) c ≡ Some w
            → Adds self.old (service (history_of self.old) w) self.new }
    {
        let open = self.state.open_of(c).unwrap();
        match mutex_of(&open.call) {
            Some(m) => {
                let found = *open;
                self.push_mutex_grant(&found, m);
            }
            None => {
                let found = *open;
                self.push_other_grant(&found);
            }
        }
    }

    // Pushes the entry that serves the first call and, at a barrier, all others that wait there.
    // [XSH pthread_barrier_wait]
    pub(crate) fn push_first(&mut self, service: Service)
        requires tables { AreTables self.old }
        requires has_room { (w : WaitingCall) × (In w (open_calls (history_of self.old))
            × (Serves service w × HasRoomFor self.old (service_of (history_of self.old) w))) }
        ensures { (w : WaitingCall) → In w (open_calls (history_of self.old)) → Serves service w
            → Adds self.old (service_of (history_of self.old) w) self.new }
    {
        match service {
            Service::Trip(b) => self.push_full(b),
            Service::Call(c) => self.push_service(c),
        }
    }

    // Pushes the Yield of a robust mutex whose owner is dead. The mutex is the touched object after
    // that.  [XSH pthread_mutex_lock, EOWNERDEAD]
    #[inline(always)]
    fn push_yield(&mut self, m: ObjectId)
        requires has_room { HasRoomFor self.old (entry.Yield m) }
        ensures { Adds self.old (entry.Yield m) self.new }
    {
        self.state.push_yield(m);
        self.touched = Some(m);
        self.need -= 1;
    }

    // Pushes the Expire of an open call whose deadline has passed, and drops the deadline.
    // [XSH pthread_cond_timedwait, pthread_mutex_timedlock]
    fn push_late(&mut self, late: &Open)
        requires has_room { HasRoomFor self.old (entry.Expire late.now.call.place) }
        requires is_open { In late.now (opens_of self.old.clients) }
        ensures { Adds self.old (entry.Expire late.now.call.place) self.new }
    {
        let used = self.used_by_expiry(late);
        push_expire(&mut self.state, &mut self.queues, late);
        push::drop_deadline(&mut self.timers, &late.call);
        self.touched = Some(goal_of(late));
        self.need -= used;
    }

    // Pushes the Expire of the call at a place. This client's open call is looked at first.
    // [XSH pthread_cond_timedwait, pthread_mutex_timedlock]
    #[inline(never)]
    fn push_overdue(&mut self, place: u64, c: ClientId)
        requires tables { AreTables self.old }
        requires waits { IsSome (call_at_place place (open_calls (history_of self.old))) }
        requires has_room { HasRoomFor self.old (entry.Expire place) }
        ensures { Adds self.old (entry.Expire place) self.new }
    {
        let late = *self.open_at(place, c).unwrap();
        self.push_late(&late);
    }

    /// Pushes the entry that must follow next, and returns whether one must. Grants and Trips come
    /// first, then Yields, then Expires.
    /// [XSH pthread_mutex_unlock, pthread_mutex_lock EOWNERDEAD, pthread_mutex_timedlock]
    #[inline(always)]
    pub fn push_next(&mut self) -> bool
        requires tables { AreTables self.old }
        requires has_room { (e : Entry) → forced (history_of self.old) ≡ Some e
            → HasRoomFor self.old e }
        ensures pushed { result ≡ true → (e : Entry)
            × (forced (history_of self.old) ≡ Some e) × Adds self.old e self.new }
        ensures none { result ≡ false → (forced (history_of self.old) ≡ None)
            × (self.new ≡ self.old) }
    {
        if let Some(service) = self.first_service() {
            self.push_first(service);
            return true;
        }
        if let Some(m) = self.state.first_orphan() {
            self.push_yield(m);
            return true;
        }
        match self.first_due() {
            Some((place, c)) => {
                self.push_overdue(place, c);
                true
            }
            None => false,
        }
    }
}
