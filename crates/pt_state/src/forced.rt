//! Forced entries: the pushes of Grant and Expire.

ghost use Rattle.std.specs.Prelude.{None, ◌<◌, ◌≡◌, false};
ghost use Rattle.pt_model.specs.declared.entry.Entry.TheVariants as entry;
ghost use Rattle.pt_model.specs.Searches.{In};
ghost use Rattle.pt_state.specs.Adds.{Adds, HasRoomFor, history_of};
ghost use Rattle.pt_records.specs.Callers.{opens_of};
ghost use Rattle.pt_state.specs.Forcing.{IsGranted};
ghost use Rattle.pt_model.specs.declared.waiting_call.Role.TheVariants.{ForRead, ForWrite};
ghost use Rattle.pt_model.specs.Forced.{service};
ghost use Rattle.pt_model.specs.WaitingCall.{is_barrier_wait, final_mutex};
ghost use Rattle.pt_state.specs.Serving.{call_of_open};

use crate::state::State;
use pt_history::ForcedEntry;
use pt_model::Cause;
use pt_model::waiting_call::{Role, is_cond_wait};
use pt_records::Open;
use pt_records::cond::wake;
use pt_types::Outcome;
use std::alloc::Allocator;

impl<A: Allocator + Copy> State<A> {
    /// Pushes the Expire of a call whose deadline has passed. A wait is moved to its mutex; any
    /// other call is answered ETIMEDOUT.  [XSH pthread_cond_timedwait, pthread_mutex_timedlock]
    pub fn push_expire(&mut self, found: &Open)
        requires has_room { HasRoomFor self.old (entry.Expire found.now.call.place) }
        requires is_open { In found.now (opens_of self.old.clients) }
        ensures { Adds self.old (entry.Expire found.now.call.place) self.new }
    {
        let call = found.call;
        if is_cond_wait(call.role) {
            let at = self.stored.len();
            wake(&mut self.clients, call.client, at, Cause::Expired);
            self.stored.push_forced(ForcedEntry::Expire(call.place));
        } else {
            self.answer(found, Outcome::Etimedout);
            self.stored.push_forced(ForcedEntry::Expire(call.place));
        }
    }

    // Answers a call and pushes its Grant, after the call's object has been changed.
    #[inline(always)]
    pub(crate) fn grant(&mut self, found: &Open, outcome: Outcome)
        requires { IsGranted self.old found.now outcome }
        ensures { Adds self.old (entry.Grant found.now.call.place outcome) self.new }
    {
        self.answer(found, outcome);
        self.stored.push_grant(found.call.place, outcome);
    }

    /// Pushes the Grant of an open call for a read-write lock, and gives the call the lock.
    /// [XSH pthread_rwlock_unlock]
    pub fn push_granted(&mut self, found: &Open)
        requires has_room { HasRoomFor self.old (service (history_of self.old)
            (call_of_open found.now)) }
        requires is_open { In found.now (opens_of self.old.clients) }
        requires other { is_barrier_wait (call_of_open found.now).role ≡ false }
        requires plain { final_mutex (call_of_open found.now).role found.now.call.object ≡ None }
        ensures { Adds self.old (service (history_of self.old) (call_of_open found.now)) self.new }
    {
        match found.call.role {
            Role::ForRead => self.push_grant_read(found),
            Role::ForWrite => self.push_grant_write(found),
            Role::ForMutex => unreachable!(),
            Role::ForCond(_) => unreachable!(),
            Role::ForBarrier => unreachable!(),
        }
    }
}
