//! Calls: those that are answered at once, and those that wait.

ghost use Rattle.pt_model.specs.Objects.{find_object};
ghost use Rattle.pt_types.specs.Operations.{class_needed as class_meant};
ghost use Rattle.pt_state.specs.Requests.{IsRequest};
ghost use Rattle.std.specs.Prelude.{IfErr, IsOk, None, OnErr, OnOk, Some, ◌≡◌, ◌<◌, false};
ghost use Rattle.pt_model.specs.declared.entry.Entry.TheVariants as entry;
ghost use Rattle.pt_state.specs.Adds.{Adds, IsNearlyAdded, HasRoomFor, AddsNothing, history_of};
ghost use Rattle.pt_state.specs.Adds.{store_with_entry};
ghost use Rattle.pt_state.specs.Calling.{is_done};
ghost use Rattle.pt_types.specs.declared.outcome.Outcome.TheVariants as outcomes;
ghost use Rattle.pt_types.specs.Operations.{Acquires, operation};
ghost use Rattle.pt_model.specs.declared.waiting_call.Role.TheVariants.{ForRead};
ghost use Rattle.pt_table.specs.ClientRows.{nth_value};
ghost use Rattle.pt_records.specs.Callers.{open_in};
ghost use Rattle.pt_model.specs.WaitingCall.{new_waiting_call};
ghost use Rattle.pt_state.specs.Reads.{AreTables};
ghost use Rattle.pt_state.specs.NewWaitingCalls.{IsNewWaitingCall, IsNearlyWaiting};
ghost use Rattle.pt_state.specs.Outer.{is_read_call};

use crate::request::{Request, or_zero};
use crate::state::State;
use pt_history::History;
use pt_model::waiting_call::{Role, WaitingCall, role_of_lock};
use pt_records::calls::{open_at, open_waiting_call};
use pt_records::clients::note_call;
use pt_records::mutex::release;
use pt_records::{Answered, Open};
use pt_types::operations::{LockKind, Operation, clock_of, deadline_of, operation_of};
use pt_types::{Call, ClientId, Clock, Deadline, How, Name, ObjectId, Outcome, Refusal};
use std::alloc::Allocator;

// Pushes the entry of a call that is left waiting. A wait has two names.
#[inline(always)]
fn push_entry<A: Allocator + Copy>(stored: &mut History<A>, c: ClientId, call: &Call)
    requires { 0 < stored.old.room }
    ensures { stored.new ≡ store_with_entry stored.old (entry.Call c call.now None) }
{
    match call {
        Call::Wait(..) => stored.push_wait(c, call, None),
        _ => stored.push_named(c, call, None),
    }
}

impl<A: Allocator + Copy> State<A> {
    /// Pushes a call that is answered anything but 0. Such a call changes nothing else.  [XSH 2.3]
    pub fn push_answered_call(&mut self, c: ClientId, call: &Call, outcome: Outcome)
        requires has_room { HasRoomFor self.old (entry.Call c call.now (Some outcome)) }
        requires other { is_done outcome ≡ false }
        ensures { Adds self.old (entry.Call c call.now (Some outcome)) self.new }
    {
        self.finish(c, call, outcome);
    }

    /// Pushes a call for a lock that is answered 0 at once. The lock is a mutex that its owner
    /// locks once more.  [XSH pthread_mutex_lock]
    pub fn push_locked(
        &mut self,
        c: ClientId,
        call: &Call,
        n: &Name,
        lock_kind: LockKind,
        how: &How,
        object: Option<ObjectId>,
    )
        requires has_room { HasRoomFor self.old (entry.Call c call.now (Some outcomes.Done)) }
        requires operation { operation call.now
            ≡ Acquires n.now lock_kind how.now }
        requires found { object ≡ find_object (history_of self.old) n.now (class_meant lock_kind) }
        ensures { Adds self.old (entry.Call c call.now (Some outcomes.Done)) self.new }
    {
        match lock_kind {
            LockKind::MutexLock => self.push_relock(c, call, n, how, object),
            // A call for a read lock or a write lock is answered 0 by its Grant, never at once.
            LockKind::ReadLock => self.finish(c, call, Outcome::Done),
            LockKind::WriteLock => self.finish(c, call, Outcome::Done),
        }
    }

    /// Returns the open call in the row of clients at this index, if there is one.
    pub fn open_nth(&self, index: usize) -> Option<Open>
        ensures { result ≡ open_in (nth_value self.now.clients index) }
    {
        open_at(&self.clients, index)
    }

    /// Stores the call and its answer in the client's row, logs the answer, and pushes the call.
    #[inline(always)]
    pub fn finish(&mut self, c: ClientId, call: &Call, outcome: Outcome)
        requires { IsNearlyAdded self.old c call.now (Some outcome) }
        ensures { Adds self.old (entry.Call c call.now (Some outcome)) self.new }
    {
        let place = self.stored.len();
        note_call(&mut self.clients, c, place, outcome);
        self.answers.push(Answered {
            at: place,
            client: c,
            place,
            outcome,
        });
        self.stored.push_named(c, call, Some(outcome));
    }

    /// Does what `finish` does, for a call that may have more arguments than a name.
    #[inline(always)]
    pub fn finish_long(&mut self, c: ClientId, call: &Call, outcome: Outcome)
        requires { IsNearlyAdded self.old c call.now (Some outcome) }
        ensures { Adds self.old (entry.Call c call.now (Some outcome)) self.new }
    {
        let place = self.stored.len();
        note_call(&mut self.clients, c, place, outcome);
        self.answers.push(Answered {
            at: place,
            client: c,
            place,
            outcome,
        });
        self.stored.push_call(c, call, Some(outcome));
    }

    /// Returns a client's call as an open call that is entered now and has not been moved.
    pub fn entered(
        &self,
        c: ClientId,
        object: ObjectId,
        role: Role,
        clock: Clock,
        deadline: Option<Deadline>,
    ) -> Open
        requires { AreTables self.now }
        ensures call { result.call
            ≡ new_waiting_call (history_of self.now) c object role clock deadline }
        ensures unmoved { result.moved ≡ None }
    {
        let call = WaitingCall {
            place: self.stored.len(),
            client: c,
            priority: self.priority_of(c),
            object,
            role,
            clock,
            deadline: match deadline {
                Some(deadline) => Some(deadline.nanos()),
                None => None,
            },
        };
        Open { call, moved: None }
    }

    /// Returns what a call that is left waiting leaves: its open call. This is the whole effect of
    /// its entry, and reads the call's word for the last time.  [XSH, the call's page]
    #[inline(always)]
    pub fn waiting(&self, c: ClientId, call: &Call, request: &Request) -> Open
        requires has_room { HasRoomFor self.now (entry.Call c call.now None) }
        requires request { IsRequest (history_of self.now) (operation call.now) request.now }
        ensures { IsNewWaitingCall (history_of self.now) c call.now result }
    {
        let object = or_zero(request.object);
        match &operation_of(call) {
            Operation::Acquires(_, lock_kind, how) => {
                let role = role_of_lock(*lock_kind);
                self.entered(c, object, role, clock_of(call), deadline_of(*how))
            }
            Operation::CondWaits(_, _, deadline) => {
                let role = Role::ForCond(or_zero(request.mutex));
                self.entered(c, object, role, clock_of(call), *deadline)
            }
            Operation::BarrierWaits(_) => {
                self.entered(c, object, Role::ForBarrier, clock_of(call), None)
            }
            // Other calls never wait.
            _ => unreachable!(),
        }
    }

    // Stores the call in the client's row as its open call, and pushes it.
    #[inline(always)]
    fn write_waiting_call(&mut self, c: ClientId, call: &Call, open: Open)
        requires { IsNearlyWaiting self.old c call.now «open» }
        ensures { Adds self.old (entry.Call c call.now None) self.new }
    {
        let place = self.stored.len();
        push_entry(&mut self.stored, c, call);
        open_waiting_call(&mut self.clients, c, open, place);
    }

    // Changes what a call changes when it begins to wait, except its client's row: a reader gets a
    // row in its lock, and a wait gives back one lock on its mutex. Returns ENOMEM if there is no
    // memory for the row.  [XSH pthread_rwlock_rdlock, pthread_cond_wait]
    #[inline(always)]
    fn begin(&mut self, c: ClientId, call: &Call, open: &Open) -> Result<(), Refusal>
        requires has_room { HasRoomFor self.old (entry.Call c call.now None) }
        requires new_waiting { IsNewWaitingCall (history_of self.old) c call.now «open».now }
        ensures ok { OnOk result (IsNearlyWaiting self.new c call.now «open».now) }
        ensures unchanged { OnErr result (AddsNothing self.old self.new) }
        ensures rest { self.new ≡ record self.old {
          clients = self.new.clients;
          objects = self.new.objects;
        } }
        ensures err { IfErr result (λ r. r ≡ Refusal.Enomem) }
        ensures succeeds_if { («open».now.call.role ≡ ForRead → ⊥) → IsOk result }
    {
        match open.call.role {
            Role::ForRead => self.begin_reading(c, call, open),
            Role::ForCond(m) => {
                release(&mut self.clients, &mut self.objects, m, c);
                Ok(())
            }
            Role::ForMutex => Ok(()),
            Role::ForWrite => Ok(()),
            Role::ForBarrier => Ok(()),
        }
    }

    /// Pushes a call that is left waiting, as this open call. Returns ENOMEM if there is no memory
    /// for its row in a read-write lock.  [XSH, the call's page]
    #[inline(always)]
    pub fn push_waiting(&mut self, c: ClientId, call: &Call, open: Open) -> Result<(), Refusal>
        requires has_room { HasRoomFor self.old (entry.Call c call.now None) }
        requires new_waiting { IsNewWaitingCall (history_of self.old) c call.now «open» }
        ensures ok { OnOk result (Adds self.old (entry.Call c call.now None) self.new) }
        ensures unchanged { OnErr result (AddsNothing self.old self.new) }
        ensures err { IfErr result (λ r. r ≡ Refusal.Enomem) }
        ensures succeeds_if { is_read_call (operation call.now) ≡ false → IsOk result }
    {
        self.begin(c, call, &open)?;
        self.write_waiting_call(c, call, open);
        Ok(())
    }
}
