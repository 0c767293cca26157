//! What an entry touches: the one object at which it can let a waiting call go on.
//!
//! It is read off the tables as they are before the entry.

ghost use Rattle.std.specs.Prelude.{None, Option, ℕ, ◌≡◌};
ghost use Rattle.pt_model.specs.Histories.{History};
ghost use Rattle.pt_model.specs.Room.{entry_for};
ghost use Rattle.pt_next_grant.specs.Candidates.{latest_caller_by};
ghost use Rattle.pt_next_grant.specs.Touched.{goal, object_if, open_call_of};
ghost use Rattle.pt_state.specs.Adds.{history_of};
ghost use Rattle.pt_state.specs.Reads.{AreTables};
ghost use Rattle.pt_state.specs.Serving.{call_of_open};

use crate::machine::Machine;
use pt_model::Event;
use pt_model::waiting_call::Role;
use pt_records::Open;
use pt_records::calls::wait_object;
use pt_types::{ClientId, ObjectId};
use pt_waitq::WaitList;
use std::alloc::Allocator;

/// Returns the client whose call an event is, if it is a call.
pub(crate) fn caller_of(event: &Event) -> Option<ClientId>
    ensures { (h : History) → (before : Option ℕ)
        → result ≡ latest_caller_by (entry_for h event.now) before }
{
    match event {
        Event::Call(c, _) => Some(*c),
        _ => None,
    }
}

/// Returns the object that an open call is for in the end. For a wait, that is its mutex.
/// [XSH pthread_cond_wait]
pub(crate) fn goal_of(open: &Open) -> ObjectId
    ensures { result ≡ goal (call_of_open «open».now).role «open».now.call.object }
{
    match open.call.role {
        Role::ForCond(m) => m,
        _ => open.call.object,
    }
}

impl<Q: WaitList, A: Allocator + Copy> Machine<Q, A> {
    /// Returns the object at which the client's open call waits, if it has one.
    pub(crate) fn object_of(&self, c: ClientId) -> Option<ObjectId>
        requires { AreTables self.now }
        ensures { let h = history_of self.now in result ≡ object_if h (open_call_of h c) }
    {
        match self.state.open_of(c) {
            Some(open) => Some(wait_object(open)),
            None => None,
        }
    }
}
