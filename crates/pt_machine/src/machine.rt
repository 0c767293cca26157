//! The tables with their queues and deadlines, and the two ways to push an entry.

ghost use Rattle.pt_state.specs.Adds.{Adds, HasRoomFor, AddsNothing, history_of};
ghost use Rattle.std.specs.Prelude.{IfErr, IsOk, OnErr, OnOk, ◌+◌, ◌<◌, ◌≡◌, false, length};
ghost use Rattle.pt_model.specs.Room.{entry_for};
ghost use Rattle.pt_machine.specs.Memory.{needs_memory};
ghost use Rattle.pt_machine.specs.Plans.{IsPlanned};
ghost use Rattle.pt_model.specs.Answers.{open_place};
ghost use Rattle.pt_state.specs.Reads.{AreTables};
ghost use Rattle.pt_history.specs.Stored.{empty_store};
ghost use Rattle.pt_waitq.specs.Waits.{no_waits, queues_view};

use crate::plans::Plan;
use crate::push;
use crate::touched::caller_of;
use pt_model::Event;
use pt_state::State;
use pt_timers::Timers;
use pt_types::{ClientId, ObjectId, Refusal};
use pt_waitq::WaitList;
use std::alloc::{Allocator, Global};
use std::marker::Model;

/// The tables, with the queues of the waiting calls and the deadlines that are set.
///
/// `touched` is the one object at which a call may be served now, if there is one. `entering` is
/// the client whose call came last, until the next event. `need` is the number of entries that are
/// reserved for what must follow. Contracts see only the tables.
#[derive(Drop)]
pub struct Machine<Q: WaitList, A: Allocator + Copy = Global> {
    pub(crate) state: State<A>,
    pub(crate) queues: Q,
    pub(crate) timers: Timers<A>,
    pub(crate) touched: Option<ObjectId>,
    pub(crate) entering: Option<ClientId>,
    pub(crate) need: u64,
}

impl<Q: WaitList, A: Allocator + Copy> Model for Machine<Q, A> {
    ghost use Rattle.pt_state.specs.declared.state.State.{State};
    ghost use Rattle.pt_state.specs.Adds.{history_of};
    ghost use Rattle.pt_machine.specs.CallQueues.{IsQueued};
    ghost use Rattle.pt_machine.specs.CallDeadlines.{AreDeadlinesSet};
    ghost use Rattle.pt_machine.specs.LastTouched.{IsTouched};
    ghost use Rattle.pt_machine.specs.Reserved.{IsReserved};

    ghost Value = { State A };

    ghost view = { λ b. b.state };

    ghost invariant = { λ b. IsQueued (history_of b.state) (Q.seen b.queues)
        × AreDeadlinesSet (history_of b.state) b.timers
        × IsTouched (history_of b.state) b.touched b.entering
        × IsReserved (history_of b.state) b.need };
}

impl<Q: WaitList, A: Allocator + Copy> Machine<Q, A> {
    /// Creates a body without entries, of which there may be at most `limit`. No client is admitted
    /// to the queues, and none of them is made. Allocates nothing.
    pub fn new(queues: Q, alloc: A, limit: u32) -> Machine<Q, A>
        requires { Q.seen queues ≡ queues_view no_waits }
        ensures stored { result.stored ≡ empty_store limit }
        ensures answers { length result.answers.items ≡ 0 }
        ensures read { AreTables result }
    {
        Machine {
            state: State::new(alloc, limit),
            queues,
            timers: Timers::new(alloc),
            touched: None,
            entering: None,
            need: 0,
        }
    }

    /// Pushes the entry of an event by its plan. ENOMEM if a growth is refused; then nothing is
    /// pushed. An entry that needs no memory, such as a Death or a Moment, is never refused.
    #[inline(always)]
    pub fn push_outer(&mut self, event: &Event, plan: &Plan) -> Result<(), Refusal>
        requires has_room { HasRoomFor self.old (entry_for (history_of self.old) event.now) }
        requires planned { IsPlanned (history_of self.old) event.now plan.now }
        ensures ok { OnOk result
            (Adds self.old (entry_for (history_of self.old) event.now) self.new) }
        ensures unchanged { OnErr result (AddsNothing self.old self.new) }
        ensures err { IfErr result (λ refusal. refusal ≡ Refusal.Enomem) }
        ensures succeeds_if { needs_memory (entry_for (history_of self.old) event.now) ≡ false
            → IsOk result }
    {
        let entering = caller_of(event);
        push::push_outer(
            &mut self.state,
            &mut self.queues,
            &mut self.timers,
            event,
            plan.answer,
            &plan.request,
        )?;
        self.touched = plan.touched;
        self.entering = entering;
        self.need = plan.need;
        Ok(())
    }

    /// Returns the tables, to be read.
    pub fn state(&self) -> &State<A>
        ensures { result.now ≡ self.now }
    {
        &self.state
    }

    /// Returns the place of a client's open call, if it has one.
    pub fn open_place(&self, c: ClientId) -> Option<u64>
        requires { AreTables self.now }
        ensures { result ≡ open_place (history_of self.now) c }
    {
        self.state.open_place(c)
    }
}
