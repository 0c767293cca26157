//! Calls: their verdicts, and the push of their entries, answered or waiting.

ghost use Rattle.pt_state.specs.Requests.{IsRequest};
ghost use Rattle.pt_types.specs.OperationViews.{operation_view};
ghost use Rattle.std.specs.Prelude.{None, Some, ◌≡◌, false, unwrap_or};
ghost use Rattle.pt_types.specs.Operations.{Acquires, BarrierWaits, CondWaits, Broadcasts, Ends};
ghost use Rattle.pt_types.specs.Operations.{Inits};
ghost use Rattle.pt_types.specs.Operations.{Restores, Rwunlocks, Signals, Unlocks, operation};
ghost use Rattle.pt_types.specs.declared.operations.LockKind.TheVariants.{ReadLock, WriteLock};
ghost use Rattle.pt_model.specs.declared.entry.Entry.TheVariants as entry;
ghost use Rattle.pt_state.specs.Adds.{history_of};
ghost use Rattle.pt_state.specs.Outer.{makes_object};
ghost use Rattle.pt_types.specs.declared.outcome.Outcome.TheVariants as outcomes;
ghost use Rattle.pt_model.specs.Verdicts.{operation_verdict};
ghost use Rattle.pt_state.specs.Reads.{AreTables};
ghost use Rattle.pt_machine.specs.Pushes.{CanCall, Pushes, PushesOnOk};

use crate::cond::{push_broadcast, push_signal};
use crate::machine::Machine;
use crate::objects::{push_created, push_destroyed, push_ended_object, push_new_object};
use pt_state::{Request, State, verdict_if_object};
use pt_types::operations::{LockKind, Operation, operation_of};
use pt_types::{Call, ClientId, How, Name, ObjectId, Outcome, Refusal, Verdict};
use pt_waitq::WaitList;
use std::alloc::Allocator;

/// Returns the object that a call's name means, or 0 if it means none.
pub(crate) fn object_named(request: &Request) -> ObjectId
    ensures { result ≡ unwrap_or request.now.object 0 }
{
    match request.object {
        Some(b) => b,
        None => ObjectId(0),
    }
}

// Pushes a call that is answered 0 and makes no object, and does what it asks for.
// [XSH, the call's page]
fn push_changed<Q: WaitList, A: Allocator + Copy>(
    state: &mut State<A>,
    queues: &mut Q,
    c: ClientId,
    call: &Call,
    request: &Request,
)
    requires can { CanCall state.old (Q.seen queues.old) c call.now (Some outcomes.Done)
        request.now }
    requires other { makes_object (operation call.now) ≡ false }
    ensures { Pushes state.old (entry.Call c call.now (Some outcomes.Done)) state.new
        (Q.seen queues.new) }
{
    let object = request.object;
    match &operation_of(call) {
        Operation::Ends(n, class) => push_destroyed(state, queues, c, call, n, *class, object),
        Operation::Acquires(n, kind, how) => state.push_locked(c, call, n, *kind, how, object),
        Operation::Unlocks(n) => state.push_unlock(c, call, n, object),
        Operation::Restores(n) => state.push_restored(c, call, n, object),
        Operation::Rwunlocks(n) => state.push_rwunlock(c, call, n, object),
        Operation::Signals(n) => push_signal(state, queues, c, call, n, object),
        Operation::Broadcasts(n) => push_broadcast(state, queues, c, call, n, object),
        // None of these comes here: waits and arrivals are never answered 0 at once, and the others
        // make an object.
        Operation::CondWaits(..) | Operation::BarrierWaits(_) | Operation::Inits(..) => {
            state.finish_long(c, call, Outcome::Done)
        }
    }
}

/// Does what `push_done` does, for any call. It is not inlined.  [XSH, the call's page]
#[inline(never)]
pub(crate) fn push_any_done<Q: WaitList, A: Allocator + Copy>(
    state: &mut State<A>,
    queues: &mut Q,
    c: ClientId,
    call: &Call,
    request: &Request,
) -> Result<(), Refusal>
    requires { CanCall state.old (Q.seen queues.old) c call.now (Some outcomes.Done) request.now }
    ensures { PushesOnOk state.old (entry.Call c call.now (Some outcomes.Done))
        (makes_object (operation call.now)) result state.new (Q.seen queues.new) }
{
    match &operation_of(call) {
        Operation::Inits(n, kind) => push_created(state, queues, c, call, n, *kind),
        _ => {
            push_changed(state, queues, c, call, request);
            Ok(())
        }
    }
}

// Pushes a call that is answered 0, and does what it asks for. ENOMEM if there is no memory for the
// object that it makes.  [XSH, the call's page]
#[inline(always)]
fn push_done<Q: WaitList, A: Allocator + Copy>(
    state: &mut State<A>,
    queues: &mut Q,
    c: ClientId,
    call: &Call,
    request: &Request,
) -> Result<(), Refusal>
    requires { CanCall state.old (Q.seen queues.old) c call.now (Some outcomes.Done) request.now }
    ensures { PushesOnOk state.old (entry.Call c call.now (Some outcomes.Done))
        (makes_object (operation call.now)) result state.new (Q.seen queues.new) }
{
    match call {
        Call::Unlock(n) => {
            state.push_unlock(c, call, n, request.object);
            Ok(())
        }
        Call::Rwunlock(n) => {
            state.push_rwunlock(c, call, n, request.object);
            Ok(())
        }
        Call::Signal(n) => {
            push_signal(state, queues, c, call, n, request.object);
            Ok(())
        }
        Call::Consistent(n) => {
            state.push_restored(c, call, n, request.object);
            Ok(())
        }
        Call::MutexInit(..) | Call::RwlockInit(_) | Call::CondInit(_) | Call::BarrierInit(..) => {
            push_new_object(state, queues, c, call, request)
        }
        Call::MutexDestroy(_)
        | Call::RwlockDestroy(_)
        | Call::CondDestroy(_)
        | Call::BarrierDestroy(_) => push_ended_object(state, queues, c, call, request),
        _ => push_any_done(state, queues, c, call, request),
    }
}

/// Pushes a call with its answer. ENOMEM if there is no memory for the object that it makes.
/// [XSH, the call's page]
#[inline(always)]
pub(crate) fn push_answered<Q: WaitList, A: Allocator + Copy>(
    state: &mut State<A>,
    queues: &mut Q,
    c: ClientId,
    call: &Call,
    answer: Outcome,
    request: &Request,
) -> Result<(), Refusal>
    requires { CanCall state.old (Q.seen queues.old) c call.now (Some answer) request.now }
    ensures { PushesOnOk state.old (entry.Call c call.now (Some answer))
        (makes_object (operation call.now)) result state.new (Q.seen queues.new) }
{
    match answer {
        Outcome::Done => push_done(state, queues, c, call, request),
        outcome => {
            state.push_answered_call(c, call, outcome);
            Ok(())
        }
    }
}

impl<Q: WaitList, A: Allocator + Copy> Machine<Q, A> {
    /// Returns the answer that a client's call gets at once, or that it waits.
    /// [XSH, the call's page]
    #[inline(always)]
    pub fn verdict(&self, c: ClientId, operation: &Operation<'_>, request: &Request) -> Verdict
        requires tables { AreTables self.now }
        requires request { IsRequest (history_of self.now)
            (operation_view operation.now) request.now }
        ensures { result ≡ operation_verdict (history_of self.now) c
            (operation_view operation.now) }
    {
        let object = request.object;
        match operation {
            Operation::Inits(n, kind) => self.state.makes_verdict(n, *kind),
            Operation::Ends(n, class) => self.destroys_verdict(n, *class, object),
            Operation::Acquires(n, LockKind::MutexLock, how) => {
                self.state.mutex_verdict(c, n, how, object)
            }
            Operation::Acquires(n, LockKind::ReadLock, How::Plain) => {
                self.plain_read_verdict(c, n, object)
            }
            // Functions that are not inlined borrow a copy, so that the operation itself can stay
            // in registers.
            Operation::Acquires(n, LockKind::ReadLock, how) => {
                let how = *how;
                self.read_verdict(c, n, &how, object)
            }
            Operation::Acquires(n, LockKind::WriteLock, how) => {
                let how = *how;
                self.state.write_verdict(c, n, &how, object)
            }
            Operation::Unlocks(n) => self.state.unlocks_verdict(c, n, object),
            Operation::Restores(n) => self.state.restores_verdict(c, n, object),
            Operation::Rwunlocks(n) => self.state.rwunlocks_verdict(c, n, object),
            Operation::CondWaits(n, m, deadline) => self.awaits_verdict(
                c, n, m, *deadline, request,
            ),
            Operation::Signals(_) => verdict_if_object(object, Verdict::Reply(Outcome::Done)),
            Operation::Broadcasts(_) => verdict_if_object(object, Verdict::Reply(Outcome::Done)),
            Operation::BarrierWaits(_) => verdict_if_object(object, Verdict::Stands),
        }
    }
}
