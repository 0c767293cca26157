//! Objects: calls that make and destroy them, with their queues.

ghost use Rattle.std.specs.Prelude.{Some, ◌≡◌, option_map};
ghost use Rattle.pt_types.specs.declared.outcome.Outcome.TheVariants as outcomes;
ghost use Rattle.pt_types.specs.Operations.{Ends, Inits, class_of, operation};
ghost use Rattle.pt_model.specs.declared.entry.Entry.TheVariants as entry;
ghost use Rattle.pt_state.specs.Adds.{history_of};
ghost use Rattle.pt_state.specs.Outer.{makes_object};
ghost use Rattle.pt_types.specs.ObjectTable.{destroy_verdict as destroy_table};
ghost use Rattle.pt_model.specs.Objects.{find_object, kind_of};
ghost use Rattle.pt_model.specs.Verdicts.{is_busy, verdict_on};
ghost use Rattle.pt_state.specs.Reads.{AreTables};
ghost use Rattle.pt_machine.specs.Pushes.{CanCall, CanPush, Pushes, PushesOnOk};

use crate::calls::push_any_done;
use crate::machine::Machine;
use pt_state::{Request, State};
use pt_types::operations::{ObjectClass, Operation, operation_of};
use pt_types::tables::destroy_verdict;
use pt_types::{Call, ClientId, Name, ObjectId, ObjectKind, Outcome, Refusal, Verdict};
use pt_waitq::WaitList;
use std::alloc::Allocator;

// Pushes a call that makes an object, and makes the object's queue. ENOMEM if there is no memory
// for the object or its queue.  [XSH pthread_mutex_init]
#[inline(always)]
pub(crate) fn push_created<Q: WaitList, A: Allocator + Copy>(
    state: &mut State<A>,
    queues: &mut Q,
    c: ClientId,
    call: &Call,
    n: &Name,
    kind: ObjectKind,
) -> Result<(), Refusal>
    requires can { CanPush state.old (Q.seen queues.old)
        (entry.Call c call.now (Some outcomes.Done)) }
    requires operation { operation call.now ≡ Inits n.now kind }
    ensures { PushesOnOk state.old (entry.Call c call.now (Some outcomes.Done))
        (makes_object (operation call.now)) result state.new (Q.seen queues.new) }
{
    let o = ObjectId(state.stored.len());
    if let Err(refusal) = queues.make(o) {
        return Err(refusal);
    }
    match state.push_created(c, call, n, kind) {
        Ok(()) => Ok(()),
        Err(refusal) => {
            queues.discard(o);
            Err(refusal)
        }
    }
}

// Pushes a call that destroys an object, and discards the object's queue.
// [XSH pthread_mutex_destroy]
#[inline(always)]
pub(crate) fn push_destroyed<Q: WaitList, A: Allocator + Copy>(
    state: &mut State<A>,
    queues: &mut Q,
    c: ClientId,
    call: &Call,
    n: &Name,
    class: ObjectClass,
    object: Option<ObjectId>,
)
    requires can { CanPush state.old (Q.seen queues.old)
        (entry.Call c call.now (Some outcomes.Done)) }
    requires operation { operation call.now ≡ Ends n.now class }
    requires found { object ≡ find_object (history_of state.old) n.now class }
    ensures { Pushes state.old (entry.Call c call.now (Some outcomes.Done)) state.new
        (Q.seen queues.new) }
{
    let o = object.unwrap();
    queues.discard(o);
    state.push_destroyed(c, call, n, class, Some(o));
}

/// Does what `push_any_done` does, for a call that makes an object.  [XSH pthread_mutex_init]
#[inline(never)]
pub(crate) fn push_new_object<Q: WaitList, A: Allocator + Copy>(
    state: &mut State<A>,
    queues: &mut Q,
    c: ClientId,
    call: &Call,
    request: &Request,
) -> Result<(), Refusal>
    requires { CanCall state.old (Q.seen queues.old) c call.now (Some outcomes.Done) request.now }
    ensures { PushesOnOk state.old (entry.Call c call.now (Some outcomes.Done))
        (makes_object (operation call.now)) result state.new (Q.seen queues.new) }
{
    match &operation_of(call) {
        Operation::Inits(n, kind) => push_created(state, queues, c, call, n, *kind),
        _ => push_any_done(state, queues, c, call, request),
    }
}

/// Does what `push_any_done` does, for a call that destroys an object.  [XSH pthread_mutex_destroy]
#[inline(never)]
pub(crate) fn push_ended_object<Q: WaitList, A: Allocator + Copy>(
    state: &mut State<A>,
    queues: &mut Q,
    c: ClientId,
    call: &Call,
    request: &Request,
) -> Result<(), Refusal>
    requires { CanCall state.old (Q.seen queues.old) c call.now (Some outcomes.Done) request.now }
    ensures { PushesOnOk state.old (entry.Call c call.now (Some outcomes.Done))
        (makes_object (operation call.now)) result state.new (Q.seen queues.new) }
{
    match &operation_of(call) {
        Operation::Ends(n, class) => {
            push_destroyed(state, queues, c, call, n, *class, request.object);
            Ok(())
        }
        _ => push_any_done(state, queues, c, call, request),
    }
}

impl<Q: WaitList, A: Allocator + Copy> Machine<Q, A> {
    /// Returns the verdict of a call that destroys this object.
    /// [XSH pthread_mutex_destroy, EBUSY is profile]
    fn end_verdict(&self, class: ObjectClass, o: ObjectId) -> Verdict
        requires tables { AreTables self.now }
        requires class { option_map class_of (kind_of (history_of self.now) o)
            ≡ Some class }
        ensures { result ≡ destroy_table (is_busy (history_of self.now) class o) }
    {
        let awaited = self.has_waiters(o);
        match class {
            ObjectClass::Mutex => {
                let returns = self.state.returns_to_mutex(o);
                self.state.mutex_end_verdict(o, awaited || returns)
            }
            ObjectClass::Rwlock => destroy_verdict(self.state.has_living_holder(o) || awaited),
            ObjectClass::Cond | ObjectClass::Barrier => destroy_verdict(awaited),
        }
    }

    /// Returns the verdict of a call that destroys an object.  [XSH pthread_mutex_destroy]
    pub(crate) fn destroys_verdict(
        &self,
        n: &Name,
        class: ObjectClass,
        object: Option<ObjectId>,
    ) -> Verdict
        requires tables { AreTables self.now }
        requires found { object ≡ find_object (history_of self.now) n.now class }
        ensures { result
            ≡ verdict_on (find_object (history_of self.now) n.now class)
            (λ o. destroy_table (is_busy (history_of self.now) class o)) }
    {
        match object {
            Some(o) => self.end_verdict(class, o),
            None => Verdict::Reply(Outcome::Einval),
        }
    }
}
