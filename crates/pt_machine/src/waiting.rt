//! Calls that wait: the one way by which a call is left waiting.

ghost use Rattle.std.specs.Prelude.{None, Some, ◌≡◌, true};
ghost use Rattle.pt_model.specs.Clients.{client_priority, is_alive};
ghost use Rattle.pt_state.specs.Adds.{history_of};
ghost use Rattle.pt_state.specs.Reads.{AreTables};
ghost use Rattle.pt_machine.specs.Pushes.{CanCall, PushesOnOk};
ghost use Rattle.pt_model.specs.declared.entry.Entry.TheVariants as entry;
ghost use Rattle.pt_state.specs.Outer.{is_read_call};
ghost use Rattle.pt_types.specs.Operations.{operation};

use crate::queues::waiter_of;
use pt_records::Open;
use pt_state::{Request, State};
use pt_types::{Call, ClientId, ObjectId, Priority, Refusal};
use pt_waitq::WaitList;
use std::alloc::Allocator;

// Returns a living client's priority, as its row has it.  [XSH 2.8.4]
fn priority_in_row<A: Allocator + Copy>(state: &State<A>, c: ClientId) -> Priority
    requires tables { AreTables state.now }
    requires alive { is_alive (history_of state.now) c ≡ true }
    ensures { client_priority (history_of state.now) c ≡ Some result }
{
    state.clients.at(c.0).unwrap().priority
}

// Returns the object that an open call names.
fn object_in(open: &Open) -> ObjectId
    ensures { result ≡ «open».now.call.object }
{
    open.call.object
}

// Pushes a call that waits, and puts it into its queue. ENOMEM if there is no memory for the
// client's row in a read-write lock. No other call needs memory.  [XSH, the call's page]
#[inline(always)]
fn push_here<Q: WaitList, A: Allocator + Copy>(
    state: &mut State<A>,
    queues: &mut Q,
    c: ClientId,
    call: &Call,
    request: &Request,
) -> Result<(), Refusal>
    requires { CanCall state.old (Q.seen queues.old) c call.now None request.now }
    ensures { PushesOnOk state.old (entry.Call c call.now None) (is_read_call (operation call.now))
        result state.new (Q.seen queues.new) }
{
    let open = state.waiting(c, call, request);
    let o = object_in(&open);
    let prio = priority_in_row(state, c);
    match state.push_waiting(c, call, open) {
        Ok(()) => {
            queues.insert(o, waiter_of(&open, prio));
            Ok(())
        }
        Err(refusal) => Err(refusal),
    }
}

// Does what `push_here` does, for any word.
#[inline(never)]
fn push_any<Q: WaitList, A: Allocator + Copy>(
    state: &mut State<A>,
    queues: &mut Q,
    c: ClientId,
    call: &Call,
    request: &Request,
) -> Result<(), Refusal>
    requires { CanCall state.old (Q.seen queues.old) c call.now None request.now }
    ensures { PushesOnOk state.old (entry.Call c call.now None) (is_read_call (operation call.now))
        result state.new (Q.seen queues.new) }
{
    push_here(state, queues, c, call, request)
}

// Returns the number of a call's word if it has a copy of `push_here` of its own, else 0.
#[inline(always)]
fn word_of(call: &Call) -> u8 {
    match call {
        Call::Lock(_) => 1,
        Call::Rdlock(_) => 2,
        Call::Wrlock(_) => 3,
        Call::Wait(..) => 4,
        _ => 0,
    }
}

// Does what `push_here` does, as a copy for one word, from which the compiler leaves out what the
// others do. It saves 19 instructions of a line of contention.
#[inline(never)]
fn push_as<const WORD: u8, Q: WaitList, A: Allocator + Copy>(
    state: &mut State<A>,
    queues: &mut Q,
    c: ClientId,
    call: &Call,
    request: &Request,
) -> Result<(), Refusal>
    requires { CanCall state.old (Q.seen queues.old) c call.now None request.now }
    ensures { PushesOnOk state.old (entry.Call c call.now None) (is_read_call (operation call.now))
        result state.new (Q.seen queues.new) }
{
    if word_of(call) == WORD {
        return push_here(state, queues, c, call, request);
    }
    push_any(state, queues, c, call, request)
}

/// Pushes a call that waits, and puts it into its queue. ENOMEM if there is no memory for the
/// client's row in a read-write lock. No other call needs memory.  [XSH, the call's page]
#[inline(always)]
pub(crate) fn push_waiting<Q: WaitList, A: Allocator + Copy>(
    state: &mut State<A>,
    queues: &mut Q,
    c: ClientId,
    call: &Call,
    request: &Request,
) -> Result<(), Refusal>
    requires { CanCall state.old (Q.seen queues.old) c call.now None request.now }
    ensures { PushesOnOk state.old (entry.Call c call.now None) (is_read_call (operation call.now))
        result state.new (Q.seen queues.new) }
{
    match word_of(call) {
        1 => push_as::<1, Q, A>(state, queues, c, call, request),
        2 => push_as::<2, Q, A>(state, queues, c, call, request),
        3 => push_as::<3, Q, A>(state, queues, c, call, request),
        4 => push_as::<4, Q, A>(state, queues, c, call, request),
        _ => push_any(state, queues, c, call, request),
    }
}
