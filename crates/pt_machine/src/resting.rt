//! Calls after which nothing must follow.

ghost use Rattle.std.specs.Prelude.{◌≡◌};
ghost use Rattle.pt_types.specs.Operations.{operation};
ghost use Rattle.pt_machine.specs.SettledCalls.{is_settled_after, is_settled_by};

use crate::plans::Plan;
use pt_model::Event;
use pt_types::Call;

// Returns whether it is known that nothing must follow a call, given whether it is granted as it
// comes.  [XSH pthread_mutex_lock, pthread_rwlock_wrlock]
#[inline(always)]
fn is_settled_by(call: &Call, at_once: bool) -> bool
    ensures { result ≡ is_settled_by (operation call.now) at_once }
{
    match call {
        Call::Lock(_) | Call::Wrlock(_) => !at_once,
        Call::MutexInit(..) | Call::RwlockInit(_) => true,
        Call::CondInit(_) | Call::BarrierInit(..) => true,
        Call::MutexDestroy(_) | Call::RwlockDestroy(_) => true,
        Call::CondDestroy(_) | Call::BarrierDestroy(_) => true,
        Call::Consistent(_) => true,
        _ => false,
    }
}

/// Returns whether it is known from its plan that nothing must follow an event's entry.
/// [XSH pthread_mutex_lock, pthread_rwlock_wrlock]
#[inline(always)]
pub fn is_settled_after(event: &Event, plan: &Plan) -> bool
    ensures { result ≡ is_settled_after event.now plan.now.at_once }
{
    match event {
        Event::Call(_, call) => is_settled_by(call, plan.at_once),
        _ => false,
    }
}
