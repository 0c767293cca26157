ghost use Rattle.std.specs.Prelude.{◌≡◌};
ghost use Rattle.pt_model.specs.Histories.{history};
ghost use Rattle.pt_model.specs.Searches.{option_list};
ghost use Rattle.pt_model.specs.WaitingCall.{object_or_zero, new_waiting_call};
ghost use Rattle.pt_model.specs.WaitingCall.{waiting_calls_by, waiting_calls, call_at_place};
ghost use Rattle.pt_model.specs.WaitingCall.{is_cond_wait_if};

use crate::clients::client;
use crate::objects::find;
use pt_model::Entry;
use pt_model::waiting_call::{Role, WaitingCall, is_cond_wait, role_of_lock};
use pt_types::operations::{
    ObjectClass, Operation, class_needed, clock_of, deadline_of, operation_of,
};
use pt_types::{ClientId, Clock, Deadline, Name, ObjectId};

/// Returns the object that a name means as the call comes, or 0 if it means none.
pub fn meant(entries: &[Entry], n: &Name, class: ObjectClass) -> ObjectId
    ensures { result ≡ object_or_zero (history entries.now) n.now class }
{
    match find(entries, n, class) {
        Some(object) => object,
        None => ObjectId(0),
    }
}

/// Returns a client's call as a waiting call that is entered now.
#[tactic(auto, using(crate::proofs::Prefix::place_all))]
pub fn entered(
    entries: &[Entry],
    c: ClientId,
    object: ObjectId,
    role: Role,
    clock: Clock,
    deadline: Option<Deadline>,
) -> WaitingCall
    ensures { result
        ≡ new_waiting_call (history entries.now) c object role clock deadline }
{
    WaitingCall {
        place: entries.len() as u64,
        client: c,
        priority: match client(entries, c) {
            Some(priority) => priority.level() as u64,
            None => 0,
        },
        object,
        role,
        clock,
        deadline: match deadline {
            Some(deadline) => Some(deadline.nanos()),
            None => None,
        },
    }
}

/// Returns the call that an entry leaves waiting, if it leaves one.
pub fn waiting_calls_by(entries: &[Entry], entry: &Entry) -> Option<WaitingCall>
    ensures { option_list result ≡ waiting_calls_by (history entries.now) entry.now }
{
    let Entry::Call(c, call, None) = entry else {
        return None;
    };
    let clock = clock_of(call);
    match operation_of(call) {
        Operation::Acquires(n, lock_kind, how) => {
            let object = meant(entries, n, class_needed(lock_kind));
            Some(entered(
                entries,
                *c,
                object,
                role_of_lock(lock_kind),
                clock,
                deadline_of(how),
            ))
        }
        Operation::CondWaits(n, m, deadline) => {
            let mutex = meant(entries, m, ObjectClass::Mutex);
            let object = meant(entries, n, ObjectClass::Cond);
            Some(entered(entries, *c, object, Role::ForCond(mutex), clock, deadline))
        }
        Operation::BarrierWaits(n) => {
            let object = meant(entries, n, ObjectClass::Barrier);
            Some(entered(entries, *c, object, Role::ForBarrier, clock, None))
        }
        _ => None,
    }
}

/// Returns the call that came without a reply at a place.
pub fn waiting_call_at(entries: &[Entry], j: u64) -> Option<WaitingCall>
    ensures { result ≡ call_at_place j (waiting_calls (history entries.now)) }
{
    if j >= entries.len() as u64 {
        return None;
    }
    let i = j as usize;
    waiting_calls_by(&entries[..i], &entries[i])
}

/// Returns true if the call at a place is a wait.  [XSH pthread_cond_wait]
pub fn is_wait_at(entries: &[Entry], j: u64) -> bool
    ensures { result ≡ is_cond_wait_if (call_at_place j (waiting_calls (history entries.now))) }
{
    match waiting_call_at(entries, j) {
        Some(w) => is_cond_wait(w.role),
        None => false,
    }
}
