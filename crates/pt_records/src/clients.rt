//! The row of a living client: its priority, its open call, its latest call with the answer, and
//! the robust mutexes that it owns.

ghost use Rattle.std.specs.Prelude.{IfErr, OnErr, OnOk, Some, ◌<◌, ◌≡◌, false, length, true};
ghost use Rattle.pt_table.specs.ClientRows.{client_value, has_client};
ghost use Rattle.pt_records.specs.Callers.{caller_after_call};
ghost use Rattle.pt_records.specs.Writes.{AddsCaller, RemovesCaller, WritesCaller};
ghost use Rattle.pt_types.specs.Limits.{max_clients};

use pt_model::waiting_call::{Move, WaitingCall};
use pt_table::Clients;
use pt_types::{ClientId, Outcome, Priority, Refusal};
use std::alloc::Allocator;

/// Stores the call at this place as its client's latest call, with the answer that it got at once.
#[inline(always)]
pub fn note_call<A: Allocator + Copy>(
    clients: &mut Clients<Caller, A>,
    c: ClientId,
    place: u64,
    answer: Outcome,
)
    requires { has_client clients.old c ≡ true }
    ensures { (v : Caller) → client_value clients.old c ≡ Some v
        → WritesCaller clients.old clients.new c (caller_after_call place (Some answer) v) }
{
    if let Some(row) = clients.at_mut(c.0) {
        row.latest = Some(place);
        row.answer = Some(answer);
    }
}

/// Adds the row of a new client. Returns ENOMEM if there is no memory for it.
pub fn admit<A: Allocator + Copy>(
    clients: &mut Clients<Caller, A>,
    c: ClientId,
    caller: Caller,
) -> Result<(), Refusal>
    requires new { has_client clients.old c ≡ false }
    requires room { length clients.old < max_clients }
    ensures ok { OnOk result (AddsCaller clients.old clients.new c caller) }
    ensures unchanged { OnErr result (clients.new ≡ clients.old) }
    ensures err { IfErr result (λ refusal. refusal ≡ Refusal.Enomem) }
{
    match clients.add(c.0, caller) {
        Ok(()) => Ok(()),
        Err(_) => Err(Refusal::Enomem),
    }
}

/// Removes the client's row.
pub fn dismiss<A: Allocator + Copy>(clients: &mut Clients<Caller, A>, c: ClientId)
    requires { has_client clients.old c ≡ true }
    ensures { RemovesCaller clients.old clients.new c }
{
    let _ = clients.remove(c.0);
}

/// A client's open call, with its move if it is a wait that was moved.
#[derive(Clone, Copy)]
pub struct Open {
    pub call: WaitingCall,
    pub moved: Option<Move>,
}

/// The row of a living client: its priority, its open call, the place of its latest call, with the
/// answer if it has one, and the robust mutexes that it owns.
#[derive(Clone, Copy)]
pub struct Caller {
    pub priority: Priority,
    pub open: Option<Open>,
    pub latest: Option<u64>,
    pub answer: Option<Outcome>,
    /// The robust mutex that the client acquired last, of those that it owns. It is the head of
    /// their chain.
    pub owned: Option<u64>,
}
