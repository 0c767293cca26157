//! The calls that wait at an object, in the order of their turns.

ghost use Rattle.std.specs.Prelude.{◌≡◌, OnOk, OnErr, IfOk, IfErr};
ghost use Rattle.pt_legal.specs.Cores.{history_of, core_state};
ghost use Rattle.pt_states.specs.Turns.{place_in, turn_key, turns_at};
ghost use Rattle.pt_states.specs.Turns.{turns_with, with_turn};

use pt_grammar::ClientName;
use pt_readable::{ReadableHistory, Waiting};
use pt_types::key_order::{Key, goes_before};
use pt_types::operations::ObjectClass;
use pt_types::{ClientId, ObjectId, Refusal};
use std::alloc::Allocator;

/// The turn of a client whose call waits at an object.  [XSH 2.8.4]
#[derive(Drop)]
pub struct Turn {
    pub name: ClientName,
    pub key: Key,
}

// Returns the key by which a call has its turn at an object of this class.
// [XSH 2.8.4, pthread_barrier_wait]
fn turn_key(class: ObjectClass, key: Key) -> Key
    ensures { result ≡ turn_key class key }
{
    match class {
        ObjectClass::Barrier => Key { priority: 0, ..key },
        _ => key,
    }
}

// Returns the index of the first of these turns that a turn goes before, or their number.
// [XSH 2.8.4]
fn place_of(turn: &Turn, turns: &[Turn]) -> usize
    ensures { result ≡ place_in turn.now turns.now }
{
    for (place, other) in turns.iter().enumerate() {
        if goes_before(turn.key, other.key) {
            return place;
        }
    }
    turns.len()
}

// Adds a turn in order.  [XSH 2.8.4]
fn add<A: Allocator>(turns: &mut Vec<Turn, A>, turn: Turn) -> Result<(), Refusal>
    ensures ok { OnOk result (turns.new.items ≡ with_turn turn turns.old.items) }
    ensures err { IfErr result (λ refusal. refusal ≡ Refusal.Enomem) }
{
    let place = place_of(&turn, turns.as_slice());
    match turns.insert(place, turn) {
        Ok(()) => Ok(()),
        Err(_) => Err(Refusal::Enomem),
    }
}

// Adds the turn of a client, if its call waits at this object.
fn add_client<A: Allocator>(
    turns: &mut Vec<Turn, A>,
    class: ObjectClass,
    o: ObjectId,
    name: &ClientName,
    waiting: &Option<Waiting>,
) -> Result<(), Refusal>
    ensures ok { OnOk result
        (turns.new.items ≡ turns_with class o name.now waiting.now turns.old.items) }
    ensures err { IfErr result (λ refusal. refusal ≡ Refusal.Enomem) }
{
    match waiting {
        Some(waiting) if waiting.object == o => {
            let turn = Turn {
                name: name.copied(),
                key: turn_key(class, waiting.key),
            };
            add(turns, turn)
        }
        _ => Ok(()),
    }
}

/// Returns the turns of the clients whose calls wait at an object of this class, in order.
/// [XSH 2.8.4]
pub fn turns_at<C: ReadableHistory, A: Allocator + Copy>(
    alloc: A,
    core: &C,
    clients: &[(ClientName, ClientId)],
    class: ObjectClass,
    o: ObjectId,
) -> Result<Vec<Turn, A>, Refusal>
    ensures ok { IfOk result (λ turns. turns.items
        ≡ turns_at (history_of (core_state (C.seen core.now))) class o clients.now) }
    ensures err { IfErr result (λ refusal. refusal ≡ Refusal.Enomem) }
{
    let mut turns = Vec::new(alloc);
    for (name, c) in clients {
        add_client(&mut turns, class, o, name, &core.waiting(*c))?;
    }
    Ok(turns)
}
