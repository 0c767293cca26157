//! The calls that wait at an object, as a row has them.

ghost use Rattle.std.specs.Prelude.{◌≡◌, ◌++◌, OnOk, IfErr};
ghost use Rattle.pt_states.specs.States.{aim_words, barrier_words, cond_words};
ghost use Rattle.pt_states.specs.States.{key_words, turn_words};

use crate::turns::Turn;
use pt_entries::{put, put_number, put_number_word};
use pt_types::Refusal;
use pt_types::key_order::Key;
use pt_types::operations::ObjectClass;
use std::alloc::Allocator;

// Returns what a call at a read-write lock waits for.  [XSH pthread_rwlock_wrlock]
fn aim_words(writes: bool) -> &'static [u8]
    ensures { result.now ≡ aim_words writes }
{
    if writes { b" writes" } else { b" reads" }
}

// Appends what decides a call's turn at an object of this class, besides its arrival.
// [XSH 2.8.4]
fn put_key<A: Allocator + Copy>(
    out: &mut Vec<u8, A>,
    class: ObjectClass,
    key: &Key,
) -> Result<(), Refusal>
    ensures ok { OnOk result (out.new.items ≡ out.old.items ++ key_words class key.now) }
    ensures err { IfErr result (λ refusal. refusal ≡ Refusal.Enomem) }
{
    match class {
        ObjectClass::Barrier => Ok(()),
        ObjectClass::Rwlock => {
            put_number_word(out, key.priority)?;
            put(out, aim_words(key.writes))
        }
        ObjectClass::Mutex | ObjectClass::Cond => put_number_word(out, key.priority),
    }
}

/// Appends turns, the first after a text and each other after a comma.
pub fn put_turns<A: Allocator + Copy>(
    out: &mut Vec<u8, A>,
    intro: &[u8],
    class: ObjectClass,
    turns: &[Turn],
) -> Result<(), Refusal>
    ensures ok { OnOk result
        (out.new.items ≡ out.old.items ++ turn_words intro.now class turns.now) }
    ensures err { IfErr result (λ refusal. refusal ≡ Refusal.Enomem) }
{
    let mut lead = intro;
    for turn in turns {
        put(out, lead)?;
        put(out, turn.name.as_bytes())?;
        put_key(out, class, &turn.key)?;
        lead = b", ";
    }
    Ok(())
}

/// Appends the calls that wait at a condition.  [XSH pthread_cond_wait]
pub fn put_cond<A: Allocator + Copy>(out: &mut Vec<u8, A>, turns: &[Turn]) -> Result<(), Refusal>
    ensures ok { OnOk result (out.new.items ≡ out.old.items ++ cond_words turns.now) }
    ensures err { IfErr result (λ refusal. refusal ≡ Refusal.Enomem) }
{
    if turns.is_empty() {
        put(out, b"nobody waits")
    } else {
        put_turns(out, b"waiting: ", ObjectClass::Cond, turns)
    }
}

/// Appends how many calls of a barrier's count wait there, and which.
/// [XSH pthread_barrier_wait]
pub fn put_barrier<A: Allocator + Copy>(
    out: &mut Vec<u8, A>,
    count: u64,
    turns: &[Turn],
) -> Result<(), Refusal>
    ensures ok { OnOk result (out.new.items ≡ out.old.items ++ barrier_words count turns.now) }
    ensures err { IfErr result (λ refusal. refusal ≡ Refusal.Enomem) }
{
    put_number(out, turns.len() as u64)?;
    put(out, b" of ")?;
    put_number(out, count)?;
    put_turns(out, b": ", ObjectClass::Barrier, turns)
}
