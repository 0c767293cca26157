//! The keys of deadlines, in a heap whose first key is the one that is due first.

ghost use Rattle.std.specs.Prelude.{◌≡◌, ◌+◌, ◌<◌, ◌≤◌, ◌&&◌, ◌||◌, not, Some};
ghost use Rattle.std.specs.Prelude.{OnOk, OnErr, IfErr, IsOk};
ghost use Rattle.std.specs.BinaryHeap.{IsHeap, heap_items, heap_len, heap_capacity};
ghost use Rattle.pt_types.specs.declared.outcome.Refusal.{Refusal};
ghost use Rattle.pt_timers.specs.declared.key.TimerKey.{TimerKey};
ghost use Rattle.pt_timers.specs.Deadlines.{is_found, is_in, key_cmp, same_key, IsFirstKey};

use crate::key::TimerKey;
use pt_types::Refusal;
use std::alloc::Allocator;
use std::collections::BinaryHeap;

/// Returns the key that is due first.
#[inline(always)]
pub(crate) fn first_of<A: Allocator + Copy>(keys: &BinaryHeap<TimerKey, A>) -> Option<TimerKey>
    requires { IsHeap key_cmp (heap_items keys.now) }
    ensures { IsFirstKey (heap_items keys.now) result }
{
    match keys.peek() {
        Some(first) => Some(*first),
        None => None,
    }
}

/// Returns whether this key is the one that was found.
pub(crate) fn is_key(found: &Option<TimerKey>, key: &TimerKey) -> bool
    ensures { result ≡ is_found found.now key.now }
{
    match found {
        Some(first) => first == key,
        None => false,
    }
}

/// Makes room for `additional` more keys. Returns ENOMEM if the growth is refused.
pub(crate) fn reserve<A: Allocator + Copy>(
    keys: &mut BinaryHeap<TimerKey, A>,
    additional: usize,
) -> Result<(), Refusal>
    ensures items { heap_items keys.new ≡ heap_items keys.old }
    ensures err { IfErr result (λ refusal. refusal ≡ Refusal.Enomem) }
{
    match keys.reserve(additional) {
        Ok(()) => Ok(()),
        Err(_) => Err(Refusal::Enomem),
    }
}

/// Adds a key. Returns ENOMEM if the growth is refused, and then changes nothing.
pub(crate) fn push<A: Allocator + Copy>(
    keys: &mut BinaryHeap<TimerKey, A>,
    key: &TimerKey,
) -> Result<(), Refusal>
    requires { IsHeap key_cmp (heap_items keys.old) }
    ensures heap { IsHeap key_cmp (heap_items keys.new) }
    ensures ok { OnOk result ((q : TimerKey) → is_in (heap_items keys.new) q
        ≡ (same_key key.now q || is_in (heap_items keys.old) q)) }
    ensures len { OnOk result (heap_len keys.new ≡ heap_len keys.old + 1) }
    ensures unchanged { OnErr result (heap_items keys.new ≡ heap_items keys.old) }
    ensures err { IfErr result (λ refusal. refusal ≡ Refusal.Enomem) }
    ensures capacity { heap_capacity keys.old ≤ heap_capacity keys.new }
    ensures succeeds { heap_len keys.old < heap_capacity keys.old → IsOk result }
{
    match keys.push(*key) {
        Ok(()) => Ok(()),
        Err(_) => Err(Refusal::Enomem),
    }
}

/// Removes one key that is due first.
#[inline(always)]
pub(crate) fn pop<A: Allocator + Copy>(keys: &mut BinaryHeap<TimerKey, A>, first: &TimerKey)
    requires heap { IsHeap key_cmp (heap_items keys.old) }
    requires first { IsFirstKey (heap_items keys.old) (Some first.now) }
    ensures heap { IsHeap key_cmp (heap_items keys.new) }
    ensures left { (q : TimerKey) → is_in (heap_items keys.old) q
        ≡ (same_key first.now q || is_in (heap_items keys.new) q) }
    ensures len { heap_len keys.new + 1 ≡ heap_len keys.old }
{
    keys.pop();
}

/// Removes a key, wherever it is. It takes time that grows with the number of keys.
#[inline(never)]
pub(crate) fn drop_key<A: Allocator + Copy>(keys: &mut BinaryHeap<TimerKey, A>, key: &TimerKey)
    ensures heap { IsHeap key_cmp (heap_items keys.new) }
    ensures left { (q : TimerKey) → is_in (heap_items keys.new) q
        ≡ (not (same_key key.now q) && is_in (heap_items keys.old) q) }
{
    keys.retain(|other| other != key);
}

/// Removes the key that is due first, however often it occurs.
pub(crate) fn pop_all<A: Allocator + Copy>(keys: &mut BinaryHeap<TimerKey, A>, first: &TimerKey)
    requires heap { IsHeap key_cmp (heap_items keys.old) }
    requires first { IsFirstKey (heap_items keys.old) (Some first.now) }
    ensures heap { IsHeap key_cmp (heap_items keys.new) }
    ensures left { (q : TimerKey) → is_in (heap_items keys.new) q
        ≡ (not (same_key first.now q) && is_in (heap_items keys.old) q) }
{
    pop(keys, first);
    let next = first_of(keys);
    if is_key(&next, first) {
        drop_key(keys, first);
    }
}
