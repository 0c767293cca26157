//! Keys that were canceled while others were due before them. They are removed once they would be
//! first.

ghost use Rattle.std.specs.Prelude.{◌≡◌, ◌+◌, ◌<◌, ◌≤◌, false, true};
ghost use Rattle.std.specs.BinaryHeap.{IsHeap, heap_items, heap_len, heap_capacity};
ghost use Rattle.pt_timers.specs.declared.key.TimerKey.{TimerKey};
ghost use Rattle.pt_timers.specs.Deadlines.{is_in, is_live, key_cmp, HasLiveFirst};

use crate::key::TimerKey;
use crate::keys::{first_of, pop, push};
use std::alloc::Allocator;
use std::cmp::Ordering;
use std::collections::BinaryHeap;

// The number of canceled keys that may stay however few the others are.
const MAX_CANCELED: usize = 64;

// Removes one key if the first canceled key is not due after the first key: the first key if the
// two are equal, or else the canceled one, which no key equals. Returns whether a key was removed.
fn drop_stale<A: Allocator + Copy>(
    keys: &mut BinaryHeap<TimerKey, A>,
    canceled: &mut BinaryHeap<TimerKey, A>,
) -> bool
    requires heap { IsHeap key_cmp (heap_items keys.old) }
    requires canceled { IsHeap key_cmp (heap_items canceled.old) }
    ensures heap { IsHeap key_cmp (heap_items keys.new) }
    ensures canceled { IsHeap key_cmp (heap_items canceled.new) }
    ensures live { (q : TimerKey) → is_live (heap_items keys.new) (heap_items canceled.new) q
        ≡ is_live (heap_items keys.old) (heap_items canceled.old) q }
    ensures fewer { (q : TimerKey) → is_in (heap_items canceled.new) q ≡ true
        → is_in (heap_items canceled.old) q ≡ true }
    ensures disjoint { result ≡ false
        → HasLiveFirst (heap_items keys.new) (heap_items canceled.new) }
    ensures smaller { result ≡ true → heap_len keys.new + heap_len canceled.new
        < heap_len keys.old + heap_len canceled.old }
    ensures len { heap_len keys.new ≤ heap_len keys.old }
{
    let Some(other) = first_of(canceled) else {
        return false;
    };
    let Some(first) = first_of(keys) else {
        pop(canceled, &other);
        return true;
    };
    match other.cmp(&first) {
        Ordering::Less => return false,
        Ordering::Equal => pop(keys, &first),
        Ordering::Greater => pop(canceled, &other),
    }
    true
}

/// Removes keys until the first one is not canceled.
pub(crate) fn settle<A: Allocator + Copy>(
    keys: &mut BinaryHeap<TimerKey, A>,
    canceled: &mut BinaryHeap<TimerKey, A>,
)
    requires heap { IsHeap key_cmp (heap_items keys.old) }
    requires canceled { IsHeap key_cmp (heap_items canceled.old) }
    ensures heap { IsHeap key_cmp (heap_items keys.new) }
    ensures canceled { IsHeap key_cmp (heap_items canceled.new) }
    ensures live { (q : TimerKey) → is_live (heap_items keys.new) (heap_items canceled.new) q
        ≡ is_live (heap_items keys.old) (heap_items canceled.old) q }
    ensures fewer { (q : TimerKey) → is_in (heap_items canceled.new) q ≡ true
        → is_in (heap_items canceled.old) q ≡ true }
    ensures disjoint { HasLiveFirst (heap_items keys.new) (heap_items canceled.new) }
    ensures len { heap_len keys.new ≤ heap_len keys.old }
{
    while drop_stale(keys, canceled) {}
}

// Moves the keys that are not canceled to a heap that has room for them.
fn move_live<A: Allocator + Copy>(
    keys: &mut BinaryHeap<TimerKey, A>,
    canceled: &mut BinaryHeap<TimerKey, A>,
    live: &mut BinaryHeap<TimerKey, A>,
)
    requires heap { IsHeap key_cmp (heap_items keys.old) }
    requires canceled { IsHeap key_cmp (heap_items canceled.old) }
    requires disjoint { HasLiveFirst (heap_items keys.old) (heap_items canceled.old) }
    requires empty { IsHeap key_cmp (heap_items live.old) }
    requires none { (q : TimerKey) → is_in (heap_items live.old) q ≡ false }
    requires room { heap_len live.old + heap_len keys.old ≤ heap_capacity live.old }
    ensures heap { IsHeap key_cmp (heap_items live.new) }
    ensures live { (q : TimerKey) → is_in (heap_items live.new) q
        ≡ is_live (heap_items keys.old) (heap_items canceled.old) q }
{
    while let Some(first) = first_of(keys) {
        pop(keys, &first);
        settle(keys, canceled);
        let _ = push(live, &first);
    }
}

// Removes all canceled keys, if there is memory to do so.
#[cold]
#[inline(never)]
fn compact<A: Allocator + Copy>(
    keys: &mut BinaryHeap<TimerKey, A>,
    canceled: &mut BinaryHeap<TimerKey, A>,
    alloc: A,
)
    requires heap { IsHeap key_cmp (heap_items keys.old) }
    requires canceled { IsHeap key_cmp (heap_items canceled.old) }
    requires disjoint { HasLiveFirst (heap_items keys.old) (heap_items canceled.old) }
    ensures heap { IsHeap key_cmp (heap_items keys.new) }
    ensures canceled { IsHeap key_cmp (heap_items canceled.new) }
    ensures live { (q : TimerKey) → is_live (heap_items keys.new) (heap_items canceled.new) q
        ≡ is_live (heap_items keys.old) (heap_items canceled.old) q }
    ensures fewer { (q : TimerKey) → is_in (heap_items canceled.new) q ≡ true
        → is_in (heap_items canceled.old) q ≡ true }
    ensures disjoint { HasLiveFirst (heap_items keys.new) (heap_items canceled.new) }
{
    if let Ok(mut live) = BinaryHeap::with_capacity(alloc, keys.len()) {
        move_live(keys, canceled, &mut live);
        *keys = live;
        canceled.clear();
    }
}

/// Removes all canceled keys if they are more than `MAX_CANCELED` and more than three in four, and
/// there is memory to do so.
pub(crate) fn compact_if_sparse<A: Allocator + Copy>(
    keys: &mut BinaryHeap<TimerKey, A>,
    canceled: &mut BinaryHeap<TimerKey, A>,
    alloc: A,
)
    requires heap { IsHeap key_cmp (heap_items keys.old) }
    requires canceled { IsHeap key_cmp (heap_items canceled.old) }
    requires disjoint { HasLiveFirst (heap_items keys.old) (heap_items canceled.old) }
    ensures heap { IsHeap key_cmp (heap_items keys.new) }
    ensures canceled { IsHeap key_cmp (heap_items canceled.new) }
    ensures live { (q : TimerKey) → is_live (heap_items keys.new) (heap_items canceled.new) q
        ≡ is_live (heap_items keys.old) (heap_items canceled.old) q }
    ensures fewer { (q : TimerKey) → is_in (heap_items canceled.new) q ≡ true
        → is_in (heap_items canceled.old) q ≡ true }
    ensures disjoint { HasLiveFirst (heap_items keys.new) (heap_items canceled.new) }
{
    if MAX_CANCELED < canceled.len() && keys.len() - keys.len() / 4 < canceled.len() {
        compact(keys, canceled, alloc);
    }
}
