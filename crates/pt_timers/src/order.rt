ghost use Rattle.std.specs.Prelude.{◌≡◌, ◌&&◌, ◌||◌, not, true, OnOk, OnErr, IfErr, false};
ghost use Rattle.std.specs.BinaryHeap.{IsHeap, heap_items};
ghost use Rattle.pt_types.specs.declared.outcome.Refusal.{Refusal};
ghost use Rattle.pt_timers.specs.declared.key.TimerKey.{TimerKey};
ghost use Rattle.pt_timers.specs.Deadlines.{is_in, is_live, key_cmp, same_key};
ghost use Rattle.pt_timers.specs.Deadlines.{ComeBefore, HasLiveFirst, IsFirstKey};

use crate::key::TimerKey;
use crate::keys::{drop_key, first_of, is_key, pop_all, push, reserve};
use crate::stale::{compact_if_sparse, settle};
use pt_types::Refusal;
use std::alloc::Allocator;
use std::collections::BinaryHeap;
use std::marker::Model;

/// The deadlines of a clock. A deadline that is canceled while another is due before it stays among
/// the keys, and is noted among the canceled ones. The places of canceled keys are at most `last`.
#[derive(Drop)]
pub(crate) struct Order<A: Allocator + Copy> {
    keys: BinaryHeap<TimerKey, A>,
    canceled: BinaryHeap<TimerKey, A>,
    last: u64,
    alloc: A,
}

impl<A: Allocator + Copy> Model for Order<A> {
    ghost use Rattle.std.specs.Prelude.{List};
    ghost use Rattle.std.specs.BinaryHeap.{heap_items};
    ghost use Rattle.pt_timers.specs.declared.key.TimerKey.{TimerKey};
    ghost use Rattle.pt_timers.specs.Deadlines.{live_keys, IsOrder};

    ghost Value = { List TimerKey };

    ghost view = { λ o. live_keys (heap_items o.keys) (heap_items o.canceled) };

    ghost invariant = { λ o. IsOrder (heap_items o.keys) (heap_items o.canceled) o.last };
}

impl<A: Allocator + Copy> Order<A> {
    /// Creates an order with no deadline, which allocates nothing.
    pub(crate) fn new(alloc: A) -> Self
        ensures { (q : TimerKey) → is_in result q ≡ false }
    {
        Order {
            keys: BinaryHeap::new(alloc),
            canceled: BinaryHeap::new(alloc),
            last: 0,
            alloc,
        }
    }

    /// Returns the deadline that is due first.
    #[inline(always)]
    pub(crate) fn first(&self) -> Option<TimerKey>
        ensures { IsFirstKey self.now result }
    {
        first_of(&self.keys)
    }

    /// Adds a deadline. Returns ENOMEM if a growth is refused, and then changes nothing.
    pub(crate) fn insert(&mut self, key: TimerKey) -> Result<(), Refusal>
        ensures ok { OnOk result ((q : TimerKey)
            → is_in self.new q ≡ (same_key key q || is_in self.old q)) }
        ensures unchanged { OnErr result (self.new ≡ self.old) }
        ensures err { IfErr result (λ refusal. refusal ≡ Refusal.Enomem) }
    {
        insert(&mut self.keys, &mut self.canceled, self.last, &key)?;
        compact_if_sparse(&mut self.keys, &mut self.canceled, self.alloc);
        Ok(())
    }

    /// Removes a deadline, if it is there. It allocates nothing.
    pub(crate) fn remove(&mut self, key: TimerKey)
        ensures { (q : TimerKey) → is_in self.new q ≡ (not (same_key key q) && is_in self.old q) }
    {
        let first = first_of(&self.keys);
        if is_key(&first, &key) {
            pop_all(&mut self.keys, &key);
        } else {
            cancel(&mut self.keys, &mut self.canceled, &mut self.last, &key);
        }
        settle(&mut self.keys, &mut self.canceled);
    }
}

// Adds a key, and leaves room for all keys to be canceled.
fn insert<A: Allocator + Copy>(
    keys: &mut BinaryHeap<TimerKey, A>,
    canceled: &mut BinaryHeap<TimerKey, A>,
    last: u64,
    key: &TimerKey,
) -> Result<(), Refusal>
    requires heap { IsHeap key_cmp (heap_items keys.old) }
    requires canceled { IsHeap key_cmp (heap_items canceled.old) }
    requires disjoint { HasLiveFirst (heap_items keys.old) (heap_items canceled.old) }
    requires before { ComeBefore (heap_items canceled.old) last }
    ensures heap { IsHeap key_cmp (heap_items keys.new) }
    ensures canceled { IsHeap key_cmp (heap_items canceled.new) }
    ensures fewer { (q : TimerKey) → is_in (heap_items canceled.new) q ≡ true
        → is_in (heap_items canceled.old) q ≡ true }
    ensures ok { OnOk result ((q : TimerKey)
        → is_live (heap_items keys.new) (heap_items canceled.new) q
        ≡ (same_key key.now q || is_live (heap_items keys.old) (heap_items canceled.old) q)) }
    ensures disjoint { OnOk result (HasLiveFirst (heap_items keys.new) (heap_items canceled.new)) }
    ensures unchanged { OnErr result (heap_items keys.new ≡ heap_items keys.old) }
    ensures unchanged_canceled { OnErr result (heap_items canceled.new ≡ heap_items canceled.old) }
    ensures err { IfErr result (λ refusal. refusal ≡ Refusal.Enomem) }
{
    reserve(canceled, keys.len())?;
    push(keys, key)?;
    if key.place <= last {
        drop_key(canceled, key);
    }
    Ok(())
}

// Notes that a key is canceled, or removes it if there is no room for the note.
#[inline(never)]
fn cancel<A: Allocator + Copy>(
    keys: &mut BinaryHeap<TimerKey, A>,
    canceled: &mut BinaryHeap<TimerKey, A>,
    last: &mut u64,
    key: &TimerKey,
)
    requires heap { IsHeap key_cmp (heap_items keys.old) }
    requires canceled { IsHeap key_cmp (heap_items canceled.old) }
    requires before { ComeBefore (heap_items canceled.old) last.old }
    ensures heap { IsHeap key_cmp (heap_items keys.new) }
    ensures canceled { IsHeap key_cmp (heap_items canceled.new) }
    ensures before { ComeBefore (heap_items canceled.new) last.new }
    ensures live { (q : TimerKey) → is_live (heap_items keys.new) (heap_items canceled.new) q
        ≡ (not (same_key key.now q)
        && is_live (heap_items keys.old) (heap_items canceled.old) q) }
{
    *last = key.place.max(*last);
    if canceled.capacity() <= canceled.len() || push(canceled, key).is_err() {
        drop_key(keys, key);
    }
}
