//! The chains of queues, by the queues' numbers.

ghost use Rattle.std.specs.Prelude.{◌≡◌, ◌+◌, ◌<◌, ◌≤◌, ◌^◌, ◌==◌, ◌||◌, [], ℕ, Some, None};
ghost use Rattle.std.specs.Prelude.{IfSome, false, nat_eq, length, if◌then◌else◌, vec_len};
ghost use Rattle.std.specs.Prelude.{vec_capacity, slice_index};
ghost use Rattle.std.specs.Bool.{OnTrue};
ghost use Rattle.std.specs.List.{AllByRecursion as Each};
ghost use Rattle.std.specs.Map.{lookup};
ghost use Rattle.std.specs.Option.{option_copied, option_map};
ghost use Rattle.pt_types.specs.Limits.{max_priority};
ghost use Rattle.pt_chains.specs.Boxes.{IsEmptied};
ghost use Rattle.pt_chains.specs.Chains.{numbers, side_of, HasNone, IsAppended, Unique};
ghost use Rattle.pt_chains.specs.OpenQueues.{queue_at};
ghost use Rattle.pt_chains.specs.Rows.{chains_in, rows_of, KeepsOthers};
ghost use Rattle.pt_waitq.specs.Waits.{is_listed};

use crate::boxed::BoxedQueue;
use crate::link::{Link, NodeIndex};
use crate::marked::MarkedQueue;
use crate::spares::Spares;
use slab::Slab;
use std::alloc::Allocator;
use std::collections::HashMap;
use std::hash::{BuildHasherDefault, FoldHasher};
use std::marker::Model;

/// The number of hints, one for each value of a number's low bits.
const COUNT: usize = 4096;

/// The chains of queues, by the queues' numbers.
///
/// The row of a number is first looked for in the slot of its hint, and then by its hash.
#[derive(Drop)]
pub(crate) struct Rows<A: Allocator + Copy> {
    /// The slot of each number.
    places: HashMap<u64, usize, BuildHasherDefault<FoldHasher>, A>,
    /// The slots, each with a queue and its number.
    slots: Slab<(u64, BoxedQueue<A>), A>,
    /// For each value of a number's low bits, the slot that was noted last with such a number. The
    /// row in it may be that of another number.
    hints: [u16; COUNT],
}

impl<A: Allocator + Copy> Model for Rows<A> {
    ghost use Rattle.std.specs.Prelude.{◌-◌, min};
    ghost use Rattle.std.specs.HashMap.{spare};
    ghost use Rattle.slab.specs.Slab.{slab_len};
    ghost use Rattle.pt_chains.specs.Rows.{RowsView, AreRows};

    ghost Value = { RowsView };

    ghost view = { λ r. record {
      places = r.places.entries;
      slots = r.slots.slots;
      room = min (spare r.places) (r.slots.capacity - slab_len r.slots);
    } };

    ghost invariant = { λ r. AreRows r.places.entries r.slots.slots };
}

impl<A: Allocator + Copy> Rows<A> {
    /// Creates an empty set of rows, which allocates nothing.
    pub(crate) fn new(alloc: A) -> Self
        ensures { rows_of result ≡ [] }
    {
        Rows {
            places: HashMap::new(alloc),
            slots: Slab::new(alloc),
            hints: [0; COUNT],
        }
    }

    /// Returns the number of rows.
    pub(crate) fn len(&self) -> usize
        ensures { result ≡ length (rows_of self.now) }
    {
        self.places.len()
    }

    /// Returns the slot in which a number's row is looked for first. The row in it may be that of
    /// another number.
    #[inline(always)]
    pub(crate) fn hint(&self, number: u64) -> usize {
        self.hints[number as usize % COUNT] as usize
    }

    // Notes the slot of a number's row, if the slot fits 16 bits.
    fn note(&mut self, number: u64, slot: usize)
        ensures { self.new ≡ self.old }
    {
        if let Ok(slot) = u16::try_from(slot) {
            self.hints[number as usize % COUNT] = slot;
        }
    }

    // Returns the queue in a slot if it is the number's.
    #[inline(always)]
    fn queue_in(&self, slot: usize, number: u64) -> Option<&BoxedQueue<A>>
        ensures { IfSome result (λ queue.
            lookup (nat_eq number) (rows_of self.now) ≡ Some queue.now) }
    {
        match self.slots.get(slot) {
            Some((own, queue)) if *own == number => Some(queue),
            _ => None,
        }
    }

    // Returns the queue of a number, found by the number's hash.
    #[cold]
    #[inline(never)]
    fn queue_by_hash(&self, number: u64) -> Option<&BoxedQueue<A>>
        ensures { option_copied result ≡ lookup (nat_eq number) (rows_of self.now) }
    {
        let slot = *self.places.get(&number)?;
        let (_, queue) = self.slots.get(slot).unwrap();
        Some(queue)
    }

    /// Returns the queue of a number if it is in the slot of the number's hint.
    pub(crate) fn get_by_hint(&self, number: u64) -> Option<&BoxedQueue<A>>
        ensures { IfSome result (λ queue.
            lookup (nat_eq number) (rows_of self.now) ≡ Some queue.now) }
    {
        self.queue_in(self.hint(number), number)
    }

    /// Returns the queue of a number, if there is one. The given slot is tried first.
    pub(crate) fn get_from(&self, slot: usize, number: u64) -> Option<&BoxedQueue<A>>
        ensures { option_copied result ≡ lookup (nat_eq number) (rows_of self.now) }
    {
        match self.queue_in(slot, number) {
            Some(queue) => Some(queue),
            None => self.queue_by_hash(number),
        }
    }

    /// Returns the queue of a number, if there is one.
    pub(crate) fn get(&self, number: u64) -> Option<&BoxedQueue<A>>
        ensures { option_copied result ≡ lookup (nat_eq number) (rows_of self.now) }
    {
        self.get_from(self.hint(number), number)
    }

    // Returns whether a number's row is in a slot.
    fn is_in(&self, slot: usize, number: u64) -> bool
        ensures { OnTrue result (lookup (nat_eq number) self.now.places ≡ Some slot) }
    {
        match self.slots.get(slot) {
            Some((own, _)) => *own == number,
            None => false,
        }
    }

    // Returns the slot of a number's row, found by the number's hash.
    #[cold]
    #[inline(never)]
    fn slot_by_hash(&self, number: u64) -> Option<usize>
        ensures { result ≡ lookup (nat_eq number) self.now.places }
    {
        self.places.get(&number).copied()
    }

    /// Returns the slot of a number's row, if there is one. The given slot is tried first.
    pub(crate) fn slot_from(&self, slot: usize, number: u64) -> Option<usize>
        ensures { result ≡ lookup (nat_eq number) self.now.places }
    {
        if self.is_in(slot, number) {
            return Some(slot);
        }
        self.slot_by_hash(number)
    }

    /// Makes room for this many rows in total, and returns whether there was memory for them.
    pub(crate) fn reserve(&mut self, rows: usize) -> bool
        ensures unchanged { (x : ℕ)
            → lookup (nat_eq x) (rows_of self.new) ≡ lookup (nat_eq x) (rows_of self.old) }
        ensures len { length (rows_of self.new) ≡ length (rows_of self.old) }
        ensures more { self.old.room ≤ self.new.room }
        ensures covers { OnTrue result (rows ≤ length (rows_of self.new) + self.new.room) }
    {
        let more = rows.saturating_sub(self.len());
        self.places.reserve(more).is_ok() && self.slots.reserve(more).is_ok()
    }

    /// Adds an empty queue with a number that has no row, and returns its slot.
    #[cold]
    #[inline(never)]
    pub(crate) fn add(&mut self, number: u64) -> usize
        requires none { lookup (nat_eq number) (rows_of self.old) ≡ None }
        requires room { Unique (numbers (rows_of self.old)) → 0 < self.old.room }
        ensures at { lookup (nat_eq number) self.new.places ≡ Some result }
        ensures unchanged { (x : ℕ) → queue_at (rows_of self.new) x
            ≡ queue_at (rows_of self.old) x }
        ensures listed { (x : ℕ) → is_listed x (numbers (rows_of self.new))
            ≡ (is_listed x (numbers (rows_of self.old)) || (number == x)) }
        ensures room { length (rows_of self.old) + self.old.room
            ≤ length (rows_of self.new) + self.new.room }
    {
        let slot = self.slots.insert_reserved((number, BoxedQueue::new()));
        let placed: Result<_, _> = self.places.insert(number, slot);
        placed.unwrap();
        self.note(number, slot);
        slot
    }

    /// Makes a node the tail of a chain of the queue in a slot, and returns the previous tail. A
    /// queue with no waiter takes a spare box.
    #[inline(always)]
    pub(crate) fn put_in(
        &mut self,
        slot: usize,
        spares: &mut Spares<A>,
        writer: bool,
        p: usize,
        node: NodeIndex,
    ) -> Link
        requires index { p < max_priority }
        requires exists { (number : ℕ) × (lookup (nat_eq number) self.old.places ≡ Some slot) }
        requires room { slice_index (side_of writer (chains_in self.old.slots slot)).counts p + 1
            < 2 ^ 32 }
        requires len { (chains_in self.old.slots slot).len + 1 < 2 ^ 64 }
        requires spare { (chains_in self.old.slots slot).len ≡ 0 → 0 < vec_len spares.old }
        requires empty { Each (λ b. HasNone b.value) spares.old.items }
        ensures places { self.new.places ≡ self.old.places }
        ensures others { KeepsOthers slot self.old self.new }
        ensures queue { IsAppended writer p node result (chains_in self.old.slots slot)
            (chains_in self.new.slots slot) }
        ensures more { self.new.room ≡ self.old.room }
        ensures spares { vec_len spares.new
            + (if (chains_in self.old.slots slot).len == 0 then 1 else 0) ≡ vec_len spares.old }
        ensures capacity { vec_capacity spares.new ≡ vec_capacity spares.old }
        ensures empty { Each (λ b. HasNone b.value) spares.new.items }
    {
        let (_, queue) = self.slots.get_mut(slot).unwrap();
        queue.put_in(spares, writer, p, node)
    }

    /// Removes the node between these two from a chain of the queue in a slot, and returns the
    /// queue's box if no waiter is left.
    #[inline(always)]
    pub(crate) fn take_out(
        &mut self,
        slot: usize,
        writer: bool,
        p: usize,
        before: Link,
        next: Link,
    ) -> Option<Box<MarkedQueue, A>>
        requires index { p < max_priority }
        requires exists { (number : ℕ) × (lookup (nat_eq number) self.old.places ≡ Some slot) }
        requires waits { 1 ≤ slice_index (side_of writer (chains_in self.old.slots slot)).counts p }
        requires len { 1 ≤ (chains_in self.old.slots slot).len }
        ensures places { self.new.places ≡ self.old.places }
        ensures others { KeepsOthers slot self.old self.new }
        ensures queue { IsEmptied writer p before next (chains_in self.old.slots slot)
            (chains_in self.new.slots slot) (option_map (λ b. b.value) result) }
        ensures more { self.new.room ≡ self.old.room }
    {
        let (_, queue) = self.slots.get_mut(slot).unwrap();
        queue.take_out(writer, p, before, next)
    }

    /// Removes a number's row, if there is one.
    #[cold]
    #[inline(never)]
    pub(crate) fn take(&mut self, number: u64)
        ensures rows { (x : ℕ) → lookup (nat_eq x) (rows_of self.new)
            ≡ (if number == x then None else lookup (nat_eq x) (rows_of self.old)) }
        ensures room { length (rows_of self.old) + self.old.room
            ≤ length (rows_of self.new) + self.new.room + 1 }
    {
        if let Some(slot) = self.places.remove(&number) {
            self.slots.remove(slot);
        }
    }
}
