//! Sorting of a chain into rising order, which allocates nothing.

ghost use Rattle.std.specs.Bool.{OnTrue};
ghost use Rattle.std.specs.Prelude.{◌≡◌, ◌<◌, ◌≤◌, ℕ, List, true, length, take};
ghost use Rattle.std.specs.Prelude.{IsPermutation};
ghost use Rattle.std.specs.List.Sorted.{IsNonDecreasing};
ghost use Rattle.pt_table.specs.ObjectRows.{has_object};
ghost use Rattle.pt_table.specs.Linked.{is_linked, rows_without_links, HasChain, HasMaxLength};
ghost use Rattle.pt_table.specs.Linked.{IsRowChain, IsOneOf};
ghost use Rattle.pt_table.specs.Linked.{IsRising, IsSortedTo, KeepsOthers, last_number};
ghost use Rattle.pt_table.specs.Linked.{next_number, number_before};

use crate::link::{Link, noted};
use crate::objects::Objects;
use pt_types::MAX_OBJECTS;
use std::alloc::Allocator;

/// The most rows of a chain that is sorted in a short array. Zeroing an array for all rows that a
/// table may have would cost more than the sort.
const MAX_SORTED_IN_PLACE: usize = 32;

fn sort_numbers(numbers: &mut [u64])
    ensures unchanged { IsPermutation numbers.old numbers.new }
    ensures len { length numbers.new ≡ length numbers.old }
    ensures order { IsNonDecreasing numbers.new }
{
    numbers.sort_unstable();
}

// Returns the number before this index, if there is one.
fn number_ahead(numbers: &[u64], i: usize) -> Option<u64>
    requires { i < length numbers.now }
    ensures { result ≡ last_number (take i numbers.now) }
{
    if i == 0 { None } else { Some(numbers[i - 1]) }
}

impl<T, A: Allocator + Copy> Objects<T, A> {
    // Writes the numbers of the chain of a head to the front of a slice, and returns how many there
    // are.
    fn gather(&self, head: Option<u64>, numbers: &mut [u64]) -> usize
        requires chain { HasChain self.now head }
        requires room { HasMaxLength self.now head (length numbers.old) }
        ensures len { result ≤ length numbers.new }
        ensures chain { IsRowChain self.now head (take result numbers.new) }
    {
        let mut rest = head;
        let mut count = 0;
        while let Some(first) = rest {
            numbers[count] = first;
            count += 1;
            rest = self.next(first);
        }
        count
    }

    // Links rows to one another in the order of their numbers, whatever links they had, and returns
    // the head of their chain. The last row is linked first.
    fn link_each(&mut self, numbers: &[u64]) -> Option<u64>
        requires rising { IsRising numbers.now }
        requires rows { (n : ℕ) → IsOneOf numbers.now n → has_object self.old n ≡ true }
        ensures chain { IsRowChain self.new result numbers.now }
        ensures next { (n : ℕ)
            → (IsOneOf numbers.now n → ⊥)
            → next_number self.new n ≡ next_number self.old n }
        ensures before { (n : ℕ)
            → (IsOneOf numbers.now n → ⊥)
            → number_before self.new n ≡ number_before self.old n }
        ensures linked { (n : ℕ)
            → (IsOneOf numbers.now n → ⊥)
            → is_linked self.new n ≡ is_linked self.old n }
        ensures rows { rows_without_links self.new ≡ rows_without_links self.old }
    {
        let mut head = None;
        let mut head_slot = 0;
        for i in (0..numbers.len()).rev() {
            let slot = self.slot_near(numbers[i]);
            let link = Link {
                linked: true,
                next_slot: head_slot,
                before_slot: 0,
                next: head,
                before: number_ahead(numbers, i),
            };
            self.set_own(slot, numbers[i], link);
            head = Some(numbers[i]);
            head_slot = noted(slot);
        }
        head
    }

    // Sorts the chain of a head into rising order, in a slice with room for its numbers, and
    // returns its new head.
    fn sort_by(&mut self, head: Option<u64>, room: &mut [u64]) -> Option<u64>
        requires chain { HasChain self.old head }
        requires room { HasMaxLength self.old head (length room.old) }
        ensures chain { IsSortedTo self.old self.new head result }
        ensures others { KeepsOthers self.old self.new head }
        ensures linked { (n : ℕ) → is_linked self.new n ≡ is_linked self.old n }
        ensures rows { rows_without_links self.new ≡ rows_without_links self.old }
    {
        let count = self.gather(head, room);
        let (numbers, _) = room.split_at_mut(count);
        sort_numbers(numbers);
        self.link_each(numbers)
    }

    // Returns whether a chain has at most `max_len` rows.
    fn is_within(&self, head: Option<u64>, max_len: usize) -> bool
        ensures { OnTrue result (HasMaxLength self.now head max_len) }
    {
        let mut rest = head;
        for _ in 0..max_len {
            let Some(first) = rest else {
                return true;
            };
            rest = self.next(first);
        }
        rest.is_none()
    }

    // Returns whether the numbers of a chain rise, as they do if the rows were linked by falling
    // number.
    fn is_rising(&self, head: Option<u64>) -> bool
        ensures { OnTrue result ((numbers : List ℕ)
            → IsRowChain self.now head numbers
            → IsRising numbers) }
    {
        let Some(mut last) = head else {
            return true;
        };
        for _ in 0..self.len() {
            let Some(next) = self.next(last) else {
                return true;
            };
            if next <= last {
                return false;
            }
            last = next;
        }
        false
    }

    /// Sorts the chain of a head into rising order, and returns its new head.
    pub fn sort(&mut self, head: Option<u64>) -> Option<u64>
        requires { HasChain self.old head }
        ensures chain { IsSortedTo self.old self.new head result }
        ensures others { KeepsOthers self.old self.new head }
        ensures linked { (n : ℕ) → is_linked self.new n ≡ is_linked self.old n }
        ensures rows { rows_without_links self.new ≡ rows_without_links self.old }
    {
        if self.len() < 2 || self.is_rising(head) {
            return head;
        }
        if self.is_within(head, MAX_SORTED_IN_PLACE) {
            return self.sort_by(head, &mut [0; MAX_SORTED_IN_PLACE]);
        }
        self.sort_by(head, &mut [0; MAX_OBJECTS])
    }
}
