//! Chains of objects, linked in both directions by links that are stored in the rows.

ghost use Rattle.std.specs.Prelude.{◌≡◌, ◌||◌, ◌&&◌, ◌∷◌, ℕ, List, Some, None, true, false, not};
ghost use Rattle.std.specs.Prelude.{nat_eq, if◌then◌else◌};
ghost use Rattle.pt_table.specs.ObjectRows.{has_object};
ghost use Rattle.pt_table.specs.Linked.{next_number, number_before, is_linked, is_this_number};
ghost use Rattle.pt_table.specs.Linked.{but_number, rows_without_links, HasChain, IsRowChain};
ghost use Rattle.pt_table.specs.Linked.{IsInChain};
ghost use Rattle.pt_table.specs.Linked.{IsLinkedIf, KeepsOthers};

use crate::link::{Link, noted};
use crate::objects::Objects;
use std::alloc::Allocator;

impl<T, A: Allocator + Copy> Objects<T, A> {
    /// Returns the number of the object after this one in its chain.
    pub fn next(&self, number: u64) -> Option<u64>
        ensures { result ≡ next_number self.now number }
    {
        match self.link_of(number) {
            Some(link) => link.next,
            None => None,
        }
    }

    // Returns the slot of the first row of a chain, or any slot if the chain is empty.
    fn slot_of_head(&self, head: Option<u64>) -> usize {
        match head {
            Some(first) => self.slot_near(first),
            None => 0,
        }
    }

    // Sets what comes after the row with this number in its chain, if a number is given.
    fn set_next(&mut self, slot: usize, number: Option<u64>, link: Link)
        requires { IsLinkedIf self.old number }
        ensures next { (n : ℕ)
            → next_number self.new n
            ≡ (if is_this_number number n then link.next else next_number self.old n) }
        ensures before { (n : ℕ) → number_before self.new n ≡ number_before self.old n }
        ensures linked { (n : ℕ) → is_linked self.new n ≡ is_linked self.old n }
        ensures rows { rows_without_links self.new ≡ rows_without_links self.old }
    {
        if let Some(number) = number {
            let mut its = self.link_near(slot, number);
            its.next = link.next;
            its.next_slot = link.next_slot;
            self.set_link(slot, number, its);
        }
    }

    // Sets what comes before the row with this number in its chain, if a number is given.
    fn set_before(&mut self, slot: usize, number: Option<u64>, link: Link)
        requires { IsLinkedIf self.old number }
        ensures next { (n : ℕ) → next_number self.new n ≡ next_number self.old n }
        ensures before { (n : ℕ)
            → number_before self.new n
            ≡ (if is_this_number number n then link.before else number_before self.old n) }
        ensures linked { (n : ℕ) → is_linked self.new n ≡ is_linked self.old n }
        ensures rows { rows_without_links self.new ≡ rows_without_links self.old }
    {
        if let Some(number) = number {
            let mut its = self.link_near(slot, number);
            its.before = link.before;
            its.before_slot = link.before_slot;
            self.set_link(slot, number, its);
        }
    }

    // Sets the link of a row.
    #[inline(always)]
    pub(crate) fn set_own(&mut self, slot: usize, number: u64, link: Link)
        requires { has_object self.old number ≡ true }
        ensures next { (n : ℕ)
            → next_number self.new n
            ≡ (if nat_eq number n then link.next else next_number self.old n) }
        ensures before { (n : ℕ)
            → number_before self.new n
            ≡ (if nat_eq number n then link.before else number_before self.old n) }
        ensures linked { (n : ℕ)
            → is_linked self.new n
            ≡ (if nat_eq number n then link.linked else is_linked self.old n) }
        ensures rows { rows_without_links self.new ≡ rows_without_links self.old }
    {
        self.set_link(slot, number, link);
    }

    /// Puts a row first in the chain of a head, or begins a chain with it, and returns the new
    /// head.
    pub fn link(&mut self, head: Option<u64>, number: u64) -> u64
        requires chain { HasChain self.old head }
        requires row { has_object self.old number ≡ true }
        requires free { is_linked self.old number ≡ false }
        ensures result { result ≡ number }
        ensures chain { (numbers : List ℕ)
            → IsRowChain self.old head numbers
            → IsRowChain self.new (Some result) (number ∷ numbers) }
        ensures others { KeepsOthers self.old self.new head }
        ensures linked { (n : ℕ)
            → is_linked self.new n ≡ (nat_eq number n || is_linked self.old n) }
        ensures rows { rows_without_links self.new ≡ rows_without_links self.old }
    {
        let slot = self.slot_near(number);
        let head_slot = self.slot_of_head(head);
        let first = Link {
            linked: true,
            next_slot: noted(head_slot),
            before_slot: 0,
            next: head,
            before: None,
        };
        let second = Link {
            linked: true,
            next_slot: 0,
            before_slot: noted(slot),
            next: None,
            before: Some(number),
        };
        self.set_own(slot, number, first);
        self.set_before(head_slot, head, second);
        number
    }

    // Removes a row from its chain by linking the rows before and after it to one another, and
    // returns the number of the row after it.
    fn take(&mut self, number: u64) -> Option<u64>
        requires row { has_object self.old number ≡ true }
        requires next { IsLinkedIf self.old (next_number self.old number) }
        requires before { IsLinkedIf self.old (number_before self.old number) }
        ensures result { result ≡ next_number self.old number }
        ensures next { (n : ℕ)
            → next_number self.new n
            ≡ (if nat_eq number n
            then None
            else if is_this_number (number_before self.old number) n
            then next_number self.old number
            else next_number self.old n) }
        ensures before { (n : ℕ)
            → number_before self.new n
            ≡ (if nat_eq number n
            then None
            else if is_this_number (next_number self.old number) n
            then number_before self.old number
            else number_before self.old n) }
        ensures linked { (n : ℕ)
            → is_linked self.new n ≡ (if nat_eq number n then false else is_linked self.old n) }
        ensures rows { rows_without_links self.new ≡ rows_without_links self.old }
    {
        let slot = self.slot_near(number);
        let link = self.link_near(slot, number);
        self.set_next(link.before_slot as usize, link.before, link);
        self.set_before(link.next_slot as usize, link.next, link);
        self.set_own(slot, number, Link::out());
        link.next
    }

    /// Removes a row from the chain of a head, and returns the head of the rest.
    #[inline(always)]
    pub fn unlink(&mut self, head: u64, number: u64) -> Option<u64>
        requires { IsInChain self.old head number }
        ensures chain { (numbers : List ℕ)
            → IsRowChain self.old (Some head) numbers
            → IsRowChain self.new result (but_number numbers number) }
        ensures others { KeepsOthers self.old self.new (Some head) }
        ensures linked { (n : ℕ)
            → is_linked self.new n ≡ (not (nat_eq number n) && is_linked self.old n) }
        ensures rows { rows_without_links self.new ≡ rows_without_links self.old }
    {
        let after = self.take(number);
        if head == number { after } else { Some(head) }
    }
}
