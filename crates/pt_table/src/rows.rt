//! Rows with numbers. They lie in a slab, and an index map leads from each number to a slot.

ghost use Rattle.std.specs.Prelude.{◌≡◌, ◌<◌, ◌++◌, ℕ, [], ◌∷◌, None, Some, OnOk, IsSome};
ghost use Rattle.std.specs.Prelude.{filter, is_some, length, slice_get};
ghost use Rattle.std.specs.Option.{option_and_then, option_copied, option_map};
ghost use Rattle.indexmap.specs.IndexMap.{spare};
ghost use Rattle.pt_table.specs.Rows.{row_at, without};
ghost use Rattle.pt_table.specs.Slots.{its_row, row_in_slot, rows_of, without_number};
ghost use Rattle.pt_table.specs.Slots.{HasRoom, IsSlotOf, IsTable, IsTaken, SameBut};

use crate::slot_hints::SlotHints;
use indexmap::IndexMap;
use slab::Slab;
use std::alloc::{AllocError, Allocator};
use std::hash::{BuildHasherDefault, FoldHasher};

/// A row that has a number.
pub(crate) trait Numbered {
    ghost its_number: { Self → ℕ };

    /// Returns the number of the row.
    fn number(&self) -> u64
        ensures { result ≡ its_number self.now };
}

/// The most numbers whose rows are gone that stay in the map of a table with few rows.
const MAX_FREE_SLOTS: usize = 64;

/// A map from numbers to slots.
type Slots<A> = IndexMap<u64, usize, BuildHasherDefault<FoldHasher>, A>;

/// Rows, each found by its number, in the order in which they were added.
///
/// A number's row is first looked for in the slot that its hint gives, and then in the slot to
/// which the map leads.
///
/// The map has the numbers in their order. A number stays in it after its row is removed, until it
/// is dropped alone, which moves all later numbers, or with all others whose rows are gone.
#[derive(Drop)]
pub(crate) struct Rows<R, A: Allocator + Copy> {
    pub(crate) rows: Slab<R, A>,
    pub(crate) slots: IndexMap<u64, usize, BuildHasherDefault<FoldHasher>, A>,
    hints: SlotHints,
}

// Returns the row in a slot if it has this number.
#[inline(always)]
fn row_if_its<'a, R: Numbered, A: Allocator + Copy>(
    rows: &'a Slab<R, A>,
    number: u64,
    slot: usize,
) -> Option<&'a R>
    ensures { option_copied result ≡ its_row R.its_number rows.now.slots number slot }
{
    match rows.get(slot) {
        Some(row) if row.number() == number => Some(row),
        _ => None,
    }
}

// Lists a number with its slot at the end, after the entry that it had.
#[cold]
#[inline(never)]
fn relist<A: Allocator + Copy>(slots: &mut Slots<A>, number: u64, slot: usize)
    requires { 0 < spare slots.old }
    ensures { slots.new.entries
        ≡ without_number slots.old.entries number ++ (number, slot) ∷ [] }
{
    slots.shift_remove(&number);
    let inserted: Result<_, _> = slots.insert(number, slot);
    inserted.unwrap();
}

// Lists a number with its slot at the end. There must be room for two.
fn list<A: Allocator + Copy>(slots: &mut Slots<A>, number: u64, slot: usize)
    requires { 1 < spare slots.old }
    ensures { slots.new.entries
        ≡ without_number slots.old.entries number ++ (number, slot) ∷ [] }
{
    let inserted: Result<_, _> = slots.insert(number, slot);
    let before: Option<usize> = inserted.unwrap();
    if before.is_some() {
        relist(slots, number, slot);
    }
}

// Removes the numbers whose rows are gone.
fn pack<R: Numbered, A: Allocator + Copy>(rows: &Slab<R, A>, slots: &mut Slots<A>)
    ensures { slots.new.entries
        ≡ filter (λ e. is_some (its_row R.its_number rows.now.slots e.0 e.1)) slots.old.entries }
{
    slots.retain(
        |number: &u64, slot: &mut usize| -> bool
            ensures { (result
                ≡ is_some (its_row R.its_number rows.entry.now.slots number.now slot.old))
                × (slot.new ≡ slot.old) }
        { row_if_its(rows, *number, *slot).is_some() },
    );
}

impl<R: Numbered, A: Allocator + Copy> Rows<R, A> {
    /// Creates an empty table, which allocates nothing.
    pub(crate) fn new(alloc: A) -> Self
        ensures rows { result.rows.slots ≡ [] }
        ensures numbers { result.slots.entries ≡ [] }
    {
        Rows {
            rows: Slab::new(alloc),
            slots: IndexMap::new(alloc),
            hints: SlotHints::new(),
        }
    }

    /// Returns the number of rows.
    pub(crate) fn len(&self) -> usize
        requires { IsTable R.its_number self.now }
        ensures { result ≡ length (rows_of R.its_number self.now) }
    {
        self.rows.len()
    }

    // Returns the slot of a number's row, found by the map.
    #[cold]
    #[inline(never)]
    fn slot_by_map(&self, number: u64) -> Option<usize>
        requires { IsTable R.its_number self.now }
        ensures { IsSlotOf R.its_number self.now number result }
    {
        let slot = *self.slots.get(&number)?;
        match row_if_its(&self.rows, number, slot) {
            Some(_) => Some(slot),
            None => None,
        }
    }

    /// Returns the slot of a number's row, if there is one. The given slot is tried first.
    #[inline(always)]
    pub(crate) fn slot_near(&self, slot: usize, number: u64) -> Option<usize>
        requires { IsTable R.its_number self.now }
        ensures { IsSlotOf R.its_number self.now number result }
    {
        match row_if_its(&self.rows, number, slot) {
            Some(_) => Some(slot),
            None => self.slot_by_map(number),
        }
    }

    /// Returns the slot in which a number's row is looked for first. The row in it may be that of
    /// another number.
    #[inline(always)]
    pub(crate) fn hint(&self, number: u64) -> usize {
        self.hints.get(number)
    }

    /// Returns the slot of a number's row, if there is one. The slot that the number's hint gives
    /// is tried first.
    #[inline(always)]
    pub(crate) fn slot_of(&self, number: u64) -> Option<usize>
        requires { IsTable R.its_number self.now }
        ensures { IsSlotOf R.its_number self.now number result }
    {
        self.slot_near(self.hint(number), number)
    }

    /// Returns the slot of a row that is there. The given slot is tried first.
    #[inline(always)]
    pub(crate) fn slot_by(&self, slot: usize, number: u64) -> usize
        requires numbered { IsTable R.its_number self.now }
        requires exists { IsSome (row_at R.its_number (rows_of R.its_number self.now) number) }
        ensures { row_in_slot self.now.rows.slots result
            ≡ row_at R.its_number (rows_of R.its_number self.now) number }
    {
        self.slot_near(slot, number).unwrap()
    }

    /// Returns the row of a number, if there is one.
    #[inline(always)]
    pub(crate) fn row(&self, number: u64) -> Option<&R>
        requires { IsTable R.its_number self.now }
        ensures { option_copied result
            ≡ row_at R.its_number (rows_of R.its_number self.now) number }
    {
        match self.slot_of(number) {
            Some(slot) => Some(&self.rows[slot]),
            None => None,
        }
    }

    // Returns the row of the number at an index of the map, with its slot, if it isn't gone.
    fn listed(&self, index: usize) -> Option<(usize, &R)>
        ensures { option_map (λ p. p.1.now) result
            ≡ option_and_then (λ e. its_row R.its_number self.now.rows.slots e.0 e.1)
            (slice_get self.now.slots.entries index) }
    {
        let (number, slot) = self.slots.get_index(index)?;
        match row_if_its(&self.rows, *number, *slot) {
            Some(row) => Some((*slot, row)),
            None => None,
        }
    }

    // Returns the index in the map of the number of the row at an index, found by a scan of all
    // numbers.
    #[cold]
    #[inline(never)]
    fn scan(&self, index: usize) -> usize
        ensures { option_and_then (λ e. its_row R.its_number self.now.rows.slots e.0 e.1)
            (slice_get self.now.slots.entries result)
            ≡ slice_get (rows_of R.its_number self.now) index }
    {
        let mut before = index;
        for i in 0..self.slots.len() {
            if self.listed(i).is_some() {
                if before == 0 {
                    return i;
                }
                before -= 1;
            }
        }
        self.slots.len()
    }

    /// Returns the row at an index, with its slot.
    pub(crate) fn nth(&self, index: usize) -> Option<(usize, &R)>
        requires { IsTable R.its_number self.now }
        ensures { option_map (λ p. p.1.now) result
            ≡ slice_get (rows_of R.its_number self.now) index }
    {
        if self.slots.len() > self.rows.len() {
            return self.listed(self.scan(index));
        }
        self.listed(index)
    }

    /// Makes room for one more row.
    pub(crate) fn reserve_one(&mut self) -> Result<(), AllocError>
        ensures rows { self.new.rows.slots ≡ self.old.rows.slots }
        ensures numbers { self.new.slots.entries ≡ self.old.slots.entries }
        ensures room { OnOk result (HasRoom self.new) }
    {
        self.rows.reserve(1)?;
        self.slots.reserve(2)
    }

    /// Adds a row with a new number, and returns its slot. There must be room for it.
    pub(crate) fn put(&mut self, row: R) -> usize
        requires room { HasRoom self.old }
        requires numbered { IsTable R.its_number self.old }
        requires new { row_at R.its_number (rows_of R.its_number self.old) (R.its_number row)
            ≡ None }
        ensures numbered { IsTable R.its_number self.new }
        ensures rows { rows_of R.its_number self.new
            ≡ rows_of R.its_number self.old ++ row ∷ [] }
        ensures row { row_in_slot self.new.rows.slots result ≡ Some row }
        ensures others { SameBut self.old.rows.slots self.new.rows.slots result }
    {
        let number = row.number();
        let slot = self.rows.insert_reserved(row);
        self.hints.set(number, slot);
        list(&mut self.slots, number, slot);
        slot
    }

    /// Drops the number of a row that is gone. It takes longer the more numbers come after it.
    pub(crate) fn drop_number(&mut self, number: u64)
        requires numbered { IsTable R.its_number self.old }
        requires gone { row_at R.its_number (rows_of R.its_number self.old) number ≡ None }
        ensures numbered { IsTable R.its_number self.new }
        ensures rows { rows_of R.its_number self.new ≡ rows_of R.its_number self.old }
        ensures slots { self.new.rows.slots ≡ self.old.rows.slots }
    {
        self.slots.shift_remove(&number);
    }

    /// Removes the numbers whose rows are gone, so that an index leads directly to its row.
    pub(crate) fn pack(&mut self)
        requires { IsTable R.its_number self.old }
        ensures numbered { IsTable R.its_number self.new }
        ensures rows { rows_of R.its_number self.new ≡ rows_of R.its_number self.old }
        ensures slots { self.new.rows.slots ≡ self.old.rows.slots }
    {
        if self.slots.len() > self.rows.len() {
            pack(&self.rows, &mut self.slots);
        }
    }

    /// Does what `pack` does if the numbers whose rows are gone are many and more than the others.
    pub(crate) fn pack_if_sparse(&mut self)
        requires { IsTable R.its_number self.old }
        ensures numbered { IsTable R.its_number self.new }
        ensures rows { rows_of R.its_number self.new ≡ rows_of R.its_number self.old }
        ensures slots { self.new.rows.slots ≡ self.old.rows.slots }
    {
        if self.slots.len() / 2 > self.rows.len().max(MAX_FREE_SLOTS) {
            self.pack();
        }
    }

    /// Removes the row of a number, and returns it, if there is one. The number stays in the map.
    #[inline(always)]
    pub(crate) fn take(&mut self, number: u64) -> Option<R>
        requires { IsTable R.its_number self.old }
        ensures numbered { IsTable R.its_number self.new }
        ensures value { result ≡ row_at R.its_number (rows_of R.its_number self.old) number }
        ensures rows { rows_of R.its_number self.new
            ≡ without R.its_number (rows_of R.its_number self.old) number }
        ensures slots { IsTaken self.old.rows.slots self.new.rows.slots result }
    {
        let slot = self.slot_of(number)?;
        self.rows.try_remove(slot)
    }
}
