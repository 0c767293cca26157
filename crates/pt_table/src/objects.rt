ghost use Rattle.std.specs.Prelude.{◌≡◌, ◌↔◌, ◌≤◌, ◌<◌, [], List, Some, None, IsSome};
ghost use Rattle.std.specs.Prelude.{IfSome, IfErr, OnOk, OnErr, OnSome, IsTrue, is_some, length};
ghost use Rattle.std.specs.Prelude.{false, slice_get};
ghost use Rattle.std.specs.Option.{option_map, option_copied, option_copied_mut};
ghost use Rattle.std.specs.Borrow.{sem};
ghost use Rattle.pt_types.specs.Limits.{max_objects};
ghost use Rattle.pt_table.specs.Faults.{IsFault};
ghost use Rattle.pt_table.specs.ObjectRows.{object_at, object_value, link_of};
ghost use Rattle.pt_table.specs.ObjectRows.{number_of_name, is_in_use, nth_number, nth_value};
ghost use Rattle.pt_table.specs.ObjectRows.{and_object};
ghost use Rattle.pt_table.specs.ObjectRows.{with_link, without_object, IsFullFor};

use crate::fault::TableFault;
use crate::link::Link;
use crate::names::Names;
use crate::object_slots::row_named;
use crate::rows::{Numbered, Rows};
use crate::stored_link::StoredLink;
use pt_types::{MAX_OBJECTS, Name};
use std::alloc::{AllocError, Allocator, Global};
use std::marker::Model;

/// A row of the table of objects, as its contracts see it.
#[derive(Drop)]
pub struct ObjectRow<T> {
    pub number: u64,
    pub name: Name,
    pub value: T,
    pub link: StoredLink,
}

impl<T> ObjectRow<T> {
    ghost use Rattle.pt_table.specs.ObjectLends.{lends_value};

    #[inline(always)]
    fn value_mut(&mut self) -> &mut T
        ensures* lends { sem 𝓛 (lends_value T.row self.entry result) }
        ensures value { result.now ≡ self.old.value }
    {
        &mut self.value
    }
}

impl<T> Numbered for ObjectRow<T> {
    ghost its_number = { λ row. row.number };

    #[inline(always)]
    fn number(&self) -> u64 {
        self.number
    }
}

/// The objects, each found by its number and by its name.
///
/// Contracts see the rows in the order in which they were added. The server adds objects by rising
/// number, so this is the order of their numbers too.
pub struct Objects<T, A: Allocator + Copy = Global> {
    rows: Rows<ObjectRow<T>, A>,
    names: Names<A>,
}

impl<T, A: Allocator + Copy> Model for Objects<T, A> {
    ghost use Rattle.std.specs.Prelude.{List};
    ghost use Rattle.pt_table.specs.declared.objects.ObjectRow.{ObjectRow};
    ghost use Rattle.pt_table.specs.ObjectRows.{AreObjects};
    ghost use Rattle.pt_table.specs.Slots.{rows_of};

    ghost Value = { List (ObjectRow T) };

    ghost view = { λ o. rows_of (λ row. row.number) o.rows };

    ghost invariant = { λ o. AreObjects o.rows o.names.slots.entries };
}

// Not derived, so that code that drops the table need not prove anything about its parts.
impl<T: Drop, A: Allocator + Copy> Drop for Objects<T, A> {
    fn drop(self) {
        let Objects { rows: _, names: _ } = self;
    }
}

impl<T, A: Allocator + Copy> Objects<T, A> {
    /// Creates an empty table, which allocates nothing.
    pub fn new(alloc: A) -> Self
        ensures { result ≡ [] }
    {
        Objects {
            rows: Rows::new(alloc),
            names: Names::new(alloc),
        }
    }

    /// Returns the number of objects.
    pub fn len(&self) -> usize
        ensures len { result ≡ length self.now }
        ensures within { length self.now ≤ max_objects }
    {
        self.rows.len()
    }

    /// Returns the value of the object with this number, if there is one.
    #[inline(always)]
    pub fn at(&self, number: u64) -> Option<&T>
        ensures { option_copied result ≡ object_value self.now number }
    {
        match self.rows.row(number) {
            Some(row) => Some(&row.value),
            None => None,
        }
    }

    /// Returns the number of the object with this name, if there is one.
    pub fn find(&self, name: &Name) -> Option<u64>
        ensures { result ≡ number_of_name self.now name.now }
    {
        let (number, _) = self.named(name)?;
        Some(number)
    }

    /// Returns the number and the value of the object with this name, if there is one.
    #[inline(always)]
    pub fn named(&self, name: &Name) -> Option<(u64, &T)>
        ensures number { option_map (λ p. p.0) result ≡ number_of_name self.now name.now }
        ensures value { IfSome result (λ p. object_value self.now p.0 ≡ Some p.1.now) }
    {
        match row_named(&self.rows.rows, &self.names, name) {
            Some(row) => Some((row.number, &row.value)),
            None => None,
        }
    }

    /// Returns the number and the value of the object at this index.
    ///
    /// Objects are indexed from 0, in the order in which they were added.
    pub fn nth(&self, index: usize) -> Option<(u64, &T)>
        ensures number { option_map (λ p. p.0) result ≡ nth_number self.now index }
        ensures value { option_map (λ p. p.1.now) result ≡ nth_value self.now index }
    {
        match self.rows.nth(index) {
            Some((_, row)) => Some((row.number, &row.value)),
            None => None,
        }
    }

    /// Returns the row at this index, in the order in which the objects were added.
    pub fn row(&self, index: usize) -> Option<&ObjectRow<T>>
        ensures { option_copied result ≡ slice_get self.now index }
    {
        match self.rows.nth(index) {
            Some((_, row)) => Some(row),
            None => None,
        }
    }

    fn is_in_use(&self, number: u64, name: &Name) -> bool
        ensures { result ≡ is_in_use self.now number name.now }
    {
        self.rows.slot_of(number).is_some() || self.find(name).is_some()
    }

    ghost use Rattle.pt_table.specs.ObjectLends.{lends_if_at};

    /// Returns a mutable reference to the value of the object with this number, if there is one.
    #[inline(always)]
    pub fn at_mut(&mut self, number: u64) -> Option<&mut T>
        ensures* lends { sem 𝓛 (lends_if_at T.row A.row A.Allocator self.entry number result) }
        ensures value { option_copied_mut result ≡ object_value self.old number }
    {
        match self.rows.slot_of(number) {
            Some(slot) => Some(self.rows.rows[slot].value_mut()),
            None => None,
        }
    }

    // Returns the slot of an object's row, or any slot if there is no such object.
    pub(crate) fn slot_near(&self, number: u64) -> usize {
        self.rows.slot_of(number).unwrap_or(0)
    }

    // Returns the link of an object's row. The given slot is tried first.
    pub(crate) fn link_near(&self, slot: usize, number: u64) -> Link
        requires { IsSome (object_at self.now number) }
        ensures { link_of self.now number ≡ Some result }
    {
        let slot = self.rows.slot_by(slot, number);
        self.rows.rows[slot].link.get()
    }

    // Returns the link of an object's row, if there is such an object.
    pub(crate) fn link_of(&self, number: u64) -> Option<Link>
        ensures { result ≡ link_of self.now number }
    {
        match self.rows.row(number) {
            Some(row) => Some(row.link.get()),
            None => None,
        }
    }

    // Sets the link of an object's row. The given slot is tried first.
    #[inline(always)]
    pub(crate) fn set_link(&mut self, slot: usize, number: u64, link: Link)
        requires { IsSome (object_at self.old number) }
        ensures { self.new ≡ with_link self.old number link }
    {
        let slot = self.rows.slot_by(slot, number);
        self.rows.rows[slot].link = StoredLink::of(link);
    }

    /// Removes the object with this number, and returns its value. Its name is free from then on.
    #[inline(always)]
    pub fn remove(&mut self, number: u64) -> Option<T>
        ensures value { result ≡ object_value self.old number }
        ensures rows { self.new ≡ without_object self.old number }
    {
        let row = self.rows.take(number)?;
        // Dropped many at once, since objects are many, and walks over them are rare.
        self.rows.pack_if_sparse();
        self.names.forget(&row.name);
        let ObjectRow {
            number: _,
            name: _,
            value,
            link: _,
        } = row;
        Some(value)
    }

    /// Prepares for a walk over all objects by their indices, which removals make slow. It
    /// allocates nothing.
    pub fn pack(&mut self)
        ensures { self.new ≡ self.old }
    {
        self.rows.pack();
    }

    // Adds an object whose number and name are new, or returns its value if a growth is refused.
    #[inline(always)]
    fn enter(&mut self, number: u64, name: &Name, value: T) -> Result<(), T>
        requires new { is_in_use self.old number name.now ≡ false }
        requires room { length self.old < max_objects }
        ensures ok { OnOk result (self.new ≡ and_object self.old number name.now value) }
        ensures unchanged { OnErr result (self.new ≡ self.old) }
        ensures handed { IfErr result (λ handed. handed ≡ value) }
    {
        if self.rows.reserve_one().is_err() {
            return Err(value);
        }
        if self.names.reserve_one().is_err() {
            return Err(value);
        }
        let slot = self.rows.put(ObjectRow {
            number,
            name: name.copied(),
            value,
            link: StoredLink::of(Link::out()),
        });
        self.names.insert(name, slot);
        Ok(())
    }

    /// Adds an object whose number and name are new. There must be fewer than 4,096 objects.
    ///
    /// # Errors
    ///
    /// Returns an error if a growth is refused. The table stays unchanged, and the value is
    /// dropped.
    #[inline(always)]
    pub fn add_new(&mut self, number: u64, name: &Name, value: T) -> Result<(), AllocError>
    where
        T: Drop,
        requires new { is_in_use self.old number name.now ≡ false }
        requires room { length self.old < max_objects }
        ensures ok { OnOk result (self.new ≡ and_object self.old number name.now value) }
        ensures unchanged { OnErr result (self.new ≡ self.old) }
    {
        match self.enter(number, name, value) {
            Ok(()) => Ok(()),
            Err(_) => Err(AllocError),
        }
    }

    /// Adds an object with its value, or returns the value with the fault that prevented it.
    ///
    /// # Errors
    ///
    /// Returns `Taken` if an object has the number or the name already, else `AtLimit` at 4,096
    /// objects, else `Memory` if a growth is refused. The table stays unchanged.
    pub fn add(&mut self, number: u64, name: Name, value: T) -> Result<(), (T, TableFault)>
        ensures ok { OnOk result (self.new ≡ and_object self.old number name value) }

        // A fault is the first one that applies, and the table stays unchanged.
        ensures taken { IsFault TableFault.Taken result ↔ IsTrue (is_in_use self.old number name) }
        ensures at_limit { IsFault TableFault.AtLimit result ↔ IsFullFor self.old number name }
        ensures unchanged { OnErr result (self.new ≡ self.old) }
        ensures handed { IfErr result (λ e. e.0 ≡ value) }
    {
        if self.is_in_use(number, &name) {
            return Err((value, TableFault::Taken));
        }
        if self.len() >= MAX_OBJECTS {
            return Err((value, TableFault::AtLimit));
        }
        match self.enter(number, &name, value) {
            Ok(()) => Ok(()),
            Err(value) => Err((value, TableFault::Memory)),
        }
    }
}
