//! Rows that are stored in a box as soon as there is one row.

ghost use Rattle.std.specs.Prelude.{◌≡◌, ◌==◌, ◌<◌, ◌+◌, ◌-◌, ◌^◌, length, is_some, IfSome, IsSome};
ghost use Rattle.std.specs.Prelude.{OnErr, OnOk, Some, None, [], if◌then◌else◌, ℕ};
ghost use Rattle.std.specs.BTreeMap.{insert_entry, is_at};
ghost use Rattle.std.specs.Map.{lookup, set_value};
ghost use Rattle.std.specs.Ordering.{nat_cmp};
ghost use Rattle.pt_rwlock.specs.RowPlaces.{IsInOrder};

use crate::rows::Rows;
use std::alloc::{AllocError, Allocator};
use std::marker::Model;

/// The read locks of clients, as `Rows` in a box that is made for the first row. This keeps what
/// stores a lock small, and a lock that nobody reads takes no memory.
#[derive(Drop)]
pub(crate) struct BoxedRows<A: Allocator + Copy> {
    boxed: Option<Box<Rows<A>, A>>,
    alloc: A,
}

impl<A: Allocator + Copy> Model for BoxedRows<A> {
    ghost use Rattle.std.specs.Prelude.{List, ℕ, [], unwrap_or};
    ghost use Rattle.std.specs.Option.{option_map};

    ghost Value = { List (ℕ × ℕ) };

    ghost view = { λ r. unwrap_or (option_map (λ b. b.value) r.boxed) [] };
}

impl<A: Allocator + Copy> BoxedRows<A> {
    /// Creates an empty set of rows, which allocates nothing.
    pub(crate) fn new(alloc: A) -> Self
        ensures { result ≡ [] }
    {
        BoxedRows { boxed: None, alloc }
    }

    /// Returns the rows. Each has its client's number and read locks.
    pub(crate) fn as_slice(&self) -> &[(u64, u8)]
        ensures { result.now ≡ self.now }
    {
        match &self.boxed {
            Some(rows) => rows.as_slice(),
            None => &[],
        }
    }

    /// Returns the number of rows.
    pub(crate) fn len(&self) -> usize
        ensures len { result ≡ length self.now }
        ensures within { result < 2 ^ 63 }
        ensures ordered { IsInOrder self.now }
    {
        match &self.boxed {
            Some(rows) => rows.len(),
            None => 0,
        }
    }

    /// Returns the read locks of a client, if it has a row.
    pub(crate) fn get(&self, client: u64) -> Option<u8>
        ensures { result ≡ lookup (is_at (nat_cmp client)) self.now }
    {
        match &self.boxed {
            Some(rows) => rows.get(client),
            None => None,
        }
    }

    /// Returns whether a client has a row. Its place is stored as the client's hint.
    pub(crate) fn has(&mut self, client: u64) -> bool
        ensures found { result ≡ is_some (lookup (is_at (nat_cmp client)) self.old) }
        ensures unchanged { self.new ≡ self.old }
    {
        match &mut self.boxed {
            Some(rows) => rows.has(client),
            None => false,
        }
    }

    // Adds the first row, which has no read locks.
    fn insert_first(&mut self, client: u64) -> Result<(), AllocError>
        requires { self.old ≡ [] }
        ensures rows { OnOk result (self.new ≡ insert_entry nat_cmp self.old client 0) }
        ensures others { OnOk result ((other : ℕ)
            → lookup (is_at (nat_cmp other)) self.new
            ≡ (if client == other then Some 0 else lookup (is_at (nat_cmp other)) self.old)) }
        ensures unchanged { OnErr result (self.new ≡ self.old) }
    {
        let mut rows = Box::new(self.alloc, Rows::new(self.alloc))?;
        rows.insert(client)?;
        self.boxed = Some(rows);
        Ok(())
    }

    /// Adds a row without read locks for a client that has no row.
    #[cold]
    #[inline(never)]
    pub(crate) fn insert(&mut self, client: u64) -> Result<(), AllocError>
        requires { lookup (is_at (nat_cmp client)) self.old ≡ None }
        ensures rows { OnOk result (self.new ≡ insert_entry nat_cmp self.old client 0) }
        ensures others { OnOk result ((other : ℕ)
            → lookup (is_at (nat_cmp other)) self.new
            ≡ (if client == other then Some 0 else lookup (is_at (nat_cmp other)) self.old)) }
        ensures unchanged { OnErr result (self.new ≡ self.old) }
    {
        match &mut self.boxed {
            Some(rows) => rows.insert(client),
            None => self.insert_first(client),
        }
    }

    /// Adds a read lock to a client's row, and returns how many it had before.
    pub(crate) fn add_read(&mut self, client: u64) -> u8
        requires within { IfSome (lookup (is_at (nat_cmp client)) self.old) (λ reads. reads < 255) }
        requires exists { IsSome (lookup (is_at (nat_cmp client)) self.old) }
        ensures before { lookup (is_at (nat_cmp client)) self.old ≡ Some result }
        ensures rows { self.new ≡ set_value (is_at (nat_cmp client)) self.old (result + 1) }
        ensures others { (other : ℕ)
            → lookup (is_at (nat_cmp other)) self.new
            ≡ (if client == other
            then Some (result + 1)
            else lookup (is_at (nat_cmp other)) self.old) }
    {
        match &mut self.boxed {
            Some(rows) => rows.add_read(client),
            None => unreachable!(),
        }
    }

    /// Removes a read lock from a client's row, and returns how many it had before.
    pub(crate) fn take_read(&mut self, client: u64) -> u8
        requires some { IfSome (lookup (is_at (nat_cmp client)) self.old) (λ reads. 0 < reads) }
        requires exists { IsSome (lookup (is_at (nat_cmp client)) self.old) }
        ensures before { lookup (is_at (nat_cmp client)) self.old ≡ Some result }
        ensures rows { self.new ≡ set_value (is_at (nat_cmp client)) self.old (result - 1) }
        ensures others { (other : ℕ)
            → lookup (is_at (nat_cmp other)) self.new
            ≡ (if client == other
            then Some (result - 1)
            else lookup (is_at (nat_cmp other)) self.old) }
    {
        match &mut self.boxed {
            Some(rows) => rows.take_read(client),
            None => unreachable!(),
        }
    }
}
