ghost use Rattle.std.specs.Prelude.{◌≡◌, ◌↔◌, ◌≤◌, ◌<◌, [], IsSome, IfErr, OnOk, OnErr, IsTrue};
ghost use Rattle.std.specs.Prelude.{false, length, slice_get};
ghost use Rattle.std.specs.Option.{option_map, option_copied, option_copied_mut};
ghost use Rattle.std.specs.Borrow.{sem};
ghost use Rattle.pt_types.specs.Limits.{max_clients};
ghost use Rattle.pt_table.specs.ClientRows.{client_at, client_value, has_client, nth_number};
ghost use Rattle.pt_table.specs.ClientRows.{nth_value, and_client, without_client, IsFullFor};
ghost use Rattle.pt_table.specs.Faults.{IsFault};

use crate::fault::TableFault;
use crate::rows::{Numbered, Rows};
use pt_types::MAX_CLIENTS;
use std::alloc::{Allocator, Global};
use std::marker::Model;

/// A row of the table of clients, as its contracts see it.
#[derive(Drop)]
pub struct ClientRow<T> {
    pub number: u64,
    pub value: T,
}

impl<T> ClientRow<T> {
    ghost use Rattle.pt_table.specs.ClientLends.{lends_value};

    #[inline(always)]
    fn value_mut(&mut self) -> &mut T
        ensures* lends { sem 𝓛 (lends_value T.row self.entry result) }
        ensures value { result.now ≡ self.old.value }
    {
        &mut self.value
    }
}

impl<T> Numbered for ClientRow<T> {
    ghost its_number = { λ row. row.number };

    #[inline(always)]
    fn number(&self) -> u64 {
        self.number
    }
}

/// The living clients, each found by its number.
///
/// Contracts see the rows in the order in which they were added.
pub struct Clients<T, A: Allocator + Copy = Global> {
    rows: Rows<ClientRow<T>, A>,
}

impl<T, A: Allocator + Copy> Model for Clients<T, A> {
    ghost use Rattle.std.specs.Prelude.{List};
    ghost use Rattle.pt_table.specs.declared.clients.ClientRow.{ClientRow};
    ghost use Rattle.pt_table.specs.ClientRows.{AreClients};
    ghost use Rattle.pt_table.specs.Slots.{rows_of};

    ghost Value = { List (ClientRow T) };

    ghost view = { λ c. rows_of (λ row. row.number) c.rows };

    ghost invariant = { λ c. AreClients c.rows };
}

// Not derived, so that code that drops the table need not prove anything about its parts.
impl<T: Drop, A: Allocator + Copy> Drop for Clients<T, A> {
    fn drop(self) {
        let Clients { rows: _ } = self;
    }
}

impl<T, A: Allocator + Copy> Clients<T, A> {
    /// Creates an empty table, which allocates nothing.
    pub fn new(alloc: A) -> Self
        ensures { result ≡ [] }
    {
        Clients {
            rows: Rows::new(alloc),
        }
    }

    /// Returns the number of clients.
    pub fn len(&self) -> usize
        ensures len { result ≡ length self.now }
        ensures within { length self.now ≤ max_clients }
    {
        self.rows.len()
    }

    /// Returns the value of the client with this number, if there is one.
    #[inline(always)]
    pub fn at(&self, number: u64) -> Option<&T>
        ensures { option_copied result ≡ client_value self.now number }
    {
        match self.rows.row(number) {
            Some(row) => Some(&row.value),
            None => None,
        }
    }

    /// Returns the number and the value of the client at this index.
    ///
    /// Clients are indexed from 0, in the order in which they were added.
    pub fn nth(&self, index: usize) -> Option<(u64, &T)>
        ensures number { option_map (λ p. p.0) result ≡ nth_number self.now index }
        ensures value { option_map (λ p. p.1.now) result ≡ nth_value self.now index }
    {
        match self.rows.nth(index) {
            Some((_, row)) => Some((row.number, &row.value)),
            None => None,
        }
    }

    /// Does what `nth` does, and also returns the slot of the client's row, for `at_mut_near`.
    pub fn nth_in_slot(&self, index: usize) -> Option<(usize, u64, &T)>
        ensures number { option_map (λ p. p.1) result ≡ nth_number self.now index }
        ensures value { option_map (λ p. p.2.now) result ≡ nth_value self.now index }
    {
        match self.rows.nth(index) {
            Some((slot, row)) => Some((slot, row.number, &row.value)),
            None => None,
        }
    }

    /// Returns the row at this index, in the order in which the clients were added.
    pub fn row(&self, index: usize) -> Option<&ClientRow<T>>
        ensures { option_copied result ≡ slice_get self.now index }
    {
        match self.rows.nth(index) {
            Some((_, row)) => Some(row),
            None => None,
        }
    }

    fn has(&self, number: u64) -> bool
        ensures { result ≡ has_client self.now number }
    {
        self.rows.slot_of(number).is_some()
    }

    ghost use Rattle.pt_table.specs.ClientLends.{lends_if_at};

    /// Returns a mutable reference to the value of the client with this number, if there is one.
    #[inline(always)]
    pub fn at_mut(&mut self, number: u64) -> Option<&mut T>
        ensures* lends { sem 𝓛 (lends_if_at T.row A.row A.Allocator self.entry number result) }
        ensures value { option_copied_mut result ≡ client_value self.old number }
    {
        let hint = self.rows.hint(number);
        self.at_mut_near(hint, number)
    }

    /// Returns a mutable reference to the value of the client with this number, if there is one.
    /// This slot is tried first, and need not be the right one.
    #[inline(always)]
    pub fn at_mut_near(&mut self, slot: usize, number: u64) -> Option<&mut T>
        ensures* lends { sem 𝓛 (lends_if_at T.row A.row A.Allocator self.entry number result) }
        ensures value { option_copied_mut result ≡ client_value self.old number }
    {
        match self.rows.slot_near(slot, number) {
            Some(slot) => Some(self.rows.rows[slot].value_mut()),
            None => None,
        }
    }

    /// Removes the client with this number, and returns its value.
    pub fn remove(&mut self, number: u64) -> Option<T>
        ensures value { result ≡ client_value self.old number }
        ensures rows { self.new ≡ without_client self.old number }
    {
        let row = self.rows.take(number)?;
        // Dropped at once, since each broadcast walks over all clients by their indices.
        self.rows.drop_number(number);
        let ClientRow { number: _, value } = row;
        Some(value)
    }

    // Adds a client whose number is new, or returns its value if a growth is refused.
    fn enter(&mut self, number: u64, value: T) -> Result<(), T>
        requires new { has_client self.old number ≡ false }
        requires room { length self.old < max_clients }
        ensures ok { OnOk result (self.new ≡ and_client self.old number value) }
        ensures unchanged { OnErr result (self.new ≡ self.old) }
        ensures handed { IfErr result (λ handed. handed ≡ value) }
    {
        if self.rows.reserve_one().is_err() {
            return Err(value);
        }
        self.rows.put(ClientRow { number, value });
        Ok(())
    }

    /// Adds a client with its value, or returns the value with the fault that prevented it.
    ///
    /// # Errors
    ///
    /// Returns `Taken` if a client has the number already, else `AtLimit` at 1,024 clients, else
    /// `Memory` if a growth is refused. The table stays unchanged.
    pub fn add(&mut self, number: u64, value: T) -> Result<(), (T, TableFault)>
        ensures ok { OnOk result (self.new ≡ and_client self.old number value) }

        // A fault is the first one that applies, and the table stays unchanged.
        ensures taken { IsFault TableFault.Taken result ↔ IsTrue (has_client self.old number) }
        ensures at_limit { IsFault TableFault.AtLimit result ↔ IsFullFor self.old number }
        ensures unchanged { OnErr result (self.new ≡ self.old) }
        ensures handed { IfErr result (λ e. e.0 ≡ value) }
    {
        if self.has(number) {
            return Err((value, TableFault::Taken));
        }
        if self.len() >= MAX_CLIENTS {
            return Err((value, TableFault::AtLimit));
        }
        match self.enter(number, value) {
            Ok(()) => Ok(()),
            Err(value) => Err((value, TableFault::Memory)),
        }
    }
}
