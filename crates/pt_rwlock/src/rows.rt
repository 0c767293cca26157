//! The rows of a lock's readers.

ghost use Rattle.std.specs.Prelude.{◌≡◌, ◌==◌, ◌<◌, ◌+◌, ◌-◌, ◌^◌, length, is_some, IfSome, IsSome};
ghost use Rattle.std.specs.Prelude.{OnErr, OnOk, Some, None, [], if◌then◌else◌, ℕ};
ghost use Rattle.std.specs.Prelude.{slice_get};
ghost use Rattle.std.specs.BTreeMap.{insert_entry, is_at};
ghost use Rattle.std.specs.Map.{lookup, set_value};
ghost use Rattle.std.specs.Ordering.{nat_cmp};
ghost use Rattle.pt_rwlock.specs.RowPlaces.{IsInOrder, place_in, reads_for};

use pt_hints::Hints;
use std::alloc::{AllocError, Allocator};
use std::marker::Model;

/// The least number of rows for which hints are made.
const MAX_SCANNED_ROWS: usize = 8;

// Returns the read locks in the row at a place, if it is the client's.
fn reads_at(rows: &[(u64, u8)], place: usize, client: u64) -> Option<u8>
    ensures { result ≡ reads_for client (slice_get rows.now place) }
{
    match rows.get(place) {
        Some(row) if row.0 == client => Some(row.1),
        _ => None,
    }
}

// Returns the number of rows that belong to clients with lower numbers.
#[inline(never)]
fn count_below(rows: &[(u64, u8)], client: u64) -> usize
    requires { IsInOrder rows.now }
    ensures { result ≡ place_in rows.now client }
{
    let mut low = 0;
    let mut high = rows.len();
    while low < high {
        let middle = low + (high - low) / 2;
        if rows[middle].0 < client {
            low = middle + 1;
        } else {
            high = middle;
        }
    }
    low
}

// Returns the read locks in a client's row, if the hint leads there.
fn reads_hinted(rows: &[(u64, u8)], hint: Option<usize>, client: u64) -> Option<u8>
    requires { IsInOrder rows.now }
    ensures { IfSome result (λ reads. lookup (is_at (nat_cmp client)) rows.now ≡ Some reads) }
{
    reads_at(rows, hint?, client)
}

// Returns the read locks in a client's row, if it has one. Finds it without a hint.
#[inline(never)]
fn scan_reads(rows: &[(u64, u8)], client: u64) -> Option<u8>
    requires { IsInOrder rows.now }
    ensures { result ≡ lookup (is_at (nat_cmp client)) rows.now }
{
    reads_at(rows, count_below(rows, client), client)
}

// Returns the place of a client's row, if the hint leads there.
fn hinted(rows: &[(u64, u8)], hint: Option<usize>, client: u64) -> Option<usize>
    requires { IsInOrder rows.now }
    ensures { IfSome result (λ place. place ≡ place_in rows.now client) }
{
    let place = hint?;
    match reads_at(rows, place, client) {
        Some(_) => Some(place),
        None => None,
    }
}

// Makes hints for these rows and one more, unless there are few.
fn grow<A: Allocator + Copy>(hints: &mut Hints<A>, rows: &[(u64, u8)]) -> Result<(), AllocError> {
    if rows.len() < MAX_SCANNED_ROWS {
        return Ok(());
    }
    hints.grow_for(rows.len(), |place| {
        let row = rows.get(place)?;
        Some((row.0, place))
    })
}

// Stores the place of each row from `from` on as the hint of its client.
fn note_from<A: Allocator + Copy>(hints: &mut Hints<A>, rows: &[(u64, u8)], from: usize) {
    for place in from..rows.len() {
        hints.set(rows[place].0, place);
    }
}

// Inserts a row without read locks, in its place, for a client that has no row.
fn insert_at<A: Allocator + Copy>(
    rows: &mut Vec<(u64, u8), A>,
    place: usize,
    client: u64,
) -> Result<(), AllocError>
    requires ordered { IsInOrder rows.old.items }
    requires place { place ≡ place_in rows.old.items client }
    requires new { lookup (is_at (nat_cmp client)) rows.old.items ≡ None }
    ensures rows { OnOk result (rows.new.items ≡ insert_entry nat_cmp rows.old.items client 0) }
    ensures others { OnOk result ((other : ℕ)
        → lookup (is_at (nat_cmp other)) rows.new.items
        ≡ (if client == other
        then Some 0
        else lookup (is_at (nat_cmp other)) rows.old.items)) }
    ensures unchanged { OnErr result (rows.new.items ≡ rows.old.items) }
    ensures order { IsInOrder rows.new.items }
{
    match rows.insert(place, (client, 0)) {
        Ok(()) => Ok(()),
        Err(_) => Err(AllocError),
    }
}

/// The read locks of clients, in the order of the clients' numbers.
///
/// A row is first looked for at the place that the client's hint gives, which may be wrong.
#[derive(Drop)]
pub(crate) struct Rows<A: Allocator + Copy> {
    rows: Vec<(u64, u8), A>,
    hints: Hints<A>,
}

impl<A: Allocator + Copy> Model for Rows<A> {
    ghost use Rattle.std.specs.Prelude.{List, ℕ};
    ghost use Rattle.pt_rwlock.specs.RowPlaces.{IsInOrder};

    ghost Value = { List (ℕ × ℕ) };

    ghost view = { λ r. r.rows.items };

    ghost invariant = { λ r. IsInOrder r.rows.items };
}

impl<A: Allocator + Copy> Rows<A> {
    /// Creates an empty set of rows, which allocates nothing.
    pub(crate) fn new(alloc: A) -> Self
        ensures { result ≡ [] }
    {
        Rows {
            rows: Vec::new(alloc),
            hints: Hints::new(alloc),
        }
    }

    /// Returns the rows. Each has its client's number and read locks.
    pub(crate) fn as_slice(&self) -> &[(u64, u8)]
        ensures { result.now ≡ self.now }
    {
        self.rows.as_slice()
    }

    /// Returns the number of rows.
    pub(crate) fn len(&self) -> usize
        ensures len { result ≡ length self.now }
        ensures within { result < 2 ^ 63 }
        ensures ordered { IsInOrder self.now }
    {
        self.rows.len()
    }

    // Returns the place of a client's row, or the place at which it would be. Finds it without a
    // hint, and stores it as the client's hint.
    #[inline(never)]
    fn search(&mut self, client: u64) -> usize
        ensures place { result ≡ place_in self.old client }
        ensures unchanged { self.new ≡ self.old }
    {
        let place = count_below(self.rows.as_slice(), client);
        self.hints.set(client, place);
        place
    }

    // Does what search does, but tries the client's hint first.
    fn note_place_of(&mut self, client: u64) -> usize
        ensures place { result ≡ place_in self.old client }
        ensures unchanged { self.new ≡ self.old }
    {
        match hinted(self.rows.as_slice(), self.hints.get(client), client) {
            Some(place) => place,
            None => self.search(client),
        }
    }

    /// Returns the read locks of a client, if it has a row.
    pub(crate) fn get(&self, client: u64) -> Option<u8>
        ensures { result ≡ lookup (is_at (nat_cmp client)) self.now }
    {
        let rows = self.rows.as_slice();
        match reads_hinted(rows, self.hints.get(client), client) {
            Some(reads) => Some(reads),
            None => scan_reads(rows, client),
        }
    }

    // Returns whether a client has a row. Finds it without a hint, and stores its place as one.
    #[inline(never)]
    fn scan_for(&mut self, client: u64) -> bool
        ensures found { result ≡ is_some (lookup (is_at (nat_cmp client)) self.old) }
        ensures unchanged { self.new ≡ self.old }
    {
        let place = self.search(client);
        reads_at(self.rows.as_slice(), place, client).is_some()
    }

    /// Returns whether a client has a row. Its place is stored as the client's hint.
    pub(crate) fn has(&mut self, client: u64) -> bool
        ensures found { result ≡ is_some (lookup (is_at (nat_cmp client)) self.old) }
        ensures unchanged { self.new ≡ self.old }
    {
        match reads_hinted(self.rows.as_slice(), self.hints.get(client), client) {
            Some(_) => true,
            None => self.scan_for(client),
        }
    }

    /// Adds a row without read locks for a client that has no row.
    #[cold]
    #[inline(never)]
    pub(crate) fn insert(&mut self, client: u64) -> Result<(), AllocError>
        requires { lookup (is_at (nat_cmp client)) self.old ≡ None }
        ensures rows { OnOk result (self.new ≡ insert_entry nat_cmp self.old client 0) }
        ensures others { OnOk result ((other : ℕ)
            → lookup (is_at (nat_cmp other)) self.new
            ≡ (if client == other then Some 0 else lookup (is_at (nat_cmp other)) self.old)) }
        ensures unchanged { OnErr result (self.new ≡ self.old) }
    {
        grow(&mut self.hints, self.rows.as_slice())?;
        let place = count_below(self.rows.as_slice(), client);
        insert_at(&mut self.rows, place, client)?;
        note_from(&mut self.hints, self.rows.as_slice(), place);
        Ok(())
    }

    // Returns the read locks in a client's row, which is at `place`.
    fn reads(&self, place: usize, client: u64) -> u8
        requires place { place ≡ place_in self.now client }
        requires exists { IsSome (lookup (is_at (nat_cmp client)) self.now) }
        ensures { lookup (is_at (nat_cmp client)) self.now ≡ Some result }
    {
        reads_at(self.rows.as_slice(), place, client).unwrap()
    }

    // Sets the read locks in a client's row, which is at `place`.
    fn set(&mut self, place: usize, client: u64, reads: u8)
        requires place { place ≡ place_in self.old client }
        requires exists { IsSome (lookup (is_at (nat_cmp client)) self.old) }
        ensures rows { self.new ≡ set_value (is_at (nat_cmp client)) self.old reads }
        ensures others { (other : ℕ)
            → lookup (is_at (nat_cmp other)) self.new
            ≡ (if client == other then Some reads else lookup (is_at (nat_cmp other)) self.old) }
    {
        self.rows[place].1 = reads;
    }

    /// Adds a read lock to a client's row, and returns how many it had before.
    pub(crate) fn add_read(&mut self, client: u64) -> u8
        requires within { IfSome (lookup (is_at (nat_cmp client)) self.old) (λ reads. reads < 255) }
        requires exists { IsSome (lookup (is_at (nat_cmp client)) self.old) }
        ensures before { lookup (is_at (nat_cmp client)) self.old ≡ Some result }
        ensures rows { self.new ≡ set_value (is_at (nat_cmp client)) self.old (result + 1) }
        ensures others { (other : ℕ)
            → lookup (is_at (nat_cmp other)) self.new
            ≡ (if client == other
            then Some (result + 1)
            else lookup (is_at (nat_cmp other)) self.old) }
    {
        let place = self.note_place_of(client);
        let before = self.reads(place, client);
        self.set(place, client, before + 1);
        before
    }

    /// Removes a read lock from a client's row, and returns how many it had before.
    pub(crate) fn take_read(&mut self, client: u64) -> u8
        requires some { IfSome (lookup (is_at (nat_cmp client)) self.old) (λ reads. 0 < reads) }
        requires exists { IsSome (lookup (is_at (nat_cmp client)) self.old) }
        ensures before { lookup (is_at (nat_cmp client)) self.old ≡ Some result }
        ensures rows { self.new ≡ set_value (is_at (nat_cmp client)) self.old (result - 1) }
        ensures others { (other : ℕ)
            → lookup (is_at (nat_cmp other)) self.new
            ≡ (if client == other
            then Some (result - 1)
            else lookup (is_at (nat_cmp other)) self.old) }
    {
        let place = self.note_place_of(client);
        let before = self.reads(place, client);
        self.set(place, client, before - 1);
        before
    }
}
