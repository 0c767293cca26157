//! The cells of the entries of a history.

ghost use Rattle.std.specs.Prelude.{◌≡◌, ◌+◌, ◌<◌, ◌≤◌, [], Some, length, slice_get, IfSome, OnOk};
ghost use Rattle.pt_cells.specs.Cells.{Pushes, cells_after};

use crate::cell::Cell;
use crate::seen::Seen;
use once_cell::race::OnceBox;
use pt_model::Entry;
use pt_types::ObjectId;
use std::alloc::{AllocError, Allocator, Global};
use std::marker::Model;
use std::sync::Arc;

/// A cell and a box that wait for an entry.
#[derive(Drop)]
struct Spare {
    cell: Arc<OnceBox<Entry>>,
    room: Box<Entry>,
}

impl Spare {
    ghost use Rattle.std.specs.Prelude.{◌≡◌, IfSome};

    fn new(heap: Global) -> Result<Spare, AllocError> {
        Ok(Spare {
            cell: Arc::new(heap, OnceBox::new(heap))?,
            room: Box::new(heap, Entry::Trip(ObjectId(0)))?,
        })
    }

    /// Sets the cell to an entry. This allocates nothing.
    fn set(self, entry: Entry) -> Option<Cell>
        ensures { IfSome result (λ c. c.entry ≡ entry) }
    {
        let Spare { cell, mut room } = self;
        *room = entry;
        Cell::set(cell, room)
    }
}

/// The cells of entries, in order. An entry has none if its cell refused it.
pub struct Slots<A: Allocator + Copy = Global> {
    heap: Global,
    cells: Vec<Option<Cell>, A>,
    spares: Vec<Spare, A>,
}

impl<A: Allocator + Copy> Model for Slots<A> {
    ghost use Rattle.std.specs.Prelude.{◌+◌, ◌≤◌, vec_len, vec_capacity};
    ghost use Rattle.pt_cells.specs.Cells.{SlotsView};

    ghost Value = { SlotsView };

    ghost view = { λ s. record { cells = s.cells.items; room = vec_len s.spares } };

    ghost invariant = { λ s. vec_len s.cells + vec_len s.spares ≤ vec_capacity s.cells };
}

// Not derived, so that code that drops slots proves nothing of their parts.
impl<A: Allocator + Copy> Drop for Slots<A> {
    fn drop(self) {
        let Slots {
            heap: _,
            cells: _,
            spares: _,
        } = self;
    }
}

impl<A: Allocator + Copy> Slots<A> {
    ghost use Rattle.std.specs.Prelude.{◌≡◌, ◌+◌, ◌<◌, ◌≤◌, [], Some, length, slice_get, IfSome};
    ghost use Rattle.std.specs.Prelude.{OnOk};
    ghost use Rattle.pt_cells.specs.Cells.{Pushes, cells_after};

    /// Creates slots without cells, which allocates nothing. The cells are made in `heap`.
    pub fn new(alloc: A, heap: Global) -> Slots<A>
        ensures { (result.cells ≡ []) × (result.room ≡ 0) }
    {
        Slots {
            heap,
            cells: Vec::new(alloc),
            spares: Vec::new(alloc),
        }
    }

    /// Returns the number of entries that have a slot.
    pub fn len(&self) -> u64
        ensures { result ≡ length self.now.cells }
    {
        self.cells.len() as u64
    }

    // Makes room for one more entry.
    fn make_one(&mut self) -> Result<(), AllocError>
        ensures cells { self.new.cells ≡ self.old.cells }
        ensures ok { OnOk result (self.new.room ≡ self.old.room + 1) }
        ensures stays { self.old.room ≤ self.new.room }
    {
        self.spares.reserve(1)?;
        let more = self.spares.len() + 1;
        self.cells.reserve(more)?;
        let spare = Spare::new(self.heap)?;
        self.spares.push_reserved(spare);
        Ok(())
    }

    /// Makes cells and boxes for at least `room` more entries. If a growth is refused, the cells
    /// that were made stay.
    pub fn reserve_for(&mut self, room: u64) -> Result<(), AllocError>
        ensures cells { self.new.cells ≡ self.old.cells }
        ensures ok { OnOk result (room ≤ self.new.room) }
        ensures stays { self.old.room ≤ self.new.room }
    {
        while (self.spares.len() as u64) < room {
            self.make_one()?;
        }
        Ok(())
    }

    /// Sets the cell of one more entry, in room that was made for it. This allocates nothing.
    pub fn push(&mut self, entry: Entry)
        requires { 0 < self.old.room }
        ensures cells { Pushes self.old.cells self.new.cells entry }
        ensures room { self.new.room + 1 ≡ self.old.room }
    {
        let spare = self.spares.pop().unwrap();
        self.cells.push_reserved(spare.set(entry));
    }

    /// Lets go of all cells. Those who share one keep it. The room stays.
    pub fn clear(&mut self)
        ensures { (self.new.cells ≡ []) × (self.new.room ≡ self.old.room) }
    {
        self.cells.clear();
    }

    /// Does what `clear` does if `sealed` is the place with which a sealed history goes on.
    pub fn clear_if(&mut self, sealed: Option<u64>)
        ensures { (self.new.cells ≡ cells_after sealed self.old.cells)
            × (self.new.room ≡ self.old.room) }
    {
        if sealed.is_some() {
            self.clear();
        }
    }

    /// Returns the entry at an index with its cell, as that of this place. Returns `None` if the
    /// entry has no cell, and if one more owner of the cell is refused.
    pub fn seen(&self, index: usize, place: u64) -> Option<Seen>
        ensures { IfSome result (λ s. (s.place ≡ place)
            × (slice_get self.now.cells index ≡ Some (Some s.cell))) }
    {
        let cell = self.cells.get(index)?.as_ref()?.clone_cell()?;
        Some(Seen { place, cell })
    }

    /// Proves that an entry that was seen is that at an index, if its cell is the one there.
    pub fn meet(&self, index: usize, seen: &Seen)
        ensures { IfSome (slice_get self.now.cells index) (λ slot. IfSome slot (λ c.
            c.name ≡ seen.now.cell.name → c.entry ≡ seen.now.cell.entry)) }
    {
        if let Some(Some(cell)) = self.cells.get(index) {
            cell.meet(&seen.cell);
        }
    }
}
