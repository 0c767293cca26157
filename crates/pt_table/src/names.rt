//! The names of the objects, and the slot of each object's row.

ghost use Rattle.std.specs.Prelude.{◌≡◌, ◌<◌, Some, None, OnOk};
ghost use Rattle.std.specs.Map.{lookup};
ghost use Rattle.indexmap.specs.IndexMap.{spare};
ghost use Rattle.pt_types.specs.Names.{same_name};
ghost use Rattle.pt_table.specs.NameSlots.{IsSet};

use crate::slot_hints::SlotHints;
use indexmap::IndexMap;
use pt_types::Name;
use std::alloc::{AllocError, Allocator};
use std::hash::{BuildHasherDefault, FoldHasher};

/// The slots of the rows of all names.
///
/// A row is first looked for in the slot that its name's hint gives, so few names are hashed to
/// find one.
#[derive(Drop)]
pub(crate) struct Names<A: Allocator + Copy> {
    slots: IndexMap<Name, usize, BuildHasherDefault<FoldHasher>, A>,
    hints: SlotHints,
}

impl<A: Allocator + Copy> Names<A> {
    /// Creates an empty set of names, which allocates nothing.
    pub(crate) fn new(alloc: A) -> Self {
        Names {
            slots: IndexMap::new(alloc),
            hints: SlotHints::new(),
        }
    }

    /// Returns the slot in which the row of a name is looked for first. The row in it may be that
    /// of another name.
    #[inline(always)]
    pub(crate) fn hint(&self, name: &Name) -> usize {
        self.hints.get(name.key())
    }

    /// Returns the slot of a name, if it has one.
    pub(crate) fn get(&self, name: &Name) -> Option<usize>
        ensures { result ≡ lookup (same_name name.now) self.now.slots.entries }
    {
        self.slots.get(name).copied()
    }

    /// Makes room for one more name.
    pub(crate) fn reserve_one(&mut self) -> Result<(), AllocError>
        ensures slots { self.new.slots.entries ≡ self.old.slots.entries }
        ensures room { OnOk result (0 < spare self.new.slots) }
    {
        self.slots.reserve(1)
    }

    /// Adds a name with its slot. There must be room for it.
    pub(crate) fn insert(&mut self, name: &Name, slot: usize)
        requires { 0 < spare self.old.slots }
        ensures { IsSet self.old.slots.entries name.now (Some slot) self.new.slots.entries }
    {
        self.hints.set(name.key(), slot);
        let inserted: Result<_, _> = self.slots.insert(name.copied(), slot);
        inserted.unwrap();
    }

    /// Removes a name.
    pub(crate) fn forget(&mut self, name: &Name)
        ensures { IsSet self.old.slots.entries name.now None self.new.slots.entries }
    {
        let _ = self.slots.swap_remove(name);
    }
}
