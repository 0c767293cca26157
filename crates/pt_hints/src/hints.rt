//! Hints: for each value of a key's low bits, the place in which a row with such a key was last.

ghost use Rattle.std.specs.Prelude.{◌<◌, ◌^◌, IfSome};

use std::alloc::{AllocError, Allocator};

/// The least number of hints once there is a row.
const FEWEST: usize = 256;

/// The greatest number of hints.
const MAX_PLACES: usize = 16384;

/// For each value of a key's low bits, the place that was noted last with such a key.
///
/// A hint may be wrong: its user compares the key of the row in that place.
pub struct Hints<A: Allocator + Copy> {
    places: Vec<u32, A>,
}

// Not derived, so that code that drops hints need not prove anything about their parts.
impl<A: Allocator + Copy> Drop for Hints<A> {
    fn drop(self) {
        let Hints { places: _ } = self;
    }
}

impl<A: Allocator + Copy> Hints<A> {
    /// Creates an empty set of hints, which allocates nothing.
    pub fn new(alloc: A) -> Self {
        Hints {
            places: Vec::new(alloc),
        }
    }

    // Returns the index of the hint for a key. The number of hints is a power of two.
    #[inline(always)]
    fn index_of(&self, key: u64) -> usize {
        key as usize & self.places.len().wrapping_sub(1)
    }

    /// Returns the place in which the row with a key is looked for first, or None if there are no
    /// hints.
    #[inline(always)]
    pub fn get(&self, key: u64) -> Option<usize>
        ensures { IfSome result (λ place. place < 2 ^ 32) }
    {
        let place = self.places.get(self.index_of(key))?;
        Some(*place as usize)
    }

    /// Notes the place of the row with a key, if there are hints and the place fits 32 bits.
    pub fn set(&mut self, key: u64, place: usize) {
        let index = self.index_of(key);
        if let (Some(hint), Ok(place)) = (self.places.get_mut(index), u32::try_from(place)) {
            *hint = place;
        }
    }

    // Returns whether there are more than twice as many hints as rows, or as many as there may be.
    fn suffice(&self, rows: usize) -> bool {
        self.places.len() / 2 > rows || self.places.len() >= MAX_PLACES
    }

    // Doubles the number of hints, or makes the first ones.
    fn grow(&mut self) -> Result<(), AllocError> {
        let count = self.places.len();
        let more = if count < FEWEST { FEWEST } else { count };
        self.places.resize(count + more, 0)
    }

    // Notes the place of each row.
    fn note_all<F: Fn(usize) -> Option<(u64, usize)>>(&mut self, rows: usize, row_at: F)
        requires { F.IsAlwaysCallable row_at }
    {
        for index in 0..rows {
            if let Some((key, place)) = row_at(index) {
                self.set(key, place);
            }
        }
    }

    /// Makes more hints if there are too few for this many rows, and then notes each row again.
    /// `row_at` returns the key and the place of the row at an index below `rows`, if one is there.
    pub fn grow_for<F: Fn(usize) -> Option<(u64, usize)>>(
        &mut self,
        rows: usize,
        row_at: F,
    ) -> Result<(), AllocError>
        requires { F.IsAlwaysCallable row_at }
    {
        if self.suffice(rows) {
            return Ok(());
        }
        self.grow()?;
        self.note_all(rows, row_at);
        Ok(())
    }

    /// Returns a copy of the hints, in separate memory.
    pub fn copied(&self, alloc: A) -> Result<Self, AllocError> {
        let mut places = Vec::with_capacity(alloc, self.places.len())?;
        places.extend_from_slice(&self.places)?;
        Ok(Hints { places })
    }

    /// Makes as many hints as there may be.
    pub fn grow_to_max(&mut self) -> Result<(), AllocError> {
        self.places.resize(MAX_PLACES, 0)
    }
}
