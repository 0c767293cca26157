//! Slot hints: for each value of a key's low bits, the slot in which a row with such a key was
//! last.

ghost use Rattle.std.specs.Prelude.{◌<◌, ◌^◌};

/// The number of hints.
const COUNT: usize = 16384;

/// For each value of a key's low 14 bits, the slot that was noted last with such a key.
///
/// The hints are stored in the value itself, so that reading one does not require a look at where
/// they are and how many. A hint may be wrong: its user compares the key of the row in that slot.
#[derive(Drop)]
pub(crate) struct SlotHints {
    slots: [u16; COUNT],
}

impl SlotHints {
    /// Creates hints that all lead to slot 0.
    pub(crate) fn new() -> Self {
        SlotHints { slots: [0; COUNT] }
    }

    /// Returns the slot in which the row with a key is looked for first.
    #[inline(always)]
    pub(crate) fn get(&self, key: u64) -> usize
        ensures { result < 2 ^ 16 }
    {
        self.slots[key as usize % COUNT] as usize
    }

    /// Notes the slot of the row with a key, if the slot fits 16 bits.
    pub(crate) fn set(&mut self, key: u64, slot: usize) {
        if let Ok(slot) = u16::try_from(slot) {
            self.slots[key as usize % COUNT] = slot;
        }
    }
}
