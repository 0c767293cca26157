ghost use Rattle.std.specs.Prelude.{◌≡◌};
ghost use Rattle.pt_table.specs.ObjectRows.{out_of_chains};

/// The position of an object's row in a chain.
#[derive(Clone, Copy)]
pub struct Link {
    /// Whether the row is in a chain.
    pub linked: bool,
    /// The slot that is tried first for the row of the next object.
    pub next_slot: u16,
    /// The slot that is tried first for the row of the object before this one.
    pub before_slot: u16,
    /// The number of the next object in the chain.
    pub next: Option<u64>,
    /// The number of the object before this one in the chain.
    pub before: Option<u64>,
}

// Returns a slot as a link stores it, or slot 0 if it does not fit 16 bits. It is only a hint.
pub(crate) fn noted(slot: usize) -> u16 {
    u16::try_from(slot).unwrap_or(0)
}

impl Link {
    // Returns the link of a row that is in no chain.
    pub(crate) fn out() -> Self
        ensures { result ≡ out_of_chains }
    {
        Link {
            linked: false,
            next_slot: 0,
            before_slot: 0,
            next: None,
            before: None,
        }
    }
}
