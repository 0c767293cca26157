ghost use Rattle.std.specs.Prelude.{◌≡◌};

use crate::link::Link;
use std::marker::Model;

/// A link as its row stores it, in 24 bytes.
#[derive(Drop)]
pub struct StoredLink {
    next: u64,
    before: u64,
    next_slot: u16,
    before_slot: u16,
    linked: bool,
    has_next: bool,
    has_before: bool,
}

impl Model for StoredLink {
    ghost use Rattle.std.specs.Prelude.{Some, None, if◌then◌else◌};
    ghost use Rattle.pt_table.specs.declared.link.Link.{Link};

    ghost Value = { Link };

    ghost view = { λ l. record {
      linked = l.linked;
      next_slot = l.next_slot;
      before_slot = l.before_slot;
      next = if l.has_next then Some l.next else None;
      before = if l.has_before then Some l.before else None;
    } };
}

impl StoredLink {
    // Converts a link to the form in which it is stored.
    pub(crate) fn of(link: Link) -> Self
        ensures { result ≡ link }
    {
        StoredLink {
            next: link.next.unwrap_or(0),
            before: link.before.unwrap_or(0),
            next_slot: link.next_slot,
            before_slot: link.before_slot,
            linked: link.linked,
            has_next: link.next.is_some(),
            has_before: link.before.is_some(),
        }
    }

    // Returns the link that is stored.
    pub(crate) fn get(&self) -> Link
        ensures { result ≡ self.now }
    {
        Link {
            linked: self.linked,
            next_slot: self.next_slot,
            before_slot: self.before_slot,
            next: self.has_next.then_some(self.next),
            before: self.has_before.then_some(self.before),
        }
    }
}
