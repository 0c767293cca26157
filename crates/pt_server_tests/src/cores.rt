//! Hubs over the core.

ghost use Rattle.std.specs.Prelude.{◌≡◌, ◌^◌};

use pt_core::Core;
use pt_hub::ClockPass;
use std::alloc::{Allocator, Global};
use std::sync::ledger::{Blank, Ledger};

// The number of entries at which a server's history is sealed.
const ENTRIES_BETWEEN_SEALS: u32 = 65_536;

pub type Hub<L, A> = pt_hub::Hub<Core<A>, L, A>;

pub type CloseRefused<L> = pt_hub::CloseRefused<Core<Global>, L, Global>;

pub type Shared<L> = pt_session::Shared<Core<Global>, L>;

// Returns a hub over an empty core, whose cells are made in `heap`, and the hub's clock, or `None`
// if a growth is refused.
pub fn open<L: Ledger, A: Allocator + Copy>(
    alloc: A,
    heap: Global,
    blank: Blank,
) -> Option<(Hub<L, A>, ClockPass<L, A>)>
    requires { (blank.name ≡ L.name) × (blank.parts ≡ L.parts) × (blank.parts ≡ 2 ^ 63) }
{
    match Core::with_limit(alloc, ENTRIES_BETWEEN_SEALS) {
        Ok(core) => Some(Hub::new(core, alloc, Some(heap), blank)),
        Err(_) => None,
    }
}
