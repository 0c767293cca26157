//! The nodes of clients, by the clients' numbers.

ghost use Rattle.std.specs.Prelude.{◌≡◌, []};

use crate::link::NodeIndex;
use std::alloc::Allocator;
use std::collections::HashMap;
use std::hash::{BuildHasherDefault, FoldHasher};

/// The index of each client's node.
#[derive(Drop)]
pub(crate) struct NodeTable<A: Allocator + Copy> {
    pub(crate) map: HashMap<u64, NodeIndex, BuildHasherDefault<FoldHasher>, A>,
    // The number of the last client that was admitted while there was no other.
    first: u64,
}

impl<A: Allocator + Copy> NodeTable<A> {
    /// Creates an empty map, which allocates nothing.
    pub(crate) fn new(alloc: A) -> Self
        ensures { result.map.entries ≡ [] }
    {
        NodeTable {
            map: HashMap::new(alloc),
            first: 0,
        }
    }

    /// Returns how far a client's number is above the first one. The distance of a lower number
    /// wraps.
    pub(crate) fn distance_of(&self, client: u64) -> usize {
        client.wrapping_sub(self.first) as usize
    }

    /// Notes the number of a new client if it is the only one.
    pub(crate) fn note_first(&mut self, client: u64)
        ensures { self.new.map ≡ self.old.map }
    {
        if self.map.len() == 1 {
            self.first = client;
        }
    }
}
