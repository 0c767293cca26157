//! The index of a node, and a link to a node or to none. Each takes 4 bytes.

ghost use Rattle.std.specs.Prelude.{◌≡◌, ◌<◌, ◌-◌, ◌^◌, None, Some, is_some, not};
ghost use Rattle.std.specs.Prelude.{if◌then◌else◌};

use std::marker::Model;

/// The most nodes that there may be, so that the greatest number of 4 bytes is no node's index.
pub(crate) const MAX_NODES: usize = 4294967295;

/// The index of a node.
#[derive(Clone, Copy)]
pub(crate) struct NodeIndex {
    number: u32,
}

impl Model for NodeIndex {
    ghost use Rattle.std.specs.Prelude.{◌<◌, ◌-◌, ◌^◌, ℕ};

    ghost Value = { ℕ };

    ghost view = { λ n. n.number };

    ghost invariant = { λ n. n.number < 2 ^ 32 - 1 };

    ghost inverse = { λ n. record { number = n } };
}

impl NodeIndex {
    /// Creates the index of the node at this position.
    pub(crate) fn new(index: usize) -> NodeIndex
        requires { index < 2 ^ 32 - 1 }
        ensures { result ≡ index }
    {
        NodeIndex {
            number: index as u32,
        }
    }

    /// Returns the position of the node.
    pub(crate) fn get(self) -> usize
        ensures { result ≡ self }
    {
        self.number as usize
    }
}

/// A link to a node, or to none.
#[derive(Clone, Copy)]
pub(crate) struct Link {
    // The index of the node, or the greatest number for none, since an `Option<u32>` takes 8 bytes.
    number: u32,
}

impl Model for Link {
    ghost use Rattle.std.specs.Prelude.{ℕ, Option, ◌-◌, ◌^◌, unwrap_or};
    ghost use Rattle.pt_chains.specs.Links.{node_with_links};

    ghost Value = { Option ℕ };

    ghost view = { λ l. node_with_links l.number };

    ghost inverse = { λ o. record { number = unwrap_or o (2 ^ 32 - 1) } };
}

impl Link {
    /// Creates a link to no node.
    pub(crate) fn none() -> Link
        ensures { result ≡ None }
    {
        Link { number: u32::MAX }
    }

    /// Creates a link to a node.
    pub(crate) fn to(node: NodeIndex) -> Link
        ensures { result ≡ Some node }
    {
        Link {
            number: node.number,
        }
    }

    /// Returns the node to which the link leads, if any.
    pub(crate) fn get(self) -> Option<NodeIndex>
        ensures { result ≡ self }
    {
        if self.number == u32::MAX {
            return None;
        }
        Some(NodeIndex {
            number: self.number,
        })
    }

    /// Returns whether the link leads to no node.
    pub(crate) fn is_none(self) -> bool
        ensures { is_some self ≡ not result }
    {
        self.number == u32::MAX
    }

    /// Returns this link if `first` leads to a node, and `second` otherwise.
    pub(crate) fn unless_after(self, first: Link, second: Link) -> Link
        ensures { result ≡ (if is_some first then self else second) }
    {
        if first.is_none() { second } else { self }
    }
}
