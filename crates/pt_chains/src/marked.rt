//! Queues, each with its highest chain of each kind.

ghost use Rattle.std.specs.Prelude.{◌≡◌, ◌≢◌, ◌↔◌, ◌+◌, ◌<◌, ◌≤◌, ◌^◌, ◌==◌, Some, max};
ghost use Rattle.std.specs.Prelude.{IsTrue, MatchOption, None, slice_index};
ghost use Rattle.pt_types.specs.Limits.{max_priority};
ghost use Rattle.pt_chains.specs.declared.sides.Queue.{Queue};
ghost use Rattle.pt_chains.specs.Chains.{side_of, HasNone, IsAppended, IsUnlinked};
ghost use Rattle.pt_chains.specs.Chains.{IsFirst, IsFirstWriter, HasWriterFrom};
ghost use Rattle.pt_chains.specs.Boxes.{IsLone};
ghost use Rattle.pt_chains.specs.Highest.{IsBound, IsHighestChain};

use crate::link::{Link, NodeIndex};
use crate::sides::{self, Queue};
use pt_lanes::highest;
use pt_types::MAX_PRIORITY;
use std::marker::Model;

/// A queue with its highest chains, so that its first waiter is found without a search. While no
/// call waits in it, the highest chains are not known, so the last waiter is removed without a
/// search too.
#[derive(Drop)]
pub(crate) struct MarkedQueue {
    queue: Queue,
    /// The index of the highest chain of writers that isn't empty.
    writer: Option<usize>,
    /// The index of the highest chain of readers that isn't empty.
    reader: Option<usize>,
}

impl Model for MarkedQueue {
    ghost Value = { Queue };

    ghost view = { λ m. m.queue };

    ghost invariant = { λ m. m.queue.len ≢ 0
        → IsHighestChain m.queue.writers.counts m.writer
        × IsHighestChain m.queue.readers.counts m.reader };
}

// Returns the index of the highest chain after a waiter was put into the chain of index `p`.
fn raised(before: Option<usize>, p: usize) -> Option<usize>
    ensures { MatchOption before (result ≡ Some p) (λ i. result ≡ Some (max i p)) }
{
    match before {
        Some(i) => Some(i.max(p)),
        None => Some(p),
    }
}

// Returns the index of the highest chain after a waiter was removed. Until then it was `before`.
fn lowered(counts: &[u32; MAX_PRIORITY], before: Option<usize>) -> Option<usize>
    requires { IsBound counts.now before }
    ensures { IsHighestChain counts.now result }
{
    match before {
        Some(i) if counts[i] == 0 => highest(&counts[..i]),
        _ => before,
    }
}

impl MarkedQueue {
    /// Creates a queue with no waiter.
    pub(crate) fn new() -> Self
        ensures { HasNone result }
    {
        MarkedQueue {
            queue: Queue {
                writers: sides::no_side(),
                readers: sides::no_side(),
                len: 0,
            },
            writer: None,
            reader: None,
        }
    }

    /// Returns the number of waiters in the queue.
    pub(crate) fn len(&self) -> usize
        ensures { result ≡ self.now.len }
    {
        self.queue.len
    }

    /// Makes a node the tail of one of the queue's chains, and returns the previous tail.
    pub(crate) fn put_in(&mut self, writer: bool, p: usize, node: NodeIndex) -> Link
        requires index { p < max_priority }
        requires room { slice_index (side_of writer self.old).counts p + 1 < 2 ^ 32 }
        requires len { self.old.len + 1 < 2 ^ 64 }
        requires empty { self.old.len ≡ 0 → HasNone self.old }
        ensures { IsAppended writer p node result self.old self.new }
    {
        if self.queue.len == 0 {
            self.writer = None;
            self.reader = None;
        }
        if writer {
            self.writer = raised(self.writer, p);
        } else {
            self.reader = raised(self.reader, p);
        }
        sides::put_in(&mut self.queue, writer, p, node)
    }

    /// Puts a chain with these ends into a queue with no waiter.
    pub(crate) fn put_chain(&mut self, head: Link, tail: Link, count: u32, writer: bool, p: usize)
        requires index { p < max_priority }
        requires some { count ≢ 0 }
        requires empty { HasNone self.old }
        ensures { IsLone writer p head tail count self.new }
    {
        self.writer = if writer { Some(p) } else { None };
        self.reader = if writer { None } else { Some(p) };
        sides::put_chain(&mut self.queue, head, tail, count, writer, p);
    }

    /// Removes the node between these two from one of the queue's chains, and returns whether no
    /// waiter is left.
    #[inline(always)]
    pub(crate) fn take_out(&mut self, writer: bool, p: usize, before: Link, next: Link) -> bool
        requires index { p < max_priority }
        requires counted { 1 ≤ slice_index (side_of writer self.old).counts p }
        requires len { 1 ≤ self.old.len }
        ensures taken { IsUnlinked writer p before next self.old self.new }
        ensures last { result ≡ (self.new.len == 0) }
    {
        sides::take_out(&mut self.queue, writer, p, before, next);
        if self.queue.len == 0 {
            return true;
        }
        if writer {
            if self.queue.writers.counts[p] == 0 {
                self.writer = lowered(&self.queue.writers.counts, self.writer);
            }
        } else if self.queue.readers.counts[p] == 0 {
            self.reader = lowered(&self.queue.readers.counts, self.reader);
        }
        false
    }

    /// Returns the first waiter's node, the head of the highest chain, writers first.
    /// [XSH pthread_rwlock_unlock, 2.8.4]
    pub(crate) fn first(&self) -> Option<NodeIndex>
        requires { self.now.len ≢ 0 }
        ensures { IsFirst self.now result }
    {
        match (self.writer, self.reader) {
            (Some(w), Some(r)) if w < r => self.queue.readers.heads[r].get(),
            (Some(w), _) => self.queue.writers.heads[w].get(),
            (None, Some(r)) => self.queue.readers.heads[r].get(),
            (None, None) => None,
        }
    }

    /// Returns the first writer's node.  [XSH pthread_rwlock_unlock]
    pub(crate) fn first_writer(&self) -> Option<NodeIndex>
        requires { self.now.len ≢ 0 }
        ensures { IsFirstWriter self.now result }
    {
        self.queue.writers.heads[self.writer?].get()
    }

    /// Returns whether there is a writer of the priority with this index or of a higher one.
    /// [XSH pthread_rwlock_rdlock]
    pub(crate) fn has_writer_from(&self, p: usize) -> bool
        requires { self.now.len ≢ 0 }
        ensures { IsTrue result ↔ HasWriterFrom self.now p }
    {
        self.writer.is_some_and(|w| p <= w)
    }
}
