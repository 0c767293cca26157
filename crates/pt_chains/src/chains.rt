//! A node for each client, and for each queue a chain of each priority and kind.
ghost use Rattle.std.specs.Prelude.{◌≡◌};
ghost use Rattle.pt_waitq.specs.Waits.{no_waits};

use crate::link::Link;
use crate::node_table::NodeTable;
use crate::nodes::{self, Node};
use crate::queues::{self, Queues};
use crate::spares::{self, Spares};
use http_server::Log;
use pt_types::{ClientId, ObjectId, Priority, Refusal};
use pt_waitq::{WaitList, Waiter};
use slab::Slab;
use std::alloc::{Allocator, Global};
use std::marker::Model;

/// All queues, as chains of nodes that are linked both ways by the nodes' indices.
///
/// A queue counts its writers and its readers by priority.
pub struct Chains<A: Allocator + Copy = Global> {
    homes: NodeTable<A>,
    nodes: Slab<Node, A>,
    queues: Queues<A>,
    /// The boxes that belong to no queue.
    spares: Spares<A>,
    /// The number of boxes in total. They suffice for all queues that may have a waiter at once: no
    /// more than there are clients, and no more than there are queues.
    boxes: usize,
    /// The log of waiters that were put in and removed. Only proofs read it.
    log: Log<Option<u64>, Waiter>,
}

impl<A: Allocator + Copy> Model for Chains<A> {
    ghost use Rattle.pt_waitq.specs.Waits.{Waits, waits_of};
    ghost use Rattle.std.specs.Prelude.{length, vec_len, vec_capacity};
    ghost use Rattle.std.specs.List.{AllByRecursion as Each};
    ghost use Rattle.pt_chains.specs.Boxes.{AreBoxes};
    ghost use Rattle.pt_chains.specs.Chains.{numbers, queued_waiters, AreChains, HasNone};

    ghost Value = { Waits };

    ghost view = { λ p. waits_of (numbers p.homes.map.entries) (numbers p.queues)
        (queued_waiters p.log.items) };

    ghost invariant = { λ p. AreChains p.homes.map.entries p.nodes.slots p.queues
        (queued_waiters p.log.items)
        × AreBoxes (length p.homes.map.entries) (length (numbers p.queues))
        (queued_waiters p.log.items) (vec_len p.spares) (vec_capacity p.spares) p.boxes
        × Each (λ b. HasNone b.value) p.spares.items };
}

// Not derived, so that code that drops chains need not prove anything about their parts.
impl<A: Allocator + Copy> Drop for Chains<A> {
    fn drop(self) {
        let Chains {
            homes: _,
            nodes: _,
            queues: _,
            spares: _,
            boxes: _,
            log: _,
        } = self;
    }
}

impl<A: Allocator + Copy> Chains<A> {
    /// Creates a list with no client and no queue, which allocates nothing.
    pub fn new(alloc: A) -> Self
        ensures { result ≡ no_waits }
    {
        Chains {
            homes: NodeTable::new(alloc),
            nodes: Slab::new(alloc),
            queues: Queues::new(alloc),
            spares: Vec::new(alloc),
            boxes: 0,
            log: Log::new(),
        }
    }
}

impl<A: Allocator + Copy> WaitList for Chains<A> {
    ghost use Rattle.pt_waitq.specs.Waits.{queues_view};
    ghost use Rattle.pt_waitq.specs.WaitLaws.{in_order, once, one_queue, admits, makes};

    ghost seen = { queues_view };

    ghost in_order = { in_order };

    ghost once = { once };

    ghost one_queue = { one_queue };

    ghost admits = { admits };

    ghost makes = { makes };

    fn admit(&mut self, client: ClientId) -> Result<(), Refusal> {
        let Ok(()) = nodes::make_room(&mut self.homes, &mut self.nodes) else {
            return Err(Refusal::Enomem);
        };
        let wanted = self.queues.len().min(self.homes.map.len() + 1);
        let Ok(boxes) = spares::grow(&mut self.spares, self.boxes, wanted) else {
            return Err(Refusal::Enomem);
        };
        self.boxes = boxes;
        nodes::admit(&mut self.homes, &mut self.nodes, client.0);
        Ok(())
    }

    fn dismiss(&mut self, client: ClientId) {
        nodes::dismiss(&mut self.homes, &mut self.nodes, client.0);
    }

    #[inline(always)]
    fn make(&mut self, object: ObjectId) -> Result<(), Refusal> {
        let wanted = self.homes.map.len().min(self.queues.len() + 1);
        let Ok(boxes) = spares::grow(&mut self.spares, self.boxes, wanted) else {
            return Err(Refusal::Enomem);
        };
        self.boxes = boxes;
        if queues::make(&mut self.queues, object.0) {
            Ok(())
        } else {
            Err(Refusal::Enomem)
        }
    }

    fn discard(&mut self, object: ObjectId) {
        queues::discard(&mut self.queues, object.0);
    }

    #[inline(always)]
    fn insert(&mut self, object: ObjectId, waiter: Waiter) {
        let client = waiter.client;
        let node = nodes::node_index_of(&self.homes, &self.nodes, client.0);
        let p = waiter.prio.level() as usize - 1;
        let last = queues::insert(
            &mut self.queues,
            &mut self.spares,
            object.0,
            waiter.writer,
            p,
            node,
        );
        nodes::insert(&mut self.nodes, last, node, (object.0, waiter));
        self.log = self.log.and(&Some(object.0), &waiter);
    }

    #[inline(always)]
    fn remove(&mut self, client: ClientId) -> Option<(ObjectId, Waiter)> {
        let place = nodes::place_of(&self.homes, &self.nodes, client.0)?;
        let waiter = place.waiter;
        let p = waiter.prio.level() as usize - 1;
        let at = queues::noted_row(&self.queues, place.object);
        let emptied = queues::remove(
            &mut self.queues,
            at,
            place.object,
            waiter.writer,
            p,
            place.before,
            place.next,
        );
        nodes::remove(&mut self.nodes, place.node, place.before, place.next);
        spares::put_back(&mut self.spares, emptied);
        self.log = self.log.and(&None, &waiter);
        Some((ObjectId(place.object), waiter))
    }

    #[inline(always)]
    fn take_first(&mut self, object: ObjectId) -> Option<Waiter> {
        let at = queues::noted_row(&self.queues, object.0);
        let node = queues::first_in_row(&self.queues, at, object.0)?;
        let place = nodes::place_at(&self.nodes, node);
        let waiter = place.waiter;
        let p = waiter.prio.level() as usize - 1;
        // The first waiter of a queue has no other ahead of it in its chain.
        let before = Link::none();
        let freed = queues::remove(
            &mut self.queues,
            at,
            object.0,
            waiter.writer,
            p,
            before,
            place.next,
        );
        nodes::remove(&mut self.nodes, node, before, place.next);
        spares::put_back(&mut self.spares, freed);
        self.log = self.log.and(&None, &waiter);
        Some(waiter)
    }

    fn at(&self, client: ClientId) -> Option<(ObjectId, Waiter)> {
        let place = nodes::place_of(&self.homes, &self.nodes, client.0)?;
        Some((ObjectId(place.object), place.waiter))
    }

    #[inline(always)]
    fn first(&self, object: ObjectId) -> Option<Waiter> {
        nodes::waiter_of(&self.nodes, queues::first_of(&self.queues, object.0))
    }

    fn first_writer(&self, object: ObjectId) -> Option<Waiter> {
        nodes::waiter_of(&self.nodes, queues::first_writer_of(&self.queues, object.0))
    }

    fn blocks_reader(&self, object: ObjectId, prio: Priority) -> bool {
        queues::has_writer_from(&self.queues, object.0, prio.level() as usize - 1)
    }

    #[inline(always)]
    fn len(&self, object: ObjectId) -> usize {
        queues::len_of(&self.queues, object.0)
    }
}
