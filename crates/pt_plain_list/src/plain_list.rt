ghost use Rattle.std.specs.Prelude.{◌≡◌};
ghost use Rattle.pt_waitq.specs.Waits.{no_waits};

use crate::{changes, entries};
use pt_types::{ClientId, ObjectId, Priority, Refusal};
use pt_waitq::{WaitList, Waiter};
use std::alloc::{Allocator, Global};
use std::marker::Model;

/// All queues, as one list of waiters in the order in which they were put in.
///
/// Contracts see the clients that wait nowhere, the queues' numbers, and the waiters.
pub struct PlainList<A: Allocator + Copy = Global> {
    idle: Vec<ClientId, A>,
    objects: Vec<ObjectId, A>,
    waiting: Vec<(ObjectId, Waiter), A>,
}

impl<A: Allocator + Copy> Model for PlainList<A> {
    ghost use Rattle.std.specs.Prelude.{◌≤◌, ◌+◌, vec_len, vec_capacity};
    ghost use Rattle.pt_waitq.specs.Waits.{Waits, waits_of, AllQueued};

    ghost Value = { Waits };

    ghost view = { λ p. waits_of p.idle.items p.objects.items p.waiting.items };

    // Each client has room both to wait and to be idle, whichever of them it does.
    ghost invariant = { λ p. AllQueued p.objects.items p.waiting.items
        × (vec_len p.idle + vec_len p.waiting ≤ vec_capacity p.idle)
        × (vec_len p.idle + vec_len p.waiting ≤ vec_capacity p.waiting) };
}

// Not derived, so that code that drops a list need not prove anything about its parts.
impl<A: Allocator + Copy> Drop for PlainList<A> {
    fn drop(self) {
        let PlainList {
            idle: _,
            objects: _,
            waiting: _,
        } = self;
    }
}

impl<A: Allocator + Copy> PlainList<A> {
    /// Creates a list with no client and no queue, which allocates nothing.
    pub fn new(alloc: A) -> Self
        ensures { result ≡ no_waits }
    {
        PlainList {
            idle: Vec::new(alloc),
            objects: Vec::new(alloc),
            waiting: Vec::new(alloc),
        }
    }
}

impl<A: Allocator + Copy> WaitList for PlainList<A> {
    ghost use Rattle.pt_waitq.specs.Waits.{queues_view};
    ghost use Rattle.pt_waitq.specs.WaitLaws.{in_order, once, one_queue, admits, makes};

    ghost seen = { queues_view };

    ghost in_order = { in_order };

    ghost once = { once };

    ghost one_queue = { one_queue };

    ghost admits = { admits };

    ghost makes = { makes };

    fn admit(&mut self, client: ClientId) -> Result<(), Refusal> {
        let idle = self.waiting.len() + 1;
        let waiting = self.idle.len() + 1;
        if self.idle.reserve(idle).is_err() || self.waiting.reserve(waiting).is_err() {
            return Err(Refusal::Enomem);
        }
        self.idle.push_reserved(client);
        Ok(())
    }

    fn dismiss(&mut self, client: ClientId) {
        changes::remove_client(&mut self.idle, &self.waiting, client);
    }

    fn make(&mut self, object: ObjectId) -> Result<(), Refusal> {
        if self.objects.reserve(1).is_err() {
            return Err(Refusal::Enomem);
        }
        self.objects.push_reserved(object);
        Ok(())
    }

    fn discard(&mut self, object: ObjectId) {
        changes::unmake(&mut self.objects, object);
    }

    fn insert(&mut self, object: ObjectId, waiter: Waiter) {
        changes::put_in(&mut self.idle, &mut self.waiting, object, waiter);
    }

    fn remove(&mut self, client: ClientId) -> Option<(ObjectId, Waiter)> {
        let found = entries::waiter_of(&self.waiting, client);
        changes::take_out(&mut self.idle, &mut self.waiting, client);
        found
    }

    fn take_first(&mut self, object: ObjectId) -> Option<Waiter> {
        let first = entries::first_of(&self.waiting, object)?;
        changes::take_out(&mut self.idle, &mut self.waiting, first.client);
        Some(first)
    }

    fn at(&self, client: ClientId) -> Option<(ObjectId, Waiter)> {
        entries::waiter_of(&self.waiting, client)
    }

    fn first(&self, object: ObjectId) -> Option<Waiter> {
        entries::first_of(&self.waiting, object)
    }

    fn first_writer(&self, object: ObjectId) -> Option<Waiter> {
        entries::first_writer_of(&self.waiting, object)
    }

    fn blocks_reader(&self, object: ObjectId, prio: Priority) -> bool {
        entries::blocks_reader(&self.waiting, object, prio)
    }

    fn len(&self, object: ObjectId) -> usize {
        entries::count_of(&self.waiting, object)
    }
}
