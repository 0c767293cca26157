//! Queues that have a box only while a call waits in them.

ghost use Rattle.std.specs.Prelude.{◌≡◌, ◌≢◌, ◌↔◌, ◌+◌, ◌<◌, ◌≤◌, ◌^◌, ◌==◌, IfSome};
ghost use Rattle.std.specs.Prelude.{IsTrue, IsSome, Some, None, slice_index, is_some, true, false};
ghost use Rattle.std.specs.Prelude.{◌||◌};
ghost use Rattle.std.specs.Prelude.{vec_len, vec_capacity, if◌then◌else◌};
ghost use Rattle.std.specs.List.{AllByRecursion as Each};
ghost use Rattle.std.specs.Option.{option_map};
ghost use Rattle.pt_types.specs.Limits.{max_priority};
ghost use Rattle.pt_chains.specs.declared.sides.Queue.{Queue};
ghost use Rattle.pt_chains.specs.Boxes.{no_queue, lone_queue, queue_by, IsBoxRule, IsSame};
ghost use Rattle.pt_chains.specs.Boxes.{IsEmptied};
ghost use Rattle.pt_chains.specs.Chains.{side_of, HasNone, IsAppended};
ghost use Rattle.pt_chains.specs.Chains.{IsFirst, IsFirstWriter, HasWriterFrom};

use crate::link::{Link, NodeIndex};
use crate::marked::MarkedQueue;
use crate::spares::Spares;
use std::alloc::Allocator;
use std::marker::Model;

/// A queue. Its chains take 2.4 kB, so it has a box for them only while a call waits in it. Waiters
/// of a single chain are not put into the box until a waiter of another chain comes.
#[derive(Drop)]
pub(crate) struct BoxedQueue<A: Allocator> {
    boxed: Option<Box<MarkedQueue, A>>,
    /// The first node of the lone chain, unless the chain is in the box.
    head: Link,
    /// The last node of the lone chain.
    tail: Link,
    /// The number of waiters in the lone chain.
    count: u32,
    /// The index of the lone chain.
    p: u8,
    /// Whether the lone chain is one of writers.
    writer: bool,
}

impl<A: Allocator> Model for BoxedQueue<A> {
    ghost use Rattle.std.specs.Option.{option_map};
    ghost use Rattle.pt_chains.specs.declared.sides.Queue.{Queue};
    ghost use Rattle.pt_chains.specs.Boxes.{queue_by, IsBoxRule};

    ghost Value = { Queue };

    ghost view = { λ q. queue_by (option_map (λ b. b.value) q.boxed) q.head q.tail q.count
        q.writer q.p };

    ghost invariant = { λ q. IsBoxRule (option_map (λ b. b.value) q.boxed) q.head q.tail q.count
        q.p };
}

// Puts the lone chain into the box, which is empty.
#[cold]
#[inline(never)]
fn put_lone<A: Allocator>(
    boxed: &mut Option<Box<MarkedQueue, A>>,
    head: NodeIndex,
    tail: Link,
    count: u32,
    writer: bool,
    p: usize,
)
    requires index { p < max_priority }
    requires some { count ≢ 0 }
    requires exists { IsSome boxed.old }
    requires empty { IfSome boxed.old (λ b. HasNone b.value) }
    ensures exists { IsSome boxed.new }
    ensures put { IfSome boxed.new (λ b.
        IsSame (lone_queue (Some head) tail count writer p) b.value) }
{
    let queue = boxed.as_mut().unwrap();
    queue.put_chain(Link::to(head), tail, count, writer, p);
}

// Puts the lone chain into the box, unless it is there already. All waiters are in the box
// afterwards.
fn join<A: Allocator>(
    boxed: &mut Option<Box<MarkedQueue, A>>,
    head: &mut Link,
    tail: Link,
    count: u32,
    writer: bool,
    p: u8,
)
    requires exists { IsSome boxed.old }
    requires rule { IsBoxRule (option_map (λ b. b.value) boxed.old) head.old tail count p }
    ensures none { head.new ≡ None }
    ensures exists { IsSome boxed.new }
    ensures unchanged { IfSome boxed.new (λ b.
        IsSame (queue_by (option_map (λ b. b.value) boxed.old) head.old tail count writer p)
        b.value) }
    ensures some { IfSome boxed.new (λ b. b.value.len ≢ 0) }
{
    if let Some(first) = head.get() {
        put_lone(boxed, first, tail, count, writer, p as usize);
        *head = Link::none();
    }
}

// Returns whether a chain has this kind and index.
fn is_chain(own: bool, own_p: u8, writer: bool, p: usize) -> bool
    ensures { result ≡ true → (writer ≡ own) × (p ≡ own_p) }
{
    own_p as usize == p && own == writer
}

// Returns whether a node between these two is the only one of a chain with `count` waiters.
fn is_last(count: u32, before: Link, next: Link) -> bool
    ensures { result ≡ true
        → (count ≡ 1) × (is_some before ≡ false) × (is_some next ≡ false) }
{
    before.is_none() && next.is_none() && count == 1
}

// Returns whether a node between these two is one of several in a chain with `count` waiters.
fn is_of_more(count: u32, before: Link, next: Link) -> bool
    ensures { result ≡ true → (count ≢ 1) × ((is_some before || is_some next) ≡ true) }
{
    !(before.is_none() && next.is_none()) && count != 1
}

impl<A: Allocator + Copy> BoxedQueue<A> {
    /// Creates a queue with no waiter, which allocates nothing.
    pub(crate) fn new() -> Self
        ensures { result ≡ no_queue }
    {
        BoxedQueue {
            boxed: None,
            head: Link::none(),
            tail: Link::none(),
            count: 0,
            p: 0,
            writer: false,
        }
    }

    /// Returns the number of waiters in the queue.
    pub(crate) fn len(&self) -> usize
        ensures { result ≡ self.now.len }
    {
        if !self.head.is_none() {
            return self.count as usize;
        }
        match &self.boxed {
            Some(queue) => queue.len(),
            None => 0,
        }
    }

    /// Makes a node the tail of one of the queue's chains, and returns the previous tail.
    #[inline(always)]
    pub(crate) fn put_in(
        &mut self,
        spares: &mut Spares<A>,
        writer: bool,
        p: usize,
        node: NodeIndex,
    ) -> Link
        requires index { p < max_priority }
        requires room { slice_index (side_of writer self.old).counts p + 1 < 2 ^ 32 }
        requires len { self.old.len + 1 < 2 ^ 64 }
        requires spare { self.old.len ≡ 0 → 0 < vec_len spares.old }
        requires empty { Each (λ b. HasNone b.value) spares.old.items }
        ensures put { IsAppended writer p node result self.old self.new }
        ensures len { vec_len spares.new + (if self.old.len == 0 then 1 else 0)
            ≡ vec_len spares.old }
        ensures capacity { vec_capacity spares.new ≡ vec_capacity spares.old }
        ensures empty { Each (λ b. HasNone b.value) spares.new.items }
    {
        if self.boxed.is_none() {
            self.boxed = spares.pop();
            self.head = Link::to(node);
            self.tail = Link::to(node);
            self.count = 1;
            self.p = p as u8;
            self.writer = writer;
            return Link::none();
        }
        if !self.head.is_none() && is_chain(self.writer, self.p, writer, p) {
            let last = self.tail;
            self.tail = Link::to(node);
            self.count += 1;
            return last;
        }
        join(
            &mut self.boxed,
            &mut self.head,
            self.tail,
            self.count,
            self.writer,
            self.p,
        );
        self.boxed.as_mut().unwrap().put_in(writer, p, node)
    }

    /// Removes the node between these two from one of the queue's chains, and returns the queue's
    /// box if no waiter is left.
    #[inline(always)]
    pub(crate) fn take_out(
        &mut self,
        writer: bool,
        p: usize,
        before: Link,
        next: Link,
    ) -> Option<Box<MarkedQueue, A>>
        requires index { p < max_priority }
        requires counted { 1 ≤ slice_index (side_of writer self.old).counts p }
        requires len { 1 ≤ self.old.len }
        ensures { IsEmptied writer p before next self.old self.new
            (option_map (λ b. b.value) result) }
    {
        if !self.head.is_none() {
            if is_last(self.count, before, next) {
                self.head = Link::none();
                return self.boxed.take();
            }
            if is_of_more(self.count, before, next) {
                self.head = self.head.unless_after(before, next);
                self.tail = self.tail.unless_after(next, before);
                self.count -= 1;
                return None;
            }
        }
        join(
            &mut self.boxed,
            &mut self.head,
            self.tail,
            self.count,
            self.writer,
            self.p,
        );
        let queue = self.boxed.as_mut().unwrap();
        if queue.take_out(writer, p, before, next) {
            self.boxed.take()
        } else {
            None
        }
    }

    /// Returns the first waiter's node, the head of the highest chain, writers first.
    /// [XSH pthread_rwlock_unlock, 2.8.4]
    pub(crate) fn first(&self) -> Option<NodeIndex>
        ensures { IsFirst self.now result }
    {
        if let Some(node) = self.head.get() {
            return Some(node);
        }
        match &self.boxed {
            Some(queue) => queue.first(),
            None => None,
        }
    }

    /// Returns the first writer's node.  [XSH pthread_rwlock_unlock]
    pub(crate) fn first_writer(&self) -> Option<NodeIndex>
        ensures { IsFirstWriter self.now result }
    {
        if let Some(node) = self.head.get() {
            return if self.writer { Some(node) } else { None };
        }
        match &self.boxed {
            Some(queue) => queue.first_writer(),
            None => None,
        }
    }

    /// Returns whether there is a writer of the priority with this index or of a higher one.
    /// [XSH pthread_rwlock_rdlock]
    pub(crate) fn has_writer_from(&self, p: usize) -> bool
        ensures { IsTrue result ↔ HasWriterFrom self.now p }
    {
        if !self.head.is_none() {
            return self.writer && p <= self.p as usize;
        }
        match &self.boxed {
            Some(queue) => queue.has_writer_from(p),
            None => false,
        }
    }
}
