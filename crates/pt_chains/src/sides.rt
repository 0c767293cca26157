//! Queues, stored as the ends and the counts of their chains.

ghost use Rattle.std.specs.Prelude.{◌≡◌, ◌↔◌, ◌+◌, false, IsTrue, ◌-◌, ◌<◌, ◌≤◌};
ghost use Rattle.std.specs.Prelude.{◌^◌, ◌==◌, ◌&&◌, Some, None, IsSome, IfSome, unwrap_or};
ghost use Rattle.std.specs.Prelude.{slice_index, slice_index_or, is_some, if◌then◌else◌, ℕ};
ghost use Rattle.std.specs.Prelude.{not, nat_eq};
ghost use Rattle.std.specs.Map.{lookup};
ghost use Rattle.std.specs.Option.{option_map};
ghost use Rattle.pt_types.specs.Limits.{max_priority};
ghost use Rattle.pt_chains.specs.declared.sides.Queue.{Queue};
ghost use Rattle.pt_chains.specs.Boxes.{IsEmptied};
ghost use Rattle.pt_chains.specs.Rows.{rows_of};
ghost use Rattle.pt_chains.specs.Chains.{numbers, side_of};
ghost use Rattle.pt_chains.specs.Chains.{IsFirst, IsFirstWriter, HasWriterFrom};

use crate::link::{Link, NodeIndex};
use crate::marked::MarkedQueue;
use crate::rows::Rows;
use pt_types::MAX_PRIORITY;
use std::alloc::Allocator;

/// The chains of one kind, by priority from 1 on.
#[derive(Clone, Copy)]
pub(crate) struct Side {
    pub(crate) counts: [u32; MAX_PRIORITY],
    pub(crate) heads: [Link; MAX_PRIORITY],
    pub(crate) tails: [Link; MAX_PRIORITY],
}

/// A queue's chains of both kinds.
#[derive(Clone, Copy)]
pub(crate) struct Queue {
    pub(crate) writers: Side,
    pub(crate) readers: Side,
    pub(crate) len: usize,
}

/// Creates empty chains of one kind.
pub(crate) fn no_side() -> Side
    ensures counts { (p : ℕ) → p < max_priority → slice_index result.counts p ≡ 0 }
    ensures heads { (p : ℕ) → p < max_priority → slice_index_or result.heads p None ≡ None }
    ensures tails { (p : ℕ) → p < max_priority → slice_index_or result.tails p None ≡ None }
{
    let nowhere = Link::none();
    Side {
        counts: [0; MAX_PRIORITY],
        heads: [nowhere; MAX_PRIORITY],
        tails: [nowhere; MAX_PRIORITY],
    }
}

/// Makes a node the tail of a chain, and returns the previous tail.
pub(crate) fn add(side: &mut Side, p: usize, node: NodeIndex) -> Link
    requires index { p < max_priority }
    requires room { slice_index side.old.counts p + 1 < 2 ^ 32 }
    ensures last { result ≡ slice_index_or side.old.tails p None }
    ensures counts { (i : ℕ)
        → i < max_priority
        → slice_index side.new.counts i
        ≡ (if p == i then slice_index side.old.counts p + 1 else slice_index side.old.counts i) }
    ensures tails { (i : ℕ)
        → i < max_priority
        → slice_index_or side.new.tails i None
        ≡ (if p == i then Some node else slice_index_or side.old.tails i None) }
    ensures heads { (i : ℕ)
        → i < max_priority
        → slice_index_or side.new.heads i None
        ≡ (if (p == i) && not (is_some (slice_index_or side.old.tails p None))
        then Some node
        else slice_index_or side.old.heads i None) }
{
    let link = Link::to(node);
    let last = side.tails[p];
    if last.is_none() {
        side.heads[p] = link;
    }
    side.tails[p] = link;
    side.counts[p] += 1;
    last
}

/// Removes the node between these two from a chain.
pub(crate) fn take(side: &mut Side, p: usize, before: Link, next: Link)
    requires index { p < max_priority }
    requires counted { 1 ≤ slice_index side.old.counts p }
    ensures counts { (i : ℕ)
        → i < max_priority
        → slice_index side.new.counts i
        ≡ (if p == i then slice_index side.old.counts p - 1 else slice_index side.old.counts i) }
    ensures tails { (i : ℕ)
        → i < max_priority
        → slice_index_or side.new.tails i None
        ≡ (if (p == i) && not (is_some next)
        then before
        else slice_index_or side.old.tails i None) }
    ensures heads { (i : ℕ)
        → i < max_priority
        → slice_index_or side.new.heads i None
        ≡ (if (p == i) && not (is_some before)
        then next
        else slice_index_or side.old.heads i None) }
{
    if before.is_none() {
        side.heads[p] = next;
    }
    if next.is_none() {
        side.tails[p] = before;
    }
    side.counts[p] -= 1;
}

/// Makes a node the tail of one of a queue's chains, and returns the previous tail.
pub(crate) fn put_in(queue: &mut Queue, writer: bool, p: usize, node: NodeIndex) -> Link
    requires index { p < max_priority }
    requires room { slice_index (side_of writer queue.old).counts p + 1 < 2 ^ 32 }
    requires len { queue.old.len + 1 < 2 ^ 64 }
    ensures len { queue.new.len ≡ queue.old.len + 1 }
    ensures other { side_of (not writer) queue.new ≡ side_of (not writer) queue.old }
    ensures last { result ≡ slice_index_or (side_of writer queue.old).tails p None }
    ensures counts { (i : ℕ)
        → i < max_priority
        → slice_index (side_of writer queue.new).counts i
        ≡ (if p == i
        then slice_index (side_of writer queue.old).counts p + 1
        else slice_index (side_of writer queue.old).counts i) }
    ensures tails { (i : ℕ)
        → i < max_priority
        → slice_index_or (side_of writer queue.new).tails i None
        ≡ (if p == i then Some node else slice_index_or (side_of writer queue.old).tails i None) }
    ensures heads { (i : ℕ)
        → i < max_priority
        → slice_index_or (side_of writer queue.new).heads i None
        ≡ (if (p == i) && not (is_some (slice_index_or (side_of writer queue.old).tails p None))
        then Some node
        else slice_index_or (side_of writer queue.old).heads i None) }
{
    queue.len += 1;
    if writer {
        add(&mut queue.writers, p, node)
    } else {
        add(&mut queue.readers, p, node)
    }
}

/// Removes the node between these two from one of a queue's chains.
pub(crate) fn take_out(queue: &mut Queue, writer: bool, p: usize, before: Link, next: Link)
    requires index { p < max_priority }
    requires counted { 1 ≤ slice_index (side_of writer queue.old).counts p }
    requires len { 1 ≤ queue.old.len }
    ensures len { queue.new.len + 1 ≡ queue.old.len }
    ensures other { side_of (not writer) queue.new ≡ side_of (not writer) queue.old }
    ensures counts { (i : ℕ)
        → i < max_priority
        → slice_index (side_of writer queue.new).counts i
        ≡ (if p == i
        then slice_index (side_of writer queue.old).counts p - 1
        else slice_index (side_of writer queue.old).counts i) }
    ensures tails { (i : ℕ)
        → i < max_priority
        → slice_index_or (side_of writer queue.new).tails i None
        ≡ (if (p == i) && not (is_some next)
        then before
        else slice_index_or (side_of writer queue.old).tails i None) }
    ensures heads { (i : ℕ)
        → i < max_priority
        → slice_index_or (side_of writer queue.new).heads i None
        ≡ (if (p == i) && not (is_some before)
        then next
        else slice_index_or (side_of writer queue.old).heads i None) }
{
    queue.len -= 1;
    if writer {
        take(&mut queue.writers, p, before, next)
    } else {
        take(&mut queue.readers, p, before, next)
    }
}

// Sets the ends and the count of a chain.
fn set_chain(side: &mut Side, p: usize, head: Link, tail: Link, count: u32)
    requires index { p < max_priority }
    ensures counts { (i : ℕ)
        → i < max_priority
        → slice_index side.new.counts i
        ≡ (if p == i then count else slice_index side.old.counts i) }
    ensures tails { (i : ℕ)
        → i < max_priority
        → slice_index_or side.new.tails i None
        ≡ (if p == i then tail else slice_index_or side.old.tails i None) }
    ensures heads { (i : ℕ)
        → i < max_priority
        → slice_index_or side.new.heads i None
        ≡ (if p == i then head else slice_index_or side.old.heads i None) }
{
    side.heads[p] = head;
    side.tails[p] = tail;
    side.counts[p] = count;
}

/// Puts a chain that has all of a queue's waiters into the queue.
pub(crate) fn put_chain(
    queue: &mut Queue,
    head: Link,
    tail: Link,
    count: u32,
    writer: bool,
    p: usize,
)
    requires index { p < max_priority }
    ensures len { queue.new.len ≡ count }
    ensures other { side_of (not writer) queue.new ≡ side_of (not writer) queue.old }
    ensures counts { (i : ℕ)
        → i < max_priority
        → slice_index (side_of writer queue.new).counts i
        ≡ (if p == i then count else slice_index (side_of writer queue.old).counts i) }
    ensures tails { (i : ℕ)
        → i < max_priority
        → slice_index_or (side_of writer queue.new).tails i None
        ≡ (if p == i then tail else slice_index_or (side_of writer queue.old).tails i None) }
    ensures heads { (i : ℕ)
        → i < max_priority
        → slice_index_or (side_of writer queue.new).heads i None
        ≡ (if p == i then head else slice_index_or (side_of writer queue.old).heads i None) }
{
    queue.len = count as usize;
    if writer {
        set_chain(&mut queue.writers, p, head, tail, count)
    } else {
        set_chain(&mut queue.readers, p, head, tail, count)
    }
}

/// Returns the number of waiters in a queue.
pub(crate) fn len_of<A: Allocator + Copy>(queues: &Rows<A>, object: u64) -> usize
    ensures { result
        ≡ unwrap_or (option_map (λ q. q.len) (lookup (nat_eq object) (rows_of queues.now))) 0 }
{
    match queues.get(object) {
        Some(boxed) => boxed.len(),
        None => 0,
    }
}

/// Returns the number of waiters in a queue if its row is in the slot that its hint gives.
#[inline(always)]
pub(crate) fn len_by_hint<A: Allocator + Copy>(queues: &Rows<A>, object: u64) -> Option<usize>
    ensures { IfSome result (λ len. len
        ≡ unwrap_or (option_map (λ q. q.len) (lookup (nat_eq object) (rows_of queues.now))) 0) }
{
    match queues.get_by_hint(object) {
        Some(boxed) => Some(boxed.len()),
        None => None,
    }
}

/// Removes the node between these two from a chain of an existing queue, and returns the queue's
/// box if no waiter is left. The queue's row is looked for in this slot first.
#[inline(always)]
pub(crate) fn remove<A: Allocator + Copy>(
    queues: &mut Rows<A>,
    at: usize,
    object: u64,
    writer: bool,
    p: usize,
    before: Link,
    next: Link,
) -> Option<Box<MarkedQueue, A>>
    requires index { p < max_priority }
    requires exists { IsSome (lookup (nat_eq object) (rows_of queues.old)) }
    requires counted { IfSome (lookup (nat_eq object) (rows_of queues.old)) (λ q.
        1 ≤ slice_index (side_of writer q).counts p) }
    requires len { IfSome (lookup (nat_eq object) (rows_of queues.old)) (λ q. 1 ≤ q.len) }
    ensures numbers { numbers (rows_of queues.new) ≡ numbers (rows_of queues.old) }
    ensures others { (x : ℕ)
        → (object == x) ≡ false
        → lookup (nat_eq x) (rows_of queues.new) ≡ lookup (nat_eq x) (rows_of queues.old) }
    ensures queue { (old new : Queue)
        → lookup (nat_eq object) (rows_of queues.old) ≡ Some old
        → lookup (nat_eq object) (rows_of queues.new) ≡ Some new
        → IsEmptied writer p before next old new (option_map (λ b. b.value) result) }
    ensures more { queues.new.room ≡ queues.old.room }
{
    let slot = queues.slot_from(at, object).unwrap();
    queues.take_out(slot, writer, p, before, next)
}

/// Returns the node of the first waiter in a queue.
pub(crate) fn first_of<A: Allocator + Copy>(queues: &Rows<A>, object: u64) -> Option<NodeIndex>
    ensures none { lookup (nat_eq object) (rows_of queues.now) ≡ None → result ≡ None }
    ensures queue { (queue : Queue)
        → lookup (nat_eq object) (rows_of queues.now) ≡ Some queue
        → IsFirst queue result }
{
    queues.get(object)?.first()
}

/// Does what `first_of` does. The queue's row is looked for in this slot first.
pub(crate) fn first_from<A: Allocator + Copy>(
    queues: &Rows<A>,
    at: usize,
    object: u64,
) -> Option<NodeIndex>
    ensures none { lookup (nat_eq object) (rows_of queues.now) ≡ None → result ≡ None }
    ensures queue { (queue : Queue)
        → lookup (nat_eq object) (rows_of queues.now) ≡ Some queue
        → IsFirst queue result }
{
    queues.get_from(at, object)?.first()
}

/// Returns the node of the first waiter in a queue that asks for a write lock.
pub(crate) fn first_writer_of<A: Allocator + Copy>(
    queues: &Rows<A>,
    object: u64,
) -> Option<NodeIndex>
    ensures none { lookup (nat_eq object) (rows_of queues.now) ≡ None → result ≡ None }
    ensures queue { (queue : Queue)
        → lookup (nat_eq object) (rows_of queues.now) ≡ Some queue
        → IsFirstWriter queue result }
{
    queues.get(object)?.first_writer()
}

/// Returns whether a queue has a writer of the priority with this index or a higher one.
pub(crate) fn has_writer_from<A: Allocator + Copy>(queues: &Rows<A>, object: u64, p: usize) -> bool
    ensures none { lookup (nat_eq object) (rows_of queues.now) ≡ None → result ≡ false }
    ensures queue { (queue : Queue)
        → lookup (nat_eq object) (rows_of queues.now) ≡ Some queue
        → IsTrue result ↔ HasWriterFrom queue p }
{
    match queues.get(object) {
        Some(boxed) => boxed.has_writer_from(p),
        None => false,
    }
}
