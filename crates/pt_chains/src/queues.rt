//! The queues that exist. A queue has a row from its first waiter on.

ghost use Rattle.std.specs.Prelude.{◌≡◌, ◌↔◌, ◌+◌, ◌-◌, ◌++◌, ◌∷◌, [], ℕ, ◌<◌, ◌≤◌, ◌^◌, ◌==◌};
ghost use Rattle.std.specs.Prelude.{◌||◌, Some, None, IsSome, IfSome, IsTrue, unwrap_or, true};
ghost use Rattle.std.specs.Prelude.{false, slice_index, if◌then◌else◌, nat_eq, length};
ghost use Rattle.std.specs.Prelude.{vec_len, vec_capacity};
ghost use Rattle.std.specs.List.{AllByRecursion as Each};
ghost use Rattle.std.specs.Map.{lookup};
ghost use Rattle.std.specs.Option.{option_map};
ghost use Rattle.pt_types.specs.Limits.{max_priority};
ghost use Rattle.pt_chains.specs.declared.sides.Queue.{Queue};
ghost use Rattle.pt_chains.specs.Boxes.{no_queue, IsEmptied};
ghost use Rattle.pt_chains.specs.Chains.{numbers, side_of, HasNone, IsAppended, Unique, IsFirst};
ghost use Rattle.pt_chains.specs.Chains.{IsFirstWriter, HasWriterFrom};
ghost use Rattle.pt_chains.specs.OpenQueues.{queue_at, is_open};
ghost use Rattle.pt_chains.specs.Rows.{rows_of};
ghost use Rattle.pt_waitq.specs.Waits.{is_listed};

use crate::link::{Link, NodeIndex};
use crate::marked::MarkedQueue;
use crate::rows::Rows;
use crate::sides;
use crate::spares::Spares;
use http_server::Log;
use std::alloc::Allocator;
use std::marker::Model;

/// The number of values of a number's low bits for which it is noted whether a queue with such a
/// number ever had a row.
const COUNT: usize = 4096;

/// The most queues that there may be.
const MAX_QUEUES: usize = 4294967295;

/// The queues that exist.
///
/// A queue has a row from its first waiter on. So one in which no call ever waited is made,
/// discarded and mostly asked without a search for its row.
#[derive(Drop)]
pub(crate) struct Queues<A: Allocator + Copy> {
    rows: Rows<A>,
    /// For each value of a number's low bits, whether a queue with such a number ever had a row.
    open_flags: [bool; COUNT],
    /// The number of queues. There is room for a row of each.
    len: usize,
    /// The log of queues that were made (true) and discarded (false). Only proofs read it.
    log: Log<bool, u64>,
}

impl<A: Allocator + Copy> Model for Queues<A> {
    ghost use Rattle.std.specs.Prelude.{List, ℕ};
    ghost use Rattle.pt_chains.specs.declared.sides.Queue.{Queue};
    ghost use Rattle.pt_chains.specs.OpenQueues.{existing_by, queues_by, AreQueues};
    ghost use Rattle.pt_chains.specs.Rows.{rows_of};

    ghost Value = { List (ℕ × Queue) };

    ghost view = { λ q. queues_by (existing_by q.log.items) (rows_of q.rows) };

    ghost invariant = { λ q. AreQueues (existing_by q.log.items) (rows_of q.rows) q.rows.room
        q.open_flags q.len };
}

impl<A: Allocator + Copy> Queues<A> {
    /// Creates an empty set of queues, which allocates nothing.
    pub(crate) fn new(alloc: A) -> Self
        ensures { result ≡ [] }
    {
        Queues {
            rows: Rows::new(alloc),
            open_flags: [false; COUNT],
            len: 0,
            log: Log::new(),
        }
    }

    /// Returns the number of queues.
    pub(crate) fn len(&self) -> usize
        ensures len { result ≡ length self.now }
        ensures within { length self.now < 2 ^ 32 }
    {
        self.len
    }
}

// Returns whether a queue with the same low bits of its number ever had a row.
fn is_open(open_flags: &[bool; COUNT], object: u64) -> bool
    ensures { result ≡ is_open open_flags.now object }
{
    open_flags[object as usize % COUNT]
}

// Notes that the queue of a number has a row.
fn set_open(open_flags: &mut [bool; COUNT], object: u64)
    ensures own { is_open open_flags.new object ≡ true }
    ensures stays_open { (x : ℕ) → is_open open_flags.old x ≡ true
        → is_open open_flags.new x ≡ true }
{
    open_flags[object as usize % COUNT] = true;
}

// Returns the slot of a queue's row. The row is added if the queue has none.
fn row_slot<A: Allocator + Copy>(
    rows: &mut Rows<A>,
    open_flags: &mut [bool; COUNT],
    object: u64,
) -> usize
    requires room { lookup (nat_eq object) (rows_of rows.old) ≡ None
        → Unique (numbers (rows_of rows.old)) → 0 < rows.old.room }
    requires noted { is_listed object (numbers (rows_of rows.old)) ≡ true
        → is_open open_flags.old object ≡ true }
    ensures at { lookup (nat_eq object) rows.new.places ≡ Some result }
    ensures unchanged { (x : ℕ) → queue_at (rows_of rows.new) x ≡ queue_at (rows_of rows.old) x }
    ensures listed { (x : ℕ) → is_listed x (numbers (rows_of rows.new))
        ≡ (is_listed x (numbers (rows_of rows.old)) || (object == x)) }
    ensures room { length (rows_of rows.old) + rows.old.room
        ≤ length (rows_of rows.new) + rows.new.room }
    ensures own { is_open open_flags.new object ≡ true }
    ensures stays_open { (x : ℕ) → is_open open_flags.old x ≡ true
        → is_open open_flags.new x ≡ true }
{
    if let Some(slot) = rows.slot_from(rows.hint(object), object) {
        return slot;
    }
    let slot = rows.add(object);
    set_open(open_flags, object);
    slot
}

// Returns the number of waiters in a queue whose row is not in the slot that its hint gives.
#[cold]
#[inline(never)]
fn len_far<A: Allocator + Copy>(queues: &Queues<A>, object: u64) -> usize
    ensures { result
        ≡ unwrap_or (option_map (λ q. q.len) (lookup (nat_eq object) queues.now)) 0 }
{
    if !is_open(&queues.open_flags, object) {
        return 0;
    }
    sides::len_of(&queues.rows, object)
}

/// Returns the number of waiters in a queue.
#[inline(always)]
pub(crate) fn len_of<A: Allocator + Copy>(queues: &Queues<A>, object: u64) -> usize
    ensures { result
        ≡ unwrap_or (option_map (λ q. q.len) (lookup (nat_eq object) queues.now)) 0 }
{
    match sides::len_by_hint(&queues.rows, object) {
        Some(len) => len,
        None => len_far(queues, object),
    }
}

/// Makes a node the tail of a chain of an existing queue, and returns the previous tail. A queue
/// with no waiter takes a spare box.
#[inline(always)]
pub(crate) fn insert<A: Allocator + Copy>(
    queues: &mut Queues<A>,
    spares: &mut Spares<A>,
    object: u64,
    writer: bool,
    p: usize,
    node: NodeIndex,
) -> Link
    requires index { p < max_priority }
    requires exists { IsSome (lookup (nat_eq object) queues.old) }
    requires room { IfSome (lookup (nat_eq object) queues.old) (λ q.
        slice_index (side_of writer q).counts p + 1 < 2 ^ 32) }
    requires len { IfSome (lookup (nat_eq object) queues.old) (λ q. q.len + 1 < 2 ^ 64) }
    requires spare { IfSome (lookup (nat_eq object) queues.old) (λ q.
        q.len ≡ 0 → 0 < vec_len spares.old) }
    requires empty { Each (λ b. HasNone b.value) spares.old.items }
    ensures numbers { numbers queues.new ≡ numbers queues.old }
    ensures others { (x : ℕ)
        → (object == x) ≡ false
        → lookup (nat_eq x) queues.new ≡ lookup (nat_eq x) queues.old }
    ensures queue { (old new : Queue)
        → lookup (nat_eq object) queues.old ≡ Some old
        → lookup (nat_eq object) queues.new ≡ Some new
        → IsAppended writer p node result old new }
    ensures spares { (old : Queue)
        → lookup (nat_eq object) queues.old ≡ Some old
        → vec_len spares.new + (if old.len == 0 then 1 else 0) ≡ vec_len spares.old }
    ensures capacity { vec_capacity spares.new ≡ vec_capacity spares.old }
    ensures empty { Each (λ b. HasNone b.value) spares.new.items }
{
    let slot = row_slot(&mut queues.rows, &mut queues.open_flags, object);
    queues.rows.put_in(slot, spares, writer, p, node)
}

/// Removes the node between these two from a chain of its queue, and returns the queue's box if no
/// waiter is left.
#[inline(always)]
pub(crate) fn remove<A: Allocator + Copy>(
    queues: &mut Queues<A>,
    at: usize,
    object: u64,
    writer: bool,
    p: usize,
    before: Link,
    next: Link,
) -> Option<Box<MarkedQueue, A>>
    requires index { p < max_priority }
    requires exists { IsSome (lookup (nat_eq object) queues.old) }
    requires counted { IfSome (lookup (nat_eq object) queues.old) (λ q.
        1 ≤ slice_index (side_of writer q).counts p) }
    requires len { IfSome (lookup (nat_eq object) queues.old) (λ q. 1 ≤ q.len) }
    ensures numbers { numbers queues.new ≡ numbers queues.old }
    ensures others { (x : ℕ)
        → (object == x) ≡ false
        → lookup (nat_eq x) queues.new ≡ lookup (nat_eq x) queues.old }
    ensures queue { (old new : Queue)
        → lookup (nat_eq object) queues.old ≡ Some old
        → lookup (nat_eq object) queues.new ≡ Some new
        → IsEmptied writer p before next old new (option_map (λ b. b.value) result) }
{
    sides::remove(&mut queues.rows, at, object, writer, p, before, next)
}

/// Makes an empty queue. Returns false if there are too many queues or no memory for its row.
pub(crate) fn make<A: Allocator + Copy>(queues: &mut Queues<A>, object: u64) -> bool
    requires { lookup (nat_eq object) queues.old ≡ None }
    ensures numbers { numbers queues.new
        ≡ (if result then numbers queues.old ++ object ∷ [] else numbers queues.old) }
    ensures others { (x : ℕ)
        → (object == x) ≡ false
        → lookup (nat_eq x) queues.new ≡ lookup (nat_eq x) queues.old }
    ensures queue { (new : Queue)
        → lookup (nat_eq object) queues.new ≡ Some new
        → new ≡ no_queue }
{
    if queues.len >= MAX_QUEUES {
        return false;
    }
    if !queues.rows.reserve(queues.len + 1) {
        return false;
    }
    queues.log = queues.log.and(&true, &object);
    queues.len += 1;
    true
}

// Removes a queue's row, if a queue with the same low bits of its number ever had one.
fn close<A: Allocator + Copy>(rows: &mut Rows<A>, open_flags: &[bool; COUNT], object: u64)
    requires { is_open open_flags.now object ≡ false
        → lookup (nat_eq object) (rows_of rows.old) ≡ None }
    ensures rows { (x : ℕ) → lookup (nat_eq x) (rows_of rows.new)
        ≡ (if object == x then None else lookup (nat_eq x) (rows_of rows.old)) }
    ensures room { length (rows_of rows.old) + rows.old.room
        ≤ length (rows_of rows.new) + rows.new.room + 1 }
{
    if !is_open(open_flags, object) {
        return;
    }
    rows.take(object);
}

/// Removes an existing queue.
pub(crate) fn discard<A: Allocator + Copy>(queues: &mut Queues<A>, object: u64)
    requires { IsSome (lookup (nat_eq object) queues.old) }
    ensures queues { (x : ℕ) → lookup (nat_eq x) queues.new
        ≡ (if object == x then None else lookup (nat_eq x) queues.old) }
    ensures len { length queues.new ≤ length queues.old }
{
    close(&mut queues.rows, &queues.open_flags, object);
    queues.log = queues.log.and(&false, &object);
    queues.len -= 1;
}

/// Returns the node of the first waiter in a queue.
#[inline(always)]
pub(crate) fn first_of<A: Allocator + Copy>(queues: &Queues<A>, object: u64) -> Option<NodeIndex>
    ensures none { lookup (nat_eq object) queues.now ≡ None → result ≡ None }
    ensures queue { (queue : Queue)
        → lookup (nat_eq object) queues.now ≡ Some queue
        → IsFirst queue result }
{
    if !is_open(&queues.open_flags, object) {
        return None;
    }
    sides::first_of(&queues.rows, object)
}

/// Returns the slot in which a queue's row is looked for first. The row in it may be that of
/// another queue.
pub(crate) fn noted_row<A: Allocator + Copy>(queues: &Queues<A>, object: u64) -> usize {
    queues.rows.hint(object)
}

/// Does what `first_of` does, for a queue that most likely has a row. The row is looked for in this
/// slot first.
pub(crate) fn first_in_row<A: Allocator + Copy>(
    queues: &Queues<A>,
    at: usize,
    object: u64,
) -> Option<NodeIndex>
    ensures none { lookup (nat_eq object) queues.now ≡ None → result ≡ None }
    ensures queue { (queue : Queue)
        → lookup (nat_eq object) queues.now ≡ Some queue
        → IsFirst queue result }
{
    sides::first_from(&queues.rows, at, object)
}

/// Returns the node of the first waiter in a queue that asks for a write lock.
pub(crate) fn first_writer_of<A: Allocator + Copy>(
    queues: &Queues<A>,
    object: u64,
) -> Option<NodeIndex>
    ensures none { lookup (nat_eq object) queues.now ≡ None → result ≡ None }
    ensures queue { (queue : Queue)
        → lookup (nat_eq object) queues.now ≡ Some queue
        → IsFirstWriter queue result }
{
    if !is_open(&queues.open_flags, object) {
        return None;
    }
    sides::first_writer_of(&queues.rows, object)
}

/// Returns whether a queue has a writer of the priority with this index or a higher one.
pub(crate) fn has_writer_from<A: Allocator + Copy>(
    queues: &Queues<A>,
    object: u64,
    p: usize,
) -> bool
    ensures none { lookup (nat_eq object) queues.now ≡ None → result ≡ false }
    ensures queue { (queue : Queue)
        → lookup (nat_eq object) queues.now ≡ Some queue
        → IsTrue result ↔ HasWriterFrom queue p }
{
    if !is_open(&queues.open_flags, object) {
        return false;
    }
    sides::has_writer_from(&queues.rows, object, p)
}
