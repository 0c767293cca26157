//! Boxes that belong to no queue. Queues take them as calls come to wait.

ghost use Rattle.std.specs.Prelude.{◌≡◌, ◌+◌, ◌≤◌, ◌<◌, if◌then◌else◌, is_some, IfSome, IfOk};
ghost use Rattle.std.specs.Prelude.{OnErr, IsSome, vec_len, vec_capacity};
ghost use Rattle.std.specs.List.{AllByRecursion as Each};
ghost use Rattle.pt_chains.specs.Chains.{HasNone};

use crate::marked::MarkedQueue;
use std::alloc::{AllocError, Allocator};

/// The boxes that belong to no queue.
pub(crate) type Spares<A> = Vec<Box<MarkedQueue, A>, A>;

// Creates a box with no waiter.
#[cold]
#[inline(never)]
fn new_box<A: Allocator + Copy>(alloc: A) -> Result<Box<MarkedQueue, A>, AllocError>
    ensures { IfOk result (λ b. HasNone b.value) }
{
    Ok(Box::new(alloc, MarkedQueue::new())?)
}

/// Makes one more box if there are fewer than `wanted`, and returns how many there are afterwards.
/// The spares have room for all of them.
pub(crate) fn grow<A: Allocator + Copy>(
    spares: &mut Spares<A>,
    boxes: usize,
    wanted: usize,
) -> Result<usize, AllocError>
    requires wanted { wanted ≤ boxes + 1 }
    requires room { boxes ≤ vec_capacity spares.old }
    requires len { vec_len spares.old ≤ boxes }
    requires empty { Each (λ b. HasNone b.value) spares.old.items }
    ensures covers { IfOk result (λ n. wanted ≤ n) }
    ensures room { IfOk result (λ n. n ≤ vec_capacity spares.new) }
    ensures len { IfOk result (λ n. n + vec_len spares.old ≡ boxes + vec_len spares.new) }
    ensures unchanged { OnErr result (vec_len spares.new ≡ vec_len spares.old) }
    ensures capacity { vec_capacity spares.old ≤ vec_capacity spares.new }
    ensures empty { Each (λ b. HasNone b.value) spares.new.items }
{
    if wanted <= boxes {
        return Ok(boxes);
    }
    spares.reserve(wanted - spares.len())?;
    spares.push_reserved(new_box(*spares.allocator())?);
    Ok(wanted)
}

/// Puts back the box of a queue that has no waiter any more, if there is one. It allocates nothing.
pub(crate) fn put_back<A: Allocator + Copy>(
    spares: &mut Spares<A>,
    emptied: Option<Box<MarkedQueue, A>>,
)
    requires empty { Each (λ b. HasNone b.value) spares.old.items }
    requires emptied { IfSome emptied (λ b. HasNone b.value) }
    requires room { IsSome emptied → vec_len spares.old < vec_capacity spares.old }
    ensures len { vec_len spares.new ≡ vec_len spares.old + (if is_some emptied then 1 else 0) }
    ensures capacity { vec_capacity spares.new ≡ vec_capacity spares.old }
    ensures empty { Each (λ b. HasNone b.value) spares.new.items }
{
    if let Some(queue) = emptied {
        spares.push_reserved(queue);
    }
}
