//! Waiters with their queues, in the order in which they were put in.

ghost use Rattle.std.specs.Prelude.{◌≡◌, ◌<◌, ◌^◌, ◌+◌, ◌==◌, ◌∷◌, [], ℕ, ◌&&◌, true};
ghost use Rattle.std.specs.Prelude.{if◌then◌else◌, length, Some, false, IfSome, IfNone};
ghost use Rattle.std.specs.List.{list_any};
ghost use Rattle.pt_waitq.specs.Queues.{In, comes_before, head_of, first_writer_of};
ghost use Rattle.pt_waitq.specs.Queues.{blocks_readers_from};
ghost use Rattle.pt_waitq.specs.Queues.{is_queued_in, of_client};
ghost use Rattle.pt_waitq.specs.Waits.{queue_of, has_waiter, IsOnce};
ghost use Rattle.pt_plain_list.specs.Earlier.{earlier_of};

use pt_types::{ClientId, ObjectId, Priority};
use pt_waitq::Waiter;

/// Returns whether one waiter goes before the other: by higher priority, then as a writer before a
/// reader, then by lesser arrival.  [XSH pthread_rwlock_unlock, 2.8.4]
fn comes_before(waiter: &Waiter, other: &Waiter) -> bool
    ensures { result ≡ comes_before waiter.now other.now }
{
    if waiter.prio.level() != other.prio.level() {
        return waiter.prio.level() > other.prio.level();
    }
    if waiter.writer != other.writer {
        return waiter.writer;
    }
    if waiter.moved != other.moved {
        return waiter.moved < other.moved;
    }
    waiter.place < other.place
}

/// Returns the first of the two waiters, or `waiter` if there is no other.
fn earlier(best: Option<Waiter>, waiter: Waiter) -> Waiter
    ensures { result ≡ earlier_of best waiter }
{
    match best {
        Some(other) if !comes_before(&waiter, &other) => other,
        _ => waiter,
    }
}

/// Returns the first waiter of a queue after one more entry.
fn first_with(best: Option<Waiter>, entry: &(ObjectId, Waiter), object: ObjectId) -> Option<Waiter>
    ensures { result
        ≡ (if entry.now.0 == object then Some (earlier_of best entry.now.1) else best) }
{
    if entry.0 == object {
        Some(earlier(best, entry.1))
    } else {
        best
    }
}

/// Returns the first waiter of a queue, if any.
pub(crate) fn first_of(entries: &[(ObjectId, Waiter)], object: ObjectId) -> Option<Waiter>
    ensures { result ≡ head_of (queue_of object entries.now) }
{
    let mut best: Option<Waiter> = None;
    for i in 0..entries.len() {
        best = first_with(best, &entries[i], object);
    }
    best
}

/// Returns the first writer of a queue after one more entry.
fn first_writer_with(
    best: Option<Waiter>,
    entry: &(ObjectId, Waiter),
    object: ObjectId,
) -> Option<Waiter>
    ensures { result
        ≡ (if entry.now.1.writer && (entry.now.0 == object)
        then Some (earlier_of best entry.now.1)
        else best) }
{
    if entry.1.writer {
        first_with(best, entry, object)
    } else {
        best
    }
}

/// Returns the first writer of a queue, if any.
pub(crate) fn first_writer_of(entries: &[(ObjectId, Waiter)], object: ObjectId) -> Option<Waiter>
    ensures { result ≡ first_writer_of (queue_of object entries.now) }
{
    let mut best: Option<Waiter> = None;
    for i in 0..entries.len() {
        best = first_writer_with(best, &entries[i], object);
    }
    best
}

/// Returns whether a writer of this priority or a higher one waits in a queue.
pub(crate) fn blocks_reader(
    entries: &[(ObjectId, Waiter)],
    object: ObjectId,
    prio: Priority,
) -> bool
    ensures { result ≡ list_any (blocks_readers_from prio) (queue_of object entries.now) }
{
    for i in 0..entries.len() {
        let entry = &entries[i];
        if entry.0 == object && entry.1.writer && entry.1.prio.level() >= prio.level() {
            return true;
        }
    }
    false
}

/// Returns the number of waiters in a queue after one more entry.
fn count_with(count: usize, entry: &(ObjectId, Waiter), object: ObjectId) -> usize
    requires { count + 1 < 2 ^ 64 }
    ensures { result ≡ (if entry.now.0 == object then count + 1 else count) }
{
    if entry.0 == object { count + 1 } else { count }
}

/// Returns the number of waiters in a queue.
pub(crate) fn count_of(entries: &[(ObjectId, Waiter)], object: ObjectId) -> usize
    ensures { result ≡ length (queue_of object entries.now) }
{
    let mut count: usize = 0;
    for i in 0..entries.len() {
        count = count_with(count, &entries[i], object);
    }
    count
}

/// Returns the first entry of a client, if any.
fn entry_of(entries: &[(ObjectId, Waiter)], client: ClientId) -> Option<(ObjectId, Waiter)>
    ensures found { IfSome result (λ e. In e entries.now × (e.1.client ≡ client)) }
    ensures unlisted { IfNone result (has_waiter client entries.now ≡ false) }
{
    for i in 0..entries.len() {
        let entry = &entries[i];
        if entry.1.client == client {
            return Some((entry.0, entry.1));
        }
    }
    None
}

/// Returns the waiter of a client that has at most one entry, with its queue.
pub(crate) fn waiter_of(
    entries: &[(ObjectId, Waiter)],
    client: ClientId,
) -> Option<(ObjectId, Waiter)>
    requires { IsOnce entries.now }
    ensures found { IfSome result (λ e. (q : ℕ)
        → of_client client (queue_of q entries.now) ≡ (if e.0 == q then e.1 ∷ [] else [])) }
    ensures nowhere { IfNone result ((q : ℕ) → is_queued_in client (queue_of q entries.now)
        ≡ false) }
{
    entry_of(entries, client)
}

/// Returns whether a client has an entry.
pub(crate) fn has_entry(entries: &[(ObjectId, Waiter)], client: ClientId) -> bool
    ensures { result ≡ has_waiter client entries.now }
{
    entry_of(entries, client).is_some()
}
