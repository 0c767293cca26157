//! Barriers: how a Trip answers the calls that wait there.

ghost use Rattle.std.specs.Prelude.{◌++◌, ◌+◌, ◌≡◌, ◌≤◌, length, map};
ghost use Rattle.pt_records.specs.Callers.{AreCallers};
ghost use Rattle.pt_records.specs.Writes.{ChangesCaller, RewritesCallers, caller_after_trip};
ghost use Rattle.pt_model.specs.Histories.{place};
ghost use Rattle.pt_records.specs.Arrivals.{AreArrivals, ClosesBy, Empties, answer_to};
ghost use Rattle.pt_records.specs.Arrivals.{caller_after_reply};
ghost use Rattle.pt_records.specs.Arrivals.{answer_to_earlier, with_serial};
ghost use Rattle.pt_records.specs.Logs.{log_entry, replies_with_place};
ghost use Rattle.pt_model.specs.declared.entry.Entry.{Entry as AnyEntry};
ghost use Rattle.pt_model.specs.Answers.{at_barrier, open_calls, entry_replies};
ghost use Rattle.pt_model.specs.Steps.{Follows};
ghost use Rattle.pt_history.specs.Stored.{stored_history};

use crate::answer_log::AnswerLog;
use crate::answers::Answered;
use crate::clients::Caller;
use pt_history::History;
use pt_table::Clients;
use pt_types::{ObjectId, Outcome};
use pt_waitq::{WaitList, Waiter};
use std::alloc::Allocator;

// Returns the answer to a call at a barrier: SERIAL for the last call, 0 for the others.
// [XSH pthread_barrier_wait, which one is profile]
fn answer_to(at: u64, waiter: &Waiter, is_last: bool) -> Answered
    ensures { result ≡ answer_to at is_last waiter.now }
{
    let outcome = if is_last {
        Outcome::Serial
    } else {
        Outcome::Done
    };
    Answered {
        at,
        client: waiter.client,
        place: waiter.place,
        outcome,
    }
}

// Closes the open call that an answer is to, and stores the answer in its client's row.
fn close_by<A: Allocator + Copy>(clients: &mut Clients<Caller, A>, answer: &Answered)
    ensures { ChangesCaller clients.old clients.new «answer».now.client
        (caller_after_reply answer.now) }
{
    if let Some(row) = clients.at_mut(answer.client.0) {
        row.open = None;
        row.answer = Some(answer.outcome);
    }
}

// Answers each waiter of a queue, in the order of the queue, and removes it from the queue. Each
// call is closed, and its client's row has the answer.
fn log_trip<Q: WaitList, A: Allocator + Copy>(
    clients: &mut Clients<Caller, A>,
    queues: &mut Q,
    answers: &mut AnswerLog<A>,
    at: u64,
    b: ObjectId,
)
    requires { length answers.old.items + length ((Q.seen queues.old).queue b)
        ≤ answers.old.capacity }
    ensures replies { answers.new.items ≡ answers.old.items
        ++ with_serial (map (answer_to_earlier at) ((Q.seen queues.old).queue b)) }
    ensures capacity { answers.new.capacity ≡ answers.old.capacity }
    ensures closed { ClosesBy clients.old clients.new
        (with_serial (map (answer_to_earlier at) ((Q.seen queues.old).queue b))) }
    ensures emptied { Empties b (Q.seen queues.old) (Q.seen queues.new) }
{
    let mut left = queues.len(b);
    while left > 0 {
        left -= 1;
        let first = queues.take_first(b).unwrap();
        let answer = answer_to(at, &first, left == 0);
        close_by(clients, &answer);
        answers.push(answer);
    }
}

/// Appends the answers that the barrier's Trip after this history gives, in room that was made for
/// them. Each call is closed, its client's row has the answer, and it leaves the barrier's queue.
pub fn trip<Q: WaitList, A: Allocator + Copy>(
    history: &History<A>,
    clients: &mut Clients<Caller, A>,
    queues: &mut Q,
    answers: &mut AnswerLog<A>,
    b: ObjectId,
)
    requires follows { Follows (stored_history history.now) }
    requires callers { AreCallers (stored_history history.now) clients.old }
    requires arrived { AreArrivals (stored_history history.now) b ((Q.seen queues.old).queue b) }
    requires room { length answers.old.items
        + length (at_barrier b (open_calls (stored_history history.now))) ≤ answers.old.capacity }
    ensures replies { let before = stored_history history.now in
        map log_entry answers.new.items
        ≡ map log_entry answers.old.items
        ++ replies_with_place (place before) (entry_replies before (AnyEntry.Trip b)) }
    ensures capacity { answers.new.capacity ≡ answers.old.capacity }
    ensures closed { RewritesCallers clients.old clients.new
        (caller_after_trip b (map log_entry answers.new.items)) }
    ensures emptied { Empties b (Q.seen queues.old) (Q.seen queues.new) }
{
    log_trip(clients, queues, answers, history.len(), b);
}
