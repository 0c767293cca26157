//! Answers, and how those from a place on are found.

ghost use Rattle.std.specs.Prelude.{[], ◌==◌, ◌++◌, ◌+◌, ◌<◌, ◌∷◌, ◌≡◌, ◌≤◌, drop, find, length};
ghost use Rattle.std.specs.Prelude.{map, option_map};
ghost use Rattle.pt_records.specs.Logs.{HasRisingPlaces, first_outcome_to, log_entry, log_since};

use crate::answer_log::{AnswerLog, LoggedAnswers};
use pt_types::{ClientId, Outcome};
use std::alloc::Allocator;

/// An answer, with the place of the entry that gave it.
#[derive(Clone, Copy)]
pub struct Answered {
    /// The place of the entry that gave it.
    pub at: u64,
    pub client: ClientId,
    /// The place of the call that it answers.
    pub place: u64,
    pub outcome: Outcome,
}

/// Returns the index at which the answers begin that the entries from a place on gave. The search
/// starts at the end of the log.
pub fn answered_since<A: Allocator + Copy>(answers: &AnswerLog<A>, place: u64) -> usize
    requires { HasRisingPlaces 0 (map log_entry answers.now.items) }
    ensures within { result ≤ length answers.now.items }
    ensures rest { map log_entry (drop result answers.now.items)
        ≡ log_since place (map log_entry answers.now.items) }
{
    let mut i = answers.len();
    while i > 0 {
        if answers.given_at(i - 1) < place {
            return i;
        }
        i -= 1;
    }
    i
}

/// Returns the index at which the answers begin that the entries from a place on gave, by a binary
/// search.
pub fn halved_since<A: Allocator + Copy>(answers: &AnswerLog<A>, place: u64) -> usize
    requires { HasRisingPlaces 0 (map log_entry answers.now.items) }
    ensures within { result ≤ length answers.now.items }
    ensures rest { map log_entry (drop result answers.now.items)
        ≡ log_since place (map log_entry answers.now.items) }
{
    let mut low = 0;
    let mut high = answers.len();
    while low < high {
        let middle = low + (high - low) / 2;
        if answers.given_at(middle) < place {
            low = middle + 1;
        } else {
            high = middle;
        }
    }
    low
}

// Returns the outcome of the first of these answers that is to the call at a place.
fn first_outcome(mut answers: LoggedAnswers<'_>, place: u64) -> Option<Outcome>
    ensures { result ≡ option_map (λ a. a.outcome) (find (λ a. a.place == place) answers.entry) }
{
    while let Some(answer) = answers.next() {
        if answer.place == place {
            return Some(answer.outcome);
        }
    }
    None
}

/// Returns the outcome of the first answer to the call at a place, among the answers that the
/// entries from that place on gave.
pub fn outcome_since<A: Allocator + Copy>(answers: &AnswerLog<A>, place: u64) -> Option<Outcome>
    requires { HasRisingPlaces 0 (map log_entry answers.now.items) }
    ensures { result ≡ first_outcome_to (log_since place (map log_entry answers.now.items)) place }
{
    let from = halved_since(answers, place);
    first_outcome(answers.from(from), place)
}

/// Returns the outcome of the first answer to the call at a place, among the answers that the
/// entries from that place on gave. The search starts at the end of the log, so this is for recent
/// calls.
pub fn recent_outcome<A: Allocator + Copy>(answers: &AnswerLog<A>, place: u64) -> Option<Outcome>
    requires { HasRisingPlaces 0 (map log_entry answers.now.items) }
    ensures { result ≡ first_outcome_to (log_since place (map log_entry answers.now.items)) place }
{
    let from = answered_since(answers, place);
    first_outcome(answers.from(from), place)
}

/// Appends an answer, in room that was made for it.
#[inline(always)]
pub fn tell<A: Allocator + Copy>(answers: &mut AnswerLog<A>, answer: Answered)
    requires { length answers.old.items < answers.old.capacity }
    ensures replies { map log_entry answers.new.items
        ≡ map log_entry answers.old.items ++ log_entry answer ∷ [] }
    ensures len { length answers.new.items ≡ length answers.old.items + 1 }
    ensures capacity { answers.new.capacity ≡ answers.old.capacity }
{
    answers.push(answer);
}
