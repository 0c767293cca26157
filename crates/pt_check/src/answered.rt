//! Whether the answers that were seen are those that are due.

ghost use Rattle.std.specs.Prelude.{◌≡◌, ◌↔◌, ◌==◌, IsTrue, count_by, length, map, nat_lt};
ghost use Rattle.std.specs.List.{list_all};
ghost use Rattle.pt_traces.specs.Answers.{agrees_with, answer_of};
ghost use Rattle.pt_check.specs.Agreements.{IsAnswered, answers_in, is_seen_once};

use pt_traces::{Answer, Block, Rows, Seen};

// Returns whether any of the answers agrees with this one.
fn is_seen(due: &Answer<'_>, mut seen: Seen<'_>) -> bool
    ensures { result ≡ nat_lt 0 (count_by (agrees_with due.now) seen.entry) }
{
    while let Some(answer) = seen.next() {
        if due.agrees_with(&answer) {
            return true;
        }
    }
    false
}

// Returns whether exactly one of the answers agrees with this one.
fn is_seen_once(due: &Answer<'_>, mut seen: Seen<'_>) -> bool
    ensures { result ≡ is_seen_once seen.entry due.now }
{
    while let Some(answer) = seen.next() {
        if due.agrees_with(&answer) {
            return !is_seen(due, seen);
        }
    }
    false
}

// Returns whether there are as many answers as rows.
#[tactic(auto, using(crate::proofs::Counting::sizes))]
fn are_as_many(mut due: Rows<'_>, mut seen: Seen<'_>) -> bool
    ensures { result ≡ (length seen.entry == length due.entry) }
{
    while due.next().is_some() {
        if seen.next().is_none() {
            return false;
        }
    }
    seen.next().is_none()
}

// Returns whether each of the answers in these rows is seen once.
fn is_each_seen(mut due: Rows<'_>, block: &Block<'_>) -> bool
    ensures { result ≡ list_all (is_seen_once block.now.seen) (map answer_of due.entry) }
{
    while let Some(row) = due.next() {
        if !is_seen_once(&Answer::of(row), block.seen()) {
            return false;
        }
    }
    true
}

/// Returns whether the answers that were seen in a block are those in a text.
pub fn is_answered(due: &[u8], block: &Block<'_>) -> bool
    ensures { IsTrue result ↔ IsAnswered (answers_in due.now) block.now.seen }
{
    if !are_as_many(Rows::new(due), block.seen()) {
        return false;
    }
    let rows = Rows::new(due);
    is_each_seen(rows, block)
}
