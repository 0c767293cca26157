//! Answers that are looked for.

use pt_lines::Cut;
use pt_traces::{Answer, Blocks, Rows, Seen};

/// Returns the first answer that was seen to the same line as this one, if there is one.
pub fn seen_to<'a>(answer: &Answer<'_>, mut seen: Seen<'a>) -> Option<Answer<'a>> {
    while let Some(other) = seen.next() {
        if answer.is_to_line_of(&other) {
            return Some(other);
        }
    }
    None
}

/// Returns how many of the answers that were seen are to the same line as this one.
pub fn count_to(answer: &Answer<'_>, mut seen: Seen<'_>) -> u64 {
    let mut count = 0u64;
    while let Some(other) = seen.next() {
        if answer.is_to_line_of(&other) {
            count = count.saturating_add(1);
        }
    }
    count
}

/// Returns whether an answer is due to the same line as this one.
pub fn is_due(answer: &Answer<'_>, mut due: Rows<'_>) -> bool {
    while let Some(row) = due.next() {
        if answer.is_to_line_of(&Answer::of(row)) {
            return true;
        }
    }
    false
}

// Returns whether this is a line of the answer's client.
fn is_of_client(answer: &Answer<'_>, line: &Cut) -> bool {
    match line {
        Cut::Line(text) => Answer::of(text.as_slice()).client() == answer.client(),
        Cut::Long => false,
    }
}

/// Returns the row of the line after which an answer to the same line as this one was seen late, if
/// one was: before the client's next line.
pub fn late_row(answer: &Answer<'_>, mut later: Blocks<'_>) -> Option<u64> {
    while let Some(block) = later.next() {
        if is_of_client(answer, block.line()) {
            return None;
        }
        if seen_to(answer, block.seen()).is_some() {
            return Some(block.row());
        }
    }
    None
}
