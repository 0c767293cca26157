ghost use Rattle.std.specs.Prelude.{◌≡◌, false};
ghost use Rattle.pt_traces.specs.Rows.{rows};
ghost use Rattle.pt_traces.specs.Blocks.{first_wrong, is_wrong};

use crate::answer::Answer;
use crate::row::{answer_in, line_in};
use crate::rows::Rows;

// Returns whether a row should be an answer and is none: it can't be read as one, or no line of the
// script came before it.
fn is_wrong(has_line: bool, row: &[u8]) -> bool
    ensures { result ≡ is_wrong has_line row.now }
{
    match answer_in(row) {
        Some(text) => !has_line || !Answer::of(text).is_whole(),
        None => false,
    }
}

/// Returns the number of the first row of a trace that should be an answer and is none, from 1. It
/// can't be read as one, or no line of the script came before it.  [profile]
pub fn wrong_row(trace: &[u8]) -> Option<usize>
    ensures { result ≡ first_wrong false 1 (rows trace.now) }
{
    let mut has_line = false;
    let mut number = 0;
    let mut rows = Rows::new(trace);
    while let Some(row) = rows.next() {
        number += 1;
        if is_wrong(has_line, row) {
            return Some(number);
        }
        has_line |= line_in(row).is_some();
    }
    None
}
