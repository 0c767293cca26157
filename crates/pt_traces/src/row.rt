ghost use Rattle.std.specs.Prelude.{◌≡◌};
ghost use Rattle.std.specs.Option.{option_copied};
ghost use Rattle.pt_grammar.specs.Cuts.{cut_of};
ghost use Rattle.pt_traces.specs.Rows.{after_mark, is_remark, line_of, text_in};
ghost use Rattle.pt_traces.specs.Rows.{line_in};

use arrayvec::ArrayVec;
use pt_grammar::Cut;
use pt_types::MAX_LINE_LENGTH;

// Returns what a cutter gives of a line with this text.
fn cut_of(text: &[u8]) -> Cut
    ensures { result ≡ cut_of text.now }
{
    if text.len() > MAX_LINE_LENGTH {
        return Cut::Long;
    }
    Cut::Line(ArrayVec::try_from(text).unwrap())
}

// Returns what follows a mark and a space at the front of a row, if the row begins so.
fn after_mark(row: &[u8], mark: u8) -> Option<&[u8]>
    ensures { option_copied result ≡ after_mark mark row.now }
{
    match row {
        [first, b' ', rest @ ..] if *first == mark => Some(rest),
        _ => None,
    }
}

fn is_remark(row: &[u8]) -> bool
    ensures { result ≡ is_remark row.now }
{
    match row {
        [] => true,
        [first, ..] => *first == b' ' || *first == b'#',
    }
}

/// Returns the text of the answer in a row of a trace, if the row has one.
pub fn answer_in(row: &[u8]) -> Option<&[u8]>
    ensures { option_copied result ≡ text_in row.now }
{
    after_mark(row, b'>')
}

// Returns the line of a script in a row that is neither a remark nor an answer.
fn line_of(row: &[u8]) -> Cut
    ensures { result ≡ line_of row.now }
{
    match after_mark(row, b'<') {
        Some(text) => cut_of(text),
        None if row == b"<".as_slice() => Cut::Long,
        None => cut_of(row),
    }
}

/// Returns the line of a script in a row of a trace, as a cutter gives it, if the row has one.
pub fn line_in(row: &[u8]) -> Option<Cut>
    ensures { result ≡ line_in row.now }
{
    if is_remark(row) || answer_in(row).is_some() {
        return None;
    }
    Some(line_of(row))
}
