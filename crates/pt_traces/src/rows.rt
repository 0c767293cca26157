ghost use Rattle.std.specs.Prelude.{◌≡◌, ◌∷◌, [], MatchOption};
ghost use Rattle.pt_traces.specs.Rows.{rows};

use memchr::memchr;
use std::marker::Model;

/// The remaining rows of a text, one after another.
///
/// Contracts see the rows alone. The number of rows that were taken is only tested.
#[derive(Drop)]
pub struct Rows<'a> {
    rest: &'a [u8],
    passed: u64,
}

impl<'a> Model for Rows<'a> {
    ghost use Rattle.std.specs.Prelude.{List, ℕ};
    ghost use Rattle.pt_traces.specs.Rows.{rows};

    ghost Value = { List (List ℕ) };

    ghost view = { λ r. rows r.rest.now };
}

impl<'a> Rows<'a> {
    /// Returns the rows of a text. A newline ends a row, and a last row without one is a row unless
    /// it is empty.
    pub fn new(text: &'a [u8]) -> Self
        ensures { result ≡ rows text.now }
    {
        Rows {
            rest: text,
            passed: 0,
        }
    }

    /// Returns the same rows a second time.
    pub fn copied(&self) -> Rows<'a>
        ensures { result ≡ self.now }
    {
        Rows {
            rest: self.rest,
            passed: self.passed,
        }
    }

    /// Returns how many rows were taken before these, for a reader who looks one up.
    pub fn passed(&self) -> u64 {
        self.passed
    }

    /// Returns the next row, if one is left.
    pub fn next(&mut self) -> Option<&'a [u8]>
        ensures { MatchOption result ((self.old ≡ []) × (self.new ≡ []))
            (λ row. self.old ≡ row.now ∷ self.new) }
    {
        let text = self.rest;
        if text.is_empty() {
            return None;
        }
        self.passed = self.passed.saturating_add(1);
        match memchr(b'\n', text) {
            Some(end) => {
                self.rest = &text[end + 1..];
                Some(&text[..end])
            }
            None => {
                self.rest = &text[text.len()..];
                Some(text)
            }
        }
    }
}
