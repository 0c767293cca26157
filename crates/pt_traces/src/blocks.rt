ghost use Rattle.std.specs.Prelude.{◌≡◌, ◌∷◌, [], MatchOption};
ghost use Rattle.pt_traces.specs.Blocks.{answers_before_line, blocks};
ghost use Rattle.pt_traces.specs.Rows.{rows};

use crate::answer::Answer;
use crate::row::{answer_in, line_in};
use crate::rows::Rows;
use pt_grammar::Cut;
use std::marker::Model;

/// The remaining answers that were seen after a line and before the next, one after another.
#[derive(Drop)]
pub struct Seen<'a> {
    rows: Rows<'a>,
}

impl<'a> Model for Seen<'a> {
    ghost use Rattle.std.specs.Prelude.{List};
    ghost use Rattle.pt_traces.specs.Answers.{AnswerText};
    ghost use Rattle.pt_traces.specs.Blocks.{answers_before_line};

    ghost Value = { List AnswerText };

    ghost view = { λ s. answers_before_line s.rows };
}

impl<'a> Seen<'a> {
    /// Returns the next answer, if one is left. Nothing is known of later calls after the last one.
    pub fn next(&mut self) -> Option<Answer<'a>>
        ensures { MatchOption result (self.old ≡ [])
            (λ answer. self.old ≡ answer ∷ self.new) }
    {
        while let Some(row) = self.rows.next() {
            if let Some(text) = answer_in(row) {
                return Some(Answer::of(text));
            }
            if line_in(row).is_some() {
                return None;
            }
        }
        None
    }
}

/// A line of a script, and the answers that were seen after it and before the next line.
#[derive(Drop)]
pub struct Block<'a> {
    line: Cut,
    after: Rows<'a>,
}

impl<'a> Model for Block<'a> {
    ghost use Rattle.pt_traces.specs.Blocks.{SeenBlock, answers_before_line};

    ghost Value = { SeenBlock };

    ghost view = { λ b. record { line = b.line; seen = answers_before_line b.after } };
}

impl<'a> Block<'a> {
    /// Returns the line.
    pub fn line(&self) -> &Cut
        ensures { result.now ≡ self.now.line }
    {
        &self.line
    }

    /// Returns the number of the line's row, from 1.
    pub fn row(&self) -> u64 {
        self.after.passed()
    }

    /// Returns the answers that were seen.
    pub fn seen(&self) -> Seen<'a>
        ensures { result ≡ self.now.seen }
    {
        Seen {
            rows: self.after.copied(),
        }
    }
}

/// The remaining blocks of a trace, one after another.
#[derive(Drop)]
pub struct Blocks<'a> {
    rows: Rows<'a>,
}

impl<'a> Model for Blocks<'a> {
    ghost use Rattle.std.specs.Prelude.{List};
    ghost use Rattle.pt_traces.specs.Blocks.{SeenBlock, blocks};

    ghost Value = { List SeenBlock };

    ghost view = { λ b. blocks b.rows };
}

impl<'a> Blocks<'a> {
    /// Returns the blocks of a trace.
    pub fn new(trace: &'a [u8]) -> Blocks<'a>
        ensures { result ≡ blocks (rows trace.now) }
    {
        Blocks {
            rows: Rows::new(trace),
        }
    }

    /// Returns the same blocks a second time.
    pub fn copied(&self) -> Blocks<'a>
        ensures { result ≡ self.now }
    {
        Blocks {
            rows: self.rows.copied(),
        }
    }

    /// Returns the next block, if one is left.
    pub fn next(&mut self) -> Option<Block<'a>>
        ensures { MatchOption result ((self.old ≡ []) × (self.new ≡ []))
            (λ block. self.old ≡ block ∷ self.new) }
    {
        while let Some(row) = self.rows.next() {
            if let Some(line) = line_in(row) {
                return Some(Block {
                    line,
                    after: self.rows.copied(),
                });
            }
        }
        None
    }
}
