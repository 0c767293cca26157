//! A trace that is compared past its first difference, and what is written of it.

ghost use Rattle.std.specs.Prelude.{◌≡◌, ◌<◌, [], IfSome, vec_len};
ghost use Rattle.pt_model.specs.Starts.{empty_start};
ghost use Rattle.pt_legal.specs.Cores.{core_state};
ghost use Rattle.pt_engine.specs.Scripts.{entries_between_seals};

use crate::appending::{put, put_number};
use crate::due::answer_line;
use crate::fault::CheckFault;
use crate::finding::{count_to, is_due, late_row, seen_to};
use crate::reasons::Reasons;
use crate::tally::{Tally, count};
use crate::weight::{Weight, weigh};
use pt_engine::Engine;
use pt_lines::Cut;
use pt_readable::ReadableHistory;
use pt_traces::{Answer, Block, Blocks, Rows};
use std::alloc::Allocator;

// The most lines that are compared.
const MAX_LINES: u64 = 1 << 53;

/// What is known of a trace so far.
pub struct Course<'a, C: ReadableHistory, A: Allocator + Copy> {
    engine: Engine<C, A>,
    alloc: A,
    name: &'a [u8],
    takes_late: bool,
    // The answers that were due to earlier lines and are seen later.
    awaited: Vec<Vec<u8, A>, A>,
    // The rows that show the answers in the latest block.
    diff: Vec<u8, A>,
    /// What was counted.
    pub tally: Tally,
}

// Not derived, so that code that drops it proves nothing of its parts.
impl<'a, C: ReadableHistory, A: Allocator + Copy> Drop for Course<'a, C, A> {
    fn drop(self) {
        let Course {
            engine: _,
            alloc: _,
            name: _,
            takes_late: _,
            awaited: _,
            diff: _,
            tally: _,
        } = self;
    }
}

// Appends a mark and an answer.
fn put_answer<A: Allocator + Copy>(
    out: &mut Vec<u8, A>,
    mark: &[u8],
    answer: &Answer<'_>,
) -> Result<(), CheckFault> {
    put(out, mark)?;
    put(out, answer.client())?;
    put(out, b" ")?;
    put(out, answer.number())?;
    put(out, b" ")?;
    put(out, answer.word())?;
    put(out, b"\n")
}

// Appends that an answer is late.
fn put_late<A: Allocator + Copy>(
    out: &mut Vec<u8, A>,
    answer: &Answer<'_>,
    row: u64,
) -> Result<(), CheckFault> {
    put(out, b"       ")?;
    put(out, answer.client())?;
    put(out, b" ")?;
    put(out, answer.number())?;
    put(out, b" is answered late, at line ")?;
    put_number(out, row)?;
    put(out, b"\n")
}

impl<'a, C: ReadableHistory, A: Allocator + Copy> Course<'a, C, A> {
    /// Begins a trace with this name, over an empty core.
    pub fn new(core: C, alloc: A, name: &'a [u8], takes_late: bool) -> Course<'a, C, A>
        requires { core_state (C.seen core)
            ≡ record { start = empty_start; entries = []; limit = entries_between_seals } }
    {
        Course {
            engine: Engine::new(core, alloc),
            alloc,
            name,
            takes_late,
            awaited: Vec::new(alloc),
            diff: Vec::new(alloc),
            tally: Tally::new(),
        }
    }

    // Returns the answers that are due to a line.
    fn answer(&mut self, line: &Cut) -> Result<Vec<u8, A>, CheckFault> {
        if self.engine.lines() >= MAX_LINES {
            return Err(CheckFault::Memory);
        }
        answer_line(&mut self.engine, self.alloc, line)
    }

    // Weighs an answer that is due, and shows it.
    fn weigh_due(
        &mut self,
        row: &[u8],
        block: &Block<'_>,
        later: &Blocks<'_>,
    ) -> Result<Weight, CheckFault> {
        let due = Answer::of(row);
        match seen_to(&due, block.seen()) {
            Some(seen) => self.weigh_pair(&due, &seen),
            None => self.weigh_missing(&due, row, later),
        }
    }

    // Weighs an answer that was seen against the one that is due to the same line.
    fn weigh_pair(&mut self, due: &Answer<'_>, seen: &Answer<'_>) -> Result<Weight, CheckFault> {
        count(&mut self.tally.answers);
        let weight = weigh(due, seen);
        if let Weight::Same = weight {
            if seen.word() == b"?".as_slice() {
                count(&mut self.tally.unasked);
            }
            put_answer(&mut self.diff, b"  ", seen)?;
        } else {
            put_answer(&mut self.diff, b"- ", due)?;
            put_answer(&mut self.diff, b"+ ", seen)?;
        }
        Ok(weight)
    }

    // Weighs an answer that is due and was not seen after its event.
    fn weigh_missing(
        &mut self,
        due: &Answer<'_>,
        row: &[u8],
        later: &Blocks<'_>,
    ) -> Result<Weight, CheckFault> {
        put_answer(&mut self.diff, b"- ", due)?;
        let Some(at) = late_row(due, later.copied()) else {
            return Ok(Weight::Changes);
        };
        put_late(&mut self.diff, due, at)?;
        let mut awaited = Vec::new(self.alloc);
        put(&mut awaited, row)?;
        if self.awaited.push(awaited).is_err() {
            return Err(CheckFault::Memory);
        }
        Ok(if self.takes_late {
            Weight::Same
        } else {
            Weight::Still
        })
    }

    // Returns the place of the awaited answer to the same line as this one, if there is one.
    fn awaited_at(&self, seen: &Answer<'_>) -> Option<usize>
        ensures { IfSome result (λ place. place < vec_len self.now.awaited) }
    {
        for place in 0..self.awaited.len() {
            if seen.is_to_line_of(&Answer::of(&self.awaited[place])) {
                return Some(place);
            }
        }
        None
    }

    // Weighs an answer that was seen, unless it is due to this block's line.
    fn weigh_seen(
        &mut self,
        seen: &Answer<'_>,
        due: &[u8],
        block: &Block<'_>,
    ) -> Result<Weight, CheckFault> {
        let is_single = count_to(seen, block.seen()) == 1;
        if is_due(seen, Rows::new(due)) {
            if is_single {
                return Ok(Weight::Same);
            }
            put_answer(&mut self.diff, b"+ ", seen)?;
            return Ok(Weight::Changes);
        }
        if is_single && self.has_waiters(seen) {
            put_answer(&mut self.diff, b"  ", seen)?;
            return Ok(Weight::Same);
        }
        put_answer(&mut self.diff, b"+ ", seen)?;
        Ok(Weight::Changes)
    }

    // Returns whether this answer agrees with an awaited one, which is then awaited no more.
    fn has_waiters(&mut self, seen: &Answer<'_>) -> bool {
        let Some(place) = self.awaited_at(seen) else {
            return false;
        };
        let awaited = self.awaited.swap_remove(place);
        if !Answer::of(&awaited).agrees_with(seen) {
            return false;
        }
        count(&mut self.tally.answers);
        count(&mut self.tally.late);
        true
    }

    // Weighs the answers that are due.
    fn weigh_all_due(
        &mut self,
        due: &[u8],
        block: &Block<'_>,
        later: &Blocks<'_>,
    ) -> Result<Weight, CheckFault> {
        let mut weight = Weight::Same;
        let mut rows = Rows::new(due);
        while let Some(row) = rows.next() {
            weight = weight.or(self.weigh_due(row, block, later)?);
        }
        Ok(weight)
    }

    // Weighs the answers that were seen.
    fn weigh_all_seen(&mut self, due: &[u8], block: &Block<'_>) -> Result<Weight, CheckFault> {
        let mut weight = Weight::Same;
        let mut seen = block.seen();
        while let Some(answer) = seen.next() {
            weight = weight.or(self.weigh_seen(&answer, due, block)?);
        }
        Ok(weight)
    }

    // Appends the line of a block, its entries and why they came, and the answers as they are
    // shown.
    fn put_block(
        &self,
        block: &Block<'_>,
        reasons: &Reasons,
        out: &mut Vec<u8, A>,
    ) -> Result<(), CheckFault> {
        put(out, self.name)?;
        put(out, b":")?;
        put_number(out, block.row())?;
        put(out, b": ")?;
        match block.line() {
            Cut::Line(text) => put(out, text.as_slice())?,
            Cut::Long => put(out, b"<")?,
        }
        put(out, b"\n")?;
        reasons.put_rows(out, &self.engine)?;
        put(out, &self.diff)
    }

    /// Compares the next block, and appends what differs in it. The later blocks show which answers
    /// are late.
    pub fn compare(
        &mut self,
        block: &Block<'_>,
        later: &Blocks<'_>,
        out: &mut Vec<u8, A>,
    ) -> Result<Weight, CheckFault> {
        let reasons = Reasons::of(&self.engine, block.line());
        let due = self.answer(block.line())?;
        self.diff.clear();
        let missed = self.weigh_all_due(&due, block, later)?;
        let weight = missed.or(self.weigh_all_seen(&due, block)?);
        count(&mut self.tally.lines);
        if let Weight::Same = weight {
            return Ok(weight);
        }
        count(&mut self.tally.differing);
        self.put_block(block, &reasons, out)?;
        Ok(weight)
    }
}
