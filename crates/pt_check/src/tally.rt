use crate::appending::{put, put_count, put_number};
use crate::fault::CheckFault;
use std::alloc::Allocator;

/// What was counted of a trace.
#[derive(Clone, Copy)]
pub struct Tally {
    /// The lines of the script.
    pub lines: u64,
    /// The lines with a difference.
    pub differing: u64,
    /// The answers that were seen and are due.
    pub answers: u64,
    /// Those of them whose word is `?`.
    pub unasked: u64,
    /// Those of them that were seen after a later line.
    pub late: u64,
}

/// Counts one more.
pub fn count(n: &mut u64) {
    *n = n.saturating_add(1);
}

impl Tally {
    pub fn new() -> Tally {
        Tally {
            lines: 0,
            differing: 0,
            answers: 0,
            unasked: 0,
            late: 0,
        }
    }

    // Appends how many answers are not asked for or late, if any are.
    fn put_remarks<A: Allocator + Copy>(&self, out: &mut Vec<u8, A>) -> Result<(), CheckFault> {
        if self.unasked > 0 {
            put(out, b", ")?;
            put_number(out, self.unasked)?;
            put(out, b" not asked")?;
        }
        if self.late > 0 {
            put(out, b", ")?;
            put_number(out, self.late)?;
            put(out, b" late")?;
        }
        Ok(())
    }

    /// Appends that all agrees.
    pub fn put_agreement<A: Allocator + Copy>(
        &self,
        out: &mut Vec<u8, A>,
    ) -> Result<(), CheckFault> {
        put(out, b": agrees: ")?;
        put_count(out, self.lines, b"script line")?;
        put(out, b", ")?;
        put_count(out, self.answers, b"answer")?;
        self.put_remarks(out)?;
        put(out, b"\n")
    }

    /// Appends that the trace was compared to its end, and differs.
    pub fn put_differences<A: Allocator + Copy>(
        &self,
        out: &mut Vec<u8, A>,
    ) -> Result<(), CheckFault> {
        put(out, b": differs in ")?;
        put_count(out, self.differing, b"script line")?;
        put(out, b" of ")?;
        put_number(out, self.lines)?;
        put(out, b", each with an answer that changes nothing\n")
    }

    /// Appends that the trace differs at the line in this row, which is counted, and that the lines
    /// after it were not compared.
    pub fn put_stop<A: Allocator + Copy>(
        &self,
        row: u64,
        later: u64,
        out: &mut Vec<u8, A>,
    ) -> Result<(), CheckFault> {
        put(out, b": differs at line ")?;
        put_number(out, row)?;
        put(out, b"; ")?;
        let agree = self.lines.saturating_sub(self.differing);
        put_count(out, agree, b"script line")?;
        put(
            out,
            if agree == 1 {
                b" before it agrees"
            } else {
                b" before it agree"
            },
        )?;
        if later > 0 {
            put(out, b", ")?;
            put_number(out, later)?;
            put(out, b" after it not compared")?;
        }
        put(out, b"\n")
    }
}
