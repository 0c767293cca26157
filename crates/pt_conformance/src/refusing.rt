ghost use Rattle.std.specs.Prelude.{◌≤◌, length};

use anyhow::Result;
use pt_cases::Case;
use pt_core::Core;
use pt_failing_alloc::{Refusing, refuse_each};
use pt_io::Counted;
use pt_script::{ENTRIES_BETWEEN_SEALS, ScriptFault, script};
use std::alloc::Global;
use std::io;
use std::io::{Read, Write};
use std::sync::atomic::{AtomicU64, Ordering};

/// The most growths of a script.
pub const MAX_GROWTHS: u64 = 1000;

// The growths that each script has at the least.
const LEAST_GROWTHS: u64 = 20;

// What the reader and the writer of a script tell each other: whether the latest answer was ENOMEM,
// and where the line with that answer begins, counted from 1.
#[derive(Drop)]
struct Marks {
    is_refused: AtomicU64,
    refused_at: AtomicU64,
}

// A reader that gives one line of a script per read, and gives a line once more if it was answered
// ENOMEM.
#[derive(Drop)]
struct Lines<'a, 'b> {
    script: &'a [u8],
    rest: &'a [u8],
    latest: &'a [u8],
    marks: &'b Marks,
}

// Returns the length of the first line of a text, with its newline.
fn first_line(text: &[u8]) -> usize
    ensures { result ≤ length text.now }
{
    let mut len: usize = 0;
    for byte in text {
        len = len.saturating_add(1);
        if *byte == b'\n' {
            break;
        }
    }
    len.min(text.len())
}

impl<'a, 'b> Lines<'a, 'b> {
    // Goes on to the next line.
    fn go_on(&mut self) {
        let (line, rest) = self.rest.split_at(first_line(self.rest));
        self.latest = line;
        self.rest = rest;
    }

    // Notes that the latest line was answered ENOMEM. A death may not be: it is noted as no line.
    fn note(&self) {
        if self.latest.ends_with(b" die\n") {
            return;
        }
        let left = self.rest.len().saturating_add(self.latest.len());
        let at = self.script.len().saturating_sub(left) as u64;
        self.marks
            .refused_at
            .store(at.saturating_add(1), Ordering::SeqCst);
    }
}

impl<'a, 'b> Read for Lines<'a, 'b> {
    fn read(&mut self, buf: &mut [u8]) -> io::Result<usize> {
        if self.marks.is_refused.swap(0, Ordering::SeqCst) == 0 {
            self.go_on();
        } else {
            self.note();
        }
        let n = self.latest.len().min(buf.len());
        buf[..n].copy_from_slice(&self.latest[..n]);
        Ok(n)
    }
}

// A writer that stores answers, and marks if the latest of them is ENOMEM.
#[derive(Drop)]
struct Answers<'b> {
    text: Vec<u8>,
    marks: &'b Marks,
}

impl<'b> Write for Answers<'b> {
    fn write(&mut self, buf: &[u8]) -> io::Result<usize> {
        self.text.extend_from_slice(buf)?;
        if buf.ends_with(b" ENOMEM\n") {
            self.marks.is_refused.store(1, Ordering::SeqCst);
        }
        Ok(buf.len())
    }

    fn flush(&mut self) -> io::Result<()> {
        Ok(())
    }
}

// What came of a run: the fault, what was written, and where the line answered ENOMEM begins,
// counted from 1, or 0.
#[derive(Drop)]
struct Run {
    fault: Option<ScriptFault>,
    text: Vec<u8>,
    refused_at: u64,
}

// Plays a script whose core and buffers have this heap.
fn play(alloc: Global, heap: &Refusing<Global>, input: &[u8]) -> Run {
    let marks = Marks {
        is_refused: AtomicU64::new(0),
        refused_at: AtomicU64::new(0),
    };
    let mut reader = Counted::new(Lines {
        script: input,
        rest: input,
        latest: b"",
        marks: &marks,
    });
    let mut writer = Counted::new(Answers {
        text: Vec::new(alloc),
        marks: &marks,
    });
    let fault = match Core::with_limit(heap, ENTRIES_BETWEEN_SEALS) {
        Ok(core) => script(core, heap, &mut reader, &mut writer).err(),
        Err(_) => Some(ScriptFault::Memory),
    };
    let Answers { text, marks: _ } = writer.into_inner();
    Run {
        fault,
        text,
        refused_at: marks.refused_at.load(Ordering::SeqCst),
    }
}

// Returns a script in which the client of the line that begins here sends its name alone before it.
fn with_bad_line(alloc: Global, script: &[u8], at: usize) -> Result<Vec<u8>> {
    let (before, after) = script.split_at(at.min(script.len()));
    let mut input = Vec::from_slice(alloc, before)?;
    for byte in after {
        if *byte == b' ' {
            break;
        }
        input.push(*byte)?;
    }
    input.push(b'\n')?;
    input.extend_from_slice(after)?;
    Ok(input)
}

// Returns whether a text is what is written if the line that begins here is refused, and sent once
// more: in place of ENOMEM, a line with the client's name alone is answered SYNTAX.
fn is_resent(alloc: Global, case: &Case, at: usize, text: &[u8]) -> Result<bool> {
    let input = with_bad_line(alloc, &case.script, at)?;
    let none = Refusing::new(alloc, 0);
    let run = play(alloc, &none, &input);
    let as_syntax = str::from_utf8(text)?.replacen(alloc, "ENOMEM", "SYNTAX", 1)?;
    Ok(as_syntax.as_bytes() == run.text.as_slice())
}

// Returns whether a run is one of those that may come of a refused growth.
fn is_allowed(alloc: Global, case: &Case, run: &Run) -> Result<bool> {
    match (run.fault, run.refused_at) {
        (Some(fault), 0) => Ok(
            fault == ScriptFault::Memory && case.expected.starts_with(&run.text),
        ),
        (None, 0) => Ok(run.text.as_slice() == case.expected.as_slice()),
        (None, at) => is_resent(alloc, case, at as usize - 1, &run.text),
        _ => Ok(false),
    }
}

/// Plays a case with each growth refused in turn. Returns whether each run is allowed, and the last
/// one, in which no growth is refused, writes what is expected.
pub fn is_steady(alloc: Global, case: &Case) -> Result<bool> {
    let mut all = true;
    let refused = refuse_each(alloc, MAX_GROWTHS, |heap| -> Result<bool> {
        let run = play(alloc, heap, &case.script);
        all = all && is_allowed(alloc, case, &run)?;
        Ok(run.fault.is_some() || run.refused_at != 0)
    })?;
    Ok(all && refused > Some(LEAST_GROWTHS))
}
