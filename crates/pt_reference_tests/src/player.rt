ghost use Rattle.std.specs.Prelude.{◌<◌, length};

use crate::question::Question;
use crate::reading::event_of;
use crate::showing::write_entry;
use anyhow::{Context, Result, bail};
use pt_model::{Entry, Event};
use pt_reference::forced::forced;
use pt_reference::queries::reply_of_entry;
use pt_reference::room::{entry_for, refusal_within};
use std::alloc::{AllocError, Global};

// The most entries that a history may have, until a script sets another limit.
const LIMIT: u64 = 1 << 20;

// The most entries that may follow an event of these scripts.
const MAX_FORCED: u64 = 100;

// Enters an event, and all entries that must follow it.
fn enter(entries: &mut Vec<Entry>, event: &Event) -> Result<()> {
    let entry = entry_for(entries, event);
    entries.push(entry)?;
    for _ in 0..MAX_FORCED {
        match forced(entries) {
            Some(entry) => entries.push(entry)?,
            None => return Ok(()),
        }
    }
    bail!("more must follow")
}

// Writes the answer that an entry gives to the call at a place, if it gives one.
fn write_reply_line(
    text: &mut String,
    before: &[Entry],
    entry: &Entry,
    place: u64,
) -> Result<(), AllocError> {
    if let Some(reply) = reply_of_entry(before, entry, place) {
        let (client, word) = (reply.client.0, reply.outcome.word());
        write!(text, ", {client} {place} {word}")?;
    }
    Ok(())
}

// Writes the line of the entry at a place, with the answers that it gives.
fn write_line(text: &mut String, entries: &[Entry], i: usize) -> Result<(), AllocError>
    requires { i < length entries.now }
{
    write_entry(text, i, &entries[i])?;
    for place in 0..entries.len() {
        write_reply_line(text, &entries[..i], &entries[i], place as u64)?;
    }
    writeln!(text)
}

// Writes the lines of the entries from this place on.
fn write_lines(text: &mut String, entries: &[Entry], first: usize) -> Result<(), AllocError> {
    for i in first..entries.len() {
        write_line(text, entries, i)?;
    }
    Ok(())
}

/// A history that grows by the lines of a script, and the text of their results.
#[derive(Drop)]
pub struct Player {
    entries: Vec<Entry>,
    limit: u64,
    text: String,
}

impl Player {
    /// Creates a player that has played no line.
    pub fn new(alloc: Global) -> Player {
        Player {
            entries: Vec::new(alloc),
            limit: LIMIT,
            text: String::new(alloc),
        }
    }

    /// Returns the text of the results so far.
    pub fn text(&self) -> &str {
        self.text.as_str()
    }

    // Refuses an event, or enters it with all entries that must follow it.
    fn apply(&mut self, event: &Event) -> Result<()> {
        if let Some(refusal) = refusal_within(&self.entries, self.limit, event) {
            let word = refusal.word();
            writeln!(&mut self.text, "{word}")?;
            return Ok(());
        }
        let first = self.entries.len();
        enter(&mut self.entries, event)?;
        write_lines(&mut self.text, &self.entries, first)?;
        Ok(())
    }

    fn play_line(&mut self, line: &str) -> Result<()> {
        if let Some(limit) = line.strip_prefix("limit ") {
            self.limit = limit.parse::<u64>()?;
            return Ok(());
        }
        match line.strip_prefix("? ") {
            Some(question) => {
                let question = Question::read(question)?;
                question.write_answer(&mut self.text, &self.entries)?;
                Ok(())
            }
            None => self.apply(&event_of(line)?),
        }
    }

    /// Plays the lines of a script.
    pub fn play(&mut self, script: &str) -> Result<()> {
        for line in script.lines() {
            self.play_line(line).context(format_args!("{line}"))?;
        }
        Ok(())
    }
}
