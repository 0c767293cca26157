use anyhow::{Result, bail};
use pt_model::Entry;
use pt_readings::answers::open_place;
use pt_reference::queries::{answer_of, caller, latest, least_deadline};
use pt_reference::room::need;
use pt_types::{ClientId, Clock};
use std::alloc::AllocError;

/// A question that a script asks about a history.
#[derive(Clone, Copy)]
pub enum Question {
    /// The number of entries that must be free for what may have to follow.
    Need,
    /// The least deadline of an open call by this clock, in nanoseconds.
    LeastDeadline(Clock),
    /// The place of a client's latest call.
    Latest(ClientId),
    /// The place of a client's open call.
    OpenPlace(ClientId),
    /// The client whose call is at a place.
    Caller(u64),
    /// The answer to a client's latest call.
    AnswerOf(ClientId),
}

// Writes a number, or `none`.
fn write_number(text: &mut String, number: Option<u64>) -> Result<(), AllocError> {
    match number {
        Some(number) => writeln!(text, "{number}"),
        None => writeln!(text, "none"),
    }
}

// Writes the answer to a client's latest call: the client, the place of the call, and the outcome.
fn write_answer_of(
    text: &mut String,
    entries: &[Entry],
    client: ClientId,
) -> Result<(), AllocError> {
    match answer_of(entries, client) {
        Some(reply) => {
            let (client, place, word) = (reply.client.0, reply.place, reply.outcome.word());
            writeln!(text, "{client} {place} {word}")
        }
        None => writeln!(text, "none"),
    }
}

impl Question {
    /// Reads the text after the question mark of a line.
    pub fn read(text: &str) -> Result<Question> {
        match text.split_once(' ').unwrap_or((text, "")) {
            ("need", "") => Ok(Question::Need),
            ("least-deadline", "real") => Ok(Question::LeastDeadline(Clock::Real)),
            ("least-deadline", "mono") => Ok(Question::LeastDeadline(Clock::Mono)),
            ("latest", client) => Ok(Question::Latest(ClientId(client.parse::<u64>()?))),
            ("open-place", client) => Ok(Question::OpenPlace(ClientId(client.parse::<u64>()?))),
            ("caller", place) => Ok(Question::Caller(place.parse::<u64>()?)),
            ("answer-of", client) => Ok(Question::AnswerOf(ClientId(client.parse::<u64>()?))),
            _ => bail!("no such question"),
        }
    }

    /// Writes the answer to the question.
    pub fn write_answer(self, text: &mut String, entries: &[Entry]) -> Result<(), AllocError> {
        match self {
            Question::Need => write_number(text, Some(need(entries))),
            Question::LeastDeadline(clock) => write_number(text, least_deadline(entries, clock)),
            Question::Latest(client) => write_number(text, latest(entries, client)),
            Question::OpenPlace(client) => write_number(text, open_place(entries, client)),
            Question::Caller(place) => {
                write_number(text, caller(entries, place).map(|client| client.0))
            }
            Question::AnswerOf(client) => write_answer_of(text, entries, client),
        }
    }
}
