ghost use Rattle.std.specs.Prelude.{◌≡◌};
ghost use Rattle.std.specs.Option.{option_copied};
ghost use Rattle.pt_grammar.specs.Clients.{before_space, after_space, who_named};
ghost use Rattle.pt_grammar.specs.Script.{body_of, body_read, IsReadAs, short_read, script_read};

use crate::call_line::{CallLine, read_call};
use crate::client::{Who, client_at_start};
use crate::cut::Cut;
use crate::verbs::is_same;
use pt_fields::first_space;
use pt_types::{Call, Clock, MAX_LINE_LENGTH, Moment, Priority, Refusal};

/// What a line of a script says.
#[derive(PartialEq, Eq, Drop)]
pub enum ScriptBody {
    Hello(Priority),
    Ask(Call),
    /// The end of the client's process.
    Die,
    Tick(Clock, Moment),
}

/// A line of a script: the client that it belongs to, and what it says, or SYNTAX or LONG.
/// [profile]
#[derive(PartialEq, Eq, Drop)]
pub struct ScriptLine {
    pub who: Who,
    pub body: Result<ScriptBody, Refusal>,
}

// Returns what precedes the first space, and what follows it.
fn split_at_space(text: &[u8]) -> (&[u8], Option<&[u8]>)
    ensures before { result.0.now ≡ before_space text.now }
    ensures rest { option_copied result.1 ≡ after_space text.now }
{
    match first_space(text) {
        Some(end) => (&text[..end], Some(&text[end + 1..])),
        None => (text, None),
    }
}

// Returns a connection's line as a line of a script, if this client may send it there.
fn body_of(who: &Who, line: CallLine) -> Result<ScriptBody, Refusal>
    ensures { result ≡ body_of who.now line }
{
    match (who, line) {
        (Who::Named(_), CallLine::Hello(priority)) => Ok(ScriptBody::Hello(priority)),
        (Who::Named(_), CallLine::Ask(call)) => Ok(ScriptBody::Ask(call)),
        (Who::Star, CallLine::Tick(clock, moment)) => Ok(ScriptBody::Tick(clock, moment)),
        _ => Err(Refusal::Syntax),
    }
}

/// Reads what is said after a client and a space. It isn't inlined, so that more frequent lines
/// need not clear space for it.
#[inline(never)]
pub fn read_script_body(who: &Who, text: &[u8]) -> Result<ScriptBody, Refusal>
    ensures { result ≡ body_read who.now text.now }
{
    match who {
        Who::Unknown => return Err(Refusal::Syntax),
        Who::Named(_) if is_same(text, b"die") => return Ok(ScriptBody::Die),
        _ => {}
    }
    let line = read_call(text)?;
    body_of(who, line)
}

/// Returns the client that a line of a script belongs to, and what follows it and a space, if there
/// is a space.
#[inline(always)]
pub fn read_client(text: &[u8]) -> (Who, Option<&[u8]>)
    ensures who { result.0 ≡ who_named (before_space text.now) }
    ensures rest { option_copied result.1 ≡ after_space text.now }
{
    match client_at_start(text) {
        Some((name, rest)) => (Who::Named(name), Some(rest)),
        None => match text {
            [b'*', b' ', rest @ ..] => (Who::Star, Some(rest)),
            _ => read_other_client(text),
        },
    }
}

// Does what read_client does, for any text. It isn't inlined, since few lines belong to neither a
// client nor the clocks.
#[inline(never)]
fn read_other_client(text: &[u8]) -> (Who, Option<&[u8]>)
    ensures who { result.0 ≡ who_named (before_space text.now) }
    ensures rest { option_copied result.1 ≡ after_space text.now }
{
    let (name, rest) = split_at_space(text);
    (Who::named(name), rest)
}

/// Reads a line that is not too long.
pub fn read_short(text: &[u8]) -> ScriptLine
    ensures { result ≡ short_read text.now }
{
    let (who, rest) = read_client(text);
    match rest {
        Some(rest) => {
            let body = read_script_body(&who, rest);
            ScriptLine { who, body }
        }
        None => ScriptLine {
            who,
            body: Err(Refusal::Syntax),
        },
    }
}

/// Reads a line of a script. It allocates nothing.
pub fn read_script_line(text: &[u8]) -> ScriptLine
    ensures value { result ≡ script_read text.now }
    ensures read { IsReadAs text.now result }
{
    if text.len() > MAX_LINE_LENGTH {
        return ScriptLine::long();
    }
    read_short(text)
}

impl ScriptLine {
    ghost use Rattle.pt_grammar.specs.Script.{IsReadOf, script_of, long_line};

    /// Returns a line that is too long: it belongs to no client, and is LONG.  [profile]
    pub fn long() -> ScriptLine
        ensures { result ≡ long_line }
    {
        ScriptLine {
            who: Who::Unknown,
            body: Err(Refusal::Long),
        }
    }

    /// Reads what a cutter gave. It allocates nothing.
    pub fn of(cut: &Cut) -> ScriptLine
        ensures value { result ≡ script_of cut.now }
        ensures read { IsReadOf cut.now result }
    {
        match cut {
            Cut::Line(text) => read_script_line(text.as_slice()),
            Cut::Long => ScriptLine::long(),
        }
    }
}
