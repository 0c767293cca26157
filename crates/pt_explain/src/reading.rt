//! Lines of a script, read and copied, since each is both explained and answered.

ghost use Rattle.std.specs.Prelude.{◌≡◌, List, ℕ, Ok, IfSome};
ghost use Rattle.pt_grammar.specs.Script.{body_read, script_of, script_read, short_read};

use pt_lines::{Cut, ScriptBody, ScriptLine, Who, named_at_start, read_client, read_script_body};
use pt_types::{Call, MAX_LINE_LENGTH, Name, Refusal};

// Reads a call of one name, if what follows a client and a space begins like one. Most lines are
// such calls. Read as any other, `lock` and `unlock` took an eighth of an explanation's
// instructions.
fn read_named(rest: &[u8]) -> Option<Call>
    ensures { IfSome result (λ call. (client : List ℕ)
        → body_read (Who.Named client) rest.now ≡ Ok (ScriptBody.Ask call)) }
{
    if let Some((verb, name)) = named_at_start(rest)
        && let Some(name) = Name::new(name)
    {
        return Some(verb.call(name));
    }
    None
}

// Reads what follows a client and a space.
fn read_rest(who: &Who, rest: &[u8]) -> Result<ScriptBody, Refusal>
    ensures { result ≡ body_read who.now rest.now }
{
    if let Who::Named(_) = who
        && let Some(call) = read_named(rest)
    {
        return Ok(ScriptBody::Ask(call));
    }
    read_script_body(who, rest)
}

// Reads a line that is not too long.
fn read_short(text: &[u8]) -> ScriptLine
    ensures { result ≡ short_read text.now }
{
    let (who, rest) = read_client(text);
    match rest {
        Some(rest) => {
            let body = read_rest(&who, rest);
            ScriptLine { who, body }
        }
        None => ScriptLine {
            who,
            body: Err(Refusal::Syntax),
        },
    }
}

// Reads a text as a line.
fn read_text(text: &[u8]) -> ScriptLine
    ensures { result ≡ script_read text.now }
{
    if text.len() > MAX_LINE_LENGTH {
        return ScriptLine::long();
    }
    read_short(text)
}

/// Reads what a cutter gave, as `ScriptLine::of` does.
pub fn read_line(cut: &Cut) -> ScriptLine
    ensures { result ≡ script_of cut.now }
{
    match cut {
        Cut::Line(text) => read_text(text.as_slice()),
        Cut::Long => ScriptLine::long(),
    }
}

// Returns a copy of what a line says, without allocating.
fn copy_body(body: &ScriptBody) -> ScriptBody
    ensures { result ≡ body.now }
{
    match body {
        ScriptBody::Hello(priority) => ScriptBody::Hello(*priority),
        ScriptBody::Ask(call) => ScriptBody::Ask(call.copied()),
        ScriptBody::Die => ScriptBody::Die,
        ScriptBody::Tick(clock, moment) => ScriptBody::Tick(*clock, *moment),
    }
}

/// Returns a copy of a line, without allocating.
pub fn copy_line(line: &ScriptLine) -> ScriptLine
    ensures { result ≡ line.now }
{
    let body = match &line.body {
        Ok(body) => Ok(copy_body(body)),
        Err(why) => Err(*why),
    };
    ScriptLine {
        who: line.who.copied(),
        body,
    }
}
