use anyhow::{Result, bail};
use pt_lines::{ClientName, ScriptBody, ScriptLine, Who, read_script_line};
use pt_model::Event;
use pt_types::ClientId;

// Returns the client whose number is this name.
fn client_of(name: &ClientName) -> Result<ClientId> {
    let number = str::from_utf8(name.as_bytes())?.parse::<u64>()?;
    Ok(ClientId(number))
}

// Returns what a line says, as an event.
fn event_for(who: &Who, body: ScriptBody) -> Result<Event> {
    match (who, body) {
        (Who::Named(_), ScriptBody::Hello(priority)) => Ok(Event::Join(priority)),
        (Who::Named(name), ScriptBody::Ask(call)) => Ok(Event::Call(client_of(name)?, call)),
        (Who::Named(name), ScriptBody::Die) => Ok(Event::Death(client_of(name)?)),
        (Who::Star, ScriptBody::Tick(clock, moment)) => Ok(Event::Moment(clock, moment)),
        _ => bail!("no event"),
    }
}

/// Returns the event that a line asks for.
pub fn event_of(line: &str) -> Result<Event> {
    let ScriptLine { who, body } = read_script_line(line.as_bytes());
    match body {
        Ok(body) => event_for(&who, body),
        Err(refusal) => bail!("{}", refusal.word()),
    }
}
