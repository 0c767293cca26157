use crate::refusing::MAX_GROWTHS;
use anyhow::{Result, bail};
use pt_cases::Case;
use pt_core::{Applied, Core};
use pt_failing_alloc::{Refusing, refuse_each};
use pt_grammar::{ClientName, ScriptBody, ScriptLine, Who, read_script_line};
use pt_model::Event;
use pt_types::{ClientId, Refusal};
use std::alloc::Global;

// The most entries of a history between two seals. Some of the scripts need more for one event.
const LIMITS: [u16; 3] = [12, 20, 30];

pub type Names = Vec<(ClientName, ClientId)>;

type Refused<'a> = Core<&'a Refusing<Global>>;

// Returns the number of the client that joined last under a name.
fn client_of(names: &[(ClientName, ClientId)], name: &ClientName) -> ClientId {
    let mut found = ClientId(u64::MAX);
    for (earlier, client) in names {
        if earlier.as_bytes() == name.as_bytes() {
            found = *client;
        }
    }
    found
}

// Returns what a line says, as an event.
fn event_for(names: &[(ClientName, ClientId)], who: &Who, body: ScriptBody) -> Result<Event> {
    match (who, body) {
        (Who::Named(_), ScriptBody::Hello(priority)) => Ok(Event::Join(priority)),
        (Who::Named(name), ScriptBody::Ask(call)) => Ok(Event::Call(client_of(names, name), call)),
        (Who::Named(name), ScriptBody::Die) => Ok(Event::Death(client_of(names, name))),
        (Who::Star, ScriptBody::Tick(clock, moment)) => Ok(Event::Moment(clock, moment)),
        _ => bail!("no event"),
    }
}

/// Returns the event that a line asks for.
pub fn event_of(names: &[(ClientName, ClientId)], line: &[u8]) -> Result<Event> {
    let ScriptLine { who, body } = read_script_line(line);
    match body {
        Ok(body) => event_for(names, &who, body),
        Err(refusal) => bail!("{}", refusal.word()),
    }
}

/// Notes the client that joins by a line, which is the next entry.
pub fn note(names: &mut Names, line: &[u8], place: u64) -> Result<()> {
    let ScriptLine { who, body } = read_script_line(line);
    if let (Who::Named(name), Ok(ScriptBody::Hello(_))) = (who, body) {
        names.push((name, ClientId(place)))?;
    }
    Ok(())
}

// Returns whether an event came out as it must.
fn is_same(done: &Result<Applied, Refusal>, expected: &Result<Applied, Refusal>) -> bool {
    match (done, expected) {
        (Ok(one), Ok(other)) => {
            (one.first, one.last, one.sealed) == (other.first, other.last, other.sealed)
                && one.outcome == other.outcome
        }
        (Err(one), Err(other)) => one == other,
        _ => false,
    }
}

// Applies an event, once more if a growth is refused, which must leave the core as it was. Returns
// what came of it, and whether a growth was refused.
fn land(core: &mut Refused, event: &Event) -> Result<(Result<Applied, Refusal>, bool)> {
    let before = (core.first(), core.len(), core.outer());
    let done = core.apply_event(event);
    if done.err() != Some(Refusal::Enomem) {
        return Ok((done, false));
    }
    if (core.first(), core.len(), core.outer()) != before || matches!(event, Event::Death(_)) {
        bail!("a refused event changed the core");
    }
    Ok((core.apply_event(event), true))
}

// Plays a line on both cores. Returns whether a growth was refused.
fn play_line(core: &mut Refused, plain: &mut Core, names: &mut Names, line: &[u8]) -> Result<bool> {
    let event = event_of(names.as_slice(), line)?;
    let (done, met) = land(core, &event)?;
    let expected = plain.apply_event(&event);
    if !is_same(&done, &expected) {
        bail!("an event is written elsewhere");
    }
    if let Ok(applied) = expected {
        note(names, line, applied.first)?;
    }
    Ok(met)
}

// Returns whether both cores have the same entries.
fn are_alike(core: &Refused, plain: &Core) -> bool {
    for place in plain.first()..plain.len() {
        if core.entry(place) != plain.entry(place) {
            return false;
        }
    }
    (core.first(), core.len(), core.outer()) == (plain.first(), plain.len(), plain.outer())
}

// Plays a script on both cores. Returns whether a growth was refused.
fn play_both(alloc: Global, core: &mut Refused, plain: &mut Core, script: &str) -> Result<bool> {
    let mut names = Vec::new(alloc);
    let mut met = false;
    for line in script.lines() {
        met = play_line(core, plain, &mut names, line.as_bytes())? || met;
    }
    if !are_alike(core, plain) {
        bail!("the cores differ");
    }
    Ok(met)
}

// Plays a script on a core with this heap, beside one that is refused nothing.
fn play_over(alloc: Global, heap: &Refusing<Global>, limit: u16, script: &str) -> Result<bool> {
    let Ok(mut core) = Core::with_limit(heap, limit as u32) else {
        return Ok(true);
    };
    let mut plain = Core::with_limit(alloc, limit as u32)?;
    play_both(alloc, &mut core, &mut plain, script)
}

/// Plays a case on cores of small limits, which seal their histories on the way, with each growth
/// refused in turn.
pub fn is_sealed(alloc: Global, case: &Case) -> Result<bool> {
    let script = str::from_utf8(&case.script)?;
    for limit in LIMITS {
        let refused = refuse_each(alloc, MAX_GROWTHS, |heap| -> Result<bool> {
            play_over(alloc, heap, limit, script)
        })?;
        if refused.is_none() {
            return Ok(false);
        }
    }
    Ok(true)
}
