use super::*;
use pt_core::Applied;
use pt_failing_alloc::{Refusing, refuse_each};
use std::alloc::Global;

type Refused<'a> = Core<&'a Refusing<Global>>;

// Applies an event, at the first or the second attempt. A refused growth must leave the core as it
// was. Returns what was applied, and whether a growth was refused.
fn lands(core: &mut Refused, event: Event) -> Result<(Applied, bool), &'static str> {
    let before = (core.first(), core.len());
    match core.apply(event.copied()) {
        Ok(done) => return Ok((done, false)),
        Err(Refusal::Enomem) => {}
        Err(_) => return Err("an event is refused"),
    }
    if (core.first(), core.len()) != before {
        return Err("a refused event changed the core");
    }
    match core.apply(event) {
        Ok(done) => Ok((done, true)),
        Err(_) => Err("an event is refused twice"),
    }
}

// Applies an event, which must be written at these places, after a seal at this place or without
// one. Returns whether a growth was refused.
fn lands_at(
    core: &mut Refused,
    event: Event,
    sealed: Option<u64>,
    places: (u64, u64),
) -> Result<bool, &'static str> {
    let (done, met) = lands(core, event)?;
    if done.sealed != sealed || (done.first, done.last) != places {
        return Err("an event is written elsewhere");
    }
    Ok(met)
}

// Lets a client join, make a robust mutex and, after a seal, lock it. Returns whether a growth was
// refused.
fn plays_refused(core: &mut Refused) -> Result<bool, &'static str> {
    let priority = Priority::new(10).ok_or("a priority")?;
    let m = Name::new(b"m").ok_or("a name")?;
    let init = Call::MutexInit(m.copied(), MutexKind::Normal, true);
    let joins = lands_at(core, Event::Join(priority), None, (0, 0))?;
    let makes = lands_at(core, ask(0, init), None, (1, 1))?;
    let locks = lands_at(core, ask(0, Call::Lock(m)), Some(2), (2, 3))?;
    Ok(joins || makes || locks)
}

fn play_over(heap: &Refusing<Global>) -> Result<bool, &'static str> {
    match Core::with_limit(heap, 6) {
        Ok(mut core) => plays_refused(&mut core),
        Err(_) => Ok(true),
    }
}

#[test]
fn each_growth_of_a_seal_is_refused_in_turn(rt: HostRuntime) -> Result<(), Fail> {
    let refused = refuse_each(rt.alloc(), 100, play_over)?;
    assert!(rt; refused.is_some());
    Ok(())
}
