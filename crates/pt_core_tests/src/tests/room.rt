use super::*;

// Applies an event, which must be accepted and write these places, after a seal at this place or
// without one.
fn writes(
    rt: &impl Abort,
    core: &mut Core,
    event: Event,
    sealed: Option<u64>,
    places: (u64, u64),
) -> Result<(), Fail> {
    let done = core.apply(event)?;
    assert_eq!(rt; done.sealed, sealed);
    assert_eq!(rt; (done.first, done.last), places);
    Ok(())
}

// Applies an event, which must be refused for this reason. Nothing is written, and nothing is
// sealed.
fn refuses(rt: &impl Abort, core: &mut Core, event: Event, refusal: Refusal) {
    let before = (core.first(), core.len());
    assert_eq!(rt; core.apply(event), Err(refusal));
    assert_eq!(rt; (core.first(), core.len()), before);
}

// Lets a client join and make a robust mutex.
fn begins(rt: &impl Abort, core: &mut Core, m: &Name) -> Result<(), Fail> {
    let init = Call::MutexInit(m.copied(), MutexKind::Normal, true);
    writes(rt, core, join(10)?, None, (0, 0))?;
    writes(rt, core, ask(0, init), None, (1, 1))
}

// The second lock has no room without a seal.
#[test]
fn row_23(rt: HostRuntime) -> Result<(), Fail> {
    lend(
        Core::with_limit(rt.alloc(), 7)?,
        |core| play_row_23(&rt, core),
    )
}

fn play_row_23(rt: &impl Abort, core: &mut Core) -> Result<(), Fail> {
    let m = name(b"m")?;
    begins(rt, core, &m)?;
    writes(rt, core, ask(0, Call::Lock(m.copied())), None, (2, 3))?;
    writes(rt, core, ask(0, Call::Unlock(m.copied())), None, (4, 4))?;
    writes(rt, core, ask(0, Call::Lock(m)), Some(5), (5, 6))?;
    assert_eq!(rt; core.first(), 5);
    assert!(rt; core.entry(4).is_none());
    assert!(rt; core.entry(6) == Some(Entry::Grant(5, Outcome::Done)));
    writes(rt, core, moment(1, 0)?, None, (7, 7))?;
    writes(rt, core, moment(2, 0)?, None, (8, 8))?;
    writes(rt, core, die(0), None, (9, 10))?;
    assert!(rt; core.entry(10) == Some(Entry::Yield(ObjectId(1))));
    assert_eq!(rt; core.seal()?, 11);
    assert_eq!(rt; core.seal()?, 11);
    assert_eq!(rt; core.outer(), 8);
    Ok(())
}

// Row 23, if a Yield must still be written.
#[test]
fn row_23_with_a_yield(rt: HostRuntime) -> Result<(), Fail> {
    lend(
        Core::with_limit(rt.alloc(), 7)?,
        |core| play_row_23_with_a_yield(&rt, core),
    )
}

fn play_row_23_with_a_yield(rt: &impl Abort, core: &mut Core) -> Result<(), Fail> {
    let m = name(b"m")?;
    begins(rt, core, &m)?;
    writes(rt, core, ask(0, Call::Lock(m)), None, (2, 3))?;
    writes(rt, core, moment(1, 0)?, None, (4, 4))?;
    writes(rt, core, moment(2, 0)?, Some(5), (5, 5))?;
    writes(rt, core, die(0), None, (6, 7))?;
    assert!(rt; core.entry(7) == Some(Entry::Yield(ObjectId(1))));
    Ok(())
}

// With six entries at most, the first lock has no room without a seal.
#[test]
fn row_38_of_six(rt: HostRuntime) -> Result<(), Fail> {
    lend(
        Core::with_limit(rt.alloc(), 6)?,
        |core| play_row_38_of_six(&rt, core),
    )
}

fn play_row_38_of_six(rt: &impl Abort, six: &mut Core) -> Result<(), Fail> {
    let m = name(b"m")?;
    begins(rt, six, &m)?;
    writes(rt, six, ask(0, Call::Lock(m)), Some(2), (2, 3))
}

// With four entries at most, the first lock has no room after a seal either.
#[test]
fn row_38_of_four(rt: HostRuntime) -> Result<(), Fail> {
    lend(
        Core::with_limit(rt.alloc(), 4)?,
        |core| play_row_38_of_four(&rt, core),
    )
}

fn play_row_38_of_four(rt: &impl Abort, four: &mut Core) -> Result<(), Fail> {
    let m = name(b"m")?;
    begins(rt, four, &m)?;
    refuses(rt, four, ask(0, Call::Lock(m)), Refusal::Full);
    writes(rt, four, moment(1, 0)?, None, (2, 2))?;
    writes(rt, four, moment(2, 0)?, Some(3), (3, 3))
}

// Histories of one entry each.
#[test]
fn row_35(rt: HostRuntime) -> Result<(), Fail> {
    lend(
        Core::with_limit(rt.alloc(), 1)?,
        |core| play_row_35(&rt, core),
    )
}

fn play_row_35(rt: &impl Abort, one: &mut Core) -> Result<(), Fail> {
    refuses(rt, one, join(10)?, Refusal::Full);
    writes(rt, one, moment(1, 0)?, None, (0, 0))?;
    writes(rt, one, moment(2, 0)?, Some(1), (1, 1))
}

// Histories of no entry: no seal makes room.
#[test]
fn row_35_of_none(rt: HostRuntime) -> Result<(), Fail> {
    lend(
        Core::with_limit(rt.alloc(), 0)?,
        |core| play_row_35_of_none(&rt, core),
    )
}

fn play_row_35_of_none(rt: &impl Abort, none: &mut Core) -> Result<(), Fail> {
    refuses(rt, none, moment(1, 0)?, Refusal::Full);
    Ok(())
}
