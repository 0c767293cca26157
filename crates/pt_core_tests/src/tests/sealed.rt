use super::*;
use pt_types::Outcome::{Done, Ebusy, Eownerdead, Etimedout};

// Seals a core at the next free place, which stays the same.
pub(super) fn seals(rt: &impl Abort, core: &mut Core) -> Result<(), Fail> {
    let next = core.len();
    assert_eq!(rt; core.seal()?, next);
    assert_eq!(rt; core.len(), next);
    Ok(())
}

// What a dead client held is still held after a seal.
#[test]
fn row_39(rt: HostRuntime) -> Result<(), Fail> {
    lend(Core::new(rt.alloc())?, |core| play_row_39(&rt, core))
}

fn play_row_39(rt: &impl Abort, core: &mut Core) -> Result<(), Fail> {
    join_all(core, &[10, 10])?;
    let m = name(b"m")?;
    let k = name(b"k")?;
    let before = [
        when(
            ask(0, Call::MutexInit(m.copied(), MutexKind::Normal, true)),
            &[(0, Done)],
        ),
        when(
            ask(0, Call::MutexInit(k.copied(), MutexKind::Normal, false)),
            &[(0, Done)],
        ),
        when(ask(0, Call::Lock(m.copied())), &[(0, Done)]),
        when(ask(0, Call::Lock(k.copied())), &[(0, Done)]),
        when(die(0), &[]),
    ];
    plays(rt, core, &before)?;
    seals(rt, core)?;
    let after = [
        when(ask(1, Call::Trylock(k)), &[(1, Ebusy)]),
        when(ask(1, Call::Lock(m)), &[(1, Eownerdead)]),
    ];
    plays(rt, core, &after)
}

// A wait keeps the cause of its move over a seal.
#[test]
fn row_40(rt: HostRuntime) -> Result<(), Fail> {
    lend(Core::new(rt.alloc())?, |core| play_row_40(&rt, core))
}

fn play_row_40(rt: &impl Abort, core: &mut Core) -> Result<(), Fail> {
    join_all(core, &[10, 10, 10, 10])?;
    let m = name(b"m")?;
    let c = name(b"c")?;
    let init = Call::MutexInit(m.copied(), MutexKind::Normal, false);
    let before = [
        when(ask(0, init), &[(0, Done)]),
        when(ask(0, Call::CondInit(c.copied())), &[(0, Done)]),
        when(ask(0, Call::Lock(m.copied())), &[(0, Done)]),
        when(ask(0, Call::Wait(c.copied(), m.copied())), &[]),
        when(ask(1, Call::Lock(m.copied())), &[(1, Done)]),
        when(
            ask(1, Call::Timedwait(c.copied(), m.copied(), deadline(5, 0)?)),
            &[],
        ),
        when(ask(2, Call::Lock(m.copied())), &[(2, Done)]),
        when(moment(5, 0)?, &[]),
        when(ask(3, Call::Lock(m.copied())), &[]),
        when(ask(2, Call::Signal(c)), &[(2, Done)]),
    ];
    plays(rt, core, &before)?;
    seals(rt, core)?;
    let after = [
        when(
            ask(2, Call::Unlock(m.copied())),
            &[(2, Done), (1, Etimedout)],
        ),
        when(ask(1, Call::Unlock(m.copied())), &[(1, Done), (3, Done)]),
        when(ask(3, Call::Unlock(m)), &[(3, Done), (0, Done)]),
    ];
    plays(rt, core, &after)
}
