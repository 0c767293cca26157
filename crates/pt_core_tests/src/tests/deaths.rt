use super::*;
use std::alloc::Global;

const MUTEXES: u64 = 4096;

// Returns the name `m` with a number after it.
fn numbered(alloc: Global, number: u64) -> Result<Name, Fail> {
    let text = format!(in alloc; "m{number}")?;
    name(text.as_bytes())
}

// Lets the first client make the mutexes in rising order.
fn make_all(alloc: Global, core: &mut Core) -> Result<(), Fail> {
    for number in 0..MUTEXES {
        let m = numbered(alloc, number)?;
        core.apply(ask(0, Call::MutexInit(m, MutexKind::Normal, true)))?;
    }
    Ok(())
}

// Lets the first client lock the mutexes in falling order.
fn lock_all(alloc: Global, core: &mut Core) -> Result<(), Fail> {
    for number in 0..MUTEXES {
        let m = numbered(alloc, MUTEXES - 1 - number)?;
        core.apply(ask(0, Call::Lock(m)))?;
    }
    Ok(())
}

// Returns true if each object from `first` up to `end` is taken from its owner, at the place that
// is `ahead` after its number.
fn are_taken(core: &Core, first: u64, end: u64, ahead: u64) -> bool {
    for number in first..end {
        let entry = core.entry(number.wrapping_add(ahead));
        if entry != Some(Entry::Yield(ObjectId(number))) {
            return false;
        }
    }
    true
}

// Returns true if the mutexes are taken from the dead client in rising order, and the call that
// waits for the eighth is granted before the next one is taken.
fn are_taken_in_order(core: &Core) -> bool {
    let granted = Entry::Grant(12_290, Outcome::Eownerdead);
    core.entry(12_291) == Some(Entry::Death(ClientId(0)))
        && core.entry(12_300) == Some(granted)
        && core.len() == 16_389
        && are_taken(core, 2, 10, 12_290)
        && are_taken(core, 10, 4098, 12_291)
}

#[test]
fn a_client_of_4096_mutexes_dies(rt: HostRuntime) -> Result<(), Fail> {
    lend(
        Core::new(rt.alloc())?,
        |core| play_a_death(&rt, rt.alloc(), core),
    )
}

fn play_a_death(rt: &impl Abort, alloc: Global, core: &mut Core) -> Result<(), Fail> {
    let m7 = name(b"m7")?;
    join_all(core, &[10, 10])?;
    make_all(alloc, core)?;
    lock_all(alloc, core)?;
    tells(rt, core, ask(1, Call::Lock(m7)), &[])?;
    tells(rt, core, die(0), &[(1, Outcome::Eownerdead)])?;
    assert!(rt; are_taken_in_order(core));
    Ok(())
}
