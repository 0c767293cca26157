ghost use Rattle.std.specs.Prelude.{◌≤◌};

use pt_mutex::MutexObj;
use pt_types::{ClientId, Consistency, Deadline, MAX_LOCKS, MutexKind, Outcome, Verdict};

const A: ClientId = ClientId(0);

const B: ClientId = ClientId(1);

// Returns a deadline of nine seconds and these nanoseconds.
fn deadline(nsec: u64) -> Deadline
    requires { nsec ≤ 9999999999 }
{
    Deadline::new(9, nsec).unwrap()
}

// Returns the verdicts of `lock`, `trylock`, `timedlock`, and `timedlock` with 1,000,000,000
// nanoseconds.
fn lock_verdicts(mutex: &MutexObj, caller: ClientId) -> [Verdict; 4] {
    [
        mutex.verdict_lock(caller),
        mutex.verdict_try(caller),
        mutex.verdict_timed(caller, deadline(999_999_999)),
        mutex.verdict_timed(caller, deadline(1_000_000_000)),
    ]
}

// Returns the verdicts of `unlock` and `consistent`.
fn right_verdicts(mutex: &MutexObj, caller: ClientId) -> [Verdict; 2] {
    [
        mutex.verdict_unlock(caller),
        mutex.verdict_consistent(caller),
    ]
}

// Gives the client the lock, if it can have it once more.
fn lock(mutex: &mut MutexObj, client: ClientId) {
    let relocks = mutex.kind() == MutexKind::Recursive && mutex.count() < MAX_LOCKS;
    if mutex.owner().is_none() || mutex.is_owned_by(client) && relocks {
        mutex.acquire(client);
    }
}

// Takes one lock from the client, if it has one.
fn unlock(mutex: &mut MutexObj, client: ClientId) {
    if mutex.is_owned_by(client) {
        mutex.release(client);
    }
}

/// What happened to a robust mutex so far.
#[derive(Clone, Copy)]
enum Origin {
    /// A has locked it this often, or as often as it can.
    Locked(u8),
    /// A died while it owned the mutex.
    Orphaned,
    /// A died while it owned the mutex, and B owns it.
    Inherited,
    /// A died while it owned the mutex, and B owned it and gave it back.
    Unrecoverable,
}

// Returns a robust mutex of this kind with this past.
fn mutex_after(kind: MutexKind, origin: Origin) -> MutexObj {
    let mut mutex = MutexObj::new(kind, true);
    let locks = if let Origin::Locked(locks) = origin {
        locks
    } else {
        1
    };
    for _ in 0..locks {
        lock(&mut mutex, A);
    }
    if !matches!(origin, Origin::Locked(_)) {
        mutex.yield_dead();
    }
    if matches!(origin, Origin::Inherited | Origin::Unrecoverable) {
        lock(&mut mutex, B);
    }
    if matches!(origin, Origin::Unrecoverable) {
        unlock(&mut mutex, B);
    }
    mutex
}

// Returns true if a mutex gives the client these verdicts.
fn is_told(
    mutex: &MutexObj,
    caller: ClientId,
    locks: [Verdict; 4],
    by_right: [Verdict; 2],
) -> bool {
    lock_verdicts(mutex, caller) == locks && right_verdicts(mutex, caller) == by_right
}

// Returns true if the verdicts that are the same for every kind hold for a mutex of this kind.
fn is_as_every_mutex(kind: MutexKind) -> bool {
    let [busy, einval, eperm] = [Outcome::Ebusy, Outcome::Einval, Outcome::Eperm].map(
        Verdict::Reply,
    );
    let stands = [Verdict::Stands; 4];
    let owned = [Verdict::Stands, busy, Verdict::Stands, einval];
    for (origin, caller, locks, by_right) in [
        (Origin::Locked(1), B, owned, [eperm, einval]),
        (Origin::Orphaned, B, stands, [eperm, eperm]),
        (Origin::Inherited, A, owned, [eperm, eperm]),
        (Origin::Unrecoverable, A, stands, [eperm, einval]),
        (Origin::Unrecoverable, B, stands, [eperm, einval]),
    ] {
        if !is_told(&mutex_after(kind, origin), caller, locks, by_right) {
            return false;
        }
    }
    is_told(&MutexObj::new(kind, false), A, stands, [eperm, einval])
}

#[test]
fn verdicts_of_every_kind(rt: HostRuntime) {
    assert!(rt; is_as_every_mutex(MutexKind::Normal));
    assert!(rt; is_as_every_mutex(MutexKind::Errorcheck));
    assert!(rt; is_as_every_mutex(MutexKind::Recursive));
}

// Returns true if owners are answered as the table says.
fn are_owners_told() -> bool {
    let [done, busy] = [Outcome::Done, Outcome::Ebusy].map(Verdict::Reply);
    let [eagain, deadlock, einval] = [Outcome::Eagain, Outcome::Edeadlk, Outcome::Einval].map(
        Verdict::Reply,
    );
    let checked = [deadlock, busy, deadlock, deadlock];
    let normal = [Verdict::Stands, busy, Verdict::Stands, einval];
    for (kind, origin, caller, locks, consistent) in [
        (
            MutexKind::Recursive,
            Origin::Locked(1),
            A,
            [done; 4],
            einval,
        ),
        (
            MutexKind::Recursive,
            Origin::Locked(254),
            A,
            [done; 4],
            einval,
        ),
        (
            MutexKind::Recursive,
            Origin::Locked(255),
            A,
            [eagain; 4],
            einval,
        ),
        (MutexKind::Recursive, Origin::Inherited, B, [done; 4], done),
        (MutexKind::Errorcheck, Origin::Locked(1), A, checked, einval),
        (MutexKind::Normal, Origin::Locked(1), A, normal, einval),
    ] {
        if !is_told(
            &mutex_after(kind, origin),
            caller,
            locks,
            [done, consistent],
        ) {
            return false;
        }
    }
    true
}

#[test]
fn verdicts_of_an_owner(rt: HostRuntime) {
    assert!(rt; are_owners_told());
}

// Returns true if A has `count` locks after `locks` calls.
fn is_counted(kind: MutexKind, locks: u8, count: u8) -> bool {
    let mutex = mutex_after(kind, Origin::Locked(locks));
    mutex.is_owned_by(A) && mutex.owner() == Some(A) && mutex.count() == count
}

#[test]
fn counts_up_to_255(rt: HostRuntime) {
    assert!(rt;
        is_counted(MutexKind::Recursive, 254, 254)
            && is_counted(MutexKind::Recursive, 255, 255)
            && is_counted(MutexKind::Normal, 2, 1)
    );
}

// Returns true if the consistency after this past is `before`, and is `after` once it is marked.
fn is_marked(origin: Origin, before: Consistency, after: Consistency) -> bool {
    let mut mutex = mutex_after(MutexKind::Recursive, origin);
    let first = mutex.consistency();
    mutex.mark_consistent();
    first == before && mutex.consistency() == after
}

#[test]
fn the_consistency_by_its_events(rt: HostRuntime) {
    let [good, bad, not_recoverable] = [
        Consistency::Consistent,
        Consistency::Inconsistent,
        Consistency::NotRecoverable,
    ];
    assert!(rt;
        is_marked(Origin::Locked(1), good, good)
            && is_marked(Origin::Orphaned, bad, good)
            && is_marked(Origin::Inherited, bad, good)
            && is_marked(Origin::Unrecoverable, not_recoverable, not_recoverable)
    );
}

// Returns the consistency, the owner and the count.
fn seen(mutex: &MutexObj) -> (Consistency, Option<ClientId>, u8) {
    (mutex.consistency(), mutex.owner(), mutex.count())
}

// Returns true if a robust mutex is in order again after two deaths and a repair.
fn is_repaired() -> bool {
    let mut mutex = mutex_after(MutexKind::Recursive, Origin::Inherited);
    mutex.yield_dead();
    let orphaned = seen(&mutex);
    lock(&mut mutex, A);
    lock(&mut mutex, A);
    unlock(&mut mutex, A);
    let owned = seen(&mutex);
    mutex.mark_consistent();
    unlock(&mut mutex, A);
    orphaned == (Consistency::Inconsistent, None, 0)
        && owned == (Consistency::Inconsistent, Some(A), 1)
        && seen(&mutex) == (Consistency::Consistent, None, 0)
        && mutex.is_robust()
        && mutex.kind() == MutexKind::Recursive
}

#[test]
fn a_second_death_and_a_repair(rt: HostRuntime) {
    assert!(rt; is_repaired());
}

// Returns the verdicts of `mutex-destroy`: if the owner lives, if also a call waits, and if the
// owner is dead.
fn destroy_verdicts(mutex: &MutexObj) -> [Verdict; 3] {
    [
        mutex.verdict_destroy(true, false),
        mutex.verdict_destroy(true, true),
        mutex.verdict_destroy(false, false),
    ]
}

// Returns true if `mutex-destroy` is answered as it must be: for a free mutex, for an owned one,
// and for one that a wait names.
fn is_busy_in_time() -> bool {
    let [done, ebusy] = [Outcome::Done, Outcome::Ebusy].map(Verdict::Reply);
    let mut mutex = MutexObj::new(MutexKind::Normal, true);
    let free = destroy_verdicts(&mutex);
    mutex.acquire(A);
    let owned = destroy_verdicts(&mutex);
    mutex.bind();
    mutex.release(A);
    let named = destroy_verdicts(&mutex);
    let waits = mutex.bound_waits();
    mutex.unbind();
    free == [done, ebusy, done]
        && owned == [ebusy, ebusy, done]
        && named == [ebusy; 3]
        && (waits, mutex.bound_waits()) == (1, 0)
}

#[test]
fn destroyed_if_nobody_needs_it(rt: HostRuntime) {
    assert!(rt; is_busy_in_time());
}
