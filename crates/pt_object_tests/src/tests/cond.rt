ghost use Rattle.std.specs.Prelude.{◌≡◌, Some};

use pt_cond::CondObj;
use pt_plain_list::PlainList;
use pt_types::{ClientId, Deadline, ObjectId, Outcome, Priority, Verdict};
use pt_waitq::{WaitList, Waiter};
use std::test::Fail;

const M: ObjectId = ObjectId(3);

const N: ObjectId = ObjectId(4);

// Returns a condition at which calls wait with this mutex.
fn bound_to(mutex: ObjectId) -> CondObj
    ensures { result ≡ record { bound = Some mutex } }
{
    let mut cond = CondObj::new();
    cond.bind(mutex);
    cond
}

// Returns true if waits are answered as the table says, at a condition bound to `M`, and as they
// must be at one bound to nothing.
fn are_waits_told() -> bool {
    let good = Deadline::new(9, 999_999_999);
    let bad = Deadline::new(9, 1_000_000_000);
    if good.is_none() || bad.is_none() {
        return false;
    }
    let [einval, eperm] = [Outcome::Einval, Outcome::Eperm].map(Verdict::Reply);
    for (mutex, owns, deadline, verdict) in [
        (M, true, bad, einval),
        (N, false, bad, einval),
        (N, true, None, einval),
        (N, false, good, einval),
        (M, false, None, eperm),
        (M, false, good, eperm),
        (M, true, None, Verdict::Stands),
        (M, true, good, Verdict::Stands),
    ] {
        if bound_to(M).verdict_wait(mutex, owns, deadline) != verdict {
            return false;
        }
    }
    let free = CondObj::new();
    free.verdict_wait(N, true, None) == Verdict::Stands
        && free.verdict_wait(N, false, None) == eperm
        && free.verdict_wait(N, false, bad) == einval
}

#[test]
fn a_wait_line_by_line(rt: HostRuntime) {
    assert!(rt; are_waits_told());
}

#[test]
fn bound_while_calls_stand(rt: HostRuntime) {
    let mut cond = bound_to(M);
    let first = cond.bound();
    cond.bind(M);
    cond.unbind();
    let none = cond.bound();
    cond.bind(N);
    assert!(rt; first == Some(M) && none.is_none() && cond.bound() == Some(N));
}

#[test]
fn the_least_is_the_first_of_its_queue(rt: HostRuntime) -> Result<(), Fail> {
    let prio = Priority::new(10).ok_or("priority")?;
    let cond = bound_to(M);
    let mut list = PlainList::new(rt.alloc());
    assert!(rt; list.make(N).is_ok());
    assert!(rt; list.admit(ClientId(7)).is_ok());
    assert!(rt; cond.least(&list, N).is_none());
    let waiter = Waiter {
        client: ClientId(7),
        place: 9,
        prio,
        writer: false,
        moved: 9,
    };
    list.insert(N, waiter);
    let least = cond.least(&list, N);
    assert!(rt; least.is_some_and(|waiter| waiter.place == 9) && cond.least(&list, M).is_none());
    Ok(())
}
