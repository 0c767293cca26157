use pt_barrier::{BarrierObj, verdict_init};
use pt_types::{Outcome, Verdict};

// Returns true if counts are answered as the table says.
fn are_counts_told() -> bool {
    for (count, outcome) in [
        (0, Outcome::Einval),
        (1, Outcome::Done),
        (1_024, Outcome::Done),
        (1_025, Outcome::Einval),
        (9_999_999_999, Outcome::Einval),
    ] {
        if verdict_init(count) != Verdict::Reply(outcome) {
            return false;
        }
    }
    BarrierObj::new(1_024).count() == 1_024
}

#[test]
fn counts_from_1_to_1024(rt: HostRuntime) {
    assert!(rt; are_counts_told());
}

// Returns true if barriers are full with exactly as many calls as their counts.
fn are_full_in_time() -> bool {
    let barrier = BarrierObj::new(3);
    for (waiting, full) in [(0, false), (2, false), (3, true), (4, false)] {
        if barrier.full(waiting) != full {
            return false;
        }
    }
    BarrierObj::new(1).full(1)
}

#[test]
fn full_with_its_count_alone(rt: HostRuntime) {
    assert!(rt; are_full_in_time());
}
