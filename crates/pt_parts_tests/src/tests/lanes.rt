use pt_lanes::{all_zero, any_from, highest};

// Returns true if the counts give these answers: whether one is above 0 from an index on, and the
// last index at which one is.
fn is_told(counts: &[u32], from: usize, any: bool, greatest: Option<usize>) -> bool {
    any_from(counts, from) == any
        && highest(counts) == greatest
        && all_zero(counts) == greatest.is_none()
}

#[test]
fn counts_by_their_index(rt: HostRuntime) {
    assert!(rt; is_told(&[], 0, false, None) && is_told(&[0, 0], 0, false, None));
    assert!(rt; is_told(&[0, 1, 0], 1, true, Some(1)) && is_told(&[0, 1, 0], 2, false, Some(1)));
    let mut counts = [0; 33];
    counts[32] = u32::MAX;
    assert!(rt; is_told(&counts, 32, true, Some(32)) && is_told(&counts, 33, false, Some(32)));
}
