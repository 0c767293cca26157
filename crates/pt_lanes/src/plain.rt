//! Loops over one count at a time, for what is not a whole block of counts.

ghost use Rattle.std.specs.Prelude.{◌≡◌};
ghost use Rattle.std.specs.List.{list_any};
ghost use Rattle.pt_lanes.specs.Counts.{is_set, IsHighest};

/// Returns whether some count is not zero.
pub(crate) fn has_any(counts: &[u32]) -> bool
    ensures { result ≡ list_any is_set counts.now }
{
    counts.iter().any(|count| *count != 0)
}

/// Returns the greatest index whose count is not zero, or None if all are zero.
pub(crate) fn highest(counts: &[u32]) -> Option<usize>
    ensures { IsHighest counts.now result }
{
    for i in (0..counts.len()).rev() {
        if counts[i] != 0 {
            return Some(i);
        }
    }
    None
}
