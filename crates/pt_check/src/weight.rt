use pt_traces::Answer;

/// How much the answers that were seen differ from those that are due.
#[derive(Clone, Copy)]
pub enum Weight {
    /// They agree.
    Same,
    /// They differ, but leave the same state.
    Still,
    /// They may leave another state.
    Changes,
}

impl Weight {
    /// Returns the heavier of two.
    pub fn or(self, other: Weight) -> Weight {
        match (self, other) {
            (Weight::Changes, _) | (_, Weight::Changes) => Weight::Changes,
            (Weight::Still, _) | (_, Weight::Still) => Weight::Still,
            (Weight::Same, Weight::Same) => Weight::Same,
        }
    }
}

// The words of calls and lines that change nothing.
const STILL: [&[u8]; 13] = [
    b"EPERM", b"EINVAL", b"EBUSY", b"EAGAIN", b"EDEADLK", b"SYNTAX", b"LONG", b"DEAD", b"NOHELLO",
    b"BLOCKED", b"LIMIT", b"FULL", b"ENOMEM",
];

// Returns whether a call or line with this answer changes nothing.
fn changes_nothing(word: &[u8]) -> bool {
    for still in &STILL {
        if *still == word {
            return true;
        }
    }
    false
}

/// Weighs an answer that was seen against the one that is due to the same line.
pub fn weigh(due: &Answer<'_>, seen: &Answer<'_>) -> Weight {
    if due.agrees_with(seen) {
        Weight::Same
    } else if changes_nothing(due.word()) && changes_nothing(seen.word()) {
        Weight::Still
    } else {
        Weight::Changes
    }
}
