//! Histories that are sealed: on demand, again and again, and by an event that needs the room.

use super::Word;
use super::play::{Leaving, Row, Step, is_played};
use super::rows::LEFT_24;
use pt_hub::Closed;
use pt_types::{Outcome, Refusal};

// Row 24, sealed before answers are taken. The answer to the first lock is owed from before a seal.
// The second lock is open at a seal.
const ROW_24_SEALED: Row = Row {
    steps: &[
        Step::Calls(0, Word::MutexInit, 2),
        Step::Takes(0, 2, Outcome::Done),
        Step::Calls(0, Word::Lock, 3),
        Step::Seals(5),
        Step::Seals(5),
        Step::Refused(0, Word::Unlock, Refusal::Blocked),
        Step::Takes(0, 3, Outcome::Done),
        Step::TakesNothing(0),
        Step::Waits(1, Word::Lock, 5),
        Step::Seals(6),
        Step::TakesNothing(1),
        Step::Calls(0, Word::Unlock, 6),
        Step::Takes(1, 5, Outcome::Done),
        Step::Seals(8),
        Step::Takes(0, 6, Outcome::Done),
    ],
    leaving: LEFT_24,
    found_without_last: 5,
    closed: Closed {
        outer: 8,
        entries: 10,
    },
};

#[test]
fn row_24_sealed(rt: HostRuntime) {
    assert!(rt; is_played(rt.alloc(), &ROW_24_SEALED));
}

// A history of at most 65,536 entries, which goes on past this number. Five entries stay
// reserved: two for the Deaths, and three for the open lock. So the moment at place 65,531 is
// the first one for which no room is left, and the history is sealed for it. The Grant at place 4
// is in the history before this moment, and gone after it.
const RUNS_ON: Row = Row {
    steps: &[
        Step::Calls(0, Word::MutexInit, 2),
        Step::Takes(0, 2, Outcome::Done),
        Step::Calls(0, Word::Lock, 3),
        Step::Takes(0, 3, Outcome::Done),
        Step::Waits(1, Word::Lock, 5),
        Step::Moments(65_525),
        Step::Answers(4, Some(0)),
        Step::Moments(1),
        Step::Answers(4, None),
        Step::Calls(0, Word::Unlock, 65_532),
        Step::Takes(1, 5, Outcome::Done),
        Step::Takes(0, 65_532, Outcome::Done),
    ],
    leaving: &[
        Leaving {
            receipts: &[
                (2, Word::MutexInit, Outcome::Done),
                (3, Word::Lock, Outcome::Done),
                (65_532, Word::Unlock, Outcome::Done),
            ],
            died_at: 65_534,
        },
        Leaving {
            receipts: &[(5, Word::Lock, Outcome::Done)],
            died_at: 65_535,
        },
    ],
    found_without_last: 65_531,
    closed: Closed {
        outer: 65_534,
        entries: 65_536,
    },
};

#[test]
fn a_full_history_runs_on(rt: HostRuntime) {
    assert!(rt; is_played(rt.alloc(), &RUNS_ON));
}
