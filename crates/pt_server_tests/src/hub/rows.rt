//! Worked rows, from the first join to the close.

use super::Word;
use super::play::{Leaving, Row, Step, is_played};
use pt_hub::Closed;
use pt_types::{Outcome, Refusal};

// What the two clients of row 24 leave, whether or not its history is sealed on the way.
pub(super) const LEFT_24: &[Leaving] = &[
    Leaving {
        receipts: &[
            (2, Word::MutexInit, Outcome::Done),
            (3, Word::Lock, Outcome::Done),
            (6, Word::Unlock, Outcome::Done),
        ],
        died_at: 8,
    },
    Leaving {
        receipts: &[(5, Word::Lock, Outcome::Done)],
        died_at: 9,
    },
];

// Calls that are answered or refused, and answers that are taken.
const ROW_24: Row = Row {
    steps: &[
        Step::Calls(0, Word::MutexInit, 2),
        Step::Takes(0, 2, Outcome::Done),
        Step::Calls(0, Word::Lock, 3),
        Step::Refused(0, Word::Unlock, Refusal::Blocked),
        Step::Takes(0, 3, Outcome::Done),
        Step::TakesNothing(0),
        Step::Waits(1, Word::Lock, 5),
        Step::TakesNothing(1),
        Step::Calls(0, Word::Unlock, 6),
        Step::Takes(1, 5, Outcome::Done),
        Step::Takes(0, 6, Outcome::Done),
    ],
    leaving: LEFT_24,
    found_without_last: 5,
    closed: Closed {
        outer: 8,
        entries: 10,
    },
};

#[test]
fn row_24(rt: HostRuntime) {
    assert!(rt; is_played(rt.alloc(), &ROW_24));
}

// A writer's deadline passes and lets a reader in.
const ROW_12: Row = Row {
    steps: &[
        Step::Calls(0, Word::RwlockInit, 3),
        Step::Takes(0, 3, Outcome::Done),
        Step::Calls(0, Word::Rdlock, 4),
        Step::Takes(0, 4, Outcome::Done),
        Step::Waits(1, Word::Timedwrlock, 6),
        Step::Waits(2, Word::Timedrdlock, 7),
        Step::LeastDeadline(5),
        Step::Moment(4, 999999999),
        Step::TakesNothing(1),
        Step::TakesNothing(2),
        Step::Moment(5, 0),
        Step::Takes(1, 6, Outcome::Etimedout),
        Step::Takes(2, 7, Outcome::Done),
    ],
    leaving: &[
        Leaving {
            receipts: &[
                (3, Word::RwlockInit, Outcome::Done),
                (4, Word::Rdlock, Outcome::Done),
            ],
            died_at: 12,
        },
        Leaving {
            receipts: &[(6, Word::Timedwrlock, Outcome::Etimedout)],
            died_at: 13,
        },
        Leaving {
            receipts: &[(7, Word::Timedrdlock, Outcome::Done)],
            died_at: 14,
        },
    ],
    found_without_last: 9,
    closed: Closed {
        outer: 12,
        entries: 15,
    },
};

#[test]
fn hub_row_12(rt: HostRuntime) {
    assert!(rt; is_played(rt.alloc(), &ROW_12));
}
