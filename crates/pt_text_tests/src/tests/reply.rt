use super::lend;
use pt_lines::{Who, Word, write_reply};
use pt_types::{Outcome, Refusal};
use std::alloc::Global;
use std::test::Fail;

// The answer lines of each word: to line 1 of nobody, and to the last line of a client.
const ANSWERS: [(Word, &[u8]); 18] = [
    (
        Word::Outcome(Outcome::Done),
        b"1 0\nabcdefgh 18446744073709551615 0\n",
    ),
    (
        Word::Outcome(Outcome::Serial),
        b"1 SERIAL\nabcdefgh 18446744073709551615 SERIAL\n",
    ),
    (
        Word::Outcome(Outcome::Eperm),
        b"1 EPERM\nabcdefgh 18446744073709551615 EPERM\n",
    ),
    (
        Word::Outcome(Outcome::Einval),
        b"1 EINVAL\nabcdefgh 18446744073709551615 EINVAL\n",
    ),
    (
        Word::Outcome(Outcome::Ebusy),
        b"1 EBUSY\nabcdefgh 18446744073709551615 EBUSY\n",
    ),
    (
        Word::Outcome(Outcome::Eagain),
        b"1 EAGAIN\nabcdefgh 18446744073709551615 EAGAIN\n",
    ),
    (
        Word::Outcome(Outcome::Edeadlk),
        b"1 EDEADLK\nabcdefgh 18446744073709551615 EDEADLK\n",
    ),
    (
        Word::Outcome(Outcome::Etimedout),
        b"1 ETIMEDOUT\nabcdefgh 18446744073709551615 ETIMEDOUT\n",
    ),
    (
        Word::Outcome(Outcome::Eownerdead),
        b"1 EOWNERDEAD\nabcdefgh 18446744073709551615 EOWNERDEAD\n",
    ),
    (
        Word::Outcome(Outcome::Enotrecoverable),
        b"1 ENOTRECOVERABLE\nabcdefgh 18446744073709551615 ENOTRECOVERABLE\n",
    ),
    (
        Word::Refusal(Refusal::Syntax),
        b"1 SYNTAX\nabcdefgh 18446744073709551615 SYNTAX\n",
    ),
    (
        Word::Refusal(Refusal::Long),
        b"1 LONG\nabcdefgh 18446744073709551615 LONG\n",
    ),
    (
        Word::Refusal(Refusal::Dead),
        b"1 DEAD\nabcdefgh 18446744073709551615 DEAD\n",
    ),
    (
        Word::Refusal(Refusal::Nohello),
        b"1 NOHELLO\nabcdefgh 18446744073709551615 NOHELLO\n",
    ),
    (
        Word::Refusal(Refusal::Blocked),
        b"1 BLOCKED\nabcdefgh 18446744073709551615 BLOCKED\n",
    ),
    (
        Word::Refusal(Refusal::Limit),
        b"1 LIMIT\nabcdefgh 18446744073709551615 LIMIT\n",
    ),
    (
        Word::Refusal(Refusal::Full),
        b"1 FULL\nabcdefgh 18446744073709551615 FULL\n",
    ),
    (
        Word::Refusal(Refusal::Enomem),
        b"1 ENOMEM\nabcdefgh 18446744073709551615 ENOMEM\n",
    ),
];

// Returns true if a word is written as expected.
fn is_written(out: &mut Vec<u8>, word: Word, expected: &[u8]) -> Result<bool, Fail> {
    write_reply(out, None, 1, word)?;
    write_reply(out, Some(&Who::named(b"abcdefgh")), u64::MAX, word)?;
    let is_expected = out.as_slice() == expected;
    out.clear();
    Ok(is_expected)
}

// Returns true if each word is written as expected.
fn are_written(out: &mut Vec<u8>) -> Result<bool, Fail> {
    for (word, expected) in ANSWERS {
        if !is_written(out, word, expected)? {
            return Ok(false);
        }
    }
    Ok(true)
}

// Returns true if answers to a client, to `*`, to an unknown client and to nobody are lines in a
// row.
fn are_in_a_row(out: &mut Vec<u8>) -> Result<bool, Fail> {
    let a = Who::named(b"A");
    write_reply(out, Some(&a), 12, Word::Outcome(Outcome::Eperm))?;
    write_reply(out, Some(&Who::Star), 1, Word::Refusal(Refusal::Full))?;
    write_reply(out, Some(&Who::Unknown), 2, Word::Refusal(Refusal::Long))?;
    write_reply(out, None, 3, Word::Outcome(Outcome::Done))?;
    Ok(out.as_slice() == b"A 12 EPERM\n* 1 FULL\n? 2 LONG\n3 0\n".as_slice())
}

#[test]
fn answers_of_each_word_and_in_a_row(rt: HostRuntime) -> Result<(), Fail> {
    let is_written = lend(Vec::new(rt.alloc()), |out| -> Result<bool, Fail> {
        Ok(are_written(out)? && are_in_a_row(out)?)
    });
    assert!(rt; is_written?);
    Ok(())
}
