ghost use Rattle.std.specs.Prelude.{◌≡◌, ◌≤◌, ◌<◌, ◌+◌, ◌++◌, IsOk, OnOk, OnErr, IfErr, length};
ghost use Rattle.std.specs.Prelude.{vec_len, vec_capacity, ◌∷◌, [], Some, take};
ghost use Rattle.std.specs.Option.{option_copied};
ghost use Rattle.pt_types.specs.Words.{outcome_word, refusal_word};
ghost use Rattle.pt_lines.specs.Replies.{answer_word, reply_line, sender};

use crate::appending::{append_filled, append_number, put_back, taken};
use itoa::Buffer;
use pt_grammar::{ClientName, Who};
use pt_types::{Outcome, Refusal};
use std::alloc::Allocator;

// The least number with more than six digits. Few lines have such a number.
const SHORT_NUMBER_END: u64 = 1_000_000;

// The most bytes that an answer has if its number has few digits.
const MAX_SHORT_REPLY: usize = 32;

// The most bytes that a word and a newline have.
const MAX_WORD_LENGTH: usize = 16;

/// The answer to a line: the outcome of an accepted call, or why the line is not accepted.
#[derive(Clone, Copy)]
pub enum Word {
    Outcome(Outcome),
    Refusal(Refusal),
}

impl Word {
    ghost use Rattle.pt_lines.specs.Replies.{answer_word};

    /// Returns the word that is printed for it, which has at most 15 bytes.  [profile]
    pub fn text(self) -> &'static str
        ensures value { result.now ≡ answer_word self }
        ensures within { length result.now ≤ 15 }
    {
        match self {
            Word::Outcome(outcome) => outcome.word(),
            Word::Refusal(refusal) => refusal.word(),
        }
    }
}

// Returns the number of bytes that precede the line's number.
fn sender_len(who: Option<&Who>) -> usize
    ensures len { result ≡ length (sender (option_copied who.entry)) }
    ensures within { result ≤ 9 }
{
    match who {
        Some(who) => who.as_bytes().len() + 1,
        None => 0,
    }
}

// Appends a few bytes. The buffer has room for them. To append them one by one costs less than a
// call that copies them.
fn append<A: Allocator + Copy>(out: &mut Vec<u8, A>, bytes: &[u8])
    requires { vec_len out.old + length bytes.now ≤ vec_capacity out.old }
    ensures items { out.new.items ≡ out.old.items ++ bytes.now }
    ensures len { vec_len out.new ≡ vec_len out.old + length bytes.now }
    ensures capacity { vec_capacity out.new ≡ vec_capacity out.old }
{
    for byte in bytes {
        out.push_reserved(*byte);
    }
}

// Appends the part of an answer that precedes the line's number. The buffer has room for it.
fn append_sender<A: Allocator + Copy>(out: &mut Vec<u8, A>, who: Option<&Who>)
    requires { vec_len out.old + length (sender (option_copied who)) ≤ vec_capacity out.old }
    ensures items { out.new.items ≡ out.old.items ++ sender (option_copied who.entry) }
    ensures len { vec_len out.new ≡ vec_len out.old + length (sender (option_copied who.entry)) }
    ensures capacity { vec_capacity out.new ≡ vec_capacity out.old }
{
    if let Some(who) = who {
        append(out, who.as_bytes());
        out.push_reserved(b' ');
    }
}

// Appends the part of an answer that precedes the line's number. The buffer also has room for the
// padding of a client.
fn append_who<A: Allocator + Copy>(out: &mut Vec<u8, A>, who: Option<&Who>)
    requires { vec_len out.old + 9 ≤ vec_capacity out.old }
    ensures items { out.new.items ≡ out.old.items ++ sender (option_copied who.entry) }
    ensures within { vec_len out.new ≤ vec_len out.old + 9 }
    ensures capacity { vec_capacity out.new ≡ vec_capacity out.old }
{
    if let Some(who) = who {
        let (block, len) = who.filled();
        append_filled(out, block, len);
        out.push_reserved(b' ');
    }
}

// Returns an outcome's word and a newline, padded to a full block, and the number of their bytes.
fn filled_outcome(outcome: Outcome) -> (&'static [u8; MAX_WORD_LENGTH], usize)
    ensures within { result.1 ≤ 16 }
    ensures value { take result.1 result.0.now ≡ outcome_word outcome ++ 10 ∷ [] }
{
    match outcome {
        Outcome::Done => (b"0\n..............", 2),
        Outcome::Serial => (b"SERIAL\n.........", 7),
        Outcome::Eperm => (b"EPERM\n..........", 6),
        Outcome::Einval => (b"EINVAL\n.........", 7),
        Outcome::Ebusy => (b"EBUSY\n..........", 6),
        Outcome::Eagain => (b"EAGAIN\n.........", 7),
        Outcome::Edeadlk => (b"EDEADLK\n........", 8),
        Outcome::Etimedout => (b"ETIMEDOUT\n......", 10),
        Outcome::Eownerdead => (b"EOWNERDEAD\n.....", 11),
        Outcome::Enotrecoverable => (b"ENOTRECOVERABLE\n", 16),
    }
}

// Does what filled_outcome does, for a refusal.
fn filled_refusal(refusal: Refusal) -> (&'static [u8; MAX_WORD_LENGTH], usize)
    ensures within { result.1 ≤ 16 }
    ensures value { take result.1 result.0.now ≡ refusal_word refusal ++ 10 ∷ [] }
{
    match refusal {
        Refusal::Syntax => (b"SYNTAX\n.........", 7),
        Refusal::Long => (b"LONG\n...........", 5),
        Refusal::Dead => (b"DEAD\n...........", 5),
        Refusal::Nohello => (b"NOHELLO\n........", 8),
        Refusal::Blocked => (b"BLOCKED\n........", 8),
        Refusal::Limit => (b"LIMIT\n..........", 6),
        Refusal::Full => (b"FULL\n...........", 5),
        Refusal::Enomem => (b"ENOMEM\n.........", 7),
    }
}

// Does what filled_outcome does, for any word.
fn filled(word: Word) -> (&'static [u8; MAX_WORD_LENGTH], usize)
    ensures within { result.1 ≤ 16 }
    ensures value { take result.1 result.0.now ≡ answer_word word ++ 10 ∷ [] }
{
    match word {
        Word::Outcome(outcome) => filled_outcome(outcome),
        Word::Refusal(refusal) => filled_refusal(refusal),
    }
}

// Appends a word and a newline. The buffer also has room for their padding.
fn append_word<A: Allocator + Copy>(out: &mut Vec<u8, A>, word: Word)
    requires { vec_len out.old + 16 ≤ vec_capacity out.old }
    ensures { out.new.items ≡ out.old.items ++ (answer_word word ++ 10 ∷ []) }
{
    let (text, len) = filled(word);
    append_filled(out, *text, len);
}

// Makes room for an answer, and appends it. It isn't inlined, since most answers have room already
// and numbers of few digits.
#[inline(never)]
fn write_any<A: Allocator + Copy>(
    out: &mut Vec<u8, A>,
    who: Option<&Who>,
    n: u64,
    word: Word,
) -> Result<(), Refusal>
    ensures ok { OnOk result
        (out.new.items ≡ out.old.items ++ reply_line (option_copied who.entry) n word) }
    ensures unchanged { OnErr result (out.new.items ≡ out.old.items) }
    ensures err { IfErr result (λ refusal. refusal ≡ Refusal.Enomem) }
    ensures succeeds_if { vec_len out.old + length (reply_line (option_copied who.entry) n word)
        ≤ vec_capacity out.old → IsOk result }
{
    let mut digits = Buffer::new();
    let number = digits.format(n).as_bytes();
    let text = word.text().as_bytes();
    let len = sender_len(who) + number.len() + text.len() + 2;
    if out.reserve(len).is_err() {
        return Err(Refusal::Enomem);
    }
    append_sender(out, who);
    append(out, number);
    out.push_reserved(b' ');
    append(out, text);
    out.push_reserved(b'\n');
    Ok(())
}

// Appends the answer `0` to a client's line. The buffer has room for it. Most answers are of this
// kind.
#[inline(always)]
#[tactic(auto, using(crate::proofs::DigitLemmas::short_number_length))]
fn append_done<A: Allocator + Copy>(out: &mut Vec<u8, A>, name: &ClientName, n: u64)
    requires within { n < 1000000 }
    requires room { vec_len out.old + 32 ≤ vec_capacity out.old }
    ensures { out.new.items ≡ out.old.items
        ++ reply_line (Some (Who.Named name.now)) n (Word.Outcome Outcome.Done) }
{
    let mut text = taken(out);
    let (block, len) = name.filled();
    append_filled(&mut text, block, len);
    text.push_reserved(b' ');
    append_number(&mut text, n);
    append_filled(&mut text, *b" 0\n.", 3);
    put_back(out, text);
}

// Appends an answer whose number has few digits. The buffer has room for it.
#[tactic(auto, using(crate::proofs::DigitLemmas::short_number_length))]
fn append_other<A: Allocator + Copy>(out: &mut Vec<u8, A>, who: Option<&Who>, n: u64, word: Word)
    requires within { n < 1000000 }
    requires room { vec_len out.old + 32 ≤ vec_capacity out.old }
    ensures { out.new.items ≡ out.old.items ++ reply_line (option_copied who.entry) n word }
{
    let mut text = taken(out);
    append_who(&mut text, who);
    append_number(&mut text, n);
    text.push_reserved(b' ');
    append_word(&mut text, word);
    put_back(out, text);
}

// Appends an answer. It isn't inlined, since most answers are the `0` of an accepted call.
#[inline(never)]
fn write_other<A: Allocator + Copy>(
    out: &mut Vec<u8, A>,
    who: Option<&Who>,
    n: u64,
    word: Word,
) -> Result<(), Refusal>
    ensures ok { OnOk result
        (out.new.items ≡ out.old.items ++ reply_line (option_copied who.entry) n word) }
    ensures unchanged { OnErr result (out.new.items ≡ out.old.items) }
    ensures err { IfErr result (λ refusal. refusal ≡ Refusal.Enomem) }
    ensures succeeds_if { vec_len out.old + length (reply_line (option_copied who.entry) n word)
        ≤ vec_capacity out.old → IsOk result }
{
    if n >= SHORT_NUMBER_END || out.capacity() - out.len() < MAX_SHORT_REPLY {
        return write_any(out, who, n, word);
    }
    append_other(out, who, n, word);
    Ok(())
}

/// Appends the answer to the client's line of this number. `who` is the client, if the line is in a
/// script. Returns ENOMEM if a growth was refused. Nothing is appended then. A line for which there
/// is room is never refused.  [profile]
#[inline(always)]
pub fn write_reply<A: Allocator + Copy>(
    out: &mut Vec<u8, A>,
    who: Option<&Who>,
    n: u64,
    word: Word,
) -> Result<(), Refusal>
    ensures ok { OnOk result
        (out.new.items ≡ out.old.items ++ reply_line (option_copied who.entry) n word) }
    ensures unchanged { OnErr result (out.new.items ≡ out.old.items) }
    ensures err { IfErr result (λ refusal. refusal ≡ Refusal.Enomem) }
    ensures succeeds_if { vec_len out.old + length (reply_line (option_copied who.entry) n word)
        ≤ vec_capacity out.old → IsOk result }
{
    if let (Some(Who::Named(name)), Word::Outcome(Outcome::Done)) = (who, word)
        && n < SHORT_NUMBER_END
        && out.capacity() - out.len() >= MAX_SHORT_REPLY
    {
        append_done(out, name, n);
        return Ok(());
    }
    write_other(out, who, n, word)
}
