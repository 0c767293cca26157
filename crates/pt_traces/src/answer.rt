ghost use Rattle.std.specs.Prelude.{◌≡◌};
ghost use Rattle.std.specs.List.{list_all};
ghost use Rattle.pt_grammar.specs.Clients.{before_space};
ghost use Rattle.pt_traces.specs.Answers.{answer_of, agrees_with, are_to_one_line, is_answer};
ghost use Rattle.pt_traces.specs.Answers.{is_digit, is_number};
ghost use Rattle.pt_traces.specs.Answers.{is_word, text_after_space, is_no_space};

use memchr::memchr;
use std::marker::Model;

/// An answer: the client, the number of its line, and the word, as they are written.
#[derive(Drop)]
pub struct Answer<'a> {
    client: &'a [u8],
    number: &'a [u8],
    word: &'a [u8],
}

impl<'a> Model for Answer<'a> {
    ghost use Rattle.pt_traces.specs.Answers.{AnswerText};

    ghost Value = { AnswerText };

    ghost view = { λ a. record {
      client = a.client.now;
      number = a.number.now;
      word = a.word.now;
    } };
}

// Returns the bytes before the first space, and those after it.
fn split_at_space(text: &[u8]) -> (&[u8], &[u8])
    ensures before { result.0.now ≡ before_space text.now }
    ensures rest { result.1.now ≡ text_after_space text.now }
{
    match memchr(b' ', text) {
        Some(end) => (&text[..end], &text[end + 1..]),
        None => (text, &text[text.len()..]),
    }
}

fn is_digit(byte: u8) -> bool
    ensures { result ≡ is_digit byte }
{
    byte.is_ascii_digit()
}

fn is_no_space(byte: u8) -> bool
    ensures { result ≡ is_no_space byte }
{
    byte != b' '
}

fn have_no_space(bytes: &[u8]) -> bool
    ensures { result ≡ list_all is_no_space bytes.now }
{
    for byte in bytes {
        if !is_no_space(*byte) {
            return false;
        }
    }
    true
}

fn are_digits(bytes: &[u8]) -> bool
    ensures { result ≡ list_all is_digit bytes.now }
{
    for byte in bytes {
        if !is_digit(*byte) {
            return false;
        }
    }
    true
}

fn is_word(bytes: &[u8]) -> bool
    ensures { result ≡ is_word bytes.now }
{
    have_no_space(bytes) && !bytes.is_empty()
}

fn is_number(bytes: &[u8]) -> bool
    ensures { result ≡ is_number bytes.now }
{
    are_digits(bytes) && !bytes.is_empty()
}

impl<'a> Answer<'a> {
    /// Returns the parts of an answer's text.
    pub fn of(text: &'a [u8]) -> Answer<'a>
        ensures { result ≡ answer_of text.now }
    {
        let (client, rest) = split_at_space(text);
        let (number, word) = split_at_space(rest);
        Answer {
            client,
            number,
            word,
        }
    }

    /// Returns whether this is an answer: three words, and the second is a number.
    pub fn is_whole(&self) -> bool
        ensures { result ≡ is_answer self.now }
    {
        is_word(self.client) && is_number(self.number) && is_word(self.word)
    }

    /// Returns whether another answer is to the same line as this one.
    pub fn is_to_line_of(&self, other: &Answer<'_>) -> bool
        ensures { result ≡ are_to_one_line self.now other.now }
    {
        other.client == self.client && other.number == self.number
    }

    /// Returns whether an answer that was seen agrees with this one, which is due: it is to the
    /// same line, and has the same word or `?`.
    pub fn agrees_with(&self, seen: &Answer<'_>) -> bool
        ensures { result ≡ agrees_with self.now seen.now }
    {
        self.is_to_line_of(seen) && (seen.word == self.word || seen.word == b"?".as_slice())
    }

    /// Returns the word.
    pub fn word(&self) -> &'a [u8]
        ensures { result.now ≡ self.now.word }
    {
        self.word
    }

    /// Returns the number of the line.
    pub fn number(&self) -> &'a [u8]
        ensures { result.now ≡ self.now.number }
    {
        self.number
    }

    /// Returns the client.
    pub fn client(&self) -> &'a [u8]
        ensures { result.now ≡ self.now.client }
    {
        self.client
    }
}
