//! The verbs, grouped by the length of their word.

ghost use Rattle.std.specs.Prelude.{◌≡◌, ◌==◌, find, length};
ghost use Rattle.std.specs.List.{filter};
ghost use Rattle.std.specs.Str.{bytes_eq};
ghost use Rattle.pt_grammar.specs.declared.verb.TheConstants.{VERBS};
ghost use Rattle.pt_grammar.specs.Verbs.{verb_of, word_of};

use crate::verb::{ClockedVerb, TimedVerb, Verb};
use pt_types::{Clock, NamedVerb};

const OF_4: [Verb; 2] = [Verb::Wait, Verb::Named(NamedVerb::Lock)];

const OF_5: [Verb; 2] = [Verb::Hello, Verb::Named(NamedVerb::Bwait)];

const OF_6: [Verb; 5] = [
    Verb::Moment(Clock::Real),
    Verb::Named(NamedVerb::Unlock),
    Verb::Named(NamedVerb::Rdlock),
    Verb::Named(NamedVerb::Wrlock),
    Verb::Named(NamedVerb::Signal),
];

const OF_7: [Verb; 1] = [Verb::Named(NamedVerb::Trylock)];

const OF_8: [Verb; 1] = [Verb::Named(NamedVerb::Rwunlock)];

const OF_9: [Verb; 8] = [
    Verb::Timedwait,
    Verb::Clockwait,
    Verb::Named(NamedVerb::Tryrdlock),
    Verb::Named(NamedVerb::Trywrlock),
    Verb::Named(NamedVerb::CondInit),
    Verb::Named(NamedVerb::Broadcast),
    Verb::Timed(TimedVerb::Timedlock),
    Verb::Clocked(ClockedVerb::Clocklock),
];

const OF_10: [Verb; 2] = [Verb::MutexInit, Verb::Named(NamedVerb::Consistent)];

const OF_11: [Verb; 6] = [
    Verb::Moment(Clock::Mono),
    Verb::Named(NamedVerb::RwlockInit),
    Verb::Timed(TimedVerb::Timedrdlock),
    Verb::Timed(TimedVerb::Timedwrlock),
    Verb::Clocked(ClockedVerb::Clockrdlock),
    Verb::Clocked(ClockedVerb::Clockwrlock),
];

const OF_12: [Verb; 2] = [Verb::BarrierInit, Verb::Named(NamedVerb::CondDestroy)];

const OF_13: [Verb; 1] = [Verb::Named(NamedVerb::MutexDestroy)];

const OF_14: [Verb; 1] = [Verb::Named(NamedVerb::RwlockDestroy)];

const OF_15: [Verb; 1] = [Verb::Named(NamedVerb::BarrierDestroy)];

// Returns the verbs whose words have this length, in the order of the table.
fn verbs_of_length(len: usize) -> &'static [Verb]
    ensures { result.now ≡ filter (λ verb. len == length (word_of verb)) VERBS }
{
    match len {
        4 => &OF_4,
        5 => &OF_5,
        6 => &OF_6,
        7 => &OF_7,
        8 => &OF_8,
        9 => &OF_9,
        10 => &OF_10,
        11 => &OF_11,
        12 => &OF_12,
        13 => &OF_13,
        14 => &OF_14,
        15 => &OF_15,
        _ => &[],
    }
}

/// Returns whether the bytes of two texts are the same. Most words already differ in the first
/// byte.
pub fn is_same(word: &[u8], text: &[u8]) -> bool
    ensures { result ≡ bytes_eq word.now text.now }
{
    if word.len() != text.len() {
        return false;
    }
    for place in 0..text.len() {
        if word[place] != text[place] {
            return false;
        }
    }
    true
}

// Returns the first of these verbs that has this word.
fn find_in(verbs: &[Verb], text: &[u8]) -> Option<Verb>
    ensures { result ≡ find (λ verb. bytes_eq (word_of verb) text.now) verbs.now }
{
    verbs
        .iter()
        .copied()
        .find(|verb| is_same(verb.word(), text))
}

/// Returns the verb with this word, if there is one.
pub fn find_verb(text: &[u8]) -> Option<Verb>
    ensures { result ≡ verb_of text.now }
{
    find_in(verbs_of_length(text.len()), text)
}
