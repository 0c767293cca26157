//! Frequent calls, and moments, recognised by the bytes that a line begins with.

ghost use Rattle.std.specs.Prelude.{◌≡◌, ◌≤◌, ◌++◌, [], ◌∷◌, IfSome, List, Option, Ok, Err, ℕ};
ghost use Rattle.std.specs.Prelude.{length, take};
ghost use Rattle.std.specs.Bool.{OnTrue};
ghost use Rattle.std.specs.Option.{option_map};
ghost use Rattle.pt_types.specs.declared.call.Call.{Call};
ghost use Rattle.pt_types.specs.declared.outcome.Refusal.TheVariants as refusal;
ghost use Rattle.pt_types.specs.declared.call.Call.TheVariants as call;
ghost use Rattle.pt_types.specs.Names.{IsName};
ghost use Rattle.pt_types.specs.declared.time.Clock.TheVariants as clock;
ghost use Rattle.pt_types.specs.NamedVerbs.{call_on};
ghost use Rattle.pt_grammar.specs.declared.call_line.CallLine.TheVariants as line;
ghost use Rattle.pt_grammar.specs.declared.client.Who.TheVariants as who;
ghost use Rattle.pt_grammar.specs.declared.script_line.ScriptBody.TheVariants as body;
ghost use Rattle.pt_grammar.specs.Reading.{line_of, IsCallOfVerb};
ghost use Rattle.pt_grammar.specs.Script.{call_or_syntax, body_read};
ghost use Rattle.pt_grammar.specs.Verbs.{call_until, named_word, timed_word, word_of};

use crate::arguments::{kind_and_robust, only_deadline, only_moment, only_number};
use crate::call_line::read_call_word;
use crate::verb::{TimedVerb, Verb};
use pt_fields::Fields;
use pt_types::{Call, Deadline, Moment, MutexKind, NamedVerb};

// Returns whether two blocks are the same. They are compared as numbers.
#[inline(always)]
fn are_same(one: &[u8; 4], other: &[u8; 4]) -> bool
    ensures { OnTrue result (one.now ≡ other.now) }
{
    u32::from_le_bytes(*one) == u32::from_le_bytes(*other)
}

// Returns whether two texts begin with the same four bytes.
#[inline(always)]
fn begin_alike(one: &[u8], other: &[u8]) -> bool
    ensures { OnTrue result (take 4 one.now ≡ take 4 other.now) }
{
    match (one.first_chunk::<4>(), other.first_chunk::<4>()) {
        (Some(one), Some(other)) => are_same(one, other),
        _ => false,
    }
}

// Returns what follows `start` in a text, if the text begins with `start`, which has at least four
// bytes.
#[inline(always)]
fn after<'a>(text: &'a [u8], start: &[u8]) -> Option<&'a [u8]>
    requires { 4 ≤ length start.now }
    ensures { IfSome result (λ rest. text.now ≡ start.now ++ rest.now) }
{
    if text.len() < start.len() || !begin_alike(text, start) {
        return None;
    }
    for place in 4..start.len() {
        if text[place] != start[place] {
            return None;
        }
    }
    Some(&text[start.len()..])
}

// Returns this word and what follows it and a space, if a text begins with these.
#[inline(always)]
fn parse_verb<'a>(text: &'a [u8], verb: NamedVerb, start: &[u8]) -> Option<(NamedVerb, &'a [u8])>
    requires is { start.now ≡ named_word verb ++ 32 ∷ [] }
    requires long { 4 ≤ length start.now }
    ensures { IfSome result (λ parsed. text.now ≡ named_word parsed.0 ++ 32 ∷ parsed.1.now) }
{
    let rest = after(text, start)?;
    Some((verb, rest))
}

// Does what parse_verb does, for the words that begin with `b`.
fn parse_b_verb(text: &[u8]) -> Option<(NamedVerb, &[u8])>
    ensures { IfSome result (λ parsed. text.now ≡ named_word parsed.0 ++ 32 ∷ parsed.1.now) }
{
    if let Some(parsed) = parse_verb(text, NamedVerb::Bwait, b"bwait ") {
        return Some(parsed);
    }
    if let Some(parsed) = parse_verb(text, NamedVerb::Broadcast, b"broadcast ") {
        return Some(parsed);
    }
    parse_verb(text, NamedVerb::BarrierDestroy, b"barrier-destroy ")
}

// Does what parse_verb does, for the words that begin with `c`.
fn parse_c_verb(text: &[u8]) -> Option<(NamedVerb, &[u8])>
    ensures { IfSome result (λ parsed. text.now ≡ named_word parsed.0 ++ 32 ∷ parsed.1.now) }
{
    if let Some(parsed) = parse_verb(text, NamedVerb::Consistent, b"consistent ") {
        return Some(parsed);
    }
    if let Some(parsed) = parse_verb(text, NamedVerb::CondInit, b"cond-init ") {
        return Some(parsed);
    }
    parse_verb(text, NamedVerb::CondDestroy, b"cond-destroy ")
}

// Does what parse_verb does, for the words that begin with `r`.
fn parse_r_verb(text: &[u8]) -> Option<(NamedVerb, &[u8])>
    ensures { IfSome result (λ parsed. text.now ≡ named_word parsed.0 ++ 32 ∷ parsed.1.now) }
{
    if let Some(parsed) = parse_verb(text, NamedVerb::Rdlock, b"rdlock ") {
        return Some(parsed);
    }
    if let Some(parsed) = parse_verb(text, NamedVerb::Rwunlock, b"rwunlock ") {
        return Some(parsed);
    }
    if let Some(parsed) = parse_verb(text, NamedVerb::RwlockInit, b"rwlock-init ") {
        return Some(parsed);
    }
    parse_verb(text, NamedVerb::RwlockDestroy, b"rwlock-destroy ")
}

// Does what parse_verb does, for the words that begin with `t`.
fn parse_t_verb(text: &[u8]) -> Option<(NamedVerb, &[u8])>
    ensures { IfSome result (λ parsed. text.now ≡ named_word parsed.0 ++ 32 ∷ parsed.1.now) }
{
    if let Some(parsed) = parse_verb(text, NamedVerb::Trylock, b"trylock ") {
        return Some(parsed);
    }
    if let Some(parsed) = parse_verb(text, NamedVerb::Tryrdlock, b"tryrdlock ") {
        return Some(parsed);
    }
    parse_verb(text, NamedVerb::Trywrlock, b"trywrlock ")
}

// Returns the word that a text begins with, and what follows it and a space. Few words share a
// first letter, so few are compared.
fn word_at_start(text: &[u8]) -> Option<(NamedVerb, &[u8])>
    ensures { IfSome result (λ parsed. text.now ≡ named_word parsed.0 ++ 32 ∷ parsed.1.now) }
{
    match text.first() {
        Some(b'l') => parse_verb(text, NamedVerb::Lock, b"lock "),
        Some(b'u') => parse_verb(text, NamedVerb::Unlock, b"unlock "),
        Some(b'w') => parse_verb(text, NamedVerb::Wrlock, b"wrlock "),
        Some(b's') => parse_verb(text, NamedVerb::Signal, b"signal "),
        Some(b'm') => parse_verb(text, NamedVerb::MutexDestroy, b"mutex-destroy "),
        Some(b'b') => parse_b_verb(text),
        Some(b'c') => parse_c_verb(text),
        Some(b'r') => parse_r_verb(text),
        Some(b't') => parse_t_verb(text),
        _ => None,
    }
}

/// Returns the word of a call of one name and what follows it and a space, if a text begins with
/// these. If what follows is a name, a client that says this makes the call on it. Most lines are
/// such calls, and they are read without a search for spaces.
#[inline(always)]
pub fn named_at_start(text: &[u8]) -> Option<(NamedVerb, &[u8])>
    ensures called { IfSome result (λ parsed. (client : List ℕ) → IsName parsed.1.now
        → body_read (who.Named client) text.now
        ≡ Ok (body.Ask (call_on parsed.0 parsed.1.now))) }
    ensures refused { IfSome result (λ parsed. (client : List ℕ) → (IsName parsed.1.now → ⊥)
        → length text.now ≤ 128
        → body_read (who.Named client) text.now ≡ Err refusal.Syntax) }
{
    word_at_start(text)
}

/// Returns what follows `wait` up to the next space, and what follows that space, if a text has
/// these parts. If both are names, a client that says this waits at the first with the second.
#[inline(always)]
pub fn wait_at_start(text: &[u8]) -> Option<(&[u8], &[u8])>
    ensures { IfSome result (λ parsed. (client : List ℕ) → IsName parsed.0.now → IsName parsed.1.now
        → body_read (who.Named client) text.now
        ≡ Ok (body.Ask (call.Wait parsed.0.now parsed.1.now))) }
{
    let args = after(text, b"wait ")?;
    let mut fields = Fields::new(args);
    let cond = fields.next()?;
    let mutex = fields.rest()?;
    Some((cond, mutex))
}

// Returns the word of a call of one name and a deadline that a text begins with, and what follows
// the word and a space.
fn timed_word_at_start(text: &[u8]) -> Option<(TimedVerb, &[u8])>
    ensures { IfSome result (λ parsed. text.now ≡ timed_word parsed.0 ++ 32 ∷ parsed.1.now) }
{
    if let Some(rest) = after(text, b"timedlock ") {
        return Some((TimedVerb::Timedlock, rest));
    }
    if let Some(rest) = after(text, b"timedrdlock ") {
        return Some((TimedVerb::Timedrdlock, rest));
    }
    let rest = after(text, b"timedwrlock ")?;
    Some((TimedVerb::Timedwrlock, rest))
}

/// Returns the word of a call of one name and a deadline, what follows it up to the next space, and
/// the deadline after that, if a text has these parts. If the second is a name, a client that says
/// this makes this call.
pub fn timed_at_start(text: &[u8]) -> Option<(TimedVerb, &[u8], Deadline)>
    ensures { IfSome result (λ parsed. (client : List ℕ) → IsName parsed.1.now
        → body_read (who.Named client) text.now
        ≡ Ok (body.Ask (call_until parsed.0 parsed.1.now parsed.2))) }
{
    let (verb, args) = timed_word_at_start(text)?;
    let mut fields = Fields::new(args);
    let name = fields.next()?;
    let deadline = only_deadline(fields)?;
    Some((verb, name, deadline))
}

// Returns the call that this verb makes with what follows its word and a space, if a text begins
// with these.
fn parse_call_of(text: &[u8], verb: Verb, start: &[u8]) -> Option<Option<Call>>
    requires is { start.now ≡ word_of verb ++ 32 ∷ [] }
    requires long { 4 ≤ length start.now }
    requires request { (args : List (List ℕ)) (parsed : Option Call) → IsCallOfVerb verb args parsed
        → option_map line.Ask parsed ≡ line_of verb args }
    ensures called { IfSome result (λ parsed. IfSome parsed (λ call. (client : List ℕ)
        → body_read (who.Named client) text.now ≡ Ok (body.Ask call))) }
    ensures read { IfSome result (λ parsed. (client : List ℕ) → length text.now ≤ 128
        → body_read (who.Named client) text.now ≡ call_or_syntax parsed) }
{
    let args = after(text, start)?;
    Some(read_call_word(verb, Fields::new(args)))
}

/// Returns the wait with a deadline, if a text begins with the word of one. A client's line that
/// says this asks for that wait, or is refused as SYNTAX if there is none.
pub fn timedwait_at_start(text: &[u8]) -> Option<Option<Call>>
    ensures called { IfSome result (λ parsed. IfSome parsed (λ call. (client : List ℕ)
        → body_read (who.Named client) text.now ≡ Ok (body.Ask call))) }
    ensures read { IfSome result (λ parsed. (client : List ℕ) → length text.now ≤ 128
        → body_read (who.Named client) text.now ≡ call_or_syntax parsed) }
{
    parse_call_of(text, Verb::Timedwait, b"timedwait ")
}

/// Returns what follows `mutex-init` up to the next space, and the kind and robustness after that,
/// if a text has these parts. If the first is a name, a client that says this makes this mutex.
pub fn mutex_init_at_start(text: &[u8]) -> Option<(&[u8], MutexKind, bool)>
    ensures { IfSome result (λ parsed. (client : List ℕ) → IsName parsed.0.now
        → body_read (who.Named client) text.now
        ≡ Ok (body.Ask (call.MutexInit parsed.0.now parsed.1 parsed.2))) }
{
    let args = after(text, b"mutex-init ")?;
    let mut fields = Fields::new(args);
    let name = fields.next()?;
    let (kind, robust) = kind_and_robust(fields)?;
    Some((name, kind, robust))
}

/// Returns what follows `barrier-init` up to the next space, and the count after that, if a text
/// has these parts. If the first is a name, a client that says this makes this barrier.
pub fn barrier_init_at_start(text: &[u8]) -> Option<(&[u8], u64)>
    ensures { IfSome result (λ parsed. (client : List ℕ) → IsName parsed.0.now
        → body_read (who.Named client) text.now
        ≡ Ok (body.Ask (call.BarrierInit parsed.0.now parsed.1))) }
{
    let args = after(text, b"barrier-init ")?;
    let mut fields = Fields::new(args);
    let name = fields.next()?;
    let count = only_number(fields)?;
    Some((name, count))
}

/// Returns the moment of the real clock, if a text begins with the word of one and a line of the
/// clocks with this text gives it.
pub fn moment_at_start(text: &[u8]) -> Option<Moment>
    ensures { IfSome result (λ moment. body_read who.Star text.now
        ≡ Ok (body.Tick clock.Real moment)) }
{
    let args = after(text, b"moment ")?;
    only_moment(Fields::new(args))
}
