ghost use Rattle.std.specs.Prelude.{◌≡◌, IfSome, Some};
ghost use Rattle.std.specs.Option.{option_and_then, option_copied};
ghost use Rattle.pt_grammar.specs.Arguments.{read_name, read_kind, read_robust, read_clock};
ghost use Rattle.pt_grammar.specs.Arguments.{single_field};
ghost use Rattle.pt_grammar.specs.Arguments.{first_then, read_priority, read_moment, two_numbers};
ghost use Rattle.pt_grammar.specs.Arguments.{one_deadline, name_and_deadline, clock_and_deadline};
ghost use Rattle.pt_grammar.specs.Arguments.{name_clock_and_deadline};
ghost use Rattle.pt_fields.specs.Numbers.{read_number as number_of, IsNumber};

use crate::verbs::is_same;
use pt_fields::{Fields, read_number};
use pt_types::{Clock, Deadline, Moment, MutexKind, Name, Priority};

// Reads a name.
#[inline(always)]
fn read_name(field: &[u8]) -> Option<Name>
    ensures { result ≡ read_name field.now }
{
    Name::new(field)
}

// Reads the kind of a mutex.
fn read_kind(field: &[u8]) -> Option<MutexKind>
    ensures { result ≡ read_kind field.now }
{
    if is_same(field, b"normal") || is_same(field, b"default") {
        Some(MutexKind::Normal)
    } else if is_same(field, b"errorcheck") {
        Some(MutexKind::Errorcheck)
    } else if is_same(field, b"recursive") {
        Some(MutexKind::Recursive)
    } else {
        None
    }
}

// Reads whether a mutex is robust.
fn read_robust(field: &[u8]) -> Option<bool>
    ensures { result ≡ read_robust field.now }
{
    if is_same(field, b"robust") {
        Some(true)
    } else if is_same(field, b"stalled") {
        Some(false)
    } else {
        None
    }
}

// Reads the clock that a field names.
fn read_clock(field: &[u8]) -> Option<Clock>
    ensures { result ≡ read_clock field.now }
{
    if is_same(field, b"real") {
        Some(Clock::Real)
    } else if is_same(field, b"mono") {
        Some(Clock::Mono)
    } else {
        None
    }
}

// Returns the only field that is left.
fn only_field<'a>(mut args: Fields<'a>) -> Option<&'a [u8]>
    ensures { option_copied result ≡ single_field Some args.entry }
{
    let field = args.next()?;
    if args.next().is_some() {
        return None;
    }
    Some(field)
}

/// Reads a name and nothing more. No name has a space, so what is left is one field or no name.
#[inline(always)]
#[tactic(auto, using(crate::proofs::WholeLemmas::whole_name))]
pub fn only_name(args: Fields) -> Option<Name>
    ensures { result ≡ single_field read_name args.entry }
{
    read_name(args.rest()?)
}

/// Reads a number and nothing more. No number has a space either.
#[tactic(auto, using(crate::proofs::WholeLemmas::whole_number))]
#[inline(always)]
pub fn only_number(args: Fields) -> Option<u64>
    ensures value { result ≡ single_field number_of args.entry }
    ensures fits { IfSome result IsNumber }
{
    read_number(args.rest()?)
}

/// Reads a priority and nothing more.
pub fn only_priority(args: Fields) -> Option<Priority>
    ensures { result ≡ option_and_then read_priority (single_field number_of args.entry) }
{
    Priority::new(only_number(args)?)
}

// Reads seconds and nanoseconds and nothing more.
#[inline(always)]
fn only_time(mut args: Fields) -> Option<(u64, u64)>
    ensures value { result ≡ two_numbers args.entry }
    ensures fits { IfSome result (λ time. IsNumber time.0 × IsNumber time.1) }
{
    let sec = read_number(args.next()?)?;
    let nsec = only_number(args)?;
    Some((sec, nsec))
}

/// Reads a moment and nothing more.
#[inline(always)]
pub fn only_moment(args: Fields) -> Option<Moment>
    ensures { result ≡ option_and_then read_moment (two_numbers args.entry) }
{
    let (sec, nsec) = only_time(args)?;
    Moment::new(sec, nsec)
}

/// Reads a deadline and nothing more.
#[inline(always)]
pub fn only_deadline(args: Fields) -> Option<Deadline>
    ensures { result ≡ one_deadline args.entry }
{
    let (sec, nsec) = only_time(args)?;
    Deadline::new(sec, nsec)
}

/// Reads a name and a deadline.
#[inline(always)]
pub fn name_and_deadline(mut args: Fields) -> Option<(Name, Deadline)>
    ensures { result ≡ name_and_deadline args.entry }
{
    let name = read_name(args.next()?)?;
    let deadline = only_deadline(args)?;
    Some((name, deadline))
}

// Reads a clock and a deadline.
fn clock_and_deadline(mut args: Fields) -> Option<(Clock, Deadline)>
    ensures { result ≡ clock_and_deadline args.entry }
{
    let clock = read_clock(args.next()?)?;
    let deadline = only_deadline(args)?;
    Some((clock, deadline))
}

/// Reads a name, a clock and a deadline.
pub fn name_clock_and_deadline(mut args: Fields) -> Option<(Name, (Clock, Deadline))>
    ensures { result ≡ name_clock_and_deadline args.entry }
{
    let name = read_name(args.next()?)?;
    let due = clock_and_deadline(args)?;
    Some((name, due))
}

/// Reads two names.
pub fn two_names(mut args: Fields) -> Option<(Name, Name)>
    ensures { result ≡ first_then read_name (single_field read_name) args.entry }
{
    let first = read_name(args.next()?)?;
    let second = only_name(args)?;
    Some((first, second))
}

/// Reads two names and a deadline.
pub fn two_names_and_deadline(mut args: Fields) -> Option<(Name, (Name, Deadline))>
    ensures { result ≡ first_then read_name name_and_deadline args.entry }
{
    let first = read_name(args.next()?)?;
    let rest = name_and_deadline(args)?;
    Some((first, rest))
}

/// Reads two names, a clock and a deadline.
pub fn two_names_clock_and_deadline(mut args: Fields) -> Option<(Name, (Name, (Clock, Deadline)))>
    ensures { result ≡ first_then read_name name_clock_and_deadline args.entry }
{
    let first = read_name(args.next()?)?;
    let rest = name_clock_and_deadline(args)?;
    Some((first, rest))
}

/// Reads a name and a count.
pub fn name_and_count(mut args: Fields) -> Option<(Name, u64)>
    ensures { result ≡ first_then read_name (single_field number_of) args.entry }
{
    let name = read_name(args.next()?)?;
    let count = only_number(args)?;
    Some((name, count))
}

/// Reads a kind, and whether the mutex is robust.
pub fn kind_and_robust(mut args: Fields) -> Option<(MutexKind, bool)>
    ensures { result ≡ first_then read_kind (single_field read_robust) args.entry }
{
    let kind = read_kind(args.next()?)?;
    let robust = read_robust(only_field(args)?)?;
    Some((kind, robust))
}

/// Reads a name, a kind, and whether the mutex is robust.
pub fn name_and_kind(mut args: Fields) -> Option<(Name, (MutexKind, bool))>
    ensures { result ≡ first_then read_name (first_then read_kind
        (single_field read_robust)) args.entry }
{
    let name = read_name(args.next()?)?;
    let kind = kind_and_robust(args)?;
    Some((name, kind))
}
