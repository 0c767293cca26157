ghost use Rattle.std.specs.Prelude.{◌≡◌, ◌≤◌, Ok, Some, IfOk, IfErr, IsOk, nat_lt, length};
ghost use Rattle.std.specs.Prelude.{if◌then◌else◌};
ghost use Rattle.std.specs.Option.{option_map};
ghost use Rattle.pt_grammar.specs.declared.call_line.CallLine.{CallLine};
ghost use Rattle.pt_grammar.specs.declared.verb.Verb.TheVariants as word;
ghost use Rattle.pt_grammar.specs.Grammar.{Spells};
ghost use Rattle.pt_grammar.specs.Reading.{line_of, line_read, call_read, IsCallOfVerb};

use crate::arguments::{
    name_and_count, name_and_deadline, name_and_kind, name_clock_and_deadline, only_moment,
    only_name, only_priority, two_names, two_names_and_deadline, two_names_clock_and_deadline,
};
use crate::cut::Cut;
use crate::verb::{ClockedVerb, TimedVerb, Verb};
use pt_fields::Fields;
use pt_types::{Call, Clock, MAX_LINE_LENGTH, Moment, Priority, Refusal};

/// A line of a connection: a hello, a call, or a reading of a clock.  [profile]
#[derive(PartialEq, Eq, Drop)]
pub enum CallLine {
    Hello(Priority),
    Ask(Call),
    Tick(Clock, Moment),
}

// Reads a hello.
#[inline(never)]
fn read_hello(args: Fields) -> Option<CallLine>
    ensures { result ≡ line_of word.Hello args.entry }
{
    Some(CallLine::Hello(only_priority(args)?))
}

// Reads a reading of this clock.
#[inline(never)]
fn read_tick(clock: Clock, args: Fields) -> Option<CallLine>
    ensures { result ≡ line_of (word.Moment clock) args.entry }
{
    Some(CallLine::Tick(clock, only_moment(args)?))
}

// Reads a call with a kind, and whether the mutex is robust.
#[inline(never)]
fn read_mutex_init(args: Fields) -> Option<Call>
    ensures { option_map CallLine.Ask result ≡ line_of word.MutexInit args.entry }
{
    let (name, (kind, robust)) = name_and_kind(args)?;
    Some(Call::MutexInit(name, kind, robust))
}

// Reads a call with a count.
#[inline(never)]
fn read_barrier_init(args: Fields) -> Option<Call>
    ensures { option_map CallLine.Ask result ≡ line_of word.BarrierInit args.entry }
{
    let (name, count) = name_and_count(args)?;
    Some(Call::BarrierInit(name, count))
}

// Reads a call on two names.
fn read_wait(args: Fields) -> Option<Call>
    ensures { option_map CallLine.Ask result ≡ line_of word.Wait args.entry }
{
    let (cond, mutex) = two_names(args)?;
    Some(Call::Wait(cond, mutex))
}

// Reads a call on two names with a deadline.
#[inline(never)]
fn read_timedwait(args: Fields) -> Option<Call>
    ensures { option_map CallLine.Ask result ≡ line_of word.Timedwait args.entry }
{
    let (cond, (mutex, deadline)) = two_names_and_deadline(args)?;
    Some(Call::Timedwait(cond, mutex, deadline))
}

// Reads a call on two names with a deadline of a clock.
#[inline(never)]
fn read_clockwait(args: Fields) -> Option<Call>
    ensures { option_map CallLine.Ask result ≡ line_of word.Clockwait args.entry }
{
    let (cond, (mutex, (clock, deadline))) = two_names_clock_and_deadline(args)?;
    Some(Call::Clockwait(cond, mutex, clock, deadline))
}

// Reads a call with a deadline.
fn read_timed(verb: TimedVerb, args: Fields) -> Option<Call>
    ensures { option_map CallLine.Ask result ≡ line_of (word.Timed verb) args.entry }
{
    let (name, deadline) = name_and_deadline(args)?;
    Some(verb.on(name, deadline))
}

// Reads a call with a deadline of a clock.
#[inline(never)]
fn read_clocked(verb: ClockedVerb, args: Fields) -> Option<Call>
    ensures { option_map CallLine.Ask result ≡ line_of (word.Clocked verb) args.entry }
{
    let (name, (clock, deadline)) = name_clock_and_deadline(args)?;
    Some(verb.on(name, clock, deadline))
}

/// Returns the call of a verb and the fields after it, if the verb is that of a call.
#[inline(always)]
pub(crate) fn read_call_word(verb: Verb, args: Fields) -> Option<Call>
    ensures { IsCallOfVerb verb args.entry result }
{
    match verb {
        Verb::Named(verb) => Some(verb.call(only_name(args)?)),
        Verb::Wait => read_wait(args),
        Verb::Timed(verb) => read_timed(verb, args),
        Verb::Clocked(verb) => read_clocked(verb, args),
        Verb::Timedwait => read_timedwait(args),
        Verb::Clockwait => read_clockwait(args),
        Verb::MutexInit => read_mutex_init(args),
        Verb::BarrierInit => read_barrier_init(args),
        Verb::Hello | Verb::Moment(_) => None,
    }
}

/// Returns the line of a verb and the fields after it. Rare lines are read by separate functions
/// that are not inlined, so that other lines need not clear space for them.
pub(crate) fn read_arguments(verb: Verb, args: Fields) -> Option<CallLine>
    ensures { result ≡ line_of verb args.entry }
{
    match verb {
        Verb::Hello => read_hello(args),
        Verb::Moment(clock) => read_tick(clock, args),
        _ => Some(CallLine::Ask(read_call_word(verb, args)?)),
    }
}

// Returns the line that a text spells, whatever the text's length.
fn read_text(text: &[u8]) -> Option<CallLine>
    ensures { result ≡ line_read text.now }
{
    let mut fields = Fields::new(text);
    let verb = Verb::read(fields.next()?)?;
    read_arguments(verb, fields)
}

/// Reads a line of a connection. Returns LONG past 128 bytes, otherwise SYNTAX if the text spells
/// no line. It allocates nothing.  [profile]
pub fn read_call(text: &[u8]) -> Result<CallLine, Refusal>
    ensures value { result ≡ call_read text.now }

    // The result is exactly the line that the text spells, and no text that spells one is too long.
    ensures found { IfOk result (Spells text.now) }
    ensures exact { (line : CallLine) → Spells text.now line → result ≡ Ok line }

    ensures err { IfErr result (λ refusal. refusal
        ≡ (if nat_lt 128 (length text.now) then Refusal.Long else Refusal.Syntax)) }
    ensures within { IsOk result → length text.now ≤ 128 }
{
    if text.len() > MAX_LINE_LENGTH {
        return Err(Refusal::Long);
    }
    read_text(text).ok_or(Refusal::Syntax)
}

impl CallLine {
    ghost use Rattle.pt_grammar.specs.Reading.{call_of_cut, IsCallReadOf};

    /// Reads what a cutter gave. It allocates nothing.
    pub fn of(cut: &Cut) -> Result<CallLine, Refusal>
        ensures value { result ≡ call_of_cut cut.now }
        ensures read { IsCallReadOf cut.now result }
    {
        match cut {
            Cut::Line(text) => read_call(text.as_slice()),
            Cut::Long => Err(Refusal::Long),
        }
    }
}
