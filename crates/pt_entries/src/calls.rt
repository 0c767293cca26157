ghost use Rattle.std.specs.Prelude.{◌≡◌, ◌++◌, ◌∷◌, [], decimal, OnOk, OnErr, IfErr};
ghost use Rattle.pt_fields.specs.Fields.{after_spaces};
ghost use Rattle.pt_grammar.specs.Grammar.{clock_name, robust_word};
ghost use Rattle.pt_entries.specs.CallTexts.{call_arguments, call_text, deadline_words};
ghost use Rattle.pt_entries.specs.CallTexts.{call_word, kind_word};

use crate::appending::{put, put_number_word, put_word};
use pt_types::{Call, Clock, Deadline, MutexKind, Name, NamedVerb, Refusal};
use std::alloc::Allocator;

// Returns the word of a call.
fn call_word(call: &Call) -> &'static [u8]
    ensures { result.now ≡ call_word call.now }
{
    match call {
        Call::MutexInit(_, _, _) => b"mutex-init",
        Call::Lock(_) => b"lock",
        Call::Trylock(_) => b"trylock",
        Call::Timedlock(_, _) => b"timedlock",
        Call::Clocklock(_, _, _) => b"clocklock",
        Call::Unlock(_) => b"unlock",
        Call::Consistent(_) => b"consistent",
        Call::MutexDestroy(_) => b"mutex-destroy",
        Call::RwlockInit(_) => b"rwlock-init",
        Call::Rdlock(_) => b"rdlock",
        Call::Tryrdlock(_) => b"tryrdlock",
        Call::Timedrdlock(_, _) => b"timedrdlock",
        Call::Clockrdlock(_, _, _) => b"clockrdlock",
        Call::Wrlock(_) => b"wrlock",
        Call::Trywrlock(_) => b"trywrlock",
        Call::Timedwrlock(_, _) => b"timedwrlock",
        Call::Clockwrlock(_, _, _) => b"clockwrlock",
        Call::Rwunlock(_) => b"rwunlock",
        Call::RwlockDestroy(_) => b"rwlock-destroy",
        Call::CondInit(_) => b"cond-init",
        Call::CondDestroy(_) => b"cond-destroy",
        Call::Wait(_, _) => b"wait",
        Call::Timedwait(_, _, _) => b"timedwait",
        Call::Clockwait(_, _, _, _) => b"clockwait",
        Call::Signal(_) => b"signal",
        Call::Broadcast(_) => b"broadcast",
        Call::BarrierInit(_, _) => b"barrier-init",
        Call::Bwait(_) => b"bwait",
        Call::BarrierDestroy(_) => b"barrier-destroy",
    }
}

fn kind_word(kind: MutexKind) -> &'static [u8]
    ensures { result.now ≡ kind_word kind }
{
    match kind {
        MutexKind::Normal => b"normal",
        MutexKind::Errorcheck => b"errorcheck",
        MutexKind::Recursive => b"recursive",
    }
}

fn robust_word(robust: bool) -> &'static [u8]
    ensures { result.now ≡ robust_word robust }
{
    if robust { b"robust" } else { b"stalled" }
}

fn clock_word(clock: Clock) -> &'static [u8]
    ensures { result.now ≡ clock_name clock }
{
    match clock {
        Clock::Real => b"real",
        Clock::Mono => b"mono",
    }
}

// Appends a deadline, with a space before each of its numbers.
fn put_deadline<A: Allocator + Copy>(out: &mut Vec<u8, A>, due: &Deadline) -> Result<(), Refusal>
    ensures ok { OnOk result
        (out.new.items ≡ out.old.items ++ after_spaces (deadline_words due.now)) }
    ensures err { IfErr result (λ refusal. refusal ≡ Refusal.Enomem) }
{
    put_number_word(out, due.sec())?;
    put_number_word(out, due.nsec())
}

// Appends a name and a deadline.
fn put_until<A: Allocator + Copy>(
    out: &mut Vec<u8, A>,
    name: &Name,
    due: &Deadline,
) -> Result<(), Refusal>
    ensures ok { OnOk result
        (out.new.items ≡ out.old.items ++ after_spaces (name.now ∷ deadline_words due.now)) }
    ensures err { IfErr result (λ refusal. refusal ≡ Refusal.Enomem) }
{
    put_word(out, name.as_bytes())?;
    put_deadline(out, due)
}

// Appends a name, a clock and a deadline.
fn put_by_clock<A: Allocator + Copy>(
    out: &mut Vec<u8, A>,
    name: &Name,
    clock: Clock,
    due: &Deadline,
) -> Result<(), Refusal>
    ensures ok { OnOk result (out.new.items ≡ out.old.items
        ++ after_spaces (name.now ∷ clock_name clock ∷ deadline_words due.now)) }
    ensures err { IfErr result (λ refusal. refusal ≡ Refusal.Enomem) }
{
    put_word(out, name.as_bytes())?;
    put_word(out, clock_word(clock))?;
    put_deadline(out, due)
}

// Appends the arguments of a call, with a space before each.
fn put_arguments<A: Allocator + Copy>(out: &mut Vec<u8, A>, call: &Call) -> Result<(), Refusal>
    ensures ok { OnOk result
        (out.new.items ≡ out.old.items ++ after_spaces (call_arguments call.now)) }
    ensures err { IfErr result (λ refusal. refusal ≡ Refusal.Enomem) }
{
    match call {
        Call::MutexInit(name, kind, robust) => {
            put_word(out, name.as_bytes())?;
            put_word(out, kind_word(*kind))?;
            put_word(out, robust_word(*robust))
        }
        Call::BarrierInit(name, count) => {
            put_word(out, name.as_bytes())?;
            put_number_word(out, *count)
        }
        Call::Timedlock(name, due) | Call::Timedrdlock(name, due) | Call::Timedwrlock(name, due) =>
            put_until(out, name, due),
        Call::Clocklock(name, clock, due)
        | Call::Clockrdlock(name, clock, due)
        | Call::Clockwrlock(name, clock, due) => put_by_clock(out, name, *clock, due),
        Call::Wait(cond, mutex) => {
            put_word(out, cond.as_bytes())?;
            put_word(out, mutex.as_bytes())
        }
        Call::Timedwait(cond, mutex, due) => {
            put_word(out, cond.as_bytes())?;
            put_until(out, mutex, due)
        }
        Call::Clockwait(cond, mutex, clock, due) => {
            put_word(out, cond.as_bytes())?;
            put_by_clock(out, mutex, *clock, due)
        }
        Call::Lock(name)
        | Call::Trylock(name)
        | Call::Unlock(name)
        | Call::Consistent(name)
        | Call::MutexDestroy(name)
        | Call::RwlockInit(name)
        | Call::Rdlock(name)
        | Call::Tryrdlock(name)
        | Call::Wrlock(name)
        | Call::Trywrlock(name)
        | Call::Rwunlock(name)
        | Call::RwlockDestroy(name)
        | Call::CondInit(name)
        | Call::CondDestroy(name)
        | Call::Signal(name)
        | Call::Broadcast(name)
        | Call::Bwait(name)
        | Call::BarrierDestroy(name) => put_word(out, name.as_bytes()),
    }
}

/// Appends the text of a call: the line that makes it, without its client. Returns ENOMEM if a
/// growth was refused.
pub fn write_call<A: Allocator + Copy>(out: &mut Vec<u8, A>, call: &Call) -> Result<(), Refusal>
    ensures ok { OnOk result (out.new.items ≡ out.old.items ++ call_text call.now) }
    ensures err { IfErr result (λ refusal. refusal ≡ Refusal.Enomem) }
{
    put(out, call_word(call))?;
    put_arguments(out, call)
}
