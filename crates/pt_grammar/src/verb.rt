ghost use Rattle.std.specs.Prelude.{◌≡◌, IfSome, Some};
ghost use Rattle.pt_grammar.specs.declared.verb.Verb.{Verb};
ghost use Rattle.pt_grammar.specs.Verbs.{named_word, timed_word, clocked_word, moment_word};
ghost use Rattle.pt_grammar.specs.Verbs.{word_of};
ghost use Rattle.pt_grammar.specs.Verbs.{verb_of, call_until, call_by_clock};

use crate::verbs::find_verb;
use pt_types::{Call, Clock, Deadline, Name, NamedVerb};

/// The word of a call that takes a name and a deadline.
#[derive(Clone, Copy)]
pub enum TimedVerb {
    Timedlock,
    Timedrdlock,
    Timedwrlock,
}

/// The word of a call that takes a name, a clock and a deadline.
#[derive(Clone, Copy)]
pub enum ClockedVerb {
    Clocklock,
    Clockrdlock,
    Clockwrlock,
}

/// The first word of a line, classified by what follows it.
#[derive(Clone, Copy)]
pub enum Verb {
    Hello,
    Moment(Clock),
    MutexInit,
    BarrierInit,
    Wait,
    Timedwait,
    Clockwait,
    Named(NamedVerb),
    Timed(TimedVerb),
    Clocked(ClockedVerb),
}

const VERBS: [Verb; 32] = [
    Verb::Hello,
    Verb::Moment(Clock::Real),
    Verb::Moment(Clock::Mono),
    Verb::MutexInit,
    Verb::BarrierInit,
    Verb::Wait,
    Verb::Timedwait,
    Verb::Clockwait,
    Verb::Named(NamedVerb::Lock),
    Verb::Named(NamedVerb::Trylock),
    Verb::Named(NamedVerb::Unlock),
    Verb::Named(NamedVerb::Consistent),
    Verb::Named(NamedVerb::MutexDestroy),
    Verb::Named(NamedVerb::RwlockInit),
    Verb::Named(NamedVerb::Rdlock),
    Verb::Named(NamedVerb::Tryrdlock),
    Verb::Named(NamedVerb::Wrlock),
    Verb::Named(NamedVerb::Trywrlock),
    Verb::Named(NamedVerb::Rwunlock),
    Verb::Named(NamedVerb::RwlockDestroy),
    Verb::Named(NamedVerb::CondInit),
    Verb::Named(NamedVerb::CondDestroy),
    Verb::Named(NamedVerb::Signal),
    Verb::Named(NamedVerb::Broadcast),
    Verb::Named(NamedVerb::Bwait),
    Verb::Named(NamedVerb::BarrierDestroy),
    Verb::Timed(TimedVerb::Timedlock),
    Verb::Timed(TimedVerb::Timedrdlock),
    Verb::Timed(TimedVerb::Timedwrlock),
    Verb::Clocked(ClockedVerb::Clocklock),
    Verb::Clocked(ClockedVerb::Clockrdlock),
    Verb::Clocked(ClockedVerb::Clockwrlock),
];

impl TimedVerb {
    /// Returns the word.
    pub fn word(self) -> &'static [u8]
        ensures { result.now ≡ timed_word self }
    {
        match self {
            TimedVerb::Timedlock => b"timedlock",
            TimedVerb::Timedrdlock => b"timedrdlock",
            TimedVerb::Timedwrlock => b"timedwrlock",
        }
    }

    /// Returns the call on this name with this deadline.
    pub fn on(self, name: Name, deadline: Deadline) -> Call
        ensures { result ≡ call_until self name deadline }
    {
        match self {
            TimedVerb::Timedlock => Call::Timedlock(name, deadline),
            TimedVerb::Timedrdlock => Call::Timedrdlock(name, deadline),
            TimedVerb::Timedwrlock => Call::Timedwrlock(name, deadline),
        }
    }
}

impl ClockedVerb {
    /// Returns the word.
    pub fn word(self) -> &'static [u8]
        ensures { result.now ≡ clocked_word self }
    {
        match self {
            ClockedVerb::Clocklock => b"clocklock",
            ClockedVerb::Clockrdlock => b"clockrdlock",
            ClockedVerb::Clockwrlock => b"clockwrlock",
        }
    }

    /// Returns the call on this name with this deadline of this clock.
    pub fn on(self, name: Name, clock: Clock, deadline: Deadline) -> Call
        ensures { result ≡ call_by_clock self name clock deadline }
    {
        match self {
            ClockedVerb::Clocklock => Call::Clocklock(name, clock, deadline),
            ClockedVerb::Clockrdlock => Call::Clockrdlock(name, clock, deadline),
            ClockedVerb::Clockwrlock => Call::Clockwrlock(name, clock, deadline),
        }
    }
}

// Returns the word of a call that takes one name.
fn word_of_named(verb: NamedVerb) -> &'static [u8]
    ensures { result.now ≡ named_word verb }
{
    match verb {
        NamedVerb::Lock => b"lock",
        NamedVerb::Trylock => b"trylock",
        NamedVerb::Unlock => b"unlock",
        NamedVerb::Consistent => b"consistent",
        NamedVerb::MutexDestroy => b"mutex-destroy",
        NamedVerb::RwlockInit => b"rwlock-init",
        NamedVerb::Rdlock => b"rdlock",
        NamedVerb::Tryrdlock => b"tryrdlock",
        NamedVerb::Wrlock => b"wrlock",
        NamedVerb::Trywrlock => b"trywrlock",
        NamedVerb::Rwunlock => b"rwunlock",
        NamedVerb::RwlockDestroy => b"rwlock-destroy",
        NamedVerb::CondInit => b"cond-init",
        NamedVerb::CondDestroy => b"cond-destroy",
        NamedVerb::Signal => b"signal",
        NamedVerb::Broadcast => b"broadcast",
        NamedVerb::Bwait => b"bwait",
        NamedVerb::BarrierDestroy => b"barrier-destroy",
    }
}

// Returns the word of a moment of this clock.
fn word_of_moment(clock: Clock) -> &'static [u8]
    ensures { result.now ≡ moment_word clock }
{
    match clock {
        Clock::Real => b"moment",
        Clock::Mono => b"mono-moment",
    }
}

impl Verb {
    /// Returns the word.
    pub fn word(self) -> &'static [u8]
        ensures { result.now ≡ word_of self }
    {
        match self {
            Verb::Hello => b"hello",
            Verb::Moment(clock) => word_of_moment(clock),
            Verb::MutexInit => b"mutex-init",
            Verb::BarrierInit => b"barrier-init",
            Verb::Wait => b"wait",
            Verb::Timedwait => b"timedwait",
            Verb::Clockwait => b"clockwait",
            Verb::Named(verb) => word_of_named(verb),
            Verb::Timed(verb) => verb.word(),
            Verb::Clocked(verb) => verb.word(),
        }
    }

    /// Returns the verb with this word, if there is one.
    pub fn read(text: &[u8]) -> Option<Verb>
        ensures value { result ≡ verb_of text.now }
        ensures found { IfSome result (λ verb. text.now ≡ word_of verb) }
        ensures exact { (verb : Verb) → text.now ≡ word_of verb → result ≡ Some verb }
    {
        find_verb(text)
    }
}
