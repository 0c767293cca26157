use pt_model::Entry;
use pt_types::{Call, Clock, Moment, Outcome};
use std::alloc::AllocError;

fn word_of(call: &Call) -> &'static str {
    match call {
        Call::MutexInit(..) => "mutex-init",
        Call::Lock(_) => "lock",
        Call::Trylock(_) => "trylock",
        Call::Timedlock(..) => "timedlock",
        Call::Clocklock(..) => "clocklock",
        Call::Unlock(_) => "unlock",
        Call::Consistent(_) => "consistent",
        Call::MutexDestroy(_) => "mutex-destroy",
        Call::RwlockInit(_) => "rwlock-init",
        Call::Rdlock(_) => "rdlock",
        Call::Tryrdlock(_) => "tryrdlock",
        Call::Timedrdlock(..) => "timedrdlock",
        Call::Clockrdlock(..) => "clockrdlock",
        Call::Wrlock(_) => "wrlock",
        Call::Trywrlock(_) => "trywrlock",
        Call::Timedwrlock(..) => "timedwrlock",
        Call::Clockwrlock(..) => "clockwrlock",
        Call::Rwunlock(_) => "rwunlock",
        Call::RwlockDestroy(_) => "rwlock-destroy",
        Call::CondInit(_) => "cond-init",
        Call::CondDestroy(_) => "cond-destroy",
        Call::Wait(..) => "wait",
        Call::Timedwait(..) => "timedwait",
        Call::Clockwait(..) => "clockwait",
        Call::Signal(_) => "signal",
        Call::Broadcast(_) => "broadcast",
        Call::BarrierInit(..) => "barrier-init",
        Call::Bwait(_) => "bwait",
        Call::BarrierDestroy(_) => "barrier-destroy",
    }
}

fn clock_of(clock: &Clock) -> &'static str {
    match clock {
        Clock::Real => "Real",
        Clock::Mono => "Mono",
    }
}

// Writes the entry of a call, with its answer if it was answered at once.
fn write_call(
    text: &mut String,
    i: usize,
    client: u64,
    call: &Call,
    answer: Option<Outcome>,
) -> Result<(), AllocError> {
    let call = word_of(call);
    let answer = match answer {
        Some(outcome) => outcome.word(),
        None => "none",
    };
    write!(text, "{i} Call({client}, {call}, {answer})")
}

fn write_moment(
    text: &mut String,
    i: usize,
    clock: &Clock,
    moment: &Moment,
) -> Result<(), AllocError> {
    let clock = clock_of(clock);
    let sec = moment.nanos() / 1_000_000_000;
    let nsec = moment.nanos() % 1_000_000_000;
    write!(text, "{i} Moment({clock}, {sec}, {nsec})")
}

/// Writes an entry and its place, in the form of the tables of histories.
pub fn write_entry(text: &mut String, i: usize, entry: &Entry) -> Result<(), AllocError> {
    match entry {
        Entry::Join(client, priority) => {
            write!(text, "{i} Join({}, {})", client.0, priority.level())
        }
        Entry::Call(client, call, answer) => write_call(text, i, client.0, call, *answer),
        Entry::Death(client) => write!(text, "{i} Death({})", client.0),
        Entry::Moment(clock, moment) => write_moment(text, i, clock, moment),
        Entry::Grant(place, outcome) => write!(text, "{i} Grant({place}, {})", outcome.word()),
        Entry::Trip(object) => write!(text, "{i} Trip({})", object.0),
        Entry::Yield(object) => write!(text, "{i} Yield({})", object.0),
        Entry::Expire(place) => write!(text, "{i} Expire({place})"),
    }
}
