//! Why an event's own entry is added, and why an event is refused.

ghost use Rattle.std.specs.Prelude.{◌≡◌, is_some};
ghost use Rattle.pt_legal.specs.Cores.{history_of, core_state};
ghost use Rattle.pt_model.specs.Clients.{clock as clock_in};
ghost use Rattle.pt_rules.specs.EventRules.{death_reason, is_clock_at};
ghost use Rattle.pt_rules.specs.EventRules.{event_reason};
ghost use Rattle.pt_rules.specs.EventRules.{moment_reason};
ghost use Rattle.pt_rules.specs.EventRules.{refusal_reason};

use crate::call::call_rule;
use crate::pages::page_of;
use crate::reasons::{Reason, rule_reason};
use pt_model::Event;
use pt_readable::ReadableHistory;
use pt_types::{Clock, Moment, Refusal};

/// Returns why a line is refused.  [profile]
pub fn refusal_reason(refusal: Refusal) -> Reason
    ensures words { result.words.now ≡ (refusal_reason refusal).0 }
    ensures source { result.source.now ≡ (refusal_reason refusal).1 }
{
    let words: &'static [u8] = match refusal {
        Refusal::Syntax => b"the line is not in the grammar",
        Refusal::Long => b"the line has more than 128 bytes",
        Refusal::Dead => b"the client has died",
        Refusal::Nohello => b"hello comes first and once",
        Refusal::Blocked => b"the client's last call is open",
        Refusal::Limit => b"1,024 clients live",
        Refusal::Full => b"the history has no room",
        Refusal::Enomem => b"memory was refused",
    };
    Reason::new(words, b"profile")
}

fn death_reason(has_open: bool) -> Reason
    ensures words { result.words.now ≡ (death_reason has_open).0 }
    ensures source { result.source.now ≡ (death_reason has_open).1 }
{
    if has_open {
        Reason::new(b"its process ends, its call is open", b"profile")
    } else {
        Reason::new(b"its process ends", b"profile")
    }
}

// Returns whether a clock shows this moment already, or a later one.
fn shows<C: ReadableHistory>(core: &C, clock: Clock, moment: Moment) -> bool
    ensures { result
        ≡ is_clock_at (clock_in (history_of (core_state (C.seen core.now))) clock) moment }
{
    match core.reading(clock) {
        Some(now) => moment.nanos() <= now.nanos(),
        None => false,
    }
}

fn moment_reason(reached: bool) -> Reason
    ensures words { result.words.now ≡ (moment_reason reached).0 }
    ensures source { result.source.now ≡ (moment_reason reached).1 }
{
    if reached {
        Reason::new(b"the clock shows as much already", b"profile")
    } else {
        Reason::new(b"the clock shows this from now on", b"profile")
    }
}

/// Returns why an event's own entry is added, from the core before the event.
pub fn event_reason<C: ReadableHistory>(core: &C, event: &Event) -> Reason
    ensures words { result.words.now
        ≡ (event_reason (history_of (core_state (C.seen core.now))) event.now).0 }
    ensures source { result.source.now
        ≡ (event_reason (history_of (core_state (C.seen core.now))) event.now).1 }
{
    match event {
        Event::Join(_) => Reason::new(b"a process starts", b"profile"),
        Event::Call(c, call) => rule_reason(call_rule(core, *c, call), page_of(call)),
        Event::Death(c) => death_reason(core.open_call(*c).is_some()),
        Event::Moment(clock, moment) => moment_reason(shows(core, *clock, *moment)),
    }
}
