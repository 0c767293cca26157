//! Why a line's event is added or refused, before it is.

ghost use Rattle.std.specs.Prelude.{◌≡◌};
ghost use Rattle.pt_engine.specs.Engines.{as_script};
ghost use Rattle.pt_explain.specs.Explanations.{own_reason};
ghost use Rattle.pt_explain.specs.Explanations.{refused_reason};

use pt_engine::Engine;
use pt_model::Event;
use pt_readable::ReadableHistory;
use pt_rules::{Reason, event_reason, refusal_reason};
use pt_types::Refusal;
use std::alloc::Allocator;

/// Returns why the own entry of what a line asks for is added.
pub fn own_reason<C: ReadableHistory, A: Allocator + Copy>(
    engine: &Engine<C, A>,
    request: &Result<Event, Refusal>,
) -> Reason
    ensures words { result.words.now ≡ (own_reason (as_script engine.now) request.now).0 }
    ensures source { result.source.now ≡ (own_reason (as_script engine.now) request.now).1 }
{
    match request {
        Ok(event) => event_reason(engine.core(), event),
        Err(why) => refusal_reason(*why),
    }
}

/// Returns why a line is refused, if it is.
pub fn refused_reason<C: ReadableHistory, A: Allocator + Copy>(
    engine: &Engine<C, A>,
    request: &Result<Event, Refusal>,
) -> Reason
    ensures words { result.words.now ≡ (refused_reason (as_script engine.now) request.now).0 }
    ensures source { result.source.now ≡ (refused_reason (as_script engine.now) request.now).1 }
{
    match request {
        Ok(event) => refusal_reason(engine.would_refuse(event).unwrap_or(Refusal::Enomem)),
        Err(why) => refusal_reason(*why),
    }
}
