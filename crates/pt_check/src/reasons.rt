//! What a line added to the history and why, as an explanation has it.

use crate::fault::CheckFault;
use pt_engine::Engine;
use pt_explain::{own_reason, put_effects};
use pt_lines::{Cut, ScriptLine};
use pt_model::Event;
use pt_readable::ReadableHistory;
use pt_rules::Reason;
use pt_types::Refusal;
use std::alloc::Allocator;

/// What a line asks for, and the place at which its own entry is added and why it is, if it is.
#[derive(Drop)]
pub struct Reasons {
    place: u64,
    request: Result<Event, Refusal>,
    own: Reason,
}

impl Reasons {
    /// Returns the reasons for a line that is answered next.
    pub fn of<C: ReadableHistory, A: Allocator + Copy>(
        engine: &Engine<C, A>,
        line: &Cut,
    ) -> Reasons {
        let request = engine.event_of(ScriptLine::of(line));
        let own = own_reason(engine, &request);
        Reasons {
            place: engine.entries(),
            request,
            own,
        }
    }

    /// Appends the entries that the line added, or that it was refused, once it is answered. The
    /// history may have been sealed for it, at its place.
    pub fn put_rows<C: ReadableHistory, A: Allocator + Copy>(
        &self,
        out: &mut Vec<u8, A>,
        engine: &Engine<C, A>,
    ) -> Result<(), CheckFault> {
        if engine.core().first() <= self.place
            && put_effects(out, engine, &self.request, self.place, &self.own).is_ok()
        {
            return Ok(());
        }
        Err(CheckFault::Memory)
    }
}
