//! The rows of what came of a line: the entries that it added, or its refusal.

ghost use Rattle.std.specs.Prelude.{◌≡◌, ◌≤◌, ◌++◌, OnOk, IfErr};
ghost use Rattle.pt_engine.specs.Engines.{as_script};
ghost use Rattle.pt_explain.specs.Explanations.{effect_rows};
ghost use Rattle.pt_explain.specs.Explanations.{refused_reason as refused_meant};

use crate::entries::{put_entries, put_refusal};
use crate::reasons::refused_reason;
use pt_engine::{Engine, ScriptFault};
use pt_model::Event;
use pt_readable::ReadableHistory;
use pt_rules::Reason;
use pt_types::Refusal;
use std::alloc::Allocator;

/// Appends the rows of what came of a line that was answered: the entries from a place on, the
/// first of which was added for this reason, or why what the line asked for is refused.  [profile]
///
/// A refused line changes no core, so its refusal is looked up only here.
pub fn put_effects<C: ReadableHistory, A: Allocator + Copy>(
    out: &mut Vec<u8, A>,
    engine: &Engine<C, A>,
    request: &Result<Event, Refusal>,
    from: u64,
    own: &Reason,
) -> Result<(), ScriptFault>
    requires { (as_script engine.now).start.at ≤ from }
    ensures ok { OnOk result (out.new.items ≡ out.old.items
        ++ effect_rows (refused_meant (as_script engine.now) request.now)
        (own.now.words.now, own.now.source.now) (as_script engine.now) from) }
    ensures err { IfErr result (λ fault. fault ≡ ScriptFault.Memory) }
{
    if engine.entries() <= from {
        return put_refusal(out, &refused_reason(engine, request));
    }
    put_entries(out, engine.core(), from, own)
}
