//! The entries that a line added, each with its reason.

ghost use Rattle.std.specs.Prelude.{◌≡◌, ◌≤◌, ◌==◌, ◌-◌, ◌++◌, OnOk, IfErr};
ghost use Rattle.pt_legal.specs.Cores.{core_state};
ghost use Rattle.pt_entries.specs.EntryTexts.{placed_entry};
ghost use Rattle.pt_explain.specs.Entries.{call_at, call_in, entries_from, entry_row};
ghost use Rattle.pt_explain.specs.Entries.{entry_rows, follows_by, place_of_call};
ghost use Rattle.pt_explain.specs.Entries.{reason_at, refused_text};
ghost use Rattle.pt_explain.specs.Rows.{row};

use crate::appending::put;
use crate::rows::put_reason;
use pt_engine::ScriptFault;
use pt_entries::write_placed_entry;
use pt_legal::LegalHistory;
use pt_model::Entry;
use pt_rules::{Reason, forced_reason};
use pt_types::Call;
use std::alloc::Allocator;

// Returns the call of an entry, if it is one.
fn call_of(entry: Option<Entry>) -> Option<Call>
    ensures { result ≡ call_in entry }
{
    match entry {
        Some(Entry::Call(_, call, _)) => Some(call),
        _ => None,
    }
}

/// Returns the call at a place, if its entry came since the history was last sealed.
pub fn call_at<C: LegalHistory>(core: &C, place: u64) -> Option<Call>
    ensures { result ≡ call_at (core_state (C.seen core.now)) place }
{
    call_of(core.entry(place))
}

// Returns the place of the call that a Grant or an Expire is of, and 0 for other entries.
fn place_of_call(entry: &Entry) -> u64
    ensures { result ≡ place_of_call entry.now }
{
    match entry {
        Entry::Grant(place, _) => *place,
        Entry::Expire(place) => *place,
        _ => 0,
    }
}

// Returns whether a place comes next after another.
fn is_next(of: u64, place: u64) -> bool
    ensures { result ≡ (place - 1 == of) }
{
    place.saturating_sub(1) == of
}

// Returns why a forced entry must follow, which is at this place.
fn follow_reason<C: LegalHistory>(core: &C, place: u64, entry: &Entry) -> Reason
    ensures words { result.words.now
        ≡ (follows_by (core_state (C.seen core.now)) place entry.now).0 }
    ensures source { result.source.now
        ≡ (follows_by (core_state (C.seen core.now)) place entry.now).1 }
{
    let of = place_of_call(entry);
    forced_reason(entry, &call_at(core, of), is_next(of, place))
}

// Returns why the entry at a place was added; the first is the event's own.
fn reason_at<C: LegalHistory>(
    own: &Reason,
    first: u64,
    core: &C,
    place: u64,
    entry: &Entry,
) -> Reason
    ensures words { result.words.now ≡ (reason_at (own.now.words.now, own.now.source.now) first
        (core_state (C.seen core.now)) place entry.now).0 }
    ensures source { result.source.now ≡ (reason_at (own.now.words.now, own.now.source.now) first
        (core_state (C.seen core.now)) place entry.now).1 }
{
    if place == first {
        *own
    } else {
        follow_reason(core, place, entry)
    }
}

// Appends an entry with its place, as a row has it on the left.
fn put_left<A: Allocator + Copy>(
    out: &mut Vec<u8, A>,
    place: u64,
    entry: &Entry,
) -> Result<(), ScriptFault>
    ensures ok { OnOk result (out.new.items ≡ out.old.items ++ placed_entry place entry.now) }
    ensures err { IfErr result (λ fault. fault ≡ ScriptFault.Memory) }
{
    match write_placed_entry(out, place, entry) {
        Ok(()) => Ok(()),
        Err(_) => Err(ScriptFault::Memory),
    }
}

// Appends the row of the entry at a place.
fn put_entry<A: Allocator + Copy>(
    out: &mut Vec<u8, A>,
    place: u64,
    entry: &Entry,
    reason: &Reason,
) -> Result<(), ScriptFault>
    ensures ok { OnOk result (out.new.items ≡ out.old.items
        ++ row (placed_entry place entry.now) (reason.now.words.now, reason.now.source.now)) }
    ensures err { IfErr result (λ fault. fault ≡ ScriptFault.Memory) }
{
    let start = out.len();
    put_left(out, place, entry)?;
    let width = out.len() - start;
    put_reason(out, width, reason)
}

/// Appends the rows of a core's entries from a place on, and nothing else. The first is the own
/// entry of an event, which was added for this reason.  [profile]
pub fn put_entries<C: LegalHistory, A: Allocator + Copy>(
    out: &mut Vec<u8, A>,
    core: &C,
    from: u64,
    own: &Reason,
) -> Result<(), ScriptFault>
    requires { (core_state (C.seen core.now)).start.at ≤ from }
    ensures ok { OnOk result (out.new.items ≡ out.old.items
        ++ entry_rows (entry_row (own.now.words.now, own.now.source.now) from
        (core_state (C.seen core.now))) from (entries_from (C.seen core.now) from)) }
    ensures err { IfErr result (λ fault. fault ≡ ScriptFault.Memory) }
{
    let end = core.len();
    for place in from..end {
        if let Some(entry) = core.entry(place) {
            let reason = reason_at(own, from, core, place, &entry);
            put_entry(out, place, &entry, &reason)?;
        }
    }
    Ok(())
}

/// Appends the row of a refusal for this reason.  [profile]
pub fn put_refusal<A: Allocator + Copy>(
    out: &mut Vec<u8, A>,
    reason: &Reason,
) -> Result<(), ScriptFault>
    ensures ok { OnOk result (out.new.items ≡ out.old.items
        ++ row refused_text (reason.now.words.now, reason.now.source.now)) }
    ensures err { IfErr result (λ fault. fault ≡ ScriptFault.Memory) }
{
    let text = b"       refused";
    put(out, text)?;
    put_reason(out, text.len(), reason)
}
