use crate::sealing::{event_of, note};
use anyhow::Result;
use pt_cases::Case;
use pt_cells::Celled;
use pt_core::Core;
use pt_legal::LegalHistory;
use std::alloc::Global;

// Returns whether each entry from a place on is seen in its cell.
fn are_seen(core: &Celled<Core>, from: u64) -> bool {
    for place in from..core.len() {
        let (Some(entry), Some(seen)) = (core.entry(place), core.seen(place)) else {
            return false;
        };
        if seen.place() != place || seen.entry() != &entry {
            return false;
        }
    }
    true
}

/// Plays a case on a core whose entries are in cells, and returns whether each entry is seen as
/// soon as it is there, and still at the end.
pub fn is_seen(alloc: Global, case: &Case) -> Result<bool> {
    let mut core = Celled::new(Core::new(alloc)?, alloc, Some(alloc));
    let mut names = Vec::new(alloc);
    for line in str::from_utf8(&case.script)?.lines() {
        let Ok(event) = event_of(names.as_slice(), line.as_bytes()) else {
            continue;
        };
        if let Ok(applied) = core.apply(&event) {
            note(&mut names, line.as_bytes(), applied.first)?;
            if !are_seen(&core, applied.first) {
                return Ok(false);
            }
        }
    }
    Ok(are_seen(&core, 0))
}
