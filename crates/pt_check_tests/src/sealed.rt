//! A trace whose history is sealed on the way.

use anyhow::Result;
use pt_check::{CheckFault, Found, check};
use pt_core::Core;
use pt_script::ENTRIES_BETWEEN_SEALS;

// The number of calls: more than a history has entries between two seals.
const CALLS: u64 = 70_000;

// A trace has fewer bytes than this.
const MAX_BYTES: usize = 1 << 53;

// Returns a trace of calls that change nothing, in which the last answer has this word.
fn trace_of(rt: &impl AllocGlobal, last: &str) -> Result<Vec<u8>> {
    let mut trace = Vec::from_slice(rt.alloc(), b"A hello 10\n> A 1 0\n")?;
    for number in 2..CALLS {
        let block = format!(in rt.alloc(); "A unlock m\n> A {number} EINVAL\n")?;
        trace.extend_from_slice(block.as_bytes())?;
    }
    let block = format!(in rt.alloc(); "A unlock m\n> A {CALLS} {last}\n")?;
    trace.extend_from_slice(block.as_bytes())?;
    Ok(trace)
}

// Returns what is found of this trace.
fn find(rt: &impl AllocGlobal, trace: &[u8]) -> Result<Option<Found>> {
    if trace.len() >= MAX_BYTES {
        return Ok(None);
    }
    let core = Core::with_limit(rt.alloc(), ENTRIES_BETWEEN_SEALS)?;
    Ok(check(core, rt.alloc(), trace).ok())
}

/// Returns whether a trace that agrees is found to agree, and one whose last answer differs to
/// differ there.
pub fn is_sealed_trace_checked(rt: &impl AllocGlobal) -> Result<bool> {
    let agreeing = find(rt, &trace_of(rt, "EINVAL")?)?;
    let differing = find(rt, &trace_of(rt, "EPERM")?)?;
    Ok(agreeing == Some(Found::Agrees) && differing == Some(Found::Differs(CALLS - 1)))
}
