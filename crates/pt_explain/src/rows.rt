//! The rows of an explanation.

ghost use Rattle.std.specs.Prelude.{◌≡◌, ◌++◌, length, OnOk, IfErr};
ghost use Rattle.pt_explain.specs.Rows.{gap, margin, right, room_before, spaces};

use crate::appending::put;
use pt_engine::ScriptFault;
use pt_rules::Reason;
use std::alloc::Allocator;

// Appends this many spaces, but at most 100.
fn put_spaces<A: Allocator + Copy>(out: &mut Vec<u8, A>, n: usize) -> Result<(), ScriptFault>
    ensures ok { OnOk result (out.new.items ≡ out.old.items ++ spaces n) }
    ensures err { IfErr result (λ fault. fault ≡ ScriptFault.Memory) }
{
    let blank = b"                                                  ";
    if n <= 50 {
        return put(out, &blank[..n]);
    }
    put(out, blank)?;
    put(out, &blank[..(n - 50).min(50)])
}

// Returns how many spaces are after what is on the left, which has this width.
fn margin(width: usize) -> usize
    ensures { result ≡ margin width }
{
    36usize.saturating_sub(width).max(2)
}

// Returns how many columns are left before a source that ends at column 100.
fn room(width: usize, reason: &Reason) -> usize
    ensures { result ≡ room_before width (length reason.now.words.now)
        (length reason.now.source.now) }
{
    98usize
        .saturating_sub(width)
        .saturating_sub(margin(width))
        .saturating_sub(reason.words.len())
        .saturating_sub(reason.source.len())
}

// Appends what is before a source of this length: the room, or a new line and spaces.
fn put_gap<A: Allocator + Copy>(
    out: &mut Vec<u8, A>,
    room: usize,
    source: usize,
) -> Result<(), ScriptFault>
    ensures ok { OnOk result (out.new.items ≡ out.old.items ++ gap room source) }
    ensures err { IfErr result (λ fault. fault ≡ ScriptFault.Memory) }
{
    if room >= 2 {
        return put_spaces(out, room);
    }
    put(out, b"\n")?;
    put_spaces(out, 98usize.saturating_sub(source))
}

/// Appends what follows the left of a row, which has this width: a reason, and its source.
/// [profile]
pub fn put_reason<A: Allocator + Copy>(
    out: &mut Vec<u8, A>,
    width: usize,
    reason: &Reason,
) -> Result<(), ScriptFault>
    ensures ok { OnOk result (out.new.items ≡ out.old.items
        ++ right width (reason.now.words.now, reason.now.source.now)) }
    ensures err { IfErr result (λ fault. fault ≡ ScriptFault.Memory) }
{
    put_spaces(out, margin(width))?;
    put(out, reason.words)?;
    put_gap(out, room(width, reason), reason.source.len())?;
    put(out, b"[")?;
    put(out, reason.source)?;
    put(out, b"]\n")
}
