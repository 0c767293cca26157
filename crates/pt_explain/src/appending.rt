//! The parts of an explanation, each appended to a buffer.

ghost use Rattle.std.specs.Prelude.{◌≡◌, ◌≤◌, ◌<◌, ◌++◌, ◌∷◌, [], codes, drop, length, take};
ghost use Rattle.std.specs.Prelude.{true, OnOk, IfErr};
ghost use Rattle.pt_explain.specs.Explanations.{begins_row, echo, quoted};
ghost use Rattle.pt_explain.specs.Explanations.{mark};

use memchr::memchr;
use pt_engine::ScriptFault;
use pt_lines::Cut;
use std::alloc::Allocator;

/// Appends bytes.
pub fn put<A: Allocator + Copy>(out: &mut Vec<u8, A>, bytes: &[u8]) -> Result<(), ScriptFault>
    ensures ok { OnOk result (out.new.items ≡ out.old.items ++ bytes.now) }
    ensures err { IfErr result (λ fault. fault ≡ ScriptFault.Memory) }
{
    match out.extend_from_slice(bytes) {
        Ok(()) => Ok(()),
        Err(_) => Err(ScriptFault::Memory),
    }
}

/// Appends a byte.
pub fn put_byte<A: Allocator + Copy>(out: &mut Vec<u8, A>, byte: u8) -> Result<(), ScriptFault>
    ensures ok { OnOk result (out.new.items ≡ out.old.items ++ byte ∷ []) }
    ensures err { IfErr result (λ fault. fault ≡ ScriptFault.Memory) }
{
    match out.push(byte) {
        Ok(()) => Ok(()),
        Err(_) => Err(ScriptFault::Memory),
    }
}

// Returns whether another row of a trace than a line of a script can begin with this byte.
fn begins_row(byte: u8) -> bool
    ensures { result ≡ begins_row byte }
{
    byte == b' ' || byte == b'#' || byte == b'<' || byte == b'>'
}

// Returns what marks a line of a script in a trace.
fn mark(text: &[u8]) -> &'static [u8]
    ensures { result.now ≡ mark text.now }
{
    if text.is_empty() || begins_row(text[0]) {
        b"< "
    } else {
        b""
    }
}

/// Appends a line of a script as a trace has it.
pub fn put_line<A: Allocator + Copy>(out: &mut Vec<u8, A>, cut: &Cut) -> Result<(), ScriptFault>
    ensures ok { OnOk result (out.new.items ≡ out.old.items ++ echo cut.now) }
    ensures err { IfErr result (λ fault. fault ≡ ScriptFault.Memory) }
{
    match cut {
        Cut::Line(text) => {
            put(out, mark(text.as_slice()))?;
            put(out, text.as_slice())?;
        }
        Cut::Long => put(out, b"<")?,
    }
    put_byte(out, b'\n')
}

// Returns the length of the first answer, with its newline.
fn first_len(answers: &[u8]) -> usize
    ensures within { result ≤ length answers.now }
    ensures some { 0 < length answers.now → 0 < result }
    ensures line { 0 < length answers.now → quoted true answers.now
        ≡ codes "> " ++ (take result answers.now ++ quoted true (drop result answers.now)) }
{
    match memchr(b'\n', answers) {
        Some(end) => end + 1,
        None => answers.len(),
    }
}

/// Appends answers as a trace has them, each after `> `.
pub fn put_quoted<A: Allocator + Copy>(
    out: &mut Vec<u8, A>,
    answers: &[u8],
) -> Result<(), ScriptFault>
    ensures ok { OnOk result (out.new.items ≡ out.old.items ++ quoted true answers.now) }
    ensures err { IfErr result (λ fault. fault ≡ ScriptFault.Memory) }
{
    let mut rest = answers;
    while !rest.is_empty() {
        let len = first_len(rest);
        put(out, b"> ")?;
        put(out, &rest[..len])?;
        rest = &rest[len..];
    }
    Ok(())
}
