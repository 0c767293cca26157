ghost use Rattle.std.specs.Prelude.{◌≡◌, ◌<◌, ◌≤◌, ◌-◌, ◌++◌, length, take, OnOk, OnErr, IfOk};
ghost use Rattle.std.specs.Prelude.{IfErr};
ghost use Rattle.pt_script.specs.Texts.{BreaksOff, IsBroken, IsCutShort, writer_view};

use pt_engine::ScriptFault;
use pt_io::Sink;

// Writes some of the bytes, and returns how many the writer took.
fn put_some<W: Sink>(writer: &mut W, bytes: &[u8]) -> Result<usize, ScriptFault>
    requires working { W.failures writer.old ≡ 0 }
    requires some { 0 < length bytes.now }
    ensures ok { IfOk result (λ n. (0 < n) × (n ≤ length bytes.now)
        × (W.taken writer.new ≡ W.taken writer.old ++ take n bytes.now)) }
    ensures accepted { OnOk result ((W.failures writer.new ≡ 0)
        × (W.rejections writer.new ≡ W.rejections writer.old)) }

    // A fault has a cause, and no byte is taken by the write that gives it.
    ensures cause { OnErr result
        (IsBroken (W.failures writer.new) (W.rejections writer.new - W.rejections writer.old)) }
    ensures unchanged { OnErr result (W.taken writer.new ≡ W.taken writer.old) }
    ensures out { W.flushed writer.new ≡ W.flushed writer.old }
    ensures err { IfErr result (λ fault. fault ≡ ScriptFault.Write) }
{
    match writer.write(bytes) {
        Ok(0) => Err(ScriptFault::Write),
        Ok(n) => Ok(n),
        Err(_) => Err(ScriptFault::Write),
    }
}

/// Writes all the bytes.
pub fn put<W: Sink>(writer: &mut W, bytes: &[u8]) -> Result<(), ScriptFault>
    requires { W.failures writer.old ≡ 0 }
    ensures ok { OnOk result
        ((W.taken writer.new ≡ W.taken writer.old ++ bytes.now) × (W.failures writer.new ≡ 0)) }
    ensures accepted { OnOk result (W.rejections writer.new ≡ W.rejections writer.old) }
    ensures prefix { OnErr result
        (IsCutShort (W.taken writer.old) bytes.now (W.taken writer.new)) }
    ensures cause { OnErr result
        (IsBroken (W.failures writer.new) (W.rejections writer.new - W.rejections writer.old)) }
    ensures out { W.flushed writer.new ≡ W.flushed writer.old }
    ensures err { IfErr result (λ fault. fault ≡ ScriptFault.Write) }
{
    let mut rest = bytes;
    while !rest.is_empty() {
        let n = put_some(writer, rest)?;
        rest = &rest[n..];
    }
    Ok(())
}

/// Writes all the bytes and flushes them, so that none waits in a buffer.
pub fn deliver<W: Sink>(writer: &mut W, bytes: &[u8]) -> Result<(), ScriptFault>
    requires working { W.failures writer.old ≡ 0 }
    requires out { W.flushed writer.old ≡ W.taken writer.old }
    ensures ok { OnOk result
        ((W.taken writer.new ≡ W.taken writer.old ++ bytes.now) × (W.failures writer.new ≡ 0)) }
    ensures accepted { OnOk result (W.rejections writer.new ≡ W.rejections writer.old) }
    ensures out { OnOk result (W.flushed writer.new ≡ W.taken writer.new) }
    ensures prefix { OnErr result (BreaksOff (W.taken writer.old) bytes.now
        (writer_view W.taken W.flushed W.failures W.rejections writer.old writer.new)) }
    ensures err { IfErr result (λ fault. fault ≡ ScriptFault.Write) }
{
    if bytes.is_empty() {
        return Ok(());
    }
    put(writer, bytes)?;
    match writer.flush() {
        Ok(()) => Ok(()),
        Err(_) => Err(ScriptFault::Write),
    }
}
