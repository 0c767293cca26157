ghost use Rattle.std.specs.Prelude.{◌≡◌, ◌≤◌, ◌+◌, ◌++◌, length, vec_len, vec_capacity, IsOk, OnOk};
ghost use Rattle.std.specs.Prelude.{IfErr, Some};
ghost use Rattle.std.specs.Option.{option_copied};
ghost use Rattle.pt_lines.specs.Replies.{reply_line};
ghost use Rattle.pt_engine.specs.Engines.{latest_line, latest_text, own_first, own_text};
ghost use Rattle.pt_engine.specs.Scripts.{refusal_text, reply_text};

use crate::answers::Answers;
use crate::fault::ScriptFault;
use crate::line_id::LineId;
use crate::mark::Mark;
use crate::pending_lines::PendingLines;
use pt_legal::{LegalHistory, Reply};
use pt_lines::{Word, write_reply};
use pt_types::{ClientId, Outcome, Refusal};
use std::alloc::Allocator;

/// Appends the answer to a line.
#[inline(always)]
pub fn tell<A: Allocator + Copy>(
    out: &mut Vec<u8, A>,
    line: &LineId,
    word: Word,
) -> Result<(), ScriptFault>
    ensures ok { OnOk result (out.new.items
        ≡ out.old.items ++ reply_line (Some line.now.who) line.now.number word) }
    ensures err { IfErr result (λ fault. fault ≡ ScriptFault.Memory) }

    // An answer that the buffer has room for is never refused.
    ensures succeeds_if { vec_len out.old + length (reply_line
        (Some line.now.who) line.now.number word)
        ≤ vec_capacity out.old → IsOk result }
{
    match write_reply(out, Some(&line.who), line.number, word) {
        Ok(()) => Ok(()),
        Err(_) => Err(ScriptFault::Memory),
    }
}

/// Appends the refusal of a line.
pub fn refuse<A: Allocator + Copy>(
    out: &mut Vec<u8, A>,
    line: &LineId,
    refusal: Refusal,
) -> Result<(), ScriptFault>
    ensures ok { OnOk result (out.new.items ≡ out.old.items ++ refusal_text line.now refusal) }
    ensures err { IfErr result (λ fault. fault ≡ ScriptFault.Memory) }
{
    tell(out, line, Word::Refusal(refusal))
}

// Returns the line that is stored for a client. The line of a call that is just being noted is
// already at hand.
#[inline(always)]
fn line_of<'a, A: Allocator + Copy>(
    pending: &'a PendingLines<A>,
    mark: &Mark,
    line: &'a LineId,
    client: ClientId,
) -> Option<&'a LineId>
    ensures { option_copied result
        ≡ latest_line (own_first mark.now line.now pending.now.entries) client }
{
    match mark {
        Mark::Call(caller) if *caller == client => Some(line),
        _ => pending.get(client),
    }
}

// Appends an answer of the core, under the line that made the call.
#[inline(always)]
fn write_one_reply<A: Allocator + Copy>(
    out: &mut Vec<u8, A>,
    pending: &PendingLines<A>,
    mark: &Mark,
    line: &LineId,
    reply: &Reply,
) -> Result<(), ScriptFault>
    ensures ok { OnOk result (out.new.items ≡ out.old.items
        ++ reply_text (latest_line (own_first mark.now line.now pending.now.entries)
        reply.now.client) reply.now.outcome) }
    ensures err { IfErr result (λ fault. fault ≡ ScriptFault.Memory) }
{
    match line_of(pending, mark, line, reply.client) {
        Some(line) => tell(out, line, Word::Outcome(reply.outcome)),
        None => Ok(()),
    }
}

/// Appends the answer to the event's own call, if it has one.
#[inline(always)]
pub fn write_own_reply<A: Allocator + Copy>(
    out: &mut Vec<u8, A>,
    mark: &Mark,
    line: &LineId,
    outcome: Option<Outcome>,
) -> Result<(), ScriptFault>
    ensures ok { OnOk result
        (out.new.items ≡ out.old.items ++ own_text mark.now line.now outcome) }
    ensures err { IfErr result (λ fault. fault ≡ ScriptFault.Memory) }
{
    match (mark, outcome) {
        (Mark::Call(_), Some(outcome)) => tell(out, line, Word::Outcome(outcome)),
        _ => Ok(()),
    }
}

/// Appends answers of the core, each under the line that made the call. The line of a call that is
/// just being noted is at hand, so it is not looked up.
#[inline(always)]
#[tactic(auto, using(crate::proofs::Texts::latest_next))]
pub fn write_all_replies<'a, C: LegalHistory, A: Allocator + Copy>(
    out: &mut Vec<u8, A>,
    pending: &'a PendingLines<A>,
    mark: &'a Mark,
    line: &'a LineId,
    mut answers: Answers<'a, C>,
) -> Result<(), ScriptFault>
    ensures ok { OnOk result (out.new.items ≡ out.old.items
        ++ latest_text (own_first mark.now line.now pending.now.entries) answers.entry) }
    ensures err { IfErr result (λ fault. fault ≡ ScriptFault.Memory) }
{
    while let Some(reply) = answers.next() {
        write_one_reply(out, pending, mark, line, &reply)?;
    }
    Ok(())
}
