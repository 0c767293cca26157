//! What is stored and written for an accepted line.

ghost use Rattle.std.specs.Prelude.{◌≡◌, ◌<◌, ◌++◌, None, true, OnOk, IfErr};
ghost use Rattle.pt_model.specs.Queries.{answers_since};
ghost use Rattle.pt_legal.specs.Cores.{core_state};
ghost use Rattle.pt_engine.specs.Scripts.{lines_of_who, number_of_who};
ghost use Rattle.pt_engine.specs.Engines.{clients_marked, calls_marked, greeting_marked};
ghost use Rattle.pt_engine.specs.Engines.{latest_text, own_answers, own_first, StoresPendingLine};

use crate::answers::Answers;
use crate::fault::ScriptFault;
use crate::line_id::LineId;
use crate::mark::Mark;
use crate::names::Names;
use crate::output::{tell, write_all_replies, write_own_reply};
use crate::pending_lines::PendingLines;
use http_server::Log;
use pt_legal::{Applied, LegalHistory};
use pt_lines::Word;
use pt_types::{ClientId, Outcome};
use std::alloc::Allocator;

/// The line that made the call at each place. It exists for proofs alone and takes no memory.
pub type Calls = Log<u64, LineId>;

/// Notes an accepted line, whose event was applied. The line is stored for its client if its call
/// waits, since later answers are only to calls that wait. A refused growth is a fault.
#[inline(always)]
pub fn note<A: Allocator + Copy>(
    names: &mut Names<A>,
    pending: &mut PendingLines<A>,
    calls: &mut Calls,
    mark: &Mark,
    line: &LineId,
    done: &Applied,
) -> Result<(), ScriptFault>
    requires room { 0 < pending.old.room }
    requires counted { 0 < lines_of_who names.old.seen line.now.who }
    requires first { mark.now ≡ Mark.Client → number_of_who names.old.clients line.now.who ≡ None }
    ensures names { OnOk result (names.new ≡ record names.old {
      clients = clients_marked mark.now line.now.who done.now.first names.old.clients;
    }) }
    ensures pending { StoresPendingLine done.now.outcome mark.now line.now
        pending.old.entries pending.new.entries }
    ensures calls { calls.new.items
        ≡ calls_marked mark.now line.now done.now.first calls.old.items }
    ensures err { IfErr result (λ fault. fault ≡ ScriptFault.Memory) }
{
    match mark {
        Mark::Client => names.join(&line.who, ClientId(done.first))?,
        Mark::Call(client) => {
            if done.outcome.is_none() {
                pending.store(*client, line);
            }
            *calls = calls.and(&done.first, line);
        }
        Mark::Nothing => {}
    }
    Ok(())
}

/// Answers 0 to an accepted hello.
#[inline(always)]
pub fn greet<A: Allocator + Copy>(
    out: &mut Vec<u8, A>,
    mark: &Mark,
    line: &LineId,
) -> Result<(), ScriptFault>
    ensures ok { OnOk result (out.new.items ≡ out.old.items ++ greeting_marked mark.now line.now) }
    ensures err { IfErr result (λ fault. fault ≡ ScriptFault.Memory) }
{
    match mark {
        Mark::Client => tell(out, line, Word::Outcome(Outcome::Done)),
        Mark::Call(_) | Mark::Nothing => Ok(()),
    }
}

/// Appends the answers that an event gave. The mark and the line are the event's. If the event is
/// known to have answered its own call alone, or none, its answers need not be looked for. This is
/// also known if no entry followed its own.
#[inline(always)]
#[tactic(auto, using(crate::proofs::CallerOnly::own_reply_text))]
pub fn write_replies_from<'a, C: LegalHistory, A: Allocator + Copy>(
    out: &mut Vec<u8, A>,
    core: &'a C,
    pending: &'a PendingLines<A>,
    mark: &'a Mark,
    line: &'a LineId,
    done: &'a Applied,
) -> Result<(), ScriptFault>
    requires only { done.now.only_caller ≡ true
        → answers_since (core_state (C.seen core.now)).start done.now.first
        (C.seen core.now).entries
        ≡ own_answers mark.now done.now.first done.now.outcome }
    requires only_entry { done.now.last ≡ done.now.first
        → answers_since (core_state (C.seen core.now)).start done.now.first
        (C.seen core.now).entries
        ≡ own_answers mark.now done.now.first done.now.outcome }
    ensures ok { OnOk result (out.new.items ≡ out.old.items
        ++ latest_text (own_first mark.now line.now pending.now.entries)
        (answers_since (core_state (C.seen core.now)).start done.now.first
        (C.seen core.now).entries)) }
    ensures err { IfErr result (λ fault. fault ≡ ScriptFault.Memory) }
{
    if done.only_caller || done.last == done.first {
        return write_own_reply(out, mark, line, done.outcome);
    }
    write_all_replies(out, pending, mark, line, Answers::since(core, done.first))
}
