//! How a line is answered by what follows its client.

ghost use Rattle.std.specs.Prelude.{◌≡◌, ◌<◌, List, ℕ, Ok, OnOk, IfErr, IfSome};
ghost use Rattle.std.specs.Option.{option_copied};
ghost use Rattle.pt_grammar.specs.Script.{body_read};

use crate::engine::Engine;
use crate::fault::ScriptFault;
use crate::line_id::LineId;
use crate::output::refuse;
use pt_legal::LegalHistory;
use pt_lines::{
    ScriptBody, Who, barrier_init_at_start, moment_at_start, mutex_init_at_start, named_at_start,
    read_script_body, timed_at_start, timedwait_at_start, wait_at_start,
};
use pt_types::{Call, ClientId, Clock, MAX_LINE_LENGTH, Name, Refusal};
use std::alloc::Allocator;

// Returns the call of a client's line, if what follows the client begins like one that is frequent.
// Calls of one name, which are the most frequent, are not among these.
fn frequent_call(rest: &[u8]) -> Option<Call>
    ensures { IfSome result (λ call. (name : List ℕ)
        → body_read (Who.Named name) rest.now ≡ Ok (ScriptBody.Ask call)) }
{
    match (rest.first(), rest.get(6)) {
        (Some(b'w'), _) => {
            if let Some((cond, mutex)) = wait_at_start(rest)
                && let Some(cond) = Name::new(cond)
                && let Some(mutex) = Name::new(mutex)
            {
                return Some(Call::Wait(cond, mutex));
            }
        }
        (Some(b't'), Some(b'a')) => {
            if let Some(parsed) = timedwait_at_start(rest) {
                return parsed;
            }
        }
        (Some(b't'), _) => {
            if let Some(parsed) = timed_at_start(rest)
                && let Some(name) = Name::new(parsed.1)
            {
                return Some(parsed.0.on(name, parsed.2));
            }
        }
        (Some(b'm'), _) => {
            if let Some(parsed) = mutex_init_at_start(rest)
                && let Some(name) = Name::new(parsed.0)
            {
                return Some(Call::MutexInit(name, parsed.1, parsed.2));
            }
        }
        (Some(b'b'), _) => {
            if let Some(parsed) = barrier_init_at_start(rest)
                && let Some(name) = Name::new(parsed.0)
            {
                return Some(Call::BarrierInit(name, parsed.1));
            }
        }
        _ => {}
    }
    None
}

impl<C: LegalHistory, A: Allocator + Copy> Engine<C, A> {
    ghost use Rattle.pt_grammar.specs.Script.{body_after};
    ghost use Rattle.pt_engine.specs.Scripts.{event_of_body, lines_of_who, number_of_who};
    ghost use Rattle.pt_engine.specs.LineAnswers.{AnswersRequest};
    ghost use Rattle.pt_engine.specs.Engines.{Appends, as_script};

    // Answers a counted line by what follows its client and a space. It isn't inlined, so that
    // calls of one name need not clear space for it.
    #[inline(never)]
    fn answer_any(
        &mut self,
        line: &LineId,
        client: Option<ClientId>,
        rest: &[u8],
        out: &mut Vec<u8, A>,
    ) -> Result<(), ScriptFault>
        requires counted { 0 < lines_of_who self.old.seen line.now.who }
        requires client { client ≡ number_of_who self.old.clients line.now.who }
        ensures ok { OnOk result (Appends (AnswersRequest (as_script self.old) line.now
            (event_of_body (as_script self.old) line.now.who (body_read line.now.who rest.now))
            (as_script self.new)) out.old.items out.new.items) }
        ensures err { IfErr result (λ fault. fault ≡ ScriptFault.Memory) }
    {
        if let Who::Named(_) = line.who
            && let Some(call) = frequent_call(rest)
        {
            return self.ask(line, client, call, out);
        }
        if let Who::Star = line.who
            && let Some(moment) = moment_at_start(rest)
        {
            return self.tick(Clock::Real, moment, line, out);
        }
        match read_script_body(&line.who, rest) {
            Ok(body) => self.answer_body(line, client, body, out),
            Err(refusal) => refuse(out, line, refusal),
        }
    }

    // Answers a counted line by what follows its client and a space, if a space follows it. Most
    // lines are calls of one name: these are recognised first, and moved only once.
    #[inline(always)]
    pub(crate) fn answer_rest(
        &mut self,
        line: &LineId,
        client: Option<ClientId>,
        rest: Option<&[u8]>,
        out: &mut Vec<u8, A>,
    ) -> Result<(), ScriptFault>
        requires counted { 0 < lines_of_who self.old.seen line.now.who }
        requires client { client ≡ number_of_who self.old.clients line.now.who }
        ensures ok { OnOk result (Appends (AnswersRequest (as_script self.old) line.now
            (event_of_body (as_script self.old) line.now.who
            (body_after line.now.who (option_copied rest.entry)))
            (as_script self.new)) out.old.items out.new.items) }
        ensures err { IfErr result (λ fault. fault ≡ ScriptFault.Memory) }
    {
        let Some(rest) = rest else {
            return refuse(out, line, Refusal::Syntax);
        };
        if let Who::Named(_) = line.who
            && let Some((verb, name)) = named_at_start(rest)
        {
            if let Some(name) = Name::new(name) {
                return self.ask(line, client, verb.call(name), out);
            }
            if rest.len() <= MAX_LINE_LENGTH {
                return refuse(out, line, Refusal::Syntax);
            }
        }
        self.answer_any(line, client, rest, out)
    }
}
