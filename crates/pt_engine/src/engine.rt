ghost use Rattle.std.specs.Prelude.{◌≡◌, ◌<◌, ◌+◌, ◌^◌, [], length, None, OnOk, IfErr};
ghost use Rattle.pt_engine.specs.declared.mark.Mark.{Mark};

use crate::commit::{Calls, greet, note, write_replies_from};
use crate::fault::ScriptFault;
use crate::line_id::LineId;
use crate::mark::{Mark, mark_of};
use crate::names::{CountedLine, Names};
use crate::output::refuse;
use crate::pending_lines::PendingLines;
use http_server::Log;
use pt_legal::LegalHistory;
use pt_lines::{ClientName, ScriptBody, ScriptLine, Who, read_client};
use pt_model::Event;
use pt_types::{Call, ClientId, Clock, Moment, Priority, Refusal};
use std::alloc::{Allocator, Global};
use std::marker::Model;

/// The limit of the core that an engine is given: the entries of a script's history between two
/// seals, with the room reserved for what must follow.
///
/// It is more than any event may need. A script shows no entry, so it needs no more of them, and
/// this many entries fit into the caches of a processor.  [profile]
pub const ENTRIES_BETWEEN_SEALS: u32 = 65_536;

/// The clients of a script, the lines that they sent, and the core that answers them.
///
/// One line is stored for each client: that of its latest call that had to wait, since no other can
/// still be answered. Contracts see what is known after the lines so far, including the lines of
/// all calls. The history is sealed for an event that needs the room, so the core never has more
/// than 65,536 entries, however many lines come.
pub struct Engine<C: LegalHistory, A: Allocator + Copy = Global> {
    core: C,
    names: Names<A>,
    pending: PendingLines<A>,
    calls: Calls,
}

impl<C: LegalHistory, A: Allocator + Copy> Model for Engine<C, A> {
    ghost use Rattle.pt_legal.specs.Cores.{history_of, core_state};
    ghost use Rattle.pt_engine.specs.Engines.{AreLines, EngineView, IsSound};

    ghost Value = { EngineView };

    ghost view = { λ e. record {
      core = C.seen e.core;
      seen = e.names.seen;
      clients = e.names.clients;
      calls = e.calls.items;
    } };

    ghost invariant = { λ e. IsSound (core_state (C.seen e.core))
        × AreLines e.pending.entries e.calls.items (history_of (core_state (C.seen e.core))) };
}

// Not derived, so that code that drops an engine proves nothing of its parts.
impl<C: LegalHistory, A: Allocator + Copy> Drop for Engine<C, A> {
    fn drop(self) {
        let Engine {
            core: _,
            names: _,
            pending: _,
            calls: _,
        } = self;
    }
}

impl<C: LegalHistory, A: Allocator + Copy> Engine<C, A> {
    ghost use Rattle.pt_model.specs.Starts.{empty_start};
    ghost use Rattle.pt_model.specs.Histories.{place};
    ghost use Rattle.pt_model.specs.Clients.{is_alive};
    ghost use Rattle.pt_grammar.specs.Script.{short_read};
    ghost use Rattle.pt_legal.specs.Cores.{history_of, core_state};
    ghost use Rattle.pt_engine.specs.Scripts.{empty_script, core_of, event_for, event_of_line};
    ghost use Rattle.pt_engine.specs.Scripts.{join_for};
    ghost use Rattle.pt_engine.specs.Scripts.{entries_between_seals};
    ghost use Rattle.pt_engine.specs.Scripts.{lines_of_who, number_of_who, line_of_client};
    ghost use Rattle.pt_engine.specs.Scripts.{refusal_of_hello};
    ghost use Rattle.pt_engine.specs.LineAnswers.{AnswersLine, AnswersEvent, AnswersRequest};
    ghost use Rattle.pt_engine.specs.LineAnswers.{refusal_of_event};
    ghost use Rattle.pt_engine.specs.Engines.{Appends, as_script, mark_of};

    /// Creates an engine over an empty core. It has read no line.
    pub fn new(core: C, alloc: A) -> Engine<C, A>
        requires { core_state (C.seen core)
            ≡ record { start = empty_start; entries = []; limit = entries_between_seals } }
        ensures { as_script result ≡ empty_script }
    {
        Engine {
            core,
            names: Names::new(alloc),
            pending: PendingLines::new(alloc),
            calls: Log::new(),
        }
    }

    /// Returns the number of lines that came.
    pub fn lines(&self) -> u64
        ensures { result ≡ length self.now.seen }
    {
        self.names.total()
    }

    /// Returns the place of the next entry.
    pub fn entries(&self) -> u64
        ensures { result ≡ place (history_of (core_of (as_script self.now))) }
    {
        self.core.len()
    }

    // Returns whether this client lives. The Death of a client that doesn't live is refused for
    // that alone.
    fn lives(&self, client: ClientId) -> bool
        ensures { result ≡ is_alive (history_of (core_of (as_script self.now))) client }
    {
        match self.core.would_refuse(&Event::Death(client)) {
            Some(Refusal::Dead | Refusal::Nohello) => false,
            _ => true,
        }
    }

    // Returns why a hello is refused under a name with which this client joined.
    fn refusal_of_hello(&self, client: ClientId) -> Refusal
        ensures { result ≡ refusal_of_hello (history_of (core_of (as_script self.now))) client }
    {
        if self.lives(client) {
            Refusal::Nohello
        } else {
            Refusal::Dead
        }
    }

    // Does what a counted line asks for, and appends its answer. The mark is the event's.
    #[inline(always)]
    fn run_marked(
        &mut self,
        event: &Event,
        mark: &Mark,
        line: &LineId,
        out: &mut Vec<u8, A>,
    ) -> Result<(), ScriptFault>
        requires mark { mark.now ≡ mark_of event.now }
        requires counted { 0 < lines_of_who self.old.seen line.now.who }
        requires first { mark.now ≡ Mark.Client → number_of_who self.old.clients line.now.who
            ≡ None }
        ensures ok { OnOk result
            (Appends (AnswersEvent (as_script self.old) event.now line.now (as_script self.new))
            out.old.items out.new.items) }
        ensures err { IfErr result (λ fault. fault ≡ ScriptFault.Memory) }
    {
        self.pending.reserve()?;
        match self.core.apply(event) {
            Ok(done) => {
                note(
                    &mut self.names,
                    &mut self.pending,
                    &mut self.calls,
                    mark,
                    line,
                    &done,
                )?;
                greet(out, mark, line)?;
                write_replies_from(out, &self.core, &self.pending, mark, line, &done)?;
                Ok(())
            }
            Err(refusal) => {
                refuse(out, line, refusal)?;
                Ok(())
            }
        }
    }

    // Does what a counted line asks for, and appends its answer.
    #[inline(never)]
    pub(crate) fn run(
        &mut self,
        event: &Event,
        line: &LineId,
        out: &mut Vec<u8, A>,
    ) -> Result<(), ScriptFault>
        requires counted { 0 < lines_of_who self.old.seen line.now.who }
        requires first { mark_of event.now ≡ Mark.Client
            → number_of_who self.old.clients line.now.who ≡ None }
        ensures ok { OnOk result
            (Appends (AnswersEvent (as_script self.old) event.now line.now (as_script self.new))
            out.old.items out.new.items) }
        ensures err { IfErr result (λ fault. fault ≡ ScriptFault.Memory) }
    {
        self.run_marked(event, &mark_of(event), line, out)
    }

    // Does what a counted line of this client asks for, which is a call, and appends its answer.
    // Most lines are of this kind.
    #[inline(always)]
    fn run_call(
        &mut self,
        event: &Event,
        client: ClientId,
        line: &LineId,
        out: &mut Vec<u8, A>,
    ) -> Result<(), ScriptFault>
        requires mark { mark_of event.now ≡ Mark.Call client }
        requires counted { 0 < lines_of_who self.old.seen line.now.who }
        ensures ok { OnOk result
            (Appends (AnswersEvent (as_script self.old) event.now line.now (as_script self.new))
            out.old.items out.new.items) }
        ensures err { IfErr result (λ fault. fault ≡ ScriptFault.Memory) }
    {
        self.run_marked(event, &Mark::Call(client), line, out)
    }

    // Does what a counted line of the clocks says, which is a clock's reading, and appends its
    // answers.
    pub(crate) fn tick(
        &mut self,
        clock: Clock,
        moment: Moment,
        line: &LineId,
        out: &mut Vec<u8, A>,
    ) -> Result<(), ScriptFault>
        requires counted { 0 < lines_of_who self.old.seen line.now.who }
        ensures ok { OnOk result
            (Appends (AnswersEvent (as_script self.old) (Event.Moment clock moment) line.now
            (as_script self.new)) out.old.items out.new.items) }
        ensures err { IfErr result (λ fault. fault ≡ ScriptFault.Memory) }
    {
        self.run_marked(&Event::Moment(clock, moment), &Mark::Nothing, line, out)
    }

    // Answers a hello. The client is the one that joined under the line's name, if one did.
    #[tactic(auto, using(crate::proofs::Lines::says_refused))]
    fn hello(
        &mut self,
        line: &LineId,
        client: Option<ClientId>,
        priority: Priority,
        out: &mut Vec<u8, A>,
    ) -> Result<(), ScriptFault>
        requires counted { 0 < lines_of_who self.old.seen line.now.who }
        requires client { client ≡ number_of_who self.old.clients line.now.who }
        ensures ok { OnOk result (Appends (AnswersRequest (as_script self.old) line.now
            (join_for (history_of (core_of (as_script self.old))) priority client)
            (as_script self.new)) out.old.items out.new.items) }
        ensures err { IfErr result (λ fault. fault ≡ ScriptFault.Memory) }
    {
        match client {
            None => self.run(&Event::Join(priority), line, out),
            Some(client) => refuse(out, line, self.refusal_of_hello(client)),
        }
    }

    // Answers a call. The client is the one that joined under the line's name, if one did.
    #[inline(always)]
    #[tactic(auto, using(crate::proofs::Lines::says_refused))]
    pub(crate) fn ask(
        &mut self,
        line: &LineId,
        client: Option<ClientId>,
        call: Call,
        out: &mut Vec<u8, A>,
    ) -> Result<(), ScriptFault>
        requires counted { 0 < lines_of_who self.old.seen line.now.who }
        ensures ok { OnOk result (Appends (AnswersRequest (as_script self.old) line.now
            (line_of_client (λ c. Event.Call c call) client)
            (as_script self.new)) out.old.items out.new.items) }
        ensures err { IfErr result (λ fault. fault ≡ ScriptFault.Memory) }
    {
        match client {
            Some(client) => self.run_call(&Event::Call(client, call), client, line, out),
            None => refuse(out, line, Refusal::Nohello),
        }
    }

    // Answers the end of a client's process.
    #[tactic(auto, using(crate::proofs::Lines::says_refused))]
    fn die(
        &mut self,
        line: &LineId,
        client: Option<ClientId>,
        out: &mut Vec<u8, A>,
    ) -> Result<(), ScriptFault>
        requires counted { 0 < lines_of_who self.old.seen line.now.who }
        ensures ok { OnOk result (Appends (AnswersRequest (as_script self.old) line.now
            (line_of_client (λ c. Event.Death c) client)
            (as_script self.new)) out.old.items out.new.items) }
        ensures err { IfErr result (λ fault. fault ≡ ScriptFault.Memory) }
    {
        match client {
            Some(client) => self.run(&Event::Death(client), line, out),
            None => refuse(out, line, Refusal::Nohello),
        }
    }

    // Does what a counted line says, and appends its answer. The client is the one that joined
    // under the line's name, if one did.
    #[tactic(auto, using(crate::proofs::Lines::says_refused))]
    pub(crate) fn answer_body(
        &mut self,
        line: &LineId,
        client: Option<ClientId>,
        body: ScriptBody,
        out: &mut Vec<u8, A>,
    ) -> Result<(), ScriptFault>
        requires counted { 0 < lines_of_who self.old.seen line.now.who }
        requires client { client ≡ number_of_who self.old.clients line.now.who }
        ensures ok { OnOk result (Appends (AnswersRequest (as_script self.old) line.now
            (event_for (as_script self.old) line.now.who body)
            (as_script self.new)) out.old.items out.new.items) }
        ensures err { IfErr result (λ fault. fault ≡ ScriptFault.Memory) }
    {
        match (&line.who, body) {
            (Who::Named(_), ScriptBody::Hello(priority)) => self.hello(line, client, priority, out),
            (Who::Named(_), ScriptBody::Ask(call)) => self.ask(line, client, call, out),
            (Who::Named(_), ScriptBody::Die) => self.die(line, client, out),
            (Who::Star, ScriptBody::Tick(clock, moment)) => {
                self.run(&Event::Moment(clock, moment), line, out)
            }
            _ => refuse(out, line, Refusal::Syntax),
        }
    }

    /// Returns the core, whose entries say what came of the lines.
    pub fn core(&self) -> &C
        ensures { C.seen result.now ≡ self.now.core }
    {
        &self.core
    }

    /// Returns the clients in the order of their joins, each with its name and its number.
    pub fn clients(&self) -> &[(ClientName, ClientId)]
        ensures { result.now ≡ self.now.clients }
    {
        self.names.clients()
    }

    /// Returns the event that a line would ask for, or why it would ask for none. Counts nothing.
    pub fn event_of(&self, line: ScriptLine) -> Result<Event, Refusal>
        ensures { result ≡ event_of_line (as_script self.now) line }
    {
        let ScriptLine { who, body } = line;
        let client = self.names.client_of(&who);
        match (&who, client, body?) {
            (Who::Named(_), None, ScriptBody::Hello(priority)) => Ok(Event::Join(priority)),
            (Who::Named(_), Some(c), ScriptBody::Hello(_)) => Err(self.refusal_of_hello(c)),
            (Who::Named(_), Some(c), ScriptBody::Ask(call)) => Ok(Event::Call(c, call)),
            (Who::Named(_), Some(c), ScriptBody::Die) => Ok(Event::Death(c)),
            (Who::Named(_), None, ScriptBody::Ask(_)) => Err(Refusal::Nohello),
            (Who::Named(_), None, ScriptBody::Die) => Err(Refusal::Nohello),
            (Who::Star, _, ScriptBody::Tick(clock, moment)) => Ok(Event::Moment(clock, moment)),
            _ => Err(Refusal::Syntax),
        }
    }

    /// Returns why an event would be refused for a reason other than lack of memory.  [profile]
    pub fn would_refuse(&self, event: &Event) -> Option<Refusal>
        ensures { result ≡ refusal_of_event (as_script self.now) event.now }
    {
        self.core.would_refuse(event)
    }

    /// Counts a line, does what it asks for, and appends its answer. A refused growth for which the
    /// line is not answered ENOMEM is a fault.
    #[inline(never)]
    pub fn answer(&mut self, line: ScriptLine, out: &mut Vec<u8, A>) -> Result<(), ScriptFault>
        requires { length self.old.seen < 2 ^ 53 }
        ensures ok { OnOk result
            (Appends (AnswersLine (as_script self.old) line (as_script self.new))
            out.old.items out.new.items) }
        ensures err { IfErr result (λ fault. fault ≡ ScriptFault.Memory) }
    {
        let CountedLine { number, client } = self.names.count(&line.who)?;
        let ScriptLine { who, body } = line;
        let line = LineId { who, number };
        match body {
            Ok(body) => self.answer_body(&line, client, body, out),
            Err(refusal) => refuse(out, &line, refusal),
        }
    }

    // Answers the line in a text that is not too long, as `answer` does.
    #[inline(always)]
    pub(crate) fn answer_text(
        &mut self,
        text: &[u8],
        out: &mut Vec<u8, A>,
    ) -> Result<(), ScriptFault>
        requires { length self.old.seen < 2 ^ 53 }
        ensures ok { OnOk result
            (Appends (AnswersLine (as_script self.old) (short_read text.now) (as_script self.new))
            out.old.items out.new.items) }
        ensures err { IfErr result (λ fault. fault ≡ ScriptFault.Memory) }
    {
        let (who, rest) = read_client(text);
        let mut line = LineId { who, number: 0 };
        let CountedLine { number, client } = self.names.count(&line.who)?;
        line.number = number;
        self.answer_rest(&line, client, rest, out)
    }
}
