//! A session's client and clock, with the lines that were submitted for them.

ghost use Rattle.std.specs.Prelude.{◌≡◌, ◌++◌, ◌∷◌, [], option_map, true};
ghost use Rattle.pt_session.specs.Retained.{moments_by, settled, settled_clock};
ghost use Rattle.pt_session.specs.Transcripts.{IsLeftOf, IsTranscript, all_answered, moments_in};

use crate::handle::SessionHandle;
use crate::kinds::{Reading, Retention};
use crate::line_source::Lines;
use crate::reading_thread::Joins;
use crate::transcript::Transcript;
use pt_hub::{ClockPass, Left, Pass};
use pt_io::Source;
use pt_legal::LegalHistory;
use pt_lines::Word;
use std::marker::Model;
use std::snapshot::Snapshot;
use std::sync::Wait;
use std::sync::ledger::Ledger;

/// A session's client, if a hello was accepted, with its clock and the lines submitted for them.
#[derive(Drop)]
pub(crate) struct SessionState<L: Ledger> {
    retention: Retention,
    pass: Option<Pass<L>>,
    clock: ClockPass<L>,
    transcript: Transcript,
}

impl<L: Ledger> Model for SessionState<L> {
    ghost use Rattle.pt_session.specs.Transcripts.{SessionState as Seen, IsSessionState};

    ghost Value = { Seen };

    ghost view = { λ d. record {
      retention = d.retention;
      pass = d.pass;
      clock = d.clock;
      exchanges = d.transcript;
    } };

    ghost invariant = { λ d. IsSessionState (record {
      retention = d.retention;
      pass = d.pass;
      clock = d.clock;
      exchanges = d.transcript;
    }) };
}

/// What remains of a session's client and clock at the end, with the lines.
#[derive(Drop)]
pub(crate) struct Remains<L: Ledger> {
    pub left: Option<Left<L>>,
    pub clock: ClockPass<L>,
    pub transcript: Transcript,
}

impl<L: Ledger + Send + Sync> SessionState<L> {
    ghost use Rattle.std.specs.Prelude.{◌≡◌, ◌++◌, ◌∷◌, [], option_map, true};
    ghost use Rattle.pt_session.specs.Retained.{moments_by, settled, settled_clock};
    ghost use Rattle.pt_session.specs.Transcripts.{IsLeftOf, IsTranscript, all_answered};
    ghost use Rattle.pt_session.specs.Transcripts.{moments_in};
    ghost use Rattle.pt_session.specs.Sources.{HasTakenNothing};

    /// Creates the dealings of a session that has submitted no line yet.
    pub fn new(clock: ClockPass<L>, retention: Retention) -> SessionState<L>
        requires { moments_by retention clock ≡ [] }
        ensures exchanges { result.exchanges ≡ [] }
        ensures retention { result.retention ≡ retention }
    {
        SessionState {
            retention,
            pass: None,
            clock,
            transcript: Transcript::new(),
        }
    }

    // Discards what is not retained of the client and of the clock, once all calls are answered.
    fn settle(&mut self)
        ensures { self.new ≡ record self.old {
          pass = option_map (settled self.old.retention) self.old.pass;
          clock = settled_clock self.old.retention self.old.clock;
        } }
    {
        if let Some(pass) = &mut self.pass {
            self.retention.settle(pass);
        }
        self.retention.settle_clock(&mut self.clock);
    }

    /// Submits a line, and returns its word. Returns `None` if its call is open when the input
    /// ends. First discards what is not retained of the lines before, which are all answered.
    pub fn submit<
        's,
        E,
        C: LegalHistory + Send + 's,
        R: Source + Send + Drop + 's,
        T: Wait + Sync + 's,
        J: Joins + Drop,
    >(&mut self, lines: &mut Lines<'_, 's, E, R, C, L, T, J>, line: Reading) -> Option<Word>
        requires { all_answered self.old.exchanges ≡ true }
        ensures exchanges { self.new.exchanges ≡ self.old.exchanges ++ (line, result) ∷ [] }
        ensures retention { self.new.retention ≡ self.old.retention }
        ensures lines { HasTakenNothing lines.old lines.new }
    {
        self.settle();
        let noted = Snapshot::of(&line);
        let word = lines.handle_line(&mut self.pass, &mut self.clock, line);
        self.transcript = self.transcript.and(&noted, word);
        word
    }

    /// Lets the client die, if there is one, and returns what remains.
    pub fn end<C: LegalHistory, T: Wait>(self, handle: &SessionHandle<'_, C, L, T>) -> Remains<L>
        ensures words { IsTranscript result.transcript }
        ensures left { IsLeftOf self.retention result.transcript result.left }
        ensures clock { moments_by self.retention result.clock ≡ moments_in result.transcript }
        ensures exchanges { result.transcript ≡ self.exchanges }
    {
        let SessionState {
            pass,
            clock,
            transcript,
            ..
        } = self;
        let left = match pass {
            Some(pass) => Some(handle.shared.die(handle.rt, pass)),
            None => None,
        };
        handle.shared.part(handle.rt, handle.session);
        Remains {
            left,
            clock,
            transcript,
        }
    }
}
