//! Answers: how calls are answered, and the log of all answers since the Start.

ghost use Rattle.std.specs.Prelude.{◌<◌, ◌≤◌, ◌^◌, ◌≡◌, drop, length, map, option_map, slice_get};
ghost use Rattle.std.specs.Prelude.{Some, true};
ghost use Rattle.std.specs.Bool.{OnTrue};
ghost use Rattle.pt_records.specs.Logs.{log_entry};
ghost use Rattle.pt_table.specs.ClientRows.{has_client};
ghost use Rattle.pt_state.specs.Forcing.{ClosesCall, reply_if_closed};
ghost use Rattle.pt_model.specs.Answers.{outcome as call_outcome, replies_since};
ghost use Rattle.pt_model.specs.StartRows.{start_of_rows};
ghost use Rattle.pt_state.specs.Reads.{AreTables};
ghost use Rattle.pt_model.specs.Queries.{answer_of as answer_in, answers_since};
ghost use Rattle.pt_state.specs.Adds.{history_of};

use crate::state::State;
use pt_records::answers::{
    Answered, answered_since, halved_since, outcome_since, recent_outcome, tell,
};
use pt_records::calls::close;
use pt_records::{Caller, LoggedAnswers, Open};
use pt_types::{ClientId, Outcome};
use std::alloc::Allocator;

// Returns whether the client's latest call is the one at this place.
fn is_latest(caller: &Caller, place: u64) -> bool
    ensures { OnTrue result (caller.now.latest ≡ Some place) }
{
    match caller.latest {
        Some(latest) => latest == place,
        None => false,
    }
}

impl<A: Allocator + Copy> State<A> {
    // Closes an open call and logs its answer.
    #[inline(always)]
    pub(crate) fn answer(&mut self, found: &Open, outcome: Outcome)
        requires exists { has_client self.old.clients found.now.call.client ≡ true }
        requires spare { length self.old.answers.items < self.old.answers.capacity }
        ensures { ClosesCall self.old self.new found.now outcome }
    {
        let call = found.call;
        let at = self.stored.len();
        close(&mut self.clients, call.client, outcome);
        let client = call.client;
        let place = call.place;
        tell(
            &mut self.answers,
            Answered {
                at,
                client,
                place,
                outcome,
            },
        );
    }

    /// Returns the answer to the call at a place, if it has one.  [XSH, the call's page]
    pub fn outcome(&self, place: u64) -> Option<Outcome>
        requires { AreTables self.now }
        ensures { result ≡ call_outcome (history_of self.now) place }
    {
        match outcome_since(&self.answers, place) {
            Some(outcome) => Some(outcome),
            None => self.stored.start().answer_at(place),
        }
    }

    // Returns the answer to the call at a place, if it has one. The search starts at the end of the
    // log.  [XSH, the call's page]
    #[cold]
    #[inline(never)]
    fn recent_outcome(&self, place: u64) -> Option<Outcome>
        requires { AreTables self.now }
        ensures { result ≡ call_outcome (history_of self.now) place }
    {
        match recent_outcome(&self.answers, place) {
            Some(outcome) => Some(outcome),
            None => self.stored.start().answer_at(place),
        }
    }

    /// Returns the answer to the call at a place, if it has one. If this is the client's latest
    /// call, the client's row has the answer.  [XSH, the call's page]
    #[inline(always)]
    pub fn outcome_of(&self, c: ClientId, place: u64) -> Option<Outcome>
        requires { AreTables self.now }
        ensures { result ≡ call_outcome (history_of self.now) place }
    {
        match self.clients.at(c.0) {
            Some(caller) if is_latest(caller, place) => caller.answer,
            _ => self.recent_outcome(place),
        }
    }

    /// Returns the answer to a living client's latest call, with the place of the call, if it has
    /// one.
    pub fn answer_of(&self, c: ClientId) -> Option<(u64, Outcome)>
        requires { AreTables self.now }
        ensures { reply_if_closed c result ≡ answer_in (history_of self.now) c }
    {
        let caller = self.clients.at(c.0)?;
        let place = caller.latest?;
        match caller.answer {
            Some(outcome) => Some((place, outcome)),
            None => None,
        }
    }

    /// Returns the answers that the entries from a place on gave, in order.
    pub fn answers_since(&self, place: u64) -> LoggedAnswers<'_>
        requires { AreTables self.now }
        ensures { map (λ a. (log_entry a).1) result ≡ answers_since
            (start_of_rows self.now.stored.start) place self.now.stored.entries }
    {
        self.answers.from(answered_since(&self.answers, place))
    }

    /// Returns the number of answers that the entries before a place gave. The search starts at the
    /// end of the log.
    #[inline(always)]
    pub fn answers_before(&self, place: u64) -> usize
        requires { AreTables self.now }
        ensures rest { drop result
            (replies_since (start_of_rows self.now.stored.start) self.now.stored.entries)
            ≡ answers_since (start_of_rows self.now.stored.start) place self.now.stored.entries }
        ensures within { result ≤ length
            (replies_since (start_of_rows self.now.stored.start) self.now.stored.entries) }
    {
        answered_since(&self.answers, place)
    }

    /// Returns the answer at an index among all answers since the Start, in order.
    #[inline(always)]
    pub fn answer_at(&self, index: usize) -> Option<Answered>
        requires { AreTables self.now }
        ensures value { option_map (λ a. (log_entry a).1) result ≡ slice_get
            (replies_since (start_of_rows self.now.stored.start) self.now.stored.entries) index }
        ensures within { length (replies_since
            (start_of_rows self.now.stored.start) self.now.stored.entries) < 2 ^ 64 }
    {
        if index < self.answers.len() {
            self.answers.from(index).next()
        } else {
            None
        }
    }

    /// Returns the answer at an index among those that the entries from a place on gave, in order.
    pub fn answer_since(&self, place: u64, index: usize) -> Option<Answered>
        requires { AreTables self.now }
        ensures { option_map (λ a. (log_entry a).1) result ≡ slice_get (answers_since
            (start_of_rows self.now.stored.start) place self.now.stored.entries) index }
    {
        let answers = self.answers.from(halved_since(&self.answers, place));
        answers.get(index)
    }
}
