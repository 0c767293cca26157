//! The answers and the entries that the tables have.

ghost use Rattle.std.specs.Prelude.{None, ◌+◌, ◌-◌, ◌^◌, ◌<◌, ◌≡◌, ◌≤◌, drop, length, map};
ghost use Rattle.std.specs.Prelude.{option_map, slice_get};
ghost use Rattle.pt_model.specs.Histories.{outer};
ghost use Rattle.pt_model.specs.Answers.{outcome, replies_since};
ghost use Rattle.pt_state.specs.Adds.{history_of};
ghost use Rattle.pt_model.specs.StartRows.{start_of_rows};
ghost use Rattle.pt_state.specs.Forcing.{reply_if_closed};
ghost use Rattle.pt_state.specs.Reads.{AreTables};
ghost use Rattle.pt_model.specs.Queries.{answer_of, answers_since};
ghost use Rattle.pt_records.specs.Logs.{log_entry};

use crate::machine::Machine;
use pt_model::Entry;
use pt_records::{Answered, LoggedAnswers};
use pt_types::{ClientId, Outcome};
use pt_waitq::WaitList;
use std::alloc::Allocator;

impl<Q: WaitList, A: Allocator + Copy> Machine<Q, A> {
    /// Returns the place of the next entry.
    pub fn len(&self) -> u64
        ensures { result ≡ self.now.stored.start.at + length self.now.stored.entries }
    {
        self.state.stored.len()
    }

    /// Returns the number of outer entries, including those before the history was sealed.
    pub fn outer(&self) -> u64
        ensures { result ≡ outer (history_of self.now) }
    {
        self.state.stored.outer()
    }

    /// Returns the place of the first entry since the history was last sealed.
    pub fn first(&self) -> u64
        ensures { result ≡ self.now.stored.start.at }
    {
        self.state.stored.start().at
    }

    /// Returns the entry at a place, if there is one. Places before the Start have none.
    pub fn entry(&self, place: u64) -> Option<Entry>
        ensures before { place < self.now.stored.start.at → result ≡ None }
        ensures since { self.now.stored.start.at ≤ place
            → result ≡ slice_get self.now.stored.entries (place - self.now.stored.start.at) }
    {
        self.state.stored.entry(place)
    }

    /// Returns the answer to the call at a place, if it has one.  [XSH, the call's page]
    pub fn outcome(&self, place: u64) -> Option<Outcome>
        requires { AreTables self.now }
        ensures { result ≡ outcome (history_of self.now) place }
    {
        self.state.outcome(place)
    }

    /// Returns the answer to the call at a place, if it has one. It is likely the latest call of
    /// this client.  [XSH, the call's page]
    #[inline(always)]
    pub fn outcome_of(&self, c: ClientId, place: u64) -> Option<Outcome>
        requires { AreTables self.now }
        ensures { result ≡ outcome (history_of self.now) place }
    {
        self.state.outcome_of(c, place)
    }

    /// Returns the answer to a living client's latest call, with the place of the call, if it has
    /// one.
    pub fn answer_of(&self, c: ClientId) -> Option<(u64, Outcome)>
        requires { AreTables self.now }
        ensures { reply_if_closed c result ≡ answer_of (history_of self.now) c }
    {
        self.state.answer_of(c)
    }

    /// Returns the answers that the entries from a place on gave, in order.
    pub fn answers_since(&self, place: u64) -> LoggedAnswers<'_>
        requires { AreTables self.now }
        ensures { map (λ a. (log_entry a).1) result ≡ answers_since
            (start_of_rows self.now.stored.start) place self.now.stored.entries }
    {
        self.state.answers_since(place)
    }

    /// Returns the number of answers that the entries before a place gave. The search starts at the
    /// end of the log.
    #[inline(always)]
    pub fn answers_before(&self, place: u64) -> usize
        requires { AreTables self.now }
        ensures rest { drop result
            (replies_since (start_of_rows self.now.stored.start) self.now.stored.entries)
            ≡ answers_since (start_of_rows self.now.stored.start) place self.now.stored.entries }
        ensures within { result ≤ length
            (replies_since (start_of_rows self.now.stored.start) self.now.stored.entries) }
    {
        self.state.answers_before(place)
    }

    /// Returns the answer at an index among all answers since the Start, in order.
    #[inline(always)]
    pub fn answer_at(&self, index: usize) -> Option<Answered>
        requires { AreTables self.now }
        ensures value { option_map (λ a. (log_entry a).1) result ≡ slice_get
            (replies_since (start_of_rows self.now.stored.start) self.now.stored.entries) index }
        ensures within { length (replies_since
            (start_of_rows self.now.stored.start) self.now.stored.entries) < 2 ^ 64 }
    {
        self.state.answer_at(index)
    }

    /// Returns the answer at an index among those that the entries from a place on gave, in order.
    pub fn answer_since(&self, place: u64, index: usize) -> Option<Answered>
        requires { AreTables self.now }
        ensures { option_map (λ a. (log_entry a).1) result ≡ slice_get (answers_since
            (start_of_rows self.now.stored.start) place self.now.stored.entries) index }
    {
        self.state.answer_since(place, index)
    }
}
