//! The trait `LegalHistory` for a core, whose history is the one legal list for its events.

use crate::core_type::Core;
use pt_legal::{Applied, LegalHistory, Reply};
use pt_model::{Entry, Event};
use pt_types::{ClientId, Clock, Deadline, Outcome, Refusal};
use std::alloc::Allocator;

impl<A: Allocator + Copy> LegalHistory for Core<A> {
    ghost use Rattle.pt_legal.specs.Cores.{CoreView};

    ghost seen = { λ (c : CoreView). c };

    #[inline(always)]
    fn apply(&mut self, event: &Event) -> Result<Applied, Refusal> {
        self.apply_event(event)
    }

    fn seal(&mut self) -> Result<u64, Refusal> {
        Core::seal(self)
    }

    fn would_refuse(&self, event: &Event) -> Option<Refusal> {
        Core::would_refuse(self, event)
    }

    fn answer_since(&self, place: u64, index: usize) -> Option<Reply> {
        Core::answer_since(self, place, index)
    }

    #[inline(always)]
    fn answers_before(&self, place: u64) -> usize {
        Core::answers_before(self, place)
    }

    #[inline(always)]
    fn answer(&self, index: usize) -> Option<Reply> {
        Core::answer(self, index)
    }

    fn answer_of(&self, c: ClientId) -> Option<Reply> {
        Core::answer_of(self, c)
    }

    fn outcome(&self, place: u64) -> Option<Outcome> {
        Core::outcome(self, place)
    }

    fn least_deadline(&self, clock: Clock) -> Option<Deadline> {
        Core::least_deadline(self, clock)
    }

    fn len(&self) -> u64 {
        Core::len(self)
    }

    fn need(&self) -> u64 {
        Core::need(self)
    }

    fn first(&self) -> u64 {
        Core::first(self)
    }

    fn entry(&self, place: u64) -> Option<Entry> {
        Core::entry(self, place)
    }
}
