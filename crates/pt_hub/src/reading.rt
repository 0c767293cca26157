//! What is read of a hub's history.

ghost use Rattle.std.specs.Prelude.{◌≡◌, ◌≤◌, ◌<◌, ◌-◌, None, Some, option_map, slice_get, IfSome};
ghost use Rattle.pt_model.specs.Queries.{answers_since};
ghost use Rattle.pt_legal.specs.Replies.{reply_view};
ghost use Rattle.pt_hub.specs.AnsweringCores.{hub_core, seen_at};

use crate::hub::Hub;
use pt_cells::Seen;
use pt_legal::{LegalHistory, Reply};
use pt_model::Entry;
use std::alloc::Allocator;
use std::sync::ledger::Ledger;

impl<C: LegalHistory, L: Ledger, A: Allocator + Copy> Hub<C, L, A> {
    /// Returns the answer at this index of those that the entries from a place on give. They are in
    /// the order of the entries, and those of one Trip in the order of the calls' places.
    /// [profile]
    pub fn answer_since(&self, place: u64, index: usize) -> Option<Reply>
        ensures { option_map reply_view result ≡ slice_get
            (answers_since (hub_core self.now.inner).start place
            (hub_core self.now.inner).entries) index }
    {
        self.inner.answer_since(place, index)
    }

    /// Returns the entry at a place, if the history has it.
    pub fn entry(&self, place: u64) -> Option<Entry>
        ensures before { place < (hub_core self.now.inner).start.at → result ≡ None }
        ensures since { (hub_core self.now.inner).start.at ≤ place → result ≡ slice_get
            (hub_core self.now.inner).entries (place - (hub_core self.now.inner).start.at) }
    {
        self.inner.entry(place)
    }

    /// Returns the entry at a place with its cell. Returns `None` if the history has no entry
    /// there, if the entry's cell refused it, and if one more owner of the cell is refused.
    pub fn seen(&self, place: u64) -> Option<Seen>
        ensures { IfSome result (λ s. seen_at self.now.inner place ≡ Some s) }
    {
        self.inner.seen(place)
    }
}
