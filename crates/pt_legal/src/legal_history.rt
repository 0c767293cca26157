ghost use Rattle.std.specs.Prelude.{◌≡◌, ◌≤◌, ◌<◌, ◌-◌, ◌^◌, ℕ, None, length, drop, slice_get};
ghost use Rattle.std.specs.Prelude.{option_map, true, false, IfOk, IfErr, IfSome, IsOk, OnErr};
ghost use Rattle.pt_types.specs.Limits.{max_entries};
ghost use Rattle.pt_types.specs.Times.{deadline_nanos, is_invalid_deadline};
ghost use Rattle.pt_model.specs.Histories.{place as place_of};
ghost use Rattle.pt_model.specs.Clients.{is_alive};
ghost use Rattle.pt_model.specs.Answers.{outcome as outcome_in, replies_since};
ghost use Rattle.pt_model.specs.Queries.{answers_since, answer_of as answer_in};
ghost use Rattle.pt_model.specs.Queries.{least_deadline as least_deadline_in};
ghost use Rattle.pt_model.specs.Room.{need as need_in, refusal_with_seals};
ghost use Rattle.pt_model.specs.Legal.{LegalSince, events_of};
ghost use Rattle.pt_model.specs.Steps.{IsStart};
ghost use Rattle.pt_legal.specs.Cores.{CoreView, history_of, core_state};
ghost use Rattle.pt_legal.specs.Applying.{IsApplied, IsRefusal};
ghost use Rattle.pt_legal.specs.Replies.{reply_view};
ghost use Rattle.pt_legal.specs.Sealing.{IsSealed, seal_refusal};

use crate::applied::{Applied, Reply};
use pt_model::{Entry, Event};
use pt_types::{ClientId, Clock, Deadline, Outcome, Refusal};

/// The clients and objects of one server, as a history that is the one legal list for its events.
pub trait LegalHistory: Drop {
    /// What the history begins with, the entries since then in order, and the limit on their
    /// number.
    ghost seen: { Self → CoreView };

    /// Applies one event, and all that must follow it. If the event needs more room than the limit
    /// leaves, but no more than the limit itself, the history is sealed first. The place with which
    /// it goes on is then returned too. A refused event changes nothing. The first refusal that
    /// applies is returned, and ENOMEM only if none does.  [profile]
    fn apply(&mut self, event: &Event) -> Result<Applied, Refusal>
        ensures ok { IfOk result (λ applied. IsApplied (core_state (seen self.old)) event.now
            (core_state (seen self.new)) applied) }
        ensures err { IfErr result (λ refusal.
            IsRefusal (core_state (seen self.old)) event.now refusal) }
        ensures unchanged { OnErr result (seen self.new ≡ seen self.old) }

        // The Death of a living client is never refused, and no Death seals.
        ensures death { (c : ℕ) → event.now ≡ Event.Death c
            → is_alive (history_of (core_state (seen self.old))) c ≡ true → IsOk result }
        ensures unsealed { (c : ℕ) → event.now ≡ Event.Death c
            → IfOk result (λ applied. applied.sealed ≡ None) };

    /// Seals the history: drops its entries, and goes on from a Start with all that counts of them.
    /// Returns the place of the next entry. Returns FULL if that place is above 2^62, else ENOMEM
    /// if a growth is refused; then nothing changes.  [profile]
    fn seal(&mut self) -> Result<u64, Refusal>
        ensures ok { IfOk result (λ at.
            IsSealed (core_state (seen self.old)) (core_state (seen self.new)) at) }
        ensures err { IfErr result (λ refusal. refusal
            ≡ seal_refusal (core_state (seen self.old))) }
        ensures unchanged { OnErr result (seen self.new ≡ seen self.old) };

    /// Returns why an event would be refused for a reason other than lack of memory, even if a seal
    /// makes room.  [profile]
    fn would_refuse(&self, event: &Event) -> Option<Refusal>
        ensures { result ≡ refusal_with_seals (seen self.now).limit
            (history_of (core_state (seen self.now))) event.now };

    /// Returns the answer at this index among those that the entries from a place on give, in the
    /// order of the entries. The answers of one Trip are in the order of the calls' places.
    /// [profile]
    fn answer_since(&self, place: u64, index: usize) -> Option<Reply>
        ensures { option_map reply_view result ≡ slice_get
            (answers_since (core_state (seen self.now)).start place
            (seen self.now).entries) index };

    /// Returns the number of answers that the entries before a place give.
    fn answers_before(&self, place: u64) -> usize
        ensures rest { drop result
            (replies_since (core_state (seen self.now)).start (seen self.now).entries)
            ≡ answers_since (core_state (seen self.now)).start place (seen self.now).entries }
        ensures within { result ≤ length
            (replies_since (core_state (seen self.now)).start (seen self.now).entries) };

    /// Returns the answer at this index among all answers since the Start, in the order of the
    /// entries. The answers of one Trip are in the order of the calls' places.
    fn answer(&self, index: usize) -> Option<Reply>
        ensures value { option_map reply_view result ≡ slice_get
            (replies_since (core_state (seen self.now)).start (seen self.now).entries) index }
        ensures within { length
            (replies_since (core_state (seen self.now)).start (seen self.now).entries) < 2 ^ 64 };

    /// Returns the answer to a living client's latest call, if it has one.
    fn answer_of(&self, c: ClientId) -> Option<Reply>
        ensures { option_map reply_view result
            ≡ answer_in (history_of (core_state (seen self.now))) c };

    /// Returns the answer to the call at a place, if it has one.  [XSH, the call's page]
    fn outcome(&self, place: u64) -> Option<Outcome>
        ensures { result ≡ outcome_in (history_of (core_state (seen self.now))) place };

    /// Returns the least deadline by this clock among the open calls that were not moved, as the
    /// call gave it: with nanoseconds below 1,000,000,000.
    fn least_deadline(&self, clock: Clock) -> Option<Deadline>
        ensures value { option_map deadline_nanos result
            ≡ least_deadline_in (history_of (core_state (seen self.now))) clock }
        ensures time { IfSome result (λ deadline. is_invalid_deadline deadline ≡ false) };

    /// Returns the place of the next entry.
    fn len(&self) -> u64
        ensures value { result ≡ place_of (history_of (core_state (seen self.now))) }
        ensures starts { IsStart (core_state (seen self.now)).start }
        ensures legal { LegalSince (core_state (seen self.now)).start (seen self.now).entries
            (events_of (seen self.now).entries) }
        ensures within { length (seen self.now).entries ≤ (seen self.now).limit }
        ensures limit { (seen self.now).limit ≤ max_entries };

    /// Returns the number of entries that are reserved: for what must follow, and for the Death of
    /// each living client.
    fn need(&self) -> u64
        ensures value { result ≡ need_in (history_of (core_state (seen self.now))) }
        ensures within { result ≤ max_entries };

    /// Returns the place of the first entry since the history was last sealed.
    fn first(&self) -> u64
        ensures { result ≡ (core_state (seen self.now)).start.at };

    /// Returns the entry at a place, if there is one. Places before the Start have none.
    fn entry(&self, place: u64) -> Option<Entry>
        ensures before { place < (core_state (seen self.now)).start.at → result ≡ None }
        ensures since { (core_state (seen self.now)).start.at ≤ place → result ≡ slice_get
            (seen self.now).entries (place - (core_state (seen self.now)).start.at) };
}
