ghost use Rattle.std.specs.Prelude.{◌≡◌, ◌≤◌, ◌<◌, ◌-◌, ◌^◌, ℕ, [], None, length, drop, slice_get};
ghost use Rattle.std.specs.Prelude.{option_map, map, true, false, IfSome, IfOk, IfErr, IsOk, OnOk};
ghost use Rattle.std.specs.Prelude.{OnErr};
ghost use Rattle.pt_types.specs.Limits.{max_entries};
ghost use Rattle.pt_types.specs.Times.{deadline_nanos, is_invalid_deadline};
ghost use Rattle.pt_model.specs.Starts.{empty_start};
ghost use Rattle.pt_model.specs.Histories.{outer, place as place_of};
ghost use Rattle.pt_model.specs.Clients.{is_alive};
ghost use Rattle.pt_model.specs.Answers.{open_place, outcome};
ghost use Rattle.pt_model.specs.Answers.{replies_since};
ghost use Rattle.pt_model.specs.Queries.{answers_since, answer_of};
ghost use Rattle.pt_model.specs.Queries.{least_deadline};
ghost use Rattle.pt_model.specs.Room.{need, refusal_with_seals};
ghost use Rattle.pt_model.specs.Legal.{LegalSince, events_of};
ghost use Rattle.pt_model.specs.Steps.{IsStart};
ghost use Rattle.pt_legal.specs.Cores.{IsEmpty, history_of, core_state};
ghost use Rattle.pt_legal.specs.Applying.{IsApplied, IsRefusal};
ghost use Rattle.pt_core.specs.Running.{Runs, IsStopped};
ghost use Rattle.pt_legal.specs.Replies.{reply_view};
ghost use Rattle.pt_legal.specs.Sealing.{IsSealed, seal_refusal};

use crate::applying::{refusal, would_refuse};
use crate::fast_paths::apply_accepted;
use crate::stopped::Stopped;
use crate::{answering, sealing};
use pt_chains::Chains;
use pt_legal::{Applied, Reply};
use pt_machine::Machine;
use pt_model::{Entry, Event};
use pt_types::{ClientId, Clock, Deadline, MAX_ENTRIES, Outcome, Refusal};
use std::alloc::{Allocator, Global};
use std::marker::Model;

// Puts a value on the heap. ENOMEM if a growth is refused. It is generic, so that the drop of a
// value for which there is no memory is proved once for all types.
fn boxed<T: Drop, A: Allocator>(alloc: A, value: T) -> Result<Box<T, A>, Refusal>
    ensures ok { IfOk result (λ b. b.value ≡ value) }
    ensures err { IfErr result (λ refusal. refusal ≡ Refusal.Enomem) }
{
    match Box::new(alloc, value) {
        Ok(b) => Ok(b),
        Err(_) => Err(Refusal::Enomem),
    }
}

/// The clients and objects of one server, as a history that is the one legal list for its events.
///
/// Contracts see what the history begins with, the entries since then in order, and the limit on
/// their number.
pub struct Core<A: Allocator + Copy = Global> {
    // On the heap, so that a core is moved as a pointer, and dropped by one function.
    pub(crate) body: Box<Machine<Chains<A>, A>, A>,
}

impl<A: Allocator + Copy> Model for Core<A> {
    ghost use Rattle.pt_legal.specs.Cores.{CoreView};
    ghost use Rattle.pt_core.specs.Stores.{store_view};
    ghost use Rattle.pt_core.specs.ValidStates.{IsValidState};

    ghost Value = { CoreView };

    ghost view = { λ c. store_view c.body.value.stored };

    ghost invariant = { λ c. IsValidState c.body.value };
}

// Not derived, so that this function alone drops what a core owns. The crates that use a core then
// have nothing to prove of its parts.
impl<A: Allocator + Copy> Drop for Core<A> {
    fn drop(self) {
        let Core { body: _ } = self;
    }
}

impl<A: Allocator + Copy> Core<A> {
    /// Creates an empty history of at most 1,048,576 entries. ENOMEM if a growth is refused.
    pub fn new(alloc: A) -> Result<Core<A>, Refusal>
        ensures ok { IfOk result (λ core.
            core_state core ≡ record { start = empty_start; entries = []; limit = max_entries }) }
        ensures empty { IfOk result (λ core. IsEmpty (core_state core)) }
        ensures err { IfErr result (λ refusal. refusal ≡ Refusal.Enomem) }
    {
        Core::with_limit(alloc, MAX_ENTRIES)
    }

    /// Creates an empty history of at most `limit` entries. ENOMEM if a growth is refused.
    pub fn with_limit(alloc: A, limit: u32) -> Result<Core<A>, Refusal>
        requires { limit ≤ max_entries }
        ensures ok { IfOk result (λ core.
            core_state core ≡ record { start = empty_start; entries = []; limit = limit }) }
        ensures empty { IfOk result (λ core. IsEmpty (core_state core)) }
        ensures err { IfErr result (λ refusal. refusal ≡ Refusal.Enomem) }
    {
        match boxed(alloc, Machine::new(Chains::new(alloc), alloc, limit)) {
            Ok(body) => Ok(Core { body }),
            Err(refusal) => Err(refusal),
        }
    }

    /// Applies one event, and all that must follow it. If the event needs more room than the limit
    /// leaves, but no more than the limit itself, the history is sealed first. The place with which
    /// it goes on is then returned too. A refused event changes nothing. The first refusal that
    /// applies is returned, and ENOMEM only if none does.  [profile]
    pub fn apply(&mut self, event: Event) -> Result<Applied, Refusal>
        ensures ok { IfOk result (λ applied.
            IsApplied (core_state self.old) event (core_state self.new) applied) }
        ensures err { IfErr result (λ refusal. IsRefusal (core_state self.old) event refusal) }
        ensures unchanged { OnErr result (self.new ≡ self.old) }

        // The Death of a living client is never refused, and no Death seals.
        ensures death { (c : ℕ) → event ≡ Event.Death c
            → is_alive (history_of (core_state self.old)) c ≡ true → IsOk result }
        ensures unsealed { (c : ℕ) → event ≡ Event.Death c
            → IfOk result (λ applied. applied.sealed ≡ None) }
    {
        self.apply_event(&event)
    }

    /// Does what `apply` does, for a borrowed event, which need not be moved.  [profile]
    #[inline(always)]
    pub fn apply_event(&mut self, event: &Event) -> Result<Applied, Refusal>
        ensures ok { IfOk result (λ applied.
            IsApplied (core_state self.old) event.now (core_state self.new) applied) }
        ensures err { IfErr result (λ refusal. IsRefusal (core_state self.old) event.now refusal) }
        ensures unchanged { OnErr result (self.new ≡ self.old) }

        // The Death of a living client is never refused, and no Death seals.
        ensures death { (c : ℕ) → event.now ≡ Event.Death c
            → is_alive (history_of (core_state self.old)) c ≡ true → IsOk result }
        ensures unsealed { (c : ℕ) → event.now ≡ Event.Death c
            → IfOk result (λ applied. applied.sealed ≡ None) }
    {
        if let Some(refusal) = refusal(&self.body, event) {
            return Err(refusal);
        }
        apply_accepted(&mut self.body, event)
    }

    /// Seals the history: drops its entries, and goes on from a Start with all that counts of them.
    /// Returns the place of the next entry. Returns FULL if that place is above 2^62, else ENOMEM
    /// if a growth is refused; then nothing changes.  [profile]
    pub fn seal(&mut self) -> Result<u64, Refusal>
        ensures ok { IfOk result (λ at. IsSealed (core_state self.old) (core_state self.new) at) }
        ensures err { IfErr result (λ refusal. refusal ≡ seal_refusal (core_state self.old)) }
        ensures unchanged { OnErr result (self.new ≡ self.old) }
    {
        sealing::seal(&mut self.body)
    }

    /// Applies all these events, one after the other. Stops at the first that is refused. The
    /// events before that one are applied.  [profile]
    pub fn run(&mut self, events: &[Event]) -> Result<(), Stopped>
        ensures ok { OnOk result (Runs (core_state self.old) events.now (core_state self.new)) }
        ensures stopped { IfErr result (IsStopped (core_state self.old) events.now
            (core_state self.new)) }
    {
        for (at, event) in events.iter().enumerate() {
            if let Err(refusal) = self.apply(event.copied()) {
                return Err(Stopped { at, refusal });
            }
        }
        Ok(())
    }

    /// Returns why an event would be refused for a reason other than lack of memory, even if a seal
    /// makes room.  [profile]
    pub fn would_refuse(&self, event: &Event) -> Option<Refusal>
        ensures { result
            ≡ refusal_with_seals self.now.limit (history_of (core_state self.now)) event.now }
    {
        would_refuse(&self.body, event)
    }

    /// Returns the place of a client's open call, if it has one.
    pub fn open_call(&self, c: ClientId) -> Option<u64>
        ensures { result ≡ open_place (history_of (core_state self.now)) c }
    {
        self.body.open_place(c)
    }

    /// Returns the number of answers that the entries before a place give. The search starts at the
    /// end.
    #[inline(always)]
    pub fn answers_before(&self, place: u64) -> usize
        ensures rest { drop result (replies_since (core_state self.now).start self.now.entries)
            ≡ answers_since (core_state self.now).start place self.now.entries }
        ensures within { result ≤ length
            (replies_since (core_state self.now).start self.now.entries) }
    {
        self.body.answers_before(place)
    }

    /// Returns the answer at this index among all answers since the Start, in the order of the
    /// entries. The answers of one Trip are in the order of the calls' places. The answer is read
    /// in place.  [profile]
    #[inline(always)]
    pub fn answer(&self, index: usize) -> Option<Reply>
        ensures value { option_map reply_view result ≡ slice_get
            (replies_since (core_state self.now).start self.now.entries) index }
        ensures within { length (replies_since
            (core_state self.now).start self.now.entries) < 2 ^ 64 }
    {
        answering::answer(&self.body, index)
    }

    /// Returns the answer at this index among those that the entries from a place on give, in the
    /// order of the entries. The answers of one Trip are in the order of the calls' places.
    /// [profile]
    pub fn answer_since(&self, place: u64, index: usize) -> Option<Reply>
        ensures { option_map reply_view result ≡ slice_get
            (answers_since (core_state self.now).start place self.now.entries) index }
    {
        answering::answer_since(&self.body, place, index)
    }

    /// Returns the answers that the entries from a place on give, in the order of the entries. The
    /// answers of one Trip are in the order of the calls' places. ENOMEM if a growth is refused.
    /// [profile]
    pub fn answers_from(&self, place: u64) -> Result<Vec<Reply, A>, Refusal>
        ensures ok { IfOk result (λ replies.
            map reply_view replies.items ≡ answers_since (core_state self.now).start place
            self.now.entries) }
        ensures err { IfErr result (λ refusal. refusal ≡ Refusal.Enomem) }
    {
        answering::answers_from(&self.body, place)
    }

    /// Returns the answer to a living client's latest call, if it has one.
    pub fn answer_of(&self, c: ClientId) -> Option<Reply>
        ensures { option_map reply_view result ≡ answer_of (history_of (core_state self.now)) c }
    {
        answering::answer_of(&self.body, c)
    }

    /// Returns the answer to the call at a place, if it has one.  [XSH, the call's page]
    pub fn outcome(&self, place: u64) -> Option<Outcome>
        ensures { result ≡ outcome (history_of (core_state self.now)) place }
    {
        self.body.outcome(place)
    }

    /// Returns the least deadline by this clock among the open calls that were not moved, as the
    /// call gave it: with nanoseconds below 1,000,000,000.
    pub fn least_deadline(&self, clock: Clock) -> Option<Deadline>
        ensures value { option_map deadline_nanos result
            ≡ least_deadline (history_of (core_state self.now)) clock }
        ensures time { IfSome result (λ deadline. is_invalid_deadline deadline ≡ false) }
    {
        self.body.least_deadline(clock)
    }

    /// Returns the place of the next entry.
    pub fn len(&self) -> u64
        ensures value { result ≡ place_of (history_of (core_state self.now)) }
        ensures starts { IsStart (core_state self.now).start }
        ensures legal { LegalSince (core_state self.now).start self.now.entries
            (events_of self.now.entries) }
        ensures within { length self.now.entries ≤ self.now.limit }
        ensures limit { self.now.limit ≤ max_entries }
    {
        self.body.len()
    }

    /// Returns the number of outer entries, including those before the history was sealed.
    pub fn outer(&self) -> u64
        ensures { result ≡ outer (history_of (core_state self.now)) }
    {
        self.body.outer()
    }

    /// Returns the number of entries that are reserved: for what must follow, and for the Death of
    /// each living client.
    pub fn need(&self) -> u64
        ensures value { result ≡ need (history_of (core_state self.now)) }
        ensures within { result ≤ max_entries }
    {
        self.body.need()
    }

    /// Returns the place of the first entry since the history was last sealed.
    pub fn first(&self) -> u64
        ensures { result ≡ (core_state self.now).start.at }
    {
        self.body.first()
    }

    /// Returns the entry at a place, if there is one. Places before the Start have none.
    pub fn entry(&self, place: u64) -> Option<Entry>
        ensures before { place < (core_state self.now).start.at → result ≡ None }
        ensures since { (core_state self.now).start.at ≤ place
            → result ≡ slice_get self.now.entries (place - (core_state self.now).start.at) }
    {
        self.body.entry(place)
    }
}
