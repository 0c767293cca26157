//! The core with an account for each living client.

ghost use Rattle.std.specs.Prelude.{◌≡◌, ◌+◌, ◌-◌, ◌<◌, ◌≤◌, ℕ, [], Some, None, false, true};
ghost use Rattle.std.specs.Prelude.{length, option_map, slice_get, nat_eq, IfOk, IfErr, IfSome};
ghost use Rattle.std.specs.Prelude.{IfNone, OnOk, OnErr, IsSome};
ghost use Rattle.std.specs.Map.{lookup};
ghost use Rattle.pt_types.specs.Limits.{max_entries, max_place};
ghost use Rattle.pt_types.specs.Times.{deadline_nanos, is_invalid_deadline};
ghost use Rattle.pt_model.specs.declared.entry.Event.TheVariants as event;
ghost use Rattle.pt_model.specs.Histories.{place as place_of, outer};
ghost use Rattle.pt_model.specs.Clients.{is_alive};
ghost use Rattle.pt_model.specs.Answers.{outcome};
ghost use Rattle.pt_model.specs.Queries.{answers_since, reply_if};
ghost use Rattle.pt_model.specs.Queries.{least_deadline};
ghost use Rattle.pt_model.specs.Room.{refusal_with_seals};
ghost use Rattle.pt_model.specs.Legal.{LegalSince, events_of};
ghost use Rattle.pt_model.specs.Steps.{IsStart};
ghost use Rattle.pt_client_events.specs.OwnEvents.{own_at, own_event};
ghost use Rattle.pt_legal.specs.Cores.{IsEmpty, history_of, core_state};
ghost use Rattle.pt_legal.specs.Applying.{IsApplied, IsEventWritten};
ghost use Rattle.pt_legal.specs.Sealing.{IsSealed, seal_refusal};
ghost use Rattle.pt_legal.specs.Replies.{reply_view};
ghost use Rattle.pt_hub.specs.AnsweringCores.{ChangesAccount, IsRefusedAs, hub_core, account_of};
ghost use Rattle.pt_hub.specs.AnsweringCores.{account_after_call, account_after_take};
ghost use Rattle.pt_hub.specs.AnsweringCores.{new_account, is_client_blocked, call_refusal};
ghost use Rattle.pt_hub.specs.AnsweringCores.{next_answer};
ghost use Rattle.pt_hub.specs.AnsweringCores.{account_for_event};
ghost use Rattle.pt_hub.specs.AnsweringCores.{accounts_for_event, accounts_after_seal};
ghost use Rattle.pt_hub.specs.AnsweringCores.{IsOwedTheRest};
ghost use Rattle.pt_hub.specs.AnsweringCores.{IsTakenButOne};
ghost use Rattle.pt_hub.specs.AnsweringCores.{call_of_event, seen_at, GrowsCells, Meets};
ghost use Rattle.pt_cells.specs.Cells.{AreCells, Extends};

use crate::account::{Account, Accounts};
use pt_cells::{Celled, Seen};
use pt_legal::{Applied, LegalHistory, Reply};
use pt_model::{Entry, Event};
use pt_types::{Call, ClientId, Clock, Deadline, Moment, Outcome, Priority, Refusal};
use std::alloc::{Allocator, Global};
use std::marker::Model;

// Returns the event of an entry if the client joins, makes a call or dies by it.
fn own_event(entry: &Entry, client: ClientId) -> Option<Event>
    ensures { result ≡ own_event client entry.now }
{
    match entry {
        Entry::Join(c, priority) if *c == client => Some(Event::Join(*priority)),
        Entry::Call(c, call, _) if *c == client => Some(Event::Call(*c, call.copied())),
        Entry::Death(c) if *c == client => Some(Event::Death(*c)),
        _ => None,
    }
}

// Returns the call of an event that is a call.
fn call_of(event: Event) -> Call
    requires { IsSome (call_of_event event) }
    ensures { call_of_event event ≡ Some result }
{
    match event {
        Event::Call(_, call) => call,
        _ => unreachable!(),
    }
}

/// The core with an account for each living client.
#[derive(Drop)]
pub struct AnsweringCore<C: LegalHistory, A: Allocator + Copy> {
    core: Celled<C, A>,
    accounts: Accounts<A>,
}

impl<C: LegalHistory, A: Allocator + Copy> Model for AnsweringCore<C, A> {
    ghost use Rattle.pt_hub.specs.AnsweringCores.{AnsweringCoreView, IsAnsweringCore};

    ghost Value = { AnsweringCoreView };

    ghost view = { λ d. record { core = d.core; accounts = d.accounts.entries } };

    ghost invariant = { λ d.
        IsAnsweringCore (record { core = d.core; accounts = d.accounts.entries }) };
}

impl<C: LegalHistory, A: Allocator + Copy> AnsweringCore<C, A> {
    /// Creates an answering core over an empty core, so without accounts. The cells of its entries
    /// are made in `heap`. Without one, no cells are made, and nothing is seen.
    pub fn new(core: C, alloc: A, heap: Option<Global>) -> AnsweringCore<C, A>
        requires { IsEmpty (core_state (C.seen core)) }
        ensures { (result.core ≡ record { core = C.seen core; cells = [] })
            × (result.accounts ≡ []) }
    {
        AnsweringCore {
            core: Celled::new(core, alloc, heap),
            accounts: Accounts::new(alloc),
        }
    }

    /// Joins a client, and opens its account.
    pub fn join(&mut self, priority: Priority) -> Result<Applied, Refusal>
        ensures ok { IfOk result (λ applied.
            IsApplied (hub_core self.old) (event.Join priority) (hub_core self.new) applied) }
        ensures account { OnOk result (ChangesAccount (accounts_for_event self.old
            (event.Join priority))
            self.new.accounts (place_of (history_of (hub_core self.old))) (Some new_account)) }
        ensures cells { OnOk result (GrowsCells self.old (event.Join priority) self.new) }
        ensures err { IfErr result (IsRefusedAs (refusal_with_seals
            (hub_core self.old).limit (history_of (hub_core self.old)) (event.Join priority))) }
        ensures unchanged { OnErr result (self.new ≡ self.old) }
    {
        let event = Event::Join(priority);
        if let Some(refusal) = self.core.would_refuse(&event) {
            return Err(refusal);
        }
        if self.accounts.reserve_one().is_err() {
            return Err(Refusal::Enomem);
        }
        match self.core.apply(&event) {
            Ok(applied) => {
                self.accounts.renew_if(applied.sealed);
                let account = Account {
                    awaited: false,
                    taken: 0,
                    awaits: false,
                };
                self.accounts.open(applied.first, account);
                Ok(applied)
            }
            Err(refusal) => Err(refusal),
        }
    }

    /// Returns true if a client's last call is open or its answer isn't taken.
    pub fn is_blocked(&self, c: ClientId) -> bool
        ensures { result ≡ is_client_blocked self.now c }
    {
        match self.accounts.read(c.0) {
            Some(account) => account.awaits,
            None => false,
        }
    }

    /// Returns why a client's call would be refused for a reason other than lack of memory.
    pub fn call_refusal(&self, c: ClientId, call: &Call) -> Option<Refusal>
        ensures { result ≡ call_refusal self.now c call.now }
    {
        if self.is_blocked(c) {
            return Some(Refusal::Blocked);
        }
        self.core.would_refuse(&Event::Call(c, call.copied()))
    }

    /// Makes a call for a client, which then awaits its answer. The call is given back.
    pub fn call(&mut self, c: ClientId, call: Call) -> Result<(Applied, Call), Refusal>
        ensures ok { IfOk result (λ r.
            IsApplied (hub_core self.old) (event.Call c call) (hub_core self.new) r.0) }
        ensures first { IfOk result (λ r. r.0.first ≡ place_of (history_of (hub_core self.old))) }
        ensures next { IfOk result (λ r.
            next_answer self.new c ≡ reply_if c r.0.first r.0.outcome) }
        ensures returned_call { IfOk result (λ r. r.1 ≡ call) }
        ensures account { OnOk result (ChangesAccount (accounts_for_event self.old
            (event.Call c call))
            self.new.accounts c (account_after_call (account_for_event self.old
            (event.Call c call) c))) }
        ensures cells { OnOk result (GrowsCells self.old (event.Call c call) self.new) }
        ensures err { IfErr result (IsRefusedAs (call_refusal self.old c call)) }
        ensures unchanged { OnErr result (self.new ≡ self.old) }
    {
        if self.is_blocked(c) {
            return Err(Refusal::Blocked);
        }
        let event = Event::Call(c, call);
        match self.core.apply(&event) {
            Ok(applied) => {
                self.accounts.renew_if(applied.sealed);
                self.accounts.note_call(c.0);
                Ok((applied, call_of(event)))
            }
            Err(refusal) => Err(refusal),
        }
    }

    /// Returns the answer that a client hasn't taken, if there is one.
    pub fn next_answer(&self, c: ClientId) -> Option<Reply>
        ensures { option_map reply_view result ≡ next_answer self.now c }
    {
        if self.is_blocked(c) {
            self.core.answer_of(c)
        } else {
            None
        }
    }

    /// Returns the answer at this index of those that the entries from a place on give.
    pub fn answer_since(&self, place: u64, index: usize) -> Option<Reply>
        ensures { option_map reply_view result ≡ slice_get
            (answers_since (hub_core self.now).start place (hub_core self.now).entries) index }
    {
        self.core.answer_since(place, index)
    }

    /// Takes the answer that a client hasn't taken.
    pub fn take(&mut self, c: ClientId)
        requires { IsSome (next_answer self.old c) }
        ensures same_core { self.new.core ≡ self.old.core }
        ensures account { ChangesAccount self.old.accounts self.new.accounts c
            (account_after_take (account_of self.old c)) }
    {
        self.accounts.note_take(c.0);
    }

    /// Lets a living client die. An answer that it hasn't taken is dropped, and the history is
    /// never sealed for the Death. Returns `None` if the client isn't alive.
    pub fn die(&mut self, c: ClientId) -> Option<Applied>
        ensures some { IfSome result (λ applied.
            IsEventWritten (hub_core self.old) (event.Death c) (hub_core self.new) applied) }
        ensures unsealed { IfSome result (λ applied. applied.sealed ≡ None) }
        ensures account { IsSome result
            → ChangesAccount self.old.accounts self.new.accounts c None }
        ensures cells { IsSome result → Extends self.old.core.cells self.new.core.cells }
        ensures none { IfNone result ((is_alive (history_of (hub_core self.old)) c ≡ false)
            × (self.new ≡ self.old)) }
    {
        match self.core.apply(&Event::Death(c)) {
            Ok(applied) => {
                self.accounts.erase(c.0);
                Some(applied)
            }
            Err(_) => None,
        }
    }

    /// Hands in a reading of a clock that isn't refused. Returns ENOMEM if a growth is refused.
    pub fn moment(&mut self, clock: Clock, moment: Moment) -> Result<Applied, Refusal>
        requires { refusal_with_seals (hub_core self.old).limit (history_of (hub_core self.old))
            (event.Moment clock moment) ≡ None }
        ensures ok { IfOk result (λ applied. IsApplied (hub_core self.old)
            (event.Moment clock moment) (hub_core self.new) applied) }
        ensures accounts { OnOk result (self.new.accounts
            ≡ accounts_for_event self.old (event.Moment clock moment)) }
        ensures cells { OnOk result (GrowsCells self.old (event.Moment clock moment) self.new) }
        ensures err { IfErr result (λ refusal. refusal ≡ Refusal.Enomem) }
        ensures unchanged { OnErr result (self.new ≡ self.old) }
    {
        match self.core.apply(&Event::Moment(clock, moment)) {
            Ok(applied) => {
                self.accounts.renew_if(applied.sealed);
                Ok(applied)
            }
            Err(refusal) => Err(refusal),
        }
    }

    /// Seals the history, and returns the place with which it goes on. Returns FULL if that is
    /// above 2^62, else ENOMEM if a growth is refused.
    pub fn seal(&mut self) -> Result<u64, Refusal>
        ensures ok { IfOk result (λ at. IsSealed (hub_core self.old) (hub_core self.new) at) }
        ensures accounts { OnOk result (self.new.accounts ≡ accounts_after_seal self.old.accounts) }
        ensures cells { OnOk result (self.new.core.cells ≡ []) }
        ensures err { IfErr result (λ refusal. refusal ≡ seal_refusal (hub_core self.old)) }
        ensures unchanged { OnErr result (self.new ≡ self.old) }
    {
        match self.core.seal() {
            Ok(at) => {
                self.accounts.renew();
                Ok(at)
            }
            Err(refusal) => Err(refusal),
        }
    }

    /// Returns why an event would be refused for a reason other than lack of memory, even if a seal
    /// makes room.
    pub fn would_refuse(&self, event: &Event) -> Option<Refusal>
        ensures { result ≡ refusal_with_seals (hub_core self.now).limit (history_of
            (hub_core self.now))
            event.now }
    {
        self.core.would_refuse(event)
    }

    /// Returns the least deadline by this clock of the open calls that are not moved, as the
    /// call gave it: with nanoseconds below 1,000,000,000.
    pub fn least_deadline(&self, clock: Clock) -> Option<Deadline>
        ensures value { option_map deadline_nanos result
            ≡ least_deadline (history_of (hub_core self.now)) clock }
        ensures time { IfSome result (λ deadline. is_invalid_deadline deadline ≡ false) }
    {
        self.core.least_deadline(clock)
    }

    /// Proves that a living client has taken all its answers or all but one, and that the client is
    /// owed that one if the history is sealed.
    pub fn law_taken(&self)
        ensures taken { (c : ℕ) → is_alive (history_of (hub_core self.now)) c ≡ true
            → IsTakenButOne self.now c }
        ensures owed { (c : ℕ) → is_alive (history_of (hub_core self.now)) c ≡ true
            → IsOwedTheRest self.now c }
    {
        let _ = &self.core;
    }

    /// Returns the place of the next entry.
    pub fn len(&self) -> u64
        ensures value { result ≡ place_of (history_of (hub_core self.now)) }
        ensures starts { IsStart (hub_core self.now).start }
        ensures legal { LegalSince (hub_core self.now).start (hub_core self.now).entries
            (events_of (hub_core self.now).entries) }
        ensures within { place_of (history_of (hub_core self.now)) ≤ max_place + max_entries }
        ensures counted { outer (history_of (hub_core self.now))
            ≤ place_of (history_of (hub_core self.now)) }
    {
        self.core.len()
    }

    /// Returns the entry at a place, if the history has it.
    pub fn entry(&self, place: u64) -> Option<Entry>
        ensures before { place < (hub_core self.now).start.at → result ≡ None }
        ensures since { (hub_core self.now).start.at ≤ place
            → result ≡ slice_get (hub_core self.now).entries (place -
            (hub_core self.now).start.at) }
    {
        self.core.entry(place)
    }

    /// Returns the entry at a place with its cell. Returns `None` if the history has no entry
    /// there, if the entry's cell refused it, and if one more owner of the cell is refused.
    pub fn seen(&self, place: u64) -> Option<Seen>
        ensures stored { IfSome result (λ s. seen_at self.now place ≡ Some s) }
        ensures entry { IfSome result (λ s. slice_get (hub_core self.now).entries
            (place - (hub_core self.now).start.at) ≡ Some s.cell.entry) }
    {
        self.core.seen(place)
    }

    /// Proves that each entry has a cell of its own, unless the cell refused it.
    pub fn law_cells(&self)
        ensures { AreCells (hub_core self.now).entries self.now.core.cells }
    {
        self.core.law_cells();
    }

    /// Proves that an entry that was seen is that of the history, if its cell is the one that the
    /// history has at the entry's place.
    pub fn meet(&self, seen: &Seen)
        ensures { Meets self.now seen.now }
    {
        self.core.meet(seen);
    }

    /// Returns the place of the first entry since the history was sealed.
    pub fn first(&self) -> u64
        ensures { result ≡ (hub_core self.now).start.at }
    {
        self.core.first()
    }

    /// Returns the answer to the call at a place, if it has one.
    pub fn outcome(&self, place: u64) -> Option<Outcome>
        ensures { result ≡ outcome (history_of (hub_core self.now)) place }
    {
        self.core.outcome(place)
    }

    /// Returns the event of the entry at a place if the client joins, makes a call or dies by it.
    pub fn own_event(&self, c: ClientId, place: u64) -> Option<Event>
        requires { (hub_core self.now).start.at ≤ place }
        ensures { result ≡ own_at (hub_core self.now).start (hub_core self.now).entries c place }
    {
        match self.core.entry(place) {
            Some(entry) => own_event(&entry, c),
            None => None,
        }
    }
}
