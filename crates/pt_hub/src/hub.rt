//! The value that the lock guards.

ghost use Rattle.std.specs.Prelude.{◌≡◌, ◌+◌, ◌<◌, ◌≤◌, ◌^◌, ◌↔◌, ◌≢◌, ◌⊎◌, ◌∷◌, ◌++◌, ℕ, [], Some};
ghost use Rattle.std.specs.Prelude.{None, false, true, option_map};
ghost use Rattle.std.specs.Prelude.{IfOk, IfErr, IfSome, IfNone, OnOk, OnErr};
ghost use Rattle.std.specs.Map.{lookup};
ghost use Rattle.pt_types.specs.Times.{deadline_nanos, is_invalid_deadline};
ghost use Rattle.pt_model.specs.declared.entry.Event.TheVariants as event;
ghost use Rattle.pt_model.specs.Searches.{Each};
ghost use Rattle.pt_model.specs.Clients.{is_alive};
ghost use Rattle.pt_model.specs.Queries.{least_deadline};
ghost use Rattle.pt_model.specs.Room.{refusal_with_seals};
ghost use Rattle.pt_model.specs.Legal.{LegalSince, events_of};
ghost use Rattle.pt_legal.specs.Cores.{IsEmpty, history_of, core_state};
ghost use Rattle.pt_legal.specs.Sealing.{seal_refusal};
ghost use Rattle.pt_hub.specs.AnsweringCores.{IsStoredAt, IsRefusedAs, hub_core, count_if_true};
ghost use Rattle.pt_hub.specs.Hubs.{JoinsHub, Ticks, SealsHub, Dies, next_place};
ghost use Rattle.pt_hub.specs.Hubs.{outer_count, has_ended, OpensSession, RefusesOpen, EndsInput};
ghost use Rattle.pt_hub.specs.Hubs.{ClosesSession};
ghost use Rattle.pt_hub.specs.Hubs.{IsConsistentHub};
ghost use Rattle.pt_hub.specs.Passes.{events_found, new_clock};
ghost use Rattle.pt_hub.specs.Closing.{MatchesHistory, IfForked, IsCloseFault, IsHonest};

use crate::answering_core::AnsweringCore;
use crate::closing::{CloseFault, CloseRefused, Closed, clock_events, left_events};
use crate::discarded::Discarded;
use crate::forks::least_fork;
use crate::honesty::law_all_honest;
use crate::marks;
use crate::marks::Marks;
use crate::pass::{ClockPass, Left, Pass, Tick};
use crate::receipts::seen_after;
use crate::tally::Tally;
use pt_eventcount::SessionId;
use pt_legal::LegalHistory;
use pt_model::Event;
use pt_types::{ClientId, Clock, Deadline, Moment, Priority, Refusal};
use std::alloc::{Allocator, Global};
use std::collections::HashMap;
use std::marker::Model;
use std::sync::ledger::{Blank, Ledger};

/// The greatest number of sessions in all.  [profile]
const MAX_SESSIONS: u64 = 1 << 32;

/// What the lock guards: the core, the answers that each client has taken, and the open sessions.
pub struct Hub<C: LegalHistory, L: Ledger, A: Allocator + Copy = Global> {
    pub(crate) inner: AnsweringCore<C, A>,
    marks: Marks<A>,
    session_count: u64,
    pub(crate) tally: Tally<L>,
    alloc: A,
}

impl<C: LegalHistory, L: Ledger, A: Allocator + Copy> Model for Hub<C, L, A> {
    ghost use Rattle.pt_hub.specs.Hubs.{HubView, IsHub};

    ghost Value = { HubView };

    ghost view = { λ h.
        record {
          inner = h.inner;
          marks = h.marks.entries;
          session_count = h.session_count;
          booked = h.tally.total;
        } };

    ghost invariant = { λ h.
        IsHub (record {
          inner = h.inner;
          marks = h.marks.entries;
          session_count = h.session_count;
          booked = h.tally.total;
        }) h.tally };
}

// Not derived, so that the crates that use a hub prove nothing of its parts when they drop one.
impl<C: LegalHistory, L: Ledger, A: Allocator + Copy> Drop for Hub<C, L, A> {
    fn drop(self) {
        let Hub {
            inner: _,
            marks: _,
            session_count: _,
            tally: _,
            alloc: _,
        } = self;
    }
}

impl<C: LegalHistory, L: Ledger, A: Allocator + Copy> Hub<C, L, A> {
    /// Creates a hub over an empty core, with its own ledger, and a clock. The cells of its entries
    /// are made in `heap`. Without one, no cells are made, and nothing is seen.
    pub fn new(
        core: C,
        alloc: A,
        heap: Option<Global>,
        blank: Blank,
    ) -> (Hub<C, L, A>, ClockPass<L, A>)
        requires empty { IsEmpty (core_state (C.seen core)) }
        requires name { (blank.name ≡ L.name) × (blank.parts ≡ L.parts) }
        requires parts { blank.parts ≡ 2 ^ 63 }
        ensures core { result.0.inner.core ≡ record { core = C.seen core; cells = [] } }
        ensures hub { (result.0.inner.accounts ≡ []) × (result.0.marks ≡ [])
            × (result.0.session_count ≡ 0) × (result.0.booked ≡ 0) }
        ensures clock { result.1 ≡ new_clock }
    {
        let inner = AnsweringCore::new(core, alloc, heap);
        let mut tally = Tally::open(blank);
        let share = tally.part();
        let hub = Hub {
            inner,
            marks: HashMap::new(alloc),
            session_count: 0,
            tally,
            alloc,
        };
        (hub, ClockPass::new(share, alloc))
    }

    /// Joins a client, and returns its pass. The history is sealed first if the join needs the
    /// room.  [profile]
    pub fn join(&mut self, priority: Priority) -> Result<Pass<L, A>, Refusal>
        ensures ok { IfOk result (λ pass. JoinsHub self.old priority self.new pass) }
        ensures err { IfErr result (IsRefusedAs (refusal_with_seals (hub_core self.old.inner).limit
            (history_of (hub_core self.old.inner)) (event.Join priority))) }
        ensures unchanged { OnErr result (self.new ≡ self.old) }
    {
        let place = self.inner.len();
        match self.inner.join(priority) {
            Ok(_) => {
                let mut share = self.tally.part();
                self.tally.count(&mut share);
                let seen = self.inner.seen(place);
                let discarded = Discarded::new();
                Ok(Pass {
                    client: ClientId(place),
                    priority,
                    seen,
                    discarded,
                    receipts: Vec::new(self.alloc),
                    share,
                })
            }
            Err(refusal) => Err(refusal),
        }
    }

    /// Lets a client die, and returns what it leaves.
    pub fn die(&mut self, pass: Pass<L, A>) -> Left<L, A>
        ensures alive { is_alive (history_of (hub_core self.old.inner)) pass.client ≡ true
            → Dies self.old pass.client self.new }
        ensures dead { is_alive (history_of (hub_core self.old.inner)) pass.client ≡ false
            → self.new ≡ self.old }
        ensures seen { IsStoredAt self.new.inner (next_place self.old.inner) result.seen }
        ensures left { result ≡ record {
          client = pass.client;
          priority = pass.priority;
          joined = pass.seen;
          discarded = pass.discarded;
          receipts = pass.receipts;
          died_at = next_place self.old.inner;
          seen = result.seen;
          deaths = count_if_true (is_alive (history_of (hub_core self.old.inner)) pass.client);
        } }
    {
        let died_at = self.inner.len();
        let Pass {
            client,
            priority,
            seen: joined,
            discarded,
            receipts,
            mut share,
        } = pass;
        let (deaths, seen) = match self.inner.die(client) {
            Some(_) => {
                self.tally.count(&mut share);
                (
                    1,
                    seen_after(&self.inner, client.0, receipts.as_slice(), died_at),
                )
            }
            None => (0, None),
        };
        Left {
            client,
            priority,
            joined,
            discarded,
            receipts,
            died_at,
            seen,
            deaths,
            share,
        }
    }

    /// Hands in a reading of a clock. The history is sealed first if the reading needs the room.
    /// [profile]
    pub fn moment(
        &mut self,
        pass: &mut ClockPass<L, A>,
        clock: Clock,
        moment: Moment,
    ) -> Result<(), Refusal>
        ensures ok { OnOk result (Ticks self.old clock moment self.new) }
        ensures pass { OnOk result (pass.new ≡ record pass.old {
          moments = pass.old.moments ++ record { clock = clock; moment = moment } ∷ [];
        }) }
        ensures err { IfErr result (IsRefusedAs (refusal_with_seals (hub_core self.old.inner).limit
            (history_of (hub_core self.old.inner)) (event.Moment clock moment))) }
        ensures unchanged { OnErr result ((self.new ≡ self.old) × (pass.new ≡ pass.old)) }
    {
        let _ = self.inner.len();
        if let Some(refusal) = self.inner.would_refuse(&Event::Moment(clock, moment)) {
            return Err(refusal);
        }
        if pass.moments.reserve(1).is_err() {
            return Err(Refusal::Enomem);
        }
        match self.inner.moment(clock, moment) {
            Ok(_) => {
                self.tally.count(&mut pass.share);
                pass.moments.push_reserved(Tick { clock, moment });
                Ok(())
            }
            Err(refusal) => Err(refusal),
        }
    }

    /// Seals the history: its entries are dropped, and it goes on with the place that comes next,
    /// which is returned. Returns FULL if that place is above 2^62, else ENOMEM if a growth is
    /// refused.  [profile]
    pub fn seal(&mut self) -> Result<u64, Refusal>
        ensures ok { IfOk result (λ at. SealsHub self.old self.new at) }
        ensures err { IfErr result (λ refusal. refusal ≡ seal_refusal (hub_core self.old.inner)) }
        ensures unchanged { OnErr result (self.new ≡ self.old) }
    {
        self.inner.seal()
    }

    /// Returns the least deadline by this clock of the open calls that are not moved, as the
    /// call gave it: with nanoseconds below 1,000,000,000.
    pub fn least_deadline(&self, clock: Clock) -> Option<Deadline>
        ensures value { option_map deadline_nanos result
            ≡ least_deadline (history_of (hub_core self.now.inner)) clock }
        ensures time { IfSome result (λ deadline. is_invalid_deadline deadline ≡ false) }
    {
        self.inner.least_deadline(clock)
    }

    /// Opens a session with a clock. Returns LIMIT if 2^32 sessions were opened before, else ENOMEM
    /// if a growth is refused.  [profile]
    pub fn open_session(&mut self) -> Result<(SessionId, ClockPass<L, A>), Refusal>
        ensures ok { IfOk result (λ r. OpensSession self.old self.new r.0.0) }
        ensures clock { IfOk result (λ r. r.1 ≡ new_clock) }
        ensures limit { (result ≡ Err Refusal.Limit) ↔ (self.old.session_count ≡ 2 ^ 32) }
        ensures err { IfErr result (RefusesOpen self.old) }
        ensures unchanged { OnErr result (self.new ≡ self.old) }
    {
        let _ = self.inner.len();
        let session = self.session_count;
        if session == MAX_SESSIONS {
            return Err(Refusal::Limit);
        }
        if self.marks.reserve(1).is_err() {
            return Err(Refusal::Enomem);
        }
        marks::open(&mut self.marks, session);
        self.session_count += 1;
        let share = self.tally.part();
        Ok((SessionId(session), ClockPass::new(share, self.alloc)))
    }

    /// Notes that the input of a session has ended, if the session is open.
    pub fn end_input(&mut self, session: SessionId)
        ensures { EndsInput self.old self.new session.0 }
    {
        marks::end(&mut self.marks, session.0);
    }

    /// Returns true if the input of a session has ended or the session isn't open.
    pub fn input_ended(&self, session: SessionId) -> bool
        ensures { result ≡ has_ended self.now session.0 }
    {
        marks::has_ended(&self.marks, session.0)
    }

    /// Closes a session.
    pub fn close_session(&mut self, session: SessionId)
        ensures { ClosesSession self.old self.new session.0 }
    {
        marks::close(&mut self.marks, session.0);
    }

    /// Returns the place of the next entry.
    pub fn len(&self) -> u64
        ensures { result ≡ next_place self.now.inner }
    {
        self.inner.len()
    }

    /// Returns the allocator that the hub was made with.
    pub fn allocator(&self) -> A {
        self.alloc
    }

    /// Proves `IsConsistentHub`, which holds of the hub whenever the lock is free.
    pub fn law_fits(&self)
        ensures { IsConsistentHub self.now }
    {
        let _ = self.inner.len();
        self.inner.law_taken();
    }

    /// Returns why the hub doesn't close on these, if it doesn't.
    fn close_fault(&self, lefts: &[Left<L, A>], clocks: &[ClockPass<L, A>]) -> Option<CloseFault>
        ensures fault { IfSome result (IsCloseFault self.now.inner lefts.now clocks.now) }
        ensures honest { IfSome result (λ f.
            IfForked f (Each (IsHonest self.now.inner) lefts.now)) }
        ensures none { IfNone result (
            (outer_count self.now.inner ≡ events_found lefts.now clocks.now)
            × Each (MatchesHistory (hub_core self.now.inner)) lefts.now) }
    {
        let expected = self.tally.outer();
        let found = left_events(lefts) + clock_events(clocks);
        if u128::from(expected) != found {
            return Some(CloseFault::Missing { expected, found });
        }
        law_all_honest(&self.inner, lefts);
        match least_fork(&self.inner, lefts) {
            Some(place) => Some(CloseFault::Forked { place }),
            None => None,
        }
    }

    /// Closes the hub, if each event of its history is one of those handed in, and what clients
    /// left is what the history has of them. Otherwise returns the reason, with the hub and all
    /// that was handed in.
    pub fn close(
        self,
        lefts: Vec<Left<L, A>, A>,
        clocks: Vec<ClockPass<L, A>, A>,
    ) -> Result<Closed, CloseRefused<C, L, A>>
        ensures ok { IfOk result (λ c. (c.outer ≡ outer_count self.inner)
            × (c.outer ≡ events_found lefts.items clocks.items)
            × (c.entries ≡ next_place self.inner)) }
        ensures legal { OnOk result (LegalSince (hub_core self.inner).start
            (hub_core self.inner).entries
            (events_of (hub_core self.inner).entries)) }
        ensures holds { OnOk result (Each (MatchesHistory (hub_core self.inner)) lefts.items) }
        ensures fault { IfErr result (λ e.
            IsCloseFault self.inner lefts.items clocks.items e.fault) }
        ensures honest { IfErr result (λ e.
            IfForked e.fault (Each (IsHonest self.inner) lefts.items)) }
        ensures handed { IfErr result (λ e. (e.hub ≡ self) × (e.left ≡ lefts)
            × (e.clock ≡ clocks)) }
    {
        let entries = self.inner.len();
        let outer = self.tally.outer();
        match self.close_fault(lefts.as_slice(), clocks.as_slice()) {
            None => Ok(Closed { outer, entries }),
            Some(fault) => Err(CloseRefused {
                fault,
                hub: self,
                left: lefts,
                clock: clocks,
            }),
        }
    }
}
