//! Living clients: who lives, with which priority and open call, and what a join and a death
//! change.

ghost use Rattle.std.specs.Prelude.{IfErr, OnErr, OnOk, Some, ℕ, ◌≡◌, false, unwrap_or};
ghost use Rattle.std.specs.Option.{option_copied};
ghost use Rattle.pt_model.specs.Histories.{place};
ghost use Rattle.pt_model.specs.Clients.{client_priority, is_alive as is_alive_in, living_count};
ghost use Rattle.pt_state.specs.Reads.{AreTables};
ghost use Rattle.pt_table.specs.ClientRows.{client_value};
ghost use Rattle.pt_table.specs.Linked.{is_linked, rows_without_links, HasChain, IsSortedTo};
ghost use Rattle.pt_table.specs.Linked.{KeepsOthers};
ghost use Rattle.pt_records.specs.Callers.{open_in};
ghost use Rattle.pt_model.specs.Answers.{open_place as open_place_in};
ghost use Rattle.pt_model.specs.Verdicts.{is_alive_if as is_alive_if_in};
ghost use Rattle.pt_state.specs.Adds.{Adds, HasRoomFor, AddsNothing, history_of};
ghost use Rattle.pt_model.specs.declared.entry.Entry.TheVariants as entry;
ghost use Rattle.pt_state.specs.Serving.{owned_in};

use crate::state::State;
use pt_model::Entry;
use pt_records::clients::{admit, dismiss};
use pt_records::{Caller, Object, Open};
use pt_table::{Clients, Objects};
use pt_types::{ClientId, Priority, Refusal};
use std::alloc::Allocator;

// Returns the robust mutex that a client acquired last, of those that it owns.
fn owned_by<A: Allocator + Copy>(clients: &Clients<Caller, A>, c: ClientId) -> Option<u64>
    ensures { result ≡ owned_in (client_value clients.now c) }
{
    match clients.at(c.0) {
        Some(caller) => caller.owned,
        None => None,
    }
}

// Puts the chain of the robust mutexes that a dying client owns in rising order of their numbers,
// and returns its head.
fn orphans_of<A: Allocator + Copy>(
    clients: &Clients<Caller, A>,
    objects: &mut Objects<Object<A>, A>,
    c: ClientId,
) -> Option<u64>
    requires { HasChain objects.old (owned_in (client_value clients.now c)) }
    ensures chain { IsSortedTo objects.old objects.new
        (owned_in (client_value clients.now c)) result }
    ensures others { KeepsOthers objects.old objects.new (owned_in (client_value clients.now c)) }
    ensures linked { (n : ℕ) → is_linked objects.new n ≡ is_linked objects.old n }
    ensures rows { rows_without_links objects.new ≡ rows_without_links objects.old }
{
    let owned = owned_by(clients, c);
    objects.sort(owned)
}

impl<A: Allocator + Copy> State<A> {
    /// Returns whether a client lives.
    pub fn is_alive(&self, c: ClientId) -> bool
        requires { AreTables self.now }
        ensures { result ≡ is_alive_in (history_of self.now) c }
    {
        self.clients.at(c.0).is_some()
    }

    /// Returns the priority of a client, or None if it does not live.  [XSH 2.8.4]
    pub fn priority(&self, c: ClientId) -> Option<Priority>
        requires { AreTables self.now }
        ensures { result ≡ client_priority (history_of self.now) c }
    {
        match self.clients.at(c.0) {
            Some(caller) => Some(caller.priority),
            None => None,
        }
    }

    /// Returns the priority of a client, or 0 if it does not live.  [XSH 2.8.4]
    pub fn priority_of(&self, c: ClientId) -> u64
        requires { AreTables self.now }
        ensures { result ≡ unwrap_or (client_priority (history_of self.now) c) 0 }
    {
        match self.clients.at(c.0) {
            Some(caller) => caller.priority.level() as u64,
            None => 0,
        }
    }

    /// Returns a client's open call with its move, if it has one.
    pub fn open_of(&self, c: ClientId) -> Option<&Open>
        requires { AreTables self.now }
        ensures { option_copied result ≡ open_in (client_value self.now.clients c) }
    {
        match self.clients.at(c.0) {
            Some(caller) => caller.open.as_ref(),
            None => None,
        }
    }

    /// Returns the place of a client's open call, if it has one.
    pub fn open_place(&self, c: ClientId) -> Option<u64>
        requires { AreTables self.now }
        ensures { result ≡ open_place_in (history_of self.now) c }
    {
        match self.open_of(c) {
            Some(open) => Some(open.call.place),
            None => None,
        }
    }

    /// Returns the number of living clients.
    pub fn living(&self) -> usize
        requires { AreTables self.now }
        ensures { result ≡ living_count (history_of self.now) }
    {
        self.clients.len()
    }

    /// Returns whether there is an owner and it is a living client.  [XSH pthread_mutex_destroy]
    pub fn is_alive_if(&self, owner: Option<ClientId>) -> bool
        requires { AreTables self.now }
        ensures { result ≡ is_alive_if_in (history_of self.now) owner }
    {
        match owner {
            Some(c) => self.is_alive(c),
            None => false,
        }
    }

    /// Pushes the Join of a client, and adds its row. Returns ENOMEM if the row's growth is
    /// refused.
    pub fn push_join(&mut self, priority: Priority) -> Result<(), Refusal>
        requires { HasRoomFor self.old (entry.Join (place (history_of self.old)) priority) }
        ensures ok { OnOk result
            (Adds self.old (entry.Join (place (history_of self.old)) priority) self.new) }
        ensures unchanged { OnErr result (AddsNothing self.old self.new) }
        ensures err { IfErr result (λ refusal. refusal ≡ Refusal.Enomem) }
    {
        let place = self.stored.len();
        let caller = Caller {
            priority,
            open: None,
            latest: None,
            answer: None,
            owned: None,
        };
        admit(&mut self.clients, ClientId(place), caller)?;
        self.stored.push(Entry::Join(ClientId(place), priority));
        Ok(())
    }

    /// Pushes the Death of a client, and removes its row with its open call. The robust mutexes
    /// that it owned have a dead owner from then on.  [XSH pthread_mutex_lock, EOWNERDEAD]
    pub fn push_death(&mut self, c: ClientId)
        requires { HasRoomFor self.old (entry.Death c) }
        ensures { Adds self.old (entry.Death c) self.new }
    {
        self.orphans = orphans_of(&self.clients, &mut self.objects, c);
        dismiss(&mut self.clients, c);
        self.stored.push(Entry::Death(c));
    }
}
