//! Pushes of calls and of forced entries, in room that was made for them.

use crate::compact::{ForcedEntry, stored_forced};
use crate::stored::{History, append};
use pt_types::{Call, ClientId, Outcome};
use std::alloc::Allocator;

impl<A: Allocator + Copy> History<A> {
    ghost use Rattle.std.specs.Prelude.{◌≡◌, ◌-◌, ◌<◌, [], ◌∷◌, ◌++◌, if◌then◌else◌};
    ghost use Rattle.pt_history.specs.Stored.{stored_with};
    ghost use Rattle.pt_model.specs.declared.entry.Entry.TheVariants.{Call as CallEntry};
    ghost use Rattle.pt_model.specs.declared.entry.Entry.TheVariants.{Grant as GrantEntry};
    ghost use Rattle.pt_history.specs.Compact.{forced_entry};

    // Appends the entry of a call with one name, if a hint finds that name and the client's number
    // fits, and reports whether it did.
    #[inline(always)]
    fn push_interned_name(
        &mut self,
        client: ClientId,
        call: &Call,
        outcome: Option<Outcome>,
    ) -> bool
        requires { 0 < self.old.room }
        ensures { self.new
            ≡ if result then stored_with
            (CallEntry client call.now outcome) self.old else self.old }
    {
        let interned = self.records.interned_name(self.base, client, call, outcome);
        let Some(compact) = interned else {
            return false;
        };
        self.outer += 1;
        append(&mut self.entries, &mut self.room, &mut self.memory, compact);
        true
    }

    // Appends the entry of a call that makes a mutex or a barrier, if a hint finds its name and its
    // numbers fit, and reports whether it did.
    fn push_interned_init(
        &mut self,
        client: ClientId,
        call: &Call,
        outcome: Option<Outcome>,
    ) -> bool
        requires { 0 < self.old.room }
        ensures { self.new
            ≡ if result then stored_with
            (CallEntry client call.now outcome) self.old else self.old }
    {
        let interned = self.records.interned_init(self.base, client, call, outcome);
        let Some(compact) = interned else {
            return false;
        };
        self.outer += 1;
        append(&mut self.entries, &mut self.room, &mut self.memory, compact);
        true
    }

    // Appends the entry of a wait without a deadline, if a hint finds both names and the client's
    // number fits, and reports whether it did.
    #[inline(always)]
    fn push_interned_wait(
        &mut self,
        client: ClientId,
        call: &Call,
        outcome: Option<Outcome>,
    ) -> bool
        requires { 0 < self.old.room }
        ensures { self.new
            ≡ if result then stored_with
            (CallEntry client call.now outcome) self.old else self.old }
    {
        let interned = self.records.interned_wait(self.base, client, call, outcome);
        let Some(compact) = interned else {
            return false;
        };
        self.outer += 1;
        append(&mut self.entries, &mut self.room, &mut self.memory, compact);
        true
    }

    // Appends the entry of a call for a lock with a deadline, if its numbers fit, and reports
    // whether it did.
    fn push_timed(&mut self, client: ClientId, call: &Call, outcome: Option<Outcome>) -> bool
        requires { 0 < self.old.room }
        ensures { self.new
            ≡ if result then stored_with
            (CallEntry client call.now outcome) self.old else self.old }
    {
        let stored = self
            .records
            .store_short_timed(self.base, client, call, outcome);
        let Some(compact) = stored else {
            return false;
        };
        self.outer += 1;
        append(&mut self.entries, &mut self.room, &mut self.memory, compact);
        true
    }

    // Appends the entry of any call. This is rare, so it is not inlined.
    #[cold]
    #[inline(never)]
    fn push_other_call(&mut self, client: ClientId, call: &Call, outcome: Option<Outcome>)
        requires { 0 < self.old.room }
        ensures { self.new ≡ stored_with (CallEntry client call.now outcome) self.old }
    {
        self.outer += 1;
        let compact = self
            .records
            .store_borrowed(self.base, client, call, outcome);
        append(&mut self.entries, &mut self.room, &mut self.memory, compact);
    }

    // Appends the entry of any call. A call for a lock with a deadline takes the fewest steps.
    #[inline(never)]
    fn push_any_call(&mut self, client: ClientId, call: &Call, outcome: Option<Outcome>)
        requires { 0 < self.old.room }
        ensures { self.new ≡ stored_with (CallEntry client call.now outcome) self.old }
    {
        if !self.push_timed(client, call, outcome) {
            self.push_other_call(client, call, outcome);
        }
    }

    /// Appends the entry of a call, in room that was made for it. This allocates nothing. A call
    /// that has one name and nothing else takes the fewest steps.
    #[inline(always)]
    pub fn push_named(&mut self, client: ClientId, call: &Call, outcome: Option<Outcome>)
        requires { 0 < self.old.room }
        ensures { self.new
            ≡ record self.old {
              entries = self.old.entries ++ CallEntry client call.now outcome ∷ [];
              room = self.old.room - 1;
            } }
    {
        if !self.push_interned_name(client, call, outcome) {
            self.push_any_call(client, call, outcome);
        }
    }

    /// Does what `push_named` does. A wait without a deadline takes the fewest steps.
    #[inline(always)]
    pub fn push_wait(&mut self, client: ClientId, call: &Call, outcome: Option<Outcome>)
        requires { 0 < self.old.room }
        ensures { self.new
            ≡ record self.old {
              entries = self.old.entries ++ CallEntry client call.now outcome ∷ [];
              room = self.old.room - 1;
            } }
    {
        if !self.push_interned_wait(client, call, outcome) {
            self.push_any_call(client, call, outcome);
        }
    }

    // Does what `push_named` does. A call that makes a mutex or a barrier takes the fewest steps.
    fn push_created(&mut self, client: ClientId, call: &Call, outcome: Option<Outcome>)
        requires { 0 < self.old.room }
        ensures { self.new
            ≡ record self.old {
              entries = self.old.entries ++ CallEntry client call.now outcome ∷ [];
              room = self.old.room - 1;
            } }
    {
        if !self.push_interned_init(client, call, outcome) {
            self.push_any_call(client, call, outcome);
        }
    }

    /// Does what `push_named` does. Each call that comes often takes few steps. It is not inlined.
    #[inline(never)]
    pub fn push_call(&mut self, client: ClientId, call: &Call, outcome: Option<Outcome>)
        requires { 0 < self.old.room }
        ensures { self.new
            ≡ record self.old {
              entries = self.old.entries ++ CallEntry client call.now outcome ∷ [];
              room = self.old.room - 1;
            } }
    {
        match call {
            Call::Wait(..) => self.push_wait(client, call, outcome),
            Call::MutexInit(..) | Call::BarrierInit(..) => self.push_created(client, call, outcome),
            _ => self.push_named(client, call, outcome),
        }
    }

    /// Appends a forced entry, in room that was made for it. This allocates nothing.
    #[inline(always)]
    pub fn push_forced(&mut self, forced: ForcedEntry)
        requires { 0 < self.old.room }
        ensures { self.new
            ≡ record self.old {
              entries = self.old.entries ++ forced_entry forced ∷ [];
              room = self.old.room - 1;
            } }
    {
        let compact = self.records.store_forced(self.base, &forced);
        append(&mut self.entries, &mut self.room, &mut self.memory, compact);
    }

    /// Appends a Grant, in room that was made for it. This allocates nothing, and is not inlined. A
    /// Grant whose number fits is stored here, since `push_forced` would write it to memory first.
    #[inline(never)]
    pub fn push_grant(&mut self, place: u64, outcome: Outcome)
        requires { 0 < self.old.room }
        ensures { self.new
            ≡ record self.old {
              entries = self.old.entries ++ GrantEntry place outcome ∷ [];
              room = self.old.room - 1;
            } }
    {
        let grant = ForcedEntry::Grant(place, outcome);
        let Some(compact) = stored_forced(self.base, &grant) else {
            return self.push_forced(grant);
        };
        append(&mut self.entries, &mut self.room, &mut self.memory, compact);
    }
}
