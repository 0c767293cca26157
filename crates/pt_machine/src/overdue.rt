//! The open calls whose deadline has passed, and the least deadline that is set.

ghost use Rattle.pt_state.specs.Adds.{history_of};
ghost use Rattle.std.specs.Option.{option_copied};
ghost use Rattle.std.specs.Prelude.{IfSome, None, ◌==◌, ◌≡◌, false, option_map};
ghost use Rattle.pt_records.specs.Callers.{open_in, opens_of};
ghost use Rattle.pt_types.specs.Times.{deadline_nanos, is_invalid_deadline};
ghost use Rattle.pt_state.specs.Serving.{call_of_open};
ghost use Rattle.pt_table.specs.ClientRows.{client_value};
ghost use Rattle.pt_model.specs.Found.{option_filter};
ghost use Rattle.pt_state.specs.Reads.{AreTables};
ghost use Rattle.pt_model.specs.Queries.{least_deadline};
ghost use Rattle.pt_machine.specs.CallDeadlines.{IsFirstOverdue};
ghost use Rattle.pt_model.specs.Searches.{In};
ghost use Rattle.pt_model.specs.WaitingCall.{call_at_place};
ghost use Rattle.pt_model.specs.Answers.{open_calls};
ghost use Rattle.pt_model.specs.Forced.{forced, forced_service};

use crate::machine::Machine;
use pt_records::Open;
use pt_types::{ClientId, Clock, Deadline};
use pt_waitq::WaitList;
use std::alloc::Allocator;

impl<Q: WaitList, A: Allocator + Copy> Machine<Q, A> {
    // Returns the client's open call, if it came at this place.
    fn open_if_at(&self, c: ClientId, place: u64) -> Option<&Open>
        requires { AreTables self.now }
        ensures { option_copied result
            ≡ option_filter (λ o. o.call.place == place) (open_in
            (client_value self.now.clients c)) }
    {
        match self.state.open_of(c) {
            Some(open) if open.call.place == place => Some(open),
            _ => None,
        }
    }

    // Returns the open call that came at a place, if there is one. Its client is found by
    // `caller_at`.
    #[cold]
    #[inline(never)]
    fn open_stored_at(&self, place: u64) -> Option<&Open>
        requires { AreTables self.now }
        ensures value { option_map call_of_open (option_copied result)
            ≡ call_at_place place (open_calls (history_of self.now)) }
        ensures has_call { IfSome (option_copied result) (λ o. In o (opens_of self.now.clients)) }
    {
        self.open_if_at(self.caller_at(place)?, place)
    }

    /// Returns the open call that came at a place, if there is one. This client's open call is
    /// looked at first, since it takes longer to read the entry of an old call.
    pub(crate) fn open_at(&self, place: u64, c: ClientId) -> Option<&Open>
        requires { AreTables self.now }
        ensures value { option_map call_of_open (option_copied result)
            ≡ call_at_place place (open_calls (history_of self.now)) }
        ensures has_call { IfSome (option_copied result) (λ o. In o (opens_of self.now.clients)) }
    {
        match self.open_if_at(c, place) {
            Some(open) => Some(open),
            None => self.open_stored_at(place),
        }
    }

    /// Returns the place of the open call with the least deadline that has passed, and the client
    /// that was set with it, if there is one. Must be called only when no call is to be served.
    /// [XSH pthread_mutex_timedlock, the order is profile]
    pub(crate) fn first_due(&self) -> Option<(u64, ClientId)>
        requires tables { AreTables self.now }
        requires unserved { forced_service (history_of self.now) ≡ None }
        ensures { let h = history_of self.now in
            IsFirstOverdue h (option_map (λ due. due.0) result) }
    {
        let clocks = &self.state.clocks;
        self.timers.least_due(clocks.real, clocks.mono)
    }

    /// Returns the least deadline by this clock among the open calls that were not moved, as the
    /// call gave it.  [profile]
    pub fn least_deadline(&self, clock: Clock) -> Option<Deadline>
        requires tables { AreTables self.now }
        requires quiet { forced (history_of self.now) ≡ None }
        ensures value { option_map deadline_nanos result
            ≡ least_deadline (history_of self.now) clock }
        ensures time { IfSome result (λ deadline. is_invalid_deadline deadline ≡ false) }
    {
        self.timers.least(clock)
    }
}
