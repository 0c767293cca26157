//! What a client and a clock do under the lock.

ghost use Rattle.std.specs.Prelude.{◌≡◌, ◌∷◌, ◌++◌, [], None, true, false, option_map, IfOk, IfErr};
ghost use Rattle.std.specs.Prelude.{OnOk};
ghost use Rattle.std.specs.Prelude.{OnErr, IfSome, IfNone};
ghost use Rattle.pt_types.specs.Times.{deadline_nanos, is_invalid_deadline};
ghost use Rattle.pt_model.specs.declared.entry.Event.TheVariants as event;
ghost use Rattle.pt_model.specs.Queries.{least_deadline};
ghost use Rattle.pt_model.specs.Room.{refusal_with_seals};
ghost use Rattle.pt_legal.specs.Cores.{history_of};
ghost use Rattle.pt_hub.specs.AnsweringCores.{hub_core, IsRefusedAs, call_refusal};
ghost use Rattle.pt_hub.specs.Hubs.{JoinsHub, ExitsHub, Sends, TakesAnswer, Ticks};
ghost use Rattle.pt_hub.specs.Hubs.{receipts_with_answer, has_ended};
ghost use Rattle.pt_hub.specs.Hubs.{takeable_answer};
ghost use Rattle.pt_hub.specs.Asking.{CallsHub, HasNewReceipt};
ghost use Rattle.pt_session.specs.UnderLock.{FoundUnderLock, ChangedUnderLock};

use crate::shared::Shared;
use pt_hub::{Answer, ClockPass, Left, Pass, Sent, SessionId};
use pt_legal::LegalHistory;
use pt_types::{Call, Clock, Deadline, Moment, Priority, Refusal};
use std::sync::Wait;
use std::sync::ledger::Ledger;

impl<C: LegalHistory, L: Ledger> Shared<C, L> {
    /// Joins a client whose answers this session takes, and returns its pass.
    pub fn join<R: Wait>(
        &self,
        rt: &R,
        session: SessionId,
        priority: Priority,
    ) -> Result<Pass<L>, Refusal>
        ensures pass { IfOk result (λ pass. (pass.priority ≡ priority) × (pass.discarded ≡ [])
            × (pass.receipts ≡ [])) }
        ensures ok { IfOk result (λ pass. ChangedUnderLock
            (λ old new. JoinsHub old priority new pass)) }
        ensures err { IfErr result (λ refusal. FoundUnderLock (λ hub. IsRefusedAs
            (refusal_with_seals (hub_core hub.inner).limit (history_of (hub_core hub.inner))
            (event.Join priority))
            refusal)) }
    {
        let mut room = self.lock_for_event(rt, Some(session));
        room.law_fits();
        let place = room.hub.len();
        match room.hub.join(priority) {
            Ok(pass) => {
                room.law_fits();
                room.attendance.attach(session, pass.client());
                self.unlock(room, place, &None);
                Ok(pass)
            }
            Err(refusal) => Err(refusal),
        }
    }

    /// Makes a call for a client, and adds it to the client's receipts.
    pub fn call<R: Wait>(
        &self,
        rt: &R,
        session: SessionId,
        pass: &mut Pass<L>,
        call: Call,
    ) -> Result<Sent, Refusal>
        ensures pass { IfOk result (λ sent. HasNewReceipt pass.old call sent None pass.new) }
        ensures ok { IfOk result (λ sent.
            ChangedUnderLock (λ old new. Sends old pass.old call new pass.new sent)) }
        ensures err { IfErr result (λ refusal. FoundUnderLock (λ hub.
            IsRefusedAs (call_refusal hub.inner pass.old.client call) refusal)) }
        ensures unchanged { OnErr result (pass.new ≡ pass.old) }
    {
        let mut room = self.lock_for_event(rt, Some(session));
        room.law_fits();
        let place = room.hub.len();
        match room.hub.call(pass, call) {
            Ok(sent) => {
                room.law_fits();
                self.unlock_after_call(room, place, pass.client(), !sent.ready);
                Ok(sent)
            }
            Err(refusal) => Err(refusal),
        }
    }

    /// Takes the answer to the client's last call, if it has come and was not taken yet, and stores
    /// it in the call's receipt.
    pub fn take<R: Wait>(&self, rt: &R, pass: &mut Pass<L>) -> Option<Answer>
        ensures pass { IfSome result (λ answer. pass.new
            ≡ record pass.old { receipts = receipts_with_answer pass.old.receipts answer.outcome }) }
        ensures some { IfSome result (λ answer.
            ChangedUnderLock (λ old new. TakesAnswer old pass.old new pass.new answer)) }
        ensures none { IfNone result (FoundUnderLock (λ hub. takeable_answer hub pass.old ≡ None)) }
        ensures unchanged { IfNone result (pass.new ≡ pass.old) }
    {
        let mut room = self.lock(rt);
        room.law_fits();
        match room.hub.take(pass) {
            Some(answer) => {
                room.law_fits();
                Some(answer)
            }
            None => None,
        }
    }

    /// Makes a call for a client, adds it to the client's receipts, and takes its answer if that
    /// comes at once: `call` and then `take`, with no other event between them.
    pub fn ask<R: Wait>(
        &self,
        rt: &R,
        session: SessionId,
        pass: &mut Pass<L>,
        call: Call,
    ) -> Result<(Sent, Option<Answer>), Refusal>
        ensures pass { IfOk result (λ r. HasNewReceipt pass.old call r.0 r.1 pass.new) }
        ensures ok { IfOk result (λ r.
            ChangedUnderLock (λ old new. CallsHub old pass.old call new pass.new r.0 r.1)) }
        ensures err { IfErr result (λ refusal. FoundUnderLock (λ hub.
            IsRefusedAs (call_refusal hub.inner pass.old.client call) refusal)) }
        ensures unchanged { OnErr result (pass.new ≡ pass.old) }
    {
        let mut room = self.lock_for_event(rt, Some(session));
        room.law_fits();
        let place = room.hub.len();
        match room.hub.ask(pass, call) {
            Ok(reply) => {
                room.law_fits();
                self.unlock_after_call(room, place, pass.client(), reply.1.is_none());
                Ok(reply)
            }
            Err(refusal) => Err(refusal),
        }
    }

    /// Waits for the answer to the client's last call, and takes it. Returns `None` if the
    /// session's input ends first.
    pub fn wait_for_answer<R: Wait>(
        &self,
        rt: &R,
        session: SessionId,
        pass: &mut Pass<L>,
    ) -> Option<Answer>
        ensures pass { IfSome result (λ answer. pass.new
            ≡ record pass.old { receipts = receipts_with_answer pass.old.receipts answer.outcome }) }
        ensures some { IfSome result (λ answer.
            ChangedUnderLock (λ old new. TakesAnswer old pass.old new pass.new answer)) }
        ensures none { IfNone result (FoundUnderLock (λ hub.
            (takeable_answer hub pass.old ≡ None) × (has_ended hub session.0 ≡ true))) }
        ensures unchanged { IfNone result (pass.new ≡ pass.old) }
    {
        for _ in rt.forever() {
            let epoch = self.epoch(session);
            let mut room = self.lock(rt);
            room.law_fits();
            if let Some(answer) = room.hub.take(pass) {
                room.law_fits();
                return Some(answer);
            }
            if room.hub.input_ended(session) {
                return None;
            }
            drop(room);
            self.sleep(rt, session, epoch);
        }
        unreachable!()
    }

    /// Lets a client die, and returns what it leaves.
    pub fn die<R: Wait>(&self, rt: &R, pass: Pass<L>) -> Left<L>
        ensures left { (result.client ≡ pass.client) × (result.priority ≡ pass.priority)
            × (result.discarded ≡ pass.discarded) × (result.receipts ≡ pass.receipts) }
        ensures dies { ChangedUnderLock (λ old new. ExitsHub old new pass result) }
    {
        let mut room = self.lock(rt);
        room.attendance.detach(pass.client());
        room.law_fits();
        let place = room.hub.len();
        let left = room.hub.die(pass);
        room.law_fits();
        self.unlock(room, place, &None);
        left
    }

    /// Hands in a reading of a clock, for this session, or for the server's clock.
    pub fn moment<R: Wait>(
        &self,
        rt: &R,
        session: Option<SessionId>,
        pass: &mut ClockPass<L>,
        clock: Clock,
        moment: Moment,
    ) -> Result<(), Refusal>
        ensures pass { OnOk result (pass.new ≡ record pass.old {
          moments = pass.old.moments ++ record { clock = clock; moment = moment } ∷ [];
        }) }
        ensures ok { OnOk result (ChangedUnderLock (λ old new. Ticks old clock moment new)) }
        ensures err { IfErr result (λ refusal. FoundUnderLock (λ hub. IsRefusedAs
            (refusal_with_seals (hub_core hub.inner).limit (history_of (hub_core hub.inner))
            (event.Moment clock moment))
            refusal)) }
        ensures unchanged { OnErr result (pass.new ≡ pass.old) }
    {
        let mut room = self.lock_for_event(rt, session);
        room.law_fits();
        let place = room.hub.len();
        match room.hub.moment(pass, clock, moment) {
            Ok(()) => {
                room.law_fits();
                self.unlock(room, place, &None);
                Ok(())
            }
            Err(refusal) => Err(refusal),
        }
    }

    /// Returns the least deadline by this clock of the open calls that are not moved, as the call
    /// gave it: with nanoseconds below 1,000,000,000.
    pub fn least_deadline<R: Wait>(&self, rt: &R, clock: Clock) -> Option<Deadline>
        ensures value { FoundUnderLock (λ hub. option_map deadline_nanos result
            ≡ least_deadline (history_of (hub_core hub.inner)) clock) }
        ensures time { IfSome result (λ deadline. is_invalid_deadline deadline ≡ false) }
    {
        let room = self.lock(rt);
        room.law_fits();
        room.hub.least_deadline(clock)
    }
}
