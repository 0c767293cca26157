//! Entries as they are turned into their stored form.

ghost use Rattle.std.specs.Prelude.{◌≡◌, ◌+◌, ◌<◌, ◌≤◌, None, IfSome, vec_len};
ghost use Rattle.pt_history.specs.Compact.{outcome_of_answer, read_compact, forced_entry};
ghost use Rattle.pt_history.specs.Records.{HasPartsRoom, Shows, ShowsIfSome};
ghost use Rattle.pt_model.specs.declared.entry.Entry.TheVariants.{Call as CallEntry};
ghost use Rattle.pt_model.specs.declared.entry.Entry.TheVariants.{Moment as MomentEntry};

use crate::compact::{
    Answer, Compact, ForcedEntry, Word, answer_of, barrier, entry_of, named, near, single_entry,
    stored_forced, timed, timed_wait,
};
use crate::reading::copied;
use crate::records::Records;
use crate::texts::{both_found, found, one_text, short, two_texts};
use pt_model::Entry;
use pt_types::{Call, ClientId, Clock, Moment, NamedVerb, Outcome};
use std::alloc::Allocator;

impl<A: Allocator + Copy> Records<A> {
    // Stores what a call with one name refers to, and returns its stored form, if its numbers fit.
    fn store_named(
        &mut self,
        base: u64,
        client: u32,
        call: &Call,
        answer: Answer,
    ) -> Option<Compact>
        requires { HasPartsRoom self.old 1 }
        ensures { ShowsIfSome base (CallEntry (base + client) call.now (outcome_of_answer answer))
            self.old self.new result }
    {
        let (word, name) = named(call)?;
        let (length, from) = one_text(&mut self.texts, &mut self.hints, name)?;
        Some(Compact::Named(word, answer, length, client, from))
    }

    // Stores what a call that makes a barrier refers to, and returns its stored form, if its
    // numbers fit.
    fn store_barrier(
        &mut self,
        base: u64,
        client: u32,
        call: &Call,
        answer: Answer,
    ) -> Option<Compact>
        requires { HasPartsRoom self.old 1 }
        ensures { ShowsIfSome base (CallEntry (base + client) call.now (outcome_of_answer answer))
            self.old self.new result }
    {
        let (name, count) = barrier(call)?;
        let (length, from) = one_text(&mut self.texts, &mut self.hints, name)?;
        Some(Compact::Barrier(answer, length, client, from, count))
    }

    // Stores what a call for a lock with a deadline refers to, and returns its stored form, if its
    // numbers fit.
    #[inline(always)]
    fn store_timed(
        &mut self,
        base: u64,
        client: u32,
        call: &Call,
        answer: Answer,
    ) -> Option<Compact>
        requires { HasPartsRoom self.old 1 }
        ensures { ShowsIfSome base (CallEntry (base + client) call.now (outcome_of_answer answer))
            self.old self.new result }
    {
        let Some((kind, name, limit)) = timed(call) else {
            return None;
        };
        let index = short(self.limits.len())?;
        let (length, from) = one_text(&mut self.texts, &mut self.hints, name)?;
        self.limits.push_reserved(limit);
        Some(Compact::Timed(kind, answer, length, client, from, index))
    }

    // Stores what a wait without a deadline refers to, and returns its stored form, if its numbers
    // fit.
    fn store_wait(&mut self, base: u64, client: u32, call: &Call, answer: Answer) -> Option<Compact>
        requires { HasPartsRoom self.old 1 }
        ensures { ShowsIfSome base (CallEntry (base + client) call.now (outcome_of_answer answer))
            self.old self.new result }
    {
        let Call::Wait(cond, mutex) = call else {
            return None;
        };
        let (first, second, from) = two_texts(&mut self.texts, &mut self.hints, cond, mutex)?;
        Some(Compact::Wait(answer, first, second, client, from))
    }

    // Stores what a wait with a deadline refers to, and returns its stored form, if its numbers
    // fit.
    fn store_timed_wait(
        &mut self,
        base: u64,
        client: u32,
        call: &Call,
        answer: Answer,
    ) -> Option<Compact>
        requires { HasPartsRoom self.old 1 }
        ensures { ShowsIfSome base (CallEntry (base + client) call.now (outcome_of_answer answer))
            self.old self.new result }
    {
        let Some((cond, mutex, limit)) = timed_wait(call) else {
            return None;
        };
        let index = short(self.limits.len())?;
        let (first, second, from) = two_texts(&mut self.texts, &mut self.hints, cond, mutex)?;
        self.limits.push_reserved(limit);
        Some(Compact::TimedWait(answer, first, second, client, from, index))
    }

    // Stores what any call refers to, and returns its stored form, if its numbers fit.
    fn store_call(&mut self, base: u64, client: u32, call: &Call, answer: Answer) -> Option<Compact>
        requires { HasPartsRoom self.old 1 }
        ensures { ShowsIfSome base (CallEntry (base + client) call.now (outcome_of_answer answer))
            self.old self.new result }
    {
        match call {
            Call::BarrierInit(..) => self.store_barrier(base, client, call, answer),
            Call::Wait(..) => self.store_wait(base, client, call, answer),
            Call::Timedwait(..) | Call::Clockwait(..) => {
                self.store_timed_wait(base, client, call, answer)
            }
            Call::Timedlock(..)
            | Call::Clocklock(..)
            | Call::Timedrdlock(..)
            | Call::Clockrdlock(..)
            | Call::Timedwrlock(..)
            | Call::Clockwrlock(..) => self.store_timed(base, client, call, answer),
            _ => self.store_named(base, client, call, answer),
        }
    }

    // Stores what any call refers to, and returns its stored form, if its client's number and its
    // own numbers fit.
    #[inline(always)]
    fn store_short_call(
        &mut self,
        base: u64,
        client: ClientId,
        call: &Call,
        outcome: Option<Outcome>,
    ) -> Option<Compact>
        requires { HasPartsRoom self.old 1 }
        ensures { ShowsIfSome base (CallEntry client call.now outcome) self.old self.new result }
    {
        let client = near(base, client.0)?;
        self.store_call(base, client, call, answer_of(outcome))
    }

    /// Stores what the entry of a call for a lock with a deadline refers to, and returns its stored
    /// form, if its numbers fit. This allocates nothing.
    pub(crate) fn store_short_timed(
        &mut self,
        base: u64,
        client: ClientId,
        call: &Call,
        outcome: Option<Outcome>,
    ) -> Option<Compact>
        requires { HasPartsRoom self.old 1 }
        ensures { ShowsIfSome base (CallEntry client call.now outcome) self.old self.new result }
    {
        let client = near(base, client.0)?;
        self.store_timed(base, client, call, answer_of(outcome))
    }

    /// Returns the stored form of a call with one name, if a hint finds that name and the client's
    /// number fits.
    #[inline(always)]
    pub(crate) fn interned_name(
        &self,
        base: u64,
        client: ClientId,
        call: &Call,
        outcome: Option<Outcome>,
    ) -> Option<Compact>
        ensures { ShowsIfSome base (CallEntry client call.now outcome) self.now self.now result }
    {
        let (verb, name) = NamedVerb::of(call)?;
        let from = found(&self.texts, &self.hints, name)?;
        let client = near(base, client.0)?;
        let length = name.as_bytes().len() as u8;
        Some(Compact::Named(Word::Named(verb), answer_of(outcome), length, client, from))
    }

    // Does what `interned_name` does, also for a call that makes a mutex.
    fn interned_word(
        &self,
        base: u64,
        client: ClientId,
        call: &Call,
        outcome: Option<Outcome>,
    ) -> Option<Compact>
        ensures { ShowsIfSome base (CallEntry client call.now outcome) self.now self.now result }
    {
        let (word, name) = named(call)?;
        let from = found(&self.texts, &self.hints, name)?;
        let client = near(base, client.0)?;
        let length = name.as_bytes().len() as u8;
        Some(Compact::Named(word, answer_of(outcome), length, client, from))
    }

    // Returns the stored form of a call that makes a barrier, if a hint finds its name and its
    // numbers fit.
    fn interned_barrier(
        &self,
        base: u64,
        client: ClientId,
        call: &Call,
        outcome: Option<Outcome>,
    ) -> Option<Compact>
        ensures { ShowsIfSome base (CallEntry client call.now outcome) self.now self.now result }
    {
        let (name, count) = barrier(call)?;
        let from = found(&self.texts, &self.hints, name)?;
        let client = near(base, client.0)?;
        let length = name.as_bytes().len() as u8;
        Some(Compact::Barrier(answer_of(outcome), length, client, from, count))
    }

    /// Returns the stored form of a call that makes a mutex or a barrier, if a hint finds its name
    /// and its numbers fit.
    pub(crate) fn interned_init(
        &self,
        base: u64,
        client: ClientId,
        call: &Call,
        outcome: Option<Outcome>,
    ) -> Option<Compact>
        ensures { ShowsIfSome base (CallEntry client call.now outcome) self.now self.now result }
    {
        match call {
            Call::BarrierInit(..) => self.interned_barrier(base, client, call, outcome),
            _ => self.interned_word(base, client, call, outcome),
        }
    }

    /// Returns the stored form of a wait without a deadline, if a hint finds both names and the
    /// client's number fits.
    #[inline(always)]
    pub(crate) fn interned_wait(
        &self,
        base: u64,
        client: ClientId,
        call: &Call,
        outcome: Option<Outcome>,
    ) -> Option<Compact>
        ensures { ShowsIfSome base (CallEntry client call.now outcome) self.now self.now result }
    {
        let Call::Wait(cond, mutex) = call else {
            return None;
        };
        let (first, second, from) = both_found(&self.texts, &self.hints, cond, mutex)?;
        let client = near(base, client.0)?;
        Some(Compact::Wait(answer_of(outcome), first, second, client, from))
    }

    // Stores a reading of a clock, and returns the stored form of its entry, if its index fits.
    fn store_moment(&mut self, base: u64, clock: Clock, moment: Moment) -> Option<Compact>
        requires { HasPartsRoom self.old 1 }
        ensures { ShowsIfSome base (MomentEntry clock moment) self.old self.new result }
    {
        let index = short(self.moments.len())?;
        self.moments.push_reserved(moment);
        Some(Compact::Moment(clock, index))
    }

    // Stores what an entry refers to, and returns its stored form, if its numbers fit.
    fn store_short(&mut self, base: u64, entry: &Entry) -> Option<Compact>
        requires { HasPartsRoom self.old 1 }
        ensures { ShowsIfSome base entry.now self.old self.new result }
    {
        match entry {
            Entry::Call(client, call, outcome) => {
                self.store_short_call(base, *client, call, *outcome)
            }
            Entry::Moment(clock, moment) => self.store_moment(base, *clock, *moment),
            _ => single_entry(base, entry),
        }
    }

    // Stores an entry whole, and returns its stored form.
    fn store_whole(&mut self, base: u64, entry: Entry) -> Compact
        requires room { HasPartsRoom self.old 1 }
        requires within { vec_len self.old.wholes ≤ 4294967295 }
        ensures { Shows base entry self.old self.new result }
    {
        let index = self.wholes.len() as u32;
        self.wholes.push_reserved(entry);
        Compact::Whole(index)
    }

    // Stores a copy of an entry whole, and returns its stored form. This is rare, so it is not
    // inlined.
    #[cold]
    #[inline(never)]
    fn store_copy(&mut self, base: u64, entry: &Entry) -> Compact
        requires room { HasPartsRoom self.old 1 }
        requires within { vec_len self.old.wholes ≤ 4294967295 }
        ensures { Shows base entry.now self.old self.new result }
    {
        self.store_whole(base, copied(entry))
    }

    // Stores the entry of a call whole, and returns its stored form. This is rare, so it is not
    // inlined.
    #[cold]
    #[inline(never)]
    fn store_whole_call(
        &mut self,
        base: u64,
        client: ClientId,
        call: &Call,
        outcome: Option<Outcome>,
    ) -> Compact
        requires room { HasPartsRoom self.old 1 }
        requires within { vec_len self.old.wholes ≤ 4294967295 }
        ensures { Shows base (CallEntry client call.now outcome) self.old self.new result }
    {
        self.store_whole(base, Entry::Call(client, call.copied(), outcome))
    }

    // Stores a forced entry whole, and returns its stored form. This is rare, so it is not inlined.
    // It takes the entry by value, so that the entry may stay in registers if this is not called.
    #[cold]
    #[inline(never)]
    fn store_whole_forced(&mut self, base: u64, forced: ForcedEntry) -> Compact
        requires room { HasPartsRoom self.old 1 }
        requires within { vec_len self.old.wholes ≤ 4294967295 }
        ensures { Shows base (forced_entry forced) self.old self.new result }
    {
        self.store_whole(base, entry_of(&forced))
    }

    // Returns the stored form of a forced entry, if its number fits.
    fn store_short_forced(&mut self, base: u64, forced: &ForcedEntry) -> Option<Compact>
        requires { HasPartsRoom self.old 1 }
        ensures { ShowsIfSome base (forced_entry forced.now) self.old self.new result }
    {
        stored_forced(base, forced)
    }

    /// Stores a forced entry, and returns its stored form. This allocates nothing.
    pub(crate) fn store_forced(&mut self, base: u64, forced: &ForcedEntry) -> Compact
        requires room { HasPartsRoom self.old 1 }
        requires within { vec_len self.old.wholes ≤ 4294967295 }
        ensures { Shows base (forced_entry forced.now) self.old self.new result }
    {
        match self.store_short_forced(base, forced) {
            Some(compact) => compact,
            None => self.store_whole_forced(base, *forced),
        }
    }

    /// Stores what an entry refers to, and returns its stored form. The entry is copied only if one
    /// of its numbers does not fit. This allocates nothing.
    pub(crate) fn store(&mut self, base: u64, entry: &Entry) -> Compact
        requires room { HasPartsRoom self.old 1 }
        requires within { vec_len self.old.wholes ≤ 4294967295 }
        ensures { Shows base entry.now self.old self.new result }
    {
        match self.store_short(base, entry) {
            Some(compact) => compact,
            None => self.store_copy(base, entry),
        }
    }

    /// Stores what a call's entry refers to, and returns its stored form. The call is copied only
    /// if one of its numbers does not fit. This allocates nothing.
    pub(crate) fn store_borrowed(
        &mut self,
        base: u64,
        client: ClientId,
        call: &Call,
        outcome: Option<Outcome>,
    ) -> Compact
        requires room { HasPartsRoom self.old 1 }
        requires within { vec_len self.old.wholes ≤ 4294967295 }
        ensures { Shows base (CallEntry client call.now outcome) self.old self.new result }
    {
        match self.store_short_call(base, client, call, outcome) {
            Some(compact) => compact,
            None => self.store_whole_call(base, client, call, outcome),
        }
    }
}
