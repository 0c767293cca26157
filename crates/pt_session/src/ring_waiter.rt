//! How a working side waits for its next reading.

ghost use Rattle.std.specs.Prelude.{◌≡◌, ◌∷◌, ◌++◌, [], MatchOption};
ghost use Rattle.rtrb.specs.Ring.{received, SameConsumer};

use crate::handle::SessionHandle;
use crate::kinds::Reading;
use crate::reader_handoff::ReaderHandoff;
use crate::spin_budget::SpinBudget;
use pt_legal::LegalHistory;
use rtrb::Consumer;
use std::hint::spin_loop;
use std::sync::Wait;
use std::sync::ledger::Ledger;

/// The number of times the ring is polled before the thread sleeps: some 30 microseconds.
/// [profile]
const LOOKS: u32 = 3000;

/// What a working side knows as it waits: whether polling for the next reading pays before the
/// thread sleeps, and whether the session's input has ended.
#[derive(Drop)]
pub(crate) struct RingWaiter {
    patience: SpinBudget,
    looked_at: Option<u64>,
    has_ended: bool,
}

// Polls the ring for a while, and returns the next reading if it comes.
fn spin_for(ring: &mut Consumer<Reading>) -> Option<Reading>
    ensures ring { SameConsumer ring.old ring.new }
    ensures next { MatchOption result (received ring.new ≡ received ring.old)
        (λ line. received ring.new ≡ received ring.old ++ line ∷ []) }
{
    for _ in 0..LOOKS {
        if let Ok(line) = ring.pop() {
            return Some(line);
        }
        spin_loop();
    }
    None
}

impl RingWaiter {
    ghost use Rattle.std.specs.Prelude.{◌≡◌, ◌∷◌, ◌++◌, [], MatchOption};
    ghost use Rattle.rtrb.specs.Ring.{received, SameConsumer};

    /// Creates a watch that knows nothing yet.
    pub fn new() -> RingWaiter {
        RingWaiter {
            patience: SpinBudget::new(),
            looked_at: None,
            has_ended: false,
        }
    }

    // Returns true if no other thread pushes readings any more.
    fn is_over<C: LegalHistory, L: Ledger, T: Wait>(
        &mut self,
        handle: &SessionHandle<'_, C, L, T>,
        turns: Option<&ReaderHandoff>,
    ) -> bool {
        match turns {
            Some(turns) => turns.has_stopped(),
            None => self.input_ended(handle),
        }
    }

    // Returns whether the session's input has ended. After the first call, the lock is taken only
    // if an input has ended since the last one, of the sessions that share an event count.
    fn input_ended<C: LegalHistory, L: Ledger, T: Wait>(
        &mut self,
        handle: &SessionHandle<'_, C, L, T>,
    ) -> bool {
        let ends = handle.shared.ends(handle.session);
        if self.looked_at != Some(ends) {
            self.has_ended = handle.shared.input_ended(handle.rt, handle.session);
            self.looked_at = Some(ends);
        }
        self.has_ended
    }

    // Sleeps until the next reading comes, and returns it. Returns `None` if the ring is empty and
    // no other thread pushes into it any more.
    fn sleep_for<C: LegalHistory, L: Ledger, T: Wait>(
        &mut self,
        handle: &SessionHandle<'_, C, L, T>,
        turns: Option<&ReaderHandoff>,
        ring: &mut Consumer<Reading>,
    ) -> Option<Reading>
        ensures ring { SameConsumer ring.old ring.new }
        ensures next { MatchOption result (received ring.new ≡ received ring.old)
            (λ line. received ring.new ≡ received ring.old ++ line ∷ []) }
    {
        for _ in handle.rt.forever() {
            let epoch = handle.shared.epoch(handle.session);
            let is_over = self.is_over(handle, turns);
            if let Ok(line) = ring.pop() {
                return Some(line);
            }
            if is_over {
                return None;
            }
            handle.shared.sleep(handle.rt, handle.session, epoch);
        }
        unreachable!()
    }

    /// Waits for the next reading, and returns it. Returns `None` if the ring is empty and no other
    /// thread pushes into it any more. With `turns` given, that is so once the other thread has
    /// stopped; without, once the session's input has ended.
    pub fn next<C: LegalHistory, L: Ledger, T: Wait>(
        &mut self,
        handle: &SessionHandle<'_, C, L, T>,
        turns: Option<&ReaderHandoff>,
        ring: &mut Consumer<Reading>,
    ) -> Option<Reading>
        ensures ring { SameConsumer ring.old ring.new }
        ensures next { MatchOption result (received ring.new ≡ received ring.old)
            (λ line. received ring.new ≡ received ring.old ++ line ∷ []) }
    {
        if let Ok(line) = ring.pop() {
            return Some(line);
        }
        if self.patience.pays() {
            let found = spin_for(ring);
            self.patience.note(found.is_some());
            if let Some(line) = found {
                return Some(line);
            }
        }
        self.sleep_for(handle, turns, ring)
    }
}
