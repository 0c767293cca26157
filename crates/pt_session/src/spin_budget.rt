//! Whether polling for something pays before a thread sleeps until it comes.

/// The greatest credit.  [profile]
const MAX_CREDIT: u32 = 16;

/// The credit that is lost if nothing came while a thread polled.  [profile]
const COST: u32 = 4;

/// The number of waits among which a thread without enough credit polls once.  [profile]
const TRIES: u32 = 64;

/// An estimate of whether polling for a while pays before a thread sleeps, based on what recent
/// polling brought.
#[derive(Drop)]
pub struct SpinBudget {
    credit: u32,
    waits: u32,
}

impl SpinBudget {
    /// Creates an estimate that knows nothing yet, with the greatest credit.
    pub fn new() -> SpinBudget {
        SpinBudget {
            credit: MAX_CREDIT,
            waits: 0,
        }
    }

    /// Counts one wait, and returns whether to poll this time.
    pub fn pays(&mut self) -> bool {
        self.waits = self.waits.wrapping_add(1);
        self.credit >= COST || self.waits % TRIES == 0
    }

    /// Notes whether something came while a thread polled.
    pub fn note(&mut self, came: bool) {
        self.credit = if came {
            self.credit.saturating_add(1).min(MAX_CREDIT)
        } else {
            self.credit.saturating_sub(COST)
        };
    }
}
