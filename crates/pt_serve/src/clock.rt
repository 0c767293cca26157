//! The clocks of the system, as the server reads them.

ghost use Rattle.std.specs.Prelude.{◌≡◌, ◌+◌, Some, option_map, IfSome};
ghost use Rattle.std.specs.Duration.{as_nanos};
ghost use Rattle.pt_types.specs.Times.{deadline_nanos};
ghost use Rattle.pt_serve.specs.Clocks.{is_deadline_due, IsLookedAt};

use pt_hub::ClockPass;
use pt_legal::LegalHistory;
use pt_session::{Retention, Shared};
use pt_types::{Clock, Deadline, Moment};
use std::sync::Wait;
use std::sync::ledger::Ledger;
use std::thread;
use std::time::{Clock as SystemClock, Duration};

/// The number of milliseconds that the server sleeps between two looks at the clocks.  [profile]
const LOOK_MILLIS: u64 = 10;

// Returns how long the server has run, or `None` if its clock can't be read.
fn elapsed(start: Option<Duration>, now: Option<Duration>) -> Option<Duration>
    ensures { IfSome result (λ d. IfSome start (λ s. IfSome now (λ n.
        as_nanos d + as_nanos s ≡ as_nanos n))) }
{
    now?.checked_sub(start?)
}

// Returns the moment that a clock shows, or `None` if the clock can't be read or shows more than
// 9,999,999,999 seconds.
fn moment_of(reading: Option<Duration>) -> Option<Moment>
    ensures { IfSome result (λ moment. option_map as_nanos reading ≡ Some moment) }
{
    let now = reading?;
    Moment::new(now.as_secs(), u64::from(now.subsec_nanos()))
}

// Returns whether a deadline is at or before a moment.  [XSH pthread_mutex_timedlock]
fn is_due(deadline: Option<Deadline>, now: Moment) -> bool
    ensures { result ≡ is_deadline_due (option_map deadline_nanos deadline) now }
{
    match deadline {
        Some(deadline) => deadline.nanos() <= now.nanos(),
        None => false,
    }
}

// Hands in what a clock shows, if a deadline of an open call is due by it. If the moment is
// refused, the next look tries again.
fn look<C: LegalHistory, L: Ledger, R: Wait>(
    rt: &R,
    shared: &Shared<C, L>,
    pass: &mut ClockPass<L>,
    clock: Clock,
    reading: Option<Duration>,
)
    ensures { IsLookedAt clock reading pass.old pass.new }
{
    let Some(now) = moment_of(reading) else {
        return;
    };
    if is_due(shared.least_deadline(rt, clock), now) {
        let _ = shared.moment(rt, None, pass, clock, now);
    }
}

/// Hands in the clocks of the system until the server ends: the time since 1970, and the time since
/// the server started. The moments are discarded unless they are retained.  [profile]
pub fn tick<C: LegalHistory, L: Ledger, R: Wait + SystemClock>(
    rt: &R,
    shared: &Shared<C, L>,
    pass: ClockPass<L>,
    retention: Retention,
) -> ClockPass<L> {
    let mut pass = pass;
    let start = rt.monotonic().ok();
    for _ in rt.forever() {
        if shared.is_done(rt) {
            break;
        }
        look(rt, shared, &mut pass, Clock::Real, rt.since_1970().ok());
        let running = elapsed(start, rt.monotonic().ok());
        look(rt, shared, &mut pass, Clock::Mono, running);
        retention.settle_clock(&mut pass);
        thread::sleep(rt, Duration::from_millis(LOOK_MILLIS));
    }
    pass
}
