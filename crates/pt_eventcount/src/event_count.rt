//! The event counts that sessions sleep at. No contract says who wakes.

use std::alloc::Global;
use std::sync::Wait;
use std::sync::atomic::{AtomicU64, Ordering};
use std::thread;
use std::time::Duration;

/// The number of event counts. Sessions whose numbers have the same remainder share one.  [profile]
const MAX_EVENT_COUNTS: usize = 1024;

/// The number of times a warned sleeper polls for a notification before it sleeps again: some 60
/// microseconds, if no other thread runs in between.  [profile]
const LOOKS: u32 = 200;

/// The number of warnings in a row that are given although no notification follows soon.  [profile]
const MAX_MISSES: u64 = 4;

/// The number of warnings from one such row to the next, including those that are not given.
/// [profile]
const PERIOD: u64 = 64;

/// A count of how many times it was notified.
///
/// A thread that waits reads the count, then looks for what it waits for, and then sleeps, unless
/// the count has changed meanwhile. Whoever brings what it waits for notifies afterwards. So no
/// wake-up is lost, and notifying needs no lock.
///
/// A sleeper may be warned that a notification is likely to come soon. It wakes and polls the count
/// for a while. If it comes, it finds the sleeper awake, which saves the time of a wake-up.
pub struct EventCount {
    epoch: AtomicU64,
    sleepers: AtomicU64,
    ends: AtomicU64,
    early_wakes: AtomicU64,
    misses: AtomicU64,
}

// Not derived, so that code that drops an event count proves nothing of its parts.
impl Drop for EventCount {
    fn drop(self) {
        let EventCount {
            epoch: _,
            sleepers: _,
            ends: _,
            early_wakes: _,
            misses: _,
        } = self;
    }
}

impl EventCount {
    /// Creates an event count that was never notified.
    pub fn new() -> EventCount {
        EventCount {
            epoch: AtomicU64::new(0),
            sleepers: AtomicU64::new(0),
            ends: AtomicU64::new(0),
            early_wakes: AtomicU64::new(0),
            misses: AtomicU64::new(0),
        }
    }

    /// Returns how many times it was notified.
    pub fn epoch(&self) -> u64 {
        self.epoch.load(Ordering::SeqCst)
    }

    /// Notifies the event count, which wakes all that sleep at it.
    pub fn notify_all(&self) {
        self.epoch.fetch_add(1, Ordering::SeqCst);
        if self.sleepers.load(Ordering::SeqCst) != 0 {
            self.epoch.wake_all();
        }
    }

    // Returns whether a warning pays, based on what followed the latest ones.
    fn is_worth_waking_early(&self) -> bool {
        let misses = self.misses.load(Ordering::SeqCst);
        if misses % PERIOD < MAX_MISSES {
            return true;
        }
        self.misses.store(misses.wrapping_add(1), Ordering::SeqCst);
        false
    }

    /// Wakes all that sleep at it, so that they poll for a notification that is likely to come
    /// soon. Wakes nobody if that was in vain recently.
    pub fn pre_wake(&self) {
        if self.sleepers.load(Ordering::SeqCst) != 0 && self.is_worth_waking_early() {
            self.early_wakes.fetch_add(1, Ordering::SeqCst);
            self.epoch.wake_all();
        }
    }

    // Returns how many times those that sleep at it were warned.
    fn early_wakes(&self) -> u64 {
        self.early_wakes.load(Ordering::SeqCst)
    }

    // Polls for a notification for a while. Returns whether it was notified since its count was
    // `epoch`.
    fn poll(&self, epoch: u64) -> bool {
        for _ in 0..LOOKS {
            if self.epoch() != epoch {
                self.misses.store(0, Ordering::SeqCst);
                return true;
            }
            thread::yield_now();
        }
        self.misses.fetch_add(1, Ordering::SeqCst);
        false
    }

    /// Sleeps until it is notified, unless it was notified since its count was `epoch`. It may
    /// return although nobody notified.
    pub fn sleep<R: Wait>(&self, rt: &R, epoch: u64) {
        let early_wakes = self.early_wakes();
        self.sleepers.fetch_add(1, Ordering::SeqCst);
        self.epoch.park(rt, (epoch & 0xffff_ffff) as u32);
        self.sleepers.fetch_sub(1, Ordering::SeqCst);
        if self.early_wakes() != early_wakes {
            self.poll(epoch);
        }
    }

    // Sleeps until it is notified or warned, but for `limit` at most.
    fn nap<R: Wait>(&self, rt: &R, epoch: u64, limit: Duration) {
        self.sleepers.fetch_add(1, Ordering::SeqCst);
        self.epoch
            .park_timeout(rt, (epoch & 0xffff_ffff) as u32, limit);
        self.sleepers.fetch_sub(1, Ordering::SeqCst);
    }

    /// Does what `sleep` does, but for `limit` at most, or for twice as long if it is warned in
    /// vain.
    pub fn wait_timeout<R: Wait>(&self, rt: &R, epoch: u64, limit: Duration) {
        let early_wakes = self.early_wakes();
        self.nap(rt, epoch, limit);
        if self.early_wakes() != early_wakes && !self.poll(epoch) {
            self.nap(rt, epoch, limit);
        }
    }

    /// Returns how many inputs have ended, of the sessions that sleep at it.
    pub fn ends(&self) -> u64 {
        self.ends.load(Ordering::SeqCst)
    }

    /// Notes that the input of a session that sleeps at it has ended, and notifies all.
    pub fn end(&self) {
        self.ends.fetch_add(1, Ordering::SeqCst);
        self.notify_all();
    }
}

/// Creates the event counts, or as many of them as there is memory for.
pub fn event_counts(alloc: Global) -> Vec<EventCount> {
    let mut event_counts = Vec::new(alloc);
    for _ in 0..MAX_EVENT_COUNTS {
        if event_counts.push(EventCount::new()).is_err() {
            break;
        }
    }
    event_counts
}
