//! The flags that say which of a session's two threads reads its input.

use std::sync::atomic::{AtomicBool, Ordering};

/// The flags that the thread that takes a session's lines shares with the one that reads its input
/// for it.
///
/// A second thread reads while a call waits long. When no call waits any more, it stops after its
/// next step, and the first thread reads again. No contract says which of them reads.
#[derive(Drop)]
pub(crate) struct ReaderHandoff {
    /// Set while no call waits. Only one of the two threads clears it. If the second does, it
    /// stops; if the first does, the second reads on.
    is_idle: AtomicBool,
    has_stopped: AtomicBool,
    is_refused: AtomicBool,
}

impl ReaderHandoff {
    /// Creates the flags before a second thread is started.
    pub fn new() -> ReaderHandoff {
        ReaderHandoff {
            is_idle: AtomicBool::new(false),
            has_stopped: AtomicBool::new(false),
            is_refused: AtomicBool::new(false),
        }
    }

    /// Notes that a call waits and a second thread is to read.
    pub fn start(&self) {
        self.is_idle.store(false, Ordering::SeqCst);
        self.has_stopped.store(false, Ordering::SeqCst);
    }

    /// Notes that no call waits any more.
    pub fn rest(&self) {
        self.is_idle.store(true, Ordering::SeqCst);
    }

    /// Returns true if no call waits and the other thread has not asked this before. Clears the
    /// flag that says so.
    pub fn take_rest(&self) -> bool {
        self.is_idle.swap(false, Ordering::SeqCst)
    }

    /// Notes that the second thread has stopped reading.
    pub fn stop(&self) {
        self.has_stopped.store(true, Ordering::SeqCst);
    }

    /// Returns whether the second thread has stopped reading.
    pub fn has_stopped(&self) -> bool {
        self.has_stopped.load(Ordering::SeqCst)
    }

    /// Notes that no second thread could be started.
    pub fn refuse(&self) {
        self.is_refused.store(true, Ordering::SeqCst);
    }

    /// Returns true if no second thread could be started.
    pub fn is_refused(&self) -> bool {
        self.is_refused.load(Ordering::SeqCst)
    }
}
