ghost use Rattle.std.specs.Prelude.{◌≡◌, is_some};
ghost use Rattle.pt_model.specs.Answers.{open_place};
ghost use Rattle.pt_model.specs.Clients.{clock as clock_in, is_alive as is_alive_in};
ghost use Rattle.pt_model.specs.Objects.{find_object, object_named, object_count};
ghost use Rattle.pt_legal.specs.Cores.{history_of, core_state};
ghost use Rattle.pt_readable.specs.Reading.{blocked_at, bound_at, busy_at, count_at, mutex_named};
ghost use Rattle.pt_readable.specs.Reading.{rwlock_named, waiting_of};

use crate::waiting::Waiting;
use pt_legal::LegalHistory;
use pt_types::operations::ObjectClass;
use pt_types::views::{MutexView, RwlockView};
use pt_types::{ClientId, Clock, Moment, Name, ObjectId};

/// A core whose clients, objects and clocks can be read, as the verdict tables see them.
pub trait ReadableHistory: LegalHistory {
    /// Returns the object of this class that has the name, if one does.
    fn find(&self, n: &Name, class: ObjectClass) -> Option<ObjectId>
        ensures { result ≡ find_object (history_of (core_state (Self.seen self.now))) n.now class };

    /// Returns whether an object has the name.
    fn is_named(&self, n: &Name) -> bool
        ensures { result ≡ is_some (object_named (history_of (core_state
            (Self.seen self.now))) n.now) };

    /// Returns the number of objects that exist.
    fn objects(&self) -> usize
        ensures { result ≡ object_count (history_of (core_state (Self.seen self.now))) };

    /// Returns the mutex that has the name, if one does.  [XSH 2.9.3]
    fn mutex(&self, n: &Name) -> Option<MutexView>
        ensures { result ≡ mutex_named (history_of (core_state (Self.seen self.now))) n.now };

    /// Returns the read-write lock that has the name, if one does, as a client sees it. A lock that
    /// is written counts as read by nobody.  [XSH 2.9]
    fn rwlock(&self, n: &Name, c: ClientId) -> Option<RwlockView>
        ensures { result ≡ rwlock_named (history_of (core_state (Self.seen self.now))) n.now c };

    /// Returns whether a writer of a client's priority or a higher one waits at the read-write lock
    /// that has the name, if one does. A client that does not live has priority 0.
    /// [XSH pthread_rwlock_rdlock]
    fn is_blocked(&self, n: &Name, c: ClientId) -> Option<bool>
        ensures { result ≡ blocked_at (history_of (core_state (Self.seen self.now))) n.now c };

    /// Returns the mutex with which calls wait at the condition that has the name, if some wait
    /// there. Returns None if no condition has the name.  [XSH pthread_cond_wait]
    fn bound(&self, n: &Name) -> Option<Option<ObjectId>>
        ensures { result ≡ bound_at (history_of (core_state (Self.seen self.now))) n.now };

    /// Returns whether the object of this class that has the name is in use, if one has the name:
    /// then it can't be destroyed.  [XSH pthread_mutex_destroy, EBUSY is profile]
    fn is_busy(&self, n: &Name, class: ObjectClass) -> Option<bool>
        ensures { result ≡ busy_at (history_of (core_state (Self.seen self.now))) n.now class };

    /// Returns the count of the barrier that has the name, if one does.
    /// [XSH pthread_barrier_init]
    fn barrier_count(&self, n: &Name) -> Option<u64>
        ensures { result ≡ count_at (history_of (core_state (Self.seen self.now))) n.now };

    /// Returns whether a client lives.  [profile]
    fn is_alive(&self, c: ClientId) -> bool
        ensures { result ≡ is_alive_in (history_of (core_state (Self.seen self.now))) c };

    /// Returns where a client's open call waits, and the key that decides its turn there, if the
    /// client has an open call.  [XSH 2.8.4]
    fn waiting(&self, c: ClientId) -> Option<Waiting>
        ensures { result ≡ waiting_of (history_of (core_state (Self.seen self.now))) c };

    /// Returns the place of a client's open call, if it has one.
    fn open_call(&self, c: ClientId) -> Option<u64>
        ensures { result ≡ open_place (history_of (core_state (Self.seen self.now))) c };

    /// Returns the greatest moment of a clock so far, if it has one.  [profile]
    fn reading(&self, clock: Clock) -> Option<Moment>
        ensures { result ≡ clock_in (history_of (core_state (Self.seen self.now))) clock };
}
