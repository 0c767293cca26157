//! Where a working side takes its lines from.

ghost use Rattle.std.specs.Prelude.{◌≡◌, ◌∷◌, ◌++◌, [], true, MatchOption};
ghost use Rattle.rtrb.specs.Ring.{received, IsPair, SameConsumer, SameProducer};
ghost use Rattle.pt_session.specs.Places.{IsReadIn, is_own};
ghost use Rattle.pt_session.specs.Sources.{RingOut};

use crate::ends::ReadEnd;
use crate::handle::SessionHandle;
use crate::kinds::{ClockMode, Reading};
use crate::reader_handoff::ReaderHandoff;
use crate::reading_side::ReadingSide;
use crate::reading_thread::{Joiner, Joins, Reads};
use crate::ring_waiter::RingWaiter;
use pt_io::Source;
use pt_legal::LegalHistory;
use rtrb::Consumer;
use std::marker::Model;
use std::mem;
use std::snapshot::Snapshot;
use std::sync::Wait;
use std::sync::ledger::Ledger;
use std::thread::{PromisedHandle, Scope, SpawnError, Threads};

/// The thread that reads the input of a session.
#[derive(Drop)]
pub(crate) enum Place<'a, 's, E: 's, R: Source, J> {
    /// A thread of which nothing is known here.
    Unknown,
    /// The thread that takes the lines.
    Here(Here<'a, 's, E, R, J>),
    /// A second thread, which the thread that takes the lines has started.
    Elsewhere(Elsewhere<'a, 's, E, R, J>),
}

/// What is needed to start a thread that reads the input of a session, and to wait for it.
#[derive(Drop)]
pub(crate) struct Means<'a, 's, E: 's, J> {
    pub scope: &'a Scope<'s, E>,
    pub turns: &'s ReaderHandoff,
    pub joiner: J,
}

/// A reading side in the thread that takes the lines.
#[derive(Drop)]
pub(crate) struct Here<'a, 's, E: 's, R: Source, J> {
    pub means: Means<'a, 's, E, J>,
    pub side: ReadingSide<R>,
}

/// A reading side in a second thread.
#[derive(Drop)]
pub(crate) struct Elsewhere<'a, 's, E: 's, R: Source, J> {
    means: Means<'a, 's, E, J>,
    thread: PromisedHandle<ReadingSide<R>, Reads>,
}

// Starts a second thread that reads the connection while a call waits. If the thread is refused,
// the reading ends.
fn start_reading<
    'a,
    's,
    E,
    R: Source + Send + Drop + 's,
    C: LegalHistory + Send + 's,
    L: Ledger + Send + Sync + 's,
    T: Wait + Sync + 's,
    J: Drop,
>(handle: &'s SessionHandle<'s, C, L, T>, here: Here<'a, 's, E, R, J>) -> Place<'a, 's, E, R, J>
    ensures read { (ring : RingOut) → IsPair here.entry.side.ring ring
        → IsReadIn here.entry.side.mode result ring }
    ensures own { is_own result ≡ true }
{
    let Here { means, side } = here;
    let promise = Reads {
        ring: Snapshot::of(side.ring()),
        mode: side.mode(),
    };
    let (rt, shared, turns) = (handle.rt, handle.shared, means.turns);
    let reads = move || -> ReadingSide<R>
        ensures ring { SameProducer side.ring result.ring }
        ensures mode { result.mode ≡ side.mode }
    {
        let mut side = side;
        side.read_meanwhile(rt, shared, turns);
        side
    };
    turns.start();
    match means.scope.spawn_with(promise, reads) {
        Ok(thread) => Place::Elsewhere(Elsewhere { means, thread }),
        Err(refused) => {
            turns.refuse();
            let SpawnError { value: reads } = refused;
            let side = reads();
            Place::Here(Here { means, side })
        }
    }
}

// Waits until the second thread has stopped, and takes its reading side back.
fn join_reading_thread<'a, 's, E, R: Source, J: Joins + Drop>(
    away: Elsewhere<'a, 's, E, R, J>,
) -> Place<'a, 's, E, R, J>
    ensures read { (ring : RingOut) → IsPair away.entry.thread.promise.ring.value ring
        → IsReadIn away.entry.thread.promise.mode result ring }
    ensures own { is_own result ≡ true }
{
    let Elsewhere { means, thread } = away;
    match means.joiner.join(thread) {
        Ok(side) => Place::Here(Here { means, side }),
        Err(thread) => Place::Elsewhere(Elsewhere { means, thread }),
    }
}

// Returns the next line of a connection that this thread reads, and reads until a line is whole.
// Returns `None` if the reading has ended and no line is left.
fn next_here<R: Source, C: LegalHistory, L: Ledger, T: Wait>(
    handle: &SessionHandle<'_, C, L, T>,
    side: &mut ReadingSide<R>,
    ring: &mut Consumer<Reading>,
) -> Option<Reading>
    ensures producer { SameProducer side.old.ring side.new.ring }
    ensures mode { side.new.mode ≡ side.old.mode }
    ensures ring { SameConsumer ring.old ring.new }
    ensures next { MatchOption result (received ring.new ≡ received ring.old)
        (λ line. received ring.new ≡ received ring.old ++ line ∷ []) }
{
    for _ in handle.rt.forever() {
        if let Ok(line) = ring.pop() {
            return Some(line);
        }
        if side.has_ended() {
            return None;
        }
        side.step(handle.rt, handle.shared);
    }
    unreachable!()
}

/// The lines of a session, as the working side takes them.
///
/// The thread that takes them also reads them from the session's input, except while it waits long
/// for the answer to a call. Then a second thread reads, so that the end of the input is noticed.
#[derive(Drop)]
pub(crate) struct Lines<'a, 's, E: 's, R: Source, C: LegalHistory, L: Ledger, T, J> {
    handle: &'s SessionHandle<'s, C, L, T>,
    mode: ClockMode,
    place: Place<'a, 's, E, R, J>,
    pub ring: Consumer<Reading>,
    watch: RingWaiter,
}

impl<'a, 's, E: 's, R: Source, C: LegalHistory, L: Ledger, T, J> Model
    for Lines<'a, 's, E, R, C, L, T, J> {
    ghost use Rattle.pt_session.specs.Sources.{LineSourceView};
    ghost use Rattle.pt_session.specs.Places.{IsReadIn, is_own};

    ghost Value = { LineSourceView };

    ghost view = { λ l. record { mode = l.mode; ring = l.ring; own = is_own l.place } };

    ghost invariant = { λ l. IsReadIn l.mode l.place l.ring };
}

impl<'a, 's, E, R: Source + Drop, C: LegalHistory, L: Ledger, T, J: Drop> Lines<
    'a,
    's,
    E,
    R,
    C,
    L,
    T,
    J,
> {
    ghost use Rattle.std.specs.Prelude.{◌≡◌, true};
    ghost use Rattle.rtrb.specs.Ring.{IsPair};

    /// Creates the lines that another thread pushes into the ring.
    pub fn of_ring(
        handle: &'s SessionHandle<'s, C, L, T>,
        ring: Consumer<Reading>,
    ) -> Lines<'a, 's, E, R, C, L, T, J>
        ensures { result.ring ≡ ring }
    {
        Lines {
            handle,
            mode: ClockMode::Lines,
            place: Place::Unknown,
            ring,
            watch: RingWaiter::new(),
        }
    }

    /// Creates the lines that are read in the thread that takes them.
    pub fn of_reader(
        handle: &'s SessionHandle<'s, C, L, T>,
        here: Here<'a, 's, E, R, J>,
        ring: Consumer<Reading>,
    ) -> Lines<'a, 's, E, R, C, L, T, J>
        requires { IsPair here.side.ring ring }
        ensures lines { (result.ring ≡ ring) × (result.mode ≡ here.entry.side.mode) }
        ensures own { result.own ≡ true }
    {
        Lines {
            handle,
            mode: here.side.mode(),
            place: Place::Here(here),
            ring,
            watch: RingWaiter::new(),
        }
    }

    /// Returns the handle by which the hub is reached.
    pub fn handle(&self) -> &'s SessionHandle<'s, C, L, T> {
        self.handle
    }

    /// Returns the end of the ring that the lines were taken from.
    pub fn into_ring(self) -> Consumer<Reading>
        ensures { result ≡ self.entry.ring }
    {
        let Lines { ring, .. } = self;
        ring
    }

    // Returns what is shared with the second thread, if that reads.
    fn turns(&self) -> Option<&'s ReaderHandoff> {
        match &self.place {
            Place::Elsewhere(away) => Some(away.means.turns),
            _ => None,
        }
    }

    /// Notes that no call waits any more. A second thread that reads stops after its next step.
    pub fn rest(&self) {
        if let Some(turns) = self.turns() {
            turns.rest();
        }
    }
}

impl<'a, 's, E, R: Source + Drop, C: LegalHistory, L: Ledger, T: Wait, J: Joins + Drop> Lines<
    'a,
    's,
    E,
    R,
    C,
    L,
    T,
    J,
> {
    ghost use Rattle.std.specs.Prelude.{◌≡◌, ◌∷◌, ◌++◌, [], MatchOption};
    ghost use Rattle.rtrb.specs.Ring.{received};
    ghost use Rattle.pt_session.specs.Sources.{IsSameSource, HasTakenNothing};

    // Makes this thread read the input from now on, unless it is unknown which thread does. If a
    // second thread reads, waits until that has stopped.
    fn read_here(&mut self)
        ensures { HasTakenNothing self.old self.new }
    {
        let place = mem::replace(&mut self.place, Place::Unknown);
        self.place = match place {
            Place::Elsewhere(away) => join_reading_thread(away),
            other => other,
        };
    }

    /// Returns whether this thread is to read the input while a call waits. A second thread that
    /// reads goes on, unless it has stopped or is about to: then this thread reads.
    pub fn are_read_here(&mut self) -> bool
        ensures { HasTakenNothing self.old self.new }
    {
        if let Some(turns) = self.turns() {
            if turns.take_rest() {
                return false;
            }
            self.read_here();
        }
        matches!(self.place, Place::Here(_))
    }

    /// Returns the next line, or `None` if the input has ended and none is left.
    pub fn next(&mut self) -> Option<Reading>
        ensures unchanged { IsSameSource self.old self.new }
        ensures next { MatchOption result (received self.new.ring ≡ received self.old.ring)
            (λ line. received self.new.ring ≡ received self.old.ring ++ line ∷ []) }
    {
        if let Some(turns) = self.turns() {
            let line = self.watch.next(self.handle, Some(turns), &mut self.ring);
            if line.is_some() {
                return line;
            }
            self.read_here();
        }
        match &mut self.place {
            Place::Here(here) => next_here(self.handle, &mut here.side, &mut self.ring),
            _ => self.watch.next(self.handle, None, &mut self.ring),
        }
    }
}

impl<
    'a,
    's,
    E,
    R: Source + Send + Drop + 's,
    C: LegalHistory + Send + 's,
    L: Ledger + Send + Sync + 's,
    T: Wait + Sync + 's,
    J: Drop,
> Lines<'a, 's, E, R, C, L, T, J> {
    ghost use Rattle.std.specs.Prelude.{◌≡◌};
    ghost use Rattle.pt_session.specs.Sources.{HasTakenNothing};

    /// Lets a second thread read the input while a call waits. Returns `false` if the thread is
    /// refused, and then the input has ended.
    pub fn read_on_helper_thread(&mut self) -> bool
        ensures { HasTakenNothing self.old self.new }
    {
        let place = mem::replace(&mut self.place, Place::Unknown);
        self.place = match place {
            Place::Here(here) => start_reading(self.handle, here),
            other => other,
        };
        !matches!(self.place, Place::Here(_))
    }
}

impl<'a, 's, E, R: Source, C: LegalHistory, L: Ledger, T: Threads + Wait> Lines<
    'a,
    's,
    E,
    R,
    C,
    L,
    T,
    Joiner<'s, T>,
> {
    ghost use Rattle.std.specs.Prelude.{◌≡◌, true};
    ghost use Rattle.rtrb.specs.Ring.{IsPair};
    ghost use Rattle.pt_session.specs.Readings.{input_view};
    ghost use Rattle.pt_session.specs.Ends.{EndsReading};

    /// Reads the rest of the input, and returns how the reading ended, with the ring's other end.
    pub fn end(self) -> (ReadEnd<R>, Consumer<Reading>)
        requires { self.own ≡ true }
        ensures ends { EndsReading self.entry.mode (input_view R.given R.ended R.failures R.reads)
            result.0 }
        ensures pair { IsPair result.0.ring result.1 }
        ensures ring { result.1 ≡ self.entry.ring }
    {
        let Lines {
            handle,
            place,
            ring,
            ..
        } = self;
        let side = match place {
            Place::Here(here) => here.side,
            Place::Elsewhere(away) => away.thread.join(handle.rt),
            Place::Unknown => unreachable!(),
        };
        (side.read_to_end(handle.rt, handle.shared), ring)
    }
}
