//! Which session takes whose answers, and whose calls wait.

use crate::session_id::SessionId;
use pt_types::ClientId;
use std::alloc::Global;

/// The session that takes a client's answers.
#[derive(Clone, Copy)]
struct Attached {
    client: ClientId,
    session: SessionId,
    /// Whether the client's call waits.
    waits: bool,
}

/// Which session takes whose answers, and the sessions whose calls wait, in the order in which they
/// began to wait.
pub struct WaiterQueue {
    attached: Vec<Attached>,
    waiting: Vec<SessionId>,
}

// Not derived, so that code that drops it proves nothing of its parts.
impl Drop for WaiterQueue {
    fn drop(self) {
        let WaiterQueue {
            attached: _,
            waiting: _,
        } = self;
    }
}

impl WaiterQueue {
    ghost use Rattle.std.specs.Prelude.{◌<◌, IfSome, vec_len};

    /// Creates an empty attendance.
    pub fn new(alloc: Global) -> WaiterQueue {
        WaiterQueue {
            attached: Vec::new(alloc),
            waiting: Vec::new(alloc),
        }
    }

    /// Notes that this session takes a client's answers. Nothing is noted if a growth is refused.
    pub fn attach(&mut self, session: SessionId, client: ClientId) {
        let _ = self.attached.push(Attached {
            client,
            session,
            waits: false,
        });
    }

    // Returns the index at which a client's session is noted.
    fn place_of(&self, client: ClientId) -> Option<usize>
        ensures { IfSome result (λ k. k < vec_len self.now.attached) }
    {
        self.attached.iter().position(|it| it.client == client)
    }

    /// Notes that a client takes no more answers. Its session waits no more.
    pub fn detach(&mut self, client: ClientId) {
        if let Some(k) = self.place_of(client) {
            let gone = self.attached.swap_remove(k);
            self.end_wait(gone.session);
        }
    }

    // Notes whether a client's call waits. Returns its session, if that was noted.
    fn note(&mut self, client: ClientId, waits: bool) -> Option<SessionId> {
        let k = self.place_of(client)?;
        self.attached[k].waits = waits;
        Some(self.attached[k].session)
    }

    /// Returns true if the call of a session's client waits, and that was noted.
    pub fn is_waiting(&self, session: SessionId) -> bool {
        self.attached
            .iter()
            .any(|it| it.session == session && it.waits)
    }

    // Returns the position of a session among those whose calls wait.
    fn turn_of(&self, session: SessionId) -> Option<usize>
        ensures { IfSome result (λ k. k < vec_len self.now.waiting) }
    {
        self.waiting.iter().position(|it| *it == session)
    }

    /// Notes that a client's call waits from now on. Nothing is noted if a growth is refused.
    pub fn begin_wait(&mut self, client: ClientId) {
        if let Some(session) = self.note(client, true) {
            let _ = self.waiting.push(session);
        }
    }

    // Notes that the call of a session waits no more.
    fn end_wait(&mut self, session: SessionId) {
        if let Some(k) = self.turn_of(session) {
            let _ = self.waiting.remove(k);
        }
    }

    /// Notes that a client's call was answered, so that its session waits no more. Returns the
    /// session, if it was noted.
    pub fn answered(&mut self, client: ClientId) -> Option<SessionId> {
        let session = self.note(client, false)?;
        self.end_wait(session);
        Some(session)
    }

    /// Returns the session whose call has waited longest.
    pub fn longest_waiting(&self) -> Option<SessionId> {
        self.waiting.first().copied()
    }
}
