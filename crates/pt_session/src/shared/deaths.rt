//! Deaths before what others do later.
//!
//! The system closes the connection of a process before others can learn that the process has
//! ended. So before an event is applied, in the same stay under the lock, the system is asked which
//! connections are closed. The event waits until the clients of these are dead.
//!
//! A session whose connection is closed waits for no other, so nobody waits in a circle. Neither
//! its reads nor its writes wait any more, and it is woken if it sleeps: it deals with the lines
//! that its client has sent, and then the client dies. A session whose client has shut down its
//! sending side alone may wait, but nobody waits for it.

use crate::shared::{Room, Shared};
use pt_hub::SessionId;
use pt_legal::LegalHistory;
use std::io;
use std::os::fd::RawFd;
use std::sync::ledger::Ledger;
use std::sync::{MutexGuard, Wait};

impl<C: LegalHistory, L: Ledger> Shared<C, L> {
    /// Watches the connection of a session, if connections are watched here. Returns an error if
    /// the system or a growth refuses it.
    pub fn watch<R: Wait>(&self, rt: &R, session: SessionId, connection: RawFd) -> io::Result<()> {
        match &mut self.lock(rt).peers {
            Some(peers) => peers.watch(session, connection),
            None => Ok(()),
        }
    }

    /// Watches the connection of a session no more, since its client is dead or it has none. Wakes
    /// those that have waited for this.
    pub fn part<R: Wait>(&self, rt: &R, session: SessionId) {
        let was_closed = match &mut self.lock(rt).peers {
            Some(peers) => peers.part(session),
            None => false,
        };
        if was_closed {
            self.deaths.notify_all();
        }
    }

    /// Returns whether it was noted that the connection of a session is closed.
    pub fn is_closed<R: Wait>(&self, rt: &R, session: SessionId) -> bool {
        match &self.lock(rt).peers {
            Some(peers) => peers.is_closed(session),
            None => false,
        }
    }

    // Asks which connections are closed, and wakes their sessions. Returns whether an event of this
    // session has to wait for the death of a client. An event without a session is of the server's
    // clock.
    fn has_to_wait(&self, room: &mut Room<C, L>, session: Option<SessionId>) -> bool {
        let Some(peers) = &mut room.peers else {
            return false;
        };
        for _ in 0..usize::MAX {
            let Some(closed) = peers.next_closed() else {
                break;
            };
            self.notify(closed);
            // The session may be waiting for another's death.
            self.deaths.notify_all();
        }
        peers.has_closed()
            && match session {
                Some(session) => !peers.is_closed(session),
                None => true,
            }
    }

    /// Takes the lock for an event of this session, or of the server's clock, once the clients of
    /// all closed connections are dead.
    pub(crate) fn lock_for_event<R: Wait>(
        &self,
        rt: &R,
        session: Option<SessionId>,
    ) -> MutexGuard<'_, Room<C, L>> {
        for _ in rt.forever() {
            let mut room = self.lock(rt);
            if !self.has_to_wait(&mut room, session) {
                return room;
            }
            let epoch = self.deaths.epoch();
            drop(room);
            self.deaths.sleep(rt, epoch);
        }
        unreachable!()
    }
}
