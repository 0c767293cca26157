//! The connections of sessions, and which of them their clients have closed. No contract says what
//! the system reports.

use crate::session_id::SessionId;
use mio::unix::SourceFd;
use mio::{Events, Interest, Poll, Token};
use std::alloc::Global;
use std::io;
use std::net::Net;
use std::os::fd::RawFd;
use std::time::Duration;

/// A session whose connection is watched.
#[derive(Clone, Copy)]
struct Watched {
    session: SessionId,
    is_closed: bool,
}

/// The watched connections of sessions, and which of them are closed.
///
/// The system reports each connection once, when its client has closed it or has ended. It reports
/// neither data nor a client that has shut down its sending side alone.
pub struct Peers {
    poll: Poll,
    /// Room for one report.
    report: Events,
    watched: Vec<Watched>,
    /// How many of the watched connections are closed.
    closed: usize,
}

// Not derived, so that code that drops it proves nothing of its parts.
impl Drop for Peers {
    fn drop(self) {
        let Peers {
            poll: _,
            report: _,
            watched: _,
            closed: _,
        } = self;
    }
}

impl Peers {
    ghost use Rattle.std.specs.Prelude.{◌<◌, IfSome, vec_len};

    /// Creates a set that watches no connection.
    pub fn new<N: Net>(net: &N, alloc: Global) -> io::Result<Peers> {
        Ok(Peers {
            poll: Poll::new(net)?,
            report: Events::with_capacity(alloc, 1)?,
            watched: Vec::new(alloc),
            closed: 0,
        })
    }

    // Returns the index at which a session is noted.
    fn place_of(&self, session: SessionId) -> Option<usize>
        ensures { IfSome result (λ k. k < vec_len self.now.watched) }
    {
        self.watched.iter().position(|it| it.session == session)
    }

    /// Watches the connection of a session until the session parts from it. Returns an error if a
    /// growth is refused, or if the system refuses it.
    pub fn watch(&mut self, session: SessionId, connection: RawFd) -> io::Result<()> {
        self.watched.push(Watched {
            session,
            is_closed: false,
        })?;
        let token = Token(session.0 as usize);
        let registry = self.poll.registry();
        let added = registry.register(&mut SourceFd(&connection), token, Interest::PRIORITY);
        if added.is_err() {
            self.part(session);
        }
        added
    }

    // Notes that the connection of a session is closed, if it is watched.
    fn close(&mut self, session: SessionId) {
        if let Some(k) = self.place_of(session) {
            if !self.watched[k].is_closed {
                self.watched[k].is_closed = true;
                self.closed = self.closed.saturating_add(1);
            }
        }
    }

    // Asks the system for one report, without waiting. Returns the session, and whether its
    // connection is closed.
    fn report(&mut self) -> Option<(SessionId, bool)> {
        self.poll
            .poll(&mut self.report, Some(Duration::from_millis(0)))
            .ok()?;
        let event = self.report.iter().next()?;
        let session = SessionId(event.token().0 as u64);
        Some((session, event.is_read_closed()))
    }

    /// Asks the system for a connection that was closed since this was asked last, and notes it.
    /// Returns its session.
    pub fn next_closed(&mut self) -> Option<SessionId> {
        for _ in 0..usize::MAX {
            let (session, is_closed) = self.report()?;
            if is_closed {
                self.close(session);
                return Some(session);
            }
        }
        None
    }

    /// Returns whether it was noted that the connection of a session is closed.
    pub fn is_closed(&self, session: SessionId) -> bool {
        self.closed > 0
            && self
                .watched
                .iter()
                .any(|it| it.session == session && it.is_closed)
    }

    /// Returns whether it was noted that the connection of any session is closed.
    pub fn has_closed(&self) -> bool {
        self.closed > 0
    }

    /// Watches the connection of a session no more. Returns whether it was noted that it is closed.
    pub fn part(&mut self, session: SessionId) -> bool {
        let Some(k) = self.place_of(session) else {
            return false;
        };
        let gone = self.watched.swap_remove(k);
        if gone.is_closed {
            self.closed = self.closed.saturating_sub(1);
        }
        gone.is_closed
    }
}
