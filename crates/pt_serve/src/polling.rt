//! The socket of a connection. It is polled for a while before a read of it sleeps, and lines are
//! taken out of it only after they are answered.
//!
//! A client often sends its next line as soon as it has an answer. Polling until the line has come
//! takes less time than sleeping and being woken. When bytes are taken out of a socket, the system
//! wakes a client that waits, since it could write again. For a client that waits for an answer
//! this is a useless wake-up, so its line stays in the socket until it has the answer.
//!
//! The sockets are handled as `TcpStream`s, since a `UnixStream` has no `peek`.

ghost use Rattle.std.specs.Prelude.{◌≡◌, IfSome};
ghost use Rattle.std.specs.Io.{ReadsAtMost, WritesAtMost};

use pt_session::SpinBudget;
use std::io::{ErrorKind, Read, Write};
use std::net::{Shutdown, TcpStream};
use std::sync::atomic::{AtomicU64, Ordering};
use std::{io, thread};

/// The number of times a read polls the socket before it sleeps. Other threads may run in between.
/// [profile]
const MAX_POLLS: u32 = 40;

/// The number of times a write is retried if it finds the socket polled.  [profile]
const MAX_TRIES: u32 = 64;

/// The most connections for which sockets are polled. If there are more, none is polled, as they
/// may keep all processors busy, and lines are taken out of a socket as they are read.  [profile]
const MAX_POLLED: u64 = 16;

/// The most bytes that are taken out of a socket at once after its session has ended.
const REST: usize = 256;

/// The number of connections.
#[derive(Drop)]
pub(crate) struct Connections {
    count: AtomicU64,
}

impl Connections {
    pub fn new() -> Connections {
        Connections {
            count: AtomicU64::new(0),
        }
    }

    /// Counts a connection that begins.
    pub fn begin(&self) {
        self.count.fetch_add(1, Ordering::Relaxed);
    }

    /// Counts a connection that has ended.
    pub fn end(&self) {
        self.count.fetch_sub(1, Ordering::Relaxed);
    }

    // Returns whether there are few enough to be polled.
    fn may_be_polled(&self) -> bool {
        self.count.load(Ordering::Relaxed) <= MAX_POLLED
    }
}

/// The input of a connection.
#[derive(Drop)]
pub(crate) struct PolledReader<'a> {
    stream: &'a TcpStream,
    connections: &'a Connections,
    patience: SpinBudget,
    /// Whether the socket was made not to block, as it is while it is polled.
    is_polled: bool,
    /// The number of bytes that were read and are still in the socket.
    seen: usize,
}

impl<'a> PolledReader<'a> {
    pub fn new(stream: &'a TcpStream, connections: &'a Connections) -> PolledReader<'a> {
        PolledReader {
            stream,
            connections,
            patience: SpinBudget::new(),
            is_polled: false,
            seen: 0,
        }
    }

    // Takes out of the socket the bytes that were already read. Each read takes at least one.
    fn take_seen(&mut self, buf: &mut [u8]) -> io::Result<()> {
        for _ in 0..self.seen {
            let limit = self.seen.min(buf.len());
            let taken = self.stream.read(&mut buf[..limit])?;
            self.seen = self.seen.saturating_sub(taken);
            if self.seen == 0 {
                break;
            }
        }
        Ok(())
    }

    // Makes the socket block, or not. It does not block from one poll to the next, so that few
    // calls of the system are needed.
    fn set_polled(&mut self, is_polled: bool) -> io::Result<()> {
        if self.is_polled != is_polled {
            self.stream.set_nonblocking(is_polled)?;
            self.is_polled = is_polled;
        }
        Ok(())
    }

    // Returns the bytes in the socket while it does not block, or `None` if none come.
    fn poll(&self, buf: &mut [u8]) -> Option<io::Result<usize>>
        ensures { IfSome result (λ found. ReadsAtMost found buf.new) }
    {
        for _ in 0..MAX_POLLS {
            match self.stream.peek(buf) {
                Err(error) if error.kind() == ErrorKind::WouldBlock => thread::yield_now(),
                found => return Some(found),
            }
        }
        None
    }

    // Returns the bytes in the socket, once there are any.
    fn look(&mut self, buf: &mut [u8]) -> io::Result<usize>
        ensures { ReadsAtMost result buf.new }
    {
        if self.patience.pays() {
            self.set_polled(true)?;
            let found = self.poll(buf);
            self.patience.note(found.is_some());
            if let Some(found) = found {
                return found;
            }
        }
        self.set_polled(false)?;
        self.stream.peek(buf)
    }

    /// Takes out of the socket the bytes that were already read. A client gets an error if its
    /// socket is closed with bytes in it.
    pub fn finish(mut self) {
        let mut rest = [0u8; REST];
        let _ = self.take_seen(&mut rest);
    }
}

impl<'a> Read for PolledReader<'a> {
    fn read(&mut self, buf: &mut [u8]) -> io::Result<usize> {
        self.take_seen(buf)?;
        if !self.connections.may_be_polled() {
            self.set_polled(false)?;
            return self.stream.read(buf);
        }
        let found = self.look(buf)?;
        self.seen = found;
        Ok(found)
    }
}

/// The output of a connection. Another thread may be polling its input.
#[derive(Drop)]
pub(crate) struct PolledWriter<'a> {
    stream: &'a TcpStream,
}

impl<'a> PolledWriter<'a> {
    pub fn new(stream: &'a TcpStream) -> PolledWriter<'a> {
        PolledWriter { stream }
    }

    // Shuts the stream down if a write failed, so that the client sees the connection's end.
    fn note(&self, done: io::Result<usize>) -> io::Result<usize>
        ensures { result ≡ done }
    {
        if done.is_err() {
            let _ = self.stream.shutdown(Shutdown::Both);
        }
        done
    }
}

impl<'a> Write for PolledWriter<'a> {
    fn write(&mut self, buf: &[u8]) -> io::Result<usize> {
        for _ in 0..MAX_TRIES {
            match self.stream.write(buf) {
                // From now on, a read that polls this socket sleeps instead.
                Err(error) if error.kind() == ErrorKind::WouldBlock => {
                    self.stream.set_nonblocking(false)?;
                }
                done => return self.note(done),
            }
        }
        let done = self.stream.write(buf);
        self.note(done)
    }

    fn flush(&mut self) -> io::Result<()> {
        self.stream.flush()
    }
}
