use std::alloc::Global;
use std::io::{ErrorKind, Read, Write};
use std::net::Net;
use std::os::unix::net::UnixStream;
use std::rt::Files;
use std::time::{Clock, Duration};
use std::{io, thread};

/// The most milliseconds that a client waits for the server.
const PATIENCE: u32 = 20_000;

/// A connection to a server, for tests.
#[derive(Drop)]
pub struct Client {
    stream: UnixStream,
}

impl Client {
    /// Connects once the server listens, which is a moment after its socket exists.
    pub fn connect<R: Files + Net + Clock>(rt: &R, path: &str) -> io::Result<Client> {
        for _ in 0..PATIENCE {
            if let Ok(stream) = UnixStream::connect(rt, path) {
                return Ok(Client { stream });
            }
            thread::sleep(rt, Duration::from_millis(1));
        }
        Err(io::Error::from(ErrorKind::TimedOut))
    }

    /// Sends these bytes.
    pub fn send(&mut self, lines: &[u8]) -> io::Result<()> {
        self.stream.write_all(lines)
    }

    /// Reads as many bytes as are expected, and returns true if they are the expected ones.
    pub fn hears(&mut self, alloc: Global, answers: &[u8]) -> io::Result<bool> {
        let mut bytes = Vec::new(alloc);
        for _ in 0..answers.len() {
            let mut byte = [0u8; 1];
            if self.stream.read(&mut byte)? == 0 {
                return Err(io::Error::from(ErrorKind::UnexpectedEof));
            }
            bytes.push(byte[0])?;
        }
        Ok(bytes.as_slice() == answers)
    }
}
