use crate::rows::{put_answer, put_call, put_die, put_hello, put_moment};
use pt_legal::Reply;
use pt_model::Entry;
use pt_types::{ClientId, Outcome};
use std::alloc::{AllocError, Global};
use std::collections::HashMap;
use std::mem;

/// The greatest number of clients that a trace can name, since a name has at most eight bytes.
/// [profile]
const MAX_NAMES: u64 = 9_999_999;

/// How a client appears in the trace.
#[derive(Clone, Copy)]
struct Named {
    /// Its number among all clients, from 1.
    name: u64,
    /// The number of its lines.
    lines: u64,
}

/// Records the events of a server. A refused growth, or a client too many, ends the recording.
#[derive(Drop)]
pub struct Recorder {
    named: HashMap<u64, Named>,
    names: u64,
    text: Vec<u8>,
    has_failed: bool,
}

impl Recorder {
    /// Creates a recorder that has recorded nothing.
    pub fn new(alloc: Global) -> Recorder {
        Recorder {
            named: HashMap::new(alloc),
            names: 0,
            text: Vec::new(alloc),
            has_failed: false,
        }
    }

    // Counts one more line of a client, and returns how it appears.
    fn counted(&mut self, client: ClientId) -> Option<Named> {
        let named = self.named.get_mut(&client.0)?;
        named.lines = named.lines.saturating_add(1);
        Some(*named)
    }

    // Gives a new client a name, and returns it.
    fn introduce(&mut self, client: ClientId) -> Result<u64, AllocError> {
        if self.names >= MAX_NAMES {
            return Err(AllocError);
        }
        self.names += 1;
        let name = self.names;
        self.named.insert(client.0, Named { name, lines: 1 })?;
        Ok(name)
    }

    // Appends the line of an event.
    fn put_line(&mut self, entry: &Entry) -> Result<(), AllocError> {
        match entry {
            Entry::Join(client, priority) => {
                let name = self.introduce(*client)?;
                put_hello(&mut self.text, name, *priority)?;
                put_answer(&mut self.text, name, 1, Outcome::Done)
            }
            Entry::Call(client, call, _) => match self.counted(*client) {
                Some(named) => put_call(&mut self.text, named.name, call),
                None => Ok(()),
            },
            Entry::Death(client) => match self.named.remove(&client.0) {
                Some(named) => put_die(&mut self.text, named.name),
                None => Ok(()),
            },
            Entry::Moment(clock, moment) => put_moment(&mut self.text, *clock, *moment),
            _ => Ok(()),
        }
    }

    /// Records an event by its own entry.
    pub fn record(&mut self, entry: &Entry) {
        if !self.has_failed && self.put_line(entry).is_err() {
            self.has_failed = true;
        }
    }

    /// Records an answer that the latest event brought.
    pub fn answer(&mut self, reply: &Reply) {
        if self.has_failed {
            return;
        }
        let Some(named) = self.named.get(&reply.client.0).copied() else {
            return;
        };
        if put_answer(&mut self.text, named.name, named.lines, reply.outcome).is_err() {
            self.has_failed = true;
        }
    }

    /// Returns what was recorded since the last time, or `None` if the recording has ended.
    pub fn take(&mut self) -> Option<Vec<u8>> {
        if self.has_failed {
            return None;
        }
        let alloc = *self.text.allocator();
        Some(mem::replace(&mut self.text, Vec::new(alloc)))
    }
}
