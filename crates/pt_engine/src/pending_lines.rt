//! The lines of calls that had to wait.

ghost use Rattle.std.specs.Prelude.{◌≡◌, ◌<◌, [], Some, None, OnOk, IfErr, IfSome};
ghost use Rattle.std.specs.Option.{option_copied};
ghost use Rattle.pt_engine.specs.Engines.{latest_line, StoresLine};
ghost use Rattle.pt_engine.specs.Places.{key_at};

use crate::fault::ScriptFault;
use crate::line_id::LineId;
use pt_hints::Hints;
use pt_types::ClientId;
use std::alloc::{AllocError, Allocator, Global};
use std::collections::HashMap;
use std::hash::{BuildHasherDefault, FoldHasher};
use std::marker::Model;

type Lines<A> = Vec<(u64, LineId), A>;

type Places<A> = HashMap<u64, usize, BuildHasherDefault<FoldHasher>, A>;

/// The line that made each client's latest call that had to wait, by the client's number.
///
/// A line is found by a hint, if no call of another client with the same low bits of its number had
/// to wait since. Otherwise it is found by the hash of the number.
#[derive(Drop)]
pub struct PendingLines<A: Allocator + Copy = Global> {
    lines: Lines<A>,
    /// The index of each client's line.
    places: Places<A>,
    hints: Hints<A>,
    has_room: bool,
}

impl<A: Allocator + Copy> Model for PendingLines<A> {
    ghost use Rattle.std.specs.Prelude.{◌<◌, ◌-◌, min, nat_eq, vec_capacity, vec_len};
    ghost use Rattle.std.specs.Bool.{OnTrue};
    ghost use Rattle.std.specs.HashMap.{spare};
    ghost use Rattle.pt_engine.specs.Engines.{PendingLinesView};
    ghost use Rattle.pt_engine.specs.Places.{ArePlaces};

    ghost Value = { PendingLinesView };

    ghost view = { λ a. record {
      entries = a.lines.items;
      room = min (vec_capacity a.lines - vec_len a.lines) (spare a.places);
    } };

    ghost invariant = { λ a. ArePlaces nat_eq a.lines.items a.places.entries
        × OnTrue a.has_room
        (0 < min (vec_capacity a.lines - vec_len a.lines) (spare a.places)) };
}

// Returns the number of the client whose line is at an index, and the index.
fn keyed(lines: &[(u64, LineId)], index: usize) -> Option<(u64, usize)> {
    let (client, _) = lines.get(index)?;
    Some((*client, index))
}

// Makes more hints if there are too few for the lines.
fn grow<A: Allocator + Copy>(hints: &mut Hints<A>, lines: &Lines<A>) -> Result<(), AllocError> {
    hints.grow_for(lines.len(), |index| keyed(lines.as_slice(), index))
}

impl<A: Allocator + Copy> PendingLines<A> {
    /// Creates an empty set of lines, which allocates nothing.
    pub fn new(alloc: A) -> PendingLines<A>
        ensures { result.entries ≡ [] }
    {
        PendingLines {
            lines: Vec::new(alloc),
            places: HashMap::new(alloc),
            hints: Hints::new(alloc),
            has_room: false,
        }
    }

    // Makes room for one more line, and makes more hints if there are too few.
    #[cold]
    #[inline(never)]
    fn make_room(&mut self) -> Result<(), ScriptFault>
        ensures entries { self.new.entries ≡ self.old.entries }
        ensures room { OnOk result (0 < self.new.room) }
        ensures err { IfErr result (λ fault. fault ≡ ScriptFault.Memory) }
    {
        if self.lines.reserve(1).is_err()
            || self.places.reserve(1).is_err()
            || grow(&mut self.hints, &self.lines).is_err()
        {
            return Err(ScriptFault::Memory);
        }
        self.has_room = true;
        Ok(())
    }

    /// Makes room for one more line.
    #[inline(always)]
    pub fn reserve(&mut self) -> Result<(), ScriptFault>
        ensures entries { self.new.entries ≡ self.old.entries }
        ensures room { OnOk result (0 < self.new.room) }
        ensures err { IfErr result (λ fault. fault ≡ ScriptFault.Memory) }
    {
        if self.has_room {
            return Ok(());
        }
        self.make_room()
    }

    // Returns the client's line, if one is stored, by the hash of the client's number. It isn't
    // inlined, since the lines of most clients are found by their hints.
    #[cold]
    #[inline(never)]
    fn find(&self, client: ClientId) -> Option<&LineId>
        ensures { option_copied result ≡ latest_line self.now.entries client }
    {
        let index = self.places.get(&client.0)?;
        Some(&self.lines[*index].1)
    }

    /// Returns the client's line, if one is stored.
    #[inline(always)]
    pub fn get(&self, client: ClientId) -> Option<&LineId>
        ensures { option_copied result ≡ latest_line self.now.entries client }
    {
        let index = self.hints.get(client.0).unwrap_or(0);
        match self.lines.get(index) {
            Some((number, line)) if *number == client.0 => Some(line),
            _ => self.find(client),
        }
    }

    // Returns the index to which the client's hint leads, if the client's line is there.
    #[inline(always)]
    fn hinted(&self, client: ClientId) -> Option<usize>
        ensures { IfSome result (λ index. key_at self.now.entries index ≡ Some client) }
    {
        let index = self.hints.get(client.0).unwrap_or(0);
        match self.lines.get(index) {
            Some((number, _)) if *number == client.0 => Some(index),
            _ => None,
        }
    }

    // Replaces the line at an index, which is this client's.
    fn store_at(&mut self, index: usize, client: ClientId, line: &LineId)
        requires { key_at self.old.entries index ≡ Some client }
        ensures { StoresLine self.old.entries client line.now self.new.entries }
    {
        self.lines[index].1 = line.copied();
    }

    // Adds the line of a client that has none stored.
    fn add(&mut self, client: ClientId, line: &LineId)
        requires room { 0 < self.old.room }
        requires new { latest_line self.old.entries client ≡ None }
        ensures { StoresLine self.old.entries client line.now self.new.entries }
    {
        let index = self.lines.len();
        self.has_room = false;
        self.hints.set(client.0, index);
        let inserted: Result<_, _> = self.places.insert(client.0, index);
        inserted.unwrap();
        self.lines.push_reserved((client.0, line.copied()));
    }

    // Stores the line of a client whose line is not found by a hint. It isn't inlined, since this
    // is rare.
    #[cold]
    #[inline(never)]
    fn insert(&mut self, client: ClientId, line: &LineId)
        requires { 0 < self.old.room }
        ensures { StoresLine self.old.entries client line.now self.new.entries }
    {
        match self.places.get(&client.0).copied() {
            Some(index) => {
                self.hints.set(client.0, index);
                self.store_at(index, client, line);
            }
            None => self.add(client, line),
        }
    }

    /// Stores this line as the client's, in place of any before it. It allocates nothing.
    #[inline(always)]
    pub fn store(&mut self, client: ClientId, line: &LineId)
        requires { 0 < self.old.room }
        ensures { StoresLine self.old.entries client line.now self.new.entries }
    {
        if let Some(index) = self.hinted(client) {
            return self.store_at(index, client, line);
        }
        self.insert(client, line);
    }
}
