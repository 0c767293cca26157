ghost use Rattle.std.specs.Prelude.{◌≡◌, ◌<◌, ◌++◌, ◌^◌, ◌∷◌, [], suc, length, Some, None};
ghost use Rattle.std.specs.Prelude.{OnOk, OnErr, IfOk, IfErr, IfSome, IsSome};
ghost use Rattle.std.specs.Bool.{OnTrue};
ghost use Rattle.pt_engine.specs.Names.{client_of_row, lines_in, row_of_name};
ghost use Rattle.pt_engine.specs.Places.{key_at};

use crate::fault::ScriptFault;
use http_server::Log;
use indexmap::IndexMap;
use pt_hints::{Hints, are_same};
use pt_lines::{ClientName, Who};
use pt_types::{ClientId, key_of};
use std::alloc::{Allocator, Global};
use std::hash::{BuildHasherDefault, FoldHasher};
use std::marker::Model;

/// What is stored of a client's name: the number of its lines that came, and the client's number
/// once it joined.
#[derive(Drop)]
pub struct Row {
    pub lines: u64,
    pub client: Option<ClientId>,
}

/// A line that was counted.
#[derive(Clone, Copy)]
pub struct CountedLine {
    /// The line's number among the lines of its client, from 1.
    pub number: u64,
    /// The client that joined under the line's name, if one did.
    pub client: Option<ClientId>,
}

type Rows<A> = IndexMap<ClientName, Row, BuildHasherDefault<FoldHasher>, A>;

// The number of lines that came of each client, and the number of each client that joined. A row is
// found by a hint, if no other name with that hint came since. Otherwise it is found by the hash of
// its name. By hashes alone each script takes 4 to 12 percent more instructions: 12 if one client
// locks and unlocks one mutex.
#[derive(Drop)]
struct Counts<A: Allocator + Copy> {
    rows: Rows<A>,
    hints: Hints<A>,
    star: u64,
    unknown: u64,
}

impl<A: Allocator + Copy> Model for Counts<A> {
    ghost use Rattle.pt_engine.specs.Names.{LineCounts};

    ghost Value = { LineCounts };

    ghost view = { λ k. record { rows = k.rows.entries; star = k.star; unknown = k.unknown } };
}

/// The clients of a script: the number of lines that came of each, and the number of each client
/// that joined.
///
/// Contracts see which client each line belongs to, and the clients in the order of their joins.
/// The former list exists for proofs alone and takes no memory.
#[derive(Drop)]
pub struct Names<A: Allocator + Copy = Global> {
    counts: Counts<A>,
    total: u64,
    seen: Log<Who, ()>,
    joined: Vec<(ClientName, ClientId), A>,
}

impl<A: Allocator + Copy> Model for Names<A> {
    ghost use Rattle.std.specs.Prelude.{map};
    ghost use Rattle.pt_engine.specs.Names.{NamesView, AreCounted};

    ghost Value = { NamesView };

    ghost view = { λ n. record { seen = map (λ p. p.0) n.seen.items; clients = n.joined.items } };

    ghost invariant = { λ n. AreCounted n.counts n.total
        (record { seen = map (λ p. p.0) n.seen.items; clients = n.joined.items }) };
}

// Returns the key of the name whose row is at an index, and the index.
fn keyed<A: Allocator + Copy>(rows: &Rows<A>, index: usize) -> Option<(u64, usize)> {
    let (name, _) = rows.get_index(index)?;
    Some((key_of(name.as_bytes()), index))
}

// Makes more hints if there are too few for the rows.
fn grow<A: Allocator + Copy>(hints: &mut Hints<A>, rows: &Rows<A>) -> Result<(), ScriptFault>
    ensures err { IfErr result (λ fault. fault ≡ ScriptFault.Memory) }
{
    match hints.grow_for(rows.len(), |index| keyed(rows, index)) {
        Ok(()) => Ok(()),
        Err(_) => Err(ScriptFault::Memory),
    }
}

// Returns whether the row at an index is this name's.
#[inline(always)]
fn is_at<A: Allocator + Copy>(rows: &Rows<A>, index: usize, name: &ClientName) -> bool
    ensures { OnTrue result (key_at rows.now.entries index ≡ Some name.now) }
{
    match rows.get_index(index) {
        Some((key, _)) => are_same(key.as_bytes(), name.as_bytes()),
        None => false,
    }
}

// Returns the counted line for a line of the clocks, or of no client that can be read, with its
// number.
fn unnamed(number: u64) -> CountedLine
    ensures number { result.number ≡ number }
    ensures client { result.client ≡ None }
{
    CountedLine {
        number,
        client: None,
    }
}

// Adds a client with its name and its number.
fn push_client<A: Allocator>(
    joined: &mut Vec<(ClientName, ClientId), A>,
    name: &ClientName,
    client: ClientId,
) -> Result<(), ScriptFault>
    ensures ok { OnOk result (joined.new.items ≡ joined.old.items ++ (name.now, client) ∷ []) }
    ensures unchanged { OnErr result (joined.new.items ≡ joined.old.items) }
    ensures err { IfErr result (λ fault. fault ≡ ScriptFault.Memory) }
{
    match joined.push((name.copied(), client)) {
        Ok(()) => Ok(()),
        Err(_) => Err(ScriptFault::Memory),
    }
}

impl<A: Allocator + Copy> Counts<A> {
    ghost use Rattle.pt_engine.specs.Names.{client_counted, lines_counted, CountsOneLine};
    ghost use Rattle.pt_engine.specs.Names.{NotesNumber};
    ghost use Rattle.pt_engine.specs.Names.{HaveSameCounts};

    // Adds the row of a name with no counted line, and returns its index.
    fn begin(&mut self, name: &ClientName) -> Result<usize, ScriptFault>
        requires { row_of_name self.old.rows name.now ≡ None }
        ensures at { IfOk result (λ index. key_at self.new.rows index ≡ Some name.now) }
        ensures alike { HaveSameCounts self.old self.new }
        ensures err { IfErr result (λ fault. fault ≡ ScriptFault.Memory) }
    {
        grow(&mut self.hints, &self.rows)?;
        let index = self.rows.len();
        let row = Row {
            lines: 0,
            client: None,
        };
        match self.rows.insert(name.copied(), row) {
            Ok(_) => {
                self.hints.set(key_of(name.as_bytes()), index);
                Ok(index)
            }
            Err(_) => Err(ScriptFault::Memory),
        }
    }

    // Returns the index to which the hint of a name leads, if the name's row is there.
    #[inline(always)]
    fn hinted(&self, name: &ClientName) -> Option<usize>
        ensures { IfSome result (λ index. key_at self.now.rows index ≡ Some name.now) }
    {
        let index = self.hints.get(key_of(name.as_bytes())).unwrap_or(0);
        if is_at(&self.rows, index, name) {
            Some(index)
        } else {
            None
        }
    }

    // Returns the index of the row of a name, which is found by the hash of the name, or made. It
    // isn't inlined, since the rows of most lines are found by their hints.
    #[cold]
    #[inline(never)]
    fn look_up(&mut self, name: &ClientName) -> Result<usize, ScriptFault>
        ensures at { IfOk result (λ index. key_at self.new.rows index ≡ Some name.now) }
        ensures alike { HaveSameCounts self.old self.new }
        ensures err { IfErr result (λ fault. fault ≡ ScriptFault.Memory) }
    {
        match self.rows.get_full(name) {
            Some(found) => {
                self.hints.set(key_of(name.as_bytes()), found.0);
                Ok(found.0)
            }
            None => self.begin(name),
        }
    }

    // Counts a line of this name, whose row is at an index.
    #[inline(always)]
    fn count_at(&mut self, index: usize, name: &ClientName) -> CountedLine
        requires at { key_at self.old.rows index ≡ Some name.now }
        requires within { lines_in (row_of_name self.old.rows name.now) < 2 ^ 53 }
        ensures number { result.number ≡ suc (lines_in (row_of_name self.old.rows name.now)) }
        ensures client { result.client ≡ client_of_row (row_of_name self.old.rows name.now) }
        ensures raised { CountsOneLine self.old (Who.Named name.now) self.new }
    {
        let (_, row) = self.rows.pair_mut(index);
        row.lines += 1;
        CountedLine {
            number: row.lines,
            client: row.client,
        }
    }

    // Counts a line of this name.
    #[inline(always)]
    fn raise_named(&mut self, name: &ClientName) -> Result<CountedLine, ScriptFault>
        requires { lines_in (row_of_name self.old.rows name.now) < 2 ^ 53 }
        ensures number { IfOk result (λ n.
            n.number ≡ suc (lines_in (row_of_name self.old.rows name.now))) }
        ensures client { IfOk result (λ n. n.client
            ≡ client_of_row (row_of_name self.old.rows name.now)) }
        ensures ok { OnOk result (CountsOneLine self.old (Who.Named name.now) self.new) }
        ensures unchanged { OnErr result (HaveSameCounts self.old self.new) }
        ensures err { IfErr result (λ fault. fault ≡ ScriptFault.Memory) }
    {
        if let Some(index) = self.hinted(name) {
            return Ok(self.count_at(index, name));
        }
        let index = self.look_up(name)?;
        Ok(self.count_at(index, name))
    }

    // Counts a line.
    #[inline(always)]
    fn raise(&mut self, who: &Who) -> Result<CountedLine, ScriptFault>
        requires { lines_counted self.old who.now < 2 ^ 53 }
        ensures number { IfOk result (λ n. n.number ≡ suc (lines_counted self.old who.now)) }
        ensures client { IfOk result (λ n. n.client ≡ client_counted self.old who.now) }
        ensures ok { OnOk result (CountsOneLine self.old who.now self.new) }
        ensures unchanged { OnErr result (HaveSameCounts self.old self.new) }
        ensures err { IfErr result (λ fault. fault ≡ ScriptFault.Memory) }
    {
        match who {
            Who::Named(name) => self.raise_named(name),
            Who::Star => {
                self.star += 1;
                Ok(unnamed(self.star))
            }
            Who::Unknown => {
                self.unknown += 1;
                Ok(unnamed(self.unknown))
            }
        }
    }

    // Returns the number of the client that joined under this name, if one did.
    fn client_named(&self, name: &ClientName) -> Option<ClientId>
        ensures { result ≡ client_of_row (row_of_name self.now.rows name.now) }
    {
        match self.rows.get(name) {
            Some(row) => row.client,
            None => None,
        }
    }

    // Stores the number of the client with this name.
    fn give(&mut self, name: &ClientName, client: ClientId)
        requires { IsSome (row_of_name self.old.rows name.now) }
        ensures { NotesNumber self.old name.now client self.new }
    {
        self.rows.get_mut(name).unwrap().client = Some(client);
    }
}

impl<A: Allocator + Copy> Names<A> {
    ghost use Rattle.pt_engine.specs.Scripts.{lines_of_who, number_of_who};
    ghost use Rattle.pt_engine.specs.Scripts.{clients_joined};

    /// Creates a set of names with no client and no line, which allocates nothing.
    pub fn new(alloc: A) -> Names<A>
        ensures { result ≡ record { seen = []; clients = [] } }
    {
        let counts = Counts {
            rows: IndexMap::new(alloc),
            hints: Hints::new(alloc),
            star: 0,
            unknown: 0,
        };
        Names {
            counts,
            total: 0,
            seen: Log::new(),
            joined: Vec::new(alloc),
        }
    }

    /// Returns the number of lines that came.
    pub fn total(&self) -> u64
        ensures { result ≡ length self.now.seen }
    {
        self.total
    }

    /// Returns the number of the client that joined under a line's name, if one did.
    pub fn client_of(&self, who: &Who) -> Option<ClientId>
        ensures { result ≡ number_of_who self.now.clients who.now }
    {
        match who {
            Who::Named(name) => self.counts.client_named(name),
            _ => None,
        }
    }

    /// Counts a line. A refused growth is a fault and changes nothing.
    #[inline(always)]
    pub fn count(&mut self, who: &Who) -> Result<CountedLine, ScriptFault>
        requires { length self.old.seen < 2 ^ 53 }
        ensures number { IfOk result (λ n. n.number ≡ suc (lines_of_who self.old.seen who.now)) }
        ensures client { IfOk result (λ n. n.client ≡ number_of_who self.old.clients who.now) }
        ensures ok { OnOk result
            (self.new ≡ record self.old { seen = self.old.seen ++ who.now ∷ [] }) }
        ensures unchanged { OnErr result (self.new ≡ self.old) }
        ensures err { IfErr result (λ fault. fault ≡ ScriptFault.Memory) }
    {
        let counted = self.counts.raise(who)?;
        self.total += 1;
        self.seen = self.seen.and(who, &());
        Ok(counted)
    }

    /// Joins a client that has sent a line, under its name and with this number. `*` and `?` never
    /// join. A refused growth is a fault and changes nothing.
    #[tactic(auto, using(crate::proofs::Rows::has_row, crate::proofs::Rows::joined_counted))]
    pub fn join(&mut self, who: &Who, client: ClientId) -> Result<(), ScriptFault>
        requires counted { 0 < lines_of_who self.old.seen who.now }
        requires first { number_of_who self.old.clients who.now ≡ None }
        ensures ok { OnOk result (self.new
            ≡ record self.old { clients = clients_joined who.now client self.old.clients }) }
        ensures unchanged { OnErr result (self.new ≡ self.old) }
        ensures err { IfErr result (λ fault. fault ≡ ScriptFault.Memory) }
    {
        if let Who::Named(name) = who {
            push_client(&mut self.joined, name, client)?;
            self.counts.give(name, client);
        }
        Ok(())
    }

    /// Returns the clients in the order of their joins, each with its name and its number.
    pub fn clients(&self) -> &[(ClientName, ClientId)]
        ensures { result.now ≡ self.now.clients }
    {
        self.joined.as_slice()
    }
}
