ghost use Rattle.std.specs.Prelude.{◌≡◌, ◌↔◌, ◌≤◌, ◌<◌, ◌++◌, ◌∷◌, IsTrue, IfSome, length, take};
ghost use Rattle.std.specs.Cmp.{partial_equiv_from_equiv};
ghost use Rattle.std.specs.Cmp.Lexicographic.{nat_list_eq_equiv};
ghost use Rattle.std.specs.List.{list_all};
ghost use Rattle.std.specs.Str.{bytes_eq};
ghost use Rattle.pt_grammar.specs.ClientNames.{is_client_byte, IsClientName};

use std::hash::{Hash, Hasher};
use std::marker::Model;
use std::simd::prelude::*;

// The most bytes in a client's name.
const MAX_NAME_BYTES: usize = 8;

/// The name of a client in a script: 1 to 8 ASCII letters or digits.
///
/// Contracts see it as its bytes. The padding of its block has no meaning.
#[derive(Drop)]
pub struct ClientName {
    block: [u8; MAX_NAME_BYTES],
    len: u8,
}

impl Model for ClientName {
    ghost use Rattle.std.specs.Prelude.{◌≤◌, List, ℕ, take};
    ghost use Rattle.pt_grammar.specs.ClientNames.{IsClientName};

    ghost Value = { List ℕ };

    ghost view = { λ n. take n.len n.block };

    ghost invariant = { λ n. (n.len ≤ 8) × IsClientName (take n.len n.block) };
}

// For each byte, whether a client's name may contain it.
const ALLOWED_BYTES: [bool; 256] = [
    false, false, false, false, false, false, false, false, false, false, false, false, false,
    false, false, false, false, false, false, false, false, false, false, false, false, false,
    false, false, false, false, false, false, false, false, false, false, false, false, false,
    false, false, false, false, false, false, false, false, false, true, true, true, true, true,
    true, true, true, true, true, false, false, false, false, false, false, false, true, true,
    true, true, true, true, true, true, true, true, true, true, true, true, true, true, true, true,
    true, true, true, true, true, true, true, true, false, false, false, false, false, false, true,
    true, true, true, true, true, true, true, true, true, true, true, true, true, true, true, true,
    true, true, true, true, true, true, true, true, true, false, false, false, false, false, false,
    false, false, false, false, false, false, false, false, false, false, false, false, false,
    false, false, false, false, false, false, false, false, false, false, false, false, false,
    false, false, false, false, false, false, false, false, false, false, false, false, false,
    false, false, false, false, false, false, false, false, false, false, false, false, false,
    false, false, false, false, false, false, false, false, false, false, false, false, false,
    false, false, false, false, false, false, false, false, false, false, false, false, false,
    false, false, false, false, false, false, false, false, false, false, false, false, false,
    false, false, false, false, false, false, false, false, false, false, false, false, false,
    false, false, false, false, false, false, false, false, false, false, false, false, false,
    false, false, false, false, false, false, false, false, false, false,
];

fn is_allowed_byte(byte: u8) -> bool
    ensures { result ≡ is_client_byte byte }
{
    ALLOWED_BYTES[byte as usize]
}

fn are_allowed_bytes(bytes: &[u8]) -> bool
    ensures { result ≡ list_all is_client_byte bytes.now }
{
    for byte in bytes {
        if !is_allowed_byte(*byte) {
            return false;
        }
    }
    true
}

// Returns whether these bytes are a client's name.
fn is_name(bytes: &[u8]) -> bool
    ensures { IsTrue result ↔ IsClientName bytes.now }
{
    !bytes.is_empty() && bytes.len() <= 8 && are_allowed_bytes(bytes)
}

// Pads a few bytes to a block. It isn't inlined, since few texts are so short.
#[cold]
#[inline(never)]
fn filled_up(bytes: &[u8]) -> [u8; MAX_NAME_BYTES]
    requires { length bytes.now ≤ 8 }
    ensures { take (length bytes.now) result ≡ bytes.now }
{
    let mut block = [0; MAX_NAME_BYTES];
    block[..bytes.len()].copy_from_slice(bytes);
    block
}

// Returns a block that begins with the first `len` bytes of a text.
#[inline(always)]
#[tactic(auto, using(crate::proofs::StartLemmas::front_of))]
fn block_of(text: &[u8], len: usize) -> [u8; MAX_NAME_BYTES]
    requires within { len ≤ length text.now }
    requires short { len ≤ 8 }
    ensures { take len result ≡ take len text.now }
{
    match text.first_chunk::<MAX_NAME_BYTES>() {
        Some(block) => *block,
        None => filled_up(&text[..len]),
    }
}

// Returns the place of the first byte that a client's name can't contain, among the first eight
// bytes of a text, or eight if there is none. All eight are tested together.
#[inline(always)]
fn block_len(text: &[u8]) -> usize
    requires { MAX_NAME_BYTES ≤ length text.now }
    ensures within { result ≤ 8 }
    ensures valid { IsTrue (list_all is_client_byte (take result text.now)) }
{
    let bytes = u8x8::from_slice(text);
    let from_zero = bytes - u8x8::splat(b'0');
    let from_a = (bytes | u8x8::splat(0x20)) - u8x8::splat(b'a');
    let stops = from_zero.simd_ge(u8x8::splat(10)) & from_a.simd_ge(u8x8::splat(26));
    let mask = stops.to_bitmask();
    if mask == 0 {
        return MAX_NAME_BYTES;
    }
    mask.trailing_zeros() as usize
}

// Does what block_len does, for a text with fewer bytes. Few lines are so short.
#[cold]
#[inline(never)]
fn short_len(text: &[u8]) -> usize
    requires { length text.now < 8 }
    ensures within { result ≤ length text.now }
    ensures valid { IsTrue (list_all is_client_byte (take result text.now)) }
{
    for place in 0..text.len() {
        if !is_allowed_byte(text[place]) {
            return place;
        }
    }
    text.len()
}

// Returns the number of bytes before the first that a client's name can't contain, but at most
// eight.
#[inline(always)]
fn name_len(text: &[u8]) -> usize
    ensures within { result ≤ length text.now }
    ensures short { result ≤ 8 }
    ensures valid { IsTrue (list_all is_client_byte (take result text.now)) }
{
    if text.len() < MAX_NAME_BYTES {
        return short_len(text);
    }
    block_len(text)
}

/// Returns the client at the start of a text, and what follows it and a space, if the text begins
/// with a client's name and a space. The name is tested as the space is searched for.
#[inline(always)]
#[tactic(auto, using(crate::proofs::StartLemmas::named_by))]
pub(crate) fn client_at_start(text: &[u8]) -> Option<(ClientName, &[u8])>
    ensures text { IfSome result (λ start. text.now ≡ start.0 ++ 32 ∷ start.1.now) }
    ensures name { IfSome result (λ start. IsClientName start.0) }
{
    let len = name_len(text);
    if len == 0 || len >= text.len() || text[len] != b' ' {
        return None;
    }
    let name = ClientName {
        block: block_of(text, len),
        len: len as u8,
    };
    Some((name, &text[len + 1..]))
}

// Returns the name with these bytes, which are a valid name.
#[tactic(auto, using(crate::proofs::StartLemmas::whole, crate::proofs::StartLemmas::whole_name))]
fn name_of(bytes: &[u8]) -> ClientName
    requires { IsClientName bytes.now }
    ensures { result ≡ bytes.now }
{
    ClientName {
        block: block_of(bytes, bytes.len()),
        len: bytes.len() as u8,
    }
}

impl ClientName {
    ghost use Rattle.std.specs.Prelude.{IsSome, IfSome};

    /// Returns the name with these bytes, or None if they are not a name.
    pub fn new(bytes: &[u8]) -> Option<ClientName>
        ensures valid { IsSome result ↔ IsClientName bytes.now }
        ensures value { IfSome result (λ name. name ≡ bytes.now) }
    {
        if !is_name(bytes) {
            return None;
        }
        Some(name_of(bytes))
    }

    /// Returns the bytes of the name.
    pub fn as_bytes(&self) -> &[u8]
        ensures bytes { result.now ≡ self.now }
        ensures name { IsClientName result.now }
    {
        // The name has at most eight bytes. From the minimum the compiler knows this, so a copy of
        // them needs no loop.
        &self.block[..MAX_NAME_BYTES.min(self.len as usize)]
    }

    /// Returns the block that begins with the bytes of the name, and their number.
    #[inline(always)]
    pub fn filled(&self) -> ([u8; MAX_NAME_BYTES], usize)
        ensures within { result.1 ≤ 8 }
        ensures bytes { take result.1 result.0 ≡ self.now }
    {
        (self.block, MAX_NAME_BYTES.min(self.len as usize))
    }

    /// Returns a second name with the same bytes, without allocating.
    pub fn copied(&self) -> ClientName
        ensures { result ≡ self.now }
    {
        ClientName {
            block: self.block,
            len: self.len,
        }
    }
}

impl PartialEq for ClientName {
    ghost eq = { bytes_eq };

    ghost laws = { partial_equiv_from_equiv nat_list_eq_equiv };

    fn eq(&self, other: &Self) -> bool {
        self.as_bytes() == other.as_bytes()
    }
}

impl Eq for ClientName {
    ghost laws = { nat_list_eq_equiv };
}

// The bytes are hashed together, not one after another.
impl Hash for ClientName {
    ghost use Rattle.std.specs.Prelude.{[], ◌∷◌};
    ghost use Rattle.std.proofs.Common.{rules};

    ghost hash_input = { λ n. n ∷ [] };

    ghost respects_eq = { Prim.search rules };

    fn hash<H: Hasher>(&self, state: &mut H) {
        state.write(self.as_bytes());
    }
}

/// The client that a line of a script belongs to.
#[derive(PartialEq, Eq, Drop)]
pub enum Who {
    /// A client with a name.
    Named(ClientName),
    /// The clocks, written `*`.
    Star,
    /// No client that can be read, written `?`.
    Unknown,
}

impl Who {
    ghost use Rattle.std.specs.Prelude.{◌≤◌, length};
    ghost use Rattle.pt_grammar.specs.Clients.{who_text, who_named};

    /// Returns what this name denotes: `*`, a client, or neither.
    pub fn named(name: &[u8]) -> Who
        ensures { result ≡ who_named name.now }
    {
        if is_name(name) {
            return Who::Named(name_of(name));
        }
        if name == b"*".as_slice() {
            return Who::Star;
        }
        Who::Unknown
    }

    /// Returns the bytes that are printed for it.
    pub fn as_bytes(&self) -> &[u8]
        ensures bytes { result.now ≡ who_text self.now }
        ensures within { length result.now ≤ 8 }
    {
        match self {
            Who::Named(name) => name.as_bytes(),
            Who::Star => b"*",
            Who::Unknown => b"?",
        }
    }

    /// Returns a block that begins with the bytes that are printed for it, and their number.
    pub fn filled(&self) -> ([u8; MAX_NAME_BYTES], usize)
        ensures within { result.1 ≤ 8 }
        ensures bytes { take result.1 result.0 ≡ who_text self.now }
    {
        match self {
            Who::Named(name) => name.filled(),
            Who::Star => (*b"*.......", 1),
            Who::Unknown => (*b"?.......", 1),
        }
    }

    /// Returns a copy, without allocating.
    pub fn copied(&self) -> Who
        ensures { result ≡ self.now }
    {
        match self {
            Who::Named(name) => Who::Named(name.copied()),
            Who::Star => Who::Star,
            Who::Unknown => Who::Unknown,
        }
    }
}
