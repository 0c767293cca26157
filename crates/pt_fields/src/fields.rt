ghost use Rattle.std.specs.Prelude.{◌≡◌, ◌≤◌, [], ◌∷◌, MatchOption, length};
ghost use Rattle.memchr.specs.Find.{IsFirstByte, Nowhere, Passes, is_byte};
ghost use Rattle.pt_fields.specs.Fields.{fields, fields_left};

use std::marker::Model;
use std::simd::prelude::*;

// The number of bytes that are searched first for a space.
const BLOCK: usize = 16;

// Returns the place of the first space in a block. The bytes are tested together.
fn space_in(block: &[u8; BLOCK]) -> Option<usize>
    ensures { IsFirstByte (is_byte 32) block.now result }
{
    let space = u8x16::splat(b' ');
    let mask = u8x16::from_array(*block).simd_eq(space).to_bitmask();
    if mask == 0 {
        return None;
    }
    Some(mask.trailing_zeros() as usize)
}

// Returns the place of the first space of a text that has none before `start`.
fn space_from(text: &[u8], start: usize) -> Option<usize>
    requires within { start ≤ length text.now }
    requires none { Nowhere (Passes (is_byte 32) text.now) 0 start }
    ensures { IsFirstByte (is_byte 32) text.now result }
{
    for place in start..text.len() {
        if text[place] == b' ' {
            return Some(place);
        }
    }
    None
}

/// Returns the place of the first space, if there is one.
pub fn first_space(text: &[u8]) -> Option<usize>
    ensures { IsFirstByte (is_byte 32) text.now result }
{
    let Some(block) = text.first_chunk::<BLOCK>() else {
        return space_from(text, 0);
    };
    match space_in(block) {
        Some(place) => Some(place),
        None => space_from(text, BLOCK),
    }
}

/// The remaining fields of a line, one after another.
#[derive(Drop)]
pub struct Fields<'a> {
    rest: Option<&'a [u8]>,
}

impl<'a> Model for Fields<'a> {
    ghost use Rattle.std.specs.Prelude.{List, ℕ};
    ghost use Rattle.pt_fields.specs.Fields.{fields_left};

    ghost Value = { List (List ℕ) };

    ghost view = { λ f. fields_left f.rest };
}

impl<'a> Fields<'a> {
    /// Returns the parts of a text between its spaces.
    pub fn new(text: &'a [u8]) -> Self
        ensures { result ≡ fields text.now }
    {
        Fields { rest: Some(text) }
    }

    /// Returns the parts of what is left of a text, if anything is.
    pub fn left(rest: Option<&'a [u8]>) -> Self
        ensures { result ≡ fields_left rest.entry }
    {
        Fields { rest }
    }

    /// Returns the text that is left: these fields, separated by single spaces.
    pub fn rest(self) -> Option<&'a [u8]>
        ensures { fields_left result ≡ self.entry }
    {
        self.rest
    }

    /// Returns the next field, if one is left.
    #[inline(always)]
    pub fn next(&mut self) -> Option<&'a [u8]>
        ensures { MatchOption result ((self.old ≡ []) × (self.new ≡ []))
            (λ field. self.old ≡ field.now ∷ self.new) }
    {
        let text = self.rest?;
        match first_space(text) {
            Some(end) => {
                self.rest = Some(&text[end + 1..]);
                Some(&text[..end])
            }
            None => {
                self.rest = None;
                Some(text)
            }
        }
    }
}
