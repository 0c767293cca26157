ghost use Rattle.std.specs.Prelude.{◌≡◌, ◌≤◌, ◌<◌, ◌+◌, ◌++◌, [], ◌∷◌, ℕ, List, OnOk, OnErr, IfErr};
ghost use Rattle.std.specs.Prelude.{OnSome, IfOk, IfSome, IfNone, true, false, length};
ghost use Rattle.std.specs.Prelude.{option_to_list, if◌then◌else◌};
ghost use Rattle.std.specs.Bool.{OnTrue, OnFalse};
ghost use Rattle.std.specs.List.{flat_map};
ghost use Rattle.memchr.specs.Find.{IsFirstByte, is_byte};
ghost use Rattle.pt_grammar.specs.Cuts.{is_long};
ghost use Rattle.pt_grammar.specs.Lines.{lines, lines_after_newline, lines_to_come, NoNewline};
ghost use Rattle.pt_grammar.specs.Lines.{HasNoWholeLine};
ghost use Rattle.pt_grammar.specs.Lines.{LinesOfTexts};

use arrayvec::ArrayVec;
use bytes::BytesMut;
use memchr::memchr;
use pt_grammar::{CallLine, Cut, ScriptLine, read_call, read_short};
use pt_types::{MAX_LINE_LENGTH, Refusal};
use std::alloc::{Allocator, Global};
use std::marker::Model;
use std::simd::prelude::*;

// The number of bytes that are searched first for a newline.
const SHORT_LINE: usize = 32;

// The number of bytes that are searched next.
const LONG_LINE: usize = 64;

/// Cuts a stream of bytes into lines, in whatever pieces the bytes come.
///
/// Contracts see it as the bytes that it holds, and whether these continue a line that was given as
/// too long. Once `next_line` has returned None, it holds at most 128 bytes, and none of a line
/// that was too long.
pub struct Cutter<A: Allocator + Copy = Global> {
    buffer: BytesMut<A>,
    dropping: bool,
}

impl<A: Allocator + Copy> Model for Cutter<A> {
    ghost use Rattle.pt_grammar.specs.Lines.{CutterView};

    ghost Value = { CutterView };

    ghost view = { λ c. record { rest = c.buffer.items; dropping = c.dropping } };
}

// Not derived, so that code that drops a cutter proves nothing of its parts.
impl<A: Allocator + Copy> Drop for Cutter<A> {
    fn drop(self) {
        let Cutter {
            buffer: _,
            dropping: _,
        } = self;
    }
}

// Returns a line of at most 128 bytes.
fn line_of(text: &[u8]) -> ArrayVec<u8, MAX_LINE_LENGTH>
    requires { length text.now ≤ 128 }
    ensures { result.items ≡ text.now }
{
    ArrayVec::try_from(text).unwrap()
}

// Drops the bytes up to and including the first newline, or all if there is none. Returns whether
// there was one.
fn drop_line<A: Allocator + Copy>(buffer: &mut BytesMut<A>) -> bool
    ensures found { OnTrue result ((more : List ℕ) →
        lines_after_newline (buffer.old.items ++ more) ≡ lines (buffer.new.items ++ more)) }
    ensures none { OnFalse result ((more : List ℕ) →
        lines_after_newline (buffer.old.items ++ more) ≡ lines_after_newline more) }
    ensures empty { OnFalse result (buffer.new.items ≡ []) }
    ensures fewer { length buffer.new.items ≤ length buffer.old.items }
{
    match memchr(b'\n', buffer.as_slice()) {
        Some(end) => {
            buffer.advance(end + 1);
            true
        }
        None => {
            buffer.clear();
            false
        }
    }
}

// Takes the first line, if it is whole or already too long.
fn take_line<A: Allocator + Copy>(buffer: &mut BytesMut<A>) -> Option<Cut>
    ensures some { IfSome result (λ cut. (more : List ℕ) → lines (buffer.old.items ++ more)
        ≡ cut ∷ (if is_long cut then lines_after_newline (buffer.new.items ++ more)
        else lines (buffer.new.items ++ more))) }
    ensures fewer { OnSome result (length buffer.new.items < length buffer.old.items) }
    ensures none { IfNone result (NoNewline buffer.old.items × (length buffer.old.items ≤ 128)
        × (buffer.new.items ≡ buffer.old.items)) }
{
    let count = buffer.len().min(MAX_LINE_LENGTH + 1);
    let text = buffer.as_slice();
    match memchr(b'\n', &text[..count]) {
        Some(end) => {
            let line = line_of(&text[..end]);
            buffer.advance(end + 1);
            Some(Cut::Line(line))
        }
        None if count > MAX_LINE_LENGTH => {
            buffer.advance(MAX_LINE_LENGTH + 1);
            Some(Cut::Long)
        }
        None => None,
    }
}

// Returns the place of the first newline in a block. The bytes are tested together.
#[inline(always)]
fn newline_in(block: &[u8; SHORT_LINE]) -> Option<usize>
    ensures { IsFirstByte (is_byte 10) block.now result }
{
    let newline = u8x32::splat(b'\n');
    let mask = u8x32::from_array(*block).simd_eq(newline).to_bitmask();
    if mask == 0 {
        return None;
    }
    Some(mask.trailing_zeros() as usize)
}

// Does what newline_in does, for a longer block.
fn newline_in_long(block: &[u8; LONG_LINE]) -> Option<usize>
    ensures { IsFirstByte (is_byte 10) block.now result }
{
    let newline = u8x64::splat(b'\n');
    let mask = u8x64::from_array(*block).simd_eq(newline).to_bitmask();
    if mask == 0 {
        return None;
    }
    Some(mask.trailing_zeros() as usize)
}

impl<A: Allocator + Copy> Cutter<A> {
    ghost use Rattle.pt_grammar.specs.Lines.{IsFirstLine, after_line};
    ghost use Rattle.pt_grammar.specs.Reading.{IsNextCallLine};
    ghost use Rattle.pt_grammar.specs.Script.{IsNextScriptLine, short_read};

    /// Creates a cutter that was fed nothing, which allocates nothing.
    pub fn new(alloc: A) -> Self
        ensures { result ≡ record { rest = []; dropping = false } }
    {
        Cutter {
            buffer: BytesMut::new(alloc),
            dropping: false,
        }
    }

    /// Takes the next piece. Returns ENOMEM if a growth was refused. Nothing of the piece is taken
    /// then.
    pub fn feed(&mut self, piece: &[u8]) -> Result<(), Refusal>
        ensures ok { OnOk result
            (self.new ≡ record self.old { rest = self.old.rest ++ piece.now }) }
        ensures unchanged { OnErr result (self.new ≡ self.old) }
        ensures err { IfErr result (λ refusal. refusal ≡ Refusal.Enomem) }
    {
        self.buffer
            .extend_from_slice(piece)
            .map_err(|_| Refusal::Enomem)
    }

    /// Returns the next line, as soon as its newline or its 129th byte has come. It allocates
    /// nothing.
    pub fn next_line(&mut self) -> Option<Cut>
        ensures given { (more : List ℕ) →
            lines_to_come self.old more ≡ option_to_list result ++ lines_to_come self.new more }
        ensures none { IfNone result (HasNoWholeLine self.new) }
        ensures fewer { OnSome result (length self.new.rest < length self.old.rest) }
    {
        if self.dropping {
            if !drop_line(&mut self.buffer) {
                return None;
            }
            self.dropping = false;
        }
        let cut = take_line(&mut self.buffer)?;
        if let Cut::Long = cut {
            self.dropping = true;
        }
        Some(cut)
    }

    // Returns the place of the first line's newline, if it is among the first `limit` bytes.
    fn newline_within(&self, limit: usize) -> Option<usize>
        requires short { limit ≤ 129 }
        requires valid { self.now.dropping ≡ false }
        ensures { IfSome result (IsFirstLine self.now) }
    {
        let count = self.buffer.len().min(limit);
        let text = self.buffer.as_slice();
        memchr(b'\n', &text[..count])
    }

    // Returns the place of the first line's newline, if it is among the first 32 bytes. Most lines
    // have at most this many.
    fn newline_near(&self) -> Option<usize>
        requires { self.now.dropping ≡ false }
        ensures { IfSome result (IsFirstLine self.now) }
    {
        match self.buffer.as_slice().first_chunk::<SHORT_LINE>() {
            Some(block) => newline_in(block),
            None => self.newline_within(SHORT_LINE),
        }
    }

    // Returns the place of the first line's newline, if it is among the first 64 bytes and all of
    // these have come.
    fn newline_far(&self) -> Option<usize>
        requires { self.now.dropping ≡ false }
        ensures { IfSome result (IsFirstLine self.now) }
    {
        let block = self.buffer.as_slice().first_chunk::<LONG_LINE>()?;
        newline_in_long(block)
    }

    // Returns the place of the first line's newline, if it is among all bytes that a line and its
    // newline may have. It isn't inlined, since most lines are short.
    #[inline(never)]
    fn newline_later(&self) -> Option<usize>
        requires { self.now.dropping ≡ false }
        ensures { IfSome result (IsFirstLine self.now) }
    {
        match self.newline_far() {
            Some(end) => Some(end),
            None => self.newline_within(MAX_LINE_LENGTH + 1),
        }
    }

    // Returns the place of the first line's newline, if the line is whole and not too long. Few
    // bytes are searched first, since most lines are short and fewer steps are then needed.
    #[inline(always)]
    fn front(&self) -> Option<usize>
        ensures { IfSome result (IsFirstLine self.now) }
    {
        if self.dropping {
            return None;
        }
        match self.newline_near() {
            Some(end) => Some(end),
            None => self.newline_later(),
        }
    }

    /// Returns the text of the next line, if the line is whole and not too long. It is not copied.
    pub fn front_text(&self) -> Option<&[u8]>
        ensures line { IfSome result (λ text. IsNextScriptLine self.now (short_read text.now)
            (after_line self.now (length text.now))) }
        ensures front { IfSome result (λ text. IsFirstLine self.now (length text.now)) }
    {
        let end = self.front()?;
        Some(&self.buffer.as_slice()[..end])
    }

    /// Drops the next line. Its text has length `len`.
    pub fn drop_front(&mut self, len: usize)
        requires { IsFirstLine self.old len }
        ensures line { self.new ≡ after_line self.old len }
        ensures fewer { length self.new.rest < length self.old.rest }
    {
        self.buffer.advance(len + 1);
    }

    /// Reads the next line as one of a script, as soon as `next_line` would return it. A whole line
    /// is not copied, and nothing is allocated.
    pub fn next_script_line(&mut self) -> Option<ScriptLine>
        ensures some { IfSome result (λ line. IsNextScriptLine self.old line self.new) }
        ensures none { IfNone result (HasNoWholeLine self.new) }
        ensures unchanged { IfNone result
            ((more : List ℕ) → lines_to_come self.old more ≡ lines_to_come self.new more) }
        ensures fewer { OnSome result (length self.new.rest < length self.old.rest) }
    {
        let Some(end) = self.front() else {
            let cut = self.next_line()?;
            return Some(ScriptLine::of(&cut));
        };
        let text = self.buffer.as_slice();
        let line = read_short(&text[..end]);
        self.buffer.advance(end + 1);
        Some(line)
    }

    /// Reads the next line as one of a connection, as soon as `next_line` would return it. A whole
    /// line is not copied, and nothing is allocated.
    pub fn next_call_line(&mut self) -> Option<Result<CallLine, Refusal>>
        ensures some { IfSome result (λ reading. IsNextCallLine self.old reading self.new) }
        ensures none { IfNone result (HasNoWholeLine self.new) }
        ensures unchanged { IfNone result
            ((more : List ℕ) → lines_to_come self.old more ≡ lines_to_come self.new more) }
        ensures fewer { OnSome result (length self.new.rest < length self.old.rest) }
    {
        let Some(end) = self.front() else {
            let cut = self.next_line()?;
            return Some(CallLine::of(&cut));
        };
        let text = self.buffer.as_slice();
        let reading = read_call(&text[..end]);
        self.buffer.advance(end + 1);
        Some(reading)
    }

    /// Returns the last line, if no newline ended it. Returns None if nothing is left of the input,
    /// or only a line that was given as too long. It allocates nothing.
    pub fn finish(self) -> Option<Cut>
        requires { HasNoWholeLine self }
        ensures { lines_to_come self [] ≡ option_to_list result }
    {
        if self.buffer.is_empty() {
            return None;
        }
        Some(Cut::Line(line_of(self.buffer.as_slice())))
    }
}

/// Texts without a newline, each ended by one, and a rest without a newline have as their lines
/// these texts and, unless it is empty, the rest. A line of more than 128 bytes is too long.
pub fn lines_of_texts()
    ensures { LinesOfTexts }
{}

/// Returns all lines of a stream that comes in these pieces and then ends. Returns ENOMEM if a
/// growth was refused.
pub fn cut_all<A: Allocator + Copy>(alloc: A, pieces: &[&[u8]]) -> Result<Vec<Cut, A>, Refusal>
    ensures ok { IfOk result
        (λ cuts. cuts.items ≡ lines (flat_map (λ piece. piece.now) pieces.now)) }
    ensures err { IfErr result (λ refusal. refusal ≡ Refusal.Enomem) }
{
    let mut cuts = Vec::new(alloc);
    let mut cutter = Cutter::new(alloc);
    for piece in pieces {
        cutter.feed(piece)?;
        while let Some(cut) = cutter.next_line() {
            if cuts.push(cut).is_err() {
                return Err(Refusal::Enomem);
            }
        }
    }
    if let Some(cut) = cutter.finish() {
        if cuts.push(cut).is_err() {
            return Err(Refusal::Enomem);
        }
    }
    Ok(cuts)
}
