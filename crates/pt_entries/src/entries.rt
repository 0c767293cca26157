ghost use Rattle.std.specs.Prelude.{◌≡◌, ◌++◌, ◌∷◌, [], codes, decimal, OnOk, OnErr, IfOk};
ghost use Rattle.std.specs.Prelude.{IfErr};
ghost use Rattle.pt_types.specs.Limits.{nanoseconds_per_second};
ghost use Rattle.pt_entries.specs.EntryTexts.{aligned, applied, clock_word};
ghost use Rattle.pt_entries.specs.EntryTexts.{entry_text, placed_entry, reply_word};

use crate::appending::{put, put_number};
use crate::calls::write_call;
use itoa::Buffer;
use pt_model::Entry;
use pt_types::{Call, ClientId, Clock, Moment, Outcome, Refusal};
use std::alloc::Allocator;

fn clock_word(clock: Clock) -> &'static [u8]
    ensures { result.now ≡ clock_word clock }
{
    match clock {
        Clock::Real => b"Real",
        Clock::Mono => b"Mono",
    }
}

fn reply_word(reply: Option<Outcome>) -> &'static [u8]
    ensures { result.now ≡ reply_word reply }
{
    match reply {
        Some(outcome) => outcome.word().as_bytes(),
        None => b"none",
    }
}

// Appends an entry of one number: its name, which ends with a parenthesis, and the number.
fn put_single<A: Allocator + Copy>(out: &mut Vec<u8, A>, name: &[u8], n: u64) -> Result<(), Refusal>
    ensures ok { OnOk result (out.new.items ≡ out.old.items ++ name.now ++ decimal n ++ codes ")") }
    ensures err { IfErr result (λ refusal. refusal ≡ Refusal.Enomem) }
{
    put(out, name)?;
    put_number(out, n)?;
    put(out, b")")
}

// Appends an entry of a number and a word: its name, which ends with a parenthesis, and these.
fn put_pair<A: Allocator + Copy>(
    out: &mut Vec<u8, A>,
    name: &[u8],
    n: u64,
    word: &[u8],
) -> Result<(), Refusal>
    ensures ok { OnOk result (out.new.items
        ≡ out.old.items ++ name.now ++ decimal n ++ codes ", " ++ word.now ++ codes ")") }
    ensures err { IfErr result (λ refusal. refusal ≡ Refusal.Enomem) }
{
    put(out, name)?;
    put_number(out, n)?;
    put(out, b", ")?;
    put(out, word)?;
    put(out, b")")
}

fn put_join<A: Allocator + Copy>(out: &mut Vec<u8, A>, c: u64, p: u64) -> Result<(), Refusal>
    ensures ok { OnOk result (out.new.items
        ≡ out.old.items ++ applied (codes "Join") (decimal c) (decimal p ∷ [])) }
    ensures err { IfErr result (λ refusal. refusal ≡ Refusal.Enomem) }
{
    put(out, b"Join(")?;
    put_number(out, c)?;
    put(out, b", ")?;
    put_number(out, p)?;
    put(out, b")")
}

fn put_moment<A: Allocator + Copy>(
    out: &mut Vec<u8, A>,
    clock: Clock,
    moment: Moment,
) -> Result<(), Refusal>
    ensures ok { OnOk result (out.new.items
        ≡ out.old.items ++ entry_text (Entry.Moment clock moment)) }
    ensures err { IfErr result (λ refusal. refusal ≡ Refusal.Enomem) }
{
    put(out, b"Moment(")?;
    put(out, clock_word(clock))?;
    put(out, b", ")?;
    put_number(out, moment.nanos() / 1_000_000_000)?;
    put(out, b", ")?;
    put_number(out, moment.nanos() % 1_000_000_000)?;
    put(out, b")")
}

fn put_call<A: Allocator + Copy>(
    out: &mut Vec<u8, A>,
    c: ClientId,
    call: &Call,
    reply: Option<Outcome>,
) -> Result<(), Refusal>
    ensures ok { OnOk result (out.new.items
        ≡ out.old.items ++ entry_text (Entry.Call c call.now reply)) }
    ensures err { IfErr result (λ refusal. refusal ≡ Refusal.Enomem) }
{
    put(out, b"Call(")?;
    put_number(out, c.0)?;
    put(out, b", ")?;
    write_call(out, call)?;
    put(out, b", ")?;
    put(out, reply_word(reply))?;
    put(out, b")")
}

// Appends the text of an entry, or a front of it if a growth was refused.
fn put_entry<A: Allocator + Copy>(out: &mut Vec<u8, A>, entry: &Entry) -> Result<(), Refusal>
    ensures ok { OnOk result (out.new.items ≡ out.old.items ++ entry_text entry.now) }
    ensures err { IfErr result (λ refusal. refusal ≡ Refusal.Enomem) }
{
    match entry {
        Entry::Join(c, p) => put_join(out, c.0, p.level() as u64),
        Entry::Call(c, call, reply) => put_call(out, *c, call, *reply),
        Entry::Death(c) => put_single(out, b"Death(", c.0),
        Entry::Moment(clock, moment) => put_moment(out, *clock, *moment),
        Entry::Grant(j, x) => put_pair(out, b"Grant(", *j, x.word().as_bytes()),
        Entry::Trip(b) => put_single(out, b"Trip(", b.0),
        Entry::Yield(m) => put_single(out, b"Yield(", m.0),
        Entry::Expire(j) => put_single(out, b"Expire(", *j),
    }
}

// Appends a place, aligned with those of other entries.
fn put_place<A: Allocator + Copy>(out: &mut Vec<u8, A>, place: u64) -> Result<(), Refusal>
    ensures ok { OnOk result (out.new.items ≡ out.old.items ++ aligned place) }
    ensures err { IfErr result (λ refusal. refusal ≡ Refusal.Enomem) }
{
    let mut digits = Buffer::new();
    let text = digits.format(place).as_bytes();
    let margin = b"    ";
    put(out, &margin[text.len().min(4)..])?;
    put(out, text)
}

// The number of bytes for which the buffer of an entry has memory at once.
const ENTRY: usize = 128;

// Creates a buffer for an entry.
fn entry_buffer<A: Allocator + Copy>(alloc: A) -> Result<Vec<u8, A>, Refusal>
    ensures ok { IfOk result (λ text. text.items ≡ []) }
    ensures err { IfErr result (λ refusal. refusal ≡ Refusal.Enomem) }
{
    match Vec::with_capacity(alloc, ENTRY) {
        Ok(text) => Ok(text),
        Err(_) => Err(Refusal::Enomem),
    }
}

/// Appends the text of an entry. Returns ENOMEM if a growth was refused. Nothing is appended then.
/// [profile]
pub fn write_entry<A: Allocator + Copy>(out: &mut Vec<u8, A>, entry: &Entry) -> Result<(), Refusal>
    ensures ok { OnOk result (out.new.items ≡ out.old.items ++ entry_text entry.now) }
    ensures unchanged { OnErr result (out.new.items ≡ out.old.items) }
    ensures err { IfErr result (λ refusal. refusal ≡ Refusal.Enomem) }
{
    let mut text = entry_buffer(*out.allocator())?;
    put_entry(&mut text, entry)?;
    put(out, &text)
}

/// Appends an entry with its place. Returns ENOMEM if a growth was refused. Nothing is appended
/// then.  [profile]
pub fn write_placed_entry<A: Allocator + Copy>(
    out: &mut Vec<u8, A>,
    place: u64,
    entry: &Entry,
) -> Result<(), Refusal>
    ensures ok { OnOk result (out.new.items ≡ out.old.items ++ placed_entry place entry.now) }
    ensures unchanged { OnErr result (out.new.items ≡ out.old.items) }
    ensures err { IfErr result (λ refusal. refusal ≡ Refusal.Enomem) }
{
    let mut text = entry_buffer(*out.allocator())?;
    put(&mut text, b" ")?;
    put_place(&mut text, place)?;
    put(&mut text, b"  ")?;
    put_entry(&mut text, entry)?;
    put(out, &text)
}
