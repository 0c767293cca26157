//! The texts of names. A name that is stored already is not stored again, if its hint finds it.

ghost use Rattle.std.specs.Prelude.{◌≡◌, ◌+◌, ◌-◌, ◌≤◌, ◌*◌, ◌++◌, length, None, IfSome, true};
ghost use Rattle.std.specs.Prelude.{take, drop};
ghost use Rattle.std.specs.Prelude.{vec_len, vec_capacity};
ghost use Rattle.pt_history.specs.Compact.{text_at};
ghost use Rattle.pt_history.specs.Records.{HasText, HasTexts, LiesAt, LieAt};

use pt_hints::{Hints, are_same};
use pt_types::Name;
use std::alloc::Allocator;

// Returns an index in 32 bits, or None if it takes more.
pub(crate) fn short(index: usize) -> Option<u32>
    ensures { IfSome result (λ i. i ≡ index) }
{
    if index > 4_294_967_295 {
        return None;
    }
    Some(index as u32)
}

// Appends the bytes of a name.
fn append<A: Allocator + Copy>(texts: &mut Vec<u8, A>, name: &Name)
    requires { vec_len texts.old + length name.now ≤ vec_capacity texts.old }
    ensures items { texts.new.items ≡ texts.old.items ++ name.now }
    ensures len { vec_len texts.new ≡ vec_len texts.old + length name.now }
    ensures capacity { vec_capacity texts.old ≤ vec_capacity texts.new }
{
    texts.extend_from_slice(name.as_bytes()).unwrap();
}

// Returns whether a name lies at an index.
#[inline(always)]
pub(crate) fn lies_at(texts: &[u8], from: usize, name: &Name) -> bool
    requires { from ≤ 4294967327 }
    ensures { result ≡ true → LiesAt texts.now name.now from }
{
    let bytes = name.as_bytes();
    match texts.get(from..from + bytes.len()) {
        Some(there) => are_same(there, bytes),
        None => false,
    }
}

// Returns the key by which a name is looked up.
#[inline(always)]
fn key_for(name: &Name) -> u64 {
    name.key()
}

// Returns the index at which the name with a key is looked for, which is 0 without a hint.
#[inline(always)]
fn hint_of<A: Allocator + Copy>(hints: &Hints<A>, key: u64) -> u32 {
    hints.get(key).unwrap_or(0) as u32
}

// Returns the index at which a name begins, if its hint finds it.
#[inline(always)]
pub(crate) fn found<A: Allocator + Copy>(texts: &[u8], hints: &Hints<A>, name: &Name) -> Option<u32>
    ensures { IfSome result (λ i. LiesAt texts.now name.now i) }
{
    let hint = hint_of(hints, key_for(name));
    if !lies_at(texts, hint as usize, name) {
        return None;
    }
    Some(hint)
}

// Returns the lengths of two names and the index at which the first begins, if its hint finds it
// and the other name follows it directly.
#[inline(always)]
pub(crate) fn both_found<A: Allocator + Copy>(
    texts: &[u8],
    hints: &Hints<A>,
    one: &Name,
    other: &Name,
) -> Option<(u8, u8, u32)>
    ensures { IfSome result (λ p. LieAt texts.now one.now other.now p.0 p.1 p.2) }
{
    let from = found(texts, hints, one)?;
    let first = one.as_bytes().len();
    if !lies_at(texts, from as usize + first, other) {
        return None;
    }
    Some((first as u8, other.as_bytes().len() as u8, from))
}

// Stores a name, unless its hint finds it, and returns its length and the index at which it begins.
// Returns None if that index takes more than 32 bits; then nothing changes.
#[inline(always)]
pub(crate) fn one_text<A: Allocator + Copy>(
    texts: &mut Vec<u8, A>,
    hints: &mut Hints<A>,
    name: &Name,
) -> Option<(u8, u32)>
    requires { vec_len texts.old + 32 ≤ vec_capacity texts.old }
    ensures some { IfSome result (λ p. HasText texts.old texts.new name.now p.0 p.1) }
    ensures none { result ≡ None → texts.new ≡ texts.old }
    ensures unchanged { result ≡ None → hints.new ≡ hints.old }
{
    let key = key_for(name);
    let length = name.as_bytes().len();
    let hint = hint_of(hints, key);
    if lies_at(texts, hint as usize, name) {
        return Some((length as u8, hint));
    }
    let from = short(texts.len())?;
    append(texts, name);
    hints.set(key, from as usize);
    Some((length as u8, from))
}

// Stores two names, one after the other, unless the first name's hint finds both. Returns their
// lengths and the index at which the first begins, or None if that index takes more than 32 bits;
// then nothing changes.
#[inline(always)]
pub(crate) fn two_texts<A: Allocator + Copy>(
    texts: &mut Vec<u8, A>,
    hints: &mut Hints<A>,
    one: &Name,
    other: &Name,
) -> Option<(u8, u8, u32)>
    requires { vec_len texts.old + 64 ≤ vec_capacity texts.old }
    ensures some { IfSome result (λ p.
        HasTexts texts.old texts.new one.now other.now p.0 p.1 p.2) }
    ensures none { result ≡ None → texts.new ≡ texts.old }
    ensures unchanged { result ≡ None → hints.new ≡ hints.old }
{
    let key = key_for(one);
    let first = one.as_bytes().len();
    let second = other.as_bytes().len();
    let hint = hint_of(hints, key);
    if lies_at(texts, hint as usize, one) && lies_at(texts, hint as usize + first, other) {
        return Some((first as u8, second as u8, hint));
    }
    let from = short(texts.len())?;
    append(texts, one);
    append(texts, other);
    hints.set(key, from as usize);
    Some((first as u8, second as u8, from))
}
