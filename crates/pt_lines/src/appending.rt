//! Bytes and numbers that are appended to a buffer with room for them.

ghost use Rattle.std.specs.Prelude.{◌≡◌, ◌≤◌, ◌<◌, ◌+◌, ◌++◌, length, vec_len, vec_capacity};
ghost use Rattle.std.specs.Prelude.{decimal, ◌/◌, ◌%◌, ◌∷◌, [], take};

use std::alloc::Allocator;
use std::mem;

// The two digits of each number below 100.
const PAIRS: [u8; 200] = *b"\
    0001020304050607080910111213141516171819\
    2021222324252627282930313233343536373839\
    4041424344454647484950515253545556575859\
    6061626364656667686970717273747576777879\
    8081828384858687888990919293949596979899";

/// Appends a block. The buffer has room for it.
#[inline(always)]
pub fn append_block<A: Allocator + Copy, const N: usize>(out: &mut Vec<u8, A>, block: [u8; N])
    requires { vec_len out.old + N ≤ vec_capacity out.old }
    ensures items { out.new.items ≡ out.old.items ++ block.entry }
    ensures len { vec_len out.new ≡ vec_len out.old + N }
    ensures capacity { vec_capacity out.new ≡ vec_capacity out.old }
{
    for place in 0..N {
        out.push_reserved(block[place]);
    }
}

/// Appends the first `len` bytes of a block. The buffer has room for the whole block: all of it is
/// copied at once, and the excess is dropped.
#[inline(always)]
pub fn append_filled<A: Allocator + Copy, const N: usize>(
    out: &mut Vec<u8, A>,
    block: [u8; N],
    len: usize,
)
    requires room { vec_len out.old + N ≤ vec_capacity out.old }
    requires within { len ≤ N }
    ensures items { out.new.items ≡ out.old.items ++ take len block.entry }
    ensures len { vec_len out.new ≡ vec_len out.old + len }
    ensures capacity { vec_capacity out.new ≡ vec_capacity out.old }
{
    let end = out.len() + len;
    append_block(out, block);
    out.truncate(end);
}

// Appends two digits. The buffer has room for them.
#[inline(always)]
fn append_pair<A: Allocator + Copy>(out: &mut Vec<u8, A>, n: u64)
    requires within { n < 100 }
    requires room { vec_len out.old + 2 ≤ vec_capacity out.old }
    ensures items { out.new.items ≡ out.old.items ++ (48 + n / 10) ∷ (48 + n % 10) ∷ [] }
    ensures len { vec_len out.new ≡ vec_len out.old + 2 }
    ensures capacity { vec_capacity out.new ≡ vec_capacity out.old }
{
    let place = 2 * n as usize;
    out.push_reserved(PAIRS[place]);
    out.push_reserved(PAIRS[place + 1]);
}

// Appends a number of one or two digits. The buffer has room for it.
#[inline(always)]
fn append_below_100<A: Allocator + Copy>(out: &mut Vec<u8, A>, n: u64)
    requires within { n < 100 }
    requires room { vec_len out.old + length (decimal n) ≤ vec_capacity out.old }
    ensures items { out.new.items ≡ out.old.items ++ decimal n }
    ensures len { vec_len out.new ≡ vec_len out.old + length (decimal n) }
    ensures capacity { vec_capacity out.new ≡ vec_capacity out.old }
{
    if n < 10 {
        out.push_reserved(b'0' + n as u8);
    } else {
        append_pair(out, n);
    }
}

// Appends a number of at most four digits. The buffer has room for it.
#[inline(always)]
fn append_below_10000<A: Allocator + Copy>(out: &mut Vec<u8, A>, n: u64)
    requires within { n < 10000 }
    requires room { vec_len out.old + length (decimal n) ≤ vec_capacity out.old }
    ensures items { out.new.items ≡ out.old.items ++ decimal n }
    ensures len { vec_len out.new ≡ vec_len out.old + length (decimal n) }
    ensures capacity { vec_capacity out.new ≡ vec_capacity out.old }
{
    if n < 100 {
        append_below_100(out, n);
    } else {
        let front = n / 100;
        append_below_100(out, front);
        append_pair(out, n - 100 * front);
    }
}

// Appends a number of five or six digits. The buffer has room for it.
#[inline(always)]
fn append_below_1000000<A: Allocator + Copy>(out: &mut Vec<u8, A>, n: u64)
    requires above { 10000 ≤ n }
    requires within { n < 1000000 }
    requires room { vec_len out.old + length (decimal n) ≤ vec_capacity out.old }
    ensures items { out.new.items ≡ out.old.items ++ decimal n }
    ensures len { vec_len out.new ≡ vec_len out.old + length (decimal n) }
    ensures capacity { vec_capacity out.new ≡ vec_capacity out.old }
{
    let front = n / 10_000;
    let hundreds = n / 100;
    append_below_100(out, front);
    append_pair(out, hundreds - 100 * front);
    append_pair(out, n - 100 * hundreds);
}

/// Appends a number of at most six digits. The buffer has room for it.
#[inline(always)]
pub fn append_number<A: Allocator + Copy>(out: &mut Vec<u8, A>, n: u64)
    requires within { n < 1000000 }
    requires room { vec_len out.old + length (decimal n) ≤ vec_capacity out.old }
    ensures items { out.new.items ≡ out.old.items ++ decimal n }
    ensures len { vec_len out.new ≡ vec_len out.old + length (decimal n) }
    ensures capacity { vec_capacity out.new ≡ vec_capacity out.old }
{
    if n < 10_000 {
        append_below_10000(out, n);
    } else {
        append_below_1000000(out, n);
    }
}

/// Takes the bytes and leaves none. Appending to bytes in a variable of their own takes fewer
/// steps, since no store of a byte can change where they are.
#[inline(always)]
pub fn taken<A: Allocator + Copy>(out: &mut Vec<u8, A>) -> Vec<u8, A>
    ensures { result ≡ out.old }
{
    let alloc = *out.allocator();
    mem::replace(out, Vec::new(alloc))
}

/// Puts bytes back into a buffer that has none and owns no allocation.
#[inline(always)]
pub fn put_back<A: Allocator + Copy>(out: &mut Vec<u8, A>, text: Vec<u8, A>)
    ensures { out.new ≡ text }
{
    mem::forget(mem::replace(out, text));
}
