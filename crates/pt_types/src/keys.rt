//! The keys by which names are looked up.

ghost use Rattle.std.specs.Prelude.{◌≡◌, ◌≤◌, ◌<◌, ◌^◌, length};
ghost use Rattle.pt_types.specs.Keys.{short_digits, four_digits, name_key};

/// The distance between the keys of two names that end alike and whose lengths differ by one. It
/// leaves room for this many names of one length that end in consecutive numbers.
const LENGTH_FACTOR: u64 = 10615;

/// Four bytes, each the digit 0.
const ZEROS: u32 = 0x3030_3030;

// Returns the sum of fewer than four bytes, each times the power of ten of a digit in its place.
#[inline(always)]
fn as_short_digits(bytes: &[u8]) -> u64
    ensures digits { length bytes.now < 4 → result ≡ short_digits bytes.now }
    ensures within { result < 2 ^ 16 }
{
    match bytes {
        [] => 0,
        [a] => *a as u64,
        [a, b] => *a as u64 * 10 + *b as u64,
        [a, b, c, ..] => *a as u64 * 100 + *b as u64 * 10 + *c as u64,
    }
}

// Returns the number that four digits spell, and some number below 2^16 for other bytes. The bytes
// are summed up in pairs, and then the two sums.
#[inline(always)]
fn as_four_digits(bytes: [u8; 4]) -> u64
    ensures digits { result ≡ four_digits bytes }
    ensures within { result < 2 ^ 16 }
{
    let digits = u32::from_le_bytes(bytes).wrapping_sub(ZEROS);
    let pairs = (digits.wrapping_mul(10 << 8 | 1) >> 8) & 0x00FF_00FF;
    (pairs.wrapping_mul(100 << 16 | 1) >> 16) as u64
}

/// Returns the key of a name. Names that end in consecutive numbers have consecutive keys, except
/// for a jump in a few such sequences.
#[inline(always)]
pub fn key_of(bytes: &[u8]) -> u64
    ensures value { result ≡ name_key bytes.now }
    ensures within { length bytes.now ≤ 32 → result < 2 ^ 32 }
{
    let end = match bytes.last_chunk::<4>() {
        Some(last) => as_four_digits(*last),
        None => as_short_digits(bytes),
    };
    end.wrapping_add(LENGTH_FACTOR.wrapping_mul(bytes.len() as u64))
}
