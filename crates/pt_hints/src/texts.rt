//! Comparison of two short texts, by numbers of four and of eight bytes.

ghost use Rattle.std.specs.Prelude.{◌≡◌, ◌-◌, ◌≤◌, ◌*◌, length, true, take, drop};

// Returns whether four bytes are the same, compared as one number.
fn four_equal(one: &[u8; 4], other: &[u8; 4]) -> bool
    ensures { result ≡ true → one.now ≡ other.now }
{
    u32::from_le_bytes(*one) == u32::from_le_bytes(*other)
}

// Returns whether eight bytes are the same, compared as one number.
fn eight_equal(one: &[u8; 8], other: &[u8; 8]) -> bool
    ensures { result ≡ true → one.now ≡ other.now }
{
    u64::from_le_bytes(*one) == u64::from_le_bytes(*other)
}

// Returns whether both texts have at least four bytes, and the same first four.
fn first_four_equal(one: &[u8], other: &[u8]) -> bool
    ensures len { result ≡ true → 4 ≤ length other.now }
    ensures equal { result ≡ true → take 4 one.now ≡ take 4 other.now }
{
    match (one.first_chunk::<4>(), other.first_chunk::<4>()) {
        (Some(first), Some(second)) => four_equal(first, second),
        _ => false,
    }
}

// Returns whether both texts have at least four bytes, and the same last four.
#[inline(always)]
fn last_four_equal(one: &[u8], other: &[u8]) -> bool
    ensures { result ≡ true
        → drop (length one.now - 4) one.now ≡ drop (length other.now - 4) other.now }
{
    match (one.last_chunk::<4>(), other.last_chunk::<4>()) {
        (Some(last), Some(second)) => four_equal(last, second),
        _ => false,
    }
}

// Returns whether both texts have at least eight bytes, and the same first eight.
fn first_eight_equal(one: &[u8], other: &[u8]) -> bool
    ensures len { result ≡ true → 8 ≤ length other.now }
    ensures equal { result ≡ true → take 8 one.now ≡ take 8 other.now }
{
    match (one.first_chunk::<8>(), other.first_chunk::<8>()) {
        (Some(first), Some(second)) => eight_equal(first, second),
        _ => false,
    }
}

// Returns whether both texts have at least eight bytes, and the same last eight.
fn last_eight_equal(one: &[u8], other: &[u8]) -> bool
    ensures { result ≡ true
        → drop (length one.now - 8) one.now ≡ drop (length other.now - 8) other.now }
{
    match (one.last_chunk::<8>(), other.last_chunk::<8>()) {
        (Some(last), Some(second)) => eight_equal(last, second),
        _ => false,
    }
}

// Returns whether texts of one length, of 4 to 8 bytes, are the same. Texts of one length mostly
// differ at their ends, so these are compared first.
#[inline(always)]
fn fours_equal(one: &[u8], other: &[u8]) -> bool
    requires same { length one.now ≡ length other.now }
    requires all { length other.now ≤ 8 }
    ensures { result ≡ true → one.now ≡ other.now }
{
    last_four_equal(one, other) && first_four_equal(one, other)
}

// Returns whether texts of one length, of 8 to 16 bytes, are the same.
fn eights_equal(one: &[u8], other: &[u8]) -> bool
    requires same { length one.now ≡ length other.now }
    requires all { length other.now ≤ 16 }
    ensures { result ≡ true → one.now ≡ other.now }
{
    last_eight_equal(one, other) && first_eight_equal(one, other)
}

// Returns whether texts of one length, of 16 to 32 bytes, are the same.
fn halves_equal(one: &[u8], other: &[u8]) -> bool
    requires same { length one.now ≡ length other.now }
    requires enough { 16 ≤ length other.now }
    requires within { length other.now ≤ 32 }
    ensures { result ≡ true → one.now ≡ other.now }
{
    let from = other.len() - 16;
    eights_equal(&one[from..], &other[from..]) && eights_equal(&one[..16], &other[..16])
}

// Returns whether texts of one length, of 9 to 32 bytes, are the same. It is not inlined, since its
// code would make a caller too large to be inlined itself.
#[inline(never)]
fn are_long_equal(one: &[u8], other: &[u8]) -> bool
    requires same { length one.now ≡ length other.now }
    requires within { length other.now ≤ 32 }
    ensures { result ≡ true → one.now ≡ other.now }
{
    match other.len() {
        0..=16 => eights_equal(one, other),
        _ => halves_equal(one, other),
    }
}

// Returns whether texts of fewer than four bytes are the same.
#[inline(always)]
fn short_equal(one: &[u8], other: &[u8]) -> bool
    ensures { result ≡ true → one.now ≡ other.now }
{
    match (one, other) {
        ([], []) => true,
        ([a], [b]) => a == b,
        ([a, b], [c, d]) => a == c && b == d,
        ([a, b, c], [d, e, f]) => a == d && b == e && c == f,
        _ => false,
    }
}

// Returns whether texts of one length, of at most 32 bytes, are the same.
#[inline(always)]
fn are_equal(one: &[u8], other: &[u8]) -> bool
    requires same { length one.now ≡ length other.now }
    requires within { length other.now ≤ 32 }
    ensures { result ≡ true → one.now ≡ other.now }
{
    match other.len() {
        0..=3 => short_equal(one, other),
        4..=8 => fours_equal(one, other),
        _ => are_long_equal(one, other),
    }
}

/// Returns whether two texts are the same. The second has at most 32 bytes.
#[inline(always)]
pub fn are_same(one: &[u8], other: &[u8]) -> bool
    requires { length other.now ≤ 32 }
    ensures { result ≡ true → one.now ≡ other.now }
{
    one.len() == other.len() && are_equal(one, other)
}
