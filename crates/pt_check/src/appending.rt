//! Bytes that are appended to a report.

use crate::fault::CheckFault;
use itoa::Buffer;
use std::alloc::Allocator;

/// Appends bytes.
pub fn put<A: Allocator + Copy>(out: &mut Vec<u8, A>, bytes: &[u8]) -> Result<(), CheckFault> {
    match out.extend_from_slice(bytes) {
        Ok(()) => Ok(()),
        Err(_) => Err(CheckFault::Memory),
    }
}

/// Appends a number.
pub fn put_number<A: Allocator + Copy>(out: &mut Vec<u8, A>, n: u64) -> Result<(), CheckFault> {
    let mut digits = Buffer::new();
    put(out, digits.format(n).as_bytes())
}

/// Appends a number and a noun, which ends with `s` unless the number is 1.
pub fn put_count<A: Allocator + Copy>(
    out: &mut Vec<u8, A>,
    n: u64,
    noun: &[u8],
) -> Result<(), CheckFault> {
    put_number(out, n)?;
    put(out, b" ")?;
    put(out, noun)?;
    if n == 1 { Ok(()) } else { put(out, b"s") }
}
