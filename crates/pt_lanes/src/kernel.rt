//! The tests over blocks of eight counts, with a plain loop for what is not a whole block.

ghost use Rattle.std.specs.Prelude.{◌≡◌, ◌↔◌, IsTrue};
ghost use Rattle.std.specs.List.{list_any};
ghost use Rattle.pt_lanes.specs.Counts.{is_set, AnyFrom, AllZero, IsHighest};

use crate::plain;
use std::simd::prelude::*;

/// Returns whether some count of the block is not zero.
fn block_has_any(block: &[u32; 8]) -> bool
    ensures { result ≡ list_any is_set block.now }
{
    let zero = u32x8::splat(0);
    u32x8::from_array(*block).simd_ne(zero).to_bitmask() != 0
}

/// Returns whether some count is not zero. Whole blocks are tested first, then the rest.
fn has_any(counts: &[u32]) -> bool
    ensures { result ≡ list_any is_set counts.now }
{
    let (blocks, rest) = counts.as_chunks::<8>();
    for block in blocks {
        if block_has_any(block) {
            return true;
        }
    }
    plain::has_any(rest)
}

/// Returns whether some count at index `p` or above is not zero.
pub fn any_from(counts: &[u32], p: usize) -> bool
    ensures { IsTrue result ↔ AnyFrom counts.now p }
{
    if p >= counts.len() {
        return false;
    }
    let (_, above) = counts.split_at(p);
    let to_boundary = (8 - p % 8).min(above.len());
    let (front, back) = above.split_at(to_boundary);
    plain::has_any(front) || has_any(back)
}

/// Returns the greatest index whose count is not zero, or None if all are zero.
pub fn highest(counts: &[u32]) -> Option<usize>
    ensures { IsHighest counts.now result }
{
    let (blocks, rest) = counts.as_chunks::<8>();
    if let Some(i) = plain::highest(rest) {
        return Some(8 * blocks.len() + i);
    }
    for block in (0..blocks.len()).rev() {
        if block_has_any(&blocks[block]) {
            if let Some(i) = plain::highest(&blocks[block]) {
                return Some(8 * block + i);
            }
        }
    }
    None
}

/// Returns whether all counts are zero.
pub fn all_zero(counts: &[u32]) -> bool
    ensures { IsTrue result ↔ AllZero counts.now }
{
    !has_any(counts)
}
