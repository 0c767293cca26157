//! An allocator for tests that refuses one growth, and a walk over all growths of a run.
//!
//! Contracts see that it is an allocator, so that every collection works over it, and what a walk
//! returns. Only tests show which growth is refused, since a count that threads share has no
//! contract.
#![tactic(auto)]

ghost use Rattle.std.specs.Prelude.{◌≡◌, ◌<◌, IsTrue, IfOk, IfSome};

use std::alloc::{AllocError, Allocator, Global};
use std::sync::atomic::{AtomicU64, Ordering};

// The number of growths so far, and the number of the one to refuse, counted from 1.
#[derive(Drop)]
struct Turns {
    begun: AtomicU64,
    refused: u64,
}

impl Turns {
    fn refuses_next(&self) -> bool {
        self.begun.fetch_add(1, Ordering::SeqCst).wrapping_add(1) == self.refused
    }

    fn has_refused(&self) -> bool
        ensures { IsTrue result → 0 < self.now.refused }
    {
        self.refused != 0 && self.begun.load(Ordering::SeqCst) >= self.refused
    }
}

/// An allocator that passes calls on to another one and refuses one growth.
///
/// A growth is a call that asks for a block, for a larger one or for a smaller one. Collections
/// take the allocator by reference, as in `Vec::new(&heap)`, and threads may share it.
#[derive(Drop)]
pub struct Refusing<B> {
    inner: B,
    turns: Turns,
}

impl<B> Refusing<B> {
    /// Creates an allocator that refuses the growth of this number, counted from 1, or none if it
    /// is 0.
    pub fn new(inner: B, refused: u64) -> Refusing<B>
        ensures inner { result.inner ≡ inner }
        ensures refused { result.turns.refused ≡ refused }
    {
        Refusing {
            inner,
            turns: Turns {
                begun: AtomicU64::new(0),
                refused,
            },
        }
    }

    /// Returns the allocator that calls are passed on to.
    pub fn inner(&self) -> &B
        ensures { result.now ≡ self.now.inner }
    {
        &self.inner
    }

    /// Returns whether the growth to refuse has been asked for.
    pub fn has_refused(&self) -> bool
        ensures { IsTrue result → 0 < self.now.turns.refused }
    {
        self.turns.has_refused()
    }
}

unsafe impl<B: Allocator> Allocator for Refusing<B> {
    ghost dealloc_token = { λ heap ty ptr. B.dealloc_token heap.inner ty ptr };

    fn allocate(&self, size: usize, align: usize) -> Result<*mut u8, AllocError> {
        if self.turns.refuses_next() {
            return Err(AllocError);
        }
        self.inner.allocate(size, align)
    }

    unsafe fn deallocate(&self, ptr: *mut u8, size: usize, align: usize) {
        self.inner.deallocate(ptr, size, align);
    }
}

/// Runs `run` over an allocator that refuses its first growth, then over one that refuses its
/// second, and so on, until a run ends with no growth refused.
///
/// `run` returns whether it met lack of memory. The result is the number of growths refused. It is
/// None if `most` runs were too few, or if the last run met lack of memory though none was refused.
///
/// # Errors
///
/// Returns the first error of `run`.
pub fn refuse_each<E, F: FnMut(&Refusing<Global>) -> Result<bool, E>>(
    alloc: Global,
    most: u64,
    mut run: F,
) -> Result<Option<u64>, E>
    requires { F.IsAlwaysCallable run }
    ensures { IfOk result (λ refused. IfSome refused (λ n. n < most)) }
{
    for growth in 1..=most {
        let heap = Refusing::new(alloc, growth);
        let met = run(&heap)?;
        if !heap.has_refused() {
            return Ok(if met { None } else { Some(growth - 1) });
        }
    }
    Ok(None)
}
