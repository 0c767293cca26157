//! What receipts have seen, held against the history.

ghost use Rattle.pt_model.specs.Searches.{Each};
ghost use Rattle.pt_hub.specs.Closing.{HasMet, IsHonest, IsMet};

use crate::answering_core::AnsweringCore;
use crate::pass::{Left, Receipt};
use pt_cells::Seen;
use pt_legal::LegalHistory;
use std::alloc::Allocator;
use std::sync::ledger::Ledger;

// Proves that what was seen, if anything, has the entry that the history has there, if it is of the
// cell there.
fn law_met<C: LegalHistory, A: Allocator + Copy>(inner: &AnsweringCore<C, A>, seen: &Option<Seen>)
    ensures { HasMet inner.now seen.now }
{
    if let Some(seen) = seen {
        inner.meet(seen);
    }
}

// Proves the same of what a receipt has seen.
fn law_receipt_met<C: LegalHistory, A: Allocator + Copy>(
    inner: &AnsweringCore<C, A>,
    receipt: &Receipt,
)
    ensures { IsMet inner.now receipt.now }
{
    law_met(inner, &receipt.seen);
}

// Proves the same of what all these receipts have seen.
fn law_all_met<C: LegalHistory, A: Allocator + Copy>(
    inner: &AnsweringCore<C, A>,
    receipts: &[Receipt],
)
    ensures { Each (IsMet inner.now) receipts.now }
{
    let mut i = receipts.len();
    while i > 0 {
        i -= 1;
        law_receipt_met(inner, &receipts[i]);
    }
}

// Proves that a client's entries and what it claims don't part at a place where what the client has
// seen is of the cell that the history has.
fn law_honest<C: LegalHistory, L: Ledger, A: Allocator + Copy>(
    inner: &AnsweringCore<C, A>,
    left: &Left<L, A>,
)
    ensures { IsHonest inner.now left.now }
{
    law_met(inner, left.joined());
    law_all_met(inner, left.receipts());
    law_met(inner, left.seen());
    inner.law_cells();
    left.law_own();
}

/// Proves that, at a place where what one of these clients has seen is of the cell that the history
/// has, only the answer in a receipt can differ from the history.
pub(crate) fn law_all_honest<C: LegalHistory, L: Ledger, A: Allocator + Copy>(
    inner: &AnsweringCore<C, A>,
    lefts: &[Left<L, A>],
)
    ensures { Each (IsHonest inner.now) lefts.now }
{
    let mut i = lefts.len();
    while i > 0 {
        i -= 1;
        law_honest(inner, &lefts[i]);
    }
}
