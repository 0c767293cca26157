//! What stored entries refer to: the texts of names, the deadlines, the readings of clocks, and the
//! few entries whose numbers do not fit in 32 bits.

ghost use Rattle.std.specs.Prelude.{ℕ, IfOk, IsOk, ◌≡◌, ◌≤◌, OnOk, vec_len};
ghost use Rattle.pt_history.specs.Records.{no_parts, parts_of, HasPartsRoom, KeepsParts};

use crate::compact::TimeLimit;
use crate::memory::take_memory;
use pt_hints::Hints;
use pt_model::Entry;
use pt_types::Moment;
use std::alloc::{AllocError, Allocator};

/// The greatest size in bytes of the texts of names that stay when the entries are dropped.
const MAX_TEXTS: usize = 262_144;

/// The parts that stored entries refer to by index.
pub(crate) struct Records<A: Allocator + Copy> {
    pub(crate) texts: Vec<u8, A>,
    pub(crate) hints: Hints<A>,
    pub(crate) limits: Vec<TimeLimit, A>,
    pub(crate) moments: Vec<Moment, A>,
    pub(crate) wholes: Vec<Entry, A>,
}

// Not derived, so that code that drops records need not prove anything about their parts.
impl<A: Allocator + Copy> Drop for Records<A> {
    fn drop(self) {
        let Records {
            texts: _,
            hints: _,
            limits: _,
            moments: _,
            wholes: _,
        } = self;
    }
}

impl<A: Allocator + Copy> Records<A> {
    /// Creates empty records, which allocates nothing.
    pub(crate) fn new(alloc: A) -> Records<A>
        ensures parts { parts_of result ≡ no_parts }
        ensures room { HasPartsRoom result 0 }
        ensures within { vec_len result.wholes ≡ 0 }
    {
        Records {
            texts: Vec::new(alloc),
            hints: Hints::new(alloc),
            limits: Vec::new(alloc),
            moments: Vec::new(alloc),
            wholes: Vec::new(alloc),
        }
    }

    /// Creates records with copies of the texts of others and their hints, if those texts are not
    /// too many, else empty records. A name with a text there need not be stored again.
    pub(crate) fn with_texts_of(other: &Records<A>, alloc: A) -> Result<Records<A>, AllocError>
        ensures room { IfOk result (λ r. HasPartsRoom r 0) }
        ensures within { IfOk result (λ r. vec_len r.wholes ≡ 0) }
    {
        let mut records = Records::new(alloc);
        if other.texts.len() <= MAX_TEXTS {
            records.texts.extend_from_slice(&other.texts)?;
            records.hints = other.hints.copied(alloc)?;
        }
        Ok(records)
    }

    /// Makes room for what `room` more entries refer to, whatever they are.
    pub(crate) fn reserve(&mut self, room: u64) -> Result<(), AllocError>
        requires { room ≤ 4294967295 }
        ensures ok { OnOk result (HasPartsRoom self.new room) }
        ensures succeeds_if { HasPartsRoom self.old room → IsOk result }
        ensures parts { KeepsParts self.old self.new }
    {
        let many = room as usize;
        if self.texts.capacity() - self.texts.len() < 64 * many {
            self.hints.grow_to_max()?;
        }
        self.texts.reserve(64 * many)?;
        self.limits.reserve(many)?;
        self.moments.reserve(many)?;
        self.wholes.reserve(many)
    }

    /// Removes all that no entry refers to any more, except the texts of names if they are not too
    /// many: a name with a text there need not be stored again. The memory stays.
    pub(crate) fn clear(&mut self)
        ensures room { (n : ℕ) → HasPartsRoom self.old n → HasPartsRoom self.new n }
        ensures within { vec_len self.new.wholes ≡ 0 }
    {
        if self.texts.len() > MAX_TEXTS {
            self.texts.clear();
        }
        self.limits.clear();
        self.moments.clear();
        self.wholes.clear();
    }

    /// Moves the records into the memory of others that are no longer needed, each part only if
    /// that part of the others has as much.
    pub(crate) fn take_memory(&mut self, other: Records<A>)
        ensures { KeepsParts self.old self.new }
    {
        let Records {
            texts,
            hints: _,
            limits,
            moments,
            wholes,
        } = other;
        take_memory(&mut self.texts, texts);
        take_memory(&mut self.limits, limits);
        take_memory(&mut self.moments, moments);
        take_memory(&mut self.wholes, wholes);
    }
}
