//! The log of answers, which are stored in short.

use crate::answers::Answered;
use crate::short::{Short, answer_of, base_with, near_answer, shortened};
use pt_history::take_memory;
use std::alloc::{AllocError, Allocator, Global};
use std::marker::Model;

// The number of additional answers for which a growth allocates memory, so that growths are rare.
const BATCH: usize = 64;

/// All answers since the Start, in order.
///
/// Contracts see the answers, and how many the log can hold before it needs more memory.
#[derive(Drop)]
pub struct AnswerLog<A: Allocator + Copy = Global> {
    pub(crate) base: u64,
    pub(crate) shorts: Vec<Short, A>,
    pub(crate) wholes: Vec<Answered, A>,
    /// The number of further answers for which there is memory, whatever they are.
    pub(crate) room: usize,
}

impl<A: Allocator + Copy> Model for AnswerLog<A> {
    ghost use Rattle.std.specs.Prelude.{◌+◌, vec_len};
    ghost use Rattle.pt_records.specs.AnswerLogs.{AreReadable, HasLogRoom, StoredLog};
    ghost use Rattle.pt_records.specs.AnswerLogs.{answers_of_shorts};

    ghost Value = { StoredLog };

    ghost view = { λ l. record {
      items = answers_of_shorts l.base l.wholes.items l.shorts.items;
      capacity = vec_len l.shorts + l.room;
    } };

    ghost invariant = { λ l. AreReadable l.base l.wholes.items l.shorts.items
        × HasLogRoom l.shorts l.wholes l.room };
}

/// The remaining answers of a log, which are returned one after another.
#[derive(Drop)]
pub struct LoggedAnswers<'a> {
    base: u64,
    shorts: &'a [Short],
    wholes: &'a [Answered],
}

impl<'a> Model for LoggedAnswers<'a> {
    ghost use Rattle.std.specs.Prelude.{List};
    ghost use Rattle.pt_records.specs.declared.answers.Answered.{Answered};
    ghost use Rattle.pt_records.specs.AnswerLogs.{AreReadable, answers_of_shorts};

    ghost Value = { List Answered };

    ghost view = { λ l. answers_of_shorts l.base l.wholes.now l.shorts.now };

    ghost invariant = { λ l. AreReadable l.base l.wholes.now l.shorts.now };
}

impl<'a> LoggedAnswers<'a> {
    ghost use Rattle.std.specs.Prelude.{◌≡◌, ◌∷◌, [], MatchOption, slice_get};

    /// Removes and returns the next answer, if one is left.
    #[inline(always)]
    pub fn next(&mut self) -> Option<Answered>
        ensures { MatchOption result ((self.old ≡ []) × (self.new ≡ []))
            (λ a. self.old ≡ a ∷ self.new) }
    {
        let (first, rest) = self.shorts.split_first()?;
        self.shorts = rest;
        Some(answer_of(self.base, self.wholes, *first))
    }

    /// Returns the answer at an index among those that are left.
    pub fn get(&self, index: usize) -> Option<Answered>
        ensures { result ≡ slice_get self.now index }
    {
        let short = self.shorts.get(index)?;
        Some(answer_of(self.base, self.wholes, *short))
    }
}

impl<A: Allocator + Copy> AnswerLog<A> {
    ghost use Rattle.std.specs.Prelude.{◌≡◌, ◌+◌, ◌-◌, ◌<◌, ◌≤◌, ◌∷◌, [], ◌++◌, length, drop};
    ghost use Rattle.std.specs.Prelude.{slice_index_or, IfOk, IsOk, OnOk};
    ghost use Rattle.pt_records.specs.AnswerLogs.{no_answer};

    /// Creates an empty log, which allocates nothing.
    pub fn new(alloc: A) -> AnswerLog<A>
        ensures { result.items ≡ [] }
    {
        AnswerLog {
            base: 0,
            shorts: Vec::new(alloc),
            wholes: Vec::new(alloc),
            room: 0,
        }
    }

    /// Creates an empty log with room for `room` answers.
    pub fn with_room(alloc: A, room: usize) -> Result<AnswerLog<A>, AllocError>
        ensures items { IfOk result (λ log. log.items ≡ []) }
        ensures room { IfOk result (λ log. room ≤ log.capacity) }
    {
        Ok(AnswerLog {
            base: 0,
            shorts: Vec::with_capacity(alloc, room)?,
            wholes: Vec::with_capacity(alloc, room)?,
            room,
        })
    }

    // Allocates memory for `many` more answers.
    #[cold]
    #[inline(never)]
    fn grow(&mut self, many: usize) -> Result<(), AllocError>
        requires { self.old.capacity ≤ length self.old.items + many }
        ensures items { self.new.items ≡ self.old.items }
        ensures capacity { self.old.capacity ≤ self.new.capacity }
        ensures ok { OnOk result (length self.new.items + many ≤ self.new.capacity) }
    {
        self.shorts.reserve(many)?;
        self.wholes.reserve(many)?;
        self.room = many;
        Ok(())
    }

    /// Makes room for `many` more answers. This never fails if there is enough room already.
    pub fn reserve(&mut self, many: usize) -> Result<(), AllocError>
        ensures items { self.new.items ≡ self.old.items }
        ensures capacity { self.old.capacity ≤ self.new.capacity }
        ensures ok { OnOk result (length self.new.items + many ≤ self.new.capacity) }
        ensures succeeds_if { length self.old.items + many ≤ self.old.capacity → IsOk result }
    {
        if many <= self.room {
            return Ok(());
        }
        self.grow(many.saturating_add(BATCH))
    }

    // Appends an answer whose numbers do not fit in short. An empty log takes another base for it.
    // This is rare, so it is not inlined.
    #[cold]
    #[inline(never)]
    fn push_far(&mut self, answer: Answered)
        requires { length self.old.items < self.old.capacity }
        ensures items { self.new.items ≡ self.old.items ++ answer ∷ [] }
        ensures capacity { self.new.capacity ≡ self.old.capacity }
    {
        self.base = base_with(self.base, self.shorts.as_slice(), answer.at);
        let short = shortened(self.base, &mut self.wholes, &answer);
        self.shorts.push_reserved(short);
        self.room -= 1;
    }

    /// Appends an answer, in room that was made for it.
    #[inline(always)]
    pub fn push(&mut self, answer: Answered)
        requires { length self.old.items < self.old.capacity }
        ensures items { self.new.items ≡ self.old.items ++ answer ∷ [] }
        ensures capacity { self.new.capacity ≡ self.old.capacity }
    {
        let Some(short) = near_answer(self.base, &answer) else {
            return self.push_far(answer);
        };
        self.shorts.push_reserved(short);
        self.room -= 1;
    }

    /// Removes all answers. The room for more stays, and so does the memory.
    pub fn clear(&mut self)
        ensures items { self.new.items ≡ [] }
        ensures room { self.old.capacity ≤ self.new.capacity + length self.old.items }
    {
        self.shorts.clear();
        self.wholes.clear();
    }

    /// Moves the answers into the memory of a log that is no longer needed, if that log has as
    /// much.
    pub fn take_memory(&mut self, other: AnswerLog<A>)
        ensures items { self.new.items ≡ self.old.items }
        ensures capacity { self.old.capacity ≤ self.new.capacity }
    {
        take_memory(&mut self.shorts, other.shorts);
        take_memory(&mut self.wholes, other.wholes);
    }

    /// Returns the number of further answers for which there is memory.
    pub fn spare(&self) -> usize
        ensures { length self.now.items + result ≡ self.now.capacity }
    {
        self.room
    }

    /// Returns the number of answers.
    pub fn len(&self) -> usize
        ensures { result ≡ length self.now.items }
    {
        self.shorts.len()
    }

    /// Returns the place of the entry that gave the answer at an index.
    pub fn given_at(&self, i: usize) -> u64
        requires { i < length self.now.items }
        ensures { result ≡ (slice_index_or self.now.items i no_answer).at }
    {
        answer_of(self.base, self.wholes.as_slice(), self.shorts[i]).at
    }

    /// Returns the answers from an index on.
    pub fn from(&self, i: usize) -> LoggedAnswers<'_>
        requires { i ≤ length self.now.items }
        ensures { result ≡ drop i self.now.items }
    {
        LoggedAnswers {
            base: self.base,
            shorts: &self.shorts[i..],
            wholes: self.wholes.as_slice(),
        }
    }
}
