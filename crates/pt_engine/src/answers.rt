//! The answers that the entries of a core gave, from a given place on.

ghost use Rattle.std.specs.Prelude.{◌≡◌, ◌∷◌, [], MatchOption};
ghost use Rattle.pt_model.specs.Queries.{answers_since};
ghost use Rattle.pt_legal.specs.Cores.{core_state};
ghost use Rattle.pt_legal.specs.Replies.{reply_view};

use pt_legal::{LegalHistory, Reply};
use std::marker::Model;

/// The remaining answers that entries gave, one after another.
#[derive(Drop)]
pub struct Answers<'a, C: LegalHistory> {
    core: &'a C,
    index: usize,
}

impl<'a, C: LegalHistory> Model for Answers<'a, C> {
    ghost use Rattle.std.specs.Prelude.{List, drop};
    ghost use Rattle.pt_model.specs.Records.{ReplyView};
    ghost use Rattle.pt_model.specs.Answers.{replies_since};
    ghost use Rattle.pt_legal.specs.Cores.{core_state};

    ghost Value = { List ReplyView };

    ghost view = { λ a. drop a.index
        (replies_since (core_state (C.seen a.core.now)).start (C.seen a.core.now).entries) };
}

impl<'a, C: LegalHistory> Answers<'a, C> {
    /// Returns the answers that the entries from a place on gave. They are read where they are
    /// stored.
    #[inline(always)]
    pub fn since(core: &'a C, place: u64) -> Answers<'a, C>
        ensures { result ≡ answers_since
            (core_state (C.seen core.now)).start place (C.seen core.now).entries }
    {
        Answers {
            core,
            index: core.answers_before(place),
        }
    }

    /// Returns the next answer, if one is left.
    #[inline(always)]
    pub fn next(&mut self) -> Option<Reply>
        ensures { MatchOption result ((self.old ≡ []) × (self.new ≡ []))
            (λ r. self.old ≡ reply_view r ∷ self.new) }
    {
        let reply = self.core.answer(self.index)?;
        self.index += 1;
        Some(reply)
    }
}
