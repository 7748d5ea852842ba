//! The list of all calls of a day, which only grows, as evidence that can be copied. It exists in the proofs alone. At
//! run time there is its length.
//!
//! A board adds to it under its lock; members and copies have beginnings of it. Of two beginnings the shorter one
//! begins the longer, so what a member has seen can be compared with what another was shown.
ghost use Rattle.std.specs.Prelude.{◌≡◌, ◌+◌, ◌<◌, ◌^◌, ◌++◌, ◌∷◌, [], length, MatchBool};
ghost use mathlib.Core.List.{IsPrefix};
ghost use Rattle.board_terms.specs.Stories.{newest_name};
ghost use Rattle.board_terms.specs.BoardViews.{beginning};

use auction_terms::Call;
use logbook::{Gain, Offer, Plain, Play, Rule, Seen, Start, Word};
use std::marker::Model;

/// The rule of the list: one word has its length.
pub(crate) struct Law;

impl Rule<Call, u64> for Law {
    ghost use Rattle.std.specs.Prelude.{[]};
    ghost use base.Fml.{ftrue};
    ghost use Rattle.board_terms.specs.Stories.{IsStory};

    ghost holds = { λ cells log. IsStory cells log };

    ghost first = { [] };

    ghost hinted = { λ n log. Unit {0} };

    ghost shows = { λ log. [] };

    ghost keeps = { λ names log. ftrue };

    ghost moves = { λ ask before after answer. Unit {0} };
}

/// A board gains nothing by a step but what it has seen.
pub(crate) struct Nothing;

impl Gain<Call, u64> for Nothing {
    ghost use base.Fml.{ftrue};

    ghost after = { λ names about answer. ftrue };
}

/// A step that adds a call.
pub(crate) struct Add;

impl Play<Call, u64> for Add {
    ghost use Rattle.board_terms.specs.Stories.{AddsCall};

    ghost then = { AddsCall };
}

impl Plain<Call, Call, u64> for Add {
    ghost use Rattle.std.specs.Prelude.{None};

    ghost ask = { λ call. call };

    ghost state = { λ call. None };
}

/// The length of the list, in one word.
#[derive(Drop)]
pub(crate) struct Head {
    pub(crate) word: Word<Call, u64, Law>,
    ghost head_is: { word ≡ newest_name word.book },
}

/// A beginning of the list that was seen. Contracts see its book and the list of its calls.
#[derive(Drop)]
pub struct Front {
    count: u64,
    seen: Seen<Call, u64, Law>,
}

impl Model for Front {
    ghost use Rattle.std.specs.Prelude.{◌≡◌, length};
    ghost use Rattle.board_terms.specs.BoardViews.{Beginning, beginning};

    ghost Value = { Beginning };

    ghost view = { λ f. beginning f.seen.book f.seen.log };

    ghost invariant = { λ f. f.count ≡ length f.seen.log };
}

/// A new list: its word, and the beginning that has nothing.
pub(crate) fn new_evidence() -> (Head, Front)
    ensures { (result.1.log ≡ []) × (result.0.word.book ≡ result.1.book) }
{
    let (seen, mut first, _second) = Seen::open(Start::alone(), 0, 0);
    let word = Word::tracked(0, &mut first);
    (Head { word }, Front { count: 0, seen })
}

impl Front {
    /// A copy.
    pub(crate) fn again(&self) -> Front
        ensures { result ≡ self.now }
    {
        Front {
            count: self.count,
            seen: self.seen.again(),
        }
    }

    /// Whether it is no longer than the other, which it then begins.
    pub(crate) fn begins(&self, other: &Front) -> bool
        requires { other.now.book ≡ self.now.book }
        ensures { MatchBool result (IsPrefix self.now.log other.now.log) (length other.now.log < length self.now.log) }
    {
        let mut both = self.seen.again();
        both.learn(&other.seen);
        self.count <= other.count
    }

    /// Adds a call to all that was seen, and says whether it did. It did not where the list was longer.
    pub(crate) fn add(&mut self, head: &Head, call: Call) -> bool
        requires book { head.now.word.book ≡ self.old.book }
        requires room { length self.old.log < 2 ^ 62 }
        ensures book { self.new.book ≡ self.old.book }
        ensures log { MatchBool result (self.new.log ≡ self.old.log ++ call ∷ []) (IsPrefix self.old.log self.new.log) }
    {
        let mut offer: Offer<Call, u64, Law, Nothing> = self
            .seen
            .plain::<Nothing, Call, Add>(&call);
        let mut pen = self.seen.no_pen();
        let count = self.count;
        let found = head
            .word
            .compare_exchange::<Add, Nothing>(
                count,
                count + 1,
                &mut self.seen,
                &mut offer,
                &mut pen,
            );
        self.count = if found == count { count + 1 } else { found };
        found == count
    }
}
