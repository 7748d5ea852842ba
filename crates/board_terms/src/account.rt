//! What a member of a board knows.
ghost use Rattle.std.specs.Prelude.{◌≡◌, ◌+◌, ◌<◌, ◌≤◌, length, MatchBool};
ghost use Rattle.auction_terms.specs.declared.limits.TheConstants.{MAX_CALLS};
ghost use Rattle.board_terms.specs.BoardViews.{IsSnapshotOf, SeesStory, board_member};
ghost use Rattle.board_terms.specs.CallsAndLooks.{IsLook, ShowsAfter};
ghost use Rattle.board_terms.specs.MemberView.{placed_calls, after_call};

use crate::calls::Shown;
use crate::evidence::Front;
use crate::snapshot::Snapshot;
use auction_terms::Config;
use std::marker::Model;

/// What a member knows: its board, its number, its count of recorded calls, and what it was shown last. Contracts see
/// its board, and the member as a `MemberView`.
#[derive(Drop)]
pub struct Account {
    pub identity: u64,
    pub config: Config,
    pub members: u8,
    pub(crate) number: u8,
    pub(crate) calls: u32,
    /// The place of its last recorded call, or 0.
    pub(crate) last: u32,
    pub(crate) seen: Snapshot,
}

impl Model for Account {
    ghost use Rattle.board_terms.specs.MemberInvariant.{MemberInvariant};
    ghost use Rattle.board_terms.specs.MemberView.{member_view};
    ghost use Rattle.board_terms.specs.CallsAndLooks.{ShowsAfter};
    ghost use Rattle.board_terms.specs.BoardViews.{BoardMember, board_member, opened_board};

    ghost Value = { BoardMember };

    ghost view = { λ m.
        board_member (opened_board m.identity m.config m.members m.seen.front.book)
        (member_view m.number m.calls m.last m.seen.front.log) };

    ghost invariant = { λ m.
        MemberInvariant m.members m.number m.calls m.last m.seen.front.log
        × ShowsAfter m.config m.seen.front.log m.seen.shown };
}

impl Account {
    /// Its number on the board, from 0.
    pub fn number(&self) -> u8
        ensures number { result ≡ self.now.view.number }
        ensures one_of { result < self.now.board.members }
    {
        self.number
    }

    /// How many of its calls were recorded.
    pub fn calls(&self) -> u32
        ensures { result ≡ self.now.view.calls }
    {
        self.calls
    }

    /// How many calls it has been shown.
    pub fn seen_len(&self) -> u32
        ensures { result ≡ length self.now.view.seen }
    {
        self.seen.shown.calls
    }

    // Takes in its own call, which was recorded as the last of those that are shown, and counts it once.
    pub(crate) fn count_call(&mut self, front: Front, shown: Shown)
        requires small { self.old.view.calls < MAX_CALLS }
        requires book { front.book ≡ self.old.board.book }
        requires shows { ShowsAfter self.old.board.config front.log shown }
        requires placed_calls { length (placed_calls front.log self.old.view.number) ≡ self.old.view.calls + 1 }
        ensures { self.new ≡ board_member self.old.board (after_call self.old.view front.log) }
    {
        self.calls += 1;
        self.last = shown.calls;
        self.seen = Snapshot { front, shown };
    }

    /// Takes in what is shown, where that is no less than it has seen, and gives what it has then been shown.
    pub fn catch_up(&mut self, view: Snapshot) -> Shown
        requires { IsSnapshotOf self.old.board view.front view.shown }
        ensures board { self.new.board ≡ self.old.board }
        ensures look { IsLook self.old.board.config self.old.view self.new.view result }
        ensures at_least { length view.front.log ≤ length self.new.view.seen }
    {
        if self.seen.front.begins(&view.front) {
            self.seen = view;
        }
        self.seen.shown
    }

    /// Takes in what is shown, where that is no less than it has seen, and says whether it is.
    pub fn see(&mut self, view: Snapshot) -> bool
        requires { IsSnapshotOf self.old.board view.front view.shown }
        ensures board { self.new.board ≡ self.old.board }
        ensures seen { MatchBool result (SeesStory view.front.log self.old.view self.new.view)
            ((self.new ≡ self.old) × (length view.front.log < length self.old.view.seen)) }
    {
        let begins = self.seen.front.begins(&view.front);
        if begins {
            self.seen = view;
        }
        begins
    }

    /// A copy of what it was shown last.
    pub fn snapshot(&self) -> Snapshot
        ensures view { IsSnapshotOf self.now.board result.front result.shown }
        ensures all { result.front.log ≡ self.now.view.seen }
    {
        self.seen.again()
    }

    /// What it was shown last, again.
    pub fn again(&self) -> Shown
        ensures { IsLook self.now.board.config self.now.view self.now.view result }
    {
        self.seen.shown
    }
}
