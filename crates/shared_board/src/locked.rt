//! What goes through the lock and the copies.
ghost use Rattle.std.specs.Prelude.{◌≡◌, length};
ghost use Rattle.auction_terms.specs.Auxiliary.RunningAuction.{auction_after};
ghost use Rattle.auction_terms.specs.Day.{IsLegal, calls_of};
ghost use Rattle.board_terms.specs.BoardViews.{IsClosingOf, ladder_after, tape_after};

use auction::Auction;
use auction_terms::{Entry, Trade};
use board_terms::{BoardCore, Closing, Day, Snapshot};
use counted_slot::Fits;
use std::marker::Model;
use tick_ladder::Ladder;

/// A board that was locked, taken out of its lock. Contracts see the opening and the history.
#[derive(Drop)]
pub struct TakenBoard {
    pub(crate) core: Box<BoardCore>,
}

impl Model for TakenBoard {
    ghost use Rattle.board_terms.specs.BoardViews.{BoardHistory};

    ghost Value = { BoardHistory };

    ghost view = { λ f. f.core.value };
}

impl Fits for TakenBoard {
    ghost use Rattle.std.specs.Prelude.{◌≡◌};

    type Tag = Day;

    ghost fits = { λ day locked. locked.board ≡ day };
}

impl TakenBoard {
    /// The identity that its board was given.
    pub fn identity(&self) -> u64
        ensures { result ≡ self.now.board.identity }
    {
        self.core.identity
    }

    /// How many calls were recorded.
    pub fn calls(&self) -> u32
        ensures value { result ≡ length self.now.history }
        ensures legal { IsLegal self.now.board.config self.now.history }
    {
        self.core.auction.calls()
    }

    /// The auction to which the history's calls were applied.
    pub fn auction(&self) -> &Auction
        ensures { result.now ≡ auction_after self.now.board.config (calls_of self.now.history) }
    {
        &self.core.auction
    }

    /// The calls that were recorded, with their replies. They are a legal history.
    pub fn history(&self) -> &[Entry]
        ensures value { result.now ≡ self.now.history }
        ensures legal { IsLegal self.now.board.config self.now.history }
    {
        self.core.history.as_slice()
    }

    /// The quantities of the orders that count, tick by tick.
    pub fn ladder(&self) -> &Ladder
        ensures { result.now ≡ ladder_after self.now.board.config (calls_of self.now.history) }
    {
        self.core.auction.ladder()
    }

    /// The trades of the day so far.
    pub fn tape(&self) -> &[Trade]
        ensures { result.now ≡ tape_after self.now.board.config (calls_of self.now.history) }
    {
        self.core.auction.tape()
    }

    /// The history with the counts of the members.
    ///
    /// The history is one of the plain auction of one thread; it has exactly as many entries as the counts add up to,
    /// and each count is that of the entries with its number.
    pub fn into_closing(self) -> Closing
        ensures closed { IsClosingOf self.board result }
        ensures history { result.history.items ≡ self.history }
    {
        let TakenBoard { core } = self;
        Box::into_inner(core).into_closing()
    }
}

/// What a copy shows.
#[derive(Drop)]
pub(crate) struct ShownCopy {
    pub(crate) view: Snapshot,
}

impl Fits for ShownCopy {
    ghost use Rattle.board_terms.specs.BoardViews.{IsSnapshotOf};

    type Tag = Day;

    ghost fits = { λ day copy. IsSnapshotOf day copy.view.front copy.view.shown };
}
