//! What the board's lock keeps, and the one event of the day: a call is recorded.
ghost use Rattle.std.specs.Prelude.{◌≡◌, ◌≤◌, ◌≢◌, ◌++◌, ◌∷◌, [], ◌↔◌, ℕ, length, IfOk, OnOk, OnErr, Err};
ghost use Rattle.auction_terms.specs.Day.{IsLegal, calls_of};
ghost use Rattle.board_terms.specs.BoardViews.{IsClosingOf, opened_board};
ghost use Rattle.board_terms.specs.declared.calls.Shown.{Shown};
ghost use Rattle.board_terms.specs.CallsAndLooks.{out_of_step_fault, entry, CallsOnce, IsOutOfStep, IsLook, ShowsAfter};

use crate::identity::BoardIdentity;
use crate::member::Member;
use crate::versions::{BoardView, Copies, Update, Version};
use auction_terms::{Command, Entry};
use board_terms::{BoardCore, CallFault, Closing, Receipt, Shown};
use left_right::Absorb;
use std::marker::Model;
use std::sync::Wait;
use std::sync::ledger::{Book, Share};

/// What the board's lock keeps: the core, the ledger's book, and the copies that looks read. Contracts see the history.
#[derive(Drop)]
pub struct LockedBoard<K: BoardIdentity>
where
    Version<K>: Absorb<Update<K>, State = ()>,
{
    pub(crate) core: BoardCore,
    pub(crate) book: Book<K>,
    /// A share without a part, in which the closing joins those of the members.
    pub(crate) joined: Share<K>,
    pub(crate) copies: Copies<K>,
}

impl<K: BoardIdentity> Model for LockedBoard<K>
where
    Version<K>: Absorb<Update<K>, State = ()>,
{
    ghost use Rattle.std.specs.Prelude.{◌≡◌, List, length};
    ghost use Rattle.auction_terms.specs.Day.{calls_of};
    ghost use Rattle.auction_terms.specs.declared.Entry.{Entry};
    ghost use Rattle.board_terms.specs.BoardViews.{opened_board};

    ghost Value = { List Entry };

    ghost view = { λ f. f.core.history };

    ghost invariant = { λ f.
        (f.core.board ≡ opened_board 0 K.config K.parts K.story) × (f.copies ≡ calls_of f.core.history)
        × (f.book.total ≡ length f.core.history) × (f.joined.parts ≡ 0) × (f.joined.amount ≡ 0) };
}

impl<K: BoardIdentity> LockedBoard<K>
where
    Version<K>: Absorb<Update<K>, State = ()>,
{
    /// Applies a member's command to the auction, shows the call to readers, writes it with its reply at the end of the
    /// history, and counts it once in the member's share and in the ledger's book. A command that the auction refuses
    /// is recorded and counted too.
    pub fn record<R: Wait>(
        &mut self,
        by: &mut Member<K>,
        rt: &R,
        command: Command,
    ) -> Result<Receipt, CallFault>
        ensures history { IfOk result (λ r. self.new ≡ self.old ++ entry by.old.number command r.reply ∷ []) }
        ensures number { IfOk result (λ r. r.number ≡ length self.new) }
        ensures call { IfOk result (λ r. CallsOnce K.config by.old by.new command r) }
        ensures story { OnOk result (by.new.seen ≡ calls_of self.new) }
        ensures full { (result ≡ Err CallFault.HistoryFull) ↔ (length self.old ≡ K.config.max_calls) }
        ensures out_of_step { IsOutOfStep self.old by.old → length self.old ≢ K.config.max_calls →
            result ≡ Err (out_of_step_fault self.old by.old.number) }
        ensures out_of_step_only { (h k : ℕ) → result ≡ Err (CallFault.OutOfStep h k) →
            IsOutOfStep self.old by.old × (CallFault.OutOfStep h k ≡ out_of_step_fault self.old by.old.number) }
        ensures fault { OnErr result ((self.new ≡ self.old) × (by.new ≡ by.old)) }
        ensures legal { IsLegal K.config self.new }
    {
        let receipt = self.core.record(&mut by.account, command)?;
        self.book.add(&mut by.share, 1);
        self.copies
            .publish(rt, BoardView::of(by.account.snapshot()));
        Ok(receipt)
    }

    /// How many calls were recorded, and the display of the book after them. A member's look shows the same without the
    /// lock.
    pub fn shown(&self) -> Shown
        ensures { ShowsAfter K.config (calls_of self.now) result }
    {
        self.core.shown().shown
    }

    // A member that finds the history full is shown all of it.
    pub(crate) fn show_history(&self, by: &mut Member<K>)
        ensures look { (s : Shown) × IsLook K.config by.old by.new s }
        ensures all_calls { length self.now ≤ length by.new.seen }
    {
        self.core.show_history(&mut by.account);
    }

    // Gives back the copies, and hands out the history with its counts, the book, and the share without a part.
    pub(crate) fn end<R: Wait>(self, rt: &R) -> (Closing, Book<K>, Share<K>)
        ensures closing { IsClosingOf (opened_board 0 K.config K.parts K.story) result.0 }
        ensures history { result.0.history.items ≡ self }
        ensures book { result.1.total ≡ length self }
        ensures joined { (result.2.parts ≡ 0) × (result.2.amount ≡ 0) }
    {
        let LockedBoard {
            core,
            book,
            joined,
            copies,
        } = self;
        copies.end(rt);
        (core.into_closing(), book, joined)
    }
}
