//! Members: their calls and their looks.
ghost use Rattle.std.specs.Prelude.{◌≡◌, ◌+◌, ◌<◌, ◌≤◌, ◌⊎◌, ◌≢◌, ℕ, List, length, IfOk, IfErr, Err, MatchBool};
ghost use Rattle.auction_terms.specs.declared.Entry.{Entry};
ghost use Rattle.auction_terms.specs.Day.{calls_of};
ghost use Rattle.board_terms.specs.BoardViews.{opened_board};
ghost use Rattle.board_terms.specs.CallsAndLooks.{CallsOnce, EndsWithCall, SeesFullHistory, IsLook};

use crate::board::Board;
use crate::identity::BoardIdentity;
use crate::locked::LockedBoard;
use crate::versions::{Update, Version, Viewer};
use auction_terms::Command;
use board_terms::{Account, CallFault, Receipt, Shown};
use left_right::Absorb;
use std::marker::Model;
use std::sync::Wait;
use std::sync::ledger::{Book, Share};

/// A member of one board, which can't be copied. It has what it knows, one part of the board's ledger, whose amount is
/// its count of recorded calls, and what it looks with. Contracts see it as a `MemberView`: its number, its count, what
/// it has seen, and its own calls by their places in the history.
#[derive(Drop)]
pub struct Member<K: BoardIdentity> {
    pub(crate) account: Account,
    pub(crate) share: Share<K>,
    viewer: Viewer<K>,
}

impl<K: BoardIdentity> Model for Member<K> {
    ghost use Rattle.std.specs.Prelude.{◌≡◌};
    ghost use Rattle.board_terms.specs.BoardViews.{opened_board};
    ghost use Rattle.board_terms.specs.MemberView.{MemberView};

    ghost Value = { MemberView };

    ghost view = { λ m. m.account.view };

    ghost invariant = { λ m.
        (m.account.board ≡ opened_board 0 K.config K.parts K.story)
        × (m.share.parts ≡ 1) × (m.share.amount ≡ m.account.view.calls) };
}

impl<K: BoardIdentity> Member<K> {
    ghost use Rattle.board_terms.specs.Closings.{HasSeenBeginning};

    // A member of the board that K names, which has made no call and was shown none.
    pub(crate) fn new(account: Account, share: Share<K>, viewer: Viewer<K>) -> Member<K>
        requires board { account.board ≡ opened_board 0 K.config K.parts K.story }
        requires share { (share.parts ≡ 1) × (share.amount ≡ account.view.calls) }
        ensures { result ≡ account.view }
    {
        Member {
            account,
            share,
            viewer,
        }
    }

    /// Its number on the board, from 0. Member 0 is the operator, who alone may uncross.
    pub fn number(&self) -> u8
        ensures number { result ≡ self.now.number }
        ensures one_of { result < K.parts }
    {
        self.account.number()
    }

    /// How many of its calls were recorded.
    pub fn calls(&self) -> u32
        ensures { result ≡ self.now.calls }
    {
        self.account.calls()
    }

    /// Calls a command on the board. It waits for the lock, and for readers of the copy that is next.
    ///
    /// A recorded call is in the history after all that this member had seen and calls of others only; its receipt has
    /// its place there and the auction's reply at that place; the member's own calls are the ones before and this one,
    /// and it has now seen the calls of a legal history that ends with this one and its reply.
    /// After a fault nothing was recorded, and the member is as it was, except that at `HistoryFull` it has seen the
    /// whole history, of at least `max_calls` entries. A member that has seen at least `max_calls` calls gets no other
    /// fault but `OutOfStep`, which comes only where the member has seen more than the history has, or counted other
    /// calls than the history has of it.
    pub fn call<R: Wait>(
        &mut self,
        board: &Board<K>,
        rt: &R,
        command: Command,
    ) -> Result<Receipt, CallFault>
    where
        Version<K>: Absorb<Update<K>, State = ()>,
        ensures call { IfOk result (λ r. CallsOnce K.config self.old self.new command r) }
        ensures by_history { IfOk result (λ r. (h : List Entry) × (calls_of h ≡ self.new.seen)
            × EndsWithCall K.config h self.old.number command r) }
        ensures full { result ≡ Err CallFault.HistoryFull → SeesFullHistory K.config self.old self.new }
        ensures full_only { K.config.max_calls ≤ length self.old.seen →
            (result ≡ Err CallFault.HistoryFull) ⊎ ((h k : ℕ) × (result ≡ Err (CallFault.OutOfStep h k))) }
        ensures fault { IfErr result (λ e. e ≢ CallFault.HistoryFull → self.new ≡ self.old) }
        ensures out_of_step { (h k : ℕ) → result ≡ Err (CallFault.OutOfStep h k) →
            (h < length self.old.seen) ⊎ (self.old.calls ≢ k) }
    {
        let mut locked = board.lock(rt);
        let result = locked.record(self, rt, command);
        if result == Err(CallFault::HistoryFull) {
            locked.show_history(self);
        }
        result
    }

    /// Looks at the board: how many calls it has had, and the display of the book after them. It takes no lock and no
    /// memory, waits for nobody, and isn't recorded.
    ///
    /// It never goes back: what is shown is the display after a history that begins with all that this member has seen,
    /// its own calls among them. Where no call has come since, or there is no copy, as after the board was closed, it
    /// shows the last again.
    pub fn look(&mut self) -> Shown
        ensures { IsLook K.config self.old self.new result }
    {
        match self.viewer.find_after(self.account.seen_len()) {
            Some(view) => self.account.catch_up(view.into_snapshot()),
            None => self.account.again(),
        }
    }

    pub(crate) fn seen_len(&self) -> u32
        ensures { result ≡ length self.now.seen }
    {
        self.account.seen_len()
    }

    // Whether it has seen no more than the history, which it then follows.
    pub(crate) fn follows(&self, locked: &LockedBoard<K>) -> bool
    where
        Version<K>: Absorb<Update<K>, State = ()>,
        ensures { MatchBool result (HasSeenBeginning K.parts (calls_of locked.now) self.now)
            (length locked.now < length self.now.seen) }
    {
        locked.core.is_followed_by(&self.account)
    }

    // Its count is no more than the total.
    pub(crate) fn audit(&mut self, book: &mut Book<K>)
        ensures most { self.new.calls ≤ book.new.total }
        ensures same { (self.new ≡ self.old) × (book.new.total ≡ book.old.total) }
    {
        book.audit(&mut self.share);
    }

    // Gives up its part of the ledger, with its count.
    pub(crate) fn into_share(self) -> Share<K>
        ensures { (result.parts ≡ 1) × (result.amount ≡ self.calls) }
    {
        self.share
    }

    // With the share of all others the book is whole: its total is what they and this member have counted.
    pub(crate) fn settle(&mut self, book: &mut Book<K>, mut others: Share<K>)
        requires { others.parts + 1 ≡ K.parts }
        ensures whole { others.amount + self.old.calls ≡ book.old.total }
        ensures same { self.new ≡ self.old }
    {
        book.audit(&mut others);
        self.share.merge(others);
        book.audit(&mut self.share);
        self.share = self.share.split_off(1, u64::from(self.account.calls()));
    }
}
