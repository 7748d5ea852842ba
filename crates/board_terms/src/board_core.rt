//! What every board has under its lock, and the one event of the day: a call is recorded.
ghost use Rattle.std.specs.Prelude.{◌≡◌, ◌≢◌, ◌+◌, ◌<◌, ◌≤◌, ◌⊎◌, ◌↔◌, ◌++◌, ◌∷◌, [], ℕ, length, IsTrue, MatchBool};
ghost use Rattle.std.specs.Prelude.{IfOk, IfErr, IfNone, IfSome, OnOk, OnErr, Err, Some};
ghost use Rattle.auction.specs.AuctionState.{call_by};
ghost use Rattle.auction_terms.specs.Day.{IsLegal, calls_of};
ghost use Rattle.board_terms.specs.BoardViews.{IsToldOutOfStep, IsClosingOf, IsSnapshotOf};
ghost use Rattle.board_terms.specs.CallsAndLooks.{entry, CallsOnce, EndsWithCall, IsLook};
ghost use Rattle.board_terms.specs.CallsAndLooks.{out_of_step_fault, IsOutOfStep};
ghost use Rattle.board_terms.specs.CallsAndLooks.{SeesFullHistory};
ghost use Rattle.board_terms.specs.Closings.{HasSeenBeginning, IsAccount};
ghost use Rattle.board_terms.specs.MemberView.{placed_calls};
ghost use Rattle.board_terms.specs.declared.calls.Shown.{Shown};

use crate::account::Account;
use crate::calls::{CallFault, Receipt, Shown};
use crate::closing::Closing;
use crate::evidence::{Front, Head};
use crate::snapshot::Snapshot;
use auction::Auction;
use auction_terms::{Call, Command, Entry, Reply};
use std::marker::Model;

/// What every board has under its lock: the auction that gives the replies, the history of the day with the evidence of
/// its calls, and how many entries each number has. Contracts see the opening and the history.
#[derive(Drop)]
pub struct BoardCore {
    pub identity: u64,
    pub auction: Auction,
    pub history: Vec<Entry>,
    pub(crate) front: Front,
    pub(crate) head: Head,
    /// How many entries each number has.
    pub(crate) counted: Vec<u32>,
    pub(crate) members: u8,
}

impl Model for BoardCore {
    ghost use Rattle.std.specs.Prelude.{◌≡◌, vec_capacity};
    ghost use Rattle.board_terms.specs.BoardViews.{BoardHistory, board_history, opened_board};
    ghost use Rattle.board_terms.specs.CoreInvariant.{CoreInvariant};

    ghost Value = { BoardHistory };

    ghost view = { λ f.
        board_history (opened_board f.identity f.auction.config f.members f.front.book) f.history.items };

    ghost invariant = { λ f.
        CoreInvariant f.auction.config f.members f.auction f.history.items f.front.log f.counted.items
        (vec_capacity f.history)
        × (f.head.word.book ≡ f.front.book) };
}

impl BoardCore {
    /// A member's call, which is recorded; a member that finds the history full is shown all of it.
    pub fn call(&mut self, by: &mut Account, command: Command) -> Result<Receipt, CallFault>
        requires board { by.old.board ≡ self.old.board }
        ensures board { (self.new.board ≡ self.old.board) × (by.new.board ≡ by.old.board) }
        ensures history { IfOk result (λ r.
            self.new.history ≡ self.old.history ++ entry by.old.view.number command r.reply ∷ []) }
        ensures call { IfOk result (λ r. CallsOnce self.old.board.config by.old.view by.new.view command r) }
        ensures by_history { IfOk result (λ r.
            EndsWithCall self.old.board.config self.new.history by.old.view.number command r) }
        ensures full { result ≡ Err CallFault.HistoryFull →
            SeesFullHistory self.old.board.config by.old.view by.new.view }
        ensures fault { IfErr result (λ e. e ≢ CallFault.HistoryFull → by.new ≡ by.old) }
        ensures same { IfErr result (λ e. self.new ≡ self.old) }
        ensures out_of_step { (h k : ℕ) → result ≡ Err (CallFault.OutOfStep h k) →
            IsToldOutOfStep self.old.board.config by.old.view (CallFault.OutOfStep h k) }
    {
        let result = self.record(by, command);
        if result == Err(CallFault::HistoryFull) {
            self.show_history(by);
        }
        result
    }

    /// Applies a member's command to the auction, writes it with its reply at the end of the history, and counts it
    /// once. A command that the auction refuses is recorded and counted too. The member has then been shown it.
    pub fn record(&mut self, by: &mut Account, command: Command) -> Result<Receipt, CallFault>
        requires board { by.old.board ≡ self.old.board }
        ensures board { (self.new.board ≡ self.old.board) × (by.new.board ≡ by.old.board) }
        ensures history { IfOk result (λ r.
            self.new.history ≡ self.old.history ++ entry by.old.view.number command r.reply ∷ []) }
        ensures number { IfOk result (λ r. r.number ≡ length self.new.history) }
        ensures call { IfOk result (λ r. CallsOnce self.old.board.config by.old.view by.new.view command r) }
        ensures story { OnOk result (by.new.view.seen ≡ calls_of self.new.history) }
        ensures full { (result ≡ Err CallFault.HistoryFull)
            ↔ (length self.old.history ≡ self.old.board.config.max_calls) }
        ensures out_of_step { IsOutOfStep self.old.history by.old.view →
            length self.old.history ≢ self.old.board.config.max_calls →
            result ≡ Err (out_of_step_fault self.old.history by.old.view.number) }
        ensures out_of_step_only { (h k : ℕ) → result ≡ Err (CallFault.OutOfStep h k) →
            IsOutOfStep self.old.history by.old.view
            × (CallFault.OutOfStep h k ≡ out_of_step_fault self.old.history by.old.view.number) }
        ensures fault { OnErr result ((self.new ≡ self.old) × (by.new ≡ by.old)) }
        ensures legal { IsLegal self.new.board.config self.new.history }
    {
        if let Some(fault) = self.refusal(by) {
            return Err(fault);
        }
        let mut front = self.front.again();
        let call = Call {
            member: by.number(),
            command,
        };
        // The board alone adds a call, under its lock, so this adds always.
        if !front.add(&self.head, call) {
            return Err(CallFault::Overtaken);
        }
        Ok(self.write_down(by, &call, front))
    }

    // Why a member's call can't be recorded, if it can't.
    fn refusal(&self, by: &Account) -> Option<CallFault>
        requires board { by.now.board ≡ self.now.board }
        ensures full { (result ≡ Some CallFault.HistoryFull)
            ↔ (length self.now.history ≡ self.now.board.config.max_calls) }
        ensures room { IfNone result (length self.now.history < self.now.board.config.max_calls) }
        ensures out_of_step { IsOutOfStep self.now.history by.now.view →
            length self.now.history ≢ self.now.board.config.max_calls →
            result ≡ Some (out_of_step_fault self.now.history by.now.view.number) }
        ensures only { IfSome result (λ fault. (fault ≡ CallFault.HistoryFull)
            ⊎ (IsOutOfStep self.now.history by.now.view
            × (fault ≡ out_of_step_fault self.now.history by.now.view.number))) }
        ensures follows { IfNone result
            (HasSeenBeginning self.now.board.members (calls_of self.now.history) by.now.view) }
        ensures counted { IfNone result
            (by.now.view.calls ≡ length (placed_calls (calls_of self.now.history) by.now.view.number)) }
    {
        if self.auction.is_full() {
            return Some(CallFault::HistoryFull);
        }
        let history = self.auction.calls();
        let counted = self.counted[usize::from(by.number())];
        if !self.is_followed_by(by) || by.calls() != counted {
            return Some(CallFault::OutOfStep { history, counted });
        }
        None
    }

    /// Whether a member has been shown no more calls than were recorded, which begin with these then.
    pub fn is_followed_by(&self, by: &Account) -> bool
        requires { by.now.board ≡ self.now.board }
        ensures { MatchBool result (HasSeenBeginning self.now.board.members (calls_of self.now.history) by.now.view)
            (length self.now.history < length by.now.view.seen) }
    {
        by.seen.front.begins(&self.front)
    }

    /// All calls that were recorded, and what is shown after them.
    pub fn shown(&self) -> Snapshot
        ensures view { IsSnapshotOf self.now.board result.front result.shown }
        ensures all { result.front.log ≡ calls_of self.now.history }
        ensures legal { IsLegal self.now.board.config self.now.history }
    {
        let calls = self.auction.calls();
        Snapshot {
            front: self.front.again(),
            shown: Shown {
                calls,
                display: self.auction.display(),
            },
        }
    }

    /// Shows a member that finds the history full all of it.
    pub fn show_history(&self, by: &mut Account)
        requires board { by.old.board ≡ self.now.board }
        ensures board { by.new.board ≡ by.old.board }
        ensures look { (s : Shown) × IsLook self.now.board.config by.old.view by.new.view s }
        ensures all_calls { length self.now.history ≤ length by.new.view.seen }
    {
        by.catch_up(self.shown());
    }

    // The part of a recorded call that can't fail: the evidence with it is there.
    fn write_down(&mut self, by: &mut Account, call: &Call, front: Front) -> Receipt
        requires board { by.old.board ≡ self.old.board }
        requires member { call.now.member ≡ by.old.view.number }
        requires room { length self.old.history < self.old.board.config.max_calls }
        requires book { front.book ≡ self.old.board.book }
        requires front { front.log ≡ calls_of self.old.history ++ call.now ∷ [] }
        requires follows { HasSeenBeginning self.old.board.members (calls_of self.old.history) by.old.view }
        requires counted { by.old.view.calls ≡ length (placed_calls (calls_of self.old.history) by.old.view.number) }
        ensures board { (self.new.board ≡ self.old.board) × (by.new.board ≡ by.old.board) }
        ensures history { self.new.history
            ≡ self.old.history ++ entry by.old.view.number call.now.command result.reply ∷ [] }
        ensures call { CallsOnce self.old.board.config by.old.view by.new.view call.now.command result }
        ensures number { result.number ≡ length self.new.history }
        ensures story { by.new.view.seen ≡ calls_of self.new.history }
        ensures legal { IsLegal self.new.board.config self.new.history }
    {
        let mut reply = Reply::Deleted;
        self.auction.answer_call(call, &mut reply);
        let display = self.auction.show();
        let number = self.auction.calls();
        by.count_call(
            front.again(),
            Shown {
                calls: number,
                display,
            },
        );
        self.counted[usize::from(call.member)] += 1;
        self.history.push_reserved(Entry {
            member: call.member,
            command: call.command,
            reply,
        });
        self.front = front;
        Receipt { number, reply }
    }

    /// Whether all that the member was shown begins the history's calls, and these have as many of its number as it has
    /// counted.
    pub fn is_account(&self, account: &Account) -> bool
        requires { account.now.board ≡ self.now.board }
        ensures account { IsTrue result → IsAccount (calls_of self.now.history) account.now.view }
        ensures only { IsAccount (calls_of self.now.history) account.now.view → IsTrue result }
        ensures legal { IsLegal self.now.board.config self.now.history }
    {
        let counted = self.counted[usize::from(account.number())];
        self.is_followed_by(account) && account.calls() == counted
    }

    /// The history with the counts of its entries by number.
    pub fn into_closing(self) -> Closing
        ensures closed { IsClosingOf self.board result }
        ensures history { result.history.items ≡ self.history }
    {
        let BoardCore {
            history,
            counted,
            ..
        } = self;
        Closing {
            history,
            calls: counted,
        }
    }
}
