//! Members: their calls and their looks.
ghost use Rattle.std.specs.Prelude.{◌≡◌, ◌≢◌, ℕ, List, Err, IfOk, IfErr};
ghost use Rattle.auction_terms.specs.declared.Entry.{Entry};
ghost use Rattle.board_terms.specs.BoardViews.{IsToldOutOfStep};
ghost use Rattle.board_terms.specs.CallsAndLooks.{CallsOnce, EndsWithCall, IsLook};
ghost use Rattle.shared_board.specs.Reserves.{LeavesReserve, SeesNoneLeft};

use crate::reserves::call_unreserved;
use crate::shared::{Shared, Unwatched};
use auction_terms::{Command, Config};
use board_terms::{Account, CallFault, Receipt, Shown};
use std::alloc::Global;
use std::marker::Model;
use std::sync::Arc;

/// Why a call on the board wasn't answered.
#[derive(Clone, Copy, PartialEq, Eq, Debug)]
pub enum BoardFault {
    /// Another call had the lock at each try: try again.
    Busy,
    /// The board was closed.
    Closed,
    /// The call wasn't recorded.
    Call(CallFault),
}

/// A member of one board, which can't be copied. Contracts see its board and what it knows.
#[derive(Drop)]
pub struct SharedMember {
    pub(crate) shared: Arc<Shared, Global>,
    pub(crate) account: Account,
}

impl Model for SharedMember {
    ghost use Rattle.std.specs.Prelude.{◌≡◌};
    ghost use Rattle.std.specs.Arc.{arc_value};
    ghost use Rattle.board_terms.specs.BoardViews.{BoardMember};

    ghost Value = { BoardMember };

    ghost view = { λ m. m.account };

    ghost invariant = { λ m. (arc_value m.shared).locked ≡ m.account.board };
}

impl SharedMember {
    /// Its number on the board, from 0.
    pub fn number(&self) -> u8
        ensures { result ≡ self.now.view.number }
    {
        self.account.number()
    }

    /// How many of its calls were recorded.
    pub fn calls(&self) -> u32
        ensures { result ≡ self.now.view.calls }
    {
        self.account.calls()
    }

    /// How many members its board has.
    pub fn members(&self) -> u8
        ensures { result ≡ self.now.board.members }
    {
        self.account.members
    }

    /// The identity that its board was given.
    pub fn identity(&self) -> u64
        ensures { result ≡ self.now.board.identity }
    {
        self.account.identity
    }

    /// What its board was opened with.
    pub fn config(&self) -> Config
        ensures { result ≡ self.now.board.config }
    {
        self.account.config
    }

    /// How many calls its board takes.
    pub fn max_calls(&self) -> u32
        ensures { result ≡ self.now.board.config.max_calls }
    {
        self.account.config.max_calls
    }

    /// Calls a command on the board, if no other call has the lock. The last `reserve` calls of the day are the
    /// operator's, member 0: any other member finds the history full then.
    ///
    /// A recorded call is in the history after all that this member had seen and calls of others only; its receipt has
    /// its place there and the auction's reply at that place; the member's own calls are the ones before and this one.
    /// After a fault nothing was recorded, and the member is as it was, except that at `HistoryFull` it has seen the
    /// whole history, of at least `max_calls` entries, or `reserve` fewer where it isn't the operator. An `OutOfStep`
    /// has the numbers of a legal history that isn't full, and the member has seen more than it has, or counted other
    /// calls than it has of the member.
    pub fn call(&mut self, command: Command, reserve: u32) -> Result<Receipt, BoardFault>
        ensures board { self.new.board ≡ self.old.board }
        ensures place { IfOk result (λ r.
            LeavesReserve reserve self.old.board.config self.old.view.number r.number) }
        ensures call { IfOk result (λ r. CallsOnce self.old.board.config self.old.view self.new.view command r) }
        ensures by_history { IfOk result (λ r.
            (h : List Entry) × EndsWithCall self.old.board.config h self.old.view.number command r) }
        ensures full { result ≡ Err (BoardFault.Call CallFault.HistoryFull) →
            SeesNoneLeft reserve self.old.board.config self.old.view self.new.view }
        ensures fault { IfErr result (λ e. e ≢ BoardFault.Call CallFault.HistoryFull → self.new ≡ self.old) }
        ensures out_of_step { (h k : ℕ) → result ≡ Err (BoardFault.Call (CallFault.OutOfStep h k)) →
            IsToldOutOfStep self.old.board.config self.old.view (CallFault.OutOfStep h k) }
    {
        let SharedMember { shared, account } = self;
        let mut locked = match shared.take() {
            Ok(locked) => locked,
            Err(fault) => return Err(fault),
        };
        let answer = call_unreserved(&mut locked.core, account, command, reserve);
        if answer.is_ok() {
            show(shared, account);
        }
        shared.give(locked);
        answer.map_err(BoardFault::Call)
    }

    /// Looks at the board: how many calls it has had, and the display of the book after them. It takes no lock, but for
    /// the first look of the board, before which calls show nothing, and no memory; it waits for nobody, and isn't
    /// recorded. It never goes back.
    pub fn look(&mut self) -> Shown
        ensures board { self.new.board ≡ self.old.board }
        ensures look { IsLook self.old.board.config self.old.view self.new.view result }
    {
        let SharedMember { shared, account } = self;
        match shared.newest(account.seen_len()) {
            Ok(Some(view)) => account.catch_up(view),
            Ok(None) => account.again(),
            Err(Unwatched) => look_first(shared, account),
        }
    }
}

// The first look: from now on calls show what is so. Where another call has the lock all the while, the next look is
// the first.
fn look_first(shared: &Shared, account: &mut Account) -> Shown
    requires { shared.now.locked ≡ account.old.board }
    ensures board { account.new.board ≡ account.old.board }
    ensures look { IsLook account.old.board.config account.old.view account.new.view result }
{
    let Ok(locked) = shared.take() else {
        return account.again();
    };
    let view = locked.core.shown();
    shared.publish(view.again());
    shared.give(locked);
    account.catch_up(view)
}

// Shows what the account has seen now, if somebody has looked.
fn show(shared: &Shared, account: &Account)
    requires { shared.now.locked ≡ account.now.board }
{
    if shared.is_watched() {
        shared.publish(account.snapshot());
    }
}
