//! A board that a member has locked: its calls there, and the closing, at which each member's account is
//! compared with the history.
ghost use Rattle.std.specs.Prelude.{◌≡◌, ◌≢◌, ◌<◌, ◌⊎◌, ◌++◌, ◌∷◌, [], ℕ, length, Err, IfErr, IfOk, IsTrue};
ghost use Rattle.std.specs.Prelude.{MatchBool};
ghost use Rattle.auction_terms.specs.Day.{IsLegal, calls_of};
ghost use Rattle.board_terms.specs.CallsAndLooks.{CallsOnce, EndsWithCall, entry};
ghost use Rattle.board_terms.specs.Closings.{IsAccount};
ghost use Rattle.board_terms.specs.BoardViews.{IsToldOutOfStep, SeesStory};
ghost use Rattle.shared_board.specs.Reserves.{LeavesReserve, SeesNoneLeft};

use crate::locked::TakenBoard;
use crate::member::{BoardFault, SharedMember};
use crate::reserves::call_unreserved;
use auction_terms::Command;
use board_terms::{CallFault, Receipt};

impl SharedMember {
    /// Locks the board, if no other call has it. Then `give_locked` gives it back, or `shut` ends the
    /// board.
    pub fn take_locked(&mut self) -> Result<TakenBoard, BoardFault>
        ensures member { self.new ≡ self.old }
        ensures board { IfOk result (λ locked. locked.board ≡ self.old.board) }
        ensures fault { IfErr result (λ f. (f ≡ BoardFault.Busy) ⊎ (f ≡ BoardFault.Closed)) }
    {
        self.shared.take()
    }

    /// Gives the locked board back.
    pub fn give_locked(&mut self, locked: TakenBoard)
        requires { locked.board ≡ self.old.board }
        ensures { self.new ≡ self.old }
    {
        self.shared.give(locked);
    }

    /// Calls a command on the locked board, as `call`: the history goes on by this call alone. It is shown once
    /// `give_called` gives the board back.
    pub fn call_taken(
        &mut self,
        locked: &mut TakenBoard,
        command: Command,
        reserve: u32,
    ) -> Result<Receipt, CallFault>
        requires { locked.old.board ≡ self.old.board }
        ensures board { (self.new.board ≡ self.old.board) × (locked.new.board ≡ locked.old.board) }
        ensures history { IfOk result (λ r.
            locked.new.history ≡ locked.old.history ++ entry self.old.view.number command r.reply ∷ []) }
        ensures call { IfOk result (λ r. CallsOnce self.old.board.config self.old.view self.new.view command r) }
        ensures by_history { IfOk result (λ r.
            EndsWithCall self.old.board.config locked.new.history self.old.view.number command r) }
        ensures place { IfOk result (λ r.
            LeavesReserve reserve self.old.board.config self.old.view.number r.number) }
        ensures full { result ≡ Err CallFault.HistoryFull →
            SeesNoneLeft reserve self.old.board.config self.old.view self.new.view }
        ensures fault { IfErr result (λ e. e ≢ CallFault.HistoryFull → self.new ≡ self.old) }
        ensures same { IfErr result (λ e. locked.new ≡ locked.old) }
        ensures out_of_step { (h k : ℕ) → result ≡ Err (CallFault.OutOfStep h k) →
            IsToldOutOfStep self.old.board.config self.old.view (CallFault.OutOfStep h k) }
    {
        call_unreserved(&mut locked.core, &mut self.account, command, reserve)
    }

    /// Gives the locked board back after calls, and shows what is so now, if somebody has looked.
    pub fn give_called(&mut self, locked: TakenBoard)
        requires { locked.board ≡ self.old.board }
        ensures { self.new ≡ self.old }
    {
        if self.shared.is_watched() {
            self.shared.publish(locked.core.shown());
        }
        self.give_locked(locked);
    }

    /// Ends the locked board: each call finds it closed, and looks show what was last.
    pub fn shut(&mut self, locked: &TakenBoard)
        requires { locked.now.board ≡ self.old.board }
        ensures { self.new ≡ self.old }
    {
        self.shared.publish(locked.core.shown());
        self.shared.shut();
    }

    /// Takes in all calls of the locked board, and says whether they are no fewer than the member has seen. Else the
    /// member is ahead of them.
    pub fn see(&mut self, locked: &TakenBoard) -> bool
        requires { locked.now.board ≡ self.old.board }
        ensures board { self.new.board ≡ self.old.board }
        ensures seen { MatchBool result (SeesStory (calls_of locked.now.history) self.old.view self.new.view)
            ((self.new ≡ self.old) × (length locked.now.history < length self.old.view.seen)) }
        ensures legal { IsLegal locked.now.board.config locked.now.history }
    {
        let view = locked.core.shown();
        self.account.see(view)
    }

    /// Whether all that this member has seen begins the history's calls, and the history's calls of its number are its
    /// own.
    pub fn is_settled(&self, locked: &TakenBoard) -> bool
        requires { self.now.board ≡ locked.now.board }
        ensures account { IsTrue result → IsAccount (calls_of locked.now.history) self.now.view }
        ensures only { IsAccount (calls_of locked.now.history) self.now.view → IsTrue result }
        ensures legal { IsLegal locked.now.board.config locked.now.history }
    {
        locked.core.is_account(&self.account)
    }
}
