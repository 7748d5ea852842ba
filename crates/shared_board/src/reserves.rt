//! The last calls of a day, which are the operator's.
ghost use Rattle.std.specs.Prelude.{◌≡◌, ◌≢◌, ◌++◌, ◌∷◌, [], ℕ, length, Err, IfErr, IfOk};
ghost use Rattle.board_terms.specs.BoardViews.{IsToldOutOfStep};
ghost use Rattle.board_terms.specs.CallsAndLooks.{CallsOnce, EndsWithCall, entry};
ghost use Rattle.auction.specs.Reserve.{is_reserved_from};
ghost use Rattle.shared_board.specs.Reserves.{LeavesReserve, SeesNoneLeft};

use auction_terms::Command;
use board_terms::{Account, BoardCore, CallFault, Receipt};

// Whether the calls that are left to the day are the operator's, which the member with this number isn't.
fn is_reserved_from(core: &BoardCore, number: u8, reserve: u32) -> bool
    ensures { result ≡ is_reserved_from reserve core.now.board.config number (length core.now.history) }
{
    core.auction.is_reserved_from(number, reserve)
}

/// Calls a member's command, as the core of every board does. But where no more than `reserve` calls are left, a member
/// that isn't the operator finds the history full, and is shown all of it.
pub(crate) fn call_unreserved(
    core: &mut BoardCore,
    by: &mut Account,
    command: Command,
    reserve: u32,
) -> Result<Receipt, CallFault>
    requires board { by.old.board ≡ core.old.board }
    ensures board { (core.new.board ≡ core.old.board) × (by.new.board ≡ by.old.board) }
    ensures history { IfOk result (λ r.
        core.new.history ≡ core.old.history ++ entry by.old.view.number command r.reply ∷ []) }
    ensures call { IfOk result (λ r. CallsOnce core.old.board.config by.old.view by.new.view command r) }
    ensures by_history { IfOk result (λ r.
        EndsWithCall core.old.board.config core.new.history by.old.view.number command r) }
    ensures place { IfOk result (λ r. LeavesReserve reserve core.old.board.config by.old.view.number r.number) }
    ensures full { result ≡ Err CallFault.HistoryFull →
        SeesNoneLeft reserve core.old.board.config by.old.view by.new.view }
    ensures fault { IfErr result (λ e. e ≢ CallFault.HistoryFull → by.new ≡ by.old) }
    ensures same { IfErr result (λ e. core.new ≡ core.old) }
    ensures out_of_step { (h k : ℕ) → result ≡ Err (CallFault.OutOfStep h k) →
        IsToldOutOfStep core.old.board.config by.old.view (CallFault.OutOfStep h k) }
{
    if is_reserved_from(core, by.number(), reserve) {
        core.show_history(by);
        return Err(CallFault::HistoryFull);
    }
    core.call(by, command)
}
