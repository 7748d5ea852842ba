//! A member's board, locked for a call, and given back where that can't go on.
ghost use Rattle.std.specs.Prelude.{◌≡◌, ◌<◌, IfErr, IfOk};
ghost use Rattle.auction_c.specs.BoardCalls.{IsLockError, IsShowError, SeesHistory, SeesMore};
ghost use Rattle.auction_c.specs.declared.errors.TheConstants.{BEHIND};

use crate::errors::{BEHIND, board_fault_out};
use shared_board::{SharedMember, TakenBoard};

/// The locked board, or why it can't be had.
pub(crate) fn take_locked(member: &mut SharedMember) -> Result<TakenBoard, u32>
    ensures same { member.new ≡ member.old }
    ensures board { IfOk result (λ f. f.board ≡ member.old.board) }
    ensures error { IfErr result IsLockError }
    ensures fault { IfErr result (λ e. 0 < e) }
{
    match member.take_locked() {
        Ok(locked) => Ok(locked),
        Err(fault) => Err(board_fault_out(fault)),
    }
}

/// The locked board, once the member has seen all its calls; it is given back where the member has seen more.
pub(crate) fn see_locked(member: &mut SharedMember, locked: TakenBoard) -> Result<TakenBoard, u32>
    requires { locked.board ≡ member.old.board }
    ensures locked { IfOk result (λ f. f ≡ locked) }
    ensures sees { IfOk result (λ f. SeesHistory member.old member.new f.history) }
    ensures same { IfErr result (λ e. member.new ≡ member.old) }
    ensures error { IfErr result (λ e. (e ≡ BEHIND) × SeesMore member.old) }
{
    if member.see(&locked) {
        return Ok(locked);
    }
    member.give_locked(locked);
    Err(BEHIND)
}

/// The locked board, taken, once the member has seen all its calls.
pub(crate) fn take_seen_locked(member: &mut SharedMember) -> Result<TakenBoard, u32>
    ensures board { IfOk result (λ f. f.board ≡ member.old.board) }
    ensures sees { IfOk result (λ f. SeesHistory member.old member.new f.history) }
    ensures same { IfErr result (λ e. member.new ≡ member.old) }
    ensures error { IfErr result (λ e. IsShowError member.old e) }
    ensures fault { IfErr result (λ e. 0 < e) }
{
    match take_locked(member) {
        Ok(locked) => see_locked(member, locked),
        Err(error) => Err(error),
    }
}
