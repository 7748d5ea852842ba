//! An auction of its own as a copy of a board's.
ghost use Rattle.std.specs.Prelude.{◌≡◌, ◌<◌, true, false, IfErr, IfOk};
ghost use Rattle.auction.specs.OpenOrders as limits;
ghost use Rattle.auction_c.specs.BoardCalls.{IsClone, IsListError, IsShowError};
ghost use Rattle.auction_c.specs.declared.errors.TheConstants.{IN_USE};

use crate::board::taking::{see_locked, take_locked, take_seen_locked};
use crate::copying::has_same_limits;
use crate::errors::{DONE, IN_USE, NO_MEMORY};
use auction::Auction;
use shared_board::SharedMember;
use std::alloc::Global;

// Writes the board's auction over one of the same limits, once the member has seen all calls.
fn clone_over(member: &mut SharedMember, other: &mut Auction) -> u32
    requires { limits.has_same_limits member.old.board.config other.old.config ≡ true }
    ensures done { result ≡ 0 → IsClone other.new member.old member.new }
    ensures member { 0 < result → member.new ≡ member.old }
    ensures other { 0 < result → other.new ≡ other.old }
    ensures error { 0 < result → IsShowError member.old result }
{
    let locked = match take_seen_locked(member) {
        Ok(locked) => locked,
        Err(error) => return error,
    };
    locked.auction().copy_into(other);
    member.give_locked(locked);
    DONE
}

/// Writes the board's auction over one of the same limits, once the member has seen all calls. Where that has other
/// limits it changes nothing, and answers `IN_USE`.
pub(crate) fn clone_over_same(member: &mut SharedMember, other: &mut Auction) -> u32
    ensures done { result ≡ 0 → IsClone other.new member.old member.new }
    ensures member { 0 < result → member.new ≡ member.old }
    ensures other { 0 < result → other.new ≡ other.old }
    ensures busy { limits.has_same_limits member.old.board.config other.old.config ≡ false → result ≡ IN_USE }
    ensures error { limits.has_same_limits member.old.board.config other.old.config ≡ true → 0 < result →
        IsShowError member.old result }
{
    if !has_same_limits(member.config(), other.config()) {
        return IN_USE;
    }
    clone_over(member, other)
}

/// A copy of the board's auction, once the member has seen all calls.
pub(crate) fn cloned(alloc: Global, member: &mut SharedMember) -> Result<Box<Auction>, u32>
    ensures copy { IfOk result (λ b. IsClone b.value member.old member.new) }
    ensures member { IfErr result (λ e. member.new ≡ member.old) }
    ensures error { IfErr result (λ e. IsListError member.old e) }
    ensures fault { IfErr result (λ e. 0 < e) }
{
    let locked = take_locked(member)?;
    let Ok(copy) = locked.auction().copied(alloc) else {
        member.give_locked(locked);
        return Err(NO_MEMORY);
    };
    let Ok(boxed) = Box::new(alloc, copy) else {
        member.give_locked(locked);
        return Err(NO_MEMORY);
    };
    match see_locked(member, locked) {
        Ok(locked) => {
            member.give_locked(locked);
            Ok(boxed)
        }
        Err(error) => Err(error),
    }
}
