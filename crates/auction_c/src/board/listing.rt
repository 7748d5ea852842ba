//! The open orders, as a member of a board is shown them.
ghost use Rattle.std.specs.Prelude.{◌≡◌, ◌<◌, ◌++◌, drop, length, map, min, take};
ghost use Rattle.auction_terms.specs.Priority.{orders_expiring, orders_in_priority};
ghost use Rattle.auction_c.specs.BoardCalls.{IsListError, SeesHistory, SeesMore, ShowsOrders};
ghost use Rattle.auction_c.specs.Encoding as encoded_as;
ghost use Rattle.auction_c.specs.declared.errors.TheConstants.{BEHIND};

use crate::board::taking::{see_locked, take_locked};
use crate::copying::copy_orders;
use crate::errors::{DONE, NO_MEMORY};
use crate::structs::AuctionOrder;
use auction_terms::OpenOrder;
use shared_board::{SharedMember, TakenBoard};
use std::alloc::Global;

// Copies what was listed of the locked board, once the member has seen all its calls, and gives it back.
fn copy_listed(
    member: &mut SharedMember,
    locked: TakenBoard,
    listed: &[OpenOrder],
    orders: &mut [AuctionOrder],
    copied: &mut usize,
    calls: &mut u32,
) -> u32
    requires { locked.board ≡ member.old.board }
    ensures sees { result ≡ 0 → SeesHistory member.old member.new locked.history }
    ensures count { result ≡ 0 → copied.new ≡ min (length listed.now) (length orders.old) }
    ensures orders { result ≡ 0 →
        orders.new ≡ map encoded_as.order_out (take copied.new listed.now) ++ drop copied.new orders.old }
    ensures calls { result ≡ 0 → calls.new ≡ length locked.history }
    ensures member { 0 < result → member.new ≡ member.old }
    ensures error { 0 < result → (result ≡ BEHIND) × SeesMore member.old }
    ensures same { 0 < result → (orders.new ≡ orders.old) × (copied.new ≡ copied.old) × (calls.new ≡ calls.old) }
{
    let locked = match see_locked(member, locked) {
        Ok(locked) => locked,
        Err(error) => return error,
    };
    *copied = copy_orders(listed, orders);
    *calls = locked.calls();
    member.give_locked(locked);
    DONE
}

/// Copies the open orders of a member of the board, or of all, once the member that asks has seen all calls.
pub(crate) fn show_orders(
    alloc: Global,
    member: &mut SharedMember,
    of: Option<u8>,
    orders: &mut [AuctionOrder],
    copied: &mut usize,
    calls: &mut u32,
) -> u32
    ensures done { result ≡ 0 →
        ShowsOrders (λ a. orders_in_priority of a.state) orders.old orders.new copied.new calls.new
        member.old member.new }
    ensures member { 0 < result → member.new ≡ member.old }
    ensures error { 0 < result → IsListError member.old result }
    ensures same { 0 < result → (orders.new ≡ orders.old) × (copied.new ≡ copied.old) × (calls.new ≡ calls.old) }
{
    let locked = match take_locked(member) {
        Ok(locked) => locked,
        Err(error) => return error,
    };
    let Ok(listed) = locked.auction().open_orders(alloc, of) else {
        member.give_locked(locked);
        return NO_MEMORY;
    };
    copy_listed(member, locked, &listed, orders, copied, calls)
}

/// Copies the orders that an uncross now would take out, once the member has seen all calls.
pub(crate) fn show_expiring(
    alloc: Global,
    member: &mut SharedMember,
    orders: &mut [AuctionOrder],
    copied: &mut usize,
    calls: &mut u32,
) -> u32
    ensures done { result ≡ 0 →
        ShowsOrders (λ a. orders_expiring a.config a.state) orders.old orders.new copied.new calls.new
        member.old member.new }
    ensures member { 0 < result → member.new ≡ member.old }
    ensures error { 0 < result → IsListError member.old result }
    ensures same { 0 < result → (orders.new ≡ orders.old) × (copied.new ≡ copied.old) × (calls.new ≡ calls.old) }
{
    let locked = match take_locked(member) {
        Ok(locked) => locked,
        Err(error) => return error,
    };
    let Ok(listed) = locked.auction().expiring_orders(alloc) else {
        member.give_locked(locked);
        return NO_MEMORY;
    };
    copy_listed(member, locked, &listed, orders, copied, calls)
}
