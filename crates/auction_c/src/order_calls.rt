//! The open orders of an auction and of a board, for C.
ghost use Rattle.std.specs.Prelude.{◌≡◌, ◌<◌, ◌++◌, IsSome, IsNone, IfSome, length, map, min, take, drop};
ghost use Rattle.auction_terms.specs.Priority.{orders_in_priority, orders_expiring};
ghost use Rattle.auction_c.specs.BoardCalls.{AsksBoard, IsListError, IsOrdersError, ShowsOrders, ShowsOrdersOf};
ghost use Rattle.auction_c.specs.Handles.{IsHandleUnchanged};
ghost use Rattle.auction_c.specs.Decoding as decoded_as;
ghost use Rattle.auction_c.specs.Encoding as encoded_as;
ghost use Rattle.auction_c.specs.declared.errors.TheConstants.{BAD_MEMBER, NO_AUCTION, NO_MEMORY};

use crate::board::listing::{show_expiring, show_orders};
use crate::copying::copy_orders;
use crate::decoding::decoded_member;
use crate::errors::{BAD_MEMBER, DONE, NO_AUCTION, NO_MEMBER, NO_MEMORY};
use crate::handle::AuctionHandle;
use crate::member_handle::AuctionMember;
use crate::structs::AuctionOrder;
use std::alloc::Global;

/// Writes the open orders in priority, of a member or of all, as many as there is room for, and how many it wrote.
///
/// It answers `BAD_MEMBER` where the number is neither a member's nor `ALL_MEMBERS`, and else `NO_MEMORY` only where
/// memory is refused.
#[unsafe(no_mangle)]
pub extern "C" fn callauction_orders(
    alloc: Global,
    handle: &mut AuctionHandle,
    member: u32,
    orders: &mut [AuctionOrder],
    copied: &mut usize,
) -> u32
    ensures handle { IsHandleUnchanged handle.old handle.new }
    ensures missing { IsNone handle.old.boxed.value → result ≡ NO_AUCTION }
    ensures member { IsSome handle.old.boxed.value → IsNone (decoded_as.decoded_member member) → result ≡ BAD_MEMBER }
    ensures memory { IsSome handle.old.boxed.value → IsSome (decoded_as.decoded_member member) → 0 < result →
        result ≡ NO_MEMORY }
    ensures copied { result ≡ 0 → IfSome handle.old.boxed.value (λ a. IfSome (decoded_as.decoded_member member) (λ m.
        copied.new ≡ min (length (orders_in_priority m a.state)) (length orders.old))) }
    ensures orders { result ≡ 0 → IfSome handle.old.boxed.value (λ a. IfSome (decoded_as.decoded_member member) (λ m.
        orders.new ≡ map encoded_as.order_out (take copied.new (orders_in_priority m a.state))
        ++ drop copied.new orders.old)) }
    ensures unchanged { 0 < result → (copied.new ≡ 0) × (orders.new ≡ orders.old) }
{
    *copied = 0;
    if !handle.is_open {
        return NO_AUCTION;
    }
    let Some(of) = decoded_member(member) else {
        return BAD_MEMBER;
    };
    match handle.boxed.get_mut().open_orders(alloc, of) {
        Ok(listed) => {
            *copied = copy_orders(&listed, orders);
            DONE
        }
        Err(_) => NO_MEMORY,
    }
}

/// Writes the orders that an uncross now would take out, as they are for its auction alone, with what would be left of
/// them, as many as there is room for, and how many it wrote.
///
/// It answers `NO_MEMORY` only where memory is refused.
#[unsafe(no_mangle)]
pub extern "C" fn callauction_expiring(
    alloc: Global,
    handle: &mut AuctionHandle,
    orders: &mut [AuctionOrder],
    copied: &mut usize,
) -> u32
    ensures handle { IsHandleUnchanged handle.old handle.new }
    ensures missing { IsNone handle.old.boxed.value → result ≡ NO_AUCTION }
    ensures memory { IsSome handle.old.boxed.value → 0 < result → result ≡ NO_MEMORY }
    ensures copied { result ≡ 0 → IfSome handle.old.boxed.value (λ a.
        copied.new ≡ min (length (orders_expiring a.config a.state)) (length orders.old)) }
    ensures orders { result ≡ 0 → IfSome handle.old.boxed.value (λ a.
        orders.new ≡ map encoded_as.order_out (take copied.new (orders_expiring a.config a.state))
        ++ drop copied.new orders.old) }
    ensures unchanged { 0 < result → (copied.new ≡ 0) × (orders.new ≡ orders.old) }
{
    *copied = 0;
    if !handle.is_open {
        return NO_AUCTION;
    }
    match handle.boxed.get_mut().expiring_orders(alloc) {
        Ok(listed) => {
            *copied = copy_orders(&listed, orders);
            DONE
        }
        Err(_) => NO_MEMORY,
    }
}

/// As `callauction_orders`, of the board of the handle's member: the orders of the member `of`, or of all, after as
/// many calls as it writes, all of which the handle's member has seen then.
///
/// It answers `BAD_MEMBER` where the number is neither a member's nor `ALL_MEMBERS`; else `BUSY` or `CLOSED`; else
/// `NO_MEMORY` only where memory is refused, or `BEHIND`.
#[unsafe(no_mangle)]
pub extern "C" fn callauction_board_orders(
    alloc: Global,
    member: &mut AuctionMember,
    of: u32,
    orders: &mut [AuctionOrder],
    copied: &mut usize,
    calls: &mut u32,
) -> u32
    ensures asked { AsksBoard
        (ShowsOrdersOf (decoded_as.decoded_member of) orders.old orders.new copied.new calls.new)
        (IsOrdersError (decoded_as.decoded_member of)) member.old member.new result }
    ensures unchanged { 0 < result → (copied.new ≡ 0) × (orders.new ≡ orders.old) × (calls.new ≡ calls.old) }
{
    *copied = 0;
    if !member.is_open {
        return NO_MEMBER;
    }
    let Some(whose) = decoded_member(of) else {
        return BAD_MEMBER;
    };
    show_orders(alloc, member.boxed.get_mut(), whose, orders, copied, calls)
}

/// As `callauction_expiring`, of the board of the handle's member, after as many calls as it writes, all of which the
/// member has seen then.
///
/// It answers `BUSY` or `CLOSED`; else `NO_MEMORY` only where memory is refused, or `BEHIND`.
#[unsafe(no_mangle)]
pub extern "C" fn callauction_board_expiring(
    alloc: Global,
    member: &mut AuctionMember,
    orders: &mut [AuctionOrder],
    copied: &mut usize,
    calls: &mut u32,
) -> u32
    ensures asked { AsksBoard
        (ShowsOrders (λ a. orders_expiring a.config a.state) orders.old orders.new copied.new calls.new) IsListError
        member.old member.new result }
    ensures unchanged { 0 < result → (copied.new ≡ 0) × (orders.new ≡ orders.old) × (calls.new ≡ calls.old) }
{
    *copied = 0;
    if !member.is_open {
        return NO_MEMBER;
    }
    show_expiring(alloc, member.boxed.get_mut(), orders, copied, calls)
}
