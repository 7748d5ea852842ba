//! A call auction that C holds by a handle: the library `libcallauction`.
//!
//! `library/callauction.h` has the same for C. A handle of zeros holds no auction, and each call on it but an opening
//! answers `NO_AUCTION` and does nothing else. Each call takes the handle by reference, one call at a time, and answers
//! `DONE` or the number of an error, which changes nothing. Only opening, cloning and listing orders take memory.
#![tactic(auto)]

ghost use Rattle.std.specs.Prelude.{◌≡◌, ◌<◌, ◌+◌, ◌-◌, ◌++◌, true, false, Some, None, IsSome, IsNone, IfSome};
ghost use Rattle.std.specs.Prelude.{length, map, min, take, drop, option_map};
ghost use Rattle.std.specs.Option.{option_map_or};
ghost use Rattle.auction_terms.specs.Day.{display};
ghost use Rattle.auction_terms.specs.Auxiliary.RunningAuction.{opened_auction};
ghost use Rattle.auction.specs.ConfigFault.{open_fault};
ghost use Rattle.auction.specs.OpenOrders.{has_same_limits};
ghost use Rattle.auction_c.specs.Calling.{answer_of_held, apply_all, apply_struct, fault_number, ladder_error};
ghost use Rattle.auction_c.specs.Calling.{ladder_now, ticks_of, unseen_trades};
ghost use Rattle.auction_c.specs.Handles.{IsHandleUnchanged, KeepsTerms};
ghost use Rattle.auction_c.specs.Decoding as decoded_as;
ghost use Rattle.auction_c.specs.Encoding as encoded_as;

mod applying;
mod auction_box;
mod board;
mod board_calls;
mod copying;
mod decoding;
mod encoding;
mod entries;
mod errors;
mod executions;
mod handle;
mod journal_calls;
mod journals;
mod member_box;
mod member_handle;
mod order_calls;
mod outcome_calls;
mod outcomes;
mod structs;

use applying::{apply_each, apply_one};
use auction::Auction;
use copying::{copy_ladder, copy_over, copy_trades};
pub use decoding::{ALL_MEMBERS, BOARD_RESERVE};
use decoding::{config_in, reserve_in};
use encoding::{config_out, display_out, state_out};
use errors::fault_out;
pub use errors::{
    BAD_BOUNDS, BAD_CAPACITY, BAD_JOURNAL, BAD_LENGTH, BAD_MEMBER, BAD_REFERENCE, BEHIND, BUSY,
    CLOSED, DONE, FULL, IN_USE, MISSING_MEMBER, MISUSED, NO_AUCTION, NO_COMMAND, NO_CONFIG,
    NO_ENTRY, NO_MEMBER, NO_MEMORY, OVERTAKEN,
};
pub use handle::AuctionHandle;
pub use member_handle::AuctionMember;
use std::alloc::Global;
pub use structs::{
    AuctionCommand, AuctionConfig, AuctionDayState, AuctionEntry, AuctionJournal,
    AuctionMarketOrders, AuctionOrder, AuctionOutcome, AuctionReceipt, AuctionReply, AuctionShown,
    AuctionTrade,
};

/// Opens an auction, which the handle then holds: no orders, no trades, no calls, the reference of the config. The last
/// calls of the day are the operator's, as many as the config says, else none.
///
/// Where the handle holds one already it answers `IN_USE`. Else it answers `NO_CONFIG` for a struct that is no config,
/// then the first fault of the config, `BAD_BOUNDS`, `BAD_REFERENCE` or `BAD_CAPACITY`, and `NO_MEMORY` only where it
/// has none.
#[unsafe(no_mangle)]
pub extern "C" fn callauction_open(
    alloc: Global,
    handle: &mut AuctionHandle,
    config: &AuctionConfig,
) -> u32
    ensures opened_auction { result ≡ 0 → handle.new.boxed.value ≡
        option_map opened_auction (decoded_as.config_in config.now) }
    ensures reserve { result ≡ 0 → handle.new.reserve ≡ decoded_as.reserve_in 0 config.now }
    ensures refused { 0 < result →
        (handle.new.boxed.value ≡ handle.old.boxed.value) × (handle.new.reserve ≡ handle.old.reserve) }
    ensures busy { IsSome handle.old.boxed.value → result ≡ IN_USE }
    ensures none { IsNone handle.old.boxed.value → IsNone (decoded_as.config_in config.now) → result ≡ NO_CONFIG }
    ensures fault { IsNone handle.old.boxed.value → IfSome (decoded_as.config_in config.now) (λ c.
        IfSome (open_fault c) (λ fault. result ≡ fault_number fault)) }
    ensures memory { IsNone handle.old.boxed.value → IfSome (decoded_as.config_in config.now) (λ c.
        open_fault c ≡ None → 0 < result → result ≡ NO_MEMORY) }
    ensures clients { handle.new.clients ≡ handle.old.clients }
{
    if handle.is_open {
        return IN_USE;
    }
    let Some(decoded) = config_in(config) else {
        return NO_CONFIG;
    };
    match Auction::open(alloc, decoded) {
        Ok(auction) => handle.hold(alloc, auction, reserve_in(0, config)),
        Err(fault) => fault_out(fault),
    }
}

/// Applies a command and writes its reply.
///
/// It answers `NO_COMMAND` for a struct that is no command, and `FULL` where as many were applied as may be, or those
/// that are left are the operator's and the command isn't. A command that the auction refuses is no error: its reply
/// says so.
#[unsafe(no_mangle)]
pub extern "C" fn callauction_apply(
    handle: &mut AuctionHandle,
    command: &AuctionCommand,
    reply: &mut AuctionReply,
) -> u32
    ensures error { result ≡
        option_map_or (λ a. (apply_struct handle.old.reserve a command.now reply.old).error)
        handle.old.boxed.value NO_AUCTION }
    ensures auction { handle.new.boxed.value ≡
        option_map (λ a. (apply_struct handle.old.reserve a command.now reply.old).auction) handle.old.boxed.value }
    ensures terms { KeepsTerms handle.old handle.new }
    ensures reply { reply.new ≡
        option_map_or (λ a. (apply_struct handle.old.reserve a command.now reply.old).reply)
        handle.old.boxed.value reply.old }
{
    if !handle.is_open {
        return NO_AUCTION;
    }
    let reserve = handle.reserve;
    apply_one(handle.boxed.get_mut(), reserve, command, reply)
}

/// Applies commands one after another, each as `callauction_apply`, up to the first error, which it answers. It writes
/// the replies of those that were applied, and how many they are.
///
/// It answers `BAD_LENGTH` where there aren't as many replies as commands, and then applies none.
#[unsafe(no_mangle)]
pub extern "C" fn callauction_apply_many(
    handle: &mut AuctionHandle,
    commands: &[AuctionCommand],
    replies: &mut [AuctionReply],
    applied: &mut usize,
) -> u32
    ensures error { result ≡
        option_map_or (λ a. (apply_all handle.old.reserve a commands.now replies.old).error)
        handle.old.boxed.value NO_AUCTION }
    ensures applied { applied.new ≡
        option_map_or (λ a. (apply_all handle.old.reserve a commands.now replies.old).applied)
        handle.old.boxed.value 0 }
    ensures auction { handle.new.boxed.value ≡
        option_map (λ a. (apply_all handle.old.reserve a commands.now replies.old).auction) handle.old.boxed.value }
    ensures terms { KeepsTerms handle.old handle.new }
    ensures replies { replies.new ≡
        option_map_or (λ a. (apply_all handle.old.reserve a commands.now replies.old).replies)
        handle.old.boxed.value replies.old }
{
    *applied = 0;
    if !handle.is_open {
        return NO_AUCTION;
    }
    if replies.len() != commands.len() {
        return BAD_LENGTH;
    }
    let reserve = handle.reserve;
    apply_each(handle.boxed.get_mut(), reserve, commands, replies, applied)
}

/// Writes what is shown, as a reply with tag 5 or 6. It is no call of a member: it isn't counted.
#[unsafe(no_mangle)]
pub extern "C" fn callauction_display(handle: &mut AuctionHandle, shown: &mut AuctionReply) -> u32
    ensures error { result ≡ answer_of_held handle.old.boxed.value }
    ensures handle { IsHandleUnchanged handle.old handle.new }
    ensures shown { shown.new ≡
        option_map_or (λ a. encoded_as.display_out (display a.state)) handle.old.boxed.value shown.old }
{
    if !handle.is_open {
        return NO_AUCTION;
    }
    *shown = display_out(handle.boxed.get_mut().show());
    DONE
}

/// Copies the shares bid and offered by the orders that count, tick by tick from the lowest on, and writes those of the
/// market orders.
///
/// Where an array hasn't just as many places as there are ticks it answers `BAD_LENGTH`.
#[tactic(auto, using(crate::proofs::LadderTicksLaws::ticks_now))]
#[unsafe(no_mangle)]
pub extern "C" fn callauction_ladder(
    handle: &mut AuctionHandle,
    bids: &mut [u64],
    asks: &mut [u64],
    market: &mut AuctionMarketOrders,
) -> u32
    ensures error { result ≡ option_map_or
        (λ a. ladder_error (ticks_of a.config) (length bids.old) (length asks.old)) handle.old.boxed.value NO_AUCTION }
    ensures handle { IsHandleUnchanged handle.old handle.new }
    ensures bids { result ≡ 0 → IfSome handle.old.boxed.value (λ a. bids.new ≡ (ladder_now a).bids) }
    ensures asks { result ≡ 0 → IfSome handle.old.boxed.value (λ a. asks.new ≡ (ladder_now a).asks) }
    ensures market { result ≡ 0 → IfSome handle.old.boxed.value (λ a. market.new ≡
        encoded_as.market_out (ladder_now a)) }
    ensures unchanged { 0 < result → (bids.new ≡ bids.old) × (asks.new ≡ asks.old) × (market.new ≡ market.old) }
{
    if !handle.is_open {
        return NO_AUCTION;
    }
    copy_ladder(handle.boxed.get_mut().ladder(), bids, asks, market)
}

/// Copies the trades of the day that come after the first `seen` of them, as many as there is room for, and writes how
/// many were copied.
#[unsafe(no_mangle)]
pub extern "C" fn callauction_trades(
    handle: &mut AuctionHandle,
    seen: usize,
    trades: &mut [AuctionTrade],
    copied: &mut usize,
) -> u32
    ensures error { result ≡ answer_of_held handle.old.boxed.value }
    ensures handle { IsHandleUnchanged handle.old handle.new }
    ensures copied { copied.new ≡ min (length (unseen_trades seen handle.old.boxed.value)) (length trades.old) }
    ensures trades { trades.new ≡
        map encoded_as.trade_out (take copied.new (unseen_trades seen handle.old.boxed.value))
        ++ drop copied.new trades.old }
{
    *copied = 0;
    if !handle.is_open {
        return NO_AUCTION;
    }
    let tape = handle.boxed.get_mut().tape();
    if seen > tape.len() {
        return DONE;
    }
    *copied = copy_trades(&tape[seen..], trades);
    DONE
}

/// Writes how many commands were applied, those among them that the auction refused.
#[unsafe(no_mangle)]
pub extern "C" fn callauction_calls(handle: &mut AuctionHandle, calls: &mut u32) -> u32
    ensures error { result ≡ answer_of_held handle.old.boxed.value }
    ensures handle { IsHandleUnchanged handle.old handle.new }
    ensures calls { calls.new ≡ option_map_or (λ a. a.calls) handle.old.boxed.value calls.old }
{
    if !handle.is_open {
        return NO_AUCTION;
    }
    *calls = handle.boxed.get_mut().calls();
    DONE
}

/// Writes where the day is: the current auction, whether its call phase was extended, the reference price, and the
/// calls, those that are left to the operator and to another member.
#[unsafe(no_mangle)]
pub extern "C" fn callauction_state(handle: &mut AuctionHandle, state: &mut AuctionDayState) -> u32
    ensures error { result ≡ answer_of_held handle.old.boxed.value }
    ensures handle { IsHandleUnchanged handle.old handle.new }
    ensures state { state.new ≡
        option_map_or (λ a. encoded_as.state_out handle.old.reserve a) handle.old.boxed.value state.old }
{
    if !handle.is_open {
        return NO_AUCTION;
    }
    let reserve = handle.reserve;
    *state = state_out(handle.boxed.get_mut(), reserve);
    DONE
}

/// Writes what the auction was opened with.
#[unsafe(no_mangle)]
pub extern "C" fn callauction_config_of(
    handle: &mut AuctionHandle,
    config: &mut AuctionConfig,
) -> u32
    ensures error { result ≡ answer_of_held handle.old.boxed.value }
    ensures handle { IsHandleUnchanged handle.old handle.new }
    ensures config { config.new ≡
        option_map_or (λ a. encoded_as.config_out a.config handle.old.reserve) handle.old.boxed.value config.old }
{
    if !handle.is_open {
        return NO_AUCTION;
    }
    let reserve = handle.reserve;
    *config = config_out(handle.boxed.get_mut().config(), reserve);
    DONE
}

/// Goes back to the opening, as if the auction had just been opened. It takes no memory.
#[unsafe(no_mangle)]
pub extern "C" fn callauction_reset(handle: &mut AuctionHandle) -> u32
    ensures error { result ≡ answer_of_held handle.old.boxed.value }
    ensures auction { handle.new.boxed.value ≡ option_map (λ a. opened_auction a.config) handle.old.boxed.value }
    ensures terms { KeepsTerms handle.old handle.new }
{
    if !handle.is_open {
        return NO_AUCTION;
    }
    handle.boxed.get_mut().reset();
    DONE
}

/// Makes the other handle hold an auction of its own, a copy of this one as it is now, with its reserve. Where it holds
/// an auction of the same bounds and room already, that one is written over, and no memory is taken.
///
/// Where the other handle holds an auction of other bounds or room it answers `IN_USE`; where it holds none,
/// `NO_MEMORY` where memory is refused.
#[unsafe(no_mangle)]
pub extern "C" fn callauction_clone(
    alloc: Global,
    handle: &mut AuctionHandle,
    other: &mut AuctionHandle,
) -> u32
    ensures handle { IsHandleUnchanged handle.old handle.new }
    ensures copied { result ≡ 0 →
        (other.new.boxed.value ≡ handle.old.boxed.value) × (other.new.reserve ≡ handle.old.reserve) }
    ensures refused { 0 < result →
        (other.new.boxed.value ≡ other.old.boxed.value) × (other.new.reserve ≡ other.old.reserve) }
    ensures missing { IsNone handle.old.boxed.value → result ≡ NO_AUCTION }
    ensures busy { IfSome handle.old.boxed.value (λ a. IfSome other.old.boxed.value (λ b.
        has_same_limits a.config b.config ≡ false → result ≡ IN_USE)) }
    ensures reused { IfSome handle.old.boxed.value (λ a. IfSome other.old.boxed.value (λ b.
        has_same_limits a.config b.config ≡ true → result ≡ DONE)) }
    ensures memory { IsSome handle.old.boxed.value → IsNone other.old.boxed.value →
        0 < result → result ≡ NO_MEMORY }
    ensures other_clients { other.new.clients ≡ other.old.clients }
{
    if !handle.is_open {
        return NO_AUCTION;
    }
    let reserve = handle.reserve;
    if other.is_open {
        let error = copy_over(handle.boxed.get_mut(), other.boxed.get_mut());
        if error != DONE {
            return error;
        }
        other.reserve = reserve;
        return DONE;
    }
    match handle.boxed.get_mut().copied(alloc) {
        Ok(copy) => other.hold(alloc, copy, reserve),
        Err(_) => NO_MEMORY,
    }
}

/// Gives up the auction and its memory. The handle then holds none.
#[unsafe(no_mangle)]
pub extern "C" fn callauction_close(alloc: Global, handle: &mut AuctionHandle) -> u32
    ensures error { result ≡ answer_of_held handle.old.boxed.value }
    ensures auction { handle.new.boxed.value ≡ None }
    ensures clients { handle.new.clients ≡ handle.old.clients }
{
    if !handle.is_open {
        return NO_AUCTION;
    }
    let boxed = handle.boxed.take(alloc);
    handle.is_open = false;
    drop(boxed.into_box());
    DONE
}
