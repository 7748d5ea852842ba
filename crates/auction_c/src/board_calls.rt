//! The exports of a board's members.
ghost use Rattle.std.specs.Prelude.{◌≡◌, ◌≢◌, ◌<◌, ◌≤◌, ℕ, true, false, length};
ghost use Rattle.std.specs.Prelude.{None, IfNone, IfSome, IsNone, IsSome, IsSomeAnd};
ghost use Rattle.auction_c.specs.BoardCalls.{AreOfBoards, AsksBoard, FindsFull, HoldsAfter, HoldsNewMembers};
ghost use Rattle.auction_c.specs.BoardCalls.{IsCallError, IsClone, IsCloseError, IsLadderError, IsListError};
ghost use Rattle.auction_c.specs.BoardCalls.{IsOutOfStepWithBoard, IsShowError, RecordsCall, ShowsDisplay, ShowsLadder};
ghost use Rattle.auction_c.specs.BoardCalls.{ShowsEntries, ShowsState, ShowsTrades, WritesClosing, first_boxed};
ghost use Rattle.auction_c.specs.BoardCalls.{is_in_use, lacks_room};
ghost use Rattle.auction.specs.OpenOrders as limits;
ghost use Rattle.auction_c.specs.Calling.{fault_number, ladder_error, ticks_of};
ghost use Rattle.auction_c.specs.Handles.{IsMemberUnchanged, KeepsMemberTerms};
ghost use Rattle.auction_c.specs.Decoding as decoded_as;
ghost use Rattle.auction_c.specs.Encoding as encoded_as;
ghost use Rattle.auction_c.specs.ManyCalls.{CallsMany, IsSameFrom};
ghost use Rattle.auction_c.specs.declared.decoding.TheConstants.{BOARD_RESERVE};
ghost use Rattle.auction_c.specs.declared.errors.TheConstants.{BAD_LENGTH, BEHIND, FULL, NO_MEMBER};
ghost use Rattle.board_terms.specs.BoardOpening.{board_fault};
ghost use Rattle.board_terms.specs.BoardViews.{OpenedBoard};

use crate::board::calling::{call_one, look_one};
use crate::board::calling_many::call_many;
use crate::board::cloning::{clone_over_same, cloned};
use crate::board::closing::close_all;
use crate::board::opening::{fill, is_in_use};
use crate::board::showing::{show_entries, show_ladder, show_state, show_trades};
use crate::decoding::{BOARD_RESERVE, command_in, config_in, reserve_in};
use crate::encoding::config_out;
use crate::errors::{
    BAD_CAPACITY, BAD_LENGTH, DONE, FULL, IN_USE, NO_COMMAND, NO_CONFIG, NO_MEMBER, NO_MEMORY,
};
use crate::handle::AuctionHandle;
use crate::member_handle::AuctionMember;
use crate::structs::{
    AuctionCommand, AuctionConfig, AuctionDayState, AuctionEntry, AuctionMarketOrders,
    AuctionReceipt, AuctionShown, AuctionTrade,
};
use std::alloc::Global;

/// Opens a board with as many members as there are handles: each handle then holds the member with its place's number,
/// from 0. The last calls of the day are the operator's, as many as the config says, else `BOARD_RESERVE`. The caller
/// gives each board an identity of its own, which a closing knows its members by.
///
/// Where a handle holds a member already it answers `IN_USE`. Else it answers `NO_CONFIG` for a struct that is no
/// config, then `BAD_CAPACITY` for more than 255 handles, then `BAD_BOUNDS`, `BAD_REFERENCE` or `BAD_CAPACITY`, the
/// first that holds, and `NO_MEMORY` only where none does.
#[unsafe(no_mangle)]
pub extern "C" fn callauction_board_open(
    alloc: Global,
    members: &mut [AuctionMember],
    config: &AuctionConfig,
    identity: u64,
) -> u32
    ensures done { result ≡ 0 →
        IsSomeAnd (decoded_as.config_in config.now) (λ c.
        HoldsNewMembers identity c (decoded_as.reserve_in BOARD_RESERVE config.now) members.new) }
    ensures refused { 0 < result → members.new ≡ members.old }
    ensures busy { is_in_use members.old ≡ true → result ≡ IN_USE }
    ensures none { is_in_use members.old ≡ false → IsNone (decoded_as.config_in config.now) → result ≡ NO_CONFIG }
    ensures many { is_in_use members.old ≡ false → 256 ≤ length members.old →
        IfSome (decoded_as.config_in config.now) (λ c. result ≡ BAD_CAPACITY) }
    ensures fault { is_in_use members.old ≡ false → length members.old < 256 →
        IfSome (decoded_as.config_in config.now) (λ c.
        IfSome (board_fault c (length members.old)) (λ fault. result ≡ fault_number fault)) }
    ensures memory { is_in_use members.old ≡ false → length members.old < 256 →
        IfSome (decoded_as.config_in config.now) (λ c.
        board_fault c (length members.old) ≡ None → 0 < result → result ≡ NO_MEMORY) }
{
    if is_in_use(members) {
        return IN_USE;
    }
    let Some(decoded) = config_in(config) else {
        return NO_CONFIG;
    };
    let reserve = reserve_in(BOARD_RESERVE, config);
    fill(alloc, members, identity, decoded, reserve)
}

/// Calls a command of the handle's member on its board, and writes its receipt. The struct's `member` isn't read.
///
/// It answers `NO_COMMAND` for a struct that is no command, `BUSY` where another call had the board at each try,
/// `CLOSED`, `FULL` where no call is left to the member, `BEHIND` or `OVERTAKEN`.
#[unsafe(no_mangle)]
pub extern "C" fn callauction_board_call(
    member: &mut AuctionMember,
    command: &AuctionCommand,
    receipt: &mut AuctionReceipt,
) -> u32
    ensures done { result ≡ 0 → IsSomeAnd (decoded_as.command_in command.now) (λ c.
        HoldsAfter (RecordsCall member.old.reserve c receipt.new) member.old.boxed.value member.new.boxed.value) }
    ensures terms { KeepsMemberTerms member.old member.new }
    ensures fault { 0 < result → receipt.new ≡ receipt.old }
    ensures member { 0 < result → result ≢ FULL → member.new.boxed.value ≡ member.old.boxed.value }
    ensures missing { IfNone member.old.boxed.value (result ≡ NO_MEMBER) }
    ensures none { IfSome member.old.boxed.value (λ m.
        IfNone (decoded_as.command_in command.now) (result ≡ NO_COMMAND)) }
    ensures error { IfSome member.old.boxed.value (λ m. IfSome (decoded_as.command_in command.now) (λ c.
        0 < result → IsCallError result)) }
    ensures full { result ≡ FULL →
        HoldsAfter (FindsFull member.old.reserve) member.old.boxed.value member.new.boxed.value }
    ensures out_of_step { result ≡ BEHIND → IsSomeAnd member.old.boxed.value IsOutOfStepWithBoard }
{
    if !member.is_open {
        return NO_MEMBER;
    }
    let Some(decoded) = command_in(command) else {
        return NO_COMMAND;
    };
    let reserve = member.reserve;
    call_one(member.boxed.get_mut(), decoded, reserve, receipt)
}

/// Calls commands of the handle's member one after another, each as `callauction_board_call`, up to the first error,
/// which it answers. No other call comes between them. It writes the receipts of those that were recorded, and how many
/// they are.
///
/// It answers `BAD_LENGTH` where there aren't as many receipts as commands; else `BUSY` where another call had the
/// board at each try, or `CLOSED`, and then calls none; else the first error of a command.
#[unsafe(no_mangle)]
pub extern "C" fn callauction_board_apply_many(
    member: &mut AuctionMember,
    commands: &[AuctionCommand],
    receipts: &mut [AuctionReceipt],
    applied: &mut usize,
) -> u32
    ensures called { IsSome member.old.boxed.value → length receipts.old ≡ length commands.now →
        HoldsAfter (CallsMany member.old.reserve commands.now receipts.new applied.new result)
        member.old.boxed.value member.new.boxed.value }
    ensures terms { KeepsMemberTerms member.old member.new }
    ensures length { IsSome member.old.boxed.value → length receipts.old ≢ length commands.now →
        (result ≡ BAD_LENGTH) × (applied.new ≡ 0) × (member.new.boxed.value ≡ member.old.boxed.value) }
    ensures missing { IfNone member.old.boxed.value
        ((result ≡ NO_MEMBER) × (applied.new ≡ 0) × (member.new.boxed.value ≡ None)) }
    ensures rest { IsSameFrom applied.new receipts.old receipts.new }
{
    *applied = 0;
    if !member.is_open {
        return NO_MEMBER;
    }
    if receipts.len() != commands.len() {
        return BAD_LENGTH;
    }
    let reserve = member.reserve;
    call_many(member.boxed.get_mut(), reserve, commands, receipts, applied)
}

/// Shows the handle's member how many calls there were, and the display after them. It takes no lock.
#[unsafe(no_mangle)]
pub extern "C" fn callauction_board_look(
    member: &mut AuctionMember,
    shown: &mut AuctionShown,
) -> u32
    ensures done { result ≡ 0 → HoldsAfter (ShowsDisplay shown.new) member.old.boxed.value member.new.boxed.value }
    ensures terms { KeepsMemberTerms member.old member.new }
    ensures none { 0 < result → (member.old.boxed.value ≡ None) × (result ≡ NO_MEMBER) }
    ensures fault { 0 < result → (member.new.boxed.value ≡ member.old.boxed.value) × (shown.new ≡ shown.old) }
{
    if !member.is_open {
        return NO_MEMBER;
    }
    look_one(member.boxed.get_mut(), shown);
    DONE
}

/// Copies the shares bid and offered by the orders that count, tick by tick, after as many calls as it writes, all of
/// which the member has seen then.
#[unsafe(no_mangle)]
pub extern "C" fn callauction_board_ladder(
    member: &mut AuctionMember,
    bids: &mut [u64],
    asks: &mut [u64],
    market: &mut AuctionMarketOrders,
    calls: &mut u32,
) -> u32
    ensures asked { AsksBoard (ShowsLadder bids.new asks.new market.new calls.new)
        (λ m error. IsLadderError m (length bids.old) (length asks.old) error) member.old member.new result }
    ensures length { IfSome member.old.boxed.value (λ m. result ≡ 0 →
        ladder_error (ticks_of m.board.config) (length bids.old) (length asks.old) ≡ 0) }
    ensures arrays { 0 < result → (bids.new ≡ bids.old) × (asks.new ≡ asks.old) }
    ensures numbers { 0 < result → (market.new ≡ market.old) × (calls.new ≡ calls.old) }
{
    if !member.is_open {
        return NO_MEMBER;
    }
    show_ladder(member.boxed.get_mut(), bids, asks, market, calls)
}

/// Copies the trades of the day after the first `seen` of them, as many as there is room for, after as many calls as it
/// writes, all of which the member has seen then.
#[unsafe(no_mangle)]
pub extern "C" fn callauction_board_trades(
    member: &mut AuctionMember,
    seen: usize,
    trades: &mut [AuctionTrade],
    copied: &mut usize,
    calls: &mut u32,
) -> u32
    ensures asked { AsksBoard (ShowsTrades seen trades.old trades.new copied.new calls.new) IsShowError
        member.old member.new result }
    ensures same { 0 < result → (trades.new ≡ trades.old) × (copied.new ≡ copied.old) × (calls.new ≡ calls.old) }
{
    if !member.is_open {
        return NO_MEMBER;
    }
    show_trades(member.boxed.get_mut(), seen, trades, copied, calls)
}

/// Makes the other handle hold an auction of its own, a copy of the board's after all calls, which the member has seen
/// then, with the board's reserve. Where it holds an auction of the board's bounds and room already, that one is
/// written over, and no memory is taken.
///
/// Where the other handle holds an auction of other bounds or room it answers `IN_USE`; else `BUSY` or `CLOSED`; else
/// `NO_MEMORY`, where the other handle holds none and memory is refused; else `BEHIND`.
#[unsafe(no_mangle)]
pub extern "C" fn callauction_board_clone(
    alloc: Global,
    member: &mut AuctionMember,
    other: &mut AuctionHandle,
) -> u32
    ensures done { result ≡ 0 → IsSomeAnd other.new.boxed.value (λ a.
        HoldsAfter (IsClone a) member.old.boxed.value member.new.boxed.value) }
    ensures terms { KeepsMemberTerms member.old member.new }
    ensures fault { 0 < result → member.new.boxed.value ≡ member.old.boxed.value }
    ensures copied { result ≡ 0 → other.new.reserve ≡ member.old.reserve }
    ensures refused { 0 < result →
        (other.new.boxed.value ≡ other.old.boxed.value) × (other.new.reserve ≡ other.old.reserve) }
    ensures missing { IfNone member.old.boxed.value (result ≡ NO_MEMBER) }
    ensures busy { IfSome member.old.boxed.value (λ m. IfSome other.old.boxed.value (λ a.
        limits.has_same_limits m.board.config a.config ≡ false → result ≡ IN_USE)) }
    ensures reused { IfSome member.old.boxed.value (λ m. IfSome other.old.boxed.value (λ a.
        limits.has_same_limits m.board.config a.config ≡ true → 0 < result → IsShowError m result)) }
    ensures fresh { IfSome member.old.boxed.value (λ m. IfNone other.old.boxed.value (
        0 < result → IsListError m result)) }
    ensures other_clients { other.new.clients ≡ other.old.clients }
{
    if !member.is_open {
        return NO_MEMBER;
    }
    let reserve = member.reserve;
    if other.is_open {
        let error = clone_over_same(member.boxed.get_mut(), other.boxed.get_mut());
        if error != DONE {
            return error;
        }
        other.reserve = reserve;
        return DONE;
    }
    match cloned(alloc, member.boxed.get_mut()) {
        Ok(copy) => {
            other.hold_boxed(copy, reserve);
            DONE
        }
        Err(error) => error,
    }
}

/// Writes where the board's day is: the current auction, whether its call phase was extended, the reference price, and
/// the calls, all of which the member has seen then.
#[unsafe(no_mangle)]
pub extern "C" fn callauction_board_state(
    member: &mut AuctionMember,
    state: &mut AuctionDayState,
) -> u32
    ensures asked { AsksBoard (ShowsState member.old.reserve state.new) IsShowError member.old member.new result }
    ensures same { 0 < result → state.new ≡ state.old }
{
    if !member.is_open {
        return NO_MEMBER;
    }
    let reserve = member.reserve;
    show_state(member.boxed.get_mut(), reserve, state)
}

/// Copies the entries of the board's history after the first `seen` of them, as many as there is room for. The member
/// has seen all calls then.
#[unsafe(no_mangle)]
pub extern "C" fn callauction_board_history(
    member: &mut AuctionMember,
    seen: usize,
    entries: &mut [AuctionEntry],
    copied: &mut usize,
) -> u32
    ensures asked { AsksBoard (ShowsEntries seen entries.old entries.new copied.new) IsShowError
        member.old member.new result }
    ensures same { 0 < result → (entries.new ≡ entries.old) × (copied.new ≡ copied.old) }
{
    if !member.is_open {
        return NO_MEMBER;
    }
    show_entries(member.boxed.get_mut(), seen, entries, copied)
}

/// Writes how many calls of the handle's member were recorded.
#[unsafe(no_mangle)]
pub extern "C" fn callauction_board_calls(member: &mut AuctionMember, calls: &mut u32) -> u32
    ensures done { result ≡ 0 → IsSomeAnd member.old.boxed.value (λ m. calls.new ≡ m.view.calls) }
    ensures none { 0 < result → (member.old.boxed.value ≡ None) × (result ≡ NO_MEMBER) × (calls.new ≡ calls.old) }
    ensures member { IsMemberUnchanged member.old member.new }
{
    if !member.is_open {
        return NO_MEMBER;
    }
    *calls = member.boxed.get_mut().calls();
    DONE
}

/// Writes what the board was opened with.
#[unsafe(no_mangle)]
pub extern "C" fn callauction_board_config_of(
    member: &mut AuctionMember,
    config: &mut AuctionConfig,
) -> u32
    ensures done { result ≡ 0 →
        IsSomeAnd member.old.boxed.value (λ m.
        config.new ≡ encoded_as.config_out m.board.config member.old.reserve) }
    ensures none { 0 < result → (member.old.boxed.value ≡ None) × (result ≡ NO_MEMBER) × (config.new ≡ config.old) }
    ensures member { IsMemberUnchanged member.old member.new }
{
    if !member.is_open {
        return NO_MEMBER;
    }
    let reserve = member.reserve;
    *config = config_out(member.boxed.get_mut().config(), reserve);
    DONE
}

/// Closes a board, of which the handles hold all members in the order of their numbers, and writes the history, how
/// many entries that has, and each member's count of them. The handles hold their members still; their calls answer
/// `CLOSED` now.
///
/// It answers `BAD_LENGTH` where there is no handle; else `NO_MEMBER` where the first holds none; else `BAD_LENGTH`
/// where the history has room for fewer than `max_calls` entries, or the counts aren't as many as the members; else
/// `BUSY` where a call has the board, or `CLOSED` at a second close; else `MISSING_MEMBER` where the handles aren't as
/// many as the members; else the error of the first handle that has one: `NO_MEMBER`, `MISSING_MEMBER` where its member
/// is one of another board than the first, or has another number than its place, `BEHIND` where the account isn't one
/// of the history.
#[unsafe(no_mangle)]
pub extern "C" fn callauction_board_close(
    members: &mut [AuctionMember],
    entries: &mut [AuctionEntry],
    counts: &mut [u32],
    written: &mut usize,
) -> u32
    requires identities { (boards : ℕ → OpenedBoard) × AreOfBoards boards members.old }
    ensures same { members.new ≡ members.old }
    ensures done { result ≡ 0 →
        (board : OpenedBoard) × WritesClosing board members.old entries.old entries.new counts.new written.new }
    ensures fault { 0 < result →
        (entries.new ≡ entries.old) × (counts.new ≡ counts.old) × (written.new ≡ written.old) }
    ensures empty { length members.old ≡ 0 → result ≡ BAD_LENGTH }
    ensures missing { 0 < length members.old → IfNone (first_boxed members.old) (result ≡ NO_MEMBER) }
    ensures length { IfSome (first_boxed members.old) (λ m.
        lacks_room m.board (length entries.old) (length counts.old) ≡ true → result ≡ BAD_LENGTH) }
    ensures error { IfSome (first_boxed members.old) (λ m.
        lacks_room m.board (length entries.old) (length counts.old) ≡ false → 0 < result →
        IsCloseError m.board members.old result) }
{
    close_all(members, entries, counts, written)
}

/// Gives up the handle's member, and the board with the last of its members.
#[unsafe(no_mangle)]
pub extern "C" fn callauction_board_leave(alloc: Global, member: &mut AuctionMember) -> u32
    ensures member { member.new.boxed.value ≡ None }
    ensures none { IfNone member.old.boxed.value (result ≡ NO_MEMBER) }
    ensures done { IfSome member.old.boxed.value (λ m. result ≡ DONE) }
    ensures clients { member.new.clients ≡ member.old.clients }
{
    match member.take(alloc) {
        Some(_member) => DONE,
        None => NO_MEMBER,
    }
}
