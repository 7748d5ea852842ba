//! Many calls of a member, with the board's lock held all the while.
ghost use Rattle.std.specs.Prelude.{◌≡◌, ◌<◌, ◌+◌, length};
ghost use Rattle.auction_c.specs.ManyCalls.{CallsMany, IsSameFrom, RecordsMany, RecordsStruct, StopsAfter, StopsStruct};

use crate::board::taking::take_locked;
use crate::decoding::command_in;
use crate::encoding::reply_out;
use crate::errors::{DONE, NO_COMMAND, board_fault_out};
use crate::structs::{AuctionCommand, AuctionReceipt};
use shared_board::{BoardFault, SharedMember, TakenBoard};

// Calls the command in the struct, and writes its receipt.
fn call_struct(
    member: &mut SharedMember,
    locked: &mut TakenBoard,
    reserve: u32,
    command: &AuctionCommand,
    receipt: &mut AuctionReceipt,
) -> u32
    requires { locked.old.board ≡ member.old.board }
    ensures board { locked.new.board ≡ member.new.board }
    ensures done { result ≡ 0 → RecordsStruct reserve command.now receipt.new member.old member.new }
    ensures number { result ≡ 0 → receipt.new.number ≡ length locked.old.history + 1 }
    ensures count { result ≡ 0 → length locked.new.history ≡ length locked.old.history + 1 }
    ensures stop { 0 < result → StopsStruct reserve command.now result member.old member.new }
    ensures same { 0 < result → receipt.new ≡ receipt.old }
{
    let Some(decoded) = command_in(command) else {
        return NO_COMMAND;
    };
    match member.call_taken(locked, decoded, reserve) {
        Ok(answer) => {
            *receipt = AuctionReceipt {
                reply: reply_out(&answer.reply),
                number: answer.number,
            };
            DONE
        }
        Err(fault) => board_fault_out(BoardFault::Call(fault)),
    }
}

// Calls the commands one after another up to the first error, which it answers, and says how many were recorded.
fn call_each(
    member: &mut SharedMember,
    locked: &mut TakenBoard,
    reserve: u32,
    commands: &[AuctionCommand],
    receipts: &mut [AuctionReceipt],
    applied: &mut usize,
) -> u32
    requires board { locked.old.board ≡ member.old.board }
    requires length { length receipts.old ≡ length commands.now }
    ensures board { locked.new.board ≡ member.new.board }
    ensures all { result ≡ 0 → applied.new ≡ length commands.now }
    ensures done { result ≡ 0 → RecordsMany reserve commands.now receipts.new applied.new member.old member.new }
    ensures stop { 0 < result → StopsAfter reserve commands.now receipts.new applied.new result member.old member.new }
    ensures rest { IsSameFrom applied.new receipts.old receipts.new }
{
    for i in 0..commands.len() {
        let error = call_struct(member, locked, reserve, &commands[i], &mut receipts[i]);
        if error != DONE {
            *applied = i;
            return error;
        }
    }
    *applied = commands.len();
    DONE
}

/// Calls the commands one after another up to the first error, with no other call between, writes the receipts of those
/// that were recorded, and says how many they are.
pub(crate) fn call_many(
    member: &mut SharedMember,
    reserve: u32,
    commands: &[AuctionCommand],
    receipts: &mut [AuctionReceipt],
    applied: &mut usize,
) -> u32
    requires count { applied.old ≡ 0 }
    requires length { length receipts.old ≡ length commands.now }
    ensures called { CallsMany reserve commands.now receipts.new applied.new result member.old member.new }
    ensures rest { IsSameFrom applied.new receipts.old receipts.new }
{
    let mut locked = match take_locked(member) {
        Ok(locked) => locked,
        Err(error) => return error,
    };
    let error = call_each(member, &mut locked, reserve, commands, receipts, applied);
    member.give_called(locked);
    error
}
