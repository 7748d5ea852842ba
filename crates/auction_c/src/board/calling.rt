//! A member's call and its look.
ghost use Rattle.std.specs.Prelude.{◌≡◌, ◌≢◌, ◌<◌};
ghost use Rattle.auction_c.specs.declared.errors.TheConstants.{BEHIND, FULL};
ghost use Rattle.auction_c.specs.BoardCalls.{FindsFull, IsOutOfStepWithBoard, IsCallError, RecordsCall, ShowsDisplay};

use crate::encoding::{display_out, reply_out};
use crate::errors::{DONE, FULL, board_fault_out};
use crate::structs::{AuctionReceipt, AuctionShown};
use auction_terms::Command;
use board_terms::Shown;
use shared_board::SharedMember;

/// Calls the command, and writes its receipt.
pub(crate) fn call_one(
    member: &mut SharedMember,
    command: Command,
    reserve: u32,
    receipt: &mut AuctionReceipt,
) -> u32
    ensures done { result ≡ 0 → RecordsCall reserve command receipt.new member.old member.new }
    ensures fault { 0 < result → receipt.new ≡ receipt.old }
    ensures same { 0 < result → result ≢ FULL → member.new ≡ member.old }
    ensures board { member.new.board ≡ member.old.board }
    ensures error { 0 < result → IsCallError result }
    ensures full { result ≡ FULL → FindsFull reserve member.old member.new }
    ensures out_of_step { result ≡ BEHIND → IsOutOfStepWithBoard member.old }
{
    match member.call(command, reserve) {
        Ok(answer) => {
            *receipt = AuctionReceipt {
                reply: reply_out(&answer.reply),
                number: answer.number,
            };
            DONE
        }
        Err(fault) => board_fault_out(fault),
    }
}

/// Shows the member how many calls there were, and the display after them.
pub(crate) fn look_one(member: &mut SharedMember, shown: &mut AuctionShown)
    ensures { ShowsDisplay shown.new member.old member.new }
{
    let Shown { calls, display } = member.look();
    *shown = AuctionShown {
        display: display_out(display),
        calls,
    };
}
