//! Commands applied, one or many.
ghost use Rattle.std.specs.Prelude.{◌≡◌, length};
ghost use Rattle.auction_c.specs.Calling.{apply_struct, apply_structs};

use crate::decoding::call_in;
use crate::encoding::reply_out;
use crate::errors::{DONE, FULL, NO_COMMAND};
use crate::structs::{AuctionCommand, AuctionReply};
use auction::Auction;
use auction_terms::Reply;

/// Applies the command, writes the reply, and answers `DONE`. Else it changes nothing, and answers `NO_COMMAND` for a
/// struct that is none, `FULL` where no call is left to the member.
pub(crate) fn apply_one(
    auction: &mut Auction,
    reserve: u32,
    command: &AuctionCommand,
    reply: &mut AuctionReply,
) -> u32
    ensures error { result ≡ (apply_struct reserve auction.old command.now reply.old).error }
    ensures auction { auction.new ≡ (apply_struct reserve auction.old command.now reply.old).auction }
    ensures reply { reply.new ≡ (apply_struct reserve auction.old command.now reply.old).reply }
{
    let decoded = call_in(command);
    let Some(call) = &decoded else {
        return NO_COMMAND;
    };
    if auction.is_full() {
        return FULL;
    }
    if auction.is_reserved_from(command.member, reserve) {
        return FULL;
    }
    let mut answered = Reply::Deleted;
    auction.answer_call(call, &mut answered);
    *reply = reply_out(&answered);
    DONE
}

/// Applies the commands one after another up to the first error, which it answers, and says how many were applied.
pub(crate) fn apply_each(
    auction: &mut Auction,
    reserve: u32,
    commands: &[AuctionCommand],
    replies: &mut [AuctionReply],
    applied: &mut usize,
) -> u32
    requires { length replies.old ≡ length commands.now }
    ensures error { result ≡ (apply_structs reserve auction.old commands.now replies.old).error }
    ensures applied { applied.new ≡ (apply_structs reserve auction.old commands.now replies.old).applied }
    ensures auction { auction.new ≡ (apply_structs reserve auction.old commands.now replies.old).auction }
    ensures replies { replies.new ≡ (apply_structs reserve auction.old commands.now replies.old).replies }
{
    for i in 0..commands.len() {
        let error = apply_one(auction, reserve, &commands[i], &mut replies[i]);
        if error != DONE {
            *applied = i;
            return error;
        }
    }
    *applied = commands.len();
    DONE
}
