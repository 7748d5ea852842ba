//! Commands and entries of a history as C reads them.
ghost use Rattle.std.specs.Prelude.{◌≡◌, is_some, unwrap_or};
ghost use Rattle.auction_terms.specs.Book.{tick_of};
ghost use Rattle.auction_c.specs.Encoding as encoded_as;

use crate::encoding::{reply_out, restriction_out, side_out};
use crate::structs::{AuctionCommand, AuctionEntry};
use auction_terms::{Command, Entry, Limit};

fn limit_out(limit: Limit) -> (u8, u32)
    ensures flag { result.0 ≡ encoded_as.flag_out (is_some (tick_of limit)) }
    ensures tick { result.1 ≡ unwrap_or (tick_of limit) 0 }
{
    match limit {
        Limit::Market => (0, 0),
        Limit::At(tick) => (1, tick),
    }
}

fn command_tagged(member: u8, tag: u8, id: u32) -> AuctionCommand
    ensures { result ≡ encoded_as.command_tagged member tag id }
{
    AuctionCommand {
        quantity: 0,
        peak: 0,
        client: 0,
        id,
        limit: 0,
        member,
        tag,
        side: 0,
        restriction: 0,
        has_limit: 0,
        has_peak: 0,
    }
}

/// A member's command as C reads it.
fn command_out(member: u8, command: Command) -> AuctionCommand
    ensures { result ≡ encoded_as.command_out member command }
{
    match command {
        Command::Enter {
            side,
            restriction,
            limit,
            quantity,
            peak,
        } => {
            let (has_limit, limit) = limit_out(limit);
            AuctionCommand {
                side: side_out(side),
                restriction: restriction_out(restriction),
                has_limit,
                limit,
                quantity,
                has_peak: u8::from(peak.is_some()),
                peak: peak.unwrap_or(0),
                ..command_tagged(member, 1, 0)
            }
        }
        Command::Change {
            id,
            limit,
            quantity,
        } => {
            let (has_limit, limit) = limit_out(limit);
            AuctionCommand {
                has_limit,
                limit,
                quantity,
                ..command_tagged(member, 2, id)
            }
        }
        Command::Delete { id } => command_tagged(member, 3, id),
        Command::OrderStatus { id } => command_tagged(member, 4, id),
        Command::Indicate => command_tagged(member, 5, 0),
        Command::ReadTrade { number } => command_tagged(member, 6, number),
        Command::Uncross => command_tagged(member, 7, 0),
    }
}

/// An entry of a history as C reads it. It reads back as this entry.
pub(crate) fn entry_out(entry: Entry) -> AuctionEntry
    ensures { result ≡ encoded_as.entry_out entry }
{
    AuctionEntry {
        command: command_out(entry.member, entry.command),
        reply: reply_out(&entry.reply),
    }
}
