//! The entries in structs that come from C.
ghost use Rattle.std.specs.Prelude.{◌≡◌};
ghost use Rattle.auction_c.specs.Journals as recorded_as;
ghost use Rattle.auction_c.specs.JournalReading.{price_if_any};
ghost use Rattle.auction_c.specs.ReadBack as read;

use crate::decoding::command_in;
use crate::encoding::reply_out;
use crate::structs::{AuctionCommand, AuctionEntry, AuctionReply};
use auction_terms::{
    AuctionKind, Command, Display, Entry, Limit, MAX_MEMBERS, Price, Refusal, Reply, Side, Trade,
};

// ---- commands

fn fits_32_bits(number: u64) -> bool
    ensures { result ≡ recorded_as.fits_32_bits number }
{
    number < 4_294_967_296
}

fn fits_32_bits_if_any(number: Option<u64>) -> bool
    ensures { result ≡ recorded_as.fits_32_bits_if_any number }
{
    match number {
        None => true,
        Some(number) => fits_32_bits(number),
    }
}

// Whether a record holds each number of the command.
fn fits_record(command: Command) -> bool
    ensures { result ≡ recorded_as.fits_record command }
{
    match command {
        Command::Enter { quantity, peak, .. } => fits_32_bits(quantity)
            && fits_32_bits_if_any(peak),
        Command::Change { quantity, .. } => fits_32_bits(quantity),
        _ => true,
    }
}

// The command in a struct that a record can hold, of one of the members that a board may have.
fn recordable_command(command: &AuctionCommand) -> Option<Command>
    ensures { result ≡ recorded_as.recordable_command command.now }
{
    let decoded = command_in(command)?;
    if command.member < MAX_MEMBERS && fits_record(decoded) {
        return Some(decoded);
    }
    None
}

// ---- replies

fn bid_or_ask_back(side: u8) -> Side
    ensures { result ≡ read.bid_or_ask_back side }
{
    if side == 1 { Side::Bid } else { Side::Ask }
}

fn surplus_side_back(side: u8) -> Option<Side>
    ensures { result ≡ read.surplus_side_back side }
{
    if side == 0 {
        return None;
    }
    Some(bid_or_ask_back(side))
}

fn auction_back(kind: u8) -> AuctionKind
    ensures { result ≡ read.auction_back kind }
{
    match kind {
        1 => AuctionKind::Opening,
        2 => AuctionKind::Intraday,
        _ => AuctionKind::Closing,
    }
}

fn refusal_back(number: u8) -> Refusal
    ensures { result ≡ read.refusal_back number }
{
    match number {
        1 => Refusal::BadQuantity,
        2 => Refusal::BadLimit,
        3 => Refusal::BadPeak,
        4 => Refusal::BookFull,
        5 => Refusal::UnknownOrder,
        6 => Refusal::NotOperator,
        7 => Refusal::DayOver,
        8 => Refusal::NoSuchTrade,
        _ => Refusal::PastAuction,
    }
}

fn tick_back(flag: u8, tick: u32) -> Option<u32>
    ensures { result ≡ read.tick_back flag tick }
{
    if flag == 1 { Some(tick) } else { None }
}

fn limit_back(flag: u8, tick: u32) -> Limit
    ensures { result ≡ read.limit_back flag tick }
{
    if flag == 1 {
        Limit::At(tick)
    } else {
        Limit::Market
    }
}

fn price_back(reply: &AuctionReply) -> Price
    ensures { result ≡ read.price_back reply.now }
{
    Price {
        tick: reply.tick,
        side: surplus_side_back(reply.side),
        volume: reply.volume,
        surplus: reply.surplus,
    }
}

fn price_if_any(reply: &AuctionReply) -> Option<Price>
    ensures { result ≡ price_if_any reply.now }
{
    if reply.has_tick == 1 {
        return Some(price_back(reply));
    }
    None
}

// The reply that a struct says, if it was written for one.
fn reply_back(reply: &AuctionReply) -> Reply
    ensures { result ≡ read.reply_back reply.now }
{
    match reply.tag {
        1 => Reply::Entered { id: reply.id },
        2 => Reply::Changed {
            kept: reply.kept == 1,
        },
        3 => Reply::Deleted,
        4 => Reply::OpenOrder {
            side: bid_or_ask_back(reply.side),
            limit: limit_back(reply.has_tick, reply.tick),
            quantity: reply.quantity,
            visible: reply.visible,
        },
        5 => Reply::Indicated(Display::Priced(price_back(reply))),
        6 => Reply::Indicated(Display::Unpriced {
            best_bid: tick_back(reply.has_best_bid, reply.best_bid),
            best_ask: tick_back(reply.has_best_ask, reply.best_ask),
        }),
        7 => Reply::Traded(Trade {
            bid: reply.id,
            ask: reply.ask,
            tick: reply.tick,
            quantity: reply.quantity,
        }),
        8 => Reply::Uncrossed {
            kind: auction_back(reply.auction),
            trades: reply.trades,
            price: price_if_any(reply),
        },
        9 => Reply::Interrupted(price_back(reply)),
        _ => Reply::Refused(refusal_back(reply.refusal)),
    }
}

// Whether the text of an uncross says of all its trades: without a price it says of none.
fn is_printed_uncross(trades: u32, price: Option<Price>) -> bool
    ensures { result ≡ recorded_as.is_printed_uncross trades price }
{
    match price {
        None => trades == 0,
        Some(_) => true,
    }
}

// Whether the text of the reply says all of it.
fn is_fully_printed(reply: Reply) -> bool
    ensures { result ≡ recorded_as.is_fully_printed reply }
{
    match reply {
        Reply::Uncrossed { trades, price, .. } => is_printed_uncross(trades, price),
        _ => true,
    }
}

// The reply that is written as this struct, if there is one, and if its text says all of it.
#[tactic(auto, unfolding(crate::specs::Journals::decoded_reply))]
fn decoded_reply(reply: &AuctionReply) -> Option<Reply>
    ensures { result ≡ recorded_as.decoded_reply reply.now }
{
    let back = reply_back(reply);
    if reply_out(&back) == *reply && is_fully_printed(back) {
        return Some(back);
    }
    None
}

/// The entry in a struct that a journal can hold, if there is one.
#[tactic(auto, unfolding(crate::specs::Journals::decoded_entry))]
pub(crate) fn decoded_entry(entry: &AuctionEntry) -> Option<Entry>
    ensures { result ≡ recorded_as.decoded_entry entry.now }
{
    let command = recordable_command(&entry.command)?;
    let reply = decoded_reply(&entry.reply)?;
    Some(Entry {
        member: entry.command.member,
        command,
        reply,
    })
}
