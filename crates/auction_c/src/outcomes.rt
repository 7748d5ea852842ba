//! An uncross, with what it does to the orders.
ghost use Rattle.std.specs.Prelude.{◌≡◌, ◌<◌, ◌++◌, true, false, drop, length, map, min, nat_eq, slice_index, take};
ghost use Rattle.auction_c.specs.Encoding as encoded_as;
ghost use Rattle.auction_c.specs.Executed.{filled_in, outcome_in};
ghost use Rattle.auction_c.specs.Outcomes as uncrossing;
ghost use Rattle.auction_c.specs.declared.errors.TheConstants.{FULL, NO_MEMORY};

use crate::board::showing::trades_after;
use crate::encoding::{reply_out, side_out};
use crate::errors::{DONE, FULL, NO_MEMORY};
use crate::executions::{add_trades, empty_table, last_id};
use crate::structs::{AuctionOutcome, AuctionReply};
use auction::Auction;
use auction_terms::{AuctionKind, Command, OpenOrder, Order, Price, Reply, Side};
use std::alloc::Global;

// What an uncross executed of the orders, by their ids, and how it was answered.
#[derive(Drop)]
struct Uncrossing {
    bids: Vec<u64>,
    asks: Vec<u64>,
    reply: Reply,
}

impl Uncrossing {
    // The shares that it executed of an order.
    fn filled(&self, order: &Order) -> u64
        ensures { result ≡ filled_in self.now.bids.items self.now.asks.items order.now }
    {
        let executed = match order.side {
            Side::Bid => at_id(&self.bids, order.id),
            Side::Ask => at_id(&self.asks, order.id),
        };
        order.quantity.min(executed)
    }

    // Whether it executed shares of an order, or took it out.
    fn touches(&self, order: &Order) -> bool
        ensures { result ≡ uncrossing.is_touched_with self.now.reply
            (filled_in self.now.bids.items self.now.asks.items order.now) order.now }
    {
        let filled = self.filled(order);
        filled > 0 || expires(&self.reply, filled, order)
    }

    // What it did to an order.
    fn outcome(&self, order: &Order) -> AuctionOutcome
        ensures { result ≡ uncrossing.outcome_with self.now.reply
            (filled_in self.now.bids.items self.now.asks.items order.now) order.now }
    {
        let filled = self.filled(order);
        AuctionOutcome {
            filled,
            left: order.quantity - filled,
            client: 0,
            id: order.id,
            tick: executed_tick(&self.reply),
            member: order.member,
            side: side_out(order.side),
            expired: u8::from(expires(&self.reply, filled, order)),
        }
    }
}

// What a table has under an id.
fn at_id(table: &[u64], id: u32) -> u64
    ensures { result ≡ slice_index table.now id }
{
    table.get(id as usize).copied().unwrap_or(0)
}

// The auction that the uncross ended, if it did.
fn ended_auction(reply: &Reply) -> Option<AuctionKind>
    ensures { result ≡ uncrossing.ended_auction reply.now }
{
    match reply {
        Reply::Uncrossed { kind, .. } => Some(*kind),
        _ => None,
    }
}

fn tick_of_price(price: &Option<Price>) -> u32
    ensures { result ≡ uncrossing.tick_of_price price.now }
{
    match price {
        Some(found) => found.tick,
        None => 0,
    }
}

// The price at which it executed, or 0.
fn executed_tick(reply: &Reply) -> u32
    ensures { result ≡ uncrossing.executed_tick reply.now }
{
    match reply {
        Reply::Uncrossed { price, .. } => tick_of_price(price),
        _ => 0,
    }
}

// Whether the order is taken out with shares left, where as many were executed.
fn expires(reply: &Reply, filled: u64, order: &Order) -> bool
    ensures { result ≡ uncrossing.expires_with reply.now filled order.now }
{
    match ended_auction(reply) {
        Some(kind) => order.is_only_for(kind) && filled < order.quantity,
        None => false,
    }
}

// Writes what was done to orders for C, as many as there is room for, and answers how many.
fn copy_outcomes(done: &Uncrossing, touched: &[OpenOrder], to: &mut [AuctionOutcome]) -> usize
    ensures count { result ≡ min (length touched.now) (length to.old) }
    ensures copied { to.new
        ≡ map (outcome_in done.now.reply done.now.bids.items done.now.asks.items) (take result touched.now)
        ++ drop result to.old }
{
    let most = touched.len().min(to.len());
    for i in 0..most {
        to[i] = done.outcome(&touched[i].order);
    }
    most
}

/// Uncrosses the auction, writes the reply and what is done to the orders, as many as there is room for and how many,
/// and answers `DONE`. Else it changes nothing, and answers `FULL` or `NO_MEMORY`.
pub(crate) fn uncross_one(
    alloc: Global,
    auction: &mut Auction,
    reply: &mut AuctionReply,
    outcomes: &mut [AuctionOutcome],
    copied: &mut usize,
) -> u32
    ensures auction { result ≡ 0 → auction.new ≡ uncrossing.after_uncross auction.old }
    ensures reply { result ≡ 0 → reply.new ≡ encoded_as.reply_out (uncrossing.uncross_reply auction.old) }
    ensures copied { result ≡ 0 → copied.new ≡ min (length (uncrossing.outcomes auction.old)) (length outcomes.old) }
    ensures outcomes { result ≡ 0 → outcomes.new
        ≡ take copied.new (uncrossing.outcomes auction.old) ++ drop copied.new outcomes.old }
    ensures full { nat_eq auction.old.calls auction.old.config.max_calls ≡ true → result ≡ FULL }
    ensures error { 0 < result → nat_eq auction.old.calls auction.old.config.max_calls ≡ false → result ≡ NO_MEMORY }
    ensures unchanged { 0 < result → (auction.new ≡ auction.old) × (reply.new ≡ reply.old)
        × (outcomes.new ≡ outcomes.old) × (copied.new ≡ copied.old) }
{
    if auction.is_full() {
        return FULL;
    }
    let Ok(mut listed) = auction.open_orders(alloc, None) else {
        return NO_MEMORY;
    };
    let last = last_id(&listed);
    let Ok(mut bids) = empty_table(alloc, last) else {
        return NO_MEMORY;
    };
    let Ok(mut asks) = empty_table(alloc, last) else {
        return NO_MEMORY;
    };
    let seen = auction.tape().len();
    let answer = auction.apply(0, Command::Uncross);
    let trades = trades_after(auction.tape(), seen);
    add_trades(&mut bids, trades, Side::Bid);
    add_trades(&mut asks, trades, Side::Ask);
    let done = Uncrossing {
        bids,
        asks,
        reply: answer,
    };
    listed.retain(|one| done.touches(&one.order));
    *copied = copy_outcomes(&done, &listed, outcomes);
    *reply = reply_out(&answer);
    DONE
}
