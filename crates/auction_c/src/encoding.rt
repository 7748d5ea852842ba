//! Replies, displays, trades and configs as C reads them.
ghost use Rattle.std.specs.Prelude.{◌≡◌, Some, ℕ};
ghost use Rattle.auction_c.specs.Decoding as decoded_as;
ghost use Rattle.auction_c.specs.Encoding as encoded_as;
ghost use Rattle.auction_c.specs.ReadBack.{reply_back};

use crate::structs::{AuctionConfig, AuctionDayState, AuctionOrder, AuctionReply, AuctionTrade};
use auction::Auction;
use auction_terms::{
    AuctionKind, Config, Display, Limit, OpenOrder, Price, Reply, Restriction, Side, Trade,
};

pub(crate) fn side_out(side: Side) -> u8
    ensures { result ≡ encoded_as.side_out side }
{
    match side {
        Side::Bid => 1,
        Side::Ask => 2,
    }
}

fn surplus_side_out(side: Option<Side>) -> u8
    ensures { result ≡ encoded_as.surplus_side_out side }
{
    match side {
        None => 0,
        Some(side) => side_out(side),
    }
}

fn auction_kind_out(kind: AuctionKind) -> u8
    ensures { result ≡ encoded_as.auction_kind_out kind }
{
    match kind {
        AuctionKind::Opening => 1,
        AuctionKind::Intraday => 2,
        AuctionKind::Closing => 3,
    }
}

fn tagged(tag: u8) -> AuctionReply
    ensures { result ≡ encoded_as.tagged tag }
{
    AuctionReply {
        quantity: 0,
        visible: 0,
        volume: 0,
        surplus: 0,
        id: 0,
        ask: 0,
        tick: 0,
        trades: 0,
        best_bid: 0,
        best_ask: 0,
        tag,
        side: 0,
        auction: 0,
        kept: 0,
        refusal: 0,
        has_tick: 0,
        has_best_bid: 0,
        has_best_ask: 0,
    }
}

fn price_out(tag: u8, price: Price) -> AuctionReply
    ensures { result ≡ encoded_as.price_out tag price }
{
    AuctionReply {
        tick: price.tick,
        has_tick: 1,
        side: surplus_side_out(price.side),
        volume: price.volume,
        surplus: price.surplus,
        ..tagged(tag)
    }
}

/// What is shown, as a reply with tag 5 or 6.
pub(crate) fn display_out(shown: Display) -> AuctionReply
    ensures { result ≡ encoded_as.display_out shown }
{
    match shown {
        Display::Priced(price) => price_out(5, price),
        Display::Unpriced { best_bid, best_ask } => AuctionReply {
            has_best_bid: u8::from(best_bid.is_some()),
            best_bid: best_bid.unwrap_or(0),
            has_best_ask: u8::from(best_ask.is_some()),
            best_ask: best_ask.unwrap_or(0),
            ..tagged(6)
        },
    }
}

fn uncrossed_out(kind: AuctionKind, trades: u32, price: Option<Price>) -> AuctionReply
    ensures { result ≡ encoded_as.uncrossed_out kind trades price }
{
    match price {
        None => AuctionReply {
            auction: auction_kind_out(kind),
            trades,
            ..tagged(8)
        },
        Some(price) => AuctionReply {
            auction: auction_kind_out(kind),
            trades,
            ..price_out(8, price)
        },
    }
}

fn open_order_out(side: Side, limit: Limit, quantity: u64, visible: u64) -> AuctionReply
    ensures { result ≡ encoded_as.open_order_out side limit quantity visible }
{
    let (has_tick, tick) = match limit {
        Limit::Market => (0, 0),
        Limit::At(tick) => (1, tick),
    };
    AuctionReply {
        side: side_out(side),
        has_tick,
        tick,
        quantity,
        visible,
        ..tagged(4)
    }
}

/// A reply as C reads it. No two replies are the same there.
pub(crate) fn reply_out(reply: &Reply) -> AuctionReply
    ensures value { result ≡ encoded_as.reply_out reply.now }
    ensures reads_back { reply_back result ≡ reply.now }
{
    match *reply {
        Reply::Entered { id } => AuctionReply { id, ..tagged(1) },
        Reply::Changed { kept } => AuctionReply {
            kept: u8::from(kept),
            ..tagged(2)
        },
        Reply::Deleted => tagged(3),
        Reply::OpenOrder {
            side,
            limit,
            quantity,
            visible,
        } => open_order_out(side, limit, quantity, visible),
        Reply::Indicated(shown) => display_out(shown),
        Reply::Traded(trade) => AuctionReply {
            id: trade.bid,
            ask: trade.ask,
            tick: trade.tick,
            quantity: trade.quantity,
            ..tagged(7)
        },
        Reply::Uncrossed {
            kind,
            trades,
            price,
        } => uncrossed_out(kind, trades, price),
        Reply::Interrupted(price) => price_out(9, price),
        Reply::Refused(reason) => AuctionReply {
            refusal: reason.number(),
            ..tagged(10)
        },
    }
}

pub(crate) fn restriction_out(restriction: Restriction) -> u8
    ensures { result ≡ encoded_as.restriction_out restriction }
{
    match restriction {
        Restriction::Unrestricted => 0,
        Restriction::OpeningOnly => 1,
        Restriction::ClosingOnly => 2,
    }
}

/// An open order as C reads it.
pub(crate) fn order_out(listed: OpenOrder) -> AuctionOrder
    ensures { result ≡ encoded_as.order_out listed }
{
    let order = listed.order;
    let tick = order.tick();
    AuctionOrder {
        quantity: order.quantity,
        visible: listed.visible,
        filled: listed.filled,
        peak: order.peak.unwrap_or(0),
        client: 0,
        id: order.id,
        limit: tick.unwrap_or(0),
        member: order.member,
        side: side_out(order.side),
        restriction: restriction_out(order.restriction),
        has_limit: u8::from(tick.is_some()),
        has_peak: u8::from(order.peak.is_some()),
    }
}

/// A trade as C reads it.
pub(crate) fn trade_out(trade: Trade) -> AuctionTrade
    ensures { result ≡ encoded_as.trade_out trade }
{
    AuctionTrade {
        quantity: trade.quantity,
        bid: trade.bid,
        ask: trade.ask,
        tick: trade.tick,
    }
}

fn current_auction_out(current: Option<AuctionKind>) -> u8
    ensures { result ≡ encoded_as.current_auction_out current }
{
    match current {
        None => 0,
        Some(kind) => auction_kind_out(kind),
    }
}

/// Where the day of an auction is, as C reads it, of which the last `reserve` calls are the operator's.
pub(crate) fn state_out(auction: &Auction, reserve: u32) -> AuctionDayState
    ensures { result ≡ encoded_as.state_out reserve auction.now }
{
    let current = auction.current();
    let calls = auction.calls();
    let calls_left = auction.config().max_calls - calls;
    AuctionDayState {
        reference: auction.reference(),
        calls,
        calls_left,
        calls_left_to_members: calls_left.saturating_sub(reserve),
        auction: current_auction_out(current),
        in_call: u8::from(current.is_some()),
        extended: u8::from(auction.is_extended()),
    }
}

/// A config and a reserve as C reads them. They read back as these.
pub(crate) fn config_out(config: Config, reserve: u32) -> AuctionConfig
    ensures value { result ≡ encoded_as.config_out config reserve }
    ensures reads_back { decoded_as.config_in result ≡ Some config }
    ensures reserve_back { (usual : ℕ) → decoded_as.reserve_in usual result ≡ reserve }
{
    AuctionConfig {
        low: config.low,
        high: config.high,
        reference: config.reference,
        max_open: config.max_open,
        max_calls: config.max_calls,
        has_range: u32::from(config.range.is_some()),
        range: config.range.unwrap_or(0),
        has_reserve: 1,
        reserve,
    }
}
