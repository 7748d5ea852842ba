//! What an auction shows, copied into arrays of C.
ghost use Rattle.std.specs.Prelude.{◌≡◌, ◌<◌, ◌++◌, true, false, length, map, min, take, drop};
ghost use Rattle.auction.specs.OpenOrders as limits;
ghost use Rattle.auction_c.specs.Calling.{ladder_error};
ghost use Rattle.auction_c.specs.Encoding as encoded_as;
ghost use Rattle.auction_c.specs.declared.errors.TheConstants.{DONE, IN_USE};

use crate::encoding::{order_out, trade_out};
use crate::entries::entry_out;
use crate::errors::{BAD_LENGTH, DONE, IN_USE};
use crate::structs::{AuctionEntry, AuctionMarketOrders, AuctionOrder, AuctionTrade};
use auction::Auction;
use auction_terms::{Config, Entry, OpenOrder, Side, Trade};
use tick_ladder::Ladder;

/// Writes this auction over one of the same limits, and answers `DONE`. Where that has other limits it changes nothing,
/// and answers `IN_USE`.
pub(crate) fn copy_over(auction: &Auction, other: &mut Auction) -> u32
    ensures same { limits.has_same_limits auction.now.config other.old.config ≡ true →
        (result ≡ DONE) × (other.new ≡ auction.now) }
    ensures other { limits.has_same_limits auction.now.config other.old.config ≡ false →
        (result ≡ IN_USE) × (other.new ≡ other.old) }
{
    if !auction.has_same_limits(other) {
        return IN_USE;
    }
    auction.copy_into(other);
    DONE
}

/// Whether two configs have the same bounds, and room for as many orders and calls.
pub(crate) fn has_same_limits(config: Config, other: Config) -> bool
    ensures { result ≡ limits.has_same_limits config other }
{
    config.low == other.low
        && config.high == other.high
        && config.max_open == other.max_open
        && config.max_calls == other.max_calls
}

/// Writes trades for C, as many as there is room for, and answers how many.
pub(crate) fn copy_trades(trades: &[Trade], to: &mut [AuctionTrade]) -> usize
    ensures count { result ≡ min (length trades.now) (length to.old) }
    ensures copied { to.new ≡ map encoded_as.trade_out (take result trades.now) ++ drop result to.old }
{
    let most = trades.len().min(to.len());
    for i in 0..most {
        to[i] = trade_out(trades[i]);
    }
    most
}

/// Writes open orders for C, as many as there is room for, and answers how many.
pub(crate) fn copy_orders(listed: &[OpenOrder], to: &mut [AuctionOrder]) -> usize
    ensures count { result ≡ min (length listed.now) (length to.old) }
    ensures copied { to.new ≡ map encoded_as.order_out (take result listed.now) ++ drop result to.old }
{
    let most = listed.len().min(to.len());
    for i in 0..most {
        to[i] = order_out(listed[i]);
    }
    most
}

/// Writes entries of a history for C, as many as there is room for, and answers how many.
pub(crate) fn copy_entries(history: &[Entry], to: &mut [AuctionEntry]) -> usize
    ensures count { result ≡ min (length history.now) (length to.old) }
    ensures copied { to.new ≡ map encoded_as.entry_out (take result history.now) ++ drop result to.old }
{
    let most = history.len().min(to.len());
    for i in 0..most {
        to[i] = entry_out(history[i]);
    }
    most
}

/// Copies the quantities tick by tick, writes those of the market orders, and answers `DONE`. Where an array hasn't as
/// many places as there are ticks it changes nothing, and answers `BAD_LENGTH`.
pub(crate) fn copy_ladder(
    ladder: &Ladder,
    bids: &mut [u64],
    asks: &mut [u64],
    market: &mut AuctionMarketOrders,
) -> u32
    ensures error { result ≡ ladder_error (length ladder.now.bids) (length bids.old) (length asks.old) }
    ensures bids { result ≡ 0 → bids.new ≡ ladder.now.bids }
    ensures asks { result ≡ 0 → asks.new ≡ ladder.now.asks }
    ensures market { result ≡ 0 → market.new ≡ encoded_as.market_out ladder.now }
    ensures unchanged { 0 < result → (bids.new ≡ bids.old) × (asks.new ≡ asks.old) × (market.new ≡ market.old) }
{
    let ticks = ladder.bids().len();
    if bids.len() != ticks || asks.len() != ticks {
        return BAD_LENGTH;
    }
    bids.copy_from_slice(ladder.bids());
    asks.copy_from_slice(ladder.asks());
    *market = AuctionMarketOrders {
        bids: ladder.market(Side::Bid),
        asks: ladder.market(Side::Ask),
    };
    DONE
}
