//! Books, tapes and days that are full.

use super::{BEST_BID, even, order, reply_to};
use auction::Auction;
use auction_terms::{AuctionKind, Command, Config, Display, Price, Refusal, Reply, Side, Trade};
use std::test::Fail;

/// The most orders that may be open, and half of them.
const OPEN: u32 = 65_536;

const HALF: u32 = 32_768;

const WIDEST: Config = Config {
    low: 1,
    high: 65_536,
    reference: 200,
    max_open: OPEN,
    max_calls: 1_048_576,
    range: None,
};

/// Whether an order that is entered gets this id.
fn enters(auction: &mut Auction, side: Side, quantity: u64, tick: u32, id: u32) -> bool {
    reply_to(auction, 1, order(side, quantity, tick)) == Some(Reply::Entered { id })
}

/// Whether the day's trade with this number is this one, of one share.
fn traded(auction: &mut Auction, number: u32, bid: u32, ask: u32, tick: u32) -> bool {
    let trade = Trade {
        bid,
        ask,
        tick,
        quantity: 1,
    };
    reply_to(auction, 2, Command::ReadTrade { number }) == Some(Reply::Traded(trade))
}

fn uncrosses(auction: &mut Auction, kind: AuctionKind, price: Price, trades: u32) -> bool {
    let wanted = Reply::Uncrossed {
        kind,
        price: Some(price),
        trades,
    };
    reply_to(auction, 0, Command::Uncross) == Some(wanted)
}

// Each of the three auctions has one bid of 65,535 shares against 65,535 asks of one share. So the day has 196,605
// trades, each uncross empties a full book, and the ids go on.
#[test]
fn as_many_trades_as_a_day_may_have(rt: HostRuntime) -> Result<(), Fail> {
    let mut auction = Auction::open(rt.alloc(), WIDEST)?;
    let mut first = 1u32;
    for kind in [
        AuctionKind::Opening,
        AuctionKind::Intraday,
        AuctionKind::Closing,
    ] {
        assert!(rt; enters(&mut auction, Side::Bid, 65_535, 200, first));
        for next in 1..OPEN {
            assert!(rt; enters(&mut auction, Side::Ask, 1, 200, first.saturating_add(next)));
        }
        assert!(rt; uncrosses(&mut auction, kind, even(200, 65_535), 65_535));
        first = first.saturating_add(OPEN);
    }
    let mut number = 0u32;
    for bid in [1u32, 65_537, 131_073] {
        for next in 1..OPEN {
            number = number.saturating_add(1);
            assert!(rt; traded(&mut auction, number, bid, bid.saturating_add(next), 200));
        }
    }
    assert_eq!(rt; number, 196_605);
    let reply = reply_to(&mut auction, 2, Command::ReadTrade { number: 196_606 });
    assert!(rt; reply == Some(Reply::Refused(Refusal::NoSuchTrade)));
    Ok(())
}

// Each tick of the widest ladder has one order of one share: asks at 1 to 32,768, and bids at 32,769 to 65,536. At the
// ticks 32,768 and 32,769 alone do all of them trade, without a surplus, and the reference lies below both. The best
// bid, which was entered last, meets the best ask, which was entered first, and so on.
#[test]
fn an_order_at_every_tick(rt: HostRuntime) -> Result<(), Fail> {
    let mut auction = Auction::open(rt.alloc(), WIDEST)?;
    for tick in 1..=OPEN {
        let side = if tick <= HALF { Side::Ask } else { Side::Bid };
        assert!(rt; enters(&mut auction, side, 1, tick, tick));
    }
    let price = even(HALF, 32_768);
    assert!(rt; auction.display() == Display::Priced(price));
    assert!(rt; uncrosses(&mut auction, AuctionKind::Opening, price, HALF));
    for ask in 1..=HALF {
        let bid = 65_537u32.saturating_sub(ask);
        assert!(rt; traded(&mut auction, ask, bid, ask, HALF));
    }
    Ok(())
}

// Bids of the largest size fill the book; then one ask takes the place of the last. Refused calls are counted too, and
// the last call is as good as any other.
#[test]
fn as_many_orders_and_calls_as_may_be(rt: HostRuntime) -> Result<(), Fail> {
    let mut auction = Auction::open(rt.alloc(), WIDEST)?;
    for id in 1..=OPEN {
        assert!(rt; enters(&mut auction, Side::Bid, 1_000_000_000, 200, id));
    }
    let bids = auction.ladder().bids().get(199).copied();
    assert_eq!(rt; bids, Some(65_536_000_000_000));
    assert!(rt; auction.display() == BEST_BID);
    for _ in OPEN..1_048_574 {
        let refused = reply_to(&mut auction, 1, order(Side::Bid, 1, 200));
        assert!(rt; refused == Some(Reply::Refused(Refusal::BookFull)));
    }
    let deleted = reply_to(&mut auction, 1, Command::Delete { id: OPEN });
    assert!(rt; deleted == Some(Reply::Deleted));
    assert!(rt; auction.calls() == 1_048_575 && !auction.is_full());
    assert!(rt; enters(&mut auction, Side::Ask, 1_000_000_000, 200, 65_537));
    assert!(rt; auction.calls() == 1_048_576 && auction.is_full());
    let price = Price {
        tick: 200,
        volume: 1_000_000_000,
        surplus: 65_534_000_000_000,
        side: Some(Side::Bid),
    };
    assert!(rt; auction.display() == Display::Priced(price));
    Ok(())
}
