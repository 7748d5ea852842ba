//! The auction of one thread.

use super::{BEST_BID, DAY, bid_entered, order, reply_to};
use auction::{Auction, AuditFinding, OpenFault, audit};
use auction_terms::{AuctionKind, Command, Config, Display, Entry, Price, Reply, Side, Trade};
use std::process::Abort;

// Three bids and three asks: 500 shares are executed at 200, and 200 are left on the bid side.
fn enter_six(auction: &mut Auction) {
    reply_to(auction, 1, order(Side::Bid, 200, 202));
    reply_to(auction, 1, order(Side::Bid, 200, 201));
    reply_to(auction, 1, order(Side::Bid, 300, 200));
    reply_to(auction, 2, order(Side::Ask, 100, 200));
    reply_to(auction, 2, order(Side::Ask, 200, 199));
    reply_to(auction, 2, order(Side::Ask, 200, 198));
}

const SIX: Price = Price {
    tick: 200,
    volume: 500,
    surplus: 200,
    side: Some(Side::Bid),
};

/// Whether the price of the six is shown, and the ladder has what they come to at three of the ticks.
fn shows_six(auction: &Auction) -> bool {
    let ladder = auction.ladder();
    auction.display() == Display::Priced(SIX)
        && ladder.bids().get(199) == Some(&300)
        && ladder.asks().get(199) == Some(&100)
        && ladder.asks().get(198) == Some(&200)
}

fn uncrosses_six(auction: &mut Auction) -> bool {
    let uncrossed = Reply::Uncrossed {
        kind: AuctionKind::Opening,
        price: Some(SIX),
        trades: 3,
    };
    reply_to(auction, 0, Command::Uncross) == Some(uncrossed)
}

/// Whether the trades of the six are read, in their order.
fn reads_three_trades(auction: &mut Auction) -> bool {
    for (number, bid, ask, quantity) in [(1, 1, 6, 200), (2, 2, 5, 200), (3, 3, 4, 100)] {
        let trade = Trade {
            bid,
            ask,
            tick: 200,
            quantity,
        };
        let reply = reply_to(auction, 3, Command::ReadTrade { number });
        if reply != Some(Reply::Traded(trade)) {
            return false;
        }
    }
    true
}

fn has_ten_calls(auction: &Auction) -> bool {
    auction.calls() == 10 && auction.config() == DAY && !auction.is_full()
}

fn six_are_executed(rt: &impl Abort, auction: &mut Auction) {
    enter_six(auction);
    assert!(rt; shows_six(auction));
    assert!(rt; uncrosses_six(auction));
    assert!(rt; reads_three_trades(auction));
    assert!(rt; has_ten_calls(auction));
}

#[test]
fn opening_auction(rt: HostRuntime) -> Result<(), OpenFault> {
    let mut auction = Auction::open(rt.alloc(), DAY)?;
    six_are_executed(&rt, &mut auction);
    Ok(())
}

#[test]
fn audits(rt: HostRuntime) -> Result<(), OpenFault> {
    let short = Config {
        max_calls: 1,
        ..DAY
    };
    let closing_under = Entry {
        member: 1,
        command: Command::Indicate,
        reply: Reply::Indicated(BEST_BID),
    };
    let rows = [
        (DAY, 1, AuditFinding::Legal),
        (DAY, 2, AuditFinding::BadAt(0)),
        (short, 1, AuditFinding::BadAt(1)),
    ];
    for (config, id, verdict) in rows {
        let history = [bid_entered(id), closing_under];
        assert!(rt; audit(rt.alloc(), config, history.as_slice())? == verdict);
    }
    Ok(())
}
