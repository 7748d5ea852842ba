//! The price of books that are the worked cases of its rules.

ghost use Rattle.std.specs.Prelude.{◌≡◌, ◌≤◌, IfSome, length};
ghost use Rattle.tick_ladder.specs.TickLadder.{total_quantity};

use auction_terms::{Limit, Price, Side};
use price_rules::determine_price;
use std::alloc::Global;
use std::test::Fail;
use tick_ladder::Ladder;

const BID: Side = Side::Bid;

const ASK: Side = Side::Ask;

/// Adds an order, and returns what the quantities come to at most; or none where the order doesn't fit.
#[tactic(auto, using(tick_ladder::proofs::TotalQuantityLaws::added_more))]
fn add(ladder: &mut Ladder, total: u64, side: Side, limit: Limit, quantity: u64) -> Option<u64>
    requires { total_quantity ladder.old ≤ total }
    ensures total { IfSome result (λ all. total_quantity ladder.new ≤ all) }
    ensures low { ladder.new.low ≡ ladder.old.low }
    ensures len { length ladder.new.bids ≡ length ladder.old.bids }
{
    let low = ladder.low();
    let ticks = ladder.bids().len();
    let room = ladder.asks().len() == ticks && quantity <= 1000 && total <= 1000000;
    match limit {
        Limit::Market if room => {
            ladder.add(side, Limit::Market, quantity);
            Some(total + quantity)
        }
        Limit::At(tick) if room && tick >= low && ((tick - low) as usize) < ticks => {
            ladder.add(side, Limit::At(tick), quantity);
            Some(total + quantity)
        }
        _ => None,
    }
}

/// Adds orders of a side, each with its limit; or answers none where one doesn't fit.
fn add_all(ladder: &mut Ladder, total: u64, side: Side, orders: &[(u64, Limit)]) -> Option<u64>
    requires { total_quantity ladder.old ≤ total }
    ensures total { IfSome result (λ all. total_quantity ladder.new ≤ all) }
    ensures low { ladder.new.low ≡ ladder.old.low }
    ensures len { length ladder.new.bids ≡ length ladder.old.bids }
{
    let mut total = total;
    let mut order = 0;
    'orders: while order < orders.len() {
        let (quantity, limit) = orders[order];
        total = add(ladder, total, side, limit, quantity)?;
        order += 1;
    }
    Some(total)
}

/// The price of these orders on a ladder from 1 to 1000, which takes each of them.
fn price_of_orders(
    alloc: Global,
    bids: &[(u64, Limit)],
    asks: &[(u64, Limit)],
    reference: u32,
) -> Result<Option<Price>, Fail>
    requires low { 1 ≤ reference }
    requires high { reference ≤ 1000 }
{
    let mut ladder = Ladder::open(alloc, 1, 1000)?;
    let Some(total) = add_all(&mut ladder, 0, BID, bids) else {
        return Err(Fail::new("a bid doesn't fit"));
    };
    let Some(_) = add_all(&mut ladder, total, ASK, asks) else {
        return Err(Fail::new("an ask doesn't fit"));
    };
    Ok(determine_price(&ladder, reference).price)
}

fn price(tick: u32, volume: u64, surplus: u64, side: Option<Side>) -> Option<Price> {
    Some(Price {
        tick,
        volume,
        surplus,
        side,
    })
}

const fn at(tick: u32) -> Limit {
    Limit::At(tick)
}

// The cases themselves are order files of `examples/`; here each way to a price is taken once.
#[test]
fn each_way_to_a_price(rt: HostRuntime) -> Result<(), Fail> {
    let market = (100, Limit::Market);
    let bids = [market, (50, at(190))];
    let asks = [market, (50, at(210))];
    assert_eq!(rt;
        price_of_orders(rt.alloc(), &bids, &asks, 185)?,
        price(190, 100, 50, Some(BID))
    );
    assert_eq!(rt;
        price_of_orders(rt.alloc(), &bids, &asks, 200)?,
        price(200, 100, 0, None)
    );
    assert_eq!(rt;
        price_of_orders(rt.alloc(), &bids, &asks, 215)?,
        price(210, 100, 50, Some(ASK))
    );
    assert_eq!(rt;
        price_of_orders(rt.alloc(), &[market], &[market], 200)?,
        price(200, 100, 0, None)
    );
    assert_eq!(rt;
        price_of_orders(rt.alloc(), &[(80, at(199))], &[(80, at(201))], 200)?,
        None
    );
    Ok(())
}
