//! The price, as long as no order that decides it comes or goes.
ghost use Rattle.std.specs.Prelude.{◌≡◌, ◌≤◌, IfSome, IfNone};
ghost use Rattle.auction_terms.specs.declared.Limit.TheVariants.{At};
ghost use Rattle.tick_ladder.specs.TickLadder.{IsInBounds};
ghost use Rattle.auction.specs.KnownPrice.{is_beyond as beyond, still_known, display_known, IsKnownIn};

use auction_terms::{AuctionKind, Display, Limit, Order, Price, Side};
use price_rules::determine_price;
use tick_ladder::Ladder;

/// The price at a reference, and which orders decide it: bids below `lowest` and asks above `highest`, in ticks, change
/// nothing of it. The best limits of both sides are known where there is no price, and shown then.
#[derive(Clone, Copy, Debug, PartialEq, Eq)]
pub(super) struct KnownPrice {
    pub reference: u32,
    pub lowest: u32,
    pub highest: u32,
    pub best_bid: Option<u32>,
    pub best_ask: Option<u32>,
    pub price: Option<Price>,
}

impl KnownPrice {
    /// What is shown: the price, or the best limits where there is none.
    #[inline(always)]
    pub(super) fn display(&self) -> Display
        ensures { result ≡ display_known self.now.price self.now.best_bid self.now.best_ask }
    {
        match self.price {
            Some(price) => Display::Priced(price),
            None => Display::Unpriced {
                best_bid: self.best_bid,
                best_ask: self.best_ask,
            },
        }
    }

    // Whether an order with this side and limit changes nothing of the price.
    fn is_beyond(&self, side: Side, limit: Limit) -> bool
        ensures { result ≡ beyond self.now side limit }
    {
        match (side, limit) {
            (_, Limit::Market) => false,
            (Side::Bid, Limit::At(tick)) => tick < self.lowest,
            (Side::Ask, Limit::At(tick)) => tick > self.highest,
        }
    }
}

/// Forgets the price where an order came or went that counts in the auction and decides it.
pub(super) fn forget(known: &mut Option<KnownPrice>, kind: AuctionKind, order: Order)
    ensures { known.new ≡ still_known known.old kind order }
{
    let Some(price) = known else {
        return;
    };
    if order.participates_in(kind) && !price.is_beyond(order.side, order.limit) {
        *known = None;
    }
}

// The first tick from which on bids decide what is shown without a price: not above the highest bid limit.
fn lowest_unpriced(best: Option<u32>, lowest: u32) -> u32
    ensures lowest { result ≤ lowest }
    ensures best { IfSome best (λ tick. result ≤ tick) }
    ensures none { IfNone best (result ≡ 0) }
{
    match best {
        Some(best) => best.min(lowest),
        None => 0,
    }
}

// The last tick up to which asks decide what is shown without a price: not below the lowest ask limit.
fn highest_unpriced(best: Option<u32>, highest: u32, last: u32) -> u32
    ensures highest { highest ≤ result }
    ensures best { IfSome best (λ tick. tick ≤ result) }
    ensures none { IfNone best (last ≤ result) }
{
    best.unwrap_or(last).max(highest)
}

/// The price at a reference of the orders whose ladder this is.
pub(super) fn find(ladder: &Ladder, reference: u32) -> KnownPrice
    requires { IsInBounds ladder.now (At reference) }
    ensures reference { result.reference ≡ reference }
    ensures known { IsKnownIn ladder.now result }
{
    let decision = determine_price(ladder, reference);
    match decision.price {
        Some(price) => KnownPrice {
            reference,
            lowest: decision.lowest,
            highest: decision.highest,
            best_bid: None,
            best_ask: None,
            price: Some(price),
        },
        None => {
            let best_bid = ladder.best(Side::Bid);
            let best_ask = ladder.best(Side::Ask);
            let last = ladder.low() + (ladder.bids().len() - 1) as u32;
            KnownPrice {
                reference,
                lowest: lowest_unpriced(best_bid, decision.lowest),
                highest: highest_unpriced(best_ask, decision.highest, last),
                best_bid,
                best_ask,
                price: None,
            }
        }
    }
}
