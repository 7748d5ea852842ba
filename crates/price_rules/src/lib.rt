//! The auction price of a ladder.
#![tactic(auto)]

ghost use Rattle.std.specs.Prelude.{◌≡◌, ◌+◌, ◌≤◌, ◌<◌, length};
ghost use Rattle.std.specs.Simd.Lanes.{zip2};
ghost use Rattle.auction_terms.specs.AuctionPrice.{price, HasMostVolume};
ghost use Rattle.auction_terms.specs.Ladder.{flag_of};
ghost use Rattle.tick_ladder.specs.TickLadder.{OfEachBook};
ghost use Rattle.price_rules.specs.ClampedPrice.{sided, price_from, priced_by, market_priced};
ghost use Rattle.price_rules.specs.Candidates.{lead_of};
ghost use Rattle.price_rules.specs.Around.{IsAround};
ghost use Rattle.price_rules.specs.PriceTerms.{HasVolumeAndSurplus, IsBalancedBetween};
ghost use Rattle.price_rules.specs.declared.surroundings.Around.{Around as AroundView};
ghost use Rattle.price_rules.specs.Decision.{AreDecidingTicks, DecidesPrice, IsPriceNear, from_place, to_place};

mod candidates;
mod choice;
mod surroundings;

use auction_terms::{Price, Side};
use candidates::limits_around;
use choice::{Leaders, best_of};
use lanes::first;
use surroundings::{Around, look_around};
use tick_ladder::Ladder;

/// A tick with this demand and supply as a price.
fn price_at(tick: u32, demand: u64, supply: u64) -> Price
    ensures { result ≡ priced_by tick demand supply }
{
    Price {
        tick,
        volume: demand.min(supply),
        surplus: demand.abs_diff(supply),
        side: if demand > supply {
            Some(Side::Bid)
        } else if demand < supply {
            Some(Side::Ask)
        } else {
            None
        },
    }
}

/// A kept limit as a price.
fn sided_price(leaders: Leaders, tick: u32, side: Side) -> Price
    ensures { result ≡ sided (lead_of leaders) tick side }
{
    Price {
        tick,
        volume: leaders.volume,
        surplus: leaders.surplus,
        side: if leaders.surplus > 0 {
            Some(side)
        } else {
            None
        },
    }
}

/// The price that the best limits and the reference give.
fn clamp(leaders: Leaders, reference: u32) -> Option<Price>
    ensures { result ≡ price_from (lead_of leaders) reference }
{
    match (leaders.lower, leaders.upper) {
        (None, None) => None,
        (Some(low), None) => Some(sided_price(leaders, low, Side::Bid)),
        (None, Some(high)) => Some(sided_price(leaders, high, Side::Ask)),
        (Some(low), Some(high)) => Some(if reference >= high {
            sided_price(leaders, high, Side::Ask)
        } else if reference <= low {
            sided_price(leaders, low, Side::Bid)
        } else {
            Price {
                tick: reference,
                volume: leaders.volume,
                surplus: 0,
                side: None,
            }
        }),
    }
}

/// The price of market orders alone.
fn market_price(ladder: &Ladder, reference: u32) -> Option<Price>
    ensures { result ≡ market_priced ladder.now reference }
{
    let price = price_at(
        reference,
        ladder.market(Side::Bid),
        ladder.market(Side::Ask),
    );
    if price.volume > 0 { Some(price) } else { None }
}

/// The price that the limits around the crossing give at a reference. It is that of every book whose ladder is the same
/// there.
fn price_around(ladder: &Ladder, around: &Around, reference: u32) -> Option<Price>
    requires low { ladder.now.low ≤ reference }
    requires high { reference < ladder.now.low + length ladder.now.bids }
    requires around { IsAround ladder.now around.now }
    requires flags { ladder.now.present ≡ zip2 flag_of ladder.now.bids ladder.now.asks }
    ensures { IsPriceNear ladder.now around.now reference result }
{
    let lanes = limits_around(ladder, around);
    match best_of(&lanes) {
        Some(leaders) => clamp(leaders, reference),
        None => match first(&lanes.flags) {
            Some(_) => None,
            None => market_price(ladder, reference),
        },
    }
}

/// A price, and which orders decide it: bids below `lowest` and asks above `highest`, in ticks, change nothing of it.
#[derive(Clone, Copy, Debug, PartialEq, Eq)]
pub struct Decision {
    pub price: Option<Price>,
    pub lowest: u32,
    pub highest: u32,
}

/// The first tick that decides.
fn lowest_deciding(ladder: &Ladder, around: &Around) -> u32
    requires around { IsAround ladder.now around.now }
    ensures { result ≡ ladder.now.low + from_place around.now.far }
{
    match around.far {
        Some(place) => ladder.low() + place as u32,
        None => ladder.low(),
    }
}

/// The last tick that decides.
fn highest_deciding(ladder: &Ladder, around: &Around) -> u32
    requires around { IsAround ladder.now around.now }
    ensures { result ≡ ladder.now.low + to_place (length ladder.now.bids) around.now.after }
{
    let last = match around.after {
        Some(place) => place,
        None => ladder.bids().len() - 1,
    };
    ladder.low() + last as u32
}

/// The auction price of every book whose ladder this is, at a reference price in its bounds, with the ticks from which
/// on bids, and up to which asks, decide it.
///
/// The price is the limit with the most volume and, among those, the least surplus. Where several are left, it is the
/// highest of them if all have more wanted than offered, the lowest if all have more offered than wanted, and else the
/// reference price, clamped between the highest with a bid surplus and the lowest with an ask surplus. A book of market
/// orders alone is priced at the reference price.
///
/// Around the place where demand and supply cross lie at most four limits among which the price is chosen. A bid below
/// them adds to the demand at lower limits alone, which are worse by then, and so does an ask above them to the supply.
pub fn determine_price(ladder: &Ladder, reference: u32) -> Decision
    requires low { ladder.now.low ≤ reference }
    requires high { reference < ladder.now.low + length ladder.now.bids }
    ensures price { OfEachBook ladder.now (λ book. result.price ≡ price book reference) }

    // No tick has more volume than the price, and without a price none has any.
    ensures most { OfEachBook ladder.now (λ book. HasMostVolume book result.price) }

    // Its volume is the lesser of demand and supply at its tick, its surplus their difference.
    ensures terms { OfEachBook ladder.now (λ book. HasVolumeAndSurplus book result.price) }

    // Strictly between the kept limits there is no surplus.
    ensures balanced { OfEachBook ladder.now (λ book. IsBalancedBetween book result.price) }

    // Any book with the same quantities there has the same price.
    ensures deciding { DecidesPrice ladder.now reference result }

    // They are the ticks of the second limit before the crossing and of the first after it, or the ends of the ladder.
    ensures ticks { (around : AroundView) × AreDecidingTicks ladder.now result around }
{
    let around = look_around(ladder);
    Decision {
        price: price_around(ladder, &around, reference),
        lowest: lowest_deciding(ladder, &around),
        highest: highest_deciding(ladder, &around),
    }
}
