//! The claims of the orders that take part in an auction, in rank order.
ghost use Rattle.std.specs.Prelude.{◌≡◌, ◌+◌, ◌<◌, ◌≤◌, ◌^◌, ◌++◌, length, true, vec_len, vec_capacity};
ghost use Rattle.std.specs.Prelude.{IfSome, IsPermutation};
ghost use Rattle.auction_terms.specs.declared.Side.TheVariants.{Bid, Ask};
ghost use Rattle.std.specs.Option.{option_to_list};
ghost use Rattle.allocation.specs.Claim.{priority, rank, is_narrow, is_narrow_limit, is_claimant};
ghost use Rattle.allocation.specs.Claim.{claims_of, claimed_by, orders_in_auction, AreInOrder, AreNarrow, IsRanked};

use auction_terms::{AuctionKind, Limit, Side, Stamped};
use order_book::Orders;

/// What an eligible order asks for, in shares, after what ranks it.
#[derive(Clone, Copy)]
pub(crate) struct Claim {
    /// Its place on its side: the lesser number goes first.
    pub rank: u64,
    pub quantity: u32,
    pub id: u32,
}

/// Whose claims are made: the orders of a side that count in the auction, and may be executed at the tick of its price.
#[derive(Clone, Copy)]
pub(crate) struct Claimants {
    pub side: Side,
    pub kind: AuctionKind,
    pub price: u32,
}

impl Claimants {
    /// Whether an order is one of them.
    fn include(self, stamped: &Stamped) -> bool
        ensures { result ≡ is_claimant self stamped.now }
    {
        let order = stamped.order;
        order.participates_in(self.kind) && order.side == self.side && order.is_eligible(self.price)
    }
}

/// How near the front of its side a limit puts an order, as a number of at most 2^32: the lesser one is nearer.
fn priority_of(side: Side, limit: Limit) -> u64
    ensures value { result ≡ priority side limit }
    ensures small { result ≤ 2 ^ 32 }
    ensures narrow { is_narrow_limit limit ≡ true }
{
    match (side, limit) {
        (_, Limit::Market) => 0,
        (Side::Bid, Limit::At(tick)) => (1 << 32) - tick as u64,
        (Side::Ask, Limit::At(tick)) => tick as u64 + 1,
    }
}

/// The place of an order on its side, as a number: by its limit first, and then by its place in time.
pub(crate) fn rank_of(side: Side, stamped: Stamped) -> u64
    requires { stamped.stamp < 2 ^ 31 }
    ensures value { result ≡ rank side stamped }
    ensures narrow { is_narrow stamped ≡ true }
{
    let priority = priority_of(side, stamped.order.limit);
    priority * (1 << 31) + stamped.stamp
}

// Adds the claim of the order at a place, if there is one and it takes part.
fn consider(claims: &mut Vec<Claim>, claimants: Claimants, found: Option<Stamped>)
    requires room { vec_len claims.old + length (option_to_list found) ≤ vec_capacity claims.old }
    requires stamp { IfSome found (λ s. s.stamp < 2 ^ 31) }
    requires quantity { IfSome found (λ s. s.order.quantity < 2 ^ 32) }
    ensures items { claims.new.items ≡ claims.old.items ++ claims_of claimants (option_to_list found) }
    ensures narrow { AreNarrow (option_to_list found) }
    ensures few { vec_len claims.new ≤ vec_len claims.old + length (option_to_list found) }
    ensures capacity { vec_capacity claims.new ≡ vec_capacity claims.old }
{
    let Some(stamped) = found else {
        return;
    };
    let rank = rank_of(claimants.side, stamped);
    if claimants.include(&stamped) {
        claims.push_reserved(Claim {
            rank,
            quantity: stamped.order.quantity as u32,
            id: stamped.order.id,
        });
    }
}

// Adds the claim of the order at a place to those of its side, if there is one and it takes part.
fn consider_side(
    bids: &mut Vec<Claim>,
    asks: &mut Vec<Claim>,
    bidders: Claimants,
    askers: Claimants,
    found: Option<Stamped>,
)
    requires bidders { bidders.side ≡ Bid }
    requires askers { askers.side ≡ Ask }
    requires bids_room { vec_len bids.old + length (option_to_list found) ≤ vec_capacity bids.old }
    requires asks_room { vec_len asks.old + length (option_to_list found) ≤ vec_capacity asks.old }
    requires stamp { IfSome found (λ s. s.stamp < 2 ^ 31) }
    requires quantity { IfSome found (λ s. s.order.quantity < 2 ^ 32) }
    ensures bids { bids.new.items ≡ bids.old.items ++ claims_of bidders (option_to_list found) }
    ensures asks { asks.new.items ≡ asks.old.items ++ claims_of askers (option_to_list found) }
    ensures narrow { AreNarrow (option_to_list found) }
    ensures few_bids { vec_len bids.new ≤ vec_len bids.old + length (option_to_list found) }
    ensures few_asks { vec_len asks.new ≤ vec_len asks.old + length (option_to_list found) }
    ensures bids_capacity { vec_capacity bids.new ≡ vec_capacity bids.old }
    ensures asks_capacity { vec_capacity asks.new ≡ vec_capacity asks.old }
{
    let Some(stamped) = found else {
        return;
    };
    match stamped.order.side {
        Side::Bid => consider(bids, bidders, found),
        Side::Ask => consider(asks, askers, found),
    }
}

// Puts the claims in rank order. One look at each shows whether they are already.
fn put_in_order(claims: &mut Vec<Claim>)
    ensures in_order { AreInOrder claims.new.items }
    ensures permutation { IsPermutation claims.old.items claims.new.items }
    ensures capacity { vec_capacity claims.new ≡ vec_capacity claims.old }
{
    if !claims.is_sorted_by_key(|claim| claim.rank) {
        claims.sort_unstable_by_key(|claim| claim.rank);
    }
}

/// Makes the claims of both sides of the open orders, each in rank order, in one walk through the orders.
pub(crate) fn rank_sides(
    bids: &mut Vec<Claim>,
    asks: &mut Vec<Claim>,
    kind: AuctionKind,
    price: u32,
    orders: &Orders,
)
    requires bids_room { length orders.now.line ≤ vec_capacity bids.old }
    requires asks_room { length orders.now.line ≤ vec_capacity asks.old }
    ensures bids { IsRanked Bid price (orders_in_auction kind orders.now) bids.new.items }
    ensures asks { IsRanked Ask price (orders_in_auction kind orders.now) asks.new.items }
    ensures bids_capacity { vec_capacity bids.new ≡ vec_capacity bids.old }
    ensures asks_capacity { vec_capacity asks.new ≡ vec_capacity asks.old }
{
    let bidders = Claimants {
        side: Side::Bid,
        kind,
        price,
    };
    let askers = Claimants {
        side: Side::Ask,
        ..bidders
    };
    bids.clear();
    asks.clear();
    for place in 0..orders.places() {
        consider_side(bids, asks, bidders, askers, orders.at(place));
    }
    put_in_order(bids);
    put_in_order(asks);
}

/// What all claims ask for, in shares.
pub(crate) fn total(claims: &[Claim]) -> u64
    requires { claimed_by claims.now < 2 ^ 64 }
    ensures { result ≡ claimed_by claims.now }
{
    claims.iter().map(|claim| u64::from(claim.quantity)).sum()
}
