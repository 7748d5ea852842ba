//! The quantities of the open orders, tick by tick.
#![tactic(auto)]

ghost use Rattle.std.specs.Prelude.{◌≡◌, ◌+◌, ◌-◌, ◌<◌, ◌≤◌, length, slice_set, slice_index};
ghost use Rattle.std.specs.Prelude.{List, nat_eq, option_map, IfOk, IfSome};
ghost use Rattle.std.specs.Simd.Lanes.{zip2};
ghost use Rattle.auction_terms.specs.declared.limits.TheConstants.{MAX_TICK, MAX_TICKS, MAX_TOTAL};
ghost use Rattle.auction_terms.specs.Ladder.{flag_of, quantity_in, with_bids, with_asks, with_quantity_at};
ghost use Rattle.auction_terms.specs.Ladder.{with_added, with_removed};
ghost use Rattle.auction_terms.specs.Ladder.{AreOpen};
ghost use Rattle.auction_terms.specs.declared.Order.{Order};
ghost use Rattle.tick_ladder.specs.TickLadder.{total_quantity, best_tick, best_limit, empty_ladder};
ghost use Rattle.tick_ladder.specs.TickLadder.{IsInBounds, IsLadder, IsLadderOf};
ghost use Rattle.tick_ladder.specs.OccupiedPlaces.{IsLastBefore, IsFirstFrom, IsCrossingOf, later_of, earlier_of};

mod copying;
mod quantities;
mod walks;

use auction_terms::{Limit, Side};
use quantities::{Quantities, crossing_of};
use std::alloc::{AllocError, Global};
use std::marker::Model;

/// The place from which on more is offered than wanted: the last place, counted from the lowest tick, at which the
/// demand is not below the supply before it, with both.
#[derive(Clone, Copy)]
pub struct Crossing {
    pub place: usize,
    /// The shares wanted at the place.
    pub demand: u64,
    /// The shares offered at the place before.
    pub below: u64,
}

/// The quantities of the open orders of a book, in shares: those of the limit orders tick by tick from the lowest tick
/// on, and those of the market orders. All together are at most `MAX_TOTAL`.
#[derive(Drop)]
pub struct Ladder {
    low: u32,
    bids: Quantities,
    asks: Quantities,
    market_bids: u64,
    market_asks: u64,
}

impl Model for Ladder {
    ghost use Rattle.auction_terms.specs.Ladder.{LadderView};

    ghost Value = { LadderView };

    ghost use Rattle.tick_ladder.specs.TickLadder.{ladder_view, IsLadder};

    ghost view = { ladder_view };

    ghost invariant = { λ a. IsLadder (ladder_view a) };
}

/// 1 where there are bids or asks, else 0.
fn flag(bids: u64, asks: u64) -> u64
    ensures { result ≡ flag_of bids asks }
{
    if bids > 0 || asks > 0 { 1 } else { 0 }
}

/// Flags the places with bids or asks.
fn flag_each(bids: &Quantities, asks: &Quantities, flags: &mut [u64])
    requires bids { length bids.now ≡ length flags.old }
    requires asks { length asks.now ≡ length flags.old }
    ensures { flags.new ≡ zip2 flag_of bids.now asks.now }
{
    let mut place = 0;
    'places: while place < flags.len() {
        flags[place] = flag(bids.at(place), asks.at(place));
        place += 1;
    }
}

/// The later of two places that may be there.
fn later(place: Option<usize>, other: Option<usize>) -> Option<usize>
    ensures { result ≡ later_of place other }
{
    match (place, other) {
        (Some(place), Some(other)) => Some(place.max(other)),
        (place, None) => place,
        (None, other) => other,
    }
}

/// The earlier of two places that may be there.
fn earlier(place: Option<usize>, other: Option<usize>) -> Option<usize>
    ensures { result ≡ earlier_of place other }
{
    match (place, other) {
        (Some(place), Some(other)) => Some(place.min(other)),
        (place, None) => place,
        (None, other) => other,
    }
}

/// The tick of a place.
fn tick_at(low: u32, place: Option<usize>) -> Option<u32>
    requires { IfSome place (λ i. low + i ≤ MAX_TICK) }
    ensures { result ≡ option_map (λ i. low + i) place }
{
    match place {
        Some(place) => Some(low + place as u32),
        None => None,
    }
}

impl Ladder {
    /// An empty ladder with the ticks from `low` to `high`, both of them included. It fails only where memory is
    /// refused.
    pub fn open(alloc: Global, low: u32, high: u32) -> Result<Ladder, AllocError>
        requires ordered { low ≤ high }
        requires bounded { high ≤ MAX_TICK }
        requires few { high - low < MAX_TICKS }
        ensures { IfOk result (λ ladder. ladder ≡ empty_ladder low high) }
    {
        let ticks = (high - low) as usize + 1;
        Ok(Ladder {
            low,
            bids: Quantities::open(alloc, ticks)?,
            asks: Quantities::open(alloc, ticks)?,
            market_bids: 0,
            market_asks: 0,
        })
    }

    /// The lowest tick.
    pub fn low(&self) -> u32
        ensures value { result ≡ self.now.low }
        ensures sound { IsLadder self.now }
    {
        self.low
    }

    /// The highest tick.
    pub fn high(&self) -> u32
        ensures value { result ≡ self.now.low + length self.now.bids - 1 }
        ensures sound { IsLadder self.now }
    {
        self.low + (self.bids.places().len() as u32 - 1)
    }

    /// The shares bid with a limit at each tick, from the lowest tick on.
    pub fn bids(&self) -> &[u64]
        ensures value { result.now ≡ self.now.bids }
        ensures sound { IsLadder self.now }
    {
        self.bids.places()
    }

    /// The shares offered with a limit at each tick, from the lowest tick on.
    pub fn asks(&self) -> &[u64]
        ensures value { result.now ≡ self.now.asks }
        ensures sound { IsLadder self.now }
    {
        self.asks.places()
    }

    /// Puts 1 at each place with bids or asks, and else 0, from the lowest tick on.
    pub fn flag_present(&self, flags: &mut [u64])
        requires { length flags.old ≡ length self.now.bids }
        ensures value { flags.new ≡ self.now.present }
        ensures sound { IsLadder self.now }
    {
        flag_each(&self.bids, &self.asks, flags);
    }

    /// The shares of the market orders of a side.
    pub fn market(&self, side: Side) -> u64
        ensures { result ≡ quantity_in self.now side Limit.Market }
    {
        match side {
            Side::Bid => self.market_bids,
            Side::Ask => self.market_asks,
        }
    }

    /// The best limit of a side: the highest tick with bids, the lowest with asks. In a book of orders with shares
    /// left, whose ladder this is, it is the highest limit of a bid, the lowest of an ask.
    pub fn best(&self, side: Side) -> Option<u32>
        ensures value { result ≡ best_tick self.now side }
        ensures book { (book : List Order) → AreOpen book → IsLadderOf self.now book → result ≡ best_limit book side }
    {
        match side {
            Side::Bid => tick_at(self.low, self.bids.last_before(self.bids.places().len())),
            Side::Ask => tick_at(self.low, self.asks.first_from(0)),
        }
    }

    /// The shares bid at a place, counted from the lowest tick.
    pub fn bids_at(&self, place: usize) -> u64
        requires { place < length self.now.bids }
        ensures value { result ≡ slice_index self.now.bids place }
        ensures sound { IsLadder self.now }
    {
        self.bids.at(place)
    }

    /// The shares offered at a place, counted from the lowest tick.
    pub fn asks_at(&self, place: usize) -> u64
        requires { place < length self.now.bids }
        ensures value { result ≡ slice_index self.now.asks place }
        ensures sound { IsLadder self.now }
    {
        self.asks.at(place)
    }

    /// Whether there are bids or asks at a place, counted from the lowest tick.
    pub fn is_present(&self, place: usize) -> bool
        requires { place < length self.now.bids }
        ensures value { result ≡ nat_eq (slice_index self.now.present place) 1 }
        ensures sound { IsLadder self.now }
    {
        self.bids.at(place) > 0 || self.asks.at(place) > 0
    }

    /// The last place before `end` that has an order.
    pub fn last_before(&self, end: usize) -> Option<usize>
        requires { end ≤ length self.now.bids }
        ensures { IsLastBefore self.now end result }
    {
        later(self.bids.last_before(end), self.asks.last_before(end))
    }

    /// The first place from `start` on that has an order.
    pub fn first_from(&self, start: usize) -> Option<usize>
        requires { start ≤ length self.now.bids }
        ensures { IsFirstFrom self.now start result }
    {
        earlier(self.bids.first_from(start), self.asks.first_from(start))
    }

    /// Where demand and supply cross.
    pub fn crossing(&self) -> Crossing
        ensures value { IsCrossingOf self.now result }
        ensures sound { IsLadder self.now }
    {
        let demand = self.market_bids + self.bids.total();
        crossing_of(&self.bids, &self.asks, demand, self.market_asks)
    }

    /// Adds the shares of an order at its side and limit.
    pub fn add(&mut self, side: Side, limit: Limit, quantity: u64)
        requires in_bounds { IsInBounds self.old limit }
        requires fits { total_quantity self.old + quantity ≤ MAX_TOTAL }
        ensures { self.new ≡ with_added self.old side limit quantity }
    {
        let quantity_at = self.quantity_at(side, limit);
        self.put(side, limit, quantity_at + quantity);
    }

    /// Takes shares away from a side and limit.
    pub fn take(&mut self, side: Side, limit: Limit, quantity: u64)
        requires in_bounds { IsInBounds self.old limit }
        requires stands { quantity ≤ quantity_in self.old side limit }
        ensures { self.new ≡ with_removed self.old side limit quantity }
    {
        let quantity_at = self.quantity_at(side, limit);
        self.put(side, limit, quantity_at - quantity);
    }

    /// The shares at a side and limit.
    fn quantity_at(&self, side: Side, limit: Limit) -> u64
        requires { IsInBounds self.now limit }
        ensures value { result ≡ quantity_in self.now side limit }
        ensures part { result ≤ total_quantity self.now }
        ensures sound { IsLadder self.now }
    {
        match (limit, side) {
            (Limit::Market, side) => self.market(side),
            (Limit::At(tick), Side::Bid) => self.bids.at((tick - self.low) as usize),
            (Limit::At(tick), Side::Ask) => self.asks.at((tick - self.low) as usize),
        }
    }

    /// Sets the shares at a side and limit to `quantity`.
    fn put(&mut self, side: Side, limit: Limit, quantity: u64)
        requires in_bounds { IsInBounds self.old limit }
        requires fits { total_quantity self.old + quantity ≤ MAX_TOTAL + quantity_in self.old side limit }
        ensures { self.new ≡ with_quantity_at self.old side limit quantity }
    {
        match (limit, side) {
            (Limit::Market, Side::Bid) => self.market_bids = quantity,
            (Limit::Market, Side::Ask) => self.market_asks = quantity,
            (Limit::At(tick), Side::Bid) => self.put_bids((tick - self.low) as usize, quantity),
            (Limit::At(tick), Side::Ask) => self.put_asks((tick - self.low) as usize, quantity),
        }
    }

    /// Puts other bids at a place.
    fn put_bids(&mut self, place: usize, bids: u64)
        requires in_bounds { place < length self.old.bids }
        requires fits { total_quantity self.old + bids ≤ MAX_TOTAL + slice_index self.old.bids place }
        ensures { self.new ≡ with_bids self.old (slice_set self.old.bids place bids) }
    {
        self.bids.put(place, bids);
    }

    /// Puts other asks at a place.
    fn put_asks(&mut self, place: usize, asks: u64)
        requires in_bounds { place < length self.old.bids }
        requires fits { total_quantity self.old + asks ≤ MAX_TOTAL + slice_index self.old.asks place }
        ensures { self.new ≡ with_asks self.old (slice_set self.old.asks place asks) }
    {
        self.asks.put(place, asks);
    }
}
