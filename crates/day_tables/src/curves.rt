//! Demand, supply, volume and surplus tick by tick, and the best limits.

ghost use Rattle.std.specs.Int.{abs_diff};
ghost use Rattle.std.specs.Prelude.{◌≡◌, ℕ, List, IfOk, length, min};
ghost use Rattle.std.specs.Simd.Lanes.{zip2};
ghost use Rattle.auction_terms.specs.declared.Order.{Order};
ghost use Rattle.auction_terms.specs.Book.{demand, supply};
ghost use Rattle.auction_terms.specs.AuctionPrice.{best_limits};
ghost use Rattle.auction_terms.specs.Ladder.{tick_values};
ghost use Rattle.lanes.specs.RunningSums.{rising_sums, falling_sums};
ghost use Rattle.price_rules.specs.Candidates.{AreMarked};
ghost use Rattle.tick_ladder.specs.TickLadder.{IsLadder, OfEachBook};
ghost use Rattle.day_tables.specs.TableCurves.{AreCurves, HasRoomForTicks, LeavesBest, IsDecidingRule, ticks_from};

use crate::rule::Rule;
use auction_terms::Side;
use lanes::{
    falling, first, gap_size, greatest_where, keep_equal, last, least_where, lesser, rising,
};
use std::alloc::{AllocError, Global};
use tick_ladder::Ladder;

/// Shares tick by tick from the lowest tick on, and which ticks are best limits. It has room for the ticks of one
/// ladder.
#[derive(Drop)]
pub(crate) struct Curves {
    pub demands: Vec<u64>,
    pub supplies: Vec<u64>,
    pub volumes: Vec<u64>,
    pub surpluses: Vec<u64>,
    /// 1 at each best limit.
    pub best: Vec<u64>,
}

/// Of the flags of all limits it leaves those of the best: with the most volume, if there is any, and among those the
/// least surplus.
fn keep_best(
    demands: &[u64],
    supplies: &[u64],
    volumes: &[u64],
    surpluses: &[u64],
    flags: &mut [u64],
)
    requires supplies { length supplies.now ≡ length demands.now }
    requires flags { length flags.old ≡ length demands.now }
    requires volumes { volumes.now ≡ zip2 min demands.now supplies.now }
    requires surpluses { surpluses.now ≡ zip2 abs_diff demands.now supplies.now }
    ensures { LeavesBest demands.now supplies.now flags.old flags.new }
{
    let Some(most) = greatest_where(volumes, flags) else {
        return;
    };
    if most == 0 {
        flags.fill(0);
        return;
    }
    keep_equal(volumes, most, flags);
    let Some(least) = least_where(surpluses, flags) else {
        return;
    };
    keep_equal(surpluses, least, flags);
}

/// Draws the curves of a ladder, and flags the best limits.
fn draw(
    ladder: &Ladder,
    demands: &mut [u64],
    supplies: &mut [u64],
    volumes: &mut [u64],
    surpluses: &mut [u64],
    best: &mut [u64],
)
    requires demands { length demands.old ≡ length ladder.now.bids }
    requires supplies { length supplies.old ≡ length ladder.now.bids }
    requires volumes { length volumes.old ≡ length ladder.now.bids }
    requires surpluses { length surpluses.old ≡ length ladder.now.bids }
    requires best { length best.old ≡ length ladder.now.bids }
    ensures sound { IsLadder ladder.now }
    ensures demands { demands.new ≡ falling_sums ladder.now.market_bids ladder.now.bids }
    ensures supplies { supplies.new ≡ rising_sums ladder.now.market_asks ladder.now.asks }
    ensures volumes { volumes.new ≡ zip2 min demands.new supplies.new }
    ensures surpluses { surpluses.new ≡ zip2 abs_diff demands.new supplies.new }
    ensures best { LeavesBest demands.new supplies.new ladder.now.present best.new }
{
    falling(ladder.market(Side::Bid), ladder.bids(), demands);
    rising(ladder.market(Side::Ask), ladder.asks(), supplies);
    lesser(demands, supplies, volumes);
    gap_size(demands, supplies, surpluses);
    ladder.flag_present(best);
    keep_best(demands, supplies, volumes, surpluses, best);
}

/// The rule that decides the price, if there is one, by the flags of the best limits.
fn rule_among(demands: &[u64], supplies: &[u64], best: &[u64]) -> Rule
    requires demands { length demands.now ≡ length best.now }
    requires supplies { length supplies.now ≡ length best.now }
    ensures { (low : ℕ) (book : List Order)
        → demands.now ≡ tick_values (demand book) low (length best.now)
        → supplies.now ≡ tick_values (supply book) low (length best.now)
        → AreMarked (ticks_from low (length best.now)) best.now (best_limits book)
        → IsDecidingRule book result }
{
    let Some(lowest) = first(best) else {
        return Rule::Market;
    };
    let Some(highest) = last(best) else {
        return Rule::Market;
    };
    if lowest == highest {
        return Rule::Single;
    }
    if supplies[highest] < demands[highest] {
        return Rule::Highest;
    }
    if demands[lowest] < supplies[lowest] {
        return Rule::Lowest;
    }
    Rule::Reference
}

/// A 0 for each tick.
fn no_shares(alloc: Global, ticks: usize) -> Result<Vec<u64>, AllocError>
    ensures { IfOk result (λ shares. length shares.items ≡ ticks) }
{
    vec![in alloc; 0; ticks]
}

impl Curves {
    /// Room for `ticks` ticks.
    pub(crate) fn open(alloc: Global, ticks: usize) -> Result<Curves, AllocError>
        ensures { IfOk result (HasRoomForTicks ticks) }
    {
        Ok(Curves {
            demands: no_shares(alloc, ticks)?,
            supplies: no_shares(alloc, ticks)?,
            volumes: no_shares(alloc, ticks)?,
            surpluses: no_shares(alloc, ticks)?,
            best: no_shares(alloc, ticks)?,
        })
    }

    /// Becomes the curves of a ladder.
    pub(crate) fn follow(&mut self, ladder: &Ladder)
        requires { HasRoomForTicks (length ladder.now.bids) self.old }
        ensures room { HasRoomForTicks (length ladder.now.bids) self.new }
        ensures curves { OfEachBook ladder.now (AreCurves ladder.now.low (length ladder.now.bids) self.new) }
    {
        draw(
            ladder,
            &mut self.demands,
            &mut self.supplies,
            &mut self.volumes,
            &mut self.surpluses,
            &mut self.best,
        );
    }

    /// The rule that decides the price, if there is one.
    pub(crate) fn rule(&self) -> Rule
        requires { HasRoomForTicks (length self.now.best.items) self.now }
        ensures { (low : ℕ) (book : List Order)
            → AreCurves low (length self.now.best.items) self.now book → IsDecidingRule book result }
    {
        rule_among(&self.demands, &self.supplies, &self.best)
    }
}
