//! The limits around the crossing, side by side in lanes.

ghost use Rattle.std.specs.Prelude.{◌≡◌, ◌+◌, List};
ghost use Rattle.auction_terms.specs.declared.Order.{Order};
ghost use Rattle.std.specs.Simd.Lanes.{zip2};
ghost use Rattle.auction_terms.specs.Ladder.{flag_of};
ghost use Rattle.tick_ladder.specs.TickLadder.{IsLadderOf};
ghost use Rattle.tick_ladder.specs.OccupiedPlaces.{IsCrossingOf};
ghost use Rattle.price_rules.specs.Around.{IsAround, here_at, few_limits};
ghost use Rattle.price_rules.specs.Candidates.{IsCandidate, AreCandidates, AreMarked, in_lanes};

use crate::surroundings::Around;
use tick_ladder::{Crossing, Ladder};

/// A limit with the shares wanted and offered there. With no flag there is none.
#[derive(Clone, Copy)]
pub struct Candidate {
    pub tick: u32,
    pub demand: u64,
    pub supply: u64,
    pub flag: u64,
}

/// Candidates, a lane for each.
#[derive(Clone, Copy)]
pub struct Lanes {
    pub ticks: [u32; 8],
    pub demands: [u64; 8],
    pub supplies: [u64; 8],
    pub flags: [u64; 8],
}

const NO_CANDIDATE: Candidate = Candidate {
    tick: 0,
    demand: 0,
    supply: 0,
    flag: 0,
};

/// The second limit before the crossing.
fn far_limit(ladder: &Ladder, around: &Around) -> Candidate
    requires { IsAround ladder.now around.now }
    ensures { IsCandidate ladder.now around.now.far result }
{
    match (around.far, around.near) {
        (Some(far), Some(near)) => Candidate {
            tick: ladder.low() + far as u32,
            demand: around.crossing.demand + ladder.bids_at(near) + ladder.bids_at(far),
            supply: around.crossing.below - ladder.asks_at(near),
            flag: 1,
        },
        _ => NO_CANDIDATE,
    }
}

/// The limit before the crossing.
fn near_limit(ladder: &Ladder, around: &Around) -> Candidate
    requires { IsAround ladder.now around.now }
    ensures { IsCandidate ladder.now around.now.near result }
{
    match around.near {
        Some(near) => Candidate {
            tick: ladder.low() + near as u32,
            demand: around.crossing.demand + ladder.bids_at(near),
            supply: around.crossing.below,
            flag: 1,
        },
        None => NO_CANDIDATE,
    }
}

/// The crossing, if its place has bids or asks.
fn limit_here(ladder: &Ladder, crossing: Crossing) -> Candidate
    requires { IsCrossingOf ladder.now crossing }
    ensures { IsCandidate ladder.now (here_at ladder.now crossing.place) result }
{
    let asks = ladder.asks_at(crossing.place);
    if ladder.bids_at(crossing.place) > 0 || asks > 0 {
        Candidate {
            tick: ladder.low() + crossing.place as u32,
            demand: crossing.demand,
            supply: crossing.below + asks,
            flag: 1,
        }
    } else {
        NO_CANDIDATE
    }
}

/// The limit after the crossing.
fn limit_after(ladder: &Ladder, around: &Around) -> Candidate
    requires { IsAround ladder.now around.now }
    ensures { IsCandidate ladder.now around.now.after result }
{
    match around.after {
        Some(after) => Candidate {
            tick: ladder.low() + after as u32,
            demand: around.crossing.demand - ladder.bids_at(around.crossing.place),
            supply: around.crossing.below
                + ladder.asks_at(around.crossing.place)
                + ladder.asks_at(after),
            flag: 1,
        },
        None => NO_CANDIDATE,
    }
}

/// Four candidates, and four empty lanes.
fn side_by_side(a: Candidate, b: Candidate, c: Candidate, d: Candidate) -> Lanes
    ensures { result ≡ in_lanes a b c d }
{
    Lanes {
        ticks: [a.tick, b.tick, c.tick, d.tick, 0, 0, 0, 0],
        demands: [a.demand, b.demand, c.demand, d.demand, 0, 0, 0, 0],
        supplies: [a.supply, b.supply, c.supply, d.supply, 0, 0, 0, 0],
        flags: [a.flag, b.flag, c.flag, d.flag, 0, 0, 0, 0],
    }
}

/// The limits around the crossing, from the lowest to the highest.
pub fn limits_around(ladder: &Ladder, around: &Around) -> Lanes
    requires around { IsAround ladder.now around.now }
    requires flags { ladder.now.present ≡ zip2 flag_of ladder.now.bids ladder.now.asks }
    ensures candidates { (book : List Order) → IsLadderOf ladder.now book → AreCandidates book result }
    ensures marked { AreMarked result.ticks result.flags (few_limits ladder.now around.now) }
{
    let far = far_limit(ladder, around);
    let near = near_limit(ladder, around);
    let here = limit_here(ladder, around.crossing);
    let after = limit_after(ladder, around);
    side_by_side(far, near, here, after)
}
