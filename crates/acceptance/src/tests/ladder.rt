//! The ladder of two sides, and of a tick whose last order leaves.
//!
//! What looks at a ladder is lent it: a test that owns it would carry all that was added on to each `assert!`.

ghost use Rattle.std.specs.Prelude.{◌≡◌, length};
ghost use Rattle.tick_ladder.specs.TickLadder.{empty_ladder};

use auction_terms::{Limit, Side};
use std::alloc::AllocError;
use std::process::Abort;
use tick_ladder::Ladder;

/// Whether the ladder has the ticks from 5 to 12.
fn has_eight_ticks(ladder: &Ladder) -> bool {
    ladder.bids().len() == 8 && (ladder.low(), ladder.high()) == (5, 12)
}

/// Whether the last tick is present, with these best limits.
fn has_last_tick(ladder: &Ladder, best_bid: Option<u32>, best_ask: Option<u32>) -> bool
    requires { length ladder.now.bids ≡ 8 }
{
    ladder.is_present(7) && (ladder.best(Side::Bid), ladder.best(Side::Ask)) == (best_bid, best_ask)
}

/// Whether the last tick alone is flagged.
fn flags_last_tick(ladder: &Ladder) -> bool
    requires { length ladder.now.bids ≡ 8 }
{
    let mut flags = [7; 8];
    ladder.flag_present(&mut flags);
    flags == [0, 0, 0, 0, 0, 0, 0, 1]
}

fn has_no_tick(ladder: &Ladder) -> bool
    requires { length ladder.now.bids ≡ 8 }
{
    !ladder.is_present(7) && (ladder.last_before(8), ladder.first_from(0)) == (None, None)
}

/// A tick with bids and asks stays present until both have left.
fn last_tick_is_left(rt: &impl Abort, ladder: &mut Ladder)
    requires { ladder.old ≡ empty_ladder 5 12 }
{
    assert!(rt; has_eight_ticks(ladder));
    ladder.add(Side::Bid, Limit::At(12), 50);
    ladder.add(Side::Ask, Limit::At(12), 30);
    assert!(rt; has_last_tick(ladder, Some(12), Some(12)) && flags_last_tick(ladder));
    ladder.take(Side::Bid, Limit::At(12), 50);
    assert!(rt; has_last_tick(ladder, None, Some(12)));
    ladder.take(Side::Ask, Limit::At(12), 30);
    assert!(rt; has_no_tick(ladder));
}

#[test]
fn last_order_leaves(rt: HostRuntime) -> Result<(), AllocError> {
    let mut ladder = Ladder::open(rt.alloc(), 5, 12)?;
    last_tick_is_left(&rt, &mut ladder);
    Ok(())
}

/// Adds bids at 7 and 9, asks at 8 and 10, and a market order of each side.
fn add_six(ladder: &mut Ladder)
    requires { ladder.old ≡ empty_ladder 5 12 }
    ensures { length ladder.new.bids ≡ 8 }
{
    ladder.add(Side::Bid, Limit::At(7), 30);
    ladder.add(Side::Bid, Limit::At(9), 20);
    ladder.add(Side::Ask, Limit::At(8), 10);
    ladder.add(Side::Ask, Limit::At(10), 40);
    ladder.add(Side::Bid, Limit::Market, 5);
    ladder.add(Side::Ask, Limit::Market, 3);
}

/// Whether the six stand at their limits, and the market orders of each side apart from them.
fn has_six(ladder: &Ladder) -> bool
    requires { length ladder.now.bids ≡ 8 }
{
    (ladder.best(Side::Bid), ladder.best(Side::Ask)) == (Some(9), Some(8))
        && (ladder.market(Side::Bid), ladder.market(Side::Ask)) == (5, 3)
        && (ladder.bids_at(2), ladder.asks_at(5)) == (30, 40)
        && ladder.asks().first() == Some(&0)
}

/// Whether the six cross between the fourth tick and the sixth.
fn crosses(ladder: &Ladder) -> bool
    requires { length ladder.now.bids ≡ 8 }
{
    let crossing = ladder.crossing();
    (crossing.place, crossing.demand, crossing.below) == (4, 25, 13)
        && (ladder.last_before(4), ladder.first_from(5)) == (Some(3), Some(5))
}

// The best limits, the market orders, and where bids at 7 and 9 cross asks at 8 and 10.
#[test]
fn both_sides(rt: HostRuntime) -> Result<(), AllocError> {
    let mut ladder = Ladder::open(rt.alloc(), 5, 12)?;
    add_six(&mut ladder);
    assert!(rt; has_six(&ladder));
    assert!(rt; crosses(&ladder));
    Ok(())
}
