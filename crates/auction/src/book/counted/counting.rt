//! The ladder of the orders that count, order by order.
ghost use Rattle.std.specs.Prelude.{◌≡◌, ◌≤◌, true};
ghost use Rattle.auction_terms.specs.Book.{participates_in};
ghost use Rattle.auction_terms.specs.Ladder.{quantity_in};
ghost use Rattle.tick_ladder.specs.TickLadder.{IsInBounds};
ghost use Rattle.auction.specs.LadderBook.{ladder_with, ladder_less, FitsIn};

use auction_terms::{AuctionKind, Order};
use tick_ladder::Ladder;

/// Adds an order to the ladder, if it counts in the auction.
pub(super) fn add(ladder: &mut Ladder, kind: AuctionKind, order: Order)
    requires in_bounds { IsInBounds ladder.old order.limit }
    requires fits { FitsIn ladder.old order.quantity }
    ensures { ladder.new ≡ ladder_with kind order ladder.old }
{
    if order.participates_in(kind) {
        ladder.add(order.side, order.limit, order.quantity);
    }
}

/// Takes a quantity of an order from the ladder, if the order counts in the auction.
pub(super) fn take(ladder: &mut Ladder, kind: AuctionKind, order: Order, quantity: u64)
    requires in_bounds { IsInBounds ladder.old order.limit }
    requires stands { participates_in kind order ≡ true → quantity ≤ quantity_in ladder.old order.side order.limit }
    ensures { ladder.new ≡ ladder_less kind order quantity ladder.old }
{
    if order.participates_in(kind) {
        ladder.take(order.side, order.limit, quantity);
    }
}
