//! The end of an auction: the orders for it alone leave, and those for the next alone are counted.
ghost use Rattle.std.specs.Prelude.{◌≡◌, ◌≤◌, true, length, IfSome};
ghost use Rattle.auction_terms.specs.declared.AuctionKind.TheVariants.{Intraday, Closing};
ghost use Rattle.auction_terms.specs.Book.{is_restricted_to};
ghost use Rattle.tick_ladder.specs.TickLadder.{IsInBounds};
ghost use Rattle.auction.specs.OpenOrders.{without_restricted_orders, in_next_auction};
ghost use Rattle.auction.specs.LadderBook.{with_closing, FitsIn, HasAllOrders, AddsNoOrder, HasNoRestrictedAt};
ghost use Rattle.auction.specs.LadderBook.{HasSameStaying};

use super::LadderBook;
use auction_terms::{AuctionKind, Stamped};
use tick_ladder::Ladder;

// Adds the order that was found, if there is one and it is for the closing auction alone.
fn admit_one(ladder: &mut Ladder, found: Option<Stamped>)
    requires in_bounds { IfSome found (λ s. IsInBounds ladder.old s.order.limit) }
    requires fits { IfSome found (λ s. is_restricted_to Closing s.order.restriction ≡ true
        → FitsIn ladder.old s.order.quantity) }
    ensures { ladder.new ≡ with_closing found ladder.old }
{
    let Some(stamped) = found else {
        return;
    };
    let order = stamped.order;
    if order.is_only_for(AuctionKind::Closing) {
        ladder.add(order.side, order.limit, order.quantity);
    }
}

impl LadderBook {
    // Goes on from the intraday to the closing auction: the orders for that alone, which waited until now, are added to
    // the ladder.
    fn admit(&mut self)
        requires { self.old.book.kind ≡ Intraday }
        ensures { self.new.book ≡ record self.old.book { kind = Closing } }
    {
        for place in 0..self.orders.places() {
            admit_one(&mut self.ladder, self.orders.at(place));
        }
        self.kind = AuctionKind::Closing;
    }

    // How many places a walk through all open orders goes through.
    fn places(&self) -> usize
        ensures few { length self.now.slots ≤ result }
        ensures walk { HasAllOrders self.now }
    {
        self.orders.places()
    }

    // Removes the order at a place, if there is one and it is for this auction alone.
    fn dismiss_at(&mut self, place: usize)
        requires { HasAllOrders self.old }
        ensures stay { HasSameStaying self.old.book self.new.book }
        ensures walk { HasAllOrders self.new }
        ensures still { AddsNoOrder self.old self.new }
        ensures passed { HasNoRestrictedAt self.new place }
    {
        let Some(stamped) = self.orders.at(place) else {
            return;
        };
        if stamped.order.is_only_for(self.kind) {
            self.remove(stamped.order);
        }
    }

    // Removes the orders for this auction alone.
    fn dismiss(&mut self)
        ensures { self.new.book ≡ without_restricted_orders self.old.book }
    {
        for place in 0..self.places() {
            self.dismiss_at(place);
        }
    }

    /// Removes the orders for this auction alone, and goes on to the next, in which the orders for it alone count too.
    /// After the closing auction just the orders for every auction count.
    pub(in crate::book) fn end_auction(&mut self)
        ensures { self.new.book ≡ in_next_auction self.old.book }
    {
        match self.kind {
            AuctionKind::Intraday => self.admit(),
            _ => {
                self.dismiss();
                self.kind = AuctionKind::Intraday;
            }
        }
    }
}
