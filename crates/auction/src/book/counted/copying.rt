//! The book emptied, and the book copied.
ghost use Rattle.std.specs.Prelude.{◌≡◌, IfOk};
ghost use Rattle.auction.specs.OpenOrders.{without_orders};

use super::LadderBook;
use auction_terms::AuctionKind;
use std::alloc::{AllocError, Global};

impl LadderBook {
    /// Removes all orders, as if none had been entered, and goes back to the opening auction. It takes no memory.
    pub(in crate::book) fn reset(&mut self)
        ensures { self.new.book ≡ without_orders self.old.book }
    {
        self.orders.reset();
        self.ladder.reset();
        self.kind = AuctionKind::Opening;
    }

    /// The same orders, in a book of its own with as much room. It fails only where memory is refused.
    pub(in crate::book) fn copied(&self, alloc: Global) -> Result<LadderBook, AllocError>
        ensures { IfOk result (λ b. b.book ≡ self.now.book) }
    {
        Ok(LadderBook {
            orders: self.orders.copied(alloc)?,
            ladder: self.ladder.copied(alloc)?,
            kind: self.kind,
        })
    }
}
