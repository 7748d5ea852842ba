//! The book and its desk emptied, and copied.
ghost use Rattle.std.specs.Prelude.{◌≡◌, ◌≤◌, IfOk};
ghost use Rattle.auction.specs.OpenOrders.{without_orders};

use super::Book;
use allocation::Desk;
use std::alloc::{AllocError, Global};

impl Book {
    /// Removes all orders, as if none had been entered, and goes back to the opening auction. It takes no memory.
    pub(crate) fn reset(&mut self)
        ensures { self.new ≡ without_orders self.old }
    {
        self.known = None;
        self.counted.reset();
    }

    /// The same orders, in a book of its own, with a desk for `max_open`. It fails only where memory is refused.
    pub(crate) fn copied(&self, alloc: Global, max_open: u32) -> Result<Book, AllocError>
        requires { self.now.max_open ≤ max_open }
        ensures { IfOk result (λ b. b ≡ self.now) }
    {
        Ok(Book {
            counted: self.counted.copied(alloc)?,
            desk: Desk::open(alloc, max_open)?,
            known: self.known,
        })
    }
}
