//! The execution of orders.
ghost use Rattle.std.specs.Prelude.{◌≡◌, ◌+◌, ◌≤◌, ◌++◌, length, vec_len, vec_capacity};
ghost use Rattle.auction_terms.specs.declared.limits.TheConstants.{MAX_OPEN_ORDERS};
ghost use Rattle.auction_terms.specs.Auxiliary.OrderLists.{book_after_fill, book_after_fills, IsExecutable};
ghost use Rattle.auction_terms.specs.Auxiliary.OrderLists.{AreExecutable};
ghost use Rattle.auction_terms.specs.Allotment.{trades};
ghost use Rattle.auction.specs.Executions.{AreSmall};
ghost use Rattle.auction.specs.OpenOrders.{counted_orders, with_execution_at};

use super::LadderBook;
use super::counting::take;
use allocation::Desk;
use auction_terms::{Fill, Trade};

impl LadderBook {
    // Executes one fill.
    fn execute_one(&mut self, fill: Fill)
        requires { IsExecutable fill self.old.book.orders }
        ensures { self.new.book ≡ record self.old.book { orders = book_after_fill fill self.old.book.orders } }
    {
        let order = self.orders.reduce(fill.id, fill.quantity);
        take(&mut self.ladder, self.kind, order, fill.quantity);
    }

    // Executes fills, one after the other.
    fn execute(&mut self, fills: &[Fill])
        requires { AreExecutable fills.now self.old.book.orders }
        ensures { self.new.book ≡ record self.old.book { orders = book_after_fills fills.now self.old.book.orders } }
    {
        for fill in fills {
            self.execute_one(*fill);
        }
    }

    /// Executes the orders that count at the tick of a price: their fills are made at the desk, and their trades are
    /// added to those of the day. What is left of each order stays open, in its place.
    pub(in crate::book) fn uncross(&mut self, price: u32, desk: &mut Desk, tape: &mut Vec<Trade>)
        requires desk { self.old.book.max_open ≤ desk.old.room }
        requires tape { vec_len tape.old + length self.old.book.orders ≤ vec_capacity tape.old }
        ensures book { self.new.book ≡ with_execution_at price self.old.book }
        ensures tape { tape.new.items ≡ tape.old.items ++ trades (counted_orders self.old.book) price }
        ensures few { length (trades (counted_orders self.old.book) price) ≤ length self.old.book.orders }
        ensures small { AreSmall (trades (counted_orders self.old.book) price) }
        ensures bounded { length (trades (counted_orders self.old.book) price) ≤ MAX_OPEN_ORDERS }
        ensures room { desk.new.room ≡ desk.old.room }
        ensures capacity { vec_capacity tape.new ≡ vec_capacity tape.old }
    {
        desk.allocate(&self.orders, self.kind, price, tape);
        self.execute(desk.fills());
    }
}
