//! The open orders, what is known of their price, and the desk where they are executed.
ghost use Rattle.std.specs.Prelude.{◌≡◌, ◌+◌, ◌<◌, ◌≤◌, ◌++◌, length, false, None, IfSome, IfOk, nat_le};
ghost use Rattle.std.specs.Prelude.{vec_len, vec_capacity};
ghost use Rattle.auction_terms.specs.Book.{order_of_new};
ghost use Rattle.auction_terms.specs.Edits.{order_with, keeps_place};
ghost use Rattle.auction_terms.specs.AuctionPrice.{price as auction_price};
ghost use Rattle.auction_terms.specs.Allotment.{trades};
ghost use Rattle.auction_terms.specs.Ladder.{ladder_of};
ghost use Rattle.auction_terms.specs.Day.{display_at, is_bad_peak, is_bad_quantity};
ghost use Rattle.tick_ladder.specs.TickLadder.{IsLadderOf};
ghost use Rattle.auction.specs.ConfigFault.{open_fault};
ghost use Rattle.auction.specs.Executions.{AreSmall};
ghost use Rattle.auction.specs.OpenOrders.{no_orders, counted_orders, IsTickIn, IsLimitIn, IsOpenIn};
ghost use Rattle.auction.specs.OpenOrders.{with_order, with_change, without_order, with_execution_at, in_next_auction};
ghost use Rattle.auction.specs.KnownPrice.{IsPriceAt};

mod copying;
mod counted;
mod known;
mod listing;
mod refilling;

use allocation::Desk;
use auction_terms::{Config, Display, Limit, NewOrder, Order, Price, Trade};
use counted::LadderBook;
use known::{KnownPrice, forget};
use std::alloc::{AllocError, Global};
use std::marker::Model;
use tick_ladder::Ladder;

/// The open orders with the ladder of those that count in the current auction, and the desk where they are executed.
///
/// The price is found when it is asked for, and kept until an order that decides it comes or goes. Only `open` takes
/// memory.
#[derive(Drop)]
pub(crate) struct Book {
    counted: LadderBook,
    desk: Desk,
    // The price, once it was asked for.
    known: Option<KnownPrice>,
}

impl Model for Book {
    ghost use Rattle.std.specs.Prelude.{◌≤◌, IfSome};
    ghost use Rattle.auction.specs.OpenOrders.{OpenOrders};
    ghost use Rattle.auction.specs.KnownPrice.{IsKnownOf};

    ghost Value = { OpenOrders };

    ghost view = { λ b. b.counted.book };

    ghost invariant = { λ b. (b.counted.book.max_open ≤ b.desk.room) × IfSome b.known (IsKnownOf b.counted.book) };
}

impl Book {
    /// No orders, with room for all that the config allows, in the opening auction. It fails only where memory is
    /// refused.
    pub(crate) fn open(alloc: Global, config: Config) -> Result<Book, AllocError>
        requires { open_fault config ≡ None }
        ensures { IfOk result (λ b. b ≡ no_orders config) }
    {
        Ok(Book {
            counted: LadderBook::open(alloc, config)?,
            desk: Desk::open(alloc, config.max_open)?,
            known: None,
        })
    }

    /// Whether there is no room for another order.
    pub(crate) fn is_full(&self) -> bool
        ensures { result ≡ nat_le self.now.max_open (length self.now.orders) }
    {
        self.counted.is_full()
    }

    /// The open order with an id.
    pub(crate) fn get(&self, id: u32) -> Option<Order>
        ensures { result ≡ order_with id self.now.orders }
    {
        self.counted.get(id)
    }

    /// The ladder of the orders that count.
    pub(crate) fn ladder(&self) -> &Ladder
        ensures value { result.now ≡ ladder_of self.now.low self.now.ticks (counted_orders self.now) }
        ensures book { IsLadderOf result.now (counted_orders self.now) }
    {
        self.counted.ladder()
    }

    // The price at this reference, kept for the next question.
    fn keep_price_at(&mut self, reference: u32) -> KnownPrice
        requires { IsTickIn self.old reference }
        ensures book { self.new ≡ self.old }
        ensures price { IsPriceAt reference (counted_orders self.old) result }
        ensures within { IfSome result.price (λ price. IsTickIn self.old price.tick) }
    {
        let known = self.counted.price_at(reference, &self.known);
        self.known = Some(known);
        known
    }

    /// The price at this reference of the orders that count, if they have one. It is kept for the next question.
    pub(crate) fn price(&mut self, reference: u32) -> Option<Price>
        requires { IsTickIn self.old reference }
        ensures book { self.new ≡ self.old }
        ensures price { result ≡ auction_price (counted_orders self.old) reference }
        ensures within { IfSome result (λ price. IsTickIn self.old price.tick) }
    {
        self.keep_price_at(reference).price
    }

    /// What is shown of the orders that count: the price at this reference, or the best limits of both sides where
    /// there is none.
    pub(crate) fn display(&self, reference: u32) -> Display
        requires { IsTickIn self.now reference }
        ensures { result ≡ display_at (counted_orders self.now) reference }
    {
        self.counted.price_at(reference, &self.known).display()
    }

    /// The same as [`Book::display`], of which the price is kept for the next question.
    #[inline(always)]
    pub(crate) fn show(&mut self, reference: u32) -> Display
        requires { IsTickIn self.old reference }
        ensures book { self.new ≡ self.old }
        ensures display { result ≡ display_at (counted_orders self.old) reference }
    {
        self.counted.show_at(reference, &mut self.known)
    }

    /// Adds a new order as the last one in time, under the next id, which it returns.
    pub(crate) fn enter(&mut self, new: NewOrder) -> u32
        requires room { length self.old.orders < self.old.max_open }
        requires stamps { self.old.stamps < self.old.max_calls }
        requires quantity { is_bad_quantity new.quantity ≡ false }
        requires peak { is_bad_peak new.limit new.quantity new.peak ≡ false }
        requires limit { IsLimitIn self.old new.limit }
        ensures id { result ≡ self.old.entered + 1 }
        ensures book { self.new ≡ with_order (order_of_new result new) self.old }
    {
        let order = self.counted.enter(new);
        forget(&mut self.known, self.counted.kind(), order);
        order.id
    }

    /// Gives an open order another limit and quantity, in ticks and shares, and says whether it kept its place in time:
    /// it does with the same limit and no more quantity.
    pub(crate) fn change(&mut self, order: Order, limit: Limit, quantity: u64) -> bool
        requires open { IsOpenIn self.old.orders order }
        requires stamps { self.old.stamps < self.old.max_calls }
        requires quantity { is_bad_quantity quantity ≡ false }
        requires limit { IsLimitIn self.old limit }
        ensures kept { result ≡ keeps_place order limit quantity }
        ensures book { self.new ≡ with_change order limit quantity self.old }
    {
        let kept = self.counted.change(order, limit, quantity);
        let changed = Order {
            limit,
            quantity,
            ..order
        };
        let kind = self.counted.kind();
        forget(&mut self.known, kind, order);
        forget(&mut self.known, kind, changed);
        kept
    }

    /// Removes an open order.
    pub(crate) fn delete(&mut self, order: Order)
        requires { IsOpenIn self.old.orders order }
        ensures { self.new ≡ without_order order self.old }
    {
        self.counted.remove(order);
        forget(&mut self.known, self.counted.kind(), order);
    }

    /// Executes the orders that count at the tick of a price, adds the trades to those of the day, and returns how many
    /// they are. What is left of each order stays open, in its place.
    pub(crate) fn uncross(&mut self, price: u32, tape: &mut Vec<Trade>) -> u32
        requires room { vec_len tape.old + length self.old.orders ≤ vec_capacity tape.old }
        ensures book { self.new ≡ with_execution_at price self.old }
        ensures tape { tape.new.items ≡ tape.old.items ++ trades (counted_orders self.old) price }
        ensures count { result ≡ length (trades (counted_orders self.old) price) }
        ensures few { result ≤ length self.old.orders }
        ensures small { AreSmall (trades (counted_orders self.old) price) }
        ensures capacity { vec_capacity tape.new ≡ vec_capacity tape.old }
    {
        self.known = None;
        let before = tape.len();
        self.counted.uncross(price, &mut self.desk, tape);
        (tape.len() - before) as u32
    }

    /// Removes the orders for this auction alone, and goes on to the next, in which the orders for it alone count too.
    /// After the closing auction just the orders for every auction count.
    pub(crate) fn end_auction(&mut self)
        ensures { self.new ≡ in_next_auction self.old }
    {
        self.known = None;
        self.counted.end_auction();
    }
}
