//! The open orders with the ladder of those that count.
ghost use Rattle.std.specs.Prelude.{◌≡◌, ◌+◌, ◌<◌, length, false, None, IfSome, IfOk, nat_le};
ghost use Rattle.auction_terms.specs.Book.{order_of_new};
ghost use Rattle.auction_terms.specs.Edits.{order_with, keeps_place, with_terms};
ghost use Rattle.auction_terms.specs.Ladder.{ladder_of};
ghost use Rattle.auction_terms.specs.Day.{display_at, is_bad_peak, is_bad_quantity};
ghost use Rattle.tick_ladder.specs.TickLadder.{IsLadderOf};
ghost use Rattle.auction.specs.ConfigFault.{open_fault};
ghost use Rattle.auction.specs.OpenOrders.{no_orders, counted_orders, IsTickIn, IsLimitIn, IsOpenIn};
ghost use Rattle.auction.specs.OpenOrders.{with_order, with_change, without_order};
ghost use Rattle.auction.specs.LadderBook.{HasAllOrders, AddsNoOrder, HasNoOrderWith};
ghost use Rattle.auction.specs.KnownPrice.{IsKnownOf, IsPriceAt, KeepsKnown, known_after, known_after_both};

mod copying;
mod counting;
mod ending;
mod executing;
mod listing;
mod refilling;

use super::known::{KnownPrice, find};
use auction_terms::{AuctionKind, Config, Display, Limit, NewOrder, Order};
use counting::{add, take};
use order_book::Orders;
use std::alloc::{AllocError, Global};
use std::marker::Model;
use tick_ladder::Ladder;

/// The open orders, and the ladder of those that count in the current auction.
///
/// An order for another auction alone waits: it is open, but not in the ladder. Each call changes the ladder for the
/// order concerned alone, and only `open` takes memory.
#[derive(Drop)]
pub(super) struct LadderBook {
    orders: Orders,
    ladder: Ladder,
    // The auction whose orders the ladder has.
    kind: AuctionKind,
}

impl Model for LadderBook {
    ghost use Rattle.auction.specs.LadderBook.{LadderBookView, ladder_book_view, IsLadderBook};

    ghost Value = { LadderBookView };

    ghost view = { λ b. ladder_book_view b.orders b.ladder b.kind };

    ghost invariant = { λ b. IsLadderBook b.orders b.ladder b.kind };
}

impl LadderBook {
    /// No orders, with room for all that the config allows, in the opening auction. It fails only where memory is
    /// refused.
    pub(super) fn open(alloc: Global, config: Config) -> Result<LadderBook, AllocError>
        requires { open_fault config ≡ None }
        ensures { IfOk result (λ b. b.book ≡ no_orders config) }
    {
        Ok(LadderBook {
            orders: Orders::open(alloc, config.max_open, config.max_calls)?,
            ladder: Ladder::open(alloc, config.low, config.high)?,
            kind: AuctionKind::Opening,
        })
    }

    /// The auction whose orders count.
    pub(super) fn kind(&self) -> AuctionKind
        ensures { result ≡ self.now.book.kind }
    {
        self.kind
    }

    /// Whether there is no room for another order.
    pub(super) fn is_full(&self) -> bool
        ensures { result ≡ nat_le self.now.book.max_open (length self.now.book.orders) }
    {
        self.orders.full()
    }

    /// The open order with an id.
    pub(super) fn get(&self, id: u32) -> Option<Order>
        ensures { result ≡ order_with id self.now.book.orders }
    {
        self.orders.get(id)
    }

    /// The ladder of the orders that count.
    pub(super) fn ladder(&self) -> &Ladder
        ensures value { result.now ≡ ladder_of self.now.book.low self.now.book.ticks (counted_orders self.now.book) }
        ensures book { IsLadderOf result.now (counted_orders self.now.book) }
    {
        &self.ladder
    }

    /// The price at a reference of the orders that count: what is known of it, or else what is found.
    pub(super) fn price_at(&self, reference: u32, known: &Option<KnownPrice>) -> KnownPrice
        requires tick { IsTickIn self.now.book reference }
        requires known { IfSome known.now (IsKnownOf self.now.book) }
        ensures known { IsKnownOf self.now.book result }
        ensures price { IsPriceAt reference (counted_orders self.now.book) result }
        ensures within { IfSome result.price (λ price. IsTickIn self.now.book price.tick) }
    {
        match known {
            Some(known) if known.reference == reference => *known,
            _ => find(&self.ladder, reference),
        }
    }

    /// What is shown at a reference of the orders that count: by what is known of the price there, or else by what is
    /// found, which is known then.
    #[inline(always)]
    pub(super) fn show_at(&self, reference: u32, known: &mut Option<KnownPrice>) -> Display
        requires tick { IsTickIn self.now.book reference }
        requires known { IfSome known.old (IsKnownOf self.now.book) }
        ensures known { IfSome known.new (IsKnownOf self.now.book) }
        ensures display { result ≡ display_at (counted_orders self.now.book) reference }
    {
        match known {
            Some(kept) if kept.reference == reference => kept.display(),
            _ => {
                let found = find(&self.ladder, reference);
                *known = Some(found);
                found.display()
            }
        }
    }

    /// Adds a new order as the last one in time, under the next id, and returns it.
    pub(super) fn enter(&mut self, new: NewOrder) -> Order
        requires room { length self.old.book.orders < self.old.book.max_open }
        requires stamps { self.old.book.stamps < self.old.book.max_calls }
        requires quantity { is_bad_quantity new.quantity ≡ false }
        requires peak { is_bad_peak new.limit new.quantity new.peak ≡ false }
        requires limit { IsLimitIn self.old.book new.limit }
        ensures order { result ≡ order_of_new (self.old.book.entered + 1) new }
        ensures book { self.new.book ≡ with_order result self.old.book }
        ensures known { KeepsKnown (known_after result) self.old.book self.new.book }
    {
        let order = self.orders.append(new);
        add(&mut self.ladder, self.kind, order);
        order
    }

    /// Gives an open order another limit and quantity, in ticks and shares, and says whether it kept its place in time:
    /// it does with the same limit and no more quantity.
    pub(super) fn change(&mut self, order: Order, limit: Limit, quantity: u64) -> bool
        requires open { IsOpenIn self.old.book.orders order }
        requires stamps { self.old.book.stamps < self.old.book.max_calls }
        requires quantity { is_bad_quantity quantity ≡ false }
        requires limit { IsLimitIn self.old.book limit }
        ensures kept { result ≡ keeps_place order limit quantity }
        ensures book { self.new.book ≡ with_change order limit quantity self.old.book }
        ensures known { KeepsKnown (known_after_both order
            (with_terms limit quantity order)) self.old.book self.new.book }
    {
        let kept = self.orders.change(order.id, limit, quantity);
        take(&mut self.ladder, self.kind, order, order.quantity);
        let changed = Order {
            limit,
            quantity,
            ..order
        };
        add(&mut self.ladder, self.kind, changed);
        kept
    }

    /// Removes an open order.
    pub(super) fn remove(&mut self, order: Order)
        requires { IsOpenIn self.old.book.orders order }
        ensures book { self.new.book ≡ without_order order self.old.book }
        ensures known { KeepsKnown (known_after order) self.old.book self.new.book }
        ensures walk { HasAllOrders self.new }
        ensures still { AddsNoOrder self.old self.new }
        ensures gone { HasNoOrderWith order.id self.new }
    {
        self.orders.delete(order.id);
        take(&mut self.ladder, self.kind, order, order.quantity);
    }
}
