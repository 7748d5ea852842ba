//! `Uncross`: the end of a call phase. Its price executes orders, or extends the call phase once, or there is none.
ghost use Rattle.std.specs.Prelude.{◌≡◌, Some, true, IfSome, OnErr};
ghost use Rattle.auction_terms.specs.Day as day;
ghost use Rattle.auction_terms.specs.AuctionPrice.{price as auction_price};
ghost use Rattle.auction.specs.AuctionState.{current_orders, outcome, with_state, IsOneCommand, IsBoundedBy};

use super::{DayState, refuse_if};
use auction_terms::{AuctionKind, Price, Refusal, Reply};

// Whether a tick lies more than the range away from the reference.
fn is_outside(range: Option<u32>, reference: u32, tick: u32) -> bool
    ensures { result ≡ day.is_outside range reference tick }
{
    match range {
        None => false,
        Some(range) => tick.abs_diff(reference) > range,
    }
}

fn next_auction(kind: AuctionKind) -> Option<AuctionKind>
    ensures { result ≡ day.next_auction kind }
{
    match kind {
        AuctionKind::Opening => Some(AuctionKind::Intraday),
        AuctionKind::Intraday => Some(AuctionKind::Closing),
        AuctionKind::Closing => None,
    }
}

impl DayState {
    // The price of the orders that count, if they have one.
    fn price(&mut self) -> Option<Price>
        ensures state { self.new ≡ self.old }
        ensures price { result ≡ auction_price (current_orders self.old.state) self.old.state.reference }
        ensures within { IfSome result (λ price. IsBoundedBy self.old.config price.tick) }
    {
        self.book.price(self.reference)
    }

    // Whether this price is the first one of the call phase that lies outside the range.
    pub(super) fn is_interrupted(&self, tick: u32) -> bool
        ensures { result ≡ day.is_interrupted self.now.config self.now.state tick }
    {
        !self.extended && is_outside(self.config.range, self.reference, tick)
    }

    // The call phase goes on: nothing is executed.
    fn extend(&mut self, price: Price) -> Reply
        ensures state { self.new ≡ with_state self.old (record self.old.state { extended = true }) }
        ensures reply { result ≡ Reply.Interrupted price }
    {
        self.extended = true;
        Reply::Interrupted(price)
    }

    // The auction ends without a price.
    fn end_without_price(&mut self, kind: AuctionKind) -> Reply
        requires { self.old.state.auction ≡ Some kind }
        ensures state { self.new ≡ with_state self.old (day.end_without_price self.old.state kind).0 }
        ensures reply { result ≡ (day.end_without_price self.old.state kind).1 }
    {
        self.book.end_auction();
        self.auction = next_auction(kind);
        self.extended = false;
        Reply::Uncrossed {
            kind,
            trades: 0,
            price: None,
        }
    }

    // The auction ends at this price, which is the new reference.
    fn end_at_price(&mut self, kind: AuctionKind, price: Price) -> Reply
        requires current { self.old.state.auction ≡ Some kind }
        requires within { IsBoundedBy self.old.config price.tick }
        ensures state { self.new ≡ with_state self.old (day.end_at_price self.old.state kind price).0 }
        ensures reply { result ≡ (day.end_at_price self.old.state kind price).1 }
    {
        let trades = self.book.uncross(price.tick, &mut self.tape);
        self.book.end_auction();
        self.reference = price.tick;
        self.auction = next_auction(kind);
        self.extended = false;
        Reply::Uncrossed {
            kind,
            trades,
            price: Some(price),
        }
    }

    // The end of the call phase, with this price or none.
    fn end_call_phase(&mut self, kind: AuctionKind, price: Option<Price>) -> Reply
        requires current { self.old.state.auction ≡ Some kind }
        requires within { IfSome price (λ price. IsBoundedBy self.old.config price.tick) }
        ensures state { self.new ≡ with_state self.old
            (day.end_call_phase self.old.config self.old.state kind price).0 }
        ensures reply { result ≡ (day.end_call_phase self.old.config self.old.state kind price).1 }
    {
        match price {
            None => self.end_without_price(kind),
            Some(price) if self.is_interrupted(price.tick) => self.extend(price),
            Some(price) => self.end_at_price(kind, price),
        }
    }

    /// The operator ends the call phase.
    #[tactic(auto, unfolding(auction_terms::specs::Day::uncross))]
    pub(super) fn uncross(&mut self, member: u8, reply: &mut Reply) -> Result<(), Refusal>
        ensures outcome { outcome self.new reply.new result ≡ day.uncross self.old.config self.old.state member }
        ensures refused { OnErr result (self.new ≡ self.old) }
        ensures one { IsOneCommand self.old self.new }
    {
        let kind = self.current()?;
        refuse_if(member != 0, Refusal::NotOperator)?;
        let price = self.price();
        *reply = self.end_call_phase(kind, price);
        Ok(())
    }
}
