//! `Change`: other terms for an order.
ghost use Rattle.std.specs.Prelude.{◌≡◌, ◌<◌, OnErr};
ghost use Rattle.auction_terms.specs.Day as day;
ghost use Rattle.auction.specs.AuctionState.{outcome, IsOneCommand};

use super::{DayState, is_bad_limit, is_bad_quantity, refuse_if};
use auction_terms::{Limit, Order, Refusal, Reply};

// Whether an iceberg order would become a market order.
fn loses_limit(order: Order, limit: Limit) -> bool
    ensures { result ≡ day.loses_limit order limit }
{
    order.peak.is_some() && matches!(limit, Limit::Market)
}

impl DayState {
    /// The member's own order gets this limit and open quantity. With another limit or more quantity it goes last in
    /// time.
    #[tactic(auto, unfolding(auction_terms::specs::Day::change))]
    pub(super) fn change(
        &mut self,
        member: u8,
        id: u32,
        limit: Limit,
        quantity: u64,
        reply: &mut Reply,
    ) -> Result<(), Refusal>
        requires { self.old.stamps < self.old.config.max_calls }
        ensures outcome { outcome self.new reply.new result
            ≡ day.change self.old.config self.old.state member id limit quantity }
        ensures refused { OnErr result (self.new ≡ self.old) }
        ensures one { IsOneCommand self.old self.new }
    {
        self.current()?;
        refuse_if(is_bad_quantity(quantity), Refusal::BadQuantity)?;
        refuse_if(is_bad_limit(self.config, limit), Refusal::BadLimit)?;
        let order = self.own_order(member, id)?;
        refuse_if(loses_limit(order, limit), Refusal::BadPeak)?;
        let kept = self.book.change(order, limit, quantity);
        *reply = Reply::Changed { kept };
        Ok(())
    }
}
