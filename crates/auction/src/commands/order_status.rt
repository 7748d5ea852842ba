//! `OrderStatus`: an order as it is.
ghost use Rattle.std.specs.Prelude.{◌≡◌};
ghost use Rattle.auction_terms.specs.Day as day;
ghost use Rattle.auction.specs.AuctionState.{outcome};

use super::DayState;
use auction_terms::{Refusal, Reply};

impl DayState {
    /// What is open of the member's own order, also after the day.
    #[tactic(auto, unfolding(auction_terms::specs::Day::order_status))]
    pub(super) fn order_status(&self, member: u8, id: u32, reply: &mut Reply) -> Result<(), Refusal>
        ensures { outcome self.now reply.new result ≡ day.order_status self.now.state member id }
    {
        let order = self.own_order(member, id)?;
        *reply = Reply::OpenOrder {
            side: order.side,
            limit: order.limit,
            quantity: order.quantity,
            visible: order.visible(),
        };
        Ok(())
    }
}
