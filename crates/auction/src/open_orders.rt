//! The open orders as they are listed.
ghost use Rattle.std.specs.Prelude.{◌≡◌, IfOk};
ghost use Rattle.auction_terms.specs.Priority.{orders_expiring, orders_in_priority};

use crate::Auction;
use auction_terms::OpenOrder;
use std::alloc::{AllocError, Global};

impl Auction {
    /// The open orders in price-time priority, of all members or of one: the bids, market orders first and then by the
    /// highest limit, and then the asks, market orders first and then by the lowest limit; at one limit the earlier
    /// place in time first. Orders that wait for another auction are among them, also after the day. Each comes with
    /// the shares that it shows and those that the trades of the day executed of it.
    ///
    /// The only error is that memory is refused.
    pub fn open_orders(
        &self,
        alloc: Global,
        member: Option<u8>,
    ) -> Result<Vec<OpenOrder>, AllocError>
        ensures { IfOk result (λ listed. listed.items ≡ orders_in_priority member self.now.state) }
    {
        self.day.open_orders(alloc, member)
    }

    /// The orders that an uncross now would take out because they are for its auction alone, in priority, with what
    /// would be left of them then: none after the day, and where the uncross would be interrupted.
    ///
    /// The only error is that memory is refused.
    pub fn expiring_orders(&self, alloc: Global) -> Result<Vec<OpenOrder>, AllocError>
        ensures { IfOk result (λ listed. listed.items ≡ orders_expiring self.now.config self.now.state) }
    {
        self.day.expiring_orders(alloc)
    }
}
