//! `Delete`: an order leaves the book.
ghost use Rattle.std.specs.Prelude.{◌≡◌, OnErr};
ghost use Rattle.auction_terms.specs.Day as day;
ghost use Rattle.auction.specs.AuctionState.{outcome, IsOneCommand};

use super::DayState;
use auction_terms::{Refusal, Reply};

impl DayState {
    /// The member's own order leaves the book.
    #[tactic(auto, unfolding(auction_terms::specs::Day::delete))]
    pub(super) fn delete(&mut self, member: u8, id: u32, reply: &mut Reply) -> Result<(), Refusal>
        ensures outcome { outcome self.new reply.new result ≡ day.delete self.old.state member id }
        ensures refused { OnErr result (self.new ≡ self.old) }
        ensures one { IsOneCommand self.old self.new }
    {
        self.current()?;
        let order = self.own_order(member, id)?;
        self.book.delete(order);
        *reply = Reply::Deleted;
        Ok(())
    }
}
