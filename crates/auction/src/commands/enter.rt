//! `Enter`: a new order.
ghost use Rattle.std.specs.Prelude.{◌≡◌, ◌<◌, OnErr};
ghost use Rattle.auction_terms.specs.Day as day;
ghost use Rattle.auction.specs.AuctionState.{outcome, IsOneCommand};

use super::{DayState, is_bad_limit, is_bad_quantity, refuse_if};
use auction_terms::{AuctionKind, Limit, NewOrder, Refusal, Reply, Restriction};

// Whether a new iceberg order has no peak, one above its quantity, or no limit.
fn is_bad_peak(new: NewOrder) -> bool
    ensures { result ≡ day.is_bad_peak new.limit new.quantity new.peak }
{
    match new.peak {
        None => false,
        Some(peak) => peak == 0 || peak > new.quantity || matches!(new.limit, Limit::Market),
    }
}

// Whether an order is for the opening auction alone, and that has been.
fn is_past(kind: AuctionKind, restriction: Restriction) -> bool
    ensures { result ≡ day.is_past kind restriction }
{
    match (kind, restriction) {
        (AuctionKind::Intraday | AuctionKind::Closing, Restriction::OpeningOnly) => true,
        _ => false,
    }
}

impl DayState {
    /// A new order goes last in time, under the next id.
    #[tactic(auto, unfolding(auction_terms::specs::Day::enter))]
    pub(super) fn enter(&mut self, new: NewOrder, reply: &mut Reply) -> Result<(), Refusal>
        requires { self.old.stamps < self.old.config.max_calls }
        ensures outcome { outcome self.new reply.new result ≡ day.enter self.old.config self.old.state new }
        ensures refused { OnErr result (self.new ≡ self.old) }
        ensures one { IsOneCommand self.old self.new }
    {
        let kind = self.current()?;
        refuse_if(is_bad_quantity(new.quantity), Refusal::BadQuantity)?;
        refuse_if(is_bad_limit(self.config, new.limit), Refusal::BadLimit)?;
        refuse_if(is_bad_peak(new), Refusal::BadPeak)?;
        refuse_if(is_past(kind, new.restriction), Refusal::PastAuction)?;
        refuse_if(self.book.is_full(), Refusal::BookFull)?;
        let id = self.book.enter(new);
        *reply = Reply::Entered { id };
        Ok(())
    }
}
