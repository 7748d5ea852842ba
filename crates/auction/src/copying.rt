//! The auction begun again, and the auction copied.
ghost use Rattle.std.specs.Prelude.{◌≡◌, IfOk};
ghost use Rattle.auction_terms.specs.Auxiliary.RunningAuction.{opened_auction};

use crate::Auction;
use std::alloc::{AllocError, Global};

impl Auction {
    /// Goes back to the opening of the day, as if no command had been applied: no orders, no trades, the reference of
    /// the config, no calls. It takes no memory.
    pub fn reset(&mut self)
        ensures { self.new ≡ opened_auction self.old.config }
    {
        self.day.reset();
        self.calls = 0;
    }

    /// An auction of its own, a copy of this one as it is now: what is done to one isn't seen in the other. It fails
    /// only where memory is refused.
    pub fn copied(&self, alloc: Global) -> Result<Auction, AllocError>
        ensures { IfOk result (λ copy. copy ≡ self.now) }
    {
        Ok(Auction {
            day: self.day.copied(alloc)?,
            calls: self.calls,
        })
    }
}
