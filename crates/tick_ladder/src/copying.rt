//! A ladder emptied, and a ladder copied.
ghost use Rattle.std.specs.Prelude.{◌≡◌, IfOk};
ghost use Rattle.tick_ladder.specs.TickLadder.{HasSameTicks, emptied_ladder};

use crate::Ladder;
use std::alloc::{AllocError, Global};

impl Ladder {
    /// Takes all quantities away. It takes no memory.
    pub fn reset(&mut self)
        ensures { self.new ≡ emptied_ladder self.old }
    {
        self.bids.reset();
        self.asks.reset();
        self.market_bids = 0;
        self.market_asks = 0;
    }

    /// A ladder of its own with the same quantities at the same ticks. It fails only where memory is refused.
    pub fn copied(&self, alloc: Global) -> Result<Ladder, AllocError>
        ensures { IfOk result (λ ladder. ladder ≡ self.now) }
    {
        Ok(Ladder {
            low: self.low,
            bids: self.bids.copied(alloc)?,
            asks: self.asks.copied(alloc)?,
            market_bids: self.market_bids,
            market_asks: self.market_asks,
        })
    }

    /// Gives another ladder of the same ticks the quantities of this one, whatever it had. It takes no memory.
    pub fn copy_into(&self, other: &mut Ladder)
        requires { HasSameTicks self.now other.old }
        ensures { other.new ≡ self.now }
    {
        self.bids.copy_into(&mut other.bids);
        self.asks.copy_into(&mut other.asks);
        other.market_bids = self.market_bids;
        other.market_asks = self.market_asks;
    }
}
