//! An auction made the same as another, in the memory that it has.
ghost use Rattle.std.specs.Prelude.{◌≡◌, true};
ghost use Rattle.auction.specs.OpenOrders as limits;

use crate::Auction;

impl Auction {
    /// Whether another auction has the limits of this one: the same bounds, and room for as many orders and calls.
    pub fn has_same_limits(&self, other: &Auction) -> bool
        ensures { result ≡ limits.has_same_limits self.now.config other.now.config }
    {
        let (mine, theirs) = (self.config(), other.config());
        mine.low == theirs.low
            && mine.high == theirs.high
            && mine.max_open == theirs.max_open
            && mine.max_calls == theirs.max_calls
    }

    /// Copies this auction into another of the same limits, whatever that was: config, orders, trades and calls are the
    /// same then. What is done to one isn't seen in the other. It takes no memory.
    pub fn copy_into(&self, other: &mut Auction)
        requires { limits.has_same_limits self.now.config other.old.config ≡ true }
        ensures { other.new ≡ self.now }
    {
        self.day.copy_into(&mut other.day);
        other.calls = self.calls;
    }
}
