//! The day made the same as another.
ghost use Rattle.std.specs.Prelude.{◌≡◌, ◌≤◌, length, true, vec_capacity};
ghost use Rattle.auction.specs.OpenOrders.{has_same_limits};

use super::DayState;
use auction_terms::Trade;

// The same trades, where there is room for them.
fn copy_tape(from: &[Trade], to: &mut Vec<Trade>)
    requires { length from.now ≤ vec_capacity to.old }
    ensures items { to.new.items ≡ from.now }
    ensures capacity { vec_capacity to.old ≤ vec_capacity to.new }
{
    to.clear();
    let _ = to.extend_from_slice(from);
}

impl DayState {
    /// Makes another day of the same limits the same as this one, whatever it was. It takes no memory.
    pub(crate) fn copy_into(&self, other: &mut DayState)
        requires { has_same_limits self.now.config other.old.config ≡ true }
        ensures { other.new ≡ self.now }
    {
        self.book.copy_into(&mut other.book);
        copy_tape(&self.tape, &mut other.tape);
        other.config = self.config;
        other.reference = self.reference;
        other.auction = self.auction;
        other.extended = self.extended;
    }
}
