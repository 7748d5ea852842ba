//! The book made the same as another.
ghost use Rattle.std.specs.Prelude.{◌≡◌};
ghost use Rattle.auction.specs.OpenOrders.{HasSameTicksAndRoom};

use super::LadderBook;

impl LadderBook {
    /// Makes another book with the same room and ticks the same as this one, whatever it was. It takes no memory.
    pub(in crate::book) fn copy_into(&self, other: &mut LadderBook)
        requires { HasSameTicksAndRoom self.now.book other.old.book }
        ensures { other.new.book ≡ self.now.book }
    {
        self.orders.copy_into(&mut other.orders);
        self.ladder.copy_into(&mut other.ladder);
        other.kind = self.kind;
    }
}
