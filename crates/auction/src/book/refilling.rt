//! The book made the same as another.
ghost use Rattle.std.specs.Prelude.{◌≡◌};
ghost use Rattle.auction.specs.OpenOrders.{HasSameTicksAndRoom};

use super::Book;

impl Book {
    /// Makes another book with the same room and ticks the same as this one, whatever it was. It takes no memory.
    pub(crate) fn copy_into(&self, other: &mut Book)
        requires { HasSameTicksAndRoom self.now other.old }
        ensures { other.new ≡ self.now }
    {
        self.counted.copy_into(&mut other.counted);
        other.known = self.known;
    }
}
