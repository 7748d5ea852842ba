//! The open orders of a side in priority.
ghost use Rattle.std.specs.Prelude.{◌≤◌, IfOk};
ghost use Rattle.auction_terms.specs.declared.limits.TheConstants.{MAX_OPEN_ORDERS};
ghost use Rattle.allocation.specs.Listing.{AreInPriority};

use super::LadderBook;
use allocation::{Listed, RankedOrder, in_priority};
use std::alloc::{AllocError, Global};

impl LadderBook {
    /// The open orders of a side in priority, of all members or of one: also those that don't count now. It fails only
    /// where memory is refused.
    pub(in crate::book) fn in_priority(
        &self,
        alloc: Global,
        listed: Listed,
    ) -> Result<Vec<RankedOrder>, AllocError>
        ensures orders { IfOk result (λ ranked. AreInPriority listed self.now.book.orders ranked.items) }
        ensures small { self.now.book.max_open ≤ MAX_OPEN_ORDERS }
    {
        in_priority(alloc, &self.orders, listed)
    }
}
