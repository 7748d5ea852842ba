//! The open orders of a side in priority.
ghost use Rattle.std.specs.Prelude.{◌≤◌, IfOk};
ghost use Rattle.auction_terms.specs.declared.limits.TheConstants.{MAX_OPEN_ORDERS};
ghost use Rattle.allocation.specs.Listing.{AreInPriority};

use super::Book;
use allocation::{Listed, RankedOrder};
use std::alloc::{AllocError, Global};

impl Book {
    /// The open orders of a side in priority, of all members or of one: also those that don't count now. It fails only
    /// where memory is refused.
    pub(crate) fn in_priority(
        &self,
        alloc: Global,
        listed: Listed,
    ) -> Result<Vec<RankedOrder>, AllocError>
        ensures orders { IfOk result (λ ranked. AreInPriority listed self.now.orders ranked.items) }
        ensures small { self.now.max_open ≤ MAX_OPEN_ORDERS }
    {
        self.counted.in_priority(alloc, listed)
    }
}
