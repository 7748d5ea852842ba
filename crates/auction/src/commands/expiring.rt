//! The orders that an uncross would take out.
ghost use Rattle.std.specs.Prelude.{◌≡◌, ◌*◌, ◌≤◌, None, length, IfOk};
ghost use Rattle.auction_terms.specs.Priority as priority;
ghost use Rattle.auction.specs.Executions.{AreSmall};

use super::DayState;
use super::copying::copied_tape;
use super::listing::list_orders;
use crate::book::Book;
use auction_terms::{AuctionKind, OpenOrder, Trade};
use std::alloc::{AllocError, Global};

// The open orders that are for this auction alone, in priority, each with what these trades executed of it.
fn list_restricted(
    alloc: Global,
    book: &Book,
    tape: &[Trade],
    kind: AuctionKind,
) -> Result<Vec<OpenOrder>, AllocError>
    requires few { length tape.now ≤ 3 * book.now.max_open }
    requires small { AreSmall tape.now }
    ensures { IfOk result (λ listed.
        listed.items ≡ priority.restricted_to kind (priority.listed None book.now.orders tape.now)) }
{
    let mut listed = list_orders(alloc, book, tape, None)?;
    listed.retain(|listed| listed.order.is_only_for(kind));
    Ok(listed)
}

impl DayState {
    /// The orders that an uncross now would take out, as they are for its auction alone, in priority, with what would
    /// be left of them. It fails only where memory is refused.
    #[tactic(auto, unfolding(auction_terms::specs::Priority::orders_expiring))]
    pub(crate) fn expiring_orders(&self, alloc: Global) -> Result<Vec<OpenOrder>, AllocError>
        ensures { IfOk result (λ listed.
            listed.items ≡ priority.orders_expiring self.now.config self.now.state) }
    {
        let Some(kind) = self.auction else {
            return Ok(Vec::new(alloc));
        };
        let mut book = self.book.copied(alloc, self.config.max_open)?;
        match book.price(self.reference) {
            None => list_restricted(alloc, &book, &self.tape, kind),
            Some(price) if self.is_interrupted(price.tick) => Ok(Vec::new(alloc)),
            Some(price) => {
                let room = 3 * self.config.max_open as usize;
                let mut tape = copied_tape(alloc, &self.tape, room)?;
                book.uncross(price.tick, &mut tape);
                list_restricted(alloc, &book, &tape, kind)
            }
        }
    }
}
