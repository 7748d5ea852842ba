//! The day begun again, and the day copied.
ghost use Rattle.std.specs.Prelude.{◌≡◌, ◌≤◌, vec_capacity, IfOk};
ghost use Rattle.auction.specs.AuctionState.{opening, IsBoundedBy};

use super::DayState;
use auction_terms::{AuctionKind, Trade};
use std::alloc::{AllocError, Global};

// The same trades, with room for `room` of them.
pub(super) fn copied_tape(
    alloc: Global,
    trades: &[Trade],
    room: usize,
) -> Result<Vec<Trade>, AllocError>
    ensures items { IfOk result (λ copy. copy.items ≡ trades.now) }
    ensures room { IfOk result (λ copy. room ≤ vec_capacity copy) }
{
    let mut copy = Vec::with_capacity(alloc, room)?;
    copy.extend_from_slice(trades)?;
    Ok(copy)
}

impl DayState {
    /// Goes back to the opening: no orders, no trades, the reference of the config. It takes no memory.
    pub(crate) fn reset(&mut self)
        requires { IsBoundedBy self.old.config self.old.config.reference }
        ensures { self.new ≡ opening self.old.config }
    {
        self.book.reset();
        self.tape.clear();
        self.reference = self.config.reference;
        self.auction = Some(AuctionKind::Opening);
        self.extended = false;
    }

    /// The same day, with orders and trades of its own. It fails only where memory is refused.
    pub(crate) fn copied(&self, alloc: Global) -> Result<DayState, AllocError>
        ensures { IfOk result (λ d. d ≡ self.now) }
    {
        let room = 3 * self.config.max_open as usize;
        Ok(DayState {
            config: self.config,
            book: self.book.copied(alloc, self.config.max_open)?,
            tape: copied_tape(alloc, &self.tape, room)?,
            reference: self.reference,
            auction: self.auction,
            extended: self.extended,
        })
    }
}
