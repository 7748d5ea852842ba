//! What C keeps of an auction.
ghost use Rattle.std.specs.Prelude.{◌≡◌, ◌<◌, is_some, None, Some};
ghost use Rattle.auction_c.specs.declared.errors.TheConstants.{DONE, NO_MEMORY};

use crate::auction_box::AuctionBox;
use crate::errors::{DONE, NO_MEMORY};
use auction::Auction;
use std::alloc::Global;

/// A handle of an auction, or of none: C starts with one of zeros. Each call takes it by reference.
#[repr(C)]
#[derive(Drop)]
pub struct AuctionHandle {
    pub(crate) boxed: AuctionBox,
    /// What the callers' numbers of orders are kept in, an address that isn't read here.
    pub(crate) clients: u64,
    /// How many of the day's last calls are the operator's.
    pub(crate) reserve: u32,
    pub(crate) is_open: bool,
    ghost marked: { is_some boxed.value ≡ is_open },
}

impl AuctionHandle {
    /// Holds the auction, and answers `DONE`; answers `NO_MEMORY` where there is none for it, and then it holds what it
    /// held.
    pub(crate) fn hold(&mut self, alloc: Global, auction: Auction, reserve: u32) -> u32
        ensures done { result ≡ DONE → self.new.boxed.value ≡ Some auction }
        ensures reserve { result ≡ DONE → self.new.reserve ≡ reserve }
        ensures refused { 0 < result →
            (self.new.boxed.value ≡ self.old.boxed.value) × (self.new.reserve ≡ self.old.reserve) }
        ensures memory { 0 < result → result ≡ NO_MEMORY }
        ensures clients { self.new.clients ≡ self.old.clients }
    {
        let Ok(made) = Box::new(alloc, auction) else {
            return NO_MEMORY;
        };
        self.hold_boxed(made, reserve);
        DONE
    }

    /// Holds the auction.
    pub(crate) fn hold_boxed(&mut self, made: Box<Auction>, reserve: u32)
        ensures value { self.new.boxed.value ≡ Some made.value }
        ensures reserve { self.new.reserve ≡ reserve }
        ensures clients { self.new.clients ≡ self.old.clients }
    {
        *self = AuctionHandle {
            boxed: AuctionBox::of(made),
            clients: self.clients,
            reserve,
            is_open: true,
        };
    }
}
