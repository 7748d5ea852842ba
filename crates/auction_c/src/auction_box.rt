//! An auction on the heap, or none.
ghost use Rattle.std.specs.Prelude.{◌≡◌, Option, Some, None, IsSome};
ghost use Rattle.std.specs.Coded.{coded_option};
ghost use Rattle.auction_terms.specs.Auxiliary.RunningAuction.{RunningAuction};
ghost use Rattle.auction.specs.contracts.Auction.{the_row};
ghost use Rattle.auction_c.specs.HeapBox.{optional_box_owns};

pub(crate) mod parts;

use auction::Auction;
use parts::Parts;
use std::alloc::Global;
use std::marker::Model;
use std::{mem, ptr};

/// An auction on the heap, or none.
#[repr(C)]
#[derive(Drop)]
pub struct AuctionBox {
    at: *mut u8,
    alloc: Global,
    pub ghost value: { Option RunningAuction } by { coded_option the_row.coded },
}

impl Model for AuctionBox {
    ghost also_owns = { λ h. optional_box_owns the_row h.alloc h.at h.value };
}

// A handle goes from thread to thread as the auction that it holds.
unsafe impl Send for AuctionBox {}

impl AuctionBox {
    ghost use Rattle.auction_c.specs.Lending.{AuctionBoxLends};
    ghost use Rattle.std.specs.Borrow.{sem};

    pub fn of(b: Box<Auction>) -> AuctionBox
        ensures { result.value ≡ Some b.value }
    {
        AuctionBox::of_parts(Parts::of(b))
    }

    pub fn into_box(self) -> Box<Auction>
        requires { IsSome self.value }
        ensures { Some result.value ≡ self.value }
    {
        self.into_parts().into_box()
    }

    /// The auction itself.
    pub fn get_mut(&mut self) -> &mut Auction
        requires { IsSome self.old.value }
        ensures* writes_back { sem 𝓛 (AuctionBoxLends self.entry result) }
        ensures value { Some result.now ≡ self.old.value }
    {
        unsafe { &mut *(self.at as *mut Auction) }
    }

    /// What is held; then there is none.
    pub fn take(&mut self, alloc: Global) -> AuctionBox
        ensures taken { result.value ≡ self.old.value }
        ensures left { self.new.value ≡ None }
    {
        mem::replace(self, AuctionBox::none(alloc))
    }

    // No auction.
    fn none(alloc: Global) -> AuctionBox
        ensures { result.value ≡ None }
    {
        AuctionBox {
            at: ptr::null_mut(),
            alloc,
        }
    }

    fn of_parts(parts: Parts<Auction, Global>) -> AuctionBox
        ensures { result.value ≡ Some parts.value }
    {
        let Parts { ptr, alloc } = parts;
        AuctionBox {
            at: ptr as *mut u8,
            alloc,
        }
    }

    fn into_parts(self) -> Parts<Auction, Global>
        requires { IsSome self.value }
        ensures { Some result.value ≡ self.value }
    {
        let AuctionBox { at, alloc } = self;
        Parts {
            ptr: at as *mut Auction,
            alloc,
        }
    }
}
