//! A member of a board on the heap, or none.
ghost use Rattle.std.specs.Prelude.{◌≡◌, Option, Some, None, IsSome};
ghost use Rattle.std.specs.Coded.{coded_option};
ghost use Rattle.board_terms.specs.BoardViews.{BoardMember};
ghost use Rattle.shared_board.specs.contracts.member.SharedMember.{the_row};
ghost use Rattle.auction_c.specs.HeapBox.{optional_box_owns};

use crate::auction_box::parts::Parts;
use shared_board::SharedMember;
use std::alloc::Global;
use std::marker::Model;
use std::{mem, ptr};

/// A member on the heap, or none.
#[repr(C)]
#[derive(Drop)]
pub struct MemberBox {
    at: *mut u8,
    alloc: Global,
    pub ghost value: { Option BoardMember } by { coded_option the_row.coded },
}

impl Model for MemberBox {
    ghost also_owns = { λ h. optional_box_owns the_row h.alloc h.at h.value };
}

// A handle goes from thread to thread as the member that it holds.
unsafe impl Send for MemberBox {}

impl MemberBox {
    ghost use Rattle.auction_c.specs.MemberLending.{MemberBoxLends};
    ghost use Rattle.std.specs.Borrow.{sem};

    pub fn of(b: Box<SharedMember>) -> MemberBox
        ensures { result.value ≡ Some b.value }
    {
        MemberBox::of_parts(Parts::of(b))
    }

    pub fn into_box(self) -> Box<SharedMember>
        requires { IsSome self.value }
        ensures { Some result.value ≡ self.value }
    {
        self.into_parts().into_box()
    }

    /// The member itself.
    pub fn get_mut(&mut self) -> &mut SharedMember
        requires { IsSome self.old.value }
        ensures* writes_back { sem 𝓛 (MemberBoxLends self.entry result) }
        ensures value { Some result.now ≡ self.old.value }
    {
        unsafe { &mut *(self.at as *mut SharedMember) }
    }

    /// What is held; then there is none.
    pub fn take(&mut self, alloc: Global) -> MemberBox
        ensures taken { result.value ≡ self.old.value }
        ensures left { self.new.value ≡ None }
    {
        mem::replace(self, MemberBox::none(alloc))
    }

    // No member.
    fn none(alloc: Global) -> MemberBox
        ensures { result.value ≡ None }
    {
        MemberBox {
            at: ptr::null_mut(),
            alloc,
        }
    }

    fn of_parts(parts: Parts<SharedMember, Global>) -> MemberBox
        ensures { result.value ≡ Some parts.value }
    {
        let Parts { ptr, alloc } = parts;
        MemberBox {
            at: ptr as *mut u8,
            alloc,
        }
    }

    fn into_parts(self) -> Parts<SharedMember, Global>
        requires { IsSome self.value }
        ensures { Some result.value ≡ self.value }
    {
        let MemberBox { at, alloc } = self;
        Parts {
            ptr: at as *mut SharedMember,
            alloc,
        }
    }
}
