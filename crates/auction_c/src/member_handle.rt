//! What C keeps of a member of a board.
ghost use Rattle.std.specs.Prelude.{◌≡◌, is_some, None, Some, option_map};

use crate::member_box::MemberBox;
use shared_board::SharedMember;
use std::alloc::Global;

/// A handle of a member, or of none: C starts with one of zeros. One call at a time has a handle; the handles of one
/// board are used by as many threads at once.
#[repr(C)]
#[derive(Drop)]
pub struct AuctionMember {
    pub(crate) boxed: MemberBox,
    /// What the callers' numbers of orders are kept in, an address that isn't read here.
    pub(crate) clients: u64,
    /// How many of the day's last calls are the operator's: the same at each handle of a board.
    pub(crate) reserve: u32,
    pub(crate) is_open: bool,
    ghost marked: { is_some boxed.value ≡ is_open },
}

impl AuctionMember {
    pub(crate) fn of(member: Box<SharedMember>, reserve: u32) -> AuctionMember
        ensures value { result.boxed.value ≡ Some member.value }
        ensures reserve { result.reserve ≡ reserve }
    {
        AuctionMember {
            boxed: MemberBox::of(member),
            clients: 0,
            reserve,
            is_open: true,
        }
    }

    /// What it holds; then it holds none.
    pub(crate) fn take(&mut self, alloc: Global) -> Option<Box<SharedMember>>
        ensures left { self.new.boxed.value ≡ None }
        ensures taken { option_map (λ b. b.value) result ≡ self.old.boxed.value }
        ensures clients { self.new.clients ≡ self.old.clients }
    {
        if !self.is_open {
            return None;
        }
        let boxed = self.boxed.take(alloc);
        self.is_open = false;
        Some(boxed.into_box())
    }
}
