//! Opening a board into the handles of its members.
ghost use Rattle.std.specs.Prelude.{◌≡◌, ◌<◌, ◌≤◌, length, map, Some, None, IfOk, IfSome};
ghost use Rattle.board_terms.specs.BoardOpening.{board_fault};
ghost use Rattle.auction_c.specs.BoardCalls.{HoldsNewMembers, is_in_use};
ghost use Rattle.auction_c.specs.Calling.{fault_number};

use crate::errors::{BAD_CAPACITY, DONE, NO_MEMORY, fault_out};
use crate::member_handle::AuctionMember;
use auction_terms::Config;
use shared_board::{SharedMember, open};
use std::alloc::{AllocError, Global};

/// Whether a handle holds a member.
pub(crate) fn is_in_use(handles: &[AuctionMember]) -> bool
    ensures { result ≡ is_in_use handles.now }
{
    handles.iter().any(|handle| handle.is_open)
}

fn boxed(alloc: Global, members: Vec<SharedMember>) -> Result<Vec<Box<SharedMember>>, AllocError>
    ensures { IfOk result (λ v. map (λ b. b.value) v.items ≡ members.items) }
{
    let mut boxes = Vec::with_capacity(alloc, members.len())?;
    for member in members {
        boxes.push(Box::new(alloc, member)?)?;
    }
    Ok(boxes)
}

// Puts the members into the handles, in order, each with the reserve of the board.
fn put_in(handles: &mut [AuctionMember], members: Vec<Box<SharedMember>>, reserve: u32)
    requires { length handles.old ≡ length members.items }
    ensures members { map (λ h. h.boxed.value) handles.new ≡ map (λ b. Some b.value) members.items }
    ensures reserves { map (λ h. h.reserve) handles.new ≡ map (λ b. reserve) members.items }
{
    let mut i = 0;
    for member in members {
        handles[i] = AuctionMember::of(member, reserve);
        i += 1;
    }
}

/// Opens a board with as many members as there are handles, which hold none, and has each handle hold its member.
pub(crate) fn fill(
    alloc: Global,
    handles: &mut [AuctionMember],
    identity: u64,
    config: Config,
    reserve: u32,
) -> u32
    ensures done { result ≡ 0 → HoldsNewMembers identity config reserve handles.new }
    ensures refused { 0 < result → handles.new ≡ handles.old }
    ensures many { 256 ≤ length handles.old → result ≡ BAD_CAPACITY }
    ensures fault { length handles.old < 256 →
        IfSome (board_fault config (length handles.old)) (λ fault. result ≡ fault_number fault) }
    ensures memory { length handles.old < 256 → board_fault config (length handles.old) ≡ None →
        0 < result → result ≡ NO_MEMORY }
{
    let Ok(count) = u8::try_from(handles.len()) else {
        return BAD_CAPACITY;
    };
    match open(alloc, identity, config, count) {
        Ok(members) => match boxed(alloc, members) {
            Ok(boxes) => {
                put_in(handles, boxes, reserve);
                DONE
            }
            Err(_) => NO_MEMORY,
        },
        Err(fault) => fault_out(fault),
    }
}
