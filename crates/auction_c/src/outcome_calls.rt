//! An uncross that tells what it does to each order, for C.
ghost use Rattle.std.specs.Prelude.{◌≡◌, ◌<◌, ◌++◌, true, false, IsNone, IfSome};
ghost use Rattle.std.specs.Prelude.{drop, length, min, nat_eq, option_map, take};
ghost use Rattle.auction_c.specs.Handles.{KeepsTerms};
ghost use Rattle.auction_c.specs.Encoding as encoded_as;
ghost use Rattle.auction_c.specs.Outcomes as uncrossing;
ghost use Rattle.auction_c.specs.declared.errors.TheConstants.{FULL, NO_AUCTION, NO_MEMORY};

use crate::errors::NO_AUCTION;
use crate::handle::AuctionHandle;
use crate::outcomes::uncross_one;
use crate::structs::{AuctionOutcome, AuctionReply};
use std::alloc::Global;

/// Uncrosses, as `callauction_apply` does for member 0, and writes the reply, and what the uncross did to each order of
/// which it executed shares or which it took out, in the priority that they had, as many as there is room for, and how
/// many it wrote.
///
/// It answers `FULL` where as many commands were applied as may be, and else `NO_MEMORY` only where memory is refused.
#[unsafe(no_mangle)]
pub extern "C" fn callauction_uncross(
    alloc: Global,
    handle: &mut AuctionHandle,
    reply: &mut AuctionReply,
    outcomes: &mut [AuctionOutcome],
    copied: &mut usize,
) -> u32
    ensures auction { result ≡ 0 → handle.new.boxed.value ≡ option_map uncrossing.after_uncross handle.old.boxed.value }
    ensures terms { KeepsTerms handle.old handle.new }
    ensures reply { result ≡ 0 → IfSome handle.old.boxed.value (λ a.
        reply.new ≡ encoded_as.reply_out (uncrossing.uncross_reply a)) }
    ensures copied { result ≡ 0 → IfSome handle.old.boxed.value (λ a.
        copied.new ≡ min (length (uncrossing.outcomes a)) (length outcomes.old)) }
    ensures outcomes { result ≡ 0 → IfSome handle.old.boxed.value (λ a.
        outcomes.new ≡ take copied.new (uncrossing.outcomes a) ++ drop copied.new outcomes.old) }
    ensures missing { IsNone handle.old.boxed.value → result ≡ NO_AUCTION }
    ensures full { IfSome handle.old.boxed.value (λ a.
        nat_eq a.calls a.config.max_calls ≡ true → result ≡ FULL) }
    ensures memory { IfSome handle.old.boxed.value (λ a.
        nat_eq a.calls a.config.max_calls ≡ false → 0 < result → result ≡ NO_MEMORY) }
    ensures unchanged { 0 < result → (handle.new.boxed.value ≡ handle.old.boxed.value) × (reply.new ≡ reply.old)
        × (outcomes.new ≡ outcomes.old) × (copied.new ≡ 0) }
{
    *copied = 0;
    if !handle.is_open {
        return NO_AUCTION;
    }
    uncross_one(alloc, handle.boxed.get_mut(), reply, outcomes, copied)
}
