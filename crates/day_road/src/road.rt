//! The loop that has each call of a day answered and heard.

ghost use Rattle.std.specs.Prelude.{◌≡◌, ◌≤◌, ◌+◌, List, IfErr};
ghost use Rattle.order_file.specs.File.{IsOfRecord};
ghost use Rattle.day_road.specs.Heard.{HearsAll, HeardEntry};
ghost use Rattle.day_road.specs.Inputs.{PassesOver};

use crate::input::Input;
use crate::listener::Listener;
use auction::Auction;
use auction_terms::Reply;
use order_file::FileFault;
use std::alloc::Global;

/// Applies the calls of an input, which come after the auction's so far, and has each heard with its reply; or answers
/// the first fault, which may be that memory is refused.
pub fn hear_all<I: Input, L: Listener>(
    alloc: Global,
    input: &mut I,
    auction: &mut Auction,
    listener: &mut L,
) -> Result<(), FileFault>
    requires ready { I.CanRead input.old }
    requires room { auction.old.calls + I.room input.old ≤ auction.old.config.max_calls }
    ensures heard { (before : List HeardEntry) → L.Hears listener.old auction.old before
        → HearsAll (L.Hears listener.new auction.new) before auction.old auction.new (I.coming input.old) result }
    ensures room { auction.new.calls ≤ auction.old.config.max_calls }
    ensures same { L.Becomes listener.old listener.new }
    ensures parsed { IfErr result IsOfRecord }
{
    let mut reply = Reply::Deleted;
    'turns: while let Some(call) = input.next()? {
        // The proof has its range from here.
        let _calls = auction.calls();
        if listener.before(alloc, auction, &call).is_err() {
            return Err(FileFault::NoMemory);
        }
        auction.answer_call(&call, &mut reply);
        if listener.hear(&call, input.recorded(), &reply).is_err() {
            return Err(FileFault::NoMemory);
        }
    }
    Ok(())
}

/// Looks at all calls of an input, for its first fault: that comes before one of the day.
pub fn pass_over<I: Input>(input: &mut I) -> Result<(), FileFault>
    requires { I.CanRead input.old }
    ensures passed { PassesOver (I.coming input.old) result }
    ensures parsed { IfErr result IsOfRecord }
{
    'turns: while let Some(_) = input.next()? {}
    Ok(())
}
