//! What hears a day's calls.

ghost use Rattle.std.specs.Prelude.{◌≡◌, ◌<◌, ◌^◌, ℕ, List, ◌++◌, ◌∷◌, [], OnOk};
ghost use Rattle.auction_terms.specs.Auxiliary.RunningAuction.{RunningAuction, auction_after_call};
ghost use Rattle.auction_terms.specs.Day.{step};
ghost use Rattle.journal.specs.EntryRecord.{IsReplyText, RecordedCall};
ghost use Rattle.day_road.specs.Heard.{HeardEntry, heard_in, recording_of};

use auction::Auction;
use auction_terms::{Call, Reply};
use std::alloc::{AllocError, Global};

/// What is to be known of a day's calls and replies, as they come.
pub trait Listener {
    // It heard these, after which this is the auction.
    ghost Hears: { Self → RunningAuction → List HeardEntry → Type 0 };

    // It heard these, and what it wants to know of this auction before this call.
    ghost Awaits: { Self → RunningAuction → List HeardEntry → RecordedCall → Type 0 };

    // The first is the second, some calls later.
    ghost Becomes: { Self → Self → Type 0 };

    /// Hears of the auction before its next call. The error is that memory is refused.
    fn before(
        &mut self,
        alloc: Global,
        auction: &mut Auction,
        call: &Call,
    ) -> Result<(), AllocError>
        ensures auction { auction.new ≡ auction.old }
        ensures awaits { (heard : List HeardEntry) (text : List ℕ) → Hears self.old auction.old heard
            → OnOk result (Awaits self.new auction.old heard (recording_of call.now text)) }
        ensures same { Becomes self.old self.new };

    /// Hears a call, with what was recorded as its reply, and the lawful reply. The error is that memory is refused.
    fn hear(&mut self, call: &Call, text: &[u8], reply: &Reply) -> Result<(), AllocError>
        requires { IsReplyText text.now }
        ensures heard { (auction : RunningAuction) (heard : List HeardEntry) → auction.calls < 2 ^ 32
            → reply.now ≡ (step auction.config auction.state call.now).1
            → Awaits self.old auction heard (recording_of call.now text.now)
            → OnOk result (Hears self.new (auction_after_call auction call.now)
            (heard ++ heard_in auction (recording_of call.now text.now) ∷ [])) }
        ensures same { Becomes self.old self.new };

    // It is itself, and stays so from call to call.
    ghost becomes_itself: { (l : Self) → Becomes l l };

    ghost becomes_on: { (a b c : Self) → Becomes a b → Becomes b c → Becomes a c };
}
