//! Who trades with whom.
ghost use Rattle.std.specs.Prelude.{◌≡◌, ◌+◌, ◌-◌, ◌<◌, ◌≤◌, ◌++◌, All, length, vec_len, vec_capacity};
ghost use Rattle.auction_terms.specs.Auxiliary.RankedFills.{paired_trades};

use crate::cursor::Cursor;
use auction_terms::{Fill, Trade};

/// Makes the trades between fills that are laid end to end on each side, and adds them to a tape.
pub(crate) fn pair_off(bids: &[Fill], asks: &[Fill], tick: u32, tape: &mut Vec<Trade>)
    requires bids { All (λ f. 0 < f.quantity) bids.now }
    requires asks { All (λ f. 0 < f.quantity) asks.now }
    requires room { vec_len tape.old + (length bids.now + length asks.now) ≤ vec_capacity tape.old }
    ensures items { tape.new.items ≡ tape.old.items ++ paired_trades tick 0 bids.now asks.now }
    ensures few { vec_len tape.new ≤ vec_len tape.old + (length bids.now + length asks.now - 1) }
    ensures capacity { vec_capacity tape.new ≡ vec_capacity tape.old }
{
    let mut bids = Cursor::new(bids);
    let mut asks = Cursor::new(asks);
    while let (Some(bid), Some(ask)) = (bids.front(), asks.front()) {
        let quantity = bid.quantity.min(ask.quantity);
        tape.push_reserved(Trade {
            bid: bid.id,
            ask: ask.id,
            tick,
            quantity,
        });
        bids.take(quantity);
        asks.take(quantity);
    }
}
