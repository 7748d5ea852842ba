//! `ReadTrade`: a trade of the day by its number.
ghost use Rattle.std.specs.Prelude.{◌≡◌};
ghost use Rattle.auction_terms.specs.Day as day;
ghost use Rattle.auction.specs.AuctionState.{outcome};

use super::DayState;
use auction_terms::{Refusal, Reply, Trade};

// The trade with this number, from 1 on.
fn trade_at(tape: &[Trade], number: u32) -> Option<Trade>
    ensures { result ≡ day.trade_at tape.now number }
{
    if number == 0 {
        return None;
    }
    tape.get(number as usize - 1).copied()
}

impl DayState {
    /// The trade of the day with this number, from 1 on, also after the day.
    #[tactic(auto, unfolding(auction_terms::specs::Day::read_trade))]
    pub(super) fn read_trade(&self, number: u32, reply: &mut Reply) -> Result<(), Refusal>
        ensures { outcome self.now reply.new result ≡ day.read_trade self.now.state number }
    {
        let read_trade = trade_at(&self.tape, number).ok_or(Refusal::NoSuchTrade)?;
        *reply = Reply::Traded(read_trade);
        Ok(())
    }
}
