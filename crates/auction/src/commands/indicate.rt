//! `Indicate`: what is shown.
ghost use Rattle.std.specs.Prelude.{◌≡◌};
ghost use Rattle.auction_terms.specs.Day as day;
ghost use Rattle.auction.specs.AuctionState.{outcome};

use super::DayState;
use auction_terms::{Refusal, Reply};

impl DayState {
    /// What is shown, which is kept for the next question.
    #[tactic(auto, unfolding(auction_terms::specs::Day::indicate))]
    pub(super) fn indicate(&mut self, reply: &mut Reply) -> Result<(), Refusal>
        ensures outcome { outcome self.new reply.new result ≡ day.indicate self.old.state }
        ensures state { self.new ≡ self.old }
    {
        self.current()?;
        *reply = Reply::Indicated(self.show());
        Ok(())
    }
}
