//! What is looked for in a journal that is gone on with.

ghost use Rattle.std.specs.Prelude.{◌≡◌, []};
ghost use Rattle.auction_terms.specs.Auxiliary.RunningAuction.{RunningAuction};
ghost use Rattle.live_session.specs.Looked.{HasLooked, IsLooking};

use crate::begin_fault::UnlawfulEntry;
use auction::Auction;
use auction_terms::{Call, Reply};
use day_road::Listener;
use printed_lines::ReplyTexts;
use std::alloc::{AllocError, Global};

/// The first entry whose recorded reply isn't the lawful one, if there is one so far, and what was recorded.
#[derive(Drop)]
pub(crate) struct FirstUnlawful {
    pub entry: Option<UnlawfulEntry>,
    pub recorded: Vec<u8>,
    // The number of the entry that comes next, from 1.
    number: u64,
    texts: ReplyTexts,
}

impl FirstUnlawful {
    /// Nothing was looked at.
    pub fn new(alloc: Global) -> FirstUnlawful
        ensures { (auction : RunningAuction) → auction.calls ≡ 0 → HasLooked result auction [] }
    {
        FirstUnlawful {
            entry: None,
            recorded: Vec::new(alloc),
            number: 0,
            texts: ReplyTexts::new(),
        }
    }
}

impl Listener for FirstUnlawful {
    ghost Hears = { λ first auction heard. HasLooked first auction heard };

    ghost Awaits = { λ first auction heard _. IsLooking first auction heard };

    ghost Becomes = { λ _ _. Unit {0} };

    ghost becomes_itself = { λ _. tt };

    ghost becomes_on = { λ _ _ _ _ _. tt };

    fn before(
        &mut self,
        _alloc: Global,
        auction: &mut Auction,
        _call: &Call,
    ) -> Result<(), AllocError> {
        self.number = u64::from(auction.calls()) + 1;
        Ok(())
    }

    fn hear(&mut self, _call: &Call, text: &[u8], reply: &Reply) -> Result<(), AllocError> {
        if self.entry.is_some() {
            return Ok(());
        }
        if self.texts.is_text_of(text, reply) {
            return Ok(());
        }
        self.recorded.clear();
        self.recorded.extend_from_slice(text)?;
        self.entry = Some(UnlawfulEntry {
            number: self.number,
            lawful: *reply,
        });
        Ok(())
    }
}
