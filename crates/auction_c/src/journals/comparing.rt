//! Recorded replies, compared with the lawful ones.
ghost use Rattle.std.specs.Prelude.{◌≡◌, ◌<◌, ◌≤◌, ◌-◌, ◌^◌, []};
ghost use Rattle.auction_c.specs.JournalReading.{HasCompared, compared_of, compared_with, first_with, told};
ghost use Rattle.auction_c.specs.Journals as recorded_as;
ghost use Rattle.day_road.specs.ReplyPairs.{pair_of};

use crate::structs::AuctionJournal;
use auction::Auction;
use auction_terms::{Call, Reply};
use day_road::Listener;
use printed_lines::ReplyTexts;
use std::alloc::{AllocError, Global};

// Whether a reply was recorded.
fn has_text(text: &[u8]) -> bool
    ensures { result ≡ recorded_as.has_text text.now }
{
    !text.is_empty()
}

// Whether one was that isn't the lawful one.
fn is_unlawful(texts: &mut ReplyTexts, text: &[u8], reply: &Reply) -> bool
    ensures { result ≡ recorded_as.is_unlawful (pair_of text.now reply.now) }
{
    has_text(text) && !texts.is_text_of(text, reply)
}

fn first_with(first: u64, unlawful: bool, number: u64) -> u64
    ensures { result ≡ first_with first unlawful number }
{
    if first == 0 && unlawful {
        return number;
    }
    first
}

/// What is counted of a journal's calls: all, those with a recorded reply, those of them whose reply isn't the lawful
/// one, and the number of the first of these, from 1 on; 0 where there is none.
#[derive(Clone, Copy)]
pub(crate) struct Compared {
    pub calls: u64,
    pub compared: u64,
    pub unlawful: u64,
    pub first_unlawful: u64,
}

// With one more call, of fewer than 2 ^ 64, whose recorded reply is compared or not, and unlawful or not.
fn compared_with(counts: Compared, compared: bool, unlawful: bool) -> Compared
    ensures { counts.calls < 2 ^ 64 - 1 → counts.compared ≤ counts.calls → counts.unlawful ≤ counts.calls
        → result ≡ compared_with counts compared unlawful }
{
    let calls = counts.calls.saturating_add(1);
    Compared {
        calls,
        compared: counts.compared.saturating_add(u64::from(compared)),
        unlawful: counts.unlawful.saturating_add(u64::from(unlawful)),
        first_unlawful: first_with(counts.first_unlawful, unlawful, calls),
    }
}

/// What is told of it, for so many members, but for the bytes that were read; the calls are fewer than 2 ^ 32.
pub(crate) fn told(counts: Compared, members: u8, calls: u32) -> AuctionJournal
    requires compared { counts.compared ≤ calls }
    requires unlawful { counts.unlawful ≤ calls }
    requires first { counts.first_unlawful ≤ calls }
    ensures { result ≡ told counts members calls }
{
    AuctionJournal {
        record_number: 0,
        field_number: 0,
        fault: 0,
        members: u32::from(members),
        calls,
        compared: counts.compared as u32,
        unlawful: counts.unlawful as u32,
        first_unlawful: counts.first_unlawful as u32,
        taken: 0,
    }
}

/// A journal's replies as its calls come.
#[derive(Drop)]
pub(crate) struct Comparison {
    pub counts: Compared,
    texts: ReplyTexts,
}

impl Comparison {
    /// No call has come.
    pub fn new() -> Comparison
        ensures { result.counts ≡ compared_of [] }
    {
        Comparison {
            counts: Compared {
                calls: 0,
                compared: 0,
                unlawful: 0,
                first_unlawful: 0,
            },
            texts: ReplyTexts::new(),
        }
    }
}

impl Listener for Comparison {
    ghost Hears = { λ c auction heard. HasCompared c auction heard };

    ghost Awaits = { λ c auction heard _. HasCompared c auction heard };

    ghost Becomes = { λ _ _. Unit {0} };

    ghost becomes_itself = { λ _. tt };

    ghost becomes_on = { λ _ _ _ _ _. tt };

    fn before(
        &mut self,
        _alloc: Global,
        _auction: &mut Auction,
        _call: &Call,
    ) -> Result<(), AllocError> {
        Ok(())
    }

    fn hear(&mut self, _call: &Call, text: &[u8], reply: &Reply) -> Result<(), AllocError> {
        let unlawful = is_unlawful(&mut self.texts, text, reply);
        self.counts = compared_with(self.counts, has_text(text), unlawful);
        Ok(())
    }
}
