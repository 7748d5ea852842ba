//! What is recorded of a day's entries until they are printed.

ghost use Rattle.std.specs.Prelude.{◌≡◌, [], List, IfOk, OnOk, refl};
ghost use Rattle.std.proofs.Common.{◌∙◌};
ghost use Rattle.auction_terms.specs.declared.Entry.{Entry};
ghost use Rattle.auction_terms.specs.Auxiliary.RunningAuction.{opened_auction};
ghost use Rattle.program_runs.specs.RecordedEntries.{RecordsEntries, RecordsHeard, RecordsUpToCall, RecordsWholeDay};
ghost use Rattle.program_runs.specs.RecordedEntries.{entries_heard, form_of_recorder};
ghost use Rattle.day_tables.specs.AnsweredCalls.{entry_of};

use auction::Auction;
use auction_terms::{Call, Entry, Reply};
use day_road::Listener;
use day_tables::{BookRecorder, TradesRecorder};
use journal::keep_entry;
use printed_lines::{KeptText, ReplyList};
use settings::{Form, Listing};
use std::alloc::{AllocError, Global};

/// What a form needs of a day's entries: lines the replies, which take a byte each, a journal its lines, the
/// trades who entered each order and in which auction each trade was made, and the book its tables.
#[derive(Drop)]
pub enum Recorder {
    Lines(ReplyList),
    Journal(KeptText),
    Trades(TradesRecorder),
    Book(BookRecorder),
}

/// The entry of a call that was answered so.
fn entry_of(call: &Call, reply: &Reply) -> Entry
    ensures { result ≡ entry_of call.now reply.now }
{
    let Call { member, command } = *call;
    Entry {
        member,
        command,
        reply: *reply,
    }
}

impl Recorder {
    /// No entries of a day that was just opened, for this form. The error is that memory is refused.
    pub fn open(alloc: Global, form: Form, auction: &Auction) -> Result<Recorder, AllocError>
        ensures form { IfOk result (λ recorder. form_of_recorder recorder ≡ form) }
        ensures none { auction.now ≡ opened_auction auction.now.config
            → IfOk result (λ recorder. RecordsEntries recorder auction.now []) }
    {
        match form {
            Form::Lines => Ok(Recorder::Lines(ReplyList::new(alloc))),
            Form::Listing(Listing::Journal) => Ok(Recorder::Journal(KeptText::new(alloc))),
            Form::Listing(Listing::Trades) => Ok(Recorder::Trades(TradesRecorder::new(alloc))),
            Form::Listing(Listing::Book) => Ok(Recorder::Book(BookRecorder::open(alloc, auction)?)),
        }
    }

    /// Records what the auction holds at the input's end, as all its calls have come. The error is that memory is
    /// refused.
    pub fn close(&mut self, alloc: Global, auction: &mut Auction) -> Result<(), AllocError>
        ensures form { form_of_recorder self.new ≡ form_of_recorder self.old }
        ensures recorded { (entries : List Entry) → RecordsEntries self.old auction.old entries
            → OnOk result (RecordsWholeDay self.new auction.old.config entries) }
    {
        match self {
            Recorder::Trades(trades) => trades.close(auction),
            Recorder::Book(book) => book.close(alloc, auction),
            _ => Ok(()),
        }
    }
}

impl Listener for Recorder {
    ghost Hears = { λ k auction heard. RecordsHeard k auction heard };

    ghost Awaits = { λ k auction heard recording. RecordsUpToCall k auction (entries_heard heard) recording.call };

    ghost Becomes = { λ a b. form_of_recorder b ≡ form_of_recorder a };

    ghost becomes_itself = { λ _. refl };

    ghost becomes_on = { λ _ _ _ h k. k ∙ h };

    /// Records what its form needs from before the auction's next call: of the book the ladder, where the call is an
    /// uncross that will be accepted.
    #[inline(always)]
    fn before(
        &mut self,
        alloc: Global,
        auction: &mut Auction,
        call: &Call,
    ) -> Result<(), AllocError> {
        match self {
            Recorder::Book(book) => book.record_before(alloc, auction, call),
            _ => Ok(()),
        }
    }

    /// Records the entry of a call that the auction answered so.
    #[inline(always)]
    fn hear(&mut self, call: &Call, _text: &[u8], reply: &Reply) -> Result<(), AllocError> {
        match self {
            Recorder::Lines(replies) => replies.push(reply),
            Recorder::Journal(lines) => keep_entry(lines, entry_of(call, reply)),
            Recorder::Trades(trades) => trades.hear(call, reply),
            Recorder::Book(_) => Ok(()),
        }
    }
}
