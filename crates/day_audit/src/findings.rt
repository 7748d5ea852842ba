//! What an audit finds, entry by entry.

ghost use Rattle.std.specs.Prelude.{◌≡◌, []};
ghost use Rattle.printed_lines.specs.Printing.{Prints};
ghost use Rattle.printed_lines.specs.ReplyWords.{reply_text};
ghost use Rattle.byte_streams.specs.Writing.{WritesAll};
ghost use Rattle.day_audit.specs.AuditCounts.{finding_of};
ghost use Rattle.day_audit.specs.Found.{HasFound, HasFoundOf, found_copy_text, found_text};

use crate::counts::{Counts, Finding};
use crate::printing::{print_behind, print_counts, record_finding};
use crate::results::{print_day, record_uncross};
use auction::Auction;
use auction_terms::{AuctionKind, Call, Reply};
use byte_streams::{Sink, WriteFailed};
use day_road::Listener;
use printed_lines::{KeptText, Printer, ReplyTexts};
use std::alloc::{AllocError, Global};

/// What is found of an entry with this recorded text, the lawful reply being this.
fn finding_of(texts: &mut ReplyTexts, text: &[u8], reply: &Reply) -> Finding
    ensures { result ≡ finding_of (record { recorded = text.now; lawful = reply_text reply.now }) }
{
    if text.is_empty() {
        return Finding::Silent;
    }
    if texts.is_text_of(text, reply) {
        return Finding::Lawful;
    }
    Finding::Unlawful
}

/// What was found so far: the lines of the entries that are unlawful, those of the uncrosses, and what was counted.
#[derive(Drop)]
pub(crate) struct Findings {
    pub counts: Counts,
    lines: KeptText,
    results: KeptText,
    texts: ReplyTexts,
}

impl Findings {
    /// Nothing was heard.
    pub fn new(alloc: Global) -> Findings
        ensures { HasFound result [] }
    {
        Findings {
            counts: Counts::none(),
            lines: KeptText::new(alloc),
            results: KeptText::new(alloc),
            texts: ReplyTexts::new(),
        }
    }

    /// Prints what was found, and then, where they are wanted, the results of a day that ends with this auction.
    fn print<S: Sink>(
        &self,
        printer: &mut Printer<'_, S>,
        current: Option<AuctionKind>,
        results: bool,
    ) -> Result<(), WriteFailed>
        ensures { Prints S.Sink printer.old printer.new result (found_text results self.now current) }
    {
        self.lines.print(printer)?;
        print_counts(printer, self.counts)?;
        if !results {
            return Ok(());
        }
        self.results.print(printer)?;
        print_day(printer, current)
    }

    /// Prints all of an audit of a copy that has as many bytes behind its whole lines.
    fn print_copy<S: Sink>(
        &self,
        printer: &mut Printer<'_, S>,
        current: Option<AuctionKind>,
        results: bool,
        behind: u64,
    ) -> Result<(), WriteFailed>
        ensures { Prints S.Sink printer.old printer.new result (found_copy_text results self.now current behind) }
    {
        self.print(printer, current, results)?;
        print_behind(printer, behind, self.counts.entries)
    }

    /// Writes all of such an audit, or at a failure a beginning of it.
    pub fn write<S: Sink>(
        &self,
        writer: &mut S,
        current: Option<AuctionKind>,
        results: bool,
        behind: u64,
    ) -> Result<(), WriteFailed>
        ensures { WritesAll S.Sink writer.old writer.new result (found_copy_text results self.now current behind) }
    {
        let mut printer = Printer::new(writer);
        self.print_copy(&mut printer, current, results, behind)?;
        printer.flush()
    }
}

impl Listener for Findings {
    ghost Hears = { λ f auction heard. HasFoundOf f auction heard };

    ghost Awaits = { λ f auction heard _. HasFoundOf f auction heard };

    ghost Becomes = { λ _ _. Unit {0} };

    ghost becomes_itself = { λ _. tt };

    ghost becomes_on = { λ _ _ _ _ _. tt };

    fn before(
        &mut self,
        _alloc: Global,
        _auction: &mut Auction,
        _call: &Call,
    ) -> Result<(), AllocError> {
        Ok(())
    }

    fn hear(&mut self, _call: &Call, text: &[u8], reply: &Reply) -> Result<(), AllocError> {
        let number = self.counts.entries.saturating_add(1);
        let finding = finding_of(&mut self.texts, text, reply);
        record_finding(&mut self.lines, number, text, reply, finding)?;
        record_uncross(&mut self.results, number, reply)?;
        self.counts = self.counts.with(finding);
        Ok(())
    }
}
