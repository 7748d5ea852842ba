//! The results of a day: what its uncrosses came to, and the auction that it is in, if any.

ghost use Rattle.std.specs.Prelude.{◌≡◌, ◌≤◌, ◌+◌, ◌++◌, length, OnOk};
ghost use Rattle.printed_lines.specs.KeptText.{kept_text};
ghost use Rattle.printed_lines.specs.Printing.{Prints};
ghost use Rattle.printed_lines.specs.declared.page.TheConstants.{ROOM};
ghost use Rattle.day_audit.specs.ResultsText.{current_auction_line, uncross_line};

use auction_terms::{AuctionKind, Reply};
use byte_streams::{Sink, WriteFailed};
use printed_lines::{KeptText, LastTexts, Page, Printer, kind_word};
use std::alloc::AllocError;

/// Records the line of a command's reply, if that is of an uncross that was accepted.
pub(crate) fn record_uncross(
    lines: &mut KeptText,
    number: u64,
    reply: &Reply,
) -> Result<(), AllocError>
    ensures { OnOk result (kept_text lines.new ≡ kept_text lines.old ++ uncross_line number reply.now) }
{
    if !reply.is_uncross() {
        return Ok(());
    }
    lines.make_room()?;
    LastTexts::new().put_line(&mut lines.page, number, reply);
    Ok(())
}

fn put_day(page: &mut Page, auction: Option<AuctionKind>)
    requires { length page.old + 60 ≤ ROOM }
    ensures { page.new ≡ page.old ++ current_auction_line auction }
{
    match auction {
        None => page.put("day over\n"),
        Some(kind) => {
            page.put("in ");
            page.put(kind_word(kind));
            page.put("\n");
        }
    }
}

/// Prints the auction that the day is in, or that it is over.
pub(crate) fn print_day<S: Sink>(
    printer: &mut Printer<'_, S>,
    auction: Option<AuctionKind>,
) -> Result<(), WriteFailed>
    ensures { Prints S.Sink printer.old printer.new result (current_auction_line auction) }
{
    printer.make_room()?;
    put_day(&mut printer.page, auction);
    Ok(())
}
