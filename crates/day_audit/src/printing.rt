//! What an audit prints.

ghost use Rattle.std.specs.Prelude.{◌≡◌, ◌≤◌, ◌+◌, ◌++◌, length, OnOk};
ghost use Rattle.printed_lines.specs.declared.page.TheConstants.{LONGEST_LINE, ROOM};
ghost use Rattle.printed_lines.specs.KeptText.{kept_text};
ghost use Rattle.printed_lines.specs.Printing.{Prints};
ghost use Rattle.printed_lines.specs.ReplyWords.{reply_text};
ghost use Rattle.day_audit.specs.AuditText.{compared_line, counts_text, difference, difference_line, lawful_words};
ghost use Rattle.day_audit.specs.AuditText.{recorded_words, unlawful_line};
ghost use Rattle.day_audit.specs.ResultsText.{behind_line, broken_line};

use crate::counts::{Counts, Finding};
use auction_terms::Reply;
use byte_streams::{Sink, WriteFailed};
use printed_lines::{KeptText, Page, Printer, print_audit, print_entries, put_reply};
use std::alloc::AllocError;

fn put_recorded_words(page: &mut Page, number: u64)
    requires { length page.old + LONGEST_LINE ≤ ROOM }
    ensures { page.new ≡ page.old ++ recorded_words number }
{
    page.put_number(number);
    page.put(": recorded \"");
}

fn put_lawful_words(page: &mut Page, reply: &Reply)
    requires { length page.old + LONGEST_LINE ≤ ROOM }
    ensures { page.new ≡ page.old ++ lawful_words (reply_text reply.now) }
{
    page.put("\", lawful \"");
    put_reply(page, reply);
    page.put("\"\n");
}

/// Records the line of an entry whose recorded reply isn't the lawful one, which is this.
fn record_difference(
    lines: &mut KeptText,
    number: u64,
    text: &[u8],
    reply: &Reply,
) -> Result<(), AllocError>
    requires { length text.now ≤ LONGEST_LINE }
    ensures { OnOk result (kept_text lines.new ≡ kept_text lines.old
        ++ difference_line number (record { recorded = text.now; lawful = reply_text reply.now })) }
{
    lines.make_room()?;
    put_recorded_words(&mut lines.page, number);
    lines.make_room()?;
    lines.page.put_bytes(text);
    lines.make_room()?;
    put_lawful_words(&mut lines.page, reply);
    Ok(())
}

/// Records what is found of an entry: a line where it is unlawful, else nothing.
pub(crate) fn record_finding(
    lines: &mut KeptText,
    number: u64,
    text: &[u8],
    reply: &Reply,
    finding: Finding,
) -> Result<(), AllocError>
    requires { length text.now ≤ LONGEST_LINE }
    ensures { OnOk result (kept_text lines.new ≡ kept_text lines.old
        ++ difference number (record { recorded = text.now; lawful = reply_text reply.now }) finding) }
{
    match finding {
        Finding::Unlawful => record_difference(lines, number, text, reply),
        Finding::Lawful | Finding::Silent => Ok(()),
    }
}

#[tactic(auto, unfolding(crate::specs::AuditText::compared_line))]
fn print_compared<S: Sink>(printer: &mut Printer<'_, S>, compared: u64) -> Result<(), WriteFailed>
    ensures { Prints S.Sink printer.old printer.new result (compared_line compared) }
{
    printer.make_room()?;
    let page = &mut printer.page;
    page.put("compared ");
    page.put_number(compared);
    page.put("\n");
    Ok(())
}

#[tactic(auto, unfolding(crate::specs::AuditText::unlawful_line))]
fn print_unlawful<S: Sink>(printer: &mut Printer<'_, S>, unlawful: u64) -> Result<(), WriteFailed>
    ensures { Prints S.Sink printer.old printer.new result (unlawful_line unlawful) }
{
    printer.make_room()?;
    let page = &mut printer.page;
    page.put("unlawful ");
    page.put_number(unlawful);
    page.put("\n");
    Ok(())
}

/// Prints what was counted, and whether the journal is legal.
pub(crate) fn print_counts<S: Sink>(
    printer: &mut Printer<'_, S>,
    counts: Counts,
) -> Result<(), WriteFailed>
    ensures { Prints S.Sink printer.old printer.new result (counts_text counts) }
{
    print_entries(printer, counts.entries)?;
    print_compared(printer, counts.compared)?;
    print_unlawful(printer, counts.unlawful)?;
    print_audit(printer, counts.first_unlawful)
}

fn put_broken(page: &mut Page, behind: u64, entries: u64)
    requires { length page.old + LONGEST_LINE ≤ ROOM }
    ensures { page.new ≡ page.old ++ broken_line behind entries }
{
    page.put("incomplete: ");
    page.put_number(behind);
    page.put(" bytes follow entry ");
    page.put_number(entries);
    page.put("\n");
}

fn print_broken<S: Sink>(
    printer: &mut Printer<'_, S>,
    behind: u64,
    entries: u64,
) -> Result<(), WriteFailed>
    ensures { Prints S.Sink printer.old printer.new result (broken_line behind entries) }
{
    printer.make_room()?;
    put_broken(&mut printer.page, behind, entries);
    Ok(())
}

/// Prints how many bytes are behind the whole lines of a copy with as many entries, or nothing where it is whole.
pub(crate) fn print_behind<S: Sink>(
    printer: &mut Printer<'_, S>,
    behind: u64,
    entries: u64,
) -> Result<(), WriteFailed>
    ensures { Prints S.Sink printer.old printer.new result (behind_line behind entries) }
{
    if behind == 0 {
        return Ok(());
    }
    print_broken(printer, behind, entries)
}
