//! A journal that is kept entry by entry until it is printed.

ghost use Rattle.std.specs.Prelude.{◌≡◌, ◌++◌, ◌∷◌, [], List, OnOk};
ghost use Rattle.auction_terms.specs.declared.Entry.{Entry};
ghost use Rattle.printed_lines.specs.KeptText.{kept_text};
ghost use Rattle.printed_lines.specs.Printing.{Prints};
ghost use Rattle.journal.specs.JournalText.{journal_text};
ghost use Rattle.journal.specs.KeptLines.{HasEntryLines};

use crate::day::DayHeader;
use crate::printing::{print_day, put_day, put_entry};
use crate::wide::see_reply;
use auction_terms::Entry;
use byte_streams::{Sink, WriteFailed};
use printed_lines::{KeptText, Printer};
use std::alloc::AllocError;

/// Keeps the line of a day, of which no entry has come. The error is that memory is refused.
pub fn keep_day(lines: &mut KeptText, day: DayHeader) -> Result<(), AllocError>
    ensures { OnOk result (kept_text lines.new ≡ kept_text lines.old ++ journal_text day []) }
{
    lines.make_room()?;
    put_day(&mut lines.page, day);
    Ok(())
}

/// Keeps the line of an entry after those of the entries before it. The error is that memory is refused.
pub fn keep_entry(lines: &mut KeptText, entry: Entry) -> Result<(), AllocError>
    ensures { (entries : List Entry) → HasEntryLines (kept_text lines.old) entries
        → OnOk result (HasEntryLines (kept_text lines.new) (entries ++ entry ∷ [])) }
{
    see_reply(entry.reply);
    lines.make_room()?;
    put_entry(&mut lines.page, entry);
    Ok(())
}

/// Prints the journal of a history whose lines were kept.
pub fn print_kept_journal<S: Sink>(
    printer: &mut Printer<'_, S>,
    day: DayHeader,
    lines: &KeptText,
) -> Result<(), WriteFailed>
    ensures { (entries : List Entry) → HasEntryLines (kept_text lines.now) entries
        → Prints S.Sink printer.old printer.new result (journal_text day entries) }
{
    print_day(printer, day)?;
    lines.print(printer)
}
