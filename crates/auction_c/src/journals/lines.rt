//! The lines of entries.
ghost use Rattle.std.specs.Prelude.{◌≡◌, ◌≤◌, length, OnOk};
ghost use Rattle.journal.specs.PrintedJournal.{call_line};
ghost use Rattle.printed_lines.specs.KeptText.{kept_text};
ghost use Rattle.auction_c.specs.JournalReading.{WritesLine};
ghost use Rattle.auction_c.specs.Journals as recorded_as;

use crate::errors::{DONE, NO_ENTRY, NO_MEMORY};
use crate::journals::entries_in::decoded_entry;
use crate::journals::texts::{clear, put_text};
use crate::structs::AuctionEntry;
use auction_terms::Entry;
use journal::keep_entry;
use printed_lines::KeptText;
use std::alloc::AllocError;

// Keeps the line of an entry, and nothing else. The error is that memory is refused.
fn keep_line(lines: &mut KeptText, entry: Entry) -> Result<(), AllocError>
    ensures { OnOk result (kept_text lines.new ≡ call_line entry) }
{
    clear(lines);
    keep_entry(lines, entry)
}

// Writes the line of the entry in a struct behind those before it, and counts its bytes; or answers at which error
// there are no more. Room to keep a line in is lent.
fn write_line(
    lines: &mut KeptText,
    entry: &AuctionEntry,
    text: &mut [u8],
    written: &mut usize,
) -> Option<u32>
    requires { written.old ≤ length text.old }
    ensures { WritesLine (recorded_as.decoded_entry entry.now) text.old text.new written.old written.new result }
{
    let Some(decoded) = decoded_entry(entry) else {
        return Some(NO_ENTRY);
    };
    let Ok(()) = keep_line(lines, decoded) else {
        return Some(NO_MEMORY);
    };
    if !put_text(lines, text, written) {
        return Some(DONE);
    }
    None
}

/// Writes the lines of the entries in the first structs, as many as fit, and how many they are, and how many bytes. It
/// answers `NO_ENTRY` where the next struct is none.
pub(crate) fn write_lines(
    lines: &mut KeptText,
    entries: &[AuctionEntry],
    text: &mut [u8],
    copied: &mut usize,
    written: &mut usize,
) -> u32
    requires { written.old ≡ 0 }
    ensures { recorded_as.WritesLines entries.now text.old text.new copied.new written.new result }
{
    'structs: for i in 0..entries.len() {
        if let Some(error) = write_line(lines, &entries[i], text, written) {
            *copied = i;
            return error;
        }
    }
    *copied = entries.len();
    DONE
}
