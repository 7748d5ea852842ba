//! The exports of journals: their text is in memory, and files are the caller's.
ghost use Rattle.std.specs.Prelude.{◌≡◌, ◌<◌, ◌≤◌, ◌⊎◌, [], length, IfErr, IfOk, IsNone, IsSome};
ghost use Rattle.journal.specs.JournalText.{journal_text};
ghost use Rattle.auction_c.specs.Journals as recorded_as;
ghost use Rattle.auction_c.specs.declared.errors.TheConstants.{BAD_JOURNAL, BAD_LENGTH, IN_USE, NO_MEMORY};

use crate::errors::{BAD_LENGTH, DONE, IN_USE, NO_MEMORY};
use crate::handle::AuctionHandle;
use crate::journals::days::day_in;
use crate::journals::lines::write_lines;
use crate::journals::reading::read_journal;
use crate::journals::texts::put_text;
use crate::structs::{AuctionConfig, AuctionEntry, AuctionJournal};
use journal::keep_day;
use printed_lines::KeptText;
use std::alloc::Global;

/// Writes the first line of a journal, the day of this config for so many members, and how many bytes it has.
///
/// It answers `NO_CONFIG` for a struct that is no config; else the first fault of the config, `BAD_BOUNDS`,
/// `BAD_REFERENCE` or `BAD_CAPACITY`; else `NO_CONFIG` where the range is above `MAX_TICK`, which no journal says; else
/// `BAD_MEMBER` where the members aren't from 1 to `MAX_MEMBERS`; else `BAD_LENGTH` where the line doesn't fit, or
/// `NO_MEMORY` only where memory is refused.
#[unsafe(no_mangle)]
pub extern "C" fn callauction_journal_day(
    alloc: Global,
    config: &AuctionConfig,
    members: u32,
    text: &mut [u8],
    written: &mut usize,
) -> u32
    ensures day { IfOk (recorded_as.day_in config.now members) (λ day. result ≡ 0 →
        recorded_as.StandsAtHead (journal_text day []) text.old text.new written.new) }
    ensures refused { IfErr (recorded_as.day_in config.now members) (λ error. result ≡ error) }
    ensures long { IfOk (recorded_as.day_in config.now members) (λ day.
        length text.old < length (journal_text day []) → (result ≡ BAD_LENGTH) ⊎ (result ≡ NO_MEMORY)) }
    ensures memory { IfOk (recorded_as.day_in config.now members) (λ day.
        length (journal_text day []) ≤ length text.old → 0 < result → result ≡ NO_MEMORY) }
    ensures unchanged { 0 < result → (text.new ≡ text.old) × (written.new ≡ 0) }
{
    *written = 0;
    let day = match day_in(config, members) {
        Ok(day) => day,
        Err(error) => return error,
    };
    let mut lines = KeptText::new(alloc);
    let Ok(()) = keep_day(&mut lines, day) else {
        return NO_MEMORY;
    };
    if !put_text(&lines, text, written) {
        return BAD_LENGTH;
    }
    DONE
}

/// Writes the lines of entries, one after the other, as many as fit whole, and how many entries they are, and how many
/// bytes they have.
///
/// At the first struct that is no entry, or none that a journal can hold, it answers `NO_ENTRY`, and has written the
/// lines before it, as it has where memory is refused.
#[unsafe(no_mangle)]
pub extern "C" fn callauction_journal_entries(
    alloc: Global,
    entries: &[AuctionEntry],
    text: &mut [u8],
    copied: &mut usize,
    written: &mut usize,
) -> u32
    ensures { recorded_as.WritesLines entries.now text.old text.new copied.new written.new result }
{
    *written = 0;
    let mut lines = KeptText::new(alloc);
    write_lines(&mut lines, entries, text, copied, written)
}

/// Opens an auction of the day of a journal, applies the calls of its whole lines, and compares each recorded reply
/// with the lawful one. The handle then holds the auction after them, none of whose calls is the operator's alone. It
/// writes for how many members the day is, how many calls there are, how many of them have a recorded reply, of how
/// many of these it isn't the lawful one, and the number of the first of them; and how many bytes the whole lines
/// have, which are those up to the last line end before any NUL. What follows them, as a line that a crash has cut, is
/// no call.
///
/// Where the handle holds an auction already it answers `IN_USE`. Else it answers `BAD_JOURNAL`, and writes the fault,
/// where the text is no journal; then the first fault of its config; and `NO_MEMORY` only where memory is refused.
#[unsafe(no_mangle)]
pub extern "C" fn callauction_journal_open(
    alloc: Global,
    handle: &mut AuctionHandle,
    text: &[u8],
    found: &mut AuctionJournal,
) -> u32
    ensures auction { result ≡ 0 →
        handle.new.boxed.value ≡ recorded_as.auction_in (recorded_as.journal_in text.now) }
    ensures reserve { result ≡ 0 → handle.new.reserve ≡ 0 }
    ensures found { result ≡ 0 → found.new ≡ recorded_as.lines_found text.now }
    ensures fault { result ≡ BAD_JOURNAL →
        found.new ≡ recorded_as.journal_found (recorded_as.journal_in text.now) }
    ensures busy { IsSome handle.old.boxed.value → result ≡ IN_USE }
    ensures error { IsNone handle.old.boxed.value →
        (result ≡ recorded_as.journal_error (recorded_as.journal_in text.now)) ⊎ (result ≡ NO_MEMORY) }
    ensures refused { 0 < result →
        (handle.new.boxed.value ≡ handle.old.boxed.value) × (handle.new.reserve ≡ handle.old.reserve) }
    ensures unchanged { 0 < result → (result ≡ BAD_JOURNAL → ⊥) → found.new ≡ found.old }
    ensures clients { handle.new.clients ≡ handle.old.clients }
{
    if handle.is_open {
        return IN_USE;
    }
    let mut read = *found;
    let auction = match read_journal(alloc, text, &mut read) {
        Ok(auction) => auction,
        Err(error) => {
            *found = read;
            return error;
        }
    };
    let error = handle.hold(alloc, auction, 0);
    if error != DONE {
        return error;
    }
    *found = read;
    DONE
}
