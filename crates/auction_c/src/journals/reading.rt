//! An auction that comes of a journal's text.
ghost use Rattle.std.specs.Prelude.{◌≡◌, unwrap_or};
ghost use Rattle.auction.specs.ConfigFault.{open_fault};
ghost use Rattle.auction.specs.declared.OpenFault.TheVariants as opening;
ghost use Rattle.day_road.specs.Inputs.{CanReadOn};
ghost use Rattle.journal.specs.JournalEntries.{day_left};
ghost use Rattle.journal.specs.JournalFile.{journal_of};
ghost use Rattle.auction_c.specs.JournalReading.{ReadsOrRefuses, ReadsText, Refuses};

use crate::errors::fault_out;
use crate::journals::comparing::{Comparison, told};
use crate::journals::faults::refuse;
use crate::structs::AuctionJournal;
use auction::{Auction, OpenFault};
use day_road::{hear_all, pass_over};
use journal::{Entries, MAX_JOURNAL_BYTES};
use journal_file::committed_len;
use order_file::FileFault;
use std::alloc::Global;

// What a journal's day that can't be opened comes to: a fault of the journal comes first.
fn refused(entries: &mut Entries<'_>, fault: OpenFault, found: &mut AuctionJournal) -> u32
    requires ready { CanReadOn entries.old }
    requires fault { fault ≡ unwrap_or (open_fault entries.old.day.config) opening.NoMemory }
    ensures { Refuses (day_left entries.old) found.old found.new result }
{
    match pass_over(entries) {
        Ok(()) => fault_out(fault),
        Err(fault) => refuse(found, fault),
    }
}

// What the entries of a journal come to, of which none was read.
fn read_entries(
    alloc: Global,
    entries: &mut Entries<'_>,
    found: &mut AuctionJournal,
) -> Result<Auction, u32>
    requires ready { CanReadOn entries.old }
    requires begun { entries.old.count ≡ 0 }
    ensures { ReadsOrRefuses (day_left entries.old) found.old found.new result }
{
    let day = entries.day();
    let mut auction = match Auction::open(alloc, day.config) {
        Ok(auction) => auction,
        Err(fault) => return Err(refused(entries, fault, found)),
    };
    let mut comparison = Comparison::new();
    match hear_all(alloc, entries, &mut auction, &mut comparison) {
        Ok(()) => {
            *found = told(comparison.counts, day.members, auction.calls());
            Ok(auction)
        }
        Err(fault) => Err(refuse(found, fault)),
    }
}

// What the whole lines of a text come to.
fn read_lines(alloc: Global, lines: &[u8], found: &mut AuctionJournal) -> Result<Auction, u32>
    ensures { ReadsOrRefuses (journal_of lines.now) found.old found.new result }
{
    match Entries::open(alloc, lines) {
        Ok(mut entries) => read_entries(alloc, &mut entries, found),
        Err(fault) => Err(refuse(found, fault)),
    }
}

/// The auction of a journal's day after the calls of its whole lines, what is found of its replies, and how many bytes
/// these lines have; or the error, and the journal's fault.
pub(crate) fn read_journal(
    alloc: Global,
    text: &[u8],
    found: &mut AuctionJournal,
) -> Result<Auction, u32>
    ensures { ReadsText text.now found.old found.new result }
{
    if text.len() > MAX_JOURNAL_BYTES {
        return Err(refuse(found, FileFault::TooLong));
    }
    let taken = committed_len(text);
    let (lines, _) = text.split_at(taken);
    match read_lines(alloc, lines, found) {
        Ok(auction) => {
            found.taken = taken as u32;
            Ok(auction)
        }
        Err(error) => Err(error),
    }
}
