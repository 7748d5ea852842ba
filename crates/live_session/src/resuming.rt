//! A session that goes on with a journal's file.

ghost use Rattle.std.specs.Prelude.{◌≡◌, ◌≢◌, [], Ok};
ghost use Rattle.auction_terms.specs.Auxiliary.RunningAuction.{opened_auction};
ghost use Rattle.day_road.specs.Inputs.{CanReadOn};
ghost use Rattle.journal.specs.JournalEntries.{day_left};
ghost use Rattle.journal.specs.JournalFile.{journal_of};
ghost use Rattle.live_session.specs.Resumed.{IsResumedFrom};

use crate::begin_fault::ResumeFault;
use crate::looking::FirstUnlawful;
use auction::Auction;
use day_road::{hear_all, pass_over};
use journal::{DayHeader, Entries};
use std::alloc::Global;

/// What is said of entries that are of another day: a fault of the journal comes first.
fn of_another_day(entries: &mut Entries<'_>, day: DayHeader) -> ResumeFault
    requires ready { CanReadOn entries.old }
    requires another { entries.old.day ≢ day }
    ensures { IsResumedFrom day (day_left entries.old) (Err result) }
{
    let other = entries.day();
    match pass_over(entries) {
        Ok(()) => ResumeFault::AnotherDay(other),
        Err(fault) => ResumeFault::File(fault),
    }
}

/// Brings an auction, which was opened for this day, to where the entries of a journal of it leave it.
fn resume_after(
    alloc: Global,
    mut auction: Auction,
    entries: &mut Entries<'_>,
    day: DayHeader,
) -> Result<Auction, ResumeFault>
    requires opened { auction ≡ opened_auction day.config }
    requires ready { CanReadOn entries.old }
    requires same { entries.old.day ≡ day }
    requires begun { entries.old.count ≡ 0 }
    ensures { IsResumedFrom day (day_left entries.old) result }
{
    let mut first = FirstUnlawful::new(alloc);
    if let Err(fault) = hear_all(alloc, entries, &mut auction, &mut first) {
        return Err(ResumeFault::File(fault));
    }
    match first.entry {
        None => Ok(auction),
        Some(entry) => Err(ResumeFault::Unlawful(entry, first.recorded)),
    }
}

/// The same with entries of any day.
fn resume_entries(
    alloc: Global,
    auction: Auction,
    entries: &mut Entries<'_>,
    day: DayHeader,
) -> Result<Auction, ResumeFault>
    requires opened { auction ≡ opened_auction day.config }
    requires ready { CanReadOn entries.old }
    requires begun { entries.old.count ≡ 0 }
    ensures { IsResumedFrom day (day_left entries.old) result }
{
    if entries.day() != day {
        return Err(of_another_day(entries, day));
    }
    resume_after(alloc, auction, entries, day)
}

/// Brings an auction, which was opened for this day, to where the lines of a journal leave it.
///
/// The lines are those that [`committed_len`](journal_file::committed_len) leaves of a file. Where there are none, it
/// stays as it was opened. Else they have to be a journal of this day, and each recorded reply the lawful one.
pub fn resume(
    alloc: Global,
    auction: Auction,
    lines: &[u8],
    day: DayHeader,
) -> Result<Auction, ResumeFault>
    requires { auction ≡ opened_auction day.config }
    ensures fresh { lines.now ≡ [] → result ≡ Ok (opened_auction day.config) }
    ensures read { lines.now ≢ [] → IsResumedFrom day (journal_of lines.now) result }
{
    if lines.is_empty() {
        return Ok(auction);
    }
    match Entries::open(alloc, lines) {
        Ok(mut entries) => resume_entries(alloc, auction, &mut entries, day),
        Err(fault) => Err(ResumeFault::File(fault)),
    }
}
