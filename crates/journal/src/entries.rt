//! The entries of a journal, one after the other.

ghost use Rattle.std.specs.Prelude.{◌≡◌, IfErr, IfOk, IfSome, MatchResult};
ghost use Rattle.order_file.specs.File.{FailsAsWanted, IsBelow, IsOfRecord};
ghost use Rattle.journal.specs.JournalEntries.{CanReadEntries, GivesNextEntry, day_left, last_text};
ghost use Rattle.journal.specs.JournalFile.{journal_of};

use crate::day::DayHeader;
use crate::entry::call_of;
use crate::reading::day_from;
use auction_terms::Call;
use csv::ByteRecord;
use order_file::{FileFault, Records, up_to_overlong};
use std::alloc::Global;

/// The entries of a journal's text, one after the other, with the day of its first record.
#[derive(Drop)]
pub struct Entries<'a> {
    records: Records<'a>,
    // What was recorded as the reply of the last entry, as one field.
    texts: ByteRecord,
    day: DayHeader,
    count: u32,
}

impl<'a> Entries<'a> {
    /// The entries of a journal's text, with none read yet.
    pub fn open(alloc: Global, bytes: &'a [u8]) -> Result<Entries<'a>, FileFault>
        ensures day { MatchResult result
            (λ entries. journal_of bytes.now ≡ day_left entries)
            (λ e. FailsAsWanted e (journal_of bytes.now)) }
        ensures ready { IfOk result (λ entries. CanReadEntries entries.day 0 entries) }
        ensures parsed { IfErr result IsOfRecord }
    {
        Entries::of_text(alloc, up_to_overlong(bytes))
    }

    // The entries of a text, whatever memory its longest record takes.
    #[tactic(auto, unfolding(crate::specs::JournalFile::journal_of))]
    fn of_text(alloc: Global, text: &'a [u8]) -> Result<Entries<'a>, FileFault>
        ensures day { MatchResult result
            (λ entries. journal_of text.now ≡ day_left entries)
            (λ e. FailsAsWanted e (journal_of text.now)) }
        ensures ready { IfOk result (λ entries. CanReadEntries entries.day 0 entries) }
        ensures parsed { IfErr result IsOfRecord }
    {
        let mut records = Records::open(alloc, text)?;
        let day = day_from(&mut records)?;
        Ok(Entries {
            records,
            texts: ByteRecord::new(alloc),
            day,
            count: 0,
        })
    }

    /// The day of the first record.
    pub fn day(&self) -> DayHeader
        ensures { result ≡ self.now.day }
    {
        self.day
    }

    /// The call of the next entry, if there is one, or the first fault of its record.
    #[inline(always)]
    pub fn next_call(&mut self) -> Result<Option<Call>, FileFault>
        requires { CanReadEntries self.old.day self.old.count self.old }
        ensures call { GivesNextEntry self.old self.new result }
        ensures below { IfOk result (λ found. IfSome found (IsBelow self.old.day.members)) }
        ensures parsed { IfErr result IsOfRecord }
    {
        if !self.records.next()? {
            return Ok(None);
        }
        let (count, max_calls) = (self.count, self.day.config.max_calls);
        let number = u64::from(count) + 2;
        if count >= max_calls {
            return Err(FileFault::TooManyCommands { number });
        }
        self.texts.clear();
        let members = self.day.members;
        let call = call_of(&mut self.records.row, &mut self.texts, number, members)?;
        self.count = count + 1;
        Ok(Some(call))
    }

    /// What was recorded as the reply of the last entry: empty where nothing was.
    pub fn text(&self) -> &[u8]
        ensures { result.now ≡ last_text self.now }
    {
        self.texts.get(0).unwrap_or(b"".as_slice())
    }
}
