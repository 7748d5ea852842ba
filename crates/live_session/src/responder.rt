//! The answers to records.

ghost use Rattle.std.specs.Prelude.{◌≡◌, ◌<◌, ◌+◌, ◌++◌, ◌∷◌, [], List, IfOk};
ghost use Rattle.auction_terms.specs.declared.Entry.{Entry};
ghost use Rattle.csv.specs.Reading.{default_config, records, strip_bom};
ghost use Rattle.csv.specs.Records.{fields_of};
ghost use Rattle.order_file.specs.Rows.{IsRecordReader, rows_left};
ghost use Rattle.journal.specs.KeptLines.{HasEntryLines};
ghost use Rattle.printed_lines.specs.KeptText.{kept_text};
ghost use Rattle.auction_views.specs.View.{view_of};
ghost use Rattle.live_session.specs.Answered.{after_record, after_records, answer_call, answer_view, cause_of};
ghost use Rattle.live_session.specs.Answered.{live_call, refused, refused_row, refused_with, replied, answered_by_view};
ghost use Rattle.live_session.specs.Gathered.{AddsAnswers, IsCommitted};
ghost use Rattle.live_session.specs.Giving.{GivesGathered, IsGatheredAs, IsNew};
ghost use Rattle.live_session.specs.UnquotedLines.{HasNone, is_mark};

use crate::conversation::Conversation;
use crate::fault::{BadRecord, Ending, LiveFault, put_bad_line};
use crate::line::is_blank;
use crate::plain::put_fields;
use crate::terms::SessionTerms;
use auction::Auction;
use auction_terms::{Call, Config, Entry, Reply};
use auction_views::{View, is_view, put_view, view_of};
use csv::ByteRecord;
use input_hints::{DayTerms, Hint, hint_of_record};
use journal::keep_entry;
use order_file::{Records, call_of_record};
use printed_lines::{KeptText, LastTexts};
use std::alloc::{AllocError, Global};

/// The call of a record, or its fault.
#[tactic(auto, unfolding(crate::specs::Answered::live_call))]
fn live_call(auction: &Auction, terms: SessionTerms, row: &ByteRecord) -> Result<Call, BadRecord>
    ensures call { result ≡ live_call terms auction.now (fields_of row.now) }
    ensures room { IfOk result (λ _. auction.now.calls < auction.now.config.max_calls) }
{
    if auction.calls() >= auction.config().max_calls {
        return Err(BadRecord::TooManyCommands);
    }
    let call = match call_of_record(row, terms.members) {
        Ok(call) => call,
        Err(fault) => return Err(BadRecord::Malformed(fault)),
    };
    if auction.is_reserved_from(call.member, terms.reserve) {
        return Err(BadRecord::Reserved);
    }
    Ok(call)
}

/// Answers records on an auction, and gathers what is to be written: the answers, and the entries of the calls.
#[derive(Drop)]
pub(crate) struct Responder {
    auction: Auction,
    terms: SessionTerms,
    // How many records have come.
    records: u64,
    ending: Ending,
    answers: KeptText,
    // The texts of the line that was put last.
    last: LastTexts,
    entries: KeptText,
}

impl Responder {
    /// A responder on this auction, with nothing answered so far.
    pub(crate) fn new(alloc: Global, auction: Auction, terms: SessionTerms) -> Responder
        ensures { IsNew result terms auction }
    {
        Responder {
            auction,
            terms,
            records: 0,
            ending: Ending::AllGood,
            answers: KeptText::new(alloc),
            last: LastTexts::new(),
            entries: KeptText::new(alloc),
        }
    }

    /// How the session ends if its input has ended.
    pub(crate) fn ending(&self) -> Ending
        ensures { result ≡ self.now.ending }
    {
        self.ending
    }

    /// The number of the next record. The error is that it is no `u64`.
    fn next_number(&self) -> Result<u64, AllocError>
        ensures { IfOk result (λ number. number ≡ self.now.records + 1) }
    {
        self.records.checked_add(1).ok_or(AllocError)
    }

    /// Applies the call of a good record, and gathers its answer and its entry.
    fn reply(&mut self, call: Call) -> Result<(), AllocError>
        requires { self.old.auction.calls < self.old.auction.config.max_calls }
        ensures { AddsAnswers self.old self.new (λ _ so_far. replied so_far call) result }
    {
        let number = self.next_number()?;
        self.answers.make_room()?;
        let mut entry = Entry {
            member: call.member,
            command: call.command,
            reply: Reply::Deleted,
        };
        self.auction.answer_call(&call, &mut entry.reply);
        self.last.put_line(
            &mut self.answers.page,
            u64::from(self.auction.calls()),
            &entry.reply,
        );
        self.records = number;
        keep_entry(&mut self.entries, entry)?;
        Ok(())
    }

    /// Gathers the answer to a bad record, with its fault's likely cause, if there is one.
    fn refuse_with(&mut self, fault: BadRecord, cause: Option<Hint>) -> Result<(), AllocError>
        ensures { AddsAnswers self.old self.new (λ _ so_far. refused_with so_far fault cause) result }
    {
        let number = self.next_number()?;
        self.answers.make_room()?;
        put_bad_line(&mut self.answers.page, number, fault, cause);
        self.ending = Ending::SomeBad;
        self.records = number;
        Ok(())
    }

    /// Gathers the answer to a bad record, of whose fault no cause is known.
    pub(crate) fn refuse(&mut self, fault: BadRecord) -> Result<(), AllocError>
        ensures { AddsAnswers self.old self.new (λ _ so_far. refused so_far fault) result }
    {
        self.refuse_with(fault, None)
    }

    /// The likely cause of the fault of the next record.
    fn cause_of(
        &self,
        alloc: Global,
        row: &ByteRecord,
        fault: BadRecord,
    ) -> Result<Option<Hint>, AllocError>
        ensures { IfOk result (λ cause. cause
            ≡ cause_of self.now.terms self.now.auction (self.now.records + 1) (fields_of row.now) fault) }
    {
        let BadRecord::Malformed(fault) = fault else {
            return Ok(None);
        };
        let number = self.next_number()?;
        let Config { low, high, .. } = self.auction.config();
        let terms = DayTerms {
            members: self.terms.members,
            low,
            high,
        };
        hint_of_record(alloc, fault, number, row, terms)
    }

    /// Gathers the answer to a record that is no call.
    fn refuse_row(
        &mut self,
        alloc: Global,
        row: &ByteRecord,
        fault: BadRecord,
    ) -> Result<(), AllocError>
        ensures { AddsAnswers self.old self.new
            (λ terms so_far. refused_row terms so_far (fields_of row.now) fault) result }
    {
        let cause = self.cause_of(alloc, row, fault)?;
        self.refuse_with(fault, cause)
    }

    /// Gathers the text of a view.
    fn show(&mut self, alloc: Global, view: View) -> Result<(), AllocError>
        ensures { AddsAnswers self.old self.new (λ _ so_far. answered_by_view so_far view) result }
    {
        let number = self.next_number()?;
        put_view(alloc, &mut self.answers, &mut self.auction, view)?;
        self.records = number;
        Ok(())
    }

    /// Answers the next record, which asks for a view.
    fn answer_view(&mut self, alloc: Global, row: &ByteRecord) -> Result<(), AllocError>
        ensures { AddsAnswers self.old self.new
            (λ terms so_far. answer_view so_far (view_of terms.members (fields_of row.now))) result }
    {
        match view_of(row, self.terms.members) {
            Ok(view) => self.show(alloc, view),
            Err(fault) => self.refuse(BadRecord::Malformed(fault)),
        }
    }

    /// Answers the next record, which is to be a call.
    fn answer_call(&mut self, alloc: Global, row: &ByteRecord) -> Result<(), AllocError>
        ensures { AddsAnswers self.old self.new
            (λ terms so_far. answer_call terms so_far (fields_of row.now)
            (live_call terms so_far.auction (fields_of row.now))) result }
    {
        match live_call(&self.auction, self.terms, row) {
            Ok(call) => self.reply(call),
            Err(fault) => self.refuse_row(alloc, row, fault),
        }
    }

    /// Answers the next record.
    fn answer_row(&mut self, alloc: Global, row: &ByteRecord) -> Result<(), AllocError>
        ensures { AddsAnswers self.old self.new (λ terms so_far. after_record terms so_far (fields_of row.now)) result }
    {
        if is_view(row) {
            return self.answer_view(alloc, row);
        }
        self.answer_call(alloc, row)
    }

    /// Answers the record of a line without quotes, if it isn't blank. A record is lent for it.
    pub(crate) fn answer_plain(
        &mut self,
        alloc: Global,
        row: &mut ByteRecord,
        line: &[u8],
    ) -> Result<(), AllocError>
        requires { HasNone is_mark line.now }
        ensures { AddsAnswers self.old self.new
            (λ terms so_far. after_records terms so_far (records default_config (line.now ++ 10 ∷ []))) result }
    {
        if is_blank(line) {
            return Ok(());
        }
        row.clear();
        put_fields(row, line)?;
        self.answer_row(alloc, row)
    }

    /// Answers the records that are left.
    fn answer_rows(&mut self, alloc: Global, records: &mut Records<'_>) -> Result<(), AllocError>
        requires { IsRecordReader records.old.rows }
        ensures { AddsAnswers self.old self.new
            (λ terms so_far. after_records terms so_far (rows_left records.old.rows)) result }
    {
        'rows: for _ in 0..u64::MAX {
            if !records.next()? {
                return Ok(());
            }
            self.answer_row(alloc, &records.row)?;
        }
        Err(AllocError)
    }

    /// Answers the records of a text.
    pub(crate) fn answer_text(&mut self, alloc: Global, text: &[u8]) -> Result<(), AllocError>
        ensures { AddsAnswers self.old self.new
            (λ terms so_far. after_records terms so_far (records default_config (strip_bom text.now))) result }
    {
        let mut records = Records::open(alloc, text)?;
        self.answer_rows(alloc, &mut records)
    }

    /// Puts each text in one piece. The error is that memory is refused.
    fn turn_pages(&mut self) -> Result<(), AllocError>
        ensures { IsGatheredAs self.old self.new result }
    {
        self.entries.turn_page()?;
        self.answers.turn_page()?;
        Ok(())
    }

    /// Commits the gathered entries, and then writes the gathered answers.
    pub(crate) fn give<C: Conversation>(&mut self, talk: &mut C) -> Result<(), LiveFault>
        requires lines { (kept : List Entry) × HasEntryLines (kept_text self.old.entries) kept }
        requires writes { (now : C) → IsCommitted C.Conversation talk.old now (kept_text self.old.entries)
            → C.MayWrite now (kept_text self.old.answers) }
        ensures { GivesGathered C.Conversation talk.old talk.new self.old self.new result }
    {
        let Ok(()) = self.turn_pages() else {
            return Err(LiveFault::NoMemory);
        };
        let Ok(()) = talk.commit(self.entries.full.as_slice()) else {
            return Err(LiveFault::CommitFailed);
        };
        let Ok(()) = talk.write(self.answers.full.as_slice()) else {
            return Err(LiveFault::WriteFailed);
        };
        self.entries.full.clear();
        self.answers.full.clear();
        Ok(())
    }
}
