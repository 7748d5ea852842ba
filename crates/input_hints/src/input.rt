//! The likely cause of an input's fault, by how the input begins.

ghost use Rattle.std.specs.Prelude.{◌≡◌, IfOk, MatchBool, Some, None, option_map};
ghost use Rattle.csv.specs.Records.{fields_of};
ghost use Rattle.order_file.specs.Rows.{IsRecordReader, rows_left};
ghost use Rattle.input_hints.specs.InputHints.{hint_in, hint_of_row, is_reply, row_in, rows_of, small};
ghost use Rattle.input_hints.specs.InputHints.{terms_in, whole_row};

use crate::hint::Hint;
use crate::record::{DayTerms, field_of, form_hint, hint_of_record, is_of_day};
use crate::start::ROOM;
use csv::ByteRecord;
use order_file::{FileFault, RecordFault, Records, number_of};
use std::alloc::{AllocError, Global};

/// Reads the record after `before` others, and says whether there is one.
fn read_behind(records: &mut Records<'_>, before: u64) -> Result<bool, AllocError>
    requires { IsRecordReader records.old.rows }
    ensures { IfOk result (λ found. MatchBool found
        (row_in before (rows_left records.old.rows) ≡ Some (fields_of records.new.row))
        (row_in before (rows_left records.old.rows) ≡ None)) }
{
    let mut left = before;
    'rows: while left > 0 {
        if !records.next()? {
            return Ok(false);
        }
        left -= 1;
    }
    records.next()
}

/// The record after `before` others of a text, if there is one.
fn row_at(alloc: Global, text: &[u8], before: u64) -> Result<Option<ByteRecord>, AllocError>
    ensures { IfOk result (λ row. option_map (λ r. fields_of r) row ≡ row_in before (rows_of text.now)) }
{
    let mut records = Records::open(alloc, text)?;
    if !read_behind(&mut records, before)? {
        return Ok(None);
    }
    Ok(Some(records.row))
}

/// The record with a number, from 1, of an input that begins so, if it is whole: where more of the input may follow,
/// another record has to follow it.
pub(crate) fn whole_row(
    alloc: Global,
    start: &[u8],
    number: u64,
) -> Result<Option<ByteRecord>, AllocError>
    ensures { IfOk result (λ row. option_map (λ r. fields_of r) row ≡ whole_row number start.now) }
{
    if start.len() == ROOM && row_at(alloc, start, number)?.is_none() {
        return Ok(None);
    }
    row_at(alloc, start, number.saturating_sub(1))
}

/// A number that is a count of members.
fn small(number: u32) -> Option<u8>
    ensures { result ≡ small number }
{
    if number < 256 {
        return Some(number as u8);
    }
    None
}

/// The terms of the day that a journal's first record says, or the others.
fn terms_in(first: &ByteRecord, others: DayTerms) -> DayTerms
    ensures { result ≡ terms_in (fields_of first.now) others }
{
    if !is_of_day(first) {
        return others;
    }
    let low = number_of(field_of(first, 1));
    let high = number_of(field_of(first, 2));
    let members = number_of(field_of(first, 4)).and_then(|number| small(number));
    match (low, high, members) {
        (Some(low), Some(high), Some(members)) => DayTerms { members, low, high },
        _ => others,
    }
}

/// Whether this field of a record of a journal is the reply.
fn is_reply(first: &ByteRecord, number: u64, row: &ByteRecord, fault: RecordFault) -> bool
    ensures { result ≡ is_reply (fields_of first.now) number (fields_of row.now) fault }
{
    match fault {
        RecordFault::BadField { field } => is_of_day(first) && number > 1 && field == row.len(),
        _ => false,
    }
}

/// The likely cause of the fault of the record with this number.
fn hint_of_row(
    alloc: Global,
    fault: RecordFault,
    number: u64,
    start: &[u8],
    terms: DayTerms,
) -> Result<Option<Hint>, AllocError>
    ensures { IfOk result (λ hint. hint ≡ hint_of_row fault number start.now terms) }
{
    let Some(first) = row_at(alloc, start, 0)? else {
        return Ok(None);
    };
    let Some(row) = whole_row(alloc, start, number)? else {
        return Ok(None);
    };
    if is_reply(&first, number, &row, fault) {
        return Ok(None);
    }
    hint_of_record(alloc, fault, number, &row, terms_in(&first, terms))
}

/// The likely cause of this fault of an input that begins so, where one is certain enough and its record is in that
/// beginning. A journal's own day takes the place of `terms`; its replies are not looked into. The error is that memory
/// is refused.
#[tactic(auto, unfolding(crate::specs::InputHints::hint_in))]
pub fn hint_of(
    alloc: Global,
    fault: FileFault,
    start: &[u8],
    terms: DayTerms,
) -> Result<Option<Hint>, AllocError>
    ensures { IfOk result (λ hint. hint ≡ hint_in fault start.now terms) }
{
    match fault {
        FileFault::BadMember { number } => {
            hint_of_row(alloc, RecordFault::BadMember, number, start, terms)
        }
        FileFault::BadCommand { number } => {
            hint_of_row(alloc, RecordFault::BadCommand, number, start, terms)
        }
        FileFault::BadField { number, field } => {
            hint_of_row(alloc, RecordFault::BadField { field }, number, start, terms)
        }
        FileFault::NotADay => match whole_row(alloc, start, 1)? {
            Some(row) => form_hint(alloc, 1, &row),
            None => Ok(None),
        },
        _ => Ok(None),
    }
}
