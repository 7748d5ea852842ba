//! The record of the day that was opened.

ghost use Rattle.std.specs.Prelude.{◌≡◌, ◌<◌, ◌≤◌, IfOk};
ghost use Rattle.csv.specs.Records.{field_at, fields_of};
ghost use Rattle.journal.specs.DayRecord.{day_of_record, is_blank_field, is_day_row, number_if_any, number_within};

use auction_terms::{Config, MAX_CALLS, MAX_MEMBERS, MAX_OPEN_ORDERS, MAX_TICK};
use csv::ByteRecord;
use order_file::{RecordFault, count_within, number_at};

/// The auction that was opened, and for how many members.
#[derive(Clone, Copy, Debug, PartialEq, Eq)]
pub struct DayHeader {
    pub config: Config,
    pub members: u8,
}

/// Whether the record is that of a day: its first field is `day`.
#[tactic(auto, unfolding(crate::specs::DayRecord::is_day_row))]
pub(crate) fn is_day_row(fields: &ByteRecord) -> bool
    ensures { result ≡ is_day_row (fields_of fields.now) }
{
    match fields.get(0) {
        Some(field) => field == b"day".as_slice(),
        None => false,
    }
}

/// The number at a place, from `least` to `most`.
#[tactic(auto, unfolding(crate::specs::DayRecord::number_within))]
fn number_within(
    fields: &ByteRecord,
    place: usize,
    least: u32,
    most: u32,
) -> Result<u32, RecordFault>
    requires { place < 64 }
    ensures number { result ≡ number_within least most place (fields_of fields.now) }
    ensures within { IfOk result (λ number. number ≤ most) }
{
    let number = number_at(fields, place)?;
    if least <= number && number <= most {
        return Ok(number);
    }
    Err(RecordFault::BadField { field: place + 1 })
}

fn is_blank_field(fields: &ByteRecord, place: usize) -> bool
    ensures { result ≡ is_blank_field (field_at (fields_of fields.now) place) }
{
    match fields.get(place) {
        Some(field) => field.is_empty(),
        None => false,
    }
}

/// The number at a place, at most `most`, or none where the field is empty.
#[tactic(auto, unfolding(crate::specs::DayRecord::number_if_any))]
fn number_if_any(fields: &ByteRecord, place: usize, most: u32) -> Result<Option<u32>, RecordFault>
    requires { place < 64 }
    ensures { result ≡ number_if_any most place (fields_of fields.now) }
{
    if is_blank_field(fields, place) {
        return Ok(None);
    }
    let number = number_within(fields, place, 0, most)?;
    Ok(Some(number))
}

/// The day of a record that is one, or its first fault.
#[tactic(auto, unfolding(crate::specs::DayRecord::day_of_record))]
pub(crate) fn day_of_record(fields: &ByteRecord) -> Result<DayHeader, RecordFault>
    ensures { result ≡ day_of_record (fields_of fields.now) }
{
    count_within(fields, 8, 8)?;
    let low = number_within(fields, 1, 1, MAX_TICK)?;
    let high = number_within(fields, 2, 1, MAX_TICK)?;
    let reference = number_within(fields, 3, 1, MAX_TICK)?;
    let members = number_within(fields, 4, 1, u32::from(MAX_MEMBERS))?;
    let max_open = number_within(fields, 5, 1, MAX_OPEN_ORDERS)?;
    let max_calls = number_within(fields, 6, 1, MAX_CALLS)?;
    let range = number_if_any(fields, 7, MAX_TICK)?;
    Ok(DayHeader {
        config: Config {
            low,
            high,
            reference,
            max_open,
            max_calls,
            range,
        },
        members: members as u8,
    })
}
