//! Why a record is bad.

ghost use Rattle.std.specs.Prelude.{◌≡◌, IfOk, Some, None, map, nat_eq};
ghost use Rattle.std.specs.Char.{to_ascii_lowercase};
ghost use Rattle.std.specs.Str.{bytes_eq};
ghost use Rattle.csv.specs.Records.{fields_of};
ghost use Rattle.input_hints.specs.RecordHints.{command_hint, field_hint, field_of, form_hint, has_names};
ghost use Rattle.input_hints.specs.RecordHints.{hint_of_record, is_enter, is_header, is_lone, limit_hint, member_hint};
ghost use Rattle.input_hints.specs.RecordHints.{number_hint, is_of_day, restriction_hint, side_hint};

use crate::field::{
    has_blank_edge, has_byte, has_letter_first, is_command_word, is_decimal, is_utf_16, is_whole,
};
use crate::hint::Hint;
use csv::ByteRecord;
use order_file::RecordFault;
use std::alloc::{AllocError, Global};

/// By what the records of a day are read.
#[derive(Clone, Copy, Debug, PartialEq, Eq)]
pub struct DayTerms {
    /// How many members there are.
    pub members: u8,
    /// The lowest and the highest tick.
    pub low: u32,
    pub high: u32,
}

/// The field at a place, from 0, or no byte where there is none.
pub(crate) fn field_of(fields: &ByteRecord, place: usize) -> &[u8]
    ensures { result.now ≡ field_of place (fields_of fields.now) }
{
    match fields.get(place) {
        Some(field) => field,
        None => &[],
    }
}

/// Whether there is one field alone.
fn is_lone(fields: &ByteRecord) -> bool
    ensures { result ≡ is_lone (fields_of fields.now) }
{
    fields.len() == 1
}

/// Whether the first five fields begin with letters.
fn has_names(fields: &ByteRecord) -> bool
    ensures { result ≡ has_names (fields_of fields.now) }
{
    has_letter_first(field_of(fields, 0))
        && has_letter_first(field_of(fields, 1))
        && has_letter_first(field_of(fields, 2))
        && has_letter_first(field_of(fields, 3))
        && has_letter_first(field_of(fields, 4))
}

/// Whether a record is a header.
fn is_header(alloc: Global, fields: &ByteRecord) -> Result<bool, AllocError>
    ensures { IfOk result (λ is. is ≡ is_header (fields_of fields.now)) }
{
    let lowered = field_of(fields, 1).to_ascii_lowercase(alloc)?;
    Ok(has_names(fields) && !is_command_word(lowered.as_slice()))
}

/// What the form of the input is likely to be, if it isn't that of an order file.
#[tactic(auto, unfolding(crate::specs::RecordHints::form_hint))]
pub(crate) fn form_hint(
    alloc: Global,
    number: u64,
    fields: &ByteRecord,
) -> Result<Option<Hint>, AllocError>
    ensures { IfOk result (λ hint. hint ≡ form_hint number (fields_of fields.now)) }
{
    let first = field_of(fields, 0);
    if number == 1 && is_utf_16(first) {
        return Ok(Some(Hint::Utf16));
    }
    if is_lone(fields) && has_byte(first, b';') {
        return Ok(Some(Hint::Semicolons));
    }
    if is_lone(fields) && has_byte(first, b'\t') {
        return Ok(Some(Hint::Tabs));
    }
    if number == 1 && is_header(alloc, fields)? {
        return Ok(Some(Hint::Header));
    }
    Ok(None)
}

/// Why a field is no member of the day.
fn member_hint(field: &[u8], terms: DayTerms) -> Option<Hint>
    ensures { result ≡ member_hint field.now terms }
{
    if has_blank_edge(field) {
        return Some(Hint::Spaces);
    }
    if is_decimal(field) {
        return Some(Hint::DecimalPoint);
    }
    if is_whole(field) {
        return Some(Hint::NoSuchMember {
            members: terms.members,
        });
    }
    None
}

/// Why a field is no command word.
fn command_hint(field: &[u8], lowered: &[u8]) -> Option<Hint>
    ensures { lowered.now ≡ map to_ascii_lowercase field.now → result ≡ command_hint field.now }
{
    if has_blank_edge(field) {
        return Some(Hint::Spaces);
    }
    if is_command_word(lowered) {
        return Some(Hint::Capitals);
    }
    None
}

/// Why a field is no number.
fn number_hint(field: &[u8]) -> Option<Hint>
    ensures { result ≡ number_hint field.now }
{
    if has_blank_edge(field) {
        return Some(Hint::Spaces);
    }
    if is_decimal(field) {
        return Some(Hint::DecimalPoint);
    }
    None
}

/// Why a field is no side.
fn side_hint(field: &[u8], lowered: &[u8]) -> Option<Hint>
    ensures { lowered.now ≡ map to_ascii_lowercase field.now → result ≡ side_hint field.now }
{
    if has_blank_edge(field) {
        return Some(Hint::Spaces);
    }
    if lowered == b"bid".as_slice() || lowered == b"ask".as_slice() {
        return Some(Hint::Capitals);
    }
    if lowered == b"buy".as_slice() || lowered == b"sell".as_slice() {
        return Some(Hint::BuyOrSell);
    }
    None
}

/// Why a field is no limit.
fn limit_hint(field: &[u8], lowered: &[u8], terms: DayTerms) -> Option<Hint>
    ensures { lowered.now ≡ map to_ascii_lowercase field.now → result ≡ limit_hint field.now terms }
{
    if has_blank_edge(field) {
        return Some(Hint::Spaces);
    }
    if lowered == b"market".as_slice() {
        return Some(Hint::Capitals);
    }
    if is_decimal(field) {
        return Some(Hint::DecimalPoint);
    }
    if is_whole(field) {
        return Some(Hint::OutOfBounds {
            low: terms.low,
            high: terms.high,
        });
    }
    None
}

/// Why a field is no trading restriction.
fn restriction_hint(field: &[u8], lowered: &[u8]) -> Option<Hint>
    ensures { lowered.now ≡ map to_ascii_lowercase field.now → result ≡ restriction_hint field.now }
{
    if has_blank_edge(field) {
        return Some(Hint::Spaces);
    }
    if lowered == b"opening".as_slice() || lowered == b"closing".as_slice() {
        return Some(Hint::Capitals);
    }
    None
}

/// Whether a record enters an order.
fn is_enter(fields: &ByteRecord) -> bool
    ensures { result ≡ is_enter (fields_of fields.now) }
{
    field_of(fields, 1) == b"enter".as_slice()
}

/// Whether a record is that of a journal's day.
pub(crate) fn is_of_day(fields: &ByteRecord) -> bool
    ensures { result ≡ is_of_day (fields_of fields.now) }
{
    field_of(fields, 0) == b"day".as_slice()
}

/// Why a field, counted from 1, is malformed.
#[tactic(auto, unfolding(crate::specs::RecordHints::field_hint))]
fn field_hint(
    alloc: Global,
    number: usize,
    fields: &ByteRecord,
    terms: DayTerms,
) -> Result<Option<Hint>, AllocError>
    ensures { IfOk result (λ hint. hint ≡ field_hint number (fields_of fields.now) terms) }
{
    let field = field_of(fields, number.saturating_sub(1));
    let lowered = field.to_ascii_lowercase(alloc)?;
    if is_of_day(fields) {
        return Ok(number_hint(field));
    }
    if number == 3 && is_enter(fields) {
        return Ok(side_hint(field, lowered.as_slice()));
    }
    if number == 5 {
        return Ok(limit_hint(field, lowered.as_slice(), terms));
    }
    if number == 7 {
        return Ok(restriction_hint(field, lowered.as_slice()));
    }
    Ok(number_hint(field))
}

/// The likely cause of a record's fault, where one is certain enough: where the record couldn't be good without that
/// change. `number` is the record's own, from 1. The error is that memory is refused.
#[tactic(auto, unfolding(crate::specs::RecordHints::hint_of_record))]
pub fn hint_of_record(
    alloc: Global,
    fault: RecordFault,
    number: u64,
    fields: &ByteRecord,
    terms: DayTerms,
) -> Result<Option<Hint>, AllocError>
    ensures { IfOk result (λ hint. hint ≡ hint_of_record fault number (fields_of fields.now) terms) }
{
    match fault {
        RecordFault::BadMember => match form_hint(alloc, number, fields)? {
            Some(hint) => Ok(Some(hint)),
            None => Ok(member_hint(field_of(fields, 0), terms)),
        },
        RecordFault::BadCommand => {
            let field = field_of(fields, 1);
            let lowered = field.to_ascii_lowercase(alloc)?;
            Ok(command_hint(field, lowered.as_slice()))
        }
        RecordFault::BadCount => Ok(None),
        RecordFault::BadField { field } => field_hint(alloc, field, fields, terms),
    }
}
