//! A record of the order file as a call.

ghost use Rattle.std.specs.Prelude.{◌≡◌, ◌<◌, IfErr, IfOk, Some, None, if◌then◌else◌};
ghost use Rattle.csv.specs.Records.{fields_of};
ghost use Rattle.order_file.specs.Field.{number_of, side_of, limit_of, peak_of, restriction_of};
ghost use Rattle.order_file.specs.File.{IsOfRecord};
ghost use Rattle.order_file.specs.CommandWord.{word_of};
ghost use Rattle.order_file.specs.Record.{field_as, peak_at, restriction_at, member_of, word_at, count_within};
ghost use Rattle.order_file.specs.Record.{enter_of, change_of, lone_number, command_of, call_of_record, numbered_call};

use crate::fault::{FileFault, RecordFault};
use crate::field::{limit_of, number_of, peak_of, restriction_of, side_of};
use auction_terms::{Call, Command, Limit, Restriction, Side};
use csv::ByteRecord;

/// The word of a command.
#[derive(Clone, Copy, Debug, PartialEq, Eq)]
pub enum Word {
    Enter,
    Change,
    Delete,
    OrderStatus,
    Indicate,
    ReadTrade,
    Uncross,
}

#[tactic(auto, unfolding(crate::specs::CommandWord::word_of))]
#[inline(always)]
fn word_of(field: &[u8]) -> Option<Word>
    ensures { result ≡ word_of field.now }
{
    match field {
        [b'e', b'n', b't', b'e', b'r'] => Some(Word::Enter),
        [b'c', b'h', b'a', b'n', b'g', b'e'] => Some(Word::Change),
        [b'd', b'e', b'l', b'e', b't', b'e'] => Some(Word::Delete),
        [b's', b't', b'a', b't', b'u', b's'] => Some(Word::OrderStatus),
        [b'a', b's', b'k'] => Some(Word::Indicate),
        [b't', b'r', b'a', b'd', b'e'] => Some(Word::ReadTrade),
        [b'u', b'n', b'c', b'r', b'o', b's', b's'] => Some(Word::Uncross),
        _ => None,
    }
}

/// Whether the record has from `least` to `most` fields.
#[tactic(auto, unfolding(crate::specs::Record::count_within))]
#[inline(always)]
pub fn count_within(fields: &ByteRecord, least: usize, most: usize) -> Result<(), RecordFault>
    ensures { result ≡ count_within least most (fields_of fields.now) }
{
    let count = fields.len();
    if count < least || count > most {
        return Err(RecordFault::BadCount);
    }
    Ok(())
}

/// The number at a place, from 0.
#[tactic(auto, unfolding(crate::specs::Record::field_as))]
#[inline(always)]
pub fn number_at(fields: &ByteRecord, place: usize) -> Result<u32, RecordFault>
    requires { place < 64 }
    ensures { result ≡ field_as number_of place (fields_of fields.now) }
{
    match fields.get(place) {
        None => Err(RecordFault::BadField { field: place + 1 }),
        Some(field) => number_of(field).ok_or(RecordFault::BadField { field: place + 1 }),
    }
}

#[tactic(auto, unfolding(crate::specs::Record::field_as))]
#[inline(always)]
fn side_at(fields: &ByteRecord, place: usize) -> Result<Side, RecordFault>
    requires { place < 64 }
    ensures { result ≡ field_as side_of place (fields_of fields.now) }
{
    match fields.get(place) {
        None => Err(RecordFault::BadField { field: place + 1 }),
        Some(field) => side_of(field).ok_or(RecordFault::BadField { field: place + 1 }),
    }
}

#[tactic(auto, unfolding(crate::specs::Record::field_as))]
#[inline(always)]
fn limit_at(fields: &ByteRecord, place: usize) -> Result<Limit, RecordFault>
    requires { place < 64 }
    ensures { result ≡ field_as limit_of place (fields_of fields.now) }
{
    match fields.get(place) {
        None => Err(RecordFault::BadField { field: place + 1 }),
        Some(field) => limit_of(field).ok_or(RecordFault::BadField { field: place + 1 }),
    }
}

/// The peak, which may be left out.
#[tactic(auto, unfolding(crate::specs::Record::peak_at))]
#[inline(always)]
fn peak_at(fields: &ByteRecord, place: usize) -> Result<Option<u64>, RecordFault>
    requires { place < 64 }
    ensures { result ≡ peak_at place (fields_of fields.now) }
{
    match fields.get(place) {
        None => Ok(None),
        Some(field) => peak_of(field).ok_or(RecordFault::BadField { field: place + 1 }),
    }
}

/// The auctions that the order is for, which may be left out.
#[tactic(auto, unfolding(crate::specs::Record::restriction_at))]
#[inline(always)]
fn restriction_at(fields: &ByteRecord, place: usize) -> Result<Restriction, RecordFault>
    requires { place < 64 }
    ensures { result ≡ restriction_at place (fields_of fields.now) }
{
    match fields.get(place) {
        None => Ok(Restriction::Unrestricted),
        Some(field) => restriction_of(field).ok_or(RecordFault::BadField { field: place + 1 }),
    }
}

/// The member in the first field: a number below the count of members.
#[tactic(auto, unfolding(crate::specs::Record::member_of))]
#[inline(always)]
pub fn member_of(fields: &ByteRecord, members: u8) -> Result<u8, RecordFault>
    ensures member { result ≡ member_of members (fields_of fields.now) }
    ensures below { IfOk result (λ member. member < members) }
{
    let Some(field) = fields.get(0) else {
        return Err(RecordFault::BadMember);
    };
    match number_of(field) {
        Some(member) if member < u32::from(members) => Ok(member as u8),
        _ => Err(RecordFault::BadMember),
    }
}

/// The command word in the second field.
#[tactic(auto, unfolding(crate::specs::Record::word_at))]
#[inline(always)]
pub fn word_at(fields: &ByteRecord) -> Result<Word, RecordFault>
    ensures { result ≡ word_at (fields_of fields.now) }
{
    match fields.get(1) {
        None => Err(RecordFault::BadCommand),
        Some(field) => word_of(field).ok_or(RecordFault::BadCommand),
    }
}

#[tactic(auto, unfolding(crate::specs::Record::enter_of))]
#[inline(always)]
fn enter_of(fields: &ByteRecord) -> Result<Command, RecordFault>
    ensures { result ≡ enter_of (fields_of fields.now) }
{
    count_within(fields, 5, 7)?;
    let side = side_at(fields, 2)?;
    let quantity = number_at(fields, 3)?;
    let limit = limit_at(fields, 4)?;
    let peak = peak_at(fields, 5)?;
    let restriction = restriction_at(fields, 6)?;
    Ok(Command::Enter {
        side,
        limit,
        quantity: u64::from(quantity),
        peak,
        restriction,
    })
}

#[tactic(auto, unfolding(crate::specs::Record::change_of))]
#[inline(always)]
fn change_of(fields: &ByteRecord) -> Result<Command, RecordFault>
    ensures { result ≡ change_of (fields_of fields.now) }
{
    count_within(fields, 5, 5)?;
    let id = number_at(fields, 2)?;
    let quantity = number_at(fields, 3)?;
    let limit = limit_at(fields, 4)?;
    Ok(Command::Change {
        id,
        limit,
        quantity: u64::from(quantity),
    })
}

/// The number that alone follows the command word.
#[tactic(auto, unfolding(crate::specs::Record::lone_number))]
#[inline(always)]
fn lone_number(fields: &ByteRecord) -> Result<u32, RecordFault>
    ensures { result ≡ lone_number (fields_of fields.now) }
{
    count_within(fields, 3, 3)?;
    number_at(fields, 2)
}

/// The command of a record with this word: the number of fields is looked at first, then the fields from left to right.
#[tactic(auto, unfolding(crate::specs::Record::command_of))]
#[inline(always)]
pub fn command_of(word: Word, fields: &ByteRecord) -> Result<Command, RecordFault>
    ensures { result ≡ command_of word (fields_of fields.now) }
{
    match word {
        Word::Enter => enter_of(fields),
        Word::Change => change_of(fields),
        Word::Delete => {
            let id = lone_number(fields)?;
            Ok(Command::Delete { id })
        }
        Word::OrderStatus => {
            let id = lone_number(fields)?;
            Ok(Command::OrderStatus { id })
        }
        Word::ReadTrade => {
            let number = lone_number(fields)?;
            Ok(Command::ReadTrade { number })
        }
        Word::Indicate => {
            count_within(fields, 2, 2)?;
            Ok(Command::Indicate)
        }
        Word::Uncross => {
            count_within(fields, 2, 2)?;
            Ok(Command::Uncross)
        }
    }
}

/// The call of a record, or its first fault.
#[tactic(auto, unfolding(crate::specs::Record::call_of_record))]
#[inline(always)]
pub fn call_of_record(fields: &ByteRecord, members: u8) -> Result<Call, RecordFault>
    ensures call { result ≡ call_of_record members (fields_of fields.now) }
    ensures below { IfOk result (λ call. call.member < members) }
{
    let member = member_of(fields, members)?;
    let word = word_at(fields)?;
    let command = command_of(word, fields)?;
    Ok(Call { member, command })
}

/// The same, with the number of the record in its fault.
#[tactic(auto, unfolding(crate::specs::Record::numbered_call))]
#[inline(always)]
pub fn numbered_call(fields: &ByteRecord, number: u64, members: u8) -> Result<Call, FileFault>
    ensures call { result ≡ numbered_call members number (fields_of fields.now) }
    ensures parsed { IfErr result IsOfRecord }
    ensures below { IfOk result (λ call. call.member < members) }
{
    match call_of_record(fields, members) {
        Ok(call) => Ok(call),
        Err(fault) => Err(fault.in_record(number)),
    }
}
