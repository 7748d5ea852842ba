//! The record of a call with its reply.

ghost use Rattle.std.specs.Prelude.{◌≡◌, ◌<◌, ◌≤◌, ◌+◌, ◌++◌, ◌∷◌, [], drop, length, true};
ghost use Rattle.std.specs.Prelude.{IfErr, IfOk, MatchResult, OnOk};
ghost use Rattle.std.specs.Simd.Lanes.{chunk};
ghost use Rattle.std.specs.List.{list_all};
ghost use Rattle.csv.specs.Records.{fields_of, partial_of};
ghost use Rattle.order_file.specs.File.{FailsAsWanted, IsOfRecord};
ghost use Rattle.order_file.specs.Record.{with_record_number};
ghost use Rattle.journal.specs.EntryRecord.{IsReplyText, call_with, fields_of_call, start_of_entry, is_printable};
ghost use Rattle.journal.specs.EntryRecord.{is_reply_text, reply_of_fields, recorded_call_of};

use auction_terms::Call;
use csv::ByteRecord;
use order_file::{FileFault, RecordFault, Word, command_of, member_of, word_at};
use std::simd::prelude::*;

/// How many bytes a recorded reply may have.
pub const MAX_REPLY: usize = 256;

/// What a record of a call begins with.
#[derive(Clone, Copy)]
pub(crate) struct RecordStart {
    member: u8,
    word: Word,
}

/// Printable ASCII.
fn is_printable(byte: u8) -> bool
    ensures { result ≡ is_printable byte }
{
    32 <= byte && byte <= 126
}

/// Whether the eight bytes from `at` on are printable.
#[inline]
fn are_eight_printable(text: &[u8], at: usize) -> bool
    requires { at + 8 ≤ length text.now }
    ensures { result ≡ list_all is_printable (chunk at 8 text.now) }
{
    let bytes = u8x8::from_slice(&text[at..]);
    let below = bytes.simd_lt(u8x8::splat(32)).to_bitmask();
    let above = bytes.simd_gt(u8x8::splat(126)).to_bitmask();
    below == 0 && above == 0
}

/// Whether the bytes from `from` on are printable, one by one.
fn is_rest_printable(text: &[u8], from: usize) -> bool
    requires { from ≤ length text.now }
    ensures { result ≡ list_all is_printable (drop from text.now) }
{
    let mut at = from;
    'rest: while at < text.len() {
        if !is_printable(text[at]) {
            return false;
        }
        at += 1;
    }
    true
}

fn is_all_printable(text: &[u8]) -> bool
    ensures { result ≡ list_all is_printable text.now }
{
    let mut at = 0;
    'eights: while text.len() - at >= 8 {
        if !are_eight_printable(text, at) {
            return false;
        }
        at += 8;
    }
    is_rest_printable(text, at)
}

/// Whether this may be the text of a reply.
#[tactic(auto, unfolding(crate::specs::EntryRecord::is_reply_text))]
fn is_reply_text(text: &[u8]) -> bool
    ensures { result ≡ is_reply_text text.now }
{
    text.len() <= MAX_REPLY && is_all_printable(text)
}

#[tactic(auto, unfolding(crate::specs::EntryRecord::start_of_entry))]
fn start_of_entry(fields: &ByteRecord, members: u8) -> Result<RecordStart, RecordFault>
    ensures head { result ≡ start_of_entry members (fields_of fields.now) }
    ensures below { IfOk result (λ head. head.member < members) }
{
    let member = member_of(fields, members)?;
    let word = word_at(fields)?;
    Ok(RecordStart { member, word })
}

/// The call of the fields before a reply, which is well formed or not, and has this place, from 1 on.
#[tactic(auto, unfolding(crate::specs::EntryRecord::call_with))]
fn call_with(
    head: RecordStart,
    fields: &ByteRecord,
    fine: bool,
    place: usize,
) -> Result<Call, RecordFault>
    ensures call { result ≡ call_with head (fields_of fields.now) fine place }
    ensures member { IfOk result (λ call. call.member ≡ head.member) }
    ensures fine { OnOk result (fine ≡ true) }
{
    let command = command_of(head.word, fields)?;
    if !fine {
        return Err(RecordFault::BadField { field: place });
    }
    Ok(Call {
        member: head.member,
        command,
    })
}

/// Takes the last field of a record off, and appends it to the texts; answers whether it may be the text of a reply.
/// The only fault is that memory is refused.
fn take_reply(row: &mut ByteRecord, texts: &mut ByteRecord) -> Result<bool, FileFault>
    requires { partial_of texts.old ≡ [] }
    ensures fine { IfOk result (λ fine. fine ≡ is_reply_text (reply_of_fields (fields_of row.old))) }
    ensures row { OnOk result (fields_of row.new ≡ fields_of_call (fields_of row.old)) }
    ensures texts { OnOk result
        (fields_of texts.new ≡ fields_of texts.old ++ reply_of_fields (fields_of row.old) ∷ []) }
    ensures partial { OnOk result (partial_of texts.new ≡ []) }
    ensures memory { IfErr result (λ e. e ≡ FileFault.NoMemory) }
{
    let place = row.len().saturating_sub(1);
    let text = row.get(place).unwrap_or(b"".as_slice());
    let fine = is_reply_text(text);
    if texts.push_field(text).is_err() {
        return Err(FileFault::NoMemory);
    }
    row.truncate(place);
    Ok(fine)
}

/// The call of a record, or the record's first fault, with its number; the text of the reply is appended to the texts.
/// The record is used up.
pub(crate) fn call_of(
    row: &mut ByteRecord,
    texts: &mut ByteRecord,
    number: u64,
    members: u8,
) -> Result<Call, FileFault>
    requires { partial_of texts.old ≡ [] }
    ensures call { MatchResult result
        (λ call. with_record_number number (recorded_call_of members (fields_of row.old))
        ≡ Ok (record { call = call; text = reply_of_fields (fields_of row.old) }))
        (λ e. FailsAsWanted e (with_record_number number (recorded_call_of members (fields_of row.old)))) }
    ensures texts { OnOk result
        (fields_of texts.new ≡ fields_of texts.old ++ reply_of_fields (fields_of row.old) ∷ []) }
    ensures partial { OnOk result (partial_of texts.new ≡ []) }
    ensures parsed { IfErr result IsOfRecord }
    ensures below { IfOk result (λ call. call.member < members) }
    ensures fine { OnOk result (IsReplyText (reply_of_fields (fields_of row.old))) }
{
    let head = match start_of_entry(row, members) {
        Ok(head) => head,
        Err(fault) => return Err(fault.in_record(number)),
    };
    let place = row.len();
    let fine = take_reply(row, texts)?;
    match call_with(head, row, fine, place) {
        Ok(call) => Ok(call),
        Err(fault) => Err(fault.in_record(number)),
    }
}
