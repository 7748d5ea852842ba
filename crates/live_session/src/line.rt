//! A line of an input.

ghost use Rattle.std.specs.Prelude.{◌≡◌, ◌≢◌, ◌≤◌, ◌+◌, ◌++◌, ◌∷◌, [], length, take, true, false, OnOk};
ghost use Rattle.csv.specs.Reading.{strip_bom};
ghost use Rattle.csv.specs.declared.parser.State.TheVariants as st;
ghost use Rattle.live_session.specs.Answered.{line_fault};
ghost use Rattle.live_session.specs.InputLines.{IsFirstLineEnd, is_marked, is_quote_open, line_state_after};
ghost use Rattle.order_file.specs.Spot.{state_of};
ghost use Rattle.live_session.specs.declared.line.TheConstants.{MAX_RECORD_BYTES};

use crate::fault::BadRecord;
use memchr::{memchr, memchr2};
use order_file::Spot;
use std::alloc::AllocError;

/// How many bytes a record may have at most, its line end not counted.
pub const MAX_RECORD_BYTES: usize = 1_048_576;

/// The limit, as FORMATS.md states it.
pub fn stated_limit()
    ensures { MAX_RECORD_BYTES ≡ 1_048_576 }
{}

/// The place of the first line end.
pub(crate) fn first_line_end(bytes: &[u8]) -> Option<usize>
    ensures { IsFirstLineEnd bytes.now result }
{
    memchr2(b'\n', b'\r', bytes)
}

/// Appends the next bytes to those of a line, as many as a record may have and one more.
pub(crate) fn add_to_line(line: &mut Vec<u8>, bytes: &[u8]) -> Result<(), AllocError>
    ensures { length line.old.items ≤ MAX_RECORD_BYTES + 1
        → OnOk result (line.new.items ≡ take (MAX_RECORD_BYTES + 1) (line.old.items ++ bytes.now)) }
{
    let room = (MAX_RECORD_BYTES + 1).saturating_sub(line.len());
    let (front, _) = bytes.split_at(room.min(bytes.len()));
    line.extend_from_slice(front)?;
    Ok(())
}

/// Whether these begin with a byte order mark.
fn is_marked(bytes: &[u8]) -> bool
    ensures { result ≡ is_marked bytes.now }
{
    bytes.len() >= 3 && bytes[0] == 0xEF && bytes[1] == 0xBB && bytes[2] == 0xBF
}

/// A line without the byte order mark before it.
pub(crate) fn without_mark(line: &[u8]) -> &[u8]
    ensures { result.now ≡ strip_bom line.now }
{
    if is_marked(line) {
        let (_, rest) = line.split_at(3);
        return rest;
    }
    line
}

/// Appends a line to a text of records.
pub(crate) fn put_record(text: &mut Vec<u8>, line: &[u8]) -> Result<(), AllocError>
    ensures { OnOk result (text.new.items ≡ (text.old.items ++ strip_bom line.now) ++ 10 ∷ []) }
{
    text.extend_from_slice(without_mark(line))?;
    text.push(b'\n')?;
    Ok(())
}

/// Whether a line has no byte.
pub(crate) fn is_blank(line: &[u8]) -> bool
    ensures blank { result ≡ true → line.now ≡ [] }
    ensures text { result ≡ false → line.now ≢ [] }
{
    line.is_empty()
}

/// Where these bytes leave the reader of records.
fn spot_behind(text: &[u8]) -> Spot
    ensures { state_of result ≡ line_state_after st.StartRecord text.now }
{
    let mut spot = Spot::RecordStart;
    for byte in text {
        spot = spot.after(*byte);
    }
    spot
}

/// Whether a quote that was opened in a line isn't closed in it.
fn is_quote_open(line: &[u8]) -> bool
    ensures { result ≡ is_quote_open line.now }
{
    if memchr(b'"', line).is_none() {
        return false;
    }
    spot_behind(without_mark(line)).after(b'\n').is_open()
}

/// Why a line isn't read as a record, if there is a reason.
pub(crate) fn line_fault(line: &[u8]) -> Option<BadRecord>
    ensures { result ≡ line_fault line.now }
{
    if line.len() > MAX_RECORD_BYTES {
        return Some(BadRecord::TooLong);
    }
    if is_quote_open(line) {
        return Some(BadRecord::OpenQuote);
    }
    None
}
