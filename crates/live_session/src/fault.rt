//! Bad records, and how a live session ends.

ghost use Rattle.std.specs.Prelude.{◌≡◌, ◌≤◌, ◌+◌, ◌++◌, length};
ghost use Rattle.printed_lines.specs.declared.page.TheConstants.{LONGEST_LINE, ROOM};
ghost use Rattle.live_session.specs.BadRecords.{bad_record_line, bad_record_words, cause_words, record_fault_words};

use input_hints::{Hint, put_hint};
use order_file::RecordFault;
use printed_lines::{LONGEST_LINE, Page, ROOM};

/// Why a record isn't a call.
#[derive(Clone, Copy, Debug, PartialEq, Eq)]
pub enum BadRecord {
    /// Its line has more than `MAX_RECORD_BYTES` bytes.
    TooLong,
    /// A quote is open at the end of its line.
    OpenQuote,
    /// The input ended before the end of its line.
    CutOff,
    /// The day has no calls left.
    TooManyCommands,
    /// The calls that are left are the operator's.
    Reserved,
    /// Its fields aren't those of a command.
    Malformed(RecordFault),
}

/// Puts the words of a record's fault on the page.
fn put_record_fault(page: &mut Page, fault: RecordFault)
    requires { length page.old + 50 ≤ ROOM }
    ensures text { page.new ≡ page.old ++ record_fault_words fault }
    ensures longer { length page.new ≤ length page.old + 50 }
{
    match fault {
        RecordFault::BadMember => page.put("bad member"),
        RecordFault::BadCommand => page.put("bad command"),
        RecordFault::BadCount => page.put("wrong number of fields"),
        RecordFault::BadField { field } => {
            page.put("bad field ");
            page.put_number(field as u64);
        }
    }
}

/// Puts the words of a bad record on the page.
fn put_bad_record(page: &mut Page, fault: BadRecord)
    requires { length page.old + 50 ≤ ROOM }
    ensures text { page.new ≡ page.old ++ bad_record_words fault }
    ensures longer { length page.new ≤ length page.old + 50 }
{
    match fault {
        BadRecord::TooLong => page.put("record too long"),
        BadRecord::OpenQuote => page.put("quote not closed"),
        BadRecord::CutOff => page.put("cut off"),
        BadRecord::TooManyCommands => page.put("too many commands"),
        BadRecord::Reserved => page.put("calls are reserved for the operator"),
        BadRecord::Malformed(fault) => put_record_fault(page, fault),
    }
}

/// Puts a likely cause on the page, after a colon.
fn put_cause(page: &mut Page, cause: Option<Hint>)
    requires { length page.old + 80 ≤ ROOM }
    ensures text { page.new ≡ page.old ++ cause_words cause }
    ensures longer { length page.new ≤ length page.old + 80 }
{
    match cause {
        None => (),
        Some(cause) => {
            page.put(": ");
            put_hint(page, cause);
        }
    }
}

/// Puts the line of a bad record on the page: its number in the input, from 1, its fault, and the likely cause of that,
/// if there is one.
#[tactic(auto, unfolding(crate::specs::BadRecords::bad_record_line))]
pub(crate) fn put_bad_line(page: &mut Page, number: u64, fault: BadRecord, cause: Option<Hint>)
    requires { length page.old + LONGEST_LINE ≤ ROOM }
    ensures { page.new ≡ page.old ++ bad_record_line number fault cause }
{
    page.put("record ");
    page.put_number(number);
    page.put(": ");
    put_bad_record(page, fault);
    put_cause(page, cause);
    page.put("\n");
}

/// How a session ends whose input has ended.
#[derive(Clone, Copy, Debug, PartialEq, Eq)]
pub enum Ending {
    /// Each record was a call.
    AllGood,
    /// A record was bad.
    SomeBad,
}

/// Why a session ends before its input.
#[derive(Clone, Copy, Debug, PartialEq, Eq)]
pub enum LiveFault {
    /// The device failed to read.
    ReadFailed,
    /// The device failed to commit entries. Their records aren't answered.
    CommitFailed,
    /// The device failed to write.
    WriteFailed,
    /// Memory was refused.
    NoMemory,
}
