//! What a session with a journal says of its journal on standard error, line by line.

ghost use Rattle.std.specs.Prelude.{◌≡◌};
ghost use Rattle.program_runs.specs.JournaledLive.{EndsWithStatus, begin_status, journaled_status, resume_status};

use crate::fault::Fault;
use crate::fault_lines::{
    ending_status, write_fault, write_line, write_live_fault, write_open_fault,
};
use crate::journaling::JournaledFault;
use auction_terms::Config;
use byte_streams::{Sink, write_all};
use journal::DayHeader;
use journal_file::{DeviceError, OpenFileFault};
use live_session::{BeginFault, CutOff, Ending, LiveFault, ResumeFault, UnlawfulEntry};
use order_file::FileFault;
use printed_lines::{Page, put_reply};

/// Writes the name of an option that differs.
fn write_name<E: Sink>(err: &mut E, differs: bool, name: &str, is_first: bool) -> bool {
    if !differs {
        return is_first;
    }
    if !is_first {
        let _ = write_all(err, b", ".as_slice());
    }
    let _ = write_all(err, name.as_bytes());
    false
}

/// Writes which options say another day than the journal's.
fn write_other_day<E: Sink>(err: &mut E, day: DayHeader, other: DayHeader) {
    let (ours, theirs): (Config, Config) = (day.config, other.config);
    let _ = write_all(err, b"journal of another day: ".as_slice());
    let is_first = write_name(err, ours.low != theirs.low, "low", true);
    let is_first = write_name(err, ours.high != theirs.high, "high", is_first);
    let is_first = write_name(
        err,
        ours.reference != theirs.reference,
        "reference",
        is_first,
    );
    let is_first = write_name(err, day.members != other.members, "members", is_first);
    let is_first = write_name(err, ours.max_open != theirs.max_open, "open", is_first);
    let is_first = write_name(err, ours.max_calls != theirs.max_calls, "calls", is_first);
    let _ = write_name(err, ours.range != theirs.range, "range", is_first);
    write_line(err, "");
}

/// Writes of an entry whose recorded reply isn't the lawful one.
fn write_unlawful<E: Sink>(err: &mut E, entry: UnlawfulEntry, recorded: &[u8]) {
    let mut page = Page::new();
    page.put("journal entry ");
    page.put_number(entry.number);
    page.put(": recorded \"");
    let _ = write_all(err, page.as_slice());
    let _ = write_all(err, recorded);
    page.clear();
    page.put("\", lawful \"");
    put_reply(&mut page, &entry.lawful);
    page.put("\"\n");
    let _ = write_all(err, page.as_slice());
}

/// Writes that the file of this name is no journal.
fn write_not_a_journal<E: Sink>(err: &mut E, name: &str) {
    let _ = write_all(err, b"journal ".as_slice());
    let _ = write_all(err, name.as_bytes());
    write_line(err, ": not a journal");
}

/// Writes the fault of a journal's text, and answers its status.
fn write_file_fault<E: Sink>(err: &mut E, fault: FileFault, name: &str) -> u8
    ensures { result ≡ resume_status (ResumeFault.File fault) }
{
    if matches!(fault, FileFault::NotADay) {
        write_not_a_journal(err, name);
        return 1;
    }
    if !matches!(fault, FileFault::NoMemory) {
        let _ = write_all(err, b"journal ".as_slice());
    }
    write_fault(err, Fault::File(fault))
}

/// Writes why a session doesn't go on with a journal, and answers the status.
fn write_resume_fault<E: Sink>(err: &mut E, fault: &ResumeFault, name: &str, day: DayHeader) -> u8
    ensures { result ≡ resume_status fault.now }
{
    match fault {
        ResumeFault::File(fault) => write_file_fault(err, *fault, name),
        ResumeFault::AnotherDay(other) => {
            write_other_day(err, day, *other);
            2
        }
        ResumeFault::Unlawful(entry, recorded) => {
            write_unlawful(err, *entry, recorded.as_slice());
            4
        }
    }
}

/// Writes how many bytes are behind a journal's lines, where this record would be.
fn write_damage<E: Sink>(err: &mut E, number: u64, bytes: u64) {
    let mut page = Page::new();
    page.put("journal record ");
    page.put_number(number);
    page.put(": damaged, ");
    page.put_number(bytes);
    page.put(" bytes follow\n");
    let _ = write_all(err, page.as_slice());
}

/// Writes the fault of a journal's file.
fn write_device_fault<E: Sink>(err: &mut E, fault: Option<DeviceError>) {
    match fault {
        Some(DeviceError::Changed) => write_line(err, "journal changed by others"),
        _ => write_line(err, "journal failed"),
    }
}

/// Writes why a session doesn't begin on a journal's file, and answers the status.
fn write_begin_fault<E: Sink>(err: &mut E, fault: &BeginFault, name: &str, day: DayHeader) -> u8
    ensures { result ≡ begin_status fault.now }
{
    match fault {
        BeginFault::NotAJournal => {
            write_not_a_journal(err, name);
            1
        }
        BeginFault::Resume(fault) => write_resume_fault(err, fault, name, day),
        BeginFault::Damaged(number, bytes) => {
            write_damage(err, *number, *bytes);
            1
        }
        BeginFault::Device(error) => {
            write_device_fault(err, Some(*error));
            3
        }
        BeginFault::NoMemory => write_fault(err, Fault::NoMemory),
    }
}

/// Why a journal's file isn't opened.
fn opening_line(fault: &OpenFileFault) -> &'static str {
    match fault {
        OpenFileFault::NotRegular => "journal open failed: a link, or no regular file",
        OpenFileFault::Foreign => "journal open failed: another user's file",
        OpenFileFault::Shared => "journal open failed: others may write it",
        OpenFileFault::Stream => "journal open failed: it is the session's input or output",
        OpenFileFault::Busy | OpenFileFault::Failed(_) => "journal open failed",
    }
}

/// Writes why a session with a journal doesn't begin, and answers the status.
pub(crate) fn write_journaled_fault<E: Sink>(
    err: &mut E,
    fault: &JournaledFault,
    name: &str,
    day: DayHeader,
) -> u8
    ensures { result ≡ journaled_status fault.now }
{
    match fault {
        JournaledFault::Day(fault) => write_open_fault(err, *fault, day),
        JournaledFault::Opening(OpenFileFault::Busy) => {
            write_line(err, "journal in use");
            2
        }
        JournaledFault::Opening(fault) => {
            write_line(err, opening_line(fault));
            3
        }
        JournaledFault::Begin(fault) => write_begin_fault(err, fault, name, day),
    }
}

/// Writes what was cut off behind a journal's lines, if anything was, and the file that it is in.
pub(crate) fn write_cut<E: Sink>(err: &mut E, name: &str, cut: Option<CutOff>) {
    let Some(CutOff { number, bytes }) = cut else {
        return;
    };
    let mut page = Page::new();
    page.put("journal cut off after its last line: ");
    page.put_number(bytes);
    page.put(" bytes, kept in ");
    let _ = write_all(err, page.as_slice());
    let _ = write_all(err, name.as_bytes());
    page.clear();
    page.put(".cut-");
    page.put_number(number);
    page.put("\n");
    let _ = write_all(err, page.as_slice());
}

/// Writes how many entries the journal has.
pub(crate) fn write_entries<E: Sink>(err: &mut E, count: u32) {
    let mut page = Page::new();
    page.put("journal ");
    page.put_number(u64::from(count));
    page.put(" entries\n");
    let _ = write_all(err, page.as_slice());
}

/// Writes how a session ended, and answers its status, which a journal that can't be closed changes, for this fault of
/// its file.
pub(crate) fn write_ending<E: Sink>(
    err: &mut E,
    ended: Result<Ending, LiveFault>,
    is_closed: bool,
    fault: Option<DeviceError>,
) -> u8
    ensures { EndsWithStatus ended is_closed result }
{
    let status = match ended {
        Ok(ending) => ending_status(ending),
        Err(LiveFault::CommitFailed) => 3,
        Err(fault) => write_live_fault(err, fault),
    };
    if is_closed {
        return status;
    }
    write_device_fault(err, fault);
    3
}
