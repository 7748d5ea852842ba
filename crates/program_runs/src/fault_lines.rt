//! The lines of faults, and of their likely causes, on standard error. What writes one answers the fault's status.

ghost use Rattle.std.specs.Prelude.{◌≡◌};
ghost use Rattle.program_runs.specs.FaultLine.{WritesOneLine, fault_line};
ghost use Rattle.program_runs.specs.LiveRun.{ending_status};
ghost use Rattle.program_runs.specs.Status.{open_status, run_status, status_of};

use crate::fault::{Fault, Finish};
use crate::fault_texts::put_fault;
use byte_streams::{Sink, write_all};
use clap::Error;
use clap::error::ErrorKind;
use input_hints::{Bounds, DayTerms, bounds_hint, hint_of, hint_of_bounds, is_like_file};
use journal::DayHeader;
use live_session::{Ending, LiveFault};
use order_file::FileFault;
use printed_lines::Page;
use settings::ArgumentsFault;
use std::alloc::Global;
use std::fmt::InlineText;

/// Writes a line on standard error. Where that fails there is nobody left to write to.
pub(crate) fn write_line<E: Sink>(err: &mut E, line: &str) {
    if write_all(err, line.as_bytes()).is_ok() {
        let _ = write_all(err, b"\n".as_slice());
    }
}

/// Writes the line of a fault on standard error, and answers its status.
pub(crate) fn write_fault<E: Sink>(err: &mut E, fault: Fault) -> u8
    ensures status { result ≡ status_of fault }
    ensures line { WritesOneLine E.Sink err.old err.new (fault_line fault) }
{
    let mut page = Page::new();
    put_fault(&mut page, fault);
    page.put("\n");
    let _ = write_all(err, page.as_slice());
    fault.status()
}

/// By what the records of a day are read.
fn terms_of(day: DayHeader) -> DayTerms {
    DayTerms {
        members: day.members,
        low: day.config.low,
        high: day.config.high,
    }
}

/// The bounds and the reference of a day.
fn bounds_of(day: DayHeader) -> Bounds {
    Bounds {
        low: day.config.low,
        high: day.config.high,
        reference: day.config.reference,
    }
}

/// Writes the line of a fault of this day's config, and after it one with what is wrong with its bounds or its
/// reference, if anything is.
pub(crate) fn write_open_fault<E: Sink>(
    err: &mut E,
    fault: auction::OpenFault,
    day: DayHeader,
) -> u8
    ensures { result ≡ open_status fault }
{
    let status = write_fault(err, Fault::Open(fault));
    if let Some(hint) = bounds_hint(bounds_of(day)) {
        write_line(err, InlineText::<64>::of(hint).as_str());
    }
    status
}

/// Writes a line with the likely cause of this fault of an input that begins so, where there is one.
fn write_cause<E: Sink>(alloc: Global, err: &mut E, fault: Fault, start: &[u8], day: DayHeader) {
    match fault {
        Fault::File(fault) => {
            if let Ok(Some(hint)) = hint_of(alloc, fault, start, terms_of(day)) {
                write_line(err, InlineText::<64>::of(hint).as_str());
            }
        }
        Fault::Open(_) => {
            if let Ok(Some(hint)) = hint_of_bounds(alloc, start, bounds_of(day)) {
                write_line(err, InlineText::<64>::of(hint).as_str());
            }
        }
        _ => {}
    }
}

/// Writes the line of a fault, and after it one with its likely cause in an input that begins so, where there is one.
fn write_input_fault<E: Sink>(
    alloc: Global,
    err: &mut E,
    fault: Fault,
    start: &[u8],
    day: DayHeader,
) -> u8
    ensures { result ≡ status_of fault }
{
    let status = write_fault(err, fault);
    write_cause(alloc, err, fault, start, day);
    status
}

/// Writes the fault of a run of an input that begins so, if there is one, and answers the run's status.
pub(crate) fn write_run_fault<E: Sink>(
    alloc: Global,
    err: &mut E,
    run: Result<Finish, Fault>,
    start: &[u8],
    day: DayHeader,
) -> u8
    ensures { result ≡ run_status run }
{
    match run {
        Ok(finish) => finish.status(),
        Err(fault) => write_input_fault(alloc, err, fault, start, day),
    }
}

/// Where an argument that there isn't looks like a file, says how the program is given one.
pub(crate) fn write_file_hint<E: Sink>(err: &mut E, error: &Error, arguments: &[&str]) {
    let [_, arguments @ ..] = arguments else {
        return;
    };
    if error.kind() != ErrorKind::UnknownArgument {
        return;
    }
    for word in arguments {
        if is_like_file(word) {
            let _ = write_all(err, b"reads standard input: callboard < ".as_slice());
            write_line(err, word);
            return;
        }
    }
}

/// Writes what doesn't go together, and answers the status of a bad command line.
pub(crate) fn refuse_mix<E: Sink>(err: &mut E, fault: &ArgumentsFault) -> u8
    ensures { result ≡ 2 }
{
    write_line(err, InlineText::<64>::of(fault).as_str());
    2
}

/// The status of a session that read its input to the end: 1 where a record was bad.
pub(crate) fn ending_status(ending: Ending) -> u8
    ensures { result ≡ ending_status ending }
{
    match ending {
        Ending::AllGood => 0,
        Ending::SomeBad => 1,
    }
}

/// Writes why a session broke off, and answers its status.
pub(crate) fn write_live_fault<E: Sink>(err: &mut E, fault: LiveFault) -> u8
    ensures { result ≡ 3 }
{
    match fault {
        LiveFault::ReadFailed => write_fault(err, Fault::File(FileFault::ReadFailed)),
        LiveFault::WriteFailed | LiveFault::CommitFailed => write_fault(err, Fault::WriteFailed),
        LiveFault::NoMemory => write_fault(err, Fault::NoMemory),
    }
}
