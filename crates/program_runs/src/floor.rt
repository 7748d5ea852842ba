//! The run of commands on a board, all members at once.

ghost use Rattle.std.specs.Prelude.{◌≡◌, ◌<◌, ◌≤◌, ◌↔◌, All, None, length, IfErr, IfOk, IsErrOf};
ghost use Rattle.auction_terms.specs.Day.{IsLegal};
ghost use Rattle.board_terms.specs.BoardOpening.{board_fault};
ghost use Rattle.order_file.specs.File.{IsBelow};
ghost use Rattle.program_runs.specs.BoardRun.{IsAuditFinding, IsDayOf, IsWideFloor, RunsOnBoard, closed_text};
ghost use Rattle.program_runs.specs.BoardRun.{closing_text};
ghost use Rattle.program_runs.specs.FileRun.{OpensUnless, WritesText, ends_of};
ghost use Rattle.program_runs.specs.PlayedDay.{IsOfOpeningOrDay};
ghost use Rattle.program_runs.specs.Printed.{IfBegun, IsOfListing, IsWideListing, listing_text};

use crate::day::closing_of_day;
use crate::fault::{Fault, Finish};
use crate::printing::{ClosingForm, write_closing, write_recorded};
use crate::scripts::split;
use crate::whole_input::record_calls;
use auction::{AuditFinding, audit};
use auction_terms::{Call, Config, Entry};
use byte_streams::{Sink, Source};
use day_road::History;
use journal::{DayHeader, read_run_input};
use member_board::{Closing, Fresh, Gate};
use settings::{FloorForm, Form, Listing};
use std::alloc::Global;
use std::marker::Brand;
use std::sync::Wait;
use std::thread::Threads;

/// The closing of a day on which the members of these calls call them, all at once.
fn closing_of<G: Gate + Sync, T: Wait + Threads + Sync>(
    alloc: Global,
    day: DayHeader,
    calls: &[Call],
    gate: &G,
    rt: &T,
) -> Result<Closing, Fault>
    requires below { All (IsBelow day.members) calls.now }
    requires few { length calls.now ≤ day.config.max_calls }
    ensures opening { OpensUnless (board_fault day.config day.members) result }
    ensures closing { IfOk result (IsDayOf day.config day.members calls.now) }
    ensures fault { IfErr result IsOfOpeningOrDay }
{
    let DayHeader { config, members } = day;
    let fresh = match Fresh::open(alloc, config, members) {
        Ok(fresh) => fresh,
        Err(fault) => return Err(Fault::Open(fault)),
    };
    let Ok(scripts) = split(alloc, members, calls) else {
        return Err(Fault::NoMemory);
    };
    closing_of_day::<Brand, G, T>(alloc, fresh, scripts, gate, rt)
}

/// The place from 0 of the first entry that isn't the auction's own, if there is one.
fn first_bad(alloc: Global, config: Config, history: &[Entry]) -> Result<Option<u64>, Fault>
    ensures finding { IfOk result (IsAuditFinding config history.now) }
    ensures fault { IfErr result (λ f. f ≡ Fault.NoMemory) }
{
    match audit(alloc, config, history) {
        Ok(AuditFinding::Legal) => Ok(None),
        Ok(AuditFinding::BadAt(place)) => Ok(Some(place as u64)),
        Err(_) => Err(Fault::NoMemory),
    }
}

/// Audits the history of a closed day, and writes what it comes to and what the audit says; then, where
/// the form has the history, a line for each entry, in the order of the board.
fn write_tally<S: Sink>(
    alloc: Global,
    writer: &mut S,
    config: Config,
    closing: &Closing,
    form: ClosingForm,
) -> Result<(), Fault>
    requires { IsLegal config closing.now.history.items }
    ensures text { WritesText (S.written writer.old) (S.written writer.new)
        (closing_text form closing.now None) result }
    ensures failed { IsErrOf result Fault.WriteFailed ↔ (S.failures writer.old < S.failures writer.new) }
    ensures fault { IfErr result IsOfListing }
{
    let place = match first_bad(alloc, config, closing.history.as_slice()) {
        Ok(place) => place,
        Err(_) => return Err(Fault::NoMemory),
    };
    let Ok(()) = write_closing(writer, closing, place, form) else {
        return Err(Fault::WriteFailed);
    };
    Ok(())
}

/// Writes a listing of a lawful day with these entries, whose calls are run again as those of an input are. Where
/// memory is refused nothing is written, and a write that fails leaves a beginning of the text.
fn write_listing<S: Sink>(
    alloc: Global,
    writer: &mut S,
    listing: Listing,
    day: DayHeader,
    entries: &[Entry],
) -> Result<(), Fault>
    requires { IsLegal day.config entries.now }
    ensures text { WritesText (S.written writer.old) (S.written writer.new) (listing_text listing day entries.now)
        result }
    ensures failed { IsErrOf result Fault.WriteFailed ↔ (S.failures writer.old < S.failures writer.new) }
    ensures fault { IfErr result IsOfListing }
    ensures wide { IfBegun result (IsWideListing listing entries.now) }
{
    let mut history = History::new(entries);
    match record_calls(alloc, &mut history, day, Form::Listing(listing)) {
        Ok(mut recorded_day) => write_recorded(
            writer,
            recorded_day.day,
            &mut recorded_day.recorder,
        ),
        Err(_) => Err(Fault::NoMemory),
    }
}

/// Writes what is printed of a closed day: its tally, or a listing in place of that.
fn write_floor<S: Sink>(
    alloc: Global,
    writer: &mut S,
    day: DayHeader,
    closing: &Closing,
    form: FloorForm,
) -> Result<(), Fault>
    requires { IsLegal day.config closing.now.history.items }
    ensures text { WritesText (S.written writer.old) (S.written writer.new)
        (closed_text form day closing.now) result }
    ensures failed { IsErrOf result Fault.WriteFailed ↔ (S.failures writer.old < S.failures writer.new) }
    ensures fault { IfErr result IsOfListing }
    ensures wide { IfBegun result (IsWideFloor form closing.now.history.items) }
{
    let entries = closing.history.as_slice();
    match form {
        FloorForm::Tally => write_tally(alloc, writer, day.config, closing, ClosingForm::Tally),
        FloorForm::History => write_tally(alloc, writer, day.config, closing, ClosingForm::History),
        FloorForm::Listing(listing) => write_listing(alloc, writer, listing, day, entries),
    }
}

/// Reads and checks a whole input, an order file or a journal, has each member call its commands on a
/// board at once with the others, each under the gate, closes the board, audits its history, and writes
/// how many entries it has, how many calls each member made, and what the audit says; then, where the
/// form is the history, a line for each entry, in the order of the board. Where the form is a listing,
/// that of the board's history is written in place of all that. An order file is one of this day.
///
/// The counts are those of the file, and the history is a legal one of the file's calls, in which each
/// member's come in their order. A fault of the input comes before one of the config and the number of
/// members. Nothing is written where there is a fault, and a write that fails leaves a beginning of
/// the text.
pub fn run_floor<R: Source, S: Sink, G: Gate + Sync, T: Wait + Threads + Sync>(
    alloc: Global,
    reader: &mut R,
    writer: &mut S,
    day: DayHeader,
    form: FloorForm,
    gate: &G,
    rt: &T,
) -> Result<Finish, Fault>
    ensures { RunsOnBoard day form
        (ends_of R.Source S.Sink reader.old reader.new writer.old writer.new) result }
{
    let run_input = read_run_input(alloc, reader, day)?;
    let calls = run_input.calls.as_slice();
    let closing = closing_of(alloc, run_input.day, calls, gate, rt)?;
    write_floor(alloc, writer, run_input.day, &closing, form)?;
    Ok(Finish::Lawful)
}
