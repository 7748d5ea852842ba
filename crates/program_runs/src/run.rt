//! The run of commands on an auction.

ghost use Rattle.std.specs.Prelude.{◌≡◌, ◌<◌, ◌≤◌, ◌↔◌, ◌∷◌, ℕ, List, Option, None, Result, true, IsErrOf};
ghost use Rattle.auction.specs.ConfigFault.{open_fault};
ghost use Rattle.program_runs.specs.AuctionRun.{RunsOnAuction};
ghost use Rattle.program_runs.specs.FileRun.{ends_by, ends_of};
ghost use Rattle.program_runs.specs.RecordedEntries.{RecordsDay, RecordsDayOfText};
ghost use Rattle.journal.specs.DayWithCalls.{DayWithCalls, run_input};

use crate::blocks::record_file;
use crate::fault::{Fault, Finish};
use crate::printing::write_recorded;
use crate::recorded_day::PrintableDay;
use crate::whole_input::record_input;
use auction::config_fault;
use byte_streams::{Sink, Source};
use journal::{DayHeader, MAX_JOURNAL_BYTES};
use order_file::{FileFault, bytes_after, read_start};
use settings::Form;
use std::alloc::Global;

/// Writes what is printed of a day that was recorded, or hands on why it wasn't.
fn write_run<S: Sink>(writer: &mut S, run: Result<PrintableDay, Fault>) -> Result<Finish, Fault>
    requires { (form : Form) × (said : Result DayWithCalls FileFault) × RecordsDay form said run }
    ensures { (day : DayHeader) (form : Form) (left rest : Option (List ℕ)) (reads reads_after : ℕ)
        → RecordsDayOfText form run left (run_input day)
        → (IsErrOf run (Fault.File FileFault.ReadFailed) ↔ (reads < reads_after))
        → RunsOnAuction day form (ends_by left rest (S.written writer.old) (S.written writer.new) reads reads_after
        (S.failures writer.old) (S.failures writer.new)) result }
{
    let mut recorded_day = match run {
        Ok(recorded_day) => recorded_day,
        Err(fault) => return Err(fault),
    };
    write_recorded(writer, recorded_day.day, &mut recorded_day.recorder)?;
    Ok(Finish::Lawful)
}

/// Whether the first of these bytes is a digit, so that what they begin is no journal.
fn begins_with_digit(start: &[u8]) -> bool
    ensures digit { result ≡ true
        → (digit : ℕ) × (rest : List ℕ) × (start.now ≡ digit ∷ rest) × (48 ≤ digit) × (digit ≤ 57) }
    ensures each { (digit : ℕ) (rest : List ℕ) → start.now ≡ digit ∷ rest → 48 ≤ digit → digit ≤ 57
        → result ≡ true }
{
    match start.first() {
        Some(byte) => byte.is_ascii_digit(),
        None => false,
    }
}

/// Whether an input that begins so is read block by block: it is no journal, and this day can be opened. Where it
/// can't be, a fault of the whole input comes first.
fn is_read_in_blocks(start: &[u8], day: DayHeader) -> bool
    ensures digit { result ≡ true
        → (digit : ℕ) × (rest : List ℕ) × (start.now ≡ digit ∷ rest) × (48 ≤ digit) × (digit ≤ 57) }
    ensures opens { result ≡ true → open_fault day.config ≡ None }
    ensures each { (digit : ℕ) (rest : List ℕ) → start.now ≡ digit ∷ rest → 48 ≤ digit → digit ≤ 57
        → open_fault day.config ≡ None → result ≡ true }
{
    begins_with_digit(start) && config_fault(day.config).is_none()
}

/// Runs the commands of an input, a journal or an order file of this day; of one that begins with a digit block by
/// block.
fn record_run<R: Source>(
    alloc: Global,
    reader: &mut R,
    day: DayHeader,
    form: Form,
) -> Result<PrintableDay, Fault>
    ensures failed { IsErrOf result (Fault.File FileFault.ReadFailed)
        ↔ (R.failures reader.old < R.failures reader.new) }
    ensures recorded { RecordsDayOfText form result (R.left reader.old) (run_input day) }
{
    let start = read_start(alloc, reader)?;
    if is_read_in_blocks(start.as_slice(), day) {
        return record_file(alloc, start, reader, day, form);
    }
    let bytes = bytes_after(start, reader, MAX_JOURNAL_BYTES)?;
    record_input(alloc, bytes.as_slice(), day, form)
}

/// Reads and checks a whole input, an order file or a journal, applies its commands to an auction, and then writes
/// what is printed of them in this form. An order file is one of this day; one that begins with a digit is read block
/// by block.
///
/// A fault of the input comes before one of the config. Nothing is written where either has a fault,
/// and a write that fails leaves a beginning of the text. Once the input was read it takes no memory.
pub fn run_file<R: Source, S: Sink>(
    alloc: Global,
    reader: &mut R,
    writer: &mut S,
    day: DayHeader,
    form: Form,
) -> Result<Finish, Fault>
    ensures { RunsOnAuction day form
        (ends_of R.Source S.Sink reader.old reader.new writer.old writer.new) result }
{
    let run = record_run(alloc, reader, day, form);
    write_run(writer, run)
}
