//! The printed text of a day that is over.

ghost use Rattle.std.specs.Prelude.{◌≡◌, ◌<◌, ◌↔◌, List, IfErr, IsErrOf};
ghost use Rattle.auction_terms.specs.declared.Entry.{Entry};
ghost use Rattle.byte_streams.specs.Writing.{WritesAll};
ghost use Rattle.printed_lines.specs.Printing.{Prints};
ghost use Rattle.printed_lines.specs.ReplyLines.{lines};
ghost use Rattle.program_runs.specs.BoardRun.{closing_text};
ghost use Rattle.program_runs.specs.FileRun.{WritesText};
ghost use Rattle.program_runs.specs.RecordedEntries.{RecordsWholeDay, form_of_recorder};
ghost use Rattle.program_runs.specs.Printed.{IsWideForm, printed};

use crate::fault::Fault;
use crate::recorder::Recorder;
use auction_terms::Reply;
use byte_streams::{Sink, WriteFailed};
use journal::{DayHeader, print_kept_journal};
use member_board::Closing;
use printed_lines::{Printer, ReplyList, print_history, print_line, print_tally};

/// Prints the line of each reply.
fn print_replies<S: Sink>(
    printer: &mut Printer<'_, S>,
    replies: &ReplyList,
) -> Result<(), WriteFailed>
    ensures { Prints S.Sink printer.old printer.new result (lines replies.now) }
{
    let mut left = replies.iter();
    let mut lent = Reply::Deleted;
    for place in 0..replies.len() {
        print_line(printer, place as u64 + 1, left.next_reply(&mut lent))?;
    }
    Ok(())
}

/// What is written of a closed day.
#[derive(Clone, Copy)]
pub enum ClosingForm {
    /// Its tally.
    Tally,
    /// The tally, and then its history.
    History,
}

/// Prints what a closed day comes to.
fn print_closing<S: Sink>(
    printer: &mut Printer<'_, S>,
    closing: &Closing,
    first_bad: Option<u64>,
    form: ClosingForm,
) -> Result<(), WriteFailed>
    ensures { Prints S.Sink printer.old printer.new result (closing_text form closing.now first_bad) }
{
    let entries = closing.history.as_slice();
    let calls = closing.calls.as_slice();
    print_tally(printer, entries.len() as u64, calls, first_bad)?;
    match form {
        ClosingForm::Tally => Ok(()),
        ClosingForm::History => print_history(printer, entries),
    }
}

/// Writes what a closed day comes to. It takes no memory.
pub fn write_closing<S: Sink>(
    writer: &mut S,
    closing: &Closing,
    first_bad: Option<u64>,
    form: ClosingForm,
) -> Result<(), WriteFailed>
    ensures { WritesAll S.Sink writer.old writer.new result (closing_text form closing.now first_bad) }
{
    let mut printer = Printer::new(writer);
    print_closing(&mut printer, closing, first_bad, form)?;
    printer.flush()
}

/// Prints a day in the form that it was recorded for.
fn print_recorded<S: Sink>(
    printer: &mut Printer<'_, S>,
    day: DayHeader,
    recorder: &mut Recorder,
) -> Result<(), WriteFailed>
    requires { (entries : List Entry) × RecordsWholeDay recorder.old day.config entries }
    ensures { (entries : List Entry) → RecordsWholeDay recorder.old day.config entries
        → Prints S.Sink printer.old printer.new result (printed (form_of_recorder recorder.old) day entries) }
{
    match recorder {
        Recorder::Lines(replies) => print_replies(printer, replies),
        Recorder::Journal(lines) => print_kept_journal(printer, day, lines),
        Recorder::Trades(trades) => trades.print(printer),
        Recorder::Book(book) => book.print(printer),
    }
}

fn write_printed<S: Sink>(
    writer: &mut S,
    day: DayHeader,
    recorder: &mut Recorder,
) -> Result<(), WriteFailed>
    requires { (entries : List Entry) × RecordsWholeDay recorder.old day.config entries }
    ensures { (entries : List Entry) → RecordsWholeDay recorder.old day.config entries
        → WritesAll S.Sink writer.old writer.new result (printed (form_of_recorder recorder.old) day entries) }
{
    let mut printer = Printer::new(writer);
    print_recorded(&mut printer, day, recorder)?;
    printer.flush()
}

/// Writes what is printed of a day in the form that it was recorded for. It takes no memory, and a write that
/// fails leaves a beginning of the text.
pub fn write_recorded<S: Sink>(
    writer: &mut S,
    day: DayHeader,
    recorder: &mut Recorder,
) -> Result<(), Fault>
    requires { (entries : List Entry) × RecordsWholeDay recorder.old day.config entries }
    ensures text { (entries : List Entry) → RecordsWholeDay recorder.old day.config entries
        → WritesText (S.written writer.old) (S.written writer.new) (printed (form_of_recorder recorder.old) day entries)
        result }
    ensures failed { IsErrOf result Fault.WriteFailed ↔ (S.failures writer.old < S.failures writer.new) }
    ensures fault { IfErr result (λ f. f ≡ Fault.WriteFailed) }
    ensures wide { (entries : List Entry) → RecordsWholeDay recorder.old day.config entries
        → IsWideForm (form_of_recorder recorder.old) entries }
{
    let Ok(()) = write_printed(writer, day, recorder) else {
        return Err(Fault::WriteFailed);
    };
    Ok(())
}
