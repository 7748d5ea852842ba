//! The whole program, but for the process's own ends.

ghost use Rattle.std.specs.Prelude.{◌≡◌, ◌≢◌, ◌<◌, ◌⊎◌, ℕ, List, None, Option};
ghost use Rattle.clap.specs.Values.{kind_of};
ghost use Rattle.clap.specs.Walk.{texts};
ghost use Rattle.clap.specs.declared.error.kind.ErrorKind.TheVariants.{OutOfMemory};
ghost use Rattle.program_runs.specs.FileRun.{ends_by, ends_of};
ghost use Rattle.program_runs.specs.JournaledLive.{files_of};
ghost use Rattle.program_runs.specs.Served.{AnswersFault, RunsSession, ServesArguments, arguments_status};
ghost use Rattle.settings.specs.CommandLine.{RefusesArguments};

use crate::audit::run_audit;
use crate::fault::Fault;
use crate::fault_lines::{
    ending_status, refuse_mix, write_fault, write_file_hint, write_live_fault, write_open_fault,
    write_run_fault,
};
use crate::floor::run_floor;
use crate::journaling::{OpensJournal, serve_journaled};
use crate::live::{SessionFault, run_session};
use crate::run::run_file;
use byte_streams::{Sink, Source, write_all};
use clap::Error;
use clap::error::ErrorKind;
use input_hints::KeepsStart;
use journal::DayHeader;
use journal_file::Device;
use member_board::OpenGate;
use settings::{ArgumentsFault, Settings, Task, settings};
use std::alloc::Global;
use std::sync::Wait;
use std::thread::Threads;

/// The text of a command line that was refused, or of the help that was asked for, unless memory was
/// refused to read the arguments or to make the text.
fn text_of(alloc: Global, error: &Error) -> Option<String>
    ensures { kind_of error.now ≡ OutOfMemory → result ≡ None }
{
    if error.kind() == ErrorKind::OutOfMemory {
        return None;
    }
    format!(in alloc; "{error}").ok()
}

/// Prints the text of a command line that was refused, or the help that was asked for.
fn print_text<O: Sink, E: Sink>(out: &mut O, err: &mut E, error: &Error, text: &str) -> u8
    requires { kind_of error.now ≢ OutOfMemory }
    ensures status { (result ≡ arguments_status (kind_of error.now)) ⊎ (O.failures out.old < O.failures out.new) }
    ensures quiet { arguments_status (kind_of error.now) ≢ 0 → O.written out.new ≡ O.written out.old }
    ensures failed { O.failures out.old < O.failures out.new → result ≡ 3 }
{
    if error.use_stderr() {
        let _ = write_all(err, text.as_bytes());
        return 2;
    }
    if write_all(out, text.as_bytes()).is_err() {
        return write_fault(err, Fault::WriteFailed);
    }
    0
}

/// Prints the help that these arguments ask for, or writes why they say no settings, and answers the status.
fn answer_arguments<O: Sink, E: Sink>(
    alloc: Global,
    out: &mut O,
    err: &mut E,
    arguments: &[&str],
    fault: &ArgumentsFault,
) -> u8
    requires { RefusesArguments (texts arguments.now) fault.now }
    ensures { (left : Option (List ℕ)) (reads : ℕ) → AnswersFault (texts arguments.now)
        (ends_by left left (O.written out.old) (O.written out.new) reads reads (O.failures out.old)
        (O.failures out.new)) result }
{
    let ArgumentsFault::Parse(error) = fault else {
        return refuse_mix(err, fault);
    };
    let Some(text) = text_of(alloc, error) else {
        return write_fault(err, Fault::NoMemory);
    };
    let status = print_text(out, err, error, text.as_str());
    write_file_hint(err, error, arguments);
    status
}

/// Answers each record of the input as it comes, and then the status.
fn serve_live<R: Source, O: Sink, E: Sink>(
    alloc: Global,
    reader: &mut R,
    out: &mut O,
    err: &mut E,
    day: DayHeader,
    reserve: u32,
) -> u8
    ensures { RunsSession day reserve (ends_of R.Source O.Sink reader.old reader.new out.old out.new) result }
{
    match run_session(alloc, reader, out, day, reserve) {
        Ok(ending) => ending_status(ending),
        Err(SessionFault::Open(fault)) => write_open_fault(err, fault, day),
        Err(SessionFault::Live(fault)) => write_live_fault(err, fault),
    }
}

/// Runs the program on these arguments, the first being its name, and answers its status: 0 done, or the help that was
/// asked for, 1 a bad input, 2 a bad command line or bounds, a reference or limits that no auction has, 3 refused
/// memory, a read or a write that failed, or a floor that couldn't be closed, 4 a journal of an unlawful day, 5 a
/// broken copy of a journal whose whole lines are lawful.
///
/// What it prints goes to `out`, the help too; a fault is one line on `err`, and for a bad command line the text of
/// `clap`, in either case with a line more where its likely cause is known. Where the input or the command line is bad,
/// nothing goes to `out`, but where records are answered as they come. The file of a journal that the arguments name is
/// opened by `files`, and left to `left` as it is at the end.
pub fn serve<
    'a,
    R: KeepsStart,
    O: Sink,
    E: Sink,
    D: Device + Drop,
    P: OpensJournal<D> + Drop,
    T: Wait + Threads + Sync,
>(
    alloc: Global,
    arguments: &'a [&'a str],
    reader: &mut R,
    out: &mut O,
    err: &mut E,
    files: P,
    left: &mut Option<D>,
    rt: &T,
) -> u8
    ensures { ServesArguments (files_of D.Device (P.Opens files) (P.CannotOpen files) left.new) (texts arguments.now)
        (ends_of R.Source O.Sink reader.old reader.new out.old out.new) result }
{
    let settings = match settings(alloc, arguments) {
        Ok(settings) => settings,
        Err(fault) => return answer_arguments(alloc, out, err, arguments, &fault),
    };
    let Settings {
        config,
        members,
        task,
        journal,
    } = settings;
    let day = DayHeader { config, members };
    match task {
        Task::Live { reserve } => match journal {
            Some(file) => serve_journaled(alloc, reader, out, err, files, file, day, reserve, left),
            None => serve_live(alloc, reader, out, err, day, reserve),
        },
        Task::Audit { results } => {
            let run = run_audit(alloc, reader, out, results);
            write_run_fault(alloc, err, run, reader.start(), day)
        }
        Task::Run(form) => {
            let run = run_file(alloc, reader, out, day, form);
            write_run_fault(alloc, err, run, reader.start(), day)
        }
        Task::Floor(form) => {
            let run = run_floor(alloc, reader, out, day, form, &OpenGate, rt);
            write_run_fault(alloc, err, run, reader.start(), day)
        }
    }
}
