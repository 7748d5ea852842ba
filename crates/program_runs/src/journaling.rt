//! A live session with a journal.

ghost use Rattle.std.specs.Prelude.{◌≡◌, Err, IfErr, IfOk};
ghost use Rattle.auction_terms.specs.Auxiliary.RunningAuction.{opened_auction};
ghost use Rattle.journal_file.specs.Settled.{IsSettled};
ghost use Rattle.journal_file.specs.declared.file.OpenFileFault.{OpenFileFault};
ghost use Rattle.live_session.specs.declared.fault.LiveFault.TheVariants.{CommitFailed};
ghost use Rattle.settings.specs.declared.types.JournalFile.{JournalFile};
ghost use Rattle.program_runs.specs.FileRun.{ends_of};
ghost use Rattle.live_session.specs.Begun.{HasBegun};
ghost use Rattle.live_session.specs.JournaledRun.{ends_at};
ghost use Rattle.program_runs.specs.JournaledLive.{HasClosed, IsBegunFor, IsReason, IsRefusedOn, RunsJournaledSession};
ghost use Rattle.program_runs.specs.JournaledLive.{RunsToEnd, files_of};

use crate::journal_lines::{write_cut, write_ending, write_entries, write_journaled_fault};
use auction::Auction;
use byte_streams::{Sink, Source};
use journal::DayHeader;
use journal_file::{CommittedLines, Device, DeviceError, OpenFileFault};
use live_session::{
    BeginFault, Begun, Ending, LiveFault, NotBegun, SessionTerms, begin, run_journaled,
};
use settings::JournalFile;
use std::alloc::Global;

/// A journal's file that was opened, and the bytes that were read of it.
#[derive(Drop)]
pub struct OpenedJournal<D: Device> {
    pub device: D,
    pub bytes: Vec<u8>,
    pub ghost read: { bytes.items ≡ D.seen device },
}

/// What opens the file of a journal.
pub trait OpensJournal<D: Device> {
    // What opening a file gives, where that is known.
    ghost Opens: { Self → JournalFile → D → Type 0 } = { λ _ _ _. Unit {0} };

    // Why it can't be opened, where that is known.
    ghost CannotOpen: { Self → JournalFile → OpenFileFault → Type 0 } = { λ _ _ _. Unit {0} };

    /// Opens a file, or makes it, and reads it.
    fn open(self, alloc: Global, file: JournalFile<'_>) -> Result<OpenedJournal<D>, OpenFileFault>
        ensures opened { IfOk result (λ opened. Opens self file.entry opened.device) }
        ensures fault { IfErr result (CannotOpen self file.entry) };
}

/// Why a session with a journal doesn't begin.
#[derive(Drop)]
pub enum JournaledFault {
    /// No auction can be opened for the day. The file wasn't touched.
    Day(auction::OpenFault),
    /// The file couldn't be opened.
    Opening(OpenFileFault),
    /// It isn't begun with what the file has.
    Begin(BeginFault),
}

/// Begins a session of this day, for which the auction was opened, on a file that was read. Where no session begins on
/// what it has, the file is left to `left`.
fn begin_on<D: Device + Drop>(
    alloc: Global,
    auction: Auction,
    opened: OpenedJournal<D>,
    day: DayHeader,
    left: &mut Option<D>,
) -> Result<Begun<D>, JournaledFault>
    requires { auction ≡ opened_auction day.config }
    ensures begun { IfOk result (λ begun.
        HasBegun D.Device day opened.device begun.journal begun.auction begun.cut) }
    ensures refused { IfErr result (IsRefusedOn D.Device day opened.device left.new) }
{
    let OpenedJournal { device, bytes } = opened;
    match begin(alloc, auction, device, bytes.as_slice(), day) {
        Ok(begun) => Ok(begun),
        Err(NotBegun { device, fault }) => {
            *left = Some(device);
            Err(JournaledFault::Begin(fault))
        }
    }
}

/// Begins a session of this day on a file, which isn't opened where no auction can be. Where no session begins on what
/// it has, the file is left to `left`.
fn begin_journaled<D: Device + Drop, P: OpensJournal<D> + Drop>(
    alloc: Global,
    files: P,
    file: JournalFile<'_>,
    day: DayHeader,
    left: &mut Option<D>,
) -> Result<Begun<D>, JournaledFault>
    ensures begun { IfOk result (λ begun.
        IsBegunFor (files_of D.Device (P.Opens files) (P.CannotOpen files) left.new) file.entry day begun.journal
        begun.auction) }
    ensures reason { IfErr result
        (IsReason (files_of D.Device (P.Opens files) (P.CannotOpen files) left.new) file.entry day) }
{
    let auction = match Auction::open(alloc, day.config) {
        Ok(auction) => auction,
        Err(fault) => return Err(JournaledFault::Day(fault)),
    };
    match files.open(alloc, file) {
        Ok(opened) => begin_on(alloc, auction, opened, day, left),
        Err(fault) => Err(JournaledFault::Opening(fault)),
    }
}

/// Closes the journal of a session, unless a commit has failed. Whether it is closed; where it isn't for a fault of the
/// file, `fault` is that one.
fn close_journal<D: Device>(
    journal: &mut CommittedLines<D>,
    ended: Result<Ending, LiveFault>,
    fault: &mut Option<DeviceError>,
) -> bool
    requires { (ended ≡ Err CommitFailed → ⊥) → IsSettled D.seen D.may_leave journal.old }
    ensures { HasClosed D.Device ended journal.old.device journal.new.device result }
{
    match ended {
        Err(LiveFault::CommitFailed) => false,
        _ => match journal.close() {
            Ok(()) => true,
            Err(error) => {
                *fault = Some(error);
                false
            }
        },
    }
}

/// Answers each record of the input on this auction, with its command in the journal before its answer is written, and
/// closes the journal at the end.
fn run_to_end<R: Source, O: Sink, E: Sink, D: Device>(
    alloc: Global,
    reader: &mut R,
    out: &mut O,
    err: &mut E,
    journal: &mut CommittedLines<D>,
    auction: Auction,
    terms: SessionTerms,
) -> u8
    requires { IsSettled D.seen D.may_leave journal.old }
    ensures { RunsToEnd D.Device terms auction journal.old journal.new.device
        (ends_at (R.left reader.old) (O.written out.old) (R.failures reader.old) (O.failures out.old))
        (ends_at (R.left reader.new) (O.written out.new) (R.failures reader.new) (O.failures out.new)) result }
{
    write_entries(err, auction.calls());
    let mut fault = None;
    let ended = run_journaled(alloc, reader, out, journal, auction, terms, &mut fault);
    let is_closed = close_journal(journal, ended, &mut fault);
    write_ending(err, ended, is_closed, fault)
}

/// Answers each record of the input as soon as its line has ended, with its command in the journal's file before its
/// answer is written, and goes on with what the file has. It says how many entries that is, and what was cut off behind
/// them. The file, as it is at the end, is left to `left`.
pub fn serve_journaled<R: Source, O: Sink, E: Sink, D: Device + Drop, P: OpensJournal<D> + Drop>(
    alloc: Global,
    reader: &mut R,
    out: &mut O,
    err: &mut E,
    files: P,
    file: JournalFile<'_>,
    day: DayHeader,
    reserve: u32,
    left: &mut Option<D>,
) -> u8
    ensures { RunsJournaledSession (files_of D.Device (P.Opens files) (P.CannotOpen files) left.new) file.entry day
        reserve (ends_of R.Source O.Sink reader.old reader.new out.old out.new) result }
{
    let Begun {
        mut journal,
        auction,
        cut,
    } = match begin_journaled(alloc, files, file, day, left) {
        Ok(begun) => begun,
        Err(fault) => return write_journaled_fault(err, &fault, file.name, day),
    };
    write_cut(err, file.name, cut);
    let terms = SessionTerms {
        members: day.members,
        reserve,
    };
    let status = run_to_end(alloc, reader, out, err, &mut journal, auction, terms);
    *left = Some(journal.device);
    status
}
