//! A live session whose entries are kept.

ghost use Rattle.journal_file.specs.Settled.{IsSettled};
ghost use Rattle.live_session.specs.JournaledRun.{RunsJournaled, ends_at};

use crate::journaled_conversation::JournaledConversation;
use crate::{Ending, LiveFault, SessionTerms, run_live};
use auction::Auction;
use byte_streams::{Sink, Source};
use journal_file::{CommittedLines, Device, DeviceError};
use std::alloc::Global;

/// Answers the records of an input one by one on this auction, as `run_live`, with each entry on the disk before its
/// answer is written.
///
/// A crash at any moment leaves what the journal had, and the lines of the first of the session's entries; among them
/// are, from the moment in which an answer may be written, all up to its own. Where a commit failed, `fault` is that
/// of the file.
pub fn run_journaled<R: Source, O: Sink, D: Device>(
    alloc: Global,
    input: &mut R,
    output: &mut O,
    journal: &mut CommittedLines<D>,
    auction: Auction,
    terms: SessionTerms,
    fault: &mut Option<DeviceError>,
) -> Result<Ending, LiveFault>
    requires { IsSettled D.seen D.may_leave journal.old }
    ensures { RunsJournaled D.seen D.may_leave D.moment D.left_since D.faults terms auction journal.old journal.new
        (ends_at (R.left input.old) (O.written output.old) (R.failures input.old) (O.failures output.old))
        (ends_at (R.left input.new) (O.written output.new) (R.failures input.new) (O.failures output.new)) result }
{
    let mut talk = JournaledConversation::new(input, output, journal);
    let ended = run_live(alloc, &mut talk, auction, terms);
    *fault = talk.fault;
    ended
}
