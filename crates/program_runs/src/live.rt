//! A live session on the program's ends.

ghost use Rattle.std.specs.Prelude.{◌≡◌};
ghost use Rattle.program_runs.specs.FileRun.{ends_of};
ghost use Rattle.program_runs.specs.LiveRun.{RunsLive, as_session};

use auction::{Auction, OpenFault};
use byte_streams::{Sink, Source};
use journal::DayHeader;
use live_session::{Channels, Ending, LiveFault, SessionTerms, run_live};
use std::alloc::Global;

/// Why a session ends before its input.
#[derive(Clone, Copy, Debug, PartialEq, Eq)]
pub enum SessionFault {
    /// No auction can be opened for the day. Nothing was read.
    Open(OpenFault),
    /// The session itself broke off.
    Live(LiveFault),
}

/// What comes of a session whose day was opened.
fn as_session(ended: Result<Ending, LiveFault>) -> Result<Ending, SessionFault>
    ensures { result ≡ as_session ended }
{
    match ended {
        Ok(ending) => Ok(ending),
        Err(fault) => Err(SessionFault::Live(fault)),
    }
}

/// Answers each record of the input as soon as its line has ended, on an auction of this day: the line of a good one,
/// or the fault of a bad one, goes to `out`. The last `reserve` calls of the day are member 0's.
///
/// At the end all that was read is answered; where a write failed or memory was refused, all but the last 65,536 bytes
/// or less, of which a beginning is. `live_session` promises that a device is read on only then.
pub fn run_session<'a, R: Source, O: Sink>(
    alloc: Global,
    reader: &'a mut R,
    out: &'a mut O,
    day: DayHeader,
    reserve: u32,
) -> Result<Ending, SessionFault>
    ensures { RunsLive day reserve (ends_of R.Source O.Sink reader.old reader.new out.old out.new) result }
{
    let auction = match Auction::open(alloc, day.config) {
        Ok(auction) => auction,
        Err(fault) => return Err(SessionFault::Open(fault)),
    };
    let terms = SessionTerms {
        members: day.members,
        reserve,
    };
    let mut channels = Channels::new(reader, out);
    let ended = run_live(alloc, &mut channels, auction, terms);
    as_session(ended)
}
