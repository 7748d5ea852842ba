//! The audit of a journal.

ghost use Rattle.std.specs.Prelude.{◌≡◌};
ghost use Rattle.program_runs.specs.AuditRun.{RunsAudit, finish_of};
ghost use Rattle.program_runs.specs.FileRun.{ends_of};

use crate::fault::{Fault, Finish};
use byte_streams::{Sink, Source};
use day_audit::audit_journal;
use std::alloc::Global;

fn finish_of(first_unlawful: Option<u64>, behind: u64) -> Finish
    ensures { result ≡ finish_of first_unlawful behind }
{
    match first_unlawful {
        Some(_) => Finish::Unlawful,
        None => {
            if behind == 0 {
                Finish::Lawful
            } else {
                Finish::Incomplete
            }
        }
    }
}

/// Reads and checks a whole journal, compares each recorded reply with the lawful one, and writes those
/// that differ, and how many, and with `results` then the lawful results of the day. Of a copy that was
/// broken off within a line, or has NULs behind its lines, the whole lines are audited, and a last line
/// says how many bytes follow them.
///
/// A fault of the journal comes before one of its day. Nothing is written where it has a fault, and a
/// write that fails leaves a beginning of the text.
pub fn run_audit<R: Source, S: Sink>(
    alloc: Global,
    reader: &mut R,
    writer: &mut S,
    results: bool,
) -> Result<Finish, Fault>
    ensures { RunsAudit results (ends_of R.Source S.Sink reader.old reader.new writer.old writer.new) result }
{
    match audit_journal(alloc, reader, writer, results) {
        Ok(audited) => Ok(finish_of(audited.counts.first_unlawful, audited.behind)),
        Err(fault) => Err(Fault::from(fault)),
    }
}
