//! The audit of a journal.

ghost use Rattle.std.specs.Prelude.{◌≡◌, ◌<◌, ◌↔◌, ◌+◌, ◌≢◌, [], Err, IfErr, IfSome, IsErrOf, unwrap_or};
ghost use Rattle.byte_streams.specs.Streams.{TakesAtMost};
ghost use Rattle.journal.specs.JournalEntries.{day_left};
ghost use Rattle.journal.specs.JournalFile.{journal_of};
ghost use Rattle.journal.specs.declared.reading.TheConstants.{MAX_JOURNAL_BYTES};
ghost use Rattle.auction.specs.ConfigFault.{open_fault};
ghost use Rattle.auction.specs.declared.OpenFault.TheVariants as opening;
ghost use Rattle.day_road.specs.Inputs.{CanReadOn};
ghost use Rattle.day_audit.specs.Found.{HasFound, HasAudited};
ghost use Rattle.day_audit.specs.JournalAudit.{IsAuditOf, KeepsText};
ghost use Rattle.day_audit.specs.JournalCopies.{journal_copy};

use crate::counts::Audited;
use crate::fault::AuditFault;
use crate::findings::Findings;
use auction::{Auction, OpenFault};
use auction_terms::AuctionKind;
use byte_streams::{Sink, Source};
use day_road::{hear_all, pass_over};
use journal::{Entries, MAX_JOURNAL_BYTES};
use journal_file::committed_len;
use order_file::{FileFault, bytes_of};
use std::alloc::Global;

/// What a journal owes whose day can't be opened: a fault of its own comes first.
fn refused(entries: &mut Entries<'_>, fault: OpenFault, findings: &Findings) -> AuditFault
    requires ready { CanReadOn entries.old }
    requires fault { fault ≡ unwrap_or (open_fault entries.old.day.config) opening.NoMemory }
    ensures audited { HasAudited (day_left entries.old) findings.now (Err result) }
    ensures read { result ≢ AuditFault.File FileFault.ReadFailed }
{
    match pass_over(entries) {
        Ok(()) => AuditFault::Open(fault),
        Err(fault) => AuditFault::File(fault),
    }
}

/// Audits the entries of a journal, of which none was read, and answers the auction that its day is in at their end.
fn audit_entries(
    alloc: Global,
    entries: &mut Entries<'_>,
    findings: &mut Findings,
) -> Result<Option<AuctionKind>, AuditFault>
    requires ready { CanReadOn entries.old }
    requires begun { entries.old.count ≡ 0 }
    requires none { HasFound findings.old [] }
    ensures audited { HasAudited (day_left entries.old) findings.new result }
    ensures read { result ≢ Err (AuditFault.File FileFault.ReadFailed) }
{
    let mut auction = match Auction::open(alloc, entries.day().config) {
        Ok(auction) => auction,
        Err(fault) => return Err(refused(entries, fault, findings)),
    };
    match hear_all(alloc, entries, &mut auction, findings) {
        Ok(()) => Ok(auction.current()),
        Err(fault) => Err(AuditFault::File(fault)),
    }
}

/// Audits the text of a journal.
fn audit_bytes(
    alloc: Global,
    bytes: &[u8],
    findings: &mut Findings,
) -> Result<Option<AuctionKind>, AuditFault>
    requires { HasFound findings.old [] }
    ensures audited { HasAudited (journal_of bytes.now) findings.new result }
    ensures read { result ≢ Err (AuditFault.File FileFault.ReadFailed) }
{
    match Entries::open(alloc, bytes) {
        Ok(mut entries) => audit_entries(alloc, &mut entries, findings),
        Err(fault) => Err(AuditFault::File(fault)),
    }
}

/// Audits a journal: reads it to its end, opens an auction of its day, applies the calls of its whole lines one by one,
/// and compares each recorded reply, byte for byte, with the auction's own.
///
/// A line is written for each that differs, then how many entries there are, how many were compared and how many are
/// unlawful, and whether the journal is legal or the place from 0 of its first unlawful entry. With `results` the
/// lawful results of the day follow: the line of each uncross that was accepted, as a run prints it, and the auction
/// that the day is in, or that it is over. Of a copy that is broken off within a line, or has NULs behind its lines, a
/// last line says how many bytes follow which entry. A fault of the journal comes before one of its day, and nothing is
/// written where either has a fault; a write that fails leaves a beginning.
pub fn audit_journal<R: Source, S: Sink>(
    alloc: Global,
    reader: &mut R,
    writer: &mut S,
    results: bool,
) -> Result<Audited, AuditFault>
    // A read failed.
    ensures read_failed { IsErrOf result (AuditFault.File FileFault.ReadFailed)
        ↔ (R.failures reader.old < R.failures reader.new) }
    // A write failed.
    ensures write_failed { IsErrOf result AuditFault.WriteFailed ↔ (S.failures writer.old < S.failures writer.new) }
    // Else, refused memory aside, it is the audit of what the whole lines say.
    ensures audit { IfSome (R.left reader.old) (λ bytes.
        IsAuditOf results (S.written writer.old) (S.written writer.new) (journal_copy bytes) result) }
    ensures kept { IfErr result (KeepsText (S.written writer.old) (S.written writer.new)) }
    // However long the journal is, at most `MAX_JOURNAL_BYTES + 1` bytes are taken.
    ensures taken { TakesAtMost (MAX_JOURNAL_BYTES + 1) (R.left reader.old) (R.left reader.new) }
{
    let bytes = match bytes_of(alloc, reader, MAX_JOURNAL_BYTES) {
        Ok(bytes) => bytes,
        Err(fault) => return Err(AuditFault::File(fault)),
    };
    let bytes = bytes.as_slice();
    let whole = committed_len(bytes);
    let mut findings = Findings::new(alloc);
    let current = audit_bytes(alloc, &bytes[..whole], &mut findings)?;
    let behind = (bytes.len() - whole) as u64;
    let Ok(()) = findings.write(writer, current, results, behind) else {
        return Err(AuditFault::WriteFailed);
    };
    Ok(Audited {
        counts: findings.counts,
        behind,
    })
}
