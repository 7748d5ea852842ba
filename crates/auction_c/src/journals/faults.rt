//! The faults of journals, as C reads them.
ghost use Rattle.std.specs.Prelude.{◌≡◌, ◌-◌, ◌^◌, min, Result};
ghost use Rattle.journal.specs.JournalFile.{RecordedDay};
ghost use Rattle.order_file.specs.File.{FailsAsWanted};
ghost use Rattle.order_file.specs.declared.fault.FileFault.{FileFault};
ghost use Rattle.auction_c.specs.JournalReading.{Refuses, is_of_journal};
ghost use Rattle.auction_c.specs.Journals as recorded_as;

use crate::errors::{BAD_JOURNAL, NO_MEMORY};
use crate::structs::AuctionJournal;
use order_file::FileFault;

fn fault_at(kind: u32, number: u64, field: u32) -> AuctionJournal
    ensures { result ≡ recorded_as.fault_at kind number field }
{
    AuctionJournal {
        record_number: number,
        field_number: field,
        fault: kind,
        members: 0,
        calls: 0,
        compared: 0,
        unlawful: 0,
        first_unlawful: 0,
        taken: 0,
    }
}

// The number, or the greatest of 32 bits.
fn shortened(number: usize) -> u32
    ensures { result ≡ min number (2 ^ 32 - 1) }
{
    number.min(4_294_967_295) as u32
}

fn fault_found(fault: FileFault) -> AuctionJournal
    ensures { result ≡ recorded_as.fault_found fault }
{
    match fault {
        FileFault::TooLong => fault_at(1, 0, 0),
        FileFault::BadMember { number } => fault_at(2, number, 0),
        FileFault::BadCommand { number } => fault_at(3, number, 0),
        FileFault::BadCount { number } => fault_at(4, number, 0),
        FileFault::BadField { number, field } => fault_at(5, number, shortened(field)),
        FileFault::TooManyCommands { number } => fault_at(6, number, 0),
        FileFault::NotADay => fault_at(7, 1, 0),
        FileFault::ReadFailed => fault_at(0, 0, 0),
        FileFault::NoMemory => fault_at(0, 0, 0),
    }
}

fn is_of_journal(fault: FileFault) -> bool
    ensures { result ≡ is_of_journal fault }
{
    !matches!(fault, FileFault::ReadFailed | FileFault::NoMemory)
}

/// Writes a fault of a journal, and answers `BAD_JOURNAL`; or writes nothing, and answers `NO_MEMORY`, where it is none
/// of the journal's.
pub(crate) fn refuse(found: &mut AuctionJournal, fault: FileFault) -> u32
    ensures { (said : Result RecordedDay FileFault) → FailsAsWanted fault said
        → Refuses said found.old found.new result }
{
    if !is_of_journal(fault) {
        return NO_MEMORY;
    }
    *found = fault_found(fault);
    BAD_JOURNAL
}
