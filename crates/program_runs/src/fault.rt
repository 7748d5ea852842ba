//! What comes of a run.

ghost use Rattle.std.specs.Prelude.{◌≡◌};
ghost use Rattle.program_runs.specs.AuditRun.{fault_of_audit};
ghost use Rattle.program_runs.specs.Status.{file_fault, file_status, finish_status, open_status, status_of};

use auction::OpenFault;
use day_audit::AuditFault;
use order_file::FileFault;

/// Why a run ends early, on an auction or on a board.
#[derive(Clone, Copy, Debug, PartialEq, Eq)]
pub enum Fault {
    /// The input has a fault, of which this is the first.
    File(FileFault),
    /// No auction or board can be opened with this config and number of members, or the board's day can't begin.
    Open(OpenFault),
    /// Memory was refused to the scripts, to the members' calls, to the audit or to a listing.
    NoMemory,
    /// The board's day couldn't be closed: a thread couldn't be started, the history was full, or a
    /// member was ahead of the history, or missing.
    NotClosed,
    /// A line could not be written.
    WriteFailed,
}

/// What a run that was done says of its day.
#[derive(Clone, Copy, Debug, PartialEq, Eq)]
pub enum Finish {
    /// It is a lawful one. So is each day whose commands were run.
    Lawful,
    /// A reply that its journal has isn't the lawful one.
    Unlawful,
    /// No such reply is in the whole lines of its journal, which is a broken copy.
    Incomplete,
}

impl Finish {
    /// The status that the program ends with: 0 for a lawful day, 4 for one that isn't, 5 where that isn't known.
    pub fn status(self) -> u8
        ensures { result ≡ finish_status self }
    {
        match self {
            Finish::Lawful => 0,
            Finish::Unlawful => 4,
            Finish::Incomplete => 5,
        }
    }
}

impl From<FileFault> for Fault {
    ghost from_gives = { λ fault r. r ≡ file_fault fault };

    fn from(fault: FileFault) -> Fault {
        Fault::File(fault)
    }
}

impl From<AuditFault> for Fault {
    ghost from_gives = { λ fault r. r ≡ fault_of_audit fault };

    fn from(fault: AuditFault) -> Fault {
        match fault {
            AuditFault::File(fault) => Fault::File(fault),
            AuditFault::Open(fault) => Fault::Open(fault),
            AuditFault::WriteFailed => Fault::WriteFailed,
        }
    }
}

fn file_status(fault: FileFault) -> u8
    ensures { result ≡ file_status fault }
{
    match fault {
        FileFault::ReadFailed | FileFault::NoMemory => 3,
        _ => 1,
    }
}

fn open_status(fault: OpenFault) -> u8
    ensures { result ≡ open_status fault }
{
    match fault {
        OpenFault::NoMemory => 3,
        _ => 2,
    }
}

impl Fault {
    /// The status that the program ends with: 1 for a bad file, 2 for bounds, a reference, limits or a number of
    /// members that no board has, 3 for refused memory, a floor that wasn't closed, and a read or a write that failed.
    pub fn status(self) -> u8
        ensures { result ≡ status_of self }
    {
        match self {
            Fault::File(fault) => file_status(fault),
            Fault::Open(fault) => open_status(fault),
            Fault::NoMemory | Fault::NotClosed | Fault::WriteFailed => 3,
        }
    }
}
