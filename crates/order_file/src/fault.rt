//! Why an order file is refused.

ghost use Rattle.std.specs.Prelude.{◌≡◌, Some};
ghost use Rattle.order_file.specs.FileFault.{fault_text, in_record};
ghost use Rattle.order_file.specs.declared.fault.FileFault.TheVariants.{NoMemory};

use std::alloc::AllocError;
use std::error::Error;
use std::fmt;
use std::fmt::{Display, Formatter};

/// The first fault of an order file, or of a journal, of which the first record is the day's; its text
/// is the line that the program prints. Records count from 1 as they are read, and so do the fields of
/// a record.
#[derive(Clone, Copy, Debug, PartialEq, Eq)]
pub enum FileFault {
    /// The file has more bytes than it may have.
    TooLong,
    /// The reader failed.
    ReadFailed,
    /// The first field is no number, or not below the count of members.
    BadMember { number: u64 },
    /// The second field is missing, or no known word.
    BadCommand { number: u64 },
    /// There are too few or too many fields for the command.
    BadCount { number: u64 },
    /// A field after the command word is badly formed.
    BadField { number: u64, field: usize },
    /// There is a record more than commands may be applied, whatever it holds.
    TooManyCommands { number: u64 },
    /// A journal was asked for, and the first record is missing or isn't that of a day.
    NotADay,
    /// Memory was refused.
    NoMemory,
}

impl Display for FileFault {
    ghost output = { λ fault. Some (fault_text fault) };

    fn fmt<W: fmt::Write>(&self, f: &mut Formatter<W>) -> fmt::Result {
        match self {
            FileFault::TooLong => f.write_str("file too long"),
            FileFault::ReadFailed => f.write_str("read failed"),
            FileFault::BadMember { number } => write!(f, "record {number}: bad member"),
            FileFault::BadCommand { number } => write!(f, "record {number}: bad command"),
            FileFault::BadCount { number } => {
                write!(f, "record {number}: wrong number of fields")
            }
            FileFault::BadField { number, field } => {
                write!(f, "record {number}: bad field {field}")
            }
            FileFault::TooManyCommands { number } => {
                write!(f, "record {number}: too many commands")
            }
            FileFault::NotADay => f.write_str("record 1: not a day record"),
            FileFault::NoMemory => f.write_str("out of memory"),
        }
    }
}

impl Error for FileFault {}

impl From<AllocError> for FileFault {
    ghost from_gives = { λ _ fault. fault ≡ NoMemory };

    fn from(_refused: AllocError) -> FileFault {
        FileFault::NoMemory
    }
}

/// What is wrong with a record: the first fault from the left.
#[derive(Clone, Copy, Debug, PartialEq, Eq)]
pub enum RecordFault {
    BadMember,
    BadCommand,
    BadCount,
    BadField { field: usize },
}

impl RecordFault {
    /// The same, with the number of the record.
    #[inline(always)]
    pub fn in_record(self, number: u64) -> FileFault
        ensures { result ≡ in_record number self }
    {
        match self {
            RecordFault::BadMember => FileFault::BadMember { number },
            RecordFault::BadCommand => FileFault::BadCommand { number },
            RecordFault::BadCount => FileFault::BadCount { number },
            RecordFault::BadField { field } => FileFault::BadField { number, field },
        }
    }
}
