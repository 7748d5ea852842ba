//! Why a session doesn't go on with a journal's file.

use auction_terms::Reply;
use journal::DayHeader;
use journal_file::{Device, DeviceError};
use order_file::FileFault;

/// An entry whose recorded reply isn't the lawful one: its place, from 1, and the lawful one.
#[derive(Clone, Copy, Debug, PartialEq, Eq)]
pub struct UnlawfulEntry {
    pub number: u64,
    pub lawful: Reply,
}

/// Why a session doesn't go on with a journal's file.
#[derive(Drop)]
pub enum ResumeFault {
    /// Its lines are no journal, or have a fault, of which this is the first; or memory was refused.
    File(FileFault),
    /// It is the journal of this other day.
    AnotherDay(DayHeader),
    /// The reply of an entry isn't the lawful one; what was recorded comes after it.
    Unlawful(UnlawfulEntry, Vec<u8>),
}

/// What was behind a journal's lines when it was opened, and is in a file of its own now: that file's number, and how
/// many bytes it has.
#[derive(Clone, Copy, Debug, PartialEq, Eq)]
pub struct CutOff {
    pub number: u64,
    pub bytes: u64,
}

/// Why a session doesn't begin on a journal's file.
#[derive(Drop)]
pub enum BeginFault {
    /// The file has no line, and isn't what a crash leaves of a journal that is being begun for this day.
    NotAJournal,
    /// It isn't gone on with what the file holds.
    Resume(ResumeFault),
    /// Behind the lines of the journal is more than a torn commit leaves: the number of the record that would come
    /// next, and how many bytes.
    Damaged(u64, u64),
    /// The file can't be written. Open it again.
    Device(DeviceError),
    /// Memory was refused.
    NoMemory,
}

/// A session that doesn't begin on a journal's file: the file, and why.
#[derive(Drop)]
pub struct NotBegun<D: Device> {
    pub device: D,
    pub fault: BeginFault,
}
