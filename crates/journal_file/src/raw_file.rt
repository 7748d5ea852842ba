//! A file that is really written, and what it notes of the calls on it.

ghost use Rattle.std.specs.Prelude.{◌≡◌, ◌∷◌, [], List, is_ok};
ghost use Rattle.journal_file.specs.Events.{Event, event};

/// Which call is noted: these bytes were found on the disk.
pub const FOUND: u64 = 0;

/// These were written at a place.
pub const WRITTEN: u64 = 1;

/// The length was changed.
pub const RESIZED: u64 = 2;

/// What was done was put on the disk.
pub const SYNCED: u64 = 3;

/// These were put into a file of their own.
pub const ASIDE: u64 = 4;

/// Why a call on a real file wasn't done.
#[derive(Clone, Copy, Debug, PartialEq, Eq)]
pub enum RawFault {
    /// It failed.
    Failed,
    /// Others have deleted, replaced or cut the file.
    Changed,
}

/// A file that is really written, and which notes the calls that are made on it. That each call does what a `Device`
/// says is assumed, by whoever reads the clauses of a `Tracked` as facts about a disk.
pub trait RawFile {
    /// The calls that were made since it was opened, the last first.
    ghost calls: { Self → List Event };

    /// Writes all of these over what is there.
    fn write_all_at(&mut self, at: usize, bytes: &[u8]) -> Result<(), RawFault>
        ensures { calls self.new ≡ event WRITTEN at (is_ok result) bytes.now ∷ calls self.old };

    /// Cuts the file to a length, or lets it grow to it by zeros.
    fn set_len(&mut self, len: usize) -> Result<(), RawFault>
        ensures { calls self.new ≡ event RESIZED len (is_ok result) [] ∷ calls self.old };

    /// Has all that was done put on the disk.
    fn sync(&mut self) -> Result<(), RawFault>
        ensures { calls self.new ≡ event SYNCED 0 (is_ok result) [] ∷ calls self.old };

    /// Puts bytes into a new file beside this one, and has them put on the disk: that file's number.
    fn put_aside(&mut self, bytes: &[u8]) -> Result<u64, RawFault>
        ensures { calls self.new ≡ event ASIDE 0 (is_ok result) bytes.now ∷ calls self.old };
}
