//! A device with both ends.

ghost use Rattle.std.specs.Prelude.{◌≡◌, ℕ, List, Option, is_ok};
ghost use Rattle.std.specs.Io.KnownBytes.{ReadConsumes};
ghost use Rattle.auction_terms.specs.declared.Entry.{Entry};
ghost use Rattle.byte_streams.specs.Streams.{AppendsOrBegins, FitsBuffer, ReportsFailure, failures_after};
ghost use Rattle.journal.specs.KeptLines.{HasEntryLines};

use byte_streams::{SourceFailed, WriteFailed};

/// Entries could not be committed.
#[derive(Clone, Copy, Debug, PartialEq, Eq)]
pub struct CommitFailed;

/// What a session talks with: it reads records, commits the entries of calls, and writes the answers.
pub trait Conversation {
    // The bytes that are left to read, where they are known.
    ghost left: { Self → Option (List ℕ) };

    // The bytes that were written, where they are known.
    ghost written: { Self → Option (List ℕ) };

    // The lines of entries that were committed, where they are known.
    ghost committed: { Self → Option (List ℕ) };

    // How many reads, writes and commits have failed.
    ghost read_failures: { Self → ℕ };

    ghost write_failures: { Self → ℕ };

    ghost commit_failures: { Self → ℕ };

    // Whether it may be read now.
    ghost MayRead: { Self → Type 0 };

    // Whether this text may be written now.
    ghost MayWrite: { Self → List ℕ → Type 0 };

    // The first is the second, some calls later.
    ghost Becomes: { Self → Self → Type 0 };

    /// Reads some bytes to the front of the buffer, and says how many. There are none only at the end, or where the
    /// buffer has no room. A failure takes none.
    fn read(&mut self, buffer: &mut [u8]) -> Result<usize, SourceFailed>
        requires { MayRead self.old }
        ensures count { FitsBuffer result buffer.new }
        ensures bytes { ReadConsumes (left self.old) (left self.new) result buffer.new }
        ensures failures { read_failures self.new ≡ failures_after (is_ok result) (read_failures self.old) }
        ensures written { written self.new ≡ written self.old }
        ensures committed { committed self.new ≡ committed self.old }
        ensures writes { write_failures self.new ≡ write_failures self.old }
        ensures commits { commit_failures self.new ≡ commit_failures self.old }
        ensures same { Becomes self.old self.new };

    /// Commits lines of entries, all of them, or at a failure a beginning: from then on they last.
    fn commit(&mut self, entries: &[u8]) -> Result<(), CommitFailed>
        requires { (kept : List Entry) × HasEntryLines entries.now kept }
        ensures entries { AppendsOrBegins (committed self.old) (committed self.new) result entries.now }
        ensures failures { ReportsFailure (commit_failures self.old) (commit_failures self.new) result }
        ensures left { left self.new ≡ left self.old }
        ensures written { written self.new ≡ written self.old }
        ensures reads { read_failures self.new ≡ read_failures self.old }
        ensures writes { write_failures self.new ≡ write_failures self.old }
        ensures same { Becomes self.old self.new };

    /// Writes all of a text, or at a failure a beginning of it.
    fn write(&mut self, text: &[u8]) -> Result<(), WriteFailed>
        requires { MayWrite self.old text.now }
        ensures text { AppendsOrBegins (written self.old) (written self.new) result text.now }
        ensures failures { ReportsFailure (write_failures self.old) (write_failures self.new) result }
        ensures left { left self.new ≡ left self.old }
        ensures committed { committed self.new ≡ committed self.old }
        ensures reads { read_failures self.new ≡ read_failures self.old }
        ensures commits { commit_failures self.new ≡ commit_failures self.old }
        ensures same { Becomes self.old self.new };

    // It is itself, and stays so from call to call.
    ghost becomes_itself: { (c : Self) → Becomes c c };

    ghost becomes_on: { (a b c : Self) → Becomes a b → Becomes b c → Becomes a c };
}
