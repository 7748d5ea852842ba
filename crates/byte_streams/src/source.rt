//! Where bytes come from.

ghost use Rattle.std.specs.Prelude.{◌≡◌, ℕ, List, Option, is_ok};
ghost use Rattle.std.specs.Io.KnownBytes.{ReadConsumes};
ghost use Rattle.byte_streams.specs.Streams.{FitsBuffer, failures_after};

/// A read failed.
#[derive(Clone, Copy, Debug, PartialEq, Eq)]
pub struct SourceFailed;

/// A reader of bytes.
pub trait Source {
    // How many reads have failed.
    ghost failures: { Self → ℕ };

    // The bytes that are left to read, where they are known.
    ghost left: { Self → Option (List ℕ) };

    /// Reads some bytes to the front of the buffer, and says how many. There are none only at the
    /// end, or where the buffer has no room. A failure takes none.
    fn read(&mut self, buffer: &mut [u8]) -> Result<usize, SourceFailed>
        ensures count { FitsBuffer result buffer.new }
        ensures bytes { ReadConsumes (left self.old) (left self.new) result buffer.new }
        ensures failures { failures self.new ≡ failures_after (is_ok result) (failures self.old) };
}
