//! Where bytes go.

ghost use Rattle.std.specs.Prelude.{◌≡◌, ℕ, List, Option};
ghost use Rattle.std.specs.Io.KnownBytes.{WriteAppends};
ghost use Rattle.byte_streams.specs.Streams.{FitsBuffer, failures_after, takes_some};

/// A write failed.
#[derive(Clone, Copy, Debug, PartialEq, Eq)]
pub struct SinkFailed;

/// A writer of bytes.
pub trait Sink {
    // How many writes have failed or taken no byte.
    ghost failures: { Self → ℕ };

    // The bytes that were written, where they are known.
    ghost written: { Self → Option (List ℕ) };

    /// Writes some bytes from the front of these, and says how many. A failure writes none.
    fn write(&mut self, bytes: &[u8]) -> Result<usize, SinkFailed>
        ensures count { FitsBuffer result bytes.now }
        ensures bytes { WriteAppends (written self.old) (written self.new) result bytes.now }
        ensures failures { failures self.new ≡ failures_after (takes_some result) (failures self.old) };
}
