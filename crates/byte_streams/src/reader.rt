//! Readers of std, each with what a read of it gives.

ghost use Rattle.std.specs.Prelude.{◌≡◌, ℕ, List, Result, Ok, length, min, drop, ⊤};
ghost use Rattle.std.specs.Io.KnownBytes.{ReadConsumes};
ghost use Rattle.byte_streams.specs.Streams.{FitsBuffer};
ghost use Rattle.byte_streams.specs.declared.source.SourceFailed.{SourceFailed};

use crate::source::SourceFailed;
use std::io::{Read, Stdin};

/// A reader of std, of which more may be known than what std says of all readers.
pub trait Reader: Read {
    // What a read gives: the reader and the buffer before it, its answer, and the reader after it.
    ghost read_gives: { Self → List ℕ → Result ℕ SourceFailed → Self → Type 0 };

    /// One read, as std's.
    fn read_some(&mut self, buffer: &mut [u8]) -> Result<usize, SourceFailed>
        ensures count { FitsBuffer result buffer.new }
        ensures bytes { ReadConsumes (Self.remaining self.old) (Self.remaining self.new) result buffer.new }
        ensures gives { read_gives self.old buffer.old result self.new };
}

impl Reader for &[u8] {
    // as many bytes as there are and as the buffer has room for
    ghost read_gives = { λ s buffer result t. (result ≡ Ok (min (length s.now) (length buffer)))
        × (t.now ≡ drop (min (length s.now) (length buffer)) s.now) };

    fn read_some(&mut self, buffer: &mut [u8]) -> Result<usize, SourceFailed> {
        self.read(buffer).map_err(|_| SourceFailed)
    }
}

impl Reader for Stdin {
    ghost read_gives = { λ _ _ _ _. ⊤ };

    fn read_some(&mut self, buffer: &mut [u8]) -> Result<usize, SourceFailed> {
        self.read(buffer).map_err(|_| SourceFailed)
    }
}
