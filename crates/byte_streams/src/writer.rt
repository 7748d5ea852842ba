//! Writers of std, each with what a write to it takes.

ghost use Rattle.std.specs.Prelude.{◌≡◌, ◌-◌, ℕ, List, Result, IfOk, Ok, length, min, ⊤};
ghost use Rattle.std.specs.Io.Cursor.{cursor_inner, cursor_position};
ghost use Rattle.std.specs.Io.KnownBytes.{WriteAppends};
ghost use Rattle.byte_streams.specs.Streams.{FitsBuffer};
ghost use Rattle.byte_streams.specs.declared.sink.SinkFailed.{SinkFailed};

use crate::sink::SinkFailed;
use std::io::{Cursor, Stderr, Stdout, Write};

/// A writer of std, of which more may be known than what std says of all writers.
pub trait Writer: Write {
    // What a write takes: the writer and the bytes before it, its answer, and the writer after it.
    ghost write_takes: { Self → List ℕ → Result ℕ SinkFailed → Self → Type 0 };

    /// One write, as std's.
    fn write_some(&mut self, bytes: &[u8]) -> Result<usize, SinkFailed>
        ensures count { FitsBuffer result bytes.now }
        ensures bytes { WriteAppends (Self.contents self.old) (Self.contents self.new) result bytes.now }
        ensures takes { write_takes self.old bytes.now result self.new };
}

impl Writer for Vec<u8> {
    // all bytes, unless memory is refused
    ghost write_takes = { λ _ bytes result _. IfOk result (λ count. count ≡ length bytes) };

    fn write_some(&mut self, bytes: &[u8]) -> Result<usize, SinkFailed> {
        self.write(bytes).map_err(|_| SinkFailed)
    }
}

impl<const N: usize> Writer for Cursor<[u8; N]> {
    // as many bytes as there is room for
    ghost write_takes = { λ s bytes result _.
        result ≡ Ok (min (length bytes) (length (cursor_inner s) - cursor_position s)) };

    fn write_some(&mut self, bytes: &[u8]) -> Result<usize, SinkFailed> {
        self.write(bytes).map_err(|_| SinkFailed)
    }
}

impl Writer for Stdout {
    ghost write_takes = { λ _ _ _ _. ⊤ };

    fn write_some(&mut self, bytes: &[u8]) -> Result<usize, SinkFailed> {
        self.write(bytes).map_err(|_| SinkFailed)
    }
}

impl Writer for Stderr {
    ghost write_takes = { λ _ _ _ _. ⊤ };

    fn write_some(&mut self, bytes: &[u8]) -> Result<usize, SinkFailed> {
        self.write(bytes).map_err(|_| SinkFailed)
    }
}
