//! An end that is waited for, as the reader of a source and the writer of a sink.

ghost use Rattle.std.specs.Prelude.{⊤};

use crate::patient::Patient;
use crate::{Reader, SinkFailed, SourceFailed, Writer};
use std::io::{Read, Write};
use std::time::Clock;

impl<'a, R: Read + Drop, C: Clock> Reader for Patient<'a, R, C> {
    ghost read_gives = { λ _ _ _ _. ⊤ };

    fn read_some(&mut self, buffer: &mut [u8]) -> Result<usize, SourceFailed> {
        self.read(buffer).map_err(|_| SourceFailed)
    }
}

impl<'a, W: Write + Drop, C: Clock> Writer for Patient<'a, W, C> {
    ghost write_takes = { λ _ _ _ _. ⊤ };

    fn write_some(&mut self, bytes: &[u8]) -> Result<usize, SinkFailed> {
        self.write(bytes).map_err(|_| SinkFailed)
    }
}
