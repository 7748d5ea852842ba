//! Readers and writers of std as a source and as a sink.

ghost use Rattle.std.specs.Prelude.{◌≡◌, is_ok};
ghost use Rattle.std.specs.Io.KnownBytes.{ReadConsumes, WriteAppends};
ghost use Rattle.byte_streams.specs.Streams.{FitsBuffer, failures_after, takes_some};

use crate::failures::Failures;
use crate::reader::Reader;
use crate::sink::{Sink, SinkFailed};
use crate::source::{Source, SourceFailed};
use crate::writer::Writer;
use std::sync::ledger::Ledger;

/// A reader of std, which fails where the reader does.
#[derive(Drop)]
pub struct FromRead<R: Reader + Drop, L: Ledger> {
    pub reader: R,
    pub failures: Failures<L>,
}

impl<R: Reader + Drop, L: Ledger> Source for FromRead<R, L> {
    ghost failures = { λ s. s.failures };

    ghost left = { λ s. R.remaining s.reader };

    fn read(&mut self, buffer: &mut [u8]) -> Result<usize, SourceFailed>
        ensures count { FitsBuffer result buffer.new }
        ensures bytes { ReadConsumes (R.remaining self.old.reader) (R.remaining self.new.reader) result buffer.new }
        ensures failures { self.new.failures ≡ failures_after (is_ok result) self.old.failures }
        ensures gives { R.read_gives self.old.reader buffer.old result self.new.reader }
    {
        let read = self.reader.read_some(buffer);
        if read.is_err() {
            self.failures.rise();
        }
        read
    }
}

/// A writer of std, which fails where the writer does.
#[derive(Drop)]
pub struct ToWrite<W: Writer + Drop, L: Ledger> {
    pub writer: W,
    pub failures: Failures<L>,
}

impl<W: Writer + Drop, L: Ledger> Sink for ToWrite<W, L> {
    ghost failures = { λ s. s.failures };

    ghost written = { λ s. W.contents s.writer };

    fn write(&mut self, bytes: &[u8]) -> Result<usize, SinkFailed>
        ensures count { FitsBuffer result bytes.now }
        ensures bytes { WriteAppends (W.contents self.old.writer) (W.contents self.new.writer) result bytes.now }
        ensures failures { self.new.failures ≡ failures_after (takes_some result) self.old.failures }
        ensures takes { W.write_takes self.old.writer bytes.now result self.new.writer }
    {
        let written = self.writer.write_some(bytes);
        if !takes_some(written) {
            self.failures.rise();
        }
        written
    }
}

/// Whether a write took a byte or more.
fn takes_some(written: Result<usize, SinkFailed>) -> bool
    ensures { result ≡ takes_some written }
{
    match written {
        Ok(count) => count > 0,
        Err(_) => false,
    }
}
