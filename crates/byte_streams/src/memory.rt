//! Memory as a source and as a sink.

ghost use Rattle.std.specs.Prelude.{Some};

use crate::failures::Failures;
use crate::sink::{Sink, SinkFailed};
use crate::source::{Source, SourceFailed};
use std::sync::ledger::Ledger;

/// Bytes in memory, which are read without a failure.
#[derive(Drop)]
pub struct FromMemory<'a> {
    pub rest: &'a [u8],
}

impl Source for FromMemory<'_> {
    ghost failures = { λ _. 0 };

    ghost left = { λ s. Some s.rest.now };

    fn read(&mut self, buffer: &mut [u8]) -> Result<usize, SourceFailed> {
        let count = self.rest.len().min(buffer.len());
        let (front, rest) = self.rest.split_at(count);
        buffer[..count].copy_from_slice(front);
        self.rest = rest;
        Ok(count)
    }
}

/// Text that is kept in memory, by a writer that fails where memory is refused.
#[derive(Drop)]
pub struct ToMemory<L: Ledger> {
    pub bytes: Vec<u8>,
    pub failures: Failures<L>,
}

impl<L: Ledger> Sink for ToMemory<L> {
    ghost failures = { λ s. s.failures };

    ghost written = { λ s. Some s.bytes.items };

    fn write(&mut self, bytes: &[u8]) -> Result<usize, SinkFailed> {
        if bytes.is_empty() || self.bytes.extend_from_slice(bytes).is_err() {
            self.failures.rise();
            return Err(SinkFailed);
        }
        Ok(bytes.len())
    }
}
