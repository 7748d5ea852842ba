//! A source that keeps how its bytes began.

ghost use Rattle.std.specs.Prelude.{◌≡◌, ◌++◌, ℕ, List, [], is_ok, take, MatchResult};
ghost use Rattle.std.specs.Io.KnownBytes.{ReadConsumes};
ghost use Rattle.byte_streams.specs.Streams.{FitsBuffer, failures_after};
ghost use Rattle.input_hints.specs.declared.start.TheConstants.{ROOM};

use crate::start::Start;
use byte_streams::{Source, SourceFailed};

/// A source that says how its bytes began.
pub trait KeepsStart: Source {
    // The first bytes that were read.
    ghost begun: { Self → List ℕ };

    /// The first bytes that were read, at most `ROOM` of them.
    fn start(&self) -> &[u8]
        ensures { result.now ≡ begun self.now };
}

/// A source with the first bytes that were read of it. What is left, and the failures, are those of the source.
#[derive(Drop)]
pub struct StartKeeper<R: Source + Drop> {
    source: R,
    start: Start,
}

impl<R: Source + Drop> StartKeeper<R> {
    /// The source, of which nothing was read so far.
    pub fn new(source: R) -> StartKeeper<R>
        ensures source { result.source ≡ source }
        ensures start { result.start ≡ [] }
    {
        StartKeeper {
            source,
            start: Start::new(),
        }
    }
}

impl<R: Source + Drop> Source for StartKeeper<R> {
    ghost failures = { λ s. R.failures s.source };

    ghost left = { λ s. R.left s.source };

    fn read(&mut self, buffer: &mut [u8]) -> Result<usize, SourceFailed>
        ensures count { FitsBuffer result buffer.new }
        ensures bytes { ReadConsumes (R.left self.old.source) (R.left self.new.source) result buffer.new }
        ensures failures { R.failures self.new.source ≡ failures_after (is_ok result) (R.failures self.old.source) }
        ensures start { MatchResult result
            (λ count. self.new.start ≡ take ROOM (self.old.start ++ take count buffer.new))
            (λ _. self.new.start ≡ self.old.start) }
    {
        match self.source.read(buffer) {
            Ok(count) => {
                self.start.add(&buffer[..count]);
                Ok(count)
            }
            Err(SourceFailed) => Err(SourceFailed),
        }
    }
}

impl<R: Source + Drop> KeepsStart for StartKeeper<R> {
    ghost begun = { λ s. s.start };

    fn start(&self) -> &[u8] {
        self.start.as_slice()
    }
}
