//! A conversation over two ends.

ghost use Rattle.std.specs.Prelude.{◌≡◌, None, refl};
ghost use Rattle.std.proofs.Common.{◌∙◌};

use crate::conversation::{CommitFailed, Conversation};
use byte_streams::{Sink, Source, SourceFailed, WriteFailed, write_all};

/// A source of records, and a sink for their answers. Entries are kept nowhere.
#[derive(Drop)]
pub struct Channels<'a, R: Source, O: Sink> {
    pub input: &'a mut R,
    pub output: &'a mut O,
}

impl<'a, R: Source, O: Sink> Channels<'a, R, O> {
    /// A conversation that reads records from `input` and writes answers to `output`.
    pub fn new(input: &'a mut R, output: &'a mut O) -> Channels<'a, R, O>
        ensures { result ≡ record { input = input.entry; output = output.entry } }
    {
        Channels { input, output }
    }
}

impl<R: Source, O: Sink> Conversation for Channels<'_, R, O> {
    ghost left = { λ c. R.left c.input.now };

    ghost written = { λ c. O.written c.output.now };

    ghost committed = { λ _. None };

    ghost read_failures = { λ c. R.failures c.input.now };

    ghost write_failures = { λ c. O.failures c.output.now };

    ghost commit_failures = { λ _. 0 };

    ghost MayRead = { λ _. Unit {0} };

    ghost MayWrite = { λ _ _. Unit {0} };

    ghost Becomes = { λ a b. (b.input.ghost_name ≡ a.input.ghost_name) × (b.output.ghost_name ≡ a.output.ghost_name) };

    ghost becomes_itself = { λ c. (refl, refl) };

    ghost becomes_on = { λ a b c h k. (k.0 ∙ h.0, k.1 ∙ h.1) };

    fn read(&mut self, buffer: &mut [u8]) -> Result<usize, SourceFailed> {
        self.input.read(buffer)
    }

    fn commit(&mut self, _entries: &[u8]) -> Result<(), CommitFailed> {
        Ok(())
    }

    fn write(&mut self, text: &[u8]) -> Result<(), WriteFailed> {
        write_all(self.output, text)
    }
}
