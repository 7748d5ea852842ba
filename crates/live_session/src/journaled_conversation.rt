//! A conversation whose entries are kept in a journal's file.

ghost use Rattle.std.specs.Prelude.{◌≡◌, [], false};
ghost use Rattle.journal_file.specs.Settled.{IsSettled};

use crate::{CommitFailed, Conversation};
use byte_streams::{Sink, Source, SourceFailed, WriteFailed, write_all};
use journal_file::{CommittedLines, Device, DeviceError, Record};

/// Which call is noted.
const COMMIT: u64 = 0;

/// A source of records, a sink for their answers, and the journal whose lines are the entries.
#[derive(Drop)]
pub struct JournaledConversation<'a, R: Source, O: Sink, D: Device> {
    pub input: &'a mut R,
    pub output: &'a mut O,
    pub journal: &'a mut CommittedLines<D>,
    /// What was to be committed, and whether it was.
    pub calls: Record,
    /// Whether a commit has failed. From then on nothing is committed.
    pub is_broken: bool,
    /// Why it has.
    pub fault: Option<DeviceError>,
    pub ghost steady: { is_broken ≡ false → IsSettled D.seen D.may_leave journal.now },
}

impl<'a, R: Source, O: Sink, D: Device> JournaledConversation<'a, R, O, D> {
    /// A conversation that reads records from `input`, writes answers to `output`, and keeps entries in `journal`.
    pub fn new(
        input: &'a mut R,
        output: &'a mut O,
        journal: &'a mut CommittedLines<D>,
    ) -> JournaledConversation<'a, R, O, D>
        requires { IsSettled D.seen D.may_leave journal.old }
        ensures input { result.input ≡ input.entry }
        ensures output { result.output ≡ output.entry }
        ensures journal { result.journal ≡ journal.entry }
        ensures calls { result.calls.events ≡ [] }
        ensures broken { result.is_broken ≡ false }
    {
        JournaledConversation {
            input,
            output,
            journal,
            calls: Record::new(),
            is_broken: false,
            fault: None,
        }
    }
}

impl<R: Source, O: Sink, D: Device> Conversation for JournaledConversation<'_, R, O, D> {
    ghost use Rattle.std.specs.Prelude.{◌≡◌, Some, false};
    ghost use Rattle.journal_file.specs.Events.{failures_of};
    ghost use Rattle.live_session.specs.JournaledTalk.{IsSameOrLater, same, on, text_kept};
    ghost use Rattle.std.proofs.Common.{◌∙◌, refl};

    ghost left = { λ c. R.left c.input.now };

    ghost written = { λ c. O.written c.output.now };

    ghost committed = { λ c. Some (text_kept c.calls.events) };

    ghost read_failures = { λ c. R.failures c.input.now };

    ghost write_failures = { λ c. O.failures c.output.now };

    ghost commit_failures = { λ c. failures_of c.calls.events };

    ghost MayRead = { λ _. Unit {0} };

    ghost MayWrite = { λ c _. c.is_broken ≡ false };

    ghost Becomes = { λ a b. (b.input.ghost_name ≡ a.input.ghost_name) × (b.output.ghost_name ≡ a.output.ghost_name)
        × (b.journal.ghost_name ≡ a.journal.ghost_name) × IsSameOrLater D.seen D.moment D.left_since D.faults
        a.journal.now b.journal.now a.calls.events b.calls.events a.is_broken b.is_broken };

    ghost becomes_itself = { λ c. (
      refl,
      refl,
      refl,
      same D.seen D.moment D.left_since D.faults c.journal.now c.calls.events c.is_broken,
    ) };

    ghost becomes_on = { λ a b c h k. (
      k.0 ∙ h.0,
      k.1 ∙ h.1,
      k.2 ∙ h.2,
      on D.seen D.moment D.left_since D.faults a.journal.now b.journal.now c.journal.now
          a.calls.events b.calls.events c.calls.events a.is_broken b.is_broken c.is_broken h.3 k.3,
    ) };

    fn read(&mut self, buffer: &mut [u8]) -> Result<usize, SourceFailed> {
        self.input.read(buffer)
    }

    fn commit(&mut self, entries: &[u8]) -> Result<(), CommitFailed> {
        if entries.is_empty() {
            return Ok(());
        }
        if self.is_broken {
            self.calls.note(&[COMMIT, 0, 0], &[]);
            return Err(CommitFailed);
        }
        self.is_broken = true;
        match self.journal.commit(entries) {
            Ok(()) => {
                self.calls.note(&[COMMIT, 0, 1], entries);
                self.is_broken = false;
                Ok(())
            }
            Err(error) => {
                self.calls.note(&[COMMIT, 0, 0], entries);
                self.fault = Some(error);
                Err(CommitFailed)
            }
        }
    }

    fn write(&mut self, text: &[u8]) -> Result<(), WriteFailed> {
        write_all(self.output, text)
    }
}
