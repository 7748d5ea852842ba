//! A device over a file of which no contract says what it does. Each call is made and noted, and the clauses speak of
//! what was noted.

ghost use Rattle.std.specs.Prelude.{◌≡◌};
ghost use Rattle.journal_file.specs.RawFault.{as_fault};

use crate::device::{Device, DeviceError};
use crate::raw_file::{RawFault, RawFile};

/// A file as a device.
#[derive(Drop)]
pub struct Tracked<F: RawFile> {
    file: F,
}

impl<F: RawFile> Tracked<F> {
    ghost use Rattle.journal_file.specs.Events.{seen_of};
    ghost use Rattle.journal_file.specs.Tracked.{tracked_seen};

    /// A file as a device that holds what was found, and was done with it since.
    pub fn over(file: F) -> Tracked<F>
        ensures seen { tracked_seen F.RawFile result ≡ seen_of (F.calls file) }
        ensures file { result.file ≡ file }
    {
        Tracked { file }
    }

    /// The file.
    pub fn file(&self) -> &F {
        &self.file
    }
}

/// The fault of a call, as a device reports it.
fn as_fault<T: Drop>(done: Result<T, RawFault>) -> Result<T, DeviceError>
    ensures { result ≡ as_fault done }
{
    match done {
        Ok(value) => Ok(value),
        Err(RawFault::Failed) => Err(DeviceError::Failed),
        Err(RawFault::Changed) => Err(DeviceError::Changed),
    }
}

impl<F: RawFile> Device for Tracked<F> {
    ghost use Rattle.journal_file.specs.Events.{seen_of, left_by, left_from, failures_of, aside_of, counts, only};
    ghost use Rattle.std.specs.Prelude.{length};

    ghost seen = { λ d. seen_of (F.calls d.file) };

    ghost may_leave = { λ d c. left_by (F.calls d.file) c };

    ghost moment = { λ d. length (F.calls d.file) };

    ghost left_since = { λ d t c. left_from t (F.calls d.file) c };

    ghost faults = { λ d. failures_of (F.calls d.file) };

    ghost aside = { λ d. aside_of (F.calls d.file) };

    ghost counts_now = { λ d t c le now. counts (F.calls d.file) t c now };

    ghost only_now = { λ d c left. only (F.calls d.file) c left };

    fn write_at(&mut self, at: usize, bytes: &[u8]) -> Result<(), DeviceError> {
        as_fault(self.file.write_all_at(at, bytes))
    }

    fn resize(&mut self, len: usize) -> Result<(), DeviceError> {
        as_fault(self.file.set_len(len))
    }

    fn sync(&mut self) -> Result<(), DeviceError> {
        as_fault(self.file.sync())
    }

    fn put_aside(&mut self, bytes: &[u8]) -> Result<u64, DeviceError> {
        as_fault(self.file.put_aside(bytes))
    }
}
