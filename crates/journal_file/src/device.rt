//! A file as the journal sees it: what it holds, and what a crash may leave.

ghost use Rattle.std.specs.Prelude.{◌≡◌, ◌≤◌, ◌+◌, ◌∷◌, List, ℕ, length, OnOk};
ghost use Rattle.journal_file.specs.Device.{HasCause, HasElapsed, IsOnlyOutcome, IsOverwritten, IsResized, IsStepFrom};
ghost use Rattle.journal_file.specs.Device.{IsTorn, resized};

/// Why a journal can't go on.
#[derive(Clone, Copy, Debug, PartialEq, Eq)]
pub enum DeviceError {
    /// A call on the file failed.
    Failed,
    /// Others have deleted, replaced or cut the file since it was opened.
    Changed,
    /// The file would be too long.
    Full,
}

/// One file. Its bytes were read as it was opened.
pub trait Device {
    /// The bytes that a read would return.
    ghost seen: { Self → List ℕ };

    /// What a crash at this moment may leave.
    ghost may_leave: { Self → List ℕ → Type 0 };

    /// The moment, as a number that doesn't fall.
    ghost moment: { Self → ℕ };

    /// What a crash at some moment from that one on might have left, during a call or between two.
    ghost left_since: { Self → ℕ → List ℕ → Type 0 };

    /// How often the file has failed, or was found changed by others.
    ghost faults: { Self → ℕ };

    /// What was put aside, each in a file of its own, the last first.
    ghost aside: { Self → List (List ℕ) };

    /// Writes over what is there. Until a sync, a crash may leave each byte of the range as it was or as it was
    /// written.
    fn write_at(&mut self, at: usize, bytes: &[u8]) -> Result<(), DeviceError>
        requires { at + length bytes.now ≤ length (seen self.old) }
        ensures written { OnOk result (IsOverwritten (seen self.old) at bytes.now (seen self.new)) }
        ensures crash { IsStepFrom (IsTorn at bytes.now) (may_leave self.old) (may_leave self.new) }
        ensures time { HasElapsed (moment self.old) (moment self.new) (left_since self.old) (left_since self.new)
            (may_leave self.new) }
        ensures cause { HasCause (faults self.old) (faults self.new) result }
        ensures aside { aside self.new ≡ aside self.old };

    /// Cuts the file to a length, or lets it grow to it by zeros.
    fn resize(&mut self, len: usize) -> Result<(), DeviceError>
        ensures resized { OnOk result (seen self.new ≡ resized len (seen self.old)) }
        ensures crash { IsStepFrom (IsResized len) (may_leave self.old) (may_leave self.new) }
        ensures time { HasElapsed (moment self.old) (moment self.new) (left_since self.old) (left_since self.new)
            (may_leave self.new) }
        ensures cause { HasCause (faults self.old) (faults self.new) result }
        ensures aside { aside self.new ≡ aside self.old };

    /// After it, a crash leaves what a read would return.
    fn sync(&mut self) -> Result<(), DeviceError>
        ensures durable { OnOk result (IsOnlyOutcome (seen self.old) (may_leave self.new)) }
        ensures seen { seen self.new ≡ seen self.old }
        ensures crash { (c : List ℕ) → may_leave self.new c → may_leave self.old c }
        ensures time { HasElapsed (moment self.old) (moment self.new) (left_since self.old) (left_since self.new)
            (may_leave self.new) }
        ensures cause { HasCause (faults self.old) (faults self.new) result }
        ensures aside { aside self.new ≡ aside self.old };

    /// Puts bytes into a new file beside this one, from where no crash takes them: that file's number.
    fn put_aside(&mut self, bytes: &[u8]) -> Result<u64, DeviceError>
        ensures aside { OnOk result (aside self.new ≡ bytes.now ∷ aside self.old) }
        ensures seen { seen self.new ≡ seen self.old }
        ensures crash { (c : List ℕ) → may_leave self.new c → may_leave self.old c }
        ensures time { HasElapsed (moment self.old) (moment self.new) (left_since self.old) (left_since self.new)
            (may_leave self.new) }
        ensures cause { HasCause (faults self.old) (faults self.new) result };

    /// This moment is one of those since an earlier one.
    ghost counts_now: { (file : Self) (t : ℕ) (c : List ℕ) → t ≤ moment file → may_leave file c → left_since file t c };

    /// Since this moment there is no other.
    ghost only_now: { (file : Self) (c : List ℕ) → left_since file (moment file) c → may_leave file c };
}
