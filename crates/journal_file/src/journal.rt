//! A text of lines that are on the disk before they are answered. After it the file has room: NULs, which no line has.
//! Lines are written over the room, so that a crash leaves each byte as it was written or NUL, and the first NUL shows
//! how far they came.

ghost use Rattle.std.specs.Prelude.{◌≡◌, ◌<◌, ◌≤◌, ◌^◌, ◌+◌, ◌++◌, List, ℕ, length, OnOk, IsErrOf, take, drop};
ghost use Rattle.journal_file.specs.Committed.{committed, HasShortLines, HasTornEnd, IsBegun, Means};
ghost use Rattle.journal_file.specs.Device.{HasCause, IsOnlyOutcome, LeavesOnly};
ghost use Rattle.journal_file.specs.Settled.{IsSettled};

use crate::committed::{LONGEST_WRITE, committed_len};
use crate::device::{Device, DeviceError};

const MAX_BYTES: usize = 1 << 60;

/// A file whose committed lines end at `end`, and which has room for `room` bytes after them. Room is made for `spare`
/// bytes more than are needed.
#[derive(Drop)]
pub struct CommittedLines<D: Device> {
    pub device: D,
    pub end: usize,
    pub room: usize,
    pub spare: usize,
}

impl<D: Device> CommittedLines<D> {
    /// A journal over a file of whole lines, which is on the disk.
    pub fn new(device: D, end: usize, spare: usize) -> CommittedLines<D>
        requires text { D.seen device ≡ committed (D.seen device) }
        requires end { end ≡ length (D.seen device) }
        requires fits { end ≤ 2 ^ 62 }
        requires some { 0 < spare }
        requires spare { spare ≤ 2 ^ 60 }
        requires durable { IsOnlyOutcome (D.seen device) (D.may_leave device) }
        ensures settled { IsSettled D.seen D.may_leave result }
        ensures device { result.device ≡ device }
    {
        CommittedLines {
            device,
            end,
            room: 0,
            spare,
        }
    }

    /// Adds whole lines, none of them of `LONGEST_WRITE` bytes or more. At `Ok` they are committed: from then on each
    /// crash leaves a file that has them. At `Err`, open the file again.
    pub fn commit(&mut self, lines: &[u8]) -> Result<(), DeviceError>
        requires settled { IsSettled D.seen D.may_leave self.old }
        requires short { HasShortLines lines.now }

        ensures settled { OnOk result (IsSettled D.seen D.may_leave self.new) }
        ensures committed { OnOk result
            (committed (D.seen self.new.device) ≡ committed (D.seen self.old.device) ++ lines.now) }

        // A crash at any moment of the call leaves the lines from before it, and the first of the new ones.
        ensures any_moment { LeavesOnly D.moment D.left_since self.old.device self.new.device
            (IsBegun (committed (D.seen self.old.device)) lines.now) }

        // So it is over a whole session: since any earlier moment, after which these lines were committed, a crash
        // leaves the text of that moment, and the first of all the lines that came since.
        ensures session { (since : D) (text before : List ℕ) → committed (D.seen self.old.device) ≡ text ++ before
            → committed before ≡ before
            → LeavesOnly D.moment D.left_since since self.old.device (IsBegun text before)
            → LeavesOnly D.moment D.left_since since self.new.device (IsBegun text (before ++ lines.now)) }

        // It doesn't give up by itself.
        ensures aside { D.aside self.new.device ≡ D.aside self.old.device }
        ensures causes { D.faults self.old.device ≤ D.faults self.new.device }
        ensures failed { IsErrOf result DeviceError.Failed → D.faults self.old.device < D.faults self.new.device }
        ensures changed { IsErrOf result DeviceError.Changed → D.faults self.old.device < D.faults self.new.device }
        ensures full { IsErrOf result DeviceError.Full → 2 ^ 60 < self.old.end + length lines.now }
    {
        self.add(lines)
    }

    /// Makes room, and adds whole lines.
    fn add(&mut self, lines: &[u8]) -> Result<(), DeviceError>
        requires settled { IsSettled D.seen D.may_leave self.old }
        requires short { HasShortLines lines.now }

        ensures settled { OnOk result (IsSettled D.seen D.may_leave self.new) }
        ensures committed { OnOk result
            (committed (D.seen self.new.device) ≡ committed (D.seen self.old.device) ++ lines.now) }

        // A crash at any moment of the call leaves the lines from before it, and the first of the new ones.
        ensures any_moment { LeavesOnly D.moment D.left_since self.old.device self.new.device
            (IsBegun (committed (D.seen self.old.device)) lines.now) }

        // It doesn't give up by itself.
        ensures aside { D.aside self.new.device ≡ D.aside self.old.device }
        ensures causes { D.faults self.old.device ≤ D.faults self.new.device }
        ensures failed { IsErrOf result DeviceError.Failed → D.faults self.old.device < D.faults self.new.device }
        ensures changed { IsErrOf result DeviceError.Changed → D.faults self.old.device < D.faults self.new.device }
        ensures full { IsErrOf result DeviceError.Full → 2 ^ 60 < self.old.end + length lines.now }
    {
        self.make_room(lines.len())?;
        self.put_all(lines)
    }

    /// Makes room for more than `count` bytes: after a line that a crash tears there is a NUL.
    fn make_room(&mut self, count: usize) -> Result<(), DeviceError>
        requires { IsSettled D.seen D.may_leave self.old }
        ensures room { OnOk result (count < self.new.room) }
        ensures settled { OnOk result (IsSettled D.seen D.may_leave self.new) }
        ensures same { OnOk result (committed (D.seen self.new.device) ≡ committed (D.seen self.old.device)) }
        ensures any_moment { LeavesOnly D.moment D.left_since self.old.device self.new.device
            (Means (committed (D.seen self.old.device))) }
        ensures aside { D.aside self.new.device ≡ D.aside self.old.device }
        ensures causes { D.faults self.old.device ≤ D.faults self.new.device }
        ensures failed { IsErrOf result DeviceError.Failed → D.faults self.old.device < D.faults self.new.device }
        ensures changed { IsErrOf result DeviceError.Changed → D.faults self.old.device < D.faults self.new.device }
        ensures full { IsErrOf result DeviceError.Full → 2 ^ 60 < self.old.end + count }
    {
        if count < self.room {
            return Ok(());
        }
        if count > MAX_BYTES || self.end > MAX_BYTES - count {
            return Err(DeviceError::Full);
        }
        let room = count + self.spare;
        self.device.resize(self.end + room)?;
        self.device.sync()?;
        self.room = room;
        Ok(())
    }

    /// Writes whole lines over the room, as many at a time as one write may have.
    fn put_all(&mut self, lines: &[u8]) -> Result<(), DeviceError>
        requires settled { IsSettled D.seen D.may_leave self.old }
        requires short { HasShortLines lines.now }
        requires room { length lines.now < self.old.room }
        ensures settled { OnOk result (IsSettled D.seen D.may_leave self.new) }
        ensures committed { OnOk result
            (committed (D.seen self.new.device) ≡ committed (D.seen self.old.device) ++ lines.now) }
        ensures any_moment { LeavesOnly D.moment D.left_since self.old.device self.new.device
            (IsBegun (committed (D.seen self.old.device)) lines.now) }
        ensures aside { D.aside self.new.device ≡ D.aside self.old.device }
        ensures cause { HasCause (D.faults self.old.device) (D.faults self.new.device) result }
    {
        let mut rest = lines;
        'pieces: while !rest.is_empty() {
            let (piece, more) = rest.split_at(piece_len(rest));
            self.put(piece)?;
            rest = more;
        }
        Ok(())
    }

    /// Writes whole lines over the room, no more than one write may have.
    fn put(&mut self, lines: &[u8]) -> Result<(), DeviceError>
        requires settled { IsSettled D.seen D.may_leave self.old }
        requires whole { committed lines.now ≡ lines.now }
        requires few { length lines.now ≤ LONGEST_WRITE }
        requires room { length lines.now < self.old.room }
        ensures settled { OnOk result (IsSettled D.seen D.may_leave self.new) }
        ensures room { OnOk result (self.new.room + length lines.now ≡ self.old.room) }
        ensures committed { OnOk result
            (committed (D.seen self.new.device) ≡ committed (D.seen self.old.device) ++ lines.now) }
        ensures any_moment { LeavesOnly D.moment D.left_since self.old.device self.new.device
            (IsBegun (committed (D.seen self.old.device)) lines.now) }
        ensures aside { D.aside self.new.device ≡ D.aside self.old.device }
        ensures cause { HasCause (D.faults self.old.device) (D.faults self.new.device) result }
    {
        self.device.write_at(self.end, lines)?;
        self.device.sync()?;
        self.end += lines.len();
        self.room -= lines.len();
        Ok(())
    }

    /// Cuts the room off: the file is then a text of the lines, and no more.
    pub fn close(&mut self) -> Result<(), DeviceError>
        requires { IsSettled D.seen D.may_leave self.old }
        ensures settled { OnOk result (IsSettled D.seen D.may_leave self.new) }
        ensures text { OnOk result (D.seen self.new.device ≡ committed (D.seen self.old.device)) }

        // A crash at any moment of the call leaves the lines from before it.
        ensures any_moment { LeavesOnly D.moment D.left_since self.old.device self.new.device
            (Means (committed (D.seen self.old.device))) }

        // Over a whole session, as `commit`.
        ensures session { (since : D) (text before : List ℕ) → committed (D.seen self.old.device) ≡ text ++ before
            → committed before ≡ before
            → LeavesOnly D.moment D.left_since since self.old.device (IsBegun text before)
            → LeavesOnly D.moment D.left_since since self.new.device (IsBegun text before) }

        ensures aside { D.aside self.new.device ≡ D.aside self.old.device }
        ensures cause { HasCause (D.faults self.old.device) (D.faults self.new.device) result }
    {
        self.cut()
    }

    /// Cuts the room off.
    fn cut(&mut self) -> Result<(), DeviceError>
        requires { IsSettled D.seen D.may_leave self.old }
        ensures settled { OnOk result (IsSettled D.seen D.may_leave self.new) }
        ensures text { OnOk result (D.seen self.new.device ≡ committed (D.seen self.old.device)) }
        ensures any_moment { LeavesOnly D.moment D.left_since self.old.device self.new.device
            (Means (committed (D.seen self.old.device))) }
        ensures aside { D.aside self.new.device ≡ D.aside self.old.device }
        ensures cause { HasCause (D.faults self.old.device) (D.faults self.new.device) result }
    {
        self.device.resize(self.end)?;
        self.device.sync()?;
        self.room = 0;
        Ok(())
    }
}

/// How many bytes the whole lines have that one write may have, from the first on.
fn piece_len(lines: &[u8]) -> usize
    ensures { result ≡ length (committed (take LONGEST_WRITE lines.now)) }
{
    let (front, _) = lines.split_at(lines.len().min(LONGEST_WRITE));
    committed_len(front)
}

/// Cuts a file that a crash may have left, as it was read, after its last whole line, where its lines end. What was
/// read may be a copy of the kernel's that never came to the disk, so the lines are written over themselves first. It
/// may crash too.
pub fn recover<D: Device>(device: &mut D, bytes: &[u8], end: usize) -> Result<(), DeviceError>
    requires read { bytes.now ≡ D.seen device.old }
    requires end { end ≡ length (committed (D.seen device.old)) }
    requires torn { HasTornEnd (D.seen device.old) }

    ensures file { OnOk result (D.seen device.new ≡ committed (D.seen device.old)) }
    ensures same { OnOk result (committed (D.seen device.new) ≡ committed (D.seen device.old)) }
    ensures durable { OnOk result (IsOnlyOutcome (D.seen device.new) (D.may_leave device.new)) }
    ensures aside { D.aside device.new ≡ D.aside device.old }

    // Where what was read is on the disk, a crash at any moment leaves the same lines.
    ensures any_moment { IsOnlyOutcome (D.seen device.old) (D.may_leave device.old)
        → LeavesOnly D.moment D.left_since device.old device.new (Means (committed (D.seen device.old))) }

    // Over a whole session, as `commit`: a session goes on from what an earlier one left.
    ensures session { IsOnlyOutcome (D.seen device.old) (D.may_leave device.old)
        → (since : D) (text before : List ℕ) → committed (D.seen device.old) ≡ text ++ before
        → committed before ≡ before
        → LeavesOnly D.moment D.left_since since device.old (IsBegun text before)
        → LeavesOnly D.moment D.left_since since device.new (IsBegun text before) }

    ensures cause { HasCause (D.faults device.old) (D.faults device.new) result }
{
    repair(device, bytes, end)
}

/// Writes the lines of a file over themselves, as they were read.
fn settle<D: Device>(device: &mut D, bytes: &[u8], end: usize) -> Result<(), DeviceError>
    requires read { bytes.now ≡ D.seen device.old }
    requires end { end ≡ length (committed (D.seen device.old)) }
    ensures seen { OnOk result (D.seen device.new ≡ D.seen device.old) }
    ensures durable { OnOk result (IsOnlyOutcome (D.seen device.new) (D.may_leave device.new)) }
    ensures aside { D.aside device.new ≡ D.aside device.old }
    ensures any_moment { IsOnlyOutcome (D.seen device.old) (D.may_leave device.old)
        → LeavesOnly D.moment D.left_since device.old device.new (λ c. c ≡ D.seen device.old) }
    ensures cause { HasCause (D.faults device.old) (D.faults device.new) result }
{
    let (lines, _) = bytes.split_at(end);
    device.write_at(0, lines)?;
    device.sync()?;
    Ok(())
}

/// Cuts a file after its last whole line, where its lines end.
fn cut<D: Device>(device: &mut D, end: usize) -> Result<(), DeviceError>
    requires end { end ≡ length (committed (D.seen device.old)) }
    requires torn { HasTornEnd (D.seen device.old) }
    requires durable { IsOnlyOutcome (D.seen device.old) (D.may_leave device.old) }
    ensures file { OnOk result (D.seen device.new ≡ committed (D.seen device.old)) }
    ensures same { OnOk result (committed (D.seen device.new) ≡ committed (D.seen device.old)) }
    ensures durable { OnOk result (IsOnlyOutcome (D.seen device.new) (D.may_leave device.new)) }
    ensures aside { D.aside device.new ≡ D.aside device.old }
    ensures any_moment { LeavesOnly D.moment D.left_since device.old device.new
        (Means (committed (D.seen device.old))) }
    ensures cause { HasCause (D.faults device.old) (D.faults device.new) result }
{
    device.resize(end)?;
    device.sync()?;
    Ok(())
}

/// Has the lines of a file on the disk, and cuts it after them.
fn repair<D: Device>(device: &mut D, bytes: &[u8], end: usize) -> Result<(), DeviceError>
    requires read { bytes.now ≡ D.seen device.old }
    requires end { end ≡ length (committed (D.seen device.old)) }
    requires torn { HasTornEnd (D.seen device.old) }
    ensures file { OnOk result (D.seen device.new ≡ committed (D.seen device.old)) }
    ensures same { OnOk result (committed (D.seen device.new) ≡ committed (D.seen device.old)) }
    ensures durable { OnOk result (IsOnlyOutcome (D.seen device.new) (D.may_leave device.new)) }
    ensures aside { D.aside device.new ≡ D.aside device.old }
    ensures any_moment { IsOnlyOutcome (D.seen device.old) (D.may_leave device.old)
        → LeavesOnly D.moment D.left_since device.old device.new (Means (committed (D.seen device.old))) }
    ensures cause { HasCause (D.faults device.old) (D.faults device.new) result }
{
    settle(device, bytes, end)?;
    cut(device, end)
}
