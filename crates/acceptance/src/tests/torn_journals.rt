//! A journal over a disk that tears what wasn't synced.

ghost use Rattle.std.specs.Prelude.{◌≡◌, IfOk, IsTrue, is_ok};
ghost use Rattle.journal_file.specs.Committed.{HasShortLines};
ghost use Rattle.journal_file.specs.Events.{seen_of};

use journal_file::{
    ASIDE, CommittedLines, Device, DeviceError, FOUND, LONGEST_WRITE, RESIZED, RawFault, RawFile,
    Record, SYNCED, Tracked, WRITTEN, committed_len, is_torn_of, recover, torn_len,
};
use std::alloc::{AllocError, Global};
use std::test::Fail;

/// A call that a crash may tear.
#[derive(Drop)]
enum Step {
    Write(usize, Vec<u8>),
    Resize(usize),
}

/// A disk that fails for good after `calls_left` calls.
#[derive(Drop)]
struct Platter {
    alloc: Global,
    bytes: Vec<u8>,
    durable: Vec<u8>,
    pending: Vec<Step>,
    aside: Vec<u8>,
    calls_left: u32,
}

/// That disk as a file, which notes the calls that are made on it.
#[derive(Drop)]
struct Disk {
    platter: Platter,
    calls: Record,
}

/// Which bytes of a write a crash leaves on the disk, by their places in it or by chance.
#[derive(Clone, Copy)]
enum Kept {
    Nothing,
    Everything,
    Before(usize),
    From(usize),
    Half,
    SevenOf8,
    AllBut1Of64,
}

/// How a crash tears.
#[derive(Clone, Copy)]
struct Tear {
    kept: Kept,
    state: u64,
}

/// The ways to tear that are tried, each with a chance of its own.
const WAYS: [Kept; 10] = [
    Kept::Nothing,
    Kept::Everything,
    Kept::Before(5),
    Kept::Before(40),
    Kept::SevenOf8,
    Kept::AllBut1Of64,
    Kept::From(5),
    Kept::Half,
    Kept::Half,
    Kept::Half,
];

impl Tear {
    /// Whether one more byte is on the disk.
    fn takes(&mut self, place: usize) -> bool {
        self.state ^= self.state << 13;
        self.state ^= self.state >> 7;
        self.state ^= self.state << 17;
        match self.kept {
            Kept::Nothing => false,
            Kept::Everything => true,
            Kept::Before(end) => place < end,
            Kept::From(start) => place >= start,
            Kept::Half => self.state % 2 == 0,
            Kept::SevenOf8 => self.state % 8 != 0,
            Kept::AllBut1Of64 => self.state % 64 != 0,
        }
    }
}

/// Puts bytes over others, those that the tear takes.
fn put(into: &mut Vec<u8>, at: usize, bytes: &[u8], tear: &mut Tear) {
    for (place, byte) in bytes.iter().enumerate() {
        let takes = tear.takes(place);
        if let Some(slot) = into.get_mut(at.saturating_add(place)) {
            if takes {
                *slot = *byte;
            }
        }
    }
}

impl Platter {
    /// A disk that has these bytes, and of which a read returns those.
    fn holding(
        alloc: Global,
        durable: &[u8],
        bytes: &[u8],
        calls_left: u32,
    ) -> Result<Platter, AllocError> {
        Ok(Platter {
            alloc,
            bytes: bytes.to_vec(alloc)?,
            durable: durable.to_vec(alloc)?,
            pending: Vec::new(alloc),
            aside: Vec::new(alloc),
            calls_left,
        })
    }

    fn spend(&mut self) -> Result<(), AllocError> {
        self.calls_left = self.calls_left.checked_sub(1).ok_or(AllocError)?;
        Ok(())
    }

    fn write(&mut self, at: usize, bytes: &[u8]) -> Result<(), AllocError> {
        let copy = bytes.to_vec(self.alloc)?;
        self.pending.push(Step::Write(at, copy))?;
        self.spend()?;
        let mut whole = Tear {
            kept: Kept::Everything,
            state: 1,
        };
        put(&mut self.bytes, at, bytes, &mut whole);
        Ok(())
    }

    fn resize(&mut self, len: usize) -> Result<(), AllocError> {
        self.pending.push(Step::Resize(len))?;
        self.spend()?;
        self.bytes.resize(len, 0)?;
        Ok(())
    }

    fn sync(&mut self) -> Result<(), AllocError> {
        self.spend()?;
        self.durable = self.bytes.to_vec(self.alloc)?;
        self.pending.clear();
        Ok(())
    }

    fn keep(&mut self, bytes: &[u8]) -> Result<(), AllocError> {
        self.spend()?;
        self.aside = bytes.to_vec(self.alloc)?;
        Ok(())
    }

    /// What a crash leaves.
    fn crashed(&self, tear: Tear) -> Result<Vec<u8>, AllocError> {
        let mut tear = tear;
        let mut image = self.durable.to_vec(self.alloc)?;
        for step in self.pending.iter() {
            match step {
                Step::Write(at, bytes) => put(&mut image, *at, bytes, &mut tear),
                Step::Resize(len) => {
                    if tear.takes(0) {
                        image.resize(*len, 0)?;
                    } else if tear.takes(9) {
                        let between = image.len() / 2 + *len / 2;
                        image.resize(between, 0)?;
                    }
                }
            }
        }
        Ok(image)
    }
}

/// What a call on a disk reports.
fn as_raw(done: Result<(), AllocError>) -> Result<(), RawFault>
    ensures { is_ok result ≡ is_ok done }
{
    match done {
        Ok(()) => Ok(()),
        Err(_) => Err(RawFault::Failed),
    }
}

impl RawFile for Disk {
    ghost calls = { λ disk. disk.calls.events };

    fn write_all_at(&mut self, at: usize, bytes: &[u8]) -> Result<(), RawFault> {
        let done = self.platter.write(at, bytes);
        self.calls
            .note(&[WRITTEN, at as u64, u64::from(done.is_ok())], bytes);
        as_raw(done)
    }

    fn set_len(&mut self, len: usize) -> Result<(), RawFault> {
        let done = self.platter.resize(len);
        self.calls
            .note(&[RESIZED, len as u64, u64::from(done.is_ok())], &[]);
        as_raw(done)
    }

    fn sync(&mut self) -> Result<(), RawFault> {
        let done = self.platter.sync();
        self.calls.note(&[SYNCED, 0, u64::from(done.is_ok())], &[]);
        as_raw(done)
    }

    fn put_aside(&mut self, bytes: &[u8]) -> Result<u64, RawFault> {
        let done = self.platter.keep(bytes);
        self.calls.note(&[ASIDE, 0, u64::from(done.is_ok())], bytes);
        match done {
            Ok(()) => Ok(1),
            Err(_) => Err(RawFault::Failed),
        }
    }
}

/// A file that holds `durable`, and of which a read returns `bytes`.
fn opened(
    alloc: Global,
    durable: &[u8],
    bytes: &[u8],
    calls: u32,
) -> Result<Tracked<Disk>, AllocError>
    ensures { IfOk result (λ device. seen_of device.file.calls.events ≡ bytes.now) }
{
    let platter = Platter::holding(alloc, durable, bytes, calls)?;
    let mut calls = Record::new();
    calls.note(&[FOUND, 0, 1], bytes);
    Ok(Tracked::over(Disk { platter, calls }))
}

/// What a crash leaves of a file.
fn crashed(device: &Tracked<Disk>, tear: Tear) -> Result<Vec<u8>, AllocError> {
    device.file().platter.crashed(tear)
}

const BATCHES: [&[u8]; 3] = [
    b"day,1,1000,200,4,4096,65536,\n",
    b"1,enter,bid,200,202,entered 1\n2,ask,no price bid 202 ask -\n0,uncross,opening no price\n",
    b"3,delete,1,deleted\n",
];

/// What a run came to: the lines that were answered, and those that were being written.
#[derive(Drop)]
struct Run {
    answered: Vec<u8>,
    in_doubt: Vec<u8>,
    crashed: Vec<u8>,
    done: bool,
}

/// Whether these are whole lines, of which one write can have each.
fn are_short_lines(lines: &[u8]) -> bool
    ensures { IsTrue result → HasShortLines lines.now }
{
    let mut count = 0;
    for byte in lines {
        if *byte == 0 || count + 1 >= LONGEST_WRITE {
            return false;
        }
        count = if *byte == b'\n' { 0 } else { count + 1 };
    }
    count == 0
}

/// Commits all batches over a disk that fails after `calls` calls, and crashes.
fn run_all(alloc: Global, calls: u32, tear: Tear) -> Result<Run, AllocError> {
    let mut answered = Vec::new(alloc);
    let mut device = opened(alloc, &[], &[], calls)?;
    if recover(&mut device, &[], 0).is_err() {
        return Ok(Run {
            answered,
            in_doubt: Vec::new(alloc),
            crashed: crashed(&device, tear)?,
            done: false,
        });
    }
    let mut journal = CommittedLines::new(device, 0, 64);
    for batch in BATCHES.iter() {
        if !are_short_lines(batch) || journal.commit(batch).is_err() {
            return Ok(Run {
                answered,
                in_doubt: batch.to_vec(alloc)?,
                crashed: crashed(&journal.device, tear)?,
                done: false,
            });
        }
        answered.extend_from_slice(batch)?;
    }
    let done = journal.close().is_ok();
    Ok(Run {
        answered,
        in_doubt: Vec::new(alloc),
        crashed: crashed(&journal.device, tear)?,
        done,
    })
}

/// Recovers what a crash left, over a disk that fails after `calls` calls: what it read, and what it leaves.
fn recovered(
    alloc: Global,
    image: &[u8],
    calls: u32,
    tear: Tear,
) -> Result<(Result<(), DeviceError>, Vec<u8>, Vec<u8>), AllocError> {
    let mut device = opened(alloc, image, image, calls)?;
    let mut bytes = image.to_vec(alloc)?;
    let end = committed_len(bytes.as_slice());
    if torn_len(bytes.as_slice(), end) > LONGEST_WRITE {
        return Ok((Err(DeviceError::Full), Vec::new(alloc), Vec::new(alloc)));
    }
    let ended = recover(&mut device, bytes.as_slice(), end);
    bytes.truncate(end);
    let left = crashed(&device, tear)?;
    Ok((ended, bytes, left))
}

/// Whether a text is the answered lines, and then the first of those in doubt.
fn is_begun(text: &[u8], run: &Run) -> bool {
    match text.strip_prefix(run.answered.as_slice()) {
        Some(more) => {
            run.in_doubt.starts_with(more) && (more.is_empty() || more.ends_with(b"\n".as_slice()))
        }
        None => false,
    }
}

#[test]
fn each_crash_leaves_what_was_answered(rt: HostRuntime) -> Result<(), Fail> {
    let alloc = rt.alloc();
    let mut torn_inside = false;
    for calls in 0..16u32 {
        for way in 0..10usize {
            let tear = Tear {
                kept: WAYS[way],
                state: 88_172_645_463_325_252 ^ way as u64,
            };
            let run = run_all(alloc, calls, tear)?;
            let (end, text, left) = recovered(alloc, &run.crashed, 9, tear)?;
            assert_eq!(rt; end, Ok(()));
            assert!(rt; is_begun(&text, &run));
            assert_eq!(rt; left.as_slice(), text.as_slice());
            if text.len() > run.answered.len()
                && text.len() < run.answered.len().saturating_add(run.in_doubt.len())
            {
                torn_inside = true;
            }
            for again in 0..4u32 {
                let (_, _, left) = recovered(alloc, &run.crashed, again, tear)?;
                let (end, same, _) = recovered(alloc, &left, 9, tear)?;
                assert_eq!(rt; end, Ok(()));
                assert_eq!(rt; same.as_slice(), text.as_slice());
            }
        }
    }
    assert!(rt; torn_inside);
    Ok(())
}

#[test]
fn a_day_ends_as_a_text(rt: HostRuntime) -> Result<(), Fail> {
    let alloc = rt.alloc();
    let tear = Tear {
        kept: Kept::Nothing,
        state: 1,
    };
    let run = run_all(alloc, 100, tear)?;
    assert!(rt; run.done);
    assert_eq!(rt; run.crashed.as_slice(), run.answered.as_slice());
    assert_eq!(rt; run.answered.as_slice().len(), 29 + 30 + 29 + 27 + 19);
    Ok(())
}

#[test]
fn a_copy_that_never_came_to_the_disk_is_written_again(rt: HostRuntime) -> Result<(), Fail> {
    let alloc = rt.alloc();
    let (on_disk, read): (&[u8], &[u8]) = (b"one\n\0\0\0\0tw", b"one\ntwo\ntw");
    let mut device = opened(alloc, on_disk, read, 9)?;
    let end = committed_len(read);
    assert_eq!(rt; (end, torn_len(read, end)), (8, 2));
    assert_eq!(rt; recover(&mut device, read, end), Ok(()));
    let tear = Tear {
        kept: Kept::Nothing,
        state: 1,
    };
    let left = crashed(&device, tear)?;
    assert_eq!(rt; left.as_slice(), b"one\ntwo\n".as_slice());
    Ok(())
}

#[test]
fn the_end_is_what_one_torn_write_leaves(rt: HostRuntime) -> Result<(), Fail> {
    let alloc = rt.alloc();
    let mut bytes = b"one\n\0".to_vec(alloc)?;
    bytes.resize(4 + 4_096, b'x')?;
    assert_eq!(rt; torn_len(bytes.as_slice(), 4), 4_096);
    bytes.push(b'\n')?;
    bytes.push(0)?;
    assert_eq!(rt; torn_len(bytes.as_slice(), 4), 4_097);
    assert!(rt; is_torn_of(b"d\0y\0\0\0", b"day\n"));
    assert!(rt; !is_torn_of(b"d\0x\0\0\0", b"day\n"));
    assert!(rt; !is_torn_of(b"day\nd", b"day\n"));
    Ok(())
}
