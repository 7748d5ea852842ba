//! Readers and writers that give and take little at a time, or fail.

ghost use Rattle.std.specs.Prelude.{◌≡◌, ◌<◌, ⊤};

use super::{NoFiles, Printed, served};
use byte_streams::{Failures, FromRead, Reader, SinkFailed, SourceFailed, ToWrite, Writer};
use journal_file::{Opened, Tracked};
use std::io;
use std::io::{ErrorKind, Read, Write};
use std::marker::Brand;
use std::process::Abort;
use std::str::from_utf8;
use std::sync::Wait;
use std::sync::ledger::{Blank, Ledger};
use std::thread::Threads;

pub(super) const INPUT: &str = "0,enter,bid,100,200\n0,enter,ask,60,200\n0,uncross\n0,status,1\n";

pub(super) const LINES: &str = "\
1: entered 1
2: entered 2
3: opening price 200 volume 60 surplus 40 bid trades 1
4: order bid 40 at 200 visible 40
";

const TALLY: &str = "\
entries 4
member 0 calls 4
member 1 calls 0
member 2 calls 0
member 3 calls 0
audit legal
";

const TALLY_AND_HISTORY: &str = "\
entries 4
member 0 calls 4
member 1 calls 0
member 2 calls 0
member 3 calls 0
audit legal
1: member 0 entered 1
2: member 0 entered 2
3: member 0 opening price 200 volume 60 surplus 40 bid trades 1
4: member 0 order bid 40 at 200 visible 40
";

/// The arguments of each kind of run, and what it writes where no device fails.
const RUNS: [(&[&str], &str); 4] = [
    (&["callboard"], LINES),
    (&["callboard", "--history"], LINES),
    (&["callboard", "--floor"], TALLY),
    (&["callboard", "--floor", "--history"], TALLY_AND_HISTORY),
];

/// Gives at most `step` bytes at a time, and fails from the read on that comes after `reads`.
#[derive(Drop)]
struct Giver<'a> {
    rest: &'a [u8],
    step: usize,
    reads: usize,
}

impl Read for Giver<'_> {
    fn read(&mut self, buf: &mut [u8]) -> io::Result<usize> {
        if self.reads == 0 {
            return Err(io::Error::from(ErrorKind::Other));
        }
        self.reads -= 1;
        let count = self.rest.len().min(buf.len()).min(self.step);
        let (front, rest) = self.rest.split_at(count);
        buf[..count].copy_from_slice(front);
        self.rest = rest;
        Ok(count)
    }
}

impl Reader for Giver<'_> {
    ghost read_gives = { λ _ _ _ _. ⊤ };

    fn read_some(&mut self, buffer: &mut [u8]) -> Result<usize, SourceFailed> {
        self.read(buffer).map_err(|_| SourceFailed)
    }
}

/// Takes at most `step` bytes at a time, and from the write on that comes after `writes` takes none,
/// or fails.
#[derive(Drop)]
struct Taker {
    bytes: Vec<u8>,
    step: usize,
    writes: usize,
    fails: bool,
}

impl Write for Taker {
    fn write(&mut self, buf: &[u8]) -> io::Result<usize> {
        if self.writes == 0 {
            if self.fails {
                return Err(io::Error::from(ErrorKind::Other));
            }
            return Ok(0);
        }
        self.writes -= 1;
        let count = buf.len().min(self.step);
        self.bytes.extend_from_slice(&buf[..count])?;
        Ok(count)
    }

    fn flush(&mut self) -> io::Result<()> {
        Ok(())
    }
}

impl Writer for Taker {
    ghost write_takes = { λ _ _ _ _. ⊤ };

    fn write_some(&mut self, bytes: &[u8]) -> Result<usize, SinkFailed> {
        self.write(bytes).map_err(|_| SinkFailed)
    }
}

fn printed_by<I: Ledger, O: Ledger, T: AllocGlobal + Wait + Threads + Sync>(
    rt: &T,
    blanks: (Blank, Blank),
    arguments: &[&str],
    giver: Giver<'_>,
    taker: Taker,
) -> Printed
    requires input_name { blanks.0.name ≡ I.name }
    requires input_parts { blanks.0.parts ≡ I.parts }
    requires input_backed { 0 < I.parts }
    requires output_name { blanks.1.name ≡ O.name }
    requires output_parts { blanks.1.parts ≡ O.parts }
    requires output_backed { 0 < O.parts }
{
    let reader = FromRead {
        reader: giver,
        failures: Failures::<I>::new(blanks.0),
    };
    let mut out = ToWrite {
        writer: taker,
        failures: Failures::<O>::new(blanks.1),
    };
    let (status, err) = served::<_, _, Brand, Tracked<Opened<'_>>, NoFiles, T>(
        rt,
        Blank::new(1),
        arguments,
        reader,
        &mut out,
        NoFiles,
    );
    let ToWrite {
        writer,
        failures: _,
    } = out;
    Printed {
        status,
        out: writer.bytes,
        err,
    }
}

/// A run that reads `reads` times and writes `writes` times, `step` bytes at a time.
pub(super) fn run_devices<T: AllocGlobal + Wait + Threads + Sync>(
    rt: &T,
    arguments: &[&str],
    step: usize,
    reads: usize,
    writes: usize,
    fails: bool,
) -> Printed {
    let giver = Giver {
        rest: INPUT.as_bytes(),
        step,
        reads,
    };
    let taker = Taker {
        bytes: Vec::new(rt.alloc()),
        step,
        writes,
        fails,
    };
    let blanks = (Blank::new(1), Blank::new(1));
    printed_by::<Brand, Brand, T>(rt, blanks, arguments, giver, taker)
}

/// What a failing device ends with: status 3, this line, and as much of the output as was taken.
pub(super) fn ends_with<T: Abort>(rt: &T, written: &Printed, line: &str, taken: Option<&[u8]>) {
    assert_eq!(rt; written.status, 3);
    assert_eq!(rt; from_utf8(written.err.as_slice()).unwrap_or("?"), line);
    assert!(rt; Some(written.out.as_slice()) == taken);
}

#[test]
fn one_byte_at_a_time_is_enough(rt: HostRuntime) {
    for (arguments, out) in RUNS {
        let written = run_devices(&rt, arguments, 1, 10_000, 10_000, true);
        assert_eq!(rt; written.status, 0);
        assert_eq!(rt; from_utf8(written.out.as_slice()).unwrap_or("?"), out);
        assert!(rt; written.err.is_empty());
    }
}

#[test]
fn a_device_that_fails_stops_the_run(rt: HostRuntime) {
    for (arguments, out) in RUNS {
        for reads in 0..=INPUT.len().div_ceil(8) {
            let written = run_devices(&rt, arguments, 8, reads, 10_000, true);
            ends_with(&rt, &written, "read failed\n", Some(&[]));
        }
        for writes in 0..out.len().div_ceil(8) {
            let taken = out.as_bytes().get(..writes.saturating_mul(8));
            for fails in [true, false] {
                let written = run_devices(&rt, arguments, 8, 10_000, writes, fails);
                ends_with(&rt, &written, "write failed\n", taken);
            }
        }
    }
}
