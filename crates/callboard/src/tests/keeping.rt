//! Sessions whose journal is a file in memory.

ghost use Rattle.std.specs.Prelude.{◌≡◌, is_ok};

use super::{Printed, each_gives, run_to_memory};
use journal_file::{
    ASIDE, FOUND, OpenFileFault, RESIZED, RawFault, RawFile, Record, SYNCED, Tracked, WRITTEN,
    committed_len,
};
use program_runs::{OpenedJournal, OpensJournal};
use settings::JournalFile;
use std::alloc::{AllocError, Global};
use std::io;
use std::io::ErrorKind;
use std::marker::Brand;
use std::process::Abort;
use std::str::from_utf8;
use std::sync::Wait;
use std::sync::ledger::Blank;
use std::thread::Threads;

const KEPT: &[&str] = &["callboard", "--live", "--journal", "day.csv"];

const BAD_DAY: &[&str] = &[
    "callboard",
    "--live",
    "--journal",
    "day.csv",
    "--low",
    "5",
    "--high",
    "1",
];

const DAY: &str = "day,1,1000,200,4,4096,65536,\n";

const MANY_CALLS: usize = 1_000;

/// Bytes that belong to somebody else, of which calls fail for good after `calls_left` calls.
#[derive(Drop)]
struct HeldBytes<'a> {
    bytes: &'a mut Vec<u8>,
    calls_left: usize,
}

impl HeldBytes<'_> {
    fn spend(&mut self) -> Result<(), AllocError> {
        self.calls_left = self.calls_left.checked_sub(1).ok_or(AllocError)?;
        Ok(())
    }

    fn write(&mut self, at: usize, bytes: &[u8]) -> Result<(), AllocError> {
        self.spend()?;
        for (place, byte) in bytes.iter().enumerate() {
            if let Some(room) = self.bytes.get_mut(at.saturating_add(place)) {
                *room = *byte;
            }
        }
        Ok(())
    }

    fn resize(&mut self, len: usize) -> Result<(), AllocError> {
        self.spend()?;
        self.bytes.resize(len, 0)?;
        Ok(())
    }
}

/// A file in memory, which notes the calls that are made on it.
#[derive(Drop)]
struct Held<'a> {
    file: HeldBytes<'a>,
    calls: Record,
}

/// What a call on a file reports.
fn as_raw(done: Result<(), AllocError>) -> Result<(), RawFault>
    ensures { is_ok result ≡ is_ok done }
{
    match done {
        Ok(()) => Ok(()),
        Err(_) => Err(RawFault::Failed),
    }
}

impl RawFile for Held<'_> {
    ghost calls = { λ held. held.calls.events };

    fn write_all_at(&mut self, at: usize, bytes: &[u8]) -> Result<(), RawFault> {
        let done = self.file.write(at, bytes);
        self.calls
            .note(&[WRITTEN, at as u64, u64::from(done.is_ok())], bytes);
        as_raw(done)
    }

    fn set_len(&mut self, len: usize) -> Result<(), RawFault> {
        let done = self.file.resize(len);
        self.calls
            .note(&[RESIZED, len as u64, u64::from(done.is_ok())], &[]);
        as_raw(done)
    }

    fn sync(&mut self) -> Result<(), RawFault> {
        let done = self.file.spend();
        self.calls.note(&[SYNCED, 0, u64::from(done.is_ok())], &[]);
        as_raw(done)
    }

    fn put_aside(&mut self, bytes: &[u8]) -> Result<u64, RawFault> {
        let done = self.file.spend();
        self.calls.note(&[ASIDE, 0, u64::from(done.is_ok())], bytes);
        match done {
            Ok(()) => Ok(1),
            Err(_) => Err(RawFault::Failed),
        }
    }
}

impl<'a> OpensJournal<Tracked<Held<'a>>> for HeldBytes<'a> {
    fn open(
        self,
        alloc: Global,
        _file: JournalFile<'_>,
    ) -> Result<OpenedJournal<Tracked<Held<'a>>>, OpenFileFault> {
        let Ok(bytes) = self.bytes.to_vec(alloc) else {
            return Err(OpenFileFault::Failed(io::Error::from(ErrorKind::OutOfMemory)));
        };
        let mut calls = Record::new();
        calls.note(&[FOUND, 0, 1], bytes.as_slice());
        let device = Tracked::over(Held { file: self, calls });
        Ok(OpenedJournal { device, bytes })
    }
}

/// What a session on this file, which fails after `calls_left` calls, comes to.
fn kept_on<T: AllocGlobal + Wait + Threads + Sync>(
    rt: &T,
    arguments: &[&str],
    input: &[u8],
    bytes: &mut Vec<u8>,
    calls_left: usize,
) -> Printed {
    let file = HeldBytes { bytes, calls_left };
    run_to_memory::<Brand, Tracked<Held<'_>>, HeldBytes<'_>, T>(
        rt,
        Blank::new(1),
        arguments,
        input,
        file,
    )
}

/// The arguments of a session, what its file holds, its input, the output, the error and the status that they give, and
/// what the file then holds.
type KeptRow = (
    &'static [&'static str],
    &'static str,
    &'static [u8],
    &'static str,
    &'static str,
    u8,
    &'static str,
);

const BEGUN: &str = "day,1,1000,200,4,4096,65536,\n1,ask,no price bid - ask -\n";

const ROWS: [KeptRow; 13] = [
    (
        KEPT,
        "",
        b"1,ask\n1,sell\n0,uncross\n",
        "1: no price bid - ask -\nrecord 2: bad command\n2: opening no price\n",
        "journal 0 entries\n",
        1,
        "day,1,1000,200,4,4096,65536,\n1,ask,no price bid - ask -\n0,uncross,opening no price\n",
    ),
    (KEPT, "", b"", "", "journal 0 entries\n", 0, DAY),
    (
        KEPT,
        BEGUN,
        b"0,uncross\n",
        "2: opening no price\n",
        "journal 1 entries\n",
        0,
        "day,1,1000,200,4,4096,65536,\n1,ask,no price bid - ask -\n0,uncross,opening no price\n",
    ),
    (
        KEPT,
        "day,1,1000,200,4,4096,65536,\n1,ask,no price bid - ask -\n1,as\0\0no price\n",
        b"0,uncross\n",
        "2: opening no price\n",
        "journal cut off after its last line: 15 bytes, kept in day.csv.cut-1\njournal 1 entries\n",
        0,
        "day,1,1000,200,4,4096,65536,\n1,ask,no price bid - ask -\n0,uncross,opening no price\n",
    ),
    (
        KEPT,
        "a note of one line",
        b"1,ask\n",
        "",
        "journal day.csv: not a journal\n",
        1,
        "a note of one line",
    ),
    (
        KEPT,
        "PK\0\u{3}a spreadsheet\nof two lines\n",
        b"1,ask\n",
        "",
        "journal day.csv: not a journal\n",
        1,
        "PK\0\u{3}a spreadsheet\nof two lines\n",
    ),
    (
        KEPT,
        "some,text\nof two lines\n",
        b"1,ask\n",
        "",
        "journal day.csv: not a journal\n",
        1,
        "some,text\nof two lines\n",
    ),
    (
        KEPT,
        "day,1,1000,200,4,40",
        b"1,ask\n",
        "1: no price bid - ask -\n",
        "journal 0 entries\n",
        0,
        BEGUN,
    ),
    (
        KEPT,
        "day,1,999,200,4,4096,65535,\n\0",
        b"1,ask\n",
        "",
        "journal of another day: high, calls\n",
        2,
        "day,1,999,200,4,4096,65535,\n\0",
    ),
    (
        KEPT,
        "day,1,1000,200,4,4096,65536,\n1,ask,deleted\n1,",
        b"1,ask\n",
        "",
        "journal entry 1: recorded \"deleted\", lawful \"no price bid - ask -\"\n",
        4,
        "day,1,1000,200,4,4096,65536,\n1,ask,deleted\n1,",
    ),
    (
        KEPT,
        "day,1,1000,200,4,4096,65536,\n1,sell\n1,ask,deleted\n",
        b"1,ask\n",
        "",
        "journal record 2: bad command\n",
        1,
        "day,1,1000,200,4,4096,65536,\n1,sell\n1,ask,deleted\n",
    ),
    (
        BAD_DAY,
        "",
        b"1,ask\n",
        "",
        "bad bounds\nlow 5 is above high 1\n",
        2,
        "",
    ),
    (
        BAD_DAY,
        BEGUN,
        b"1,ask\n",
        "",
        "bad bounds\nlow 5 is above high 1\n",
        2,
        BEGUN,
    ),
];

#[test]
fn a_session_is_kept_and_gone_on_with(rt: HostRuntime) -> Result<(), AllocError> {
    for (arguments, before, input, out, err, status, after) in ROWS {
        let mut bytes = before.as_bytes().to_vec(rt.alloc())?;
        let printed = kept_on(&rt, arguments, input, &mut bytes, MANY_CALLS);
        assert_eq!(rt; from_utf8(printed.out.as_slice()).unwrap_or("?"), out);
        assert_eq!(rt; from_utf8(printed.err.as_slice()).unwrap_or("?"), err);
        assert_eq!(rt; printed.status, status);
        assert_eq!(rt; from_utf8(bytes.as_slice()).unwrap_or("?"), after);
    }
    Ok(())
}

#[test]
fn a_file_that_is_not_opened_begins_no_session(rt: HostRuntime) {
    each_gives(&rt, &[(KEPT, b"1,ask\n", "", "journal in use\n", 2)]);
    each_gives(
        &rt,
        &[(
            BAD_DAY,
            b"1,ask\n",
            "",
            "bad bounds\nlow 5 is above high 1\n",
            2,
        )],
    );
}

/// How many lines a text has.
fn lines_of(bytes: &[u8]) -> usize {
    bytes.iter().filter(|byte| **byte == b'\n').count()
}

#[test]
fn what_is_answered_is_in_a_file_that_fails(rt: HostRuntime) -> Result<(), AllocError> {
    let mut failed_inside = false;
    for calls in 0..18 {
        let mut bytes = Vec::new(rt.alloc());
        let printed = kept_on(&rt, KEPT, b"1,ask\n1,ask\n", &mut bytes, calls);
        let end = committed_len(bytes.as_slice());
        let kept = lines_of(bytes.get(..end).unwrap_or(&[]));
        assert!(rt; lines_of(printed.out.as_slice()) < kept.max(1));
        if printed.status == 3 {
            assert!(rt; printed.err.ends_with(b"journal failed\n".as_slice()));
            failed_inside = failed_inside || kept > 1;
        } else {
            assert_eq!(rt; printed.status, 0);
            assert_eq!(rt; (lines_of(printed.out.as_slice()), kept), (2, 3));
        }
        let again = kept_on(&rt, KEPT, b"0,uncross\n", &mut bytes, MANY_CALLS);
        assert_eq!(rt; again.status, 0);
        assert_eq!(rt; lines_of(bytes.as_slice()), kept.max(1).saturating_add(1));
    }
    assert!(rt; failed_inside);
    Ok(())
}

#[test]
fn a_journal_that_is_spoiled_in_the_middle_stays(rt: HostRuntime) -> Result<(), AllocError> {
    let mut bytes = DAY.as_bytes().to_vec(rt.alloc())?;
    for _ in 0..400 {
        bytes.extend_from_slice(b"1,ask,no price bid - ask -\n")?;
    }
    let place = DAY.len() + 200 * 27 + 5;
    if let Some(byte) = bytes.get_mut(place) {
        *byte = 0;
    }
    let before = bytes.to_vec(rt.alloc())?;
    let printed = kept_on(&rt, KEPT, b"1,ask\n", &mut bytes, MANY_CALLS);
    assert_eq!(rt;
        from_utf8(printed.err.as_slice()).unwrap_or("?"),
        "journal record 202: damaged, 5400 bytes follow\n"
    );
    assert_eq!(rt; printed.status, 1);
    assert_eq!(rt; bytes.as_slice(), before.as_slice());
    Ok(())
}
