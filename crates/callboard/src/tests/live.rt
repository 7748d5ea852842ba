//! The program as it answers each record of its input.

use super::devices::{INPUT, LINES, ends_with, run_devices};
use super::{Row, SHOWN, each_gives};
use std::process::Abort;
use std::sync::Wait;
use std::thread::Threads;

pub(super) const LIVE: &[&str] = &["callboard", "--live"];

/// What is given beside `--live` and doesn't go with it.
const MIXED: [&[&str]; 5] = [
    &["callboard", "--live", "--floor"],
    &["callboard", "--history", "--live"],
    &["callboard", "--live", "--audit"],
    &["callboard", "--live", "--print", "journal"],
    &["callboard", "--print=book", "--live"],
];

const ROWS: &[Row] = &[
    (LIVE, b"", "", "", 0),
    (
        &["callboard", "--live", "--print=lines"],
        b"1,ask\n",
        SHOWN,
        "",
        0,
    ),
    (
        LIVE,
        b"1,enter,bid,500,200\n1,sell\n2,enter,ask,300,199\r\n\n0,uncross\n",
        "1: entered 1\nrecord 2: bad command\n2: entered 2\n\
        3: opening price 200 volume 300 surplus 200 bid trades 1\n",
        "",
        1,
    ),
    (
        LIVE,
        b"1,ask\n0,uncross",
        "1: no price bid - ask -\nrecord 2: cut off\n",
        "",
        1,
    ),
    (
        LIVE,
        b"1,\"ask\n1,ask\n\"1\",\"ask\"\n",
        "record 1: quote not closed\n1: no price bid - ask -\n2: no price bid - ask -\n",
        "",
        1,
    ),
    (
        &["callboard", "--live", "--calls", "1", "--reserve=0"],
        b"1,sell\n1,ask\n1,ask\n1,sell\n",
        "record 1: bad command\n1: no price bid - ask -\n\
        record 3: too many commands\nrecord 4: too many commands\n",
        "",
        1,
    ),
    (
        LIVE,
        b"day,1,1000,200,4,4096,65536,\n1,ask,no price bid - ask -\n",
        "record 1: bad member\nrecord 2: wrong number of fields\n",
        "",
        1,
    ),
    (
        &["callboard", "--live", "--calls", "3", "--reserve", "2"],
        b"1,ask\n1,ask\n0,ask\n2,ask\n0,uncross\n0,ask\n",
        "1: no price bid - ask -\nrecord 2: calls are reserved for the operator\n\
        2: no price bid - ask -\nrecord 4: calls are reserved for the operator\n\
        3: opening no price\nrecord 6: too many commands\n",
        "",
        1,
    ),
    (
        &["callboard", "--live", "--calls", "17"],
        b"1,ask\n1,ask\n0,ask\n",
        "1: no price bid - ask -\nrecord 2: calls are reserved for the operator\n\
        2: no price bid - ask -\n",
        "",
        1,
    ),
    (
        &["callboard", "--live", "--low", "2", "--high", "1"],
        b"1,sell\n",
        "",
        "bad bounds\nlow 2 is above high 1\n",
        2,
    ),
];

#[test]
fn records_are_answered_one_by_one(rt: HostRuntime) {
    each_gives(&rt, ROWS);
}

#[test]
fn live_goes_with_lines_alone(rt: HostRuntime) {
    let line = "--live prints lines, without --floor, --history or --audit\n";
    for arguments in MIXED {
        each_gives(&rt, &[(arguments, b"1,ask\n", "", line, 2)]);
    }
    let alone = &["callboard", "--reserve", "16"];
    each_gives(
        &rt,
        &[(
            alone,
            b"1,ask\n",
            "",
            "--reserve, --journal and --sync go with --live\n",
            2,
        )],
    );
}

/// The lines of the records that are complete in the first `bytes` bytes of the input.
fn lines_within(bytes: usize) -> Option<&'static [u8]> {
    let whole = INPUT
        .bytes()
        .take(bytes)
        .filter(|byte| *byte == b'\n')
        .count();
    let mut length = 0usize;
    for line in LINES.lines().take(whole) {
        length = length.saturating_add(line.len()).saturating_add(1);
    }
    LINES.as_bytes().get(..length)
}

/// What `writes` writes of 8 bytes take, where each line begins with a write of its own.
fn taken_by(writes: usize) -> Option<&'static [u8]> {
    let mut left = writes;
    let mut length = 0usize;
    for line in LINES.lines() {
        let bytes = line.len().saturating_add(1);
        length = length.saturating_add(bytes.min(left.saturating_mul(8)));
        left = left.saturating_sub(bytes.div_ceil(8));
    }
    LINES.as_bytes().get(..length)
}

#[test]
fn a_device_that_fails_ends_a_session_with_all_before_it_answered(rt: HostRuntime) {
    for reads in 0..=INPUT.len().div_ceil(8) {
        let written = run_devices(&rt, LIVE, 8, reads, 10_000, true);
        ends_with(
            &rt,
            &written,
            "read failed\n",
            lines_within(reads.saturating_mul(8)),
        );
    }
    for writes in 0..12 {
        let taken = taken_by(writes);
        for fails in [true, false] {
            let written = run_devices(&rt, LIVE, 8, 10_000, writes, fails);
            ends_with(&rt, &written, "write failed\n", taken);
        }
    }
}

#[test]
fn one_byte_at_a_time_is_answered(rt: HostRuntime) {
    let written = run_devices(&rt, LIVE, 1, 10_000, 10_000, true);
    assert_eq!(rt; written.status, 0);
    assert!(rt; Some(written.out.as_slice()) == Some(LINES.as_bytes()) && written.err.is_empty());
}
