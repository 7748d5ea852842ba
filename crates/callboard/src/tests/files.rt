//! What is a file, and what is said of a bad one.

use super::{PLAIN, Row, SHOWN, each_gives, gives};
use auction::OpenFault;
use order_file::FileFault;
use printed_lines::Page;
use program_runs::{Fault, put_fault};

static GOOD: [(&str, &str); 12] = [
    ("", ""),
    ("\n\r\n", ""),
    ("1,ask", SHOWN),
    ("1,ask\r\n", SHOWN),
    ("\u{feff}1,ask\n", SHOWN),
    ("\n1,ask\n\n", SHOWN),
    ("1,\"ask\"\n", SHOWN),
    ("01,enter,bid,007,200", "1: entered 1\n"),
    ("1,enter,bid,5,200,", "1: entered 1\n"),
    ("1,enter,bid,5,200,,", "1: entered 1\n"),
    ("1,enter,bid,200,20", "1: entered 1\n"),
    ("1,enter,bid,4294967295,200", "1: refused 1 BadQuantity\n"),
];

static BAD: [(&[u8], &str); 23] = [
    (b"1,ask\n1,enter,bid,abc,200", "record 2: bad field 4\n"),
    (
        b"7,ask",
        "record 1: bad member\nmembers are numbered from 0, and there are 4\n",
    ),
    (
        b"4,ask",
        "record 1: bad member\nmembers are numbered from 0, and there are 4\n",
    ),
    (b"\"\"", "record 1: bad member\n"),
    (b"\xff,ask", "record 1: bad member\n"),
    (
        b"9,nonsense",
        "record 1: bad member\nmembers are numbered from 0, and there are 4\n",
    ),
    (b"1", "record 1: bad command\n"),
    (b"1,\xff", "record 1: bad command\n"),
    (b"1,ASK", "record 1: bad command\nwords are in lower case\n"),
    (b"1,ask,", "record 1: wrong number of fields\n"),
    (b"1,change,1,5", "record 1: wrong number of fields\n"),
    (b"1,enter,bid", "record 1: wrong number of fields\n"),
    (
        b"1,enter,bid,5,200,,,",
        "record 1: wrong number of fields\n",
    ),
    (b"1,enter,bid,4294967296,200", "record 1: bad field 4\n"),
    (b"1,enter,bid,00000000005,200", "record 1: bad field 4\n"),
    (b"1,enter,bid,,200", "record 1: bad field 4\n"),
    (b"1,enter,bid,+5,200", "record 1: bad field 4\n"),
    (
        b"1,enter,bid,5, 200",
        "record 1: bad field 5\na field has no spaces around it\n",
    ),
    (
        b"1,enter,buy,x,200",
        "record 1: bad field 3\na side is bid or ask\n",
    ),
    (b"1,enter,bid,5,200,x", "record 1: bad field 6\n"),
    (b"1,enter,bid,5,200,,intraday", "record 1: bad field 7\n"),
    (b"1,change,x,5,200", "record 1: bad field 3\n"),
    (b"1,delete,", "record 1: bad field 3\n"),
];

#[test]
fn files_that_are_good_and_bad(rt: HostRuntime) {
    for &(input, out) in GOOD.as_slice() {
        gives(&rt, PLAIN, input.as_bytes(), out, "", 0);
    }
    for &(input, err) in BAD.as_slice() {
        gives(&rt, PLAIN, input, "", err, 1);
    }
}

const WHOLE: &[u8] = b"1,ask\n1,enter,bid,12,200\n";

/// Up to which byte the file is cut, and what it gives then. A beginning of the last number is a number too.
static CUTS: [(usize, &str, &str); 7] = [
    (0, "", ""),
    (4, "", "record 1: bad command\n"),
    (6, SHOWN, ""),
    (12, "", "record 2: bad command\n"),
    (20, "", "record 2: wrong number of fields\n"),
    (21, "", "record 2: bad field 5\n"),
    (25, "1: no price bid - ask -\n2: entered 1\n", ""),
];

#[test]
fn a_file_cut_after_each_byte(rt: HostRuntime) {
    for count in 0..=WHOLE.len() {
        let cut = CUTS.iter().copied().find(|cut| count <= cut.0);
        let (_, out, err) = cut.unwrap_or((0, "?", "?"));
        let status = if err.is_empty() { 0 } else { 1 };
        gives(&rt, PLAIN, &WHOLE[..count], out, err, status);
    }
}

const ONE_CALL: &[&str] = &["callboard", "--calls", "1"];

const BAD_BOUNDS: &[&str] = &["callboard", "--low", "5", "--high", "4"];

const MANY_TICKS: &[&str] = &["callboard", "--high", "70000"];

const HIGH_REFERENCE: &[&str] = &["callboard", "--reference", "2000"];

const LOW_REFERENCE: &[&str] = &["callboard", "--low", "300"];

static ROWS: [Row; 10] = [
    (ONE_CALL, b"1,ask\n", SHOWN, "", 0),
    (
        ONE_CALL,
        b"1,ask\nx",
        "",
        "record 2: too many commands\n",
        1,
    ),
    // A fault of the file comes before one of the config.
    (
        BAD_BOUNDS,
        b"",
        "",
        "bad bounds\nlow 5 is above high 4\n",
        2,
    ),
    (BAD_BOUNDS, b"-", "", "record 1: bad member\n", 1),
    (
        MANY_TICKS,
        b"",
        "",
        "bad bounds\nlow 1 to high 70000 are more than 65536 ticks\n",
        2,
    ),
    (MANY_TICKS, b"-", "", "record 1: bad member\n", 1),
    (
        HIGH_REFERENCE,
        b"",
        "",
        "bad reference\nthe reference 2000 is outside 1 to 1000\n",
        2,
    ),
    (HIGH_REFERENCE, b"-", "", "record 1: bad member\n", 1),
    (
        LOW_REFERENCE,
        b"",
        "",
        "bad reference\nthe reference 200 is outside 300 to 1000\n",
        2,
    ),
    (LOW_REFERENCE, b"-", "", "record 1: bad member\n", 1),
];

#[test]
fn limits_and_files(rt: HostRuntime) {
    each_gives(&rt, ROWS.as_slice());
}

#[test]
fn each_fault_has_its_line(rt: HostRuntime) {
    let rows = [
        (Fault::File(FileFault::TooLong), "file too long", 1),
        (
            Fault::File(FileFault::NotADay),
            "record 1: not a day record",
            1,
        ),
        (Fault::File(FileFault::ReadFailed), "read failed", 3),
        (Fault::File(FileFault::NoMemory), "out of memory", 3),
        (Fault::Open(OpenFault::BadCapacity), "bad limits", 2),
        (Fault::Open(OpenFault::NoMemory), "out of memory", 3),
        (Fault::NoMemory, "out of memory", 3),
        (Fault::NotClosed, "floor not closed", 3),
        (Fault::WriteFailed, "write failed", 3),
    ];
    for (fault, text, status) in rows {
        let mut page = Page::new();
        put_fault(&mut page, fault);
        assert_eq!(rt; page.as_slice(), text.as_bytes());
        assert_eq!(rt; fault.status(), status);
    }
}
