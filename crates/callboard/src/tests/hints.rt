//! The likely cause of a fault, printed after it.

use super::{PLAIN, Row, each_gives, run};
use std::str::from_utf8;

const AUDIT: &[&str] = &["callboard", "--audit"];

static INPUTS: [Row; 12] = [
    (
        PLAIN,
        b"member,command,side,quantity,limit\n1,ask\n",
        "",
        "record 1: bad member\nthe first record looks like a header: leave it out\n",
        1,
    ),
    (
        AUDIT,
        b"Member,command,side,quantity,limit\n",
        "",
        "record 1: not a day record\nthe first record looks like a header: leave it out\n",
        1,
    ),
    (
        PLAIN,
        b"\xff\xfe1\0,\0",
        "",
        "record 1: bad member\nthe input looks like UTF-16: save it as UTF-8\n",
        1,
    ),
    (
        PLAIN,
        b"\xfe\xff\x001",
        "",
        "record 1: bad member\nthe input looks like UTF-16: save it as UTF-8\n",
        1,
    ),
    (
        PLAIN,
        b"1\0,\0a\0",
        "",
        "record 1: bad member\nthe input looks like UTF-16: save it as UTF-8\n",
        1,
    ),
    (
        PLAIN,
        b"1;enter;bid;5;200\n",
        "",
        "record 1: bad member\nthe input has semicolons: fields are parted by commas\n",
        1,
    ),
    (
        PLAIN,
        b"member;command\n",
        "",
        "record 1: bad member\nthe input has semicolons: fields are parted by commas\n",
        1,
    ),
    (
        PLAIN,
        b"9,ask\n",
        "",
        "record 1: bad member\nmembers are numbered from 0, and there are 4\n",
        1,
    ),
    (PLAIN, b"9;,ask\n", "", "record 1: bad member\n", 1),
    (
        PLAIN,
        b"1,ask\nmember,ask\n",
        "",
        "record 2: bad member\n",
        1,
    ),
    (
        PLAIN,
        b"1,ASK\n",
        "",
        "record 1: bad command\nwords are in lower case\n",
        1,
    ),
    (AUDIT, b"1,ask\n", "", "record 1: not a day record\n", 1),
];

#[test]
fn a_fault_tells_its_cause(rt: HostRuntime) {
    each_gives(&rt, INPUTS.as_slice());
}

#[test]
fn a_file_among_the_arguments_is_told_of(rt: HostRuntime) {
    let rows: [(&[&str], &str); 4] = [
        (&["./callboard", "day.csv"], "day.csv"),
        (&["callboard", "--audit", "days/one"], "days/one"),
        (&["callboard", "--low", "5", "./x"], "./x"),
        (&["callboard", "--floor", "x"], ""),
    ];
    for (arguments, file) in rows {
        let printed = run(&rt, arguments, b"");
        let told = from_utf8(printed.err.as_slice()).unwrap_or("?");
        let cause = "\nreads standard input: callboard < ";
        assert_eq!(rt; printed.status, 2);
        assert!(rt; told.starts_with("error: unexpected argument"));
        assert_eq!(rt; told.contains(cause), !file.is_empty());
        assert!(rt; file.is_empty() || told.trim_end().ends_with(file));
    }
}
