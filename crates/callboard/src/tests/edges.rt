//! Each limit at its value, one below and one above: in files and on the command line.

use super::{Example, PLAIN, SHOWN, each_gives_its_lines, gives, gives_fault, run};
use std::alloc::{AllocError, Global};
use std::process::Abort;
use std::str::from_utf8;
use std::sync::Wait;
use std::test::Fail;
use std::thread::Threads;

/// The arguments of a board from 10 to 20. Without --members it has members 0 to 3.
const ELEVEN_TICKS: &[&str] = &[
    "callboard",
    "--low",
    "10",
    "--high",
    "20",
    "--reference",
    "15",
];

static EXAMPLES: [Example; 6] = [
    Example {
        name: "terms of an order",
        arguments: ELEVEN_TICKS,
        text: "\
# A quantity is 1 to 1,000,000,000.
1,enter,bid,0,15 -> refused 1 BadQuantity
1,enter,bid,1,15 -> entered 1
1,enter,bid,2,15 -> entered 2
1,enter,ask,999999999,15 -> entered 3
1,enter,ask,1000000000,15 -> entered 4
1,enter,ask,1000000001,15 -> refused 1 BadQuantity
1,enter,ask,4294967295,15 -> refused 1 BadQuantity
# A limit is 10 to 20.
1,enter,bid,5,0 -> refused 2 BadLimit
1,enter,bid,5,1 -> refused 2 BadLimit
1,enter,bid,5,9 -> refused 2 BadLimit
1,enter,bid,5,10 -> entered 5
1,enter,ask,5,11 -> entered 6
1,enter,bid,5,19 -> entered 7
1,enter,ask,5,20 -> entered 8
1,enter,ask,5,21 -> refused 2 BadLimit
1,enter,ask,5,4294967295 -> refused 2 BadLimit
# A peak is 1 to the quantity.
1,enter,bid,5,15,0 -> refused 3 BadPeak
1,enter,bid,5,15,1 -> entered 9
1,enter,bid,5,15,4 -> entered 10
1,enter,bid,5,15,5 -> entered 11
1,enter,bid,5,15,6 -> refused 3 BadPeak
1,enter,bid,5,15,4294967295 -> refused 3 BadPeak
1,enter,bid,1,15,1 -> entered 12
1,enter,bid,1,15,2 -> refused 3 BadPeak
1,enter,bid,1000000000,15,1000000000 -> entered 13
1,enter,bid,1000000000,15,1000000001 -> refused 3 BadPeak
1,status,13 -> order bid 1000000000 at 15 visible 1000000000
1,status,9 -> order bid 5 at 15 visible 1
# The first check that refuses an order is the one that is named.
1,enter,bid,0,9,0 -> refused 1 BadQuantity
1,enter,bid,5,9,0 -> refused 2 BadLimit
",
    },
    Example {
        name: "terms of a change",
        arguments: ELEVEN_TICKS,
        text: "\
1,enter,bid,5,15 -> entered 1
1,change,1,0,15 -> refused 1 BadQuantity
1,change,1,4,15 -> changed kept
1,change,1,1,15 -> changed kept
1,change,1,2,15 -> changed moved
1,change,1,1000000001,15 -> refused 1 BadQuantity
1,change,1,4294967295,15 -> refused 1 BadQuantity
1,change,1,1000000000,15 -> changed moved
1,change,1,1000000000,15 -> changed kept
1,change,1,999999999,15 -> changed kept
1,change,1,5,0 -> refused 2 BadLimit
1,change,1,5,9 -> refused 2 BadLimit
1,change,1,5,10 -> changed moved
1,change,1,5,20 -> changed moved
1,change,1,5,21 -> refused 2 BadLimit
1,change,1,5,4294967295 -> refused 2 BadLimit
# An order that isn't there is looked for after its terms.
1,change,0,0,15 -> refused 1 BadQuantity
1,change,0,5,9 -> refused 2 BadLimit
# The peak stays, though the quantity is smaller now.
1,enter,ask,5,15,5 -> entered 2
1,change,2,1,15 -> changed kept
1,status,2 -> order ask 1 at 15 visible 1
1,change,2,6,15 -> changed moved
1,status,2 -> order ask 6 at 15 visible 5
",
    },
    Example {
        name: "numbers of orders",
        arguments: ELEVEN_TICKS,
        text: "\
# The first order has the number 1, and no order has the number 0.
1,status,0 -> refused 5 UnknownOrder
1,status,1 -> refused 5 UnknownOrder
1,enter,bid,5,15 -> entered 1
1,enter,bid,6,15 -> entered 2
1,enter,bid,7,15 -> entered 3
1,status,0 -> refused 5 UnknownOrder
1,status,1 -> order bid 5 at 15 visible 5
1,status,3 -> order bid 7 at 15 visible 7
1,status,4 -> refused 5 UnknownOrder
1,status,4294967295 -> refused 5 UnknownOrder
1,change,0,5,15 -> refused 5 UnknownOrder
1,change,1,5,15 -> changed kept
1,change,3,7,15 -> changed kept
1,change,4,5,15 -> refused 5 UnknownOrder
1,change,4294967295,5,15 -> refused 5 UnknownOrder
1,delete,0 -> refused 5 UnknownOrder
1,delete,4 -> refused 5 UnknownOrder
1,delete,4294967295 -> refused 5 UnknownOrder
1,delete,3 -> deleted
1,delete,1 -> deleted
1,delete,1 -> refused 5 UnknownOrder
# A number isn't given twice.
1,enter,bid,8,15 -> entered 4
1,status,3 -> refused 5 UnknownOrder
1,status,2 -> order bid 6 at 15 visible 6
1,status,5 -> refused 5 UnknownOrder
",
    },
    Example {
        name: "numbers of trades",
        arguments: ELEVEN_TICKS,
        text: "\
1,trade,0 -> refused 8 NoSuchTrade
1,trade,1 -> refused 8 NoSuchTrade
1,enter,bid,5,15 -> entered 1
2,enter,ask,2,15 -> entered 2
3,enter,ask,3,15 -> entered 3
0,uncross -> opening price 15 volume 5 surplus 0 none trades 2
3,trade,0 -> refused 8 NoSuchTrade
3,trade,1 -> trade 1 2 2 at 15
3,trade,2 -> trade 1 3 3 at 15
3,trade,3 -> refused 8 NoSuchTrade
3,trade,4294967295 -> refused 8 NoSuchTrade
# The count goes on over the auctions of the day, and is kept after it.
1,enter,bid,1,10 -> entered 4
2,enter,ask,1,10 -> entered 5
0,uncross -> intraday price 10 volume 1 surplus 0 none trades 1
3,trade,3 -> trade 4 5 1 at 10
3,trade,4 -> refused 8 NoSuchTrade
0,uncross -> closing no price
3,trade,0 -> refused 8 NoSuchTrade
3,trade,3 -> trade 4 5 1 at 10
3,trade,4 -> refused 8 NoSuchTrade
",
    },
    Example {
        name: "ten digits are a number",
        arguments: &["callboard"],
        text: "\
0000000001,enter,bid,0000000005,0000000200 -> entered 1
0000000001,enter,bid,5,200,0000000000 -> refused 3 BadPeak
1,change,0000000001,0000000004,0000000200 -> changed kept
1,status,0000000001 -> order bid 4 at 200 visible 4
1,trade,0000000000 -> refused 8 NoSuchTrade
1,delete,0000000001 -> deleted
",
    },
    Example {
        name: "a book for one order",
        arguments: &["callboard", "--open", "1"],
        text: "\
1,enter,bid,5,200 -> entered 1
2,enter,ask,5,200 -> refused 4 BookFull
0,ask -> no price bid 200 ask -
1,change,1,6,201 -> changed moved
0,ask -> no price bid 201 ask -
0,uncross -> opening no price
# A full book is the last check of an order.
2,enter,ask,5,200,,opening -> refused 9 PastAuction
2,enter,ask,5,200,6,closing -> refused 3 BadPeak
2,enter,ask,5,200,5,closing -> refused 4 BookFull
1,delete,1 -> deleted
2,enter,ask,5,market -> entered 2
0,ask -> no price bid - ask -
0,uncross -> intraday no price
2,delete,2 -> deleted
1,enter,bid,5,200,,closing -> entered 3
1,enter,bid,5,200 -> refused 4 BookFull
0,uncross -> closing no price
1,status,3 -> refused 5 UnknownOrder
",
    },
];

#[test]
fn each_limit_at_its_ends(rt: HostRuntime) -> Result<(), Fail> {
    each_gives_its_lines(&rt, EXAMPLES.as_slice())
}

/// A reference, a range, a tick at which one bid meets one ask, and whether the uncross is interrupted.
static RANGES: [(&str, &str, &str, bool); 13] = [
    // Up to the range from the reference it goes through, and one tick past it doesn't.
    ("1", "65535", "65536", false),
    ("1", "65534", "65536", true),
    ("65536", "65535", "1", false),
    ("65536", "65534", "1", true),
    ("200", "1", "201", false),
    ("200", "0", "201", true),
    ("201", "1", "200", false),
    ("201", "0", "200", true),
    ("65536", "1", "65535", false),
    ("65536", "0", "65535", true),
    // A price at the reference is in every range.
    ("200", "0", "200", false),
    ("200", "1", "200", false),
    ("200", "1000000", "200", false),
];

#[test]
fn prices_at_the_ends_of_the_range(rt: HostRuntime) -> Result<(), Fail> {
    let alloc = rt.alloc();
    for &(first, range, tick, interrupted) in RANGES.as_slice() {
        let arguments = [
            "callboard",
            "--high",
            "65536",
            "--reference",
            first,
            "--range",
            range,
        ];
        let price = format!(in alloc; "price {tick} volume 1 surplus 0 none")?;
        let (kind, trades) = if interrupted {
            ("interrupted", "")
        } else {
            ("opening", " trades 1")
        };
        let out = format!(in alloc;
            "1: entered 1\n2: entered 2\n3: {price}\n4: {kind} {price}{trades}\n"
        )?;
        let input = format!(in alloc;
            "1,enter,bid,1,{tick}\n2,enter,ask,1,{tick}\n0,ask\n0,uncross\n"
        )?;
        gives(
            &rt,
            arguments.as_slice(),
            input.as_str().as_bytes(),
            out.as_str(),
            "",
            0,
        );
    }
    Ok(())
}

static MEMBERS: [(&str, &str, bool); 11] = [
    ("1", "0,ask", true),
    ("1", "1,ask", false),
    ("2", "1,ask", true),
    ("2", "2,ask", false),
    ("63", "62,ask", true),
    ("63", "63,ask", false),
    ("64", "63,ask", true),
    ("64", "64,ask", false),
    ("64", "256,ask", false),
    ("64", "4294967295,ask", false),
    ("64", "4294967296,ask", false),
];

#[test]
fn members_at_both_ends(rt: HostRuntime) {
    let bad = "record 1: bad member\n";
    for &(members, record, good) in MEMBERS.as_slice() {
        let arguments = ["callboard", "--members", members];
        if good {
            gives(&rt, arguments.as_slice(), record.as_bytes(), SHOWN, "", 0);
        } else {
            gives_fault(&rt, arguments.as_slice(), record.as_bytes(), bad);
        }
    }
}

static PLACES: [(&str, &str, &str); 10] = [
    ("", ",ask", "bad member"),
    ("1,enter,bid,", ",200", "bad field 4"),
    ("1,enter,bid,5,", "", "bad field 5"),
    ("1,enter,bid,5,200,", "", "bad field 6"),
    ("1,change,", ",5,200", "bad field 3"),
    ("1,change,1,", ",200", "bad field 4"),
    ("1,change,1,5,", "", "bad field 5"),
    ("1,delete,", "", "bad field 3"),
    ("1,status,", "", "bad field 3"),
    ("1,trade,", "", "bad field 3"),
];

static LONG_NUMBERS: [&str; 9] = [
    "4294967296",
    "9999999999",
    "00000000000",
    "00000000001",
    "18446744073709551617",
    "-1",
    "1.0",
    "1e1",
    "0x1",
];

#[test]
fn numbers_that_are_too_long(rt: HostRuntime) -> Result<(), Fail> {
    let alloc = rt.alloc();
    for &(front, back, fault) in PLACES.as_slice() {
        for &number in LONG_NUMBERS.as_slice() {
            let input = format!(in alloc; "{front}{number}{back}\n")?;
            let err = format!(in alloc; "record 1: {fault}\n")?;
            gives_fault(&rt, PLAIN, input.as_str().as_bytes(), err.as_str());
        }
    }
    Ok(())
}

/// What is wrong with bounds and a reference.
#[derive(Clone, Copy)]
enum Wrong {
    Nothing,
    Order,
    Ticks,
    Reference,
}

static BOUNDS: [(&str, &str, &str, Wrong); 28] = [
    ("1", "1", "1", Wrong::Nothing),
    ("2", "1", "1", Wrong::Order),
    ("2", "2", "1", Wrong::Reference),
    ("1", "1", "2", Wrong::Reference),
    // There are at most 65,536 ticks.
    ("1", "65535", "65535", Wrong::Nothing),
    ("1", "65536", "65536", Wrong::Nothing),
    ("1", "65536", "65537", Wrong::Reference),
    ("1", "65537", "65537", Wrong::Ticks),
    ("2", "65537", "65537", Wrong::Nothing),
    ("1", "1000000", "1", Wrong::Ticks),
    // They end at 1,000,000.
    ("1000000", "1000000", "1000000", Wrong::Nothing),
    ("1000000", "999999", "1000000", Wrong::Order),
    ("999999", "1000000", "999999", Wrong::Nothing),
    ("999999", "1000000", "999998", Wrong::Reference),
    ("934466", "1000000", "1000000", Wrong::Nothing),
    ("934465", "1000000", "1000000", Wrong::Nothing),
    ("934465", "1000000", "934465", Wrong::Nothing),
    ("934465", "1000000", "934464", Wrong::Reference),
    ("934464", "1000000", "1000000", Wrong::Ticks),
    // The reference lies within them.
    ("10", "20", "9", Wrong::Reference),
    ("10", "20", "10", Wrong::Nothing),
    ("10", "20", "11", Wrong::Nothing),
    ("10", "20", "19", Wrong::Nothing),
    ("10", "20", "20", Wrong::Nothing),
    ("10", "20", "21", Wrong::Reference),
    ("10", "20", "1", Wrong::Reference),
    ("10", "20", "1000000", Wrong::Reference),
    // Bad bounds are found before a bad reference.
    ("20", "10", "15", Wrong::Order),
];

/// What standard error says of these bounds and this reference.
fn told(
    alloc: Global,
    low: &str,
    high: &str,
    reference: &str,
    wrong: Wrong,
) -> Result<String, AllocError> {
    match wrong {
        Wrong::Nothing => Ok(String::new(alloc)),
        Wrong::Order => format!(in alloc; "bad bounds\nlow {low} is above high {high}\n"),
        Wrong::Ticks => {
            format!(in alloc; "bad bounds\nlow {low} to high {high} are more than 65536 ticks\n")
        }
        Wrong::Reference => {
            format!(in alloc;
                "bad reference\nthe reference {reference} is outside {low} to {high}\n"
            )
        }
    }
}

#[test]
fn bounds_and_reference(rt: HostRuntime) -> Result<(), Fail> {
    let alloc = rt.alloc();
    for &(low, high, first, wrong) in BOUNDS.as_slice() {
        let arguments = [
            "callboard",
            "--low",
            low,
            "--high",
            high,
            "--reference",
            first,
        ];
        let err = told(alloc, low, high, first, wrong)?;
        let status = if err.is_empty() { 0 } else { 2 };
        gives(&rt, arguments.as_slice(), b"", "", err.as_str(), status);
    }
    Ok(())
}

static OPTIONS: [(&str, &str, bool); 33] = [
    ("--members", "0", false),
    ("--members", "1", true),
    ("--members", "2", true),
    ("--members", "63", true),
    ("--members", "64", true),
    ("--members", "65", false),
    ("--members", "256", false),
    ("--open", "0", false),
    ("--open", "1", true),
    ("--open", "2", true),
    ("--open", "65535", true),
    ("--open", "65536", true),
    ("--open", "65537", false),
    ("--calls", "0", false),
    ("--calls", "1", true),
    ("--calls", "2", true),
    ("--calls", "1048575", true),
    ("--calls", "1048576", true),
    ("--calls", "1048577", false),
    ("--range", "0", true),
    ("--range", "1", true),
    ("--range", "999999", true),
    ("--range", "1000000", true),
    ("--range", "1000001", false),
    ("--low", "0", false),
    ("--low", "1", true),
    ("--low", "1000001", false),
    ("--high", "0", false),
    ("--high", "1000001", false),
    ("--reference", "0", false),
    ("--reference", "1", true),
    ("--reference", "1000", true),
    ("--reference", "1000001", false),
];

static NAMES: [&str; 7] = [
    "--low",
    "--high",
    "--reference",
    "--members",
    "--open",
    "--calls",
    "--range",
];

static OTHER_WORDS: [&str; 10] = [
    "-1",
    "",
    " 1",
    "1 ",
    "1.0",
    "x",
    "4294967295",
    "4294967296",
    "4294967297",
    "18446744073709551617",
];

/// Whether the program takes these arguments. Where it doesn't, it says so, and reads and prints nothing.
fn takes<T: Abort + AllocGlobal + Wait + Threads + Sync>(rt: &T, arguments: &[&str]) -> bool {
    let printed = run(rt, arguments, b"0,ask");
    let taken = printed.status == 0;
    let (out, status) = if taken { (SHOWN, 0) } else { ("", 2) };
    assert_eq!(rt; from_utf8(printed.out.as_slice()).unwrap_or("?"), out);
    assert_eq!(rt; (printed.status, printed.err.is_empty()), (status, taken));
    taken
}

#[test]
fn options_and_what_they_take(rt: HostRuntime) {
    for &(option, number, good) in OPTIONS.as_slice() {
        let arguments = ["callboard", option, number];
        assert_eq!(rt; takes(&rt, arguments.as_slice()), good, "{option} {number}");
    }
    for &option in NAMES.as_slice() {
        assert!(rt; !takes(&rt, ["callboard", option].as_slice()), "{option}");
        for &number in OTHER_WORDS.as_slice() {
            let arguments = ["callboard", option, number];
            assert!(rt; !takes(&rt, arguments.as_slice()), "{option} '{number}'");
        }
    }
    assert!(rt; !takes(&rt, &["callboard", "--nothing", "1"]));
}

#[test]
fn help_is_printed(rt: HostRuntime) {
    let printed = run(&rt, &["callboard", "--help"], b"x");
    assert_eq!(rt; printed.status, 0);
    assert!(rt; printed.err.is_empty());
    let text = from_utf8(printed.out.as_slice()).unwrap_or("");
    assert!(rt; text.contains("--reference <N>"));
}
