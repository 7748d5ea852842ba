//! What is printed in each form, journals in place of order files, and audits.

use super::{PLAIN, Row, each_gives, run};
use std::str::from_utf8;

const JOURNAL: &[&str] = &["callboard", "--print", "journal"];

const LINES: &[&str] = &["callboard", "--print=lines"];

const FLOOR: &[&str] = &["callboard", "--floor"];

const FLOOR_JOURNAL: &[&str] = &["callboard", "--floor", "--print", "journal"];

const TRADES: &[&str] = &["callboard", "--print", "trades"];

const BOOK: &[&str] = &["callboard", "--print=book"];

const FLOOR_TRADES: &[&str] = &["callboard", "--floor", "--print", "trades"];

const FLOOR_BOOK: &[&str] = &["callboard", "--floor", "--print", "book"];

const FLOOR_HISTORY_JOURNAL: &[&str] = &["callboard", "--floor", "--history", "--print", "journal"];

const OTHER_DAY: &[&str] = &["callboard", "--low", "5", "--high", "4", "--members", "1"];

const OTHER_DAY_JOURNAL: &[&str] = &[
    "callboard",
    "--reference",
    "2000",
    "--calls",
    "1",
    "--print",
    "journal",
];

const RANGE_JOURNAL: &[&str] = &[
    "callboard",
    "--low",
    "10",
    "--high",
    "20",
    "--reference",
    "15",
    "--members",
    "2",
    "--open",
    "3",
    "--calls",
    "12",
    "--range",
    "0",
    "--print",
    "journal",
];

/// Each command, in forms that are longer than they need be.
const ORDERS: &[u8] = b"\
1,enter,bid,0100,0200\r
01,enter,ask,60,\"200\",,\r
2,enter,ask,50,0198,10,\r
2,enter,bid,5,199,,closing\r
2,enter,bid,5,199,5,opening\r
1,change,1,90,200\r
2,delete,4\r
1,status,1\r
0,ask\r
0,uncross\r
3,trade,1\r
3,delete,9";

const ORDERS_LINES: &str = "\
1: entered 1
2: entered 2
3: entered 3
4: entered 4
5: entered 5
6: changed kept
7: deleted
8: order bid 90 at 200 visible 90
9: price 200 volume 90 surplus 20 ask
10: opening price 200 volume 90 surplus 20 ask trades 2
11: trade 1 3 50 at 200
12: refused 5 UnknownOrder
";

const ORDERS_JOURNAL: &str = "\
day,1,1000,200,4,4096,65536,
1,enter,bid,100,200,entered 1
1,enter,ask,60,200,entered 2
2,enter,ask,50,198,10,entered 3
2,enter,bid,5,199,,closing,entered 4
2,enter,bid,5,199,5,opening,entered 5
1,change,1,90,200,changed kept
2,delete,4,deleted
1,status,1,order bid 90 at 200 visible 90
0,ask,price 200 volume 90 surplus 20 ask
0,uncross,opening price 200 volume 90 surplus 20 ask trades 2
3,trade,1,trade 1 3 50 at 200
3,delete,9,refused 5 UnknownOrder
";

/// The bid buys of the ask at 198 first, and then of that at 200.
const ORDERS_TRADES: &str = "\
trade,auction,bid,bid_member,ask,ask_member,quantity,tick
1,opening,1,1,3,2,50,200
2,opening,1,1,2,1,40,200
";

/// 200 alone has the most volume; after the opening 20 of the ask are left.
const ORDERS_BOOK: &str = "\
command,auction,limit,bid,ask,demand,supply,volume,surplus,side,best,price
10,opening,market,0,0,,,,,,,
10,opening,200,90,60,90,110,90,20,ask,1,single
10,opening,199,5,0,95,50,50,45,bid,0,
10,opening,198,0,50,95,50,50,45,bid,0,
13,intraday,market,0,0,,,,,,,
13,intraday,200,0,20,0,20,0,20,ask,0,
";

/// The bid would buy of the market ask.
const FLOOR_BOOK_TABLE: &str = "\
command,auction,limit,bid,ask,demand,supply,volume,surplus,side,best,price
3,opening,market,0,3,,,,,,,
3,opening,200,5,0,5,3,3,2,bid,1,single
";

/// The day is over, so nothing is shown at its end.
const CLOSED_BOOK: &str = "\
command,auction,limit,bid,ask,demand,supply,volume,surplus,side,best,price
1,opening,market,0,0,,,,,,,
2,intraday,market,0,0,,,,,,,
3,closing,market,0,0,,,,,,,
";

/// A day of its own, with commands that have replies, none and wrong ones.
const RECORDED: &[u8] = b"\
day,10,20,15,2,3,4,\n\
1,enter,bid,5,16,entered 9\n\
1,ask,\n\
0,uncross,\"opening no price\"\n";

const RECORDED_LINES: &str = "\
1: entered 1
2: no price bid 16 ask -
3: opening no price
";

static ROWS: [Row; 21] = [
    (PLAIN, ORDERS, ORDERS_LINES, "", 0),
    (LINES, ORDERS, ORDERS_LINES, "", 0),
    (JOURNAL, ORDERS, ORDERS_JOURNAL, "", 0),
    (JOURNAL, b"", "day,1,1000,200,4,4096,65536,\n", "", 0),
    (FLOOR_JOURNAL, b"", "day,1,1000,200,4,4096,65536,\n", "", 0),
    (TRADES, ORDERS, ORDERS_TRADES, "", 0),
    (BOOK, ORDERS, ORDERS_BOOK, "", 0),
    (
        FLOOR_TRADES,
        b"1,enter,bid,5,200\n1,ask\n",
        "trade,auction,bid,bid_member,ask,ask_member,quantity,tick\n",
        "",
        0,
    ),
    (
        FLOOR_BOOK,
        b"1,enter,bid,5,200\n1,enter,ask,3,market\n",
        FLOOR_BOOK_TABLE,
        "",
        0,
    ),
    (
        BOOK,
        b"0,uncross\n0,uncross\n0,uncross\n",
        CLOSED_BOOK,
        "",
        0,
    ),
    (
        RANGE_JOURNAL,
        b"0,ask\n",
        "day,10,20,15,2,3,12,0\n0,ask,no price bid - ask -\n",
        "",
        0,
    ),
    (
        FLOOR_HISTORY_JOURNAL,
        b"1,enter,bid,5,0200\n1,ask\n",
        "\
day,1,1000,200,4,4096,65536,
1,enter,bid,5,200,entered 1
1,ask,no price bid 200 ask -
",
        "",
        0,
    ),
    // A journal is run as an order file of its own day.
    (PLAIN, RECORDED, RECORDED_LINES, "", 0),
    (OTHER_DAY, RECORDED, RECORDED_LINES, "", 0),
    (
        OTHER_DAY_JOURNAL,
        RECORDED,
        "\
day,10,20,15,2,3,4,
1,enter,bid,5,16,entered 1
1,ask,no price bid 16 ask -
0,uncross,opening no price
",
        "",
        0,
    ),
    (
        FLOOR,
        b"day,10,20,15,2,3,4,\n1,ask,\n",
        "entries 1\nmember 0 calls 0\nmember 1 calls 1\naudit legal\n",
        "",
        0,
    ),
    (
        FLOOR,
        b"day,10,9,15,2,3,4,\n1,ask,\n",
        "",
        "bad bounds\nlow 10 is above high 9\n",
        2,
    ),
    // A journal's own day is at fault, whatever the options say.
    (
        &["callboard", "--low", "5", "--high", "4"],
        b"day,10,20,25,2,3,4,\n1,ask,\n",
        "",
        "bad reference\nthe reference 25 is outside 10 to 20\n",
        2,
    ),
    (
        JOURNAL,
        b"day,10,20\n",
        "",
        "record 1: wrong number of fields\n",
        1,
    ),
    (
        JOURNAL,
        b"day,10,20,15,0,3,4,\n",
        "",
        "record 1: bad field 5\n",
        1,
    ),
    (
        JOURNAL,
        b"day,10,20,15,2,3,1,\n1,ask,\n1,ask,\n",
        "",
        "record 3: too many commands\n",
        1,
    ),
];

#[test]
fn forms_and_journals(rt: HostRuntime) {
    each_gives(&rt, ROWS.as_slice());
}

const AUDIT: &[&str] = &["callboard", "--audit"];

const RESULTS: &[&str] = &["callboard", "--audit", "--results"];

static AUDITS: [Row; 13] = [
    (
        AUDIT,
        b"day,10,20,15,2,3,4,\n0,enter,bid,5,15,entered 1\n0,enter,bid,5,15,ent",
        "entries 1\ncompared 1\nunlawful 0\naudit legal\nincomplete: 20 bytes follow entry 1\n",
        "",
        5,
    ),
    (
        AUDIT,
        b"day,10,20,15,2,3,4,\n0,enter,bid,5,15,entered 2\n\0\0",
        "\
1: recorded \"entered 2\", lawful \"entered 1\"
entries 1
compared 1
unlawful 1
audit bad 0
incomplete: 2 bytes follow entry 1
",
        "",
        4,
    ),
    (
        AUDIT,
        b"day,10,20,15,2,3,4,\n",
        "entries 0\ncompared 0\nunlawful 0\naudit legal\n",
        "",
        0,
    ),
    (
        AUDIT,
        RECORDED,
        "\
1: recorded \"entered 9\", lawful \"entered 1\"
entries 3
compared 2
unlawful 1
audit bad 0
",
        "",
        4,
    ),
    // It goes on after a difference, and one is no beginning of another.
    (
        AUDIT,
        b"day,10,20,15,2,3,4,\n1,ask,\n1,ask,no\n1,ask,no price bid - ask -\n1,ask,no price bid - ask - \n",
        "\
2: recorded \"no\", lawful \"no price bid - ask -\"
4: recorded \"no price bid - ask - \", lawful \"no price bid - ask -\"
entries 4
compared 3
unlawful 2
audit bad 1
",
        "",
        4,
    ),
    (AUDIT, b"", "", "record 1: not a day record\n", 1),
    (AUDIT, ORDERS, "", "record 1: not a day record\n", 1),
    (
        AUDIT,
        b"day,10,20,15,2,3,4,\n1,ask\n",
        "",
        "record 2: wrong number of fields\n",
        1,
    ),
    (
        AUDIT,
        b"day,10,20,25,2,3,4,\n",
        "",
        "bad reference\nthe reference 25 is outside 10 to 20\n",
        2,
    ),
    (
        AUDIT,
        b"day,20,10,15,2,3,4,\n",
        "",
        "bad bounds\nlow 20 is above high 10\n",
        2,
    ),
    (
        RESULTS,
        b"day,10,20,15,2,3,4,\n",
        "entries 0\ncompared 0\nunlawful 0\naudit legal\nin opening\n",
        "",
        0,
    ),
    // The results are the lawful ones, whatever was recorded; a refused uncross is none.
    (
        RESULTS,
        b"day,10,20,15,2,3,4,\n0,uncross,opening no price\n1,uncross,\n0,uncross,closing no price\n",
        "\
3: recorded \"closing no price\", lawful \"intraday no price\"
entries 3
compared 2
unlawful 1
audit bad 2
1: opening no price
3: intraday no price
in closing
",
        "",
        4,
    ),
    (RESULTS, b"", "", "record 1: not a day record\n", 1),
];

#[test]
fn a_journal_of_each_command(rt: HostRuntime) {
    let journal = ORDERS_JOURNAL.as_bytes();
    let rows = [
        (PLAIN, journal, ORDERS_LINES, "", 0),
        (JOURNAL, journal, ORDERS_JOURNAL, "", 0),
        (TRADES, journal, ORDERS_TRADES, "", 0),
        (BOOK, journal, ORDERS_BOOK, "", 0),
        (
            AUDIT,
            journal,
            "entries 12\ncompared 12\nunlawful 0\naudit legal\n",
            "",
            0,
        ),
    ];
    each_gives(&rt, rows.as_slice());
}

#[test]
fn audits(rt: HostRuntime) {
    each_gives(&rt, AUDITS.as_slice());
}

static BESIDE: [&[&str]; 4] = [
    &["callboard", "--audit", "--floor"],
    &["callboard", "--history", "--audit"],
    &["callboard", "--audit", "--print", "lines"],
    &["callboard", "--print=journal", "--audit", "--floor"],
];

#[test]
fn results_go_with_an_audit(rt: HostRuntime) {
    for arguments in [
        ["callboard", "--results", "--open=5"],
        ["callboard", "--results", "--live"],
    ] {
        let printed = run(&rt, arguments.as_slice(), ORDERS_JOURNAL.as_bytes());
        assert_eq!(rt; printed.status, 2);
        assert!(rt; printed.out.is_empty());
        let text = from_utf8(printed.err.as_slice()).unwrap_or("?");
        assert_eq!(rt; text, "--results goes with --audit\n");
    }
}

#[test]
fn an_audit_stands_alone(rt: HostRuntime) {
    let line = "--audit goes with none of --floor, --history and --print\n";
    for arguments in BESIDE {
        let printed = run(&rt, arguments, ORDERS_JOURNAL.as_bytes());
        assert_eq!(rt; printed.status, 2);
        assert!(rt; printed.out.is_empty());
        assert_eq!(rt; from_utf8(printed.err.as_slice()).unwrap_or("?"), line);
    }
    let printed = run(&rt, &["callboard", "--print", "Lines"], b"");
    assert_eq!(rt; (printed.status, printed.out.is_empty()), (2, true));
    let text = from_utf8(printed.err.as_slice()).unwrap_or("");
    assert!(rt; text.starts_with("error: invalid value 'Lines' for '--print <WHAT>'"));
}
