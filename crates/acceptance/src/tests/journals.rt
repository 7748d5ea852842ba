//! Journals: what they say, their faults, what is printed of a history, and audits.

ghost use Rattle.std.specs.Prelude.{◌≡◌, ◌<◌};

use super::DAY;
use auction::OpenFault;
use auction_terms::{
    AuctionKind, Call, Command, Config, Entry, Limit, Refusal, Reply, Restriction, Side,
};
use byte_streams::{Failures, FromMemory, ToMemory};
use day_audit::{AuditFault, Audited, Counts, audit_journal};
use journal::{DayHeader, Entries, RunInput, keep_entry, print_kept_journal, read_run_input};
use order_file::FileFault;
use printed_lines::{KeptText, Printer};
use std::alloc::Global;
use std::marker::Brand;
use std::str::from_utf8;
use std::sync::ledger::{Blank, Ledger};
use std::test::Fail;

fn given_by(alloc: Global, text: &[u8]) -> Result<RunInput, FileFault> {
    let mut source = FromMemory { rest: text };
    let day = DayHeader {
        config: DAY,
        members: 4,
    };
    read_run_input(alloc, &mut source, day)
}

/// What a text that is a journal gives.
fn journal_in(alloc: Global, text: &[u8]) -> Result<RunInput, FileFault> {
    let _is_journal = Entries::open(alloc, text)?;
    given_by(alloc, text)
}

fn fault_of(alloc: Global, text: &[u8]) -> Option<FileFault> {
    match journal_in(alloc, text) {
        Ok(_) => None,
        Err(fault) => Some(fault),
    }
}

/// The day of a text that is a journal, where its first call and what is recorded as its reply are these.
fn day_before(
    alloc: Global,
    text: &[u8],
    call: Call,
    reply: &[u8],
) -> Result<Option<DayHeader>, FileFault> {
    let mut entries = Entries::open(alloc, text)?;
    let found = entries.next_call()?;
    if found == Some(call) && entries.text() == reply {
        Ok(Some(entries.day()))
    } else {
        Ok(None)
    }
}

/// Whether a text gives this day and these calls.
fn gives(alloc: Global, text: &[u8], day: DayHeader, calls: &[Call]) -> Result<bool, FileFault> {
    let given = given_by(alloc, text)?;
    Ok(given.day == day && given.calls.as_slice() == calls)
}

#[test]
fn journals_are_read(rt: HostRuntime) -> Result<(), Fail> {
    let texts = [
        "day,1,9,5,3,4,9,\n2,ask,price 5\n0,delete,7,\n",
        "day,1,9,5,3,4,9,\r\n2,ask,price 5\r\n0,delete,7,\r\n",
        "\"day\",01,9,\"5\",3,4,9,\n2,\"ask\",\"price 5\"\n0,delete,0007,\"\"",
        "\n\nday,1,9,5,3,4,9,\n\n2,ask,price 5\n0,delete,7,",
    ];
    let first = Call {
        member: 2,
        command: Command::Indicate,
    };
    let second = Call {
        member: 0,
        command: Command::Delete { id: 7 },
    };
    for text in texts {
        let found = day_before(rt.alloc(), text.as_bytes(), first, b"price 5".as_slice())?;
        let day = found.ok_or("another call or reply")?;
        assert!(rt; day.config.high == 9 && day.config.range == None && day.members == 3);
        assert!(rt; gives(rt.alloc(), text.as_bytes(), day, &[first, second])?);
    }
    Ok(())
}

#[test]
fn what_is_no_journal_is_an_order_file(rt: HostRuntime) -> Result<(), Fail> {
    let given = given_by(rt.alloc(), b"3,ask\n0,uncross\n".as_slice())?;
    assert!(rt; given.day.config == DAY);
    assert!(rt; given.day.members == 4);
    assert!(rt; given.calls.len() == 2);
    let nothing = given_by(rt.alloc(), b"".as_slice())?;
    assert!(rt; nothing.calls.is_empty());
    Ok(())
}

#[test]
fn day_records_have_faults(rt: HostRuntime) {
    let count = FileFault::BadCount { number: 1 };
    let rows = [
        ("", FileFault::NotADay),
        ("0,ask\n", FileFault::NotADay),
        ("Day,1,9,5,3,4,9,\n", FileFault::NotADay),
        ("day", count),
        ("day,1,9,5,3,4,9\n", count),
        ("day,1,9,5,3,4,9,,\n", count),
    ];
    for (text, fault) in rows {
        assert!(rt; fault_of(rt.alloc(), text.as_bytes()) == Some(fault));
    }
    let fields = [
        ("day,0,9,5,3,4,9,", 2),
        ("day,1,1000001,5,3,4,9,", 3),
        ("day,1,9,x,3,4,9,", 4),
        ("day,1,9,5,0,4,9,", 5),
        ("day,1,9,5,65,4,9,", 5),
        ("day,1,9,5,3,65537,9,", 6),
        ("day,1,9,5,3,4,1048577,", 7),
        ("day,1,9,5,3,4,9,1000001", 8),
        ("day,1,9,5,3,4,9,-1", 8),
    ];
    for (text, field) in fields {
        let fault = FileFault::BadField { number: 1, field };
        assert!(rt; fault_of(rt.alloc(), text.as_bytes()) == Some(fault));
    }
}

#[test]
fn records_of_calls_have_faults(rt: HostRuntime) {
    let rows = [
        (
            "day,1,9,5,3,4,9,\n3,ask,\n",
            FileFault::BadMember { number: 2 },
        ),
        ("day,1,9,5,3,4,9,\n2\n", FileFault::BadCommand { number: 2 }),
        (
            "day,1,9,5,3,4,9,\n2,sell,\n",
            FileFault::BadCommand { number: 2 },
        ),
        (
            "day,1,9,5,3,4,9,\n2,ask\n",
            FileFault::BadCount { number: 2 },
        ),
        (
            "day,1,9,5,3,4,9,\n2,ask,,\n",
            FileFault::BadCount { number: 2 },
        ),
        (
            "day,1,9,5,3,4,9,\n2,ask,\n0,enter,bid,100,7\n",
            FileFault::BadCount { number: 3 },
        ),
        (
            "day,1,9,5,3,4,9,\n0,enter,bid,x,7,\x07\n",
            FileFault::BadField {
                number: 2,
                field: 4,
            },
        ),
        (
            "day,1,9,5,3,4,9,\n0,delete,1,\x07\n",
            FileFault::BadField {
                number: 2,
                field: 4,
            },
        ),
        (
            "day,1,9,5,3,4,1,\n0,ask,\n0,bad,\n",
            FileFault::TooManyCommands { number: 3 },
        ),
    ];
    for (text, fault) in rows {
        assert!(rt; fault_of(rt.alloc(), text.as_bytes()) == Some(fault));
    }
}

/// A journal of one call whose recorded reply has `length` bytes.
fn with_reply(alloc: Global, length: usize) -> Result<Option<FileFault>, Fail> {
    let mut text = Vec::new(alloc);
    text.extend_from_slice(b"day,1,9,5,3,4,9,\n0,ask,".as_slice())?;
    for _ in 0..length {
        text.push(b'x')?;
    }
    Ok(fault_of(alloc, text.as_slice()))
}

#[test]
fn replies_have_a_form(rt: HostRuntime) -> Result<(), Fail> {
    let fault = FileFault::BadField {
        number: 2,
        field: 3,
    };
    assert!(rt; with_reply(rt.alloc(), 256)? == None);
    assert!(rt; with_reply(rt.alloc(), 257)? == Some(fault));
    for (byte, found) in [
        (31u8, Some(fault)),
        (32, None),
        (126, None),
        (127, Some(fault)),
    ] {
        let mut text = Vec::new(rt.alloc());
        text.extend_from_slice(b"day,1,9,5,3,4,9,\n0,ask,".as_slice())?;
        text.push(byte)?;
        assert!(rt; fault_of(rt.alloc(), text.as_slice()) == found);
    }
    Ok(())
}

/// What is read of the first bytes of `day,1,9,5,3,4,9,\n0,ask,x\n`: a fault, or how many calls.
fn cut_at(bytes: usize) -> Result<usize, FileFault> {
    match bytes {
        0..=2 => Err(FileFault::NotADay),
        3..=15 => Err(FileFault::BadCount { number: 1 }),
        16 | 17 => Ok(0),
        18..=21 => Err(FileFault::BadCommand { number: 2 }),
        22 => Err(FileFault::BadCount { number: 2 }),
        _ => Ok(1),
    }
}

#[test]
fn a_journal_is_cut(rt: HostRuntime) {
    let text = b"day,1,9,5,3,4,9,\n0,ask,x\n".as_slice();
    for bytes in 0..text.len() + 1 {
        let found = match journal_in(rt.alloc(), &text[..bytes]) {
            Ok(journal) => Ok(journal.calls.len()),
            Err(fault) => Err(fault),
        };
        assert!(rt; found == cut_at(bytes));
    }
}

fn memory<L: Ledger>(alloc: Global, blank: Blank) -> ToMemory<L>
    requires name { blank.name ≡ L.name }
    requires parts { blank.parts ≡ L.parts }
    requires backed { 0 < L.parts }
{
    ToMemory {
        bytes: Vec::new(alloc),
        failures: Failures::<L>::new(blank),
    }
}

fn printed<L: Ledger>(alloc: Global, blank: Blank, day: DayHeader, entries: &[Entry]) -> Vec<u8>
    requires name { blank.name ≡ L.name }
    requires parts { blank.parts ≡ L.parts }
    requires backed { 0 < L.parts }
{
    let mut lines = KeptText::new(alloc);
    for entry in entries {
        let _ = keep_entry(&mut lines, *entry);
    }
    let mut sink = memory::<L>(alloc, blank);
    let mut printer = Printer::new(&mut sink);
    let _ = print_kept_journal(&mut printer, day, &lines);
    let _ = printer.flush();
    sink.bytes
}

fn journal_of(alloc: Global, day: DayHeader, entries: &[Entry]) -> Vec<u8> {
    printed::<Brand>(alloc, Blank::new(1), day, entries)
}

fn entry(member: u8, command: Command, reply: Reply) -> Entry {
    Entry {
        member,
        command,
        reply,
    }
}

fn enter(
    side: Side,
    restriction: Restriction,
    limit: Limit,
    quantity: u64,
    peak: Option<u64>,
) -> Command {
    Command::Enter {
        side,
        restriction,
        limit,
        quantity,
        peak,
    }
}

#[test]
fn enters_are_written(rt: HostRuntime) -> Result<(), Fail> {
    let day = DayHeader {
        config: DAY,
        members: 4,
    };
    let at = Limit::At(202);
    let entries = [
        entry(
            1,
            enter(Side::Bid, Restriction::Unrestricted, at, 200, None),
            Reply::Entered { id: 1 },
        ),
        entry(
            2,
            enter(Side::Ask, Restriction::Unrestricted, at, 200, Some(50)),
            Reply::Entered { id: 2 },
        ),
        entry(
            3,
            enter(Side::Ask, Restriction::OpeningOnly, Limit::Market, 7, None),
            Reply::Entered { id: 3 },
        ),
        entry(
            0,
            enter(Side::Bid, Restriction::ClosingOnly, at, 7, Some(6)),
            Reply::Refused(Refusal::BadLimit),
        ),
    ];
    let wanted = "\
day,1,1000,200,4,4096,65536,
1,enter,bid,200,202,entered 1
2,enter,ask,200,202,50,entered 2
3,enter,ask,7,market,,opening,entered 3
0,enter,bid,7,202,6,closing,refused 2 BadLimit
";
    let text = journal_of(rt.alloc(), day, entries.as_slice());
    assert!(rt; from_utf8(text.as_slice()) == Ok(wanted));
    let journal = journal_in(rt.alloc(), text.as_slice())?;
    assert!(rt; journal.calls.len() == 4);
    assert!(rt; journal.day == day);
    Ok(())
}

#[test]
fn other_commands_are_written(rt: HostRuntime) {
    let day = DayHeader {
        config: Config {
            range: Some(5),
            ..DAY
        },
        members: 1,
    };
    let change = Command::Change {
        id: 1,
        limit: Limit::Market,
        quantity: 9,
    };
    let entries = [
        entry(0, change, Reply::Changed { kept: false }),
        entry(0, Command::Delete { id: 1 }, Reply::Deleted),
        entry(
            0,
            Command::OrderStatus { id: 12 },
            Reply::Refused(Refusal::UnknownOrder),
        ),
        entry(
            0,
            Command::ReadTrade { number: 4 },
            Reply::Refused(Refusal::NoSuchTrade),
        ),
        entry(
            0,
            Command::Uncross,
            Reply::Uncrossed {
                kind: AuctionKind::Opening,
                trades: 0,
                price: None,
            },
        ),
    ];
    let wanted = "\
day,1,1000,200,1,4096,65536,5
0,change,1,9,market,changed moved
0,delete,1,deleted
0,status,12,refused 5 UnknownOrder
0,trade,4,refused 8 NoSuchTrade
0,uncross,opening no price
";
    let text = journal_of(rt.alloc(), day, entries.as_slice());
    assert!(rt; from_utf8(text.as_slice()) == Ok(wanted));
}

/// What an audit comes to, and what it writes.
fn audited<L: Ledger>(
    alloc: Global,
    blank: Blank,
    text: &[u8],
    results: bool,
) -> (Result<Audited, AuditFault>, Vec<u8>)
    requires name { blank.name ≡ L.name }
    requires parts { blank.parts ≡ L.parts }
    requires backed { 0 < L.parts }
{
    let mut source = FromMemory { rest: text };
    let mut sink = memory::<L>(alloc, blank);
    let found = audit_journal(alloc, &mut source, &mut sink, results);
    (found, sink.bytes)
}

fn audit_of(alloc: Global, text: &str) -> (Result<Audited, AuditFault>, Vec<u8>) {
    audited::<Brand>(alloc, Blank::new(1), text.as_bytes(), false)
}

/// The same with the results of the day.
fn results_of(alloc: Global, text: &str) -> (Result<Audited, AuditFault>, Vec<u8>) {
    audited::<Brand>(alloc, Blank::new(1), text.as_bytes(), true)
}

#[test]
fn differences_are_told(rt: HostRuntime) {
    let text = "\
day,1,1000,200,3,4096,65536,
0,enter,bid,100,200,entered 1
1,enter,ask,50,200,entered 9
2,ask,
2,ask,price 200
0,uncross,opening price 200 volume 50 surplus 50 bid trades 1
1,trade,1,trade 1 2 50 at 200
0,status,1,order bid 50 at 200 visible 50 and more
";
    let wanted = "\
2: recorded \"entered 9\", lawful \"entered 2\"
4: recorded \"price 200\", lawful \"price 200 volume 50 surplus 50 bid\"
7: recorded \"order bid 50 at 200 visible 50 and more\", lawful \"order bid 50 at 200 visible 50\"
entries 7
compared 6
unlawful 3
audit bad 1
";
    let counts = Counts {
        entries: 7,
        compared: 6,
        unlawful: 3,
        first_unlawful: Some(1),
    };
    let (found, written) = audit_of(rt.alloc(), text);
    assert!(rt; found == Ok(Audited { counts, behind: 0 }));
    assert!(rt; from_utf8(written.as_slice()) == Ok(wanted));
}

#[test]
fn a_legal_day_is_told(rt: HostRuntime) {
    let text =
        "day,1,1000,200,3,4096,65536,\n0,enter,bid,100,200,entered 1\n1,ask,\n2,uncross,refused 6 NotOperator\n";
    let wanted = "entries 3\ncompared 2\nunlawful 0\naudit legal\n";
    let counts = Counts {
        entries: 3,
        compared: 2,
        unlawful: 0,
        first_unlawful: None,
    };
    let (found, written) = audit_of(rt.alloc(), text);
    assert!(rt; found == Ok(Audited { counts, behind: 0 }));
    assert!(rt; from_utf8(written.as_slice()) == Ok(wanted));
}

#[test]
fn the_whole_lines_of_a_broken_copy(rt: HostRuntime) {
    let rows = [
        (
            "day,1,1000,200,3,4096,65536,\n0,enter,bid,1,200,entered 1\n0,enter,bid,1,200,entered",
            25,
        ),
        (
            "day,1,1000,200,3,4096,65536,\n0,enter,bid,1,200,entered 1\n\0\0\0",
            3,
        ),
        (
            "day,1,1000,200,3,4096,65536,\n0,enter,bid,1,200,entered 1\r\n0,ask\0lost\n",
            11,
        ),
        (
            "day,1,1000,200,3,4096,65536,\n0,enter,bid,1,200,entered 1\n0,enter,bid,1,200,e\r",
            20,
        ),
    ];
    for (text, behind) in rows {
        let counts = Counts {
            entries: 1,
            compared: 1,
            unlawful: 0,
            first_unlawful: None,
        };
        let (found, _) = audit_of(rt.alloc(), text);
        assert!(rt; found == Ok(Audited { counts, behind }));
    }
}

#[test]
fn the_results_of_a_whole_day(rt: HostRuntime) {
    let text = "\
day,1,1000,200,3,4096,65536,5
0,enter,bid,100,206,entered 1
1,enter,ask,50,206,
0,uncross,
0,uncross,
2,uncross,refused 6 NotOperator
0,uncross,
0,uncross,
0,uncross,refused 7 DayOver
";
    let wanted = "\
entries 8
compared 3
unlawful 0
audit legal
3: interrupted price 206 volume 50 surplus 50 bid
4: opening price 206 volume 50 surplus 50 bid trades 1
6: intraday no price
7: closing no price
day over
";
    let (found, written) = results_of(rt.alloc(), text);
    assert!(rt; found.is_ok());
    assert!(rt; from_utf8(written.as_slice()) == Ok(wanted));
}

#[test]
fn the_results_of_a_day_that_goes_on(rt: HostRuntime) {
    let text = "\
day,1,1000,200,3,4096,65536,
0,enter,bid,100,200,entered 1
1,enter,ask,50,200,entered 2
0,uncross,opening price 200 volume 50 surplus 50 bid trades 2
0,uncross,
";
    let wanted = "\
3: recorded \"opening price 200 volume 50 surplus 50 bid trades 2\", \
lawful \"opening price 200 volume 50 surplus 50 bid trades 1\"
entries 4
compared 3
unlawful 1
audit bad 2
3: opening price 200 volume 50 surplus 50 bid trades 1
4: intraday no price
in closing
";
    let (found, written) = results_of(rt.alloc(), text);
    assert!(rt; found.is_ok());
    assert!(rt; from_utf8(written.as_slice()) == Ok(wanted));
}

#[test]
fn what_is_bad_is_not_audited(rt: HostRuntime) {
    let rows = [
        ("", AuditFault::File(FileFault::NotADay)),
        (
            "day,9,1,5,3,4,9,\n3,ask,\n",
            AuditFault::File(FileFault::BadMember { number: 2 }),
        ),
        (
            "day,9,1,5,3,4,9,\n2,ask,\n",
            AuditFault::Open(OpenFault::BadBounds),
        ),
        (
            "day,1,9,10,3,4,9,\n",
            AuditFault::Open(OpenFault::BadReference),
        ),
    ];
    for (text, fault) in rows {
        let (found, written) = audit_of(rt.alloc(), text);
        assert!(rt; found == Err(fault));
        assert!(rt; written.is_empty());
    }
}
