//! The lines of a floor, and a text of many pages.

ghost use Rattle.std.specs.Prelude.{◌≡◌, ◌<◌};

use super::{BEST_BID, bid_entered};
use auction_terms::{Command, Entry, Reply};
use byte_streams::{Failures, ToMemory};
use printed_lines::{Printer, print_history, print_line, print_tally};
use std::alloc::Global;
use std::marker::Brand;
use std::str::from_utf8;
use std::sync::ledger::{Blank, Ledger};
use std::test::Fail;

fn memory<L: Ledger>(alloc: Global, blank: Blank) -> ToMemory<L>
    requires name { blank.name ≡ L.name }
    requires parts { blank.parts ≡ L.parts }
    requires backed { 0 < L.parts }
{
    ToMemory {
        bytes: Vec::new(alloc),
        failures: Failures::<L>::new(blank),
    }
}

/// The tally and the story of a closed floor.
fn floor_text<L: Ledger>(
    alloc: Global,
    blank: Blank,
    entries: &[Entry],
    calls: &[u32],
    first_bad: Option<u64>,
) -> Vec<u8>
    requires name { blank.name ≡ L.name }
    requires parts { blank.parts ≡ L.parts }
    requires backed { 0 < L.parts }
{
    let mut sink = memory::<L>(alloc, blank);
    let mut printer = Printer::new(&mut sink);
    let _ = print_tally(&mut printer, entries.len() as u64, calls, first_bad);
    let _ = print_history(&mut printer, entries);
    let _ = printer.flush();
    sink.bytes
}

/// The text of these entries and counts.
fn text_of(alloc: Global, entries: &[Entry], calls: &[u32], first_bad: Option<u64>) -> Vec<u8> {
    floor_text::<Brand>(alloc, Blank::new(1), entries, calls, first_bad)
}

#[test]
fn floors_are_printed(rt: HostRuntime) {
    let closing_under = Entry {
        member: 1,
        command: Command::Indicate,
        reply: Reply::Indicated(BEST_BID),
    };
    let deleted = Entry {
        member: 1,
        command: Command::Delete { id: 1 },
        reply: Reply::Deleted,
    };
    let text = text_of(
        rt.alloc(),
        &[bid_entered(1), closing_under, deleted],
        &[0, 3, 0, 0],
        None,
    );
    let wanted = "\
entries 3
member 0 calls 0
member 1 calls 3
member 2 calls 0
member 3 calls 0
audit legal
1: member 1 entered 1
2: member 1 no price bid 200 ask -
3: member 1 deleted
";
    assert_eq!(rt; from_utf8(text.as_slice()).unwrap_or("?"), wanted);
    let text = text_of(rt.alloc(), &[], &[0], Some(7));
    let wanted = "entries 0\nmember 0 calls 0\naudit bad 7\n";
    assert_eq!(rt; from_utf8(text.as_slice()).unwrap_or("?"), wanted);
}

/// `count` lines, which are more than a page.
fn many_lines<L: Ledger>(alloc: Global, blank: Blank, count: u64) -> Vec<u8>
    requires name { blank.name ≡ L.name }
    requires parts { blank.parts ≡ L.parts }
    requires backed { 0 < L.parts }
{
    let mut sink = memory::<L>(alloc, blank);
    let mut printer = Printer::new(&mut sink);
    for number in 0..count {
        let _ = print_line(&mut printer, number, &Reply::Deleted);
    }
    let _ = printer.flush();
    sink.bytes
}

#[test]
fn many_lines_go_through_one_page(rt: HostRuntime) -> Result<(), Fail> {
    let text = many_lines::<Brand>(rt.alloc(), Blank::new(1), 5000);
    let mut wanted = String::new(rt.alloc());
    for number in 0..5000u64 {
        wanted.push_str(format!(in rt.alloc(); "{number}: deleted\n")?.as_str())?;
    }
    assert!(rt; text.as_slice() == wanted.as_str().as_bytes());
    Ok(())
}
