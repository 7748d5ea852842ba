//! The order file: what its records say, and its ends.

use auction_terms::{Call, Command, Limit, Restriction, Side};
use byte_streams::{FromMemory, Source, SourceFailed};
use order_file::{FileFault, MAX_BYTES, bytes_of, calls_of_file};
use std::alloc::Global;
use std::test::Fail;

/// The calls of a source that is read to its end.
pub(super) fn read_orders<R: Source>(
    alloc: Global,
    source: &mut R,
    members: u8,
    max_calls: u32,
) -> Result<Vec<Call>, FileFault> {
    let bytes = bytes_of(alloc, source, MAX_BYTES)?;
    calls_of_file(alloc, bytes.as_slice(), members, max_calls)
}

fn read(alloc: Global, text: &[u8]) -> Result<Vec<Call>, FileFault> {
    let mut source = FromMemory { rest: text };
    read_orders(alloc, &mut source, 4, 8)
}

fn call(member: u8, command: Command) -> Call {
    Call { member, command }
}

fn entered(
    side: Side,
    limit: Limit,
    quantity: u64,
    peak: Option<u64>,
    restriction: Restriction,
) -> Command {
    Command::Enter {
        side,
        limit,
        quantity,
        peak,
        restriction,
    }
}

#[test]
fn orders_are_entered(rt: HostRuntime) -> Result<(), Fail> {
    let at = Limit::At(202);
    let rows = [
        (
            "1,enter,bid,200,202",
            entered(Side::Bid, at, 200, None, Restriction::Unrestricted),
        ),
        (
            "1,enter,ask,200,202,",
            entered(Side::Ask, at, 200, None, Restriction::Unrestricted),
        ),
        (
            "1,enter,bid,0007,market,5",
            entered(
                Side::Bid,
                Limit::Market,
                7,
                Some(5),
                Restriction::Unrestricted,
            ),
        ),
        (
            "1,enter,bid,7,202,,",
            entered(Side::Bid, at, 7, None, Restriction::Unrestricted),
        ),
        (
            "1,enter,bid,7,202,,opening",
            entered(Side::Bid, at, 7, None, Restriction::OpeningOnly),
        ),
        (
            "1,enter,\"bid\",7,202,6,closing",
            entered(Side::Bid, at, 7, Some(6), Restriction::ClosingOnly),
        ),
    ];
    for (record, command) in rows {
        let calls = read(rt.alloc(), record.as_bytes())?;
        assert!(rt; calls.as_slice() == [call(1, command)].as_slice());
    }
    Ok(())
}

#[test]
fn each_command_is_read(rt: HostRuntime) -> Result<(), Fail> {
    let text = b"0,change,3,4,market\r\n\n1,delete,9\n1,status,9\n2,trade,0\n3,ask\n0,uncross";
    let calls = read(rt.alloc(), text)?;
    let change = Command::Change {
        id: 3,
        limit: Limit::Market,
        quantity: 4,
    };
    let wanted = [
        call(0, change),
        call(1, Command::Delete { id: 9 }),
        call(1, Command::OrderStatus { id: 9 }),
        call(2, Command::ReadTrade { number: 0 }),
        call(3, Command::Indicate),
        call(0, Command::Uncross),
    ];
    assert!(rt; calls.as_slice() == wanted.as_slice());
    Ok(())
}

/// Bytes that are all the same but for a beginning.
#[derive(Drop)]
struct Long {
    front: &'static [u8],
    byte: u8,
    left: usize,
}

impl Source for Long {
    ghost use Rattle.std.specs.Prelude.{Option, None};

    ghost failures = { λ _. 0 };

    ghost left = { λ _. None };

    fn read(&mut self, buffer: &mut [u8]) -> Result<usize, SourceFailed> {
        if !self.front.is_empty() {
            let count = self.front.len().min(buffer.len());
            let (front, rest) = self.front.split_at(count);
            buffer[..count].copy_from_slice(front);
            self.front = rest;
            return Ok(count);
        }
        let count = self.left.min(buffer.len());
        buffer[..count].fill(self.byte);
        self.left -= count;
        Ok(count)
    }
}

fn read_long(
    alloc: Global,
    front: &'static [u8],
    byte: u8,
    left: usize,
) -> (Option<FileFault>, usize) {
    let mut source = Long { front, byte, left };
    let fault = read_orders(alloc, &mut source, 4, 8).err();
    (fault, source.left)
}

#[test]
fn the_longest_file_is_read(rt: HostRuntime) {
    assert_eq!(rt;
        read_long(rt.alloc(), b"".as_slice(), b'\n', 67_108_864),
        (None, 0)
    );
}

#[test]
fn a_longer_file_is_refused(rt: HostRuntime) {
    let read = read_long(rt.alloc(), b"".as_slice(), b'\n', 67_108_900);
    assert_eq!(rt; read, (Some(FileFault::TooLong), 35));
}

#[test]
fn a_record_of_many_fields_is_refused(rt: HostRuntime) {
    let read = read_long(rt.alloc(), b"1,ask".as_slice(), b',', 1_000_000);
    assert_eq!(rt; read, (Some(FileFault::BadCount { number: 1 }), 0));
}

#[test]
fn members_and_calls_at_their_ends(rt: HostRuntime) {
    let too_many = |number| Some(FileFault::TooManyCommands { number });
    let bad = Some(FileFault::BadMember { number: 1 });
    let rows = [
        ("0,ask", 0, 8, bad),
        ("0,ask", 1, 8, None),
        ("1,ask", 1, 8, bad),
        ("254,ask", 255, 8, None),
        ("255,ask", 255, 8, bad),
        ("256,ask", 255, 8, bad),
        ("", 4, 0, None),
        ("0,ask", 4, 0, too_many(1)),
        ("0,ask\n0,ask", 4, 1, too_many(2)),
        ("0,ask\n0,ask", 4, 2, None),
        ("0,ask\n0,ask", 4, u32::MAX, None),
        // A record that is one too many isn't looked at.
        ("0,ask\nx", 4, 1, too_many(2)),
        ("0,ask\nx", 4, 2, Some(FileFault::BadMember { number: 2 })),
    ];
    for (text, members, max_calls, fault) in rows {
        let mut source = FromMemory {
            rest: text.as_bytes(),
        };
        let read = read_orders(rt.alloc(), &mut source, members, max_calls);
        assert!(rt; read.err() == fault, "{text} {members} {max_calls}");
    }
}
