//! Numbers at the edges of their limits, in calls of an auction.

use super::{order, reply_to};
use auction::{Auction, AuditFinding, OpenFault, audit};
use auction_terms::{Command, Config, Limit, Refusal, Reply, Restriction, Side};
use std::process::Abort;
use std::test::Fail;

const DAY: Config = Config {
    low: 10,
    high: 20,
    reference: 15,
    max_open: 8,
    max_calls: 64,
    range: None,
};

#[test]
fn configs_with_bounds_and_reference(rt: HostRuntime) {
    let bounds = Some(OpenFault::BadBounds);
    let reference = Some(OpenFault::BadReference);
    let rows = [
        (0, 0, 0, bounds),
        (0, 20, 15, bounds),
        (1, 20, 15, None),
        (21, 20, 15, bounds),
        (20, 20, 20, None),
        (1, 65_536, 1, None),
        (1, 65_537, 1, bounds),
        (1, 1_000_000, 1, bounds),
        (1, u32::MAX, 1, bounds),
        (934_464, 1_000_000, 1_000_000, bounds),
        (934_465, 1_000_000, 1_000_000, None),
        (1_000_000, 1_000_000, 1_000_000, None),
        (1_000_000, 1_000_001, 1_000_000, bounds),
        (1_000_001, 1_000_001, 1_000_001, bounds),
        (u32::MAX, u32::MAX, u32::MAX, bounds),
        (u32::MAX, 1, 1, bounds),
        (10, 20, 0, reference),
        (10, 20, 9, reference),
        (10, 20, 10, None),
        (10, 20, 20, None),
        (10, 20, 21, reference),
        (10, 20, u32::MAX, reference),
    ];
    for (low, high, first, fault) in rows {
        let config = Config {
            low,
            high,
            reference: first,
            ..DAY
        };
        let opened = Auction::open(rt.alloc(), config);
        assert!(rt; opened.err() == fault, "{low} {high} {first}");
        let found = audit(rt.alloc(), config, &[]);
        assert!(rt; found == fault.map_or(Ok(AuditFinding::Legal), |fault| Err(fault)));
    }
}

#[test]
fn configs_with_limits(rt: HostRuntime) {
    let limits = Some(OpenFault::BadCapacity);
    let rows = [
        (0, 64, limits),
        (1, 64, None),
        (65_535, 64, None),
        (65_536, 64, None),
        (65_537, 64, limits),
        (u32::MAX, 64, limits),
        (8, 0, limits),
        (8, 1, None),
        (8, 1_048_575, None),
        (8, 1_048_576, None),
        (8, 1_048_577, limits),
        (8, u32::MAX, limits),
        (65_536, 1_048_576, None),
        (0, 0, limits),
    ];
    for (max_open, max_calls, fault) in rows {
        let config = Config {
            max_open,
            max_calls,
            ..DAY
        };
        // A bad reference is found before them, and bad bounds before that. Any range will do.
        let faults = [
            (15, 10, None, fault),
            (15, 10, Some(0), fault),
            (15, 10, Some(u32::MAX), fault),
            (9, 10, None, Some(OpenFault::BadReference)),
            (9, 21, None, Some(OpenFault::BadBounds)),
        ];
        for (reference, low, range, fault) in faults {
            let config = Config {
                reference,
                low,
                range,
                ..config
            };
            let opened = Auction::open(rt.alloc(), config);
            assert!(rt; opened.err() == fault, "{max_open} {max_calls} {reference}");
        }
    }
}

fn entering(limit: Limit, quantity: u64, peak: Option<u64>) -> Command {
    Command::Enter {
        side: Side::Bid,
        limit,
        quantity,
        peak,
        restriction: Restriction::Unrestricted,
    }
}

fn changing(id: u32, limit: Limit, quantity: u64) -> Command {
    Command::Change {
        id,
        limit,
        quantity,
    }
}

/// A command of a member, and the reply to it.
type Row = (u8, Command, Reply);

/// Orders whose numbers have 64 bits: those that would be good in their last 32 bits are bad.
fn wide_orders() -> [Row; 8] {
    let at = Limit::At(15);
    let far = Limit::At(u32::MAX);
    let past = 1u64 << 32;
    [
        (1, entering(at, 5, Some(5)), Reply::Entered { id: 1 }),
        (
            1,
            entering(at, past + 5, None),
            Reply::Refused(Refusal::BadQuantity),
        ),
        (
            1,
            entering(at, u64::MAX, None),
            Reply::Refused(Refusal::BadQuantity),
        ),
        (
            1,
            entering(at, 5, Some(past + 5)),
            Reply::Refused(Refusal::BadPeak),
        ),
        (
            1,
            entering(at, 5, Some(past)),
            Reply::Refused(Refusal::BadPeak),
        ),
        (
            1,
            entering(at, 5, Some(u64::MAX)),
            Reply::Refused(Refusal::BadPeak),
        ),
        (
            1,
            entering(Limit::At(0), 5, None),
            Reply::Refused(Refusal::BadLimit),
        ),
        (1, entering(far, 5, None), Reply::Refused(Refusal::BadLimit)),
    ]
}

/// Changes, numbers of orders and trades, and members that no file has.
fn wide_commands() -> [Row; 10] {
    let at = Limit::At(15);
    let far = Limit::At(u32::MAX);
    let past = 1u64 << 32;
    [
        (
            1,
            changing(1, at, past + 5),
            Reply::Refused(Refusal::BadQuantity),
        ),
        (1, changing(1, far, 5), Reply::Refused(Refusal::BadLimit)),
        (
            1,
            changing(u32::MAX, at, 5),
            Reply::Refused(Refusal::UnknownOrder),
        ),
        (
            1,
            Command::Delete { id: u32::MAX },
            Reply::Refused(Refusal::UnknownOrder),
        ),
        (
            1,
            Command::OrderStatus { id: 0 },
            Reply::Refused(Refusal::UnknownOrder),
        ),
        (
            1,
            Command::ReadTrade { number: u32::MAX },
            Reply::Refused(Refusal::NoSuchTrade),
        ),
        // Any member may call, the last number of all too, but only member 0 may uncross.
        (255, order(Side::Bid, 5, 15), Reply::Entered { id: 2 }),
        (
            255,
            Command::Delete { id: 1 },
            Reply::Refused(Refusal::UnknownOrder),
        ),
        (255, Command::Uncross, Reply::Refused(Refusal::NotOperator)),
        (255, Command::Delete { id: 2 }, Reply::Deleted),
    ]
}

/// Each command gets its reply.
fn answers(rt: &impl Abort, auction: &mut Auction, rows: &[Row]) {
    for (member, command, reply) in rows.iter().copied() {
        assert!(rt; reply_to(auction, member, command) == Some(reply));
    }
}

#[test]
fn numbers_that_no_file_has(rt: HostRuntime) -> Result<(), Fail> {
    let mut auction = Auction::open(rt.alloc(), DAY)?;
    answers(&rt, &mut auction, &wide_orders());
    answers(&rt, &mut auction, &wide_commands());
    assert_eq!(rt; auction.calls(), 18);
    Ok(())
}

/// All of the calls are counted, a refused one too, and then the auction is full.
fn counts(rt: &impl Abort, auction: &mut Auction, max_calls: u32) {
    for before in 0..max_calls {
        assert!(rt; auction.calls() == before && !auction.is_full());
        assert!(rt; reply_to(auction, 1, Command::Uncross).is_some());
    }
    assert!(rt; auction.calls() == max_calls && auction.is_full());
}

#[test]
fn the_last_call(rt: HostRuntime) -> Result<(), Fail> {
    for max_calls in [1, 2, 3] {
        let mut auction = Auction::open(rt.alloc(), Config { max_calls, ..DAY })?;
        counts(&rt, &mut auction, max_calls);
    }
    Ok(())
}
