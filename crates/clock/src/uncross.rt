//! Prints what an uncross takes, for each order that it fills.

use crate::commands::{apply, order};
use auction::Auction;
use auction_terms::{Command, Config, MAX_CALLS, MAX_OPEN_ORDERS, Side};
use std::alloc::{AllocError, AllocGlobal};
use std::io::{self, Print};
use std::time::{Clock, Instant};

const CONFIG: Config = Config {
    low: 1,
    high: 1000,
    reference: MIDDLE,
    max_open: MAX_OPEN_ORDERS,
    max_calls: MAX_CALLS,
    range: None,
};

/// The tick that bids begin at, and asks end at.
const MIDDLE: u32 = 500;

/// How many orders each side has.
const PAIRS: u32 = 10_000;

/// How often each book is uncrossed. The least time counts.
const ROUNDS: u32 = 50;

/// The member that enters the orders, and ends the call phase.
const OPERATOR: u8 = 0;

/// Bids and asks that fill each other whole.
#[derive(Clone, Copy)]
struct BookShape {
    name: &'static str,
    /// Over how many ticks the limits of a side lie, 1 to 100.
    ticks: u32,
    /// How many auctions of the same orders come before, whose slots the orders use again.
    before: u32,
}

/// Enters the orders of an auction.
fn fill(auction: &mut Auction, ticks: u32) {
    for k in 0..PAIRS {
        let away = k.wrapping_mul(7919) % ticks.clamp(1, 100);
        let _ = apply(auction, OPERATOR, order(Side::Bid, MIDDLE + away), 0);
        let _ = apply(auction, OPERATOR, order(Side::Ask, MIDDLE - away), 0);
    }
}

/// Has an empty auction with the orders of this book, after the auctions before.
fn begin(auction: &mut Auction, book: BookShape) {
    auction.reset();
    for _ in 0..book.before {
        fill(auction, book.ticks);
        let _ = apply(auction, OPERATOR, Command::Uncross, 0);
    }
    fill(auction, book.ticks);
}

/// Measures one book, and prints nanoseconds for each of its orders.
fn measure<R: Clock + Print + AllocGlobal>(rt: &R, book: BookShape) -> io::Result<()> {
    let mut auction = Auction::open(rt.alloc(), CONFIG).map_err(|_| AllocError)?;
    let mut least = u128::MAX;
    for _ in 0..ROUNDS {
        begin(&mut auction, book);
        let start = Instant::now(rt)?;
        let _ = apply(&mut auction, OPERATOR, Command::Uncross, 0);
        least = least.min(start.elapsed(rt)?.as_nanos());
    }
    let tenths = least.saturating_mul(10) / u128::from(2 * PAIRS);
    let (name, each, tenth) = (book.name, tenths / 10, tenths % 10);
    println!(rt; "{name} {each}.{tenth}")?;
    Ok(())
}

/// The books: one tick, in slots as they come, so that the claims are in rank order as they are found; one tick, in
/// slots that were freed; and limits that lie apart.
const BOOKS: [BookShape; 3] = [
    BookShape {
        name: "in-rank-order",
        ticks: 1,
        before: 0,
    },
    BookShape {
        name: "slots-used-again",
        ticks: 1,
        before: 1,
    },
    BookShape {
        name: "limits-apart",
        ticks: 100,
        before: 0,
    },
];

/// Measures each book.
pub fn measure_uncross<R: Clock + Print + AllocGlobal>(rt: &R) -> io::Result<()> {
    for book in BOOKS {
        measure(rt, book)?;
    }
    Ok(())
}
