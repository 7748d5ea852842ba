//! Days and files whose answers are known, by the public calls of each crate.

use auction::Auction;
use auction_terms::{Command, Config, Display, Entry, Limit, Price, Reply, Restriction, Side};
use left_right::Absorb;
use member_board::{Board, BoardIdentity, CloseFault, Closing, Member, Update, Version, close};
use std::sync::Wait;

mod board;
mod execution;
mod journals;
mod ladder;
mod largest;
mod late_ends;
mod limits;
mod members;
mod one_thread;
mod options;
mod order_files;
mod prices;
mod printing;
mod reading;
mod refused;
mod selection;
mod sessions;
mod sums;
mod torn_journals;

/// The day of a board whose options are left out: ticks from 1 to 1000 and a reference of 200.
const DAY: Config = Config {
    low: 1,
    high: 1000,
    reference: 200,
    max_open: 4096,
    max_calls: 65_536,
    range: None,
};

/// A limit order without a peak, for each auction of the day.
fn order(side: Side, quantity: u64, tick: u32) -> Command {
    Command::Enter {
        side,
        limit: Limit::At(tick),
        quantity,
        peak: None,
        restriction: Restriction::Unrestricted,
    }
}

const BID: Command = Command::Enter {
    side: Side::Bid,
    limit: Limit::At(200),
    quantity: 100,
    peak: None,
    restriction: Restriction::Unrestricted,
};

/// What is shown of bids at 200 and no ask.
const BEST_BID: Display = Display::Unpriced {
    best_bid: Some(200),
    best_ask: None,
};

/// A price without a surplus.
fn even(tick: u32, volume: u64) -> Price {
    Price {
        tick,
        volume,
        surplus: 0,
        side: None,
    }
}

/// A bid of member 1, which gets this id.
fn bid_entered(id: u32) -> Entry {
    Entry {
        member: 1,
        command: BID,
        reply: Reply::Entered { id },
    }
}

/// The reply to a command of this member, if there is room for it.
fn reply_to(auction: &mut Auction, member: u8, command: Command) -> Option<Reply> {
    if auction.calls() < auction.config().max_calls {
        Some(auction.apply(member, command))
    } else {
        None
    }
}

/// Closes the board with these members, or gives it up: a board that is dropped keeps its copies.
fn closed<K: BoardIdentity, R: Wait>(
    rt: &R,
    board: Board<K>,
    members: Vec<Member<K>>,
) -> Option<Closing>
where
    Version<K>: Absorb<Update<K>, State = ()>,
{
    match close(board, members, rt) {
        Ok(closing) => Some(closing),
        Err(
            CloseFault::MissingMember {
                board,
                members: _members,
            },
        ) => {
            board.abandon(rt);
            None
        }
        Err(CloseFault::Ahead { .. }) => None,
    }
}
