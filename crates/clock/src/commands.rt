//! The commands that are measured, and the auction of one thread that they are measured on.

use auction::Auction;
use auction_terms::{Command, Limit, Reply, Restriction, Side};

/// How many orders are open before the measuring.
pub const OPEN_ORDERS: u32 = 1000;

/// An order of 100 shares for every auction.
pub fn order(side: Side, tick: u32) -> Command {
    Command::Enter {
        side,
        limit: Limit::At(tick),
        quantity: 100,
        peak: None,
        restriction: Restriction::Unrestricted,
    }
}

/// One of the orders that are open before the measuring: bids at the lower ticks, asks at the higher ones.
pub fn open_order(k: u32) -> Command {
    let tick = 1 + k % 1000;
    let side = if tick < 500 { Side::Bid } else { Side::Ask };
    order(side, tick)
}

/// In turn an order somewhere on the ladder, a question, a change of that order, and its deletion.
pub fn command(k: u32, id: u32) -> Command {
    let tick = 1 + k.wrapping_mul(7919) % 1000;
    let side = if k % 8 < 4 { Side::Bid } else { Side::Ask };
    match k % 4 {
        0 => order(side, tick),
        1 => Command::Indicate,
        2 => Command::Change {
            id,
            limit: Limit::At(tick),
            quantity: 50,
        },
        _ => Command::Delete { id },
    }
}

/// The id of the order that was entered last.
pub fn last_id(reply: Reply, before: u32) -> u32 {
    match reply {
        Reply::Entered { id } => id,
        _ => before,
    }
}

/// Applies a member's command where the auction isn't full. Gives the id of the order that was entered last.
pub fn apply(auction: &mut Auction, member: u8, command: Command, id: u32) -> u32 {
    if auction.calls() < auction.config().max_calls {
        last_id(auction.apply(member, command), id)
    } else {
        id
    }
}

/// Enters the orders that are open before the measuring.
pub fn enter_open_orders(auction: &mut Auction) {
    for k in 0..OPEN_ORDERS {
        let _ = apply(auction, 1, open_order(k), 0);
    }
}

/// Applies `count` commands, and after each finds what is shown where that is wanted, as a board does.
pub fn apply_many(auction: &mut Auction, count: u32, is_shown: bool) -> u32 {
    let mut id = 0;
    for k in 0..count {
        id = apply(auction, 1, command(k, id), id);
        if is_shown {
            let _ = auction.show();
        }
    }
    id
}
