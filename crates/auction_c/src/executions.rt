//! What trades executed of the orders of a side, by their ids.
ghost use Rattle.std.specs.Prelude.{◌≡◌, ◌+◌, ◌-◌, ◌^◌, IfOk, length, min, replicate, slice_index, slice_set};
ghost use Rattle.auction_terms.specs.Priority as priority;
ghost use Rattle.auction_c.specs.Executed.{AreNumberedUpTo, shares_by_id};

use auction_terms::{OpenOrder, Side, Trade};
use std::alloc::{AllocError, Global};

/// The greatest id of these orders, or 0.
pub(crate) fn last_id(listed: &[OpenOrder]) -> u32
    ensures { AreNumberedUpTo result listed.now }
{
    let mut last = 0;
    for one in listed {
        last = last.max(one.order.id);
    }
    last
}

/// A table of no shares, for the ids from 0 to the last one.
pub(crate) fn empty_table(alloc: Global, last: u32) -> Result<Vec<u64>, AllocError>
    ensures { IfOk result (λ table. table.items ≡ replicate (last + 1) 0) }
{
    vec![in alloc; 0u64; last as usize + 1]
}

// The id of the order that a trade names on a side.
fn traded_on(side: Side, trade: &Trade) -> u32
    ensures { result ≡ priority.traded_on side trade.now }
{
    match side {
        Side::Bid => trade.bid,
        Side::Ask => trade.ask,
    }
}

// Adds shares to those of an id, if the table has it.
fn add(table: &mut [u64], id: u32, quantity: u64)
    ensures { table.new ≡ slice_set table.old id (min (slice_index table.old id + quantity) (2 ^ 64 - 1)) }
{
    let place = id as usize;
    if place < table.len() {
        table[place] = table[place].saturating_add(quantity);
    }
}

/// Adds the shares that the trades executed of each order of a side to a table of none.
pub(crate) fn add_trades(table: &mut [u64], trades: &[Trade], side: Side)
    requires { table.old ≡ replicate (length table.old) 0 }
    ensures { table.new ≡ shares_by_id trades.now side (length table.old) }
{
    for trade in trades {
        add(table, traded_on(side, trade), trade.quantity);
    }
}
