//! The open orders in priority, with what was executed of each.
ghost use Rattle.std.specs.Prelude.{◌≡◌, ◌+◌, ◌*◌, ◌<◌, ◌≤◌, ◌^◌, ◌++◌, length, map, IfOk, slice_index, slice_set};
ghost use Rattle.auction_terms.specs.declared.limits.TheConstants.{MAX_OPEN_ORDERS};
ghost use Rattle.auction_terms.specs.Priority as priority;
ghost use Rattle.auction.specs.Executions as executions;
ghost use Rattle.auction.specs.Executions.{AreSmall, HaveIdsUpTo, with_executed};

use super::DayState;
use crate::book::Book;
use allocation::{Listed, RankedOrder};
use auction_terms::{OpenOrder, Side, Trade};
use std::alloc::{AllocError, Global};

// The id of the order that a trade names on a side.
fn traded_on(side: Side, trade: &Trade) -> u32
    ensures { result ≡ priority.traded_on side trade.now }
{
    match side {
        Side::Bid => trade.bid,
        Side::Ask => trade.ask,
    }
}

// Adds shares to those of an id, if the table has it.
fn add(executed: &mut Vec<u64>, id: u32, quantity: u64)
    requires { slice_index executed.old.items id + quantity < 2 ^ 64 }
    ensures { executed.new.items
        ≡ slice_set executed.old.items id (slice_index executed.old.items id + quantity) }
{
    let place = id as usize;
    if place < executed.len() {
        executed[place] += quantity;
    }
}

// What the trades executed of each order of a side, by its id, from 0 to the last one.
fn executed_by_id(
    alloc: Global,
    tape: &[Trade],
    side: Side,
    last: u32,
) -> Result<Vec<u64>, AllocError>
    requires few { length tape.now ≤ 3 * MAX_OPEN_ORDERS }
    requires small { AreSmall tape.now }
    ensures { IfOk result (λ executed. executed.items ≡ executions.executed_by_id tape.now side last) }
{
    let mut executed = vec![in alloc; 0u64; last as usize + 1]?;
    for trade in tape {
        add(&mut executed, traded_on(side, trade), trade.quantity);
    }
    Ok(executed)
}

// The greatest id of these orders, or 0.
fn last_id(ranked: &[RankedOrder]) -> u32
    ensures { HaveIdsUpTo result ranked.now }
{
    let mut last = 0;
    for one in ranked {
        last = last.max(one.order.id);
    }
    last
}

// What the table has under an id.
fn at_id(executed: &[u64], id: u32) -> u64
    ensures { result ≡ slice_index executed.now id }
{
    executed.get(id as usize).copied().unwrap_or(0)
}

// Adds these orders to those that are listed, each with what is written under its id.
fn list(
    listed: &mut Vec<OpenOrder>,
    ranked: &[RankedOrder],
    executed: &[u64],
) -> Result<(), AllocError>
    ensures { IfOk result (λ _. listed.new.items
        ≡ listed.old.items ++ map (with_executed executed.now) ranked.now) }
{
    for one in ranked {
        let order = one.order;
        listed.push(OpenOrder {
            order,
            visible: order.visible(),
            filled: at_id(executed, order.id),
        })?;
    }
    Ok(())
}

// Adds the open orders of a side to those that are listed.
fn list_side(
    alloc: Global,
    book: &Book,
    tape: &[Trade],
    of: Listed,
    listed: &mut Vec<OpenOrder>,
) -> Result<(), AllocError>
    requires few { length tape.now ≤ 3 * book.now.max_open }
    requires small { AreSmall tape.now }
    ensures { IfOk result (λ _. listed.new.items
        ≡ listed.old.items ++ priority.listed_on of.side of.member book.now.orders tape.now) }
{
    let ranked = book.in_priority(alloc, of)?;
    let executed = executed_by_id(alloc, tape, of.side, last_id(&ranked))?;
    list(listed, &ranked, &executed)
}

/// The open orders in priority, the bids before the asks, of all members or of one, each with what these trades
/// executed of it. It fails only where memory is refused.
pub(super) fn list_orders(
    alloc: Global,
    book: &Book,
    tape: &[Trade],
    member: Option<u8>,
) -> Result<Vec<OpenOrder>, AllocError>
    requires few { length tape.now ≤ 3 * book.now.max_open }
    requires small { AreSmall tape.now }
    ensures { IfOk result (λ listed. listed.items ≡ priority.listed member book.now.orders tape.now) }
{
    let mut listed = Vec::new(alloc);
    let bids = Listed {
        side: Side::Bid,
        member,
    };
    list_side(alloc, book, tape, bids, &mut listed)?;
    let asks = Listed {
        side: Side::Ask,
        member,
    };
    list_side(alloc, book, tape, asks, &mut listed)?;
    Ok(listed)
}

impl DayState {
    /// The open orders in priority, the bids before the asks, of all members or of one, each with what was executed of
    /// it. It fails only where memory is refused.
    #[tactic(auto, unfolding(auction_terms::specs::Priority::orders_in_priority))]
    pub(crate) fn open_orders(
        &self,
        alloc: Global,
        member: Option<u8>,
    ) -> Result<Vec<OpenOrder>, AllocError>
        ensures { IfOk result (λ listed. listed.items ≡ priority.orders_in_priority member self.now.state) }
    {
        list_orders(alloc, &self.book, &self.tape, member)
    }
}
