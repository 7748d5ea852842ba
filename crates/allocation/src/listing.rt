//! The open orders of a side, in priority.
ghost use Rattle.std.specs.Prelude.{◌≡◌, ◌<◌, ◌^◌, ◌++◌, IfOk, IfSome};
ghost use Rattle.std.specs.Option.{option_to_list};
ghost use Rattle.auction_terms.specs.Auxiliary.StampedOrders.{orders_of};
ghost use Rattle.allocation.specs.Claim.{AreNarrow};
ghost use Rattle.allocation.specs.Listing.{is_listed, ranked_orders_of, AreInPriority};

use crate::claims::rank_of;
use auction_terms::{Order, Side, Stamped};
use order_book::Orders;
use std::alloc::{AllocError, Global};

/// An open order, after what ranks it.
#[derive(Clone, Copy)]
pub struct RankedOrder {
    /// Its place on its side: the lesser number goes first.
    pub rank: u64,
    pub order: Order,
}

/// Which orders are listed: those of a side, of all members or of one.
#[derive(Clone, Copy)]
pub struct Listed {
    pub side: Side,
    pub member: Option<u8>,
}

impl Listed {
    /// Whether an order is one of them.
    fn include(self, stamped: &Stamped) -> bool
        ensures { result ≡ is_listed self stamped.now }
    {
        let order = stamped.order;
        let is_theirs = match self.member {
            Some(member) => order.member == member,
            None => true,
        };
        is_theirs && order.side == self.side
    }
}

// Adds the order at a place, if there is one and it is listed.
fn consider(
    ranked: &mut Vec<RankedOrder>,
    listed: Listed,
    found: Option<Stamped>,
) -> Result<(), AllocError>
    requires { IfSome found (λ s. s.stamp < 2 ^ 31) }
    ensures items { IfOk result (λ _. ranked.new.items
        ≡ ranked.old.items ++ ranked_orders_of listed (option_to_list found)) }
    ensures narrow { IfOk result (λ _. AreNarrow (option_to_list found)) }
{
    let Some(stamped) = found else {
        return Ok(());
    };
    let rank = rank_of(listed.side, stamped);
    if listed.include(&stamped) {
        let order = stamped.order;
        ranked.push(RankedOrder { rank, order })?;
    }
    Ok(())
}

/// Lists the open orders of a side in priority, of all members or of one: also those that wait for another auction. The
/// only error is that memory is refused.
pub fn in_priority(
    alloc: Global,
    orders: &Orders,
    listed: Listed,
) -> Result<Vec<RankedOrder>, AllocError>
    ensures { IfOk result (λ ranked. AreInPriority listed (orders_of orders.now.line) ranked.items) }
{
    let mut ranked = Vec::new(alloc);
    for place in 0..orders.places() {
        consider(&mut ranked, listed, orders.at(place))?;
    }
    ranked.sort_unstable_by_key(|ranked| ranked.rank);
    Ok(ranked)
}
