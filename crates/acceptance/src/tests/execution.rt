//! Who is executed first.

use allocation::Desk;
use auction_terms::{AuctionKind, Limit, NewOrder, Restriction, Side};
use order_book::Orders;
use std::test::Fail;

const BID: NewOrder = NewOrder {
    member: 1,
    side: Side::Bid,
    restriction: Restriction::Unrestricted,
    limit: Limit::At(200),
    quantity: 100,
    peak: None,
};

const ASK: NewOrder = NewOrder {
    member: 3,
    side: Side::Ask,
    ..BID
};

// A raised quantity loses its place.
#[test]
fn raised_quantity_moves(rt: HostRuntime) -> Result<(), Fail> {
    let mut orders = Orders::open(rt.alloc(), 10, 20)?;
    let first = orders.append(BID).id;
    orders.append(NewOrder { member: 2, ..BID });
    assert!(rt; orders.get(first).is_some());
    assert!(rt; !orders.change(first, Limit::At(200), 120));
    assert!(rt; !orders.full());
    orders.append(ASK);
    let mut desk = Desk::open(rt.alloc(), 10)?;
    assert!(rt; !orders.full());
    let mut trades = Vec::with_capacity(rt.alloc(), 10)?;
    desk.allocate(&orders, AuctionKind::Opening, 200, &mut trades);
    assert_eq!(rt; trades.len(), 1);
    assert_eq!(rt;
        (trades[0].bid, trades[0].ask, trades[0].quantity),
        (2, 3, 100)
    );
    Ok(())
}
