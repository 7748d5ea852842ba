//! An open order with its stamp, in few bytes.
ghost use Rattle.std.specs.Prelude.{◌≡◌, ◌<◌, ◌^◌};
ghost use Rattle.order_book.specs.Packing.{HasShortPeak, unpacked_limit, unpacked_peak, tick_or_zero};

use auction_terms::{Limit, Order, Restriction, Side, Stamped};
use std::marker::Model;

/// An order with its stamp, as a slot holds it in 24 bytes: a number that is always below 2^32 has four of them, and a
/// market order tick 0. Contracts see the order with its stamp.
#[derive(Clone, Copy)]
pub(crate) struct PackedOrder {
    id: u32,
    stamp: u32,
    quantity: u32,
    // 0 without a limit.
    tick: u32,
    // 0 without a peak.
    peak: u32,
    member: u8,
    side: Side,
    restriction: Restriction,
    has_limit: bool,
}

impl Model for PackedOrder {
    ghost use Rattle.auction_terms.specs.declared.Stamped.{Stamped as StampedOrder};

    ghost Value = { StampedOrder };

    ghost use Rattle.order_book.specs.Packed.{packed_order, stamped_order, HasNoTickUnlessLimited};

    ghost view = { stamped_order };

    ghost invariant = { HasNoTickUnlessLimited };

    ghost inverse = { packed_order };
}

/// The tick of a limit, or 0 for none.
fn tick_or_zero(limit: Limit) -> u32
    ensures { result ≡ tick_or_zero limit }
{
    match limit {
        Limit::Market => 0,
        Limit::At(tick) => tick,
    }
}

/// The limit at a tick, if there is one.
fn unpacked_limit(has_limit: bool, tick: u32) -> Limit
    ensures { result ≡ unpacked_limit has_limit tick }
{
    if has_limit {
        return Limit::At(tick);
    }
    Limit::Market
}

/// The peak, or none for 0.
fn unpacked_peak(peak: u32) -> Option<u64>
    ensures value { result ≡ unpacked_peak peak }
    ensures short { HasShortPeak result }
{
    if peak == 0 {
        return None;
    }
    Some(u64::from(peak))
}

impl PackedOrder {
    /// The same order with its stamp.
    pub(crate) fn new(stamped: Stamped) -> PackedOrder
        requires stamp { stamped.stamp < 2 ^ 32 }
        requires quantity { stamped.order.quantity < 2 ^ 32 }
        requires peak { HasShortPeak stamped.order.peak }
        ensures { result ≡ stamped }
    {
        let Order {
            id,
            member,
            side,
            restriction,
            limit,
            quantity,
            peak,
        } = stamped.order;
        PackedOrder {
            id,
            stamp: stamped.stamp as u32,
            quantity: quantity as u32,
            tick: tick_or_zero(limit),
            peak: peak.unwrap_or(0) as u32,
            member,
            side,
            restriction,
            has_limit: matches!(limit, Limit::At(_)),
        }
    }

    /// The order's id.
    pub(crate) fn id(&self) -> u32
        ensures { result ≡ self.now.order.id }
    {
        self.id
    }

    /// The order with its stamp.
    pub(crate) fn stamped(self) -> Stamped
        ensures value { result ≡ self }
        ensures short { HasShortPeak result.order.peak }
    {
        let order = Order {
            id: self.id,
            member: self.member,
            side: self.side,
            restriction: self.restriction,
            limit: unpacked_limit(self.has_limit, self.tick),
            quantity: u64::from(self.quantity),
            peak: unpacked_peak(self.peak),
        };
        Stamped {
            order,
            stamp: u64::from(self.stamp),
        }
    }
}
