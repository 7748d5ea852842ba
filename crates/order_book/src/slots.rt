//! Open orders at their keys.
ghost use Rattle.std.specs.Prelude.{◌≡◌, ◌<◌, ◌≤◌, ◌^◌, [], Some, IfOk, IfSome, IfNone};
ghost use Rattle.slab.specs.Slab.{ContainsKey, Updates, slab_len};
ghost use Rattle.order_book.specs.Packing.{HasShortPeak};
ghost use Rattle.order_book.specs.Orders.{HasIdAt, HasKeys, IsNotAtKey, IsOpenId, IsOrderAt};

use crate::packed::PackedOrder;
use auction_terms::Stamped;
use slab::Slab;
use std::alloc::{AllocError, Global};

/// The greatest key that is kept.
pub(crate) const MAX_KEY: usize = 4_294_967_295;

/// The same slots, if all their keys can be kept.
pub(crate) fn with_keys(orders: Slab<PackedOrder>) -> Result<Slab<PackedOrder>, AllocError>
    ensures { IfOk result (λ slots. (slots ≡ orders) × HasKeys slots) }
{
    if orders.capacity() > MAX_KEY {
        return Err(AllocError);
    }
    Ok(orders)
}

/// No orders, with room for `room` of them. It fails only where memory is refused.
pub(crate) fn open_slots(alloc: Global, room: usize) -> Result<Slab<PackedOrder>, AllocError>
    ensures empty { IfOk result (λ slots. slots.slots ≡ []) }
    ensures room { IfOk result (λ slots. room ≤ slots.capacity) }
    ensures keys { IfOk result HasKeys }
{
    with_keys(Slab::with_capacity(alloc, room)?)
}

/// The key of the open order with an id, looked up without a walk.
pub(crate) fn key_of(orders: &Slab<PackedOrder>, keys: &[u32], id: u32) -> Option<usize>
    ensures found { IfSome result (λ key. HasIdAt orders.now.slots key id) }
    ensures absent { IfNone result (IsNotAtKey orders.now.slots keys.now id) }
{
    if id == 0 || id as usize > keys.len() {
        return None;
    }
    let key = keys[id as usize - 1] as usize;
    match orders.get(key) {
        Some(packed) if packed.id() == id => Some(key),
        _ => None,
    }
}

/// The key of an id whose order is open, and that order.
pub(crate) fn open_at(orders: &Slab<PackedOrder>, keys: &[u32], id: u32) -> (usize, Stamped)
    requires { IsOpenId orders.now.slots keys.now id }
    ensures { IsOrderAt orders.now.slots id result.0 result.1 }
{
    let key = keys[id as usize - 1] as usize;
    (key, orders[key].stamped())
}

/// Puts an order in the place of the one that is there.
pub(crate) fn put(orders: &mut Slab<PackedOrder>, key: usize, stamped: Stamped)
    requires key { ContainsKey orders.old key }
    requires stamp { stamped.stamp < 2 ^ 32 }
    requires quantity { stamped.order.quantity < 2 ^ 32 }
    requires peak { HasShortPeak stamped.order.peak }
    ensures updates { Updates orders.old orders.new key (Some stamped) }
    ensures len { slab_len orders.new ≡ slab_len orders.old }
    ensures capacity { orders.new.capacity ≡ orders.old.capacity }
{
    orders[key] = PackedOrder::new(stamped);
}
