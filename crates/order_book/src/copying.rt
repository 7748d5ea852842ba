//! The open orders emptied, and the open orders copied.
ghost use Rattle.std.specs.Prelude.{◌≡◌, ◌≤◌, vec_capacity, IfOk};
ghost use Rattle.slab.specs.Slab.{slab_len};
ghost use Rattle.order_book.specs.Orders.{HasKeys, cleared_orders};

use crate::Orders;
use crate::packed::PackedOrder;
use crate::slots::with_keys;
use slab::Slab;
use std::alloc::{AllocError, Global};

/// The same orders under the same keys, with room for `room` of them.
fn copied_slots(orders: &Slab<PackedOrder>, room: usize) -> Result<Slab<PackedOrder>, AllocError>
    requires { slab_len orders.now ≤ room }
    ensures slots { IfOk result (λ copy. copy.slots ≡ orders.now.slots) }
    ensures room { IfOk result (λ copy. room ≤ copy.capacity) }
    ensures keys { IfOk result HasKeys }
{
    let mut copy = orders.clone()?;
    copy.reserve_exact(room - orders.len())?;
    with_keys(copy)
}

/// The same keys, with room for `room` of them.
fn copied_keys(alloc: Global, keys: &[u32], room: usize) -> Result<Vec<u32>, AllocError>
    ensures items { IfOk result (λ copy. copy.items ≡ keys.now) }
    ensures room { IfOk result (λ copy. room ≤ vec_capacity copy) }
{
    let mut copy = Vec::with_capacity(alloc, room)?;
    copy.extend_from_slice(keys)?;
    Ok(copy)
}

impl Orders {
    /// Removes all orders and forgets their ids and stamps, as if none had been entered. It takes no memory.
    pub fn reset(&mut self)
        ensures { self.new ≡ cleared_orders self.old }
    {
        self.orders.clear();
        self.keys.clear();
        self.stamps = 0;
    }

    /// Open orders of its own: the same ones, at the same places in time and of the walk, with as much room. It fails
    /// only where memory is refused.
    pub fn copied(&self, alloc: Global) -> Result<Orders, AllocError>
        ensures { IfOk result (λ o. o ≡ self.now) }
    {
        Ok(Orders {
            orders: copied_slots(&self.orders, self.max_open as usize)?,
            keys: copied_keys(alloc, &self.keys, self.max_calls as usize)?,
            stamps: self.stamps,
            max_open: self.max_open,
            max_calls: self.max_calls,
        })
    }
}
