//! Open orders made the same as others, in the room that they have.
ghost use Rattle.std.specs.Prelude.{◌≡◌, ◌<◌, ◌≤◌, length, IfSome, vec_capacity};
ghost use Rattle.slab.specs.Slab.{HasRoomFor};
ghost use Rattle.order_book.specs.Orders.{HasKeys, HasSameRoom, IsSameButWalk};
ghost use Rattle.order_book.specs.Restoring.{RestoresSlot};

use crate::Orders;
use crate::packed::PackedOrder;
use slab::Slab;

// The same keys, where there is room for them.
fn copy_keys(from: &[u32], to: &mut Vec<u32>)
    requires { length from.now ≤ vec_capacity to.old }
    ensures items { to.new.items ≡ from.now }
    ensures capacity { vec_capacity to.old ≤ vec_capacity to.new }
{
    to.clear();
    let _ = to.extend_from_slice(from);
}

// Puts an order into a slot, if there is one, and writes down its key.
fn restore(orders: &mut Slab<PackedOrder>, keys: &mut Vec<u32>, found: Option<PackedOrder>)
    requires room { IfSome found (λ s. HasRoomFor orders.old 1) }
    requires keyed { HasKeys orders.old }
    requires within { IfSome found (λ s. (0 < s.order.id) × (s.order.id ≤ length keys.old.items)) }
    ensures restored { RestoresSlot found orders.old orders.new keys.old.items keys.new.items }
    ensures slots { orders.new.capacity ≡ orders.old.capacity }
    ensures room { vec_capacity keys.new ≡ vec_capacity keys.old }
{
    let Some(packed) = found else {
        return;
    };
    let key = orders.insert_reserved(packed);
    keys[packed.id() as usize - 1] = key as u32;
}

impl Orders {
    /// Makes other open orders the same as these, with room for as many, whatever they were: the same orders at the
    /// same places in time, the same ids and stamps given out. It takes no memory.
    pub fn copy_into(&self, other: &mut Orders)
        requires { HasSameRoom self.now other.old }
        ensures { IsSameButWalk self.now other.new }
    {
        let Orders {
            orders,
            keys,
            stamps,
            max_open: _,
            max_calls: _,
        } = other;
        orders.clear();
        copy_keys(&self.keys, keys);
        *stamps = self.stamps;
        for place in 0..self.orders.capacity() {
            restore(orders, keys, self.orders.get(place).copied());
        }
    }
}
