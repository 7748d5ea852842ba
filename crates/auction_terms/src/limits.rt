//! The limits of the market and of the memory that is reserved for it.
ghost use Rattle.std.specs.Prelude.{◌≡◌, ◌<◌};
ghost use Rattle.auction_terms.specs.declared.limits.TheConstants.{MAX_CALLS, MAX_MEMBERS, MAX_OPEN_ORDERS};
ghost use Rattle.auction_terms.specs.declared.limits.TheConstants.{MAX_QUANTITY, MAX_TICK, MAX_TICKS};

use crate::Call;

/// The highest tick.
pub const MAX_TICK: u32 = 1_000_000;

/// How many ticks the bounds may have.
pub const MAX_TICKS: u32 = 65_536;

/// How many orders may be open at a time.
pub const MAX_OPEN_ORDERS: u32 = 65_536;

/// How many calls may be recorded.
pub const MAX_CALLS: u32 = 1_048_576;

/// How many members a board may have.
pub const MAX_MEMBERS: u8 = 64;

/// The most shares of one order.
pub const MAX_QUANTITY: u64 = 1_000_000_000;

/// The most shares of all open orders together: `MAX_OPEN_ORDERS` of `MAX_QUANTITY` each.
pub const MAX_TOTAL: u64 = 65_536_000_000_000;

/// The limits, as MODEL.md, FORMATS.md and README.md state them. An auction of one thread has members 0 to 255.
pub fn stated_limits(call: Call)
    ensures quantity { MAX_QUANTITY ≡ 1_000_000_000 }
    ensures tick { MAX_TICK ≡ 1_000_000 }
    ensures ticks { MAX_TICKS ≡ 65_536 }
    ensures orders { MAX_OPEN_ORDERS ≡ 65_536 }
    ensures calls { MAX_CALLS ≡ 1_048_576 }
    ensures board { MAX_MEMBERS ≡ 64 }
    ensures auction { call.member < 256 }
{}
