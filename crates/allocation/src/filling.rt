//! What claims get of the volume.
ghost use Rattle.std.specs.Prelude.{◌≡◌, ◌+◌, ◌<◌, ◌≤◌, ◌^◌, ◌++◌, length, take, drop, vec_len, vec_capacity};
ghost use Rattle.allocation.specs.Claim.{claimed_by, lesser_claim, filled_by};

use crate::claims::{Claim, total};
use auction_terms::Fill;

// Adds what each claim gets of the volume, going down the ranks.
fn fill_down(claims: &[Claim], volume: u64, fills: &mut Vec<Fill>)
    requires { vec_len fills.old + length claims.now ≤ vec_capacity fills.old }
    ensures items { fills.new.items ≡ fills.old.items ++ filled_by volume claims.now }
    ensures few { vec_len fills.new ≤ vec_len fills.old + length claims.now }
    ensures capacity { vec_capacity fills.new ≡ vec_capacity fills.old }
{
    let mut left = volume;
    for claim in claims {
        let quantity = left.min(u64::from(claim.quantity));
        if quantity > 0 {
            fills.push_reserved(Fill {
                id: claim.id,
                quantity,
            });
        }
        left -= quantity;
    }
}

/// Fills both sides, the bids first, and returns how many fills are the bids'.
pub(crate) fn fill_sides(bids: &[Claim], asks: &[Claim], fills: &mut Vec<Fill>) -> usize
    requires room { length bids.now + length asks.now ≤ vec_capacity fills.old }
    requires bids { claimed_by bids.now < 2 ^ 64 }
    requires asks { claimed_by asks.now < 2 ^ 64 }
    ensures bids { take result fills.new.items ≡ filled_by (lesser_claim bids.now asks.now) bids.now }
    ensures asks { drop result fills.new.items ≡ filled_by (lesser_claim bids.now asks.now) asks.now }
    ensures within { result ≤ vec_len fills.new }
    ensures capacity { vec_capacity fills.new ≡ vec_capacity fills.old }
    ensures few { vec_len fills.new ≤ length bids.now + length asks.now }
{
    let volume = total(bids).min(total(asks));
    fills.clear();
    fill_down(bids, volume, fills);
    let count = fills.len();
    fill_down(asks, volume, fills);
    count
}
