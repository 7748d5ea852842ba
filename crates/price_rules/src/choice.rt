//! The choice among candidates in lanes.

ghost use Rattle.std.specs.Prelude.{◌≡◌, ◌<◌, IfSome, option_map, slice_index};
ghost use Rattle.auction_terms.specs.Auxiliary.BestTicks.{AreBest, lower_among, upper_among};
ghost use Rattle.price_rules.specs.Candidates.{IsOfMarkedTicks, lead_of};

use crate::candidates::Lanes;
use lanes::{first, gap_size, greatest_where, keep_above, keep_equal, last, least_where, lesser};

/// What the best candidates have in common, and the two of them that bound the price: with a surplus, the highest
/// with a bid surplus and the lowest with an ask surplus; with none, the lowest and the highest.
#[derive(Clone, Copy)]
pub struct Leaders {
    pub volume: u64,
    pub surplus: u64,
    pub lower: Option<u32>,
    pub upper: Option<u32>,
}

/// The tick in a lane.
fn tick_in(lanes: &Lanes, lane: Option<usize>) -> Option<u32>
    requires { IfSome lane (λ i. i < 8) }
    ensures { result ≡ option_map (λ i. slice_index lanes.now.ticks i) lane }
{
    match lane {
        Some(lane) => Some(lanes.ticks[lane]),
        None => None,
    }
}

/// The lower of the two that bound the price, where `flags` are those of the best.
fn lower_of(lanes: &Lanes, flags: [u64; 8], surplus: u64) -> Option<u32>
    ensures { IsOfMarkedTicks lanes.now flags (λ book best. result ≡ lower_among book surplus best) }
{
    if surplus == 0 {
        return tick_in(lanes, first(&flags));
    }
    let mut bid_flags = flags;
    keep_above(&lanes.demands, &lanes.supplies, &mut bid_flags);
    tick_in(lanes, last(&bid_flags))
}

/// The upper of the two that bound the price, where `flags` are those of the best.
fn upper_of(lanes: &Lanes, flags: [u64; 8], surplus: u64) -> Option<u32>
    ensures { IsOfMarkedTicks lanes.now flags (λ book best. result ≡ upper_among book surplus best) }
{
    if surplus == 0 {
        return tick_in(lanes, last(&flags));
    }
    let mut ask_flags = flags;
    keep_above(&lanes.supplies, &lanes.demands, &mut ask_flags);
    tick_in(lanes, first(&ask_flags))
}

/// What the best of the candidates have in common, if one has volume: those with the most volume and, among these, the
/// least surplus.
pub fn best_of(lanes: &Lanes) -> Option<Leaders>
    ensures { IsOfMarkedTicks lanes.now lanes.now.flags (λ book few. AreBest book few (option_map lead_of result)) }
{
    let mut flags = lanes.flags;
    let mut volumes = [0; 8];
    lesser(&lanes.demands, &lanes.supplies, &mut volumes);
    let Some(volume) = greatest_where(&volumes, &flags) else {
        return None;
    };
    if volume == 0 {
        return None;
    }
    keep_equal(&volumes, volume, &mut flags);
    let mut surpluses = [0; 8];
    gap_size(&lanes.demands, &lanes.supplies, &mut surpluses);
    let Some(surplus) = least_where(&surpluses, &flags) else {
        return None;
    };
    keep_equal(&surpluses, surplus, &mut flags);
    Some(Leaders {
        volume,
        surplus,
        lower: lower_of(lanes, flags, surplus),
        upper: upper_of(lanes, flags, surplus),
    })
}
