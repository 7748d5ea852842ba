//! Numbers place by place, with sums that lead to them.

ghost use Rattle.std.specs.Prelude.{◌≡◌, ℕ, ◌+◌, ◌-◌, ◌<◌, ◌≤◌, length, sum, replicate, slice_set, slice_index, IfOk};
ghost use Rattle.auction_terms.specs.declared.limits.TheConstants.{MAX_TICKS, MAX_TOTAL};
ghost use Rattle.tick_ladder.specs.OccupiedPlaces.{FindsLast, FindsFirst, IsCrossing};

use crate::Crossing;
use crate::walks::{BLOCK, cross, first_from, last_before};
use lanes::total;
use std::alloc::{AllocError, Global};
use std::marker::Model;

/// Numbers place by place, with the sums of each block of 64 places and of each group of 64 blocks.
#[derive(Drop)]
pub struct Quantities {
    places: Vec<u64>,
    blocks: Vec<u64>,
    groups: Vec<u64>,
}

impl Model for Quantities {
    ghost use Rattle.std.specs.Prelude.{List, ℕ};
    ghost use Rattle.tick_ladder.specs.BlockSums.{HasBlockSums};

    ghost Value = { List ℕ };

    ghost view = { λ t. t.places.items };

    ghost invariant = { λ t. HasBlockSums t.places.items t.blocks.items t.groups.items };
}

/// A 0 for each place.
fn zeros(alloc: Global, places: usize) -> Result<Vec<u64>, AllocError>
    ensures { IfOk result (λ v. v.items ≡ replicate places 0) }
{
    vec![in alloc; 0; places]
}

/// The same numbers, in memory of their own.
fn copied(alloc: Global, numbers: &[u64]) -> Result<Vec<u64>, AllocError>
    ensures { IfOk result (λ v. v.items ≡ numbers.now) }
{
    let mut copy = Vec::with_capacity(alloc, numbers.len())?;
    copy.extend_from_slice(numbers)?;
    Ok(copy)
}

/// Puts a 0 at each place.
fn blank(numbers: &mut Vec<u64>)
    ensures { numbers.new.items ≡ replicate (length numbers.old.items) 0 }
{
    numbers.fill(0);
}

impl Quantities {
    /// A 0 at each place.
    pub fn open(alloc: Global, places: usize) -> Result<Quantities, AllocError>
        requires { places ≤ MAX_TICKS }
        ensures { IfOk result (λ t. t ≡ replicate places 0) }
    {
        let blocks = (places + BLOCK - 1) / BLOCK;
        let groups = (blocks + BLOCK - 1) / BLOCK;
        Ok(Quantities {
            places: zeros(alloc, places)?,
            blocks: zeros(alloc, blocks)?,
            groups: zeros(alloc, groups)?,
        })
    }

    /// Puts a 0 at each place. It takes no memory.
    pub fn reset(&mut self)
        ensures { self.new ≡ replicate (length self.old) 0 }
    {
        blank(&mut self.places);
        blank(&mut self.blocks);
        blank(&mut self.groups);
    }

    /// The same numbers, with sums of their own. It fails only where memory is refused.
    pub fn copied(&self, alloc: Global) -> Result<Quantities, AllocError>
        ensures { IfOk result (λ t. t ≡ self.now) }
    {
        Ok(Quantities {
            places: copied(alloc, &self.places)?,
            blocks: copied(alloc, &self.blocks)?,
            groups: copied(alloc, &self.groups)?,
        })
    }

    /// Makes other numbers, which are as many, the same as these. It takes no memory.
    pub fn copy_into(&self, other: &mut Quantities)
        requires { length other.old ≡ length self.now }
        ensures { other.new ≡ self.now }
    {
        other.places.copy_from_slice(&self.places);
        other.blocks.copy_from_slice(&self.blocks);
        other.groups.copy_from_slice(&self.groups);
    }

    /// The numbers.
    pub fn places(&self) -> &[u64]
        ensures { result.now ≡ self.now }
    {
        &self.places
    }

    /// The number at a place.
    pub fn at(&self, place: usize) -> u64
        requires { place < length self.now }
        ensures { result ≡ slice_index self.now place }
    {
        self.places[place]
    }

    /// Puts another number at a place.
    pub fn put(&mut self, place: usize, number: u64)
        requires within { place < length self.old }
        requires fits { sum self.old + number ≤ MAX_TOTAL + slice_index self.old place }
        ensures { self.new ≡ slice_set self.old place number }
    {
        let block = place / BLOCK;
        let group = block / BLOCK;
        let old = self.places[place];
        let block_sum = self.blocks[block] - old + number;
        let group_sum = self.groups[group] - old + number;
        self.places[place] = number;
        self.blocks[block] = block_sum;
        self.groups[group] = group_sum;
    }

    /// All numbers together.
    pub fn total(&self) -> u64
        requires { sum self.now ≤ MAX_TOTAL }
        ensures { result ≡ sum self.now }
    {
        total(&self.groups)
    }

    /// The last place before `end` with a number above 0.
    pub fn last_before(&self, end: usize) -> Option<usize>
        requires { end ≤ length self.now }
        ensures { FindsLast self.now 0 end result }
    {
        last_before(&self.places, &self.blocks, &self.groups, end)
    }

    /// The first place from `start` on with a number above 0.
    pub fn first_from(&self, start: usize) -> Option<usize>
        requires { start ≤ length self.now }
        ensures { FindsFirst self.now start (length self.now) result }
    {
        first_from(&self.places, &self.blocks, &self.groups, start)
    }
}

/// The last place where the demand is not below the supply before it, if `demand` and `below` are those at the first
/// place.
pub fn crossing_of(bids: &Quantities, asks: &Quantities, demand: u64, below: u64) -> Crossing
    requires same { length asks.now ≡ length bids.now }
    requires some { 0 < length bids.now }
    requires enough { sum bids.now ≤ demand }
    requires fits { below + sum asks.now ≤ MAX_TOTAL }
    ensures { IsCrossing bids.now asks.now 0 (length bids.now) demand below result }
{
    cross(
        &bids.places,
        &asks.places,
        &bids.blocks,
        &asks.blocks,
        &bids.groups,
        &asks.groups,
        demand,
        below,
    )
}
