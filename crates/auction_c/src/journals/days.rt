//! The day of a journal, as a config says it.
ghost use Rattle.std.specs.Prelude.{◌≡◌};
ghost use Rattle.auction_c.specs.Journals as recorded_as;

use crate::decoding::config_in;
use crate::errors::{BAD_MEMBER, NO_CONFIG, fault_out};
use crate::structs::AuctionConfig;
use auction::{OpenFault, config_fault};
use auction_terms::{Config, MAX_MEMBERS, MAX_TICK};
use journal::DayHeader;

fn is_above(most: u32, number: Option<u32>) -> bool
    ensures { result ≡ recorded_as.is_above most number }
{
    match number {
        None => false,
        Some(number) => most < number,
    }
}

// The day of a config that has this fault, or none.
fn day_unless(fault: Option<OpenFault>, config: Config, members: u32) -> Result<DayHeader, u32>
    ensures { result ≡ recorded_as.day_unless fault config members }
{
    if let Some(fault) = fault {
        return Err(fault_out(fault));
    }
    if is_above(MAX_TICK, config.range) {
        return Err(NO_CONFIG);
    }
    if 1 <= members && members <= u32::from(MAX_MEMBERS) {
        return Ok(DayHeader {
            config,
            members: members as u8,
        });
    }
    Err(BAD_MEMBER)
}

/// The day of the config in a struct, for so many members, or the error.
#[tactic(auto, unfolding(crate::specs::Journals::day_in))]
pub(crate) fn day_in(config: &AuctionConfig, members: u32) -> Result<DayHeader, u32>
    ensures { result ≡ recorded_as.day_in config.now members }
{
    match config_in(config) {
        None => Err(NO_CONFIG),
        Some(decoded) => day_unless(config_fault(decoded), decoded, members),
    }
}
