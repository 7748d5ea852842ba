//! Why no auction can be opened with the bounds and the reference of a day.

ghost use Rattle.std.specs.Prelude.{◌≡◌, IfOk, Some};
ghost use Rattle.csv.specs.Records.{fields_of};
ghost use Rattle.input_hints.specs.BoundsHints.{bounds_hint, bounds_hint_text, bounds_in, hint_of_bounds};

use crate::input::whole_row;
use crate::record::{field_of, is_of_day};
use crate::start::ROOM;
use auction_terms::MAX_TICKS;
use csv::ByteRecord;
use order_file::number_of;
use std::alloc::{AllocError, Global};
use std::fmt;
use std::fmt::{Display, Formatter};

/// The lowest and the highest tick of a day, and its first reference price.
#[derive(Clone, Copy, Debug, PartialEq, Eq)]
pub struct Bounds {
    pub low: u32,
    pub high: u32,
    pub reference: u32,
}

/// Why a day's bounds or its reference are bad; its text is that which the program prints.
#[derive(Clone, Copy, Debug, PartialEq, Eq)]
pub enum BoundsHint {
    /// The lowest tick is above the highest.
    LowAboveHigh { low: u32, high: u32 },
    /// There are more ticks than a day may have.
    TooManyTicks { low: u32, high: u32 },
    /// The reference is no tick of the day.
    ReferenceOutside { reference: u32, low: u32, high: u32 },
}

impl Display for BoundsHint {
    ghost output = { λ hint. Some (bounds_hint_text hint) };

    fn fmt<W: fmt::Write>(&self, f: &mut Formatter<W>) -> fmt::Result {
        match self {
            BoundsHint::LowAboveHigh { low, high } => write!(f, "low {low} is above high {high}"),
            BoundsHint::TooManyTicks { low, high } => {
                write!(f, "low {low} to high {high} are more than 65536 ticks")
            }
            BoundsHint::ReferenceOutside {
                reference,
                low,
                high,
            } => { write!(f, "the reference {reference} is outside {low} to {high}") }
        }
    }
}

/// What is wrong with these bounds or this reference, if anything is: first the bounds are looked at.
#[tactic(auto, unfolding(crate::specs::BoundsHints::bounds_hint))]
pub fn bounds_hint(bounds: Bounds) -> Option<BoundsHint>
    ensures { result ≡ bounds_hint bounds }
{
    let Bounds {
        low,
        high,
        reference,
    } = bounds;
    if high < low {
        return Some(BoundsHint::LowAboveHigh { low, high });
    }
    if high - low >= MAX_TICKS {
        return Some(BoundsHint::TooManyTicks { low, high });
    }
    if reference < low || high < reference {
        return Some(BoundsHint::ReferenceOutside {
            reference,
            low,
            high,
        });
    }
    None
}

/// The bounds and the reference that a journal's first record says, or the others.
fn bounds_in(first: &ByteRecord, others: Bounds) -> Bounds
    ensures { result ≡ bounds_in (fields_of first.now) others }
{
    if !is_of_day(first) {
        return others;
    }
    let low = number_of(field_of(first, 1));
    let high = number_of(field_of(first, 2));
    let reference = number_of(field_of(first, 3));
    match (low, high, reference) {
        (Some(low), Some(high), Some(reference)) => Bounds {
            low,
            high,
            reference,
        },
        _ => others,
    }
}

/// What is wrong with the bounds or the reference of the day of an input that begins so: these, or those of a
/// journal's own day. None where the first record isn't whole in that beginning. The error is that memory is refused.
#[tactic(auto, unfolding(crate::specs::BoundsHints::hint_of_bounds))]
pub fn hint_of_bounds(
    alloc: Global,
    start: &[u8],
    bounds: Bounds,
) -> Result<Option<BoundsHint>, AllocError>
    ensures { IfOk result (λ hint. hint ≡ hint_of_bounds start.now bounds) }
{
    match whole_row(alloc, start, 1)? {
        Some(first) => Ok(bounds_hint(bounds_in(&first, bounds))),
        None => {
            if start.len() == ROOM {
                return Ok(None);
            }
            Ok(bounds_hint(bounds))
        }
    }
}
