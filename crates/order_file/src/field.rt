//! The fields of a record: numbers, sides and limits.

ghost use Rattle.std.specs.Prelude.{◌≡◌};
ghost use Rattle.order_file.specs.Field.{number_of, side_of, limit_of, peak_of, restriction_of};

use auction_terms::{Limit, Restriction, Side};

/// A number: one to ten digits, at most the greatest `u32`.
#[tactic(auto, unfolding(crate::specs::Field::number_of))]
#[inline(always)]
pub fn number_of(field: &[u8]) -> Option<u32>
    ensures { result ≡ number_of field.now }
{
    if field.is_empty() || field.len() > 10 {
        return None;
    }
    let mut value: u64 = 0;
    for digit in field {
        if !digit.is_ascii_digit() {
            return None;
        }
        value = 10 * value + u64::from(*digit - b'0');
    }
    u32::try_from(value).ok()
}

/// A side: `bid` or `ask`.
#[tactic(auto, unfolding(crate::specs::Field::side_of))]
#[inline(always)]
pub fn side_of(field: &[u8]) -> Option<Side>
    ensures { result ≡ side_of field.now }
{
    match field {
        [b'b', b'i', b'd'] => Some(Side::Bid),
        [b'a', b's', b'k'] => Some(Side::Ask),
        _ => None,
    }
}

/// A limit: `market`, or the number of a tick.
#[tactic(auto, unfolding(crate::specs::Field::limit_of))]
#[inline(always)]
pub fn limit_of(field: &[u8]) -> Option<Limit>
    ensures { result ≡ limit_of field.now }
{
    if let [b'm', b'a', b'r', b'k', b'e', b't'] = field {
        return Some(Limit::Market);
    }
    let tick = number_of(field)?;
    Some(Limit::At(tick))
}

/// A peak, which an empty field leaves out.
#[tactic(auto, unfolding(crate::specs::Field::peak_of))]
#[inline(always)]
pub fn peak_of(field: &[u8]) -> Option<Option<u64>>
    ensures { result ≡ peak_of field.now }
{
    if field.is_empty() {
        return Some(None);
    }
    let peak = number_of(field)?;
    Some(Some(u64::from(peak)))
}

/// The auctions that an order is for: every one where the field is empty.
#[tactic(auto, unfolding(crate::specs::Field::restriction_of))]
#[inline(always)]
pub fn restriction_of(field: &[u8]) -> Option<Restriction>
    ensures { result ≡ restriction_of field.now }
{
    match field {
        [] => Some(Restriction::Unrestricted),
        [b'o', b'p', b'e', b'n', b'i', b'n', b'g'] => Some(Restriction::OpeningOnly),
        [b'c', b'l', b'o', b's', b'i', b'n', b'g'] => Some(Restriction::ClosingOnly),
        _ => None,
    }
}
