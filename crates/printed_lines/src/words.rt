//! The words of a reply.

ghost use Rattle.std.specs.Prelude.{◌≡◌, ◌≤◌, length};
ghost use Rattle.printed_lines.specs.ReplyWords.{side_word, kind_word, refusal_name};

use auction_terms::{AuctionKind, Refusal, Side};

/// The side of an order, or of a surplus where there is one.
pub fn side_word(side: Option<Side>) -> &'static str
    ensures word { result.now ≡ side_word side }
    ensures short { length result.now ≤ 4 }
{
    match side {
        Some(Side::Bid) => "bid",
        Some(Side::Ask) => "ask",
        None => "none",
    }
}

/// The auction that a call phase ends with.
pub fn kind_word(kind: AuctionKind) -> &'static str
    ensures word { result.now ≡ kind_word kind }
    ensures short { length result.now ≤ 8 }
{
    match kind {
        AuctionKind::Opening => "opening",
        AuctionKind::Intraday => "intraday",
        AuctionKind::Closing => "closing",
    }
}

/// The name of a refusal.
pub fn refusal_name(refused: Refusal) -> &'static str
    ensures name { result.now ≡ refusal_name refused }
    ensures short { length result.now ≤ 12 }
{
    match refused {
        Refusal::BadQuantity => "BadQuantity",
        Refusal::BadLimit => "BadLimit",
        Refusal::BadPeak => "BadPeak",
        Refusal::BookFull => "BookFull",
        Refusal::UnknownOrder => "UnknownOrder",
        Refusal::NotOperator => "NotOperator",
        Refusal::DayOver => "DayOver",
        Refusal::NoSuchTrade => "NoSuchTrade",
        Refusal::PastAuction => "PastAuction",
    }
}
