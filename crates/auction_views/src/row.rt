//! The rows of views as lines.

ghost use Rattle.std.specs.Prelude.{◌≡◌, ◌≤◌, ◌+◌, ◌++◌, Some, codes, decimal, length};
ghost use Rattle.printed_lines.specs.declared.page.TheConstants.{LONGEST_LINE, LONGEST_NUMBER, ROOM};
ghost use Rattle.printed_lines.specs.CsvRecord.{limit_field};
ghost use Rattle.printed_lines.specs.ReplyWords.{side_word};
ghost use Rattle.auction_views.specs.TableLines.{ladder_line, order_line, restriction_word, trade_line};

use auction_terms::{Limit, OpenOrder, Restriction, Side, Trade};
use printed_lines::{Page, side_word};

/// The shares with one limit.
#[derive(Clone, Copy, Debug, PartialEq, Eq)]
pub(crate) struct LadderRow {
    pub limit: Limit,
    pub bid: u64,
    pub ask: u64,
}

/// Puts a number and a comma on the page.
fn put_number(page: &mut Page, number: u64)
    requires { length page.old + LONGEST_NUMBER + 1 ≤ ROOM }
    ensures text { page.new ≡ page.old ++ (decimal number ++ codes ",") }
    ensures longer { length page.new ≤ length page.old + LONGEST_NUMBER + 1 }
{
    page.put_number(number);
    page.put(",");
}

/// Puts a limit and a comma on the page.
fn put_limit(page: &mut Page, limit: Limit)
    requires { length page.old + LONGEST_NUMBER + 1 ≤ ROOM }
    ensures text { page.new ≡ page.old ++ (limit_field limit ++ codes ",") }
    ensures longer { length page.new ≤ length page.old + LONGEST_NUMBER + 1 }
{
    match limit {
        Limit::Market => page.put("market,"),
        Limit::At(tick) => put_number(page, u64::from(tick)),
    }
}

/// The word for the auctions that an order is for: none for every auction.
fn restriction_word(restriction: Restriction) -> &'static str
    ensures word { result.now ≡ restriction_word restriction }
    ensures short { length result.now ≤ 7 }
{
    match restriction {
        Restriction::Unrestricted => "",
        Restriction::OpeningOnly => "opening",
        Restriction::ClosingOnly => "closing",
    }
}

/// Puts the line of a limit on the page.
#[tactic(auto, unfolding(crate::specs::TableLines::ladder_line))]
pub(crate) fn put_ladder_line(page: &mut Page, row: LadderRow)
    requires { length page.old + LONGEST_LINE ≤ ROOM }
    ensures { page.new ≡ page.old ++ ladder_line row }
{
    put_limit(page, row.limit);
    put_number(page, row.bid);
    page.put_number(row.ask);
    page.put("\n");
}

/// Puts the line of a trade on the page, with its number from 1.
#[tactic(auto, unfolding(crate::specs::TableLines::trade_line))]
pub(crate) fn put_trade_line(page: &mut Page, number: u64, trade: Trade)
    requires { length page.old + LONGEST_LINE ≤ ROOM }
    ensures { page.new ≡ page.old ++ trade_line number trade }
{
    put_number(page, number);
    put_number(page, u64::from(trade.bid));
    put_number(page, u64::from(trade.ask));
    put_number(page, trade.quantity);
    page.put_number(u64::from(trade.tick));
    page.put("\n");
}

/// Puts a side and a comma on the page.
fn put_side(page: &mut Page, side: Side)
    requires { length page.old + 5 ≤ ROOM }
    ensures text { page.new ≡ page.old ++ (side_word (Some side) ++ codes ",") }
    ensures longer { length page.new ≤ length page.old + 5 }
{
    page.put(side_word(Some(side)));
    page.put(",");
}

/// Puts the line of an open order on the page.
#[tactic(auto, unfolding(crate::specs::TableLines::order_line))]
pub(crate) fn put_order_line(page: &mut Page, listed: OpenOrder)
    requires { length page.old + LONGEST_LINE ≤ ROOM }
    ensures { page.new ≡ page.old ++ order_line listed }
{
    let order = listed.order;
    put_number(page, u64::from(order.id));
    put_number(page, u64::from(order.member));
    put_side(page, order.side);
    put_limit(page, order.limit);
    put_number(page, order.quantity);
    put_number(page, listed.visible);
    put_number(page, listed.filled);
    page.put(restriction_word(order.restriction));
    page.put("\n");
}
