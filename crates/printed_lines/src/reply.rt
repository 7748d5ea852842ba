//! The text of a reply.

ghost use Rattle.std.specs.Prelude.{◌≡◌, ◌≤◌, ◌+◌, ◌++◌, ◌∷◌, [], length, decimal};
ghost use Rattle.auction_terms.specs.declared.Reply.TheVariants as reply;
ghost use Rattle.printed_lines.specs.declared.page.TheConstants.{LONGEST_NUMBER, ROOM};
ghost use Rattle.printed_lines.specs.ReplyWords.{words_text, limit_words, number_word, place_word, price_words};
ghost use Rattle.printed_lines.specs.ReplyWords.{reply_text, side_word};

use crate::page::Page;
use crate::words::{kind_word, refusal_name};
use auction_terms::{AuctionKind, Display, Limit, Price, Reply, Side, Trade};

/// Puts a number on the page, or a dash where there is none.
fn put_number_word(page: &mut Page, number: Option<u32>)
    requires { length page.old + LONGEST_NUMBER ≤ ROOM }
    ensures text { page.new ≡ page.old ++ number_word number }
    ensures longer { length page.new ≤ length page.old + LONGEST_NUMBER }
{
    match number {
        Some(number) => page.put_number(u64::from(number)),
        None => page.put("-"),
    }
}

/// Puts the side of an order on the page, or of a surplus where there is one.
#[inline]
fn put_side(page: &mut Page, side: Option<Side>)
    requires { length page.old + 4 ≤ ROOM }
    ensures text { page.new ≡ page.old ++ side_word side }
    ensures longer { length page.new ≤ length page.old + 4 }
{
    match side {
        Some(Side::Bid) => page.put("bid"),
        Some(Side::Ask) => page.put("ask"),
        None => page.put("none"),
    }
}

/// Puts on the page whether a changed order kept its place in time.
#[inline]
fn put_place(page: &mut Page, kept: bool)
    requires { length page.old + 5 ≤ ROOM }
    ensures text { page.new ≡ page.old ++ place_word kept }
    ensures longer { length page.new ≤ length page.old + 5 }
{
    if kept {
        page.put("kept");
        return;
    }
    page.put("moved");
}

fn put_price(page: &mut Page, price: &Price)
    requires { length page.old + 100 ≤ ROOM }
    ensures text { page.new ≡ page.old ++ words_text (price_words price.now) }
    ensures longer { length page.new ≤ length page.old + 100 }
{
    page.put("price ");
    page.put_number(u64::from(price.tick));
    page.put(" volume ");
    page.put_number(price.volume);
    page.put(" surplus ");
    page.put_number(price.surplus);
    page.put(" ");
    put_side(page, price.side);
}

/// Puts the text of a display on the page, at most 100 bytes.
pub(crate) fn put_display(page: &mut Page, display: &Display)
    requires { length page.old + 100 ≤ ROOM }
    ensures text { page.new ≡ page.old ++ reply_text (reply.Indicated display.now) }
    ensures longer { length page.new ≤ length page.old + 100 }
{
    match display {
        Display::Priced(price) => put_price(page, price),
        Display::Unpriced { best_bid, best_ask } => {
            page.put("no price bid ");
            put_number_word(page, *best_bid);
            page.put(" ask ");
            put_number_word(page, *best_ask);
        }
    }
}

/// Puts what follows an order's open quantity on the page: its limit, and its visible quantity.
fn put_limit(page: &mut Page, limit: Limit, visible: u64)
    requires { length page.old + 60 ≤ ROOM }
    ensures text { page.new ≡ page.old ++ words_text (limit_words limit ++ (decimal visible ∷ [])) }
    ensures longer { length page.new ≤ length page.old + 60 }
{
    match limit {
        Limit::Market => {
            page.put(" market visible ");
            page.put_number(visible);
        }
        Limit::At(tick) => {
            page.put(" at ");
            page.put_number(u64::from(tick));
            page.put(" visible ");
            page.put_number(visible);
        }
    }
}

fn put_open_order(page: &mut Page, side: Side, limit: Limit, quantity: u64, visible: u64)
    requires { length page.old + 100 ≤ ROOM }
    ensures text { page.new ≡ page.old ++ reply_text (reply.OpenOrder side limit quantity visible) }
    ensures longer { length page.new ≤ length page.old + 100 }
{
    page.put("order ");
    put_side(page, Some(side));
    page.put(" ");
    page.put_number(quantity);
    put_limit(page, limit, visible);
}

fn put_trade(page: &mut Page, trade: &Trade)
    requires { length page.old + 100 ≤ ROOM }
    ensures text { page.new ≡ page.old ++ reply_text (reply.Traded trade.now) }
    ensures longer { length page.new ≤ length page.old + 100 }
{
    page.put("trade ");
    page.put_number(u64::from(trade.bid));
    page.put(" ");
    page.put_number(u64::from(trade.ask));
    page.put(" ");
    page.put_number(trade.quantity);
    page.put(" at ");
    page.put_number(u64::from(trade.tick));
}

fn put_uncrossed(page: &mut Page, kind: AuctionKind, price: &Option<Price>, trades: u32)
    requires { length page.old + 150 ≤ ROOM }
    ensures text { page.new ≡ page.old ++ reply_text (reply.Uncrossed kind trades price.now) }
    ensures longer { length page.new ≤ length page.old + 150 }
{
    page.put(kind_word(kind));
    match price {
        None => page.put(" no price"),
        Some(price) => {
            page.put(" ");
            put_price(page, price);
            page.put(" trades ");
            page.put_number(u64::from(trades));
        }
    }
}

/// Puts the text of a reply on the page, at most 150 bytes.
pub fn put_reply(page: &mut Page, reply: &Reply)
    requires { length page.old + 150 ≤ ROOM }
    ensures text { page.new ≡ page.old ++ reply_text reply.now }
    ensures longer { length page.new ≤ length page.old + 150 }
{
    match reply {
        Reply::Entered { id } => {
            page.put("entered ");
            page.put_number(u64::from(*id));
        }
        Reply::Changed { kept } => {
            page.put("changed ");
            put_place(page, *kept);
        }
        Reply::Deleted => page.put("deleted"),
        Reply::OpenOrder {
            side,
            limit,
            quantity,
            visible,
        } => put_open_order(page, *side, *limit, *quantity, *visible),
        Reply::Indicated(display) => put_display(page, display),
        Reply::Traded(trade) => put_trade(page, trade),
        Reply::Uncrossed {
            kind,
            price,
            trades,
        } => put_uncrossed(page, *kind, price, *trades),
        Reply::Interrupted(price) => {
            page.put("interrupted ");
            put_price(page, price);
        }
        Reply::Refused(refused) => {
            page.put("refused ");
            page.put_number(u64::from(refused.number()));
            page.put(" ");
            page.put(refusal_name(*refused));
        }
    }
}
