//! The text of a view.

ghost use Rattle.std.specs.Prelude.{◌≡◌, ◌≤◌, ◌+◌, ◌++◌, length, OnOk};
ghost use Rattle.auction_terms.specs.Day.{display};
ghost use Rattle.printed_lines.specs.KeptText.{kept_text};
ghost use Rattle.printed_lines.specs.declared.page.TheConstants.{LONGEST_LINE, ROOM};
ghost use Rattle.auction_views.specs.ViewText.{auction_word, calls_words, day_view_line, display_line, view_text};

use crate::ladder::ladder_rows;
use crate::table::{put_ladder, put_orders, put_trades};
use crate::view::View;
use auction::Auction;
use auction_terms::{AuctionKind, Reply};
use printed_lines::{KeptText, LONGEST_LINE, Page, ROOM, kind_word, put_reply};
use std::alloc::{AllocError, Global};

/// The word for the current auction, or for the time after the day.
fn auction_word(kind: Option<AuctionKind>) -> &'static str
    ensures word { result.now ≡ auction_word kind }
    ensures short { length result.now ≤ 8 }
{
    match kind {
        Some(kind) => kind_word(kind),
        None => "over",
    }
}

/// Puts the line of what is shown.
#[tactic(auto, unfolding(crate::specs::ViewText::display_line))]
fn put_display(text: &mut KeptText, auction: &mut Auction) -> Result<(), AllocError>
    ensures auction { auction.new ≡ auction.old }
    ensures text { OnOk result (kept_text text.new ≡ kept_text text.old ++ display_line auction.old.state) }
{
    text.make_room()?;
    let display = auction.show();
    let page = &mut text.page;
    page.put("show ");
    put_reply(page, &Reply::Indicated(display));
    page.put("\n");
    Ok(())
}

/// Puts how many calls were made, and how many are left.
fn put_calls(page: &mut Page, auction: &Auction)
    requires { length page.old + 60 ≤ ROOM }
    ensures text { page.new ≡ page.old ++ calls_words auction.now }
    ensures longer { length page.new ≤ length page.old + 60 }
{
    let calls = auction.calls();
    page.put(" calls ");
    page.put_number(u64::from(calls));
    page.put(" left ");
    page.put_number(u64::from(auction.config().max_calls - calls));
}

/// Puts the line of the day on the page.
#[tactic(auto, unfolding(crate::specs::ViewText::day_view_line))]
fn put_day_line(page: &mut Page, auction: &Auction)
    requires { length page.old + LONGEST_LINE ≤ ROOM }
    ensures { page.new ≡ page.old ++ day_view_line auction.now }
{
    page.put("show day ");
    page.put(auction_word(auction.current()));
    page.put(" reference ");
    page.put_number(u64::from(auction.reference()));
    put_calls(page, auction);
    page.put("\n");
}

fn put_day(text: &mut KeptText, auction: &Auction) -> Result<(), AllocError>
    ensures { OnOk result (kept_text text.new ≡ kept_text text.old ++ day_view_line auction.now) }
{
    text.make_room()?;
    put_day_line(&mut text.page, auction);
    Ok(())
}

/// Appends the text of a view to a kept text, and leaves the auction as it was. The error is that memory is refused.
///
/// - `Display`: `show price 200 volume 300 surplus 200 bid`, or `show no price bid 199 ask -`, also after the day.
/// - `Day`: `show day opening reference 200 calls 5 left 65531`; after the day `over` in place of the auction.
/// - `Ladder`: `show ladder K`, and K lines of a limit, and of the shares bid and offered with it. `market` comes
///   first, where market orders count, and then from the highest tick down each limit of an order that counts.
/// - `Trades`: `show trades K`, and K lines of a trade's number, the ids of its bid and its ask, its shares and its
///   tick.
/// - `Orders`: `show orders K`, and K lines of an open order: its id, member, side and limit, the shares that are open,
///   visible and executed of it, and its trading restriction. The bids come first, then the asks, each by price and
///   time; those that wait for another auction too.
#[tactic(auto, unfolding(crate::specs::ViewText::view_text))]
pub fn put_view(
    alloc: Global,
    text: &mut KeptText,
    auction: &mut Auction,
    view: View,
) -> Result<(), AllocError>
    ensures auction { auction.new ≡ auction.old }
    ensures text { OnOk result (kept_text text.new ≡ kept_text text.old ++ view_text auction.old view) }
{
    match view {
        View::Display => put_display(text, auction),
        View::Day => put_day(text, auction),
        View::Ladder => {
            let rows = ladder_rows(alloc, auction)?;
            put_ladder(text, rows.as_slice())
        }
        View::Trades { before } => put_trades(text, auction.tape(), before),
        View::Orders { member } => {
            let listed = auction.open_orders(alloc, member)?;
            put_orders(text, listed.as_slice())
        }
    }
}
