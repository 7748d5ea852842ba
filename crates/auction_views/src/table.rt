//! A table: a line that says how many follow, and these.

ghost use Rattle.std.specs.Prelude.{◌≡◌, ◌≤◌, ◌++◌, codes, drop, length, map, OnOk};
ghost use Rattle.printed_lines.specs.KeptText.{kept_text};
ghost use Rattle.printed_lines.specs.ReplyWords.{words_text};
ghost use Rattle.auction_views.specs.TableLines.{heading, ladder_line, order_line, table_text, trade_line, trade_lines};

use crate::row::{LadderRow, put_ladder_line, put_order_line, put_trade_line};
use auction_terms::{OpenOrder, Trade};
use printed_lines::KeptText;
use std::alloc::AllocError;

/// Puts the line that says how many lines follow.
#[tactic(auto, unfolding(crate::specs::TableLines::heading))]
fn put_heading(text: &mut KeptText, name: &str, lines: usize) -> Result<(), AllocError>
    requires { length name.now ≤ 10 }
    ensures { OnOk result (kept_text text.new ≡ kept_text text.old ++ heading name.now lines) }
{
    text.make_room()?;
    let page = &mut text.page;
    page.put("show ");
    page.put(name);
    page.put(" ");
    page.put_number(lines as u64);
    page.put("\n");
    Ok(())
}

/// Appends the line of a limit to a text.
fn put_row(text: &mut KeptText, row: LadderRow) -> Result<(), AllocError>
    ensures { OnOk result (kept_text text.new ≡ kept_text text.old ++ ladder_line row) }
{
    text.make_room()?;
    put_ladder_line(&mut text.page, row);
    Ok(())
}

fn put_rows(text: &mut KeptText, rows: &[LadderRow]) -> Result<(), AllocError>
    ensures { OnOk result (kept_text text.new ≡ kept_text text.old ++ words_text (map ladder_line rows.now)) }
{
    for row in rows {
        put_row(text, *row)?;
    }
    Ok(())
}

/// Appends the table of a ladder to a text.
pub(crate) fn put_ladder(text: &mut KeptText, rows: &[LadderRow]) -> Result<(), AllocError>
    ensures { OnOk result (kept_text text.new
        ≡ kept_text text.old ++ table_text (codes "ladder") (map ladder_line rows.now)) }
{
    put_heading(text, "ladder", rows.len())?;
    put_rows(text, rows)
}

fn put_trade(text: &mut KeptText, number: u64, trade: Trade) -> Result<(), AllocError>
    ensures { OnOk result (kept_text text.new ≡ kept_text text.old ++ trade_line number trade) }
{
    text.make_room()?;
    put_trade_line(&mut text.page, number, trade);
    Ok(())
}

/// Puts the lines of the trades from a place on.
fn put_trade_lines(text: &mut KeptText, tape: &[Trade], from: usize) -> Result<(), AllocError>
    ensures { OnOk result
        (kept_text text.new ≡ kept_text text.old ++ words_text (trade_lines from (drop from tape.now))) }
{
    for place in from..tape.len() {
        put_trade(text, place as u64 + 1, tape[place])?;
    }
    Ok(())
}

/// Appends the table of the trades after the first `before` ones to a text.
pub(crate) fn put_trades(text: &mut KeptText, tape: &[Trade], before: u32) -> Result<(), AllocError>
    ensures { OnOk result (kept_text text.new
        ≡ kept_text text.old ++ table_text (codes "trades") (trade_lines before (drop before tape.now))) }
{
    let lines = tape.len().saturating_sub(before as usize);
    put_heading(text, "trades", lines)?;
    put_trade_lines(text, tape, before as usize)
}

fn put_order(text: &mut KeptText, listed: OpenOrder) -> Result<(), AllocError>
    ensures { OnOk result (kept_text text.new ≡ kept_text text.old ++ order_line listed) }
{
    text.make_room()?;
    put_order_line(&mut text.page, listed);
    Ok(())
}

fn put_order_lines(text: &mut KeptText, listed: &[OpenOrder]) -> Result<(), AllocError>
    ensures { OnOk result (kept_text text.new ≡ kept_text text.old ++ words_text (map order_line listed.now)) }
{
    for order in listed {
        put_order(text, *order)?;
    }
    Ok(())
}

/// Appends the table of open orders to a text.
pub(crate) fn put_orders(text: &mut KeptText, listed: &[OpenOrder]) -> Result<(), AllocError>
    ensures { OnOk result (kept_text text.new
        ≡ kept_text text.old ++ table_text (codes "orders") (map order_line listed.now)) }
{
    put_heading(text, "orders", listed.len())?;
    put_order_lines(text, listed)
}
