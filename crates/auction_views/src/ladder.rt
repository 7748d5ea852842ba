//! The rows of a ladder.

ghost use Rattle.std.specs.Prelude.{◌≡◌, ◌<◌, ◌++◌, length, IfOk, OnOk};
ghost use Rattle.auction.specs.AuctionState.{current_orders};
ghost use Rattle.auction_views.specs.LadderRows.{ladder_rows, market_rows_in, rows_at, ladder_rows_below};

use crate::row::LadderRow;
use auction::Auction;
use auction_terms::{Limit, Side};
use std::alloc::{AllocError, Global};
use tick_ladder::Ladder;

/// Adds the row of the market orders, if there are any.
fn add_market(rows: &mut Vec<LadderRow>, ladder: &Ladder) -> Result<(), AllocError>
    ensures { OnOk result (rows.new.items ≡ rows.old.items ++ market_rows_in ladder.now) }
{
    let bid = ladder.market(Side::Bid);
    let ask = ladder.market(Side::Ask);
    if bid == 0 && ask == 0 {
        return Ok(());
    }
    rows.push(LadderRow {
        limit: Limit::Market,
        bid,
        ask,
    })?;
    Ok(())
}

/// Adds the row of a place, counted from the lowest tick, if an order has its limit there.
fn add_place(rows: &mut Vec<LadderRow>, ladder: &Ladder, place: usize) -> Result<(), AllocError>
    requires { place < length ladder.now.bids }
    ensures { OnOk result (rows.new.items ≡ rows.old.items ++ rows_at ladder.now place) }
{
    if !ladder.is_present(place) {
        return Ok(());
    }
    rows.push(LadderRow {
        limit: Limit::At(ladder.low() + place as u32),
        bid: ladder.bids_at(place),
        ask: ladder.asks_at(place),
    })?;
    Ok(())
}

/// Adds the rows of all places, the highest first.
fn add_places(rows: &mut Vec<LadderRow>, ladder: &Ladder) -> Result<(), AllocError>
    ensures { OnOk result (rows.new.items ≡ rows.old.items ++ ladder_rows_below ladder.now (length ladder.now.bids)) }
{
    let mut place = ladder.bids().len();
    'places: while place > 0 {
        place -= 1;
        add_place(rows, ladder, place)?;
    }
    Ok(())
}

/// The rows of the orders that count in the current auction.
pub(crate) fn ladder_rows(alloc: Global, auction: &Auction) -> Result<Vec<LadderRow>, AllocError>
    ensures { IfOk result (λ rows. rows.items
        ≡ ladder_rows auction.now.config (current_orders auction.now.state)) }
{
    let mut rows = Vec::new(alloc);
    let ladder = auction.ladder();
    add_market(&mut rows, ladder)?;
    add_places(&mut rows, ladder)?;
    Ok(rows)
}
