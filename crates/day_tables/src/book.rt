//! The book behind each price of the day.

ghost use Rattle.std.specs.Prelude.{◌≡◌, ◌<◌, ◌≤◌, ◌+◌, ◌-◌, ◌++◌, [], length, None};
ghost use Rattle.std.specs.Prelude.{false, codes, decimal, MatchOption};
ghost use Rattle.auction_terms.specs.declared.Config.{Config};
ghost use Rattle.auction_terms.specs.Day.{State};
ghost use Rattle.printed_lines.specs.Printing.{Prints};
ghost use Rattle.printed_lines.specs.declared.page.TheConstants.{LONGEST_LINE, ROOM};
ghost use Rattle.day_tables.specs.BookTable.{book_header, best_word, table_before};
ghost use Rattle.day_tables.specs.ShownTable.{IsHeadingIn, IsShownIn};
ghost use Rattle.day_tables.specs.TableCurves.{HasRoomForTicks};
ghost use Rattle.day_tables.specs.TableRows.{HasPlaces, HasHead, side_between, is_row, row, row_end, row_if};
ghost use Rattle.day_tables.specs.TableRows.{table_rows_below, market_table_row, is_at_price, rule_at, tick_shown};
ghost use Rattle.day_tables.specs.declared.front_text.TheConstants.{SHORT, TEXT_ROOM};

use crate::curves::Curves;
use crate::front_text::{Figure, FrontText};
use crate::record::{put_number, put_word};
use crate::rule::{Rule, rule_word};
use auction::Auction;
use auction_terms::{AuctionKind, Config, Display, Side};
use byte_streams::{Sink, WriteFailed};
use printed_lines::{Page, Printer, kind_word, side_word};
use tick_ladder::Ladder;

/// A table that is printed, with its numbers tick by tick from the lowest tick on.
#[derive(Clone, Copy)]
pub(crate) struct Table<'a> {
    /// The number of the command that it comes before.
    pub command: u64,
    pub kind: AuctionKind,
    pub market_bids: u64,
    pub market_asks: u64,
    /// The lowest tick.
    pub low: u32,
    pub bids: &'a [u64],
    pub asks: &'a [u64],
    pub curves: &'a Curves,
    /// The tick of the price, if there is one, and then the rule that decides it.
    pub price: Option<u32>,
    pub rule: Rule,
}

/// The side of a surplus.
fn side_of(demand: u64, supply: u64) -> Option<Side>
    ensures { result ≡ side_between demand supply }
{
    if supply < demand {
        return Some(Side::Bid);
    }
    if demand < supply {
        return Some(Side::Ask);
    }
    None
}

/// The word for a best limit, or for another tick.
fn best_word(best: bool) -> &'static str
    ensures word { result.now ≡ best_word best }
    ensures short { length result.now ≤ 1 }
{
    if best { "1" } else { "0" }
}

/// The tick at a place.
fn tick_at(table: &Table<'_>, place: usize) -> u32
    requires places { HasPlaces table.now }
    requires place { place < length table.now.bids.now }
    ensures { result ≡ table.now.low + place }
{
    table.low + place as u32
}

/// Whether the price is at a tick.
fn is_at_price(table: &Table<'_>, tick: u32) -> bool
    ensures { result ≡ is_at_price table.now tick }
{
    match table.price {
        Some(price) => price == tick,
        None => false,
    }
}

/// Whether an order has its limit at a place, or it is the price.
fn is_row(table: &Table<'_>, place: usize) -> bool
    requires places { HasPlaces table.now }
    requires place { place < length table.now.bids.now }
    ensures { result ≡ is_row table.now place }
{
    table.bids[place] > 0 || table.asks[place] > 0 || is_at_price(table, tick_at(table, place))
}

/// The word of the rule, at the price.
fn rule_word_at(table: &Table<'_>, tick: u32) -> &'static str
    ensures word { result.now ≡ rule_at table.now tick }
    ensures short { length result.now ≤ 9 }
{
    if is_at_price(table, tick) {
        rule_word(table.rule)
    } else {
        ""
    }
}

/// What is kept from row to row of a table.
#[derive(Drop)]
pub(crate) struct RowsSoFar {
    /// The fields that each row begins with.
    pub head: FrontText,
    /// The demand and the supply of the last row.
    pub demand: Figure,
    pub supply: Figure,
    /// The last row.
    pub text: FrontText,
}

/// The rows of a table, none of which is there yet.
fn rows_of(table: &Table<'_>) -> RowsSoFar
    ensures { HasHead table.now result }
{
    let mut head = FrontText::new();
    head.put(",");
    head.put(kind_word(table.kind));
    head.put_number(table.command);
    RowsSoFar {
        head,
        demand: Figure::new(),
        supply: Figure::new(),
        text: FrontText::new(),
    }
}

/// Puts the end of a row that is neither best nor the price.
#[inline(always)]
fn put_plain_end(text: &mut FrontText, side: Option<Side>)
    requires { text.old ≡ [] }
    ensures text { text.new ≡ row_end side false [] }
    ensures short { length text.new ≤ SHORT }
{
    match side {
        Some(Side::Bid) => text.put("bid,0,\n"),
        Some(Side::Ask) => text.put("ask,0,\n"),
        None => text.put("none,0,\n"),
    }
}

/// Puts the end of a row.
fn put_marked_end(text: &mut FrontText, side: Option<Side>, best: bool, rule: &str)
    requires empty { text.old ≡ [] }
    requires rule { length rule.now ≤ 9 }
    ensures text { text.new ≡ row_end side best rule.now }
    ensures short { length text.new ≤ SHORT }
{
    text.put("\n");
    text.put(rule);
    text.put(",");
    text.put(best_word(best));
    text.put(",");
    text.put(side_word(side));
}

/// Puts the end of the row of a tick.
#[inline(always)]
fn put_end(text: &mut FrontText, table: &Table<'_>, tick: u32, side: Option<Side>, best: bool)
    requires { text.old ≡ [] }
    ensures text { text.new ≡ row_end side best (rule_at table.now tick) }
    ensures short { length text.new ≤ SHORT }
{
    if best || is_at_price(table, tick) {
        put_marked_end(text, side, best, rule_word_at(table, tick));
        return;
    }
    put_plain_end(text, side);
}

/// Puts a volume, which is mostly the demand or the supply.
#[inline(always)]
fn put_volume(text: &mut FrontText, volume: u64, demand: &Figure, supply: &Figure)
    requires { length text.old + SHORT ≤ TEXT_ROOM }
    ensures text { text.new ≡ decimal volume ++ (codes "," ++ text.old) }
    ensures longer { length text.new ≤ length text.old + SHORT }
{
    if volume == demand.number() {
        text.put_figure(demand);
        return;
    }
    if volume == supply.number() {
        text.put_figure(supply);
        return;
    }
    text.put_number(volume);
}

/// Writes the row of a place.
fn write_row(rows: &mut RowsSoFar, table: &Table<'_>, place: usize)
    requires places { HasPlaces table.now }
    requires place { place < length table.now.bids.now }
    requires head { HasHead table.now rows.old }
    ensures text { rows.new.text ≡ row table.now place }
    ensures head { HasHead table.now rows.new }
{
    let tick = tick_at(table, place);
    let demand = table.curves.demands[place];
    let supply = table.curves.supplies[place];
    let best = table.curves.best[place] == 1;
    rows.demand.follow(demand);
    rows.supply.follow(supply);
    rows.text.clear();
    put_end(&mut rows.text, table, tick, side_of(demand, supply), best);
    rows.text.put_number(table.curves.surpluses[place]);
    put_volume(
        &mut rows.text,
        table.curves.volumes[place],
        &rows.demand,
        &rows.supply,
    );
    rows.text.put_figure(&rows.supply);
    rows.text.put_figure(&rows.demand);
    rows.text.put_number(table.asks[place]);
    rows.text.put_number(table.bids[place]);
    rows.text.put_number(u64::from(tick));
    rows.text.put_short(&rows.head);
}

fn put_market(page: &mut Page, table: &Table<'_>)
    requires { length page.old + LONGEST_LINE ≤ ROOM }
    ensures { page.new ≡ page.old ++ market_table_row table.now }
{
    put_number(page, table.command);
    put_word(page, kind_word(table.kind));
    put_word(page, "market");
    put_number(page, table.market_bids);
    page.put_number(table.market_asks);
    page.put(",,,,,,,\n");
}

/// Prints the record of the market orders.
fn print_market<S: Sink>(printer: &mut Printer<'_, S>, table: &Table<'_>) -> Result<(), WriteFailed>
    ensures { Prints S.Sink printer.old printer.new result (market_table_row table.now) }
{
    printer.make_room()?;
    put_market(&mut printer.page, table);
    Ok(())
}

fn print_row<S: Sink>(
    printer: &mut Printer<'_, S>,
    rows: &mut RowsSoFar,
    table: &Table<'_>,
    place: usize,
) -> Result<(), WriteFailed>
    requires places { HasPlaces table.now }
    requires place { place < length table.now.bids.now }
    requires head { HasHead table.now rows.old }
    ensures printed { Prints S.Sink printer.old printer.new result (row table.now place) }
    ensures head { HasHead table.now rows.new }
{
    write_row(rows, table, place);
    printer.make_room()?;
    printer.page.put_bytes(rows.text.as_slice());
    Ok(())
}

/// Prints the record of a place, if an order has its limit there or it is the price.
fn print_place<S: Sink>(
    printer: &mut Printer<'_, S>,
    rows: &mut RowsSoFar,
    table: &Table<'_>,
    place: usize,
) -> Result<(), WriteFailed>
    requires places { HasPlaces table.now }
    requires place { place < length table.now.bids.now }
    requires head { HasHead table.now rows.old }
    ensures printed { Prints S.Sink printer.old printer.new result (row_if table.now place) }
    ensures head { HasHead table.now rows.new }
{
    if !is_row(table, place) {
        return Ok(());
    }
    print_row(printer, rows, table, place)
}

/// Prints the records of all places, the highest first.
fn print_places<S: Sink>(printer: &mut Printer<'_, S>, table: &Table<'_>) -> Result<(), WriteFailed>
    requires { HasPlaces table.now }
    ensures { Prints S.Sink printer.old printer.new result (table_rows_below table.now (length table.now.bids.now)) }
{
    let mut rows = rows_of(table);
    let mut place = table.bids.len();
    'places: while place > 0 {
        place -= 1;
        print_place(printer, &mut rows, table, place)?;
    }
    Ok(())
}

/// Prints all records of a table.
fn print_rows<S: Sink>(printer: &mut Printer<'_, S>, table: &Table<'_>) -> Result<(), WriteFailed>
    requires { HasPlaces table.now }
    ensures { Prints S.Sink printer.old printer.new result
        (market_table_row table.now ++ table_rows_below table.now (length table.now.bids.now)) }
{
    print_market(printer, table)?;
    print_places(printer, table)
}

/// The tick of the price that is shown, if one is.
fn price_shown(display: Display) -> Option<u32>
    ensures { result ≡ tick_shown display }
{
    match display {
        Display::Priced(price) => Some(price.tick),
        Display::Unpriced { .. } => None,
    }
}

/// What a table is printed from beside its ladder: the number of the command that it comes before, the current auction,
/// and the tick of the price, if there is one.
#[derive(Clone, Copy)]
pub(crate) struct Heading {
    pub command: u64,
    pub kind: AuctionKind,
    pub price: Option<u32>,
}

/// Prints the table of a ladder.
pub(crate) fn print_ladder<S: Sink>(
    printer: &mut Printer<'_, S>,
    ladder: &Ladder,
    heading: Heading,
    curves: &mut Curves,
) -> Result<(), WriteFailed>
    requires { HasRoomForTicks (length ladder.now.bids) curves.old }
    ensures printed { (config : Config) (state : State) → IsShownIn config state heading ladder.now
        → Prints S.Sink printer.old printer.new result (table_before config heading.command state) }
    ensures room { HasRoomForTicks (length ladder.now.bids) curves.new }
{
    curves.follow(ladder);
    let rule = curves.rule();
    let table = Table {
        command: heading.command,
        kind: heading.kind,
        market_bids: ladder.market(Side::Bid),
        market_asks: ladder.market(Side::Ask),
        low: ladder.low(),
        bids: ladder.bids(),
        asks: ladder.asks(),
        curves,
        price: heading.price,
        rule,
    };
    print_rows(printer, &table)
}

/// The heading of the table of the current auction when a command comes, until the day is over.
pub(crate) fn heading_of(auction: &mut Auction, command: u64) -> Option<Heading>
    ensures auction { auction.new ≡ auction.old }
    ensures heading { MatchOption result (auction.old.state.auction ≡ None)
        (λ heading. IsHeadingIn auction.old.state command heading) }
{
    let kind = auction.current()?;
    let price = price_shown(auction.show());
    Some(Heading {
        command,
        kind,
        price,
    })
}

pub(crate) fn print_header<S: Sink>(printer: &mut Printer<'_, S>) -> Result<(), WriteFailed>
    ensures { Prints S.Sink printer.old printer.new result book_header }
{
    printer.make_room()?;
    let page = &mut printer.page;
    page.put("command,auction,limit,bid,ask,demand,supply,volume,surplus,side,best,price\n");
    Ok(())
}
