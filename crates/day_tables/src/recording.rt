//! The book behind each price of a day, kept while the day's calls are applied.

ghost use Rattle.std.specs.Prelude.{◌≡◌, ◌+◌, ◌-◌, ◌++◌, ◌∷◌, [], ℕ, List, IfOk, OnOk};
ghost use Rattle.auction_terms.specs.declared.Config.{Config};
ghost use Rattle.auction_terms.specs.declared.Entry.{Entry};
ghost use Rattle.auction_terms.specs.Day.{is_uncross_reply, step};
ghost use Rattle.auction_terms.specs.Auxiliary.RunningAuction.{auction_after_call, opened_auction};
ghost use Rattle.printed_lines.specs.Printing.{Prints};
ghost use Rattle.day_tables.specs.BookTable.{book_text, table_before};
ghost use Rattle.day_tables.specs.BookRecorder.{AreTables, HasTablesSoFar, HasAllTables};
ghost use Rattle.day_tables.specs.AnsweredCalls.{entry_of, is_uncross_command};
ghost use Rattle.day_tables.specs.TableCurves.{HasRoomForTicks};

use crate::book::{Heading, heading_of, print_header, print_ladder};
use crate::curves::Curves;
use auction::Auction;
use auction_terms::{Call, Command};
use byte_streams::{Sink, WriteFailed};
use printed_lines::Printer;
use std::alloc::{AllocError, Global};
use tick_ladder::Ladder;

/// A table that is kept until it is printed.
#[derive(Drop)]
pub(crate) struct RecordedTable {
    pub heading: Heading,
    pub ladder: Ladder,
}

/// The tables of a day's book, at most one for each accepted uncross and one for the end, with room for the curves of
/// one.
#[derive(Drop)]
pub struct BookRecorder {
    pub(crate) tables: Vec<RecordedTable>,
    pub(crate) curves: Curves,
}

/// Whether a command asks for an uncross.
fn is_uncross_command(command: Command) -> bool
    ensures { result ≡ is_uncross_command command }
{
    matches!(command, Command::Uncross)
}

/// Whether a call will be answered as an uncross that is accepted, an interrupted one too.
fn will_uncross(auction: &Auction, call: Call) -> bool
    ensures { result ≡ is_uncross_reply (step auction.now.config auction.now.state call).1 }
{
    if !is_uncross_command(call.command) {
        return false;
    }
    if call.member != 0 {
        return false;
    }
    auction.current().is_some()
}

/// Prints tables, with these curves.
fn print_tables<S: Sink>(
    printer: &mut Printer<'_, S>,
    tables: &[RecordedTable],
    curves: &mut Curves,
) -> Result<(), WriteFailed>
    requires { (config : Config) × (text : List ℕ) × HasRoomForTicks (config.high + 1 - config.low) curves.old
        × AreTables config tables.now text }
    ensures { (config : Config) (text : List ℕ) → AreTables config tables.now text
        → Prints S.Sink printer.old printer.new result text }
{
    for table in tables {
        print_ladder(printer, &table.ladder, table.heading, curves)?;
    }
    Ok(())
}

impl BookRecorder {
    /// No table yet of a day that was just opened. The error is that memory is refused.
    pub fn open(alloc: Global, auction: &Auction) -> Result<BookRecorder, AllocError>
        ensures { auction.now ≡ opened_auction auction.now.config
            → IfOk result (λ book. HasTablesSoFar book auction.now []) }
    {
        let curves = Curves::open(alloc, auction.ladder().bids().len())?;
        Ok(BookRecorder {
            tables: Vec::new(alloc),
            curves,
        })
    }

    /// Keeps the table of the current auction when its next command comes, until the day is over.
    fn record_table(&mut self, alloc: Global, auction: &mut Auction) -> Result<(), AllocError>
        ensures auction { auction.new ≡ auction.old }
        ensures curves { self.new.curves ≡ self.old.curves }
        ensures tables { (front : List ℕ) → AreTables auction.old.config self.old.tables.items front
            → OnOk result (AreTables auction.old.config self.new.tables.items
            (front ++ table_before auction.old.config (auction.old.calls + 1) auction.old.state)) }
    {
        let command = u64::from(auction.calls()) + 1;
        let Some(heading) = heading_of(auction, command) else {
            return Ok(());
        };
        let ladder = auction.ladder().copied(alloc)?;
        self.tables.push(RecordedTable { heading, ladder })?;
        Ok(())
    }

    /// Keeps the table before the auction's next call, if that is an uncross that will be accepted. The error is that
    /// memory is refused.
    pub fn record_before(
        &mut self,
        alloc: Global,
        auction: &mut Auction,
        call: &Call,
    ) -> Result<(), AllocError>
        ensures auction { auction.new ≡ auction.old }
        ensures kept { (entries : List Entry) → HasTablesSoFar self.old auction.old entries
            → OnOk result (HasTablesSoFar self.new (auction_after_call auction.old call.now)
            (entries ++ entry_of call.now (step auction.old.config auction.old.state call.now).1 ∷ [])) }
    {
        if !will_uncross(auction, *call) {
            return Ok(());
        }
        self.record_table(alloc, auction)
    }

    /// Keeps the table at the end of the input, if the day isn't over. The error is that memory is refused.
    pub fn close(&mut self, alloc: Global, auction: &mut Auction) -> Result<(), AllocError>
        ensures { (entries : List Entry) → HasTablesSoFar self.old auction.old entries
            → OnOk result (HasAllTables self.new auction.old.config entries) }
    {
        self.record_table(alloc, auction)
    }

    /// Prints the book behind each price of the day: the header, and a table before each uncross that was accepted, an
    /// interrupted one too, and at the end if the day isn't over. A table is of the orders that count in the current
    /// auction. Its records begin with the number of the command that comes next, from 1, and the auction.
    ///
    /// - A record with the limit `market` has the shares of the market bids and asks.
    /// - From the highest tick down there is a record for each tick that is the limit of an order or the price: the
    ///   shares bid and offered with that limit, demand, supply, volume and surplus there in shares, the side of the
    ///   surplus, 1 for a best limit and else 0, and at the price the rule that decides it.
    ///
    /// A write that fails leaves a beginning of the tables.
    pub fn print<S: Sink>(&mut self, printer: &mut Printer<'_, S>) -> Result<(), WriteFailed>
        requires { (config : Config) × (entries : List Entry) × HasAllTables self.old config entries }
        ensures { (config : Config) (entries : List Entry) → HasAllTables self.old config entries
            → Prints S.Sink printer.old printer.new result (book_text config entries) }
    {
        print_header(printer)?;
        print_tables(printer, &self.tables, &mut self.curves)
    }
}
