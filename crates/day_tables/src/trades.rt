//! The table of the day's trades.

ghost use Rattle.std.specs.Prelude.{◌≡◌, ◌≤◌, ◌+◌, ◌++◌, ◌∷◌, [], length, is_some, List, OnOk};
ghost use Rattle.auction_terms.specs.declared.Config.{Config};
ghost use Rattle.auction_terms.specs.declared.Entry.{Entry};
ghost use Rattle.auction_terms.specs.Day.{step};
ghost use Rattle.auction_terms.specs.Auxiliary.RunningAuction.{RunningAuction, auction_after_call, opened_auction};
ghost use Rattle.printed_lines.specs.Printing.{Prints};
ghost use Rattle.printed_lines.specs.declared.page.TheConstants.{LONGEST_LINE, ROOM};
ghost use Rattle.day_tables.specs.AnsweredCalls.{entry_of};
ghost use Rattle.day_tables.specs.TradesRecorder.{HasAllTrades, HasTradesSoFar};
ghost use Rattle.day_tables.specs.TableMembers.{entering_members, member_of_id};
ghost use Rattle.day_tables.specs.TradeTable.{entered_id, auctions_of_reply, trades_header};
ghost use Rattle.day_tables.specs.TradeTable.{trade_record, trade_records, trades_text};

use crate::record::{put_member, put_number, put_word};
use auction::Auction;
use auction_terms::{AuctionKind, Call, Reply, Trade};
use byte_streams::{Sink, WriteFailed};
use printed_lines::{Page, Printer, kind_word};
use std::alloc::{AllocError, Global};

/// Whether an order was entered.
fn is_entered(reply: Reply) -> bool
    ensures { result ≡ is_some (entered_id reply) }
{
    matches!(reply, Reply::Entered { .. })
}

/// Adds the member of a call that entered an order.
fn add_member(members: &mut Vec<u8>, call: &Call, reply: &Reply) -> Result<(), AllocError>
    ensures { OnOk result (members.new.items
        ≡ members.old.items ++ entering_members (entry_of call.now reply.now ∷ [])) }
{
    if is_entered(*reply) {
        members.push(call.member)?;
    }
    Ok(())
}

/// Adds the auction that a reply names, once for each trade that it made.
fn add_auctions(auctions: &mut Vec<AuctionKind>, reply: Reply) -> Result<(), AllocError>
    ensures { OnOk result (auctions.new.items ≡ auctions.old.items ++ auctions_of_reply reply) }
{
    match reply {
        Reply::Uncrossed { kind, trades, .. } => {
            let count = auctions.len() + trades as usize;
            auctions.resize(count, kind)
        }
        _ => Ok(()),
    }
}

/// The member that entered an order.
fn member_who_entered(members: &[u8], id: u32) -> Option<u8>
    ensures { result ≡ member_of_id members.now id }
{
    if id == 0 {
        return None;
    }
    members.get(id as usize - 1).copied()
}

fn put_header(page: &mut Page)
    requires { length page.old + LONGEST_LINE ≤ ROOM }
    ensures { page.new ≡ page.old ++ trades_header }
{
    page.put("trade,auction,bid,bid_member,ask,ask_member,quantity,tick\n");
}

fn print_header<S: Sink>(printer: &mut Printer<'_, S>) -> Result<(), WriteFailed>
    ensures { Prints S.Sink printer.old printer.new result trades_header }
{
    printer.make_room()?;
    put_header(&mut printer.page);
    Ok(())
}

fn put_trade(page: &mut Page, members: &[u8], number: u64, kind: AuctionKind, trade: Trade)
    requires { length page.old + LONGEST_LINE ≤ ROOM }
    ensures { page.new ≡ page.old ++ trade_record (member_of_id members.now) number kind trade }
{
    put_number(page, number);
    put_word(page, kind_word(kind));
    put_number(page, u64::from(trade.bid));
    put_member(page, member_who_entered(members, trade.bid));
    put_number(page, u64::from(trade.ask));
    put_member(page, member_who_entered(members, trade.ask));
    put_number(page, trade.quantity);
    page.put_number(u64::from(trade.tick));
    page.put("\n");
}

fn print_trade<S: Sink>(
    printer: &mut Printer<'_, S>,
    members: &[u8],
    number: u64,
    kind: AuctionKind,
    trade: Trade,
) -> Result<(), WriteFailed>
    ensures { Prints S.Sink printer.old printer.new result
        (trade_record (member_of_id members.now) number kind trade) }
{
    printer.make_room()?;
    put_trade(&mut printer.page, members, number, kind, trade);
    Ok(())
}

/// Prints the trades of a tape, each with its auction.
fn print_tape<S: Sink>(
    printer: &mut Printer<'_, S>,
    members: &[u8],
    kinds: &[AuctionKind],
    tape: &[Trade],
) -> Result<(), WriteFailed>
    ensures { Prints S.Sink printer.old printer.new result
        (trade_records (member_of_id members.now) 0 kinds.now tape.now) }
{
    let count = kinds.len().min(tape.len());
    for place in 0..count {
        print_trade(
            printer,
            members,
            place as u64 + 1,
            kinds[place],
            tape[place],
        )?;
    }
    Ok(())
}

/// Prints the header, and the trades of a tape.
fn print_trade_table<S: Sink>(
    printer: &mut Printer<'_, S>,
    members: &[u8],
    kinds: &[AuctionKind],
    tape: &[Trade],
) -> Result<(), WriteFailed>
    ensures { Prints S.Sink printer.old printer.new result
        (trades_header ++ trade_records (member_of_id members.now) 0 kinds.now tape.now) }
{
    print_header(printer)?;
    print_tape(printer, members, kinds, tape)
}

/// The trades of a day, kept while its calls are applied: the members that entered its orders, id by id; trade by trade
/// the auctions; and the tape, once all calls have come.
#[derive(Drop)]
pub struct TradesRecorder {
    pub(crate) members: Vec<u8>,
    pub(crate) auctions: Vec<AuctionKind>,
    pub(crate) tape: Vec<Trade>,
}

impl TradesRecorder {
    /// No trade yet of a day that was just opened.
    pub fn new(alloc: Global) -> TradesRecorder
        ensures { (auction : RunningAuction) → auction ≡ opened_auction auction.config
            → HasTradesSoFar result auction [] }
    {
        TradesRecorder {
            members: Vec::new(alloc),
            auctions: Vec::new(alloc),
            tape: Vec::new(alloc),
        }
    }

    /// Keeps what the table needs of a call that the auction answered so. The error is that memory is refused.
    pub fn hear(&mut self, call: &Call, reply: &Reply) -> Result<(), AllocError>
        ensures { (auction : RunningAuction) (entries : List Entry)
            → reply.now ≡ (step auction.config auction.state call.now).1
            → HasTradesSoFar self.old auction entries → OnOk result (HasTradesSoFar self.new
            (auction_after_call auction call.now) (entries ++ entry_of call.now reply.now ∷ [])) }
    {
        add_member(&mut self.members, call, reply)?;
        add_auctions(&mut self.auctions, *reply)
    }

    /// Keeps the tape, as all calls of the day have come. The error is that memory is refused.
    pub fn close(&mut self, auction: &Auction) -> Result<(), AllocError>
        ensures { (entries : List Entry) → HasTradesSoFar self.old auction.now entries
            → OnOk result (HasAllTrades self.new auction.now.config entries) }
    {
        self.tape.extend_from_slice(auction.tape())?;
        Ok(())
    }

    /// Prints the trades of the day in the tape's order: the header, and for each trade a record with its number, the
    /// auction that made it, the bid's id and the member that entered it, the ask's id and member, the quantity in
    /// shares and the tick. A write that fails leaves a beginning of the table.
    pub fn print<S: Sink>(&self, printer: &mut Printer<'_, S>) -> Result<(), WriteFailed>
        ensures { (config : Config) (entries : List Entry) → HasAllTrades self.now config entries
            → Prints S.Sink printer.old printer.new result (trades_text config entries) }
    {
        print_trade_table(
            printer,
            self.members.as_slice(),
            self.auctions.as_slice(),
            self.tape.as_slice(),
        )
    }
}
