//! A history printed as a journal.

ghost use Rattle.std.specs.Prelude.{◌≡◌, ◌≤◌, ◌+◌, ◌++◌, ◌∷◌, length, decimal};
ghost use Rattle.printed_lines.specs.declared.page.TheConstants.{LONGEST_LINE, ROOM};
ghost use Rattle.printed_lines.specs.Printing.{Prints};
ghost use Rattle.printed_lines.specs.CsvRecord.{limit_field};
ghost use Rattle.journal.specs.CallFields.{command_fields, enter_ending, number_field, side_field};
ghost use Rattle.journal.specs.PrintedJournal.{call_line, day_line, comma_fields, sizes_text, ticks_text};

use crate::day::DayHeader;
use auction_terms::{Command, Config, Entry, Limit, Restriction, Side};
use byte_streams::{Sink, WriteFailed};
use printed_lines::{Page, Printer, put_reply};

fn put_number_field(page: &mut Page, number: u64)
    requires { length page.old + 21 ≤ ROOM }
    ensures text { page.new ≡ page.old ++ (44 ∷ decimal number) }
    ensures longer { length page.new ≤ length page.old + 21 }
{
    page.put(",");
    page.put_number(number);
}

fn put_optional_field(page: &mut Page, number: Option<u64>)
    requires { length page.old + 21 ≤ ROOM }
    ensures text { page.new ≡ page.old ++ (44 ∷ number_field number) }
    ensures longer { length page.new ≤ length page.old + 21 }
{
    page.put(",");
    if let Some(number) = number {
        page.put_number(number);
    }
}

fn put_range_field(page: &mut Page, range: Option<u32>)
    requires { length page.old + 21 ≤ ROOM }
    ensures text { page.new ≡ page.old ++ (44 ∷ number_field range) }
    ensures longer { length page.new ≤ length page.old + 21 }
{
    match range {
        None => put_optional_field(page, None),
        Some(range) => put_number_field(page, u64::from(range)),
    }
}

fn put_limit_field(page: &mut Page, limit: Limit)
    requires { length page.old + 21 ≤ ROOM }
    ensures text { page.new ≡ page.old ++ (44 ∷ limit_field limit) }
    ensures longer { length page.new ≤ length page.old + 21 }
{
    match limit {
        Limit::Market => page.put(",market"),
        Limit::At(tick) => put_number_field(page, u64::from(tick)),
    }
}

/// Puts a quantity and a limit.
fn put_terms(page: &mut Page, quantity: u64, limit: Limit)
    requires { length page.old + 42 ≤ ROOM }
    ensures text { page.new ≡ page.old ++ (44 ∷ (decimal quantity ++ (44 ∷ limit_field limit))) }
    ensures longer { length page.new ≤ length page.old + 42 }
{
    put_number_field(page, quantity);
    put_limit_field(page, limit);
}

fn put_side_field(page: &mut Page, side: Side)
    requires { length page.old + 4 ≤ ROOM }
    ensures text { page.new ≡ page.old ++ (44 ∷ side_field side) }
    ensures longer { length page.new ≤ length page.old + 4 }
{
    match side {
        Side::Bid => page.put(",bid"),
        Side::Ask => page.put(",ask"),
    }
}

/// Puts the fields that may be left out at the end.
fn put_ending(page: &mut Page, restriction: Restriction, peak: Option<u64>)
    requires { length page.old + 30 ≤ ROOM }
    ensures text { page.new ≡ page.old ++ comma_fields (enter_ending restriction peak) }
    ensures longer { length page.new ≤ length page.old + 30 }
{
    match (restriction, peak) {
        (Restriction::Unrestricted, None) => {}
        (Restriction::Unrestricted, Some(peak)) => put_number_field(page, peak),
        (Restriction::OpeningOnly, peak) => {
            put_optional_field(page, peak);
            page.put(",opening");
        }
        (Restriction::ClosingOnly, peak) => {
            put_optional_field(page, peak);
            page.put(",closing");
        }
    }
}

/// Puts a word and a number after it.
fn put_lone(page: &mut Page, word: &str, number: u32)
    requires { length page.old + length word.now + 21 ≤ ROOM }
    ensures text { page.new ≡ page.old ++ (word.now ++ (44 ∷ decimal number)) }
    ensures longer { length page.new ≤ length page.old + length word.now + 21 }
{
    page.put(word);
    put_number_field(page, u64::from(number));
}

fn put_enter(
    page: &mut Page,
    side: Side,
    restriction: Restriction,
    limit: Limit,
    quantity: u64,
    peak: Option<u64>,
)
    requires { length page.old + 82 ≤ ROOM }
    ensures text { page.new ≡ page.old ++ comma_fields (command_fields
        (Command.Enter side restriction limit quantity peak)) }
    ensures longer { length page.new ≤ length page.old + 82 }
{
    page.put(",enter");
    put_side_field(page, side);
    put_terms(page, quantity, limit);
    put_ending(page, restriction, peak);
}

fn put_change(page: &mut Page, id: u32, limit: Limit, quantity: u64)
    requires { length page.old + 82 ≤ ROOM }
    ensures text { page.new ≡ page.old ++ comma_fields (command_fields (Command.Change id limit quantity)) }
    ensures longer { length page.new ≤ length page.old + 82 }
{
    put_lone(page, ",change", id);
    put_terms(page, quantity, limit);
}

/// Puts the fields of a command after those of its member.
fn put_command(page: &mut Page, command: Command)
    requires { length page.old + 82 ≤ ROOM }
    ensures text { page.new ≡ page.old ++ comma_fields (command_fields command) }
    ensures longer { length page.new ≤ length page.old + 82 }
{
    match command {
        Command::Enter {
            side,
            restriction,
            limit,
            quantity,
            peak,
        } => put_enter(page, side, restriction, limit, quantity, peak),
        Command::Change {
            id,
            limit,
            quantity,
        } => put_change(page, id, limit, quantity),
        Command::Delete { id } => put_lone(page, ",delete", id),
        Command::OrderStatus { id } => put_lone(page, ",status", id),
        Command::Indicate => page.put(",ask"),
        Command::ReadTrade { number } => put_lone(page, ",trade", number),
        Command::Uncross => page.put(",uncross"),
    }
}

/// Puts the fields of an entry and the end of its line.
pub(crate) fn put_entry(page: &mut Page, entry: Entry)
    requires { length page.old + LONGEST_LINE ≤ ROOM }
    ensures { page.new ≡ page.old ++ call_line entry }
{
    page.put_number(u64::from(entry.member));
    put_command(page, entry.command);
    page.put(",");
    put_reply(page, &entry.reply);
    page.put("\n");
}

fn put_ticks(page: &mut Page, config: Config)
    requires { length page.old + 63 ≤ ROOM }
    ensures text { page.new ≡ page.old ++ ticks_text config }
    ensures longer { length page.new ≤ length page.old + 63 }
{
    put_number_field(page, u64::from(config.low));
    put_number_field(page, u64::from(config.high));
    put_number_field(page, u64::from(config.reference));
}

fn put_sizes(page: &mut Page, day: DayHeader)
    requires { length page.old + 84 ≤ ROOM }
    ensures text { page.new ≡ page.old ++ sizes_text day }
    ensures longer { length page.new ≤ length page.old + 84 }
{
    put_number_field(page, u64::from(day.members));
    put_number_field(page, u64::from(day.config.max_open));
    put_number_field(page, u64::from(day.config.max_calls));
    put_range_field(page, day.config.range);
}

/// Puts the record of the day.
pub(crate) fn put_day(page: &mut Page, day: DayHeader)
    requires { length page.old + LONGEST_LINE ≤ ROOM }
    ensures { page.new ≡ page.old ++ day_line day }
{
    page.put("day");
    put_ticks(page, day.config);
    put_sizes(page, day);
    page.put("\n");
}

pub(crate) fn print_day<S: Sink>(
    printer: &mut Printer<'_, S>,
    day: DayHeader,
) -> Result<(), WriteFailed>
    ensures { Prints S.Sink printer.old printer.new result (day_line day) }
{
    printer.make_room()?;
    put_day(&mut printer.page, day);
    Ok(())
}
