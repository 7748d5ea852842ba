//! What is printed of a closed floor.

ghost use Rattle.std.specs.Prelude.{◌≡◌, ◌≤◌, ◌+◌, ◌++◌, length};
ghost use Rattle.printed_lines.specs.declared.page.TheConstants.{ROOM};
ghost use Rattle.printed_lines.specs.Printing.{Prints};
ghost use Rattle.printed_lines.specs.Tally.{audit_line, entries_line, entry_line, member_line, member_lines};
ghost use Rattle.printed_lines.specs.Tally.{history_lines, tally};

use crate::page::Page;
use crate::printer::Printer;
use crate::reply::put_reply;
use auction_terms::Entry;
use byte_streams::{Sink, WriteFailed};

/// Prints how many entries there are.
#[tactic(auto, unfolding(crate::specs::Tally::entries_line))]
pub fn print_entries<S: Sink>(printer: &mut Printer<'_, S>, entries: u64) -> Result<(), WriteFailed>
    ensures { Prints S.Sink printer.old printer.new result (entries_line entries) }
{
    printer.make_room()?;
    let page = &mut printer.page;
    page.put("entries ");
    page.put_number(entries);
    page.put("\n");
    Ok(())
}

#[tactic(auto, unfolding(crate::specs::Tally::member_line))]
fn print_member<S: Sink>(
    printer: &mut Printer<'_, S>,
    member: u64,
    calls: u64,
) -> Result<(), WriteFailed>
    ensures { Prints S.Sink printer.old printer.new result (member_line member calls) }
{
    printer.make_room()?;
    let page = &mut printer.page;
    page.put("member ");
    page.put_number(member);
    page.put(" calls ");
    page.put_number(calls);
    page.put("\n");
    Ok(())
}

fn print_members<S: Sink>(printer: &mut Printer<'_, S>, calls: &[u32]) -> Result<(), WriteFailed>
    ensures { Prints S.Sink printer.old printer.new result (member_lines 0 calls.now) }
{
    for (before, count) in calls.iter().enumerate() {
        print_member(printer, before as u64, u64::from(*count))?;
    }
    Ok(())
}

#[tactic(auto, unfolding(crate::specs::Tally::audit_line))]
fn put_audit(page: &mut Page, first_bad: Option<u64>)
    requires { length page.old + 60 ≤ ROOM }
    ensures { page.new ≡ page.old ++ audit_line first_bad }
{
    match first_bad {
        None => page.put("audit legal\n"),
        Some(place) => {
            page.put("audit bad ");
            page.put_number(place);
            page.put("\n");
        }
    }
}

/// Prints what an audit says: legal, or `first_bad`, the place from 0 of the first entry that breaks the rules.
pub fn print_audit<S: Sink>(
    printer: &mut Printer<'_, S>,
    first_bad: Option<u64>,
) -> Result<(), WriteFailed>
    ensures { Prints S.Sink printer.old printer.new result (audit_line first_bad) }
{
    printer.make_room()?;
    put_audit(&mut printer.page, first_bad);
    Ok(())
}

/// Prints what a closed floor comes to: how many entries its history has, how many calls each member
/// made, by rising numbers, and what the audit says, `first_bad` being the place from 0 of the first
/// entry that breaks the rules.
#[tactic(auto, unfolding(crate::specs::Tally::tally))]
pub fn print_tally<S: Sink>(
    printer: &mut Printer<'_, S>,
    entries: u64,
    calls: &[u32],
    first_bad: Option<u64>,
) -> Result<(), WriteFailed>
    ensures { Prints S.Sink printer.old printer.new result (tally entries calls.now first_bad) }
{
    print_entries(printer, entries)?;
    print_members(printer, calls)?;
    print_audit(printer, first_bad)
}

#[tactic(auto, unfolding(crate::specs::Tally::entry_line))]
fn print_entry<S: Sink>(
    printer: &mut Printer<'_, S>,
    number: u64,
    entry: Entry,
) -> Result<(), WriteFailed>
    ensures { Prints S.Sink printer.old printer.new result (entry_line number entry) }
{
    printer.make_room()?;
    let page = &mut printer.page;
    page.put_number(number);
    page.put(": member ");
    page.put_number(u64::from(entry.member));
    page.put(" ");
    put_reply(page, &entry.reply);
    page.put("\n");
    Ok(())
}

/// Prints a history: a line for each entry, with its number from 1, its member and its reply.
pub fn print_history<S: Sink>(
    printer: &mut Printer<'_, S>,
    entries: &[Entry],
) -> Result<(), WriteFailed>
    ensures { Prints S.Sink printer.old printer.new result (history_lines entries.now) }
{
    for (before, entry) in entries.iter().enumerate() {
        print_entry(printer, before as u64 + 1, *entry)?;
    }
    Ok(())
}
