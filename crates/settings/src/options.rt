//! The options of the command line.

ghost use Rattle.std.specs.Prelude.{◌≡◌, IfOk, IfErr, codes, false, map, pos};
ghost use Rattle.clap.specs.Walk.{rule_of};
ghost use Rattle.clap.specs.Simple.{app_of};
ghost use Rattle.clap.specs.Values.{kind_of};
ghost use Rattle.settings.specs.Options.{callboard, flag, word};
ghost use Rattle.settings.specs.Table.{rule_for, rule_for_other, with_rules, without_options};

use auction_terms::{MAX_CALLS, MAX_MEMBERS, MAX_OPEN_ORDERS, MAX_TICK};
use clap::builder::ValueParser;
use clap::error::ErrorKind;
use clap::{Arg, ArgAction, Command, Error, value_parser};
use std::alloc::Global;

/// The version: that of the newest part of CHANGELOG.md.
const VERSION: &str = "2026.11.26";

const ABOUT: &str =
    "A call auction for one instrument: reads an order file, or the journal of a recorded day, from \
    standard input,\nand prints a line for each command's reply. The whole input is read and checked first, but \
    with --live: a bad\none runs no command and prints nothing.";

const AFTER_HELP: &str =
    "Prices are in ticks, quantities in shares. A journal says its day itself: --low to --members \
    are for order files.

Records of an order file, a command each; SIDE is bid or ask, LIMIT a tick or market, ONLY opening or closing:
  member,enter,SIDE,QUANTITY,LIMIT[,PEAK[,ONLY]]  a new order; with a peak an iceberg order
  member,change,ID,QUANTITY,LIMIT                 another limit and open quantity
  member,delete,ID                                takes the order out
  member,status,ID                                what is open of it
  member,ask                                      the indicative price, or the best limits
  member,uncross                                  determines the price and executes (member 0 alone)
  member,trade,NUMBER                             a trade of the day

Example:
  printf '1,enter,bid,500,200\\n2,enter,ask,300,199\\n0,uncross\\n' | callboard
  1: entered 1
  2: entered 2
  3: opening price 200 volume 300 surplus 200 bid trades 1

Formats: the manual page (man callboard) has journals too, docs/FORMATS.md of the repository all records, with the
faults and what is printed.

Status: 0 done, 1 a bad input, 2 a bad command line or bounds, 3 no memory, a read or a write that failed or a board
that couldn't be closed, 4 an audit that found a reply that isn't lawful, 5 an audit of a broken copy";

const PRINT_HELP: &str =
    "What is printed: lines, journal (the day), trades (who with whom), book (at each price) [default: lines]";

const JOURNAL_HELP: &str =
    "With --live, keeps each command on the disk before it is answered, and goes on with what the file has";

/// An option with a number.
#[derive(Clone, Copy)]
struct Number {
    name: &'static str,
    help: &'static str,
    least: u32,
    most: u32,
    /// What it is where it is left out.
    default: Option<&'static str>,
}

static NUMBERS: [Number; 8] = [
    Number {
        name: "low",
        help: "The lowest tick, from 1 to 1000000",
        least: 1,
        most: MAX_TICK,
        default: Some("1"),
    },
    Number {
        name: "high",
        help: "The highest tick, from 1 to 1000000, at most 65535 above the lowest",
        least: 1,
        most: MAX_TICK,
        default: Some("1000"),
    },
    Number {
        name: "reference",
        help: "The first reference price, in ticks, from 1 to 1000000",
        least: 1,
        most: MAX_TICK,
        default: Some("200"),
    },
    Number {
        name: "open",
        help: "How many orders may be open at a time, from 1 to 65536",
        least: 1,
        most: MAX_OPEN_ORDERS,
        default: Some("4096"),
    },
    Number {
        name: "calls",
        help: "How many commands may come, from 1 to 1048576",
        least: 1,
        most: MAX_CALLS,
        default: Some("65536"),
    },
    Number {
        name: "range",
        help: "How many ticks a price may lie from the reference uninterrupted, from 0 to 1000000",
        least: 0,
        most: MAX_TICK,
        default: None,
    },
    Number {
        name: "members",
        help: "How many members there are, numbered from 0, from 1 to 64",
        least: 1,
        most: MAX_MEMBERS as u32,
        default: Some("4"),
    },
    Number {
        name: "reserve",
        help: "With --live, how many of the last commands only member 0 may make, from 0 to 1048576 [default: 16]",
        least: 0,
        most: MAX_CALLS,
        default: None,
    },
];

/// An option with a word, or a flag.
#[derive(Clone, Copy)]
struct Other {
    name: &'static str,
    /// What the help calls its word; a flag has none.
    value: Option<&'static str>,
    help: &'static str,
}

static OTHERS: [Other; 8] = [
    Other {
        name: "floor",
        value: None,
        help: "The members call at once on a board; prints how many calls each made",
    },
    Other {
        name: "history",
        value: None,
        help: "With --floor, prints the board's history too",
    },
    Other {
        name: "print",
        value: Some("WHAT"),
        help: PRINT_HELP,
    },
    Other {
        name: "audit",
        value: None,
        help: "Reads a journal, and tells which recorded replies aren't the lawful ones",
    },
    Other {
        name: "results",
        value: None,
        help: "With --audit, prints the lawful results too: each uncross, and where the day stands",
    },
    Other {
        name: "live",
        value: None,
        help: "Answers each record as it comes; a bad one is told, and the rest goes on",
    },
    Other {
        name: "journal",
        value: Some("FILE"),
        help: JOURNAL_HELP,
    },
    Other {
        name: "sync",
        value: Some("HOW"),
        help: "With --journal, none: commands are written to the file, but not synced to the disk",
    },
];

/// Takes the numbers from `least` to `most`.
fn numbers_between<'a>(least: u32, most: u32) -> ValueParser<'a>
    ensures { result ≡ ValueParser.Signed (pos least) (pos most) }
{
    let least = i64::from(least);
    let most = i64::from(most);
    value_parser!(u32).range(least..=most)
}

fn number_option<'a>(alloc: Global, number: Number) -> Arg<'a>
    ensures rule { rule_of result ≡ rule_for number }
    ensures local { result.global ≡ false }
{
    let parser = numbers_between(number.least, number.most);
    let arg = Arg::new(alloc, number.name)
        .long(number.name)
        .value_name("N")
        .help(number.help)
        .action(ArgAction::Set)
        .value_parser(parser);
    match number.default {
        Some(text) => arg.default_value(text),
        None => arg,
    }
}

fn flag_option<'a>(alloc: Global, name: &'a str, help: &'a str) -> Arg<'a>
    ensures rule { rule_of result ≡ flag name.entry.now }
    ensures local { result.global ≡ false }
{
    Arg::new(alloc, name)
        .long(name)
        .help(help)
        .action(ArgAction::SetTrue)
        .value_parser(value_parser!(bool))
}

/// An option with a word, which the help calls `value`.
fn word_option<'a>(alloc: Global, name: &'a str, value: &'a str, help: &'a str) -> Arg<'a>
    ensures rule { rule_of result ≡ word name.entry.now }
    ensures local { result.global ≡ false }
{
    Arg::new(alloc, name)
        .long(name)
        .value_name(value)
        .help(help)
        .action(ArgAction::Set)
}

fn other_option<'a>(alloc: Global, other: Other) -> Arg<'a>
    ensures rule { rule_of result ≡ rule_for_other other }
    ensures local { result.global ≡ false }
{
    match other.value {
        Some(value) => word_option(alloc, other.name, value, other.help),
        None => flag_option(alloc, other.name, other.help),
    }
}

/// The command with these options with a number too. The error is that memory is refused.
fn with_numbers<'a>(
    alloc: Global,
    mut command: Command<'a>,
    numbers: &[Number],
) -> Result<Command<'a>, Error>
    ensures options { IfOk result (λ c.
        app_of c ≡ with_rules (app_of command.entry) (map rule_for numbers.now)) }
    ensures memory { IfErr result (λ e. kind_of e ≡ ErrorKind.OutOfMemory) }
{
    for number in numbers {
        command = command.arg(number_option(alloc, *number))?;
    }
    Ok(command)
}

/// The command with these other options too. The error is that memory is refused.
fn with_others<'a>(
    alloc: Global,
    mut command: Command<'a>,
    others: &[Other],
) -> Result<Command<'a>, Error>
    ensures options { IfOk result (λ c.
        app_of c ≡ with_rules (app_of command.entry) (map rule_for_other others.now)) }
    ensures memory { IfErr result (λ e. kind_of e ≡ ErrorKind.OutOfMemory) }
{
    for other in others {
        command = command.arg(other_option(alloc, *other))?;
    }
    Ok(command)
}

/// The command with its texts and no option.
fn without_options<'a>(alloc: Global) -> Command<'a>
    ensures { app_of result ≡ without_options }
{
    Command::new(alloc, "callboard")
        .version(VERSION)
        .about(ABOUT)
        .after_help(AFTER_HELP)
}

/// The command with all its options: the numbers in ticks, orders, calls and members, each with its range, the two
/// flags of the members' floor, what is printed, the audit and its results, the answers as records come, and where and
/// how these are kept. The error is that memory is refused.
pub fn callboard<'a>(alloc: Global) -> Result<Command<'a>, Error>
    ensures options { IfOk result (λ c. app_of c ≡ callboard) }
    ensures memory { IfErr result (λ e. kind_of e ≡ ErrorKind.OutOfMemory) }
{
    let command = with_numbers(alloc, without_options(alloc), NUMBERS.as_slice())?;
    with_others(alloc, command, OTHERS.as_slice())
}
