//! The command line of a call auction board: its options, their ranges and their defaults.
#![tactic(auto)]

ghost use Rattle.std.specs.Prelude.{◌≡◌, IfErr, IfOk, IfSome, Some, codes, option_map};
ghost use Rattle.clap.specs.Walk.{first_of, texts};
ghost use Rattle.settings.specs.Ranges.{IsInRange};
ghost use Rattle.settings.specs.OptionTexts.{HasU32, IsParsed, MayHaveU32, rows_in};
ghost use Rattle.settings.specs.NumberTexts.{number_at};
ghost use Rattle.settings.specs.CommandLine.{AcceptsArguments, IsParseOf, RefusesArguments, MatchesOptions};
ghost use Rattle.settings.specs.declared.fault.ArgumentsFault.TheVariants.{Parse};
ghost use Rattle.settings.specs.Tasks.{is_synced, task_at};

mod fault;
mod options;
mod task;
mod types;

use auction_terms::Config;
use clap::{ArgMatches, Error};
pub use fault::ArgumentsFault;
use std::alloc::Global;
use task::{has_word, task_of};
pub use types::{FloorForm, Form, JournalFile, Listing, Settings, Task, USUAL_RESERVE};

/// The number of an option that has a default.
fn number_of(matches: &ArgMatches<'_>, name: &str) -> u32
    requires { HasU32 name.now (rows_in matches.now) }
    ensures { number_at name.now (rows_in matches.now) ≡ Some result }
{
    matches.get_one::<u32>(name).unwrap()
}

/// The number of an option that may be left out.
fn number_if_given(matches: &ArgMatches<'_>, name: &str) -> Option<u32>
    requires { MayHaveU32 name.now (rows_in matches.now) }
    ensures { number_at name.now (rows_in matches.now) ≡ result }
{
    matches.get_one::<u32>(name)
}

/// The file that keeps a session's commands, where one is asked for.
fn journal_file<'a>(matches: &ArgMatches<'a>) -> Option<JournalFile<'a>>
    ensures name { first_of (codes "journal") (rows_in matches.now) ≡ option_map (λ file. file.name.now) result }
    ensures synced { IfSome result (λ file. file.is_synced ≡ is_synced (rows_in matches.now)) }
{
    let is_synced = !has_word(matches, "sync");
    let name = matches.get_str("journal")?;
    Some(JournalFile { name, is_synced })
}

/// The settings with this task in the matches of a parse of the command.
fn settings_of<'a>(matches: &ArgMatches<'a>, task: Task) -> Settings<'a>
    requires parsed { IsParsed matches.now }
    requires task { task_at (rows_in matches.now) ≡ Some task }
    ensures arguments { MatchesOptions (rows_in matches.now) result }
    ensures ranges { IsInRange result }
{
    let low = number_of(matches, "low");
    let high = number_of(matches, "high");
    let reference = number_of(matches, "reference");
    let max_open = number_of(matches, "open");
    let max_calls = number_of(matches, "calls");
    let range = number_if_given(matches, "range");
    let members = number_of(matches, "members");
    Settings {
        config: Config {
            low,
            high,
            reference,
            max_open,
            max_calls,
            range,
        },
        members: members as u8,
        task,
        journal: journal_file(matches),
    }
}

/// The matches of a parse of the arguments. The error is clap's own, for arguments that it refuses or for refused
/// memory.
fn matches_of<'a>(alloc: Global, arguments: &'a [&'a str]) -> Result<ArgMatches<'a>, Error>
    ensures refused { IfErr result (λ e. RefusesArguments (texts arguments.now) (Parse e)) }
    ensures parsed { IfOk result IsParsed }
    ensures rows { IfOk result (λ matches. IsParseOf (texts arguments.now) (rows_in matches)) }
{
    let command = options::callboard(alloc)?;
    command.try_get_matches_from(arguments)
}

/// Reads the command line: `arguments` is the program's name and then its arguments.
///
/// Prices are in ticks. Each number is the one that its option gives, or the option's default, and is in its option's
/// range; what two options say together is for the auction to judge. An error is clap's own: its text for the help that
/// was asked for, for arguments that are none of these options, a number out of its range or a form that there is not,
/// and for refused memory. Where none of these is so, it is that options don't go together: that `--audit` isn't alone,
/// or that `--live` isn't, or that `--results` was given without `--audit`, or `--reserve`, `--journal` or `--sync`
/// without `--live`, or `--sync` without `--journal`.
pub fn settings<'a>(alloc: Global, arguments: &'a [&'a str]) -> Result<Settings<'a>, ArgumentsFault>
    ensures refused { IfErr result (RefusesArguments (texts arguments.now)) }
    ensures arguments { IfOk result (AcceptsArguments (texts arguments.now)) }
    ensures ranges { IfOk result IsInRange }
{
    let matches = matches_of(alloc, arguments)?;
    let task = task_of(alloc, &matches)?;
    Ok(settings_of(&matches, task))
}
