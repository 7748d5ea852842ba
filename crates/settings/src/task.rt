//! What is done with the input.

ghost use Rattle.std.specs.Prelude.{◌≡◌, ◌⊎◌, [], Some, IfErr, IfOk, codes, is_some, option_map};
ghost use Rattle.clap.specs.Kinds.{FailsBy};
ghost use Rattle.clap.specs.Walk.{first_of};
ghost use Rattle.clap.specs.Values.{kind_of};
ghost use Rattle.clap.specs.declared.error.kind.ErrorKind.TheVariants.{InvalidValue, OutOfMemory};
ghost use Rattle.settings.specs.NumberTexts.{number_at};
ghost use Rattle.settings.specs.OptionTexts.{HasSwitch, IsParsed, rows_in};
ghost use Rattle.settings.specs.Tasks.{IsWellMixed, RefusesTask, floor_form, wanted_form, form_kinds, form_of};
ghost use Rattle.settings.specs.Tasks.{is_audit_mixed, is_given, is_journal_missing, is_live_missing, is_live_mixed};
ghost use Rattle.settings.specs.Tasks.{is_results_alone, reserve_at, sync_in, sync_kinds, task_at, task_kinds, word_in};
ghost use Rattle.settings.specs.declared.types.Task.TheVariants.{Live};

use crate::fault::ArgumentsFault;
use crate::types::{FloorForm, Form, Listing, Task, USUAL_RESERVE};
use crate::{number_if_given, options};
use clap::error::ErrorKind;
use clap::{ArgMatches, Command, Error};
use std::alloc::Global;

fn flag_of(matches: &ArgMatches<'_>, name: &str) -> bool
    requires { HasSwitch name.now (rows_in matches.now) }
    ensures { is_given name.now (rows_in matches.now) ≡ result }
{
    matches.get_flag(name)
}

/// The form that a word names.
fn form_of(word: &str) -> Option<Form>
    ensures { result ≡ form_of word.now }
{
    if word == "lines" {
        Some(Form::Lines)
    } else if word == "journal" {
        Some(Form::Listing(Listing::Journal))
    } else if word == "trades" {
        Some(Form::Listing(Listing::Trades))
    } else if word == "book" {
        Some(Form::Listing(Listing::Book))
    } else {
        None
    }
}

/// What is said of a word that isn't one of those that an option takes. The error is that memory is refused.
fn unknown_text(alloc: Global, word: &str, option: &str, possible: &str) -> Result<String, Error>
    ensures { IfErr result (λ e. kind_of e ≡ OutOfMemory) }
{
    let text = format!(in alloc;
        "invalid value '{word}' for '{option}'\n  [possible values: {possible}]"
    )?;
    Ok(text)
}

/// What a command says of a bad value, in these arguments. The other error is that memory is refused.
fn invalid_value_of(command: &mut Command<'_>, text: &str) -> Result<Error, Error>
    ensures kind { IfOk result (λ e. kind_of e ≡ InvalidValue) }
    ensures memory { IfErr result (λ e. kind_of e ≡ OutOfMemory) }
{
    Ok(command.error(ErrorKind::InvalidValue, text)?)
}

/// What `clap` would say of a bad value, in these arguments. The other error is that memory is refused.
fn invalid_value(alloc: Global, text: &str) -> Result<Error, Error>
    ensures kind { IfOk result (λ e. kind_of e ≡ InvalidValue) }
    ensures memory { IfErr result (λ e. kind_of e ≡ OutOfMemory) }
{
    let mut command = options::callboard(alloc)?;
    invalid_value_of(&mut command, text)
}

/// What `clap` would say of a word that isn't one of those that an option takes.
fn unknown_word(alloc: Global, word: &str, option: &str, possible: &str) -> Result<Error, Error>
    ensures kind { IfOk result (λ e. kind_of e ≡ InvalidValue) }
    ensures memory { IfErr result (λ e. kind_of e ≡ OutOfMemory) }
{
    let text = unknown_text(alloc, word, option, possible)?;
    invalid_value(alloc, text.as_str())
}

/// The form that is asked for: the lines where none is.
fn wanted_form(alloc: Global, word: Option<&str>) -> Result<Form, Error>
    ensures refused { FailsBy (form_kinds (option_map (λ w. w.now) word.entry)) result }
    ensures form { IfOk result (λ form. wanted_form (option_map (λ w. w.now) word.entry) ≡ Some form) }
{
    let Some(word) = word else {
        return Ok(Form::Lines);
    };
    match form_of(word) {
        Some(form) => Ok(form),
        None => Err(unknown_word(
            alloc,
            word,
            "--print <WHAT>",
            "lines, journal, trades, book",
        )?),
    }
}

/// Refuses a word of `--sync` that isn't `none`.
fn refuse_sync(alloc: Global, word: Option<&str>) -> Result<(), Error>
    ensures refused { FailsBy (sync_kinds (option_map (λ w. w.now) word.entry)) result }
    ensures none { IfOk result (λ _. sync_kinds (option_map (λ w. w.now) word.entry) ≡ []) }
{
    let Some(word) = word else {
        return Ok(());
    };
    if word == "none" {
        return Ok(());
    }
    Err(unknown_word(alloc, word, "--sync <HOW>", "none")?)
}

/// Whether the option with a word was given.
pub(crate) fn has_word(matches: &ArgMatches<'_>, name: &str) -> bool
    ensures { is_some (first_of name.now (rows_in matches.now)) ≡ result }
{
    matches.get_str(name).is_some()
}

/// Whether an audit was asked for beside something that only a run has.
fn is_audit_mixed(matches: &ArgMatches<'_>) -> bool
    requires { IsParsed matches.now }
    ensures { is_audit_mixed (rows_in matches.now) ≡ result }
{
    let audit = flag_of(matches, "audit");
    let floor = flag_of(matches, "floor");
    let history = flag_of(matches, "history");
    let form = has_word(matches, "print");
    audit && (floor || history || form)
}

/// Whether answers as records come were asked for beside something that goes without them.
fn is_live_mixed(matches: &ArgMatches<'_>, form: Form) -> bool
    requires parsed { IsParsed matches.now }
    requires form { wanted_form (word_in (rows_in matches.now)) ≡ Some form }
    ensures { is_live_mixed (rows_in matches.now) ≡ result }
{
    let live = flag_of(matches, "live");
    let audit = flag_of(matches, "audit");
    let floor = flag_of(matches, "floor");
    let history = flag_of(matches, "history");
    let listing = matches!(form, Form::Listing(_));
    live && (audit || floor || history || listing)
}

/// Whether the results of a day were asked for without an audit.
fn is_results_alone(matches: &ArgMatches<'_>) -> bool
    requires { IsParsed matches.now }
    ensures { is_results_alone (rows_in matches.now) ≡ result }
{
    let results = flag_of(matches, "results");
    let audit = flag_of(matches, "audit");
    results && !audit
}

/// Whether something that goes with answers as records come alone was asked for without them.
fn is_live_missing(matches: &ArgMatches<'_>) -> bool
    requires { IsParsed matches.now }
    ensures { is_live_missing (rows_in matches.now) ≡ result }
{
    let reserve = number_if_given(matches, "reserve");
    let journal = has_word(matches, "journal");
    let sync = has_word(matches, "sync");
    let live = flag_of(matches, "live");
    (reserve.is_some() || journal || sync) && !live
}

/// Whether it was said how a journal is kept, without one.
fn is_journal_missing(matches: &ArgMatches<'_>) -> bool
    ensures { is_journal_missing (rows_in matches.now) ≡ result }
{
    let journal = has_word(matches, "journal");
    let sync = has_word(matches, "sync");
    sync && !journal
}

/// Refuses options that don't go together.
fn refuse_mix(matches: &ArgMatches<'_>, form: Form) -> Result<(), ArgumentsFault>
    requires parsed { IsParsed matches.now }
    requires form { wanted_form (word_in (rows_in matches.now)) ≡ Some form }
    requires sync { sync_kinds (sync_in (rows_in matches.now)) ≡ [] }
    ensures refused { IfErr result (RefusesTask (rows_in matches.now)) }
    ensures mixed { IfOk result (λ _. IsWellMixed (rows_in matches.now)) }
{
    if is_audit_mixed(matches) {
        return Err(ArgumentsFault::AuditNotAlone);
    }
    if is_live_mixed(matches, form) {
        return Err(ArgumentsFault::LiveNotAlone);
    }
    if is_results_alone(matches) {
        return Err(ArgumentsFault::ResultsWithoutAudit);
    }
    if is_live_missing(matches) {
        return Err(ArgumentsFault::WithoutLive);
    }
    if is_journal_missing(matches) {
        return Err(ArgumentsFault::SyncWithoutJournal);
    }
    Ok(())
}

/// The answers as records come, with as many calls kept for the operator as an option says, or as usual.
fn live_task(matches: &ArgMatches<'_>) -> Task
    requires { IsParsed matches.now }
    ensures { Live (reserve_at (rows_in matches.now)) ≡ result }
{
    let given = number_if_given(matches, "reserve");
    Task::Live {
        reserve: given.unwrap_or(USUAL_RESERVE),
    }
}

/// What is printed of a board's day in this form, and with its history where that is asked for. A listing has it.
fn floor_form(form: Form, history: bool) -> FloorForm
    ensures { result ≡ floor_form history form }
{
    match form {
        Form::Listing(listing) => FloorForm::Listing(listing),
        Form::Lines if history => FloorForm::History,
        Form::Lines => FloorForm::Tally,
    }
}

/// What the matches of a parse ask for.
pub fn task_of(alloc: Global, matches: &ArgMatches<'_>) -> Result<Task, ArgumentsFault>
    requires { IsParsed matches.now }
    ensures refused { IfErr result (RefusesTask (rows_in matches.now)) }
    ensures task { IfOk result (λ task. task_at (rows_in matches.now) ≡ Some task) }
    ensures mixed { IfOk result (λ _. IsWellMixed (rows_in matches.now)) }
{
    let form = wanted_form(alloc, matches.get_str("print"))?;
    refuse_sync(alloc, matches.get_str("sync"))?;
    refuse_mix(matches, form)?;
    let live = flag_of(matches, "live");
    let audit = flag_of(matches, "audit");
    let results = flag_of(matches, "results");
    let floor = flag_of(matches, "floor");
    let history = flag_of(matches, "history");
    if live {
        return Ok(live_task(matches));
    }
    if audit {
        return Ok(Task::Audit { results });
    }
    if floor {
        return Ok(Task::Floor(floor_form(form, history)));
    }
    Ok(Task::Run(form))
}
