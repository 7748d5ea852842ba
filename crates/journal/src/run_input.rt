//! What a run is given.

ghost use Rattle.std.specs.Prelude.{◌≢◌, ◌<◌, ◌≤◌, ◌↔◌, ◌+◌, All, length, IfErr, IfOk, IfSome};
ghost use Rattle.std.specs.Prelude.{IsErrOf};
ghost use Rattle.byte_streams.specs.Streams.{TakesAtMost};
ghost use Rattle.order_file.specs.File.{GivesWanted, IsBelow, IsOfRecord};
ghost use Rattle.journal.specs.DayWithCalls.{calls_coming, run_input, day_with_calls, run_input_of, or_orders};
ghost use Rattle.journal.specs.DayWithCalls.{orders_for};
ghost use Rattle.journal.specs.JournalEntries.{CanReadEntries, entries_left};
ghost use Rattle.journal.specs.declared.reading.TheConstants.{MAX_JOURNAL_BYTES};

use crate::day::DayHeader;
use crate::entries::Entries;
use crate::reading::MAX_JOURNAL_BYTES;
use auction_terms::Call;
use byte_streams::Source;
use order_file::{FileFault, MAX_BYTES, bytes_of, calls_of_file};
use std::alloc::Global;

/// What a run is given: its day, and the calls in their order.
#[derive(Drop)]
pub struct RunInput {
    pub day: DayHeader,
    pub calls: Vec<Call>,
}

/// What bytes give to this day as an order file.
#[tactic(auto, unfolding(crate::specs::DayWithCalls::orders_for))]
fn orders_for(alloc: Global, bytes: &[u8], day: DayHeader) -> Result<RunInput, FileFault>
    ensures calls { GivesWanted day_with_calls result (orders_for day bytes.now) }
    ensures read { IfErr result (λ e. e ≢ FileFault.ReadFailed) }
    ensures few { IfOk result (λ g. length g.calls.items ≤ g.day.config.max_calls) }
    ensures below { IfOk result (λ g. All (IsBelow g.day.members) g.calls.items) }
{
    if bytes.len() > MAX_BYTES {
        return Err(FileFault::TooLong);
    }
    let calls = calls_of_file(alloc, bytes, day.members, day.config.max_calls)?;
    Ok(RunInput { day, calls })
}

/// What bytes give that have this fault as a journal: what is no journal is an order file of this day.
fn or_orders(
    alloc: Global,
    bytes: &[u8],
    day: DayHeader,
    fault: FileFault,
) -> Result<RunInput, FileFault>
    requires { fault ≢ FileFault.ReadFailed }
    ensures answer { GivesWanted day_with_calls result (or_orders (orders_for day bytes.now) fault) }
    ensures read { IfErr result (λ e. e ≢ FileFault.ReadFailed) }
    ensures few { IfOk result (λ g. length g.calls.items ≤ g.day.config.max_calls) }
    ensures below { IfOk result (λ g. All (IsBelow g.day.members) g.calls.items) }
{
    match fault {
        FileFault::NotADay => orders_for(alloc, bytes, day),
        _ => Err(fault),
    }
}

/// The day and the calls of a journal's entries, of which none was read; the texts of their replies are looked at, and
/// not kept.
fn calls_of_entries(alloc: Global, entries: &mut Entries<'_>) -> Result<RunInput, FileFault>
    requires { CanReadEntries entries.old.day 0 entries.old }
    ensures calls { GivesWanted day_with_calls result (calls_coming entries.old.day (entries_left entries.old)) }
    ensures parsed { IfErr result IsOfRecord }
    ensures few { IfOk result (λ g. length g.calls.items ≤ g.day.config.max_calls) }
    ensures below { IfOk result (λ g. All (IsBelow g.day.members) g.calls.items) }
{
    let day = entries.day();
    let mut calls = Vec::new(alloc);
    'turns: while let Some(call) = entries.next_call()? {
        if calls.push(call).is_err() {
            return Err(FileFault::NoMemory);
        }
    }
    Ok(RunInput { day, calls })
}

/// What bytes give, as a journal, or as an order file of this day.
fn run_input_of(alloc: Global, bytes: &[u8], day: DayHeader) -> Result<RunInput, FileFault>
    ensures answer { GivesWanted day_with_calls result (run_input_of day bytes.now) }
    ensures read { IfErr result (λ e. e ≢ FileFault.ReadFailed) }
    ensures few { IfOk result (λ g. length g.calls.items ≤ g.day.config.max_calls) }
    ensures below { IfOk result (λ g. All (IsBelow g.day.members) g.calls.items) }
{
    match Entries::open(alloc, bytes) {
        Ok(mut entries) => calls_of_entries(alloc, &mut entries),
        Err(fault) => or_orders(alloc, bytes, day, fault),
    }
}

/// Reads what a run is given, to the end of the input.
///
/// Where the first field of the first record is `day`, it is a journal: its day record is the day, its calls are the
/// calls, and its replies are dropped, once their form was looked at. Else it is an order file of this day, with the
/// faults of [`calls_of_file`]. An order file may have `order_file::MAX_BYTES` bytes, a journal `MAX_JOURNAL_BYTES`.
#[tactic(auto, unfolding(crate::specs::DayWithCalls::run_input))]
pub fn read_run_input<R: Source>(
    alloc: Global,
    reader: &mut R,
    day: DayHeader,
) -> Result<RunInput, FileFault>
    // A read failed.
    ensures failed { IsErrOf result FileFault.ReadFailed ↔ (R.failures reader.old < R.failures reader.new) }
    // Else, refused memory aside, it is what the bytes give.
    ensures answer { IfSome (R.left reader.old) (λ bytes. GivesWanted day_with_calls result (run_input day bytes)) }
    // It is never more calls than may be applied, each of one of the members.
    ensures few { IfOk result (λ g. length g.calls.items ≤ g.day.config.max_calls) }
    ensures below { IfOk result (λ g. All (IsBelow g.day.members) g.calls.items) }
    // However long the input is, at most `MAX_JOURNAL_BYTES + 1` bytes are taken.
    ensures taken { TakesAtMost (MAX_JOURNAL_BYTES + 1) (R.left reader.old) (R.left reader.new) }
{
    let bytes = bytes_of(alloc, reader, MAX_JOURNAL_BYTES)?;
    run_input_of(alloc, bytes.as_slice(), day)
}
