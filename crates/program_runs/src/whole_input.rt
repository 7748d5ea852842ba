//! The commands of an input that was read whole, a journal or an order file, or of a history, applied to an auction.

ghost use Rattle.std.specs.Prelude.{◌≡◌, ◌≢◌, ◌≤◌, Err, unwrap_or};
ghost use Rattle.auction.specs.ConfigFault.{open_fault};
ghost use Rattle.journal.specs.DayWithCalls.{calls_coming, run_input_of, or_orders, orders_for};
ghost use Rattle.program_runs.specs.RecordedEntries.{RecordsDay};

use crate::fault::Fault;
use crate::recorded_day::{PrintableDay, close_day, open_day};
use auction::OpenFault;
use day_road::{Input, hear_all, pass_over};
use journal::{DayHeader, Entries};
use order_file::{Calls, FileFault, MAX_BYTES};
use settings::Form;
use std::alloc::Global;

/// What an input owes whose day can't be opened: a fault of its own comes first.
fn refused<I: Input>(input: &mut I, day: DayHeader, fault: OpenFault) -> Fault
    requires ready { I.CanRead input.old }
    requires fault { fault ≡ unwrap_or (open_fault day.config) OpenFault.NoMemory }
    ensures recorded { (form : Form) → RecordsDay form (calls_coming day (I.coming input.old)) (Err result) }
    ensures read { result ≢ Fault.File FileFault.ReadFailed }
{
    match pass_over(input) {
        Ok(()) => Fault::Open(fault),
        Err(fault) => Fault::File(fault),
    }
}

/// Runs the calls of an input, of which none has come, on this day.
pub fn record_calls<I: Input>(
    alloc: Global,
    input: &mut I,
    day: DayHeader,
    form: Form,
) -> Result<PrintableDay, Fault>
    requires ready { I.CanRead input.old }
    requires room { I.room input.old ≤ day.config.max_calls }
    ensures recorded { RecordsDay form (calls_coming day (I.coming input.old)) result }
    ensures read { result ≢ Err (Fault.File FileFault.ReadFailed) }
{
    let mut open_day = match open_day(alloc, day, form) {
        Ok(open_day) => open_day,
        Err(fault) => return Err(refused(input, day, fault)),
    };
    match hear_all(alloc, input, &mut open_day.auction, &mut open_day.recorder) {
        Ok(()) => close_day(alloc, day, open_day),
        Err(fault) => Err(Fault::File(fault)),
    }
}

/// Runs the commands of the bytes of an order file of this day, whose own fault comes before one of the day.
fn record_orders(
    alloc: Global,
    bytes: &[u8],
    day: DayHeader,
    form: Form,
) -> Result<PrintableDay, Fault>
    ensures recorded { RecordsDay form (orders_for day bytes.now) result }
    ensures read { result ≢ Err (Fault.File FileFault.ReadFailed) }
{
    if bytes.len() > MAX_BYTES {
        return Err(Fault::File(FileFault::TooLong));
    }
    let mut calls = Calls::open(alloc, bytes, day.members, day.config.max_calls)?;
    record_calls(alloc, &mut calls, day, form)
}

/// Runs the commands of an input that has this fault as a journal: what is no journal is an order file of this day.
fn record_or_refuse(
    alloc: Global,
    bytes: &[u8],
    day: DayHeader,
    form: Form,
    fault: FileFault,
) -> Result<PrintableDay, Fault>
    requires { fault ≢ FileFault.ReadFailed }
    ensures recorded { RecordsDay form (or_orders (orders_for day bytes.now) fault) result }
    ensures read { result ≢ Err (Fault.File FileFault.ReadFailed) }
{
    match fault {
        FileFault::NotADay => record_orders(alloc, bytes, day, form),
        _ => Err(Fault::File(fault)),
    }
}

/// Runs the commands of an input, a journal or an order file of this day.
pub fn record_input(
    alloc: Global,
    bytes: &[u8],
    day: DayHeader,
    form: Form,
) -> Result<PrintableDay, Fault>
    ensures recorded { RecordsDay form (run_input_of day bytes.now) result }
    ensures read { result ≢ Err (Fault.File FileFault.ReadFailed) }
{
    match Entries::open(alloc, bytes) {
        Ok(mut entries) => {
            let day = entries.day();
            record_calls(alloc, &mut entries, day, form)
        }
        Err(fault) => record_or_refuse(alloc, bytes, day, form, fault),
    }
}
