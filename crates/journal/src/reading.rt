//! The day of a journal's first record.

ghost use Rattle.std.specs.Prelude.{◌≡◌, IfErr, MatchResult};
ghost use Rattle.order_file.specs.File.{FailsAsWanted, IsOfRecord};
ghost use Rattle.order_file.specs.Rows.{IsRecordReader, rows_left};
ghost use Rattle.journal.specs.JournalFile.{journal_of_rows, recorded_in};

use crate::day::{DayHeader, day_of_record, is_day_row};
use order_file::{FileFault, Records};

/// How many bytes a journal may have at most.
pub const MAX_JOURNAL_BYTES: usize = 268_435_456;

/// The day of the first record.
pub(crate) fn day_from(records: &mut Records<'_>) -> Result<DayHeader, FileFault>
    requires { IsRecordReader records.old.rows }
    ensures day { MatchResult result
        (λ day. IsRecordReader records.new.rows
        × (journal_of_rows (rows_left records.old.rows) ≡ recorded_in day (rows_left records.new.rows)))
        (λ e. FailsAsWanted e (journal_of_rows (rows_left records.old.rows))) }
    ensures parsed { IfErr result IsOfRecord }
{
    if !records.next()? {
        return Err(FileFault::NotADay);
    }
    if !is_day_row(&records.row) {
        return Err(FileFault::NotADay);
    }
    match day_of_record(&records.row) {
        Ok(day) => Ok(day),
        Err(fault) => Err(fault.in_record(1)),
    }
}
