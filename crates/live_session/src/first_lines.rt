//! The text of a journal that has just begun.

ghost use Rattle.std.specs.Prelude.{◌≡◌, [], IfOk};
ghost use Rattle.journal.specs.JournalText.{journal_text};

use journal::{DayHeader, keep_day};
use printed_lines::KeptText;
use std::alloc::{AllocError, Global};

/// The journal of a day without entries.
pub(crate) fn day_lines(alloc: Global, day: DayHeader) -> Result<Vec<u8>, AllocError>
    ensures { IfOk result (λ lines. lines.items ≡ journal_text day []) }
{
    let mut lines = KeptText::new(alloc);
    keep_day(&mut lines, day)?;
    lines.turn_page()?;
    Ok(lines.full)
}
