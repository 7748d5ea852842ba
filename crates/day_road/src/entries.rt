//! The entries of a journal as an input.

ghost use Rattle.std.specs.Prelude.{◌-◌};
ghost use Rattle.journal.specs.JournalEntries.{CanReadEntries, entries_left, last_text};
ghost use Rattle.day_road.specs.Inputs.{CanReadOn};

use crate::input::Input;
use auction_terms::Call;
use journal::Entries;
use order_file::FileFault;

impl Input for Entries<'_> {
    ghost coming = { λ e. entries_left e };

    ghost room = { λ e. e.day.config.max_calls - e.count };

    ghost text = { λ e. last_text e };

    ghost CanRead = { λ e. CanReadOn e };

    #[inline(always)]
    fn next(&mut self) -> Result<Option<Call>, FileFault> {
        self.next_call()
    }

    #[inline(always)]
    fn recorded(&self) -> &[u8] {
        self.text()
    }
}
