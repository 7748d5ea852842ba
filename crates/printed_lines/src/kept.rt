//! Text that is kept in memory until it is printed.

ghost use Rattle.std.specs.Prelude.{◌≡◌, ◌≤◌, ◌+◌, [], length, IfOk};
ghost use Rattle.printed_lines.specs.KeptText.{kept_text};
ghost use Rattle.printed_lines.specs.Printing.{Prints};
ghost use Rattle.printed_lines.specs.declared.page.TheConstants.{LONGEST_LINE, ROOM};

use crate::page::{LONGEST_LINE, Page, ROOM};
use crate::printer::Printer;
use byte_streams::{Sink, WriteFailed};
use std::alloc::{AllocError, Global};

/// Text that is kept until it is printed: what was on full pages, and the page that is being filled. A line is kept by
/// `make_room`, and then by what is put on the page.
#[derive(Drop)]
pub struct KeptText {
    pub full: Vec<u8>,
    pub page: Page,
}

impl KeptText {
    /// No text.
    pub fn new(alloc: Global) -> KeptText
        ensures { kept_text result ≡ [] }
    {
        KeptText {
            full: Vec::new(alloc),
            page: Page::new(),
        }
    }

    /// Moves what is on the page to the end of the full ones. The error is that memory is refused.
    pub fn turn_page(&mut self) -> Result<(), AllocError>
        ensures text { kept_text self.new ≡ kept_text self.old }
        ensures page { IfOk result (λ _. self.new.page ≡ []) }
    {
        self.full.extend_from_slice(self.page.as_slice())?;
        self.page.clear();
        Ok(())
    }

    /// Makes room on the page for one more line, of `LONGEST_LINE` bytes. The text stays as it was. The error is that
    /// memory is refused.
    #[inline(always)]
    pub fn make_room(&mut self) -> Result<(), AllocError>
        ensures text { kept_text self.new ≡ kept_text self.old }
        ensures room { IfOk result (λ _. length self.new.page + LONGEST_LINE ≤ ROOM) }
    {
        if self.page.len() > ROOM - LONGEST_LINE {
            return self.turn_page();
        }
        Ok(())
    }

    /// Prints the text.
    pub fn print<S: Sink>(&self, printer: &mut Printer<'_, S>) -> Result<(), WriteFailed>
        ensures { Prints S.Sink printer.old printer.new result (kept_text self.now) }
    {
        printer.print_whole(self.full.as_slice())?;
        printer.print_whole(self.page.as_slice())
    }
}
