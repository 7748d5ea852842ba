//! The printer: a page of text on its way to a sink.

ghost use Rattle.std.specs.Prelude.{◌≡◌, ◌≤◌, ◌+◌, ℕ, List, [], length, IfOk, OnErr};
ghost use Rattle.printed_lines.specs.Printing.{IsFresh, Prints};
ghost use Rattle.printed_lines.specs.declared.page.TheConstants.{LONGEST_LINE, ROOM};

use crate::last_texts::LastTexts;
use crate::page::{LONGEST_LINE, Page, ROOM};
use byte_streams::{Sink, WriteFailed, write_all};

/// A sink, and the page of text that is still to go to it. A line is printed by `make_room`, and then
/// by what is put on the page; `flush` ends the printing.
#[derive(Drop)]
pub struct Printer<'a, S: Sink> {
    pub sink: &'a mut S,
    pub page: Page,
    /// The texts of the line that was printed last.
    pub last: LastTexts,
}

impl<'a, S: Sink> Printer<'a, S> {
    /// A printer with an empty page.
    pub fn new(sink: &'a mut S) -> Printer<'a, S>
        ensures { IsFresh sink.entry result }
    {
        Printer {
            sink,
            page: Page::new(),
            last: LastTexts::new(),
        }
    }

    /// Writes what is on the page, all of it, or at a failure a beginning. The page is then empty.
    pub fn flush(&mut self) -> Result<(), WriteFailed>
        ensures printed { Prints S.Sink self.old self.new result [] }
        ensures page { self.new.page ≡ [] }
    {
        let written = write_all(self.sink, self.page.as_slice());
        self.page.clear();
        written
    }

    /// Writes what is on the page where there is no room for one more line, of `LONGEST_LINE` bytes.
    #[inline(always)]
    pub fn make_room(&mut self) -> Result<(), WriteFailed>
        ensures printed { Prints S.Sink self.old self.new result [] }
        // At a failure, whatever was to follow is begun no further.
        ensures begun { OnErr result ((text : List ℕ) → Prints S.Sink self.old self.new result text) }
        ensures room { IfOk result (λ _. length self.new.page + LONGEST_LINE ≤ ROOM) }
    {
        if self.page.len() > ROOM - LONGEST_LINE {
            return self.flush();
        }
        Ok(())
    }

    /// Writes what is on the page, and then this text, of any length, or at a failure a beginning. The page is then
    /// empty.
    pub fn print_whole(&mut self, text: &[u8]) -> Result<(), WriteFailed>
        ensures { Prints S.Sink self.old self.new result text.now }
    {
        self.flush()?;
        write_all(self.sink, text)
    }
}
