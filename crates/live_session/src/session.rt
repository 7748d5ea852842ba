//! An input that is answered line by line.

ghost use Rattle.std.specs.Prelude.{IfOk};
ghost use Rattle.live_session.specs.Hearing.{AnswersAll, AnswersEnd, HearsLines, IsNewSession, KeepsLine};
ghost use Rattle.live_session.specs.Hearing.{KeepsWhole, RefusesLine};
ghost use Rattle.live_session.specs.InputLines.{line_ended, line_longer, lines_once_read};

use crate::fault::BadRecord;
use crate::line::{add_to_line, first_line_end, is_blank, line_fault, put_record, without_mark};
use crate::plain::is_plain;
use crate::responder::Responder;
use crate::terms::SessionTerms;
use auction::Auction;
use csv::ByteRecord;
use std::alloc::{AllocError, Global};

/// A session that has begun. The error of each method is that memory is refused.
#[derive(Drop)]
pub(crate) struct Session {
    pub(crate) responder: Responder,
    // Whole lines that are to be answered, after a line end.
    waiting: Vec<u8>,
    // The line at hand: as many of its bytes as a record may have, and one more.
    line: Vec<u8>,
    // It is lent.
    row: ByteRecord,
}

impl Session {
    /// A session on this auction, of which nothing has come.
    pub(crate) fn new(
        alloc: Global,
        auction: Auction,
        terms: SessionTerms,
    ) -> Result<Session, AllocError>
        ensures { IfOk result (λ session. IsNewSession session terms auction) }
    {
        let mut waiting = Vec::new(alloc);
        waiting.push(b'\n')?;
        Ok(Session {
            responder: Responder::new(alloc, auction, terms),
            waiting,
            line: Vec::new(alloc),
            row: ByteRecord::new(alloc),
        })
    }

    /// Answers the lines that are waiting.
    fn answer_waiting(&mut self, alloc: Global) -> Result<(), AllocError>
        ensures { AnswersAll self.old self.new (λ lines. lines) result }
    {
        if self.waiting.len() == 1 {
            return Ok(());
        }
        self.responder.answer_text(alloc, self.waiting.as_slice())?;
        self.waiting.truncate(1);
        Ok(())
    }

    /// Answers a line that isn't read as a record, after those before it.
    fn refuse_line(&mut self, alloc: Global, fault: BadRecord) -> Result<(), AllocError>
        ensures { RefusesLine self.old self.new fault result }
    {
        self.answer_waiting(alloc)?;
        self.responder.refuse(fault)?;
        self.line.clear();
        Ok(())
    }

    /// Has a line wait after those before it.
    fn keep_line(&mut self) -> Result<(), AllocError>
        ensures { KeepsLine self.old self.new result }
    {
        put_record(&mut self.waiting, self.line.as_slice())?;
        self.line.clear();
        Ok(())
    }

    /// Ends the line at hand.
    fn end_line(&mut self, alloc: Global) -> Result<(), AllocError>
        ensures { HearsLines self.old self.new (λ lines. line_ended lines) result }
    {
        match line_fault(self.line.as_slice()) {
            Some(fault) => self.refuse_line(alloc, fault),
            None => self.keep_line(),
        }
    }

    /// Has a line wait that came in one piece.
    fn keep_whole(&mut self, line: &[u8]) -> Result<(), AllocError>
        ensures { KeepsWhole self.old self.new line.now result }
    {
        put_record(&mut self.waiting, line)?;
        Ok(())
    }

    /// Answers a line that came in one piece, or has it wait after those before it.
    fn take_whole(&mut self, alloc: Global, line: &[u8]) -> Result<(), AllocError>
        ensures { KeepsWhole self.old self.new line.now result }
    {
        let record = without_mark(line);
        if self.waiting.len() == 1 && is_plain(record) {
            return self.responder.answer_plain(alloc, &mut self.row, record);
        }
        self.keep_whole(line)
    }

    /// Takes the bytes of the line at hand up to its end.
    fn take_line(&mut self, alloc: Global, bytes: &[u8]) -> Result<(), AllocError>
        ensures { HearsLines self.old self.new (λ lines. line_ended (line_longer bytes.now lines)) result }
    {
        if self.line.is_empty() && line_fault(bytes).is_none() {
            return self.take_whole(alloc, bytes);
        }
        self.take_bytes(bytes)?;
        self.end_line(alloc)
    }

    /// Takes bytes that belong to the line at hand.
    fn take_bytes(&mut self, bytes: &[u8]) -> Result<(), AllocError>
        ensures { HearsLines self.old self.new (λ lines. line_longer bytes.now lines) result }
    {
        add_to_line(&mut self.line, bytes)?;
        Ok(())
    }

    /// Takes the bytes that come next, of any number of lines.
    fn take_all(&mut self, alloc: Global, bytes: &[u8]) -> Result<(), AllocError>
        ensures { HearsLines self.old self.new (λ lines. lines_once_read lines bytes.now) result }
    {
        let mut rest = bytes;
        'lines: while !rest.is_empty() {
            let Some(end) = first_line_end(rest) else {
                return self.take_bytes(rest);
            };
            let (line, behind) = rest.split_at(end);
            let (_, more) = behind.split_at(1);
            self.take_line(alloc, line)?;
            rest = more;
        }
        Ok(())
    }

    /// Takes the bytes that come next, and gathers the answers to all lines that have ended.
    pub(crate) fn hear(&mut self, alloc: Global, bytes: &[u8]) -> Result<(), AllocError>
        ensures { AnswersAll self.old self.new (λ lines. lines_once_read lines bytes.now) result }
    {
        self.take_all(alloc, bytes)?;
        self.answer_waiting(alloc)
    }

    /// Gathers the answer to a line that the input ends in.
    pub(crate) fn end(&mut self) -> Result<(), AllocError>
        ensures { AnswersEnd self.old self.new result }
    {
        if is_blank(self.line.as_slice()) {
            return Ok(());
        }
        self.responder.refuse(BadRecord::CutOff)
    }
}
