//! A printed line.

ghost use Rattle.printed_lines.specs.Printing.{Prints};
ghost use Rattle.printed_lines.specs.ReplyLines.{line};

use crate::printer::Printer;
use auction_terms::Reply;
use byte_streams::{Sink, WriteFailed};

/// Prints the line of a command's reply: the command's number from 1, a colon, the reply's text.
pub fn print_line<S: Sink>(
    printer: &mut Printer<'_, S>,
    number: u64,
    reply: &Reply,
) -> Result<(), WriteFailed>
    ensures { Prints S.Sink printer.old printer.new result (line number reply.now) }
{
    printer.make_room()?;
    printer.last.put_line(&mut printer.page, number, reply);
    Ok(())
}
