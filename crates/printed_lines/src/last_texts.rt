//! The texts of the line that was printed last, as parts of the next one often are the same or follow them.

ghost use Rattle.std.specs.Prelude.{◌≡◌, ◌≤◌, ◌+◌, ◌++◌, length, None};
ghost use Rattle.auction_terms.specs.declared.Reply.TheVariants as reply;
ghost use Rattle.printed_lines.specs.ReplyLines.{line};
ghost use Rattle.printed_lines.specs.ReplyWords.{reply_text};
ghost use Rattle.printed_lines.specs.declared.page.TheConstants.{LONGEST_LINE, LONGEST_NUMBER, ROOM};

use crate::display_text::DisplayText;
use crate::number_text::NumberText;
use crate::page::Page;
use crate::reply::put_reply;
use auction_terms::Reply;

/// The numbers of the next line and of the next order, and the last display, with their texts. It takes no memory.
#[derive(Drop)]
pub struct LastTexts {
    line: NumberText,
    order: NumberText,
    display: DisplayText,
}

/// Puts the entry of an order on the page, with the order's id.
#[inline(always)]
fn put_entered(page: &mut Page, order: &mut NumberText, id: u32)
    requires { length page.old + 150 ≤ ROOM }
    ensures text { page.new ≡ page.old ++ reply_text (reply.Entered id) }
    ensures longer { length page.new ≤ length page.old + 150 }
{
    page.put("entered ");
    order.put(page, u64::from(id));
}

impl LastTexts {
    /// The texts before the first line.
    pub fn new() -> LastTexts
        ensures { (result.line ≡ 1) × (result.order ≡ 1) × (result.display ≡ None) }
    {
        LastTexts {
            line: NumberText::new(),
            order: NumberText::new(),
            display: DisplayText::new(),
        }
    }

    /// Puts the text of a reply on the page, at most 150 bytes.
    #[inline(always)]
    pub(crate) fn put_reply(&mut self, page: &mut Page, reply: &Reply)
        requires { length page.old + 150 ≤ ROOM }
        ensures text { page.new ≡ page.old ++ reply_text reply.now }
        ensures longer { length page.new ≤ length page.old + 150 }
    {
        match reply {
            Reply::Entered { id } => put_entered(page, &mut self.order, *id),
            Reply::Indicated(display) => self.display.put(page, display),
            _ => put_reply(page, reply),
        }
    }

    /// Puts the line of a command's reply on the page: the command's number from 1, a colon, the reply's text.
    #[tactic(auto, unfolding(crate::specs::ReplyLines::line))]
    #[inline(always)]
    pub fn put_line(&mut self, page: &mut Page, number: u64, reply: &Reply)
        requires { length page.old + LONGEST_LINE ≤ ROOM }
        ensures { page.new ≡ page.old ++ line number reply.now }
    {
        self.line.put(page, number);
        page.put(": ");
        self.put_reply(page, reply);
        page.put("\n");
    }
}
