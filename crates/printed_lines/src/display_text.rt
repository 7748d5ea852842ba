//! The text of the last display, as the same one often comes again.

ghost use Rattle.std.specs.Prelude.{◌≡◌, ◌≤◌, ◌+◌, ◌++◌, length, take, true, None, Some};
ghost use Rattle.auction_terms.specs.declared.Reply.TheVariants as reply;
ghost use Rattle.printed_lines.specs.ReplyWords.{reply_text};
ghost use Rattle.printed_lines.specs.declared.page.TheConstants.{LONGEST_DISPLAY, ROOM};

use crate::page::{LONGEST_DISPLAY, Page};
use crate::reply::put_display;
use auction_terms::Display;
use std::marker::Model;

/// The last display whose text was put on a page, if there was one, with that text. It takes no memory.
#[derive(Drop)]
pub struct DisplayText {
    display: Option<Display>,
    text: [u8; LONGEST_DISPLAY],
    len: usize,
}

impl Model for DisplayText {
    ghost use Rattle.std.specs.Prelude.{Option};
    ghost use Rattle.auction_terms.specs.declared.Display.{Display as Shown};
    ghost use Rattle.printed_lines.specs.DisplayText.{IsTextOf};

    ghost Value = { Option Shown };

    ghost view = { λ last. last.display };

    ghost invariant = { λ last. IsTextOf last.display last.text last.len };
}

impl DisplayText {
    /// No display yet.
    pub fn new() -> DisplayText
        ensures { result ≡ None }
    {
        DisplayText {
            display: None,
            text: [0; LONGEST_DISPLAY],
            len: 0,
        }
    }

    /// Whether it has the text of this display.
    fn is_of(&self, display: &Display) -> bool
        ensures { result ≡ true → self.now ≡ Some display.now }
    {
        match &self.display {
            Some(last) => last == display,
            None => false,
        }
    }

    /// Keeps a display with its text, the first bytes of these.
    #[inline(always)]
    fn keep(&mut self, display: &Display, text: &[u8], len: usize)
        requires length { length text.now ≡ LONGEST_DISPLAY }
        requires short { len ≤ LONGEST_DISPLAY }
        requires text { take len text.now ≡ reply_text (reply.Indicated display.now) }
        ensures { self.new ≡ Some display.now }
    {
        self.text.copy_from_slice(text);
        self.len = len;
        self.display = Some(*display);
    }

    /// Puts the text of a display on a page, which is copied where it is the last one again.
    #[inline]
    pub(crate) fn put(&mut self, page: &mut Page, display: &Display)
        requires { length page.old + LONGEST_DISPLAY ≤ ROOM }
        ensures text { page.new ≡ page.old ++ reply_text (reply.Indicated display.now) }
        ensures longer { length page.new ≤ length page.old + LONGEST_DISPLAY }
    {
        if self.is_of(display) {
            page.put_first(&self.text, self.len);
            return;
        }
        let begin = page.len();
        put_display(page, display);
        self.keep(display, page.display_from(begin), page.len() - begin);
    }
}
