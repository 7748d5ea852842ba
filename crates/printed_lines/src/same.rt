//! Texts against replies.

ghost use Rattle.std.specs.Prelude.{◌≡◌};
ghost use Rattle.std.specs.Str.{bytes_eq};
ghost use Rattle.printed_lines.specs.ReplyWords.{reply_text};

use crate::last_texts::LastTexts;
use crate::page::Page;
use auction_terms::Reply;

/// The texts of replies, which others are compared with. It takes no memory.
#[derive(Drop)]
pub struct ReplyTexts {
    last: LastTexts,
    // It is lent.
    page: Page,
}

impl ReplyTexts {
    /// The texts before the first reply.
    pub fn new() -> ReplyTexts {
        ReplyTexts {
            last: LastTexts::new(),
            page: Page::new(),
        }
    }

    /// Whether this is the text of the reply, byte for byte.
    pub fn is_text_of(&mut self, text: &[u8], reply: &Reply) -> bool
        ensures { result ≡ bytes_eq text.now (reply_text reply.now) }
    {
        self.page.clear();
        self.last.put_reply(&mut self.page, reply);
        self.page.is_text(text)
    }
}
