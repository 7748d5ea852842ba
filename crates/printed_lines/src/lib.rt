//! The text that a call auction board prints: a line for each reply, the tally of a closed floor, and
//! the lines of its history.
//!
//! Text goes through a `Printer`, which puts it together on a page, so that a day of many lines is a
//! few large writes. Each call says exactly what was written and what is still on the page (`Prints`);
//! it fails exactly where the writer's count of failures rose, and what was written is then a beginning
//! of the text. A `ReplyList` keeps the replies of a day, most in a byte each, until they are printed.
#![tactic(auto)]

mod display_text;
mod kept;
mod last_texts;
mod line;
mod number_text;
mod page;
mod printer;
mod reply;
mod reply_list;
mod same;
mod tally;
mod words;

pub use kept::KeptText;
pub use last_texts::LastTexts;
pub use line::print_line;
pub use page::{LONGEST_LINE, LONGEST_NUMBER, Page, ROOM};
pub use printer::Printer;
pub use reply::put_reply;
pub use reply_list::{Replies, ReplyList};
pub use same::ReplyTexts;
pub use tally::{print_audit, print_entries, print_history, print_tally};
pub use words::{kind_word, side_word};
