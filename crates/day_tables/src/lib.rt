//! A day's record as tables, in CSV: who traded with whom, and the book behind each price.
//!
//! A table is a function of the config and of the entries of a day. What it needs of them is kept while the day's calls
//! are applied, and printed through a `Printer`.
#![tactic(auto)]

mod book;
mod curves;
mod front_text;
mod laws;
mod record;
mod recording;
mod rule;
mod trades;

pub use laws::{each_trade_is_printed, rule_decides};
pub use recording::BookRecorder;
pub use rule::Rule;
pub use trades::TradesRecorder;
