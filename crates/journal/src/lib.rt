//! The journal of a recorded day: a file with the day that was opened, and each call with the text of its reply.
//!
//! `Entries` reads one entry by entry, and `read_run_input` the input of a run: a journal or an order file.
//! `keep_entry` keeps a journal's lines entry by entry, and `print_kept_journal` prints them after that of the day.
//! The laws say that reading gives what was written, and which journals have a lawful history.
#![tactic(auto)]

mod day;
mod entries;
mod entry;
mod kept;
mod laws;
mod printing;
mod reading;
mod run_input;
mod wide;

pub use day::DayHeader;
pub use entries::Entries;
pub use entry::MAX_REPLY;
pub use kept::{keep_day, keep_entry, print_kept_journal};
pub use laws::{
    file_calls_fit, gives_day, legal_has_replay_texts, reads_back, replay_is_legal,
    reply_texts_are_unique, run_input_fits, stated_limits,
};
pub use reading::MAX_JOURNAL_BYTES;
pub use run_input::{RunInput, read_run_input};
