//! The runs of the program, but for the process's own ends: of an order file or a journal, on an auction or by members
//! at once on a board; of a session that answers each record as it comes, with a journal or without; and an audit's.
//! `serve` takes the process's arguments and answers its status.
#![tactic(auto)]

mod audit;
mod blocks;
mod day;
mod fault;
mod fault_lines;
mod fault_texts;
mod floor;
mod journal_lines;
mod journaling;
mod laws;
mod live;
mod printing;
mod recorded_day;
mod recorder;
mod run;
mod scripts;
mod serving;
mod whole_input;

pub use fault::{Fault, Finish};
pub use fault_texts::put_fault;
pub use floor::run_floor;
pub use journaling::{OpenedJournal, OpensJournal};
pub use laws::printed_journals_are_lawful;
pub use run::run_file;
pub use serving::serve;
