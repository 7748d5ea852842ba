//! A live session: each record of an input is answered as soon as its line has ended.
//!
//! `run_live` reads an input line by line, and answers each one before it reads on: a good record is a call, and its
//! answer the reply's line, as in the run of a file; a bad one runs nothing, and its answer is its fault. It talks with
//! a `Conversation`, a device that is read, committed and written to; `Channels` is one over two ends.
//!
//! A `JournaledConversation` is one whose entries are on the disk, in a journal's file, before their answers are
//! written. `begin` begins a day in such a file, or goes on with it after a crash, and `run_journaled` runs the
//! session.
#![tactic(auto)]

mod begin_fault;
mod beginning;
mod channels;
mod conversation;
mod fault;
mod first_lines;
mod journaled_conversation;
mod journaled_run;
mod laws;
mod line;
mod looking;
mod plain;
mod responder;
mod resuming;
mod run;
mod session;
mod terms;

pub use begin_fault::{BeginFault, CutOff, NotBegun, ResumeFault, UnlawfulEntry};
pub use beginning::{Begun, begin};
pub use channels::Channels;
pub use conversation::{CommitFailed, Conversation};
pub use fault::{BadRecord, Ending, LiveFault};
pub use journaled_conversation::JournaledConversation;
pub use journaled_run::run_journaled;
pub use laws::{lawful_is_gone_on_with, leaves_first_entries, leaves_from_opening};
pub use line::{MAX_RECORD_BYTES, stated_limit};
pub use resuming::resume;
pub use run::{ROOM_OF_A_READ, run_live};
pub use terms::SessionTerms;
