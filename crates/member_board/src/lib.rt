//! The call auction board: members call commands on it at once, one lock orders them, and looks take no lock.
//!
//! What the crate promises is said at `close`: whatever commands were called, the history that was kept under the lock
//! is one of the plain auction of one thread, it has as many entries as the members' counts add up to, and what each
//! member was answered or shown is an account of that one history.
//!
//! On the members' floor (`run`) each member has a thread of its own, which calls the commands of its script. The
//! receipts of a script answer its calls in their order, each as the auction does after all that the member had seen
//! and others' calls; a script without a fault was played to its end; and the members come back with their numbers and
//! the calls that they made. At the closing the receipts are entries of the board's one history
//! (`receipts_are_recorded`).
//!
//! - `fresh`: opening a board, and beginning its day with one member for each number.
//! - `member`: a member's calls and looks.
//! - `locked`: what is under the lock, and the one event of the day, `LockedBoard::record`.
//! - `versions`: the two copies of what the board shows, which looks read.
//! - `board`: the board and its lock.
//! - `closing`: the end of the day.
//! - `gate`: what runs before and after each call of a script, as a test needs to hold a member's call.
//! - `script`: what a member is to call.
//! - `played`: one script, played on the thread that runs it.
//! - `prepared_scripts`: all room that playing needs, taken before the first thread starts.
//! - `threads`: `run`, one scoped thread for each member.
//! - `laws`: the receipts at the closing.
#![tactic(auto)]

mod board;
mod closing;
mod fresh;
mod gate;
mod identity;
mod laws;
mod locked;
mod member;
mod played;
mod prepared_scripts;
mod script;
mod threads;
mod versions;

pub use board::Board;
pub use board_terms::{CallFault, Closing, Receipt, Shown};
pub use closing::{CloseFault, close};
pub use fresh::Fresh;
pub use gate::{Gate, OpenGate};
pub use identity::BoardIdentity;
pub use laws::receipts_are_recorded;
pub use locked::LockedBoard;
pub use member::Member;
pub use played::ScriptRun;
pub use script::Script;
pub use threads::{FloorOutcome, RunFault, run};
pub use versions::{Update, Version};
