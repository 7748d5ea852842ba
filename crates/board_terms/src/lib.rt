//! What the boards of many members have in common: what each has under its lock, what a member knows, what a call is
//! answered, what a look shows, what a closing hands out, and the definitions and laws of a member's account of the
//! day. Nothing here has a lock, waits, or has a type parameter: a board is this, a lock, and copies for looks.
//!
//! - `board_core`: what a board has under its lock, and the one event of the day, `BoardCore::record`.
//! - `account`: what a member knows.
//! - `evidence`: the list of all calls as evidence, which members and copies have beginnings of.
//! - `snapshot`: what a board shows.
//! - `calls`: a receipt, why a call isn't recorded, what a look shows.
//! - `closing`: a closed day.
//! - `opening`: opening a board.
//!
//! `specs/MemberView.antt` has what a contract sees of a member, `BoardViews.antt` of a board, `CallsAndLooks.antt`
//! what calls and looks do to that, `Closings.antt` what a closing owes, `CoreInvariant.antt` what is true under a
//! lock, and `Stories.antt` the list of all calls.
#![tactic(auto)]

mod account;
mod board_core;
mod calls;
mod closing;
mod evidence;
mod opening;
mod snapshot;

pub use account::Account;
pub use board_core::BoardCore;
pub use calls::{CallFault, Receipt, Shown};
pub use closing::Closing;
pub use evidence::Front;
pub use opening::{Day, open_board};
pub use snapshot::Snapshot;
