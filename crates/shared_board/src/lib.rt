//! A call auction board for callers that may not wait: members call commands on it at once, one lock that is only ever
//! tried orders them, and looks take no lock. It has no type parameter and no handle of the runtime, so C can hold its
//! members by handles. The day is a ghost value, the tag of the lock, and the same tag is known of each member.
//!
//! A recorded call and a look are as `member_board` promises them, and an `OutOfStep` tells numbers that its member
//! doesn't agree with, as there. A full history too, but that the last calls of the day may be kept for the operator
//! (`specs/Reserves.antt`). No ledger adds up the members' counts: each account is compared with the history in
//! its turn (`is_settled`). Nothing says when a call is `Busy` or `Closed`, nor that the history under the lock is the
//! one that earlier calls left.
//!
//! - `opening`: opening a board, with one member for each number.
//! - `member`: a member's calls and looks.
//! - `reserves`: the last calls of the day, which are the operator's.
//! - `locked`: what goes through the lock and the copies.
//! - `shared`: the lock, and the copies that looks read.
//! - `closing`: a member that has locked the board, and the end of the day.
#![tactic(auto)]

mod closing;
mod locked;
mod member;
mod opening;
mod reserves;
mod shared;

pub use locked::TakenBoard;
pub use member::{BoardFault, SharedMember};
pub use opening::open;
