//! What calls and looks answer.

use auction_terms::{Display, Reply};

/// A recorded call: its place in the history, from 1, and the auction's reply.
#[derive(Clone, Copy, PartialEq, Eq, Debug)]
pub struct Receipt {
    pub number: u32,
    pub reply: Reply,
}

/// Why a call was not recorded. They are looked at in the order `HistoryFull`, `OutOfStep`, `Overtaken`, and after any
/// of them the history, what is shown and the member's counts are as they were.
#[derive(Clone, Copy, PartialEq, Eq, Debug)]
pub enum CallFault {
    /// The history has `max_calls` entries.
    HistoryFull,
    /// The evidence has a call that the history hasn't. No run is known to meet it: the board alone adds to it, under
    /// its lock.
    Overtaken,
    /// The member has seen more than the `history` calls that are recorded, or has counted other than the `counted`
    /// entries with its number.
    OutOfStep { history: u32, counted: u32 },
}

/// What a look shows: the number of calls so far, and the display of the book after them.
#[derive(Clone, Copy, PartialEq, Eq, Debug)]
pub struct Shown {
    pub calls: u32,
    pub display: Display,
}
