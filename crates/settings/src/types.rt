//! The terms of a run.

use auction_terms::Config;

/// How many of a session's last calls are the operator's where no option says so.
pub const USUAL_RESERVE: u32 = 16;

/// A listing of a whole day, printed when its last command has been replied to.
#[derive(Clone, Copy, Debug, PartialEq, Eq)]
pub enum Listing {
    /// The day and each of its entries, as a text that can be read back.
    Journal,
    /// A table of its trades: who traded with whom.
    Trades,
    /// A table of the book behind each of its prices.
    Book,
}

/// What is printed of commands that are applied to an auction.
#[derive(Clone, Copy, Debug, PartialEq, Eq)]
pub enum Form {
    /// A line for each reply.
    Lines,
    /// A listing of the day in their place.
    Listing(Listing),
}

/// What is printed of commands that members call on a board.
#[derive(Clone, Copy, Debug, PartialEq, Eq)]
pub enum FloorForm {
    /// The day's tally: how many calls each member made.
    Tally,
    /// The tally, and then the board's history.
    History,
    /// A listing of the day in their place.
    Listing(Listing),
}

/// What is done with the input.
#[derive(Clone, Copy, Debug, PartialEq, Eq)]
pub enum Task {
    /// Its commands are applied to an auction, one after the other.
    Run(Form),
    /// Its commands are called on a board, by all members at once.
    Floor(FloorForm),
    /// It is a journal, and its replies are compared with the lawful ones.
    Audit {
        /// The lawful results of the day are printed too.
        results: bool,
    },
    /// Each of its records is answered as it comes.
    Live {
        /// How many of the day's last calls are the operator's alone.
        reserve: u32,
    },
}

/// The file that keeps the commands of a session.
#[derive(Clone, Copy, Debug, PartialEq, Eq)]
pub struct JournalFile<'a> {
    pub name: &'a str,
    /// Whether what is kept is on the disk, and not only written, before it is answered.
    pub is_synced: bool,
}

/// What the command line says: what an auction is opened with and how many members it has, where the
/// input doesn't say so itself, what is done with the input, and where a session's commands are kept.
#[derive(Clone, Copy, Debug, PartialEq, Eq)]
pub struct Settings<'a> {
    pub config: Config,
    pub members: u8,
    pub task: Task,
    pub journal: Option<JournalFile<'a>>,
}
