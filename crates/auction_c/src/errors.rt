//! The numbers that calls answer. Each has one meaning at every call.
ghost use Rattle.std.specs.Prelude.{◌≡◌, ◌<◌};
ghost use Rattle.auction_c.specs.BoardCalls.{IsCallError};
ghost use Rattle.auction_c.specs.Calling.{board_fault_number, fault_number};

use auction::OpenFault;
use board_terms::CallFault;
use shared_board::BoardFault;

/// The call was done.
pub const DONE: u32 = 0;

/// The bounds aren't `1 <= low <= high <= MAX_TICK`, or have more than `MAX_TICKS` ticks.
pub const BAD_BOUNDS: u32 = 1;

/// The reference isn't a tick of the bounds.
pub const BAD_REFERENCE: u32 = 2;

/// `max_open` isn't from 1 to `MAX_OPEN_ORDERS`, `max_calls` isn't from 1 to `MAX_CALLS`, or a board hasn't 1 to
/// `MAX_MEMBERS` members.
pub const BAD_CAPACITY: u32 = 3;

/// Memory was refused.
pub const NO_MEMORY: u32 = 4;

/// A handle that was to get an auction or a member holds one.
pub const IN_USE: u32 = 5;

/// The handle holds no auction.
pub const NO_AUCTION: u32 = 6;

/// The struct is no command.
pub const NO_COMMAND: u32 = 7;

/// As many commands were applied or recorded as may be.
pub const FULL: u32 = 8;

/// An array has another length than the call wants.
pub const BAD_LENGTH: u32 = 9;

/// The struct is no config.
pub const NO_CONFIG: u32 = 10;

/// Another call has the board: try again.
pub const BUSY: u32 = 11;

/// The member has seen or counted other calls than the board's history has.
pub const BEHIND: u32 = 12;

/// The board was closed.
pub const CLOSED: u32 = 13;

/// The handle holds no member.
pub const NO_MEMBER: u32 = 14;

/// The handles don't hold all members of a board, in the order of their numbers.
pub const MISSING_MEMBER: u32 = 15;

/// The board's story has a call that its history hasn't. No run is known to meet it.
pub const OVERTAKEN: u32 = 16;

/// The number is neither a member's nor `ALL_MEMBERS`.
pub const BAD_MEMBER: u32 = 17;

/// Another call has the handle. No call here answers it: `library/handles.c` does, before it comes to one.
pub const MISUSED: u32 = 18;

/// The text is no journal.
pub const BAD_JOURNAL: u32 = 19;

/// The struct is no entry that a journal can hold.
pub const NO_ENTRY: u32 = 20;

/// The number of a fault of an opening.
pub(crate) fn fault_out(fault: OpenFault) -> u32
    ensures { result ≡ fault_number fault }
{
    match fault {
        OpenFault::BadBounds => BAD_BOUNDS,
        OpenFault::BadReference => BAD_REFERENCE,
        OpenFault::BadCapacity => BAD_CAPACITY,
        OpenFault::NoMemory => NO_MEMORY,
    }
}

/// The number of a fault of a call on a board.
pub(crate) fn board_fault_out(fault: BoardFault) -> u32
    ensures number { result ≡ board_fault_number fault }
    ensures error { 0 < result }
    ensures only { IsCallError result }
{
    match fault {
        BoardFault::Busy => BUSY,
        BoardFault::Closed => CLOSED,
        BoardFault::Call(CallFault::HistoryFull) => FULL,
        BoardFault::Call(CallFault::OutOfStep { .. }) => BEHIND,
        BoardFault::Call(CallFault::Overtaken) => OVERTAKEN,
    }
}
