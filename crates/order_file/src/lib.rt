//! What the order file of a call auction board says.
//!
//! [`calls_of_file`] gives the calls of a whole file, each a member and a command, or the file's first fault.
//! [`Blocks`] reads a file in blocks of whole lines, and [`Calls`] gives the calls of a block one by one. What they are
//! made of is public, for other files in the same form: the bytes up to a limit, the records one by one, the parts of a
//! record.
#![tactic(auto)]

mod blocks;
mod calls;
mod fault;
mod field;
mod overlong;
mod reading;
mod record;
mod records;
mod spot;

pub use blocks::Blocks;
pub use calls::Calls;
pub use fault::{FileFault, RecordFault};
pub use field::number_of;
pub use overlong::up_to_overlong;
pub use reading::{MAX_BYTES, bytes_after, bytes_of, calls_of_file, read_start, stated_limit};
pub use record::{
    Word, call_of_record, command_of, count_within, member_of, number_at, numbered_call, word_at,
};
pub use records::Records;
pub use spot::Spot;
