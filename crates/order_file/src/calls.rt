//! The calls of records, one after the other.

ghost use Rattle.std.specs.Prelude.{◌≡◌, ◌≤◌, IfErr, IfOk, IfSome};
ghost use Rattle.order_file.specs.Calls.{GivesNextCall, IsReady, calls_left};
ghost use Rattle.order_file.specs.File.{IsBelow, IsOfRecord, calls_after, calls_of_file};
ghost use Rattle.order_file.specs.Rows.{IsRecordReader, rows_left};

use crate::fault::FileFault;
use crate::reading::calls_of_text;
use crate::record::numbered_call;
use crate::records::Records;
use auction_terms::Call;
use std::alloc::Global;

/// The calls of the records of a text, one after the other: each of one of `members` members, and no more of them
/// than `max_calls`, those before the text counted.
#[derive(Drop)]
pub struct Calls<'a> {
    records: Records<'a>,
    members: u8,
    max_calls: u32,
    count: u32,
}

impl<'a> Calls<'a> {
    /// The calls of a file that was read, of which none was read yet. The only fault is that memory is refused.
    pub fn open(
        alloc: Global,
        text: &'a [u8],
        members: u8,
        max_calls: u32,
    ) -> Result<Calls<'a>, FileFault>
        ensures memory { IfErr result (λ e. e ≡ FileFault.NoMemory) }
        ensures ready { IfOk result (IsReady members max_calls 0) }
        ensures calls { IfOk result (λ calls. calls_left calls ≡ calls_of_file members max_calls text.now) }
    {
        calls_of_text(alloc, text, members, max_calls, 0)
    }

    /// The calls of these records, which come after `count` others.
    pub(crate) fn new(records: Records<'a>, members: u8, max_calls: u32, count: u32) -> Calls<'a>
        requires rows { IsRecordReader records.rows }
        requires room { count ≤ max_calls }
        ensures ready { IsReady members max_calls count result }
        ensures calls { calls_left result ≡ calls_after members max_calls count (rows_left records.entry.rows) }
    {
        Calls {
            records,
            members,
            max_calls,
            count,
        }
    }

    /// The next call, if there is one, or the fault of its record: the first in it from the left, or
    /// `FileFault::TooManyCommands` for a record more than `max_calls`, or `NoMemory`. After a fault, and after the
    /// last call, there is no call.
    #[inline(always)]
    pub fn next_call(&mut self) -> Result<Option<Call>, FileFault>
        requires { IsReady self.old.members self.old.max_calls self.old.count self.old }
        ensures call { GivesNextCall self.old self.new result }
        ensures parsed { IfErr result IsOfRecord }
        ensures below { IfOk result (λ found. IfSome found (IsBelow self.old.members)) }
    {
        if !self.records.next()? {
            return Ok(None);
        }
        let number = u64::from(self.count) + 1;
        if self.count >= self.max_calls {
            return Err(FileFault::TooManyCommands { number });
        }
        let call = numbered_call(&self.records.row, number, self.members)?;
        self.count += 1;
        Ok(Some(call))
    }
}
