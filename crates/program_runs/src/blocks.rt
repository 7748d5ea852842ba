//! The commands of an order file, applied to an auction block by block, as they are read.

ghost use Rattle.std.specs.Prelude.{◌≡◌, ◌<◌, ◌≤◌, ◌↔◌, ℕ, [], List, length, Option, None, Ok, IfErr, IfOk, IfSome};
ghost use Rattle.std.specs.Prelude.{IsErrOf};
ghost use Rattle.std.specs.Io.KnownBytes.{prepend_known};
ghost use Rattle.auction_terms.specs.Auxiliary.RunningAuction.{opened_auction};
ghost use Rattle.auction.specs.ConfigFault.{open_fault};
ghost use Rattle.day_road.specs.Heard.{HeardEntry, HearsAll};
ghost use Rattle.journal.specs.DayWithCalls.{orders_for};
ghost use Rattle.order_file.specs.Blocks.{OpensBlock, block_rows};
ghost use Rattle.order_file.specs.File.{IsOfRecord, calls_after};
ghost use Rattle.program_runs.specs.RecordedEntries.{RecordsCallsOfText, RecordsDayOfText, RecordsHeard};
ghost use Rattle.program_runs.specs.RecordedEntries.{form_of_recorder, unanswered};

use crate::fault::Fault;
use crate::recorded_day::{PrintableDay, close_day, open_day};
use crate::recorder::Recorder;
use auction::Auction;
use byte_streams::Source;
use day_road::hear_all;
use journal::DayHeader;
use order_file::{Blocks, FileFault, MAX_BYTES};
use settings::Form;
use std::alloc::Global;

/// Applies the calls of a block's records, which come after the auction's so far, and records their entries; or
/// answers the first fault, which may be that memory is refused.
fn record_block(
    alloc: Global,
    blocks: &Blocks,
    auction: &mut Auction,
    recorder: &mut Recorder,
    members: u8,
) -> Result<(), FileFault>
    requires { auction.old.calls ≤ auction.old.config.max_calls }
    ensures form { form_of_recorder recorder.new ≡ form_of_recorder recorder.old }
    ensures heard { (before : List HeardEntry) → RecordsHeard recorder.old auction.old before
        → HearsAll (RecordsHeard recorder.new auction.new) before auction.old auction.new
        (unanswered (calls_after members auction.old.config.max_calls auction.old.calls (block_rows blocks.now)))
        result }
    ensures room { auction.new.calls ≤ auction.old.config.max_calls }
    ensures parsed { IfErr result IsOfRecord }
{
    let max_calls = auction.config().max_calls;
    let mut calls = blocks.calls(alloc, members, max_calls, auction.calls())?;
    hear_all(alloc, &mut calls, auction, recorder)
}

/// Applies the calls of this block's records, of which none has come, and of those behind it, and records their
/// entries; or answers the first fault, before which one of the reading comes.
fn record_blocks<R: Source>(
    alloc: Global,
    reader: &mut R,
    auction: &mut Auction,
    recorder: &mut Recorder,
    blocks: &mut Blocks,
    members: u8,
) -> Result<(), FileFault>
    requires opened { auction.old ≡ opened_auction auction.old.config }
    requires none { RecordsHeard recorder.old auction.old [] }
    ensures failed { IsErrOf result FileFault.ReadFailed ↔ (R.failures reader.old < R.failures reader.new) }
    ensures form { form_of_recorder recorder.new ≡ form_of_recorder recorder.old }
    ensures room { auction.new.calls ≤ auction.old.config.max_calls }
    ensures recorded { (text : Option (List ℕ))
        → IfSome text (OpensBlock (Ok blocks.old) MAX_BYTES (R.left reader.old))
        → RecordsCallsOfText (RecordsHeard recorder.new auction.new) auction.old auction.new result text members }
{
    'turns: loop {
        if let Err(fault) = record_block(alloc, blocks, auction, recorder, members) {
            blocks.drain(reader)?;
            return Err(fault);
        }
        if !blocks.next(reader)? {
            return Ok(());
        }
    }
}

/// Applies the calls of an order file, of which these bytes at the start were read, to an auction that was just opened,
/// and records their entries; or answers the file's first fault. The start is dropped once the first block has a copy,
/// as it may be the whole input.
fn record_text<R: Source>(
    alloc: Global,
    start: Vec<u8>,
    reader: &mut R,
    auction: &mut Auction,
    recorder: &mut Recorder,
    members: u8,
) -> Result<(), FileFault>
    requires short { length start.items ≤ MAX_BYTES }
    requires opened { auction.old ≡ opened_auction auction.old.config }
    requires none { RecordsHeard recorder.old auction.old [] }
    ensures failed { IsErrOf result FileFault.ReadFailed ↔ (R.failures reader.old < R.failures reader.new) }
    ensures form { form_of_recorder recorder.new ≡ form_of_recorder recorder.old }
    ensures room { IfOk result (λ _. auction.new.calls ≤ auction.old.config.max_calls) }
    ensures recorded { RecordsCallsOfText (RecordsHeard recorder.new auction.new) auction.old auction.new result
        (prepend_known start.items (R.left reader.old)) members }
{
    let mut blocks = Blocks::open(alloc, start.as_slice(), reader, MAX_BYTES)?;
    drop(start);
    record_blocks(alloc, reader, auction, recorder, &mut blocks, members)
}

/// Runs the commands of an order file of this day, which can be opened, block by block. These bytes at the file's start
/// were read.
pub fn record_file<R: Source>(
    alloc: Global,
    start: Vec<u8>,
    reader: &mut R,
    day: DayHeader,
    form: Form,
) -> Result<PrintableDay, Fault>
    requires short { length start.items ≤ MAX_BYTES }
    requires opens { open_fault day.config ≡ None }
    ensures failed { IsErrOf result (Fault.File FileFault.ReadFailed)
        ↔ (R.failures reader.old < R.failures reader.new) }
    ensures recorded { RecordsDayOfText form result (prepend_known start.items (R.left reader.old)) (orders_for day) }
{
    let Ok(mut open_day) = open_day(alloc, day, form) else {
        return Err(Fault::File(FileFault::NoMemory));
    };
    record_text(
        alloc,
        start,
        reader,
        &mut open_day.auction,
        &mut open_day.recorder,
        day.members,
    )?;
    close_day(alloc, day, open_day)
}
