//! A session that begins on a journal's file.

ghost use Rattle.std.specs.Prelude.{◌≡◌, ◌≢◌, ◌≤◌, ◌<◌, ◌+◌, List, ℕ, [], None, Some, Ok, Err, length};
ghost use Rattle.std.specs.Prelude.{IfErr, IfOk, IsTrue, ◌↔◌};
ghost use Rattle.auction_terms.specs.Auxiliary.RunningAuction.{opened_auction};
ghost use Rattle.journal_file.specs.Committed.{HasTornEnd, IsTextLen, IsTornOf, behind_lines, committed};
ghost use Rattle.journal_file.specs.Settled.{IsSettled};
ghost use Rattle.live_session.specs.Begun.{AddsLines, HasBegun, HasNotBegun, IsPutAside, LacksLines, LacksRepair};

use crate::begin_fault::{BeginFault, CutOff, NotBegun};
use crate::first_lines::day_lines;
use crate::resuming::resume;
use auction::Auction;
use journal::DayHeader;
use journal_file::{
    CommittedLines, Device, DeviceError, LONGEST_WRITE, committed_len, is_torn_of, recover,
    torn_len,
};
use std::alloc::Global;

/// How many bytes a journal's file may have.
const MAX_BYTES: usize = 1 << 60;

/// How much room is made at a time for lines that come.
const SPARE: usize = 1 << 20;

/// A session that may begin: its journal, its auction, which has had the journal's entries, and what a torn commit had
/// left behind them, if anything.
#[derive(Drop)]
pub struct Begun<D: Device> {
    pub journal: CommittedLines<D>,
    pub auction: Auction,
    pub cut: Option<CutOff>,
}

/// Whether a file is empty, or what a crash leaves of one in which these lines are being written as the first.
fn is_left_by_begin(bytes: &[u8], lines: &[u8]) -> bool
    ensures { IsTrue result ↔ (length bytes.now ≤ length lines.now + SPARE) × IsTornOf lines.now bytes.now }
{
    bytes.len().saturating_sub(lines.len()) <= SPARE && is_torn_of(bytes, lines)
}

/// Has the lines of a file on the disk, cuts it after the last of them, where they end, and makes a journal of it.
fn repair<D: Device + Drop>(
    device: D,
    bytes: &[u8],
    end: usize,
) -> Result<CommittedLines<D>, NotBegun<D>>
    requires read { bytes.now ≡ D.seen device }
    requires end { end ≡ length (committed (D.seen device)) }
    requires torn { HasTornEnd (D.seen device) }
    ensures settled { IfOk result (λ journal. IsSettled D.seen D.may_leave journal) }
    ensures lines { IfOk result (λ journal. AddsLines D.Device device journal.device []) }
    ensures causes { IfOk result (λ journal. D.faults device ≤ D.faults journal.device) }
    ensures aside { IfOk result (λ journal. D.aside journal.device ≡ D.aside device) }
    ensures lacks { IfErr result (λ failed. LacksRepair D.Device device failed.device failed.fault) }
{
    let mut device = device;
    if end > MAX_BYTES {
        let fault = BeginFault::Device(DeviceError::Full);
        return Err(NotBegun { device, fault });
    }
    match recover(&mut device, bytes, end) {
        Ok(()) => Ok(CommittedLines::new(device, end, SPARE)),
        Err(error) => {
            let fault = BeginFault::Device(error);
            Err(NotBegun { device, fault })
        }
    }
}

/// Begins a journal of this day on a file without lines, as `begin`.
fn begin_day<D: Device + Drop>(
    alloc: Global,
    auction: Auction,
    device: D,
    bytes: &[u8],
    day: DayHeader,
) -> Result<Begun<D>, NotBegun<D>>
    requires opened { auction ≡ opened_auction day.config }
    requires read { bytes.now ≡ D.seen device }
    requires new_day { committed (D.seen device) ≡ [] }
    ensures begun { IfOk result (λ begun.
        HasBegun D.Device day device begun.journal begun.auction begun.cut) }
    ensures refused { IfErr result (λ not_begun.
        HasNotBegun D.Device day device not_begun.device not_begun.fault) }
{
    let Ok(lines) = day_lines(alloc, day) else {
        let fault = BeginFault::NoMemory;
        return Err(NotBegun { device, fault });
    };
    if !is_left_by_begin(bytes, lines.as_slice()) {
        let fault = BeginFault::NotAJournal;
        return Err(NotBegun { device, fault });
    }
    let mut journal = match repair(device, bytes, 0) {
        Ok(journal) => journal,
        Err(not_begun) => return Err(not_begun),
    };
    match journal.commit(lines.as_slice()) {
        Ok(()) => Ok(Begun {
            journal,
            auction,
            cut: None,
        }),
        Err(error) => Err(NotBegun {
            device: journal.device,
            fault: BeginFault::Device(error),
        }),
    }
}

/// Puts what is behind the lines of a file aside, where they end: this number of bytes.
fn put_aside<D: Device>(
    device: &mut D,
    bytes: &[u8],
    end: usize,
    count: usize,
) -> Result<Option<CutOff>, DeviceError>
    requires read { bytes.now ≡ D.seen device.old }
    requires end { end ≡ length (committed (D.seen device.old)) }
    requires count { IsTextLen (behind_lines (D.seen device.old)) count }
    requires torn { HasTornEnd (D.seen device.old) }
    ensures aside { IfOk result (λ cut. IsPutAside D.Device device.old device.new cut) }
    ensures seen { D.seen device.new ≡ D.seen device.old }
    ensures lacks { IfErr result (LacksLines D.Device device.old device.new []) }
    ensures adds { IfOk result (λ _. AddsLines D.Device device.old device.new []) }
    ensures crash { (c : List ℕ) → D.may_leave device.new c → D.may_leave device.old c }
    ensures causes { D.faults device.old ≤ D.faults device.new }
{
    if count == 0 {
        return Ok(None);
    }
    let (_, behind) = bytes.split_at(end);
    let (torn, _) = behind.split_at(count);
    match device.put_aside(torn) {
        Ok(number) => Ok(Some(CutOff {
            number,
            bytes: count as u64,
        })),
        Err(error) => Err(error),
    }
}

/// Goes on with the journal of a file that has lines, as `begin`.
fn go_on<D: Device + Drop>(
    alloc: Global,
    auction: Auction,
    device: D,
    bytes: &[u8],
    end: usize,
    day: DayHeader,
) -> Result<Begun<D>, NotBegun<D>>
    requires opened { auction ≡ opened_auction day.config }
    requires read { bytes.now ≡ D.seen device }
    requires end { end ≡ length (committed (D.seen device)) }
    requires lines { committed (D.seen device) ≢ [] }
    ensures begun { IfOk result (λ begun.
        HasBegun D.Device day device begun.journal begun.auction begun.cut) }
    ensures refused { IfErr result (λ not_begun.
        HasNotBegun D.Device day device not_begun.device not_begun.fault) }
{
    let (lines, _) = bytes.split_at(end);
    let auction = match resume(alloc, auction, lines, day) {
        Ok(auction) => auction,
        Err(fault) => {
            let fault = BeginFault::Resume(fault);
            return Err(NotBegun { device, fault });
        }
    };
    let count = torn_len(bytes, end);
    if count > LONGEST_WRITE {
        let fault = BeginFault::Damaged(u64::from(auction.calls()) + 2, count as u64);
        return Err(NotBegun { device, fault });
    }
    let mut device = device;
    let cut = match put_aside(&mut device, bytes, end, count) {
        Ok(cut) => cut,
        Err(error) => {
            let fault = BeginFault::Device(error);
            return Err(NotBegun { device, fault });
        }
    };
    match repair(device, bytes, end) {
        Ok(journal) => Ok(Begun {
            journal,
            auction,
            cut,
        }),
        Err(not_begun) => Err(not_begun),
    }
}

/// Begins a session of this day on a file that was read, or goes on with the one that the file holds. Its bytes are
/// those that were read, and the auction was opened for the day.
///
/// A file that is empty, or what a crash leaves of one in which the record of this day was being written, gets that
/// record. Any other has to be a journal of this day with lawful replies, whose entries the auction then has had. What
/// a torn commit left behind them is put aside and cut off; where more is behind them, the file isn't gone on with.
/// Before all that is known, the file stays as it was.
pub fn begin<D: Device + Drop>(
    alloc: Global,
    auction: Auction,
    device: D,
    bytes: &[u8],
    day: DayHeader,
) -> Result<Begun<D>, NotBegun<D>>
    requires opened { auction ≡ opened_auction day.config }
    requires read { bytes.now ≡ D.seen device }
    ensures begun { IfOk result (λ begun.
        HasBegun D.Device day device begun.journal begun.auction begun.cut) }
    ensures refused { IfErr result (λ not_begun.
        HasNotBegun D.Device day device not_begun.device not_begun.fault) }
{
    let end = committed_len(bytes);
    if end == 0 {
        return begin_day(alloc, auction, device, bytes, day);
    }
    go_on(alloc, auction, device, bytes, end, day)
}
