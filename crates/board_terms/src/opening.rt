//! Opening a board: its day as a value, and what it has under its lock.
ghost use Rattle.std.specs.Prelude.{◌≡◌, ◌<◌, ◌≤◌, [], vec_capacity, not, IfOk, IfErr, IfSome, Err, None};
ghost use Rattle.auction_terms.specs.Auxiliary.RunningAuction.{opened_auction};
ghost use Rattle.auction_terms.specs.declared.limits.TheConstants.{MAX_CALLS};
ghost use Rattle.board_terms.specs.BoardOpening.{IsWithinCapacity, board_fault, has_bad_members};
ghost use Rattle.board_terms.specs.BoardViews.{IsSnapshotOf, board_member, board_history, opened_board};
ghost use Rattle.board_terms.specs.MemberView.{newcomer};

use crate::account::Account;
use crate::board_core::BoardCore;
use crate::calls::Shown;
use crate::evidence::new_evidence;
use crate::snapshot::Snapshot;
use auction::{Auction, OpenFault, config_fault};
use auction_terms::{Command, Config, Entry, MAX_MEMBERS, Reply};
use std::alloc::{AllocError, Global};
use std::marker::Model;

/// One opening of a board, as a value. Contracts see its identity, its config, its number of members, and the book of
/// its calls.
#[derive(Drop)]
pub struct Day {
    pub(crate) identity: u64,
    pub(crate) config: Config,
    pub members: u8,
    /// What is shown before the first call.
    pub(crate) opening: Snapshot,
}

impl Model for Day {
    ghost use Rattle.std.specs.Prelude.{◌≡◌, []};
    ghost use Rattle.board_terms.specs.BoardViews.{OpenedBoard, opened_board};
    ghost use Rattle.board_terms.specs.CallsAndLooks.{ShowsAfter};

    ghost Value = { OpenedBoard };

    ghost view = { λ d. opened_board d.identity d.config d.members d.opening.front.book };

    ghost invariant = { λ d. (d.opening.front.log ≡ []) × ShowsAfter d.config [] d.opening.shown };
}

impl Day {
    /// What is shown before the first call.
    pub fn opening(&self) -> Snapshot
        ensures view { IsSnapshotOf self.now result.front result.shown }
        ensures nothing { result.front.log ≡ [] }
    {
        self.opening.again()
    }

    /// A member with this number, which has made no call and was shown none.
    pub fn newcomer(&self, number: u8) -> Account
        requires { number < self.now.members }
        ensures { result ≡ board_member self.now (newcomer number) }
    {
        Account {
            identity: self.identity,
            config: self.config,
            members: self.members,
            number,
            calls: 0,
            last: 0,
            seen: self.opening.again(),
        }
    }
}

// Whether a board may have this number of members.
fn fits(members: u8) -> bool
    ensures { result ≡ not (has_bad_members members) }
{
    members != 0 && members <= MAX_MEMBERS
}

// The auction of a board with `members` members. No memory is taken for one that there can't be.
#[tactic(auto, using(crate::proofs::FaultLaws::board_is))]
fn open_auction(alloc: Global, config: Config, members: u8) -> Result<Auction, OpenFault>
    ensures opening { IfOk result (λ a. a ≡ opened_auction config) }
    ensures refused { IfSome (board_fault config members) (λ fault. result ≡ Err fault) }
    ensures memory { board_fault config members ≡ None → IfErr result (λ fault. fault ≡ OpenFault.NoMemory) }
    ensures good { IfOk result (λ a. board_fault config members ≡ None) }
    ensures within { IfOk result (λ a. IsWithinCapacity config members) }
{
    if let Some(fault) = config_fault(config) {
        return Err(fault);
    }
    if !fits(members) {
        return Err(OpenFault::BadCapacity);
    }
    Auction::open(alloc, config)
}

/// What the room of the history is written with.
const NO_ENTRY: Entry = Entry {
    member: 0,
    command: Command::Indicate,
    reply: Reply::Deleted,
};

// Room for `max_calls` entries. Each is written once, so that the system has given its pages before the first call.
fn take_history(alloc: Global, max_calls: u32) -> Result<Vec<Entry>, AllocError>
    ensures { IfOk result (λ h. (h.items ≡ []) × (max_calls ≤ vec_capacity h)) }
{
    let mut history = vec![in alloc; NO_ENTRY; max_calls as usize]?;
    history.clear();
    Ok(history)
}

// A board of an auction that was just opened.
#[tactic(auto, using(crate::proofs::OpenedCoreLaws::opened_core_invariant))]
fn board_around(
    alloc: Global,
    identity: u64,
    config: Config,
    members: u8,
    auction: Auction,
) -> Result<(BoardCore, Day), AllocError>
    requires auction { auction ≡ opened_auction config }
    requires small { config.max_calls ≤ MAX_CALLS }
    ensures core { IfOk result (λ r. r.0 ≡ board_history r.1 []) }
    ensures day { IfOk result (λ r. r.1 ≡ opened_board identity config members r.1.book) }
{
    let (head, front) = new_evidence();
    let display = auction.display();
    let day = Day {
        identity,
        config,
        members,
        opening: Snapshot {
            front: front.again(),
            shown: Shown { calls: 0, display },
        },
    };
    let core = BoardCore {
        identity,
        auction,
        history: take_history(alloc, config.max_calls)?,
        front,
        head,
        counted: vec![in alloc; 0u32; usize::from(members)]?,
        members,
    };
    Ok((core, day))
}

/// Opens a board with `members` members, and takes the room that its calls need: an auction, a history of `max_calls`
/// entries, and the counts.
///
/// It is refused with `BadBounds`, `BadReference` or `BadCapacity`, the first of these that holds, exactly where the
/// config or the number of members is out of its limits, and with `NoMemory` only where none is.
pub fn open_board(
    alloc: Global,
    identity: u64,
    config: Config,
    members: u8,
) -> Result<(BoardCore, Day), OpenFault>
    ensures core { IfOk result (λ r. r.0 ≡ board_history r.1 []) }
    ensures day { IfOk result (λ r. r.1 ≡ opened_board identity config members r.1.book) }
    ensures refused { IfSome (board_fault config members) (λ fault. result ≡ Err fault) }
    ensures memory { board_fault config members ≡ None → IfErr result (λ fault. fault ≡ OpenFault.NoMemory) }
    ensures within { IfOk result (λ r. IsWithinCapacity config members) }
{
    let auction = open_auction(alloc, config, members)?;
    match board_around(alloc, identity, config, members, auction) {
        Ok(board) => Ok(board),
        Err(_) => Err(OpenFault::NoMemory),
    }
}
