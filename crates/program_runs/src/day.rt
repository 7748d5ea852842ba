//! A day on a board, on which each member calls the commands of its script at once with the others.

ghost use Rattle.std.specs.Prelude.{◌≡◌, ◌≤◌, [], All, length, map, vec_capacity, None, IfOk, IfErr};
ghost use Rattle.auction_terms.specs.Day.{calls_of};
ghost use Rattle.board_terms.specs.Closings.{IsAccount, IsClosing};
ghost use Rattle.board_terms.specs.BoardOpening.{newcomers};
ghost use Rattle.member_board.specs.PlaysScript.{FitsMembers};
ghost use Rattle.program_runs.specs.PlayedDay.{IsFaultAfter, IsOfBoard, IsOfDay, IsPlayedOut, IsUnclosedFault};

use crate::fault::Fault;
use left_right::Absorb;
use member_board::{
    Board, BoardIdentity, CloseFault, Closing, FloorOutcome, Fresh, Gate, Member, RunFault, Script,
    ScriptRun, Update, Version, close, run,
};
use std::alloc::Global;
use std::sync::Wait;
use std::thread::Threads;

/// Why the day isn't to be closed after this run, if there is a reason. What keeps it open, a call that wasn't recorded
/// or a thread that couldn't be started, comes before refused memory.
fn fault_after<K: BoardIdentity>(fault: Option<RunFault>, played: &[ScriptRun<K>]) -> Option<Fault>
    ensures { IsFaultAfter fault played.now result }
{
    if played.iter().any(|one| one.fault.is_some()) {
        return Some(Fault::NotClosed);
    }
    match fault {
        Some(RunFault::NoThread) => Some(Fault::NotClosed),
        Some(RunFault::NoMemory) => Some(Fault::NoMemory),
        None => None,
    }
}

/// The members that have played. The room is there.
fn members_of<K: BoardIdentity>(played: Vec<ScriptRun<K>>, room: Vec<Member<K>>) -> Vec<Member<K>>
    requires room { (room.items ≡ []) × (length played.items ≤ vec_capacity room) }
    ensures { result.items ≡ map (λ p. p.member) played.items }
{
    let n = played.len();
    let mut played = played.into_iter();
    let mut members = room;
    for _ in 0..n {
        let ScriptRun {
            member,
            receipts: _receipts,
            fault: _,
        } = played.next().unwrap();
        members.push_reserved(member);
    }
    members
}

/// Closes the board with these members, or gives up its room.
fn close_or_abandon<K: BoardIdentity, T: Wait>(
    board: Board<K>,
    members: Vec<Member<K>>,
    rt: &T,
) -> Result<Closing, Fault>
where
    Version<K>: Absorb<Update<K>, State = ()>,
    ensures closing { IfOk result (IsClosing K.config K.parts members.items) }
    ensures accounts { IfOk result (λ closing. All (IsAccount (calls_of closing.history.items)) members.items) }
    ensures fault { IfErr result (λ f. f ≡ Fault.NotClosed) }
{
    match close(board, members, rt) {
        Ok(closing) => Ok(closing),
        Err(
            CloseFault::MissingMember {
                board,
                members: _members,
            },
        ) => {
            board.abandon(rt);
            Err(Fault::NotClosed)
        }
        Err(CloseFault::Ahead { .. }) => Err(Fault::NotClosed),
    }
}

/// Closes the board after a run, or gives up its room where the run had a fault. There is room for the
/// members that come back.
fn close_after<K: BoardIdentity, T: Wait>(
    board: Board<K>,
    outcome: FloorOutcome<K>,
    room: Vec<Member<K>>,
    rt: &T,
) -> Result<Closing, Fault>
where
    Version<K>: Absorb<Update<K>, State = ()>,
    requires room { room.items ≡ [] }
    requires enough { IsFaultAfter outcome.fault outcome.played.items None
        → length outcome.played.items ≤ vec_capacity room }
    ensures done { IfOk result (λ _. IsFaultAfter outcome.fault outcome.played.items None) }
    ensures closing { IfOk result (IsClosing K.config K.parts (map (λ p. p.member) outcome.played.items)) }
    ensures accounts { IfOk result (λ closing. All (IsAccount (calls_of closing.history.items))
        (map (λ p. p.member) outcome.played.items)) }
    ensures fault { IfErr result (IsUnclosedFault outcome.fault outcome.played.items) }
{
    let FloorOutcome {
        played,
        unplayed: _unplayed,
        fault,
    } = outcome;
    if let Some(fault) = fault_after(fault, played.as_slice()) {
        board.abandon(rt);
        return Err(fault);
    }
    close_or_abandon(board, members_of(played, room), rt)
}

/// Plays all scripts on the board, and closes it. Room for the members that come back is taken first.
fn play_and_close<K: BoardIdentity + Send + Sync, G: Gate + Sync, T: Wait + Threads + Sync>(
    alloc: Global,
    board: Board<K>,
    members: Vec<Member<K>>,
    scripts: Vec<Script>,
    gate: &G,
    rt: &T,
) -> Result<Closing, Fault>
where
    Version<K>: Absorb<Update<K>, State = ()> + Send + Sync,
    requires members { members.items ≡ newcomers K.parts }
    requires fits { FitsMembers members.items scripts.items }
    ensures closing { IfOk result (IsPlayedOut K.config K.parts scripts.items) }
    ensures fault { IfErr result IsOfBoard }
{
    let Ok(room) = Vec::with_capacity(alloc, members.len()) else {
        board.abandon(rt);
        return Err(Fault::NoMemory);
    };
    let outcome = run(alloc, &board, members, scripts, gate, rt);
    close_after(board, outcome, room, rt)
}

/// The closing of the day that `K` names, with a script for each member. It has no bound but `K`'s, so
/// that its caller can name the day.
pub fn closing_of_day<K: BoardIdentity + Send + Sync, G: Gate + Sync, T: Wait + Threads + Sync>(
    alloc: Global,
    fresh: Fresh,
    scripts: Vec<Script>,
    gate: &G,
    rt: &T,
) -> Result<Closing, Fault>
    requires names { (K.config ≡ fresh.config) × (K.parts ≡ fresh.members)
        × (K.name ≡ fresh.ledger) × (K.story ≡ fresh.story) }
    requires fits { FitsMembers (newcomers fresh.members) scripts.items }
    ensures closing { IfOk result (IsPlayedOut fresh.config fresh.members scripts.items) }
    ensures fault { IfErr result IsOfDay }
{
    let (board, members) = match fresh.begin::<K>() {
        Ok(begun) => begun,
        Err(fault) => return Err(Fault::Open(fault)),
    };
    play_and_close(alloc, board, members, scripts, gate, rt)
}
