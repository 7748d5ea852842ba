//! One scoped thread for each member.
ghost use Rattle.std.specs.Prelude.{◌≡◌, ◌≢◌, ◌≤◌, [], map, length, vec_capacity, None, Some, IfOk};
ghost use Rattle.member_board.specs.PlaysScript.{EachPlaysScript, FitsMembers, PlaysScript, HasPlayedAll};
ghost use Rattle.member_board.specs.PlaysScript.{HasPlayedSome, HasPlayedAllTasks, HasPlayedSomeTasks};

use crate::gate::Gate;
use crate::played::ScriptRun;
use crate::prepared_scripts::{
    MemberTask, PreparedScript, members_left, pair_members, prepare_scripts,
};
use crate::script::Script;
use crate::{Board, BoardIdentity, Member, Update, Version};
use left_right::Absorb;
use std::alloc::{AllocError, Global};
use std::snapshot::Snapshot;
use std::sync::Wait;
use std::thread;
use std::thread::{Promise, PromisedHandle, Scope, Threads};

/// Why not all scripts were played.
#[derive(Clone, Copy, PartialEq, Eq, Debug)]
pub enum RunFault {
    /// Room was refused, before the first thread started.
    NoMemory,
    /// A thread couldn't be started.
    NoThread,
}

/// What came of each script, in the order of the scripts, the members that didn't play, and why they didn't.
#[derive(Drop)]
pub struct FloorOutcome<K: BoardIdentity> {
    pub played: Vec<ScriptRun<K>>,
    pub unplayed: Vec<Member<K>>,
    pub fault: Option<RunFault>,
}

/// What a thread promises of its member and script.
#[derive(Drop)]
struct ThreadPromise<K: BoardIdentity> {
    task: Snapshot<MemberTask<K>>,
}

impl<K: BoardIdentity> Promise<ScriptRun<K>> for ThreadPromise<K> {
    ghost kept_by = { λ p r. PlaysScript K.config p.task.value.member p.task.value.commands r };
}

/// The members with their scripts, and the room that a run needs beside that for threads and receipts.
#[derive(Drop)]
struct RunRoom<K: BoardIdentity> {
    tasks: Vec<MemberTask<K>>,
    handles: Vec<PromisedHandle<ScriptRun<K>, ThreadPromise<K>>>,
    played: Vec<ScriptRun<K>>,
    rest: Vec<Member<K>>,
    ghost handles_fit: { (handles.items ≡ []) × (length tasks.items ≤ vec_capacity handles) },
    ghost played_fit: { (played.items ≡ []) × (length tasks.items ≤ vec_capacity played) },
    ghost rest_fit: { (rest.items ≡ []) × (length tasks.items ≤ vec_capacity rest) },
}

// Room for `n` members, with none of them.
fn take_run_room<K: BoardIdentity>(alloc: Global, n: usize) -> Result<RunRoom<K>, AllocError>
    ensures tasks { IfOk result (λ s. (s.tasks.items ≡ []) × (n ≤ vec_capacity s.tasks)) }
    ensures handles { IfOk result (λ s. n ≤ vec_capacity s.handles) }
    ensures played { IfOk result (λ s. n ≤ vec_capacity s.played) }
    ensures rest { IfOk result (λ s. n ≤ vec_capacity s.rest) }
{
    Ok(RunRoom {
        tasks: Vec::with_capacity(alloc, n)?,
        handles: Vec::with_capacity(alloc, n)?,
        played: Vec::with_capacity(alloc, n)?,
        rest: Vec::with_capacity(alloc, n)?,
    })
}

// Gives each member its script, in room that was made for them.
fn pair_all<K: BoardIdentity>(
    run_room: RunRoom<K>,
    members: Vec<Member<K>>,
    prepared_scripts: Vec<PreparedScript>,
) -> RunRoom<K>
    requires tasks { (run_room.tasks.items ≡ []) × (length members.items ≤ vec_capacity run_room.tasks) }
    requires handles { length members.items ≤ vec_capacity run_room.handles }
    requires played { length members.items ≤ vec_capacity run_room.played }
    requires rest { length members.items ≤ vec_capacity run_room.rest }
    requires many { length prepared_scripts.items ≡ length members.items }
    ensures members { map (λ p. p.member) result.tasks.items ≡ members.items }
    ensures commands { map (λ p. p.commands) result.tasks.items ≡ prepared_scripts.items }
{
    let RunRoom {
        tasks,
        handles,
        played,
        rest,
    } = run_room;
    RunRoom {
        tasks: pair_members(tasks, members, prepared_scripts),
        handles,
        played,
        rest,
    }
}

// Joins each thread. The room is there.
fn join_all<K: BoardIdentity, R: Threads>(
    rt: &R,
    handles: Vec<PromisedHandle<ScriptRun<K>, ThreadPromise<K>>>,
    played: Vec<ScriptRun<K>>,
) -> Vec<ScriptRun<K>>
    requires room { (played.items ≡ []) × (length handles.items ≤ vec_capacity played) }
    ensures { EachPlaysScript K.config (map (λ h. h.promise.task.value) handles.items) result.items }
{
    let n = handles.len();
    let mut played = played;
    let mut handles = handles.into_iter();
    for _ in 0..n {
        let handle = handles.next().unwrap();
        played.push_reserved(handle.join(rt));
    }
    played
}

fn refused<K: BoardIdentity>(alloc: Global, members: Vec<Member<K>>) -> FloorOutcome<K>
    ensures played { result.played.items ≡ [] }
    ensures unplayed { result.unplayed.items ≡ members.items }
    ensures fault { result.fault ≡ Some RunFault.NoMemory }
{
    FloorOutcome {
        played: Vec::new(alloc),
        unplayed: members,
        fault: Some(RunFault::NoMemory),
    }
}

// Plays the tasks at once, each on a thread of this scope, and joins the threads. Where one can't be started, its
// member is lost, and those after it are left.
fn play_tasks<'s, 'e: 's, K: BoardIdentity + Send + Sync, G: Gate + Sync, R: Wait + Threads + Sync>(
    scope: &'s Scope<'s, &'e ()>,
    run_room: RunRoom<K>,
    board: &'e Board<K>,
    gate: &'e G,
    rt: &'e R,
) -> FloorOutcome<K>
where
    Version<K>: Absorb<Update<K>, State = ()> + Send + Sync,
    ensures all { result.fault ≡ None →
        HasPlayedAllTasks K.config run_room.tasks.items result.played.items result.unplayed.items }
    ensures room { result.fault ≢ Some RunFault.NoMemory }
    ensures thread { result.fault ≡ Some RunFault.NoThread →
        HasPlayedSomeTasks K.config run_room.tasks.items result.played.items result.unplayed.items }
{
    let RunRoom {
        tasks,
        mut handles,
        played,
        rest,
    } = run_room;
    let n = tasks.len();
    let mut tasks = tasks.into_iter();
    let mut fault = None;
    for _ in 0..n {
        let task = tasks.next().unwrap();
        let promise = ThreadPromise {
            task: Snapshot::of(&task),
        };
        let Ok(handle) = scope.spawn_with(promise, move || task.play(board, gate, rt)) else {
            fault = Some(RunFault::NoThread);
            break;
        };
        handles.push_reserved(handle);
    }
    FloorOutcome {
        played: join_all(rt, handles, played),
        unplayed: members_left(tasks, rest),
        fault,
    }
}

/// Plays all scripts at once, each on a thread of its own, on which the member at the same place calls its commands
/// under the gate. Room for all receipts and for what is handed back is taken before the first thread starts.
///
/// There are as many scripts as members, the script at each place has the number of the member there, and no script
/// has more than `MAX_CALLS` commands. Without a fault all members come back in `played`, in their order. At `NoMemory`
/// no thread started, and all members come back in `unplayed` as they were. At `NoThread` the scripts before the one
/// whose thread couldn't be started were played; its member is lost, so that `close` answers `MissingMember`, and
/// those after it come back in `unplayed` as they were.
pub fn run<K: BoardIdentity + Send + Sync, G: Gate + Sync, R: Wait + Threads + Sync>(
    alloc: Global,
    board: &Board<K>,
    members: Vec<Member<K>>,
    scripts: Vec<Script>,
    gate: &G,
    rt: &R,
) -> FloorOutcome<K>
where
    Version<K>: Absorb<Update<K>, State = ()> + Send + Sync,
    requires fits { FitsMembers members.items scripts.items }
    ensures all { result.fault ≡ None →
        HasPlayedAll K.config members.items scripts.items result.played.items result.unplayed.items }
    ensures room { result.fault ≡ Some RunFault.NoMemory →
        (result.unplayed.items ≡ members.items) × (result.played.items ≡ []) }
    ensures thread { result.fault ≡ Some RunFault.NoThread →
        HasPlayedSome K.config members.items scripts.items result.played.items result.unplayed.items }
{
    let Ok(prepared_scripts) = prepare_scripts(alloc, scripts) else {
        return refused(alloc, members);
    };
    let Ok(run_room) = take_run_room(alloc, members.len()) else {
        return refused(alloc, members);
    };
    let run_room = pair_all(run_room, members, prepared_scripts);
    thread::scope(
        thread::scope_env(),
        rt,
        move |scope| -> FloorOutcome<K>
            ensures all { result.fault ≡ None →
                HasPlayedAllTasks K.config run_room.tasks.items result.played.items result.unplayed.items }
            ensures room { result.fault ≢ Some RunFault.NoMemory }
            ensures thread { result.fault ≡ Some RunFault.NoThread →
                HasPlayedSomeTasks K.config run_room.tasks.items result.played.items result.unplayed.items }
        { play_tasks(scope, run_room, board, gate, rt) },
    )
}
