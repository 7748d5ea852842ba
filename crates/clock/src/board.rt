//! Prints what a board's calls and looks take, beside the same commands on an auction alone.

ghost use Rattle.std.specs.Prelude.{◌≡◌};

use crate::commands;
use crate::tasks::{self, MeasuredTask, perform};
use auction::Auction;
use auction_terms::{Config, MAX_CALLS};
use left_right::Absorb;
use member_board::{Board, BoardIdentity, Fresh, Member, Update, Version, close};
use std::alloc::{AllocError, AllocGlobal, Global};
use std::io::Print;
use std::marker::Brand;
use std::sync::Wait;
use std::sync::atomic::AtomicBool;
use std::thread::Threads;
use std::time::{Clock, Instant};
use std::{io, thread};

const CONFIG: Config = Config {
    low: 1,
    high: 1000,
    reference: 500,
    max_open: 4096,
    max_calls: MAX_CALLS,
    range: None,
};

/// How many calls are measured, of all members together.
const CALLS: u32 = 100_000;

/// How many looks of one member are measured.
const LOOKS: u32 = 10_000_000;

/// How often a member pauses the processor between two calls that come now and then: some microseconds.
const PAUSES: u32 = 100;

/// How many of them are measured that take the lock.
const LOCKED_LOOKS: u32 = 1_000_000;

/// Each member does its task on a thread of its own.
fn all_at_once<K: BoardIdentity + Send + Sync, R: Wait + Threads + Sync>(
    rt: &R,
    alloc: Global,
    board: &Board<K>,
    members: Vec<Member<K>>,
    tasks: &[MeasuredTask],
) -> Result<Vec<Member<K>>, AllocError>
where
    Version<K>: Absorb<Update<K>, State = ()> + Send + Sync,
{
    let is_done = AtomicBool::new(false);
    let is_done = &is_done;
    thread::scope(thread::scope_env(), rt, |scope| {
        let mut running = Vec::new(alloc);
        let mut back = Vec::new(alloc);
        for (member, task) in members.into_iter().zip(tasks.iter()) {
            let task = *task;
            if let Ok(handle) = scope.spawn(move || perform(rt, board, member, task, is_done)) {
                running.push(handle)?;
            }
        }
        for handle in running {
            back.push(handle.join(rt).0)?;
        }
        Ok(back)
    })
}

/// How many calls these members made.
fn calls_of<K: BoardIdentity>(members: &[Member<K>]) -> u64 {
    let mut calls: u64 = 0;
    for member in members {
        calls = calls.saturating_add(u64::from(member.calls()));
    }
    calls
}

/// What a run of tasks took.
#[derive(Clone, Copy, Debug)]
struct Taken {
    nanoseconds: u128,
    /// How many calls the members made, with those that enter the open orders.
    calls: u64,
}

/// What the tasks take together, on a board with open orders.
fn board_time<K: BoardIdentity + Send + Sync, R: Wait + Threads + Sync + Clock>(
    rt: &R,
    alloc: Global,
    board: Board<K>,
    members: Vec<Member<K>>,
    tasks: &[MeasuredTask],
) -> io::Result<Taken>
where
    Version<K>: Absorb<Update<K>, State = ()> + Send + Sync,
{
    let mut members = members;
    if let Some(first) = members.last_mut() {
        tasks::call_open_orders(rt, &board, first);
    }
    let start = Instant::now(rt)?;
    let back = all_at_once(rt, alloc, &board, members, tasks)?;
    let nanoseconds = start.elapsed(rt)?.as_nanos();
    let calls = calls_of(back.as_slice());
    let _ = close(board, back, rt);
    Ok(Taken { nanoseconds, calls })
}

// The day that K names. It has no bound but K's, so that its caller can name the day.
fn day<K: BoardIdentity + Send + Sync, R: Wait + Threads + Sync + Clock>(
    rt: &R,
    alloc: Global,
    fresh: Fresh,
    tasks: &[MeasuredTask],
) -> io::Result<Taken>
    requires config { K.config ≡ fresh.config }
    requires parts { K.parts ≡ fresh.members }
    requires name { K.name ≡ fresh.ledger }
    requires story { K.story ≡ fresh.story }
{
    let (board, members) = fresh.begin::<K>().map_err(|_| AllocError)?;
    board_time(rt, alloc, board, members, tasks)
}

/// Measures members at their tasks, and prints nanoseconds for one thing that they do, and how many calls were made.
fn measure<R: Wait + Threads + Sync + Clock + Print + AllocGlobal>(
    rt: &R,
    row: Row,
) -> io::Result<()> {
    let Row { name, tasks, count } = row;
    let fresh = Fresh::open(rt.alloc(), CONFIG, u8::try_from(tasks.len()).unwrap_or(0)).map_err(
        |_| AllocError,
    )?;
    let Taken { nanoseconds, calls } = day::<Brand, R>(rt, rt.alloc(), fresh, tasks)?;
    let tenths = nanoseconds.saturating_mul(10) / u128::from(count.max(1));
    let (each, tenth) = (tenths / 10, tenths % 10);
    println!(rt; "{name} {each}.{tenth} {calls}")?;
    Ok(())
}

/// Measures the same commands on an auction alone, with or without what is shown after each.
fn measure_alone<R: Clock + Print + AllocGlobal>(
    rt: &R,
    name: &str,
    is_shown: bool,
) -> io::Result<()> {
    let mut auction = Auction::open(rt.alloc(), CONFIG).map_err(|_| AllocError)?;
    commands::enter_open_orders(&mut auction);
    let start = Instant::now(rt)?;
    let last = commands::apply_many(&mut auction, CALLS, is_shown);
    let each = start.elapsed(rt)?.as_nanos() / u128::from(CALLS);
    println!(rt; "{name} {each} {last}")?;
    Ok(())
}

/// Members at their tasks, and how many things are measured that they do together.
#[derive(Clone, Copy)]
struct Row {
    name: &'static str,
    tasks: &'static [MeasuredTask],
    count: u32,
}

const ROWS: [Row; 9] = [
    Row {
        name: "calls-of-1-member",
        tasks: &[MeasuredTask::Call(CALLS)],
        count: CALLS,
    },
    Row {
        name: "calls-of-2-members",
        tasks: &[MeasuredTask::Call(CALLS / 2); 2],
        count: CALLS,
    },
    Row {
        name: "calls-of-4-members",
        tasks: &[MeasuredTask::Call(CALLS / 4); 4],
        count: CALLS,
    },
    Row {
        name: "look",
        tasks: &[MeasuredTask::Look(LOOKS)],
        count: LOOKS,
    },
    Row {
        name: "look-of-4-members",
        tasks: &[MeasuredTask::Look(LOOKS); 4],
        count: LOOKS * 4,
    },
    Row {
        name: "look-beside-calls",
        tasks: &[
            MeasuredTask::CallOn { pauses: 0 },
            MeasuredTask::Look(LOOKS),
        ],
        count: LOOKS,
    },
    Row {
        name: "look-beside-calls-now-and-then",
        tasks: &[
            MeasuredTask::CallOn { pauses: PAUSES },
            MeasuredTask::Look(LOOKS),
        ],
        count: LOOKS,
    },
    Row {
        name: "look-under-lock",
        tasks: &[MeasuredTask::LookUnderLock(LOCKED_LOOKS)],
        count: LOCKED_LOOKS,
    },
    Row {
        name: "look-under-lock-beside-calls",
        tasks: &[
            MeasuredTask::CallOn { pauses: 0 },
            MeasuredTask::LookUnderLock(LOCKED_LOOKS),
        ],
        count: LOCKED_LOOKS,
    },
];

/// Measures an auction alone, then calls, then looks.
pub fn measure_board<R: Wait + Threads + Sync + Clock + Print + AllocGlobal>(
    rt: &R,
) -> io::Result<()> {
    measure_alone(rt, "apply-alone", false)?;
    measure_alone(rt, "apply-and-show-alone", true)?;
    for row in ROWS {
        measure(rt, row)?;
    }
    Ok(())
}
