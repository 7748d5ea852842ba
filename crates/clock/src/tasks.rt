//! What a member does while it is measured.

use crate::commands::{OPEN_ORDERS, command, last_id, open_order};
use core::hint::spin_loop;
use left_right::Absorb;
use member_board::{Board, BoardIdentity, Member, Update, Version};
use std::sync::Wait;
use std::sync::atomic::AtomicBool;
use std::sync::atomic::Ordering::SeqCst;

/// What a member does while it is measured.
#[derive(Clone, Copy, Debug, PartialEq, Eq)]
pub enum MeasuredTask {
    /// This many calls.
    Call(u32),
    /// Calls until a member that looks is done, with `pauses` pauses of the processor after each.
    CallOn { pauses: u32 },
    /// This many looks.
    Look(u32),
    /// This many looks at what the lock keeps.
    LookUnderLock(u32),
}

/// Enters the orders that are open before the measuring.
pub fn call_open_orders<K: BoardIdentity, R: Wait>(rt: &R, board: &Board<K>, member: &mut Member<K>)
where
    Version<K>: Absorb<Update<K>, State = ()>,
{
    for k in 0..OPEN_ORDERS {
        let _ = member.call(board, rt, open_order(k));
    }
}

fn pause(pauses: u32) {
    for _ in 0..pauses {
        spin_loop();
    }
}

fn call_many<K: BoardIdentity, R: Wait>(
    rt: &R,
    board: &Board<K>,
    member: &mut Member<K>,
    count: u32,
    pauses: u32,
    is_done: &AtomicBool,
)
where
    Version<K>: Absorb<Update<K>, State = ()>,
{
    let mut id = 0;
    for k in 0..count {
        let Ok(receipt) = member.call(board, rt, command(k, id)) else {
            return;
        };
        id = last_id(receipt.reply, id);
        if is_done.load(SeqCst) {
            return;
        }
        pause(pauses);
    }
}

fn look_many<K: BoardIdentity>(member: &mut Member<K>, count: u32) -> u32 {
    let mut seen: u32 = 0;
    for _ in 0..count {
        seen = seen.wrapping_add(member.look().calls);
    }
    seen
}

fn look_under_lock<K: BoardIdentity, R: Wait>(rt: &R, board: &Board<K>, count: u32) -> u32
where
    Version<K>: Absorb<Update<K>, State = ()>,
{
    let mut seen: u32 = 0;
    for _ in 0..count {
        seen = seen.wrapping_add(board.locked().lock(rt).shown().calls);
    }
    seen
}

/// Does a task, and gives back the member with a number that changes with what was seen.
pub fn perform<K: BoardIdentity, R: Wait>(
    rt: &R,
    board: &Board<K>,
    member: Member<K>,
    task: MeasuredTask,
    is_done: &AtomicBool,
) -> (Member<K>, u32)
where
    Version<K>: Absorb<Update<K>, State = ()>,
{
    let mut member = member;
    let mut seen = 0;
    match task {
        MeasuredTask::Call(count) => call_many(
            rt,
            board,
            &mut member,
            count,
            0,
            &AtomicBool::new(false),
        ),
        MeasuredTask::CallOn { pauses } => call_many(
            rt,
            board,
            &mut member,
            u32::MAX,
            pauses,
            is_done,
        ),
        MeasuredTask::Look(count) => seen = look_many(&mut member, count),
        MeasuredTask::LookUnderLock(count) => seen = look_under_lock(rt, board, count),
    }
    if matches!(task, MeasuredTask::Look(_) | MeasuredTask::LookUnderLock(_)) {
        is_done.store(true, SeqCst);
    }
    (member, seen)
}
