//! Scripts played at once: what no clause says, and each public call once.
ghost use Rattle.std.specs.Prelude.{◌≡◌, ◌≤◌, length, IfOk};
ghost use Rattle.member_board.specs.PlaysScript.{FitsMembers};

use super::closed;
use auction::{AuditFinding, audit};
use auction_terms::{Command, Config, MAX_CALLS};
use left_right::Absorb;
use member_board::{
    Board, BoardIdentity, CallFault, Closing, FloorOutcome, Fresh, Gate, Member, OpenGate,
    RunFault, Script, ScriptRun, Update, Version, run,
};
use std::alloc::{AllocError, Global};
use std::marker::Brand;
use std::sync::Wait;
use std::sync::atomic::AtomicBool;
use std::sync::atomic::Ordering::SeqCst;
use std::test::Fail;
use std::thread;
use std::thread::Threads;

mod turns;

const TEN_CALLS: Config = Config {
    low: 1,
    high: 1000,
    reference: 200,
    max_open: 2,
    max_calls: 10,
    range: None,
};

// Two members meet before their calls; or one waits until the other's call was answered.
#[derive(Drop)]
struct Meeting {
    here: [AtomicBool; 2],
    answered: [AtomicBool; 2],
    waits: Option<u8>,
    ran_out: AtomicBool,
}

impl Meeting {
    fn new(waits: Option<u8>) -> Meeting {
        Meeting {
            here: [AtomicBool::new(false), AtomicBool::new(false)],
            answered: [AtomicBool::new(false), AtomicBool::new(false)],
            waits,
            ran_out: AtomicBool::new(false),
        }
    }

    fn wait(&self, flag: &AtomicBool) {
        for _ in 0..10_000_000 {
            if flag.load(SeqCst) {
                return;
            }
            thread::yield_now();
        }
        self.ran_out.store(true, SeqCst);
    }
}

impl Gate for Meeting {
    fn before<R: Wait>(&self, _rt: &R, member: u8, _k: u32) {
        if member > 1 {
            return;
        }
        let other = usize::from(1 - member);
        self.here[usize::from(member)].store(true, SeqCst);
        match self.waits {
            None => self.wait(&self.here[other]),
            Some(waits) => {
                if waits == member {
                    self.wait(&self.answered[other]);
                }
            }
        }
    }

    fn after<R: Wait>(&self, _rt: &R, member: u8, _k: u32) {
        if member < 2 {
            self.answered[usize::from(member)].store(true, SeqCst);
        }
    }
}

/// What the members call: each asks so often, or they call the commands of a day in turn.
#[derive(Clone, Copy)]
pub(super) enum Plan {
    Asks(u16),
    Turns,
}

impl Plan {
    // The commands of one member.
    fn commands(self, alloc: Global, member: u8) -> Result<Vec<Command>, AllocError>
        ensures { IfOk result (λ commands. length commands.items ≤ MAX_CALLS) }
    {
        match self {
            Plan::Asks(times) => Vec::from_elem(alloc, Command::Indicate, usize::from(times)),
            Plan::Turns => turns::commands_of(alloc, member),
        }
    }

    // Whether a script was played as it should be: to its end, or until a call was refused.
    fn is_played<K: BoardIdentity>(self, one: &ScriptRun<K>) -> bool {
        let receipts = one.receipts.as_slice();
        match (self, one.fault) {
            (Plan::Asks(times), None) => receipts.len() == usize::from(times),
            (Plan::Asks(_), Some(CallFault::OutOfStep { .. })) => false,
            (Plan::Asks(times), Some(_)) => receipts.len() < usize::from(times),
            (Plan::Turns, fault) => {
                fault.is_none() && turns::are_receipts_of(one.member.number(), receipts)
            }
        }
    }
}

// The script of each member.
fn scripts<K: BoardIdentity>(
    alloc: Global,
    members: &[Member<K>],
    plan: Plan,
) -> Result<Vec<Script>, AllocError>
    ensures { IfOk result (λ scripts. FitsMembers members.now scripts.items) }
{
    let mut scripts = Vec::new(alloc);
    for member in members.iter() {
        let commands = plan.commands(alloc, member.number())?;
        scripts.push(Script {
            member: member.number(),
            commands,
        })?;
    }
    Ok(scripts)
}

// The members whose scripts were played as they should be.
fn back<K: BoardIdentity>(
    played: Vec<ScriptRun<K>>,
    room: Vec<Member<K>>,
    plan: Plan,
) -> Vec<Member<K>> {
    let mut members = room;
    for one in played {
        let is_played = plan.is_played(&one);
        let ScriptRun {
            member,
            receipts: _receipts,
            fault: _,
        } = one;
        if is_played {
            let _ = members.push(member);
        }
    }
    members
}

// No closing is given for scripts that weren't played as asked.
fn played_and_closed<K: BoardIdentity + Send + Sync, G: Gate + Sync, R: Wait + Threads + Sync>(
    rt: &R,
    alloc: Global,
    gate: &G,
    board: Board<K>,
    members: Vec<Member<K>>,
    plan: Plan,
) -> Result<Option<Closing>, AllocError>
where
    Version<K>: Absorb<Update<K>, State = ()> + Send + Sync,
{
    let Ok(scripts) = scripts(alloc, members.as_slice(), plan) else {
        board.abandon(rt);
        return Err(AllocError);
    };
    let FloorOutcome {
        played,
        unplayed,
        fault,
    } = run(alloc, &board, members, scripts, gate, rt);
    let members = back(played, unplayed, plan);
    let closing = closed(rt, board, members);
    let is_short = fault.is_some() && closing.is_some();
    if is_short || fault == Some(RunFault::NoThread) {
        return Err(AllocError);
    }
    Ok(closing)
}

// The day that K names. It has no bound but K's, so that its caller can name the day.
fn day<K: BoardIdentity + Send + Sync, G: Gate + Sync, R: Wait + Threads + Sync>(
    rt: &R,
    alloc: Global,
    gate: &G,
    fresh: Fresh,
    plan: Plan,
) -> Result<Option<Closing>, AllocError>
    requires names { (K.config ≡ fresh.config) × (K.parts ≡ fresh.members)
        × (K.name ≡ fresh.ledger) × (K.story ≡ fresh.story) }
{
    let (board, members) = fresh.begin::<K>().map_err(|_| AllocError)?;
    played_and_closed(rt, alloc, gate, board, members, plan)
}

// The closing of a day on which members call by a plan under the gate.
pub(super) fn closing_under<G: Gate + Sync, R: Wait + Threads + Sync>(
    rt: &R,
    alloc: Global,
    gate: &G,
    members: u8,
    plan: Plan,
) -> Result<Option<Closing>, AllocError> {
    let fresh = Fresh::open(alloc, TEN_CALLS, members).map_err(|_| AllocError)?;
    day::<Brand, G, R>(rt, alloc, gate, fresh, plan)
}

// Both are inside at once; or one is answered first.
#[test]
fn two_members_meet_or_wait(rt: HostRuntime) -> Result<(), Fail> {
    for (waits, first) in [(None, None), (Some(0), Some(1)), (Some(1), Some(0))] {
        let gate = Meeting::new(waits);
        let closing = closing_under(&rt, rt.alloc(), &gate, 2, Plan::Asks(1))?.ok_or("not closed")?;
        assert_eq!(rt; closing.history.len(), 2);
        let member = closing.history.first().map(|entry| entry.member);
        assert!(rt; first.is_none() || member == first);
        assert!(rt; !gate.ran_out.load(SeqCst));
    }
    Ok(())
}

#[test]
fn scripts_that_fill_the_history(rt: HostRuntime) -> Result<(), Fail> {
    let closing = closing_under(&rt, rt.alloc(), &OpenGate, 2, Plan::Asks(10))?.ok_or(
        "not closed",
    )?;
    assert_eq!(rt; closing.history.len(), 10);
    let verdict = audit(rt.alloc(), TEN_CALLS, closing.history.as_slice())?;
    assert!(rt; verdict == AuditFinding::Legal);
    Ok(())
}
