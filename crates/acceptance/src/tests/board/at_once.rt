//! Four members at once.
ghost use Rattle.std.specs.Prelude.{◌≡◌};

use super::{CONFIG, check, shows};
use auction::{AuditFinding, audit};
use auction_terms::{Command, Display, Entry, Limit, Price, Restriction, Side};
use left_right::Absorb;
use member_board::{Board, BoardIdentity, Closing, Fresh, Member, Receipt, Update, Version, close};
use std::alloc::{AllocError, Global};
use std::marker::Brand;
use std::sync::Wait;
use std::test::Fail;
use std::thread;
use std::thread::Threads;

// A member with the receipts of its calls, and what went wrong.
#[derive(Drop)]
struct MemberLog<K: BoardIdentity> {
    member: Member<K>,
    receipts: Vec<Receipt>,
    fault: Option<&'static str>,
}

// A member's k-th command: each other one is an order, a bid by members 0 and 2 and an ask by members 1 and 3.
fn command(member: u8, k: u32) -> Command {
    if k % 2 == 1 {
        return Command::Indicate;
    }
    Command::Enter {
        side: if member % 2 == 0 {
            Side::Bid
        } else {
            Side::Ask
        },
        limit: Limit::At(200),
        quantity: 1,
        peak: None,
        restriction: Restriction::Unrestricted,
    }
}

// One call, and a look that shows it and all that was shown before.
fn call_and_look<K: BoardIdentity, R: Wait>(
    rt: &R,
    board: &Board<K>,
    log: &mut MemberLog<K>,
    k: u32,
    before: u32,
) -> u32
where
    Version<K>: Absorb<Update<K>, State = ()>,
{
    let number = log.member.number();
    let Ok(receipt) = log.member.call(board, rt, command(number, k)) else {
        log.fault = Some("a call was refused");
        return before;
    };
    let calls = log.member.look().calls;
    if calls < receipt.number || calls < before {
        log.fault = Some("a look went back");
    }
    if log.receipts.push(receipt).is_err() {
        log.fault = Some("no memory");
    }
    calls
}

fn play<K: BoardIdentity, R: Wait>(rt: &R, board: &Board<K>, log: MemberLog<K>) -> MemberLog<K>
where
    Version<K>: Absorb<Update<K>, State = ()>,
{
    let mut log = log;
    let mut seen = 0;
    for k in 0..250 {
        seen = call_and_look(rt, board, &mut log, k, seen);
    }
    log
}

fn all_at_once<K: BoardIdentity + Send + Sync, R: Wait + Threads + Sync>(
    rt: &R,
    alloc: Global,
    board: &Board<K>,
    members: Vec<Member<K>>,
) -> Result<Vec<MemberLog<K>>, AllocError>
where
    Version<K>: Absorb<Update<K>, State = ()> + Send + Sync,
{
    thread::scope(thread::scope_env(), rt, |scope| {
        let mut running = Vec::new(alloc);
        let mut back = Vec::new(alloc);
        for member in members {
            let log = MemberLog {
                member,
                receipts: Vec::new(alloc),
                fault: None,
            };
            if let Ok(handle) = scope.spawn(move || play(rt, board, log)) {
                running.push(handle)?;
            }
        }
        for handle in running {
            back.push(handle.join(rt))?;
        }
        Ok(back)
    })
}

// Whether a member's entries are its commands and receipts, in order, each at its place.
fn accounts(history: &[Entry], number: u8, receipts: &[Receipt]) -> bool {
    let mut receipts = receipts.iter();
    let mut calls = 0;
    for i in 0..history.len() {
        let entry = history[i];
        if entry.member != number {
            continue;
        }
        let Some(receipt) = receipts.next() else {
            return false;
        };
        let is_next = entry.command == command(number, calls);
        if !is_next || receipt.number as usize != i + 1 || receipt.reply != entry.reply {
            return false;
        }
        calls = calls.wrapping_add(1);
    }
    receipts.next().is_none()
}

// What a member brings back, once all have called.
fn taken<K: BoardIdentity>(log: MemberLog<K>) -> Result<(Member<K>, Vec<Receipt>), Fail> {
    let MemberLog {
        mut member,
        receipts,
        fault,
    } = log;
    if let Some(words) = fault {
        return Err(words)?;
    }
    let price = Price {
        tick: 200,
        volume: 250,
        surplus: 0,
        side: None,
    };
    check(
        shows(member.look(), 1000, Display::Priced(price)),
        "a look misses calls",
    )?;
    Ok((member, receipts))
}

fn four_members<K: BoardIdentity + Send + Sync, R: Wait + Threads + Sync>(
    rt: &R,
    alloc: Global,
    board: Board<K>,
    members: Vec<Member<K>>,
) -> Result<(Closing, Vec<Vec<Receipt>>), Fail>
where
    Version<K>: Absorb<Update<K>, State = ()> + Send + Sync,
{
    let mut back = Vec::new(alloc);
    let mut receipts = Vec::new(alloc);
    for log in all_at_once(rt, alloc, &board, members)? {
        let (member, own) = taken(log)?;
        back.push(member)?;
        receipts.push(own)?;
    }
    let closing = close(board, back, rt).map_err(|_| "not closed")?;
    Ok((closing, receipts))
}

// The day that K names. It has no bound but K's, so that its caller can name the day.
fn day<K: BoardIdentity + Send + Sync, R: Wait + Threads + Sync>(
    rt: &R,
    alloc: Global,
    fresh: Fresh,
) -> Result<(Closing, Vec<Vec<Receipt>>), Fail>
    requires names { (K.config ≡ fresh.config) × (K.parts ≡ fresh.members)
        × (K.name ≡ fresh.ledger) × (K.story ≡ fresh.story) }
{
    let (board, members) = fresh.begin::<K>().map_err(|_| "not begun")?;
    four_members(rt, alloc, board, members)
}

fn one_day<R: Wait + Threads + Sync>(rt: &R, alloc: Global) -> Result<(), Fail> {
    let fresh = Fresh::open(alloc, CONFIG, 4).map_err(|_| "not opened")?;
    let (closing, receipts) = day::<Brand, R>(rt, alloc, fresh)?;
    check(closing.history.len() == 1000, "not all calls were recorded")?;
    check(
        closing.calls.as_slice() == [250, 250, 250, 250].as_slice(),
        "wrong counts",
    )?;
    let verdict = audit(alloc, CONFIG, closing.history.as_slice()).map_err(|_| "not audited")?;
    check(verdict == AuditFinding::Legal, "not legal")?;
    let mut number = 0u8;
    for own in receipts.iter() {
        check(
            accounts(closing.history.as_slice(), number, own.as_slice()),
            "a receipt isn't in the history",
        )?;
        number = number.wrapping_add(1);
    }
    Ok(())
}

#[test]
fn four_at_once(rt: HostRuntime) -> Result<(), Fail> {
    for _ in 0..200 {
        one_day(&rt, rt.alloc())?;
    }
    Ok(())
}
