//! The calls of a board and of its members' floor that take memory.
//!
//! In each path the board is closed or given up: a board that is dropped would keep the copies that looks read.

ghost use Rattle.std.specs.Prelude.{◌≡◌};

use crate::tests::members::{Plan, closing_under};
use crate::tests::{BID, DAY, bid_entered, closed};
use auction_terms::Reply;
use left_right::Absorb;
use member_board::{
    Board, BoardIdentity, Closing, Fresh, Member, OpenGate, Receipt, Update, Version,
};
use std::alloc::{AllocError, Global};
use std::marker::Brand;
use std::sync::Wait;

/// Whether the first two calls on the board are this member's bids.
fn bids_twice<K: BoardIdentity, R: Wait>(rt: &R, board: &Board<K>, member: &mut Member<K>) -> bool
where
    Version<K>: Absorb<Update<K>, State = ()>,
{
    for number in 1..3 {
        let reply = Reply::Entered { id: number };
        if member.call(board, rt, BID) != Ok(Receipt { number, reply }) {
            return false;
        }
    }
    member.calls() == 2 && member.look().calls == 2
}

/// The closing of the day that `K` names, on which member 1 bids twice, where its bids are answered so.
fn day_of_bids<K: BoardIdentity, R: Wait>(
    rt: &R,
    fresh: Fresh,
) -> Result<Option<Closing>, AllocError>
    requires names { (K.config ≡ fresh.config) × (K.parts ≡ fresh.members)
        × (K.name ≡ fresh.ledger) × (K.story ≡ fresh.story) }
{
    let (board, mut members) = fresh.begin::<K>().map_err(|_| AllocError)?;
    if let Some(mut member) = members.pop() {
        if bids_twice(rt, &board, &mut member) && members.push(member).is_ok() {
            return Ok(closed(rt, board, members));
        }
    }
    board.abandon(rt);
    Ok(None)
}

fn bids<R: Wait>(rt: &R, alloc: Global) -> Result<Option<Closing>, AllocError> {
    let fresh = Fresh::open(alloc, DAY, 2).map_err(|_| AllocError)?;
    day_of_bids::<Brand, R>(rt, fresh)
}

#[test]
fn calls_are_recorded(rt: HostRuntime) -> Result<(), AllocError> {
    let closing = bids(&rt, rt.alloc())?;
    assert!(rt;
        closing.is_some_and(|closing| closing.calls.as_slice() == [0, 2].as_slice()
            && closing.history.as_slice() == [bid_entered(1), bid_entered(2)].as_slice())
    );
    Ok(())
}

#[test]
fn scripts_are_played(rt: HostRuntime) -> Result<(), AllocError> {
    let closing = closing_under(&rt, rt.alloc(), &OpenGate, 2, Plan::Asks(2))?;
    assert!(rt; closing.is_some_and(|closing| closing.calls.as_slice() == [2, 2].as_slice()));
    Ok(())
}
