//! Days on a board: what no clause says, and each public call once.
ghost use Rattle.std.specs.Prelude.{◌≡◌};

use super::{BEST_BID, BID, bid_entered};
use auction::OpenFault;
use auction_terms::{AuctionKind, Command, Config, Display, Entry, Refusal, Reply};
use left_right::Absorb;
use member_board::{
    Board, BoardIdentity, CallFault, CloseFault, Closing, Fresh, Member, Receipt, Shown, Update,
    Version, close,
};
use std::alloc::Global;
use std::marker::Brand;
use std::sync::Wait;
use std::test::Fail;

mod at_once;

const CONFIG: Config = Config {
    low: 1,
    high: 1000,
    reference: 200,
    max_open: 1000,
    max_calls: 1000,
    range: None,
};

fn check(is: bool, words: &'static str) -> Result<(), Fail> {
    if is { Ok(()) } else { Err(words)? }
}

fn is_receipt(answer: Result<Receipt, CallFault>, number: u32, reply: Reply) -> bool {
    answer == Ok(Receipt { number, reply })
}

fn shows(shown: Shown, calls: u32, display: Display) -> bool {
    shown == Shown { calls, display }
}

// The members of a board of two, and the room that they came in.
#[derive(Drop)]
struct Pair<K: BoardIdentity> {
    operator: Member<K>,
    second: Member<K>,
    room: Vec<Member<K>>,
}

fn pair_of<K: BoardIdentity>(members: Vec<Member<K>>) -> Option<Pair<K>> {
    let mut room = members;
    let second = room.pop()?;
    let operator = room.pop()?;
    Some(Pair {
        operator,
        second,
        room,
    })
}

fn closed<K: BoardIdentity, R: Wait>(rt: &R, board: Board<K>, two: Pair<K>) -> Result<Closing, Fail>
where
    Version<K>: Absorb<Update<K>, State = ()>,
{
    let Pair {
        operator,
        second,
        mut room,
    } = two;
    room.push(second)?;
    room.push(operator)?;
    Ok(close(board, room, rt).map_err(|_| "not closed")?)
}

// What happens on a day of two members.
#[derive(Clone, Copy)]
enum Scene {
    ThreeCalls,
    ABidIsSeen,
    TooManyCalls,
}

impl Scene {
    // Whether all of it is answered as it should be.
    fn goes_well<K: BoardIdentity, R: Wait>(
        self,
        rt: &R,
        board: &Board<K>,
        two: &mut Pair<K>,
    ) -> bool
    where
        Version<K>: Absorb<Update<K>, State = ()>,
    {
        match self {
            Scene::ThreeCalls => three_calls(rt, board, two),
            Scene::ABidIsSeen => a_bid_is_seen(rt, board, two),
            Scene::TooManyCalls => too_many_calls(rt, board, two),
        }
    }
}

// The day that K names. It has no bound but K's, so that its caller can name the day.
fn day<K: BoardIdentity, R: Wait>(rt: &R, fresh: Fresh, scene: Scene) -> Result<Closing, Fail>
    requires names { (K.config ≡ fresh.config) × (K.parts ≡ fresh.members)
        × (K.name ≡ fresh.ledger) × (K.story ≡ fresh.story) }
{
    let (board, members) = fresh.begin::<K>().map_err(|_| "not begun")?;
    let mut two = pair_of(members).ok_or("not two members")?;
    check(scene.goes_well(rt, &board, &mut two), "another answer")?;
    closed(rt, board, two)
}

fn closing_of<R: Wait>(
    rt: &R,
    alloc: Global,
    config: Config,
    scene: Scene,
) -> Result<Closing, Fail> {
    let fresh = Fresh::open(alloc, config, 2).map_err(|_| "not opened")?;
    day::<Brand, R>(rt, fresh, scene)
}

// The operator uncrosses an auction with one bid, and member 1 may not.
fn three_calls<K: BoardIdentity, R: Wait>(rt: &R, board: &Board<K>, two: &mut Pair<K>) -> bool
where
    Version<K>: Absorb<Update<K>, State = ()>,
{
    let no_price = Reply::Uncrossed {
        kind: AuctionKind::Opening,
        price: None,
        trades: 0,
    };
    is_receipt(two.second.call(board, rt, BID), 1, Reply::Entered { id: 1 })
        && is_receipt(two.operator.call(board, rt, Command::Uncross), 2, no_price)
        && is_receipt(
            two.second.call(board, rt, Command::Uncross),
            3,
            Reply::Refused(Refusal::NotOperator),
        )
}

#[test]
fn the_closing_has_each_call_with_its_reply(rt: HostRuntime) -> Result<(), Fail> {
    let closing = closing_of(&rt, rt.alloc(), CONFIG, Scene::ThreeCalls)?;
    assert_eq!(rt; closing.calls.as_slice(), [1, 2].as_slice());
    let entries = [
        bid_entered(1),
        Entry {
            member: 0,
            command: Command::Uncross,
            reply: Reply::Uncrossed {
                kind: AuctionKind::Opening,
                price: None,
                trades: 0,
            },
        },
        Entry {
            member: 1,
            command: Command::Uncross,
            reply: Reply::Refused(Refusal::NotOperator),
        },
    ];
    assert_eq!(rt; closing.history.as_slice(), entries.as_slice());
    Ok(())
}

#[test]
fn boards_that_cannot_be_opened(rt: HostRuntime) {
    let rows = [
        (1, 200, 0, OpenFault::BadCapacity),
        (1, 200, 65, OpenFault::BadCapacity),
        (1001, 200, 65, OpenFault::BadBounds),
        (1, 1001, 65, OpenFault::BadReference),
    ];
    for (low, reference, members, fault) in rows {
        let config = Config {
            low,
            reference,
            ..CONFIG
        };
        assert!(rt; Fresh::open(rt.alloc(), config, members).err() == Some(fault));
    }
}

// A member sees its own bid, and another the same.
fn a_bid_is_seen<K: BoardIdentity, R: Wait>(rt: &R, board: &Board<K>, two: &mut Pair<K>) -> bool
where
    Version<K>: Absorb<Update<K>, State = ()>,
{
    let empty = Display::Unpriced {
        best_bid: None,
        best_ask: None,
    };
    shows(two.operator.look(), 0, empty)
        && is_receipt(two.second.call(board, rt, BID), 1, Reply::Entered { id: 1 })
        && shows(two.second.look(), 1, BEST_BID)
        && shows(two.operator.look(), 1, BEST_BID)
        && two.second.number() == 1
        && two.second.calls() == 1
        && two.operator.calls() == 0
}

#[test]
fn a_look_shows_finished_calls(rt: HostRuntime) -> Result<(), Fail> {
    let closing = closing_of(&rt, rt.alloc(), CONFIG, Scene::ABidIsSeen)?;
    assert_eq!(rt; closing.calls.as_slice(), [0, 1].as_slice());
    Ok(())
}

// The third call finds the history full; its member has then seen all of it.
fn too_many_calls<K: BoardIdentity, R: Wait>(rt: &R, board: &Board<K>, two: &mut Pair<K>) -> bool
where
    Version<K>: Absorb<Update<K>, State = ()>,
{
    let full = Err(CallFault::HistoryFull);
    is_receipt(two.second.call(board, rt, BID), 1, Reply::Entered { id: 1 })
        && is_receipt(
            two.second.call(board, rt, Command::Indicate),
            2,
            Reply::Indicated(BEST_BID),
        )
        && two.operator.call(board, rt, Command::Indicate) == full
        && board
            .locked()
            .lock(rt)
            .record(&mut two.operator, rt, Command::Indicate)
            == full
        && shows(two.operator.look(), 2, BEST_BID)
}

#[test]
fn a_full_history(rt: HostRuntime) -> Result<(), Fail> {
    let config = Config {
        max_calls: 2,
        ..CONFIG
    };
    let closing = closing_of(&rt, rt.alloc(), config, Scene::TooManyCalls)?;
    assert_eq!(rt; closing.history.len(), 2);
    assert_eq!(rt; closing.calls.as_slice(), [0, 2].as_slice());
    Ok(())
}

// Three of four members, and then a board that is given up.
fn one_is_missing<K: BoardIdentity, R: Wait>(rt: &R, fresh: Fresh) -> Option<Closing>
    requires names { (K.config ≡ fresh.config) × (K.parts ≡ fresh.members)
        × (K.name ≡ fresh.ledger) × (K.story ≡ fresh.story) }
{
    let (board, mut members) = fresh.begin::<K>().ok()?;
    let last = members.pop()?;
    let (board, mut members) = missing(close(board, members, rt))?;
    if members.len() != 3 || members.push(last).is_err() {
        board.abandon(rt);
        return None;
    }
    close(board, members, rt).ok()
}

fn missing<K: BoardIdentity>(
    answer: Result<Closing, CloseFault<K>>,
) -> Option<(Board<K>, Vec<Member<K>>)>
where
    Version<K>: Absorb<Update<K>, State = ()>,
{
    match answer {
        Err(CloseFault::MissingMember { board, members }) => Some((board, members)),
        _ => None,
    }
}

fn closing_of_four<R: Wait>(rt: &R, alloc: Global) -> Option<Closing> {
    one_is_missing::<Brand, R>(rt, Fresh::open(alloc, CONFIG, 4).ok()?)
}

#[test]
fn a_missing_member(rt: HostRuntime) {
    let closing = closing_of_four(&rt, rt.alloc());
    assert!(rt; closing.is_some_and(|closing| closing.calls.as_slice() == [0, 0, 0, 0].as_slice()));
}
