//! A day on which three members call in turn, each on its own thread: the receipts of a book that has orders.
ghost use Rattle.std.specs.Prelude.{◌≤◌, length, IfOk};

use super::{Plan, closing_under};
use auction_terms::{
    AuctionKind, Command, Display, Entry, Limit, MAX_CALLS, Price, Reply, Restriction, Side,
};
use member_board::{Gate, Receipt};
use std::alloc::{AllocError, Global};
use std::sync::Wait;
use std::sync::atomic::Ordering::SeqCst;
use std::sync::atomic::{AtomicBool, AtomicUsize};
use std::test::Fail;
use std::thread;

const BID: Command = Command::Enter {
    side: Side::Bid,
    restriction: Restriction::Unrestricted,
    limit: Limit::At(202),
    quantity: 500,
    peak: None,
};

const ASK: Command = Command::Enter {
    side: Side::Ask,
    restriction: Restriction::Unrestricted,
    limit: Limit::At(199),
    quantity: 300,
    peak: None,
};

// At both limits 300 can be executed, and 200 of the bid are left over: the higher limit is the price.
const PRICE: Price = Price {
    tick: 202,
    side: Some(Side::Bid),
    volume: 300,
    surplus: 200,
};

// The calls in their order, with the replies that the rules give.
const TURNS: [Entry; 6] = [
    Entry {
        member: 1,
        command: BID,
        reply: Reply::Entered { id: 1 },
    },
    Entry {
        member: 2,
        command: Command::Indicate,
        reply: Reply::Indicated(Display::Unpriced {
            best_bid: Some(202),
            best_ask: None,
        }),
    },
    Entry {
        member: 2,
        command: ASK,
        reply: Reply::Entered { id: 2 },
    },
    Entry {
        member: 1,
        command: Command::Indicate,
        reply: Reply::Indicated(Display::Priced(PRICE)),
    },
    Entry {
        member: 0,
        command: Command::Uncross,
        reply: Reply::Uncrossed {
            kind: AuctionKind::Opening,
            trades: 1,
            price: Some(PRICE),
        },
    },
    Entry {
        member: 1,
        command: Command::OrderStatus { id: 1 },
        reply: Reply::OpenOrder {
            side: Side::Bid,
            limit: Limit::At(202),
            quantity: 200,
            visible: 200,
        },
    },
];

// The commands of one member.
pub(super) fn commands_of(alloc: Global, member: u8) -> Result<Vec<Command>, AllocError>
    ensures { IfOk result (λ commands. length commands.items ≤ MAX_CALLS) }
{
    let mut commands = Vec::new(alloc);
    for i in 0..TURNS.len() {
        if TURNS[i].member == member {
            commands.push(TURNS[i].command)?;
        }
    }
    Ok(commands)
}

// Whether a member's receipts are those of its calls, each with the place and the reply of its own.
pub(super) fn are_receipts_of(member: u8, receipts: &[Receipt]) -> bool {
    let mut receipts = receipts.iter();
    for i in 0..TURNS.len() {
        let turn = TURNS[i];
        if turn.member != member {
            continue;
        }
        let Some(receipt) = receipts.next() else {
            return false;
        };
        if receipt.number as usize != i + 1 || receipt.reply != turn.reply {
            return false;
        }
    }
    receipts.next().is_none()
}

// Each member waits until the calls before its own were answered, though not forever.
#[derive(Drop)]
struct InTurn {
    answered: AtomicUsize,
    ran_out: AtomicBool,
}

impl InTurn {
    fn is_turn_of(&self, member: u8) -> bool {
        TURNS
            .get(self.answered.load(SeqCst))
            .is_some_and(|turn| turn.member == member)
    }
}

impl Gate for InTurn {
    fn before<R: Wait>(&self, _rt: &R, member: u8, _k: u32) {
        for _ in 0..10_000_000 {
            if self.is_turn_of(member) {
                return;
            }
            thread::yield_now();
        }
        self.ran_out.store(true, SeqCst);
    }

    fn after<R: Wait>(&self, _rt: &R, _member: u8, _k: u32) {
        let _ = self.answered.fetch_add(1, SeqCst);
    }
}

// The day is closed only if the receipts of all scripts are right.
#[test]
fn receipts_have_the_replies_of_the_book(rt: HostRuntime) -> Result<(), Fail> {
    let gate = InTurn {
        answered: AtomicUsize::new(0),
        ran_out: AtomicBool::new(false),
    };
    let closing = closing_under(&rt, rt.alloc(), &gate, 3, Plan::Turns)?.ok_or("another receipt")?;
    assert!(rt; !gate.ran_out.load(SeqCst));
    assert_eq!(rt; closing.history.as_slice(), TURNS.as_slice());
    assert_eq!(rt; closing.calls.as_slice(), [1, 3, 2].as_slice());
    Ok(())
}
