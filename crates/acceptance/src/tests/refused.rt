//! Each call that takes memory, once, and what it answers where a request for memory is refused.
//!
//! A test can have no allocator of its own: a `Global` holds a `Memory` of the runtime, which only the process has. So
//! `./check refusals` runs these tests as built, with the first, the second and each later request refused, one a run.
//! There each of them returns the fault that its call documents, or fails; in the run that meets no refusal, as here,
//! it looks at the right answer.

use super::reading::read_orders;
use super::{DAY, bid_entered};
use allocation::Desk;
use auction::{Auction, AuditFinding, OpenFault, audit};
use auction_terms::{Call, Command, Side};
use byte_streams::FromMemory;
use clap::error::ErrorKind;
use order_book::Orders;
use order_file::FileFault;
use settings::{ArgumentsFault, settings};
use std::alloc::{AllocError, Global};
use tick_ladder::Ladder;

mod board;

/// Whether a ladder is opened with its ticks and no order.
fn opens_a_ladder(alloc: Global) -> Result<bool, AllocError> {
    let ladder = Ladder::open(alloc, 1, 1000)?;
    Ok(ladder.bids().len() == 1000 && ladder.best(Side::Bid) == None)
}

/// Whether a book is opened with room and no order.
fn opens_a_book(alloc: Global) -> Result<bool, AllocError> {
    let orders = Orders::open(alloc, 8, 16)?;
    Ok(!orders.full() && orders.get(1) == None)
}

/// Whether a desk is opened with no fill.
fn opens_a_desk(alloc: Global) -> Result<bool, AllocError> {
    let desk = Desk::open(alloc, 8)?;
    Ok(desk.fills().is_empty())
}

#[test]
fn the_parts_of_an_auction_are_opened(rt: HostRuntime) -> Result<(), AllocError> {
    assert!(rt; opens_a_ladder(rt.alloc())?);
    assert!(rt; opens_a_book(rt.alloc())?);
    assert!(rt; opens_a_desk(rt.alloc())?);
    Ok(())
}

#[test]
fn an_auction_is_opened(rt: HostRuntime) -> Result<(), OpenFault> {
    let auction = Auction::open(rt.alloc(), DAY)?;
    assert!(rt; auction.config() == DAY && auction.calls() == 0);
    Ok(())
}

#[test]
fn a_history_is_audited(rt: HostRuntime) -> Result<(), OpenFault> {
    let history = [bid_entered(1), bid_entered(1)];
    assert!(rt; audit(rt.alloc(), DAY, history.as_slice())? == AuditFinding::BadAt(1));
    Ok(())
}

#[test]
fn an_order_file_is_read(rt: HostRuntime) -> Result<(), FileFault> {
    let mut source = FromMemory {
        rest: b"1,ask\n0,uncross\n",
    };
    let calls = read_orders(rt.alloc(), &mut source, 4, 8)?;
    let wanted = [(1, Command::Indicate), (0, Command::Uncross)].map(|(member, command)| Call {
        member,
        command,
    });
    assert!(rt; calls.as_slice() == wanted.as_slice());
    Ok(())
}

#[test]
fn the_arguments_are_read(rt: HostRuntime) -> Result<(), AllocError> {
    match settings(rt.alloc(), &["callboard", "--range", "5"]) {
        Ok(settings) => {
            assert_eq!(rt; settings.config.range, Some(5));
            Ok(())
        }
        Err(ArgumentsFault::Parse(error)) => {
            assert!(rt; error.kind() == ErrorKind::OutOfMemory);
            Err(AllocError)
        }
        Err(
            ArgumentsFault::AuditNotAlone
            | ArgumentsFault::LiveNotAlone
            | ArgumentsFault::ResultsWithoutAudit
            | ArgumentsFault::WithoutLive
            | ArgumentsFault::SyncWithoutJournal,
        ) => {
            assert!(rt; false);
            Ok(())
        }
    }
}
