//! Opening a board.
ghost use Rattle.std.specs.Prelude.{◌≡◌, ◌<◌, All, IfErr, IfOk, IfSome, Err, None};
ghost use Rattle.logbook.specs.Pages.{Book};
ghost use Rattle.board_terms.specs.BoardOpening.{board_fault};
ghost use Rattle.board_terms.specs.BoardViews.{board_member, new_board_members, opened_board};
ghost use Rattle.board_terms.specs.MemberView.{newcomer};

use crate::locked::{ShownCopy, TakenBoard};
use crate::member::SharedMember;
use crate::shared::{Shared, UNWATCHED};
use auction::OpenFault;
use auction_terms::Config;
use board_terms::{BoardCore, Day, open_board};
use counted_slot::Counted;
use std::alloc::{AllocError, Global};
use std::sync::Arc;
use std::sync::atomic::AtomicU64;

// `count` copies that show nothing.
fn no_copies(
    alloc: Global,
    day: &Day,
    count: usize,
) -> Result<Vec<Counted<Option<ShownCopy>>>, AllocError>
    ensures { IfOk result (λ v. All (λ p. p ≡ day.now) v.items) }
{
    let mut copies = Vec::with_capacity(alloc, count)?;
    for _ in 0..count {
        copies.push(Counted::new(None, day))?;
    }
    Ok(copies)
}

fn shared_around(
    alloc: Global,
    day: &Day,
    core: BoardCore,
) -> Result<Arc<Shared, Global>, AllocError>
    requires { core.board ≡ day.now }
    ensures { IfOk result (λ shared. shared.value.locked ≡ day.now) }
{
    let locked = TakenBoard {
        core: Box::new(alloc, core)?,
    };
    let shared = Shared {
        locked: Counted::new(Some(locked), day),
        copies: no_copies(alloc, day, usize::from(day.members) + 1)?,
        newest: AtomicU64::new(UNWATCHED),
    };
    Ok(Arc::new(alloc, shared)?)
}

fn member_with(shared: Arc<Shared, Global>, day: &Day, number: u8) -> SharedMember
    requires shared { shared.value.locked ≡ day.now }
    requires number { number < day.now.members }
    ensures { result ≡ board_member day.now (newcomer number) }
{
    SharedMember {
        shared,
        account: day.newcomer(number),
    }
}

// One member for each number from 0.
fn new_members(
    alloc: Global,
    shared: &Arc<Shared, Global>,
    day: &Day,
) -> Result<Vec<SharedMember>, AllocError>
    requires { shared.now.value.locked ≡ day.now }
    ensures { IfOk result (λ ms. ms.items ≡ new_board_members day.now day.now.members) }
{
    let mut members = Vec::with_capacity(alloc, usize::from(day.members))?;
    for number in 0..day.members {
        let theirs = Arc::try_clone(shared)?;
        members.push(member_with(theirs, day, number))?;
    }
    Ok(members)
}

fn begun(alloc: Global, core: BoardCore, day: &Day) -> Result<Vec<SharedMember>, AllocError>
    requires { core.board ≡ day.now }
    ensures { IfOk result (λ ms. ms.items ≡ new_board_members day.now day.now.members) }
{
    let shared = shared_around(alloc, day, core)?;
    new_members(alloc, &shared, day)
}

/// Opens a board with `members` members, which come in the order of their numbers, from 0, each with no calls and
/// nothing seen. All room that the day needs is taken here. The identity is one that no other board has.
///
/// The answer is `BadBounds`, `BadReference` or `BadCapacity`, the first of these that holds, exactly where the config
/// or the number of members is out of its limits, 1 to `MAX_MEMBERS` members among them. Else it is `NoMemory` where
/// room was refused.
pub fn open(
    alloc: Global,
    identity: u64,
    config: Config,
    members: u8,
) -> Result<Vec<SharedMember>, OpenFault>
    ensures opening { IfOk result (λ ms.
        (b : Book) × (ms.items ≡ new_board_members (opened_board identity config members b) members)) }
    ensures refused { IfSome (board_fault config members) (λ fault. result ≡ Err fault) }
    ensures memory { board_fault config members ≡ None → IfErr result (λ fault. fault ≡ OpenFault.NoMemory) }
{
    let (core, day) = open_board(alloc, identity, config, members)?;
    match begun(alloc, core, &day) {
        Ok(board) => Ok(board),
        Err(_) => Err(OpenFault::NoMemory),
    }
}
