//! Opening a board, and beginning its day.
ghost use Rattle.std.specs.Prelude.{◌≡◌, ◌≤◌, [], vec_capacity, IfOk, IfErr, IfSome, Err, None};
ghost use Rattle.board_terms.specs.BoardOpening.{board_fault, newcomers};
ghost use Rattle.board_terms.specs.BoardViews.{board_history, opened_board};

use crate::board::Board;
use crate::identity::BoardIdentity;
use crate::locked::LockedBoard;
use crate::member::Member;
use crate::versions::{BoardView, Copies, Update, Version};
use auction::OpenFault;
use auction_terms::Config;
use board_terms::{BoardCore, Day, open_board};
use left_right::Absorb;
use std::alloc::{AllocError, Global};
use std::marker::Model;
use std::sync::ledger::Share;
use std::sync::{Mutex, ledger};

/// A board that was opened, and whose day has not begun. Contracts see its config, its number of members, its ledger
/// and its story.
#[derive(Drop)]
pub struct Fresh {
    alloc: Global,
    core: BoardCore,
    day: Day,
    ledger: ledger::Blank,
}

impl Model for Fresh {
    ghost use Rattle.std.specs.Prelude.{◌≡◌, []};
    ghost use Rattle.board_terms.specs.BoardOpening.{IsWithinCapacity};
    ghost use Rattle.board_terms.specs.BoardViews.{board_history};
    ghost use Rattle.member_board.specs.FreshBoard.{FreshBoard, fresh_board};

    ghost Value = { FreshBoard };

    ghost view = { λ f. fresh_board f.day.config f.day.members f.ledger.name f.day.book };

    ghost invariant = { λ f.
        (f.core ≡ board_history f.day []) × (f.day.identity ≡ 0) × (f.ledger.parts ≡ f.day.members)
        × IsWithinCapacity f.day.config f.day.members };
}

// One member for each number from 0, each with a part of the ledger and a viewer. The room is there.
fn new_members<K: BoardIdentity>(
    room: Vec<Member<K>>,
    day: &Day,
    joined: &mut Share<K>,
    copies: &Copies<K>,
) -> Result<Vec<Member<K>>, AllocError>
where
    Version<K>: Absorb<Update<K>, State = ()>,
    requires day { day.now ≡ opened_board 0 K.config K.parts K.story }
    requires parts { (joined.old.parts ≡ K.parts) × (joined.old.amount ≡ 0) }
    requires room { (room.items ≡ []) × (K.parts ≤ vec_capacity room) }
    ensures members { IfOk result (λ members. members.items ≡ newcomers K.parts) }
    ensures joined { IfOk result (λ members. (joined.new.parts ≡ 0) × (joined.new.amount ≡ 0)) }
{
    let mut members = room;
    for number in 0..day.members {
        let viewer = copies.viewer()?;
        let share = joined.split_off(1, 0);
        members.push_reserved(Member::new(day.newcomer(number), share, viewer));
    }
    Ok(members)
}

// Begins the day that K names, where there is room for its members and copies.
fn begun<K: BoardIdentity>(fresh: Fresh) -> Result<(Board<K>, Vec<Member<K>>), AllocError>
where
    Version<K>: Absorb<Update<K>, State = ()>,
    requires config { K.config ≡ fresh.config }
    requires members { K.parts ≡ fresh.members }
    requires ledger { K.name ≡ fresh.ledger }
    requires story { K.story ≡ fresh.story }
    ensures { IfOk result (λ r. r.1.items ≡ newcomers K.parts) }
{
    let Fresh {
        alloc,
        core,
        day,
        ledger,
    } = fresh;
    let room = Vec::with_capacity(alloc, usize::from(day.members))?;
    let copies = Copies::open(
        alloc,
        &BoardView::of(day.opening()),
        usize::from(day.members),
    )?;
    let (book, mut joined) = ledger.open::<K>();
    let members = new_members(room, &day, &mut joined, &copies)?;
    let locked = Mutex::new(LockedBoard {
        core,
        book,
        joined,
        copies,
    });
    Ok((
        Board {
            locked,
            members: day.members,
        },
        members,
    ))
}

impl Fresh {
    /// Opens a board for `members` members, and reserves the room that its day needs: an auction, a history of
    /// `max_calls` entries, and the counts.
    ///
    /// The answer is `BadBounds`, `BadReference` or `BadCapacity`, the first of these that holds, exactly where the
    /// config or the number of members is out of its limits: bounds from 1 to `MAX_TICK` with at most `MAX_TICKS`
    /// ticks, the reference within them, 1 to `MAX_OPEN_ORDERS` open orders, 1 to `MAX_CALLS` calls, 1 to
    /// `MAX_MEMBERS` members. Else it is `NoMemory` where room was refused.
    pub fn open(alloc: Global, config: Config, members: u8) -> Result<Fresh, OpenFault>
        ensures opening { IfOk result (λ f. (f.config ≡ config) × (f.members ≡ members)) }
        ensures refused { IfSome (board_fault config members) (λ fault. result ≡ Err fault) }
        ensures memory { board_fault config members ≡ None → IfErr result (λ fault. fault ≡ OpenFault.NoMemory) }
    {
        // The day has no identity but the type that it begins with.
        let (core, day) = open_board(alloc, 0, config, members)?;
        Ok(Fresh {
            alloc,
            core,
            day,
            ledger: ledger::Blank::new(u64::from(members)),
        })
    }

    /// Begins the day that `K` names. The members come in the order of their numbers, from 0, each with no calls and
    /// nothing seen; a member can't be copied. The answer is `NoMemory` where room or a reader's place was refused.
    pub fn begin<K: BoardIdentity>(self) -> Result<(Board<K>, Vec<Member<K>>), OpenFault>
    where
        Version<K>: Absorb<Update<K>, State = ()>,
        requires config { K.config ≡ self.config }
        requires members { K.parts ≡ self.members }
        requires ledger { K.name ≡ self.ledger }
        requires story { K.story ≡ self.story }
        ensures members { IfOk result (λ r. r.1.items ≡ newcomers K.parts) }
        ensures fault { IfErr result (λ e. e ≡ OpenFault.NoMemory) }
    {
        begun(self).map_err(|_| OpenFault::NoMemory)
    }
}
