//! The closing: the history is handed out, and each member's account is held against it.
ghost use Rattle.std.specs.Prelude.{◌≡◌, ◌+◌, ◌<◌, ◌≤◌, ◌==◌, All, length, sum, count_by, ◌↔◌, ◌⊎◌, IfOk, IfErr};
ghost use Rattle.std.specs.Prelude.{IfNone, IfSome, Err, IsTrue, replicate};
ghost use Rattle.auction_terms.specs.declared.limits.TheConstants.{MAX_CALLS};
ghost use Rattle.auction_terms.specs.Day.{calls_of};
ghost use Rattle.board_terms.specs.MemberView.{MemberView};
ghost use Rattle.board_terms.specs.Closings.{HasEachNumberOnce, AreMemberCounts, HasSeenBeginning, IsAccount};
ghost use Rattle.board_terms.specs.Closings.{IsClosing, IsAheadFault, HasMemberAhead};
ghost use Rattle.board_terms.specs.Closings.{IsKeptBack, kept_calls, kept_parts};

use crate::board::Board;
use crate::identity::BoardIdentity;
use crate::locked::LockedBoard;
use crate::member::Member;
use crate::versions::{Update, Version};
use board_terms::Closing;
use left_right::Absorb;
use std::sync::Wait;
use std::sync::ledger::{Book, Share};

/// Why a board was not closed.
#[derive(Drop)]
pub enum CloseFault<K: BoardIdentity>
where
    Version<K>: Absorb<Update<K>, State = ()>,
{
    /// The numbers of the members handed in aren't all of the board's, each once. Board and members come back.
    MissingMember {
        board: Board<K>,
        members: Vec<Member<K>>,
    },
    /// A member was shown `seen` calls, more than the history has. It is the first such member by number; the others
    /// are dropped. The closing is as it would have been.
    Ahead {
        member: Member<K>,
        seen: u32,
        closing: Closing,
    },
}

// How many of the members have this number.
fn count_with<K: BoardIdentity>(members: &[Member<K>], number: u8) -> usize
    ensures { result ≡ count_by (λ m. m.number == number) members.now }
{
    members.iter().filter(|m| m.number() == number).count()
}

// Whether the members' numbers are all numbers below n, each once.
fn are_complete<K: BoardIdentity>(n: u8, members: &[Member<K>]) -> bool
    ensures { IsTrue result ↔ HasEachNumberOnce n members.now }
{
    if members.len() != usize::from(n) {
        return false;
    }
    for number in 0..n {
        if count_with(members, number) != 1 {
            return false;
        }
    }
    true
}

// The least number of a member that has seen more than the history, if there is one.
fn first_ahead<K: BoardIdentity>(
    n: u8,
    locked: &LockedBoard<K>,
    members: &[Member<K>],
) -> Option<u8>
where
    Version<K>: Absorb<Update<K>, State = ()>,
    requires { n ≡ K.parts }
    ensures none { IfNone result (All (HasSeenBeginning K.parts (calls_of locked.now)) members.now) }
    ensures some { IfSome result (λ k. HasMemberAhead k (length locked.now) members.now) }
    ensures first { IfSome result (λ k. All (λ m. m.number < k → length m.seen ≤ length locked.now) members.now) }
{
    let mut least = n;
    for i in 0..members.len() {
        let member = &members[i];
        let number = member.number();
        if !member.follows(locked) && number < least {
            least = number;
        }
    }
    if least < n { Some(least) } else { None }
}

// As many counts, with nothing counted.
fn cleared(counts: Vec<u32>) -> Vec<u32>
    ensures { result.items ≡ replicate (length counts.items) 0 }
{
    let mut counts = counts;
    counts.fill(0);
    counts
}

// What the members brought: each number's count, the joined shares, and the member that is kept back, with its share.
struct Gathering<K: BoardIdentity> {
    counts: Vec<u32>,
    joined: Share<K>,
    kept: Option<Member<K>>,
}

// Joins the shares and writes down each member's count. The first member with the number `ahead` that has seen more
// than `end` calls is kept back.
fn gather<K: BoardIdentity>(
    mut counts: Vec<u32>,
    mut joined: Share<K>,
    book: &mut Book<K>,
    members: Vec<Member<K>>,
    ahead: Option<u8>,
    end: usize,
) -> Gathering<K>
    requires counts { (length counts.items ≡ K.parts) × (sum counts.items ≡ 0) }
    requires joined { (joined.parts ≡ 0) × (joined.amount ≡ 0) }
    requires small { book.old.total ≤ MAX_CALLS }
    ensures parts { result.joined.parts + kept_parts result.kept ≡ length members.items }
    ensures book { book.new.total ≡ book.old.total }
    ensures counts { AreMemberCounts K.parts members.items result.counts.items
        (result.joined.amount + kept_calls result.kept) }
    ensures kept { IsKeptBack ahead end members.items result.kept }
{
    let mut kept: Option<Member<K>> = None;
    for mut member in members {
        let number = member.number();
        member.audit(book);
        counts[usize::from(number)] += member.calls();
        if kept.is_none() && ahead == Some(number) && member.seen_len() as usize > end {
            kept = Some(member);
        } else {
            joined.merge(member.into_share());
            book.audit(&mut joined);
        }
    }
    Gathering {
        counts,
        joined,
        kept,
    }
}

/// Closes the board's day, with all of its members, in any order. It takes no memory, waits for looks that still read,
/// and gives back both copies.
///
/// The history is one of the plain auction of one thread, replies, prices, volumes and surpluses included; it has
/// exactly as many entries as the members' counts add up to, and each member's count is the one that it brought. For
/// every member, the calls of its number in the history are its own calls, each at the place that its receipt names,
/// and all that it had seen is a beginning of the history's calls.
pub fn close<K: BoardIdentity, R: Wait>(
    board: Board<K>,
    members: Vec<Member<K>>,
    rt: &R,
) -> Result<Closing, CloseFault<K>>
where
    Version<K>: Absorb<Update<K>, State = ()>,
    ensures closing { IfOk result (IsClosing K.config K.parts members.items) }
    ensures accounts { IfOk result (λ closing. All (IsAccount (calls_of closing.history.items)) members.items) }
    ensures missing { (result ≡ Err
        (CloseFault.MissingMember board members)) ↔ ¬ HasEachNumberOnce K.parts members.items }
    ensures fault { IfErr result (λ f. (f ≡ CloseFault.MissingMember board members)
        ⊎ IsAheadFault CloseFault.Ahead K.config K.parts members.items f) }
{
    let n = board.members;
    if !are_complete(n, &members) {
        return Err(CloseFault::MissingMember { board, members });
    }
    let Board { locked, members: _ } = board;
    let locked = locked.into_inner();
    let ahead = first_ahead(n, &locked, &members);
    let (Closing { history, calls }, mut book, joined) = locked.end(rt);
    let Gathering {
        counts: calls,
        mut joined,
        kept,
    } = gather(
        cleared(calls),
        joined,
        &mut book,
        members,
        ahead,
        history.len(),
    );
    let closing = Closing { history, calls };
    match kept {
        None => {
            book.audit(&mut joined);
            Ok(closing)
        }
        Some(mut member) => {
            member.settle(&mut book, joined);
            let seen = member.seen_len();
            Err(CloseFault::Ahead {
                member,
                seen,
                closing,
            })
        }
    }
}
