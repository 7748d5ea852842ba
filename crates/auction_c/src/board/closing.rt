//! The closing, as C gets it.
ghost use Rattle.std.specs.Prelude.{◌≡◌, ◌≤◌, ◌<◌, All, Err, IfOk, IfErr, IfNone, IfSome, IsSomeAnd, length};
ghost use Rattle.std.specs.Prelude.{ℕ, true, false, ◌++◌, drop, map};
ghost use Rattle.auction_terms.specs.Day.{calls_of};
ghost use Rattle.board_terms.specs.Closings.{IsAccount};
ghost use Rattle.board_terms.specs.declared.closing.Closing.{Closing};
ghost use Rattle.board_terms.specs.BoardViews.{IsClosingOf, OpenedBoard};
ghost use Rattle.auction_c.specs.BoardCalls.{AreOfBoards};
ghost use Rattle.auction_c.specs.BoardCalls.{HoldAccounts, HoldsAccount, IsAccountError, IsAccountsError, IsCloseError};
ghost use Rattle.auction_c.specs.BoardCalls.{IsHandleError, IsLockError, WritesClosing, first_boxed, lacks_room};
ghost use Rattle.auction_c.specs.Encoding as encoded_as;
ghost use Rattle.auction_c.specs.declared.errors.TheConstants.{BAD_LENGTH, NO_MEMBER};

use crate::board::taking::take_locked;
use crate::copying::copy_entries;
use crate::errors::{BAD_LENGTH, BEHIND, DONE, MISSING_MEMBER, NO_MEMBER};
use crate::member_handle::AuctionMember;
use crate::structs::AuctionEntry;
use board_terms::Closing;
use shared_board::{SharedMember, TakenBoard};

// `DONE` where the member is one of this board, has this number, and its account is one of this history; else
// the error.
fn account_error(member: &mut SharedMember, number: usize, locked: &TakenBoard) -> u32
    requires board { member.old.board.identity ≡ locked.now.board.identity → member.old.board ≡ locked.now.board }
    ensures same { member.new ≡ member.old }
    ensures account { result ≡ 0 → (member.old.board ≡ locked.now.board) × (member.old.view.number ≡ number)
        × IsAccount (calls_of locked.now.history) member.old.view }
    ensures error { 0 < result → IsAccountError locked.now number member.old result }
{
    if member.identity() != locked.identity() {
        return MISSING_MEMBER;
    }
    if usize::from(member.number()) != number {
        return MISSING_MEMBER;
    }
    if !member.is_settled(locked) {
        return BEHIND;
    }
    DONE
}

// The same of the member that the handle holds.
fn boxed_error(handle: &mut AuctionMember, number: usize, locked: &TakenBoard) -> u32
    requires board { IfSome handle.old.boxed.value (λ m.
        m.board.identity ≡ locked.now.board.identity → m.board ≡ locked.now.board) }
    ensures same { handle.new ≡ handle.old }
    ensures account { result ≡ 0 → HoldsAccount locked.now number handle.old.boxed.value }
    ensures error { 0 < result → IsHandleError locked.now number handle.old.boxed.value result }
{
    if !handle.is_open {
        return NO_MEMBER;
    }
    account_error(handle.boxed.get_mut(), number, locked)
}

// `DONE` where the handles hold all members, in the order of their numbers, and their accounts are of this history;
// else the first error.
fn accounts_error(handles: &mut [AuctionMember], members: usize, locked: &TakenBoard) -> u32
    requires identities { All (λ h. IfSome h.boxed.value (λ m.
        m.board.identity ≡ locked.now.board.identity → m.board ≡ locked.now.board)) handles.old }
    requires members { members ≡ locked.now.board.members }
    ensures same { handles.new ≡ handles.old }
    ensures accounts { result ≡ 0 → HoldAccounts locked.now handles.old }
    ensures error { 0 < result → IsAccountsError locked.now handles.old result }
{
    if handles.len() != members {
        return MISSING_MEMBER;
    }
    for i in 0..handles.len() {
        let error = boxed_error(&mut handles[i], i, locked);
        if error != DONE {
            return error;
        }
    }
    DONE
}

fn hand_out(
    locked: TakenBoard,
    entries: &mut [AuctionEntry],
    counts: &mut [u32],
    written: &mut usize,
)
    requires room { locked.board.config.max_calls ≤ length entries.old }
    requires counts { length counts.old ≡ locked.board.members }
    ensures closing { (closing : Closing) × IsClosingOf locked.board closing
        × (closing.history.items ≡ locked.history)
        × (entries.new ≡ map encoded_as.entry_out closing.history.items ++ drop written.new entries.old)
        × (written.new ≡ length closing.history.items) × (counts.new ≡ closing.calls.items) }
{
    let Closing { history, calls } = locked.into_closing();
    *written = copy_entries(&history, entries);
    counts.copy_from_slice(&calls);
}

// The member's board, locked, where the arrays have room for what the closing writes.
fn take_with_room(member: &mut SharedMember, room: usize, counts: usize) -> Result<TakenBoard, u32>
    ensures same { member.new ≡ member.old }
    ensures board { IfOk result (λ f. f.board ≡ member.old.board) }
    ensures room { IfOk result (λ f. (f.board.config.max_calls ≤ room) × (counts ≡ f.board.members)) }
    ensures error { IfErr result (λ e. 0 < e) }
    ensures length { lacks_room member.old.board room counts ≡ true → result ≡ Err BAD_LENGTH }
    ensures lock { lacks_room member.old.board room counts ≡ false → IfErr result IsLockError }
{
    if room < member.max_calls() as usize || counts != usize::from(member.members()) {
        return Err(BAD_LENGTH);
    }
    take_locked(member)
}

// The same of the first handle's member.
fn take_first_locked(
    first: &mut AuctionMember,
    room: usize,
    counts: usize,
) -> Result<TakenBoard, u32>
    ensures same { first.new ≡ first.old }
    ensures board { IfOk result (λ f. IsSomeAnd first.old.boxed.value (λ m. f.board ≡ m.board)) }
    ensures room { IfOk result (λ f. (f.board.config.max_calls ≤ room) × (counts ≡ f.board.members)) }
    ensures error { IfErr result (λ e. 0 < e) }
    ensures missing { IfNone first.old.boxed.value (result ≡ Err NO_MEMBER) }
    ensures length { IfSome first.old.boxed.value (λ m.
        lacks_room m.board room counts ≡ true → result ≡ Err BAD_LENGTH) }
    ensures lock { IfSome first.old.boxed.value (λ m.
        lacks_room m.board room counts ≡ false → IfErr result IsLockError) }
{
    if !first.is_open {
        return Err(NO_MEMBER);
    }
    take_with_room(first.boxed.get_mut(), room, counts)
}

fn give_back(first: &mut AuctionMember, locked: TakenBoard)
    requires board { IfSome first.old.boxed.value (λ m. locked.board ≡ m.board) }
    ensures same { first.new ≡ first.old }
{
    if first.is_open {
        first.boxed.get_mut().give_locked(locked);
    }
}

fn end_board(first: &mut AuctionMember, locked: &TakenBoard)
    requires board { IfSome first.old.boxed.value (λ m. locked.now.board ≡ m.board) }
    ensures same { first.new ≡ first.old }
{
    if first.is_open {
        first.boxed.get_mut().shut(locked);
    }
}

/// Closes the board whose members the handles hold.
pub(crate) fn close_all(
    handles: &mut [AuctionMember],
    entries: &mut [AuctionEntry],
    counts: &mut [u32],
    written: &mut usize,
) -> u32
    requires identities { (boards : ℕ → OpenedBoard) × AreOfBoards boards handles.old }
    ensures same { handles.new ≡ handles.old }
    ensures done { result ≡ 0 →
        (board : OpenedBoard) × WritesClosing board handles.old entries.old entries.new counts.new written.new }
    ensures unchanged { 0 < result →
        (entries.new ≡ entries.old) × (counts.new ≡ counts.old) × (written.new ≡ written.old) }
    ensures empty { length handles.old ≡ 0 → result ≡ BAD_LENGTH }
    ensures missing { 0 < length handles.old → IfNone (first_boxed handles.old) (result ≡ NO_MEMBER) }
    ensures length { IfSome (first_boxed handles.old) (λ m.
        lacks_room m.board (length entries.old) (length counts.old) ≡ true → result ≡ BAD_LENGTH) }
    ensures error { IfSome (first_boxed handles.old) (λ m.
        lacks_room m.board (length entries.old) (length counts.old) ≡ false → 0 < result →
        IsCloseError m.board handles.old result) }
{
    if handles.is_empty() {
        return BAD_LENGTH;
    }
    let locked = match take_first_locked(&mut handles[0], entries.len(), counts.len()) {
        Ok(locked) => locked,
        Err(error) => return error,
    };
    let error = accounts_error(handles, counts.len(), &locked);
    if error != DONE {
        give_back(&mut handles[0], locked);
        return error;
    }
    end_board(&mut handles[0], &locked);
    hand_out(locked, entries, counts, written);
    DONE
}
