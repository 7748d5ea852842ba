//! What a member is shown of its board, locked: the ladder, the trades, where the day is, the entries of the history.
ghost use Rattle.std.specs.Prelude.{◌≡◌, ◌<◌, drop, length};
ghost use Rattle.auction_c.specs.BoardCalls.{IsLadderError, IsShowError, ShowsEntries, ShowsLadder, ShowsState};
ghost use Rattle.auction_c.specs.BoardCalls.{ShowsTrades};
ghost use Rattle.auction_c.specs.Calling.{ladder_error, ticks_of};

use crate::board::taking::{see_locked, take_locked, take_seen_locked};
use crate::copying::{copy_entries, copy_ladder, copy_trades};
use crate::encoding::state_out;
use crate::errors::{BAD_LENGTH, DONE};
use crate::structs::{AuctionDayState, AuctionEntry, AuctionMarketOrders, AuctionTrade};
use auction_terms::{Entry, Trade};
use shared_board::SharedMember;

/// The trades after the first ones.
pub(crate) fn trades_after(tape: &[Trade], seen: usize) -> &[Trade]
    ensures { result.now ≡ drop seen tape.now }
{
    &tape[seen.min(tape.len())..]
}

// The entries after the first ones.
fn entries_after(history: &[Entry], seen: usize) -> &[Entry]
    ensures { result.now ≡ drop seen history.now }
{
    &history[seen.min(history.len())..]
}

/// Copies the quantities of the orders that count, once the member has seen all calls.
#[tactic(auto, using(crate::proofs::LadderTicksLaws::ticks_after))]
pub(crate) fn show_ladder(
    member: &mut SharedMember,
    bids: &mut [u64],
    asks: &mut [u64],
    market: &mut AuctionMarketOrders,
    calls: &mut u32,
) -> u32
    ensures done { result ≡ 0 → ShowsLadder bids.new asks.new market.new calls.new member.old member.new }
    ensures member { 0 < result → member.new ≡ member.old }
    ensures error { 0 < result → IsLadderError member.old (length bids.old) (length asks.old) result }
    ensures length { result ≡ 0 →
        ladder_error (ticks_of member.old.board.config) (length bids.old) (length asks.old) ≡ 0 }
    ensures arrays { 0 < result → (bids.new ≡ bids.old) × (asks.new ≡ asks.old) }
    ensures numbers { 0 < result → (market.new ≡ market.old) × (calls.new ≡ calls.old) }
{
    let locked = match take_locked(member) {
        Ok(locked) => locked,
        Err(error) => return error,
    };
    let ticks = locked.ladder().bids().len();
    if bids.len() != ticks || asks.len() != ticks {
        member.give_locked(locked);
        return BAD_LENGTH;
    }
    let locked = match see_locked(member, locked) {
        Ok(locked) => locked,
        Err(error) => return error,
    };
    let error = copy_ladder(locked.ladder(), bids, asks, market);
    *calls = locked.calls();
    member.give_locked(locked);
    error
}

/// Copies the trades after the first ones, once the member has seen all calls.
pub(crate) fn show_trades(
    member: &mut SharedMember,
    seen: usize,
    trades: &mut [AuctionTrade],
    copied: &mut usize,
    calls: &mut u32,
) -> u32
    ensures done { result ≡ 0 → ShowsTrades seen trades.old trades.new copied.new calls.new member.old member.new }
    ensures member { 0 < result → member.new ≡ member.old }
    ensures error { 0 < result → IsShowError member.old result }
    ensures same { 0 < result → (trades.new ≡ trades.old) × (copied.new ≡ copied.old) × (calls.new ≡ calls.old) }
{
    let locked = match take_seen_locked(member) {
        Ok(locked) => locked,
        Err(error) => return error,
    };
    *copied = copy_trades(trades_after(locked.tape(), seen), trades);
    *calls = locked.calls();
    member.give_locked(locked);
    DONE
}

/// Writes where the day is, once the member has seen all calls.
pub(crate) fn show_state(
    member: &mut SharedMember,
    reserve: u32,
    state: &mut AuctionDayState,
) -> u32
    ensures done { result ≡ 0 → ShowsState reserve state.new member.old member.new }
    ensures member { 0 < result → member.new ≡ member.old }
    ensures error { 0 < result → IsShowError member.old result }
    ensures same { 0 < result → state.new ≡ state.old }
{
    let locked = match take_seen_locked(member) {
        Ok(locked) => locked,
        Err(error) => return error,
    };
    *state = state_out(locked.auction(), reserve);
    member.give_locked(locked);
    DONE
}

/// Copies the entries of the history after the first ones, once the member has seen all calls.
pub(crate) fn show_entries(
    member: &mut SharedMember,
    seen: usize,
    entries: &mut [AuctionEntry],
    copied: &mut usize,
) -> u32
    ensures done { result ≡ 0 → ShowsEntries seen entries.old entries.new copied.new member.old member.new }
    ensures member { 0 < result → member.new ≡ member.old }
    ensures error { 0 < result → IsShowError member.old result }
    ensures same { 0 < result → (entries.new ≡ entries.old) × (copied.new ≡ copied.old) }
{
    let locked = match take_seen_locked(member) {
        Ok(locked) => locked,
        Err(error) => return error,
    };
    *copied = copy_entries(entries_after(locked.history(), seen), entries);
    member.give_locked(locked);
    DONE
}
