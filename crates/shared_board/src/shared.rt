//! What the members of a board share: the lock with what it keeps, and the copies that looks read.
ghost use Rattle.std.specs.Prelude.{◌≡◌, ◌<◌, ◌⊎◌, All, IfSome, IfErr, IfOk, option_map};
ghost use Rattle.board_terms.specs.BoardViews.{IsSnapshotOf};

use crate::locked::{ShownCopy, TakenBoard};
use crate::member::BoardFault;
use board_terms::Snapshot;
use counted_slot::{Counted, FREE, MARKED, MOST_READERS, ONE_READER, PRESENT, TAKEN};
use std::hint::spin_loop;
use std::sync::atomic::AtomicU64;
use std::sync::atomic::Ordering::SeqCst;

/// How often a call tries a lock that another call has, with the rests of `rest` between.
const TRIES: u32 = 32;

/// After how many tries the rests between them grow no longer.
const LONGER_RESTS: u32 = 6;

/// How often a look tries a copy that is just being written.
const LOOKS: u32 = 100;

/// The word of the lock while a call has the locked board.
const LENT: u64 = PRESENT;

/// The word of the lock once the board was closed.
const CLOSED: u64 = MARKED;

/// What `newest` is until somebody looks. Calls show nothing then.
pub(crate) const UNWATCHED: u64 = u64::MAX;

/// Nobody has looked yet.
pub(crate) struct Unwatched;

/// The word of the lock is `FREE` while the locked board is in it.
#[derive(Drop)]
pub(crate) struct Shared {
    pub(crate) locked: Counted<Option<TakenBoard>>,
    pub(crate) copies: Vec<Counted<Option<ShownCopy>>>,
    pub(crate) newest: AtomicU64,
    ghost same: { All (λ p. p ≡ locked) copies.items },
}

// Changes the word of the slot and gets what is in it, where the word is as it was.
fn swap_locked(
    slot: &Counted<Option<TakenBoard>>,
    old: u64,
    locked: Option<TakenBoard>,
    new: u64,
) -> Result<Option<TakenBoard>, Option<TakenBoard>>
    requires words { (old < 2) × (new < 3) }
    requires fits { IfSome locked (λ f. f.board ≡ slot.now) }
    ensures { IfOk result (λ x. IfSome x (λ f. f.board ≡ slot.now)) }
{
    let (found, claim) = slot.turn(old, TAKEN);
    if found != old {
        claim.done();
        return Err(locked);
    }
    Ok(claim.put(locked, new))
}

// Rests after so many tries, each time twice as long up to 64 times: who has just given the locked board back has its
// memory at hand, and a lock that is asked all the time is slow for who has it.
fn rest(tries: u32) {
    for _ in 0..1u32 << tries.min(LONGER_RESTS) {
        spin_loop();
    }
}

impl Shared {
    /// The locked board, if no other call has it, or gives it back soon.
    pub(crate) fn take(&self) -> Result<TakenBoard, BoardFault>
        ensures locked { IfOk result (λ locked. locked.board ≡ self.now.locked) }
        ensures fault { IfErr result (λ f. (f ≡ BoardFault.Busy) ⊎ (f ≡ BoardFault.Closed)) }
    {
        for tries in 0..TRIES {
            let word = self.locked.load();
            if word == CLOSED {
                return Err(BoardFault::Closed);
            }
            if word == FREE {
                if let Ok(Some(locked)) = swap_locked(&self.locked, FREE, None, LENT) {
                    return Ok(locked);
                }
            }
            rest(tries);
        }
        Err(BoardFault::Busy)
    }

    /// Keeps the locked board out for good, once it was taken.
    pub(crate) fn shut(&self) {
        let _ = swap_locked(&self.locked, LENT, None, CLOSED);
    }

    /// Gives the locked board back. It alone changes the word while the locked board is lent, so this succeeds always.
    pub(crate) fn give(&self, locked: TakenBoard)
        requires { locked.board ≡ self.now.locked }
    {
        let _ = swap_locked(&self.locked, LENT, Some(locked), FREE);
    }

    /// Whether somebody has looked.
    pub(crate) fn is_watched(&self) -> bool {
        self.newest.load(SeqCst) != UNWATCHED
    }

    /// Writes what is shown now into a copy that nobody reads, and names it the newest. There are more copies than
    /// members, so there is one.
    pub(crate) fn publish(&self, view: Snapshot)
        requires { IsSnapshotOf self.now.locked view.front view.shown }
    {
        let calls = u64::from(view.shown.calls);
        let mut at = self.newest.load(SeqCst) as usize % 256;
        let mut view = view;
        for _ in 0..self.copies.len() {
            at = at.wrapping_add(1);
            if at >= self.copies.len() {
                at = 0;
            }
            match write_copy(&self.copies[at], view) {
                None => {
                    self.newest.store(calls * 256 + at as u64 % 256, SeqCst);
                    return;
                }
                Some(back) => view = back,
            }
        }
    }

    /// The newest copy, unless it shows just `seen` calls.
    pub(crate) fn newest(&self, seen: u32) -> Result<Option<Snapshot>, Unwatched>
        ensures { IfOk result (λ found. IfSome found (λ v. IsSnapshotOf self.now.locked v.front v.shown)) }
    {
        for _ in 0..LOOKS {
            let word = self.newest.load(SeqCst);
            if word / 256 == u64::from(seen) {
                return Ok(None);
            }
            if word == UNWATCHED {
                return Err(Unwatched);
            }
            let at = (word % 256) as usize;
            if at < self.copies.len() {
                let view = read_copy(&self.copies[at]);
                if view.is_some() {
                    return Ok(view);
                }
            }
            spin_loop();
        }
        Ok(None)
    }
}

// Writes the view into the copy, or gives it back where somebody reads or writes the copy.
fn write_copy(slot: &Counted<Option<ShownCopy>>, view: Snapshot) -> Option<Snapshot>
    requires { IsSnapshotOf slot.now view.front view.shown }
    ensures { IfSome result (λ v. v ≡ view) }
{
    let seen = slot.load();
    if seen % 4 == TAKEN || seen % 0x1_0000_0000 / 4 != 0 {
        return Some(view);
    }
    let (found, claim) = slot.turn(seen, TAKEN);
    if found != seen {
        claim.done();
        return Some(view);
    }
    claim.put(Some(ShownCopy { view }), PRESENT);
    None
}

// Reads the copy, where nobody writes it.
fn read_copy(slot: &Counted<Option<ShownCopy>>) -> Option<Snapshot>
    ensures { IfSome result (λ v. IsSnapshotOf slot.now v.front v.shown) }
{
    let seen = slot.load();
    if seen % 4 != PRESENT || seen % 0x1_0000_0000 / 4 == MOST_READERS {
        return None;
    }
    let (found, claim) = slot.turn(seen, seen + ONE_READER);
    if found != seen {
        claim.done();
        return None;
    }
    let view = copied(claim.get());
    claim.leave();
    view
}

fn copied(shown: &Option<ShownCopy>) -> Option<Snapshot>
    ensures { result ≡ option_map (λ s. s.view) shown.now }
{
    match shown {
        Some(copy) => Some(copy.view.again()),
        None => None,
    }
}
