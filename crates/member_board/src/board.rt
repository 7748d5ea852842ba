//! The board: a lock, and what it keeps.
ghost use Rattle.auction_terms.specs.Day.{IsLegal};

use crate::identity::BoardIdentity;
use crate::locked::LockedBoard;
use crate::versions::{Update, Version};
use auction_terms::Entry;
use board_terms::Closing;
use crossbeam_utils::Backoff;
use left_right::Absorb;
use std::marker::Model;
use std::sync::{Mutex, MutexGuard, Wait};
use std::thread;

/// How often a call tries a lock that another call has before its thread sleeps.
const TRIES: u32 = 100;

/// The longest pause between two tries, in turns of `Backoff::spin`. Where it is reached the thread also lets others
/// have the processor.
const LONGEST_PAUSE: u32 = 16;

// A pause after this many tries, each a little longer than the one before.
fn pause(backoff: &Backoff, tries: u32) {
    for _ in 0..tries.min(LONGEST_PAUSE) {
        backoff.spin();
    }
    if tries >= LONGEST_PAUSE {
        thread::yield_now();
    }
}

/// A board whose day has begun. Threads share it, each calling with members of its own. What the lock keeps is a
/// legal history of the day, whatever was called. Contracts see the number of its members.
#[derive(Drop)]
pub struct Board<K: BoardIdentity>
where
    Version<K>: Absorb<Update<K>, State = ()>,
{
    pub(crate) locked: Mutex<LockedBoard<K>>,
    pub(crate) members: u8,
}

impl<K: BoardIdentity> Model for Board<K>
where
    Version<K>: Absorb<Update<K>, State = ()>,
{
    ghost use Rattle.std.specs.Prelude.{◌≡◌, ℕ};

    ghost Value = { ℕ };

    ghost view = { λ b. b.members };

    ghost invariant = { λ b. b.members ≡ K.parts };
}

impl<K: BoardIdentity> Board<K>
where
    Version<K>: Absorb<Update<K>, State = ()>,
{
    /// The lock, and what it keeps.
    pub fn locked(&self) -> &Mutex<LockedBoard<K>> {
        &self.locked
    }

    // The locked board, once its lock is free. A call is far shorter than the sleep of a thread, so the lock is tried
    // for a while, with longer and longer pauses, in which the one that has it may call again: what a call touches
    // stays where it is.
    pub(crate) fn lock<R: Wait>(&self, rt: &R) -> MutexGuard<'_, LockedBoard<K>> {
        let backoff = Backoff::new();
        for tries in 1..=TRIES {
            if let Some(locked) = self.locked.try_lock() {
                return locked;
            }
            pause(&backoff, tries);
        }
        self.locked.lock(rt)
    }

    /// Ends a board whose day can't be closed, as where a member was lost, and hands out the history so far, which is
    /// legal. It waits for the looks that still read, and gives back all of the board's other room, the two copies too.
    /// A board that is dropped gives back all but these.
    pub fn abandon<R: Wait>(self, rt: &R) -> Vec<Entry>
        ensures { IsLegal K.config result.items }
    {
        let Board { locked, members: _ } = self;
        let (closing, _book, _joined) = locked.into_inner().end(rt);
        let Closing { history, calls: _ } = closing;
        history
    }
}
