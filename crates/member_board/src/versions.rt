//! The two copies of what the board shows, which looks read, kept by `left_right`: readers take one with no lock while
//! the locked board changes the other, and then the two are swapped. Each copy is a snapshot of the board.
ghost use Rattle.std.specs.Prelude.{◌≡◌, ◌^◌, ◌<◌, false, IfOk, IsTrue};
ghost use Rattle.board_terms.specs.BoardViews.{IsSnapshotOf, opened_board};

use crate::identity::BoardIdentity;
use board_terms::Snapshot;
use core::mem::replace_with;
use crossbeam_utils::rule::Unruled;
use left_right::Absorb;
use left_right::reader::Reader;
use left_right::writer::Writer;
use std::alloc::{AllocError, Global};
use std::marker::{Model, PhantomData};
use std::mem::ManuallyDrop;
use std::sync::atomic::Ordering::SeqCst;
use std::sync::atomic::{AtomicBool, AtomicU32};
use std::sync::{Arc, Wait};

/// What the board that K names shows. Contracts see the calls that it is shown after.
#[derive(Drop)]
pub(crate) struct BoardView<K: BoardIdentity> {
    snapshot: Snapshot,
    of: PhantomData<K>,
}

impl<K: BoardIdentity> Model for BoardView<K> {
    ghost use Rattle.std.specs.Prelude.{List};
    ghost use Rattle.auction_terms.specs.declared.Call.{Call};
    ghost use Rattle.board_terms.specs.BoardViews.{IsSnapshotOf, opened_board};

    ghost Value = { List Call };

    ghost view = { λ v. v.snapshot.front.log };

    ghost invariant = { λ v.
        IsSnapshotOf (opened_board 0 K.config K.parts K.story) v.snapshot.front v.snapshot.shown };
}

impl<K: BoardIdentity> BoardView<K> {
    pub(crate) fn of(snapshot: Snapshot) -> BoardView<K>
        requires { IsSnapshotOf (opened_board 0 K.config K.parts K.story) snapshot.front snapshot.shown }
        ensures { result ≡ snapshot.front.log }
    {
        BoardView {
            snapshot,
            of: PhantomData,
        }
    }

    // A copy.
    fn again(&self) -> BoardView<K>
        ensures { result ≡ self.now }
    {
        BoardView::of(self.snapshot.again())
    }

    pub(crate) fn into_snapshot(self) -> Snapshot
        ensures { IsSnapshotOf (opened_board 0 K.config K.parts K.story) result.front result.shown }
    {
        self.snapshot
    }
}

/// Unused bytes on each side of a value, so that no other value is on a cache line of 64 bytes with it: who reads it
/// doesn't wait for a write to something else.
const APART: [u64; 8] = [0; 8];

/// How many calls the copies show, for members that look again and again. Nothing rests on it.
#[derive(Drop)]
#[repr(C)]
pub(crate) struct Latest {
    before: [u64; 8],
    is_watched: AtomicBool,
    calls: AtomicU32,
    after: [u64; 8],
}

impl Latest {
    pub(crate) fn new() -> Latest {
        Latest {
            before: APART,
            is_watched: AtomicBool::new(false),
            calls: AtomicU32::new(0),
            after: APART,
        }
    }

    // Stores that the copies show `calls` calls by now, if any member looks.
    pub(crate) fn store_if_watched(&self, calls: u32) {
        if self.is_watched.load(SeqCst) {
            self.calls.store(calls, SeqCst);
        }
    }
}

/// A member's watch over what the copies show. It begins with the member's first look, which reads a copy: what that
/// may miss is shown after it, and so is stored.
#[derive(Drop)]
struct Watch {
    latest: Arc<Latest>,
    is_on: bool,
}

impl Watch {
    // Whether the copies may show more than `calls` calls.
    fn may_find_more(&mut self, calls: u32) -> bool
        ensures first { self.old.is_on ≡ false → IsTrue result }
        ensures watches { IsTrue self.new.is_on }
    {
        if self.is_on {
            return self.latest.calls.load(SeqCst) > calls;
        }
        self.latest.is_watched.store(true, SeqCst);
        self.is_on = true;
        true
    }
}

/// A copy of what the board shows, which looks read.
#[derive(Drop)]
#[repr(C)]
pub struct Version<K: BoardIdentity> {
    before: [u64; 8],
    view: BoardView<K>,
    after: [u64; 8],
}

impl<K: BoardIdentity> Version<K> {
    fn of(view: BoardView<K>) -> Version<K>
        ensures { result.view ≡ view }
    {
        Version {
            before: APART,
            view,
            after: APART,
        }
    }
}

/// An operation on a copy, of which there is none: the locked board writes what a copy shows whole, so nothing has to
/// be kept until both copies have it.
#[derive(Drop)]
pub struct Update<K: BoardIdentity> {
    of: PhantomData<K>,
}

impl<K: BoardIdentity> Absorb<Update<K>> for Version<K> {
    type State = ();

    ghost state = { λ v. tt };

    ghost applied = { λ s o. s };

    ghost never_fails = { Unit {0} };

    fn absorb_first(&mut self, _update: &Update<K>, _other: &Version<K>) -> Result<(), AllocError> {
        Ok(())
    }
}

type CopyWriter<K> = Writer<Version<K>, Update<K>, (), Unruled>;

type CopyReader<K> = Reader<Version<K>, (), Unruled>;

// What a reader finds, if there is a copy. It takes no lock and no memory.
fn read<K: BoardIdentity>(
    reader: CopyReader<K>,
    _nothing: (),
) -> (CopyReader<K>, Option<BoardView<K>>) {
    match reader.enter_as::<Unruled>() {
        Ok(reading) => {
            let view = reading.get().view.again();
            (reading.leave(), Some(view))
        }
        Err(reader) => (reader, None),
    }
}

/// What a member looks with: a reader of the copies, and a watch over how many calls they show.
#[derive(Drop)]
pub(crate) struct Viewer<K: BoardIdentity> {
    reader: CopyReader<K>,
    watch: Watch,
}

impl<K: BoardIdentity> Viewer<K> {
    // What a copy shows, where there is one and it may have more than `calls` calls. It takes no lock and no memory.
    pub(crate) fn find_after(&mut self, calls: u32) -> Option<BoardView<K>> {
        if self.watch.may_find_more(calls) {
            replace_with(&mut self.reader, (), read::<K>)
        } else {
            None
        }
    }
}

/// The two copies, and how many calls they show, as the locked board has them. Contracts see the calls after which
/// readers are shown the display.
pub(crate) struct Copies<K: BoardIdentity>
where
    Version<K>: Absorb<Update<K>, State = ()>,
{
    writer: CopyWriter<K>,
    latest: Arc<Latest>,
}

impl<K: BoardIdentity> Model for Copies<K>
where
    Version<K>: Absorb<Update<K>, State = ()>,
{
    ghost use Rattle.std.specs.Prelude.{List};
    ghost use Rattle.auction_terms.specs.declared.Call.{Call};

    ghost Value = { List Call };

    ghost view = { λ c. c.writer.desk.shown.value.view };
}

impl<K: BoardIdentity> Drop for Copies<K>
where
    Version<K>: Absorb<Update<K>, State = ()>,
{
    // Only a writer that may wait for the readers can give the copies back, and a drop may not wait. So they are
    // leaked.
    fn drop(self) {
        let Self {
            writer,
            latest: _latest,
        } = self;
        let _left = unsafe { ManuallyDrop::new_unchecked(writer) };
    }
}

impl<K: BoardIdentity> Copies<K>
where
    Version<K>: Absorb<Update<K>, State = ()>,
{
    // Two copies of what is shown at first, and room for `readers` readers.
    pub(crate) fn open(
        alloc: Global,
        opening: &BoardView<K>,
        readers: usize,
    ) -> Result<Copies<K>, AllocError>
        requires { (0 < readers) × (readers < 2 ^ 32) }
        ensures { IfOk result (λ copies. copies ≡ opening.now) }
    {
        let first = Version::of(opening.again());
        let second = Version::of(opening.again());
        let latest = Arc::new(alloc, Latest::new())?;
        Ok(Copies {
            writer: Writer::new(alloc, first, second, readers)?,
            latest,
        })
    }

    // What one member looks with.
    pub(crate) fn viewer(&self) -> Result<Viewer<K>, AllocError> {
        let watch = Watch {
            latest: Arc::try_clone(&self.latest)?,
            is_on: false,
        };
        let reader = self.writer.factory().reader()?;
        Ok(Viewer { reader, watch })
    }

    // Waits for the readers, and gives the copies back.
    pub(crate) fn end<R: Wait>(self, rt: &R) {
        let Self {
            writer,
            latest: _latest,
        } = self;
        drop(writer.take(rt));
    }

    // Shows readers this. It waits for those that still read the copy that is next, and takes no memory.
    pub(crate) fn publish<R: Wait>(&mut self, rt: &R, view: BoardView<K>)
        ensures { self.new ≡ view }
    {
        let calls = view.snapshot.shown.calls;
        replace_with(&mut self.writer.desk, (rt, view), |desk, (rt, view)| {
            let (open, mut spare) = desk.open(rt);
            spare.view = view;
            (open.show_as::<Unruled>(spare), ())
        });
        self.latest.store_if_watched(calls);
    }
}
