//! Laws of journals that are kept. Each is what the function's contract says; the functions do nothing.

ghost use Rattle.live_session.specs.JournaledPromises.{AreWholeLines, LawfulIsGoneOnWith, LeavesFirstEntries};
ghost use Rattle.live_session.specs.JournaledPromises.{LeavesFromOpening};

use journal_file::Device;

/// A journal is whole lines, and what a crash leaves of a session's entries is the journal of the first of them.
pub fn leaves_first_entries()
    ensures whole { AreWholeLines }
    ensures first { LeavesFirstEntries }
{}

/// A session goes on with the journal of a lawful history where that leaves the auction.
pub fn lawful_is_gone_on_with()
    ensures { LawfulIsGoneOnWith }
{}

/// From the opening of its file on, where what was read was on the disk, a session that has begun leaves what the file
/// had, and the first of its entries.
pub fn leaves_from_opening<D: Device>()
    ensures { LeavesFromOpening D.Device }
{}
