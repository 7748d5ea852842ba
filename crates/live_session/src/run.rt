//! A live session from its beginning to its end.

ghost use Rattle.std.specs.Prelude.{List, ℕ};
ghost use Rattle.live_session.specs.Hearing.{IsNewSession};
ghost use Rattle.live_session.specs.Talk.{EndsSession, IsAnswered, MayBeWritten};

use crate::conversation::Conversation;
use crate::fault::{Ending, LiveFault};
use crate::session::Session;
use crate::terms::SessionTerms;
use auction::Auction;
use std::alloc::Global;

/// How many bytes are read at a time at most.
pub const ROOM_OF_A_READ: usize = 65_536;

/// Answers what comes on a session of which nothing has come, each time before it reads on.
fn take_turns<C: Conversation>(
    alloc: Global,
    talk: &mut C,
    session: &mut Session,
) -> Result<Ending, LiveFault>
    requires begun { IsNewSession session.old session.old.responder.terms session.old.responder.auction }
    requires reads { (now : C)
        → IsAnswered C.Conversation session.old.responder.terms session.old.responder.auction talk.old now
        → C.MayRead now }
    requires writes { (now : C) (text : List ℕ)
        → MayBeWritten C.Conversation session.old.responder.terms session.old.responder.auction talk.old now text
        → C.MayWrite now text }
    ensures { EndsSession C.Conversation session.old.responder.terms session.old.responder.auction talk.old talk.new
        result }
{
    let mut chunk = [0u8; ROOM_OF_A_READ];
    'turns: for _ in 0..u64::MAX {
        let Ok(count) = talk.read(&mut chunk) else {
            return Err(LiveFault::ReadFailed);
        };
        if count == 0 {
            let Ok(()) = session.end() else {
                return Err(LiveFault::NoMemory);
            };
            session.responder.give(talk)?;
            return Ok(session.responder.ending());
        }
        let Ok(()) = session.hear(alloc, &chunk[..count]) else {
            return Err(LiveFault::NoMemory);
        };
        session.responder.give(talk)?;
    }
    Err(LiveFault::NoMemory)
}

/// Answers the records of an input one by one on this auction, each before it reads on.
///
/// A record is a line, without a byte order mark before it; blank lines are passed over. A good one is a call, and its
/// answer the line of the reply, with the call's place in the day, from 1. A bad one runs nothing, and its answer is
/// `record`, its place in the input, from 1, and its fault: a line of more than `MAX_RECORD_BYTES` bytes, a quote that
/// isn't closed in it, the fault that it would have in an order file; a member's call where the day has no more calls
/// than `reserve`, or any record where it has none; and the line that the input ends in, if it has no line end, which
/// is never executed.
///
/// Before the device is read, the answers to all lines that have ended are written (`reads`), and before they are
/// written, the entries of their calls are committed (`writes`). A session ends with its input, at the first read,
/// commit or write that fails, or where memory is refused.
pub fn run_live<C: Conversation>(
    alloc: Global,
    talk: &mut C,
    auction: Auction,
    terms: SessionTerms,
) -> Result<Ending, LiveFault>
    // The device has to let itself be read wherever all that has come is answered, and nowhere else.
    requires reads { (now : C) → IsAnswered C.Conversation terms auction talk.old now → C.MayRead now }
    // It has to let an answer be written wherever the entries up to it are committed, and nowhere else.
    requires writes { (now : C) (text : List ℕ) → MayBeWritten C.Conversation terms auction talk.old now text
        → C.MayWrite now text }
    ensures { EndsSession C.Conversation terms auction talk.old talk.new result }
{
    let Ok(mut session) = Session::new(alloc, auction, terms) else {
        return Err(LiveFault::NoMemory);
    };
    take_turns(alloc, talk, &mut session)
}
