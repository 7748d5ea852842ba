//! The calls of a day's history as an input.

ghost use Rattle.std.specs.Prelude.{◌≡◌, [], length};
ghost use Rattle.auction_terms.specs.Day.{calls_of};
ghost use Rattle.day_road.specs.Inputs.{silent_all};

use crate::input::Input;
use auction_terms::{Call, Entry};
use order_file::FileFault;

/// The calls of a history, which come in its order.
#[derive(Drop)]
pub struct History<'a> {
    // The entries whose calls are to come.
    pub(crate) rest: &'a [Entry],
}

impl<'a> History<'a> {
    /// The calls of these entries, of which none has come.
    pub fn new(entries: &'a [Entry]) -> History<'a>
        ensures { result.rest.now ≡ entries.now }
    {
        History { rest: entries }
    }
}

impl Input for History<'_> {
    ghost coming = { λ h. silent_all (calls_of h.rest.now) };

    ghost room = { λ h. length h.rest.now };

    ghost text = { λ _. [] };

    ghost CanRead = { λ _. Unit {0} };

    #[tactic(auto, unfolding(journal::specs::EntryRecord::is_reply_text))]
    fn next(&mut self) -> Result<Option<Call>, FileFault> {
        let Some(entry) = self.rest.first() else {
            return Ok(None);
        };
        let Entry {
            member,
            command,
            ..
        } = *entry;
        let (_, rest) = self.rest.split_at(1);
        self.rest = rest;
        Ok(Some(Call { member, command }))
    }

    fn recorded(&self) -> &[u8] {
        b"".as_slice()
    }
}
