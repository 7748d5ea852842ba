//! The calls of an order file as an input.

ghost use Rattle.std.specs.Prelude.{◌-◌, []};
ghost use Rattle.day_road.specs.Inputs.{CanRead, orders_coming};

use crate::input::Input;
use auction_terms::Call;
use order_file::{Calls, FileFault};

impl Input for Calls<'_> {
    ghost coming = { λ c. orders_coming c };

    ghost room = { λ c. c.max_calls - c.count };

    ghost text = { λ _. [] };

    ghost CanRead = { λ c. CanRead c };

    #[tactic(auto, unfolding(journal::specs::EntryRecord::is_reply_text))]
    #[inline(always)]
    fn next(&mut self) -> Result<Option<Call>, FileFault> {
        self.next_call()
    }

    #[inline(always)]
    fn recorded(&self) -> &[u8] {
        b"".as_slice()
    }
}
