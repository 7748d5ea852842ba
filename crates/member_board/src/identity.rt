//! One opening, named by a type parameter.

use std::marker::Brand;
use std::sync::ledger::Ledger;

/// One opening of a board, as the types `Board`, `LockedBoard` and `Member` name it: its config, its ledger, of which
/// each member has one part, and the story of its calls. A day is done in a function over `K: BoardIdentity` that is
/// called with `Brand`.
pub trait BoardIdentity: Ledger {
    ghost use Rattle.auction_terms.specs.declared.Config.{Config};
    ghost use Rattle.logbook.specs.Pages.{Book};

    ghost config: { Config };

    ghost story: { Book };
}

impl BoardIdentity for Brand {
    ghost use Rattle.std.specs.Prelude.{None};

    ghost config = { record { low = 0; high = 0; reference = 0; max_open = 0; max_calls = 0; range = None } };

    ghost story = { record { number = 0; log_name = 0; cells_name = 0 } };
}
