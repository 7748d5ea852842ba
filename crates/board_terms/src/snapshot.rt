//! What a board shows.
ghost use Rattle.std.specs.Prelude.{◌≡◌};

use crate::calls::Shown;
use crate::evidence::Front;

/// A beginning of the list of all calls, and what is shown after it.
#[derive(Drop)]
pub struct Snapshot {
    pub front: Front,
    pub shown: Shown,
}

impl Snapshot {
    /// A copy.
    pub fn again(&self) -> Snapshot
        ensures { result ≡ self.now }
    {
        Snapshot {
            front: self.front.again(),
            shown: self.shown,
        }
    }
}
