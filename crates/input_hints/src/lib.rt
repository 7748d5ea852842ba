//! Why an input is likely to be bad: a source that keeps how its bytes began, and the likely cause of a fault of its
//! first record, or of its day's bounds, by that beginning.
#![tactic(auto)]

mod day_bounds;
mod field;
mod hint;
mod input;
mod record;
mod start;
mod start_keeper;

pub use day_bounds::{Bounds, BoundsHint, bounds_hint, hint_of_bounds};
pub use field::is_like_file;
pub use hint::{Hint, put_hint};
pub use input::hint_of;
pub use record::{DayTerms, hint_of_record};
pub use start::{ROOM, Start};
pub use start_keeper::{KeepsStart, StartKeeper};
