//! Lists of numbers, eight lanes at a time: running sums and where two of them meet, comparisons and choices.
#![tactic(auto)]

mod choices;
mod running_sums;

pub use choices::{
    any, first, first_positive, gap_size, greatest_where, keep_above, keep_equal, last,
    last_positive, least_where, lesser,
};
pub use running_sums::{Meeting, falling, meet, rising, total};
