//! The views of an auction: records that ask what the state is, and are no calls.
//!
//! `is_view` says whether a record is a view, `view_of` reads it, and `put_view` appends its text to a kept text. A
//! view changes nothing.
#![tactic(auto)]

mod ladder;
mod row;
mod table;
mod text;
mod view;

pub use text::put_view;
pub use view::{View, is_view, view_of};
